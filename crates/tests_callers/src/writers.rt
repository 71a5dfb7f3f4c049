//! Callers of a writer of lines.

ghost use Rattle.std.specs.Prelude.{◌≡◌, ◌++◌, ◌∷◌, [], IsErr, OnOk};
ghost use Rattle.std.specs.Io.KnownBytes.{Appends};
ghost use Rattle.std.specs.List.{Contains};
ghost use Rattle.ascii.specs.View.{text_of};
ghost use Rattle.ascii_lines.specs.LineWriter.{IsReady};

use ascii_lines::{AsciiStr, Ending, LineWriter, Sink, WriteError};
use std::alloc::Allocator;

/// Writes two lines and flushes the writer: then the sink has taken both, one after the other.
pub fn write_two_lines<K: Sink, A: Allocator>(
    writer: &mut LineWriter<K, A>,
    first: AsciiStr<'_>,
    second: AsciiStr<'_>,
) -> Result<(), WriteError>
    requires ready { IsReady writer.old }
    requires empty { writer.old.state.buffer.bytes ≡ [] }
    ensures { OnOk result (Appends writer.old.state.taken writer.new.state.taken
        ((text_of first.entry ++ 10 ∷ []) ++ (text_of second.entry ++ 10 ∷ []))) }
{
    writer.write_line(first, Ending::Lf)?;
    writer.write_line(second, Ending::Lf)?;
    writer.flush()
}

/// Writes a body as a line, unless it has an LF: then it is an error, and nothing is written.
pub fn write_one_line<K: Sink, A: Allocator>(
    writer: &mut LineWriter<K, A>,
    body: AsciiStr<'_>,
) -> Result<(), WriteError>
    ensures { Contains (text_of body.entry) 10 → IsErr result × (writer.new ≡ writer.old) }
{
    writer.write_line(body, Ending::Lf)
}
