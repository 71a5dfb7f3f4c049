//! A loop over the lines of an input, which has its proof already.

ghost use Rattle.std.specs.Prelude.{◌≡◌, ◌<◌, ◌-◌, ◌^◌, ◌∷◌, ◌++◌, [], IfErr, None, OnOk, Some, length};
ghost use Rattle.ascii_lines.specs.CollectedLines.{FoldsLines};
ghost use Rattle.ascii_lines.specs.LineReader.{IsOpen, read_line_in};

use crate::line_reader::{LineError, LineReader, ReadLine};
use ascii_devices::Source;
use std::alloc::Allocator;

/// A state that each line of an input changes.
///
/// An implementation says what is true of the state after any lines (`after`), which is what `fold_lines` then
/// promises of all lines.
pub trait LineStep {
    ghost use Rattle.std.specs.Prelude.{List};
    ghost use Rattle.ascii.specs.Lines.{Line};
    ghost use Rattle.ascii.specs.Spans.{WithStart};

    // What is true of the state after these lines.
    ghost after: { List (WithStart Line) → Self → Type 0 };

    /// Changes the state by the next line.
    ///
    /// Condition: the state is as it is after some lines, of which there are fewer than `u64::MAX`.
    ///
    /// In the examples, `LineCount` is a state with the number of lines.
    ///
    ///     let mut lines = LineCount { count: 0 };
    ///     lines.step(ReadLine { start: 0, text: AsciiStr::literal("ab"), ending: Ending::Lf });
    ///     lines.count // 1
    fn step(&mut self, line: ReadLine<'_>)
        requires { (lines : List (WithStart Line)) × after lines self.old
            × (length lines < 2 ^ 64 - 1) }
        ensures { (lines : List (WithStart Line)) → after lines self.old
            → after (lines ++ read_line_in line.entry ∷ []) self.new };
}

/// Changes a state by each line that a reader has yet to return, in order, up to the end of the input, or returns the
/// error of the reader after the lines before it.
///
/// The lines are the first lines of the bytes that the source gives, and all of them if there is no error.
///
/// Condition: the reader is open: it has not returned `None`, a line or text without an ending, or an error; or
/// `skip_line` has read over the line of that error up to its ending. The state is as it is after no line.
///
///     let source = Input::new(b"ab\n\xff".as_slice());
///     let mut reader = LineReader::new(alloc, source, 64, Endings::Any)?;
///     let mut lines = LineCount { count: 0 };
///     fold_lines(&mut reader, &mut lines) // Err(NotAscii(3))
///     lines.count // 1
pub fn fold_lines<S: Source, A: Allocator, F: LineStep>(
    reader: &mut LineReader<S, A>,
    state: &mut F,
) -> Result<(), LineError>
    requires open { IsOpen reader.old }
    requires before { F.after [] state.old }
    ensures all { OnOk result
        (FoldsLines F.after reader.old.state state.new None reader.new.state) }
    ensures until { IfErr result (λ error.
        FoldsLines F.after reader.old.state state.new (Some error) reader.new.state) }
{
    'lines: loop {
        match reader.next_line() {
            Ok(Some(line)) => state.step(line),
            Ok(None) => return Ok(()),
            Err(error) => return Err(error),
        }
    }
}
