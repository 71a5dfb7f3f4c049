//! The mode `Tac`.

ghost use Rattle.ascii.specs.View.{text_of};
ghost use Rattle.ascii_devices.specs.Buffered.{MayFail, output_state};
ghost use Rattle.ascii_run.specs.OutputState.{AppendsOutputTo};

use super::Mode;
use super::lines::put_line;
use ascii::AsciiStr;
use ascii_devices::{BufferedSink, Sink};
use std::alloc::Allocator;

/// Appends the body of each line and LF, the last line first.
pub(super) fn put_tac<K: Sink, A: Allocator>(
    text: AsciiStr<'_>,
    buffer: &mut BufferedSink<A>,
    writer: &mut K,
)
    requires { MayFail (output_state K.Sink writer.old buffer.old) }
    ensures { AppendsOutputTo Mode.Tac (text_of text.entry)
        K.Sink writer.old buffer.old writer.new buffer.new }
{
    for body in text.lines().rev() {
        put_line(body, buffer, writer);
    }
}
