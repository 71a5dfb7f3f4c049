//! The mode `Edit`.

ghost use Rattle.std.specs.Prelude.{◌≡◌, IfErr, OnErr, OnOk};
ghost use Rattle.ascii_run.specs.Engine.{StopsOutput};
ghost use Rattle.ascii_devices.specs.Buffered.{MayFail, output_state};
ghost use Rattle.ascii_run.specs.OutputState.{AppendsOutputTo};

use super::Mode;
use crate::commands::{Cmd, edit};
use crate::faults::EngineFault;
use ascii::AsciiString;
use ascii_devices::{BufferedSink, Sink};
use std::alloc::Allocator;

/// Carries out the commands on the text, in the buffer that it has, and appends it. On error,
/// nothing has been appended.
pub(super) fn put_edit<K: Sink, A: Allocator + Copy>(
    alloc: A,
    text: AsciiString<A>,
    cmds: &[Cmd<'_>],
    buffer: &mut BufferedSink<A>,
    writer: &mut K,
) -> Result<(), EngineFault>
    requires { MayFail (output_state K.Sink writer.old buffer.old) }
    ensures ok { OnOk result (AppendsOutputTo (Mode.Edit cmds.entry) text.text
        K.Sink writer.old buffer.old writer.new buffer.new) }
    ensures err { IfErr result (StopsOutput (Mode.Edit cmds.entry) text.text) }
    ensures kept { OnErr result (writer.new ≡ writer.old) }
{
    let mut output = text;
    edit(alloc, &mut output, cmds)?;
    buffer.put(writer, output.as_ascii_str().as_bytes());
    Ok(())
}
