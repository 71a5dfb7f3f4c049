//! Receiving mail from a client: a session over the lines of a channel.

ghost use Rattle.std.specs.Prelude.{◌≡◌, []};
ghost use Rattle.ascii_lines.specs.Serve.{IsUp};
ghost use Rattle.example_smtp.specs.Deliveries.{Receives};
ghost use Rattle.example_smtp.specs.Mail.{idle};

use crate::folder::Folder;
use crate::session::{Session, Stage};
use ascii_lines::{Channel, LineChannel, Stop, serve};
use std::alloc::Allocator;

/// Receives mail until the client leaves, the input ends, or an error occurs, and returns why it stopped. The folder
/// has stored each message that got its 250, once and whole, after the envelope of the commands before it that got
/// theirs; and nothing that was there was replaced or removed. The session has counted them.
///
/// Condition: no call of the device to write has failed, and the session is a new one.
pub fn receive<C: Channel, A: Allocator, F: Folder>(
    lines: &mut LineChannel<C, A>,
    session: &mut Session<F>,
) -> Stop
    requires lines { IsUp lines.old.state }
    requires session { session.old ≡ idle Stage.Greeting [] 20 0 session.old.folder }
    ensures { Receives lines.old.state session.old result lines.new.state session.new }
{
    serve(lines, session)
}
