//! A conversation with a client: a session over the lines and words of a channel.

ghost use Rattle.ascii_lines.specs.Serve.{IsUp, Serves};
ghost use Rattle.example_resp.specs.Conversations.{session_answers, session_refuses};
ghost use Rattle.example_resp.specs.Session.{IsFresh, state_of};

use crate::session::Session;
use ascii_lines::{Channel, LineChannel, Stop, serve};
use std::alloc::Allocator;

/// Answers the requests of a client until the input ends or an error occurs, and returns why it stopped. At each
/// read of the device, every request that came before has been answered, and every reply sent.
///
/// Condition: no call of the device to write has failed, and the session is a new one.
pub fn converse<C: Channel, A: Allocator>(
    lines: &mut LineChannel<C, A>,
    session: &mut Session,
) -> Stop
    requires lines { IsUp lines.old.state }
    requires session { IsFresh (state_of session.old) }
    ensures { Serves session_answers session_refuses lines.old.state session.old result
        lines.new.state session.new }
{
    serve(lines, session)
}
