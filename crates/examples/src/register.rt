//! Answers the lines of standard input as a register does: `GET` replies with the line that is kept, `QUIT` closes,
//! and any other line is kept.
#![tactic(auto)]

ghost use Rattle.std.specs.Prelude.{◌≡◌, [], ◌∷◌};
ghost use Rattle.ascii_lines.specs.Replies.{IsRequest, Says, line_reply};
ghost use Rattle.examples.specs.Register.{Answers, replies_to};

use ascii::{AsciiStr, AsciiString};
use ascii_lines::{
    Duplex, Ending, Endings, Handler, LineChannel, LineError, Next, Received, Replies, Sink, serve,
};
use std::alloc::{Allocator, Global};
use std::io;

/// A reply to a line.
#[derive(Clone, Copy)]
enum Reply {
    /// The line that is kept.
    Kept,
    /// The line is kept from now on.
    Done,
    /// The allocation for the line failed.
    Busy,
    /// The conversation is over.
    Bye,
}

/// What is done with a line: the reply to it, and what is asked for next.
#[derive(Clone, Copy)]
struct Plan {
    reply: Reply,
    next: Next,
}

/// The line that is kept.
#[derive(Drop)]
pub struct Register {
    alloc: Global,
    kept: AsciiString,
}

impl Register {
    /// Creates a register that keeps an empty line.
    pub fn new(alloc: Global) -> Register
        ensures { result.kept.text ≡ [] }
    {
        Register {
            alloc,
            kept: AsciiString::new(alloc),
        }
    }

    /// Takes a line, and says what to do.
    fn plan(&mut self, line: Received<'_>) -> Plan
        ensures plan { Answers self.old.kept.text line.entry.body
            (replies_to result.reply self.new.kept.text) result.next self.new.kept.text }
        ensures request { IsRequest result.next }
    {
        if line.bytes() == b"GET".as_slice() {
            return Plan {
                reply: Reply::Kept,
                next: Next::Line,
            };
        }
        if line.bytes() == b"QUIT".as_slice() {
            return Plan {
                reply: Reply::Bye,
                next: Next::Close,
            };
        }
        let mut reply = Reply::Busy;
        if let Some(text) = line.text()
            && let Ok(text) = text.to_ascii_string(self.alloc)
        {
            self.kept = text;
            reply = Reply::Done;
        }
        Plan {
            reply,
            next: Next::Line,
        }
    }

    /// Writes a reply.
    fn say<K: Sink, A: Allocator>(&self, reply: Reply, replies: &mut Replies<K, A>)
        ensures { Says replies.old (replies_to reply self.now.kept.text) replies.new }
    {
        match reply {
            Reply::Kept => replies.text(self.kept.as_ascii_str()),
            Reply::Done => replies.fixed_line(AsciiStr::literal("OK")),
            Reply::Busy => replies.fixed_line(AsciiStr::literal("BUSY")),
            Reply::Bye => replies.fixed_line(AsciiStr::literal("BYE")),
        }
    }
}

impl Handler for Register {
    ghost use Rattle.examples.specs.Register.{Answers, Refuses};

    ghost answers = { λ old input replies next new.
        Answers old.kept.text input.body replies next new.kept.text };

    ghost refuses = { λ old error replies next new.
        Refuses old.kept.text replies next new.kept.text };

    fn answer<K: Sink, A: Allocator>(
        &mut self,
        received: Received<'_>,
        replies: &mut Replies<K, A>,
    ) -> Next {
        let plan = self.plan(received);
        self.say(plan.reply, replies);
        plan.next
    }

    fn refuse<K: Sink, A: Allocator>(
        &mut self,
        _error: LineError,
        replies: &mut Replies<K, A>,
    ) -> Next {
        replies.fixed_line(AsciiStr::literal("BAD"));
        Next::Line
    }
}

pub fn main(rt: HostRuntime) -> io::Result<()> {
    let alloc = rt.alloc();
    let device = Duplex::new(rt.stdin(), rt.stdout());
    let mut lines = LineChannel::new(alloc, device, 4096, Endings::Any, Ending::Lf)?;
    let mut register = Register::new(alloc);
    let stop = serve(&mut lines, &mut register);
    eprintln!(rt; "{stop:?}")?;
    Ok(())
}
