//! Greets, and answers the lines of standard input as `register` does, by a loop of its own: it reads bytes, feeds a
//! conversation with them, and sends the replies.
#![tactic(auto)]

ghost use Rattle.std.specs.Prelude.{◌≡◌, ◌∷◌, [], OnErr, OnOk};
ghost use Rattle.ascii_lines.specs.Replies.{Says, line_reply};
ghost use Rattle.examples.specs.Greeting.{greeting};

use crate::register::Register;
use ascii_lines::{Conversation, Ending, Endings, LineWriter, Output, Replies, Sink, WriteError};
use ascii_run::ArrayAsciiString;
use std::alloc::Allocator;
use std::fmt::{self, Write};
use std::io::{self, Read};

/// The most bytes of a line.
const LONGEST: usize = 4096;

/// Replies with a greeting that says how long a line may be, or returns an error if the greeting is too long for a
/// line of 80 characters; then nothing is written.
fn greet<K: Sink, A: Allocator>(longest: usize, replies: &mut Replies<K, A>) -> fmt::Result
    ensures greets { OnOk result
        (Says replies.old (line_reply (greeting longest) ∷ []) replies.new) }
    ensures unchanged { OnErr result (replies.new ≡ replies.old) }
{
    let mut line = ArrayAsciiString::<80>::new(());
    write!(line, "READY for lines of {longest} bytes")?;
    replies.line(line.as_ascii_str()).map_err(|_| fmt::Error)
}

/// Sends the replies, and goes on with the lines that wait for that, as often as the handler asks for it.
fn send_all<K: Sink, A: Allocator, B: Allocator>(
    talk: &mut Conversation<A>,
    register: &mut Register,
    replies: &mut Replies<K, B>,
) -> Result<(), WriteError> {
    'sends: for _ in 0..u64::MAX {
        replies.flush()?;
        if !talk.is_sending() {
            break;
        }
        talk.sent(register, replies);
    }
    Ok(())
}

/// Feeds a conversation with bytes until it has taken all of them, or is over.
fn feed_all<K: Sink, A: Allocator, B: Allocator>(
    talk: &mut Conversation<A>,
    register: &mut Register,
    bytes: &[u8],
    replies: &mut Replies<K, B>,
) {
    let mut left = bytes;
    'feeds: for _ in 0..bytes.len() {
        let n = talk.feed(register, left, replies);
        left = &left[n..];
        if left.is_empty() || send_all(talk, register, replies).is_err() {
            return;
        }
    }
}

/// Greets, feeds a conversation with standard input until one of them is over, and prints why.
fn run<K: Sink, A: Allocator, B: Allocator>(
    rt: &HostRuntime,
    talk: &mut Conversation<A>,
    replies: &mut Replies<K, B>,
) -> io::Result<()> {
    let mut input = rt.stdin();
    let mut register = Register::new(rt.alloc());
    if greet(LONGEST, replies).is_err() {
        eprintln!(rt; "the greeting is too long")?;
    }
    let mut block = [0; 512];
    'reads: for _ in 0..u64::MAX {
        match input.read(&mut block) {
            Ok(0) => talk.end(&mut register, replies),
            Ok(n) => feed_all(talk, &mut register, &block[..n], replies),
            Err(_) => talk.fail(&mut register, replies),
        }
        if send_all(talk, &mut register, replies).is_err() || talk.is_closed() {
            break;
        }
    }
    let stop = talk.stop();
    eprintln!(rt; "{stop:?}")
}

pub fn main(rt: HostRuntime) -> io::Result<()> {
    let alloc = rt.alloc();
    let mut talk = Conversation::new(alloc, LONGEST, Endings::Any)?;
    let writer = LineWriter::new(alloc, Output::new(rt.stdout()), 4096)?;
    run(&rt, &mut talk, &mut Replies::new(writer, Ending::Lf))
}
