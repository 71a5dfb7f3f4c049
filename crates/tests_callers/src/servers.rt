//! Callers of a server: an echo, and a lamp of three verbs.

ghost use Rattle.std.specs.Prelude.{◌≡◌, ◌++◌, ◌∷◌, [], IfOk, List, false, true};
ghost use Rattle.std.specs.List.{flat_map};
ghost use Rattle.ascii.specs.Lines.{Line, LinesOf};
ghost use Rattle.ascii.specs.View.{text_of};
ghost use Rattle.ascii_lines.specs.Serve.{RepliesToAll};
ghost use Rattle.ascii_lines.specs.Replies.{Reply, Says, line_reply};
ghost use Rattle.ascii_lines.specs.Exchanges.{IsReplier, said_in};
ghost use Rattle.ascii_lines.specs.Replies.{Step};
ghost use Rattle.ascii_lines.specs.Serve.{IsUp};
ghost use Rattle.ascii_lines.specs.Turns.{IsOver, Turns, place_of, place_with};
ghost use Rattle.tests_callers.specs.Servers.{Accounts, ServesLamp, echo_reply, lit_after, reply_line};
ghost use Rattle.tests_callers.specs.Servers.{reply_to};

use ascii_lines::{
    AsciiStr, Awaited, Channel, Conversation, Duplex, Ending, Endings, Handler, LineChannel,
    LineError, Next, Received, Replies, Sink, Stop, Supply, serve,
};
use std::alloc::{AllocError, Allocator, Global};

/// Replies to each line with that line, and closes at an error.
#[derive(Drop)]
struct Echo;

impl Handler for Echo {
    ghost use Rattle.tests_callers.specs.Servers.{EchoAnswers, EchoRefuses};

    ghost answers = { EchoAnswers };

    ghost refuses = { EchoRefuses };

    fn answer<K: Sink, A: Allocator>(
        &mut self,
        received: Received<'_>,
        replies: &mut Replies<K, A>,
    ) -> Next {
        replies.bytes(received.bytes());
        Next::Line
    }

    fn refuse<K: Sink, A: Allocator>(
        &mut self,
        _error: LineError,
        _replies: &mut Replies<K, A>,
    ) -> Next {
        Next::Close
    }
}

/// Answers each line of a channel with that line. After the end of the input, what the device took is
/// each line of the input with the ending of the channel.
pub fn serve_echo<C: Channel, A: Allocator>(lines: &mut LineChannel<C, A>) -> Stop
    requires { IsUp lines.old.state }
    ensures { result ≡ Stop.EndOfInput
        → RepliesToAll echo_reply lines.old.state lines.new.state }
{
    serve(lines, &mut Echo)
}

/// Why an echo of a text stopped, and what it wrote.
#[derive(Drop)]
pub struct Echoed {
    /// Why it stopped.
    pub stop: Stop,
    /// What it wrote.
    pub output: Vec<u8>,
}

/// Answers each line of a text with that line, and returns what was written. After the end of the
/// text that is each of its lines with CR LF.
#[tactic(auto, using(ascii_lines::proofs::ExchangeLemmas::replied_in_memory))]
pub fn echo_text(alloc: Global, text: &[u8]) -> Result<Echoed, AllocError>
    ensures { IfOk result (λ echoed. echoed.stop ≡ Stop.EndOfInput → (lines : List Line)
        × LinesOf text.now lines
        × (echoed.output.items ≡ flat_map (λ line. line.body ++ 13 ∷ 10 ∷ []) lines)) }
{
    let device = Duplex::new(text, Vec::new(alloc));
    let mut lines = LineChannel::new(alloc, device, 4096, Endings::Any, Ending::CrLf)?;
    let stop = serve_echo(&mut lines);
    let (_, output) = lines.into_device().into_parts();
    Ok(Echoed {
        stop,
        output: output.into_inner(),
    })
}

/// A reply of a lamp.
#[derive(Clone, Copy, PartialEq, Eq, Debug)]
pub enum LampReply {
    /// The lamp was lit or put out.
    Done,
    /// It is lit.
    Lit,
    /// It is not lit.
    Dark,
    /// The line is not a verb.
    Unknown,
}

/// What is done with a line: the reply to it, and what is asked for next.
#[derive(Clone, Copy, PartialEq, Eq, Debug)]
pub struct LampPlan {
    reply: LampReply,
    next: Next,
}

/// A lamp. `ON` lights it, `OFF` puts it out, and `SHOW` asks whether it is lit.
#[derive(Drop)]
pub struct Lamp {
    lit: bool,
}

impl Lamp {
    /// Creates a lamp that is not lit.
    pub fn new() -> Lamp
        ensures { result.lit ≡ false }
    {
        Lamp { lit: false }
    }

    /// Takes a line, and says what to do.
    fn plan(&mut self, line: &[u8]) -> LampPlan
        ensures reply { result.reply ≡ reply_to self.old.lit line.now }
        ensures next { result.next ≡ Next.Line }
        ensures lit { self.new.lit ≡ lit_after self.old.lit line.now }
    {
        let mut reply = LampReply::Done;
        if line == b"ON".as_slice() {
            self.lit = true;
        } else if line == b"OFF".as_slice() {
            self.lit = false;
        } else if line == b"SHOW".as_slice() {
            reply = if self.lit {
                LampReply::Lit
            } else {
                LampReply::Dark
            };
        } else {
            reply = LampReply::Unknown;
        }
        LampPlan {
            reply,
            next: Next::Line,
        }
    }
}

/// Writes a reply of a lamp.
fn say<K: Sink, A: Allocator>(reply: LampReply, replies: &mut Replies<K, A>)
    ensures { Says replies.old (line_reply (reply_line reply) ∷ []) replies.new }
{
    replies.fixed_line(match reply {
        LampReply::Done => AsciiStr::literal("ok"),
        LampReply::Lit => AsciiStr::literal("lit"),
        LampReply::Dark => AsciiStr::literal("dark"),
        LampReply::Unknown => AsciiStr::literal("what"),
    });
}

impl Handler for Lamp {
    ghost use Rattle.tests_callers.specs.Servers.{LampAnswers, LampRefuses};

    ghost answers = { LampAnswers };

    ghost refuses = { LampRefuses };

    fn answer<K: Sink, A: Allocator>(
        &mut self,
        received: Received<'_>,
        replies: &mut Replies<K, A>,
    ) -> Next {
        let plan = self.plan(received.bytes());
        say(plan.reply, replies);
        plan.next
    }

    fn refuse<K: Sink, A: Allocator>(
        &mut self,
        _error: LineError,
        replies: &mut Replies<K, A>,
    ) -> Next {
        replies.fixed_line(AsciiStr::literal("bad line"));
        Next::Line
    }
}

/// Answers the lines of a channel as a lamp does. The replies of the whole conversation are those of a
/// lamp to all lines, one after another.
pub fn serve_lamp<C: Channel, A: Allocator>(lines: &mut LineChannel<C, A>, lamp: &mut Lamp) -> Stop
    requires { IsUp lines.old.state }
    ensures { ServesLamp lines.old.state lamp.old result lines.new.state lamp.new }
{
    serve(lines, lamp)
}

/// Answers the lines of a channel. Each byte that came is one of a step, in order, or is held; each error is one of the
/// bytes at its position; and nothing is taken after a line without an ending.
pub fn serve_all<C: Channel, H: Handler, A: Allocator>(
    lines: &mut LineChannel<C, A>,
    handler: &mut H,
) -> Stop
    requires { IsUp lines.old.state }
    ensures { Accounts H.answers H.refuses lines.old.state handler.old lines.new.state handler.new }
{
    serve(lines, handler)
}

/// Feeds a conversation with two pieces of an input, and returns whether both were taken whole. Then the steps are those of
/// both pieces together.
pub fn feed_two<H: Handler, K: Sink, A: Allocator, B: Allocator>(
    talk: &mut Conversation<A>,
    handler: &mut H,
    first: &[u8],
    second: &[u8],
    replies: &mut Replies<K, B>,
) -> bool
    ensures { result ≡ true → (steps : List Step) × Turns H.answers H.refuses talk.old.endings
        talk.old.size Supply.Open (place_with talk.old handler.old (first.now ++ second.now)) steps
        (place_of talk.new handler.new) × Says replies.old (said_in steps) replies.new }
{
    let n = talk.feed(handler, first, replies);
    if n < first.len() {
        return false;
    }
    let m = talk.feed(handler, second, replies);
    m == second.len()
}

/// Feeds a conversation with bytes, sends the replies, and goes on with the bytes that are held if the handler has asked for
/// that. Returns whether all bytes were taken and the replies sent; then the steps are those of one conversation.
///
/// Condition: the conversation is one that is fed.
pub fn feed_and_send<H: Handler, K: Sink, A: Allocator, B: Allocator>(
    talk: &mut Conversation<A>,
    handler: &mut H,
    bytes: &[u8],
    replies: &mut Replies<K, B>,
) -> bool
    requires { talk.old.is_at_end ≡ false }
    ensures { result ≡ true → (steps : List Step) × Turns H.answers H.refuses talk.old.endings
        talk.old.size Supply.Open (place_with talk.old handler.old bytes.now) steps
        (place_of talk.new handler.new) }
{
    let n = talk.feed(handler, bytes, replies);
    if n < bytes.len() || replies.flush().is_err() {
        return false;
    }
    if talk.is_sending() {
        talk.sent(handler, replies);
    }
    true
}

/// Ends the input of a conversation that awaits a line. If the handler gives each line one reply, asks for the next line and
/// closes at an error, the conversation is over: it never awaits that the replies are sent.
///
/// Condition: the conversation awaits a line.
pub fn end_all<H: Handler, K: Sink, A: Allocator, B: Allocator>(
    talk: &mut Conversation<A>,
    handler: &mut H,
    replies: &mut Replies<K, B>,
)
    requires { talk.old.awaited ≡ Awaited.Input Next.Line }
    ensures { (reply : Line → Reply) → IsReplier H.answers H.refuses reply
        → IsOver talk.new.awaited }
{
    talk.end(handler, replies);
}
