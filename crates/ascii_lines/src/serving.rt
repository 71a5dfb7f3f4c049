//! A server over lines: a handler answers each line of a channel with lines.
//!
//! A `LineChannel` reads lines from a device of both directions and writes replies to it. `serve` hands each line, or
//! each part that the handler has asked for, to a `Handler`, which writes its replies and says what it asks for next.
//! Replies are sent when the channel has to read its device before it can go on: so no reply waits for bytes that a
//! client sends only after it, and the replies to requests that come together are gathered in the buffer.

ghost use Rattle.std.specs.Prelude.{◌≡◌, ◌≢◌, ◌↔◌, ◌∷◌, ◌++◌, [], IfOk, IsTrue, List};
ghost use Rattle.std.specs.Str.{IsAscii};
ghost use Rattle.ascii.specs.Lines.{Line};
ghost use Rattle.ascii.specs.View.{text_of};
ghost use Rattle.ascii_lines.specs.Exchanges.{IsReplier};
ghost use Rattle.ascii_lines.specs.LineWriter.{line_with};
ghost use Rattle.ascii_lines.specs.Replies.{IsInputOf, IsLineOutcome, IsRequest, Reply, Says};
ghost use Rattle.ascii_lines.specs.Replies.{SaysPart, is_unbroken, line_given, line_reply};
ghost use Rattle.ascii_lines.specs.Serve.{IsUp, RepliesToAll, SendsOut, Serves};
ghost use Rattle.ascii_lines.specs.Wanted.{IsOne, MayHave};

use crate::conversation::{Awaited, Conversation};
use crate::line_buffer::LineBuffer;
use crate::line_reader::{LineError, line_at};
use crate::line_writer::{LineWriter, WriteError};
use crate::wanted::{Content, Wanted};
use ascii::endings::{first_break, split_ending};
use ascii::iter::{Ending, Endings};
use ascii::{AsciiStr, bytes, text};
use ascii_devices::{Channel, DeviceFault, Sink};
use itoa::{Buffer, Integer};
use std::alloc::{AllocError, Allocator, Global};
use std::marker::Model;

/// What a handler asks for after an answer.
#[derive(Clone, Copy, PartialEq, Eq, Debug)]
pub enum Next {
    /// The next line.
    Line,
    /// The next line, once the replies so far were sent: the handler is not asked again before they were. It is for
    /// an answer that another step must not overtake or hold up, as that to a mail that was stored.
    LineOnceSent,
    /// The next part of this number of bytes, of at least one, which is ASCII. The handler is given it as it
    /// is: a protocol in which an ending follows a part asks for that as well.
    Part(usize),
    /// The next part of this number of bytes, of at least one, which may be any.
    Bytes(usize),
    /// Nothing: the conversation is over.
    Close,
}

/// Why a conversation stopped.
#[derive(Clone, Copy, PartialEq, Eq, Debug)]
pub enum Stop {
    /// The handler closed it.
    Closed,
    /// The handler asked for a line, and there are no more; or the input ended in a line that was rejected.
    EndOfInput,
    /// The input had this error. The handler was told of it, and closed or cannot go on; or it had asked for the
    /// next line after one that was rejected, and the rest of that line had this error.
    Reader(LineError),
    /// The device failed to take the replies, or has failed `u64::MAX` times before.
    Writer,
}

/// Where a handler writes its replies: lines with the ending of the conversation, and parts. If the
/// device fails, nothing more is written, and the conversation stops after the answer.
#[derive(Drop)]
pub struct Replies<K: Sink, A: Allocator = Global> {
    writer: LineWriter<K, A>,
    ending: Ending,
}

impl<K: Sink, A: Allocator> Model for Replies<K, A> {
    ghost use Rattle.ascii_lines.specs.Replies.{Saying};

    ghost Value = { Saying K };

    ghost view = { λ r. record {
      sink = r.writer.sink;
      state = r.writer.state;
      ending = r.ending;
    } };
}

impl<K: Sink, A: Allocator> Replies<K, A> {
    /// Returns replies that go to this writer, of which the lines have this ending. `serve` makes them; it is for
    /// handlers that are asked without a server.
    ///
    ///     let writer = LineWriter::new(alloc, Output::new(Vec::new(alloc)), 64)?;
    ///     let mut replies = Replies::new(writer, Ending::Lf);
    ///     Echo.answer(Received::new(b"ab", Ending::Lf), &mut replies) // Line
    ///     let mut writer = replies.into_writer();
    ///     writer.flush() // Ok(())
    ///     writer.into_sink().into_inner() // [97, 98, 10]
    pub fn new(writer: LineWriter<K, A>, ending: Ending) -> Replies<K, A>
        ensures state { result.state ≡ writer.state }
        ensures sink { result.sink ≡ writer.sink }
        ensures ending { result.ending ≡ ending }
    {
        Replies { writer, ending }
    }

    /// Returns the writer, which may hold replies.
    ///
    ///     let writer = LineWriter::new(alloc, Output::new(Vec::new(alloc)), 64)?;
    ///     let mut replies = Replies::new(writer, Ending::Lf);
    ///     replies.line(AsciiStr::literal("ab")) // Ok(())
    ///     replies.into_writer().into_sink().into_inner() // []
    pub fn into_writer(self) -> LineWriter<K, A>
        ensures state { result.state ≡ self.state }
        ensures sink { result.sink ≡ self.sink }
    {
        self.writer
    }

    /// Writes a reply as a line, or returns the index of its first CR or LF, counted from 0; then nothing is
    /// written. If the device has failed, nothing is written either, and the result is the same.
    ///
    ///     let writer = LineWriter::new(alloc, Output::new(Vec::new(alloc)), 64)?;
    ///     let mut replies = Replies::new(writer, Ending::Lf);
    ///     replies.line(AsciiStr::literal("ab")) // Ok(())
    ///     replies.line(AsciiStr::literal("a\nb")) // Err(1)
    pub fn line(&mut self, body: AsciiStr<'_>) -> Result<(), usize>
        ensures outcome { IsLineOutcome self.old (text_of body.entry) result self.new }
        ensures says { Says self.old (line_given (text_of body.entry) result) self.new }
    {
        match self.writer.write_line(body, self.ending) {
            Ok(()) => Ok(()),
            Err(WriteError::LineBreak(place)) => Err(place),
            Err(WriteError::Write) => match first_break(body.as_bytes()) {
                Some(place) => Err(place),
                None => Ok(()),
            },
        }
    }

    /// Writes a reply as a line. If the device has failed, nothing is written. It is for replies that are written down
    /// in the program, of which the check sees that they have no break.
    ///
    /// Condition: the body has no CR and no LF.
    ///
    ///     let writer = LineWriter::new(alloc, Output::new(Vec::new(alloc)), 64)?;
    ///     let mut replies = Replies::new(writer, Ending::CrLf);
    ///     replies.fixed_line(AsciiStr::literal("ok"));
    ///     let mut writer = replies.into_writer();
    ///     writer.flush() // Ok(())
    ///     writer.into_sink().into_inner() // [111, 107, 13, 10]
    #[tactic(auto, using(crate::proofs::ReplyLemmas::said_line))]
    pub fn fixed_line(&mut self, body: AsciiStr<'_>)
        requires { IsTrue (is_unbroken (text_of body)) }
        ensures { Says self.old (line_reply (text_of body.entry) ∷ []) self.new }
    {
        let _ = self.line(body);
    }

    /// Writes a reply as it is, with each CR and LF in it. If the device has failed, nothing is written.
    ///
    ///     let writer = LineWriter::new(alloc, Output::new(Vec::new(alloc)), 64)?;
    ///     let mut replies = Replies::new(writer, Ending::CrLf);
    ///     replies.part(AsciiStr::literal("a\nb"));
    ///     let mut writer = replies.into_writer();
    ///     writer.flush() // Ok(())
    ///     writer.into_sink().into_inner() // [97, 10, 98]
    pub fn part(&mut self, text: AsciiStr<'_>)
        ensures { SaysPart self.old (text_of text.entry) self.new }
    {
        self.bytes_part(text.as_bytes());
    }

    /// Writes bytes as they are, as a part of a reply. If the device has failed, nothing is written.
    ///
    ///     let writer = LineWriter::new(alloc, Output::new(Vec::new(alloc)), 64)?;
    ///     let mut replies = Replies::new(writer, Ending::CrLf);
    ///     replies.bytes_part(b"a\n\xff");
    ///     let mut writer = replies.into_writer();
    ///     writer.flush() // Ok(())
    ///     writer.into_sink().into_inner() // [97, 10, 255]
    pub fn bytes_part(&mut self, bytes: &[u8])
        ensures { SaysPart self.old bytes.now self.new }
    {
        let _ = self.writer.write_bytes(bytes);
    }

    /// Writes a reply as a line, with each CR and LF in it, as a protocol does that announces the length. If the device
    /// has failed, nothing is written.
    ///
    ///     let writer = LineWriter::new(alloc, Output::new(Vec::new(alloc)), 64)?;
    ///     let mut replies = Replies::new(writer, Ending::CrLf);
    ///     replies.text(AsciiStr::literal("a\nb"));
    ///     let mut writer = replies.into_writer();
    ///     writer.flush() // Ok(())
    ///     writer.into_sink().into_inner() // [97, 10, 98, 13, 10]
    pub fn text(&mut self, text: AsciiStr<'_>)
        ensures { Says self.old (line_reply (text_of text.entry) ∷ []) self.new }
    {
        self.bytes(text.as_bytes());
    }

    /// Writes a reply as a line: these bytes as they are, with each CR and LF in it, as a protocol does that announces the
    /// length. If the device has failed, nothing is written.
    ///
    ///     let writer = LineWriter::new(alloc, Output::new(Vec::new(alloc)), 64)?;
    ///     let mut replies = Replies::new(writer, Ending::CrLf);
    ///     replies.bytes(b"a\n\xff");
    ///     let mut writer = replies.into_writer();
    ///     writer.flush() // Ok(())
    ///     writer.into_sink().into_inner() // [97, 10, 255, 13, 10]
    #[tactic(auto, using(crate::proofs::ReplyLemmas::said_text))]
    pub fn bytes(&mut self, bytes: &[u8])
        ensures { Says self.old (line_reply bytes.now ∷ []) self.new }
    {
        self.bytes_part(bytes);
        self.fixed_line(AsciiStr::literal(""));
    }

    /// Writes a reply as a line: a text, with each CR and LF in it, and then the decimal digits of `n`, after `-` if `n` is
    /// negative. If the device has failed, nothing is written. Does not allocate.
    ///
    ///     let writer = LineWriter::new(alloc, Output::new(Vec::new(alloc)), 64)?;
    ///     let mut replies = Replies::new(writer, Ending::CrLf);
    ///     replies.number_line(AsciiStr::literal(":"), 42u64);
    ///     let mut writer = replies.into_writer();
    ///     writer.flush() // Ok(())
    ///     writer.into_sink().into_inner() // [58, 52, 50, 13, 10]
    #[tactic(auto, using(crate::proofs::ReplyLemmas::said_joined))]
    pub fn number_line<I: Integer>(&mut self, before: AsciiStr<'_>, n: I)
        ensures { Says self.old (line_reply (text_of before.entry ++ I.text n) ∷ []) self.new }
    {
        let mut digits = Buffer::new();
        self.part(before);
        self.text(text::as_ascii_str_unchecked(digits.format(n)));
    }

    /// Whether the device has failed.
    pub(crate) fn is_broken(&self) -> bool
        ensures { result ≡ self.now.state.buffer.is_broken }
    {
        self.writer.is_broken()
    }

    /// Sends the replies that were written and flushes the device, or returns `Write` if the device fails, or has
    /// failed before. `serve` does it before it reads; it is for an event loop that feeds a `Conversation`.
    ///
    ///     let writer = LineWriter::new(alloc, Output::new(Vec::new(alloc)), 64)?;
    ///     let mut replies = Replies::new(writer, Ending::Lf);
    ///     replies.part(AsciiStr::literal("ab"));
    ///     replies.flush() // Ok(())
    ///     replies.into_writer().into_sink().into_inner() // [97, 98]
    pub fn flush(&mut self) -> Result<(), WriteError>
        ensures { SendsOut self.old result self.new }
    {
        self.writer.flush()
    }
}

impl<C: Channel, A: Allocator> Replies<C, A> {
    ghost use Rattle.std.specs.Prelude.{◌⊎◌, ◌≤◌, false, length};
    ghost use Rattle.ascii_lines.specs.LineBuffer.{Fills};
    ghost use Rattle.ascii_lines.specs.Serve.{read_side};

    /// Reads bytes of the device into a buffer.
    pub(crate) fn fill<B: Allocator>(
        &mut self,
        buffer: &mut LineBuffer<B>,
    ) -> Result<(), DeviceFault>
        requires more { buffer.old.is_at_end ≡ false }
        requires room { (length buffer.old.held ≤ buffer.old.size) ⊎ (length buffer.old.held ≤ 1) }
        ensures fills { Fills buffer.old buffer.new (read_side self.old.state)
            (read_side self.new.state) result }
        ensures buffer { self.new.state.buffer ≡ self.old.state.buffer }
        ensures ending { self.new.ending ≡ self.old.ending }
    {
        self.writer.fill(buffer)
    }
}

/// What a handler is given: a line without its ending, or a part. What it asked for as text is ASCII.
#[derive(Drop)]
pub struct Received<'a> {
    bytes: &'a [u8],
    ending: Ending,
    is_text: bool,
}

impl<'a> Model for Received<'a> {
    ghost use Rattle.std.specs.Prelude.{◌≡◌, true};
    ghost use Rattle.std.specs.Str.{IsAscii};
    ghost use Rattle.ascii.specs.Lines.{Line};

    ghost Value = { Line };

    ghost view = { λ received. record { body = received.bytes.now; ending = received.ending } };

    ghost invariant = { λ received. received.is_text ≡ true → IsAscii received.bytes.now };
}

impl<'a> Received<'a> {
    ghost use Rattle.std.specs.Prelude.{MatchOption};

    /// Creates what a handler is given: the bytes of a line with this ending, or of a part without one. A conversation
    /// makes what it hands to its handler; this is for a handler that is asked without one.
    ///
    ///     Received::new(b"ab", Ending::Lf).ending() // Lf
    ///     Received::new(b"\xff", Ending::Absent).bytes() // [255]
    pub fn new(bytes: &'a [u8], ending: Ending) -> Received<'a>
        ensures { result ≡ record { body = bytes.now; ending = ending } }
    {
        Received {
            bytes,
            ending,
            is_text: false,
        }
    }

    /// The same of a text.
    fn of_text(text: AsciiStr<'a>, ending: Ending) -> Received<'a>
        ensures { result ≡ line_with text.entry ending }
    {
        Received {
            bytes: text.as_bytes(),
            ending,
            is_text: true,
        }
    }

    /// Returns the text, or `None` if the bytes are not ASCII. What was asked for as text is always one.
    ///
    /// Constant time for what was asked for as text; otherwise the bytes are checked.
    ///
    ///     Received::new(b"ab", Ending::Lf).text() // Some("ab")
    ///     Received::new(b"a\xff", Ending::Absent).text() // None
    #[tactic(auto, using(ascii::proofs::TextLemmas::no_text))]
    pub fn text(&self) -> Option<AsciiStr<'a>>
        ensures { MatchOption result (¬ (IsAscii self.now.body))
            (λ text. text_of text ≡ self.now.body) }
    {
        if self.is_text {
            return Some(bytes::as_ascii_str_unchecked(self.bytes));
        }
        match bytes::as_ascii_str(self.bytes) {
            Ok(text) => Some(text),
            Err(_) => None,
        }
    }

    /// Returns the bytes, without the ending of a line.
    ///
    ///     Received::new(b"a\xff", Ending::Absent).bytes() // [97, 255]
    pub fn bytes(&self) -> &'a [u8]
        ensures { result.now ≡ self.now.body }
    {
        self.bytes
    }

    /// Returns the ending of a line. A part has none, nor may the last line of the input.
    ///
    ///     Received::new(b"ab", Ending::Lf).ending() // Lf
    ///     Received::new(b"ab", Ending::Absent).ending() // Absent
    pub fn ending(&self) -> Ending
        ensures { result ≡ self.now.ending }
    {
        self.ending
    }
}

/// What answers the lines of a channel.
pub trait Handler {
    ghost use Rattle.std.specs.Prelude.{List, ℕ};
    ghost use Rattle.ascii.specs.Lines.{Line};
    ghost use Rattle.ascii_lines.specs.declared.line_reader.LineError.{LineError};
    ghost use Rattle.ascii_lines.specs.declared.serving.Next.{Next};
    ghost use Rattle.ascii_lines.specs.Replies.{Reply};

    // In a state, to a line or a part, which has no ending, these replies may be given, this asked for next, and
    // this state left.
    ghost answers: { Self → Line → List Reply → Next → Self → Type 0 };

    // In a state, to an error in place of what was asked for, these replies may be given, this asked for next, and
    // this state left.
    ghost refuses: { Self → LineError → List Reply → Next → Self → Type 0 };

    /// Answers a line without its ending, or a part, and returns what it asks for next. The last line of the input
    /// may have the ending `Absent`, as each part has. A part that is asked for has at least one byte.
    ///
    /// In the examples, `Echo` is a handler that replies with the bytes that it is handed, and to an error with `no`.
    ///
    ///     let writer = LineWriter::new(alloc, Output::new(Vec::new(alloc)), 64)?;
    ///     let mut replies = Replies::new(writer, Ending::CrLf);
    ///     Echo.answer(Received::new(b"ab", Ending::CrLf), &mut replies) // Line
    ///     let mut writer = replies.into_writer();
    ///     writer.flush() // Ok(())
    ///     writer.into_sink().into_inner() // [97, 98, 13, 10]
    fn answer<K: Sink, A: Allocator>(
        &mut self,
        received: Received<'_>,
        replies: &mut Replies<K, A>,
    ) -> Next
        ensures answers { (said : List Reply) × Says replies.old said replies.new
            × answers self.old received.entry said result self.new }
        ensures request { IsRequest result };

    /// Answers an error that came in place of what was asked for, and returns what it asks for next. After
    /// `NotAscii`, `LoneBreak` or `TooLong` in place of a line, the rest of that line is skipped, and the conversation
    /// goes on unless the handler closes it. After any other error, and after an error in place of a part, it ends.
    ///
    ///     let device = Duplex::new(b"a\n\xff\n".as_slice(), Vec::new(alloc));
    ///     let mut lines = LineChannel::new(alloc, device, 64, Endings::Any, Ending::Lf)?;
    ///     serve(&mut lines, &mut Echo) // Reader(NotAscii(2))
    ///     let (_, output) = lines.into_device().into_parts();
    ///     output.into_inner() // [97, 10, 110, 111, 10]
    fn refuse<K: Sink, A: Allocator>(
        &mut self,
        error: LineError,
        replies: &mut Replies<K, A>,
    ) -> Next
        ensures refuses { (said : List Reply) × Says replies.old said replies.new
            × refuses self.old error said result self.new }
        ensures request { IsRequest result };
}

/// Lines over a device of both directions, through one buffer of fixed size for each direction.
#[derive(Drop)]
pub struct LineChannel<C: Channel, A: Allocator = Global> {
    conversation: Conversation<A>,
    replies: Replies<C, A>,
}

impl<C: Channel, A: Allocator> Model for LineChannel<C, A> {
    ghost use Rattle.ascii_lines.specs.Serve.{Conversing};
    ghost use Rattle.ascii_lines.specs.Wanted.{KnowsEnd};

    ghost Value = { Conversing C };

    ghost view = { λ c. record {
      device = c.replies.sink;
      state = record {
        talk = c.conversation;
        output = c.replies.state;
        ending = c.replies.ending;
      };
    } };

    ghost invariant = { λ c. KnowsEnd c.conversation.is_at_end c.replies.state.aside.bytes };
}

impl<C: Channel> LineChannel<C> {
    ghost use Rattle.ascii_lines.specs.Serve.{fresh_channel};

    /// Creates a channel of lines over a device, with a buffer of `size` bytes for each direction, or returns an
    /// error if an allocation fails; the device is then dropped. No later call allocates. These endings end the
    /// lines that come, and this ending the lines that go.
    ///
    ///     let device = Duplex::new(b"ab\r\nc\n".as_slice(), Vec::new(alloc));
    ///     let mut lines = LineChannel::new(alloc, device, 64, Endings::CrLfStrict, Ending::CrLf)?;
    ///     serve(&mut lines, &mut Echo) // Reader(LoneBreak(5))
    ///     lines.position() // 4
    pub fn new(
        alloc: Global,
        device: C,
        size: usize,
        endings: Endings,
        ending: Ending,
    ) -> Result<LineChannel<C>, AllocError>
    where
        C: Drop,
        ensures fresh { IfOk result (λ lines.
            lines.state ≡ fresh_channel size endings ending C.Sink device) }
        ensures device { IfOk result (λ lines. lines.device ≡ device) }
    {
        let conversation = Conversation::new(alloc, size, endings)?;
        let writer = LineWriter::new(alloc, device, size)?;
        Ok(LineChannel {
            conversation,
            replies: Replies::new(writer, ending),
        })
    }
}

impl<C: Channel, A: Allocator> LineChannel<C, A> {
    ghost use Rattle.std.specs.Prelude.{false};
    ghost use Rattle.ascii_lines.specs.Serve.{Greets, GoesOn, ReadsOn, SoFar, saying_of};
    ghost use Rattle.ascii_lines.specs.Turns.{IsOver, stop_of};
    ghost use Rattle.ascii_lines.specs.Wanted.{KnowsEnd};

    /// Writes a line before a conversation, or returns an error as `LineWriter::write_line` does. `serve` sends it
    /// before it reads.
    ///
    ///     let device = Duplex::new(b"".as_slice(), Vec::new(alloc));
    ///     let mut lines = LineChannel::new(alloc, device, 64, Endings::Any, Ending::Lf)?;
    ///     lines.greet(AsciiStr::literal("hi"))?;
    ///     serve(&mut lines, &mut Echo) // EndOfInput
    ///     let (_, output) = lines.into_device().into_parts();
    ///     output.into_inner() // [104, 105, 10]
    pub fn greet(&mut self, body: AsciiStr<'_>) -> Result<(), WriteError>
        ensures { Greets self.old (text_of body.entry) result self.new }
    {
        self.replies.writer.write_line(body, self.replies.ending)
    }

    /// Returns the device. Bytes that the channel has read, and replies that it has not sent, are lost.
    ///
    ///     let device = Duplex::new(b"ab".as_slice(), Vec::new(alloc));
    ///     let mut lines = LineChannel::new(alloc, device, 64, Endings::Any, Ending::Lf)?;
    ///     lines.greet(AsciiStr::literal("hi")) // Ok(())
    ///     let (_, output) = lines.into_device().into_parts();
    ///     output.into_inner() // []
    pub fn into_device(self) -> C
        ensures device { result ≡ self.device }
        ensures taken { C.Sink.taken result ≡ self.state.output.taken }
    {
        self.replies.writer.into_sink()
    }

    /// Returns the position in the input at which the next line or part starts, counted from 0. After an
    /// error it is that of the line or part at fault; after an error in the rest of a line that was rejected, the
    /// one after the bytes of it that were skipped.
    ///
    ///     let device = Duplex::new(b"a\r\nb".as_slice(), Vec::new(alloc));
    ///     let mut lines = LineChannel::new(alloc, device, 64, Endings::Any, Ending::Lf)?;
    ///     serve(&mut lines, &mut Echo) // EndOfInput
    ///     lines.position() // 4
    pub fn position(&self) -> u64
        ensures position { result ≡ self.now.state.talk.start }
        ensures end { KnowsEnd self.now.state.talk.is_at_end self.now.state.output.aside.bytes }
    {
        self.conversation.position()
    }

    /// Awaits a line, and takes all steps that can be taken.
    fn resume<H: Handler>(&mut self, handler: &mut H)
        requires { IsUp self.old.state }
        ensures { SoFar H.answers H.refuses self.old.state handler.old self.new.state handler.new }
    {
        self.conversation.resume(handler, &mut self.replies);
    }

    /// Reads the device once, and takes all steps that can be taken.
    fn read<H: Handler>(&mut self, handler: &mut H)
        requires going { ¬ (IsOver self.old.state.talk.awaited) }
        requires waits { self.old.state.talk.awaited ≢ Awaited.Sending }
        requires more { self.old.state.talk.is_at_end ≡ false }
        ensures { ReadsOn H.answers H.refuses self.old.state.talk handler.old (saying_of self.old)
            self.new.state.talk handler.new (saying_of self.new) }
    {
        self.conversation.read(handler, &mut self.replies);
    }

    /// Awaits a line, if the replies were to be sent first, and takes all steps that can be taken.
    fn sent<H: Handler>(&mut self, handler: &mut H)
        ensures { GoesOn H.answers H.refuses self.old.state.talk handler.old (saying_of self.old)
            self.new.state.talk handler.new (saying_of self.new) }
    {
        self.conversation.sent(handler, &mut self.replies);
    }

    /// Whether the replies are to be sent first.
    fn is_sending(&self) -> bool
        ensures { IsTrue result ↔ (self.now.state.talk.awaited ≡ Awaited.Sending) }
    {
        self.conversation.is_sending()
    }

    /// Sends the replies.
    fn flush(&mut self) -> Result<(), WriteError>
        ensures sends { SendsOut (saying_of self.old) result (saying_of self.new) }
        ensures talk { self.new.state.talk ≡ self.old.state.talk }
    {
        self.replies.flush()
    }

    /// Why the conversation is over, if it is.
    fn stop(&self) -> Option<Stop>
        ensures { result ≡ stop_of self.now.state.talk.awaited }
    {
        self.conversation.stop()
    }
}

/// Answers the lines of a channel one by one, up to the end of its input, an error, or until the handler
/// closes; and returns why it stopped.
///
/// The handler is asked for an answer to each line, or to each part that it has asked for, and is told of each error in
/// their place. Replies go out in order. At each read of the device, every complete line, part and fault that came
/// before has been answered, and every reply, with what the channel held before, has been sent and flushed; so it is
/// when the conversation stops, unless the device failed to take them. Then the device has taken a prefix of the
/// replies, nothing more is read, and the handler is not asked again. After a read that returned no bytes the device is
/// not read again. After an answer that asks for `LineOnceSent`, every reply so far has been sent and flushed before the
/// handler is asked again.
///
/// If the handler gives each line one reply, asks for the next line and closes at an error, and the input ends, then
/// the device has taken the reply to each line of the input.
///
/// Condition: no call of the device to write has failed.
///
/// In the example, `Echo` is a handler that replies with the text that it is handed, and to an error with `no`.
///
///     let device = Duplex::new(b"a\r\nb".as_slice(), Vec::new(alloc));
///     let mut lines = LineChannel::new(alloc, device, 64, Endings::Any, Ending::Lf)?;
///     serve(&mut lines, &mut Echo) // EndOfInput
///     let (_, output) = lines.into_device().into_parts();
///     output.into_inner() // [97, 10, 98, 10]
pub fn serve<C: Channel, H: Handler, A: Allocator>(
    lines: &mut LineChannel<C, A>,
    handler: &mut H,
) -> Stop
    requires { IsUp lines.old.state }
    ensures serves { Serves H.answers H.refuses lines.old.state handler.old result lines.new.state
        handler.new }
    ensures replies { (reply : Line → Reply) → IsReplier H.answers H.refuses reply
        → result ≡ Stop.EndOfInput → RepliesToAll reply lines.old.state lines.new.state }
{
    lines.resume(handler);
    'reads: loop {
        let _start = lines.position();
        match lines.flush() {
            Ok(()) => {}
            Err(_) => return Stop::Writer,
        }
        if let Some(stop) = lines.stop() {
            return stop;
        }
        if lines.is_sending() {
            lines.sent(handler);
        } else {
            lines.read(handler);
        }
    }
}

/// The line or part of these bytes, as a handler is given it.
pub(crate) fn received_at(wanted: Wanted, bytes: &[u8]) -> Received<'_>
    requires may { MayHave wanted bytes.now }
    requires one { IsOne wanted bytes.now }
    ensures { IsInputOf wanted bytes.now result }
{
    match wanted {
        Wanted::Line(endings, Content::Text) => {
            let line = line_at(endings, 0, bytes);
            Received::of_text(line.text, line.ending)
        }
        Wanted::Line(endings, Content::Any) => {
            let (bytes, ending) = split_ending(endings, bytes);
            Received::new(bytes, ending)
        }
        Wanted::Part(_, Content::Any) => Received::new(bytes, Ending::Absent),
        Wanted::Part(_, Content::Text) | Wanted::Until(_) => {
            Received::of_text(bytes::as_ascii_str_unchecked(bytes), Ending::Absent)
        }
    }
}
