//! A conversation without a device: bytes are fed as they come, and the replies go to any sink.
//!
//! `feed` takes bytes that came and carries out every step that they complete: the handler answers each line, or each
//! part that it has asked for, and is told of each error in their place. At the end of the input a caller calls `end`,
//! or `fail` if the source has failed. The caller reads and writes: so an event loop can drive the conversation.
//!
//! | When | Call |
//! |---|---|
//! | bytes came | `feed`, again with the bytes that it did not take |
//! | the input has ended, or its source has failed | `end`, `fail` |
//! | the replies were sent | `sent`, if `is_sending`; then `is_closed`, and `stop` for the reason |
//!
//! A handler that asks for `Next::LineOnceSent` is not asked again before the caller says by `sent` that its replies
//! were sent. Until then `feed` holds bytes, as many as there is room for, and no call carries out a step; the caller
//! calls `end` or `fail` again after `sent`.
//!
//! How the bytes are cut changes nothing: feeding one piece and then another is feeding both together. A contract
//! speaks of the bytes that were fed, of what is awaited, and of the replies; no call has a condition. `serve` is a
//! loop over a conversation, for a device of both directions.

ghost use Rattle.std.specs.Prelude.{◌≡◌, ◌≢◌, ◌⊎◌, ◌<◌, ◌≤◌, ◌++◌, ◌↔◌, [], IfOk, IsTrue};
ghost use Rattle.std.specs.Prelude.{length, take, true};
ghost use Rattle.ascii.specs.Endings.{any_text};
ghost use Rattle.ascii_lines.specs.LineReader.{Finds, IsLookedFor, window_at};
ghost use Rattle.ascii_lines.specs.Turns.{GoesTo, IsOver, SkipsIn, awaited_by, fresh_talk};
ghost use Rattle.ascii_lines.specs.Turns.{supply_at};

use crate::line_buffer::LineBuffer;
use crate::line_reader::LineError;
use crate::serving::{Handler, Next, Replies, Stop, received_at};
use crate::skipping::{PassEnd, is_final, part_of_line, whole_endings};
use crate::wanted::{Content, Found, Wanted, look};
use ascii::iter::Endings;
use ascii_devices::{Channel, Sink};
use std::alloc::{AllocError, Allocator, Global};
use std::marker::Model;

/// What a conversation awaits. No call takes or returns it: contracts of conversations and servers speak of it.
#[derive(Clone, Copy, PartialEq, Eq, Debug)]
pub enum Awaited {
    /// What the handler has asked for.
    Input(Next),
    /// The end of a line that was rejected, and then what the handler has asked for.
    LineEnd(Next),
    /// That the replies are sent, and then a line.
    Sending,
    /// Nothing: the conversation is over, for this reason.
    Nothing(Stop),
}

/// Whether more bytes of an input can come. No call takes or returns it: contracts speak of it.
#[derive(Clone, Copy, PartialEq, Eq, Debug)]
pub enum Supply {
    /// More bytes can come.
    Open,
    /// The input has ended.
    Ended,
    /// The source of the input has failed.
    Failed,
}

/// A conversation of which the bytes come as they come.
#[derive(Drop)]
pub struct Conversation<A: Allocator = Global> {
    dialogue: Dialogue<A>,
}

impl<A: Allocator> Model for Conversation<A> {
    ghost use Rattle.ascii_lines.specs.Turns.{Rests, TalkState};

    ghost Value = { TalkState };

    ghost view = { λ c. record {
      size = c.dialogue.buffer.size;
      endings = c.dialogue.endings;
      awaited = c.dialogue.awaited;
      start = c.dialogue.start;
      held = c.dialogue.buffer.held;
      is_at_end = c.dialogue.buffer.is_at_end;
    } };

    ghost invariant = { λ c. Rests c.dialogue.endings c.dialogue.buffer.size c.dialogue.awaited
        c.dialogue.start c.dialogue.buffer.held };
}

impl Conversation {
    /// Creates a conversation that awaits a line by these endings, with a buffer of `size` bytes, or returns an error
    /// if the allocation fails. No later call allocates.
    ///
    ///     let talk = Conversation::new(alloc, 64, Endings::Any)?;
    ///     talk.position() // 0
    ///     talk.is_closed() // false
    pub fn new(alloc: Global, size: usize, endings: Endings) -> Result<Conversation, AllocError>
        ensures { IfOk result (λ talk. talk ≡ fresh_talk size endings) }
    {
        Ok(Conversation {
            dialogue: Dialogue {
                buffer: LineBuffer::new(alloc, size)?,
                endings,
                start: 0,
                awaited: Awaited::Input(Next::Line),
            },
        })
    }
}

impl<A: Allocator> Conversation<A> {
    ghost use Rattle.std.specs.Prelude.{false};
    ghost use Rattle.ascii_lines.specs.Serve.{ReadsOn};
    ghost use Rattle.ascii_lines.specs.Turns.{Converses, OnlyMoves, place_of, place_sent};
    ghost use Rattle.ascii_lines.specs.Turns.{place_with, stop_of};

    /// Takes bytes that came, as many as there is room for, and carries out every step that they complete. Returns
    /// the number of bytes that were taken: at least one, unless there are none, the conversation is over, or the
    /// replies are to be sent first.
    ///
    /// The caller feeds the other bytes in a later call. A conversation that is over takes none. One that awaits that
    /// the replies are sent carries out no step. If the sink of the replies fails, the handler is not asked again, and
    /// the conversation is over.
    ///
    /// In the examples, `Echo` is a handler that replies with the text that it is handed, and to an error with `no`.
    ///
    ///     let mut talk = Conversation::new(alloc, 64, Endings::Any)?;
    ///     let writer = LineWriter::new(alloc, Output::new(Vec::new(alloc)), 64)?;
    ///     let mut replies = Replies::new(writer, Ending::Lf);
    ///     talk.feed(&mut Echo, b"ab\nc", &mut replies) // 4
    ///     talk.position() // 3
    ///     let mut writer = replies.into_writer();
    ///     writer.flush() // Ok(())
    ///     writer.into_sink().into_inner() // [97, 98, 10]
    pub fn feed<H: Handler, K: Sink, B: Allocator>(
        &mut self,
        handler: &mut H,
        bytes: &[u8],
        replies: &mut Replies<K, B>,
    ) -> usize
        ensures within { result ≤ length bytes.now }
        ensures some { 0 < length bytes.now → IsOver self.old.awaited
            ⊎ (self.old.awaited ≡ Awaited.Sending) ⊎ (0 < result) }
        ensures most { IsOver self.old.awaited ⊎ (result ≡ length bytes.now)
            ⊎ (self.old.size < length (self.old.held ++ take result bytes.now)) }
        ensures converses { Converses H.answers H.refuses self.old.endings self.old.size
            Supply.Open (place_with self.old handler.old (take result bytes.now)) replies.old
            (place_of self.new handler.new) replies.new }
        ensures moves { OnlyMoves self.old self.new }
    {
        if self.is_closed() {
            return 0;
        }
        let searched = self.dialogue.buffer.len();
        let n = self.dialogue.buffer.put(bytes);
        self.dialogue.converse(handler, replies, false, searched);
        n
    }

    /// Carries out the steps of the end of the input: the handler answers the bytes that are held as a line without an
    /// ending, or is told of an error in place of what it asked for. Then the conversation is over, unless the replies
    /// are to be sent first: the caller sends them, calls `sent`, and then `end` again.
    ///
    ///     let mut talk = Conversation::new(alloc, 64, Endings::Any)?;
    ///     let writer = LineWriter::new(alloc, Output::new(Vec::new(alloc)), 64)?;
    ///     let mut replies = Replies::new(writer, Ending::Lf);
    ///     talk.feed(&mut Echo, b"ab", &mut replies) // 2
    ///     talk.end(&mut Echo, &mut replies);
    ///     talk.stop() // Some(EndOfInput)
    ///     let mut writer = replies.into_writer();
    ///     writer.flush() // Ok(())
    ///     writer.into_sink().into_inner() // [97, 98, 10]
    pub fn end<H: Handler, K: Sink, B: Allocator>(
        &mut self,
        handler: &mut H,
        replies: &mut Replies<K, B>,
    )
        ensures converses { Converses H.answers H.refuses self.old.endings self.old.size
            Supply.Ended (place_of self.old handler.old) replies.old
            (place_of self.new handler.new) replies.new }
        ensures moves { OnlyMoves self.old self.new }
    {
        let searched = self.dialogue.buffer.len();
        self.dialogue.converse(handler, replies, true, searched);
    }

    /// Tells the handler that the source of the input has failed, by the error `Read`, in place of what it asked for.
    /// Then the conversation is over. In the rest of a line that was rejected, the handler is not told. If the replies
    /// are to be sent first, the handler is not told either: the caller sends them, calls `sent`, and then `fail` again.
    ///
    ///     let mut talk = Conversation::new(alloc, 64, Endings::Any)?;
    ///     let writer = LineWriter::new(alloc, Output::new(Vec::new(alloc)), 64)?;
    ///     let mut replies = Replies::new(writer, Ending::Lf);
    ///     talk.fail(&mut Echo, &mut replies);
    ///     talk.stop() // Some(Reader(Read))
    ///     talk.feed(&mut Echo, b"ab\n", &mut replies) // 0
    pub fn fail<H: Handler, K: Sink, B: Allocator>(
        &mut self,
        handler: &mut H,
        replies: &mut Replies<K, B>,
    )
        ensures converses { Converses H.answers H.refuses self.old.endings self.old.size
            Supply.Failed (place_of self.old handler.old) replies.old
            (place_of self.new handler.new) replies.new }
        ensures moves { OnlyMoves self.old self.new }
    {
        self.dialogue.fail(handler, replies);
    }

    /// Says that the replies so far were sent: if the handler has asked for that, every step that the bytes that are held
    /// complete is carried out. Otherwise nothing is left to be done. If the sink of the replies has failed, the handler
    /// is not asked again, and the conversation is over.
    ///
    /// In the example, `Slow` is a handler that replies with the text that it is handed, and asks for the next line
    /// once that was sent.
    ///
    ///     let mut talk = Conversation::new(alloc, 64, Endings::Any)?;
    ///     let writer = LineWriter::new(alloc, Output::new(Vec::new(alloc)), 64)?;
    ///     let mut replies = Replies::new(writer, Ending::Lf);
    ///     talk.feed(&mut Slow, b"ab\ncd\n", &mut replies) // 6
    ///     talk.position() // 3
    ///     replies.flush() // Ok(())
    ///     talk.sent(&mut Slow, &mut replies);
    ///     talk.position() // 6
    pub fn sent<H: Handler, K: Sink, B: Allocator>(
        &mut self,
        handler: &mut H,
        replies: &mut Replies<K, B>,
    )
        ensures converses { Converses H.answers H.refuses self.old.endings self.old.size
            (supply_at self.old.is_at_end) (place_sent self.old handler.old) replies.old
            (place_of self.new handler.new) replies.new }
        ensures moves { OnlyMoves self.old self.new }
    {
        let mut searched = self.dialogue.buffer.len();
        if self.is_sending() {
            self.dialogue.awaited = Awaited::Input(Next::Line);
            searched = 0;
        }
        let is_ended = self.dialogue.buffer.is_at_end();
        self.dialogue.converse(handler, replies, is_ended, searched);
    }

    /// Returns `true` if the handler is not asked again before the caller says by `sent` that the replies were sent.
    ///
    ///     let mut talk = Conversation::new(alloc, 64, Endings::Any)?;
    ///     let writer = LineWriter::new(alloc, Output::new(Vec::new(alloc)), 64)?;
    ///     let mut replies = Replies::new(writer, Ending::Lf);
    ///     talk.feed(&mut Slow, b"ab\n", &mut replies) // 3
    ///     talk.is_sending() // true
    ///     talk.sent(&mut Slow, &mut replies);
    ///     talk.is_sending() // false
    pub fn is_sending(&self) -> bool
        ensures { IsTrue result ↔ (self.now.awaited ≡ Awaited.Sending) }
    {
        matches!(self.dialogue.awaited, Awaited::Sending)
    }

    /// Awaits a line, whatever was awaited before, and carries out every step that the bytes that are held complete.
    pub(crate) fn resume<H: Handler, K: Sink, B: Allocator>(
        &mut self,
        handler: &mut H,
        replies: &mut Replies<K, B>,
    )
        ensures converses { Converses H.answers H.refuses self.old.endings self.old.size
            (supply_at self.old.is_at_end)
            (place_of (record self.old { awaited = Awaited.Input Next.Line }) handler.old)
            replies.old (place_of self.new handler.new) replies.new }
        ensures moves { OnlyMoves self.old self.new }
    {
        self.dialogue.awaited = Awaited::Input(Next::Line);
        let is_ended = self.dialogue.buffer.is_at_end();
        self.dialogue.converse(handler, replies, is_ended, 0);
    }

    /// Reads the device of the replies once, and carries out every step that the bytes complete.
    pub(crate) fn read<H: Handler, C: Channel, B: Allocator>(
        &mut self,
        handler: &mut H,
        replies: &mut Replies<C, B>,
    )
        requires going { ¬ (IsOver self.old.awaited) }
        requires waits { self.old.awaited ≢ Awaited.Sending }
        requires more { self.old.is_at_end ≡ false }
        ensures { ReadsOn H.answers H.refuses self.old handler.old replies.old self.new handler.new
            replies.new }
    {
        let searched = self.dialogue.buffer.len();
        match replies.fill(&mut self.dialogue.buffer) {
            Ok(()) => {
                let is_ended = self.dialogue.buffer.is_at_end();
                self.dialogue.converse(handler, replies, is_ended, searched);
            }
            Err(_) => self.dialogue.fail(handler, replies),
        }
    }

    /// Returns `true` if the conversation is over.
    ///
    ///     let mut talk = Conversation::new(alloc, 64, Endings::Any)?;
    ///     talk.is_closed() // false
    ///     let writer = LineWriter::new(alloc, Output::new(Vec::new(alloc)), 64)?;
    ///     talk.end(&mut Echo, &mut Replies::new(writer, Ending::Lf));
    ///     talk.is_closed() // true
    pub fn is_closed(&self) -> bool
        ensures { IsTrue result ↔ IsOver self.now.awaited }
    {
        self.dialogue.is_over()
    }

    /// Returns why the conversation is over, or `None` if it is not.
    ///
    ///     let mut talk = Conversation::new(alloc, 64, Endings::Any)?;
    ///     talk.stop() // None
    ///     let writer = LineWriter::new(alloc, Output::new(Vec::new(alloc)), 64)?;
    ///     talk.feed(&mut Echo, b"\xff\n", &mut Replies::new(writer, Ending::Lf)) // 2
    ///     talk.stop() // Some(Reader(NotAscii(0)))
    pub fn stop(&self) -> Option<Stop>
        ensures { result ≡ stop_of self.now.awaited }
    {
        match self.dialogue.awaited {
            Awaited::Nothing(stop) => Some(stop),
            Awaited::Input(_) | Awaited::LineEnd(_) | Awaited::Sending => None,
        }
    }

    /// Returns the position in the input at which the next line or part starts, counted from 0. After an error it is
    /// that of the line or part at fault; after an error in the rest of a line that was rejected, the one after the
    /// bytes of it that were skipped.
    ///
    ///     let mut talk = Conversation::new(alloc, 64, Endings::Any)?;
    ///     let writer = LineWriter::new(alloc, Output::new(Vec::new(alloc)), 64)?;
    ///     talk.feed(&mut Echo, b"ab\nc", &mut Replies::new(writer, Ending::Lf)) // 4
    ///     talk.position() // 3
    pub fn position(&self) -> u64
        ensures { result ≡ self.now.start }
    {
        self.dialogue.start
    }
}

/// Where a conversation is, also between its steps.
#[derive(Drop)]
struct Dialogue<A: Allocator> {
    buffer: LineBuffer<A>,
    endings: Endings,
    // Where the bytes that are held start in the input.
    start: u64,
    awaited: Awaited,
}

impl<A: Allocator> Dialogue<A> {
    ghost use Rattle.ascii_lines.specs.Serve.{IsUnread};
    ghost use Rattle.ascii_lines.specs.Turns.{Converses, IsRequested, IsSearchedFor, Rests};
    ghost use Rattle.ascii_lines.specs.Turns.{SkipTurn, TurnOutcome, Wants, place_at, supply_at};

    /// Whether nothing is awaited.
    fn is_over(&self) -> bool
        ensures { IsTrue result ↔ IsOver self.now.awaited }
    {
        matches!(self.awaited, Awaited::Nothing(_))
    }

    /// Tells the handler that the source has failed, if it awaits an input.
    fn fail<H: Handler, K: Sink, B: Allocator>(
        &mut self,
        handler: &mut H,
        replies: &mut Replies<K, B>,
    )
        requires { Rests self.old.endings self.old.buffer.size self.old.awaited self.old.start
            self.old.buffer.held }
        ensures converses { Converses H.answers H.refuses self.old.endings self.old.buffer.size
            Supply.Failed
            (place_at self.old.awaited handler.old self.old.start self.old.buffer.held)
            replies.old
            (place_at self.new.awaited handler.new self.new.start self.new.buffer.held)
            replies.new }
        ensures unread { IsOver self.old.awaited ⊎ (self.old.awaited ≡ Awaited.Sending)
            ⊎ ((why : Stop) × (self.new.awaited ≡ Awaited.Nothing why) × IsUnread why) }
        ensures buffer { self.new.buffer ≡ self.old.buffer }
        ensures endings { self.new.endings ≡ self.old.endings }
    {
        if self.is_over() {
            return;
        }
        if replies.is_broken() {
            self.awaited = Awaited::Nothing(Stop::Writer);
            return;
        }
        match self.awaited {
            Awaited::Input(_) => {
                let _next = handler.refuse(LineError::Read, replies);
                self.awaited = Awaited::Nothing(Stop::Reader(LineError::Read));
            }
            Awaited::LineEnd(_) => self.awaited = Awaited::Nothing(Stop::Reader(LineError::Read)),
            Awaited::Sending | Awaited::Nothing(_) => {}
        }
    }

    /// Takes all steps that can be taken. The first `searched` bytes were searched.
    fn converse<H: Handler, K: Sink, B: Allocator>(
        &mut self,
        handler: &mut H,
        replies: &mut Replies<K, B>,
        is_ended: bool,
        searched: usize,
    )
        requires request { IsRequested self.old.awaited }
        requires used { self.old.awaited ≡ Awaited.Nothing Stop.EndOfInput
            → self.old.buffer.held ≡ [] }
        requires searched { ¬ (IsOver self.old.awaited) → IsSearchedFor self.old.endings
            self.old.buffer.size self.old.awaited self.old.start self.old.buffer.held searched }
        ensures converses { Converses H.answers H.refuses self.old.endings self.old.buffer.size
            (supply_at is_ended)
            (place_at self.old.awaited handler.old self.old.start self.old.buffer.held)
            replies.old
            (place_at self.new.awaited handler.new self.new.start self.new.buffer.held)
            replies.new }
        ensures size { self.new.buffer.size ≡ self.old.buffer.size }
        ensures endings { self.new.endings ≡ self.old.endings }
        ensures at_end { self.new.buffer.is_at_end ≡ self.old.buffer.is_at_end }
    {
        let mut searched = searched;
        'turns: loop {
            if self.is_over() {
                return;
            }
            if replies.is_broken() {
                self.awaited = Awaited::Nothing(Stop::Writer);
                return;
            }
            if !self.turn(handler, replies, is_ended, searched) {
                return;
            }
            searched = 0;
        }
    }

    /// Takes a step, if one can be taken.
    fn turn<H: Handler, K: Sink, B: Allocator>(
        &mut self,
        handler: &mut H,
        replies: &mut Replies<K, B>,
        is_ended: bool,
        searched: usize,
    ) -> bool
        requires request { IsRequested self.old.awaited }
        requires going { ¬ (IsOver self.old.awaited) }
        requires searched { IsSearchedFor self.old.endings self.old.buffer.size self.old.awaited
            self.old.start self.old.buffer.held searched }
        ensures turn { TurnOutcome H.answers H.refuses self.old.endings self.old.buffer.size
            (supply_at is_ended)
            (place_at self.old.awaited handler.old self.old.start self.old.buffer.held) replies.old
            result (place_at self.new.awaited handler.new self.new.start self.new.buffer.held)
            replies.new }
        ensures size { self.new.buffer.size ≡ self.old.buffer.size }
        ensures endings { self.new.endings ≡ self.old.endings }
        ensures at_end { self.new.buffer.is_at_end ≡ self.old.buffer.is_at_end }
    {
        match self.awaited {
            Awaited::Input(asked) if is_ended && self.buffer.len() == 0 => {
                self.run_out(handler, replies, asked);
                true
            }
            Awaited::Input(Next::Line) => {
                let wanted = Wanted::Line(self.endings, Content::Text);
                self.input(handler, replies, Next::Line, wanted, is_ended, searched)
            }
            Awaited::Input(Next::Part(n)) => {
                let wanted = Wanted::Part(n, Content::Text);
                self.input(handler, replies, Next::Part(n), wanted, is_ended, searched)
            }
            Awaited::Input(Next::Bytes(n)) => {
                let wanted = Wanted::Part(n, Content::Any);
                self.input(handler, replies, Next::Bytes(n), wanted, is_ended, searched)
            }
            Awaited::LineEnd(next) => self.skip(next, is_ended),
            Awaited::Input(Next::LineOnceSent | Next::Close)
            | Awaited::Sending
            | Awaited::Nothing(_) => false,
        }
    }

    /// Ends the conversation, since the input has ended and all its bytes were used. The handler is told if it has
    /// asked for a part.
    fn run_out<H: Handler, K: Sink, B: Allocator>(
        &mut self,
        handler: &mut H,
        replies: &mut Replies<K, B>,
        asked: Next,
    )
        requires request { IsRequested (Awaited.Input asked) }
        requires none { self.old.buffer.held ≡ [] }
        ensures turn { TurnOutcome H.answers H.refuses self.old.endings self.old.buffer.size
            Supply.Ended
            (place_at (Awaited.Input asked) handler.old self.old.start self.old.buffer.held)
            replies.old true
            (place_at self.new.awaited handler.new self.new.start self.new.buffer.held)
            replies.new }
        ensures buffer { self.new.buffer ≡ self.old.buffer }
        ensures endings { self.new.endings ≡ self.old.endings }
    {
        match asked {
            Next::Line => self.awaited = Awaited::Nothing(Stop::EndOfInput),
            _ => {
                let error = LineError::Incomplete(0);
                let _next = handler.refuse(error, replies);
                self.awaited = Awaited::Nothing(Stop::Reader(error));
            }
        }
    }

    /// Hands the handler what it asked for, or tells it of the error in its place.
    fn input<H: Handler, K: Sink, B: Allocator>(
        &mut self,
        handler: &mut H,
        replies: &mut Replies<K, B>,
        asked: Next,
        wanted: Wanted,
        is_ended: bool,
        searched: usize,
    ) -> bool
        requires asked { self.old.awaited ≡ Awaited.Input asked }
        requires wanted { Wants self.old.endings asked wanted }
        requires request { IsRequested (Awaited.Input asked) }
        requires some { is_ended ≡ true → self.old.buffer.held ≢ [] }
        requires searched { IsLookedFor wanted self.old.start self.old.buffer searched }
        ensures turn { TurnOutcome H.answers H.refuses self.old.endings self.old.buffer.size
            (supply_at is_ended)
            (place_at (Awaited.Input asked) handler.old self.old.start self.old.buffer.held)
            replies.old result
            (place_at self.new.awaited handler.new self.new.start self.new.buffer.held)
            replies.new }
        ensures size { self.new.buffer.size ≡ self.old.buffer.size }
        ensures endings { self.new.endings ≡ self.old.endings }
        ensures at_end { self.new.buffer.is_at_end ≡ self.old.buffer.is_at_end }
    {
        match look(&self.buffer, wanted, self.start, is_ended, searched) {
            Ok(Some(found)) => self.hand(handler, replies, asked, wanted, is_ended, found),
            Ok(None) => false,
            Err(error) => {
                let next = handler.refuse(error, replies);
                self.awaited = after_fault(asked, error, next);
                true
            }
        }
    }

    /// Hands the handler what it asked for.
    fn hand<H: Handler, K: Sink, B: Allocator>(
        &mut self,
        handler: &mut H,
        replies: &mut Replies<K, B>,
        asked: Next,
        wanted: Wanted,
        is_ended: bool,
        found: Found,
    ) -> bool
        requires wanted { Wants self.old.endings asked wanted }
        requires request { IsRequested (Awaited.Input asked) }
        requires some { is_ended ≡ true → self.old.buffer.held ≢ [] }
        requires found { Finds wanted self.old.start (window_at is_ended self.old.buffer) found }
        ensures turn { TurnOutcome H.answers H.refuses self.old.endings self.old.buffer.size
            (supply_at is_ended)
            (place_at (Awaited.Input asked) handler.old self.old.start self.old.buffer.held)
            replies.old result
            (place_at self.new.awaited handler.new self.new.start self.new.buffer.held)
            replies.new }
        ensures size { self.new.buffer.size ≡ self.old.buffer.size }
        ensures endings { self.new.endings ≡ self.old.endings }
        ensures at_end { self.new.buffer.is_at_end ≡ self.old.buffer.is_at_end }
    {
        self.buffer.take(found.count);
        self.start = found.end;
        let received = received_at(wanted, self.buffer.line_bytes());
        let next = handler.answer(received, replies);
        self.awaited = after_answer(next);
        true
    }

    /// Reads over bytes of a line that was rejected.
    fn skip(&mut self, next: Next, is_ended: bool) -> bool
        requires { self.old.awaited ≡ Awaited.LineEnd next }
        ensures skips { SkipTurn (supply_at is_ended) (any_text self.old.endings) next
            self.old.start self.old.buffer.held result self.new.awaited self.new.start
            self.new.buffer.held }
        ensures size { self.new.buffer.size ≡ self.old.buffer.size }
        ensures endings { self.new.endings ≡ self.old.endings }
        ensures at_end { self.new.buffer.is_at_end ≡ self.old.buffer.is_at_end }
    {
        let text = self.buffer.front(self.buffer.len());
        let endings = whole_endings(self.endings);
        let Some((n, awaited)) = skip_in(endings, next, self.start, text, is_ended) else {
            return false;
        };
        self.start += n as u64;
        self.buffer.take(n);
        self.awaited = awaited;
        true
    }
}

/// What is awaited after an answer.
fn after_answer(next: Next) -> Awaited
    ensures { result ≡ awaited_by next }
{
    match next {
        Next::Close => Awaited::Nothing(Stop::Closed),
        Next::LineOnceSent => Awaited::Sending,
        Next::Line | Next::Part(_) | Next::Bytes(_) => Awaited::Input(next),
    }
}

/// What is awaited after an error in place of what was asked for.
fn after_fault(asked: Next, error: LineError, next: Next) -> Awaited
    ensures { GoesTo asked error next result }
{
    match (asked, next) {
        (Next::Line, next) if next != Next::Close && !is_final(error) => Awaited::LineEnd(next),
        _ => Awaited::Nothing(Stop::Reader(error)),
    }
}

/// How many bytes of a line that was rejected are read over, and what is awaited then. Nothing before more bytes
/// come.
fn skip_in(
    endings: Endings,
    next: Next,
    start: u64,
    text: &[u8],
    is_ended: bool,
) -> Option<(usize, Awaited)>
    ensures { SkipsIn (supply_at is_ended) endings next start text.now result }
{
    let (n, end) = part_of_line(endings, text, u64::MAX - start);
    match end {
        Some(PassEnd::Ending) => Some((n, after_answer(next))),
        Some(_) => Some((n, Awaited::Nothing(Stop::Reader(LineError::TooFar)))),
        None if is_ended => Some((text.len(), Awaited::Nothing(Stop::EndOfInput))),
        None if n == 0 => None,
        None => Some((n, Awaited::LineEnd(next))),
    }
}
