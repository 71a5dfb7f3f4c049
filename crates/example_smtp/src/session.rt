//! A session with one client: the message that it sends, and the messages that are stored.

ghost use Rattle.std.specs.Prelude.{◌↔◌, ◌≡◌, ◌∷◌, ◌++◌, [], IfOk, IsTrue, OnErr, OnOk};
ghost use Rattle.ascii.specs.View.{text_of};
ghost use Rattle.ascii_lines.specs.LineWriter.{line_with};
ghost use Rattle.ascii_lines.specs.Replies.{IsRequest, Says};
ghost use Rattle.example_smtp.specs.Folder.{StoresIn};
ghost use Rattle.example_smtp.specs.Mail.{IsUnbroken};
ghost use Rattle.example_smtp.specs.Session.{Fits, IsAllowed, fault_of, is_error, next_after};
ghost use Rattle.example_smtp.specs.Session.{refusal_of, reply_lines, reply_of_fault, reply_to};
ghost use Rattle.example_smtp.specs.Session.{reset_stage};

use crate::commands::{Command, MOST_BYTES, Reply, is_foreign, read_command};
use crate::folder::Folder;
use crate::mailbox::Mailbox;
use crate::message::{Message, append_line, unstuff};
use ascii_lines::{
    AsciiStr, AsciiString, Ending, Handler, LineError, Next, Received, Replies, Sink,
};
use std::alloc::{AllocError, Allocator, Global};
use std::io;
use std::marker::Model;

/// The most recipients of a message.
const MOST_RECIPIENTS: usize = 1_000;

/// The error of a client at which it is left.
const LAST_ERROR: usize = 20;

/// What a session awaits.
#[derive(Clone, Copy, PartialEq, Eq, Debug)]
pub enum Stage {
    /// The introduction of the client.
    Greeting,
    /// A message.
    Ready,
    /// The first recipient of the message.
    Sender,
    /// Further recipients, or the lines of the message.
    Recipients,
    /// The lines of the message, and the dot after them.
    Lines,
}

/// Why a message that was begun will not be stored.
#[derive(Clone, Copy, PartialEq, Eq, Debug)]
pub enum Fault {
    /// A line of it was rejected.
    Rejected,
    /// A line of it is not ASCII.
    OtherBytes,
    /// It is too large.
    TooLarge,
    /// There was no memory for it.
    NoMemory,
}

/// What is awaited, the message that was begun, and where messages are stored.
#[derive(Drop)]
pub struct Session<F: Folder> {
    alloc: Global,
    stage: Stage,
    draft: Message,
    // The first fault in the lines of the draft.
    fault: Option<Fault>,
    // At how many errors more the client is left.
    left: usize,
    count: usize,
    mailbox: Option<Mailbox<F>>,
}

impl<F: Folder> Model for Session<F> {
    ghost use Rattle.example_smtp.specs.Mail.{State, mail_of};

    ghost Value = { State };

    ghost view = { λ session. record {
      stage = session.stage;
      draft = mail_of session.draft;
      fault = session.fault;
      left = session.left;
      count = session.count;
      folder = session.mailbox;
    } };
}

impl<F: Folder> Session<F> {
    ghost use Rattle.example_smtp.specs.Mail.{idle};
    ghost use Rattle.example_smtp.specs.Session.{AnswersAt, AnswersCommand, AnswersInput};
    ghost use Rattle.example_smtp.specs.Session.{AnswersLine, Counts};
    ghost use Rattle.example_smtp.specs.Session.{Ends, EndsWhole, Follows, IsStranger, KeepsLine, RefusesAt};
    ghost use Rattle.example_smtp.specs.Session.{after, spoiled};

    /// Creates a session that stores messages in the mailbox, if there is one. Does not allocate.
    pub fn new(alloc: Global, mailbox: Option<Mailbox<F>>) -> Session<F>
        ensures { result ≡ idle Stage.Greeting [] 20 0 mailbox }
    {
        Session {
            alloc,
            stage: Stage::Greeting,
            draft: Message::new(alloc),
            fault: None,
            left: LAST_ERROR,
            count: 0,
            mailbox,
        }
    }

    /// Returns the number of messages that were received.
    pub fn message_count(&self) -> usize
        ensures { result ≡ self.now.count }
    {
        self.count
    }

    /// Takes a line, and returns the reply, if there is one. If the input ended in the line, the session is over.
    fn take(&mut self, received: Received<'_>) -> Option<Reply>
        ensures { AnswersInput self.old received.entry result self.new }
    {
        match received.text() {
            Some(line) if received.ending() != Ending::Absent => self.take_whole(line),
            _ => {
                self.stage = Stage::Greeting;
                self.draft.clear(self.alloc);
                self.fault = None;
                Some(Reply::CutOff)
            }
        }
    }

    /// Takes a line that has its ending, and returns the reply, if there is one.
    fn take_whole(&mut self, line: AsciiStr<'_>) -> Option<Reply>
        ensures { AnswersAt self.old.stage self.old (text_of line.entry) result self.new }
    {
        match self.stage {
            Stage::Lines => self.take_line(line),
            _ => Some(self.take_command(line)),
        }
    }

    /// Takes a line that is to say a command. A client that begins with a request of HTTP is left.
    fn take_command(&mut self, line: AsciiStr<'_>) -> Reply
        ensures { AnswersCommand self.old (text_of line.entry) result self.new }
    {
        if self.is_stranger(line) {
            return Reply::Closing;
        }
        match read_command(line) {
            Ok(command) => self.follow(command),
            Err(fault) => fault,
        }
    }

    /// Returns `true` if a client that has not introduced itself sends the first line of a request of HTTP.
    fn is_stranger(&self, line: AsciiStr<'_>) -> bool
        ensures { IsTrue result ↔ IsStranger self.now (text_of line.entry) }
    {
        if self.stage != Stage::Greeting {
            return false;
        }
        is_foreign(line)
    }

    /// Carries out a command if it is allowed, and otherwise rejects it.
    fn follow(&mut self, command: Command<'_>) -> Reply
        ensures { Follows self.old command.entry result self.new }
    {
        if !is_allowed(self.stage, command) {
            return Reply::BadSequence;
        }
        if !fits(self.draft.recipients.len(), command) {
            return Reply::TooManyRecipients;
        }
        match self.carry_out(command) {
            Ok(()) => reply_of(command),
            Err(AllocError) => Reply::NoMemory,
        }
    }

    /// Carries out a command, or returns an error if an allocation fails; nothing is changed then.
    fn carry_out(&mut self, command: Command<'_>) -> Result<(), AllocError>
        ensures done { OnOk result (self.new ≡ after self.old command.entry) }
        ensures kept { OnErr result (self.new ≡ self.old) }
    {
        match command {
            Command::Introduce { domain } | Command::Extend { domain } => {
                let client = domain.to_ascii_string(self.alloc)?;
                self.draft.clear(self.alloc);
                self.draft.client = client;
                self.stage = Stage::Ready;
            }
            Command::SetSender { address } => {
                let sender = address.to_ascii_string(self.alloc)?;
                self.draft.clear(self.alloc);
                self.draft.sender = sender;
                self.stage = Stage::Sender;
            }
            Command::AddRecipient { address } => {
                let recipient = address.to_ascii_string(self.alloc)?;
                self.draft.recipients.push(recipient)?;
                self.stage = Stage::Recipients;
            }
            Command::BeginLines => {
                self.draft.text.clear();
                self.fault = None;
                self.stage = Stage::Lines;
            }
            Command::Reset => {
                self.draft.clear(self.alloc);
                self.stage = stage_after_reset(self.stage);
            }
            Command::Verify { .. } | Command::Reply | Command::Leave => {}
        }
        Ok(())
    }

    /// Takes a line of a message: a dot alone ends the message, which is dropped if it has a fault.
    fn take_line(&mut self, sent: AsciiStr<'_>) -> Option<Reply>
        ensures { AnswersLine self.old (text_of sent.entry) result self.new }
    {
        if sent.eq_str(".") {
            return Some(self.end_message());
        }
        if self.fault.is_none() {
            self.keep_line(unstuff(sent));
        }
        None
    }

    /// Appends a line to the text of the message, unless that is then too large, or there is no memory.
    fn keep_line(&mut self, line: AsciiStr<'_>)
        ensures { KeepsLine self.old (self.old.draft.text ++ (text_of line.entry ++ 13 ∷ 10 ∷ []))
            self.new }
    {
        if line.len() + 2 > MOST_BYTES.saturating_sub(self.draft.text.len()) {
            self.spoil(Fault::TooLarge);
        } else if append_line(&mut self.draft.text, line).is_err() {
            self.spoil(Fault::NoMemory);
        }
    }

    /// Drops the text of the message for a fault.
    fn spoil(&mut self, fault: Fault)
        ensures { self.new ≡ spoiled self.old fault }
    {
        self.draft.text = AsciiString::new(self.alloc);
        self.fault = Some(fault);
    }

    /// Stores or drops the message that was begun.
    fn end_message(&mut self) -> Reply
        ensures { Ends self.old.fault self.old result self.new }
    {
        let said = match self.fault {
            Some(fault) => reply_of_fault(fault),
            None => self.store_message(),
        };
        self.draft.clear(self.alloc);
        self.fault = None;
        self.stage = Stage::Ready;
        said
    }

    /// Stores the message that was begun, and counts it.
    #[tactic(auto, using(crate::proofs::FolderLemmas::in_none))]
    fn store_message(&mut self) -> Reply
        ensures stored { EndsWhole self.old result self.new }
        ensures kept { self.new ≡ record self.old {
          count = self.new.count;
          folder = self.new.folder;
        } }
    {
        let Ok(date) = date_in(&self.mailbox, self.alloc) else {
            return Reply::NotStored;
        };
        let Ok(envelope) = self.draft.envelope(self.alloc, date.as_ascii_str()) else {
            return Reply::NoMemory;
        };
        if !store(
            &mut self.mailbox,
            envelope.as_ascii_str(),
            self.draft.text.as_ascii_str(),
        ) {
            return Reply::NotStored;
        }
        self.count = self.count.saturating_add(1);
        Reply::Received
    }

    /// Takes an error in place of a line, and returns the reply, if there is one: a message is answered at its end.
    fn reject(&mut self, error: LineError) -> Option<Reply>
        ensures { RefusesAt self.old.stage self.old error result self.new }
    {
        if self.stage == Stage::Lines {
            self.fault = Some(self.fault.unwrap_or(fault_of(error)));
            return None;
        }
        Some(refusal(error))
    }

    /// Returns what is replied in place of a reply: at the last error of a client it is left.
    fn count_error(&mut self, said: Option<Reply>) -> Option<Reply>
        ensures { Counts self.old said result self.new }
    {
        match said {
            Some(reply) if is_error(reply) => {
                if self.left <= 1 {
                    return Some(Reply::Closing);
                }
                self.left -= 1;
                said
            }
            _ => said,
        }
    }
}

impl<F: Folder> Handler for Session<F> {
    ghost use Rattle.example_smtp.specs.Session.{session_answers, session_refuses};

    ghost answers = { session_answers };

    ghost refuses = { session_refuses };

    fn answer<K: Sink, A: Allocator>(
        &mut self,
        received: Received<'_>,
        replies: &mut Replies<K, A>,
    ) -> Next {
        let reply = self.take(received);
        let reply = self.count_error(reply);
        say(reply, replies)
    }

    fn refuse<K: Sink, A: Allocator>(
        &mut self,
        error: LineError,
        replies: &mut Replies<K, A>,
    ) -> Next {
        let reply = self.reject(error);
        let reply = self.count_error(reply);
        say(reply, replies)
    }
}

/// Writes a reply, if there is one, and returns what is asked for after it.
fn say<K: Sink, A: Allocator>(reply: Option<Reply>, replies: &mut Replies<K, A>) -> Next
    ensures says { Says replies.old (reply_lines reply) replies.new }
    ensures next { result ≡ next_after reply }
    ensures request { IsRequest result }
{
    if let Some(reply) = reply {
        replies.text(reply.line());
    }
    next_of(reply)
}

/// Returns what is asked for after a reply, if there is one.
fn next_of(reply: Option<Reply>) -> Next
    ensures next { result ≡ next_after reply }
    ensures request { IsRequest result }
{
    match reply {
        Some(Reply::Bye | Reply::Closing | Reply::CutOff) => Next::Close,
        Some(Reply::Received) => Next::LineOnceSent,
        _ => Next::Line,
    }
}

/// Returns the date and the time of now as a mail has them; without a mailbox nothing.
fn date_in<F: Folder>(mailbox: &Option<Mailbox<F>>, alloc: Global) -> io::Result<AsciiString>
    ensures { IfOk result (λ date. IsUnbroken date.text) }
{
    match mailbox {
        Some(mailbox) => mailbox.date(alloc),
        None => Ok(AsciiString::new(alloc)),
    }
}

/// Stores a message in the mailbox, and returns whether that was done; without a mailbox it is.
fn store<F: Folder>(
    mailbox: &mut Option<Mailbox<F>>,
    envelope: AsciiStr<'_>,
    text: AsciiStr<'_>,
) -> bool
    ensures stored { IsTrue result → StoresIn mailbox.old
        ((text_of envelope.entry ++ text_of text.entry) ∷ []) mailbox.new }
    ensures kept { ¬ (IsTrue result) → StoresIn mailbox.old [] mailbox.new }
{
    match mailbox {
        Some(mailbox) => mailbox.store(envelope, text).is_ok(),
        None => true,
    }
}

/// Returns the reply to the dot of a message with a fault.
fn reply_of_fault(fault: Fault) -> Reply
    ensures { result ≡ reply_of_fault fault }
{
    match fault {
        Fault::Rejected => Reply::BadMessage,
        Fault::OtherBytes => Reply::OtherBytes,
        Fault::TooLarge => Reply::LargeMessage,
        Fault::NoMemory => Reply::NoMemory,
    }
}

/// Returns `true` if the reply is to an error of the client.
fn is_error(reply: Reply) -> bool
    ensures { result ≡ is_error reply }
{
    match reply {
        Reply::UnknownCommand | Reply::BadArgument | Reply::UnknownParameter => true,
        Reply::BadSequence | Reply::LongLine | Reply::BadLine => true,
        _ => false,
    }
}

/// Returns the fault of a message of which a line is rejected for this error.
fn fault_of(error: LineError) -> Fault
    ensures { result ≡ fault_of error }
{
    match error {
        LineError::NotAscii(_) => Fault::OtherBytes,
        _ => Fault::Rejected,
    }
}

/// Returns the reply to an error of the input.
fn refusal(error: LineError) -> Reply
    ensures { result ≡ refusal_of error }
{
    match error {
        LineError::TooLong(_) => Reply::LongLine,
        LineError::NotAscii(_) | LineError::LoneBreak(_) => Reply::BadLine,
        _ => Reply::Closing,
    }
}

/// Returns `true` if the command is allowed at this stage.
fn is_allowed(stage: Stage, command: Command<'_>) -> bool
    ensures { IsTrue result ↔ IsAllowed stage command.entry }
{
    match command {
        Command::SetSender { .. } => stage == Stage::Ready,
        Command::AddRecipient { .. } => stage == Stage::Sender || stage == Stage::Recipients,
        Command::BeginLines => stage == Stage::Recipients,
        _ => true,
    }
}

/// Returns `true` if a message with this number of recipients takes the command.
fn fits(count: usize, command: Command<'_>) -> bool
    ensures { IsTrue result ↔ Fits count command.entry }
{
    match command {
        Command::AddRecipient { .. } => count < MOST_RECIPIENTS,
        _ => true,
    }
}

/// Returns the stage after a message that was begun is dropped.
fn stage_after_reset(stage: Stage) -> Stage
    ensures { result ≡ reset_stage stage }
{
    match stage {
        Stage::Greeting => Stage::Greeting,
        _ => Stage::Ready,
    }
}

/// Returns the reply to a command that is allowed.
fn reply_of(command: Command<'_>) -> Reply
    ensures { result ≡ reply_to command.entry }
{
    match command {
        Command::BeginLines => Reply::SendLines,
        Command::Verify { .. } => Reply::Unverified,
        Command::Leave => Reply::Bye,
        Command::Extend { .. } => Reply::Extensions,
        _ => Reply::Done,
    }
}
