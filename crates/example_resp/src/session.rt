//! A session with one client: the lines and words that it sends, and the replies.

ghost use Rattle.std.specs.Option.{option_copied};
ghost use Rattle.std.specs.Prelude.{◌↔◌, ◌≡◌, ◌⊎◌, IfErr, IfOk, IsTrue, map, slice_get};
ghost use Rattle.ascii.specs.View.{text_of};
ghost use Rattle.ascii_lines.specs.Replies.{IsRequest, Says, line_reply};
ghost use Rattle.example_resp.specs.Store.{byte_lists};
ghost use Rattle.example_resp.specs.Session.{asked_after, next_after, reply_lines, value_at};
ghost use Rattle.example_resp.specs.Requests.{IsLength, IsShortest};

use crate::commands::{Command, Rejection, read_command};
use crate::replies::{Reply, follow, line_of, say_fault, say_server, say_value};
use crate::store::Store;
use crate::words::split_words;
use ascii::AsciiStr;
use ascii_formats::AsciiStrExt;
use ascii_lines::{Ending, Handler, LineError, Next, Received, Replies, Sink};
use std::alloc::{AllocError, Allocator, Global};

/// The largest number of words of an array.
const MOST_WORDS: usize = 64;

/// The largest number of bytes of a word of an array. The buffer of the reader has to be larger.
const MOST_BYTES: usize = 1024;

/// What a session awaits.
#[derive(Clone, Copy, PartialEq, Eq, Debug)]
pub enum Stage {
    /// The first line of a request.
    Request,
    /// The line with the length of a word, in an array of this number of words.
    Length(usize),
    /// A word, in an array of this number of words.
    Word(usize),
    /// The line that ends a word, in an array of this number of words.
    End(usize),
}

/// What a line says of a length.
#[derive(Clone, Copy, PartialEq, Eq, Debug)]
pub enum Length {
    /// The line is the mark and then this length.
    Known(usize),
    /// The line is the mark and then something other than a length, which has no zero before other digits.
    Bad,
    /// The line does not begin with the mark.
    Absent,
}

/// What is done with a line or a word: the reply, and what is asked for next.
#[derive(Clone, Copy, PartialEq, Eq, Debug)]
pub struct Plan {
    reply: Reply,
    next: Next,
}

/// A store, the words of the request that have been read, and what is awaited.
#[derive(Drop)]
pub struct Session {
    alloc: Global,
    store: Store,
    words: Vec<Vec<u8>>,
    stage: Stage,
}

impl Session {
    ghost use Rattle.example_resp.specs.Requests.{Answers, AnswersEnd, AnswersLength, AnswersRequest};
    ghost use Rattle.example_resp.specs.Requests.{AnswersWord, Continues};
    ghost use Rattle.example_resp.specs.Conversations.{Plans};
    ghost use Rattle.example_resp.specs.Session.{CarriesOut, IsFresh, Rejects, answer_of, state_of};

    /// Creates a session with an empty store. Does not allocate.
    pub fn new(alloc: Global) -> Session
        ensures { IsFresh (state_of result) }
    {
        Session {
            alloc,
            store: Store::new(alloc),
            words: Vec::new(alloc),
            stage: Stage::Request,
        }
    }

    /// Plans the answer to the first line of a request.
    fn plan_request(&mut self, line: AsciiStr<'_>) -> Result<Plan, AllocError>
        ensures answers { IfOk result (λ plan. AnswersRequest (state_of self.old)
            (text_of line.entry) (answer_of plan self.new)) }
        ensures request { IfOk result (λ plan. IsRequest plan.next) }
    {
        if line.eq_bytes(b"*-1") {
            self.stage = Stage::Request;
            return Ok(silent(Next::Line));
        }
        match read_length(line, AsciiStr::literal("*"), MOST_WORDS) {
            Length::Known(count) => {
                self.words.clear();
                self.continue_array(count)
            }
            Length::Bad => Ok(self.reject(Rejection::BadCount)),
            Length::Absent => match split_words(self.alloc, line) {
                Ok(words) => {
                    self.words = words;
                    self.carry_out()
                }
                Err(Rejection::NoMemory) => Err(AllocError),
                Err(rejection) => Ok(self.reject(rejection)),
            },
        }
    }

    /// Plans the answer to the line with the length of a word.
    fn plan_length(&mut self, count: usize, line: AsciiStr<'_>) -> Result<Plan, AllocError>
        ensures answers { IfOk result (λ plan. AnswersLength (state_of self.old) count
            (text_of line.entry) (answer_of plan self.new)) }
        ensures request { IfOk result (λ plan. IsRequest plan.next) }
    {
        match read_length(line, AsciiStr::literal("$"), MOST_BYTES) {
            Length::Known(0) => {
                self.words.push(Vec::new(self.alloc))?;
                self.stage = Stage::End(count);
                Ok(silent(Next::Line))
            }
            Length::Known(size) => {
                self.stage = Stage::Word(count);
                Ok(silent(Next::Bytes(size)))
            }
            Length::Bad => Ok(self.reject(Rejection::BadLength)),
            Length::Absent => Ok(self.reject(Rejection::NoLength)),
        }
    }

    /// Keeps a word of an array.
    fn plan_word(&mut self, count: usize, word: &[u8]) -> Result<Plan, AllocError>
        ensures answers { IfOk result (λ plan. AnswersWord (state_of self.old) count
            word.now (answer_of plan self.new)) }
        ensures request { IfOk result (λ plan. IsRequest plan.next) }
    {
        self.words.push(Vec::from_slice(self.alloc, word)?)?;
        self.stage = Stage::End(count);
        Ok(silent(Next::Line))
    }

    /// Plans the answer to the line that ends a word, which is to be empty.
    fn plan_end(&mut self, count: usize, line: AsciiStr<'_>) -> Result<Plan, AllocError>
        ensures answers { IfOk result (λ plan. AnswersEnd (state_of self.old) count
            (text_of line.entry) (answer_of plan self.new)) }
        ensures request { IfOk result (λ plan. IsRequest plan.next) }
    {
        if line.is_empty() {
            self.continue_array(count)
        } else {
            Ok(self.reject(Rejection::BadEnding))
        }
    }

    /// Carries out an array of which all words have been read, or awaits its next word.
    fn continue_array(&mut self, count: usize) -> Result<Plan, AllocError>
        ensures answers { IfOk result (λ plan. Continues (state_of self.old).contents count
            (state_of self.old).words (answer_of plan self.new)) }
        ensures request { IfOk result (λ plan. IsRequest plan.next) }
    {
        if self.words.len() < count {
            self.stage = Stage::Length(count);
            return Ok(silent(Next::Line));
        }
        self.carry_out()
    }

    /// Follows the command that the words say, or rejects them. No words are not answered.
    fn carry_out(&mut self) -> Result<Plan, AllocError>
        ensures answers { IfOk result (λ plan. CarriesOut (state_of self.old).contents
            (state_of self.old).words (answer_of plan self.new)) }
        ensures request { IfOk result (λ plan. IsRequest plan.next) }
    {
        self.stage = Stage::Request;
        if self.words.is_empty() {
            return Ok(silent(Next::Line));
        }
        match read_command(&self.words) {
            Ok(command) => Ok(Plan {
                reply: follow(&mut self.store, self.alloc, command)?,
                next: next_of(command),
            }),
            Err(rejection) => Ok(rejected(rejection)),
        }
    }

    /// Rejects a request, and awaits the next one.
    fn reject(&mut self, rejection: Rejection) -> Plan
        ensures answers { Rejects (state_of self.old).contents rejection
            (answer_of result self.new) }
        ensures request { IsRequest result.next }
    {
        self.stage = Stage::Request;
        rejected(rejection)
    }

    /// Takes a line or a word, and plans the answer; or returns an error if an allocation fails or a line is cut off.
    fn respond(&mut self, received: Received<'_>) -> Result<Plan, Rejection>
        ensures answers { IfOk result (λ plan. Answers (state_of self.old) received.entry.body
            (answer_of plan self.new)) }
        ensures request { IfOk result (λ plan. IsRequest plan.next) }
        ensures err { IfErr result (λ rejection.
            (rejection ≡ Rejection.NoMemory) ⊎ (rejection ≡ Rejection.BadInput)) }
    {
        match self.stage {
            Stage::Request => Ok(self.plan_request(whole_line(&received)?)?),
            Stage::Length(count) => Ok(self.plan_length(count, whole_line(&received)?)?),
            Stage::Word(count) => Ok(self.plan_word(count, received.bytes())?),
            Stage::End(count) => Ok(self.plan_end(count, whole_line(&received)?)?),
        }
    }

    /// Takes a line or a word, and plans the answer. The session gives up if an allocation fails, or if
    /// the input ends in a line.
    fn plan(&mut self, received: Received<'_>) -> Plan
        ensures answers { Plans self.old received.entry.body result self.new }
        ensures request { IsRequest result.next }
    {
        match self.respond(received) {
            Ok(plan) => plan,
            Err(rejection) => rejected(rejection),
        }
    }

    /// Returns the word of the request at an index, or `None` if it has fewer.
    fn word(&self, index: usize) -> Option<&[u8]>
        ensures { option_copied result ≡ slice_get (state_of self.now).words index }
    {
        match self.words.get(index) {
            Some(word) => Some(word.as_slice()),
            None => None,
        }
    }

    /// Returns the value at the key that is the second word of the request.
    fn second_value(&self) -> Option<&[u8]>
        ensures { option_copied result
            ≡ value_at (state_of self.now).contents (slice_get (state_of self.now).words 1) }
    {
        match self.word(1) {
            Some(key) => self.store.get(key),
            None => None,
        }
    }

    /// Writes a reply. Does not allocate.
    fn say<K: Sink, A: Allocator>(&self, reply: Reply, replies: &mut Replies<K, A>)
        ensures { Says replies.old (map line_reply (reply_lines (state_of self.now).contents
            (state_of self.now).words reply)) replies.new }
    {
        match reply {
            Reply::Silence => {}
            Reply::Done => replies.fixed_line(AsciiStr::literal("+OK")),
            Reply::Pong => replies.fixed_line(AsciiStr::literal("+PONG")),
            Reply::Count(count) => replies.number_line(AsciiStr::literal(":"), count),
            Reply::Value => say_value(self.second_value(), replies),
            Reply::Text => say_value(self.word(1), replies),
            Reply::Server => say_server(replies),
            Reply::Fault(rejection) => say_fault(rejection, self.word(0), replies),
        }
    }
}

impl Handler for Session {
    ghost use Rattle.example_resp.specs.Conversations.{session_answers, session_refuses};

    ghost answers = { session_answers };

    ghost refuses = { session_refuses };

    fn answer<K: Sink, A: Allocator>(
        &mut self,
        received: Received<'_>,
        replies: &mut Replies<K, A>,
    ) -> Next {
        let plan = self.plan(received);
        self.say(plan.reply, replies);
        plan.next
    }

    fn refuse<K: Sink, A: Allocator>(
        &mut self,
        _error: LineError,
        replies: &mut Replies<K, A>,
    ) -> Next {
        replies.text(line_of(Rejection::BadInput));
        Next::Close
    }
}

/// Returns a line that has its ending.
fn whole_line<'a>(received: &Received<'a>) -> Result<AsciiStr<'a>, Rejection>
    ensures ok { IfOk result (λ line. text_of line ≡ received.now.body) }
    ensures err { IfErr result (λ rejection. rejection ≡ Rejection.BadInput) }
{
    match received.text() {
        Some(line) if received.ending() != Ending::Absent => Ok(line),
        _ => Err(Rejection::BadInput),
    }
}

/// An answer without a reply.
fn silent(next: Next) -> Plan
    ensures { result ≡ record { reply = Reply.Silence; next = next } }
{
    Plan {
        reply: Reply::Silence,
        next,
    }
}

/// The answer to a request that is rejected. If it is not known where the next request starts, none is
/// asked for.
fn rejected(rejection: Rejection) -> Plan
    ensures plan { result ≡ record { reply = Reply.Fault rejection; next = asked_after rejection } }
    ensures request { IsRequest result.next }
{
    let next = match rejection {
        Rejection::UnknownCommand | Rejection::BadName => Next::Line,
        Rejection::WrongArguments(_) => Next::Line,
        Rejection::NoDatabase | Rejection::UnknownSubcommand | Rejection::NoProtocol => Next::Line,
        _ => Next::Close,
    };
    Plan {
        reply: Reply::Fault(rejection),
        next,
    }
}

/// Returns what is asked for after a command.
fn next_of(command: Command<'_>) -> Next
    ensures next { result ≡ next_after command.entry }
    ensures request { IsRequest result }
{
    match command {
        Command::Leave => Next::Close,
        _ => Next::Line,
    }
}

/// Returns the length after the mark with which the line begins, if it is at most `most`.
#[tactic(auto, using(crate::proofs::LengthLemmas::too_large))]
fn read_length(line: AsciiStr<'_>, mark: AsciiStr<'_>, most: usize) -> Length
    ensures { IsLength (text_of mark.entry) most (text_of line.entry) result }
{
    let Some(digits) = line.strip_prefix(mark) else {
        return Length::Absent;
    };
    if !is_shortest(digits) {
        return Length::Bad;
    }
    match digits.to_number::<usize>() {
        Err(_) => Length::Bad,
        Ok(n) if n <= most => Length::Known(n),
        Ok(_) => Length::Bad,
    }
}

/// Returns `true` if digits have no zero before others.
fn is_shortest(digits: AsciiStr<'_>) -> bool
    ensures { IsTrue result ↔ IsShortest (text_of digits.entry) }
{
    digits.len() == 1 || !digits.starts_with(AsciiStr::literal("0"))
}
