//! The commands of a client, and the lines that say them.

ghost use Rattle.std.specs.Prelude.{◌↔◌, ◌≡◌, IsTrue, List, MatchOption, ℕ};
ghost use Rattle.ascii.specs.View.{text_of};
ghost use Rattle.example_smtp.specs.Commands.{BeginsWithVerb, HasParts, IsArgument};
ghost use Rattle.example_smtp.specs.Commands.{IsArgumentFault, IsCall, IsForeign, IsSenderPath};
ghost use Rattle.example_smtp.specs.Commands.{IsHeader, IsRequestLine, IsSized, IsTooLarge, IsWord};
ghost use Rattle.example_smtp.specs.Commands.{ReadsCommand, SaysSender};
ghost use Rattle.example_smtp.specs.Commands.{name_of, reply_line};

use crate::paths::{address_of, is_recipient, is_sender};
use ascii::AsciiChar;
use ascii::classes::{Blank, Graphic};
use ascii_formats::AsciiStrExt;
use ascii_lines::AsciiStr;

/// The most bytes of the text of a message.
pub const MOST_BYTES: usize = 16_777_216;

/// What a client may ask for.
#[derive(Clone, Copy, PartialEq, Eq, Debug)]
pub enum Verb {
    /// Introduces the client.
    Helo,
    /// Introduces the client, which asks for the extensions.
    Ehlo,
    /// Begins a message with its sender.
    Mail,
    /// Adds a recipient.
    Rcpt,
    /// Begins the lines of the message.
    Data,
    /// Drops the message that was begun.
    Rset,
    /// Asks whether there is a mailbox.
    Vrfy,
    /// Asks for a reply.
    Noop,
    /// Ends the session.
    Quit,
}

impl Verb {
    /// Returns the name of the verb.
    fn name(self) -> AsciiStr<'static>
        ensures { text_of result ≡ name_of self }
    {
        match self {
            Verb::Helo => AsciiStr::literal("HELO"),
            Verb::Ehlo => AsciiStr::literal("EHLO"),
            Verb::Mail => AsciiStr::literal("MAIL FROM:"),
            Verb::Rcpt => AsciiStr::literal("RCPT TO:"),
            Verb::Data => AsciiStr::literal("DATA"),
            Verb::Rset => AsciiStr::literal("RSET"),
            Verb::Vrfy => AsciiStr::literal("VRFY"),
            Verb::Noop => AsciiStr::literal("NOOP"),
            Verb::Quit => AsciiStr::literal("QUIT"),
        }
    }
}

/// A verb with its argument.
#[derive(Clone, Copy, PartialEq, Eq, Debug)]
pub enum Command<'a> {
    /// Introduces the client by its domain.
    Introduce { domain: AsciiStr<'a> },
    /// Introduces the client by its domain, and asks for the extensions.
    Extend { domain: AsciiStr<'a> },
    /// Begins a message with this sender.
    SetSender { address: AsciiStr<'a> },
    /// Adds this recipient.
    AddRecipient { address: AsciiStr<'a> },
    /// Begins the lines of the message.
    BeginLines,
    /// Drops the message that was begun.
    Reset,
    /// Asks whether there is this mailbox.
    Verify { mailbox: AsciiStr<'a> },
    /// Asks for a reply.
    Reply,
    /// Ends the session.
    Leave,
}

/// A reply to a line.
#[derive(Clone, Copy, PartialEq, Eq, Debug)]
pub enum Reply {
    /// The session ends.
    Bye,
    /// The command was carried out.
    Done,
    /// The extensions: commands may be sent together, and a size be said before a message.
    Extensions,
    /// The message was stored.
    Received,
    /// The lines of the message may come.
    SendLines,
    /// Whether there is the mailbox is not told, and a message to it may come.
    Unverified,
    /// The message has as many recipients as it may have.
    TooManyRecipients,
    /// The line does not begin with a verb.
    UnknownCommand,
    /// The argument of the verb is not as it has to be.
    BadArgument,
    /// There is a parameter after the path, and none is known.
    UnknownParameter,
    /// The command is not allowed at this point.
    BadSequence,
    /// The line is longer than the buffer.
    LongLine,
    /// The line is not ASCII, or has a CR or an LF by itself.
    BadLine,
    /// The input ended in the line.
    CutOff,
    /// There is no memory for what the line asks for.
    NoMemory,
    /// A line of the message was rejected, so the message is.
    BadMessage,
    /// A line of the message is not ASCII.
    OtherBytes,
    /// The message is too large.
    LargeMessage,
    /// The message could not be stored.
    NotStored,
    /// The input has failed.
    Closing,
}

impl Reply {
    /// Returns the line of the reply, or its lines.
    pub fn line(self) -> AsciiStr<'static>
        ensures { text_of result ≡ reply_line self }
    {
        match self {
            Reply::Bye => AsciiStr::literal("221 bye"),
            Reply::Done => AsciiStr::literal("250 OK"),
            Reply::Extensions => {
                AsciiStr::literal("250-localhost\r\n250-PIPELINING\r\n250 SIZE 16777216")
            }
            Reply::Received => AsciiStr::literal("250 OK"),
            Reply::SendLines => AsciiStr::literal("354 send the lines"),
            Reply::Unverified => AsciiStr::literal("252 not verified"),
            Reply::TooManyRecipients => AsciiStr::literal("452 too many recipients"),
            Reply::UnknownCommand => AsciiStr::literal("500 unknown command"),
            Reply::BadArgument => AsciiStr::literal("501 bad argument"),
            Reply::UnknownParameter => AsciiStr::literal("555 unknown parameter"),
            Reply::BadSequence => AsciiStr::literal("503 bad sequence"),
            Reply::LongLine => AsciiStr::literal("500 line too long"),
            Reply::BadLine => AsciiStr::literal("554 bad line"),
            Reply::CutOff => AsciiStr::literal("554 bad line"),
            Reply::NoMemory => AsciiStr::literal("452 out of memory"),
            Reply::BadMessage => AsciiStr::literal("554 bad message"),
            Reply::OtherBytes => AsciiStr::literal("554 the message is not ASCII"),
            Reply::LargeMessage => AsciiStr::literal("552 message too large"),
            Reply::NotStored => AsciiStr::literal("451 not stored"),
            Reply::Closing => AsciiStr::literal("421 closing"),
        }
    }
}

/// A verb and the text after it.
#[derive(Clone, Copy, PartialEq, Eq, Debug)]
pub struct Call<'a> {
    /// The verb.
    pub verb: Verb,
    /// The text after the name of the verb.
    pub argument: AsciiStr<'a>,
}

/// Returns the command that the line says, or the reply that says why it does not say one. Spaces and tabs at the end
/// of the line belong to neither.
pub fn read_command<'a>(line: AsciiStr<'a>) -> Result<Command<'a>, Reply>
    ensures { ReadsCommand (text_of line.entry) result }
{
    match read_verb(line.trim_end_matches::<Blank>()) {
        Some(call) => match command_of(call.verb, call.argument) {
            Some(command) => Ok(command),
            None => Err(argument_fault(call.verb, call.argument)),
        },
        None => Err(Reply::UnknownCommand),
    }
}

/// Returns the verb with whose name the line begins, ignoring ASCII case, and the text after it; or
/// `None` if there is none.
#[tactic(auto, using(crate::proofs::VerbLemmas::none_begins))]
fn read_verb<'a>(line: AsciiStr<'a>) -> Option<Call<'a>>
    ensures { MatchOption result ((verb : Verb) → ¬ (BeginsWithVerb (text_of line.entry) verb))
        (λ call. IsCall (text_of line.entry) call.verb (text_of call.argument)) }
{
    if let Some(call) = call_of(line, Verb::Helo) {
        return Some(call);
    }
    if let Some(call) = call_of(line, Verb::Ehlo) {
        return Some(call);
    }
    if let Some(call) = call_of(line, Verb::Mail) {
        return Some(call);
    }
    if let Some(call) = call_of(line, Verb::Rcpt) {
        return Some(call);
    }
    if let Some(call) = call_of(line, Verb::Data) {
        return Some(call);
    }
    if let Some(call) = call_of(line, Verb::Rset) {
        return Some(call);
    }
    if let Some(call) = call_of(line, Verb::Vrfy) {
        return Some(call);
    }
    if let Some(call) = call_of(line, Verb::Noop) {
        return Some(call);
    }
    if let Some(call) = call_of(line, Verb::Quit) {
        return Some(call);
    }
    None
}

/// Returns the verb and the text after its name, or `None` if the line does not begin with the name,
/// ignoring ASCII case.
fn call_of<'a>(line: AsciiStr<'a>, verb: Verb) -> Option<Call<'a>>
    ensures { MatchOption result (¬ (BeginsWithVerb (text_of line.entry) verb))
        (λ call. (call.verb ≡ verb)
        × IsCall (text_of line.entry) verb (text_of call.argument)) }
{
    let argument = line.strip_prefix_ignore_ascii_case(verb.name())?;
    Some(Call { verb, argument })
}

/// Returns the command of a verb with this argument, or `None` if the argument is not as the verb takes it.
fn command_of<'a>(verb: Verb, argument: AsciiStr<'a>) -> Option<Command<'a>>
    ensures { MatchOption result (¬ (IsArgument verb (text_of argument.entry)))
        (HasParts verb (text_of argument.entry)) }
{
    match verb {
        Verb::Helo => {
            let domain = word_of(argument)?;
            Some(Command::Introduce { domain })
        }
        Verb::Ehlo => {
            let domain = word_of(argument)?;
            Some(Command::Extend { domain })
        }
        Verb::Mail => {
            let address = sender_of(argument)?;
            Some(Command::SetSender { address })
        }
        Verb::Rcpt => match address_of(argument) {
            Some(address) if is_recipient(address) => Some(Command::AddRecipient { address }),
            _ => None,
        },
        Verb::Data if argument.is_empty() => Some(Command::BeginLines),
        Verb::Rset if argument.is_empty() => Some(Command::Reset),
        Verb::Vrfy => {
            let mailbox = word_of(argument)?;
            Some(Command::Verify { mailbox })
        }
        Verb::Noop if argument.is_empty() => Some(Command::Reply),
        Verb::Noop if argument.starts_with(AsciiStr::literal(" ")) => Some(Command::Reply),
        Verb::Quit if argument.is_empty() => Some(Command::Leave),
        _ => None,
    }
}

/// Returns whom a message comes from by this argument, or `None` if the argument does not say so.
fn sender_of<'a>(argument: AsciiStr<'a>) -> Option<AsciiStr<'a>>
    ensures { MatchOption result
        ((address : List ℕ) → ¬ (SaysSender address (text_of argument.entry)))
        (λ address. SaysSender (text_of address) (text_of argument.entry)) }
{
    if let Some(address) = sender_in(argument) {
        return Some(address);
    }
    let (path, size) = sized(argument)?;
    if size > MOST_BYTES as u64 {
        return None;
    }
    sender_in(path)
}

/// Returns the sender whose path this is, or `None` if it is that of none.
fn sender_in<'a>(path: AsciiStr<'a>) -> Option<AsciiStr<'a>>
    ensures { MatchOption result
        ((address : List ℕ) → ¬ (IsSenderPath address (text_of path.entry)))
        (λ address. IsSenderPath (text_of address) (text_of path.entry)) }
{
    let address = address_of(path)?;
    if is_sender(address) {
        Some(address)
    } else {
        None
    }
}

/// Returns the path and the size of a message that an argument says, or `None` if it says no size.
fn sized<'a>(argument: AsciiStr<'a>) -> Option<(AsciiStr<'a>, u64)>
    ensures { MatchOption result
        ((path : List ℕ) (size : ℕ) → ¬ (IsSized (text_of argument.entry) path size))
        (λ sized. IsSized (text_of argument.entry) (text_of sized.0) sized.1) }
{
    let (path, word) = argument.rsplit_once(AsciiChar::Space)?;
    let digits = word.strip_prefix_ignore_ascii_case(AsciiStr::literal("SIZE="))?;
    match digits.to_number::<u64>() {
        Ok(size) => Some((path, size)),
        Err(_) => None,
    }
}

/// Returns `true` if an argument says the size of a message that is too large.
#[tactic(auto, using(crate::proofs::ArgumentLemmas::large_size))]
fn is_too_large(argument: AsciiStr<'_>) -> bool
    ensures { IsTrue result ↔ IsTooLarge (text_of argument.entry) }
{
    match sized(argument) {
        Some((_, size)) => size > MOST_BYTES as u64,
        None => false,
    }
}

/// Returns the reply to an argument that is not as its verb takes it.
fn argument_fault(verb: Verb, argument: AsciiStr<'_>) -> Reply
    ensures { IsArgumentFault verb (text_of argument.entry) result }
{
    if verb == Verb::Mail && is_too_large(argument) {
        Reply::LargeMessage
    } else if argument.contains(AsciiStr::literal("> ")) {
        Reply::UnknownParameter
    } else {
        Reply::BadArgument
    }
}

/// Returns `true` if the line begins as a request of HTTP does, which a browser may be made to send to any port, or is a
/// header, as a client sends it that speaks no SMTP.
pub fn is_foreign(line: AsciiStr<'_>) -> bool
    ensures { IsTrue result ↔ IsForeign (text_of line.entry) }
{
    is_request_line(line) || is_header(line)
}

/// Returns `true` if the line is a header: a name and a colon, and anything after them.
fn is_header(line: AsciiStr<'_>) -> bool
    ensures { IsTrue result ↔ IsHeader (text_of line.entry) }
{
    match line.split_once(AsciiChar::Colon) {
        Some((name, _)) => !name.is_empty() && name.is_all::<Graphic>(),
        None => false,
    }
}

/// Returns `true` if the line begins as a request of HTTP does.
fn is_request_line(line: AsciiStr<'_>) -> bool
    ensures { IsTrue result ↔ IsRequestLine (text_of line.entry) }
{
    if line.starts_with(AsciiStr::literal("GET ")) {
        return true;
    }
    if line.starts_with(AsciiStr::literal("POST ")) {
        return true;
    }
    if line.starts_with(AsciiStr::literal("PUT ")) {
        return true;
    }
    if line.starts_with(AsciiStr::literal("HEAD ")) {
        return true;
    }
    line.starts_with(AsciiStr::literal("CONNECT "))
}

/// Returns the text after the space with which the argument starts, or `None` if it does not, or there is no text.
fn word_of<'a>(argument: AsciiStr<'a>) -> Option<AsciiStr<'a>>
    ensures { MatchOption result
        ((word : List ℕ) → ¬ (IsWord word (text_of argument.entry)))
        (λ word. IsWord (text_of word) (text_of argument.entry)) }
{
    match argument.strip_prefix(AsciiStr::literal(" ")) {
        Some(word) if word.is_empty() => None,
        Some(word) => Some(word),
        None => None,
    }
}
