//! The commands of a store, and the words that say them.

ghost use Rattle.std.specs.Prelude.{◌↔◌, ◌∷◌, [], IsTrue, MatchOption, MatchResult};
ghost use Rattle.example_resp.specs.Commands.{HasParts, IsForeign, IsNameOf, IsPartsFault};
ghost use Rattle.example_resp.specs.Commands.{ReadsCommand};
ghost use Rattle.example_resp.specs.Store.{byte_lists};

use ascii::classes::Printable;
use ascii::kernels::{eq_ignore_case, first_not};
use std::alloc::{AllocError, AllocFailed};

/// What a client may ask for.
#[derive(Clone, Copy, PartialEq, Eq, Debug)]
pub enum Verb {
    /// Sets the value at a key.
    Set,
    /// Asks for the value at a key.
    Get,
    /// Removes the values at keys.
    Del,
    /// Asks at how many keys there is a value.
    Exists,
    /// Asks for a reply.
    Ping,
    /// Asks for bytes.
    Echo,
    /// Chooses a database.
    Select,
    /// Names the client.
    Client,
    /// Asks for the protocol.
    Hello,
    /// Ends the session.
    Quit,
}

/// A verb with its arguments.
#[derive(Clone, Copy, PartialEq, Eq, Debug)]
pub enum Command<'a> {
    /// Sets the value at the key.
    SetValue { key: &'a [u8], value: &'a [u8] },
    /// Asks for the value at the key.
    GetValue { key: &'a [u8] },
    /// Removes the values at the keys.
    DeleteValues { keys: &'a [Vec<u8>] },
    /// Asks at how many of the keys there is a value.
    CountValues { keys: &'a [Vec<u8>] },
    /// Asks for a reply.
    Reply,
    /// Asks for the bytes.
    Echo { text: &'a [u8] },
    /// Chooses the one database.
    Choose,
    /// Names the client, which changes nothing.
    Name,
    /// Asks for the protocol.
    Greet,
    /// Ends the session.
    Leave,
}

/// Why a request was rejected.
#[derive(Clone, Copy, PartialEq, Eq, Debug)]
pub enum Rejection {
    /// The first word is printable, and not the name of a verb.
    UnknownCommand,
    /// The first word has a byte that is not printable, or there are no words.
    BadName,
    /// The first word is that of a request of HTTP.
    Foreign,
    /// The verb takes another number of arguments.
    WrongArguments(Verb),
    /// No database has this number.
    NoDatabase,
    /// The client is asked for something other than its name.
    UnknownSubcommand,
    /// The protocol is not spoken here.
    NoProtocol,
    /// The number of words of an array is not a number, or is too large.
    BadCount,
    /// The length of a word is not a number, or is too large.
    BadLength,
    /// A word of an array has no length.
    NoLength,
    /// A word of an array is longer than its length says.
    BadEnding,
    /// A line has quotes that are not closed, or are closed before something other than white space.
    BadQuotes,
    /// A line is not ASCII, is too long or has a CR or LF by itself, or the input ends too early.
    BadInput,
    /// An allocation failed.
    NoMemory,
}

impl From<AllocError> for Rejection {
    ghost use Rattle.std.specs.Prelude.{◌≡◌};
    ghost use Rattle.example_resp.specs.declared.commands.Rejection.TheVariants.{NoMemory};

    ghost from_gives = { λ _ rejection. rejection ≡ NoMemory };

    fn from(_: AllocError) -> Rejection {
        Rejection::NoMemory
    }
}

impl<T: Drop> From<AllocFailed<T>> for Rejection {
    ghost use Rattle.std.specs.Prelude.{◌≡◌};
    ghost use Rattle.example_resp.specs.declared.commands.Rejection.TheVariants.{NoMemory};

    ghost from_gives = { λ _ rejection. rejection ≡ NoMemory };

    fn from(_: AllocFailed<T>) -> Rejection {
        Rejection::NoMemory
    }
}

/// Returns the command that the words say, or why they do not say one.
pub fn read_command<'a>(words: &'a [Vec<u8>]) -> Result<Command<'a>, Rejection>
    ensures { ReadsCommand (byte_lists words.now) result }
{
    let Some((name, arguments)) = words.split_first() else {
        return Err(Rejection::BadName);
    };
    let name = name.as_slice();
    match read_verb(name) {
        Some(verb) => command_of(verb, arguments),
        None if is_foreign(name) => Err(Rejection::Foreign),
        None if first_not::<Printable>(name).is_none() => Err(Rejection::UnknownCommand),
        None => Err(Rejection::BadName),
    }
}

/// Returns `true` if a line of a request of HTTP may begin with this word.
fn is_foreign(word: &[u8]) -> bool
    ensures { IsTrue result ↔ IsForeign word.now }
{
    eq_ignore_case(word, b"POST") || eq_ignore_case(word, b"Host:")
}

/// Returns the verb with this name, ignoring ASCII case, or `None` if there is none.
fn read_verb(name: &[u8]) -> Option<Verb>
    ensures { MatchOption result ((verb : Verb) → ¬ (IsNameOf verb name.now))
        (λ verb. IsNameOf verb name.now) }
{
    if eq_ignore_case(name, b"SET") {
        Some(Verb::Set)
    } else if eq_ignore_case(name, b"GET") {
        Some(Verb::Get)
    } else if eq_ignore_case(name, b"DEL") {
        Some(Verb::Del)
    } else if eq_ignore_case(name, b"EXISTS") {
        Some(Verb::Exists)
    } else if eq_ignore_case(name, b"PING") {
        Some(Verb::Ping)
    } else if eq_ignore_case(name, b"ECHO") {
        Some(Verb::Echo)
    } else if eq_ignore_case(name, b"SELECT") {
        Some(Verb::Select)
    } else if eq_ignore_case(name, b"CLIENT") {
        Some(Verb::Client)
    } else if eq_ignore_case(name, b"HELLO") {
        Some(Verb::Hello)
    } else if eq_ignore_case(name, b"QUIT") {
        Some(Verb::Quit)
    } else {
        None
    }
}

/// Returns the command of a verb with these arguments, or why there is none.
fn command_of<'a>(verb: Verb, arguments: &'a [Vec<u8>]) -> Result<Command<'a>, Rejection>
    ensures { MatchResult result (HasParts verb (byte_lists arguments.now))
        (IsPartsFault verb (byte_lists arguments.now)) }
{
    match (verb, arguments) {
        (Verb::Set, [key, value]) => Ok(Command::SetValue {
            key: key.as_slice(),
            value: value.as_slice(),
        }),
        (Verb::Get, [key]) => Ok(Command::GetValue {
            key: key.as_slice(),
        }),
        (Verb::Del, [_, ..]) => Ok(Command::DeleteValues { keys: arguments }),
        (Verb::Exists, [_, ..]) => Ok(Command::CountValues { keys: arguments }),
        (Verb::Ping, []) => Ok(Command::Reply),
        (Verb::Ping | Verb::Echo, [text]) => Ok(Command::Echo {
            text: text.as_slice(),
        }),
        (Verb::Select, [index]) => choose(index.as_slice()),
        (Verb::Client, [subcommand, others @ ..]) => name_client(subcommand.as_slice(), others),
        (Verb::Hello, []) => Ok(Command::Greet),
        (Verb::Hello, [version]) => greet(version.as_slice()),
        (Verb::Quit, _) => Ok(Command::Leave),
        _ => Err(Rejection::WrongArguments(verb)),
    }
}

/// Returns the command that chooses a database, of which there is one.
fn choose<'a>(index: &[u8]) -> Result<Command<'a>, Rejection>
    ensures { MatchResult result (HasParts Verb.Select (index.now ∷ []))
        (IsPartsFault Verb.Select (index.now ∷ [])) }
{
    if index == b"0".as_slice() {
        Ok(Command::Choose)
    } else {
        Err(Rejection::NoDatabase)
    }
}

/// Returns the command that names a client.
fn name_client<'a>(subcommand: &[u8], others: &[Vec<u8>]) -> Result<Command<'a>, Rejection>
    ensures { MatchResult result (HasParts Verb.Client (subcommand.now ∷ byte_lists others.now))
        (IsPartsFault Verb.Client (subcommand.now ∷ byte_lists others.now)) }
{
    let is_name = eq_ignore_case(subcommand, b"SETNAME") && others.len() == 1;
    let is_library = eq_ignore_case(subcommand, b"SETINFO") && others.len() == 2;
    if is_name || is_library {
        Ok(Command::Name)
    } else {
        Err(Rejection::UnknownSubcommand)
    }
}

/// Returns the command that asks for a protocol, of which there is one.
fn greet<'a>(version: &[u8]) -> Result<Command<'a>, Rejection>
    ensures { MatchResult result (HasParts Verb.Hello (version.now ∷ []))
        (IsPartsFault Verb.Hello (version.now ∷ [])) }
{
    if version == b"2".as_slice() {
        Ok(Command::Greet)
    } else {
        Err(Rejection::NoProtocol)
    }
}
