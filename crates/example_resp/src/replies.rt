//! The replies of a store to commands.

ghost use Rattle.std.specs.Option.{option_copied};
ghost use Rattle.std.specs.Prelude.{◌≡◌, ◌∷◌, [], IfOk, List, OnOk, map, ℕ};
ghost use Rattle.ascii.specs.View.{text_of};
ghost use Rattle.ascii_lines.specs.Replies.{Says, line_reply};
ghost use Rattle.example_resp.specs.Commands.{Tells, after, error_line, fault_line, server_reply};
ghost use Rattle.example_resp.specs.Commands.{unknown_line, value_reply};
ghost use Rattle.example_resp.specs.declared.commands.Rejection as Rejection;
ghost use Rattle.example_resp.specs.Store.{contents_of};

use crate::commands::{Command, Rejection, Verb};
use crate::store::Store;
use ascii::AsciiStr;
use ascii_lines::{Replies, Sink};
use std::alloc::{AllocError, Allocator, Global};

/// What the server says of itself: pairs of a word and a word or a number.
const SERVER: &[u8] =
    b"*14\r\n$6\r\nserver\r\n$12\r\nexample_resp\r\n$7\r\nversion\r\n$5\r\n1.0.0\r\n$5\r\nproto\r\n:2\r\n$2\r\nid\r\n:1\r\n$4\r\nmode\r\n$10\r\nstandalone\r\n$4\r\nrole\r\n$6\r\nmaster\r\n$7\r\nmodules\r\n*0";

/// What is replied to a request.
#[derive(Clone, Copy, PartialEq, Eq, Debug)]
pub enum Reply {
    /// Nothing: the request has more lines, or no words.
    Silence,
    /// That the command was carried out.
    Done,
    /// The reply to `PING`.
    Pong,
    /// A number of values.
    Count(usize),
    /// The value at the key that is the second word of the request.
    Value,
    /// The second word of the request.
    Text,
    /// What the server says of itself.
    Server,
    /// Why the request was rejected.
    Fault(Rejection),
}

/// Carries out a command, and says what to reply; or returns an error if an allocation fails.
pub fn follow(store: &mut Store, alloc: Global, command: Command<'_>) -> Result<Reply, AllocError>
    ensures reply { IfOk result (Tells (contents_of store.old) command.entry) }
    ensures store { OnOk result ((key : List ℕ) →
        contents_of store.new key ≡ after (contents_of store.old) command.entry key) }
{
    match command {
        Command::SetValue { key, value } => {
            store.set(alloc, key, value)?;
            Ok(Reply::Done)
        }
        Command::GetValue { .. } => Ok(Reply::Value),
        Command::DeleteValues { keys } => Ok(Reply::Count(store.delete_all(keys))),
        Command::CountValues { keys } => Ok(Reply::Count(store.count(keys))),
        Command::Reply => Ok(Reply::Pong),
        Command::Echo { .. } => Ok(Reply::Text),
        Command::Choose | Command::Name | Command::Leave => Ok(Reply::Done),
        Command::Greet => Ok(Reply::Server),
    }
}

/// Returns the line that says why a request was rejected.
pub fn line_of(rejection: Rejection) -> AsciiStr<'static>
    ensures { text_of result ≡ error_line rejection }
{
    match rejection {
        Rejection::UnknownCommand | Rejection::BadName => {
            AsciiStr::literal("-ERR unknown command")
        }
        Rejection::Foreign => AsciiStr::literal("-ERR Protocol error: a request of HTTP"),
        Rejection::WrongArguments(verb) => wrong_arguments(verb),
        Rejection::NoDatabase => AsciiStr::literal("-ERR DB index is out of range"),
        Rejection::UnknownSubcommand => AsciiStr::literal("-ERR unknown subcommand"),
        Rejection::NoProtocol => AsciiStr::literal("-NOPROTO unsupported protocol version"),
        Rejection::BadCount => {
            AsciiStr::literal("-ERR Protocol error: invalid multibulk length")
        }
        Rejection::BadLength => AsciiStr::literal("-ERR Protocol error: invalid bulk length"),
        Rejection::NoLength => AsciiStr::literal("-ERR Protocol error: expected '$'"),
        Rejection::BadEnding => AsciiStr::literal("-ERR the word is longer than its length"),
        Rejection::BadQuotes => {
            AsciiStr::literal("-ERR Protocol error: unbalanced quotes in request")
        }
        Rejection::BadInput => AsciiStr::literal("-ERR Protocol error: bad input"),
        Rejection::NoMemory => AsciiStr::literal("-OOM out of memory"),
    }
}

/// Returns the line that says that a verb takes another number of arguments.
fn wrong_arguments(verb: Verb) -> AsciiStr<'static>
    ensures { text_of result ≡ error_line (Rejection.WrongArguments verb) }
{
    AsciiStr::literal(match verb {
        Verb::Set => "-ERR wrong number of arguments for 'set' command",
        Verb::Get => "-ERR wrong number of arguments for 'get' command",
        Verb::Del => "-ERR wrong number of arguments for 'del' command",
        Verb::Exists => "-ERR wrong number of arguments for 'exists' command",
        Verb::Ping => "-ERR wrong number of arguments for 'ping' command",
        Verb::Echo => "-ERR wrong number of arguments for 'echo' command",
        Verb::Select => "-ERR wrong number of arguments for 'select' command",
        Verb::Client => "-ERR wrong number of arguments for 'client' command",
        Verb::Hello => "-ERR wrong number of arguments for 'hello' command",
        Verb::Quit => "-ERR wrong number of arguments for 'quit' command",
    })
}

/// Writes the reply to a value, or to none. Does not allocate.
pub fn say_value<K: Sink, A: Allocator>(value: Option<&[u8]>, replies: &mut Replies<K, A>)
    ensures { Says replies.old (map line_reply (value_reply (option_copied value.entry)))
        replies.new }
{
    match value {
        Some(value) => {
            replies.number_line(AsciiStr::literal("$"), value.len());
            replies.bytes(value);
        }
        None => replies.fixed_line(AsciiStr::literal("$-1")),
    }
}

/// Writes what the server says of itself. Does not allocate.
pub fn say_server<K: Sink, A: Allocator>(replies: &mut Replies<K, A>)
    ensures { Says replies.old (line_reply server_reply ∷ []) replies.new }
{
    replies.bytes(SERVER);
}

/// Writes the line that says why a request was rejected, with the name of a command that is not known: the first word of
/// the request. Does not allocate.
pub fn say_fault<K: Sink, A: Allocator>(
    rejection: Rejection,
    name: Option<&[u8]>,
    replies: &mut Replies<K, A>,
)
    ensures { Says replies.old (line_reply (fault_line rejection (option_copied name.entry)) ∷ [])
        replies.new }
{
    match (rejection, name) {
        (Rejection::UnknownCommand, Some(name)) => say_unknown(name, replies),
        _ => replies.text(line_of(rejection)),
    }
}

/// Writes the error line for a command that is not known, with its name. Does not allocate.
fn say_unknown<K: Sink, A: Allocator>(name: &[u8], replies: &mut Replies<K, A>)
    ensures { Says replies.old (line_reply (unknown_line name.now) ∷ []) replies.new }
{
    replies.part(AsciiStr::literal("-ERR unknown command '"));
    replies.bytes_part(name);
    replies.text(AsciiStr::literal("'"));
}
