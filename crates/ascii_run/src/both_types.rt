//! One list of commands over both string types.

ghost use Rattle.std.specs.Prelude.{◌≡◌, [], IfOk, IsOk};
ghost use Rattle.ascii.specs.View.{text_of};
ghost use Rattle.ascii_run.specs.Inline.{inline_size};
ghost use Rattle.ascii_run.specs.Run.{Agree, Run, outcome};

use crate::buf::SmallAsciiString;
use crate::commands::{Cmd, Reply, run};
use ascii::{AsciiStr, AsciiString};
use std::alloc::{AllocError, Global};

/// The outcomes of one list of commands over both string types.
#[derive(Drop, Debug)]
pub struct BothRuns {
    /// The replies over the `AsciiString`.
    pub replies: Vec<Reply>,
    /// The `AsciiString` at the end.
    pub string: AsciiString,
    /// The replies over the `SmallAsciiString`.
    pub small_replies: Vec<Reply>,
    /// The `SmallAsciiString` at the end.
    pub small: SmallAsciiString,
}

/// Carries out the commands over an `AsciiString` and over a `SmallAsciiString`, each of them a
/// copy of the view, or returns an error if an allocation for a copy or for the room of the replies
/// fails. Does not fail if the view is empty and there are no commands.
///
/// The replies have the same values up to the first `NoMemory` of either; if neither has one, then
/// all replies and the two texts are the same. Over the `SmallAsciiString` a reply is `NoMemory`
/// only for a copy, or for a text or room of more than 24 characters.
///
///     run_both(alloc, AsciiStr::literal("foo"), &[Cmd::Upper, Cmd::Pop])?.small // "FO"
///     run_both(alloc, AsciiStr::literal("foo"), &[Cmd::Remove(3)])?.small_replies // [BadPosition]
pub fn run_both(alloc: Global, view: AsciiStr<'_>, cmds: &[Cmd<'_>]) -> Result<BothRuns, AllocError>
    ensures string { IfOk result (λ both.
        Run 0 (text_of view.entry) cmds.now both.replies.items both.string.text) }
    ensures small { IfOk result (λ both.
        Run inline_size (text_of view.entry) cmds.now both.small_replies.items both.small.text) }
    ensures agree { IfOk result (λ both. Agree (outcome both.replies.items both.string.text)
        (outcome both.small_replies.items both.small.text)) }
    ensures nothing { text_of view.entry ≡ [] → cmds.now ≡ [] → IsOk result }
{
    let mut string = view.to_ascii_string(alloc)?;
    let mut small = SmallAsciiString::from_ascii_str(alloc, view)?;
    let replies = run(alloc, &mut string, cmds)?;
    let small_replies = run(alloc, &mut small, cmds)?;
    Ok(BothRuns {
        replies,
        string,
        small_replies,
        small,
    })
}
