//! Strings of both types, and of any type that a caller is passed: their edits and runs of commands.

ghost use Rattle.std.specs.Prelude.{◌≡◌, ◌+◌, ◌≤◌, ◌++◌, ◌∷◌, [], IfOk, IsOk, OnErr, OnOk, length};
ghost use Rattle.std.specs.Prelude.{map};
ghost use Rattle.ascii.specs.Case.{lower_image};
ghost use Rattle.ascii.specs.Code.{code_of};
ghost use Rattle.ascii.specs.View.{text_of};
ghost use Rattle.ascii_run.specs.Inline.{inline_size};
ghost use Rattle.ascii_run.specs.Run.{Agree, IsPlainRun, NeverOutOfMemory, NeverShrinks, RunOf, outcome};

use ascii::{AsciiChar, AsciiStr, AsciiString};
use ascii_run::{AsciiBuf, Cmd, Reply, SmallAsciiString, plain_run, run, runs_agree};
use std::alloc::{AllocError, Allocator, Global};

/// The name of a header in lower case. Up to 24 characters it never fails.
pub fn header_name(alloc: Global, name: AsciiStr<'_>) -> Result<SmallAsciiString, AllocError>
    ensures text { IfOk result (λ string. string.text ≡ map lower_image (text_of name.entry)) }
    ensures succeeds { length (text_of name.entry) ≤ inline_size → IsOk result }
{
    let mut string = SmallAsciiString::from_ascii_str(alloc, name)?;
    string.make_ascii_lowercase();
    Ok(string)
}

/// A letter as a text of its own. Does not allocate.
pub fn letter(alloc: Global, ch: AsciiChar) -> SmallAsciiString
    ensures { result.text ≡ code_of ch ∷ [] }
{
    let mut string = SmallAsciiString::new(alloc);
    // This is `Ok`: an empty string has room for one character inline.
    let _never_fails = string.push(ch);
    string
}

/// Appends a view to a string of either type. Up to the sure length of the type it never fails.
pub fn append<B: AsciiBuf>(buf: &mut B, view: AsciiStr<'_>) -> Result<(), AllocError>
    ensures ok { OnOk result
        ((B.state buf.new).text ≡ (B.state buf.old).text ++ text_of view.entry) }
    ensures err { OnErr result ((B.state buf.new).text ≡ (B.state buf.old).text) }
    ensures sure { length (B.state buf.old).text + length (text_of view.entry) ≤ B.sure
        → IsOk result }
{
    buf.push_str(view)
}

/// The commands over an `AsciiString`, for which no length is sure but its capacity.
pub fn run_over_a_string<A: Allocator + Copy, B: Allocator>(
    alloc: A,
    buf: &mut AsciiString<B>,
    cmds: &[Cmd<'_>],
) -> Result<Vec<Reply<A>, A>, AllocError>
    ensures run { IfOk result (λ replies. RunOf 0 buf.old cmds.now replies.items buf.new) }
    ensures within { NeverShrinks cmds.now → IfOk result (λ replies.
        RunOf buf.old.capacity buf.old cmds.now replies.items buf.new) }
    ensures capacity { NeverShrinks cmds.now → buf.old.capacity ≤ buf.new.capacity }
    ensures err { OnErr result (buf.new ≡ buf.old) }
    ensures nothing { cmds.now ≡ [] → IsOk result }
{
    run(alloc, buf, cmds)
}

/// Runs the commands, and returns the number of replies: one for each command.
pub fn count_replies<A: Allocator + Copy, B: AsciiBuf>(
    alloc: A,
    buf: &mut B,
    cmds: &[Cmd<'_>],
) -> Result<usize, AllocError>
    ensures { IfOk result (λ count. count ≡ length cmds.now) }
{
    Ok(run(alloc, buf, cmds)?.len())
}

/// Runs the commands. If no reply is `NoMemory`, the text before and the commands decide the replies
/// and the text.
pub fn run_plainly<A: Allocator + Copy, B: AsciiBuf>(
    alloc: A,
    buf: &mut B,
    cmds: &[Cmd<'_>],
) -> Result<Vec<Reply<A>, A>, AllocError>
    ensures { IfOk result (λ replies. NeverOutOfMemory replies.items
        → IsPlainRun (B.state buf.old).text cmds.now
        (outcome replies.items (B.state buf.new).text)) }
{
    let replies = run(alloc, buf, cmds)?;
    plain_run(cmds, &replies);
    Ok(replies)
}

/// Runs the commands over two strings with the same text, which may be of two types. The replies are
/// the same up to the first `NoMemory` of either.
pub fn run_twice<A: Allocator + Copy, B: AsciiBuf, D: AsciiBuf>(
    alloc: A,
    first: &mut B,
    second: &mut D,
    cmds: &[Cmd<'_>],
) -> Result<(Vec<Reply<A>, A>, Vec<Reply<A>, A>), AllocError>
    requires { (D.state second.old).text ≡ (B.state first.old).text }
    ensures { IfOk result (λ both. Agree (outcome both.0.items (B.state first.new).text)
        (outcome both.1.items (D.state second.new).text)) }
{
    let replies = run(alloc, first, cmds)?;
    let others = run(alloc, second, cmds)?;
    runs_agree(cmds, &replies, &others);
    Ok((replies, others))
}
