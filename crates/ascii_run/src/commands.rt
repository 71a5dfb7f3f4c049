//! Lists of commands over a string: `run` carries them out in order and returns one reply for each.
//!
//! A command edits the text, asks for a character or a number, or asks for a copy. A command that does not fit the
//! text, such as `Cmd::Remove` at its length, is rejected: its reply is `BadPosition`, the text is unchanged, and
//! the next commands are carried out. An allocation that fails is a reply too (`NoMemory`).
//!
//!     let mut text = AsciiString::new(alloc);
//!     let cmds: [Cmd; 3] = [Cmd::Push(AsciiChar::a), Cmd::Remove(1), Cmd::Len];
//!     run(alloc, &mut text, &cmds)? // [Done, BadPosition, Number(1)]
//!
//! Two lemmas have no run-time effect: `plain_run` says that a run without `NoMemory` is decided by the text and the
//! commands, and `runs_agree` that two runs of the same commands agree up to the first `NoMemory`.

ghost use Rattle.std.specs.Prelude.{◌≡◌, ◌≢◌, ℕ, ◌≤◌, List, [], IfErr, IfOk, IsOk, OnErr, OnOk};
ghost use Rattle.std.specs.Prelude.{length, vec_len};
ghost use Rattle.ascii.specs.View.{text_of};
ghost use Rattle.ascii_run.specs.Edit.{StopsEdits, edits};
ghost use Rattle.ascii_run.specs.Run.{Agree, AreRuns, IsNoFault, IsPlainRun, StopsAt};
ghost use Rattle.ascii_run.specs.Run.{IsNotOutOfMemory, NeverShrinks, Run, RunOf, NeverOutOfMemory};
ghost use Rattle.ascii_run.specs.Run.{outcome};
ghost use Rattle.ascii_run.specs.Step.{RunsOutIn, Step, StepOf, no_memory, value_of_reply};
ghost use Rattle.ascii_run.specs.Step.{value_of_growth};

use crate::buf::AsciiBuf;
use crate::faults::EngineFault;
use ascii::{AsAsciiStrError, AsciiChar, AsciiRange, AsciiStr, AsciiString};
use std::alloc::{AllocError, Allocator, Global};

/// One command of a run over a text. Positions count characters from 0.
#[derive(Clone, Copy)]
pub enum Cmd<'a> {
    /// Appends a character.
    Push(AsciiChar),
    /// Appends a view.
    PushStr(AsciiStr<'a>),
    /// Inserts a character before a position; at the length it is appended.
    Insert(usize, AsciiChar),
    /// Inserts a view before a position; at the length it is appended.
    InsertStr(usize, AsciiStr<'a>),
    /// Removes the character at a position.
    Remove(usize),
    /// Removes the last character.
    Pop,
    /// Keeps the first n characters, or all if there are fewer.
    Truncate(usize),
    /// Removes all characters.
    Clear,
    /// Replaces the character at a position.
    Set(usize, AsciiChar),
    /// Changes `a` to `z` to `A` to `Z`.
    Upper,
    /// Changes `A` to `Z` to `a` to `z`.
    Lower,
    /// Makes room for n more characters.
    Reserve(usize),
    /// Gives back the room that the text does not need.
    Shrink,
    /// Asks for the number of characters.
    Len,
    /// Asks for the first character.
    First,
    /// Asks for the last character.
    Last,
    /// Asks for the character at a position.
    Get(usize),
    /// Asks for a copy of the part that a range names.
    Copy(AsciiRange),
    /// Asks whether the text equals a view, ignoring ASCII case.
    EqIgnoreCase(AsciiStr<'a>),
}

/// The reply to one command. Every reply leaves the text unchanged, except `Done` and the `Char` of
/// `Remove` and `Pop`.
#[derive(Drop, Debug)]
pub enum Reply<A: Allocator = Global> {
    /// The command was carried out.
    Done,
    /// The character that was asked for or removed, or `None` if there is no such character.
    Char(Option<AsciiChar>),
    /// The number of characters.
    Number(usize),
    /// Whether the two are equal.
    Truth(bool),
    /// The copy.
    Text(AsciiString<A>),
    /// The position of an edit is outside the text.
    BadPosition,
    /// The range of a copy does not fit; the error holds the length of the text.
    Refused(AsAsciiStrError),
    /// An allocation failed.
    NoMemory,
    /// The length and the number of a reserve together are more than the largest length.
    TooMany,
}

/// Carries out the commands in order over a string, and returns one reply for each, or an error if
/// the room for the replies cannot be allocated; the text is then unchanged. Does not fail if there
/// are no commands.
///
/// A reply is `NoMemory` only if an allocation fails that its command needs: for a copy of at least
/// one character, for a text or room longer than the sure length of the string type, or for
/// `Cmd::Shrink`, if no length is sure. If no command is `Cmd::Shrink`, the capacity does not
/// shrink, and an edit needs an allocation only for a text or room longer than the capacity before.
///
///     let mut text = AsciiStr::literal("foo").to_ascii_string(alloc)?;
///     let cmds: [Cmd; 3] = [Cmd::Pop, Cmd::Remove(7), Cmd::Len];
///     run(alloc, &mut text, &cmds)? // [Char(Some('o')), BadPosition, Number(2)]
///     text // "fo"
pub fn run<A: Allocator + Copy, B: AsciiBuf>(
    alloc: A,
    buf: &mut B,
    cmds: &[Cmd<'_>],
) -> Result<Vec<Reply<A>, A>, AllocError>
    ensures run { IfOk result
        (λ replies. RunOf B.sure (B.state buf.old) cmds.now replies.items (B.state buf.new)) }
    ensures within { let old = B.state buf.old in NeverShrinks cmds.now → IfOk result
        (λ replies. RunOf old.capacity old cmds.now replies.items (B.state buf.new)) }
    ensures capacity { let old = B.state buf.old in
        NeverShrinks cmds.now → old.capacity ≤ (B.state buf.new).capacity }
    ensures count { IfOk result (λ replies. vec_len replies ≡ length cmds.now) }
    ensures err { OnErr result (buf.new ≡ buf.old) }
    ensures nothing { cmds.now ≡ [] → IsOk result }
{
    let mut replies = Vec::with_capacity(alloc, cmds.len())?;
    for cmd in cmds {
        replies.push(step(alloc, buf, *cmd))?;
    }
    Ok(replies)
}

/// Lemma with no run-time effect: if no reply of a run is `NoMemory`, then the text before and the
/// commands decide its replies and the text that it leaves.
///
///     let cmds: [Cmd; 1] = [Cmd::Len];
///     let both = run_both(alloc, AsciiStr::literal("foo"), &cmds)?;
///     plain_run(&cmds, &both.replies) // ()
///     both.replies // [Number(3)]
pub fn plain_run<A: Allocator>(cmds: &[Cmd<'_>], replies: &[Reply<A>])
    ensures { (sure : ℕ) → (t t2 : List ℕ)
        → Run sure t cmds.now replies.now t2 → NeverOutOfMemory replies.now
        → IsPlainRun t cmds.now (outcome replies.now t2) }
{}

/// Lemma with no run-time effect: two runs of one list of commands from one text have the same
/// replies up to the first `NoMemory` of either; if neither has one, they leave the same text.
///
///     let cmds: [Cmd; 1] = [Cmd::Len];
///     let both = run_both(alloc, AsciiStr::literal("foo"), &cmds)?;
///     runs_agree(&cmds, &both.replies, &both.small_replies) // ()
///     both.small_replies // [Number(3)]
pub fn runs_agree<A: Allocator, B: Allocator>(
    cmds: &[Cmd<'_>],
    first: &[Reply<A>],
    second: &[Reply<B>],
)
    ensures { (t1 t2 : List ℕ)
        → AreRuns cmds.now (outcome first.now t1) (outcome second.now t2)
        → Agree (outcome first.now t1) (outcome second.now t2) }
{}

/// Carries out one command.
fn step<A: Allocator, B: AsciiBuf>(alloc: A, buf: &mut B, cmd: Cmd<'_>) -> Reply<A>
    ensures step { StepOf (B.state buf.old) cmd.entry result (B.state buf.new) }
    ensures room { RunsOutIn B.sure (B.state buf.old) cmd.entry result }
    ensures capacity { let old = B.state buf.old in
        cmd.entry ≢ Cmd.Shrink → old.capacity ≤ (B.state buf.new).capacity }
{
    match cmd {
        Cmd::Push(ch) => growth_reply(buf.push(ch)),
        Cmd::PushStr(view) => growth_reply(buf.push_str(view)),
        Cmd::Insert(idx, ch) => insert(buf, idx, ch),
        Cmd::InsertStr(idx, view) => insert_str(buf, idx, view),
        Cmd::Remove(idx) => remove(buf, idx),
        Cmd::Pop => Reply::Char(buf.pop()),
        Cmd::Truncate(n) => {
            buf.truncate(n);
            Reply::Done
        }
        Cmd::Clear => {
            buf.clear();
            Reply::Done
        }
        Cmd::Set(idx, ch) => set(buf, idx, ch),
        Cmd::Upper => {
            buf.make_ascii_uppercase();
            Reply::Done
        }
        Cmd::Lower => {
            buf.make_ascii_lowercase();
            Reply::Done
        }
        Cmd::Reserve(additional) => reserve(buf, additional),
        Cmd::Shrink => growth_reply(buf.shrink_to_fit()),
        Cmd::Len => Reply::Number(buf.as_ascii_str().len()),
        Cmd::First => Reply::Char(buf.as_ascii_str().first()),
        Cmd::Last => Reply::Char(buf.as_ascii_str().last()),
        Cmd::Get(idx) => Reply::Char(buf.as_ascii_str().get_ascii(idx)),
        Cmd::Copy(range) => copy(alloc, buf.as_ascii_str(), range),
        Cmd::EqIgnoreCase(view) => Reply::Truth(buf.as_ascii_str().eq_ignore_ascii_case(view)),
    }
}

/// The reply to a growth.
#[inline]
fn growth_reply<A: Allocator>(growth: Result<(), AllocError>) -> Reply<A>
    ensures { value_of_reply result ≡ value_of_growth growth }
{
    match growth {
        Ok(()) => Reply::Done,
        Err(_) => Reply::NoMemory,
    }
}

/// Inserts a character before a position.
fn insert<A: Allocator, B: AsciiBuf>(buf: &mut B, idx: usize, ch: AsciiChar) -> Reply<A>
    ensures step { StepOf (B.state buf.old) (Cmd.Insert idx ch) result (B.state buf.new) }
    ensures room { RunsOutIn B.sure (B.state buf.old) (Cmd.Insert idx ch) result }
    ensures capacity { (B.state buf.old).capacity ≤ (B.state buf.new).capacity }
{
    if idx > buf.as_ascii_str().len() {
        return Reply::BadPosition;
    }
    growth_reply(buf.insert(idx, ch))
}

/// Inserts a view before a position.
fn insert_str<A: Allocator, B: AsciiBuf>(buf: &mut B, idx: usize, view: AsciiStr<'_>) -> Reply<A>
    ensures step { let cmd = Cmd.InsertStr idx view.entry in
        StepOf (B.state buf.old) cmd result (B.state buf.new) }
    ensures room { RunsOutIn B.sure (B.state buf.old) (Cmd.InsertStr idx view.entry) result }
    ensures capacity { (B.state buf.old).capacity ≤ (B.state buf.new).capacity }
{
    if idx > buf.as_ascii_str().len() {
        return Reply::BadPosition;
    }
    growth_reply(buf.insert_str(idx, view))
}

/// Removes the character at a position.
fn remove<A: Allocator, B: AsciiBuf>(buf: &mut B, idx: usize) -> Reply<A>
    ensures step { StepOf (B.state buf.old) (Cmd.Remove idx) result (B.state buf.new) }
    ensures memory { value_of_reply result ≢ no_memory }
    ensures capacity { (B.state buf.new).capacity ≡ (B.state buf.old).capacity }
{
    if idx < buf.as_ascii_str().len() {
        Reply::Char(Some(buf.remove(idx)))
    } else {
        Reply::BadPosition
    }
}

/// Replaces the character at a position.
fn set<A: Allocator, B: AsciiBuf>(buf: &mut B, idx: usize, ch: AsciiChar) -> Reply<A>
    ensures step { StepOf (B.state buf.old) (Cmd.Set idx ch) result (B.state buf.new) }
    ensures memory { value_of_reply result ≢ no_memory }
    ensures capacity { (B.state buf.new).capacity ≡ (B.state buf.old).capacity }
{
    if idx < buf.as_ascii_str().len() {
        buf.set(idx, ch);
        Reply::Done
    } else {
        Reply::BadPosition
    }
}

/// Makes room for more characters.
fn reserve<A: Allocator, B: AsciiBuf>(buf: &mut B, additional: usize) -> Reply<A>
    ensures step { StepOf (B.state buf.old) (Cmd.Reserve additional) result (B.state buf.new) }
    ensures room { RunsOutIn B.sure (B.state buf.old) (Cmd.Reserve additional) result }
    ensures capacity { (B.state buf.old).capacity ≤ (B.state buf.new).capacity }
{
    if additional > usize::MAX - buf.as_ascii_str().len() {
        return Reply::TooMany;
    }
    growth_reply(buf.reserve(additional))
}

/// Copies the part of a view that a range names.
fn copy<A: Allocator>(alloc: A, view: AsciiStr<'_>, range: AsciiRange) -> Reply<A>
    ensures { let text = text_of view.entry in
        Step 0 text (Cmd.Copy range) (value_of_reply result) text }
{
    match view.slice_ascii(range) {
        Err(error) => Reply::Refused(error),
        Ok(part) => match part.to_ascii_string(alloc) {
            Ok(string) => Reply::Text(string),
            Err(_) => Reply::NoMemory,
        },
    }
}

/// Carries out the commands in order and keeps no reply. Stops at the first command that is
/// rejected, with its index, or whose allocation fails.
pub(crate) fn edit<A: Allocator + Copy, B: Allocator>(
    alloc: A,
    buf: &mut AsciiString<B>,
    cmds: &[Cmd<'_>],
) -> Result<(), EngineFault>
    ensures ok { OnOk result (edits 0 buf.old.text cmds.now ≡ Ok buf.new.text) }
    ensures err { IfErr result (StopsEdits buf.old.text cmds.now) }
{
    for (k, cmd) in cmds.iter().enumerate() {
        check_reply(step(alloc, buf, *cmd), k)?;
    }
    Ok(())
}

/// Returns an error if the reply to the command at index `k` stops the edits.
fn check_reply<A: Allocator>(reply: Reply<A>, k: usize) -> Result<(), EngineFault>
    ensures fault { OnOk result (IsNoFault (value_of_reply reply)) }
    ensures memory { OnOk result (IsNotOutOfMemory reply) }
    ensures err { IfErr result (StopsAt k (value_of_reply reply)) }
{
    match reply {
        Reply::NoMemory => Err(EngineFault::Memory),
        Reply::BadPosition | Reply::Refused(_) | Reply::TooMany => Err(EngineFault::Position(k)),
        Reply::Done | Reply::Char(_) | Reply::Number(_) | Reply::Truth(_) | Reply::Text(_) => Ok(
            (),
        ),
    }
}
