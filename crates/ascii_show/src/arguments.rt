//! What the arguments after the program's name ask for.

ghost use Rattle.std.specs.Prelude.{◌≡◌, ◌==◌, [], ◌∷◌, MatchOption, MatchResult, List, ℕ, codes};
ghost use Rattle.std.specs.Prelude.{position};
ghost use Rattle.std.specs.List.{AllZip};
ghost use Rattle.ascii.specs.View.{text_of};
ghost use Rattle.ascii_show.specs.Call.{IsEditsFault, IsScriptFault, IsWordsFault, Requests};
ghost use Rattle.ascii_show.specs.Call.{RequestsBy, words_of};
ghost use Rattle.ascii_show.specs.Words.{AreDigitsOf, AreEndsOf, IsInsertion, IsNotEndLetter};
ghost use Rattle.ascii_show.specs.Words.{IsWord, IsWordOf, letter_of};

use crate::failure::Failure;
use crate::modes::{Takes, find_mode};
use ascii::iter::End;
use ascii::{AsciiRange, AsciiStr, text};
use ascii_formats::AsciiStrExt;
use ascii_run::{Cmd, Mode};
use std::alloc::Allocator;

/// What a call asks for, with the ends or the commands that its arguments name.
#[derive(Drop)]
pub enum Request<'a, A: Allocator> {
    /// A mode that takes no further argument.
    Plain(Mode<'static>),
    Ends(Vec<End, A>),
    EndsSpans(Vec<End, A>),
    Edit(Vec<Cmd<'a>, A>),
}

impl<'a, A: Allocator> Request<'a, A> {
    /// The mode of the engine.
    pub fn mode(&self) -> Mode<'_>
        ensures { (words : List (List ℕ)) → RequestsBy words self.now → Requests words result }
    {
        match self {
            Request::Plain(mode) => *mode,
            Request::Ends(script) => Mode::Ends(script.as_slice()),
            Request::EndsSpans(script) => Mode::EndsSpans(script.as_slice()),
            Request::Edit(cmds) => Mode::Edit(cmds.as_slice()),
        }
    }
}

/// Returns what the arguments ask for, or why they are rejected. The number of arguments is checked
/// before any argument after the mode.
pub fn parse_args<'a, A: Allocator>(alloc: A, args: &[&'a str]) -> Result<Request<'a, A>, Failure>
    ensures { MatchResult result
        (RequestsBy (words_of args.now)) (IsWordsFault (words_of args.now)) }
{
    let Some((mode, others)) = args.split_first() else {
        return Err(Failure::Usage);
    };
    match find_mode(*mode) {
        Some(Takes::Nothing(mode)) if others.is_empty() => Ok(Request::Plain(mode)),
        Some(Takes::Script) => parse_ends(alloc, others),
        Some(Takes::Commands) => {
            let cmds = parse_commands(alloc, others)?;
            Ok(Request::Edit(cmds))
        }
        _ => Err(Failure::Usage),
    }
}

/// Parses the arguments after `ends`: a script only, or `-s` and a script.
fn parse_ends<'a, A: Allocator>(alloc: A, others: &[&'a str]) -> Result<Request<'a, A>, Failure>
    ensures { MatchResult result
        (RequestsBy (codes "ends" ∷ words_of others.now))
        (IsWordsFault (codes "ends" ∷ words_of others.now)) }
{
    match others {
        [script] => {
            if *script == "-s" {
                return Err(Failure::Usage);
            }
            let ends = parse_script(alloc, script.as_bytes(), 1)?;
            Ok(Request::Ends(ends))
        }
        ["-s", script] => {
            let ends = parse_script(alloc, script.as_bytes(), 2)?;
            Ok(Request::EndsSpans(ends))
        }
        _ => Err(Failure::Usage),
    }
}

/// Parses a script, `F` for the front and `B` for the back. `number` is that of the script among
/// the arguments after the mode.
fn parse_script<A: Allocator>(
    alloc: A,
    script: &[u8],
    number: usize,
) -> Result<Vec<End, A>, Failure>
    ensures { MatchResult result (λ ends. AreEndsOf script.now ends.items)
        (IsScriptFault script.now number) }
{
    let mut ends = Vec::with_capacity(alloc, script.len())?;
    for letter in script {
        let Some(end) = parse_end(*letter) else {
            return Err(Failure::BadWord(number));
        };
        ends.push(end)?;
    }
    Ok(ends)
}

/// The end with a letter.
fn parse_end(letter: u8) -> Option<End>
    ensures { MatchOption result (IsNotEndLetter letter) (λ end. letter_of end ≡ letter) }
{
    match letter {
        b'F' => Some(End::Front),
        b'B' => Some(End::Back),
        _ => None,
    }
}

/// Parses the commands of an edit, one for each argument.
fn parse_commands<'a, A: Allocator>(alloc: A, args: &[&'a str]) -> Result<Vec<Cmd<'a>, A>, Failure>
    ensures { MatchResult result (λ cmds. AllZip IsWordOf (words_of args.now) cmds.items)
        (IsEditsFault (words_of args.now)) }
{
    let mut cmds = Vec::with_capacity(alloc, args.len())?;
    for (i, arg) in args.iter().enumerate() {
        let Some(cmd) = parse_command(*arg) else {
            return Err(Failure::BadWord(i + 1));
        };
        cmds.push(cmd)?;
    }
    Ok(cmds)
}

/// Parses one command of an edit.
fn parse_command(arg: &str) -> Option<Cmd<'_>>
    ensures { MatchOption result (¬ IsWord arg.now) (IsWordOf arg.now) }
{
    let arg = text::as_ascii_str(arg).ok()?;
    let letter = *arg.as_bytes().first()?;
    let rest = arg.slice(AsciiRange::From(1));
    match letter {
        b'p' => Some(Cmd::PushStr(rest)),
        b'i' => parse_insertion(rest),
        b'r' => Some(Cmd::Remove(parse_number(rest)?)),
        b't' => Some(Cmd::Truncate(parse_number(rest)?)),
        b'o' => rest.is_empty().then_some(Cmd::Pop),
        b'u' => rest.is_empty().then_some(Cmd::Upper),
        b'l' => rest.is_empty().then_some(Cmd::Lower),
        _ => None,
    }
}

/// The position of the first colon.
fn find_colon(bytes: &[u8]) -> Option<usize>
    ensures { result ≡ position (λ byte. byte == 58) bytes.now }
{
    bytes.iter().position(|byte| *byte == b':')
}

/// Parses the number, the colon and the text of an insertion: the first colon ends the number.
fn parse_insertion(arg: AsciiStr<'_>) -> Option<Cmd<'_>>
    ensures { MatchOption result
        (¬ ((n : ℕ) × (view : AsciiStr) × IsInsertion (text_of arg.entry) n view))
        (λ cmd. (n : ℕ) × (view : AsciiStr) × (cmd ≡ Cmd.InsertStr n view)
        × IsInsertion (text_of arg.entry) n view) }
{
    let colon = find_colon(arg.as_bytes())?;
    let idx = parse_number(arg.slice(AsciiRange::To(colon)))?;
    Some(Cmd::InsertStr(idx, arg.slice(AsciiRange::From(colon + 1))))
}

/// Parses one or more decimal digits, if their number fits a `usize`.
fn parse_number(digits: AsciiStr<'_>) -> Option<usize>
    ensures { MatchOption result (¬ ((n : ℕ) × AreDigitsOf (text_of digits.entry) n))
        (AreDigitsOf (text_of digits.entry)) }
{
    digits.to_number().ok()
}
