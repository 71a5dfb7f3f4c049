//! Where a line of some bytes ends, and in what: the search under readers of lines.
//!
//! A reader of lines cuts off the bytes up to `find_end`, tests them with `lone_break`, and splits them with
//! `split_ending`:
//!
//! | To find | Call |
//! |---|---|
//! | the end of a line in bytes of which the first are searched | `find_end` |
//! | a lone CR or LF in the bytes up to there | `lone_break` |
//! | the body and the ending of a line | `split_ending` |
//! | the first CR or LF | `first_break` |
//!
//! None of them allocates. The search for LF is that of the crate `memchr`. If a view has the whole text, `lines` of the
//! view has its lines that end in LF or CR LF.

ghost use Rattle.std.specs.Prelude.{◌≡◌, ◌≢◌, ◌+◌, ◌-◌, ◌<◌, ◌≤◌, ◌↔◌, ◌∷◌, [], IsTrue};
ghost use Rattle.std.specs.Prelude.{MatchOption, length, slice_index};
ghost use Rattle.std.proofs.Common.{rules};
ghost use Rattle.ascii.specs.Endings.{FindsLoneBreak, FreeUpTo, IsFirstStop, IsLineBreak};
ghost use Rattle.ascii.specs.Endings.{IsOneLine, is_line_break};
ghost use Rattle.ascii.specs.Lines.{IsCrLfAt, LinesEndedBy};
ghost use Rattle.ascii.specs.declared.iter.spans.Endings.TheVariants.{CrLf, CrLfStrict};
ghost use Rattle.memchr.specs.Find.{IsFirst, IsFirstByte, Passes, is_byte};

use crate::iter::{Ending, Endings};
use ascii_base::classes::{ByRanges, Ranges};
use ascii_base::kernels::first_of;
use memchr::memchr;

/// The ranges of `LineBreak`.
struct LineBreakRanges;

const LINE_BREAK: [(u8, u8); 2] = [(b'\n', b'\n'), (b'\r', b'\r')];

impl Ranges for LineBreakRanges {
    ghost use Rattle.ascii.specs.declared.endings.TheConstants.{LINE_BREAK};

    ghost set = { IsLineBreak };

    ghost list = { LINE_BREAK };

    ghost matches = { λ n. Prim.search rules };

    fn ranges() -> &'static [(u8, u8)] {
        &LINE_BREAK
    }
}

/// CR and LF.
type LineBreak = ByRanges<LineBreakRanges>;

/// Returns the position of the first CR or LF of some bytes, counted from 0, or `None` if there is none.
///
///     first_break(b"ab\r\n") // Some(2)
///     first_break(b"ab") // None
#[inline]
#[tactic(auto, using(crate::proofs::EndingsLemmas::finds_break))]
pub fn first_break(bytes: &[u8]) -> Option<usize>
    ensures { IsFirstByte is_line_break bytes.now result }
{
    first_of::<LineBreak>(bytes)
}

/// Returns how many bytes of `text` there are up to the first byte that ends a line or shows a lone
/// CR or LF, that byte included, or `None` if no byte does. With `CrLfStrict`, a CR is shown to be
/// lone by the byte after it.
///
/// Condition: `searched` is at most the length, and none of the first `searched` bytes ends a line
/// or shows a lone CR or LF; these bytes are not searched again.
///
///     find_end(Endings::CrLf, b"a\nb\r\nc", 0) // Some(5)
///     find_end(Endings::CrLf, b"a\nb", 0) // None
///     find_end(Endings::CrLfStrict, b"a\nb\r\nc", 0) // Some(2)
#[inline]
pub fn find_end(endings: Endings, text: &[u8], searched: usize) -> Option<usize>
    requires within { searched ≤ length text.now }
    requires free { FreeUpTo endings text.now searched }
    ensures { MatchOption result (FreeUpTo endings text.now (length text.now))
        (λ n. (n ≤ length text.now) × IsFirstStop endings text.now n) }
{
    match endings {
        Endings::Any => match find_lf(text, searched) {
            Some(place) => Some(place + 1),
            None => None,
        },
        Endings::CrLf => find_cr_lf(text, searched),
        Endings::CrLfStrict => find_break(text, searched),
    }
}

/// The number of bytes up to the first LF of a text or the first byte after a CR. None of the first
/// `searched` bytes is one.
fn find_break(text: &[u8], searched: usize) -> Option<usize>
    requires within { searched ≤ length text.now }
    requires free { FreeUpTo CrLfStrict text.now searched }
    ensures { MatchOption result (FreeUpTo CrLfStrict text.now (length text.now))
        (λ n. (n ≤ length text.now) × IsFirstStop CrLfStrict text.now n) }
{
    if follows_cr(text, searched) {
        return Some(searched + 1);
    }
    let Some(place) = first_break_from(text, searched) else {
        return None;
    };
    if text[place] == b'\n' {
        return Some(place + 1);
    }
    if place + 1 < text.len() {
        return Some(place + 2);
    }
    None
}

/// Whether a text has a byte at `place`, and a CR before it.
fn follows_cr(text: &[u8], place: usize) -> bool
    ensures { IsTrue result
        ↔ ((0 < place) × (place < length text.now) × (slice_index text.now (place - 1) ≡ 13)) }
{
    place > 0 && place < text.len() && text[place - 1] == b'\r'
}

/// The position of the first CR or LF of a text from `from` on.
fn first_break_from(text: &[u8], from: usize) -> Option<usize>
    requires { from ≤ length text.now }
    ensures { IsFirst (Passes is_line_break text.now) from (length text.now) result }
{
    match first_break(&text[from..]) {
        Some(place) => Some(from + place),
        None => None,
    }
}

/// Returns the position of a lone CR or LF among the last two of `bytes`, or `None` if there is none
/// or the endings are not `CrLfStrict`. The bytes are those up to `find_end`, or the last of a text.
///
///     lone_break(Endings::CrLfStrict, b"a\n") // Some(1)
///     lone_break(Endings::CrLfStrict, b"a\r\n") // None
///     lone_break(Endings::CrLf, b"a\n") // None
#[inline]
pub fn lone_break(endings: Endings, bytes: &[u8]) -> Option<usize>
    ensures { FindsLoneBreak endings bytes.now result }
{
    match endings {
        Endings::CrLfStrict => last_lone_break(bytes),
        _ => None,
    }
}

/// The position of a lone CR or LF among the last two of some bytes.
fn last_lone_break(bytes: &[u8]) -> Option<usize>
    ensures { FindsLoneBreak CrLfStrict bytes.now result }
{
    let n = bytes.len();
    if ends_in_cr_lf(bytes) {
        None
    } else if n >= 2 && bytes[n - 2] == b'\r' {
        Some(n - 2)
    } else if n >= 1 && (bytes[n - 1] == b'\r' || bytes[n - 1] == b'\n') {
        Some(n - 1)
    } else {
        None
    }
}

/// Whether a text ends in CR LF.
fn ends_in_cr_lf(text: &[u8]) -> bool
    ensures { IsTrue result ↔ IsCrLfAt text.now (length text.now - 1) }
{
    let n = text.len();
    n >= 2 && text[n - 2] == b'\r' && text[n - 1] == b'\n'
}

/// The number of bytes up to the end of the first CR LF of a text, of which none ends in the first
/// `searched` bytes.
fn find_cr_lf(text: &[u8], searched: usize) -> Option<usize>
    requires within { searched ≤ length text.now }
    requires free { FreeUpTo CrLf text.now searched }
    ensures { MatchOption result (FreeUpTo CrLf text.now (length text.now))
        (λ n. (n ≤ length text.now) × IsFirstStop CrLf text.now n) }
{
    let mut from = searched;
    'feeds: loop {
        let Some(place) = find_lf(text, from) else {
            return None;
        };
        if place > 0 && text[place - 1] == b'\r' {
            return Some(place + 1);
        }
        from = place + 1;
    }
}

/// The position of the first LF of a text from `from` on.
#[inline]
fn find_lf(text: &[u8], from: usize) -> Option<usize>
    requires { from ≤ length text.now }
    ensures { IsFirst (Passes (is_byte 10) text.now) from (length text.now) result }
{
    match memchr(b'\n', &text[from..]) {
        Some(place) => Some(from + place),
        None => None,
    }
}

/// Splits a line into its body and its ending. The bytes need not be ASCII. Constant time.
///
/// Condition: the line is not empty, only its last byte may end a line, and it has no lone CR or LF
/// that the endings rule out.
///
///     split_ending(Endings::CrLf, b"a\nb\r\n") // ([97, 10, 98], CrLf)
///     split_ending(Endings::Any, b"ab\n") // ([97, 98], Lf)
#[inline]
pub fn split_ending(endings: Endings, line: &[u8]) -> (&[u8], Ending)
    requires { IsOneLine endings line.now }
    ensures line { LinesEndedBy endings line.now
        (record { body = result.0.now; ending = result.1 } ∷ []) }
    ensures ended { IsFirstStop endings line.now (length line.now) → result.1 ≢ Ending.Absent }
{
    match endings {
        Endings::Any => split_any_ending(line),
        Endings::CrLf => split_cr_lf(line),
        Endings::CrLfStrict => split_strict_cr_lf(line),
    }
}

/// The body and the ending of a line of which only the last byte may be LF.
#[inline]
fn split_any_ending(line: &[u8]) -> (&[u8], Ending)
    requires { IsOneLine Endings.Any line.now }
    ensures line { LinesEndedBy Endings.Any line.now
        (record { body = result.0.now; ending = result.1 } ∷ []) }
    ensures ended { IsFirstStop Endings.Any line.now (length line.now) → result.1 ≢ Ending.Absent }
{
    match line {
        [body @ .., b'\r', b'\n'] => (body, Ending::CrLf),
        [body @ .., b'\n'] => (body, Ending::Lf),
        _ => (line, Ending::Absent),
    }
}

/// The body and the ending of a line of which only the last two bytes may be CR or LF, and are then
/// CR LF.
fn split_strict_cr_lf(line: &[u8]) -> (&[u8], Ending)
    requires { IsOneLine CrLfStrict line.now }
    ensures line { LinesEndedBy CrLfStrict line.now
        (record { body = result.0.now; ending = result.1 } ∷ []) }
    ensures ended { IsFirstStop CrLfStrict line.now (length line.now) → result.1 ≢ Ending.Absent }
{
    split_cr_lf(line)
}

/// The body and the ending of a line of which only the last two bytes may be CR LF.
fn split_cr_lf(line: &[u8]) -> (&[u8], Ending)
    requires { IsOneLine CrLf line.now }
    ensures line { LinesEndedBy CrLf line.now
        (record { body = result.0.now; ending = result.1 } ∷ []) }
    ensures ended { IsFirstStop CrLf line.now (length line.now) → result.1 ≢ Ending.Absent }
{
    if ends_in_cr_lf(line) {
        return (&line[..line.len() - 2], Ending::CrLf);
    }
    (line, Ending::Absent)
}
