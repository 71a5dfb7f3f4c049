//! Marks of the next 64 bytes of a text, or of all its bytes if it has 8 to 63. The cuts by class keep
//! them, so that many bytes take one test.

ghost use Rattle.std.specs.Prelude.{◌≡◌, ◌≢◌, ◌+◌, ◌-◌, ◌<◌, ◌≤◌, All, MatchOption, drop, false};
ghost use Rattle.std.specs.Prelude.{length, not, take, true};
ghost use Rattle.ascii_base.specs.Bytes.{IsOnSide};
ghost use Rattle.ascii_base.specs.Runs.{EndsRun};
ghost use Rattle.ascii_search.specs.Marked.{AreMarks, IsFirstRun, IsLowest, Shows};

use ascii_base::classes::{ClassBy, Searched};
use ascii_base::kernels::{first_of, run_end};

/// At most this many bytes have marks at once: the bits of a register.
pub(crate) const BLOCK: usize = 64;

/// Fewer bytes than this have no marks. From 8 bytes on the marks take less time than a search for each word; in 4 bytes
/// they take as much.
pub(crate) const FEWEST: usize = 8;

/// Marks of the bytes that come next: bit `at` of the mask is that of the first one.
#[derive(Clone, Copy)]
pub struct Marked {
    pub(crate) at: usize,
    pub(crate) mask: u64,
}

impl Marked {
    /// No marks.
    #[inline(always)]
    pub fn none() -> Marked
        ensures { result.mask ≡ 0 }
    {
        Marked { at: 0, mask: 0 }
    }
}

/// The first or the last run of bytes on the side of a class, and the marks of what is left.
#[derive(Clone, Copy)]
pub struct MarkedRun {
    pub start: usize,
    pub end: usize,
    pub marks: Marked,
}

/// Marks of the bytes that come next, and of the last ones.
#[derive(Clone, Copy)]
pub struct MarkedEnds {
    pub front: Marked,
    pub back: Marked,
}

impl MarkedEnds {
    /// No marks.
    #[inline(always)]
    pub fn none() -> MarkedEnds
        ensures front { result.front.mask ≡ 0 }
        ensures back { result.back.mask ≡ 0 }
    {
        MarkedEnds {
            front: Marked::none(),
            back: Marked::none(),
        }
    }
}

/// The position of the first mark.
#[inline(always)]
fn lowest(mask: u64) -> usize
    requires { mask ≢ 0 }
    ensures { IsLowest mask result }
{
    mask.trailing_zeros() as usize
}

/// Marks the bytes on the side among the first 64. Inlined, as all of this module is: a walk without a call
/// saves no registers, which counts in short texts.
#[inline(always)]
pub(crate) fn block_marks<C: Searched, const INSIDE: bool>(bytes: &[u8]) -> u64
    requires { BLOCK ≤ length bytes.now }
    ensures { Shows C.is INSIDE bytes.now 0 result }
{
    marks_of_two::<C, 32, INSIDE>(bytes, BLOCK)
}

/// Marks the bytes on the side of 8 to 63: the last one has the highest bit.
#[inline(always)]
pub(crate) fn short_marks<C: Searched, const INSIDE: bool>(bytes: &[u8]) -> u64
    requires fewest { FEWEST ≤ length bytes.now }
    requires short { length bytes.now < BLOCK }
    ensures { Shows C.is INSIDE bytes.now (BLOCK - length bytes.now) result }
{
    let count = bytes.len();
    if count >= 32 {
        marks_of_two::<C, 32, INSIDE>(bytes, count)
    } else if count >= 16 {
        marks_of_two::<C, 16, INSIDE>(bytes, count)
    } else {
        marks_of_two::<C, FEWEST, INSIDE>(bytes, count)
    }
}

/// Marks the bytes on the side among the first `count`, of which the last one has the highest bit.
/// Tests the first `N` of them and the last `N`.
#[inline(always)]
fn marks_of_two<C: ClassBy<N>, const N: usize, const INSIDE: bool>(
    bytes: &[u8],
    count: usize,
) -> u64
    requires some { 0 < N }
    requires lanes { N + N ≤ BLOCK }
    requires low { N ≤ count }
    requires high { count ≤ N + N }
    requires room { count ≤ length bytes.now }
    ensures { Shows C.is INSIDE bytes.now (BLOCK - count) result }
{
    let at = BLOCK - count;
    let low = C::marks(bytes, 0);
    let high = C::marks(bytes, count - N);
    let outside = (low << at) | (high << (BLOCK - N));
    if INSIDE {
        outside ^ (u64::MAX << at)
    } else {
        outside
    }
}

/// The first run of bytes on the side.
#[inline(always)]
pub fn first_run<C: Searched, const INSIDE: bool>(bytes: &[u8], marks: Marked) -> Option<MarkedRun>
    requires { AreMarks C.is INSIDE marks bytes.now }
    ensures { MatchOption result (All (IsOnSide C.is (not INSIDE)) bytes.now)
        (IsFirstRun C.is INSIDE bytes.now) }
{
    // After the last run nothing is left, which takes one test here.
    if bytes.is_empty() {
        return None;
    }
    // Tested before the length, since in a long text most runs have marks.
    if marks.mask != 0 {
        return Some(marked_run::<C, INSIDE>(bytes, marks));
    }
    let marks = renewed::<C, INSIDE>(bytes, marks);
    if marks.mask != 0 {
        return Some(marked_run::<C, INSIDE>(bytes, marks));
    }
    near_run::<C, INSIDE>(bytes, marks)
}

/// The marks, or if there are none left, those of the first bytes.
#[inline(always)]
fn renewed<C: Searched, const INSIDE: bool>(bytes: &[u8], marks: Marked) -> Marked
    requires { AreMarks C.is INSIDE marks bytes.now }
    ensures some { AreMarks C.is INSIDE result bytes.now }
    ensures any { FEWEST ≤ length bytes.now → Shows C.is INSIDE bytes.now result.at result.mask }
{
    if marks.mask != 0 {
        return marks;
    }
    if bytes.len() < FEWEST {
        return marks;
    }
    if bytes.len() >= BLOCK {
        return Marked {
            at: 0,
            mask: block_marks::<C, INSIDE>(bytes),
        };
    }
    Marked {
        at: BLOCK - bytes.len(),
        mask: short_marks::<C, INSIDE>(bytes),
    }
}

/// The marks of the first `len` bytes, if those after them are cut off.
#[inline(always)]
pub fn marks_to<C: Searched, const INSIDE: bool>(bytes: &[u8], marks: Marked, len: usize) -> Marked
    requires room { len ≤ length bytes.now }
    requires marks { AreMarks C.is INSIDE marks bytes.now }
    ensures { AreMarks C.is INSIDE result (take len bytes.now) }
{
    // Tested first: a walk from the back has no marks here, and the compiler drops the rest.
    if marks.mask == 0 || len >= BLOCK {
        return marks;
    }
    let at = BLOCK - len;
    if marks.at >= at {
        return marks;
    }
    let free = at - marks.at;
    if free == BLOCK {
        return Marked::none();
    }
    Marked {
        at,
        mask: marks.mask << free,
    }
}

/// The first run of bytes on the side, byte by byte. There are no marks, and none are made.
#[inline(always)]
fn near_run<C: Searched, const INSIDE: bool>(bytes: &[u8], marks: Marked) -> Option<MarkedRun>
    requires { marks.mask ≡ 0 }
    ensures { MatchOption result (All (IsOnSide C.is (not INSIDE)) bytes.now)
        (IsFirstRun C.is INSIDE bytes.now) }
{
    let start = gap_end::<C, INSIDE>(bytes);
    if start == bytes.len() {
        return None;
    }
    Some(MarkedRun {
        start,
        end: run_end::<C>(bytes, start + 1, INSIDE),
        marks,
    })
}

/// The first run of bytes on the side, at the first mark.
#[inline(always)]
fn marked_run<C: Searched, const INSIDE: bool>(bytes: &[u8], marks: Marked) -> MarkedRun
    requires some { marks.mask ≢ 0 }
    requires marks { Shows C.is INSIDE bytes.now marks.at marks.mask }
    ensures { IsFirstRun C.is INSIDE bytes.now result }
{
    let start = lowest(marks.mask) - marks.at;
    let filled = marks.mask | (marks.mask - 1);
    if filled == u64::MAX {
        return MarkedRun {
            start,
            end: far_end::<C, INSIDE>(bytes, BLOCK - marks.at),
            marks: Marked::none(),
        };
    }
    let past = filled + 1;
    let stop = lowest(past);
    MarkedRun {
        start,
        end: stop - marks.at,
        marks: Marked {
            at: stop,
            mask: marks.mask & past,
        },
    }
}

/// The end of the first piece outside the class, and the marks of what follows the piece and its
/// separator.
#[inline(always)]
pub fn first_piece<C: Searched>(bytes: &[u8], marks: Marked) -> (usize, Marked)
    requires { AreMarks C.is true marks bytes.now }
    ensures end { EndsRun C.is false bytes.now 0 result.0 }
    ensures marks { result.0 < length bytes.now
        → AreMarks C.is true result.1 (drop (result.0 + 1) bytes.now) }
{
    let marks = renewed::<C, true>(bytes, marks);
    if marks.mask == 0 {
        let marked = if bytes.len() < FEWEST {
            0
        } else {
            BLOCK.saturating_sub(marks.at)
        };
        return (piece_end::<C>(bytes, marked), Marked::none());
    }
    let place = lowest(marks.mask);
    let left = Marked {
        at: place + 1,
        mask: marks.mask & (marks.mask - 1),
    };
    (place - marks.at, left)
}

/// The end of a run that goes on at `from`, where the marks end.
#[inline(always)]
fn far_end<C: Searched, const INSIDE: bool>(bytes: &[u8], from: usize) -> usize
    requires { from ≤ length bytes.now }
    ensures { EndsRun C.is INSIDE bytes.now from result }
{
    run_end::<C>(bytes, from, INSIDE)
}

/// The position after the gap before the first run, or the length if there is no run. Between runs inside a class
/// there may be many characters, between words there are few.
#[inline(always)]
fn gap_end<C: Searched, const INSIDE: bool>(bytes: &[u8]) -> usize
    ensures { EndsRun C.is (not INSIDE) bytes.now 0 result }
{
    if INSIDE {
        piece_end::<C>(bytes, 0)
    } else {
        run_end::<C>(bytes, 0, true)
    }
}

/// The end of a piece outside the class that goes on at `from`.
#[inline(always)]
fn piece_end<C: Searched>(bytes: &[u8], from: usize) -> usize
    requires { from ≤ length bytes.now }
    ensures { EndsRun C.is false bytes.now from result }
{
    match first_of::<C>(&bytes[from..]) {
        Some(at) => from + at,
        None => bytes.len(),
    }
}
