//! Marks of the last bytes of a text, as `marked` has of the next ones.

ghost use Rattle.std.specs.Prelude.{◌≡◌, ◌≢◌, ◌+◌, ◌-◌, ◌^◌, ◌<◌, ◌≤◌, All, MatchOption, bit_and};
ghost use Rattle.std.specs.Prelude.{drop, false, length, not, take, true};
ghost use Rattle.ascii_base.specs.Bytes.{IsOnSide};
ghost use Rattle.ascii_base.specs.Runs.{StartsRun};
ghost use Rattle.ascii_search.specs.Marked.{AreLastMarks, IsHighest, IsLastRun, ShowsLast};

use crate::marked::{BLOCK, FEWEST, Marked, MarkedRun, block_marks, short_marks};
use ascii_base::classes::Searched;
use ascii_base::kernels::{last_of, run_start};

/// The position of the last mark.
#[inline(always)]
fn highest(mask: u64) -> usize
    requires { mask ≢ 0 }
    ensures { IsHighest mask result }
{
    mask.ilog2() as usize
}

/// The mask without the last mark, which is at `last`.
#[inline(always)]
fn without_last(mask: u64, last: usize) -> u64
    requires { IsHighest mask last }
    ensures { result ≡ bit_and mask (2 ^ last - 1) }
{
    mask ^ (1 << last)
}

/// The bits before `at`.
#[inline(always)]
fn bits_before(mask: u64, at: usize) -> u64
    requires { at < 64 }
    ensures { result ≡ bit_and mask (2 ^ at - 1) }
{
    mask & ((1 << at) - 1)
}

/// The last run of bytes on the side.
#[inline(always)]
pub fn last_run<C: Searched, const INSIDE: bool>(bytes: &[u8], marks: Marked) -> Option<MarkedRun>
    requires { AreLastMarks C.is INSIDE marks bytes.now }
    ensures { MatchOption result (All (IsOnSide C.is (not INSIDE)) bytes.now)
        (IsLastRun C.is INSIDE bytes.now) }
{
    // After the last run nothing is left, which takes one test here.
    if bytes.is_empty() {
        return None;
    }
    // Tested before the length, since in a long text most runs have marks.
    if marks.mask != 0 {
        return Some(marked_run::<C, INSIDE>(bytes, marks));
    }
    let marks = renewed::<C, INSIDE>(bytes, marks);
    if marks.mask != 0 {
        return Some(marked_run::<C, INSIDE>(bytes, marks));
    }
    near_run::<C, INSIDE>(bytes, marks)
}

/// The marks, or if there are none left, those of the last bytes.
#[inline(always)]
fn renewed<C: Searched, const INSIDE: bool>(bytes: &[u8], marks: Marked) -> Marked
    requires { AreLastMarks C.is INSIDE marks bytes.now }
    ensures some { AreLastMarks C.is INSIDE result bytes.now }
    ensures any { FEWEST ≤ length bytes.now
        → ShowsLast C.is INSIDE bytes.now result.at result.mask }
{
    if marks.mask != 0 {
        return marks;
    }
    if bytes.len() < FEWEST {
        return marks;
    }
    if bytes.len() >= BLOCK {
        return Marked {
            at: BLOCK,
            mask: block_marks::<C, INSIDE>(&bytes[bytes.len() - BLOCK..]),
        };
    }
    Marked {
        at: bytes.len(),
        mask: short_marks::<C, INSIDE>(bytes) >> (BLOCK - bytes.len()),
    }
}

/// The marks of the bytes from `start` on, if those before them are cut off.
#[inline(always)]
pub fn last_marks_from<C: Searched, const INSIDE: bool>(
    bytes: &[u8],
    marks: Marked,
    start: usize,
) -> Marked
    requires room { start ≤ length bytes.now }
    requires marks { AreLastMarks C.is INSIDE marks bytes.now }
    ensures { AreLastMarks C.is INSIDE result (drop start bytes.now) }
{
    let len = bytes.len() - start;
    // Tested first: a walk from the front has no marks here, and the compiler drops the rest.
    if marks.mask == 0 || marks.at <= len {
        return marks;
    }
    let gone = marks.at - len;
    if gone >= BLOCK {
        return Marked::none();
    }
    Marked {
        at: len,
        mask: marks.mask >> gone,
    }
}

/// The last run of bytes on the side, byte by byte. There are no marks, and none are made.
#[inline(always)]
fn near_run<C: Searched, const INSIDE: bool>(bytes: &[u8], marks: Marked) -> Option<MarkedRun>
    requires { marks.mask ≡ 0 }
    ensures { MatchOption result (All (IsOnSide C.is (not INSIDE)) bytes.now)
        (IsLastRun C.is INSIDE bytes.now) }
{
    let end = end_of_last_on::<C, INSIDE>(bytes)?;
    Some(MarkedRun {
        start: run_start::<C>(bytes, end - 1, INSIDE),
        end,
        marks,
    })
}

/// The last run of bytes on the side, at the last mark.
#[inline(always)]
fn marked_run<C: Searched, const INSIDE: bool>(bytes: &[u8], marks: Marked) -> MarkedRun
    requires some { marks.mask ≢ 0 }
    requires marks { ShowsLast C.is INSIDE bytes.now marks.at marks.mask }
    ensures { IsLastRun C.is INSIDE bytes.now result }
{
    let first = bytes.len() - marks.at;
    let end = first + highest(marks.mask) + 1;
    // The last mark that does not come after another one.
    let at = highest(marks.mask & !(marks.mask << 1));
    if at == 0 {
        return MarkedRun {
            start: far_start::<C, INSIDE>(bytes, first),
            end,
            marks: Marked::none(),
        };
    }
    MarkedRun {
        start: first + at,
        end,
        marks: Marked {
            at,
            mask: bits_before(marks.mask, at),
        },
    }
}

/// The start of the last piece outside the class, and the marks of what comes before the piece and its
/// separator.
#[inline(always)]
pub fn last_piece<C: Searched>(bytes: &[u8], marks: Marked) -> (usize, Marked)
    requires { AreLastMarks C.is true marks bytes.now }
    ensures start { StartsRun C.is false bytes.now (length bytes.now) result.0 }
    ensures marks { 0 < result.0 → AreLastMarks C.is true result.1 (take (result.0 - 1) bytes.now) }
{
    let marks = renewed::<C, true>(bytes, marks);
    if marks.mask == 0 {
        let marked = if bytes.len() < FEWEST { 0 } else { marks.at };
        let start = piece_start::<C>(bytes, bytes.len() - marked);
        return (start, Marked::none());
    }
    let place = highest(marks.mask);
    let left = Marked {
        at: place,
        mask: without_last(marks.mask, place),
    };
    (bytes.len() - marks.at + place + 1, left)
}

/// The start of a run that goes on before `to`, where the marks start.
#[inline(always)]
fn far_start<C: Searched, const INSIDE: bool>(bytes: &[u8], to: usize) -> usize
    requires { to ≤ length bytes.now }
    ensures { StartsRun C.is INSIDE bytes.now to result }
{
    run_start::<C>(bytes, to, INSIDE)
}

/// The position after the last character on the side, if there is one.
#[inline(always)]
fn end_of_last_on<C: Searched, const INSIDE: bool>(bytes: &[u8]) -> Option<usize>
    ensures { MatchOption result (All (IsOnSide C.is (not INSIDE)) bytes.now)
        (λ end. StartsRun C.is (not INSIDE) bytes.now (length bytes.now) end × (0 < end)) }
{
    let end = if INSIDE {
        piece_start::<C>(bytes, bytes.len())
    } else {
        run_start::<C>(bytes, bytes.len(), true)
    };
    if end == 0 { None } else { Some(end) }
}

/// The start of a piece outside the class that goes on before `to`.
#[inline(always)]
fn piece_start<C: Searched>(bytes: &[u8], to: usize) -> usize
    requires { to ≤ length bytes.now }
    ensures { StartsRun C.is false bytes.now to result }
{
    match last_of::<C>(&bytes[..to]) {
        Some(at) => at + 1,
        None => 0,
    }
}
