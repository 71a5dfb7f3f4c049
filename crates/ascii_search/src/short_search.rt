//! The first occurrence of a text, the needle: in a short text, and in any if the case of letters is ignored.
//!
//! Up to 64 positions are tested at once: a mask has a bit for each position, which is set if a needle
//! there would have its first, its middle and its last byte. Such a position is a candidate, and a
//! needle of more than three bytes is compared at the candidates only. Fewer than six positions are
//! tested one by one. If case matters, the crate `memchr` searches texts of more than 1,024 bytes and texts with too
//! many candidates. If case is ignored, `windows` searches the remainder after too many comparisons in vain.

ghost use Rattle.std.specs.Prelude.{◌≡◌, ◌↔◌, ◌+◌, ◌<◌, ◌≤◌, IfSome, IsTrue, length, map, true};
ghost use Rattle.memchr.specs.Find.{FindsNeedle, IsFirst, Nowhere, is_byte2};
ghost use Rattle.ascii_base.specs.Case.{lower_image};
ghost use Rattle.ascii_search.specs.Masks.{FindsBy, HasBit, HasPart, IsCandidate};
ghost use Rattle.ascii_search.specs.Masks.{MarksCandidates, OccursBy, itself};

use crate::windows::{LONGEST, first_in_windows};
use ascii_base::kernels::eq_ignore_case;
use memchr::arch::all::is_prefix;
use memchr::memmem;
use std::simd::prelude::*;

/// The number of positions that one mask is for: the bits of a register.
const BLOCK: usize = 64;

/// The largest number of bytes that `first_needle` searches by masks. `memchr` prepares each search, which pays only for
/// longer texts: for 4 characters in 31 it took 738 instructions, and the masks 129, when this was written. For 4 in 1,000
/// both took as long, and in 4,000 the masks a third longer.
pub const SHORT: usize = 1_024;

/// Fewer positions than this are tested one by one, because a mask of so few costs more than the tests.
const LEAST: usize = 6;

/// A needle of at most this many bytes is at each candidate: its first, middle and last byte are all of it.
const EXACT: usize = 3;

/// A needle of at most this many bytes is compared without a call, by two overlapping parts of 4 or 8 bytes, each of which
/// the compiler makes one comparison.
const SMALL: usize = 16;

/// The largest number of candidates that are compared here, of 32 positions or more, if there is another search. More of
/// them mean that the three bytes are common in this text, so that most comparisons would be in vain.
const FEW: u32 = 8;

/// The number of bytes that are compared in one step. A comparison takes two steps more, and a search in windows takes
/// about one for each position.
const STEP: usize = 32;

/// The number of steps that comparisons in vain may take besides one for each position tested.
const PATIENCE: usize = 4_096;

/// Which bytes count as the same.
trait Comparison {
    ghost use Rattle.std.specs.Prelude.{ℕ};

    // Bytes with the same image do.
    ghost image: { ℕ → ℕ };

    /// Returns the two bytes that count as a byte. They may be the same.
    fn cases(byte: u8) -> (u8, u8)
        ensures { (x : ℕ) → (is_byte2 result.0 result.1 x ≡ true) ↔ (image x ≡ image byte) };

    /// Whether the needle is at a candidate.
    fn is_there(hay: &[u8], needle: &[u8], position: usize) -> bool
        requires some { 0 < length needle.now }
        requires candidate { IsCandidate image hay.now needle.now position }
        ensures { IsTrue result ↔ OccursBy image hay.now needle.now position };

    /// Finds the first `needle` in another way, if there is one and the needle has too many candidates to be compared
    /// at each. It is at none of the `tested` positions before, of which `misses` were candidates, and the
    /// candidates that follow are marked.
    fn find_otherwise(
        hay: &[u8],
        needle: &[u8],
        tested: usize,
        misses: usize,
        marked: u64,
    ) -> Option<Option<usize>>
        requires some { 0 < length needle.now }
        requires inside { tested ≤ length hay.now }
        requires before { Nowhere (OccursBy image hay.now needle.now) 0 tested }
        ensures { IfSome result (λ found. FindsBy image hay.now needle.now found) };
}

/// A byte counts as itself only.
struct Exact;

impl Comparison for Exact {
    ghost image = { itself };

    #[inline(always)]
    #[tactic(auto, using(crate::proofs::MasksLemmas::one_case))]
    fn cases(byte: u8) -> (u8, u8) {
        (byte, byte)
    }

    #[inline(always)]
    #[tactic(auto, using(crate::proofs::MasksLemmas::occurs_on))]
    fn is_there(hay: &[u8], needle: &[u8], position: usize) -> bool {
        if needle.len() <= SMALL {
            is_small_there(hay, needle, position)
        } else {
            is_prefix(&hay[position..], needle)
        }
    }

    #[inline(always)]
    #[tactic(auto, using(crate::proofs::MasksLemmas::finds_same))]
    fn find_otherwise(
        hay: &[u8],
        needle: &[u8],
        _tested: usize,
        _misses: usize,
        marked: u64,
    ) -> Option<Option<usize>> {
        if needle.len() > EXACT && marked.count_ones() > FEW {
            return Some(memmem::find(hay, needle));
        }
        None
    }
}

/// A letter counts as itself in either case.
struct IgnoringCase;

impl Comparison for IgnoringCase {
    ghost image = { lower_image };

    #[inline(always)]
    #[tactic(auto, using(crate::proofs::MasksLemmas::either_case))]
    fn cases(byte: u8) -> (u8, u8) {
        (byte.to_ascii_lowercase(), byte.to_ascii_uppercase())
    }

    #[inline(always)]
    #[tactic(auto, using(crate::proofs::MasksLemmas::part_is))]
    fn is_there(hay: &[u8], needle: &[u8], position: usize) -> bool {
        if needle.len() <= EXACT {
            true
        } else {
            eq_ignore_case(&hay[position..position + needle.len()], needle)
        }
    }

    #[inline(always)]
    #[tactic(auto, using(crate::proofs::MasksLemmas::finds_after))]
    fn find_otherwise(
        hay: &[u8],
        needle: &[u8],
        tested: usize,
        misses: usize,
        _marked: u64,
    ) -> Option<Option<usize>> {
        // Wraps only for a text of more than 2^54 bytes, and no answer depends on it.
        if needle.len() <= LONGEST
            && misses.wrapping_mul(needle.len() / STEP + 2) > tested + PATIENCE
        {
            return Some(first_in_windows(hay, needle, tested));
        }
        None
    }
}

/// Returns the position of the first `needle` in `hay`, or `None` if there is none.
#[tactic(auto, using(crate::proofs::MasksLemmas::same_finds))]
pub fn first_needle(hay: &[u8], needle: &[u8]) -> Option<usize>
    ensures { FindsNeedle hay.now needle.now 0 result }
{
    if hay.len() > SHORT {
        return memmem::find(hay, needle);
    }
    if needle.len() == 1 && hay.len() > BLOCK {
        return first_byte(hay, needle);
    }
    first_by_masks::<Exact>(hay, needle)
}

/// Returns the position of the first `needle` in `hay`, or `None` if there is none. One that is near is found without
/// preparing a search, which pays if the search is repeated after each occurrence.
pub fn first_needle_near(hay: &[u8], needle: &[u8]) -> Option<usize>
    ensures { FindsNeedle hay.now needle.now 0 result }
{
    if hay.len() <= SHORT || needle.len() > SHORT {
        return first_needle(hay, needle);
    }
    let (near, _) = hay.split_at(SHORT);
    if let Some(place) = first_by_masks::<Exact>(near, needle) {
        return Some(place);
    }
    let from = SHORT + 1 - needle.len();
    match memmem::find(&hay[from..], needle) {
        Some(place) => Some(from + place),
        None => None,
    }
}

/// Returns the position of the first `needle` in `hay`, ignoring ASCII case, or `None` if there is none.
///
/// Takes linear time if the needle has at most 8,192 bytes. At worst a longer one is compared at each position.
#[tactic(auto, using(crate::proofs::MasksLemmas::finds_images))]
pub fn first_needle_ignoring_case(hay: &[u8], needle: &[u8]) -> Option<usize>
    ensures { FindsNeedle (map lower_image hay.now) (map lower_image needle.now) 0 result }
{
    first_by_masks::<IgnoringCase>(hay, needle)
}

/// Returns the position of the first `needle` in `hay`, or `None` if there is none.
#[inline(always)]
fn first_by_masks<M: Comparison>(hay: &[u8], needle: &[u8]) -> Option<usize>
    ensures { FindsBy M.image hay.now needle.now result }
{
    if needle.is_empty() {
        return Some(0);
    }
    if hay.len() < needle.len() {
        return None;
    }
    let positions = hay.len() - needle.len() + 1;
    if positions > BLOCK {
        return first_by_blocks::<M>(hay, needle);
    }
    if positions < LEAST {
        return first_one_by_one::<M>(hay, needle);
    }
    let marked = all_candidates::<M>(hay, needle);
    if marked == 0 {
        return None;
    }
    if needle.len() <= EXACT {
        return first_marked::<M>(hay, needle, 0, marked);
    }
    first_compared::<M>(hay, needle, marked)
}

/// Returns the position of the first `needle`, compared at the candidates among all positions, of which
/// there are at most 64, or `None` if there is none. Not inlined, so that a search without a
/// candidate does not save registers for the comparison.
#[inline(never)]
fn first_compared<M: Comparison>(hay: &[u8], needle: &[u8], marked: u64) -> Option<usize>
    requires some { 0 < length needle.now }
    requires fits { length needle.now ≤ length hay.now }
    requires short { length hay.now + 1 ≤ 64 + length needle.now }
    requires marks { MarksCandidates M.image hay.now needle.now 0 64 marked }
    ensures { FindsBy M.image hay.now needle.now result }
{
    let positions = hay.len() - needle.len() + 1;
    if positions >= 32
        && let Some(found) = M::find_otherwise(hay, needle, 0, 0, marked)
    {
        return found;
    }
    first_marked::<M>(hay, needle, 0, marked)
}

/// Returns the position of the first `needle`, which has one byte, or `None` if there is none. Not inlined, so that the
/// search for a longer needle does not carry it.
#[inline(never)]
fn first_byte(hay: &[u8], needle: &[u8]) -> Option<usize>
    requires { length needle.now ≡ 1 }
    ensures { FindsBy itself hay.now needle.now result }
{
    memchr::memchr(needle[0], hay)
}

/// Returns the position of the first `needle` among at least 64, or `None` if there is none. Not inlined, so that a
/// search in a short line does not save registers for its loop.
#[inline(never)]
fn first_by_blocks<M: Comparison>(hay: &[u8], needle: &[u8]) -> Option<usize>
    requires some { 0 < length needle.now }
    requires long { 64 + length needle.now ≤ length hay.now + 1 }
    ensures { FindsBy M.image hay.now needle.now result }
{
    let positions = hay.len() - needle.len() + 1;
    let mut tested = 0;
    let mut misses = 0;
    while tested < positions {
        let start = tested.min(positions - BLOCK);
        let marked = candidates::<M, BLOCK>(hay, needle, start);
        if marked == 0 {
            tested = start + BLOCK;
            continue;
        }
        if let Some(found) = M::find_otherwise(hay, needle, start, misses, marked) {
            return found;
        }
        match first_marked::<M>(hay, needle, start, marked) {
            None => tested = start + BLOCK,
            found => return found,
        }
        misses = misses.wrapping_add(marked.count_ones() as usize);
    }
    None
}

/// Returns the position of the first `needle`, tested at one position after the other, or `None` if there is
/// none.
#[inline(always)]
fn first_one_by_one<M: Comparison>(hay: &[u8], needle: &[u8]) -> Option<usize>
    requires some { 0 < length needle.now }
    requires fits { length needle.now ≤ length hay.now }
    ensures { FindsBy M.image hay.now needle.now result }
{
    for position in 0..hay.len() - needle.len() + 1 {
        if is_at::<M>(hay, needle, position) {
            return Some(position);
        }
    }
    None
}

/// Whether a needle is at a position.
#[inline(always)]
#[tactic(auto, using(crate::proofs::MasksLemmas::candidate_at))]
fn is_at<M: Comparison>(hay: &[u8], needle: &[u8], position: usize) -> bool
    requires some { 0 < length needle.now }
    requires fits { position + length needle.now ≤ length hay.now }
    ensures { IsTrue result ↔ OccursBy M.image hay.now needle.now position }
{
    is_candidate::<M>(hay, needle, position) && M::is_there(hay, needle, position)
}

/// Whether a position is a candidate.
#[inline(always)]
fn is_candidate<M: Comparison>(hay: &[u8], needle: &[u8], position: usize) -> bool
    requires some { 0 < length needle.now }
    requires fits { position + length needle.now ≤ length hay.now }
    ensures { IsTrue result ↔ IsCandidate M.image hay.now needle.now position }
{
    let middle = needle.len() / 2;
    let end = needle.len() - 1;
    has_byte::<M>(hay[position], needle[0])
        && has_byte::<M>(hay[position + middle], needle[middle])
        && has_byte::<M>(hay[position + end], needle[end])
}

/// Whether a byte counts as another.
#[inline(always)]
fn has_byte<M: Comparison>(byte: u8, wanted: u8) -> bool
    ensures { IsTrue result ↔ (M.image byte ≡ M.image wanted) }
{
    let (lower, upper) = M::cases(wanted);
    byte == lower || byte == upper
}

/// Whether a small needle is at a candidate.
#[inline(always)]
#[tactic(auto, using(crate::proofs::MasksLemmas::exact))]
fn is_small_there(hay: &[u8], needle: &[u8], position: usize) -> bool
    requires some { 0 < length needle.now }
    requires small { length needle.now ≤ SMALL }
    requires candidate { IsCandidate itself hay.now needle.now position }
    ensures { IsTrue result ↔ OccursBy itself hay.now needle.now position }
{
    if needle.len() <= EXACT {
        true
    } else if needle.len() <= 8 {
        has_both_ends::<4>(hay, needle, position)
    } else {
        has_both_ends::<8>(hay, needle, position)
    }
}

/// Whether a needle of at least `N` and at most twice as many bytes is at a position: its first `N`
/// bytes and its last `N`.
#[inline(always)]
#[tactic(auto, using(crate::proofs::MasksLemmas::ends_occur, crate::proofs::MasksLemmas::part_of))]
fn has_both_ends<const N: usize>(hay: &[u8], needle: &[u8], position: usize) -> bool
    requires lanes { N ≤ 64 }
    requires fits { position + length needle.now ≤ length hay.now }
    requires room { N ≤ length needle.now }
    requires short { length needle.now ≤ N + N }
    ensures { IsTrue result ↔ OccursBy itself hay.now needle.now position }
{
    has_part::<N>(hay, needle, position, 0)
        && has_part::<N>(hay, needle, position, needle.len() - N)
}

/// Whether the `N` bytes of the needle from `from` on are in `hay` where they are if it is at a position.
#[inline(always)]
fn has_part<const N: usize>(hay: &[u8], needle: &[u8], position: usize, from: usize) -> bool
    requires lanes { N ≤ 64 }
    requires fits { position + length needle.now ≤ length hay.now }
    requires room { from + N ≤ length needle.now }
    ensures { IsTrue result ↔ HasPart hay.now needle.now position from N }
{
    let part = Simd::<u8, N>::from_slice(&hay[position + from..]);
    part.simd_ne(Simd::from_slice(&needle[from..])).to_bitmask() == 0
}

/// Returns the mask of the candidates among the `N` positions from `start` on.
#[inline(always)]
fn candidates<M: Comparison, const N: usize>(hay: &[u8], needle: &[u8], start: usize) -> u64
    requires lanes { N ≤ 64 }
    requires some { 0 < length needle.now }
    requires room { start + N + length needle.now ≤ length hay.now + 1 }
    ensures { MarksCandidates M.image hay.now needle.now start N result }
{
    let middle = needle.len() / 2;
    let end = needle.len() - 1;
    let (first_lower, first_upper) = M::cases(needle[0]);
    let (middle_lower, middle_upper) = M::cases(needle[middle]);
    let (end_lower, end_upper) = M::cases(needle[end]);
    let starts = Simd::<u8, N>::from_slice(&hay[start..]);
    let starts = starts.simd_eq(Simd::splat(first_lower))
        | starts.simd_eq(Simd::splat(first_upper));
    let middles = Simd::<u8, N>::from_slice(&hay[start + middle..]);
    let middles = middles.simd_eq(Simd::splat(middle_lower))
        | middles.simd_eq(Simd::splat(middle_upper));
    let ends = Simd::<u8, N>::from_slice(&hay[start + end..]);
    let ends = ends.simd_eq(Simd::splat(end_lower)) | ends.simd_eq(Simd::splat(end_upper));
    (starts & middles & ends).to_bitmask()
}

/// Returns the mask of the candidates among all positions, of which there are at least `N` and at most
/// twice as many. Tests the first `N` and the last `N`, so it may test some positions twice.
#[inline(always)]
fn candidates_at_ends<M: Comparison, const N: usize>(hay: &[u8], needle: &[u8]) -> u64
    requires lanes { N ≤ 32 }
    requires some { 0 < length needle.now }
    requires fits { length needle.now ≤ length hay.now }
    requires room { N + length needle.now ≤ length hay.now + 1 }
    requires short { length hay.now + 1 ≤ N + N + length needle.now }
    ensures { MarksCandidates M.image hay.now needle.now 0 64 result }
{
    let last = hay.len() - needle.len() + 1 - N;
    candidates::<M, N>(hay, needle, 0) | (candidates::<M, N>(hay, needle, last) << last)
}

/// Returns the mask of the candidates among all positions, of which there are 6 to 64.
#[inline(always)]
fn all_candidates<M: Comparison>(hay: &[u8], needle: &[u8]) -> u64
    requires some { 0 < length needle.now }
    requires least { LEAST + length needle.now ≤ length hay.now + 1 }
    requires short { length hay.now + 1 ≤ 64 + length needle.now }
    ensures { MarksCandidates M.image hay.now needle.now 0 64 result }
{
    let positions = hay.len() - needle.len() + 1;
    if positions >= 32 {
        candidates_at_ends::<M, 32>(hay, needle)
    } else if positions >= 16 {
        candidates_at_ends::<M, 16>(hay, needle)
    } else if positions >= 8 {
        candidates_at_ends::<M, 8>(hay, needle)
    } else {
        candidates_at_ends::<M, 4>(hay, needle)
    }
}

/// Returns the first of the 64 positions from `start` on where the needle is, or `None` if it is at none
/// of them. It is compared at the marked ones.
#[inline(always)]
fn first_marked<M: Comparison>(
    hay: &[u8],
    needle: &[u8],
    start: usize,
    marked: u64,
) -> Option<usize>
    requires some { 0 < length needle.now }
    requires marks { MarksCandidates M.image hay.now needle.now start 64 marked }
    ensures { IsFirst (OccursBy M.image hay.now needle.now) start (start + 64) result }
{
    let mut tested = 0;
    while let Some(bit) = first_bit(marked, tested) {
        if M::is_there(hay, needle, start + bit) {
            return Some(start + bit);
        }
        tested = bit + 1;
    }
    None
}

/// Returns the lowest bit of `mask` that is set and is not below `from`, or `None` if there is none.
#[inline(always)]
fn first_bit(mask: u64, from: usize) -> Option<usize>
    requires { from ≤ 64 }
    ensures { IsFirst (HasBit mask) from 64 result }
{
    if from == 64 {
        return None;
    }
    let left = mask >> from;
    if left == 0 {
        return None;
    }
    Some(from + left.trailing_zeros() as usize)
}
