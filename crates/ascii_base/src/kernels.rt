//! The searches and maps over bytes, each equal to its plain definition at every length.
//!
//! | To find or change | Call |
//! |---|---|
//! | the first or the last byte that is in a class, for any class of `classes` | `first_of`, `last_of` |
//! | the first or the last byte that is not in a class | `first_not`, `last_not` |
//! | the end of a short run of bytes in a class or outside it, from its start or its end | `run_end`, `run_start` |
//! | the first non-ASCII byte | `first_other` |
//! | the first or the last byte that is not whitespace | `first_not_whitespace`, `last_not_whitespace` |
//! | the case of letters, in place | `upper_in_place`, `lower_in_place` |
//! | whether two byte strings are equal, ignoring ASCII case | `eq_ignore_case` |
//!
//! None of them allocates. A search goes through the bytes 32 at a time and ends with one step of 32
//! over the end, which may test bytes again. Up to 64 bytes take two overlapping steps of 32, 16, 8 or
//! 4 bytes, and fewer than 4 bytes go one by one. The maps and the comparison take the same steps. A
//! search by a class tests 16 bytes before that: most runs end there. `run_end` and `run_start` test the
//! bytes one by one.
//!
//! A contract sees the bytes as a list of numbers, and a position as an index in it, from 0.

ghost use Rattle.std.specs.Prelude.{◌≡◌, ◌≢◌, ◌↔◌, ◌+◌, ◌-◌, ◌<◌, ◌≤◌, IsTrue, length, map};
ghost use Rattle.std.specs.Prelude.{All, MatchOption};
ghost use Rattle.std.specs.Str.{IsAscii};
ghost use Rattle.ascii_base.specs.Bytes.{FirstOther, IsFirstNot, IsFirstOf, IsLastNot, IsLastOf};
ghost use Rattle.ascii_base.specs.Bytes.{IsOnSide};
ghost use Rattle.ascii_base.specs.Case.{upper_image, lower_image};
ghost use Rattle.ascii_base.specs.Class.{IsWhitespace};
ghost use Rattle.ascii_base.specs.Lanes.{AllBefore, AllFrom, FindsFirstNot, FindsLastNot, Marks};
ghost use Rattle.ascii_base.specs.Lanes.{SameBefore};
ghost use Rattle.ascii_base.specs.Runs.{EndsRun, StartsRun};

use crate::classes::{Ascii, Class, ClassBy, Searched, Whitespace};
use crate::images::{ImageBy, Lower, Upper};
use crate::lanes::{ASCII_BLOCK, LANES, WIDE, eq_lanes, is_ascii_block};
use std::simd::prelude::*;

/// How many bytes at an end are tested first. Most runs, such as names, words and numbers, end within one vector of 16,
/// so that they never come to the long steps.
const HALF: usize = 16;

/// Returns the position of the first byte that is not in the class, or `None` if all bytes are in it.
///
///     first_not::<Digit>(b"42px") // Some(2)
///     first_not::<Digit>(b"42") // None
pub fn first_not<C: Searched>(bytes: &[u8]) -> Option<usize>
    ensures { MatchOption result (All C.is bytes.now)
        (IsFirstNot C.is bytes.now 0 (length bytes.now)) }
{
    first_past::<C, true>(bytes)
}

/// Returns the position of the last byte that is not in the class, or `None` if all bytes are in it.
///
///     last_not::<Digit>(b"v42") // Some(0)
///     last_not::<Digit>(b"42") // None
pub fn last_not<C: Searched>(bytes: &[u8]) -> Option<usize>
    ensures { MatchOption result (All C.is bytes.now) (IsLastNot C.is bytes.now) }
{
    last_past::<C, true>(bytes)
}

/// Returns the position of the first byte that is in the class, or `None` if no byte is in it.
///
///     first_of::<Digit>(b"px42") // Some(2)
///     first_of::<Digit>(b"px") // None
pub fn first_of<C: Searched>(bytes: &[u8]) -> Option<usize>
    ensures { MatchOption result (All (λ byte. ¬ (C.is byte)) bytes.now)
        (IsFirstOf C.is bytes.now 0 (length bytes.now)) }
{
    first_past::<C, false>(bytes)
}

/// Returns the position of the last byte that is in the class, or `None` if no byte is in it.
///
///     last_of::<Digit>(b"42px") // Some(1)
///     last_of::<Digit>(b"px") // None
pub fn last_of<C: Searched>(bytes: &[u8]) -> Option<usize>
    ensures { MatchOption result (All (λ byte. ¬ (C.is byte)) bytes.now)
        (IsLastOf C.is bytes.now) }
{
    last_past::<C, false>(bytes)
}

/// Returns the position after the run that starts at `from`, or `from` if the run is empty. The run is
/// of bytes in the class if `inside` is true, and of bytes that are not in it if `inside` is false.
///
/// Condition: `from` is at most the length.
///
/// For short runs, such as words and the gaps between them: the bytes are tested one by one. A run that may
/// be long ends at `first_not` or `first_of`.
///
///     run_end::<Digit>(b"v42px", 1, true) // 3
///     run_end::<Digit>(b"v42px", 3, false) // 5
#[inline(always)]
pub fn run_end<C: Class>(bytes: &[u8], from: usize, inside: bool) -> usize
    requires { from ≤ length bytes.now }
    ensures { EndsRun C.is inside bytes.now from result }
{
    for at in from..bytes.len() {
        if C::has(bytes[at]) != inside {
            return at;
        }
    }
    bytes.len()
}

/// Returns the position at which the run that ends at `to` starts, or `to` if the run is empty. The run
/// is of bytes in the class if `inside` is true, and of bytes that are not in it if `inside` is false.
///
/// Condition: `to` is at most the length.
///
/// For short runs, such as words and the gaps between them: the bytes are tested one by one. A run that may
/// be long starts after `last_not` or `last_of`.
///
///     run_start::<Digit>(b"v42px", 3, true) // 1
///     run_start::<Digit>(b"v42px", 5, false) // 3
#[inline(always)]
pub fn run_start<C: Class>(bytes: &[u8], to: usize, inside: bool) -> usize
    requires { to ≤ length bytes.now }
    ensures { StartsRun C.is inside bytes.now to result }
{
    for at in (0..to).rev() {
        if C::has(bytes[at]) != inside {
            return at + 1;
        }
    }
    0
}

/// Returns the position of the first non-ASCII byte, or `None` if all bytes are ASCII.
///
///     first_other(b"ab\xc4") // Some(2)
///     first_other(b"ab\x7f") // None
pub fn first_other(bytes: &[u8]) -> Option<usize>
    ensures { MatchOption result (IsAscii bytes.now) (FirstOther bytes.now 0 (length bytes.now)) }
{
    if bytes.len() < LANES {
        if bytes.len() >= 16 {
            first_non_ascii_overlapping::<16>(bytes)
        } else if bytes.len() >= 8 {
            first_non_ascii_overlapping::<8>(bytes)
        } else if bytes.len() >= 4 {
            first_non_ascii_overlapping::<4>(bytes)
        } else {
            first_one_by_one::<Ascii, true>(bytes, 0, bytes.len())
        }
    } else if bytes.len() <= WIDE {
        first_non_ascii_overlapping::<LANES>(bytes)
    } else if bytes.len() < ASCII_BLOCK {
        first_from::<Ascii, true>(bytes, 0)
    } else {
        first_non_ascii_long(bytes)
    }
}

/// Changes each byte of `a` to `z` to that of `A` to `Z`. Every other byte is unchanged.
///
///     let mut bytes = *b"ab-7\xe4";
///     upper_in_place(&mut bytes);
///     bytes == *b"AB-7\xe4" // true
pub fn upper_in_place(bytes: &mut [u8])
    ensures { bytes.new ≡ map upper_image bytes.old }
{
    map_in_place::<Upper>(bytes);
}

/// Changes each byte of `A` to `Z` to that of `a` to `z`. Every other byte is unchanged.
///
///     let mut bytes = *b"AB-7\xc4";
///     lower_in_place(&mut bytes);
///     bytes == *b"ab-7\xc4" // true
pub fn lower_in_place(bytes: &mut [u8])
    ensures { bytes.new ≡ map lower_image bytes.old }
{
    map_in_place::<Lower>(bytes);
}

/// Returns `true` if the two byte strings are equal, ignoring ASCII case.
///
///     eq_ignore_case(b"Host", b"HOST") // true
///     eq_ignore_case(b"\xe4", b"\xc4") // false
pub fn eq_ignore_case(first: &[u8], second: &[u8]) -> bool
    ensures { IsTrue result ↔ (map lower_image first.now ≡ map lower_image second.now) }
{
    if first.len() != second.len() {
        return false;
    }
    if first.len() < 4 {
        return first.eq_ignore_ascii_case(second);
    }
    if are_apart(first[0], second[0]) {
        return false;
    }
    if first.len() > LANES {
        eq_lanes::<16>(first, second, 0) && same_from(first, second, 16)
    } else if first.len() >= 16 {
        same_in_two::<16>(first, second, 0)
    } else if first.len() >= 8 {
        same_in_two::<8>(first, second, 0)
    } else {
        same_in_two::<4>(first, second, 0)
    }
}

/// Returns the position of the first byte that is not whitespace, or `None` if every byte is
/// whitespace: space, tab, line feed, vertical tab, form feed or carriage return.
///
///     first_not_whitespace(b" \tab") // Some(2)
///     first_not_whitespace(b"  ") // None
#[inline]
pub fn first_not_whitespace(bytes: &[u8]) -> Option<usize>
    ensures { MatchOption result (All IsWhitespace bytes.now)
        (IsFirstNot IsWhitespace bytes.now 0 (length bytes.now)) }
{
    match bytes {
        [first, ..] if *first > b' ' => Some(0),
        [first, second, ..] if *second > b' ' && Whitespace::has(*first) => Some(1),
        [] => None,
        _ => first_after_whitespace(bytes),
    }
}

/// Returns the position of the last byte that is not whitespace, or `None` if every byte is
/// whitespace: space, tab, line feed, vertical tab, form feed or carriage return.
///
///     last_not_whitespace(b"ab \n") // Some(1)
///     last_not_whitespace(b" \x0b") // None
#[inline]
pub fn last_not_whitespace(bytes: &[u8]) -> Option<usize>
    ensures { MatchOption result (All IsWhitespace bytes.now) (IsLastNot IsWhitespace bytes.now) }
{
    match bytes {
        [.., last] if *last > b' ' => Some(bytes.len() - 1),
        [.., before, last] if *before > b' ' && Whitespace::has(*last) => Some(bytes.len() - 2),
        [] => None,
        _ => last_before_whitespace(bytes),
    }
}

/// The first byte that is not whitespace. Not inlined, so that the tests for a byte above space are short
/// enough for a caller to inline them.
#[inline(never)]
fn first_after_whitespace(bytes: &[u8]) -> Option<usize>
    ensures { MatchOption result (All IsWhitespace bytes.now)
        (IsFirstNot IsWhitespace bytes.now 0 (length bytes.now)) }
{
    first_not::<Whitespace>(bytes)
}

/// The last byte that is not whitespace. Not inlined, so that the tests for a byte above space are short
/// enough for a caller to inline them.
#[inline(never)]
fn last_before_whitespace(bytes: &[u8]) -> Option<usize>
    ensures { MatchOption result (All IsWhitespace bytes.now) (IsLastNot IsWhitespace bytes.now) }
{
    last_not::<Whitespace>(bytes)
}

// The searches below pass over one side of a class: its bytes if `INSIDE` is true, and the bytes that
// are not in it if `INSIDE` is false.

/// The first byte that is not on the side.
#[inline(always)]
fn first_past<C: Searched, const INSIDE: bool>(bytes: &[u8]) -> Option<usize>
    ensures { FindsFirstNot (IsOnSide C.is INSIDE) bytes.now (length bytes.now) result }
{
    if bytes.len() < HALF {
        return first_in_short::<C, INSIDE>(bytes, 0);
    }
    match first_in::<C, HALF, INSIDE>(bytes, 0) {
        None => first_from::<C, INSIDE>(bytes, HALF),
        found => found,
    }
}

/// The first byte that is not on the side, if those before `from` are.
#[inline(always)]
fn first_from<C: Searched, const INSIDE: bool>(bytes: &[u8], from: usize) -> Option<usize>
    requires inside { from ≤ length bytes.now }
    requires before { AllBefore (IsOnSide C.is INSIDE) bytes.now from }
    ensures { FindsFirstNot (IsOnSide C.is INSIDE) bytes.now (length bytes.now) result }
{
    if bytes.len() <= WIDE {
        return first_in_short::<C, INSIDE>(bytes, from);
    }
    let last = bytes.len() - LANES;
    let mut at = from;
    while at < last {
        let found = first_in::<C, LANES, INSIDE>(bytes, at);
        if found.is_some() {
            return found;
        }
        at += LANES;
    }
    first_in::<C, LANES, INSIDE>(bytes, last)
}

/// The first byte that is not on the side, with at most 64 bytes from `at` on.
#[inline(always)]
fn first_in_short<C: Searched, const INSIDE: bool>(bytes: &[u8], at: usize) -> Option<usize>
    requires inside { at ≤ length bytes.now }
    requires short { length bytes.now ≤ at + WIDE }
    requires before { AllBefore (IsOnSide C.is INSIDE) bytes.now at }
    ensures { FindsFirstNot (IsOnSide C.is INSIDE) bytes.now (length bytes.now) result }
{
    let left = bytes.len() - at;
    if left >= LANES {
        first_in_two::<C, LANES, INSIDE>(bytes, at)
    } else if left >= 16 {
        first_in_two::<C, 16, INSIDE>(bytes, at)
    } else if left >= 8 {
        first_in_two::<C, 8, INSIDE>(bytes, at)
    } else if left >= 4 {
        first_in_two::<C, 4, INSIDE>(bytes, at)
    } else {
        first_one_by_one::<C, INSIDE>(bytes, at, bytes.len())
    }
}

/// The first byte that is not on the side, with at least `N` and at most twice as many bytes from
/// `at` on: the first `N` of them and the last `N`, under one test if all are on the side.
#[inline(always)]
fn first_in_two<C: ClassBy<N>, const N: usize, const INSIDE: bool>(
    bytes: &[u8],
    at: usize,
) -> Option<usize>
    requires lanes { N < 64 }
    requires room { at + N ≤ length bytes.now }
    requires short { length bytes.now ≤ at + N + N }
    requires before { AllBefore (IsOnSide C.is INSIDE) bytes.now at }
    ensures { FindsFirstNot (IsOnSide C.is INSIDE) bytes.now (length bytes.now) result }
{
    match first_in::<C, N, INSIDE>(bytes, at) {
        None => first_in::<C, N, INSIDE>(bytes, bytes.len() - N),
        found => found,
    }
}

/// The first byte that is not on the side among the `N` from `at` on.
#[inline(always)]
fn first_in<C: ClassBy<N>, const N: usize, const INSIDE: bool>(
    bytes: &[u8],
    at: usize,
) -> Option<usize>
    requires lanes { N < 64 }
    requires room { at + N ≤ length bytes.now }
    requires before { AllBefore (IsOnSide C.is INSIDE) bytes.now at }
    ensures { FindsFirstNot (IsOnSide C.is INSIDE) bytes.now (at + N) result }
{
    let marked = marks_past::<C, N, INSIDE>(bytes, at);
    if marked == 0 {
        None
    } else {
        Some(at + marked.trailing_zeros() as usize)
    }
}

/// The first byte that is not on the side from `from` up to `to`, byte by byte.
#[inline(always)]
fn first_one_by_one<C: Class, const INSIDE: bool>(
    bytes: &[u8],
    from: usize,
    to: usize,
) -> Option<usize>
    requires inside { to ≤ length bytes.now }
    requires before { AllBefore (IsOnSide C.is INSIDE) bytes.now from }
    ensures { FindsFirstNot (IsOnSide C.is INSIDE) bytes.now to result }
{
    for at in from..to {
        if C::has(bytes[at]) != INSIDE {
            return Some(at);
        }
    }
    None
}

/// The first non-ASCII byte of at least `N` and at most twice as many: the first `N` and the last
/// `N` take one test if there is none.
#[inline(always)]
fn first_non_ascii_overlapping<const N: usize>(bytes: &[u8]) -> Option<usize>
    requires lanes { N < 64 }
    requires room { N ≤ length bytes.now }
    requires short { length bytes.now ≤ N + N }
    ensures { FindsFirstNot (λ byte. byte < 128) bytes.now (length bytes.now) result }
{
    let last = bytes.len() - N;
    if <Ascii as ClassBy<N>>::marks(bytes, 0) | <Ascii as ClassBy<N>>::marks(bytes, last) == 0 {
        return None;
    }
    first_in_two::<Ascii, N, true>(bytes, 0)
}

/// The first non-ASCII byte of at least 128: 128 at a time while they are ASCII, and the last 128.
#[inline(always)]
fn first_non_ascii_long(bytes: &[u8]) -> Option<usize>
    requires { ASCII_BLOCK ≤ length bytes.now }
    ensures { FindsFirstNot (λ byte. byte < 128) bytes.now (length bytes.now) result }
{
    let last = bytes.len() - ASCII_BLOCK;
    let mut at = 0;
    while at < last && is_ascii_block(bytes, at) {
        at += ASCII_BLOCK;
    }
    if at >= last && is_ascii_block(bytes, last) {
        return None;
    }
    first_from::<Ascii, true>(bytes, at)
}

/// The last byte that is not on the side.
#[inline(always)]
fn last_past<C: Searched, const INSIDE: bool>(bytes: &[u8]) -> Option<usize>
    ensures { FindsLastNot (IsOnSide C.is INSIDE) bytes.now 0 result }
{
    let end = bytes.len();
    if end < HALF {
        return last_in_short::<C, INSIDE>(bytes, end);
    }
    match last_in::<C, HALF, INSIDE>(bytes, end - HALF) {
        None => last_before::<C, INSIDE>(bytes, end - HALF),
        found => found,
    }
}

/// The last byte that is not on the side, if those from `to` on are.
#[inline(always)]
fn last_before<C: Searched, const INSIDE: bool>(bytes: &[u8], to: usize) -> Option<usize>
    requires inside { to ≤ length bytes.now }
    requires after { AllFrom (IsOnSide C.is INSIDE) bytes.now to }
    ensures { FindsLastNot (IsOnSide C.is INSIDE) bytes.now 0 result }
{
    if bytes.len() <= WIDE {
        return last_in_short::<C, INSIDE>(bytes, to);
    }
    let mut end = to;
    while end > LANES {
        let found = last_in::<C, LANES, INSIDE>(bytes, end - LANES);
        if found.is_some() {
            return found;
        }
        end -= LANES;
    }
    last_in::<C, LANES, INSIDE>(bytes, 0)
}

/// The last byte that is not on the side, with at most 64 bytes before `end`.
#[inline(always)]
fn last_in_short<C: Searched, const INSIDE: bool>(bytes: &[u8], end: usize) -> Option<usize>
    requires inside { end ≤ length bytes.now }
    requires short { end ≤ WIDE }
    requires after { AllFrom (IsOnSide C.is INSIDE) bytes.now end }
    ensures { FindsLastNot (IsOnSide C.is INSIDE) bytes.now 0 result }
{
    if end >= LANES {
        last_in_two::<C, LANES, INSIDE>(bytes, end)
    } else if end >= 16 {
        last_in_two::<C, 16, INSIDE>(bytes, end)
    } else if end >= 8 {
        last_in_two::<C, 8, INSIDE>(bytes, end)
    } else if end >= 4 {
        last_in_two::<C, 4, INSIDE>(bytes, end)
    } else {
        last_one_by_one::<C, INSIDE>(bytes, 0, end)
    }
}

/// The last byte that is not on the side, with at least `N` and at most twice as many bytes before
/// `end`.
#[inline(always)]
fn last_in_two<C: ClassBy<N>, const N: usize, const INSIDE: bool>(
    bytes: &[u8],
    end: usize,
) -> Option<usize>
    requires lanes { N < 64 }
    requires room { N ≤ end }
    requires short { end ≤ N + N }
    requires inside { end ≤ length bytes.now }
    requires after { AllFrom (IsOnSide C.is INSIDE) bytes.now end }
    ensures { FindsLastNot (IsOnSide C.is INSIDE) bytes.now 0 result }
{
    match last_in::<C, N, INSIDE>(bytes, end - N) {
        None => last_in::<C, N, INSIDE>(bytes, 0),
        found => found,
    }
}

/// The last byte that is not on the side among the `N` from `at` on.
#[inline(always)]
fn last_in<C: ClassBy<N>, const N: usize, const INSIDE: bool>(
    bytes: &[u8],
    at: usize,
) -> Option<usize>
    requires lanes { N < 64 }
    requires room { at + N ≤ length bytes.now }
    requires after { AllFrom (IsOnSide C.is INSIDE) bytes.now (at + N) }
    ensures { FindsLastNot (IsOnSide C.is INSIDE) bytes.now at result }
{
    let marked = marks_past::<C, N, INSIDE>(bytes, at);
    if marked == 0 {
        None
    } else {
        Some(at + marked.ilog2() as usize)
    }
}

/// The last byte that is not on the side from `from` up to `to`, byte by byte.
#[inline(always)]
fn last_one_by_one<C: Class, const INSIDE: bool>(
    bytes: &[u8],
    from: usize,
    to: usize,
) -> Option<usize>
    requires order { from ≤ to }
    requires inside { to ≤ length bytes.now }
    requires after { AllFrom (IsOnSide C.is INSIDE) bytes.now to }
    ensures { FindsLastNot (IsOnSide C.is INSIDE) bytes.now from result }
{
    for after in 0..to - from {
        let at = to - 1 - after;
        if C::has(bytes[at]) != INSIDE {
            return Some(at);
        }
    }
    None
}

/// Marks the bytes that are not on the side among the `N` from `at` on.
#[inline(always)]
fn marks_past<C: ClassBy<N>, const N: usize, const INSIDE: bool>(bytes: &[u8], at: usize) -> u64
    requires lanes { N < 64 }
    requires room { at + N ≤ length bytes.now }
    ensures { Marks (IsOnSide C.is INSIDE) bytes.now at N result }
{
    let outside = C::marks(bytes, at);
    if INSIDE {
        outside
    } else {
        outside ^ ((1 << N) - 1)
    }
}

/// Changes each byte to its image: by steps, or one by one if there are fewer than four.
#[inline(always)]
fn map_in_place<I: ImageBy<4> + ImageBy<8> + ImageBy<16> + ImageBy<32>>(bytes: &mut [u8])
    ensures { bytes.new ≡ map I.image bytes.old }
{
    if bytes.len() >= LANES {
        map_by::<I, LANES>(bytes);
    } else if bytes.len() >= 16 {
        map_by::<I, 16>(bytes);
    } else if bytes.len() >= 8 {
        map_by::<I, 8>(bytes);
    } else if bytes.len() >= 4 {
        map_by::<I, 4>(bytes);
    } else {
        for byte in bytes.iter_mut() {
            *byte = I::of(*byte);
        }
    }
}

/// Changes each of at least `N` bytes to its image, `N` at a time. The last step takes the last `N`
/// bytes, some of which the step before it may write, so it is read before any is written.
#[inline(always)]
fn map_by<I: ImageBy<N>, const N: usize>(bytes: &mut [u8])
    requires lanes { N ≤ 64 }
    requires some { 0 < N }
    requires room { N ≤ length bytes.old }
    ensures { bytes.new ≡ map I.image bytes.old }
{
    let last = bytes.len() - N;
    let end = I::of_lanes(Simd::<u8, N>::from_slice(&bytes[last..]));
    let mut at = 0;
    while at < last {
        let lanes = Simd::<u8, N>::from_slice(&bytes[at..]);
        I::of_lanes(lanes).copy_to_slice(&mut bytes[at..]);
        at += N;
    }
    end.copy_to_slice(&mut bytes[last..]);
}

/// Whether two bytes differ in a bit other than that of the case, as no two cases of a letter do.
#[inline(always)]
fn are_apart(first: u8, second: u8) -> bool
    ensures { IsTrue result → lower_image first ≢ lower_image second }
{
    (first ^ second) & 0xdf != 0
}

/// Whether the bytes from `from` on are the same in both, ignoring ASCII case, 64 at a time.
#[inline(always)]
fn same_from(first: &[u8], second: &[u8], from: usize) -> bool
    requires same_length { length first.now ≡ length second.now }
    requires long { LANES ≤ length first.now }
    requires inside { from ≤ length first.now }
    requires before { SameBefore first.now second.now from }
    ensures { IsTrue result ↔ (map lower_image first.now ≡ map lower_image second.now) }
{
    let mut at = from;
    while first.len() - at > WIDE {
        if !eq_lanes::<WIDE>(first, second, at) {
            return false;
        }
        at += WIDE;
    }
    same_in_two::<LANES>(first, second, at)
}

/// Whether at most twice `N` bytes from `at` on are the same in both, ignoring ASCII case: the first
/// `N` of them and the last `N`.
#[inline(always)]
fn same_in_two<const N: usize>(first: &[u8], second: &[u8], at: usize) -> bool
    requires lanes { N ≤ 64 }
    requires same_length { length first.now ≡ length second.now }
    requires room { N ≤ length first.now }
    requires short { length first.now ≤ at + N + N }
    requires before { SameBefore first.now second.now at }
    ensures { IsTrue result ↔ (map lower_image first.now ≡ map lower_image second.now) }
{
    let last = first.len() - N;
    (at >= last || eq_lanes::<N>(first, second, at)) && eq_lanes::<N>(first, second, last)
}
