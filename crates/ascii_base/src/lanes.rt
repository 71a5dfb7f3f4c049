//! Tests of several bytes at once.

ghost use Rattle.std.specs.Prelude.{◌≡◌, ◌<◌, ◌≤◌, ◌+◌, ◌↔◌, IsTrue, length};
ghost use Rattle.ascii_base.specs.Lanes.{AllBefore, SameBefore};

use crate::classes::{Ascii, ClassBy};
use std::simd::prelude::*;

/// How many bytes a step of the loops takes: two vectors of SSE2, one of AVX2, so that one text is for both.
pub(crate) const LANES: usize = 32;

/// How many bytes a step of the comparison takes: two chunks under one test.
pub(crate) const WIDE: usize = 2 * LANES;

/// How many bytes one test of `is_ascii_block` takes. The vectors are joined by `or` and tested once, since the test and
/// its branch cost more than a load.
pub(crate) const ASCII_BLOCK: usize = 4 * LANES;

/// Whether the 128 bytes from `at` on are all ASCII, with one test.
#[inline(always)]
pub(crate) fn is_ascii_block(bytes: &[u8], at: usize) -> bool
    requires room { at + ASCII_BLOCK ≤ length bytes.now }
    requires before { AllBefore (λ byte. byte < 128) bytes.now at }
    ensures { IsTrue result → AllBefore (λ byte. byte < 128) bytes.now (at + ASCII_BLOCK) }
{
    let front = <Ascii as ClassBy<LANES>>::marks(bytes, at)
        | <Ascii as ClassBy<LANES>>::marks(bytes, at + LANES);
    let back = <Ascii as ClassBy<LANES>>::marks(bytes, at + 2 * LANES)
        | <Ascii as ClassBy<LANES>>::marks(bytes, at + 3 * LANES);
    front | back == 0
}

/// Whether the `N` bytes from `at` on are equal in both, ignoring ASCII case: two bytes at one
/// position differ in no bit, except the bit of the case if the first is a letter.
#[inline(always)]
pub(crate) fn eq_lanes<const N: usize>(first: &[u8], second: &[u8], at: usize) -> bool
    requires lanes { N ≤ 64 }
    requires same_length { length first.now ≡ length second.now }
    requires room { at + N ≤ length first.now }
    requires before { SameBefore first.now second.now at }
    ensures { IsTrue result ↔ SameBefore first.now second.now (at + N) }
{
    let lanes = Simd::<u8, N>::from_slice(&first[at..]);
    let is_letter = ((lanes | Simd::splat(32)) - Simd::splat(b'a')).simd_lt(Simd::splat(26));
    let counted = is_letter.select(Simd::splat(0xdf), Simd::splat(0xff));
    let apart = (lanes ^ Simd::<u8, N>::from_slice(&second[at..])) & counted;
    apart.simd_ne(Simd::splat(0)).to_bitmask() == 0
}
