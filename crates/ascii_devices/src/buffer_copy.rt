//! Copies of bytes to a position of a buffer that has room for them. Up to 32 bytes, and up to 64 at the
//! start of a longer text, are copied without a loop and without a call.

ghost use Rattle.std.specs.Prelude.{◌≡◌, ◌+◌, ◌≤◌, length, take};
ghost use Rattle.ascii_devices.specs.BufferCopy.{CopiesTo};

use std::simd::Simd;

/// How many bytes `copy_front` copies: a fixed number, which needs no call of `memcpy`, also for two bytes.
pub(crate) const FIXED: usize = 64;

/// Copies the bytes to the position `at`, and returns the position after them. A short piece is two
/// copies of one fixed size, which may overlap.
#[inline(always)]
pub(crate) fn copy_at(buffer: &mut [u8], at: usize, bytes: &[u8]) -> usize
    requires { at + length bytes.now ≤ length buffer.old }
    ensures { CopiesTo buffer.old buffer.new at bytes.now result }
{
    match bytes.len() {
        0 => at,
        1 => copy_fixed::<1>(buffer, at, bytes),
        2..=4 => copy_ends::<2>(buffer, at, bytes),
        5..=8 => copy_ends::<4>(buffer, at, bytes),
        9..=16 => copy_ends::<8>(buffer, at, bytes),
        17..=32 => copy_ends::<16>(buffer, at, bytes),
        _ => copy_long(buffer, at, bytes),
    }
}

/// Copies the first `n` bytes to the position `at` by one copy of a fixed size, and returns the
/// position after them. The bytes of the buffer after that position may change.
#[inline(always)]
pub(crate) fn copy_front(buffer: &mut [u8], at: usize, bytes: &[u8], n: usize) -> usize
    requires front { (n ≤ FIXED) × (FIXED ≤ length bytes.now) }
    requires room { at + FIXED ≤ length buffer.old }
    ensures { CopiesTo buffer.old buffer.new at (take n bytes.now) result }
{
    copy_fixed::<FIXED>(buffer, at, bytes);
    at + n
}

/// Copies the first `N` bytes to the position `at`, by one load and one store.
#[inline(always)]
fn copy_fixed<const N: usize>(buffer: &mut [u8], at: usize, bytes: &[u8]) -> usize
    requires { (N ≤ length bytes.now) × (at + N ≤ length buffer.old) }
    ensures { CopiesTo buffer.old buffer.new at (take N bytes.now) result }
{
    Simd::<u8, N>::from_slice(bytes).copy_to_slice(&mut buffer[at..]);
    at + N
}

/// Copies `N` to `2 * N` bytes to the position `at`: the first `N` and the last `N`.
#[inline(always)]
fn copy_ends<const N: usize>(buffer: &mut [u8], at: usize, bytes: &[u8]) -> usize
    requires room { at + length bytes.now ≤ length buffer.old }
    requires covers { (N ≤ length bytes.now) × (length bytes.now ≤ N + N) }
    ensures { CopiesTo buffer.old buffer.new at bytes.now result }
{
    let last = bytes.len() - N;
    copy_fixed::<N>(buffer, at, bytes);
    copy_fixed::<N>(buffer, at + last, &bytes[last..])
}

/// Copies bytes of any number to the position `at`.
#[inline(always)]
fn copy_long(buffer: &mut [u8], at: usize, bytes: &[u8]) -> usize
    requires { at + length bytes.now ≤ length buffer.old }
    ensures { CopiesTo buffer.old buffer.new at bytes.now result }
{
    let end = at + bytes.len();
    buffer[at..end].copy_from_slice(bytes);
    end
}
