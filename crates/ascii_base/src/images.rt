//! Maps of bytes, of one byte and of several at once.

ghost use Rattle.std.specs.Prelude.{ℕ, ◌≡◌, map};
ghost use Rattle.ascii_base.specs.Case.{upper_image, lower_image};

use std::simd::prelude::*;

/// A map of bytes.
pub(crate) trait Image {
    // What a byte becomes.
    ghost image: { ℕ → ℕ };

    /// Returns the image of a byte.
    fn of(byte: u8) -> u8
        ensures { result ≡ image byte };
}

/// A map of `N` bytes at once.
pub(crate) trait ImageBy<const N: usize>: Image {
    /// Returns the image of each byte.
    fn of_lanes(lanes: Simd<u8, N>) -> Simd<u8, N>
        ensures { result ≡ map Self.image lanes.entry };
}

/// `a` to `z` become `A` to `Z`.
pub(crate) struct Upper;

impl Image for Upper {
    ghost image = { upper_image };

    #[inline]
    fn of(byte: u8) -> u8 {
        if byte.is_ascii_lowercase() {
            byte - 32
        } else {
            byte
        }
    }
}

impl<const N: usize> ImageBy<N> for Upper {
    #[inline(always)]
    fn of_lanes(lanes: Simd<u8, N>) -> Simd<u8, N>
        ensures { result ≡ map upper_image lanes.entry }
    {
        let is_lower = (lanes - Simd::splat(b'a')).simd_lt(Simd::splat(26));
        lanes - is_lower.select(Simd::splat(32), Simd::splat(0))
    }
}

/// `A` to `Z` become `a` to `z`.
pub(crate) struct Lower;

impl Image for Lower {
    ghost image = { lower_image };

    #[inline]
    fn of(byte: u8) -> u8 {
        if byte.is_ascii_uppercase() {
            byte + 32
        } else {
            byte
        }
    }
}

impl<const N: usize> ImageBy<N> for Lower {
    #[inline(always)]
    fn of_lanes(lanes: Simd<u8, N>) -> Simd<u8, N>
        ensures { result ≡ map lower_image lanes.entry }
    {
        let is_upper = (lanes - Simd::splat(b'A')).simd_lt(Simd::splat(26));
        lanes + is_upper.select(Simd::splat(32), Simd::splat(0))
    }
}
