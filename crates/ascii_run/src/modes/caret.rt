//! The mode `Caret`.

ghost use Rattle.std.specs.Prelude.{◌≤◌, ◌+◌, ⊤, length};
ghost use Rattle.ascii.specs.Lanes.{Marks};
ghost use Rattle.ascii.specs.Notations.{caret_text};
ghost use Rattle.ascii_run.specs.Modes.Caret.{IsShown, caret_plain, is_shown, is_shown-decides};

use super::mapped::Show;
use ascii::caret_encode;
use ascii::classes::{Class, ClassBy};
use ascii::kernels::first_not;
use ascii_devices::{BufferedSink, Sink};
use std::alloc::Allocator;
use std::simd::prelude::*;

/// The characters that `caret` shows as themselves: LF, and all but control characters.
struct CaretPassThrough;

impl Class for CaretPassThrough {
    ghost is = { IsShown };

    ghost test = { is_shown };

    #[inline(always)]
    fn has(code: u8) -> bool {
        code == b'\n' || code >= 32 && code != 127
    }

    ghost decides = { is_shown-decides };
}

impl<const N: usize> ClassBy<N> for CaretPassThrough {
    #[inline(always)]
    fn marks(bytes: &[u8], at: usize) -> u64
        requires lanes { N ≤ 64 }
        requires room { at + N ≤ length bytes.now }
        ensures { Marks IsShown bytes.now at N result }
    {
        let lanes = Simd::<u8, N>::from_slice(&bytes[at..]);
        let is_low = lanes.simd_lt(Simd::splat(32)) & lanes.simd_ne(Simd::splat(b'\n'));
        (is_low | lanes.simd_eq(Simd::splat(127))).to_bitmask()
    }
}

/// Shows each character; a control character other than LF as `^` and its caret letter.
pub(crate) struct Caret;

impl Show for Caret {
    ghost shown = { caret_text };

    ghost is_ready = { λ _. ⊤ };

    ghost is_plain = { IsShown };

    ghost plain = { caret_plain };

    #[inline(always)]
    fn first_other(codes: &[u8]) -> Option<usize> {
        first_not::<CaretPassThrough>(codes)
    }

    fn put_other<K: Sink, A: Allocator>(
        &self,
        code: u8,
        buffer: &mut BufferedSink<A>,
        writer: &mut K,
    ) {
        // This is `Some`: the code is a control character.
        let letter = caret_encode(code).unwrap();
        buffer.put(writer, &[b'^', letter.as_byte()]);
    }
}
