//! Bytes that may not be ASCII, as chunks: their longest runs of ASCII bytes, as views, and of other
//! bytes. No call of this module allocates.
//!
//!     let mut chunks = bytes::ascii_chunks(b"na\xc3\xafve");
//!     chunks.next() // Some(AsciiChunk { start: 0, run: Ascii("na") })
//!     chunks.next() // Some(AsciiChunk { start: 2, run: Other([195, 175]) })
//!
//! The chunks are the view `na`, two other bytes, and the view `ve`, with the starts 0, 2 and 4.
//! Joined, the chunks are the source. For text whose encoding is UTF-8, use `utf8_chunks` of std.
//!
//! A contract sees the iterator as the bytes whose chunks it has yet to yield, with their start.

ghost use Rattle.std.specs.Prelude.{⊤, ◌≡◌, ◌≢◌, ◌+◌, ◌<◌, ◌≤◌, [], All, IfSome, MatchOption, length};
ghost use Rattle.std.specs.Prelude.{◌-◌, slice_index};
ghost use Rattle.std.specs.Iterator.{item_count};
ghost use Rattle.ascii.specs.Chunks.{HasOneListOfChunks, IsByteOf, LoopsBackOverChunks, LoopsOverChunks};
ghost use Rattle.ascii.specs.Chunks.{run_in};
ghost use Rattle.ascii_base.specs.Bytes.{IsOnSide};
ghost use Rattle.ascii_base.specs.Runs.{EndsRun, StartsRun};

use crate::ascii_str::AsciiStr;
use crate::bytes;
use ascii_base::classes::Ascii;
use ascii_base::kernels::{self, run_end, run_start};
use std::alloc::AllocError;
use std::iter::FusedIterator;
use std::marker::Model;

/// A run of bytes of one kind.
#[derive(Clone, Copy, PartialEq, Eq, Debug)]
pub enum ByteRun<'a> {
    /// ASCII bytes, as a view.
    Ascii(AsciiStr<'a>),
    /// Bytes that are not ASCII.
    Other(&'a [u8]),
}

/// A chunk of bytes: a longest run of ASCII bytes or of other bytes, with its start.
#[derive(Clone, Copy, PartialEq, Eq, Debug)]
pub struct AsciiChunk<'a> {
    /// The position of its first byte in the source, counted from 0.
    pub start: usize,
    /// Its bytes, at least one.
    pub run: ByteRun<'a>,
}

/// A double-ended iterator over the chunks of bytes.
#[derive(Drop)]
pub struct AsciiChunks<'a> {
    // Where the bytes start whose chunks remain.
    start: usize,
    rest: &'a [u8],
}

impl<'a> Model for AsciiChunks<'a> {
    ghost use Rattle.std.specs.Prelude.{◌+◌, ◌^◌, ◌<◌, List, ℕ, length};
    ghost use Rattle.ascii.specs.Spans.{WithStart};

    ghost Value = { WithStart (List ℕ) };

    ghost view = { λ chunks. record { start = chunks.start; item = chunks.rest.now } };

    ghost invariant = { λ chunks. chunks.start + length chunks.rest.now < 2 ^ 64 };
}

impl Clone for AsciiChunks<'_> {
    ghost is_clone = { λ chunks copy. copy ≡ chunks };

    ghost is_infallible = { λ _. ⊤ };

    /// Returns an iterator with the same remaining chunks. Always returns `Ok`.
    ///
    ///     let mut chunks = bytes::ascii_chunks(b"ab\xc4");
    ///     let mut copy = chunks.clone()?;
    ///     chunks.next() // Some(AsciiChunk { start: 0, run: Ascii("ab") })
    ///     copy.next() // Some(AsciiChunk { start: 0, run: Ascii("ab") })
    fn clone(&self) -> Result<Self, AllocError> {
        Ok(AsciiChunks {
            start: self.start,
            rest: self.rest,
        })
    }
}

impl<'a> Iterator for AsciiChunks<'a> {
    type Item = AsciiChunk<'a>;

    ghost use Rattle.ascii.specs.Chunks.{YieldsFirstChunk};

    ghost next_gives = { YieldsFirstChunk };

    ghost remaining = { item_count (λ part. part.item) };

    /// Returns the next chunk, or `None` if there are none left; it then keeps returning `None`.
    ///
    ///     bytes::ascii_chunks(b"\xc4ab").next() // Some(AsciiChunk { start: 0, run: Other([196]) })
    ///     bytes::ascii_chunks(b"").next() // None
    fn next(&mut self) -> Option<AsciiChunk<'a>> {
        let bytes = self.rest;
        let start = self.start;
        let ascii = *bytes.first()? < 128;
        let end = first_run_end(bytes, ascii);
        self.start = start + end;
        self.rest = &bytes[end..];
        Some(AsciiChunk {
            start,
            run: run_of(&bytes[..end], ascii),
        })
    }
}

impl<'a> DoubleEndedIterator for AsciiChunks<'a> {
    ghost use Rattle.ascii.specs.Chunks.{YieldsLastChunk};

    ghost next_back_gives = { YieldsLastChunk };

    /// Returns the last of the remaining chunks, or `None` if there are none left; it then keeps
    /// returning `None`.
    ///
    ///     bytes::ascii_chunks(b"\xc4ab").next_back() // Some(AsciiChunk { start: 1, run: Ascii("ab") })
    ///     bytes::ascii_chunks(b"").next_back() // None
    fn next_back(&mut self) -> Option<AsciiChunk<'a>> {
        let bytes = self.rest;
        let ascii = *bytes.last()? < 128;
        let at = last_run_start(bytes, ascii);
        self.rest = &bytes[..at];
        Some(AsciiChunk {
            start: self.start + at,
            run: run_of(&bytes[at..], ascii),
        })
    }
}

impl FusedIterator for AsciiChunks<'_> {}

impl<'a> AsciiChunks<'a> {
    /// Returns the bytes whose chunks remain, with the position in the source at which they start, or
    /// `None` if there are no chunks left. The iterator is unchanged. Constant time.
    ///
    ///     let mut chunks = bytes::ascii_chunks(b"ab\xc4cd");
    ///     chunks.next() // Some(AsciiChunk { start: 0, run: Ascii("ab") })
    ///     chunks.remainder() // Some((2, [196, 99, 100]))
    ///     bytes::ascii_chunks(b"").remainder() // None
    pub fn remainder(&self) -> Option<(usize, &'a [u8])>
        ensures remainder { MatchOption result (self.now.item ≡ []) (λ tail.
            (self.now.item ≢ []) × (tail.0 ≡ self.now.start) × (tail.1.now ≡ self.now.item)) }
        ensures fits { IfSome result (λ tail. tail.0 + length tail.1.now ≤ usize.MAX) }
    {
        if self.rest.is_empty() {
            return None;
        }
        Some((self.start, self.rest))
    }
}

/// Returns the position after the run at the start: of ASCII bytes, or of other bytes.
fn first_run_end(bytes: &[u8], ascii: bool) -> usize
    ensures { EndsRun (λ byte. byte < 128) ascii bytes.now 0 result }
{
    if ascii {
        match kernels::first_other(bytes) {
            Some(at) => at,
            None => bytes.len(),
        }
    } else {
        run_end::<Ascii>(bytes, 0, false)
    }
}

/// Returns the position at which the run at the end starts: of ASCII bytes, or of other bytes.
fn last_run_start(bytes: &[u8], ascii: bool) -> usize
    ensures { StartsRun (λ byte. byte < 128) ascii bytes.now (length bytes.now) result }
{
    if ascii {
        match kernels::last_not::<Ascii>(bytes) {
            Some(at) => at + 1,
            None => 0,
        }
    } else {
        run_start::<Ascii>(bytes, bytes.len(), false)
    }
}

/// The bytes as a run of one kind.
fn run_of(bytes: &[u8], ascii: bool) -> ByteRun<'_>
    requires { All (IsByteOf ascii) bytes.now }
    ensures { run_in result ≡ record { ascii = ascii; bytes = bytes.now } }
{
    if ascii {
        ByteRun::Ascii(bytes::as_ascii_str_unchecked(bytes))
    } else {
        ByteRun::Other(bytes)
    }
}

/// Returns an iterator over the chunks of the source: its longest runs of ASCII bytes, as views,
/// and of other bytes, each with its start.
///
///     let mut chunks = bytes::ascii_chunks(b"ab\xc4\x96cd");
///     chunks.next() // Some(AsciiChunk { start: 0, run: Ascii("ab") })
///     chunks.next_back() // Some(AsciiChunk { start: 4, run: Ascii("cd") })
///     chunks.next() // Some(AsciiChunk { start: 2, run: Other([196, 150]) })
///     chunks.next() // None
pub fn ascii_chunks(source: &[u8]) -> AsciiChunks<'_>
    ensures bytes { result ≡ record { start = 0; item = source.now } }
    ensures one { HasOneListOfChunks result }
    ensures loops { LoopsOverChunks }
    ensures loops_back { LoopsBackOverChunks }
{
    AsciiChunks {
        start: 0,
        rest: source,
    }
}
