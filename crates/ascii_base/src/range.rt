//! Ranges of positions: `AsciiRange` with its six forms, which stand for `..`, `a..`, `..b`, `a..b`, `a..=b` and
//! `..=b`.
//!
//! A call that takes a range says what it does if the range does not fit. `fits` tests it:
//!
//!     AsciiRange::Range(1, 3).fits(3) // true
//!     AsciiRange::Range(1, 3).fits(2) // false

ghost use Rattle.std.specs.Prelude.{◌≡◌, IsTrue, ◌↔◌};
ghost use Rattle.ascii_base.specs.Range.{start_of, end_of, Fits};

/// A range of positions in a source of bytes, counted from 0. Over `n` bytes, each form has a start
/// and an end, which is the position after its last byte.
#[derive(Clone, Copy)]
pub enum AsciiRange {
    /// `..`: the whole source.
    Full,
    /// `a..`: from `a` to the end of the source.
    From(usize),
    /// `..b`: up to `b`, which is not part of it.
    To(usize),
    /// `a..b`: from `a` up to `b`, which is not part of it.
    Range(usize, usize),
    /// `a..=b`: from `a` to `b`, which is part of it.
    Inclusive(usize, usize),
    /// `..=b`: up to `b`, which is part of it.
    ToInclusive(usize),
}

impl AsciiRange {
    /// Returns `true` if the range lies within `n` bytes: its start is not after its end, and its
    /// end is not after `n`. An inclusive form that ends at `usize::MAX` never fits.
    ///
    ///     AsciiRange::Range(1, 3).fits(3) // true
    ///     AsciiRange::Range(4, 2).fits(5) // false
    #[inline]
    pub fn fits(self, n: usize) -> bool
        ensures { IsTrue result ↔ Fits self n }
    {
        match self {
            AsciiRange::Full => true,
            AsciiRange::From(start) => start <= n,
            AsciiRange::To(end) => end <= n,
            AsciiRange::Range(start, end) => start <= end && end <= n,
            AsciiRange::Inclusive(start, end) => end < n && start <= end + 1,
            AsciiRange::ToInclusive(end) => end < n,
        }
    }

    /// Returns the position of the first byte of the range.
    ///
    ///     AsciiRange::From(4).start() // 4
    ///     AsciiRange::To(4).start() // 0
    #[inline]
    pub fn start(self) -> usize
        ensures { result ≡ start_of self }
    {
        match self {
            AsciiRange::From(start)
            | AsciiRange::Range(start, _)
            | AsciiRange::Inclusive(start, _) => start,
            AsciiRange::Full | AsciiRange::To(_) | AsciiRange::ToInclusive(_) => 0,
        }
    }

    /// Returns the position after the last byte of the range, over `n` bytes.
    ///
    /// Condition: the range fits `n` bytes.
    ///
    ///     AsciiRange::From(4).end(7) // 7
    ///     AsciiRange::Inclusive(1, 3).end(7) // 4
    #[inline]
    pub fn end(self, n: usize) -> usize
        requires { Fits self n }
        ensures { result ≡ end_of self n }
    {
        match self {
            AsciiRange::Full | AsciiRange::From(_) => n,
            AsciiRange::To(end) | AsciiRange::Range(_, end) => end,
            AsciiRange::Inclusive(_, end) | AsciiRange::ToInclusive(end) => end + 1,
        }
    }
}
