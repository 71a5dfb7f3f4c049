//! Views of `str`s, and copies of them as strings. Positions and ranges count bytes, and may be inside a character.
//!
//! The calls are those of the module `bytes`, for a source that is UTF-8. `AsciiStr::literal` makes a view of a literal,
//! which is checked when the caller is proved.
//!
//! Only `to_ascii_string` allocates.

ghost use Rattle.std.specs.Prelude.{◌≡◌, IsTrue, MatchResult};
ghost use Rattle.std.specs.Char.{is_ascii};
ghost use Rattle.std.specs.List.{list_all};
ghost use Rattle.std.specs.Str.{IsAscii};
ghost use Rattle.ascii.specs.ConversionError.{RejectsCopy};
ghost use Rattle.ascii.specs.Slice.{GetsAscii, SliceOutcome};
ghost use Rattle.ascii.specs.View.{text_of};

use crate::ascii_str::{AsAsciiStrError, AsciiStr};
use crate::ascii_string::AsciiString;
use crate::bytes;
use crate::from_ascii::{CopyError, FromAsciiError};
use ascii_base::ascii_char::AsciiChar;
use ascii_base::range::AsciiRange;
use std::alloc::Allocator;

/// Returns the whole source as a view, or an error with the position in bytes of its first
/// non-ASCII byte.
///
/// Scans the source once, 32 bytes or more at a time.
///
/// For a literal use `AsciiStr::literal`, which checks nothing at run time.
///
///     text::as_ascii_str("foo") // Ok("foo")
///     text::as_ascii_str("abč") // Err(AsAsciiStrError(2))
///     text::as_ascii_str("") // Ok("")
pub fn as_ascii_str(source: &str) -> Result<AsciiStr<'_>, AsAsciiStrError>
    ensures { SliceOutcome source.now AsciiRange.Full result }
{
    bytes::as_ascii_str(source.as_bytes())
}

/// Returns the whole source as a view, or an error with the position in bytes of its first
/// non-ASCII byte. This is `as_ascii_str` under the name that upstream's `AsciiStr::from_ascii`
/// has.
///
///     text::from_ascii("foo") // Ok("foo")
///     text::from_ascii("abč") // Err(AsAsciiStrError(2))
pub fn from_ascii(source: &str) -> Result<AsciiStr<'_>, AsAsciiStrError>
    ensures { SliceOutcome source.now AsciiRange.Full result }
{
    as_ascii_str(source)
}

/// Returns the part of the source in `range`, a range of bytes, as a view, or an error: with the
/// number of bytes of the source if the range does not fit, and otherwise with the position in the
/// source of the first non-ASCII byte in the range.
///
/// Bytes outside the range do not matter, and the range may begin or end inside a character. Scans
/// the range once.
///
///     text::slice_ascii("abčd", AsciiRange::From(4)) // Ok("d")
///     text::slice_ascii("abčd", AsciiRange::To(3)) // Err(AsAsciiStrError(2))
pub fn slice_ascii(source: &str, range: AsciiRange) -> Result<AsciiStr<'_>, AsAsciiStrError>
    ensures { SliceOutcome source.now range result }
{
    bytes::slice_ascii(source.as_bytes(), range)
}

/// Returns the character at position `i`, counted in bytes from 0, or `None` if `i` is not less
/// than the number of bytes or the byte there is not ASCII.
///
///     text::get_ascii("abč", 1) // Some('b')
///     text::get_ascii("abč", 2) // None
pub fn get_ascii(source: &str, i: usize) -> Option<AsciiChar>
    ensures { GetsAscii source.now i result }
{
    bytes::get_ascii(source.as_bytes(), i)
}

impl<'a> AsciiStr<'a> {
    /// Returns the view of a literal.
    ///
    /// Condition: each byte of the literal is ASCII.
    ///
    /// The prover computes this at each call, for a literal of any length, so that a literal that
    /// is not ASCII does not compile; nothing is checked at run time.
    ///
    ///     AsciiStr::literal("GET") // "GET"
    ///     AsciiStr::literal("\t\x7f") // "\t\u{7f}"
    #[inline]
    #[tactic(auto, using(crate::proofs::CallerLemmas::ascii_by_test))]
    pub fn literal(text: &'a str) -> AsciiStr<'a>
        requires { IsTrue (list_all is_ascii text.now) }
        ensures { text_of result ≡ text.now }
    {
        as_ascii_str_unchecked(text)
    }
}

/// Returns the whole source as a view. Nothing is checked.
///
/// Condition: every byte of `source` is ASCII.
///
///     text::as_ascii_str_unchecked("foo") // "foo"
///     text::as_ascii_str_unchecked("\x7f") // "\u{7f}"
#[inline]
pub fn as_ascii_str_unchecked(source: &str) -> AsciiStr<'_>
    requires { IsAscii source.now }
    ensures { text_of result ≡ source.now }
{
    bytes::as_ascii_str_unchecked(source.as_bytes())
}

/// Returns the whole source as a view. Nothing is checked. This is `as_ascii_str_unchecked` under
/// the name that upstream's `AsciiStr::from_ascii_unchecked` has.
///
/// Condition: every byte of `source` is ASCII.
///
///     text::from_ascii_unchecked("foo") // "foo"
///     text::from_ascii_unchecked("") // ""
#[inline]
pub fn from_ascii_unchecked(source: &str) -> AsciiStr<'_>
    requires { IsAscii source.now }
    ensures { text_of result ≡ source.now }
{
    as_ascii_str_unchecked(source)
}

/// Returns a copy of the source as a string, or an error that holds the source: `NotAscii` with the
/// position in bytes of its first non-ASCII byte, or `Memory` if the allocation fails.
///
/// The bytes are checked before anything is allocated. A copy of the empty text never fails.
///
///     text::to_ascii_string(alloc, "foo") // Ok("foo")
///     text::to_ascii_string(alloc, "abč") // Err(NotAscii(AsAsciiStrError(2)))
pub fn to_ascii_string<A: Allocator>(
    alloc: A,
    source: &str,
) -> Result<AsciiString<A>, CopyError<&str>>
    ensures { MatchResult result (λ string. string.text ≡ source.now)
        (RejectsCopy source.entry source.now) }
{
    match as_ascii_str(source) {
        Ok(view) => match view.to_ascii_string(alloc) {
            Ok(string) => Ok(string),
            Err(e) => Err(CopyError::Memory(e)),
        },
        Err(error) => Err(CopyError::NotAscii(FromAsciiError { error, source })),
    }
}
