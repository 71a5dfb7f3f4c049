//! Views of bytes, and copies of them as strings.
//!
//! | | may not be ASCII | known to be ASCII |
//! |---|---|---|
//! | all bytes | `as_ascii_str`, `from_ascii` | `as_ascii_str_unchecked`, `from_ascii_unchecked` |
//! | the bytes in a range | `slice_ascii` | |
//! | one byte | `get_ascii` | |
//! | all bytes, to edit in place | `as_mut_ascii_str` | `as_mut_ascii_str_unchecked` |
//! | the bytes in a range, to edit in place | `slice_ascii_mut` | `slice_ascii_mut_unchecked` |
//! | a copy | `to_ascii_string` | |
//! | the ASCII runs and the others, with their starts | `ascii_chunks` | |
//!
//! A call in the middle column scans the bytes once, and returns an error with a position in the source. A call in the
//! last column checks nothing; it has a condition, which its caller has to prove.
//!
//!     bytes::slice_ascii(b"ab\xc4d", AsciiRange::To(2)) // Ok("ab")
//!     bytes::slice_ascii(b"ab\xc4d", AsciiRange::To(3)) // Err(AsAsciiStrError(2))
//!
//! The byte 0xc4, which is not ASCII, is outside the first range and inside the second one.
//!
//! Only `to_ascii_string` allocates.

ghost use Rattle.std.specs.Prelude.{◌≡◌, MatchResult, OnOk, length};
ghost use Rattle.std.specs.Str.{IsAscii};
ghost use Rattle.ascii_base.specs.Range.{start_of, end_of};
ghost use Rattle.ascii.specs.Slice.{AsciiBetween};
ghost use Rattle.ascii.specs.ConversionError.{RejectsCopy};
ghost use Rattle.ascii.specs.Slice.{GetsAscii, SliceOutcome};
ghost use Rattle.ascii.specs.View.{text_of};

use crate::ascii_str::{AsAsciiStrError, AsciiStr};
use crate::ascii_string::AsciiString;
use crate::bounds::checked_bounds;
pub use crate::bytes_mut::{
    as_mut_ascii_str, as_mut_ascii_str_unchecked, slice_ascii_mut, slice_ascii_mut_unchecked,
};
pub use crate::chunks::ascii_chunks;
use crate::from_ascii::{CopyError, FromAsciiError};
use ascii_base::ascii_char::{AsciiChar, ToAsciiChar};
use ascii_base::range::AsciiRange;
use std::alloc::Allocator;

/// Returns the whole source as a view, or an error with the position of its first non-ASCII byte.
///
/// Scans the source once, 32 bytes or more at a time.
///
/// For a part of the source use `slice_ascii`; for the ASCII runs of any bytes, `ascii_chunks`.
///
///     bytes::as_ascii_str(b"foo") // Ok("foo")
///     bytes::as_ascii_str(b"ab\xc4") // Err(AsAsciiStrError(2))
///     bytes::as_ascii_str(b"") // Ok("")
pub fn as_ascii_str(source: &[u8]) -> Result<AsciiStr<'_>, AsAsciiStrError>
    ensures outcome { SliceOutcome source.now AsciiRange.Full result }
    ensures ascii { OnOk result (IsAscii source.now) }
{
    slice_ascii(source, AsciiRange::Full)
}

/// Returns the whole source as a view, or an error with the position of its first non-ASCII byte.
/// This is `as_ascii_str` under the name that upstream's `AsciiStr::from_ascii` has.
///
///     bytes::from_ascii(b"foo") // Ok("foo")
///     bytes::from_ascii(b"ab\xc4") // Err(AsAsciiStrError(2))
pub fn from_ascii(source: &[u8]) -> Result<AsciiStr<'_>, AsAsciiStrError>
    ensures outcome { SliceOutcome source.now AsciiRange.Full result }
    ensures ascii { OnOk result (IsAscii source.now) }
{
    as_ascii_str(source)
}

/// Returns the part of the source in `range` as a view, or an error: with the length of the source
/// if the range does not fit, and otherwise with the position in the source of the first non-ASCII
/// byte in the range.
///
/// Bytes outside the range do not matter. Scans the range once.
///
///     bytes::slice_ascii(b"ab\xc4d", AsciiRange::From(3)) // Ok("d")
///     bytes::slice_ascii(b"ab\xc4d", AsciiRange::From(1)) // Err(AsAsciiStrError(2))
///     bytes::slice_ascii(b"ab\xc4d", AsciiRange::From(5)) // Err(AsAsciiStrError(4))
pub fn slice_ascii(source: &[u8], range: AsciiRange) -> Result<AsciiStr<'_>, AsAsciiStrError>
    ensures outcome { SliceOutcome source.now range result }
    ensures ascii { OnOk result
        (AsciiBetween source.now (start_of range) (end_of range (length source.now))) }
{
    let (start, end) = checked_bounds(source, range)?;
    Ok(AsciiStr {
        bytes: &source[start..end],
    })
}

/// Returns the character at position `i`, counted from 0, or `None` if `i` is not less than the
/// length or the byte there is not ASCII.
///
///     bytes::get_ascii(b"ab\xc4", 1) // Some('b')
///     bytes::get_ascii(b"ab\xc4", 2) // None
pub fn get_ascii(source: &[u8], i: usize) -> Option<AsciiChar>
    ensures { GetsAscii source.now i result }
{
    source.get(i)?.to_ascii_char().ok()
}

/// Returns the whole source as a view. Nothing is checked.
///
/// Condition: every byte of `source` is ASCII.
///
///     bytes::as_ascii_str_unchecked(b"foo") // "foo"
///     bytes::as_ascii_str_unchecked(b"\x7f") // "\u{7f}"
#[inline]
pub fn as_ascii_str_unchecked(source: &[u8]) -> AsciiStr<'_>
    requires { IsAscii source.now }
    ensures { text_of result ≡ source.now }
{
    AsciiStr { bytes: source }
}

/// Returns the whole source as a view. Nothing is checked. This is `as_ascii_str_unchecked` under
/// the name that upstream's `AsciiStr::from_ascii_unchecked` has.
///
/// Condition: every byte of `source` is ASCII.
///
///     bytes::from_ascii_unchecked(b"foo") // "foo"
///     bytes::from_ascii_unchecked(b"") // ""
#[inline]
pub fn from_ascii_unchecked(source: &[u8]) -> AsciiStr<'_>
    requires { IsAscii source.now }
    ensures { text_of result ≡ source.now }
{
    as_ascii_str_unchecked(source)
}

/// Returns a copy of the source as a string, or an error that holds the source: `NotAscii` with the
/// position of its first non-ASCII byte, or `Memory` if the allocation fails.
///
/// The bytes are checked before anything is allocated. A copy of no bytes never fails.
///
/// If the bytes are in a `Vec` already, use `vec::into_ascii_string`, which keeps its buffer.
///
///     bytes::to_ascii_string(alloc, b"foo") // Ok("foo")
///     bytes::to_ascii_string(alloc, b"").ok() // Some("")
pub fn to_ascii_string<A: Allocator>(
    alloc: A,
    source: &[u8],
) -> Result<AsciiString<A>, CopyError<&[u8]>>
    ensures { MatchResult result (λ string. string.text ≡ source.now)
        (RejectsCopy source.entry source.now) }
{
    match as_ascii_str(source) {
        Ok(view) => match view.to_ascii_string(alloc) {
            Ok(string) => Ok(string),
            Err(e) => Err(CopyError::Memory(e)),
        },
        Err(error) => Err(CopyError::NotAscii(FromAsciiError { error, source })),
    }
}
