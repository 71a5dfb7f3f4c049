//! Owned text out of vectors of bytes, which keep their buffers.

ghost use Rattle.std.specs.Prelude.{◌≡◌, IfOk, MatchResult, vec_capacity};
ghost use Rattle.ascii.specs.ConversionError.{ReturnsSource};

use crate::ascii_str::AsAsciiStrError;
use crate::ascii_string::AsciiString;
use crate::from_ascii::FromAsciiError;
use ascii_base::kernels;
use std::alloc::Allocator;

/// Converts the bytes into a string, keeping their buffer, or returns an error with the bytes and
/// the position of the first non-ASCII byte. Does not allocate.
///
///     vec::into_ascii_string(Vec::from_slice(alloc, b"foo")?) // Ok("foo")
///     vec::into_ascii_string(Vec::from_slice(alloc, b"ab\xc4")?) // Err(AsAsciiStrError(2))
pub fn into_ascii_string<A: Allocator>(
    bytes: Vec<u8, A>,
) -> Result<AsciiString<A>, FromAsciiError<Vec<u8, A>>>
    ensures text { MatchResult result (λ string. string.text ≡ bytes.items)
        (ReturnsSource bytes bytes.items) }
    ensures capacity { IfOk result (λ string. string.capacity ≡ vec_capacity bytes) }
{
    match kernels::first_other(&bytes) {
        Some(valid_up_to) => Err(FromAsciiError {
            error: AsAsciiStrError { valid_up_to },
            source: bytes,
        }),
        None => Ok(AsciiString::from_ascii_unchecked(bytes)),
    }
}

/// Converts the bytes into a string, keeping their buffer, or returns an error with the bytes and
/// the position of the first non-ASCII byte. This is `into_ascii_string` under the name that
/// upstream's `AsciiString::from_ascii` has.
///
///     vec::from_ascii(Vec::from_slice(alloc, b"foo")?) // Ok("foo")
///     vec::from_ascii(Vec::from_slice(alloc, b"ab\xc4")?) // Err(AsAsciiStrError(2))
pub fn from_ascii<A: Allocator>(
    bytes: Vec<u8, A>,
) -> Result<AsciiString<A>, FromAsciiError<Vec<u8, A>>>
    ensures text { MatchResult result (λ string. string.text ≡ bytes.items)
        (ReturnsSource bytes bytes.items) }
    ensures capacity { IfOk result (λ string. string.capacity ≡ vec_capacity bytes) }
{
    into_ascii_string(bytes)
}
