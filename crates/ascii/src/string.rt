//! Owned text out of strings, which keep their buffers.

ghost use Rattle.std.specs.Prelude.{◌≡◌, IfOk, MatchResult, string_bytes};
ghost use Rattle.std.specs.String.{string_capacity};
ghost use Rattle.ascii.specs.ConversionError.{ReturnsSource};

use crate::ascii_str::AsAsciiStrError;
use crate::ascii_string::AsciiString;
use crate::from_ascii::FromAsciiError;
use ascii_base::kernels;
use std::alloc::Allocator;

/// Converts the `String` into an ASCII string, keeping its buffer, or returns an error with the
/// `String` and the position of its first non-ASCII byte. Does not allocate.
///
///     string::into_ascii_string(String::from_str(alloc, "foo")?) // Ok("foo")
///     string::into_ascii_string(String::from_str(alloc, "abč")?) // Err(AsAsciiStrError(2))
pub fn into_ascii_string<A: Allocator>(
    string: String<A>,
) -> Result<AsciiString<A>, FromAsciiError<String<A>>>
    ensures text { MatchResult result (λ ascii. ascii.text ≡ string_bytes string)
        (ReturnsSource string (string_bytes string)) }
    ensures capacity { IfOk result (λ ascii. ascii.capacity ≡ string_capacity string) }
{
    match kernels::first_other(string.as_bytes()) {
        Some(valid_up_to) => Err(FromAsciiError {
            error: AsAsciiStrError { valid_up_to },
            source: string,
        }),
        None => Ok(AsciiString::from_ascii_unchecked(string.into_bytes())),
    }
}

/// Converts the `String` into an ASCII string, keeping its buffer, or returns an error with the
/// `String` and the position of its first non-ASCII byte. This is `into_ascii_string` under the
/// name that upstream's `AsciiString::from_ascii` has.
///
///     string::from_ascii(String::from_str(alloc, "foo")?) // Ok("foo")
///     string::from_ascii(String::from_str(alloc, "abč")?) // Err(AsAsciiStrError(2))
pub fn from_ascii<A: Allocator>(
    string: String<A>,
) -> Result<AsciiString<A>, FromAsciiError<String<A>>>
    ensures text { MatchResult result (λ ascii. ascii.text ≡ string_bytes string)
        (ReturnsSource string (string_bytes string)) }
    ensures capacity { IfOk result (λ ascii. ascii.capacity ≡ string_capacity string) }
{
    into_ascii_string(string)
}
