//! The conversion traits of std for views and strings: where a function takes a text, bytes or a path, it can
//! be passed a view or a string, and `TryFrom` checks a source.

ghost use Rattle.std.specs.Prelude.{◌≡◌, IfOk, MatchResult, OnOk, Some, max, string_bytes};
ghost use Rattle.std.specs.Prelude.{vec_capacity};
ghost use Rattle.std.specs.Str.{IsAscii};
ghost use Rattle.std.specs.String.{string_capacity};
ghost use Rattle.ascii.specs.ConversionError.{ReturnsSource};
ghost use Rattle.ascii.specs.Slice.{SliceOutcome};
ghost use Rattle.ascii.specs.View.{text_of};
ghost use Rattle.ascii_base.specs.declared.range.AsciiRange.TheVariants.{Full};

use crate::ascii_str::{AsAsciiStrError, AsciiStr};
use crate::ascii_string::{AsciiString, Text};
use crate::buffer::{Buffer, InlineBuffer};
use crate::from_ascii::FromAsciiError;
use crate::{bytes, string, text, vec};
use std::alloc::Allocator;
use std::convert::{AsSlice, AsStr};
use std::io::AsBytes;
use std::path::AsPath;

impl AsStr for AsciiStr<'_> {
    ghost text = { λ view. text_of view };

    /// Returns the view as a `&str`. Nothing is checked or copied.
    ///
    ///     AsStr::as_str(&AsciiStr::literal("foo")) // "foo"
    ///     AsStr::as_str(&AsciiStr::literal("")) // ""
    fn as_str(&self) -> &str {
        AsciiStr::as_str(*self)
    }
}

impl AsSlice<u8> for AsciiStr<'_> {
    ghost items = { λ view. text_of view };

    /// Returns the bytes of the view, one for each character.
    ///
    ///     AsciiStr::literal("foo").as_slice() // [102, 111, 111]
    ///     AsciiStr::literal("").as_slice() // []
    fn as_slice(&self) -> &[u8] {
        self.as_bytes()
    }
}

impl AsBytes for AsciiStr<'_> {
    ghost bytes = { λ view. Some (text_of view) };

    /// Returns the bytes of the view, one for each character.
    ///
    ///     AsciiStr::literal("foo").as_byte_slice() // [102, 111, 111]
    ///     AsciiStr::literal("\0\x7f").as_byte_slice() // [0, 127]
    fn as_byte_slice(&self) -> &[u8] {
        self.as_bytes()
    }
}

impl AsPath for AsciiStr<'_> {
    ghost path_text = { λ view. Some (text_of view) };

    /// Returns the view as the text of a path.
    ///
    ///     AsciiStr::literal("../a/").path_text() // "../a/"
    fn path_text(&self) -> &str {
        AsciiStr::as_str(*self)
    }
}

impl<B: Buffer> AsStr for Text<B> {
    ghost text = { λ string. string.text };

    /// Returns the text as a `&str`. Nothing is checked or copied.
    ///
    ///     AsStr::as_str(&AsciiStr::literal("foo").to_ascii_string(alloc)?) // "foo"
    ///     AsStr::as_str(&AsciiString::new(alloc)) // ""
    fn as_str(&self) -> &str {
        self.as_ascii_str().as_str()
    }
}

impl<B: Buffer> AsSlice<u8> for Text<B> {
    ghost items = { λ string. string.text };

    /// Returns the bytes of the text, one for each character.
    ///
    ///     AsciiStr::literal("foo").to_ascii_string(alloc)?.as_slice() // [102, 111, 111]
    ///     AsciiString::new(alloc).as_slice() // []
    fn as_slice(&self) -> &[u8] {
        self.as_ascii_str().as_bytes()
    }
}

impl<B: Buffer> AsBytes for Text<B> {
    ghost bytes = { λ string. Some string.text };

    /// Returns the bytes of the text, one for each character.
    ///
    ///     AsciiStr::literal("foo").to_ascii_string(alloc)?.as_byte_slice() // [102, 111, 111]
    ///     AsciiString::new(alloc).as_byte_slice() // []
    fn as_byte_slice(&self) -> &[u8] {
        self.as_ascii_str().as_bytes()
    }
}

impl<'a> TryFrom<&'a [u8]> for AsciiStr<'a> {
    type Error = AsAsciiStrError;

    ghost try_from_gives = { λ source result. SliceOutcome source.now Full result };

    /// Returns the source as a view, or an error with the position of its first non-ASCII byte.
    ///
    ///     AsciiStr::try_from(b"foo".as_slice()) // Ok("foo")
    ///     AsciiStr::try_from(b"ab\xc4".as_slice()) // Err(AsAsciiStrError(2))
    fn try_from(source: &'a [u8]) -> Result<AsciiStr<'a>, AsAsciiStrError>
        ensures outcome { SliceOutcome source.now Full result }
        ensures ascii { OnOk result (IsAscii source.now) }
    {
        bytes::as_ascii_str(source)
    }
}

impl<'a> TryFrom<&'a str> for AsciiStr<'a> {
    type Error = AsAsciiStrError;

    ghost try_from_gives = { λ source result. SliceOutcome source.now Full result };

    /// Returns the source as a view, or an error with the position in bytes of its first non-ASCII
    /// byte.
    ///
    ///     AsciiStr::try_from("foo") // Ok("foo")
    ///     AsciiStr::try_from("abč") // Err(AsAsciiStrError(2))
    fn try_from(source: &'a str) -> Result<AsciiStr<'a>, AsAsciiStrError>
        ensures { SliceOutcome source.now Full result }
    {
        text::as_ascii_str(source)
    }
}

impl<A: Allocator> TryFrom<Vec<u8, A>> for AsciiString<A> {
    type Error = FromAsciiError<Vec<u8, A>>;

    ghost try_from_gives = { λ source result. MatchResult result
        (λ string. string.text ≡ source.items) (ReturnsSource source source.items) };

    /// Converts the bytes into a string, keeping their buffer, or returns an error with the bytes
    /// and the position of the first non-ASCII byte. Does not allocate.
    ///
    ///     AsciiString::try_from(Vec::from_slice(alloc, b"foo")?) // Ok("foo")
    ///     AsciiString::try_from(Vec::from_slice(alloc, b"ab\xc4")?) // Err(AsAsciiStrError(2))
    fn try_from(source: Vec<u8, A>) -> Result<AsciiString<A>, FromAsciiError<Vec<u8, A>>>
        ensures text { MatchResult result (λ string. string.text ≡ source.items)
            (ReturnsSource source source.items) }
        ensures capacity { IfOk result (λ string. string.capacity ≡ vec_capacity source) }
    {
        vec::into_ascii_string(source)
    }
}

impl<A: Allocator> TryFrom<String<A>> for AsciiString<A> {
    type Error = FromAsciiError<String<A>>;

    ghost try_from_gives = { λ source result. MatchResult result
        (λ string. string.text ≡ string_bytes source)
        (ReturnsSource source (string_bytes source)) };

    /// Converts the `String` into an ASCII string, keeping its buffer, or returns an error with the
    /// `String` and the position of its first non-ASCII byte. Does not allocate.
    ///
    ///     AsciiString::try_from(String::from_str(alloc, "foo")?) // Ok("foo")
    ///     AsciiString::try_from(String::from_str(alloc, "abč")?) // Err(AsAsciiStrError(2))
    fn try_from(source: String<A>) -> Result<AsciiString<A>, FromAsciiError<String<A>>>
        ensures text { MatchResult result (λ string. string.text ≡ string_bytes source)
            (ReturnsSource source (string_bytes source)) }
        ensures capacity { IfOk result (λ string. string.capacity ≡ string_capacity source) }
    {
        string::into_ascii_string(source)
    }
}

impl<B: InlineBuffer> TryFrom<Vec<u8>> for Text<B> {
    type Error = FromAsciiError<Vec<u8>>;

    ghost try_from_gives = { λ source result. MatchResult result
        (λ string. string.text ≡ source.items) (ReturnsSource source source.items) };

    /// Converts the bytes into a string, or returns an error with the bytes and the position of the
    /// first non-ASCII byte. The string keeps their allocation if that has more room than the value
    /// itself. Does not allocate.
    ///
    ///     SmallAsciiString::try_from(Vec::from_slice(alloc, b"foo")?) // Ok("foo")
    ///     SmallAsciiString::try_from(Vec::from_slice(alloc, b"\xc4")?) // Err(AsAsciiStrError(0))
    fn try_from(source: Vec<u8>) -> Result<Text<B>, FromAsciiError<Vec<u8>>>
        ensures text { MatchResult result (λ string. string.text ≡ source.items)
            (ReturnsSource source source.items) }
        ensures capacity { IfOk result (λ string.
            string.capacity ≡ max B.sure (vec_capacity source)) }
    {
        match vec::into_ascii_string(source) {
            Ok(string) => Ok(Text {
                bytes: B::from_vec(string.bytes),
            }),
            Err(error) => Err(error),
        }
    }
}

impl<B: InlineBuffer> TryFrom<String> for Text<B> {
    type Error = FromAsciiError<String>;

    ghost try_from_gives = { λ source result. MatchResult result
        (λ string. string.text ≡ string_bytes source)
        (ReturnsSource source (string_bytes source)) };

    /// Converts the `String` into an ASCII string, or returns an error with the `String` and the
    /// position of its first non-ASCII byte. The string keeps its allocation if that has more room
    /// than the value itself. Does not allocate.
    ///
    ///     SmallAsciiString::try_from(String::from_str(alloc, "foo")?) // Ok("foo")
    ///     SmallAsciiString::try_from(String::from_str(alloc, "abč")?) // Err(AsAsciiStrError(2))
    fn try_from(source: String) -> Result<Text<B>, FromAsciiError<String>>
        ensures text { MatchResult result (λ string. string.text ≡ string_bytes source)
            (ReturnsSource source (string_bytes source)) }
        ensures capacity { IfOk result (λ string.
            string.capacity ≡ max B.sure (string_capacity source)) }
    {
        match string::into_ascii_string(source) {
            Ok(string) => Ok(Text {
                bytes: B::from_vec(string.bytes),
            }),
            Err(error) => Err(error),
        }
    }
}
