//! The traits of the crate `serde` for views and strings, in any format. A view borrows its text from
//! the input, so its text may hold no escape there.

ghost use Rattle.std.specs.Prelude.{◌≡◌, IfOk, MatchResult};
ghost use Rattle.std.specs.Str.{IsAscii};
ghost use Rattle.ascii.specs.View.{text_of};
ghost use Rattle.serde.specs.Event.{Logs, text};
ghost use Rattle.serde.specs.Steps.{Gives};

use crate::ascii_str::{AsAsciiStrError, AsciiStr};
use crate::ascii_string::{AsciiString, Text};
use crate::buffer::{Buffer, InlineBuffer};
use crate::text;
use serde::{
    Described, Deserialize, DeserializeOwned, Deserializer, Format, Serialize, Serializer,
};
use std::alloc::Global;

impl Described for AsciiStr<'_> {
    ghost writes = { λ view old new. Logs old new (text (text_of view)) };
}

impl Serialize for AsciiStr<'_> {
    /// Writes the text as a string.
    ///
    ///     serde_json::to_string(alloc, &AsciiStr::literal("a\"b"))? // "\"a\\\"b\""
    ///     serde_json::to_string(alloc, &AsciiStr::literal("\n"))? // "\"\\n\""
    fn serialize<S: Serializer>(&self, out: &mut S) -> Result<(), S::Error> {
        out.str(AsciiStr::as_str(*self))
    }
}

impl<B: Buffer> Described for Text<B> {
    ghost writes = { λ string old new. Logs old new (text string.text) };
}

impl<B: Buffer> Serialize for Text<B> {
    /// Writes the text as a string.
    ///
    ///     serde_json::to_string(alloc, &AsciiStr::literal("foo").to_ascii_string(alloc)?)? // "\"foo\""
    ///     serde_json::to_string(alloc, &AsciiString::new(alloc))? // "\"\""
    fn serialize<S: Serializer>(&self, out: &mut S) -> Result<(), S::Error> {
        out.str(self.as_ascii_str().as_str())
    }
}

/// Returns the format's error with the line of a conversion error, or its error of a failed
/// allocation.
fn reported<F: Format>(
    alloc: Global,
    from: &Deserializer<'_, '_, F>,
    error: AsAsciiStrError,
) -> F::Error {
    match format!(in alloc; "{error}") {
        Ok(line) => from.custom(line.as_str()),
        Err(_) => from.no_memory(),
    }
}

/// Returns a text that was read as a view, or the format's error with the position of its first
/// non-ASCII byte. All texts that are read are accepted or rejected by this function.
fn accepted<'a, F: Format>(
    alloc: Global,
    from: &Deserializer<'_, '_, F>,
    source: &'a str,
) -> Result<AsciiStr<'a>, F::Error>
    ensures { MatchResult result (λ view. text_of view ≡ source.now)
        (λ _. ¬ (IsAscii source.now)) }
{
    match text::as_ascii_str(source) {
        Ok(view) => Ok(view),
        Err(error) => Err(reported(alloc, from, error)),
    }
}

impl<'de> Deserialize<'de> for AsciiStr<'de> {
    /// Reads a string that is borrowed from the input, or returns an error if a byte of it is not
    /// ASCII. A string that cannot be borrowed is an error too: in JSON, one with an escape.
    ///
    ///     serde_json::from_str::<AsciiStr<'_>>(alloc, "\"foo\"").ok() // Some("foo")
    ///     serde_json::from_str::<AsciiStr<'_>>(alloc, "\"a\\n\"").ok() // None
    fn deserialize<F: Format>(
        alloc: Global,
        from: &mut Deserializer<'de, '_, F>,
    ) -> Result<AsciiStr<'de>, F::Error>
        ensures { IfOk result (λ view. Gives F.gives from.old (text (text_of view)) from.new) }
    {
        let source = from.borrowed_str()?;
        accepted(alloc, from, source)
    }
}

impl DeserializeOwned for AsciiString {
    /// Reads a string, or returns an error if a byte of it is not ASCII.
    ///
    ///     let value = Value::from_str(alloc, "\"foo\"")?;
    ///     serde_json::from_value::<AsciiString>(alloc, value).ok() // Some("foo")
    ///     serde_json::from_value::<AsciiString>(alloc, Value::Null).ok() // None
    fn deserialize_owned<F: Format>(
        alloc: Global,
        from: &mut Deserializer<'_, '_, F>,
    ) -> Result<AsciiString, F::Error>
        ensures { IfOk result (λ string. Gives F.gives from.old (text string.text) from.new) }
    {
        let source = from.string(alloc)?;
        if let Err(error) = accepted(alloc, from, source.as_str()) {
            return Err(error);
        }
        Ok(AsciiString::from_ascii_unchecked(source.into_bytes()))
    }
}

impl<'de> Deserialize<'de> for AsciiString {
    /// Reads a string, or returns an error if a byte of it is not ASCII.
    ///
    ///     serde_json::from_str::<AsciiString>(alloc, "\"foo\"").ok() // Some("foo")
    ///     serde_json::from_str::<AsciiString>(alloc, "\"č\"").ok() // None
    fn deserialize<F: Format>(
        alloc: Global,
        from: &mut Deserializer<'de, '_, F>,
    ) -> Result<AsciiString, F::Error>
        ensures { IfOk result (λ string. Gives F.gives from.old (text string.text) from.new) }
    {
        AsciiString::deserialize_owned(alloc, from)
    }
}

impl<B: InlineBuffer> DeserializeOwned for Text<B> {
    /// Reads a string, or returns an error if a byte of it is not ASCII.
    ///
    ///     let value = Value::from_str(alloc, "\"foo\"")?;
    ///     serde_json::from_value::<SmallAsciiString>(alloc, value).ok() // Some("foo")
    ///     serde_json::from_value::<SmallAsciiString>(alloc, Value::Null).ok() // None
    fn deserialize_owned<F: Format>(
        alloc: Global,
        from: &mut Deserializer<'_, '_, F>,
    ) -> Result<Text<B>, F::Error>
        ensures { IfOk result (λ string. Gives F.gives from.old (text string.text) from.new) }
    {
        let string = AsciiString::deserialize_owned(alloc, from)?;
        Ok(Text {
            bytes: B::from_vec(string.bytes),
        })
    }
}

impl<'de, B: InlineBuffer> Deserialize<'de> for Text<B> {
    /// Reads a string, or returns an error if a byte of it is not ASCII.
    ///
    ///     serde_json::from_str::<SmallAsciiString>(alloc, "\"foo\"").ok() // Some("foo")
    ///     serde_json::from_str::<SmallAsciiString>(alloc, "\"č\"").ok() // None
    fn deserialize<F: Format>(
        alloc: Global,
        from: &mut Deserializer<'de, '_, F>,
    ) -> Result<Text<B>, F::Error>
        ensures { IfOk result (λ string. Gives F.gives from.old (text string.text) from.new) }
    {
        Text::deserialize_owned(alloc, from)
    }
}
