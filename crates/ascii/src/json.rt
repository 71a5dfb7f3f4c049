//! Characters and texts as JSON values: a character is a JSON string of one byte, a text a JSON
//! string with all bytes below 128.

ghost use Rattle.std.specs.Prelude.{◌≡◌, [], ◌∷◌, IfOk, MatchResult, Some};
ghost use Rattle.std.specs.Str.{IsAscii};
ghost use Rattle.serde_json.specs.Data.{string};
ghost use Rattle.serde_json.specs.Find.{as_str};
ghost use Rattle.serde_json.specs.View.{view};
ghost use Rattle.ascii_base.specs.Code.{code_text};
ghost use Rattle.ascii.specs.Json.{RejectsChar, RejectsText, RejectsTextCopy};
ghost use Rattle.ascii.specs.View.{text_of};

use crate::ascii_str::{AsAsciiStrError, AsciiStr};
use crate::ascii_string::{AsciiString, Text};
use crate::buffer::{Buffer, NewBuffer};
use crate::text;
use ascii_base::ascii_char::{AsciiChar, ToAsciiChar};
use serde_json::Value;
use std::alloc::{AllocError, Allocator, Global};

/// Why a JSON value is rejected as a character or as a text.
#[derive(Clone, Copy, PartialEq, Eq, Debug)]
pub enum JsonError {
    /// The value is not a JSON string.
    NotText,
    /// The length of the JSON string is not one byte.
    NotOneByte,
    /// The JSON string has a non-ASCII byte; the error holds the position of the first one.
    NotAscii(AsAsciiStrError),
    /// The allocation for a copy failed.
    Memory,
}

impl AsciiStr<'_> {
    /// Returns the view as a JSON string, all of it ASCII. Fails only if the allocation fails.
    ///
    ///     AsciiStr::literal("a\"b").to_json(alloc)?.to_string(alloc)? // "\"a\\\"b\""
    ///     AsciiStr::literal("\x1f").to_json(alloc)?.to_string(alloc)? // "\"\\u001f\""
    pub fn to_json(self, alloc: Global) -> Result<Value, AllocError>
        ensures value { IfOk result (λ value. view value ≡ string (text_of self.entry)) }
        ensures ascii { IsAscii (text_of self.entry) }
    {
        Ok(Value::String(String::from_str(alloc, self.as_str())?))
    }
}

impl<B: Buffer> Text<B> {
    /// Returns the text as a JSON string, all of it ASCII. Fails only if the allocation fails.
    ///
    ///     AsciiStr::literal("foo").to_ascii_string(alloc)?.to_json(alloc)?.to_string(alloc)? // "\"foo\""
    ///     AsciiString::new(alloc).to_json(alloc)?.to_string(alloc)? // "\"\""
    pub fn to_json(&self, alloc: Global) -> Result<Value, AllocError>
        ensures value { IfOk result (λ value. view value ≡ string self.now.text) }
        ensures ascii { IsAscii self.now.text }
    {
        self.as_ascii_str().to_json(alloc)
    }
}

/// Returns the character as a JSON string of one byte. Fails only if the allocation fails.
///
///     char_to_json(alloc, AsciiChar::a)?.to_string(alloc)? // "\"a\""
///     char_to_json(alloc, AsciiChar::Quotation)?.to_string(alloc)? // "\"\\\"\""
pub fn char_to_json(alloc: Global, ch: AsciiChar) -> Result<Value, AllocError>
    ensures { IfOk result (λ value. view value ≡ string (code_text ch)) }
{
    let mut text = String::new(alloc);
    text.push(ch.as_char())?;
    Ok(Value::String(text))
}

/// Returns the character of a JSON string of one byte, or an error: `NotText` if the value is not a
/// JSON string, and `NotOneByte` if the length of the string is not one byte.
///
///     char_from_json(&Value::from_str(alloc, "\"a\"")?) // Ok('a')
///     char_from_json(&Value::from_str(alloc, "\"ab\"")?) // Err(NotOneByte)
pub fn char_from_json(value: &Value) -> Result<AsciiChar, JsonError>
    ensures { MatchResult result (λ ch. as_str (view value.now) ≡ Some (code_text ch))
        (RejectsChar (view value.now)) }
{
    let text = value.as_str().ok_or(JsonError::NotText)?;
    if text.len() != 1 {
        return Err(JsonError::NotOneByte);
    }
    let byte = text.as_bytes()[0];
    Ok(AsciiChar::from_ascii_unchecked(byte))
}

/// Returns a view of the text of a JSON string, or an error: `NotText` if the value is not a JSON
/// string, and `NotAscii` with the position of the first non-ASCII byte. Does not allocate.
///
///     str_from_json(&Value::from_str(alloc, "\"foo\"")?) // Ok("foo")
///     str_from_json(&Value::from_str(alloc, "7")?) // Err(NotText)
pub fn str_from_json(value: &Value) -> Result<AsciiStr<'_>, JsonError>
    ensures { MatchResult result (λ text. as_str (view value.now) ≡ Some (text_of text))
        (RejectsText (view value.now)) }
{
    let text = value.as_str().ok_or(JsonError::NotText)?;
    text::as_ascii_str(text).map_err(JsonError::NotAscii)
}

/// Returns a copy of the text of a JSON string, or an error: `NotText` if the value is not a JSON
/// string, `NotAscii` with the position of the first non-ASCII byte, and `Memory` if the allocation
/// fails.
///
/// The value is checked before anything is allocated. A copy of the empty text never fails.
///
///     string_from_json(alloc, &Value::from_str(alloc, "\"foo\"")?) // Ok("foo")
///     let value = Value::from_str(alloc, "\"abč\"")?;
///     string_from_json(alloc, &value) // Err(NotAscii(AsAsciiStrError(2)))
pub fn string_from_json<A: Allocator>(alloc: A, value: &Value) -> Result<AsciiString<A>, JsonError>
    ensures { MatchResult result (λ string. as_str (view value.now) ≡ Some string.text)
        (RejectsTextCopy 0 (view value.now)) }
{
    let view = str_from_json(value)?;
    AsciiString::from_ascii_str(alloc, view).map_err(|_| JsonError::Memory)
}
