//! Texts and characters as JSON values.

use crate::answer::{Answer, Put};
use ascii::json::JsonError;
use ascii::{AsciiStr, json};
use cookbook::values::through_json;
use serde_json::Value;
use std::alloc::{AllocError, Global};

/// The JSON text of a view, the string read back from its value, and a string that was a JSON value.
pub fn ask_json(alloc: Global, source: AsciiStr, answer: &mut Answer) {
    match source.to_json(alloc) {
        Ok(value) => {
            answer.put_result(format!(in alloc; "{value}"));
            answer.put(json::string_from_json(alloc, &value));
        }
        Err(error) => answer.put(error),
    }
    match source.to_ascii_string(alloc) {
        Ok(string) => answer.put(through_json(alloc, &string)),
        Err(error) => answer.put(error),
    }
}

/// The text, its copy and the character that a JSON value has, of a source that is JSON.
pub fn ask_json_value(alloc: Global, source: &[u8], answer: &mut Answer) {
    if let Ok(source) = str::from_utf8(source) {
        match Value::from_str(alloc, source) {
            Ok(value) => {
                answer.put(json::str_from_json(&value));
                answer.put(json::string_from_json(alloc, &value));
                answer.put(json::char_from_json(&value));
            }
            Err(_) => answer.put(AllocError),
        }
    }
}

impl Put for JsonError {
    fn put(self, answer: &mut Answer) {
        match self {
            JsonError::NotText => answer.put("text"),
            JsonError::NotOneByte => answer.put("byte"),
            JsonError::NotAscii(error) => answer.put(("ascii", error)),
            JsonError::Memory => answer.put(AllocError),
        }
    }
}

/// For each ASCII code, the JSON text of its character, and the character read back from its value.
pub fn ask_json_characters(alloc: Global, codes: AsciiStr, answer: &mut Answer) {
    for ch in codes.chars() {
        match json::char_to_json(alloc, ch) {
            Ok(value) => {
                answer.put_result(format!(in alloc; "{value}"));
                answer.put(json::char_from_json(&value).ok());
            }
            Err(error) => answer.put(error),
        }
    }
}
