//! Texts made out of other values and turned into them.

use crate::answer::{Answer, Made, NOTHING, Put};
use ascii::{
    AsciiChar, AsciiStr, AsciiString, BoxedAsciiStr, Buffer, CopyError, FromAsciiError, Text,
    bytes, string, text, vec,
};
use ascii_run::SmallAsciiString;
use std::alloc::{AllocError, Global};
use std::fmt::Write as _;

/// A copy of bytes and of their `str`, the string that has their `Vec` and that which has their `String`;
/// each of them the text, or the position of the error and the source that is returned.
pub fn ask_conversions(alloc: Global, source: &[u8], answer: &mut Answer) {
    answer.put_result(bytes::to_ascii_string(alloc, source));
    match Vec::from_slice(alloc, source) {
        Ok(list) => match vec::into_ascii_string(list) {
            Ok(string) => answer.put(string),
            Err(error) => answer.put((error.ascii_error(), error.into_source().as_slice())),
        },
        Err(error) => answer.put(error),
    }
    if let Ok(source) = str::from_utf8(source) {
        answer.put_result(text::to_ascii_string(alloc, source));
        match String::from_str(alloc, source) {
            Ok(owned) => answer.put(string::into_ascii_string(owned)),
            Err(error) => answer.put(error),
        }
    }
}

/// The position of the error, and the source.
impl<O: Put> Put for FromAsciiError<O> {
    fn put(self, answer: &mut Answer) {
        answer.put((self.ascii_error(), self.into_source()));
    }
}

impl<O: Put> Put for CopyError<O> {
    fn put(self, answer: &mut Answer) {
        match self {
            CopyError::NotAscii(error) => answer.put(error),
            CopyError::Memory(error) => answer.put(error),
        }
    }
}

/// A text after it was turned into lists of bytes and a `String` and back, by a list that is not checked, and by a `str` in a
/// box; a copy of a string and the `String` of it; and a string of the first character.
pub fn ask_round_trips(alloc: Global, source: AsciiStr, answer: &mut Answer) {
    answer.put_result(through_lists(alloc, source));
    match Vec::from_slice(alloc, source.as_bytes()) {
        Ok(list) => answer.put(AsciiString::from_ascii_unchecked(list)),
        Err(error) => answer.put(error),
    }
    answer.put_result(through_boxed_str(alloc, source));
    match source.to_ascii_string(alloc) {
        Ok(string) => {
            answer.put_result(string.clone());
            answer.put(String::from(string));
        }
        Err(error) => answer.put(error),
    }
    if let Some(first) = source.first() {
        answer.put_result(AsciiString::from_char(alloc, first));
    }
}

fn through_lists(alloc: Global, view: AsciiStr) -> Made<AsciiString> {
    let list: Vec<u8> = view.to_ascii_string(alloc)?.into();
    let string = vec::from_ascii(list).ok().ok_or(AllocError)?;
    let text: String = string.into();
    let string = string::from_ascii(text).ok().ok_or(AllocError)?;
    let list: Vec<u8> = string.into();
    vec::into_ascii_string(list).ok().ok_or(AllocError)
}

fn through_boxed_str(alloc: Global, view: AsciiStr) -> Made<AsciiString> {
    let text = BoxedAsciiStr::from_ascii_str(alloc, view)?.into_boxed_str();
    text::to_ascii_string(alloc, text.as_str())
        .ok()
        .ok_or(AllocError)
}

/// Whether a piece was written to a text, and the text after that; as a string and as an inline string.
pub fn ask_written(alloc: Global, source: AsciiStr, piece: &[u8], answer: &mut Answer) {
    if let Ok(piece) = str::from_utf8(piece) {
        answer.put_result(written(source.to_ascii_string(alloc), piece));
        let small = SmallAsciiString::from_ascii_str(alloc, source);
        answer.put_result(written(small, piece));
    }
}

fn written<B: Buffer>(made: Made<Text<B>>, piece: &str) -> Made<(bool, Text<B>)> {
    let mut string = made?;
    Ok((string.write_str(piece).is_ok(), string))
}

/// Whether a character was written to a text, by its number, and the text after that.
pub fn ask_character_written(alloc: Global, number: u32, source: AsciiStr, answer: &mut Answer) {
    match (source.to_ascii_string(alloc), char::from_u32(number)) {
        (Ok(mut string), Some(ch)) => answer.put((string.write_char(ch).is_ok(), string)),
        (Ok(_), None) => answer.put(NOTHING),
        (Err(error), _) => answer.put(error),
    }
}

/// The pieces at a character collected into one string; and whether the lines are appended to another text, and it then.
pub fn ask_collected(
    alloc: Global,
    on: AsciiChar,
    source: AsciiStr,
    first: AsciiStr,
    answer: &mut Answer,
) {
    answer.put_result(AsciiString::collect_strs(alloc, source.split(on)));
    let Ok(mut string) = first.to_ascii_string(alloc) else {
        return answer.put(AllocError);
    };
    answer.put((string.extend_strs(source.lines()).is_ok(), string));
}

/// The two parts of a string and of a view that are cut at a position.
pub fn ask_split_off(alloc: Global, at: usize, source: AsciiStr, answer: &mut Answer) {
    let Ok(mut string) = source.to_ascii_string(alloc) else {
        return answer.put(AllocError);
    };
    if at <= string.len() {
        answer.put_result(string.split_off(at));
        answer.put((string, source.split_at(at)));
    }
}
