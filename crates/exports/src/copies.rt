//! Copies, conversions and growths: what each leaves, and `!` before that if its allocation failed.

use crate::answer::{Answer, Made, Put};
use crate::edits::commands;
use crate::steps::Step;
use ascii::{
    AsciiChar, AsciiRange, AsciiStr, AsciiString, BoxedAsciiStr, Buffer, CloneBuffer, CowAsciiStr,
    RcAsciiStr, Text,
};
use ascii_formats::AsciiStringExt;
use ascii_run::{ArrayAsciiString, BothRuns, SmallAsciiString, run_both};
use std::alloc::{AllocError, Global};
use std::fmt::{Alignment, Write as _};

/// Copies of a text: its characters collected, those of a list of them, a box, a shared text and its clone, and an inline
/// string and its clone.
pub fn ask_copies(alloc: Global, source: AsciiStr, answer: &mut Answer) {
    answer.put_result(AsciiString::collect_chars(alloc, source.chars()));
    answer.put_result(through_list(alloc, source));
    answer.put_result(BoxedAsciiStr::from_ascii_str(alloc, source));
    answer.put_result(shared_clone(alloc, source));
    put_with_clone(SmallAsciiString::from_ascii_str(alloc, source), answer);
}

fn put_with_clone<B: CloneBuffer>(made: Made<Text<B>>, answer: &mut Answer) {
    let Ok(string) = made else {
        return answer.put(AllocError);
    };
    answer.put(string.clone().map_err(|_| AllocError));
    answer.put(string);
}

fn through_list(alloc: Global, view: AsciiStr) -> Made<AsciiString> {
    let chars = view.to_chars(alloc)?;
    AsciiString::from_chars(alloc, &chars)
}

fn shared_clone(alloc: Global, view: AsciiStr) -> Made<RcAsciiStr> {
    RcAsciiStr::from_ascii_str(alloc, view)?.clone()
}

/// A text after each conversion that returns its source if an allocation fails: a list of characters, a shared text, an
/// owned text of a borrowed and of an owned one, a box and back, and a string of an inline one.
pub fn ask_turned(alloc: Global, source: AsciiStr, answer: &mut Answer) {
    let string = source.to_ascii_string(alloc);
    answer.put_result(string.map(|it| it.into_chars(alloc).map_err(returned)));
    let string = source.to_ascii_string(alloc);
    answer.put_result(string.map(|it| it.into_rc_ascii_str(alloc).map_err(returned)));
    let borrowed = CowAsciiStr::from(source);
    answer.put(borrowed.into_owned(alloc).map_err(returned));
    let string = source.to_ascii_string(alloc);
    answer.put_result(string.map(|it| CowAsciiStr::from(it).into_owned(alloc).map_err(returned)));
    let string = source.to_ascii_string(alloc);
    answer.put_result(string.map(|it| it.into_boxed_ascii_str().map(from_box).map_err(returned)));
    let small = SmallAsciiString::from_ascii_str(alloc, source);
    answer.put_result(small.map(from_small));
}

fn from_box(boxed: BoxedAsciiStr) -> Result<AsciiString, (AllocError, BoxedAsciiStr)> {
    boxed.into_ascii_string().map_err(returned)
}

fn from_small(small: SmallAsciiString) -> Result<AsciiString, (AllocError, SmallAsciiString)> {
    small.into_ascii_string().map_err(returned)
}

/// A source that is returned, after an allocation that failed.
fn returned<T>(source: T) -> (AllocError, T) {
    (AllocError, source)
}

impl Put for CowAsciiStr<'_> {
    fn put(self, answer: &mut Answer) {
        answer.put(self.as_ascii_str());
    }
}

/// Whether an empty string that was created with room for `capacity` characters is extended by those of a text, the text
/// after that, and whether it fills the capacity; and a string of the same characters.
pub fn ask_extended(alloc: Global, capacity: usize, source: AsciiStr, answer: &mut Answer) {
    match AsciiString::with_capacity(alloc, capacity) {
        Ok(mut string) => {
            answer.put(string.extend_chars(source.chars()).is_ok());
            answer.put((string.as_ascii_str(), string.len() == string.capacity()));
        }
        Err(error) => answer.put(error),
    }
    answer.put_result(AsciiString::collect_chars(alloc, source.into_iter()));
}

/// For each edit by which a string grows: whether a copy of a text is edited, the text after that, whether a character is
/// then appended, and the text after that. The copy is a string for form 0, an inline string for form 1, and otherwise a
/// string of a fixed capacity of 100.
pub fn ask_growths(alloc: Global, form: u8, source: AsciiStr, answer: &mut Answer) {
    for number in 0..13 {
        match form {
            0 => put_growth(source.to_ascii_string(alloc), number, answer),
            1 => put_growth(
                SmallAsciiString::from_ascii_str(alloc, source),
                number,
                answer,
            ),
            _ => put_array_growth(source, number, answer),
        }
    }
}

fn put_array_growth(source: AsciiStr, number: u8, answer: &mut Answer) {
    let array = ArrayAsciiString::<100>::from_ascii_str((), source);
    put_growth(array.map_err(|_| AllocError), number, answer);
}

fn put_growth<B: Buffer>(made: Made<Text<B>>, number: u8, answer: &mut Answer) {
    let Ok(mut string) = made else {
        return answer.put(AllocError);
    };
    answer.put((grow(&mut string, number), string.as_ascii_str()));
    answer.put((string.push(AsciiChar::z).is_ok(), string));
}

/// Edits a string, and returns whether there was memory for that.
fn grow<B: Buffer>(string: &mut Text<B>, number: u8) -> bool {
    match number {
        0..7 => edit(string, number).is_ok(),
        7 => string
            .replace_range(AsciiRange::To(0), AsciiStr::literal("ww"))
            .is_ok(),
        8 => string
            .extend_strs(AsciiStr::literal("ww").split(AsciiChar::Comma))
            .is_ok(),
        9 => string.write_str("yy").is_ok(),
        10 => string.write_char('y').is_ok(),
        11 if string.len() <= 100 => string.reserve(100).is_ok(),
        12 if string.len() <= 100 => string.reserve_exact(100).is_ok(),
        _ => true,
    }
}

fn edit<B: Buffer>(string: &mut Text<B>, number: u8) -> Result<(), B::Refusal> {
    let two = AsciiStr::literal("ww");
    match number {
        0 => string.push(AsciiChar::y),
        1 => string.push_str(two),
        2 => string.push_decimal(42u64),
        3 => string.push_padded(AsciiStr::literal("y"), 2, AsciiChar::x, Alignment::Right),
        4 => string.push_hex(10, 2),
        5 => string.insert(0, AsciiChar::w),
        _ => string.insert_str(0, two),
    }
}

/// Whether two texts with `-` between them are written to a third one, and the text after that.
pub fn ask_formatted(
    alloc: Global,
    source: AsciiStr,
    first: AsciiStr,
    second: AsciiStr,
    answer: &mut Answer,
) {
    let Ok(mut string) = source.to_ascii_string(alloc) else {
        return answer.put(AllocError);
    };
    answer.put((write!(string, "{}-{}", first, second).is_ok(), string));
}

/// The replies to commands and the text after them, of a string and of an inline string that are run by one call.
pub fn ask_both_runs(
    alloc: Global,
    source: AsciiStr,
    texts: AsciiStr,
    steps: &[Step],
    answer: &mut Answer,
) {
    match commands(alloc, texts, steps) {
        Ok(cmds) => answer.put_result(run_both(alloc, source, &cmds)),
        Err(error) => answer.put(error),
    }
}

impl Put for BothRuns {
    fn put(self, answer: &mut Answer) {
        answer.put((self.replies, self.string));
        answer.put((self.small_replies, self.small));
    }
}
