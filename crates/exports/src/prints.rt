//! Printed texts and characters. The number of a form is its index in `print`.

use crate::answer::{Answer, Made};
use ascii::{AsciiStr, BoxedAsciiStr, CowAsciiStr, RcAsciiStr};
use ascii_keys::FoldedStr;
use ascii_run::SmallAsciiString;
use std::alloc::Global;
use std::fmt;

/// A text in a form: as a view, ignoring case, as a string, as an inline string, in a box, as a shared text, and as a borrowed
/// one.
pub fn ask_printed(alloc: Global, form: u8, source: AsciiStr, answer: &mut Answer) {
    answer.put_result(print(alloc, form, Ok(source)));
    answer.put_result(print(alloc, form, Ok(FoldedStr::new(source))));
    answer.put_result(print(alloc, form, source.to_ascii_string(alloc)));
    let small = SmallAsciiString::from_ascii_str(alloc, source);
    answer.put_result(print(alloc, form, small));
    let boxed = BoxedAsciiStr::from_ascii_str(alloc, source);
    answer.put_result(print(alloc, form, boxed));
    answer.put_result(print(alloc, form, RcAsciiStr::from_ascii_str(alloc, source)));
    answer.put_result(print(alloc, form, Ok(CowAsciiStr::<Global>::from(source))));
}

/// Each of some characters in a form.
pub fn ask_printed_characters(alloc: Global, form: u8, codes: AsciiStr, answer: &mut Answer) {
    for ch in codes.chars() {
        answer.put_result(print(alloc, form, Ok(ch)));
    }
}

fn print<T: fmt::Display + fmt::Debug + Drop>(
    alloc: Global,
    form: u8,
    value: Made<T>,
) -> Made<String> {
    let value = value?;
    match form {
        0 => format!(in alloc; "{value}"),
        1 => format!(in alloc; "{value:?}"),
        2 => format!(in alloc; "{value:7}"),
        3 => format!(in alloc; "{value:>20}"),
        4 => format!(in alloc; "{value:<20}"),
        5 => format!(in alloc; "{value:*^33}"),
        6 => format!(in alloc; "{value:.5}"),
        7 => format!(in alloc; "{value:.0}"),
        8 => format!(in alloc; "{value:10.3}"),
        9 => format!(in alloc; "{value:->12.40}"),
        10 => format!(in alloc; "{value:>5}"),
        _ => format!(in alloc; "{value:^1}"),
    }
}
