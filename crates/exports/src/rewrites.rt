//! Texts that are written in another form, read back, joined, repeated and filled up, and edits of a range.

use crate::answer::{Answer, NOTHING, Put};
use crate::slices::range_of;
use crate::walks::step;
use ascii::{AsciiChar, AsciiStr, AsciiString};
use ascii_formats::notations::{Caret, EscapeAscii, Notation, Written};
use ascii_formats::quotes::QuoteError;
use ascii_formats::unescape::UnescapeError;
use ascii_formats::{AsciiStrExt, AsciiStringExt};
use std::alloc::{AllocError, Global};
use std::fmt::Alignment;

/// The characters by a script that represent those of a text: with escapes for form 0, otherwise in caret notation. Then
/// the others as they are printed to a width, and from the back.
pub fn ask_notation(alloc: Global, form: u8, source: AsciiStr, script: &[u8], answer: &mut Answer) {
    match form {
        0 => put_written(alloc, EscapeAscii::new(source), script, answer),
        _ => put_written(alloc, Caret::new(source), script, answer),
    }
}

fn put_written<N: Notation>(
    alloc: Global,
    written: Written<'_, N>,
    script: &[u8],
    answer: &mut Answer,
) {
    let mut written = written;
    for number in script {
        answer.put(step(&mut written, *number));
    }
    answer.put_result(format!(in alloc; "{written:>6}"));
    answer.put_result(AsciiString::collect_chars(alloc, written.rev()));
}

/// The text that a text with escapes represents, or the position of the error.
pub fn ask_unescaped(alloc: Global, source: AsciiStr, answer: &mut Answer) {
    answer.put_result(source.unescape(alloc));
}

impl Put for UnescapeError {
    fn put(self, answer: &mut Answer) {
        match self {
            UnescapeError::Invalid(position) => answer.put(("invalid", position)),
            UnescapeError::NotAscii(position) => answer.put(("ascii", position)),
            UnescapeError::Memory => answer.put(AllocError),
        }
    }
}

/// The text between the quotes at the start of a text, and what comes after it.
pub fn ask_quoted(quote: AsciiChar, escape: AsciiChar, source: AsciiStr, answer: &mut Answer) {
    answer.put(source.take_quoted(quote, escape));
}

/// A text with another one appended in quotes, and what the other one represents between quotes.
pub fn ask_requoted(
    alloc: Global,
    quote: AsciiChar,
    escape: AsciiChar,
    source: AsciiStr,
    piece: AsciiStr,
    answer: &mut Answer,
) {
    answer.put_result(piece.unquote(alloc, escape));
    let Ok(mut string) = source.to_ascii_string(alloc) else {
        return answer.put(AllocError);
    };
    answer.put((string.push_quoted(piece, quote, escape).is_ok(), string));
}

/// The position of a quote that is not closed.
impl Put for QuoteError {
    fn put(self, answer: &mut Answer) {
        match self {
            QuoteError::NoQuote => answer.put(NOTHING),
            QuoteError::NotClosed(position) => answer.put(position),
        }
    }
}

/// The pieces at a character, with a text between each two.
pub fn ask_joined(
    alloc: Global,
    on: AsciiChar,
    source: AsciiStr,
    separator: AsciiStr,
    answer: &mut Answer,
) {
    answer.put_result(AsciiString::collect_joined(alloc, source.split(on), separator));
}

/// Some copies of a text, one after the other.
pub fn ask_repeated(alloc: Global, times: usize, source: AsciiStr, answer: &mut Answer) {
    answer.put_result(source.repeat(alloc, times));
}

/// A text with another one appended, filled up to a width: on the right for form 0, on the left for form 1, and otherwise
/// on both sides.
pub fn ask_padded(
    alloc: Global,
    form: u8,
    fill: AsciiChar,
    width: usize,
    source: AsciiStr,
    piece: AsciiStr,
    answer: &mut Answer,
) {
    let align = match form {
        0 => Alignment::Left,
        1 => Alignment::Right,
        _ => Alignment::Center,
    };
    let Ok(mut string) = source.to_ascii_string(alloc) else {
        return answer.put(AllocError);
    };
    answer.put(string.push_padded(piece, width, fill, align).is_ok());
    answer.put(string);
}

/// A string without the part in a range, and a string with another text in place of that part. `range_of` says what the
/// form stands for.
pub fn ask_range_edits(
    alloc: Global,
    form: u8,
    start: usize,
    end: usize,
    source: AsciiStr,
    piece: AsciiStr,
    answer: &mut Answer,
) {
    let range = range_of(form, start, end);
    let Ok(mut replaced) = source.to_ascii_string(alloc) else {
        return answer.put(AllocError);
    };
    if range.fits(replaced.len()) {
        answer.put((replaced.replace_range(range, piece).is_ok(), replaced));
    }
}
