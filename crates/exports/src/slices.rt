//! Parts of bytes, texts and views, and characters at a position.

ghost use Rattle.std.specs.Str.{IsAscii};

use crate::answer::Answer;
use crate::steps::Step;
use ascii::{AsciiChar, AsciiRange, AsciiStr, bytes, text};

/// A range in one of the six forms of `AsciiRange`, in their order.
pub(crate) fn range_of(form: u8, start: usize, end: usize) -> AsciiRange {
    match form {
        0 => AsciiRange::Full,
        1 => AsciiRange::From(start),
        2 => AsciiRange::To(end),
        3 => AsciiRange::Range(start, end),
        4 => AsciiRange::Inclusive(start, end),
        _ => AsciiRange::ToInclusive(end),
    }
}

/// The view of a source: of bytes, and of a `str` if they are UTF-8; each by two calls.
pub fn ask_views(source: &[u8], answer: &mut Answer) {
    answer.put((bytes::as_ascii_str(source), bytes::from_ascii(source)));
    if let Ok(source) = str::from_utf8(source) {
        answer.put((text::as_ascii_str(source), text::from_ascii(source)));
    }
}

/// The view of a source by each call that does not check it, as a view, and as bytes and a `str` again; and its length and
/// whether it is empty.
pub fn ask_unchecked_views(source: AsciiStr, answer: &mut Answer) {
    answer.put(bytes::from_ascii_unchecked(source.as_bytes()));
    answer.put(text::as_ascii_str_unchecked(source.as_str()));
    answer.put(text::from_ascii_unchecked(source.as_str()));
    let (text, codes): (&str, &[u8]) = (source.into(), source.into());
    answer.put((source.as_ascii_str(), text, codes));
    answer.put((source.len(), source.is_empty()));
}

/// Whether bytes, and a `str` if they are UTF-8, are those of a text.
pub fn ask_equal_sources(source: AsciiStr, other: &[u8], answer: &mut Answer) {
    answer.put(source.eq_bytes(other));
    if let Ok(other) = str::from_utf8(other) {
        answer.put(source.eq_str(other));
    }
}

/// For each step, whether its range fits the length `at`, and if it does, where it starts and ends there. The code of a step
/// is the form of its range.
pub fn ask_ranges(steps: &[Step], answer: &mut Answer) {
    for step in steps {
        let range = range_of(step.code, step.start, step.end);
        answer.put(range.fits(step.at));
        if range.fits(step.at) {
            answer.put((range.start(), range.end(step.at)));
        }
    }
}

/// Changes bytes to lower case as a mutable view that is not checked, and returns that view.
pub fn ask_unchecked_view_mut(source: &mut [u8], answer: &mut Answer)
    requires { IsAscii source.old }
{
    let mut view = bytes::as_mut_ascii_str_unchecked(source);
    view.make_ascii_lowercase();
    answer.put(view.as_ascii_str());
}

/// Changes bytes to upper case as a mutable view, and returns that view.
pub fn ask_view_mut(source: &mut [u8], answer: &mut Answer) {
    match bytes::as_mut_ascii_str(source) {
        Ok(mut view) => {
            view.make_ascii_uppercase();
            answer.put(view.as_ascii_str());
        }
        Err(error) => answer.put(error),
    }
}

/// The part of a source in a range: as bytes, as a `str` if it is UTF-8, and as a view if it is ASCII.
pub fn ask_slices(form: u8, start: usize, end: usize, source: &[u8], answer: &mut Answer) {
    let range = range_of(form, start, end);
    answer.put(bytes::slice_ascii(source, range));
    if let Ok(source) = str::from_utf8(source) {
        answer.put(text::slice_ascii(source, range));
    }
    if let Ok(view) = bytes::as_ascii_str(source) {
        answer.put(view.slice_ascii(range));
        if range.fits(view.len()) {
            answer.put(view.slice(range));
        }
    }
}

/// Changes the part of a source in a range to lower case, and sets its first character; and returns
/// that part.
pub fn ask_slice_mut(
    form: u8,
    start: usize,
    end: usize,
    first: AsciiChar,
    source: &mut [u8],
    answer: &mut Answer,
) {
    match bytes::slice_ascii_mut(source, range_of(form, start, end)) {
        Ok(mut part) => {
            part.make_ascii_lowercase();
            if 0 < part.as_ascii_str().len() {
                part.set(0, first);
            }
            answer.put(part.as_ascii_str());
        }
        Err(error) => answer.put(error),
    }
}

/// The character at a position: of bytes, of a `str` if they are UTF-8, and of a view if they are ASCII,
/// with its first and last character.
pub fn ask_position(at: usize, source: &[u8], answer: &mut Answer) {
    answer.put(bytes::get_ascii(source, at));
    if let Ok(source) = str::from_utf8(source) {
        answer.put(text::get_ascii(source, at));
    }
    if let Ok(view) = bytes::as_ascii_str(source) {
        answer.put((view.get_ascii(at), view.first(), view.last()));
        if at < view.len() {
            answer.put(view.char_at(at));
        }
    }
}
