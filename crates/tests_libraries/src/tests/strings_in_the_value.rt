//! The string of a fixed capacity, and inline strings of another size than 24.
//!
//! Tests with many calls are functions over the buffer, which are called with a fixed or an inline one.

use ascii::{AsciiString, CloneBuffer, NewBuffer, Text};
use ascii_formats::AsciiStringExt;
use ascii_run::buf::Array;
use ascii_run::{Full, Inline, SmallAsciiString};
use std::alloc::{AllocError, Global};
use std::fmt::Write;
use std::process::Abort;
use testing::{ascii, assert_row, view};

/// An inline string of up to 40 characters.
type Label = Text<Inline<40>>;

#[test]
fn cut_copied_and_changed(rt: HostRuntime) {
    changed_over::<Array<8>, HostRuntime>(&rt);
}

fn changed_over<B: NewBuffer<Alloc = (), Refusal = Full> + CloneBuffer, R: Abort>(rt: &R) {
    let mut string = Text::<B>::from_ascii_str((), view("foobar")).expect(rt, "full");
    let copy = string.clone().expect(rt, "refused");
    let tail = string.split_off(3).expect(rt, "full");
    assert_row!(rt; string.as_ascii_str().as_str(), "foo");
    assert_row!(rt; tail.as_ascii_str().as_str(), "bar");
    assert_row!(rt; copy.as_ascii_str().as_str(), "foobar");
    assert!(rt; string > tail && string != copy);
    string.make_ascii_uppercase();
    string.set(1, ascii::AsciiChar::Slash);
    string.retain(|ch| ch != ascii::AsciiChar::F);
    assert_row!(rt; string.as_ascii_str().as_str(), "/O");
    string.make_ascii_lowercase();
    string.truncate(1);
    write!(string, "{}", 17).expect(rt, "full");
    assert_row!(rt; string.as_ascii_str().as_str(), "/17");
}

#[test]
fn forty_characters_are_inline(rt: HostRuntime) {
    let alloc = rt.alloc();
    let text = ascii("abcdefghijabcdefghijabcdefghijabcdefghij");
    let mut label = Label::from_ascii_str(alloc, text).expect(&rt, "refused");
    assert_row!(rt; (label.len(), label.capacity(), label.is_inline()), (40, 40, true));
    assert_row!(rt; label.push(ascii::AsciiChar::k), Ok(()));
    assert!(rt; !label.is_inline() && 41 <= label.capacity());
    assert_row!(rt; label.clone().expect(&rt, "refused").len(), 41);
    assert_row!(rt; label.into_ascii_string().expect(&rt, "refused").len(), 41);
}

#[test]
fn small_strings_have_the_calls_of_the_large(rt: HostRuntime) {
    calls_over::<Inline<24>, HostRuntime>(&rt);
}

fn calls_over<
    B: NewBuffer<Alloc = Global, Refusal = AllocError> + CloneBuffer,
    R: Abort + AllocGlobal,
>(rt: &R) {
    let alloc = rt.alloc();
    let mut string = Text::<B>::with_capacity(alloc, 30).expect(rt, "refused");
    assert!(rt; 30 <= string.capacity() && !string.is_inline());
    assert_row!(rt; string.push_decimal(-17), Ok(()));
    assert_row!(rt; string.extend_chars(view("a-b-c").chars()), Ok(()));
    assert_row!(rt; string.extend_strs(view("d,e").split(ascii::AsciiChar::Comma)), Ok(()));
    assert_row!(rt; string.as_ascii_str().as_str(), "-17a-b-cde");
    string.retain(|ch| ch != ascii::AsciiChar::Minus);
    assert_row!(rt; string.as_ascii_str().as_str(), "17abcde");
    assert_row!(rt; string.reserve_exact(40), Ok(()));
    let tail = string.split_off(2).expect(rt, "refused");
    assert_row!(rt; (tail.as_ascii_str().as_str(), tail.is_inline()), ("abcde", true));
    assert_row!(rt; string.as_ascii_str().as_str(), "17");
    let one = Text::<B>::from_char(alloc, ascii::AsciiChar::a).expect(rt, "refused");
    assert_row!(rt; one.into_chars(alloc).expect(rt, "refused").len(), 1);
    let split = view("b,c").split(ascii::AsciiChar::Comma);
    let joined = Text::<B>::collect_strs(alloc, split).expect(rt, "refused");
    assert_row!(rt; joined.as_ascii_str().as_str(), "bc");
}

#[test]
fn buffers_are_kept_or_copied(rt: HostRuntime) {
    let alloc = rt.alloc();
    let long = AsciiString::from_ascii_str(alloc, ascii("abcdefghijklmnopqrstuvwxyz")).expect(
        &rt, "refused",
    );
    let kept = SmallAsciiString::try_from(Vec::from(long)).expect(&rt, "not ASCII");
    assert_row!(rt; (kept.len(), kept.is_inline()), (26, false));
    let short = AsciiString::from_ascii_str(alloc, view("abc")).expect(&rt, "refused");
    let copied = SmallAsciiString::try_from(String::from(short)).expect(&rt, "not ASCII");
    assert_row!(rt; (copied.len(), copied.capacity(), copied.is_inline()), (3, 24, true));
    let bytes = Vec::from_slice(alloc, b"ab\xc4").expect(&rt, "refused");
    let error = SmallAsciiString::try_from(bytes).map_err(|e| e.ascii_error().valid_up_to());
    assert_row!(rt; error.err(), Some(2));
}
