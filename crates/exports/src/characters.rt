//! Characters: conversions, tests and case.

ghost use Rattle.std.specs.Prelude.{◌<◌, ◌≤◌};

use crate::answer::{Answer, Put};
use ascii::{AsciiChar, AsciiStr, ToAsciiChar, ToAsciiCharError, caret_decode, caret_encode};
use std::alloc::Global;
use std::cmp::Ordering;
use std::collections::HashSet;
use std::hash::Hash;

/// For each number: the character of that number as a `u8`, an `i8`, a `u16`, a `u32` and a `char`.
pub fn ask_characters_of(numbers: &[i64], answer: &mut Answer) {
    for number in numbers {
        let byte = character_of(u8::try_from(*number).ok());
        let signed = character_of(i8::try_from(*number).ok());
        answer.put((byte, signed, character_of(u16::try_from(*number).ok())));
        let number = u32::try_from(*number).ok();
        let ch = char::from_u32(number.unwrap_or(u32::MAX));
        answer.put((character_of(number), character_of(ch)));
    }
}

fn character_of<C: ToAsciiChar + Drop>(number: Option<C>) -> Option<AsciiChar> {
    number?.to_ascii_char().ok()
}

/// For each ASCII code: its class tests, its upper case, lower case and printable character, and its value
/// as a digit.
pub fn ask_characters(codes: AsciiStr, radix: u32, answer: &mut Answer)
    requires radix { radix ≤ 36 }
{
    for ch in codes.chars() {
        let digit = (ch.is_digit(radix), ch.to_digit(radix).unwrap_or(radix));
        answer.put((tests(ch), images(ch), digit));
    }
}

fn tests(ch: AsciiChar) -> [bool; 17] {
    [
        ch.is_alphabetic(),
        ch.is_ascii_alphabetic(),
        ch.is_ascii_digit(),
        ch.is_alphanumeric(),
        ch.is_ascii_alphanumeric(),
        ch.is_lowercase(),
        ch.is_ascii_lowercase(),
        ch.is_uppercase(),
        ch.is_ascii_uppercase(),
        ch.is_ascii_blank(),
        ch.is_whitespace(),
        ch.is_ascii_whitespace(),
        ch.is_ascii_control(),
        ch.is_ascii_graphic(),
        ch.is_ascii_printable(),
        ch.is_ascii_punctuation(),
        ch.is_ascii_hexdigit(),
    ]
}

/// Upper case, lower case, and the character that shows this one.
fn images(ch: AsciiChar) -> (AsciiChar, AsciiChar, u32) {
    let shown = u32::from(ch.as_printable_char());
    (ch.to_ascii_uppercase(), ch.to_ascii_lowercase(), shown)
}

/// For each pair of ASCII codes, one after the other: whether they are equal, ignoring case, and their order, also as what
/// may be missing.
pub fn ask_character_pairs(codes: &[u8], answer: &mut Answer) {
    for pair in codes.chunks(2) {
        if let [first, second] = pair
            && let (Ok(first), Ok(second)) = (first.to_ascii_char(), second.to_ascii_char())
        {
            answer.put(compare(first, second));
        }
    }
}

fn compare(first: AsciiChar, second: AsciiChar) -> (bool, Ordering, bool) {
    let order = first.cmp(&second);
    let is_some = first.partial_cmp(&second) == Some(order);
    (first.eq_ignore_ascii_case(&second), order, is_some)
}

/// For each byte: the character of that number by each call that does not check it, in both cases if they are made in place,
/// and as a byte and a `char`; or, if it is above 127, what the error prints.
pub fn ask_character_conversions(alloc: Global, codes: &[u8], answer: &mut Answer) {
    for code in codes {
        match code.to_ascii_char() {
            Ok(ch) => put_conversions(*code, ch, answer),
            Err(error) => put_error(alloc, error, answer),
        }
    }
}

fn put_error(alloc: Global, error: ToAsciiCharError, answer: &mut Answer) {
    answer.put(error);
    answer.put_result(format!(in alloc; "{error} {error:?}"));
}

impl Put for ToAsciiCharError {
    fn put(self, answer: &mut Answer) {
        answer.put(self.description());
    }
}

fn put_conversions(code: u8, ch: AsciiChar, answer: &mut Answer) {
    if code < 128 {
        put_unchecked(code, answer);
    }
    answer.put((ch.to_ascii_char().ok(), ch.to_ascii_char_unchecked()));
    let mut upper: AsciiChar = ch;
    let mut lower: AsciiChar = ch;
    upper.make_ascii_uppercase();
    lower.make_ascii_lowercase();
    answer.put((upper, lower));
    let number = u32::from(ch.as_char());
    answer.put((u8::from(ch), number, u32::from(char::from(ch))));
}

fn put_unchecked(code: u8, answer: &mut Answer)
    requires { code < 128 }
{
    let of_char = AsciiChar::new(code as char);
    let of_byte = AsciiChar::from_ascii_unchecked(code);
    answer.put((of_char, of_byte, code.to_ascii_char_unchecked()));
    let of_signed = (code as i8).to_ascii_char_unchecked();
    answer.put((of_signed, u16::from(code).to_ascii_char_unchecked()));
    let of_word = u32::from(code).to_ascii_char_unchecked();
    answer.put((of_word, (code as char).to_ascii_char_unchecked()));
}

/// For each ASCII code, whether a set of std lacks the characters before it; and how many are in the set then.
pub fn ask_character_set(alloc: Global, codes: AsciiStr, answer: &mut Answer) {
    let mut seen = HashSet::new(alloc);
    for ch in codes.chars() {
        put_seen(&mut seen, ch, answer);
    }
    answer.put(seen.len());
}

fn put_seen<K: Eq + Hash + Drop>(seen: &mut HashSet<K>, key: K, answer: &mut Answer) {
    answer.put_result(seen.insert(key));
}

/// For each byte: what it is in caret notation, and what it is read as there.
pub fn ask_carets(codes: &[u8], answer: &mut Answer) {
    for code in codes {
        answer.put((caret_encode(*code), caret_decode(*code)));
    }
}
