//! Calls that bench/ measures, for a driver that is not Rattle. Each processes all of its bytes in one
//! call, so that what is measured is the loop and not the way into the library.

ghost use Rattle.std.specs.Prelude.{◌≡◌, ◌↔◌, ℕ, IsTrue, List, length, map};
ghost use Rattle.std.specs.Str.{IsAscii};
ghost use Rattle.ascii.specs.Case.{lower_image, upper_image};
ghost use Rattle.ascii.specs.Class.{IsWhitespace};
ghost use Rattle.ascii.specs.Trim.{Trims};

use ascii::{AsciiChar, AsciiStr, AsciiString, bytes};
use ascii_formats::AsciiStrExt;
use ascii_keys::FoldedStr;
use ascii_lines::{Endings, LineReader, LineWriter};
use ascii_run::{AsciiBuf, Input, Output, SmallAsciiString};
use std::alloc::{AllocError, Global};
use std::io;

/// Whether all bytes are ASCII.
pub fn bench_accept(source: &[u8]) -> bool
    ensures { IsTrue result ↔ IsAscii source.now }
{
    bytes::as_ascii_str(source).is_ok()
}

/// Changes the letters of a text to upper case.
pub fn bench_upper(source: &mut [u8])
    requires { IsAscii source.old }
    ensures { source.new ≡ map upper_image source.old }
{
    bytes::as_mut_ascii_str_unchecked(source).make_ascii_uppercase();
}

/// Whether two texts are equal, ignoring ASCII case.
pub fn bench_equal(first: &[u8], second: &[u8]) -> bool
    requires first { IsAscii first.now }
    requires second { IsAscii second.now }
    ensures { IsTrue result ↔ (map lower_image first.now ≡ map lower_image second.now) }
{
    bytes::as_ascii_str_unchecked(first).eq_ignore_ascii_case(bytes::as_ascii_str_unchecked(second))
}

/// The length of a text without the whitespace at its ends.
pub fn bench_trim(source: &[u8]) -> usize
    requires { IsAscii source.now }
    ensures { (trimmed : List ℕ) × Trims IsWhitespace source.now trimmed
        × (result ≡ length trimmed) }
{
    bytes::as_ascii_str_unchecked(source).trim().len()
}

/// The lengths of the lines of a text, mixed in the order in which they are met.
pub fn bench_lines(source: &[u8], from_back: bool) -> usize
    requires { IsAscii source.now }
{
    let view = bytes::as_ascii_str_unchecked(source);
    let mut sum: usize = 0;
    if from_back {
        for line in view.lines().rev() {
            sum = mixed(sum, line.len());
        }
    } else {
        for line in view.lines() {
            sum = mixed(sum, line.len());
        }
    }
    sum
}

/// The lengths of the lines of an input, mixed in their order, read through a buffer of 64 KiB; 0 if a
/// line is rejected or an allocation fails. If it is strict, each line has to end in CR LF.
pub fn bench_read_lines(alloc: Global, source: &[u8], is_strict: bool) -> usize {
    let endings = if is_strict {
        Endings::CrLfStrict
    } else {
        Endings::Any
    };
    let Ok(reader) = LineReader::new(alloc, Input::new(source), 65_536, endings) else {
        return 0;
    };
    let mut reader = reader;
    let mut sum: usize = 0;
    for _ in 0..u64::MAX {
        match reader.next_line() {
            Ok(Some(line)) => sum = mixed(sum, line.text.len()),
            Ok(None) => return sum,
            Err(_) => return 0,
        }
    }
    sum
}

/// The lengths of the lines of an input, mixed in their order, each written again through a buffer of
/// 64 KiB to an output that drops it; 0 if a line is rejected or an allocation fails.
pub fn bench_echo_lines(alloc: Global, source: &[u8]) -> usize {
    let Ok(reader) = LineReader::new(alloc, Input::new(source), 65_536, Endings::Any) else {
        return 0;
    };
    let Ok(writer) = LineWriter::new(alloc, Output::new(io::sink()), 65_536) else {
        return 0;
    };
    let (mut reader, mut writer) = (reader, writer);
    let mut sum: usize = 0;
    for _ in 0..u64::MAX {
        match reader.next_line() {
            Ok(Some(line)) => {
                sum = mixed(sum, line.text.len());
                if writer.write_line(line.text, line.ending).is_err() {
                    return 0;
                }
            }
            Ok(None) => break,
            Err(_) => return 0,
        }
    }
    if writer.flush().is_ok() { sum } else { 0 }
}

/// The lengths of the pieces of a text between commas, mixed in their order.
pub fn bench_split(source: &[u8]) -> usize
    requires { IsAscii source.now }
{
    let mut sum: usize = 0;
    for piece in bytes::as_ascii_str_unchecked(source).split(AsciiChar::Comma) {
        sum = mixed(sum, piece.len());
    }
    sum
}

/// The position of the first `needle` in a text, or the length of the text if there is none.
pub fn bench_find(source: &[u8], needle: &[u8]) -> usize
    requires source { IsAscii source.now }
    requires needle { IsAscii needle.now }
{
    let view = bytes::as_ascii_str_unchecked(source);
    view.find(bytes::as_ascii_str_unchecked(needle))
        .unwrap_or(source.len())
}

/// The position of the first percent sign in a text, or the length of the text if there is none.
pub fn bench_position(source: &[u8]) -> usize
    requires { IsAscii source.now }
{
    bytes::as_ascii_str_unchecked(source)
        .position(AsciiChar::Percent)
        .unwrap_or(source.len())
}

/// The lengths of the two sides of the first colon of a text, mixed, or 0 if there is none.
pub fn bench_split_once(source: &[u8]) -> usize
    requires { IsAscii source.now }
{
    match bytes::as_ascii_str_unchecked(source).split_once(AsciiChar::Colon) {
        Some((before, after)) => mixed(before.len(), after.len()),
        None => 0,
    }
}

/// The lengths of the words of a text, mixed in their order.
pub fn bench_words(source: &[u8]) -> usize
    requires { IsAscii source.now }
{
    let mut sum: usize = 0;
    for word in bytes::as_ascii_str_unchecked(source).split_whitespace() {
        sum = mixed(sum, word.len());
    }
    sum
}

/// The number that the digits of a text write, or 0 if they write none.
pub fn bench_number(source: &[u8]) -> usize
    requires { IsAscii source.now }
{
    bytes::as_ascii_str_unchecked(source)
        .to_number::<usize>()
        .unwrap_or(0)
}

/// Whether two texts are equal as `FoldedStr`s.
pub fn bench_folded(first: &[u8], second: &[u8]) -> bool
    requires first { IsAscii first.now }
    requires second { IsAscii second.now }
{
    FoldedStr::new(bytes::as_ascii_str_unchecked(first))
        == FoldedStr::new(bytes::as_ascii_str_unchecked(second))
}

/// The sum of the codes of a text.
pub fn bench_chars(source: &[u8]) -> usize
    requires { IsAscii source.now }
{
    let mut sum: usize = 0;
    for ch in bytes::as_ascii_str_unchecked(source).chars() {
        sum = sum.wrapping_add(ch.as_byte() as usize);
    }
    sum
}

/// A text made of the characters of another, in upper case: its mark, or 0 if the allocation fails.
pub fn bench_collect(alloc: Global, source: &[u8]) -> usize
    requires { IsAscii source.now }
{
    let chars = bytes::as_ascii_str_unchecked(source).chars();
    match AsciiString::collect_chars(alloc, chars.map(|ch| ch.to_ascii_uppercase())) {
        Ok(string) => mark(string.as_ascii_str()),
        Err(_) => 0,
    }
}

/// A text to which the characters of another are pushed one by one, on the heap or inline while it is
/// short: its mark, or 0 if the allocation fails.
pub fn bench_push(alloc: Global, source: &[u8], inline: bool) -> usize
    requires { IsAscii source.now }
{
    let view = bytes::as_ascii_str_unchecked(source);
    if inline {
        pushed(SmallAsciiString::new(alloc), view)
    } else {
        pushed(AsciiString::new(alloc), view)
    }
}

/// A copy of a text, created and dropped, on the heap or inline while it is short: its mark, or 0 if the
/// allocation fails.
pub fn bench_build(alloc: Global, source: &[u8], inline: bool) -> usize
    requires { IsAscii source.now }
{
    let view = bytes::as_ascii_str_unchecked(source);
    if inline {
        SmallAsciiString::from_ascii_str(alloc, view).map_or(0, |made| mark(made.as_ascii_str()))
    } else {
        view.to_ascii_string(alloc)
            .map_or(0, |made| mark(made.as_ascii_str()))
    }
}

/// Copies in lower case of the pieces of a text between commas, each created and dropped in turn, on the
/// heap or inline while it is short: their marks, mixed, with 0 if an allocation fails.
pub fn bench_names(alloc: Global, source: &[u8], inline: bool) -> usize
    requires { IsAscii source.now }
{
    let pieces = bytes::as_ascii_str_unchecked(source).split(AsciiChar::Comma);
    let mut sum: usize = 0;
    if inline {
        for piece in pieces {
            sum = mixed(sum, lowered(SmallAsciiString::from_ascii_str(alloc, piece)));
        }
    } else {
        for piece in pieces {
            sum = mixed(sum, lowered(piece.to_ascii_string(alloc)));
        }
    }
    sum
}

/// The mark of a text with the characters of a view appended, or 0 if the allocation fails.
#[inline(always)]
fn pushed<B: AsciiBuf + Drop>(buf: B, view: AsciiStr<'_>) -> usize {
    let mut buf = buf;
    for ch in view.chars() {
        if buf.push(ch).is_err() {
            return 0;
        }
    }
    mark(buf.as_ascii_str())
}

/// The mark of a text in lower case, or 0 if its allocation failed.
#[inline(always)]
fn lowered<B: AsciiBuf + Drop>(made: Result<B, AllocError>) -> usize {
    match made {
        Ok(buf) => {
            let mut buf = buf;
            buf.make_ascii_lowercase();
            mark(buf.as_ascii_str())
        }
        Err(_) => 0,
    }
}

/// The length and the last code of a text in one number, for which the whole text has to be made.
#[inline(always)]
pub(crate) fn mark(view: AsciiStr<'_>) -> usize {
    let last = view.last().map_or(0, |ch| ch.as_byte());
    view.len().wrapping_mul(128).wrapping_add(last as usize)
}

/// A sum with one number more, in which the order counts.
#[inline(always)]
pub(crate) fn mixed(sum: usize, number: usize) -> usize {
    sum.wrapping_mul(31).wrapping_add(number)
}
