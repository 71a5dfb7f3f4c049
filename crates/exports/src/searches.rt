//! Searches and cuts.

use crate::answer::Answer;
use crate::walks::step_forward;
use ascii::{AnyFinder, AsciiChar, AsciiStr, Finder, FinderIgnoringCase};
use ascii_formats::AsciiStrExt;
use std::alloc::Global;

/// The first and the last position of a needle, and the two sides of both; whether the text contains it, starts with it
/// and ends with it, the last two also ignoring case; the text without it at the start and at the end; its first position
/// and whether the text contains it, ignoring case; and how often it occurs.
pub fn ask_find(source: AsciiStr, needle: AsciiStr, answer: &mut Answer) {
    answer.put((source.find(needle), source.rfind(needle)));
    let once = source.split_once_str(needle);
    answer.put((once, source.rsplit_once_str(needle)));
    let (contains, starts) = (source.contains(needle), source.starts_with(needle));
    answer.put((contains, starts, source.ends_with(needle)));
    let without = source.strip_prefix(needle);
    answer.put((without, source.strip_suffix(needle)));
    let without = source.strip_prefix_ignore_ascii_case(needle);
    let contains = source.contains_ignore_ascii_case(needle);
    answer.put((without, source.find_ignore_ascii_case(needle)));
    answer.put((contains, source.count(needle)));
}

/// The first and the last position of a character, and the two sides of each; whether the text starts with it, and the
/// text after it and after any character.
pub fn ask_find_character(on: AsciiChar, source: AsciiStr, answer: &mut Answer) {
    answer.put((source.position(on), source.rposition(on)));
    answer.put((source.split_once(on), source.rsplit_once(on)));
    answer.put((source.starts_with_char(on), source.strip_prefix_char(on)));
    answer.put(source.split_first());
}

/// The needle of a finder, its first position in a text, and whether the text contains it; and the lines that contain it by
/// a script from the front. After that the same of a finder that ignores case.
pub fn ask_finder(source: AsciiStr, needle: AsciiStr, script: &[u8], answer: &mut Answer) {
    let finder = Finder::new(needle);
    answer.put((finder.needle(), finder.find(source), finder.is_in(source)));
    put_lines_with(source, &finder, script, answer);
    let finder = FinderIgnoringCase::new(needle);
    answer.put((finder.needle(), finder.find(source), finder.is_in(source)));
    put_lines_with(source, &finder, script, answer);
}

/// The lines that contain the needle of a finder by a script from the front.
fn put_lines_with<F: AnyFinder>(source: AsciiStr, finder: &F, script: &[u8], answer: &mut Answer) {
    let mut lines = source.lines_with(finder);
    for number in script {
        answer.put(step_forward(&mut lines, *number));
    }
}

/// At most `n` pieces at a character by a script from the front, each with what remains; before them what remains at first.
pub fn ask_splitn(n: usize, on: AsciiChar, source: AsciiStr, script: &[u8], answer: &mut Answer) {
    let mut pieces = source.splitn(n, on);
    answer.put(pieces.remainder());
    for number in script {
        answer.put((step_forward(&mut pieces, *number), pieces.remainder()));
    }
}

/// A text with another one in place of each occurrence of a needle that is not empty.
pub fn ask_replace(
    alloc: Global,
    source: AsciiStr,
    needle: AsciiStr,
    to: AsciiStr,
    answer: &mut Answer,
) {
    if !needle.is_empty() {
        answer.put_result(source.replace(alloc, needle, to));
    }
}
