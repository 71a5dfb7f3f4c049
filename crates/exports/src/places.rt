//! Parts of a text with their places, and lines and columns of positions.

use crate::answer::{Answer, NOTHING, Put};
use crate::steps::Step;
use ascii::classes::Digit;
use ascii::{AsciiChar, AsciiStr};
use ascii_formats::AsciiStrExt;
use ascii_formats::parts::Part;
use ascii_formats::quotes::QuoteError;
use std::alloc::Global;

/// The parts that steps take of a text, each of the part before it, with their places, also for people, and the
/// numbers that they write; or what is put in place of a part that is not there.
pub fn ask_parts(source: AsciiStr, texts: AsciiStr, steps: &[Step], answer: &mut Answer) {
    let mut part = Part::of(source);
    for step in steps {
        match part_by(part, *step, texts) {
            Ok(next) => {
                part = next;
                answer.put(part);
            }
            Err(position) => answer.put(position),
        }
    }
}

impl Put for Part<'_> {
    fn put(self, answer: &mut Answer) {
        answer.put((self.start, self.text(), self.end));
        answer.put((self.len(), self.is_empty()));
        let place = self.line_and_column();
        answer.put((place.line, place.column));
        answer.put(self.to_number::<u8>());
    }
}

/// The part that a step takes. The kind of a step is the index of its call here.
fn part_by<'a>(part: Part<'a>, step: Step, texts: AsciiStr) -> Result<Part<'a>, Option<usize>> {
    let ch = AsciiChar::from_ascii(step.code).ok().unwrap_or_default();
    match step.kind {
        0 => Ok(part.trim()),
        1 | 2 => side(part.split_once(ch), step.kind == 1),
        3 | 4 => side(part_at(part, step.at), step.kind == 3),
        5 => part.strip_prefix(step.text(texts)).ok_or(NOTHING),
        6 | 7 => side(Some(part.span::<Digit>()), step.kind == 6),
        8 | 9 => side(Some(quoted_part(part, ch)?), step.kind == 8),
        10 => part.strip_prefix_char(ch).ok_or(NOTHING),
        11 | 12 => side(part.take_some::<Digit>(), step.kind == 11),
        13 | 14 => side(part.digits(step.at).ok(), step.kind == 13),
        15 => side(part.expect_quoted(ch, ch).ok(), false),
        16 => part.words::<Digit>().nth(step.at).ok_or(NOTHING),
        17 => Ok(part.trim_matches::<Digit>()),
        18 => side(part.take::<Digit>(step.at).ok(), false),
        19 | 20 => side(part.split_once_by::<Digit>(), step.kind == 19),
        21 => part.lines().nth(step.at).ok_or(NOTHING),
        22 => part.split(ch).nth(step.at).ok_or(NOTHING),
        _ => part.expect(ch).ok().ok_or(NOTHING),
    }
}

/// The first or the second of two parts, if they are there.
fn side<'a>(
    parts: Option<(Part<'a>, Part<'a>)>,
    is_first: bool,
) -> Result<Part<'a>, Option<usize>> {
    let (first, second) = parts.ok_or(NOTHING)?;
    Ok(if is_first { first } else { second })
}

fn part_at<'a>(part: Part<'a>, at: usize) -> Option<(Part<'a>, Part<'a>)> {
    if at <= part.len() {
        return Some(part.split_at(at));
    }
    None
}

/// What is between quotes at the start of a part, and what comes after it; or the position at which nothing closes it.
fn quoted_part<'a>(
    part: Part<'a>,
    quote: AsciiChar,
) -> Result<(Part<'a>, Part<'a>), Option<usize>> {
    match part.quoted(quote, AsciiChar::BackSlash) {
        Ok(taken) => Ok(taken),
        Err(QuoteError::NoQuote) => Err(NOTHING),
        Err(QuoteError::NotClosed(position)) => Err(Some(position)),
    }
}

/// The line and the column of a position in a text, what prints them with what is wrong there, and the same of the part
/// from the position on.
pub fn ask_place(alloc: Global, at: usize, source: AsciiStr, answer: &mut Answer) {
    if at <= source.len() {
        let place = source.line_and_column(at);
        answer.put((place.line, place.column));
        let fault = source.fault_at(at, "no '='");
        answer.put_result(format!(in alloc; "{fault}"));
        let (_before, part) = Part::of(source).split_at(at);
        let fault = part.fault("no '='");
        answer.put_result(format!(in alloc; "{part} {part:?} {fault}"));
    }
}
