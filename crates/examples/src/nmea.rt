//! Prints the position of each GGA sentence of the input, or the place of what is at fault in it. A class of one's own
//! has the characters of a payload.
#![tactic(auto)]

ghost use Rattle.std.specs.Prelude.{◌≡◌, ◌≤◌, IfErr, IfOk, Some};
ghost use Rattle.std.specs.Int.{IsInRange};
ghost use Rattle.std.proofs.Common.{rules};
ghost use Rattle.ascii.specs.Trim.{IsSpan};
ghost use Rattle.ascii.specs.View.{text_of};
ghost use Rattle.ascii_formats.specs.Parts.{part_text};
ghost use Rattle.examples.specs.Sentence.{FindsField, HasBody, HasDecimal, IsFaultIn, ReportsFix};
ghost use Rattle.examples.specs.Sentence.{xor_of};

use ascii::classes::{ByRanges, Ranges};
use ascii::{AsciiChar, AsciiStr, text};
use ascii_formats::AsciiStrExt;
use ascii_formats::decimals::Decimal;
use ascii_formats::parts::Part;
use std::io::{self, Read};
use thiserror::Error;

/// Why a line has no position: the part at fault, and what is wrong with it.
#[derive(Clone, Copy)]
pub struct FixError<'a>(pub Part<'a>, pub What);

/// What is wrong with a line, the body of a sentence or a field, which is named by its index, counted from 0.
#[derive(Clone, Copy, Debug, Error)]
pub enum What {
    #[error("not a sentence")]
    NoSentence,
    #[error("the checksum is {0:02X}")]
    WrongChecksum(u8),
    #[error("not a GGA sentence")]
    OtherSentence,
    #[error("there is no field {0}")]
    NoField(usize),
    #[error("field {0} is at fault")]
    Field(usize),
}

/// A position.
#[derive(Clone, Copy)]
pub struct Fix {
    pub latitude: Decimal,
    pub north: bool,
    pub longitude: Decimal,
    pub east: bool,
    pub quality: u8,
    pub altitude: Decimal,
}

/// Returns the position of a GGA sentence, or an error with the part at fault.
pub fn read_fix<'a>(line: Part<'a>) -> Result<Fix, FixError<'a>>
    ensures fix { IfOk result (ReportsFix (part_text line.entry)) }
    ensures fault { IfErr result (IsFaultIn line.entry) }
{
    let body = checked_body(line)?;
    if !field(body, 0)?.text().ends_with(AsciiStr::literal("GGA")) {
        return Err(FixError(line, What::OtherSentence));
    }
    Ok(Fix {
        latitude: decimal_in(body, 2)?,
        north: letter_in(body, 3, "N", "S")?,
        longitude: decimal_in(body, 4)?,
        east: letter_in(body, 5, "E", "W")?,
        quality: quality_in(body, 6)?,
        altitude: decimal_in(body, 9)?,
    })
}

/// Returns the part between `$` and `*hh`, if `hh` is its checksum.
fn checked_body<'a>(line: Part<'a>) -> Result<Part<'a>, FixError<'a>>
    ensures body { IfOk result (HasBody line.entry) }
    ensures fault { IfErr result (IsFaultIn line.entry) }
{
    let missing = FixError(line, What::NoSentence);
    let rest = line.strip_prefix_char(AsciiChar::Dollar).ok_or(missing)?;
    let (body, digits) = rest.split_once(AsciiChar::Asterisk).ok_or(missing)?;
    let Ok(sum) = digits.text().to_number_radix::<u8>(16) else {
        return Err(missing);
    };
    match checksum(body.text()) {
        _ if digits.len() != 2 => Err(missing),
        right if right == sum => Ok(body),
        right => Err(FixError(line, What::WrongChecksum(right))),
    }
}

/// Returns the exclusive or of the codes.
fn checksum(body: AsciiStr<'_>) -> u8
    ensures { result ≡ xor_of (text_of body.entry) }
{
    body.as_bytes().iter().fold(0, |sum, byte| sum ^ *byte)
}

/// Returns the field at the index, counted from 0, or an error if there is none.
fn field<'a>(body: Part<'a>, index: usize) -> Result<Part<'a>, FixError<'a>>
    ensures field { IfOk result (λ field. FindsField body.entry index (Some field)) }
    ensures fault { (line : Part) → HasBody line body.entry → IfErr result (IsFaultIn line) }
{
    match body.split(AsciiChar::Comma).nth(index) {
        Some(field) => Ok(field),
        None => Err(FixError(body, What::NoField(index))),
    }
}

/// Returns the number in a field.
#[tactic(auto, using(crate::proofs::SentenceLemmas::field_text, crate::proofs::SentenceLemmas::at_fault))]
fn decimal_in<'a>(body: Part<'a>, index: usize) -> Result<Decimal, FixError<'a>>
    ensures number { IfOk result (HasDecimal (part_text body.entry) index) }
    ensures fault { (line : Part) → HasBody line body.entry → IfErr result (IsFaultIn line) }
{
    let part = field(body, index)?;
    match part.text().to_decimal() {
        Ok(number) => Ok(number),
        Err(_) => Err(FixError(part, What::Field(index))),
    }
}

/// Returns the quality of the position in a field.
#[tactic(auto, using(crate::proofs::SentenceLemmas::at_fault))]
fn quality_in<'a>(body: Part<'a>, index: usize) -> Result<u8, FixError<'a>>
    ensures fault { (line : Part) → HasBody line body.entry → IfErr result (IsFaultIn line) }
{
    let part = field(body, index)?;
    match part.to_number::<u8>() {
        Ok(quality) => Ok(quality),
        Err(_) => Err(FixError(part, What::Field(index))),
    }
}

/// Returns whether a field has the first of two letters.
#[tactic(auto, using(crate::proofs::SentenceLemmas::at_fault))]
fn letter_in<'a>(body: Part<'a>, index: usize, yes: &str, no: &str) -> Result<bool, FixError<'a>>
    ensures fault { (line : Part) → HasBody line body.entry → IfErr result (IsFaultIn line) }
{
    let part = field(body, index)?;
    match part.text() {
        letter if letter.eq_str(yes) => Ok(true),
        letter if letter.eq_str(no) => Ok(false),
        _ => Err(FixError(part, What::Field(index))),
    }
}

pub struct PayloadRanges;

const PAYLOAD: [(u8, u8); 1] = [(b'0', b'w')];

impl Ranges for PayloadRanges {
    ghost use Rattle.examples.specs.declared.nmea.TheConstants.{PAYLOAD};

    ghost set = { IsInRange 48 119 };

    ghost list = { PAYLOAD };

    ghost matches = { λ n. Prim.search rules };

    fn ranges() -> &'static [(u8, u8)] {
        &PAYLOAD
    }
}

/// The characters from `0` to `w`.
pub type Payload = ByRanges<PayloadRanges>;

/// Returns the payload at the start of a text, and the rest.
pub fn payload_of<'a>(text: AsciiStr<'a>) -> (AsciiStr<'a>, AsciiStr<'a>)
    ensures { IsSpan (IsInRange 48 119) (text_of text.entry) (text_of result.0) (text_of result.1) }
{
    text.span::<Payload>()
}

pub fn main(rt: HostRuntime) -> io::Result<()> {
    let mut source = String::new(rt.alloc());
    rt.stdin().read_to_string(&mut source)?;
    let view = match text::as_ascii_str(source.as_str()) {
        Ok(view) => view,
        Err(error) => return println!(rt; "{error}"),
    };
    for line in Part::of(view).lines() {
        match read_fix(line) {
            Ok(fix) => show_fix(&rt, fix)?,
            Err(error) => show_error(&rt, line, error)?,
        }
    }
    Ok(())
}

/// Prints a position.
fn show_fix(rt: &HostRuntime, fix: Fix) -> io::Result<()> {
    println!(rt;
        "{}{} {}{} at {} m, quality {}",
        fix.latitude,
        if fix.north { 'N' } else { 'S' },
        fix.longitude,
        if fix.east { 'E' } else { 'W' },
        fix.altitude,
        fix.quality
    )
}

/// Prints the payload of a line that is not a sentence, or what is at fault in a sentence.
fn show_error(rt: &HostRuntime, line: Part<'_>, error: FixError<'_>) -> io::Result<()> {
    match error {
        FixError(_, What::NoSentence) => println!(rt; "payload {}", payload_of(line.text()).0),
        FixError(part, what) => println!(rt; "{}", part.fault(what)),
    }
}
