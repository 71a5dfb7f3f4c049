//! Prints what each line of a log in the form of RFC 5424 says, or the column at which it is at fault.
#![tactic(auto)]

ghost use Rattle.std.specs.Prelude.{IfOk, MatchResult};
ghost use Rattle.std.proofs.Common.{rules};
ghost use Rattle.ascii.specs.View.{text_of};
ghost use Rattle.ascii_formats.specs.Parts.{IsErrorIn, part_text};
ghost use Rattle.examples.specs.Log.{AreElements, IsElement, IsInstant, IsMessage, IsNumber};
ghost use Rattle.examples.specs.Log.{IsParam, Takes, data_text, element_text, param_text};

use ascii::classes::{ByRanges, Digit, Graphic, Ranges};
use ascii::{AsciiChar, AsciiStr, text};
use ascii_formats::AsciiStrExt;
use ascii_formats::parts::{Expected, ParseError, Part, Taken};
use jiff::Timestamp;
use std::alloc::Global;
use std::io::{self, Read};

/// A parameter of an element; its value with the escapes as they are written.
#[derive(Clone, Copy)]
pub struct Param<'a> {
    pub name: Part<'a>,
    pub value: Part<'a>,
}

/// An element of the structured data.
#[derive(Drop)]
pub struct Element<'a> {
    pub id: Part<'a>,
    pub params: Vec<Param<'a>>,
}

/// A message. A number is its digits and its value. A field that is not known is `-`; the instant is that of the time,
/// if it is known. The text has the space before it.
#[derive(Drop)]
pub struct Message<'a> {
    pub priority: (Part<'a>, u16),
    pub version: (Part<'a>, u16),
    pub time: Part<'a>,
    pub instant: Option<Timestamp>,
    pub host: Part<'a>,
    pub app: Part<'a>,
    pub process: Part<'a>,
    pub id: Part<'a>,
    pub elements: Vec<Element<'a>>,
    pub text: Part<'a>,
}

pub struct NameRanges;

const NAME: [(u8, u8); 4] = [(33, 33), (35, 60), (62, 92), (94, 126)];

impl Ranges for NameRanges {
    ghost use Rattle.examples.specs.Log.{IsNameCode};
    ghost use Rattle.examples.specs.declared.syslog.TheConstants.{NAME};

    ghost set = { IsNameCode };

    ghost list = { NAME };

    ghost matches = { λ n. Prim.search rules };

    fn ranges() -> &'static [(u8, u8)] {
        &NAME
    }
}

/// The characters of a name.
pub type Name = ByRanges<NameRanges>;

/// Returns the message that a line without its ending says, or the part of it that is at fault.
pub fn read_message<'a>(alloc: Global, line: AsciiStr<'a>) -> Result<Message<'a>, ParseError<'a>>
    ensures { MatchResult result (IsMessage (text_of line.entry)) (IsErrorIn line.entry) }
{
    let (priority, rest) = take_digits(Part::of(line).expect(AsciiChar::LessThan)?, 191)?;
    let (version, rest) = take_digits(rest.expect(AsciiChar::GreaterThan)?, 999)?;
    let (time, rest) = rest.expect(AsciiChar::Space)?.take::<Graphic>(32)?;
    let Ok(instant) = read_instant(time.text()) else {
        return Err(ParseError::At(time, Expected::Named("a time")));
    };
    let (host, rest) = rest.expect(AsciiChar::Space)?.take::<Graphic>(255)?;
    let (app, rest) = rest.expect(AsciiChar::Space)?.take::<Graphic>(48)?;
    let (process, rest) = rest.expect(AsciiChar::Space)?.take::<Graphic>(128)?;
    let (id, rest) = rest.expect(AsciiChar::Space)?.take::<Graphic>(32)?;
    let (elements, text) = take_data(alloc, rest.expect(AsciiChar::Space)?)?;
    if !text.is_empty() {
        text.expect(AsciiChar::Space)?;
    }
    Ok(Message {
        priority,
        version,
        time,
        instant,
        host,
        app,
        process,
        id,
        elements,
        text,
    })
}

/// Takes up to three digits that write a number up to `most`.
fn take_digits<'a>(start: Part<'a>, most: u16) -> Taken<'a, (Part<'a>, u16)>
    ensures { Takes (IsNumber most) (λ number. part_text number.0) start.entry result }
{
    let (digits, rest) = start.take::<Digit>(3)?;
    match digits.to_number::<u16>() {
        Ok(value) if value <= most => Ok(((digits, value), rest)),
        _ => Err(ParseError::At(digits, Expected::Named("a smaller number"))),
    }
}

/// Returns the instant of a time, or `None` if that is `-`.
fn read_instant(time: AsciiStr<'_>) -> Result<Option<Timestamp>, jiff::Error>
    ensures { IfOk result (IsInstant (text_of time.entry)) }
{
    if time.eq_bytes(b"-") {
        return Ok(None);
    }
    Ok(Some(time.as_str().parse::<Timestamp>()?))
}

/// Takes the structured data: `-`, or elements with nothing between.
fn take_data<'a>(alloc: Global, start: Part<'a>) -> Taken<'a, Vec<Element<'a>>>
    ensures { Takes (λ elements. AreElements elements.items) (λ elements. data_text elements.items)
        start.entry result }
{
    let (mut elements, mut rest) = (Vec::new(alloc), start);
    'elements: while rest.text().starts_with_char(AsciiChar::BracketOpen) {
        let (element, after) = take_element(alloc, rest)?;
        elements.push(element).map_err(|_| ParseError::Memory)?;
        rest = after;
    }
    if elements.is_empty() {
        rest = start.expect(AsciiChar::Minus)?;
    }
    Ok((elements, rest))
}

/// Takes an element, `[id name="value" ..]`.
fn take_element<'a>(alloc: Global, start: Part<'a>) -> Taken<'a, Element<'a>>
    ensures { Takes IsElement element_text start.entry result }
{
    let (id, mut rest) = start.expect(AsciiChar::BracketOpen)?.take::<Name>(32)?;
    let mut params = Vec::new(alloc);
    'params: while rest.text().starts_with_char(AsciiChar::Space) {
        let (param, after) = take_param(rest)?;
        params.push(param).map_err(|_| ParseError::Memory)?;
        rest = after;
    }
    rest = rest.expect(AsciiChar::BracketClose)?;
    Ok((Element { id, params }, rest))
}

/// Takes a parameter, ` name="value"`.
fn take_param<'a>(start: Part<'a>) -> Taken<'a, Param<'a>>
    ensures { Takes IsParam param_text start.entry result }
{
    let (name, rest) = start.expect(AsciiChar::Space)?.take::<Name>(32)?;
    let quoted = rest.expect(AsciiChar::Equal)?;
    let (value, rest) = quoted.expect_quoted(AsciiChar::Quotation, AsciiChar::BackSlash)?;
    Ok((Param { name, value }, rest))
}

/// Prints the parts of a message.
fn show(rt: &HostRuntime, message: &Message<'_>) -> io::Result<()> {
    match message.instant {
        Some(instant) => print!(rt; "{} {instant}", message.priority.1)?,
        None => print!(rt; "{} -", message.priority.1)?,
    }
    println!(rt; " {} {}:{}", message.host, message.app, message.text)?;
    for element in &message.elements {
        println!(rt; "- {}", element.id)?;
        for Param { name, value } in &element.params {
            let value = value.text().unquote(rt.alloc(), AsciiChar::BackSlash)?;
            println!(rt; "  {name}: {value}")?;
        }
    }
    Ok(())
}

pub fn main(rt: HostRuntime) -> io::Result<()> {
    let mut source = String::new(rt.alloc());
    rt.stdin().read_to_string(&mut source)?;
    let view = match text::as_ascii_str(source.as_str()) {
        Ok(view) => view,
        Err(error) => return println!(rt; "{error}"),
    };
    for line in view.lines() {
        match read_message(rt.alloc(), line) {
            Ok(message) => show(&rt, &message)?,
            Err(ParseError::At(part, what)) => println!(rt; "column {}: {what}", part.start + 1)?,
            Err(ParseError::Memory) => println!(rt; "no memory")?,
        }
    }
    Ok(())
}
