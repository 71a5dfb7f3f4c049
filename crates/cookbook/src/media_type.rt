//! Reading a media type, the value of a header Content-Type: `text/html; charset=utf-8`, as RFC 9110 has it.
//!
//! An error is a `ParseError` of `ascii_formats`: what is missing, and the part of the text at whose start it is missing.

ghost use Rattle.std.specs.Prelude.{◌≡◌, ◌++◌, [], ◌∷◌, MatchOption, MatchResult};
ghost use Rattle.std.specs.List.{filter_map};
ghost use Rattle.ascii.specs.View.{text_of};
ghost use Rattle.ascii_formats.specs.Parts.{part_text};
ghost use Rattle.cookbook.specs.MediaType.{FindsParameter, IsMediaType, IsMissing, IsParameter};
ghost use Rattle.cookbook.specs.MediaType.{IsSection, IsToken, IsValue, Takes};

use ascii::classes::{Blank, Token};
use ascii::{AsciiChar, AsciiStr};
use ascii_formats::parts::{Expected, ParseError, Part, Taken};
use ascii_formats::quotes::QuoteError;
use std::alloc::Global;

/// A media type.
#[derive(Drop)]
pub struct MediaType<'a> {
    /// The token before the `/`, such as `text`.
    pub kind: AsciiStr<'a>,
    /// The token after the `/`, such as `html`.
    pub subtype: AsciiStr<'a>,
    /// The parameters, in order.
    pub parameters: Vec<Parameter<'a>>,
}

/// A parameter of a media type.
#[derive(Clone, Copy, PartialEq, Eq, Debug)]
pub struct Parameter<'a> {
    /// The token before the `=`, in the case that the text has.
    pub name: AsciiStr<'a>,
    /// The token after the `=`; or what is between the quotes there, as it is written: `unquote` reads it.
    pub value: AsciiStr<'a>,
}

impl<'a> MediaType<'a> {
    /// Returns the media type that a text says, or an error with what is missing, and where. For
    /// `text/html; charset=utf-8` the type is `text`, the subtype `html`, and the only parameter `charset`.
    pub fn parse(alloc: Global, text: AsciiStr<'a>) -> Result<MediaType<'a>, ParseError<'a>>
        ensures { MatchResult result (IsMediaType (text_of text.entry)) (IsMissing text.entry) }
    {
        let (kind, slash) = take_token(Part::of(text))?;
        let (subtype, mut rest) = take_token(slash.expect(AsciiChar::Slash)?)?;
        let mut parameters = Vec::new(alloc);
        'sections: while !rest.is_empty() {
            let (found, after) = take_section(rest)?;
            push_found(&mut parameters, found)?;
            rest = after;
        }
        Ok(MediaType {
            kind: kind.text(),
            subtype: subtype.text(),
            parameters,
        })
    }

    /// Returns the first parameter with the name, ignoring ASCII case, or `None` if there is none.
    pub fn parameter(&self, name: AsciiStr<'_>) -> Option<Parameter<'a>>
        ensures { FindsParameter self.now.parameters.items (text_of name.entry) result }
    {
        self.parameters
            .iter()
            .find(|parameter| parameter.name.eq_ignore_ascii_case(name))
            .copied()
    }
}

/// Appends what was found, if anything was.
fn push_found<'a>(
    parameters: &mut Vec<Parameter<'a>>,
    found: Option<Parameter<'a>>,
) -> Result<(), ParseError<'a>>
    ensures { MatchResult result (λ _.
        parameters.new.items ≡ parameters.old.items ++ filter_map (λ it. it) (found.entry ∷ []))
        (λ error. error ≡ ParseError.Memory) }
{
    match found {
        Some(parameter) => parameters.push(parameter).map_err(|_| ParseError::Memory),
        None => Ok(()),
    }
}

/// Takes a `;` with blanks around it, and the parameter after it, if there is one.
fn take_section<'a>(start: Part<'a>) -> Taken<'a, Option<Parameter<'a>>>
    ensures { Takes IsSection start.entry result }
{
    let (_, semicolon) = start.span::<Blank>();
    let (_, rest) = semicolon.expect(AsciiChar::Semicolon)?.span::<Blank>();
    take_parameter(rest)
}

/// Takes a parameter, if there is a token.
fn take_parameter<'a>(start: Part<'a>) -> Taken<'a, Option<Parameter<'a>>>
    ensures { Takes (λ written found. MatchOption found (written ≡ []) (IsParameter written))
        start.entry result }
{
    let Some((name, equal)) = start.take_some::<Token>() else {
        return Ok((None, start));
    };
    let (value, rest) = take_value(equal.expect(AsciiChar::Equal)?)?;
    let (name, value) = (name.text(), value.text());
    Ok((Some(Parameter { name, value }), rest))
}

/// Takes a token or a quoted text.
fn take_value<'a>(start: Part<'a>) -> Taken<'a, Part<'a>>
    ensures { Takes (λ written value. IsValue written (part_text value)) start.entry result }
{
    match start.quoted(AsciiChar::Quotation, AsciiChar::BackSlash) {
        Ok(taken) => Ok(taken),
        Err(QuoteError::NoQuote) => take_token(start),
        Err(QuoteError::NotClosed(_)) => Err(ParseError::At(start, Expected::Quoted)),
    }
}

/// Takes a token.
fn take_token<'a>(start: Part<'a>) -> Taken<'a, Part<'a>>
    ensures { Takes (λ written token. IsToken written × (written ≡ part_text token))
        start.entry result }
{
    match start.take_some::<Token>() {
        Some(taken) => Ok(taken),
        None => Err(ParseError::At(start, Expected::Named("a token"))),
    }
}
