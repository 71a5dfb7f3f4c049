//! The words of a line: characters as they are, and characters in single or double quotes.

ghost use Rattle.std.specs.Prelude.{◌≡◌, ◌<◌, ◌↔◌, ◌∷◌, [], IfOk, IfSome, IsTrue, MatchOption, MatchResult};
ghost use Rattle.std.specs.Prelude.{Some, slice_get};
ghost use Rattle.ascii.specs.Class.{IsDigitIn, IsWhitespace, digit_value};
ghost use Rattle.ascii.specs.View.{text_of};
ghost use Rattle.example_resp.specs.Store.{byte_lists};
ghost use Rattle.example_resp.specs.Words.{FindsPiece, HasHexPair, HasWords, IsHexPair, IsLineFault};
ghost use Rattle.example_resp.specs.Words.{HasMark, IsWord, IsWordFault, Opens, TakesPieces};
ghost use Rattle.example_resp.specs.Words.{escaped_code};

use crate::commands::Rejection;
use ascii::{AsciiChar, AsciiStr};
use ascii_formats::AsciiStrExt;
use std::alloc::{AllocError, Global};

/// What characters are quoted in.
#[derive(Clone, Copy, PartialEq, Eq, Debug)]
pub enum Quotes {
    /// Nothing.
    Bare,
    /// Double quotes.
    Double,
    /// Single quotes.
    Single,
}

/// What a text begins with.
#[derive(Clone, Copy, PartialEq, Eq, Debug)]
pub enum Piece<'a> {
    /// A code, and what comes after the characters that write it.
    Code(u8, AsciiStr<'a>),
    /// The end of what is quoted, or of the text.
    End,
}

/// Returns the words of a line, or why they cannot be kept. What is in quotes may write any byte.
pub fn split_words(alloc: Global, line: AsciiStr<'_>) -> Result<Vec<Vec<u8>>, Rejection>
    ensures { MatchResult result
        (λ words. HasWords (text_of line.entry) (byte_lists words.items))
        (IsLineFault (text_of line.entry)) }
{
    let mut words = Vec::new(alloc);
    let mut rest = line.trim_start();
    'words: while !rest.is_empty() {
        let mut word = Vec::new(alloc);
        rest = take_word(rest, &mut word)?.trim_start();
        words.push(word)?;
    }
    Ok(words)
}

/// Appends the word with which a text begins, and returns what comes after it.
fn take_word<'a>(text: AsciiStr<'a>, word: &mut Vec<u8>) -> Result<AsciiStr<'a>, Rejection>
    requires { word.old.items ≡ [] }
    ensures { MatchResult result
        (λ after. IsWord (text_of text.entry) word.new.items (text_of after))
        (IsWordFault (text_of text.entry)) }
{
    let rest = take_pieces(Quotes::Bare, text, word)?;
    let Some((quotes, inside)) = opened(rest) else {
        return Ok(rest);
    };
    let rest = take_pieces(quotes, inside, word)?;
    match split_first(rest) {
        Some((_, after)) if is_ended(after) => Ok(after),
        _ => Err(Rejection::BadQuotes),
    }
}

/// Returns the quotes that a text begins, and what comes after the first of them.
fn opened<'a>(text: AsciiStr<'a>) -> Option<(Quotes, AsciiStr<'a>)>
    ensures { MatchOption result (¬ (HasMark (text_of text.entry)))
        (λ opens. Opens opens.0 (text_of text.entry) (text_of opens.1)) }
{
    match split_first(text) {
        Some((b'"', inside)) => Some((Quotes::Double, inside)),
        Some((b'\'', inside)) => Some((Quotes::Single, inside)),
        _ => None,
    }
}

/// Appends the codes that are written between these quotes, up to the quote that ends them or the end of
/// the text, and returns what comes after them.
fn take_pieces<'a>(
    quotes: Quotes,
    text: AsciiStr<'a>,
    word: &mut Vec<u8>,
) -> Result<AsciiStr<'a>, AllocError>
    ensures { IfOk result (λ rest. TakesPieces quotes (text_of text.entry) word.old.items
        word.new.items (text_of rest)) }
{
    let mut rest = text;
    'pieces: loop {
        let Piece::Code(code, others) = next_piece(quotes, rest) else {
            return Ok(rest);
        };
        word.push(code)?;
        rest = others;
    }
}

/// Returns what a text between these quotes begins with.
fn next_piece<'a>(quotes: Quotes, text: AsciiStr<'a>) -> Piece<'a>
    ensures { FindsPiece quotes (text_of text.entry) result }
{
    let Some((first, others)) = split_first(text) else {
        return Piece::End;
    };
    match quotes {
        Quotes::Bare => bare_piece(first, others),
        Quotes::Single => single_piece(first, others),
        Quotes::Double => double_piece(first, others),
    }
}

/// Returns what a text begins with that is not quoted, by its first code and what comes after that.
fn bare_piece<'a>(first: u8, others: AsciiStr<'a>) -> Piece<'a>
    ensures { FindsPiece Quotes.Bare (first ∷ text_of others.entry) result }
{
    match first {
        b' ' | b'\t' | b'\r' | b'\n' | b'"' | b'\'' => Piece::End,
        _ => Piece::Code(first, others),
    }
}

/// Returns what a text in single quotes begins with, by its first code and what comes after that.
fn single_piece<'a>(first: u8, others: AsciiStr<'a>) -> Piece<'a>
    ensures { FindsPiece Quotes.Single (first ∷ text_of others.entry) result }
{
    if first == b'\'' {
        return Piece::End;
    }
    if first == b'\\'
        && let Some((b'\'', after)) = split_first(others)
    {
        return Piece::Code(b'\'', after);
    }
    Piece::Code(first, others)
}

/// Returns what a text in double quotes begins with, by its first code and what comes after that.
fn double_piece<'a>(first: u8, others: AsciiStr<'a>) -> Piece<'a>
    ensures { FindsPiece Quotes.Double (first ∷ text_of others.entry) result }
{
    if first == b'"' {
        return Piece::End;
    }
    if first == b'\\' {
        if let Some((code, after)) = hex_pair(others) {
            return Piece::Code(code, after);
        }
        if let Some((mark, after)) = split_first(others) {
            return Piece::Code(escaped(mark), after);
        }
    }
    Piece::Code(first, others)
}

/// Returns the code that a character after a backslash writes.
fn escaped(mark: u8) -> u8
    ensures { result ≡ escaped_code mark }
{
    match mark {
        b'n' => b'\n',
        b'r' => b'\r',
        b't' => b'\t',
        b'b' => 8,
        b'a' => 7,
        _ => mark,
    }
}

/// Returns the code of an `x` and two hexadecimal digits, and what comes after them.
fn hex_pair<'a>(text: AsciiStr<'a>) -> Option<(u8, AsciiStr<'a>)>
    ensures { MatchOption result (¬ (HasHexPair (text_of text.entry)))
        (λ found. IsHexPair (text_of text.entry) found.0 (text_of found.1)) }
{
    let (mark, digits) = split_first(text)?;
    if mark != b'x' {
        return None;
    }
    let (high, after) = split_first(digits)?;
    let (low, others) = split_first(after)?;
    let first = hex_value(high)?;
    let second = hex_value(low)?;
    Some((16 * first + second, others))
}

/// Returns the value of a hexadecimal digit.
fn hex_value(digit: u8) -> Option<u8>
    requires { digit < 128 }
    ensures { MatchOption result (¬ (IsDigitIn 16 digit))
        (λ value. (digit_value digit ≡ Some value) × (value < 16)) }
{
    let value = AsciiChar::from_ascii_unchecked(digit).to_digit(16)?;
    Some(value as u8)
}

/// Returns `true` if white space or nothing comes after a quote.
fn is_ended(after: AsciiStr<'_>) -> bool
    ensures { IsTrue result ↔ IfSome (slice_get (text_of after.entry) 0) IsWhitespace }
{
    match after.first() {
        Some(first) => first.is_whitespace(),
        None => true,
    }
}

/// Returns the first code of a text and what comes after it.
fn split_first<'a>(text: AsciiStr<'a>) -> Option<(u8, AsciiStr<'a>)>
    ensures split { MatchOption result (text_of text.entry ≡ [])
        (λ split. text_of text.entry ≡ split.0 ∷ text_of split.1) }
    ensures small { IfSome result (λ split. split.0 < 128) }
{
    let (first, rest) = text.split_first()?;
    Some((first.as_byte(), rest))
}
