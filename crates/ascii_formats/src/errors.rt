//! What the errors of this crate print, and the trait `Error`, by which `?` converts them to an `anyhow::Error`.

ghost use Rattle.std.specs.Prelude.{Some};

use crate::numbers::NumberError;
use crate::parts::Expected;
use crate::quotes::QuoteError;
use crate::unescape::UnescapeError;
use std::error::Error;
use std::fmt;

impl fmt::Display for NumberError {
    ghost use Rattle.ascii_formats.specs.Numbers.{number_error_text};

    ghost output = { λ e. Some (number_error_text e) };

    ///     NumberError::Empty.to_string(alloc)? // "no digits"
    ///     NumberError::NotDigit(1).to_string(alloc)? // "the character at index 1 is not a digit"
    ///     NumberError::TooLarge(2).to_string(alloc)? // "the number is too large at index 2"
    fn fmt<W: fmt::Write>(&self, f: &mut fmt::Formatter<W>) -> fmt::Result {
        match self {
            NumberError::Empty => f.write_str("no digits"),
            NumberError::NotDigit(position) => {
                write!(f, "the character at index {position} is not a digit")
            }
            NumberError::TooLarge(position) => {
                write!(f, "the number is too large at index {position}")
            }
        }
    }
}

impl Error for NumberError {}

impl fmt::Display for Expected {
    ghost use Rattle.ascii_formats.specs.Parts.{expected_text};

    ghost output = { λ e. Some (expected_text e) };

    ///     Expected::Char(AsciiChar::Equal).to_string(alloc)? // "expected '='"
    ///     Expected::Characters(3).to_string(alloc)? // "expected 1 to 3 characters of a kind"
    ///     Expected::Digits(2).to_string(alloc)? // "expected a 2-digit number"
    ///     Expected::Named("a time").to_string(alloc)? // "expected a time"
    fn fmt<W: fmt::Write>(&self, f: &mut fmt::Formatter<W>) -> fmt::Result {
        match self {
            Expected::Char(ch) => write!(f, "expected '{ch}'"),
            Expected::Characters(most) => { write!(f, "expected 1 to {most} characters of a kind") }
            Expected::Digits(count) => write!(f, "expected a {count}-digit number"),
            Expected::Quoted => f.write_str("expected a quoted text"),
            Expected::Named(name) => write!(f, "expected {name}"),
        }
    }
}

impl fmt::Display for QuoteError {
    ghost use Rattle.ascii_formats.specs.Quotes.{quote_error_text};

    ghost output = { λ e. Some (quote_error_text e) };

    /// Writes the line of the error.
    ///
    ///     QuoteError::NoQuote.to_string(alloc)? // "no quote at the start"
    ///     QuoteError::NotClosed(2).to_string(alloc)? // "the text ends at index 2 within quotes"
    fn fmt<W: fmt::Write>(&self, f: &mut fmt::Formatter<W>) -> fmt::Result {
        match self {
            QuoteError::NoQuote => f.write_str("no quote at the start"),
            QuoteError::NotClosed(position) => {
                write!(f, "the text ends at index {position} within quotes")
            }
        }
    }
}

impl Error for QuoteError {}

impl fmt::Display for UnescapeError {
    ghost use Rattle.ascii_formats.specs.Unescape.{unescape_error_text};

    ghost output = { λ e. Some (unescape_error_text e) };

    /// Writes the line of the error.
    ///
    ///     UnescapeError::Invalid(1).to_string(alloc)? // "no escape at index 1"
    ///     UnescapeError::NotAscii(0).to_string(alloc)? // "the escape at index 0 is not ASCII"
    ///     UnescapeError::Memory.to_string(alloc)? // "no memory"
    fn fmt<W: fmt::Write>(&self, f: &mut fmt::Formatter<W>) -> fmt::Result {
        match self {
            UnescapeError::Invalid(position) => write!(f, "no escape at index {position}"),
            UnescapeError::NotAscii(position) => {
                write!(f, "the escape at index {position} is not ASCII")
            }
            UnescapeError::Memory => f.write_str("no memory"),
        }
    }
}

impl Error for UnescapeError {}
