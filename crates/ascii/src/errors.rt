//! What the errors of this crate print, and the trait `Error`, by which `?` converts them to an `anyhow::Error`.

ghost use Rattle.std.specs.Prelude.{Some};

use crate::ascii_str::AsAsciiStrError;
use crate::from_ascii::{CopyError, FromAsciiError};
use crate::json::JsonError;
use std::error::Error;
use std::fmt;

impl Error for AsAsciiStrError {}

impl<O: Drop> Error for FromAsciiError<O> {}

impl<O> fmt::Display for CopyError<O> {
    ghost use Rattle.ascii.specs.ConversionError.{copy_error_text};

    ghost output = { λ e. Some (copy_error_text e) };

    /// Writes the line of the error: that of the position, or `no memory`.
    ///
    ///     text::to_ascii_string(alloc, "abč").map_err(|e| e.to_string(alloc)) // Err(Ok("the byte at index 2 is not ASCII"))
    ///     CopyError::<&str>::Memory(AllocError).to_string(alloc)? // "no memory"
    fn fmt<W: fmt::Write>(&self, f: &mut fmt::Formatter<W>) -> fmt::Result {
        match self {
            CopyError::NotAscii(error) => fmt::Display::fmt(error, f),
            CopyError::Memory(_) => f.write_str("no memory"),
        }
    }
}

impl<O: fmt::Debug + Drop> Error for CopyError<O> {}

impl fmt::Display for JsonError {
    ghost use Rattle.ascii.specs.Json.{json_error_text};

    ghost output = { λ e. Some (json_error_text e) };

    /// Writes the line of the error.
    ///
    ///     JsonError::NotText.to_string(alloc)? // "not a JSON string"
    ///     JsonError::NotOneByte.to_string(alloc)? // "not a string of one character"
    fn fmt<W: fmt::Write>(&self, f: &mut fmt::Formatter<W>) -> fmt::Result {
        match self {
            JsonError::NotText => f.write_str("not a JSON string"),
            JsonError::NotOneByte => f.write_str("not a string of one character"),
            JsonError::NotAscii(error) => fmt::Display::fmt(error, f),
            JsonError::Memory => f.write_str("no memory"),
        }
    }
}

impl Error for JsonError {}
