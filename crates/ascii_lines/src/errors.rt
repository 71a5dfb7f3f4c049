//! The lines that the errors of this crate print, and the trait `Error`, by which `?` converts them to an
//! `anyhow::Error`.

ghost use Rattle.std.specs.Prelude.{Some};

use crate::line_reader::LineError;
use crate::line_writer::WriteError;
use ascii::AsAsciiStrError;
use std::error::Error;
use std::fmt;

impl fmt::Display for LineError {
    ghost use Rattle.ascii_lines.specs.Errors.{line_error_text};

    ghost output = { λ error. Some (line_error_text error) };

    ///     LineError::NotAscii(7).to_string(alloc)? // "the byte at index 7 is not ASCII"
    ///     LineError::LoneBreak(7).to_string(alloc)? // "the CR or LF at index 7 is not part of a CR LF"
    ///     LineError::TooLong(7).to_string(alloc)? // "the line or part at index 7 is longer than the buffer"
    ///     LineError::TooFar.to_string(alloc)? // "the input is longer than 18446744073709551615 bytes"
    ///     LineError::Incomplete(7).to_string(alloc)? // "the input ended after 7 bytes of a part"
    ///     LineError::Read.to_string(alloc)? // "read failed"
    fn fmt<W: fmt::Write>(&self, f: &mut fmt::Formatter<W>) -> fmt::Result {
        match *self {
            LineError::NotAscii(position) => AsAsciiStrError::new(position as usize).fmt(f),
            LineError::LoneBreak(position) => {
                write!(f, "the CR or LF at index {position} is not part of a CR LF")
            }
            LineError::TooLong(start) => {
                write!(
                    f,
                    "the line or part at index {start} is longer than the buffer"
                )
            }
            LineError::TooFar => f.write_str("the input is longer than 18446744073709551615 bytes"),
            LineError::Incomplete(count) => {
                write!(f, "the input ended after {count} bytes of a part")
            }
            LineError::Read => f.write_str("read failed"),
        }
    }
}

impl Error for LineError {}

impl fmt::Display for WriteError {
    ghost use Rattle.ascii_lines.specs.Errors.{write_error_text};

    ghost output = { λ error. Some (write_error_text error) };

    ///     WriteError::LineBreak(7).to_string(alloc)? // "the character at index 7 of the line is CR or LF"
    ///     WriteError::Write.to_string(alloc)? // "write failed"
    fn fmt<W: fmt::Write>(&self, f: &mut fmt::Formatter<W>) -> fmt::Result {
        match *self {
            WriteError::LineBreak(place) => {
                write!(f, "the character at index {place} of the line is CR or LF")
            }
            WriteError::Write => f.write_str("write failed"),
        }
    }
}

impl Error for WriteError {}
