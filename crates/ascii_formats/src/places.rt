//! The line and the column of a position: where in a text something is, for people.
//!
//!     AsciiStr::literal("ab\ncd").line_and_column(4) // Place { line: 2, column: 2 }
//!     AsciiStr::literal("ab\ncd").line_and_column(4).to_string(alloc)? // "2:2"
//!
//! A line ends at LF. Nothing here allocates.

ghost use Rattle.std.specs.Prelude.{◌≡◌, ◌+◌, ◌<◌, ◌≤◌, ◌-◌, ◌^◌, Some, length};

use crate::line_feeds::count_feeds;
use ascii::AsciiStr;
use memchr::memrchr;
use std::fmt;

/// A line and a column, both counted from 1, columns in bytes.
#[derive(Clone, Copy, PartialEq, Eq, Debug)]
pub struct Place {
    /// The line, counted from 1.
    pub line: u64,
    /// The column, counted from 1 in bytes.
    pub column: u64,
}

impl Place {
    ghost use Rattle.ascii_formats.specs.Places.{place_after, place_after_byte};

    /// Returns the place after a byte: the start of the next line after LF, otherwise the next
    /// column.
    ///
    /// Condition: the line and the column add up to less than 2^64 - 1.
    ///
    ///     Place { line: 1, column: 3 }.after_byte(b'a') // Place { line: 1, column: 4 }
    ///     Place { line: 1, column: 3 }.after_byte(b'\n') // Place { line: 2, column: 1 }
    pub fn after_byte(self, byte: u8) -> Place
        requires { self.line + self.column < 2 ^ 64 - 1 }
        ensures { result ≡ place_after_byte self byte }
    {
        if byte == b'\n' {
            Place {
                line: self.line + 1,
                column: 1,
            }
        } else {
            Place {
                line: self.line,
                column: self.column + 1,
            }
        }
    }

    /// Returns the place after all of the bytes. Scans them twice.
    ///
    /// Condition: the column is not 0; the line, the column and the number of bytes add up to less
    /// than 2^64.
    ///
    ///     Place { line: 1, column: 1 }.after(b"ab\ncd") // Place { line: 2, column: 3 }
    ///     Place { line: 1, column: 1 }.after(b"") // Place { line: 1, column: 1 }
    pub fn after(self, bytes: &[u8]) -> Place
        requires { (1 ≤ self.column) × (self.line + self.column + length bytes.now < 2 ^ 64) }
        ensures place { result ≡ place_after self bytes.now }
        ensures room { (1 ≤ result.column)
            × (result.line + result.column ≤ self.line + self.column + length bytes.now) }
    {
        match memrchr(b'\n', bytes) {
            Some(at) => Place {
                line: self.line + count_feeds(bytes),
                column: (bytes.len() - at) as u64,
            },
            None => Place {
                line: self.line,
                column: self.column + bytes.len() as u64,
            },
        }
    }
}

impl fmt::Display for Place {
    ghost use Rattle.ascii_formats.specs.Places.{place_text};

    ghost output = { λ place. Some (place_text place) };

    /// Writes the line, a colon and the column.
    ///
    ///     Place { line: 3, column: 10 }.to_string(alloc)? // "3:10"
    ///     AsciiStr::literal("").line_and_column(0).to_string(alloc)? // "1:1"
    fn fmt<W: fmt::Write>(&self, f: &mut fmt::Formatter<W>) -> fmt::Result {
        let Place { line, column } = self;
        write!(f, "{line}:{column}")
    }
}

/// What is wrong in a text, and where.
///
///     AsciiStr::literal("a\nb c").fault_at(3, "no '='").to_string(alloc)? // "2:2: no '='"
///     AsciiStr::literal("a\n").fault_at(2, "no key").to_string(alloc)? // "2:1: no key"
#[derive(Clone, Copy, PartialEq, Eq, Debug)]
pub struct Fault<E> {
    /// The line and the column of the fault.
    pub place: Place,
    /// What is wrong there.
    pub what: E,
}

impl<E: fmt::Display> fmt::Display for Fault<E> {
    ghost use Rattle.std.specs.Fmt.{◌++?◌};
    ghost use Rattle.std.specs.Prelude.{◌++◌, codes};
    ghost use Rattle.ascii_formats.specs.Places.{place_text};

    ghost output = { λ fault. Some (place_text fault.place ++ codes ": ") ++? E.output fault.what };

    /// Writes the place, a colon, a space and what is wrong.
    ///
    ///     AsciiStr::literal("").fault_at(0, "empty").to_string(alloc)? // "1:1: empty"
    ///     AsciiStr::literal("a\nb").fault_at(2, 'b').to_string(alloc)? // "2:1: b"
    fn fmt<W: fmt::Write>(&self, f: &mut fmt::Formatter<W>) -> fmt::Result {
        let Fault { place, what } = self;
        write!(f, "{place}: {what}")
    }
}
