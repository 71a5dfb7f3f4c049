//! Why an input is at fault, and the status that this counts.

ghost use Rattle.std.specs.Prelude.{◌≡◌, Some};
ghost use Rattle.ascii_filter.specs.Status.{failure_text, status_of, verdict_status};

use ascii_run::BoundedFault;
use std::{fmt, io};

/// Why an input is at fault.
#[derive(Clone, Copy)]
pub enum Failure {
    /// The byte of the input at this position, counted from 0, is the first that is not ASCII.
    NotAscii(u64),
    /// The input is too long.
    TooLong,
    /// An allocation failed.
    Memory,
    /// The input could not be opened or read.
    Input(io::Error),
    /// The input is the file that is written to.
    IsOutput,
    /// The name of the input is not valid UTF-8.
    NotUtf8,
}

impl Failure {
    /// The status that the program ends with, at least.
    pub fn status(self) -> u8
        ensures { result ≡ status_of self }
    {
        match self {
            Failure::NotAscii(_) => 1,
            _ => 3,
        }
    }
}

impl fmt::Display for Failure {
    ghost output = { failure_text };

    /// Writes why the input is at fault; if a device failed, what its error writes.
    fn fmt<W: fmt::Write>(&self, f: &mut fmt::Formatter<W>) -> fmt::Result {
        match *self {
            Failure::NotAscii(position) => BoundedFault::NotAscii(position).fmt(f),
            Failure::TooLong => BoundedFault::TooLong.fmt(f),
            Failure::Memory => BoundedFault::Memory.fmt(f),
            Failure::Input(error) => fmt::Display::fmt(&error, f),
            Failure::IsOutput => f.write_str("input file is output file"),
            Failure::NotUtf8 => f.write_str("not valid UTF-8"),
        }
    }
}

/// What the program says of an input.
#[derive(Clone, Copy)]
pub struct Verdict {
    /// How many non-ASCII bytes `check` found.
    pub found: u64,
    /// Why the input is at fault, if it is.
    pub failure: Option<Failure>,
}

impl Verdict {
    /// The verdict on an input that is at fault, in which no byte was found.
    pub fn failed(failure: Failure) -> Verdict
        ensures { result ≡ record { found = 0; failure = Some failure } }
    {
        Verdict {
            found: 0,
            failure: Some(failure),
        }
    }

    /// The status that the program ends with, at least.
    pub fn status(self) -> u8
        ensures { result ≡ verdict_status self }
    {
        match self.failure {
            Some(failure) => failure.status(),
            None => u8::from(self.found > 0),
        }
    }
}
