//! The bounded engine: reads an input of any length, and writes the output of a mode as it reads.
//!
//! It holds one chunk of the input and one output buffer, and makes all allocations before the first read. It works
//! over any `Source` and `Sink`. Modes that need the whole text, such as `Mode::Tac`, are modes of `engine` only; the
//! change of case and `Escape` are modes of this engine only.
//!
//! If an error ends the input, the output for the text before it has been written: the output of the mode, where for
//! `Lines` an open line is closed, and for `Json` the string is left open, so that nobody takes it for the whole.
//!
//! The contract says of each outcome which bytes the reader gave and which the writer took, by what the devices say of
//! themselves and by their histories, and how their counts of failures rose.

ghost use Rattle.std.specs.Prelude.{◌≡◌, ◌<◌, ℕ, List, MatchOption};
ghost use Rattle.std.specs.Io.KnownBytes.{IsAtEnd};
ghost use Rattle.std.specs.List.{Contains};
ghost use Rattle.ascii_run.specs.Names.{IsBoundedName, bounded_name};
ghost use Rattle.ascii_devices.specs.States.{Gives, Takes};
ghost use Rattle.ascii_run.specs.Bounded.{BoundedOutcome, CountsReads};
ghost use Rattle.ascii_run.specs.Reading.{Counts};
ghost use Rattle.ascii_run.specs.Streamed.{IsTextLength, takes_all};

use crate::faults::BoundedFault;
use crate::front_output::FrontOutput;
use ascii::kernels;
use ascii_devices::{Sink, Source, zeros};
use std::alloc::Allocator;

/// What a bounded run does with the text of its input.
#[derive(Clone, Copy, PartialEq, Eq, Debug)]
pub enum BoundedMode {
    /// The text itself.
    Copy,
    /// The body of each line and LF.
    Lines,
    /// Each character; a control character other than LF as `^` and its caret letter.
    Caret,
    /// The text as a compact JSON string.
    Json,
    /// The text with its letters in upper case.
    Upper,
    /// The text with its letters in lower case.
    Lower,
    /// Each byte as `u8::escape_ascii` of std writes it. The input may have any bytes.
    Escape,
}

/// The table of the modes: for each it passes its variant and its name to a macro.
macro_rules! modes {
    ($with:ident $($first:tt)*) => {
        $with! {
            $($first)*
            Copy "copy";
            Lines "lines";
            Caret "caret";
            Json "json";
            Upper "upper";
            Lower "lower";
            Escape "escape";
        }
    };
}

/// The name of a mode.
macro_rules! name_of {
    ($mode:ident $($variant:ident $name:literal;)*) => {
        match $mode {
            $(BoundedMode::$variant => $name,)*
        }
    };
}

/// The mode with a name.
macro_rules! with_name {
    ($word:ident $($variant:ident $name:literal;)*) => {
        match $word {
            $($name => Some(BoundedMode::$variant),)*
            _ => None,
        }
    };
}

/// All modes.
macro_rules! list {
    ($($variant:ident $name:literal;)*) => {
        &[$(BoundedMode::$variant,)*]
    };
}

impl BoundedMode {
    /// Returns all modes.
    ///
    ///     BoundedMode::all() // [Copy, Lines, Caret, Json, Upper, Lower, Escape]
    pub fn all() -> &'static [BoundedMode]
        ensures { (mode : BoundedMode) → Contains result.now mode }
    {
        modes!(list)
    }

    /// Returns the name of the mode: that of its variant, in lower case.
    ///
    ///     BoundedMode::Lines.name() // "lines"
    ///     BoundedMode::from_name(BoundedMode::Escape.name()) // Some(Escape)
    pub fn name(self) -> &'static str
        ensures { result.now ≡ bounded_name self }
    {
        let mode = self;
        modes!(name_of mode)
    }

    /// Returns the mode with this name, or `None` if no mode has the name.
    ///
    ///     BoundedMode::from_name("lines") // Some(Lines)
    ///     BoundedMode::from_name("LINES") // None
    pub fn from_name(name: &str) -> Option<BoundedMode>
        ensures { MatchOption result (¬ (IsBoundedName name.now))
            (λ mode. name.now ≡ bounded_name mode) }
    {
        modes!(with_name name)
    }

    /// Whether the mode takes all bytes, and not an ASCII text alone.
    fn takes_all(self) -> bool
        ensures { result ≡ takes_all self }
    {
        self == BoundedMode::Escape
    }
}

/// How many bytes one read asks for.
const CHUNK: usize = 131_072;

/// Reads an input of any length to its end and writes the output of the mode as it reads, or
/// returns why it stopped. After `NotAscii`, `TooLong` and `Read` the writer has taken the output of
/// the bytes before, with the last line of `Lines` closed and the string of `Json` left open; after
/// `Write` a prefix of it; after `Memory` nothing was read or written. `Escape` takes all bytes, so
/// it never returns `NotAscii`.
///
/// Condition: fewer than `u64::MAX` calls of the reader and of the writer have failed.
///
/// Reads 128 KiB at a time, and before each read writes and flushes the output so far. Holds that
/// chunk and an output buffer of at most 64 KiB.
///
///     let mut output = Output::new(Vec::new(alloc));
///     let mode = BoundedMode::Upper;
///     bounded_engine(alloc, mode, &mut Input::new(b"ab\n".as_slice()), &mut output) // Ok(())
///     output.into_inner() // [65, 66, 10]
pub fn bounded_engine<S: Source, K: Sink, A: Allocator + Copy>(
    alloc: A,
    mode: BoundedMode,
    reader: &mut S,
    writer: &mut K,
) -> Result<(), BoundedFault>
    requires reads { S.failures reader.old < u64.MAX }
    requires writes { K.failures writer.old < u64.MAX }
    ensures outcome { (given took : List ℕ)
        × (gives : Gives S.Source reader.old reader.new given)
        × Takes K.Sink writer.old writer.new took
        × BoundedOutcome mode result given (IsAtEnd gives.rest) took }
    ensures read { CountsReads mode result (S.failures reader.old) (S.failures reader.new) }
    ensures write { Counts BoundedFault.Write (K.failures writer.old)
        (K.failures writer.new) result }
{
    let mut room = zeros(alloc, CHUNK)?;
    let chunk: &mut [u8] = &mut room;
    let mut output = FrontOutput::new(alloc, mode)?;
    let Ok(()) = output.open(writer) else {
        return Err(BoundedFault::Write);
    };
    let mut position: u64 = 0;
    'chunks: loop {
        let Ok(n) = reader.read(chunk) else {
            return Err(output.stop(writer, BoundedFault::Read));
        };
        if n == 0 {
            return output.close(writer);
        }
        let part = &mut chunk[..n];
        let length = text_length(mode, part);
        let Ok(()) = output.append(writer, &mut part[..length]) else {
            return Err(BoundedFault::Write);
        };
        let Some(next) = position.checked_add(length as u64) else {
            return Err(output.stop(writer, BoundedFault::TooLong));
        };
        if length < n {
            return Err(output.stop(writer, BoundedFault::NotAscii(next)));
        }
        position = next;
    }
}

/// The number of bytes before the first that the mode does not take.
fn text_length(mode: BoundedMode, bytes: &[u8]) -> usize
    ensures { IsTextLength mode bytes.now result }
{
    if mode.takes_all() {
        return bytes.len();
    }
    match kernels::first_other(bytes) {
        Some(position) => position,
        None => bytes.len(),
    }
}
