//! Why a run from bytes to bytes stopped.

ghost use Rattle.std.specs.Prelude.{◌≡◌, Some};

use ascii::AsAsciiStrError;
use std::alloc::AllocError;
use std::error::Error;
use std::fmt;

/// Why a run stopped.
#[derive(Clone, Copy, PartialEq, Eq, Debug)]
pub enum EngineFault {
    /// The byte of the input at this position, counted from 0, is the first that is not ASCII.
    NotAscii(usize),
    /// The command at this index, counted from 0, is the first that is rejected for its position,
    /// its range or its number.
    Position(usize),
    /// An allocation failed.
    Memory,
    /// The reader failed.
    Read,
    /// The writer failed, or took no byte.
    Write,
}

impl fmt::Display for EngineFault {
    ghost use Rattle.ascii_run.specs.Faults.{fault_text};

    ghost output = { λ fault. Some (fault_text fault) };

    /// Writes the line of the error. Positions and indices are counted from 0.
    ///
    ///     EngineFault::NotAscii(2).to_string(alloc)? // "the byte at index 2 is not ASCII"
    ///     EngineFault::Position(0).to_string(alloc)? // "bad position in command 0"
    ///     EngineFault::Memory.to_string(alloc)? // "no memory"
    fn fmt<W: fmt::Write>(&self, f: &mut fmt::Formatter<W>) -> fmt::Result {
        match *self {
            EngineFault::NotAscii(position) => BoundedFault::NotAscii(position as u64).fmt(f),
            EngineFault::Position(index) => write!(f, "bad position in command {index}"),
            EngineFault::Memory => BoundedFault::Memory.fmt(f),
            EngineFault::Read => BoundedFault::Read.fmt(f),
            EngineFault::Write => BoundedFault::Write.fmt(f),
        }
    }
}

impl Error for EngineFault {}

impl From<AllocError> for EngineFault {
    ghost use Rattle.ascii_run.specs.declared.faults.EngineFault.TheVariants.{Memory};

    ghost from_gives = { λ _ fault. fault ≡ Memory };

    /// Returns `Memory`.
    ///
    ///     AsciiString::with_capacity(alloc, usize::MAX).map_err(EngineFault::from) // Err(Memory)
    fn from(_: AllocError) -> EngineFault {
        EngineFault::Memory
    }
}

impl From<AsAsciiStrError> for EngineFault {
    ghost use Rattle.ascii.specs.View.{position_of};
    ghost use Rattle.ascii_run.specs.declared.faults.EngineFault.TheVariants.{NotAscii};

    ghost from_gives = { λ e fault. fault ≡ NotAscii (position_of e) };

    /// Returns `NotAscii` with the position of the error.
    ///
    ///     bytes::as_ascii_str(b"ab\xc4").map_err(EngineFault::from) // Err(NotAscii(2))
    ///     bytes::as_ascii_str(b"ab\x7f").map_err(EngineFault::from) // Ok("ab\u{7f}")
    fn from(e: AsAsciiStrError) -> EngineFault {
        EngineFault::NotAscii(e.valid_up_to())
    }
}

/// Why a run in bounded memory stopped.
#[derive(Clone, Copy, PartialEq, Eq, Debug)]
pub enum BoundedFault {
    /// The byte of the input at this position, counted from 0, is the first that is not ASCII.
    NotAscii(u64),
    /// The first `2^64` bytes of the input have been taken, so that a position after them does not fit.
    TooLong,
    /// An allocation failed.
    Memory,
    /// The reader failed.
    Read,
    /// The writer failed, or took no byte.
    Write,
}

impl fmt::Display for BoundedFault {
    ghost use Rattle.ascii_run.specs.Faults.{bounded_fault_text};

    ghost output = { λ fault. Some (bounded_fault_text fault) };

    /// Writes the line of the error. Positions are counted from 0.
    ///
    ///     BoundedFault::NotAscii(2).to_string(alloc)? // "the byte at index 2 is not ASCII"
    ///     BoundedFault::TooLong.to_string(alloc)? // "the input is too long"
    ///     BoundedFault::Memory.to_string(alloc)? // "no memory"
    fn fmt<W: fmt::Write>(&self, f: &mut fmt::Formatter<W>) -> fmt::Result {
        match *self {
            BoundedFault::NotAscii(position) => AsAsciiStrError::new(position as usize).fmt(f),
            BoundedFault::TooLong => f.write_str("the input is too long"),
            BoundedFault::Memory => f.write_str("no memory"),
            BoundedFault::Read => f.write_str("read failed"),
            BoundedFault::Write => f.write_str("write failed"),
        }
    }
}

impl Error for BoundedFault {}

impl From<AllocError> for BoundedFault {
    ghost use Rattle.ascii_run.specs.declared.faults.BoundedFault.TheVariants.{Memory};

    ghost from_gives = { λ _ fault. fault ≡ Memory };

    /// Returns `Memory`.
    ///
    ///     AsciiString::with_capacity(alloc, usize::MAX).map_err(BoundedFault::from) // Err(Memory)
    fn from(_: AllocError) -> BoundedFault {
        BoundedFault::Memory
    }
}
