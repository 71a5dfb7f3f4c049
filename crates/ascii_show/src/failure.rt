//! Why the program ends with a status other than 0.

ghost use Rattle.std.specs.Prelude.{◌≡◌, Some};
ghost use Rattle.ascii_show.specs.Status.{status_of};

use crate::modes::Usage;
use ascii_run::EngineFault;
use std::alloc::{AllocError, AllocFailed};
use std::fmt;

/// A failure of the program.
#[derive(Clone, Copy, Debug)]
pub enum Failure {
    /// The arguments are not a call.
    Usage,
    /// The mode does not accept the argument with this number, counted from 1 after the mode.
    BadWord(usize),
    /// The run stopped.
    Engine(EngineFault),
}

impl Failure {
    /// The status that the program ends with.
    pub fn status(self) -> u8
        ensures { result ≡ status_of (Err self) }
    {
        match self {
            Failure::Engine(EngineFault::NotAscii(_)) => 1,
            Failure::Usage | Failure::BadWord(_) | Failure::Engine(EngineFault::Position(_)) => 2,
            Failure::Engine(EngineFault::Memory | EngineFault::Read | EngineFault::Write) => 3,
        }
    }
}

impl fmt::Display for Failure {
    ghost use Rattle.ascii_show.specs.Status.{line_of};

    ghost output = { λ failure. Some (line_of failure) };

    fn fmt<W: fmt::Write>(&self, f: &mut fmt::Formatter<W>) -> fmt::Result {
        match *self {
            Failure::Usage => fmt::Display::fmt(&Usage, f),
            Failure::BadWord(number) => write!(f, "bad word {number}"),
            Failure::Engine(EngineFault::Position(place)) => {
                let number = place.saturating_add(1);
                write!(f, "bad position in word {number}")
            }
            Failure::Engine(fault) => fmt::Display::fmt(&fault, f),
        }
    }
}

impl From<EngineFault> for Failure {
    ghost use Rattle.ascii_show.specs.declared.failure.Failure.TheVariants.{Engine};

    ghost from_gives = { λ fault failure. failure ≡ Engine fault };

    fn from(fault: EngineFault) -> Failure {
        Failure::Engine(fault)
    }
}

impl From<AllocError> for Failure {
    ghost use Rattle.ascii_show.specs.declared.failure.Failure.TheVariants.{Engine};
    ghost use Rattle.ascii_run.specs.declared.faults.EngineFault.TheVariants.{Memory};

    ghost from_gives = { λ _ failure. failure ≡ Engine Memory };

    fn from(_: AllocError) -> Failure {
        Failure::Engine(EngineFault::Memory)
    }
}

impl<T: Drop> From<AllocFailed<T>> for Failure {
    ghost use Rattle.ascii_show.specs.declared.failure.Failure.TheVariants.{Engine};
    ghost use Rattle.ascii_run.specs.declared.faults.EngineFault.TheVariants.{Memory};

    ghost from_gives = { λ _ failure. failure ≡ Engine Memory };

    fn from(_: AllocFailed<T>) -> Failure {
        Failure::Engine(EngineFault::Memory)
    }
}
