//! What a task comes to at an input.

ghost use Rattle.std.specs.Prelude.{◌≡◌, ◌+◌, ◌<◌, ℕ, List};
ghost use Rattle.std.specs.Io.KnownBytes.{IsAtEnd};
ghost use Rattle.std.specs.declared.result.Result.TheVariants.{Err};
ghost use Rattle.ascii_devices.specs.States.{Gives, Takes};
ghost use Rattle.ascii_filter.specs.Checked.{IsAnswer};

use crate::check::name_others;
use crate::options::Task;
use ascii_devices::{Sink, Source};
use ascii_run::{BoundedFault, bounded_engine};
use std::alloc::Global;

/// What came of a task at an input.
#[derive(Clone, Copy, PartialEq, Eq, Debug)]
pub struct Answer {
    /// How many non-ASCII bytes `check` found.
    pub found: u64,
    /// Why the task stopped early, if it did.
    pub outcome: Result<(), BoundedFault>,
}

impl Answer {
    /// The answer of a task for which an allocation failed.
    pub fn out_of_memory() -> Answer
        ensures { result ≡ record { found = 0; outcome = Err BoundedFault.Memory } }
    {
        Answer {
            found: 0,
            outcome: Err(BoundedFault::Memory),
        }
    }
}

/// Carries out a task on an input that messages call by `label`, and writes and flushes its output.
///
/// Condition: fewer than `u64::MAX` calls of the reader and of the writer have failed.
pub fn run_task<S: Source, K: Sink>(
    alloc: Global,
    task: Task,
    label: &[u8],
    reader: &mut S,
    writer: &mut K,
) -> Answer
    requires reads { S.failures reader.old < u64.MAX }
    requires writes { K.failures writer.old < u64.MAX }
    ensures outcome { (given took : List ℕ)
        × (gives : Gives S.Source reader.old reader.new given)
        × Takes K.Sink writer.old writer.new took
        × IsAnswer task label.now result given (IsAtEnd gives.rest) took
        (K.failures writer.old) (K.failures writer.new) }
    ensures read { result.outcome ≡ Err BoundedFault.Read
        → S.failures reader.new ≡ S.failures reader.old + 1 }
{
    match task {
        Task::Filter { mode, .. } => Answer {
            found: 0,
            outcome: bounded_engine(alloc, mode, reader, writer),
        },
        Task::Check(check) => name_others(alloc, check, label, reader, writer),
    }
}
