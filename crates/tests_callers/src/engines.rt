//! Runs over devices that tell which bytes are left and which were taken.

ghost use Rattle.std.specs.Prelude.{◌<◌};
ghost use Rattle.ascii_run.specs.Bounded.{CountsReads};
ghost use Rattle.ascii_run.specs.Reading.{Counts};
ghost use Rattle.tests_callers.specs.Engines.{BoundedStates, EngineStates, io_state};

use ascii_run::{
    BoundedFault, BoundedMode, EngineFault, Mode, Sink, Source, bounded_engine, engine,
};
use std::alloc::Allocator;

/// Runs a mode as `engine` does: what was read and written, by what the reader has left and what
/// the writer has taken.
pub fn engine_by_states<S: Source, K: Sink, A: Allocator + Copy>(
    alloc: A,
    mode: Mode<'_>,
    reader: &mut S,
    writer: &mut K,
) -> Result<(), EngineFault>
    requires reads { S.failures reader.old < u64.MAX }
    requires writes { K.failures writer.old < u64.MAX }
    ensures outcome { EngineStates mode.entry result
        (io_state S.Source K.Sink reader.old writer.old)
        (io_state S.Source K.Sink reader.new writer.new) }
    ensures read { Counts EngineFault.Read (S.failures reader.old) (S.failures reader.new) result }
    ensures write { Counts EngineFault.Write (K.failures writer.old)
        (K.failures writer.new) result }
{
    engine(alloc, mode, reader, writer)
}

/// Runs a mode as `bounded_engine` does: what was read and written, by what the reader has left and
/// what the writer has taken.
pub fn bounded_engine_by_states<S: Source, K: Sink, A: Allocator + Copy>(
    alloc: A,
    mode: BoundedMode,
    reader: &mut S,
    writer: &mut K,
) -> Result<(), BoundedFault>
    requires reads { S.failures reader.old < u64.MAX }
    requires writes { K.failures writer.old < u64.MAX }
    ensures outcome { BoundedStates mode result
        (io_state S.Source K.Sink reader.old writer.old)
        (io_state S.Source K.Sink reader.new writer.new) }
    ensures read { CountsReads mode result (S.failures reader.old) (S.failures reader.new) }
    ensures write { Counts BoundedFault.Write (K.failures writer.old)
        (K.failures writer.new) result }
{
    bounded_engine(alloc, mode, reader, writer)
}
