//! The engine: reads all bytes of an input, and writes the output of a mode.
//!
//! | The input | Use |
//! |---|---|
//! | fits in memory, and nothing may be written unless all of it is ASCII | `engine` |
//! | may have any length, and the output may begin before all of it is read | `bounded_engine` |
//!
//! `engine` works over any `Source` and `Sink`. Nothing is written before the whole input was read and found to be
//! ASCII, so it holds the input in memory.
//!
//! Its contract says of each outcome what was read, what was written, and how the devices' counts of failures rose. It
//! sees an input as the bytes that its source has yet to give, and the output as the bytes that the sink has taken.

ghost use Rattle.std.specs.Prelude.{◌≡◌, ◌⊎◌, ℕ, ◌+◌, ◌<◌, ◌≤◌, List, ◌++◌, IfErr, IfOk, OnErr, length};
ghost use Rattle.std.specs.Option.{ForSome};
ghost use Rattle.std.specs.Io.KnownBytes.{IsAtEnd};
ghost use Rattle.std.specs.Str.{IsAscii};
ghost use Rattle.ascii_devices.specs.States.{Gives, Takes};
ghost use Rattle.ascii_run.specs.Engine.{EngineOutcome, WritesOutput};
ghost use Rattle.ascii_run.specs.Reading.{Counts, GivesAll, HasFirstOther};

use crate::faults::EngineFault;
use crate::modes::{Mode, buffer_size, render_output};
use ascii::kernels;
use ascii_devices::{BufferedSink, Sink, Source, zeros};
use std::alloc::Allocator;

/// Reads the input to its end, writes the output of the mode and flushes it, or returns why it
/// stopped. All allocations are made before the first byte is written: after `NotAscii`,
/// `Position`, `Memory` and `Read` nothing was written; after `Write` a prefix of the output was.
///
/// Condition: fewer than `u64::MAX` calls of the reader and of the writer have failed.
///
/// Holds the whole input, a buffer of 32 KiB that is read into, and then one output buffer of at
/// most 64 KiB.
///
///     let mut output = Output::new(Vec::new(alloc));
///     engine(alloc, Mode::Tac, &mut Input::new(b"x\ny\n".as_slice()), &mut output) // Ok(())
///     output.into_inner() // [121, 10, 120, 10]
///     let mut quoted = Output::new(Vec::new(alloc));
///     engine(alloc, Mode::Json, &mut Input::new(b" \"\t".as_slice()), &mut quoted) // Ok(())
///     quoted.into_inner() // [34, 32, 92, 34, 92, 116, 34]
pub fn engine<S: Source, K: Sink, A: Allocator + Copy>(
    alloc: A,
    mode: Mode<'_>,
    reader: &mut S,
    writer: &mut K,
) -> Result<(), EngineFault>
    requires reads { S.failures reader.old < u64.MAX }
    requires writes { K.failures writer.old < u64.MAX }
    ensures outcome { (given took : List ℕ)
        × (gives : Gives S.Source reader.old reader.new given)
        × Takes K.Sink writer.old writer.new took
        × EngineOutcome mode.entry result given (IsAtEnd gives.rest) took }
    ensures read { Counts EngineFault.Read (S.failures reader.old) (S.failures reader.new) result }
    ensures write { Counts EngineFault.Write (K.failures writer.old) (K.failures writer.new) result }
{
    let (input, other) = read_all(alloc, reader)?;
    if let Some(position) = other {
        return Err(EngineFault::NotAscii(position));
    }
    write_output(alloc, mode, input, writer)
}

/// How many bytes one read asks for. They are on the heap, so that a run needs little of the stack: if
/// memory is short, an allocation can fail, but a stack that cannot grow ends the program.
const CHUNK: usize = 32_768;

/// All bytes that the reader has yet to give, and the position of the first that is not ASCII. Each
/// chunk is searched right after it is read.
fn read_all<S: Source, A: Allocator + Copy>(
    alloc: A,
    reader: &mut S,
) -> Result<(Vec<u8, A>, Option<usize>), EngineFault>
    requires { S.failures reader.old < u64.MAX }
    ensures ok { IfOk result (λ input. GivesAll S.Source reader.old reader.new input.0.items) }
    ensures other { IfOk result (λ input. HasFirstOther input.0.items input.1) }
    ensures err { IfErr result (λ fault.
        (fault ≡ EngineFault.Memory) ⊎ (fault ≡ EngineFault.Read)) }
    ensures gave { OnErr result ((bytes : List ℕ)
        × Gives S.Source reader.old reader.new bytes) }
    ensures count { Counts EngineFault.Read (S.failures reader.old) (S.failures reader.new) result }
{
    let mut input = Vec::new(alloc);
    let mut other = None;
    let mut room = zeros(alloc, CHUNK)?;
    let chunk: &mut [u8] = &mut room;
    'reads: loop {
        let Ok(n) = reader.read(chunk) else {
            return Err(EngineFault::Read);
        };
        if n == 0 {
            return Ok((input, other));
        }
        let chunk_other = kernels::first_other(&chunk[..n]);
        let start = input.len();
        input.extend_from_slice(&chunk[..n])?;
        other = first_of_both(start, other, chunk_other);
    }
}

/// The position of the first byte that is not ASCII among `start` bytes and a chunk after them, by
/// the position of the first such byte in each of the two.
#[inline]
fn first_of_both(start: usize, other: Option<usize>, chunk_other: Option<usize>) -> Option<usize>
    requires { ForSome chunk_other (λ position. start + position ≤ usize.MAX) }
    ensures { (bytes chunk : List ℕ) → length bytes ≡ start
        → HasFirstOther bytes other → HasFirstOther chunk chunk_other
        → HasFirstOther (bytes ++ chunk) result }
{
    if other.is_some() {
        return other;
    }
    match chunk_other {
        Some(position) => Some(start + position),
        None => None,
    }
}

/// Writes the output of the mode for a text, and flushes. All allocations are made before the first
/// byte is written.
fn write_output<K: Sink, A: Allocator + Copy>(
    alloc: A,
    mode: Mode<'_>,
    input: Vec<u8, A>,
    writer: &mut K,
) -> Result<(), EngineFault>
    requires fail { K.failures writer.old < u64.MAX }
    requires ascii { IsAscii input.items }
    ensures tells { WritesOutput K.Sink mode.entry input.items result writer.old writer.new }
    ensures count { Counts EngineFault.Write (K.failures writer.old) (K.failures writer.new) result }
{
    let mut buffer = BufferedSink::new(alloc, buffer_size(mode, input.len()))?;
    render_output(alloc, mode, input, &mut buffer, writer)?;
    match buffer.finish(writer) {
        Ok(()) => Ok(()),
        Err(_) => Err(EngineFault::Write),
    }
}
