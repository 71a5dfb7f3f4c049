//! The front output of a bounded run: what is written of a text part by part, as it is read.

ghost use Rattle.std.specs.Prelude.{◌≡◌, ℕ, List, ◌<◌, IfOk, OnOk};
ghost use Rattle.ascii_run.specs.FrontOutput.{PassesOn, StopsWith};
ghost use Rattle.ascii_devices.specs.Buffered.{AppendsTo, BufferState, IsReady, MayFail};
ghost use Rattle.ascii_devices.specs.Buffered.{output_state};
ghost use Rattle.ascii_run.specs.Streamed.{last_after, stream};

use crate::bounded::BoundedMode;
use crate::faults::BoundedFault;
use crate::streamed::{LARGEST, Streamed, last_of, streamed_size};
use ascii_devices::{BufferedSink, Sink};
use std::alloc::{AllocError, Allocator};
use std::marker::Model;

/// What a bounded run writes. Each call passes on all that it appends.
#[derive(Drop)]
pub(crate) struct FrontOutput<A: Allocator> {
    mode: Streamed<A>,
    buffer: BufferedSink<A>,
    /// The last byte of the text so far, or LF.
    last: u8,
}

impl<A: Allocator> Model for FrontOutput<A> {
    ghost use Rattle.ascii_run.specs.FrontOutput.{FrontState};

    ghost Value = { FrontState };

    ghost view = { λ output. record {
      mode = output.mode;
      last = output.last;
      buffer = output.buffer;
    } };
}

impl<A: Allocator + Copy> FrontOutput<A> {
    /// Makes all allocations of a run. Nothing has been written.
    pub(crate) fn new(alloc: A, mode: BoundedMode) -> Result<FrontOutput<A>, AllocError>
        ensures { IfOk result (λ output. (output.mode ≡ mode) × (output.last ≡ 10)
            × IsReady output.buffer) }
    {
        let size = streamed_size(mode, usize::MAX).min(LARGEST);
        let mode = Streamed::new(alloc, mode)?;
        let buffer = BufferedSink::new(alloc, size)?;
        Ok(FrontOutput {
            mode,
            buffer,
            last: b'\n',
        })
    }
}

impl<A: Allocator> FrontOutput<A> {
    /// Writes what comes before the text.
    pub(crate) fn open<K: Sink>(&mut self, writer: &mut K) -> Result<(), BoundedFault>
        requires ready { IsReady self.old.buffer }
        requires fail { K.failures writer.old < u64.MAX }
        ensures passes { PassesOn K.Sink (stream self.old.mode).opening
            writer.old writer.new result }
        ensures kept { (self.new.mode ≡ self.old.mode) × (self.new.last ≡ self.old.last) }
        ensures ready { OnOk result (IsReady self.new.buffer) }
    {
        self.buffer.put(writer, self.mode.opening());
        pass_on(&mut self.buffer, writer)
    }

    /// Writes what the mode adds for the next bytes of the text, which may change in place.
    pub(crate) fn append<K: Sink>(
        &mut self,
        writer: &mut K,
        part: &mut [u8],
    ) -> Result<(), BoundedFault>
        requires ready { IsReady self.old.buffer }
        requires fail { K.failures writer.old < u64.MAX }
        ensures passes { PassesOn K.Sink
            ((stream self.old.mode).part self.old.last part.old) writer.old writer.new result }
        ensures kept { (self.new.mode ≡ self.old.mode)
            × (self.new.last ≡ last_after self.old.last part.old) }
        ensures ready { OnOk result (IsReady self.new.buffer) }
    {
        let before = self.last;
        self.last = last_of(before, part);
        self.mode.put_part(before, part, &mut self.buffer, writer);
        pass_on(&mut self.buffer, writer)
    }

    /// Writes what comes after the text.
    pub(crate) fn close<K: Sink>(&mut self, writer: &mut K) -> Result<(), BoundedFault>
        requires ready { IsReady self.old.buffer }
        requires fail { K.failures writer.old < u64.MAX }
        ensures passes { PassesOn K.Sink ((stream self.old.mode).closing self.old.last)
            writer.old writer.new result }
    {
        self.buffer.put(writer, self.mode.closing(self.last));
        pass_on(&mut self.buffer, writer)
    }

    /// Writes what comes after a text that an error ends, if that is anything. Returns the error, or
    /// `Write` if the writer failed.
    pub(crate) fn stop<K: Sink>(&mut self, writer: &mut K, fault: BoundedFault) -> BoundedFault
        requires ready { IsReady self.old.buffer }
        requires fail { K.failures writer.old < u64.MAX }
        ensures { StopsWith K.Sink fault ((stream self.old.mode).cut self.old.last)
            writer.old writer.new result }
    {
        let bytes = self.mode.cut(self.last);
        if bytes.is_empty() {
            return fault;
        }
        self.buffer.put(writer, bytes);
        match pass_on(&mut self.buffer, writer) {
            Ok(()) => fault,
            Err(write) => write,
        }
    }
}

/// Writes the bytes of the buffer and flushes the writer.
fn pass_on<K: Sink, A: Allocator>(
    buffer: &mut BufferedSink<A>,
    writer: &mut K,
) -> Result<(), BoundedFault>
    requires { MayFail (output_state K.Sink writer.old buffer.old) }
    ensures passes { (start : K) (held : BufferState) (bytes : List ℕ) → IsReady held
        → AppendsTo K.Sink start held writer.old buffer.old bytes
        → PassesOn K.Sink bytes start writer.new result }
    ensures ready { OnOk result (IsReady buffer.new) }
{
    match buffer.finish(writer) {
        Ok(()) => Ok(()),
        Err(_) => Err(BoundedFault::Write),
    }
}
