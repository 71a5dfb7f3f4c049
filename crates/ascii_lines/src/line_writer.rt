//! A writer of lines over any sink, through one buffer of fixed size.

ghost use Rattle.std.specs.Prelude.{◌≡◌, ◌≤◌, ◌++◌, [], IfOk, OnErr, OnOk, false, length, true};
ghost use Rattle.ascii.specs.Lines.{ending_text};
ghost use Rattle.ascii.specs.View.{text_of};
ghost use Rattle.ascii_lines.specs.LineWriter.{FitsBuffer, FlushesOutcome, WritesLine, WritesPart};
ghost use Rattle.ascii_lines.specs.LineWriter.{fresh_writer, line_with};
ghost use Rattle.ascii_devices.specs.Buffered.{output_state};
ghost use Rattle.ascii_lines.specs.WriteBuffer.{PutsBytes, SendsAll};

use crate::line_buffer::LineBuffer;
use ascii::AsciiStr;
use ascii::endings::first_break;
use ascii::iter::Ending;
use ascii_devices::{BufferedSink, Channel, DeviceFault, Sink};
use std::alloc::{AllocError, Allocator, Global};
use std::marker::Model;

/// Why a line was not written.
#[derive(Clone, Copy, PartialEq, Eq, Debug)]
pub enum WriteError {
    /// The character at this index of the body, counted from 0, is CR or LF, and none before it is. The
    /// writer and its sink are unchanged.
    LineBreak(usize),
    /// The sink failed, or has failed `u64::MAX` times before.
    Write,
}

/// A writer of lines. It gathers lines in one buffer, and passes that to its sink when it is full or flushed.
/// A line that is longer than the buffer goes to the sink in parts.
#[derive(Drop)]
pub struct LineWriter<K: Sink, A: Allocator = Global> {
    sink: K,
    buffer: BufferedSink<A>,
}

impl<K: Sink, A: Allocator> Model for LineWriter<K, A> {
    ghost use Rattle.ascii_devices.specs.Buffered.{output_state};
    ghost use Rattle.ascii_lines.specs.LineWriter.{Writing};

    ghost Value = { Writing K };

    ghost view = { λ w. record { sink = w.sink; state = output_state K.Sink w.sink w.buffer } };
}

impl<K: Sink, A: Allocator> LineWriter<K, A> {
    /// Creates a writer over `sink` with a buffer of `size` bytes, or returns an error if the allocation
    /// fails; the sink is then dropped. No later call allocates.
    ///
    /// With a `size` of 0, each line goes to the sink at once.
    ///
    ///     let mut writer = LineWriter::new(alloc, Output::new(Vec::new(alloc)), 64)?;
    ///     writer.write_line(AsciiStr::literal("ab"), Ending::CrLf) // Ok(())
    ///     writer.flush() // Ok(())
    ///     writer.into_sink().into_inner() // [97, 98, 13, 10]
    pub fn new(alloc: A, sink: K, size: usize) -> Result<LineWriter<K, A>, AllocError>
    where
        K: Drop,
        ensures fresh { IfOk result (λ writer.
            writer.state ≡ fresh_writer size K.Sink sink) }
        ensures sink { IfOk result (λ writer. writer.sink ≡ sink) }
    {
        let buffer = BufferedSink::new(alloc, size)?;
        Ok(LineWriter { sink, buffer })
    }

    /// Returns the sink. Bytes that the writer holds are lost: call `flush` first.
    ///
    ///     let mut writer = LineWriter::new(alloc, Output::new(Vec::new(alloc)), 64)?;
    ///     writer.write_line(AsciiStr::literal("ab"), Ending::Lf) // Ok(())
    ///     writer.into_sink().into_inner() // []
    pub fn into_sink(self) -> K
        ensures { result ≡ self.sink }
    {
        self.sink
    }

    /// Writes a line, or returns an error. With the ending `Absent`, the body alone is written, and the
    /// next line continues it.
    ///
    /// - `LineBreak` if the body has a CR or an LF. The error has the index of the first one, and the writer
    ///   and its sink are unchanged.
    /// - `Write` if a call of the sink failed, or `u64::MAX` calls have failed before. Of the bytes
    ///   written so far, this line included, the sink has taken a prefix.
    ///
    /// Once a call has returned `Write`, every later call returns it, and leaves the writer and its sink
    /// unchanged. The sink's count of failures rises by one when `Write` is first returned, unless it is
    /// `u64::MAX`; otherwise no call changes it.
    ///
    ///     let mut writer = LineWriter::new(alloc, Output::new(Vec::new(alloc)), 64)?;
    ///     writer.write_line(AsciiStr::literal("a\nb"), Ending::Lf) // Err(LineBreak(1))
    ///     writer.write_line(AsciiStr::literal("c"), Ending::Lf) // Ok(())
    ///     writer.flush() // Ok(())
    ///     writer.into_sink().into_inner() // [99, 10]
    pub fn write_line(&mut self, body: AsciiStr<'_>, ending: Ending) -> Result<(), WriteError>
        ensures line { WritesLine self.old (line_with body.entry ending) result self.new }
        ensures within { FitsBuffer self.new }
    {
        if self.buffer.is_broken() {
            return Err(WriteError::Write);
        }
        let body = body.as_bytes();
        if let Some(place) = first_break(body) {
            return Err(WriteError::LineBreak(place));
        }
        put_line(&mut self.buffer, &mut self.sink, body, ending);
        if self.buffer.is_broken() {
            return Err(WriteError::Write);
        }
        Ok(())
    }

    /// Writes a text as it is, with each CR and LF in it, or returns `Write`. It is for bodies of an announced
    /// length, and may be mixed with `write_line` in any order.
    ///
    /// `Write` is returned if a call of the sink failed, or `u64::MAX` calls have failed before. Of the bytes
    /// written so far, this text included, the sink has taken a prefix. Every later call then returns `Write`,
    /// and leaves the writer and its sink unchanged.
    ///
    ///     let mut writer = LineWriter::new(alloc, Output::new(Vec::new(alloc)), 64)?;
    ///     writer.write_line(AsciiStr::literal("$3"), Ending::CrLf) // Ok(())
    ///     writer.write_part(AsciiStr::literal("a\nb")) // Ok(())
    ///     writer.flush() // Ok(())
    ///     writer.into_sink().into_inner() // [36, 51, 13, 10, 97, 10, 98]
    pub fn write_part(&mut self, part: AsciiStr<'_>) -> Result<(), WriteError>
        ensures part { WritesPart self.old (text_of part.entry) result self.new }
        ensures within { FitsBuffer self.new }
    {
        self.write_bytes(part.as_bytes())
    }

    /// The same of any bytes.
    pub(crate) fn write_bytes(&mut self, bytes: &[u8]) -> Result<(), WriteError>
        ensures part { WritesPart self.old bytes.now result self.new }
        ensures within { FitsBuffer self.new }
    {
        if self.buffer.is_broken() {
            return Err(WriteError::Write);
        }
        put_line(&mut self.buffer, &mut self.sink, bytes, Ending::Absent);
        if self.buffer.is_broken() {
            return Err(WriteError::Write);
        }
        Ok(())
    }

    /// Whether a call has returned `Write`.
    pub(crate) fn is_broken(&self) -> bool
        ensures { result ≡ self.now.state.buffer.is_broken }
    {
        self.buffer.is_broken()
    }

    /// Passes the bytes that the writer holds to the sink and flushes it, or returns `Write` if a call of
    /// the sink failed, or `u64::MAX` calls have failed before; every later call then returns `Write`.
    ///
    /// After `Ok` the sink has taken all lines that were written, and was flushed. On an error it has
    /// taken a prefix of them.
    ///
    ///     let mut room = [0u8; 2];
    ///     let mut writer = LineWriter::new(alloc, Output::new(room.as_mut_slice()), 64)?;
    ///     writer.write_line(AsciiStr::literal("ab"), Ending::Lf) // Ok(())
    ///     writer.flush() // Err(Write)
    pub fn flush(&mut self) -> Result<(), WriteError>
        ensures flushed { FlushesOutcome self.old result self.new }
        ensures within { FitsBuffer self.new }
    {
        if self.buffer.is_broken() {
            return Err(WriteError::Write);
        }
        match send_all(&mut self.buffer, &mut self.sink) {
            Ok(()) => Ok(()),
            Err(_) => Err(WriteError::Write),
        }
    }
}

impl<C: Channel, A: Allocator> LineWriter<C, A> {
    ghost use Rattle.std.specs.Prelude.{◌⊎◌};
    ghost use Rattle.ascii_lines.specs.LineBuffer.{Fills};
    ghost use Rattle.ascii_lines.specs.Serve.{read_side};

    /// Reads bytes of the other direction of the device into a buffer.
    pub(crate) fn fill<B: Allocator>(
        &mut self,
        buffer: &mut LineBuffer<B>,
    ) -> Result<(), DeviceFault>
        requires more { buffer.old.is_at_end ≡ false }
        requires room { (length buffer.old.held ≤ buffer.old.size) ⊎ (length buffer.old.held ≤ 1) }
        ensures fills { Fills buffer.old buffer.new (read_side self.old.state)
            (read_side self.new.state) result }
        ensures buffer { self.new.state.buffer ≡ self.old.state.buffer }
    {
        buffer.fill(&mut self.sink)
    }
}

/// Writes a body and its ending.
#[inline]
fn put_line<K: Sink, A: Allocator>(
    buffer: &mut BufferedSink<A>,
    sink: &mut K,
    body: &[u8],
    ending: Ending,
)
    requires { buffer.old.is_broken ≡ false }
    ensures { PutsBytes (output_state K.Sink sink.old buffer.old)
        (output_state K.Sink sink.new buffer.new) (body.now ++ ending_text ending) }
{
    if sink.failures() == u64::MAX {
        buffer.give_up();
        return;
    }
    if let Ending::Lf = ending {
        buffer.put_line(sink, body);
    } else {
        buffer.put(sink, body);
        buffer.put(sink, ending_bytes(ending));
    }
}

/// Sends what the buffer holds, and flushes the sink.
fn send_all<K: Sink, A: Allocator>(
    buffer: &mut BufferedSink<A>,
    sink: &mut K,
) -> Result<(), DeviceFault>
    requires ready { buffer.old.is_broken ≡ false }
    requires within { length buffer.old.bytes ≤ buffer.old.size }
    ensures { SendsAll (output_state K.Sink sink.old buffer.old)
        (output_state K.Sink sink.new buffer.new) result }
{
    if sink.failures() == u64::MAX {
        buffer.give_up();
        return Err(DeviceFault);
    }
    buffer.finish(sink)
}

/// The bytes of an ending.
#[inline]
fn ending_bytes(ending: Ending) -> &'static [u8]
    ensures { result.now ≡ ending_text ending }
{
    match ending {
        Ending::Lf => b"\n",
        Ending::CrLf => b"\r\n",
        Ending::Absent => b"",
    }
}
