//! The modes whose output is made as the text is read: what is written before a text, for each part of
//! it, and after it. Both engines use them.

ghost use Rattle.std.specs.Prelude.{◌≡◌, IfOk, OnErr, OnOk};
ghost use Rattle.std.specs.Str.{IsAscii};
ghost use Rattle.ascii_devices.specs.Buffered.{AppendsTo, MayFail, output_state};
ghost use Rattle.ascii_run.specs.Streamed.{last_after, stream, whole};

use crate::bounded::BoundedMode;
use crate::modes::caret::Caret;
use crate::modes::escape::Escape;
use crate::modes::json_string::{Escapes, json_string};
use crate::modes::lines::put_lines;
use crate::modes::mapped::put_mapped;
use ascii::{bytes, kernels};
use ascii_devices::{BufferedSink, Sink};
use std::alloc::{AllocError, Allocator};
use std::marker::Model;

/// The largest size of an output buffer in bytes.
pub(crate) const LARGEST: usize = 65_536;

/// The length up to which `Json` appends a whole text in one piece.
const SHORT: usize = 4_096;

/// The most bytes that the output of a mode has for a text of this length, or 0 if a part is
/// appended in one piece.
pub(crate) fn streamed_size(mode: BoundedMode, length: usize) -> usize {
    match mode {
        BoundedMode::Copy | BoundedMode::Upper | BoundedMode::Lower => 0,
        BoundedMode::Lines => length.saturating_add(1),
        BoundedMode::Caret => length.saturating_mul(2),
        BoundedMode::Escape => length.saturating_mul(4),
        BoundedMode::Json if length <= SHORT => 0,
        BoundedMode::Json => length.saturating_mul(6).saturating_add(2),
    }
}

/// A mode whose output is made as the text is read, with all that it needs beside the text.
#[derive(Drop)]
pub(crate) struct Streamed<A: Allocator> {
    mode: BoundedMode,
    /// For `Json`, the JSON string of each character.
    escapes: Escapes<A>,
}

impl<A: Allocator> Model for Streamed<A> {
    ghost use Rattle.std.specs.Prelude.{◌≡◌};
    ghost use Rattle.ascii_run.specs.Modes.Json.{HasEscapes};
    ghost use Rattle.ascii_run.specs.declared.bounded.BoundedMode.{BoundedMode};
    ghost use Rattle.ascii_run.specs.declared.bounded.BoundedMode.TheVariants.{Json};

    ghost Value = { BoundedMode };

    ghost view = { λ streamed. streamed.mode };

    ghost invariant = { λ streamed. streamed.mode ≡ Json → HasEscapes streamed.escapes };
}

impl<A: Allocator + Copy> Streamed<A> {
    /// Makes all allocations that the mode needs.
    pub(crate) fn new(alloc: A, mode: BoundedMode) -> Result<Streamed<A>, AllocError>
        ensures { IfOk result (λ streamed. streamed ≡ mode) }
    {
        let escapes = match mode {
            BoundedMode::Json => Escapes::new(alloc)?,
            _ => Escapes::none(alloc),
        };
        Ok(Streamed { mode, escapes })
    }
}

impl<A: Allocator> Streamed<A> {
    /// What comes before the text.
    pub(crate) fn opening(&self) -> &'static [u8]
        ensures { result.now ≡ (stream self.now).opening }
    {
        match self.mode {
            BoundedMode::Json => b"\"",
            _ => b"",
        }
    }

    /// Appends what the mode adds for a part of the text after the byte `before`. The part may change
    /// in place.
    pub(crate) fn put_part<K: Sink, B: Allocator>(
        &self,
        before: u8,
        part: &mut [u8],
        buffer: &mut BufferedSink<B>,
        writer: &mut K,
    )
        requires { MayFail (output_state K.Sink writer.old buffer.old) }
        ensures { AppendsTo K.Sink writer.old buffer.old writer.new buffer.new
            ((stream self.now).part before part.old) }
    {
        match self.mode {
            BoundedMode::Copy => {}
            BoundedMode::Lines => return put_lines(before, part, buffer, writer),
            BoundedMode::Caret => return put_mapped(&Caret, part, buffer, writer),
            BoundedMode::Escape => return put_mapped(&Escape, part, buffer, writer),
            BoundedMode::Json => return put_mapped(&self.escapes, part, buffer, writer),
            BoundedMode::Upper => kernels::upper_in_place(part),
            BoundedMode::Lower => kernels::lower_in_place(part),
        }
        buffer.put(writer, part);
    }

    /// What comes after the text, whose last byte is `last`.
    pub(crate) fn closing(&self, last: u8) -> &'static [u8]
        ensures { result.now ≡ (stream self.now).closing last }
    {
        match self.mode {
            BoundedMode::Json => b"\"",
            BoundedMode::Lines if last == b'\r' => b"\r\n",
            BoundedMode::Lines if last != b'\n' => b"\n",
            _ => b"",
        }
    }

    /// What comes after a text whose last byte is `last` if an error ends the input.
    pub(crate) fn cut(&self, last: u8) -> &'static [u8]
        ensures { result.now ≡ (stream self.now).cut last }
    {
        match self.mode {
            BoundedMode::Lines => self.closing(last),
            _ => b"",
        }
    }

    /// Appends the output of the mode for a whole text, which may change in place.
    pub(crate) fn put_whole<K: Sink, B: Allocator>(
        &self,
        text: &mut [u8],
        buffer: &mut BufferedSink<B>,
        writer: &mut K,
    )
        requires { MayFail (output_state K.Sink writer.old buffer.old) }
        ensures { AppendsTo K.Sink writer.old buffer.old writer.new buffer.new
            (whole (stream self.now) text.old) }
    {
        let last = last_of(b'\n', text);
        buffer.put(writer, self.opening());
        self.put_part(b'\n', text, buffer, writer);
        buffer.put(writer, self.closing(last));
    }
}

/// Appends the output of the mode for a whole text, which may change in place. If an allocation fails,
/// nothing has been appended.
pub(crate) fn put_streamed<K: Sink, A: Allocator + Copy>(
    alloc: A,
    mode: BoundedMode,
    text: &mut [u8],
    buffer: &mut BufferedSink<A>,
    writer: &mut K,
) -> Result<(), AllocError>
    requires fail { MayFail (output_state K.Sink writer.old buffer.old) }
    requires ascii { IsAscii text.old }
    ensures ok { OnOk result (AppendsTo K.Sink writer.old buffer.old writer.new buffer.new
        (whole (stream mode) text.old)) }
    ensures kept { OnErr result (writer.new ≡ writer.old) }
{
    if mode == BoundedMode::Json && text.len() <= SHORT {
        let output = json_string(alloc, bytes::as_ascii_str_unchecked(text))?;
        buffer.put(writer, output.as_ascii_str().as_bytes());
    } else {
        Streamed::new(alloc, mode)?.put_whole(text, buffer, writer);
    }
    Ok(())
}

/// The last byte of a part of the text after the byte `before`.
pub(crate) fn last_of(before: u8, part: &[u8]) -> u8
    ensures { result ≡ last_after before part.now }
{
    if part.is_empty() {
        before
    } else {
        part[part.len() - 1]
    }
}
