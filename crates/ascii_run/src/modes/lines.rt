//! The mode `Lines`.

ghost use Rattle.std.specs.Prelude.{◌≡◌, ℕ, List};
ghost use Rattle.ascii.specs.View.{text_of};
ghost use Rattle.ascii_run.specs.Streamed.{IsLastSegment, held_cr, lines_part, without_last_cr};
ghost use Rattle.ascii_devices.specs.Buffered.{AppendsTo, MayFail, output_state};
ghost use Rattle.ascii_run.specs.Modes.Lines.{with_line_feed};

use ascii::AsciiStr;
use ascii_devices::{BufferedSink, Sink};
use memchr::memmem::Finder;
use std::alloc::Allocator;

/// Appends what `Lines` adds for a part of a text after the byte `before`: a CR that was held back,
/// unless LF follows, and the part without each CR that is before LF. A last CR is held back.
pub(crate) fn put_lines<K: Sink, A: Allocator>(
    before: u8,
    part: &[u8],
    buffer: &mut BufferedSink<A>,
    writer: &mut K,
)
    requires { MayFail (output_state K.Sink writer.old buffer.old) }
    ensures { AppendsTo K.Sink writer.old buffer.old writer.new buffer.new
        (lines_part before part.now) }
{
    if part.is_empty() {
        return;
    }
    buffer.put(writer, held_back(before, part[0]));
    let remaining = put_segments(part, buffer, writer);
    buffer.put(writer, without_last_cr(remaining));
}

/// A CR that was held back after the byte `before`, unless LF follows.
fn held_back(before: u8, next: u8) -> &'static [u8]
    ensures { result.now ≡ held_cr before next }
{
    if before == b'\r' && next != b'\n' {
        b"\r"
    } else {
        b""
    }
}

/// The bytes without a last CR.
fn without_last_cr(bytes: &[u8]) -> &[u8]
    ensures { result.now ≡ without_last_cr bytes.now }
{
    if !bytes.is_empty() && bytes[bytes.len() - 1] == b'\r' {
        &bytes[..bytes.len() - 1]
    } else {
        bytes
    }
}

/// Appends the bytes up to the LF of the last CR LF, without each CR that is before LF, and returns
/// the remaining bytes: that LF and what follows it, or all bytes if there is no CR LF.
fn put_segments<'a, K: Sink, A: Allocator>(
    text: &'a [u8],
    buffer: &mut BufferedSink<A>,
    writer: &mut K,
) -> &'a [u8]
    requires { MayFail (output_state K.Sink writer.old buffer.old) }
    ensures { (done : List ℕ)
        × AppendsTo K.Sink writer.old buffer.old writer.new buffer.new done
        × IsLastSegment text.entry.now done result.now }
{
    let ending = Finder::new(b"\r\n");
    let mut remaining = text;
    'segments: while let Some(place) = ending.find(remaining) {
        let (segment, behind) = remaining.split_at(place);
        buffer.put(writer, segment);
        remaining = &behind[1..];
    }
    remaining
}

/// Appends a body and LF.
#[inline(always)]
pub(super) fn put_line<K: Sink, A: Allocator>(
    body: AsciiStr<'_>,
    buffer: &mut BufferedSink<A>,
    writer: &mut K,
)
    requires { MayFail (output_state K.Sink writer.old buffer.old) }
    ensures { AppendsTo K.Sink writer.old buffer.old writer.new buffer.new
        (with_line_feed (text_of body.entry)) }
{
    buffer.put_line(writer, body.as_bytes());
}
