//! The modes of a run from bytes to bytes: a line for each in the table `render_output`, and a file
//! for the output of each.

ghost use Rattle.std.specs.Prelude.{◌≡◌, IfErr, MatchOption, OnErr, OnOk};
ghost use Rattle.std.specs.Str.{IsAscii};
ghost use Rattle.ascii_run.specs.Engine.{StopsOutput};
ghost use Rattle.ascii_devices.specs.Buffered.{MayFail, output_state};
ghost use Rattle.ascii_run.specs.Names.{IsPlain, IsPlainName, mode_name};
ghost use Rattle.ascii_run.specs.OutputState.{AppendsOutputTo};

pub(crate) mod caret;
mod edit;
mod ends;
pub(crate) mod escape;
pub(crate) mod json_string;
pub(crate) mod lines;
pub(crate) mod mapped;
mod tac;

use crate::bounded::BoundedMode;
use crate::commands::Cmd;
use crate::faults::EngineFault;
use crate::streamed::{LARGEST, put_streamed, streamed_size};
use ascii::iter::End;
use ascii::{AsciiString, bytes};
use ascii_devices::{BufferedSink, Sink};
use edit::put_edit;
use ends::{Shown, put_ends};
use std::alloc::Allocator;
use tac::put_tac;

/// What a run does with the text of its input.
#[derive(Clone, Copy)]
pub enum Mode<'a> {
    /// The text itself.
    Copy,
    /// The body of each line and LF, from the front.
    Lines,
    /// The body of each line and LF, from the back.
    Tac,
    /// Each character; a control character other than LF as `^` and its caret letter.
    Caret,
    /// For each end of the script what one iterator of lines yields: `+`, the body and LF, or `-`
    /// and LF if there are none left.
    Ends(&'a [End]),
    /// Like `Ends`, but with the start and the ending of each line: `+`, the start in decimal, a
    /// space, `lf`, `crlf` or `none`, a space, the body and LF, or `-` and LF if there are none
    /// left.
    EndsSpans(&'a [End]),
    /// The text after the commands, in order.
    Edit(&'a [Cmd<'a>]),
    /// The text as a compact JSON string.
    Json,
}

impl<'a> Mode<'a> {
    /// Returns the name of the mode: that of its variant, in lower case; `EndsSpans` has that of `Ends`.
    ///
    ///     Mode::Tac.name() // "tac"
    ///     Mode::EndsSpans(&[]).name() // "ends"
    pub fn name(self) -> &'static str
        ensures { result.now ≡ mode_name self.entry }
    {
        match self {
            Mode::Copy => BoundedMode::Copy.name(),
            Mode::Lines => BoundedMode::Lines.name(),
            Mode::Tac => "tac",
            Mode::Caret => BoundedMode::Caret.name(),
            Mode::Ends(_) | Mode::EndsSpans(_) => "ends",
            Mode::Edit(_) => "edit",
            Mode::Json => BoundedMode::Json.name(),
        }
    }

    /// Returns the mode with this name, or `None` if no mode has the name or the mode takes a script or
    /// commands.
    ///
    ///     Mode::from_name("tac").is_some() // true
    ///     Mode::from_name("ends").is_some() // false
    ///     Mode::from_name("upper").is_some() // false
    pub fn from_name(name: &str) -> Option<Mode<'static>>
        ensures { MatchOption result (¬ (IsPlainName name.now))
            (λ mode. IsPlain mode × (name.now ≡ mode_name mode)) }
    {
        if name == "tac" {
            return Some(Mode::Tac);
        }
        let Some(mode) = BoundedMode::from_name(name) else {
            return None;
        };
        match mode {
            BoundedMode::Copy => Some(Mode::Copy),
            BoundedMode::Lines => Some(Mode::Lines),
            BoundedMode::Caret => Some(Mode::Caret),
            BoundedMode::Json => Some(Mode::Json),
            _ => None,
        }
    }
}

/// The size in bytes of the output buffer for a mode and a text of this length: what the output has
/// at most, up to `LARGEST`, or 0 if the output is appended in one piece.
pub(crate) fn buffer_size(mode: Mode<'_>, length: usize) -> usize {
    let most = match mode {
        Mode::Copy => streamed_size(BoundedMode::Copy, length),
        Mode::Lines => streamed_size(BoundedMode::Lines, length),
        Mode::Caret => streamed_size(BoundedMode::Caret, length),
        Mode::Json => streamed_size(BoundedMode::Json, length),
        Mode::Edit(_) => 0,
        Mode::Tac => length.saturating_add(1),
        Mode::Ends(script) => length.saturating_add(script.len().saturating_mul(2)),
        Mode::EndsSpans(script) => length.saturating_add(script.len().saturating_mul(28)),
    };
    most.min(LARGEST)
}

/// Appends the output of the mode for a text. On error, nothing has been appended.
pub(crate) fn render_output<K: Sink, A: Allocator + Copy>(
    alloc: A,
    mode: Mode<'_>,
    mut input: Vec<u8, A>,
    buffer: &mut BufferedSink<A>,
    writer: &mut K,
) -> Result<(), EngineFault>
    requires fail { MayFail (output_state K.Sink writer.old buffer.old) }
    requires ascii { IsAscii input.items }
    ensures ok { OnOk result (AppendsOutputTo mode.entry input.items
        K.Sink writer.old buffer.old writer.new buffer.new) }
    ensures err { IfErr result (StopsOutput mode.entry input.items) }
    ensures kept { OnErr result (writer.new ≡ writer.old) }
{
    let text = &mut input[..];
    match mode {
        Mode::Copy => put_streamed(alloc, BoundedMode::Copy, text, buffer, writer)?,
        Mode::Lines => put_streamed(alloc, BoundedMode::Lines, text, buffer, writer)?,
        Mode::Caret => put_streamed(alloc, BoundedMode::Caret, text, buffer, writer)?,
        Mode::Json => put_streamed(alloc, BoundedMode::Json, text, buffer, writer)?,
        Mode::Tac => put_tac(bytes::as_ascii_str_unchecked(text), buffer, writer),
        Mode::Ends(script) => {
            let text = bytes::as_ascii_str_unchecked(text);
            put_ends(text, script, Shown::Body, buffer, writer);
        }
        Mode::EndsSpans(script) => {
            let text = bytes::as_ascii_str_unchecked(text);
            put_ends(text, script, Shown::Span, buffer, writer);
        }
        Mode::Edit(cmds) => {
            let text = AsciiString::from_ascii_unchecked(input);
            put_edit(alloc, text, cmds, buffer, writer)?;
        }
    }
    Ok(())
}
