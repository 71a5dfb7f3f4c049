//! The modes `Ends` and `EndsSpans`.

ghost use Rattle.std.specs.Prelude.{◌≡◌, ◌++◌, codes, decimal};
ghost use Rattle.std.specs.Option.{option_map};
ghost use Rattle.ascii.specs.Spans.{line_in};
ghost use Rattle.ascii.specs.View.{text_of};
ghost use Rattle.ascii_devices.specs.Buffered.{AppendsTo, MayFail, output_state};
ghost use Rattle.ascii_run.specs.OutputState.{AppendsOutputTo};
ghost use Rattle.ascii_run.specs.Modes.Ends.{ending_word, mode_of, shown_text};
ghost use Rattle.ascii_run.specs.Modes.Lines.{with_line_feed};

use super::lines::put_line;
use ascii::AsciiStr;
use ascii::iter::{End, Ending, LineSpan, take_end};
use ascii_devices::{BufferedSink, Sink};
use itoa::Buffer;
use std::alloc::Allocator;

/// What a mode shows of a line.
#[derive(Clone, Copy)]
pub(super) enum Shown {
    /// Its body.
    Body,
    /// Its start, its ending and its body.
    Span,
}

/// Appends what one iterator of lines yields to a script of ends, a line for each end.
pub(super) fn put_ends<K: Sink, A: Allocator>(
    text: AsciiStr<'_>,
    script: &[End],
    shown: Shown,
    buffer: &mut BufferedSink<A>,
    writer: &mut K,
)
    requires { MayFail (output_state K.Sink writer.old buffer.old) }
    ensures { AppendsOutputTo (mode_of shown script.entry) (text_of text.entry)
        K.Sink writer.old buffer.old writer.new buffer.new }
{
    let mut lines = text.line_spans();
    for end in script {
        put_answer(take_end(&mut lines, *end), shown, buffer, writer);
    }
}

/// Appends an answer: `+`, what is shown of the line and LF, or `-` and LF.
fn put_answer<K: Sink, A: Allocator>(
    answer: Option<LineSpan<'_>>,
    shown: Shown,
    buffer: &mut BufferedSink<A>,
    writer: &mut K,
)
    requires { MayFail (output_state K.Sink writer.old buffer.old) }
    ensures { AppendsTo K.Sink writer.old buffer.old writer.new buffer.new
        (shown_text shown (option_map line_in answer.entry)) }
{
    let Some(span) = answer else {
        return buffer.put(writer, b"-\n");
    };
    buffer.put(writer, b"+");
    match shown {
        Shown::Body => put_line(span.text, buffer, writer),
        Shown::Span => put_span(span, buffer, writer),
    }
}

/// Appends the start, the ending's word and the body with spaces between, and LF.
fn put_span<K: Sink, A: Allocator>(span: LineSpan<'_>, buffer: &mut BufferedSink<A>, writer: &mut K)
    requires { MayFail (output_state K.Sink writer.old buffer.old) }
    ensures { AppendsTo K.Sink writer.old buffer.old writer.new buffer.new
        (decimal span.entry.start ++ (codes " " ++ (ending_word span.entry.ending
        ++ (codes " " ++ with_line_feed (text_of span.entry.text))))) }
{
    let mut number = Buffer::new();
    buffer.put(writer, number.format(span.start).as_bytes());
    buffer.put(writer, word_of_ending(span.ending));
    put_line(span.text, buffer, writer);
}

/// The word of an ending, with a space before and after it.
fn word_of_ending(ending: Ending) -> &'static [u8]
    ensures { result.now ≡ codes " " ++ (ending_word ending ++ codes " ") }
{
    match ending {
        Ending::Lf => b" lf ",
        Ending::CrLf => b" crlf ",
        Ending::Absent => b" none ",
    }
}
