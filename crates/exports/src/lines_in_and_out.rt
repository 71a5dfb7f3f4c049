//! Lines that are read, written and answered, over devices that give and take little or fail.

ghost use Rattle.ascii_lines.specs.Replies.{IsRequest};

use crate::answer::{Answer, NOTHING, Put};
use crate::devices::{Device, Given, Taken};
use crate::steps::Step;
use ascii::iter::Ending;
use ascii::{AsciiChar, AsciiStr};
use ascii_lines::{
    Block, BlockEnd, Duplex, Endings, Handler, Input, LineChannel, LineError, LineReader, LineStep,
    LineWriter, Next, Output, OwnedLine, ReadBytes, ReadLine, ReadPart, Received, Replies, Sink,
    SkippedLine, Stop, WriteError, collect_lines, fold_lines, read_block, serve,
};
use std::alloc::{AllocError, Allocator, Global};

/// What a reader with a buffer of `size` bytes returns to each step, and its position after it; and the number of
/// calls of its source. The kinds are 0 for the next line, 1 to 3 for the endings of `Endings` from now on, 4 for a
/// part of `at` bytes, 5 for the next line as bytes, 6 for a line of up to `at` bytes that is skipped, and 7 for the text up
/// to the next `code`.
pub fn ask_reader(
    alloc: Global,
    source: &[u8],
    size: usize,
    device: &Device,
    steps: &[Step],
    answer: &mut Answer,
) {
    let source = Input::new(Given::new(source, *device));
    let Ok(mut reader) = LineReader::new(alloc, source, size, Endings::Any) else {
        return answer.put(AllocError);
    };
    for step in steps {
        read(&mut reader, *step, answer);
        answer.put(reader.position());
    }
    answer.put(reader.into_source().into_inner().calls);
}

fn read(reader: &mut LineReader<Input<Given>>, step: Step, answer: &mut Answer) {
    match step.kind {
        0 => answer.put(reader.next_line()),
        1 => reader.lines_ended_by(Endings::Any),
        2 => reader.lines_ended_by(Endings::CrLf),
        3 => reader.lines_ended_by(Endings::CrLfStrict),
        4 => answer.put(reader.read_exact_part(step.at)),
        6 => answer.put(reader.skip_line(step.at as u64)),
        7 => answer.put(reader.next_until(
            AsciiChar::from_ascii(step.code).ok().unwrap_or_default(),
        )),
        _ => answer.put(reader.next_bytes()),
    }
}

impl Put for ReadLine<'_> {
    fn put(self, answer: &mut Answer) {
        answer.put((self.start, self.text, self.ending));
    }
}

impl Put for ReadBytes<'_> {
    fn put(self, answer: &mut Answer) {
        answer.put((self.start, self.bytes));
        answer.put(self.text.map_err(|position| ("ascii", position)));
        answer.put(self.ending);
    }
}

impl Put for ReadPart<'_> {
    fn put(self, answer: &mut Answer) {
        answer.put((self.start, self.text));
    }
}

impl Put for SkippedLine {
    fn put(self, answer: &mut Answer) {
        answer.put((self.start, self.length, self.non_ascii));
    }
}

impl Put for LineError {
    fn put(self, answer: &mut Answer) {
        match self {
            LineError::NotAscii(position) => answer.put(("ascii", position)),
            LineError::LoneBreak(position) => answer.put(("lone", position)),
            LineError::TooLong(position) => answer.put(("long", position)),
            LineError::Incomplete(count) => answer.put(("incomplete", count)),
            LineError::TooFar => answer.put("far"),
            LineError::Read => answer.put("read"),
        }
    }
}

/// The lines that are collected, and the error or none; or the position of the reader after an allocation that failed.
pub fn ask_collected_lines(
    alloc: Global,
    source: &[u8],
    size: usize,
    device: &Device,
    answer: &mut Answer,
) {
    let source = Input::new(Given::new(source, *device));
    let Ok(mut reader) = LineReader::new(alloc, source, size, Endings::Any) else {
        return answer.put(AllocError);
    };
    match collect_lines(alloc, &mut reader) {
        Ok(kept) => answer.put((kept.lines, kept.error)),
        Err(error) => answer.put((error, reader.position())),
    }
}

/// How many lines there were, and a number made from their starts and lengths in order.
#[derive(Drop)]
struct LineSum {
    count: u64,
    mixed: u64,
}

impl LineStep for LineSum {
    ghost use Rattle.std.specs.Prelude.{◌≡◌, length};

    ghost after = { λ lines sum. length lines ≡ sum.count };

    fn step(&mut self, line: ReadLine<'_>) {
        self.count += 1;
        let shifted = self.mixed.wrapping_mul(31).wrapping_add(line.start);
        self.mixed = shifted
            .wrapping_mul(31)
            .wrapping_add(line.text.len() as u64);
    }
}

/// The sum of the lines that a reader with a buffer of `size` bytes changes it by, the error or none, and the position
/// after them.
pub fn ask_folded_lines(
    alloc: Global,
    source: &[u8],
    size: usize,
    device: &Device,
    answer: &mut Answer,
) {
    let source = Input::new(Given::new(source, *device));
    let Ok(mut reader) = LineReader::new(alloc, source, size, Endings::Any) else {
        return answer.put(AllocError);
    };
    let mut sum = LineSum { count: 0, mixed: 0 };
    let error = fold_lines(&mut reader, &mut sum).err();
    answer.put((sum.count, sum.mixed));
    answer.put((error, reader.position()));
}

impl Put for OwnedLine {
    fn put(self, answer: &mut Answer) {
        answer.put((self.start, self.text, self.ending));
    }
}

/// The lines up to an empty one, at most `most`, that a reader with a buffer of `size` bytes returns, why there are no more,
/// and the position after them.
pub fn ask_block(
    alloc: Global,
    source: &[u8],
    size: usize,
    device: &Device,
    most: usize,
    answer: &mut Answer,
) {
    let source = Input::new(Given::new(source, *device));
    let Ok(mut reader) = LineReader::new(alloc, source, size, Endings::Any) else {
        return answer.put(AllocError);
    };
    answer.put_result(read_block(alloc, &mut reader, most));
    answer.put(reader.position());
}

impl Put for Block {
    fn put(self, answer: &mut Answer) {
        answer.put(self.lines);
        match self.end {
            BlockEnd::EmptyLine => answer.put("empty"),
            BlockEnd::EndOfInput => answer.put(NOTHING),
            BlockEnd::Full => answer.put("full"),
            BlockEnd::Reader(error) => answer.put(error),
        }
    }
}

/// What a writer with a buffer of `size` bytes returns to each step, the number of calls of its sink, and what that
/// has taken. The kinds are 0 to 2 for a text with an ending, in the order of `Ending`, 3 for a flush, and 4 for a
/// text as it is.
pub fn ask_writer(
    alloc: Global,
    texts: AsciiStr,
    size: usize,
    device: &Device,
    steps: &[Step],
    answer: &mut Answer,
) {
    let sink = Output::new(Taken::new(alloc, *device));
    let Ok(mut writer) = LineWriter::new(alloc, sink, size) else {
        return answer.put(AllocError);
    };
    for step in steps {
        answer.put(write(&mut writer, *step, texts));
    }
    answer.put(writer.into_sink().into_inner());
}

fn write(
    writer: &mut LineWriter<Output<Taken>>,
    step: Step,
    texts: AsciiStr,
) -> Result<(), WriteError> {
    let text = step.text(texts);
    match step.kind {
        0 => writer.write_line(text, Ending::Lf),
        1 => writer.write_line(text, Ending::CrLf),
        2 => writer.write_line(text, Ending::Absent),
        3 => writer.flush(),
        _ => writer.write_part(text),
    }
}

impl Put for WriteError {
    fn put(self, answer: &mut Answer) {
        match self {
            WriteError::LineBreak(position) => answer.put(("break", position)),
            WriteError::Write => answer.put("write"),
        }
    }
}

/// Why a conversation stops, and what went out. `Echo` says what is replied.
pub fn ask_conversation(
    alloc: Global,
    source: &[u8],
    size: usize,
    reads: &Device,
    writes: &Device,
    answer: &mut Answer,
) {
    let device = Duplex::new(Given::new(source, *reads), Taken::new(alloc, *writes));
    let Ok(mut lines) = LineChannel::new(alloc, device, size, Endings::Any, Ending::CrLf) else {
        return answer.put(AllocError);
    };
    let mut echo = Echo {
        alloc,
        awaits_part: false,
        fault: None,
    };
    match (serve(&mut lines, &mut echo), echo.fault) {
        (Stop::Closed, Some(error)) => answer.put(error),
        (stop, _) => answer.put(stop),
    }
    let (_, output) = lines.into_device().into_parts();
    answer.put(output.into_inner().bytes.as_slice());
}

/// A handler. It replies to a line or a part in upper case. After a line that starts with `p` it asks for a
/// part of three bytes, and after the line `q` it closes; so it does if a reply has a break.
#[derive(Drop)]
struct Echo {
    alloc: Global,
    awaits_part: bool,
    fault: Option<WriteError>,
}

impl Echo {
    /// What is asked for after a text.
    fn next(&mut self, text: AsciiStr) -> Next
        ensures { IsRequest result }
    {
        let is_part = self.awaits_part;
        self.awaits_part = !is_part && text.first() == Some(AsciiChar::p);
        if self.awaits_part {
            Next::Part(3)
        } else if !is_part && text.as_bytes() == b"q".as_slice() {
            Next::Close
        } else {
            Next::Line
        }
    }
}

impl Handler for Echo {
    ghost use Rattle.std.specs.Prelude.{⊤};

    ghost answers = { λ _ _ _ _ _. ⊤ };

    ghost refuses = { λ _ _ _ _ _. ⊤ };

    fn answer<K: Sink, A: Allocator>(
        &mut self,
        received: Received,
        replies: &mut Replies<K, A>,
    ) -> Next {
        let text = received.text().unwrap_or_default();
        let Ok(reply) = text.to_ascii_uppercase(self.alloc) else {
            self.fault = Some(WriteError::Write);
            return Next::Close;
        };
        match replies.line(reply.as_ascii_str()) {
            Ok(()) => self.next(text),
            Err(place) => {
                self.fault = Some(WriteError::LineBreak(place));
                Next::Close
            }
        }
    }

    fn refuse<K: Sink, A: Allocator>(
        &mut self,
        _error: LineError,
        _replies: &mut Replies<K, A>,
    ) -> Next {
        Next::Close
    }
}
