//! Direct calls of devices, and of a buffer before one, over a reader and a writer that follow a plan.
//!
//! Each call takes the next step of the plan. A step of the kind 0 moves at most `at` bytes, and lets a flush succeed; one
//! of another kind fails with the error number `code`. After the last step all bytes move.

use crate::answer::{Answer, NOTHING};
use crate::devices::{error_of, kept};
use crate::steps::Step;
use ascii_devices::{BufferedSink, DeviceFault, Duplex, Output, Sink, Source, zeros};
use std::alloc::{AllocError, Global};
use std::io;

/// Takes the next step of a plan: how many bytes may move.
fn follow(plan: &mut &[Step]) -> io::Result<usize> {
    let Some((step, others)) = plan.split_first() else {
        return Ok(usize::MAX);
    };
    *plan = others;
    if step.kind == 0 {
        Ok(step.at)
    } else {
        Err(error_of(step.code))
    }
}

/// A reader of bytes that follows a plan.
#[derive(Drop)]
struct Giving<'a> {
    plan: &'a [Step],
    bytes: &'a [u8],
}

impl io::Read for Giving<'_> {
    fn read(&mut self, buf: &mut [u8]) -> io::Result<usize> {
        let most = follow(&mut self.plan)?;
        let n = most.min(buf.len()).min(self.bytes.len());
        let (now, later) = self.bytes.split_at(n);
        buf[..n].copy_from_slice(now);
        self.bytes = later;
        Ok(n)
    }
}

/// A writer that follows a plan, and writes down its calls: the bytes that it took and `|` for a write, `!` for a flush.
#[derive(Drop)]
struct Recording<'a> {
    plan: &'a [Step],
    calls: Vec<u8>,
}

impl io::Write for Recording<'_> {
    fn write(&mut self, buf: &[u8]) -> io::Result<usize> {
        let most = follow(&mut self.plan)?;
        let n = most.min(buf.len());
        self.calls.extend_from_slice(&buf[..n])?;
        self.calls.push(b'|')?;
        Ok(n)
    }

    fn flush(&mut self) -> io::Result<()> {
        follow(&mut self.plan)?;
        self.calls.push(b'!')?;
        Ok(())
    }
}

/// What a device of both directions returns to each step, and how many reads and writes have failed. The kinds are 0
/// for a read of up to `at` bytes, at most 8, 1 for a write of a text, and 2 for a flush. At the end, the numbers of
/// the last error of each direction if `tells_errors`, otherwise the calls of the writer.
pub fn ask_device_calls(
    alloc: Global,
    tells_errors: bool,
    source: &[u8],
    texts: &[u8],
    steps: &[Step],
    reads: &[Step],
    writes: &[Step],
    answer: &mut Answer,
) {
    let reader = Giving {
        plan: reads,
        bytes: source,
    };
    let writer = Recording {
        plan: writes,
        calls: kept(alloc),
    };
    let mut duplex = Duplex::new(reader, writer);
    for step in steps {
        call(&mut duplex, *step, texts, answer);
    }
    let (input, output) = duplex.into_parts();
    if tells_errors {
        answer.put((input.into_error(), output.into_error()));
    } else {
        answer.put(output.into_inner().calls.as_slice());
    }
}

fn call<D: Source + Sink>(device: &mut D, step: Step, texts: &[u8], answer: &mut Answer) {
    if step.kind == 0 {
        read(device, step.at.min(8), answer);
    } else {
        write(device, step, texts, answer);
    }
    answer.put((Source::failures(device), Sink::failures(device)));
}

fn read<S: Source>(source: &mut S, n: usize, answer: &mut Answer) {
    let mut buf = [0; 8];
    if n == 0 || n > 8 || source.failures() == u64::MAX {
        return answer.put(NOTHING);
    }
    match source.read(&mut buf[..n]) {
        Ok(count) => answer.put(&buf[..count]),
        Err(DeviceFault) => answer.put("read"),
    }
}

fn write<K: Sink>(sink: &mut K, step: Step, texts: &[u8], answer: &mut Answer) {
    let text = text_of(step, texts);
    if sink.failures() == u64::MAX || text.is_empty() && step.kind == 1 {
        return answer.put(NOTHING);
    }
    let done = if step.kind == 1 {
        sink.write(text)
    } else {
        sink.flush().map(|()| 0)
    };
    answer.put(done.map_err(|_| "write"));
}

/// The step's bytes, which are none if its bounds do not fit.
fn text_of<'a>(step: Step, texts: &'a [u8]) -> &'a [u8] {
    texts.get(step.start..step.end).unwrap_or_default()
}

/// As many zeros as a buffer has bytes. Then what the buffer does before a writer: whether a write has failed after
/// the steps, whether `finish` succeeds, how many calls have failed, and the calls of the writer. The kinds are 0 for `put`,
/// 1 for `put_front` of `at` bytes, 2 for `put_line`, and 3 for `give_up`.
pub fn ask_buffered(
    alloc: Global,
    size: usize,
    texts: &[u8],
    steps: &[Step],
    plan: &[Step],
    answer: &mut Answer,
) {
    match zeros(alloc, size) {
        Ok(zeros) => answer.put(zeros.as_slice()),
        Err(error) => answer.put(error),
    }
    let mut output = Output::new(Recording {
        plan,
        calls: kept(alloc),
    });
    if let Ok(mut buffer) = BufferedSink::new(alloc, size) {
        for step in steps {
            append(&mut buffer, &mut output, *step, text_of(*step, texts));
        }
        finish(&mut buffer, &mut output, answer);
        answer.put((output.failures(), output.into_inner().calls.as_slice()));
    } else {
        answer.put(AllocError);
    }
}

fn finish<K: Sink>(buffer: &mut BufferedSink<Global>, sink: &mut K, answer: &mut Answer) {
    answer.put(buffer.is_broken());
    if sink.failures() < u64::MAX {
        answer.put(buffer.finish(sink).is_ok());
    }
}

fn append<K: Sink>(buffer: &mut BufferedSink<Global>, sink: &mut K, step: Step, text: &[u8]) {
    if step.kind == 3 || sink.failures() == u64::MAX {
        return buffer.give_up();
    }
    match step.kind {
        0 => buffer.put(sink, text),
        1 => buffer.put_front(sink, text, step.at.min(text.len())),
        _ => buffer.put_line(sink, text),
    }
}
