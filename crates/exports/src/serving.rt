//! A conversation with a handler of a few words.

ghost use Rattle.ascii_lines.specs.Replies.{IsRequest};

use crate::answer::{Answer, NOTHING, Put};
use crate::devices::{Device, Given, Taken};
use ascii::{AsciiStr, text};
use ascii_lines::{
    Conversation, Duplex, Ending, Endings, Handler, LineChannel, LineError, LineWriter, Next,
    Output, Received, Replies, Sink, Stop, serve,
};
use std::alloc::{AllocError, Allocator, Global};

/// Why a conversation stops, how many texts the handler was handed, the number of calls of the reader and of the writer,
/// and what the writer took. `Words` says what is replied. The number of the endings is their index in `Endings`.
pub fn ask_served(
    alloc: Global,
    endings: u8,
    size: usize,
    source: &[u8],
    reads: &Device,
    writes: &Device,
    answer: &mut Answer,
) {
    let endings = endings_by(endings);
    let device = Duplex::new(Given::new(source, *reads), Taken::new(alloc, *writes));
    let Ok(mut lines) = LineChannel::new(alloc, device, size, endings, Ending::CrLf) else {
        return answer.put(AllocError);
    };
    let mut words = Words { count: 0 };
    answer.put(serve(&mut lines, &mut words));
    let (input, output) = lines.into_device().into_parts();
    answer.put((words.count, input.into_inner().calls, output.into_inner()));
}

/// Why a conversation without a device is over, the number of calls of the handler that answered, the position, and the
/// replies. It is fed with an input in pieces of these lengths, and then with the other bytes; after them the source ends,
/// or fails.
pub fn ask_fed(
    alloc: Global,
    endings: u8,
    size: usize,
    source: &[u8],
    lengths: &[u8],
    fails: u8,
    answer: &mut Answer,
) {
    let Ok(mut talk) = Conversation::new(alloc, size, endings_by(endings)) else {
        return answer.put(AllocError);
    };
    let Ok(writer) = LineWriter::new(alloc, Output::new(Vec::new(alloc)), 64) else {
        return answer.put(AllocError);
    };
    let mut replies = Replies::new(writer, Ending::CrLf);
    let mut words = Words { count: 0 };
    let mut left = source;
    'pieces: for length in lengths {
        let (piece, others) = left.split_at((*length as usize).min(left.len()));
        feed_whole(&mut talk, &mut words, piece, &mut replies);
        left = others;
    }
    feed_whole(&mut talk, &mut words, left, &mut replies);
    'ends: for _ in 0..=source.len() {
        if fails == 0 {
            talk.end(&mut words, &mut replies);
        } else {
            talk.fail(&mut words, &mut replies);
        }
        if talk.is_closed() {
            break;
        }
        talk.sent(&mut words, &mut replies);
    }
    answer.put(talk.stop().unwrap_or(Stop::Closed));
    let _ = replies.flush();
    let written = replies.into_writer().into_sink().into_inner();
    answer.put((words.count, talk.position(), written.as_slice()));
}

/// What a conversation without a device does in each of these steps, and then as `ask_fed`. A step is the number of bytes that
/// it is fed with, after those that it took; 255, by which the replies were sent; 254, the end of the source; or 253, its
/// failure. After each step: the bytes that it did not take, the calls of the handler that answered, and whether it awaits that
/// the replies are sent.
pub fn ask_sent(alloc: Global, size: usize, source: &[u8], steps: &[u8], answer: &mut Answer) {
    let Ok(mut talk) = Conversation::new(alloc, size, Endings::Any) else {
        return answer.put(AllocError);
    };
    let Ok(writer) = LineWriter::new(alloc, Output::new(Vec::new(alloc)), 64) else {
        return answer.put(AllocError);
    };
    let mut replies = Replies::new(writer, Ending::CrLf);
    let mut words = Words { count: 0 };
    let mut left = source;
    'steps: for step in steps {
        match *step {
            255 => talk.sent(&mut words, &mut replies),
            254 => talk.end(&mut words, &mut replies),
            253 => talk.fail(&mut words, &mut replies),
            length => {
                let (piece, _) = left.split_at((length as usize).min(left.len()));
                let n = talk.feed(&mut words, piece, &mut replies);
                left = &left[n..];
            }
        }
        answer.put((left.len(), words.count, talk.is_sending()));
    }
    match talk.stop() {
        Some(stop) => answer.put(stop),
        None => answer.put("open"),
    }
    let _ = replies.flush();
    let written = replies.into_writer().into_sink().into_inner();
    answer.put((talk.position(), written.as_slice()));
}

/// Feeds a conversation with a piece of an input until it has taken all bytes, or is over. The replies are sent at once.
fn feed_whole<K: Sink, A: Allocator, B: Allocator>(
    talk: &mut Conversation<A>,
    words: &mut Words,
    piece: &[u8],
    replies: &mut Replies<K, B>,
) {
    let mut left = piece;
    'feeds: for _ in 0..piece.len() {
        if left.is_empty() || talk.is_closed() {
            return;
        }
        let n = talk.feed(words, left, replies);
        left = &left[n..];
        'sends: for _ in 0..=piece.len() {
            talk.sent(words, replies);
        }
    }
}

/// Endings by their number.
fn endings_by(number: u8) -> Endings {
    match number {
        0 => Endings::Any,
        1 => Endings::CrLf,
        _ => Endings::CrLfStrict,
    }
}

impl Put for Stop {
    fn put(self, answer: &mut Answer) {
        match self {
            Stop::Closed => answer.put("closed"),
            Stop::EndOfInput => answer.put(NOTHING),
            Stop::Reader(error) => answer.put(error),
            Stop::Writer => answer.put("write"),
        }
    }
}

/// What a greeting returns, and after one that is written a conversation; the position in the input after the greeting and
/// after the conversation, and what the writer took.
pub fn ask_greeted(
    alloc: Global,
    size: usize,
    greeting: AsciiStr,
    source: &[u8],
    reads: &Device,
    writes: &Device,
    answer: &mut Answer,
) {
    let device = Duplex::new(Given::new(source, *reads), Taken::new(alloc, *writes));
    let Ok(mut lines) = LineChannel::new(alloc, device, size, Endings::Any, Ending::CrLf) else {
        return answer.put(AllocError);
    };
    match lines.greet(greeting) {
        Ok(()) => {
            answer.put(lines.position());
            let mut words = Words { count: 0 };
            let _ = serve(&mut lines, &mut words);
        }
        Err(error) => answer.put(error),
    }
    answer.put(lines.position());
    let (_, output) = lines.into_device().into_parts();
    answer.put(output.into_inner().bytes.as_slice());
}

/// The view of a text, which is empty if the text is not ASCII.
fn ascii(source: &str) -> AsciiStr {
    text::as_ascii_str(source).unwrap_or_default()
}

/// A handler of a few words, which counts the texts that it is handed.
#[derive(Drop)]
struct Words {
    count: u8,
}

impl Words {
    /// The lines that reply to a text, and what comes next. After `part` comes a part, which is answered as a line is; after
    /// `bytes` one that may have any bytes, which is answered by itself if it is not ASCII; after `hold` the next line, once
    /// the replies were sent.
    fn reply(count: u8, text: AsciiStr) -> (&'static str, Next)
        ensures { IsRequest result.1 }
    {
        match text.as_str() {
            "part" => ("", Next::Part(4)),
            "bytes" => ("", Next::Bytes(4)),
            "two" => ("one\r\ntwo\r\n", Next::Line),
            "hold" => ("ok\r\n", Next::LineOnceSent),
            _ if count > 9 => ("many\r\n", Next::Line),
            _ => ("ok\r\n", Next::Line),
        }
    }

    /// The line that replies to an error, and what comes next.
    fn refusal(error: LineError) -> (&'static str, Next)
        ensures { IsRequest result.1 }
    {
        match error {
            LineError::NotAscii(_) => ("bad byte\n", Next::Line),
            LineError::LoneBreak(_) => ("bad break\n", Next::LineOnceSent),
            LineError::TooLong(_) => ("too long\n", Next::Part(2)),
            _ => ("closed\n", Next::Close),
        }
    }
}

impl Handler for Words {
    ghost use Rattle.std.specs.Prelude.{⊤};

    ghost answers = { λ _ _ _ _ _. ⊤ };

    ghost refuses = { λ _ _ _ _ _. ⊤ };

    fn answer<K: Sink, A: Allocator>(
        &mut self,
        received: Received,
        replies: &mut Replies<K, A>,
    ) -> Next {
        self.count = self.count.saturating_add(1);
        let Some(text) = received.text() else {
            replies.bytes(received.bytes());
            return Next::Line;
        };
        if text.as_str() == "quit" {
            replies.fixed_line(AsciiStr::literal("bye"));
            return Next::Close;
        }
        if received.ending() == Ending::Absent && text.as_str() == "cut" {
            replies.part(ascii("cut off"));
            return Next::Close;
        }
        let (reply, next) = Words::reply(self.count, text);
        replies.part(ascii(reply));
        next
    }

    fn refuse<K: Sink, A: Allocator>(
        &mut self,
        error: LineError,
        replies: &mut Replies<K, A>,
    ) -> Next {
        let (reply, next) = Words::refusal(error);
        replies.part(ascii(reply));
        next
    }
}
