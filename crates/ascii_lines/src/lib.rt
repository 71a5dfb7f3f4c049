//! Lines of an input, read and written in bounded memory.
//!
//! `LineReader` reads any `Source` through one buffer of a size that the caller chooses, and lends each line out of
//! it, with the position where it starts and how it ends. A byte that is not ASCII, a line that is longer than the
//! buffer and, if the caller asks for it, a CR or an LF by itself are errors with their position, returned after the
//! lines before them; `skip_line` reads over such a line. `LineWriter` writes lines into any `Sink` through one buffer.
//!
//! | To | Use |
//! |---|---|
//! | read lines one after another | `LineReader::next_line` |
//! | read lines that may have other bytes than ASCII | `LineReader::next_bytes` |
//! | choose which endings end a line | `Endings`, an argument of `LineReader::new` |
//! | read a part of an announced length | `LineReader::read_exact_part` |
//! | read a text up to a character of your choice | `LineReader::next_until` |
//! | go on after a line that was rejected | `LineReader::skip_line` |
//! | change a state by each line | `fold_lines`, with a `LineStep` |
//! | keep all lines, or those up to an empty one | `collect_lines`, `read_block` |
//! | write lines, and texts with line breaks in them | `LineWriter::write_line`, `write_part` |
//! | answer each line of an input with lines | `serve`, with a `Handler` |
//! | answer lines in an event loop of your own | `Conversation`, with the same `Handler` |
//!
//! After an error, `position` of a reader is that of the line or part at fault; after an error of `skip_line` it is the
//! one after the bytes that were skipped. The reader holds all bytes that it has read from there on.
#![tactic(auto)]

mod conversation;
mod errors;
mod folding;
mod line_buffer;
mod line_cursor;
mod line_reader;
mod line_writer;
mod owned_lines;
mod serving;
mod skipping;
mod wanted;

pub use ascii::iter::{Ending, Endings};
pub use ascii::{AsciiChar, AsciiStr, AsciiString};
pub use ascii_devices::{Channel, DeviceFault, Duplex, Input, Output, Sink, Source};
pub use conversation::{Awaited, Conversation, Supply};
pub use folding::{LineStep, fold_lines};
pub use line_reader::{LineError, LineReader, ReadBytes, ReadLine, ReadPart};
pub use line_writer::{LineWriter, WriteError};
pub use owned_lines::{Block, BlockEnd, CollectedLines, OwnedLine, collect_lines, read_block};
pub use serving::{Handler, LineChannel, Next, Received, Replies, Stop, serve};
pub use skipping::SkippedLine;
