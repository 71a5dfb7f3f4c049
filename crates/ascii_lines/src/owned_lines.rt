//! The lines of a source as owned text.

ghost use Rattle.std.specs.Prelude.{◌≡◌, IfOk, List, OnErr};
ghost use Rattle.ascii.specs.Lines.{Line};
ghost use Rattle.ascii.specs.Spans.{WithStart};
ghost use Rattle.ascii_lines.specs.CollectedLines.{AreFirstLines, YieldsUntil, owned_line_in};
ghost use Rattle.ascii_lines.specs.CollectedLines.{YieldsBlock, block_lines_in, collected_lines_in};
ghost use Rattle.ascii_lines.specs.LineReader.{IsOpen, YieldsLines, read_line_in};

use crate::line_reader::{LineError, LineReader, ReadLine};
use ascii::AsciiString;
use ascii::iter::Ending;
use ascii_devices::Source;
use std::alloc::{AllocError, Allocator, Global};

/// A line as owned text.
#[derive(Drop)]
pub struct OwnedLine {
    /// The position of its first byte in the input, counted from 0.
    pub start: u64,
    /// The body.
    pub text: AsciiString,
    /// The ending.
    pub ending: Ending,
}

/// The lines that a reader returned, in order, and why it stopped before the end of the input, if it
/// did.
#[derive(Drop)]
pub struct CollectedLines {
    /// The lines.
    pub lines: Vec<OwnedLine>,
    /// The error after them, or `None` if the reader reached the end of the input.
    pub error: Option<LineError>,
}

/// Returns the lines that a reader has yet to return, up to the end of the input or an error, or
/// `AllocError` if an allocation for them fails.
///
/// They are the first lines of the bytes that the source gives, and all of them if there is no error. If a read
/// failed, they are exactly the lines that end in the bytes received before it. After `AllocError` the lines
/// that were read are lost, the last of them too, and the reader goes on after it.
///
/// Condition: the reader is open: it has not returned `None`, a line or text without an ending, or an error; or
/// `skip_line` has read over the line of that error up to its ending.
///
///     let source = Input::new(b"ab\n\xff".as_slice());
///     let mut reader = LineReader::new(alloc, source, 64, Endings::Any)?;
///     let kept = collect_lines(alloc, &mut reader)?;
///     kept.lines.len() // 1
///     kept.error // Some(NotAscii(3))
pub fn collect_lines<S: Source, A: Allocator>(
    alloc: Global,
    reader: &mut LineReader<S, A>,
) -> Result<CollectedLines, AllocError>
    requires { IsOpen reader.old }
    ensures runs { IfOk result (λ kept. YieldsUntil reader.old.state
        (collected_lines_in kept) kept.error reader.new.state) }
    ensures first { IfOk result (λ kept. AreFirstLines reader.old.state
        (collected_lines_in kept) kept.error) }
    ensures lost { OnErr result ((lines : List (WithStart Line))
        × YieldsLines reader.old.state lines reader.new.state) }
{
    let mut lines = Vec::new(alloc);
    'lines: loop {
        match reader.next_line() {
            Ok(Some(line)) => lines.push(owned_line(alloc, line)?)?,
            Ok(None) => return Ok(CollectedLines { lines, error: None }),
            Err(error) => {
                return Ok(CollectedLines {
                    lines,
                    error: Some(error),
                });
            }
        }
    }
}

/// Why a block ends.
#[derive(Clone, Copy, PartialEq, Eq, Debug)]
pub enum BlockEnd {
    /// An empty line follows, which was read.
    EmptyLine,
    /// The input ends.
    EndOfInput,
    /// It has as many lines as were asked for.
    Full,
    /// The reader returned this error in place of the next line.
    Reader(LineError),
}

/// The lines that a reader returned up to an empty one, in order, and why there are no more.
#[derive(Drop)]
pub struct Block {
    /// The lines, of which none is empty.
    pub lines: Vec<OwnedLine>,
    /// Why they end.
    pub end: BlockEnd,
}

/// Returns the lines up to the first empty one, which is read too, at most `most`; or `AllocError` if an
/// allocation for them fails. It is for headers, and for records with an empty line between them.
///
/// The lines are the next lines of the input. They end before an empty line, at the end of the input, at an error of
/// the reader, or if there are `most`. After `AllocError` the lines that were read are lost, the last of them too, and
/// the reader goes on after it.
///
/// Condition: the reader is open: it has not returned `None`, a line or text without an ending, or an error; or
/// `skip_line` has read over the line of that error up to its ending.
///
///     let source = Input::new(b"a: 1\nb: 2\n\nbody".as_slice());
///     let mut reader = LineReader::new(alloc, source, 64, Endings::Any)?;
///     let block = read_block(alloc, &mut reader, 100)?;
///     block.lines.len() // 2
///     block.end // EmptyLine
///     reader.position() // 11
pub fn read_block<S: Source, A: Allocator>(
    alloc: Global,
    reader: &mut LineReader<S, A>,
    most: usize,
) -> Result<Block, AllocError>
    requires { IsOpen reader.old }
    ensures runs { IfOk result (λ block. YieldsBlock most reader.old.state
        (block_lines_in block) block.end reader.new.state) }
    ensures lost { OnErr result ((lines : List (WithStart Line))
        × YieldsLines reader.old.state lines reader.new.state) }
{
    let mut lines = Vec::new(alloc);
    'lines: while lines.len() < most {
        match reader.next_line() {
            Ok(Some(line)) => {
                if line.text.is_empty() {
                    return Ok(Block {
                        lines,
                        end: BlockEnd::EmptyLine,
                    });
                }
                lines.push(owned_line(alloc, line)?)?;
            }
            Ok(None) => {
                return Ok(Block {
                    lines,
                    end: BlockEnd::EndOfInput,
                });
            }
            Err(error) => {
                return Ok(Block {
                    lines,
                    end: BlockEnd::Reader(error),
                });
            }
        }
    }
    Ok(Block {
        lines,
        end: BlockEnd::Full,
    })
}

/// A copy of a line.
fn owned_line(alloc: Global, line: ReadLine<'_>) -> Result<OwnedLine, AllocError>
    ensures { IfOk result (λ kept. owned_line_in kept ≡ read_line_in line.entry) }
{
    Ok(OwnedLine {
        start: line.start,
        text: line.text.to_ascii_string(alloc)?,
        ending: line.ending,
    })
}
