//! Prints the lines of standard input. A line that has other bytes than ASCII, or is longer than 1,000 bytes, is
//! reported with its position and its length, and reading goes on after it. Three
//! functions go over lines in other ways.
#![tactic(auto)]

ghost use Rattle.std.specs.Prelude.{IfOk};
ghost use Rattle.ascii_lines.specs.LineReader.{IsOpen};
ghost use Rattle.examples.specs.Reading.{Counts, Finds, ReadsHeader};

use ascii::Finder;
use ascii_lines::{
    Block, BlockEnd, Endings, Input, LineError, LineReader, LineStep, ReadLine, Source, fold_lines,
    read_block,
};
use std::alloc::{AllocError, Allocator, Global};
use std::io;

/// How many bytes of a line are skipped at most.
const LONGEST: u64 = 1_000_000;

/// A number of lines.
#[derive(Drop)]
struct LineCount {
    count: u64,
}

impl LineStep for LineCount {
    ghost use Rattle.std.specs.Prelude.{◌≡◌, length};

    ghost after = { λ lines counted. length lines ≡ counted.count };

    fn step(&mut self, _line: ReadLine<'_>) {
        self.count += 1;
    }
}

/// Returns the number of lines up to the end of the input, or the error of the reader.
pub fn count_lines<S: Source, A: Allocator>(reader: &mut LineReader<S, A>) -> Result<u64, LineError>
    requires { IsOpen reader.old }
    ensures { IfOk result (Counts reader.old.state reader.new.state) }
{
    let mut lines = LineCount { count: 0 };
    fold_lines(reader, &mut lines)?;
    Ok(lines.count)
}

/// Returns the position of the first line that contains this text, `None` if none does up to the end of the input, or
/// the error of the reader. The reader goes on after that line.
pub fn find_line<S: Source, A: Allocator>(
    reader: &mut LineReader<S, A>,
    text: &Finder<'_>,
) -> Result<Option<u64>, LineError>
    requires { IsOpen reader.old }
    ensures { IfOk result (Finds text.now reader.old.state reader.new.state) }
{
    'lines: loop {
        match reader.next_line() {
            Ok(Some(line)) => {
                if text.is_in(line.text) {
                    return Ok(Some(line.start));
                }
            }
            Ok(None) => return Ok(None),
            Err(error) => return Err(error),
        }
    }
}

/// Returns the lines of a header, which ends at an empty line, or `None` if it does not end within `most` lines.
pub fn read_header<S: Source, A: Allocator>(
    alloc: Global,
    reader: &mut LineReader<S, A>,
    most: usize,
) -> Result<Option<Block>, AllocError>
    requires { IsOpen reader.old }
    ensures { IfOk result (ReadsHeader most reader.old.state reader.new.state) }
{
    let block = read_block(alloc, reader, most)?;
    match block.end {
        BlockEnd::EmptyLine => Ok(Some(block)),
        BlockEnd::EndOfInput | BlockEnd::Full | BlockEnd::Reader(_) => Ok(None),
    }
}

pub fn main(rt: HostRuntime) -> io::Result<()> {
    let alloc = rt.alloc();
    let mut reader = LineReader::new(alloc, Input::new(rt.stdin()), 1_000, Endings::Any)?;
    'lines: loop {
        let start = reader.position();
        match reader.next_line() {
            Ok(Some(line)) => println!(rt; "{}", line.text)?,
            Ok(None) => return Ok(()),
            Err(error) => {
                println!(rt; "{error}")?;
                match reader.skip_line(LONGEST) {
                    Ok(skipped) => println!(rt; "  skipped {} bytes", skipped.length)?,
                    Err(error) => {
                        println!(rt; "  {error}")?;
                        return Ok(());
                    }
                }
            }
        }
        if reader.position() <= start {
            return Ok(());
        }
    }
}
