//! Prints how often each word of standard input occurs, ignoring ASCII case: a line `COUNT WORD` for each word in lower
//! case, in order. It holds one line of the input at a time. If a line is rejected, it prints the counts of the lines before
//! it, and the error.
#![tactic(auto)]

ghost use Rattle.std.specs.List.{flat_map};
ghost use Rattle.std.specs.Prelude.{◌≡◌, ℕ, ◌^◌, ◌<◌, ◌++◌, IfOk, List, OnErr, OnOk, length, string_bytes};
ghost use Rattle.ascii.specs.ByClass.{words_by};
ghost use Rattle.ascii.specs.Tests.{is_whitespace};
ghost use Rattle.ascii.specs.View.{text_of};
ghost use Rattle.ascii_keys.specs.Maps.{IsInOrder};
ghost use Rattle.ascii_lines.specs.CollectedLines.{FoldsLines};
ghost use Rattle.ascii_lines.specs.LineReader.{IsOpen};
ghost use Rattle.examples.specs.Tally.{Counts, CountsWords, HasRoom, ReadsLines, count_line};

use ascii::AsciiStr;
use ascii_keys::FoldedMap;
use ascii_lines::{Endings, Input, LineError, LineReader, LineStep, ReadLine, Source, fold_lines};
use std::alloc::{AllocError, Allocator, Global};
use std::io;

/// The most bytes of a line.
const LONGEST: usize = 65_536;

/// How often each word of the lines that were read occurs, and why no more were read.
#[derive(Drop)]
pub struct Tally {
    /// The number of times of each word, ignoring ASCII case.
    pub counts: FoldedMap<u128>,
    /// The error of the reader after these lines, or `None` at the end of the input.
    pub error: Option<LineError>,
}

/// The counts of the words of the lines so far, unless an allocation failed.
///
/// A `u128` has room for the words of as many lines as there can be.
#[derive(Drop)]
struct WordCount {
    counts: FoldedMap<u128>,
    has_failed: bool,
}

impl LineStep for WordCount {
    ghost use Rattle.examples.specs.Tally.{CountsUnlessFailed};

    ghost after = { λ lines counted. CountsUnlessFailed counted.has_failed lines counted.counts };

    fn step(&mut self, line: ReadLine<'_>) {
        if !self.has_failed {
            self.has_failed = add_words(&mut self.counts, line.text).is_err();
        }
    }
}

/// Counts the words of one more line, ignoring ASCII case. Fails only if an allocation fails.
///
/// Condition: the counts are those of fewer than 2^128 - 2^64 words.
fn add_words(counts: &mut FoldedMap<u128>, line: AsciiStr<'_>) -> Result<(), AllocError>
    requires { HasRoom counts.old }
    ensures counts { (words : List (List ℕ)) → Counts words counts.old → OnOk result
        (Counts (words ++ words_by is_whitespace (text_of line.entry)) counts.new) }
    ensures fits { length (words_by is_whitespace (text_of line.entry)) < 2 ^ 64 }
{
    for word in line.split_whitespace() {
        *counts.get_or_insert(word, 0)? += 1;
    }
    Ok(())
}

/// Returns how often each word of the lines that a reader has yet to return occurs, ignoring ASCII case, or an error if
/// an allocation fails.
///
/// If the reader returns an error, the words of the lines before it are counted. After `AllocError` the counts are lost,
/// and the lines were read up to the end of the input or an error.
pub fn count_words<S: Source, A: Allocator>(
    alloc: Global,
    reader: &mut LineReader<S, A>,
) -> Result<Tally, AllocError>
    requires { IsOpen reader.old }
    ensures counts { IfOk result (λ tally. FoldsLines CountsWords reader.old.state
        tally.counts tally.error reader.new.state) }
    ensures lost { OnErr result (ReadsLines reader.old.state reader.new.state) }
{
    let mut words = WordCount {
        counts: FoldedMap::new(alloc),
        has_failed: false,
    };
    let error = fold_lines(reader, &mut words).err();
    if words.has_failed {
        return Err(AllocError);
    }
    Ok(Tally {
        counts: words.counts,
        error,
    })
}

/// Returns a line `COUNT WORD` for each word in lower case, in order, or an error if an allocation
/// fails.
pub fn tally_lines(alloc: Global, counts: &FoldedMap<u128>) -> Result<String, AllocError>
    ensures lines { IfOk result (λ lines.
        string_bytes lines ≡ flat_map count_line counts.now) }
    ensures ordered { OnOk result (IsInOrder counts.now) }
{
    let mut lines = String::new(alloc);
    for (word, count) in counts.iter() {
        writeln!(lines, "{count} {}", word.to_ascii_lowercase(alloc)?)?;
    }
    Ok(lines)
}

pub fn main(rt: HostRuntime) -> io::Result<()> {
    let alloc = rt.alloc();
    let mut reader = LineReader::new(alloc, Input::new(rt.stdin()), LONGEST, Endings::Any)?;
    show(&rt, &count_words(alloc, &mut reader)?)
}

/// Prints the counts, and the error if there is one.
fn show(rt: &HostRuntime, tally: &Tally) -> io::Result<()> {
    print!(rt; "{}", tally_lines(rt.alloc(), &tally.counts)?)?;
    match tally.error {
        Some(error) => println!(rt; "{error}"),
        None => Ok(()),
    }
}
