//! Reading over a line, however long it is and whatever bytes it has.

ghost use Rattle.std.specs.Prelude.{◌≡◌, ◌+◌, ◌<◌, ◌≤◌, ◌^◌, ◌++◌, ◌↔◌, IfSome, IsTrue, List};
ghost use Rattle.std.specs.Prelude.{drop, length, take, ℕ};
ghost use Rattle.ascii.specs.Endings.{any_text};
ghost use Rattle.ascii_devices.specs.States.{source_state};
ghost use Rattle.ascii_lines.specs.Skipping.{Counts, IsCrAtEnd, IsFinal, IsSkipped, PassesBytes};
ghost use Rattle.ascii_lines.specs.Skipping.{PassesLine};
ghost use Rattle.ascii_lines.specs.Wanted.{KnowsEnd};
ghost use Rattle.ascii_lines.specs.Skipping.{TakesPart, error_of, skipped_nothing, stage_by};

use crate::line_buffer::LineBuffer;
use crate::line_reader::{LineError, Stage};
use ascii::endings::find_end;
use ascii::iter::Endings;
use ascii::kernels::first_other;
use ascii_devices::Source;
use std::alloc::Allocator;

/// What `skip_line` has read over.
#[derive(Clone, Copy, PartialEq, Eq, Debug)]
pub struct SkippedLine {
    /// The position in the input of its first byte, counted from 0.
    pub start: u64,
    /// The number of its bytes, ending included.
    pub length: u64,
    /// The position in the input of its first byte that is not ASCII, counted from 0, or `None` if all its
    /// bytes are ASCII.
    pub non_ascii: Option<u64>,
}

/// Why no more bytes of a line are taken.
#[derive(Clone, Copy)]
pub(crate) enum PassEnd {
    /// The line ends.
    Ending,
    /// The input ends.
    Input,
    /// The line is longer than the limit.
    Limit,
    /// A read failed.
    Failed,
}

/// The bytes of a line that were taken.
#[derive(Clone, Copy)]
pub(crate) struct Passed {
    /// Their number.
    pub(crate) count: u64,
    /// Which of them is the first that is not ASCII.
    pub(crate) other: Option<u64>,
}

/// Why the line was not skipped.
pub(crate) fn skip_error(why: PassEnd, start: u64, is_far: bool) -> Option<LineError>
    ensures { result ≡ error_of why start is_far }
{
    match (why, is_far) {
        (PassEnd::Ending | PassEnd::Input, _) => None,
        (PassEnd::Limit, true) => Some(LineError::TooFar),
        (PassEnd::Limit, false) => Some(LineError::TooLong(start)),
        (PassEnd::Failed, _) => Some(LineError::Read),
    }
}

/// Whether a reader goes on after a line was skipped, or was not for this error.
pub(crate) fn stage_after(why: PassEnd, error: Option<LineError>) -> Stage
    ensures { result ≡ stage_by why error }
{
    match (error, why) {
        (Some(error), _) => Stage::Refused(error),
        (None, PassEnd::Input) => Stage::Ended,
        (None, _) => Stage::Open,
    }
}

/// What was skipped.
pub(crate) fn skipped(start: u64, passed: Passed) -> SkippedLine
    requires fits { start + passed.count < 2 ^ 64 }
    requires inside { IfSome passed.other (λ i. i < passed.count) }
    ensures { (bytes : List ℕ) → Counts bytes passed → IsSkipped start bytes result }
{
    SkippedLine {
        start,
        length: passed.count,
        non_ascii: match passed.other {
            Some(i) => Some(start + i),
            None => None,
        },
    }
}

/// What is skipped after the end of the input.
pub(crate) fn nothing_skipped(start: u64) -> SkippedLine
    ensures { result ≡ skipped_nothing start }
{
    SkippedLine {
        start,
        length: 0,
        non_ascii: None,
    }
}

/// Whether no line can be skipped after this error.
pub(crate) fn is_final(error: LineError) -> bool
    ensures { IsTrue result ↔ IsFinal error }
{
    match error {
        LineError::TooFar | LineError::Incomplete(_) | LineError::Read => true,
        LineError::NotAscii(_) | LineError::LoneBreak(_) | LineError::TooLong(_) => false,
    }
}

/// The endings at which a line ends that may have a lone CR or LF.
pub(crate) fn whole_endings(endings: Endings) -> Endings
    ensures { result ≡ any_text endings }
{
    match endings {
        Endings::Any => Endings::Any,
        Endings::CrLf | Endings::CrLfStrict => Endings::CrLf,
    }
}

/// Takes the bytes of a line off the buffer and its source, at most `limit`.
pub(crate) fn pass_line<S: Source, A: Allocator>(
    buffer: &mut LineBuffer<A>,
    source: &mut S,
    endings: Endings,
    limit: u64,
) -> (Passed, PassEnd)
    requires plain { any_text endings ≡ endings }
    requires end { KnowsEnd buffer.old.is_at_end (S.rest source.old) }
    ensures { PassesLine endings limit buffer.old buffer.new (source_state S.Source source.old)
        (source_state S.Source source.new) result.0 result.1 }
{
    let mut passed = Passed {
        count: 0,
        other: None,
    };
    'fills: loop {
        let (n, end) = part_of_line(endings, buffer.front(buffer.len()), limit - passed.count);
        passed = pass(buffer, passed, n);
        if let Some(end) = end {
            return (passed, end);
        }
        if buffer.is_at_end() {
            let n = buffer.len();
            return (pass(buffer, passed, n), PassEnd::Input);
        }
        let Ok(()) = buffer.fill(source) else {
            return (passed, PassEnd::Failed);
        };
    }
}

/// How many bytes of `text` are taken, of which at most `left` may be, and why no more are.
pub(crate) fn part_of_line(endings: Endings, text: &[u8], left: u64) -> (usize, Option<PassEnd>)
    ensures within { result.0 ≤ length text.now }
    ensures part { TakesPart endings text.now left result.0 result.1 }
{
    let end = find_end(endings, text, 0);
    if end.unwrap_or(text.len()) as u64 > left {
        let n = left as usize;
        return (n - cr_at_end(endings, &text[..n]), Some(PassEnd::Limit));
    }
    match end {
        Some(n) => (n, Some(PassEnd::Ending)),
        None => (text.len() - cr_at_end(endings, text), None),
    }
}

/// One if `text` ends in a CR that may begin an ending, and zero if not.
fn cr_at_end(endings: Endings, text: &[u8]) -> usize
    ensures { IsCrAtEnd endings text.now result }
{
    match (endings, text) {
        (Endings::CrLf, [.., b'\r']) => 1,
        _ => 0,
    }
}

/// Takes bytes from the front of the buffer.
fn pass<A: Allocator>(buffer: &mut LineBuffer<A>, passed: Passed, n: usize) -> Passed
    requires within { n ≤ length buffer.old.held }
    requires fits { passed.count + n < 2 ^ 64 }
    ensures { PassesBytes n buffer.old buffer.new passed result }
{
    let other = match passed.other {
        Some(place) => Some(place),
        None => match first_other(buffer.front(n)) {
            Some(place) => Some(passed.count + place as u64),
            None => None,
        },
    };
    buffer.take(n);
    Passed {
        count: passed.count + n as u64,
        other,
    }
}
