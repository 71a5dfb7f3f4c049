//! Where a reader of lines is in its input. The source is an argument of each call that reads, so that a
//! device of both directions may have another owner.

ghost use Rattle.std.specs.Prelude.{◌≡◌, IfOk};
ghost use Rattle.ascii_lines.specs.LineReader.{AdvancesFrom, at_end, reading_at, state_at};
ghost use Rattle.ascii_lines.specs.Skipping.{Skips, SkipsLine};
ghost use Rattle.ascii_lines.specs.Wanted.{KnowsEnd};
ghost use Rattle.ascii_devices.specs.States.{source_state};

use crate::line_buffer::LineBuffer;
use crate::line_reader::{LineError, Stage};
use crate::skipping::{
    SkippedLine, is_final, nothing_skipped, pass_line, skip_error, skipped, stage_after,
    whole_endings,
};
use crate::wanted::{Wanted, take_wanted};
use ascii::iter::Endings;
use ascii_devices::Source;
use std::alloc::{AllocError, Allocator};
use std::marker::Model;

/// The position of the next line in an input, and the bytes that were read from there on.
#[derive(Drop)]
pub(crate) struct LineCursor<A: Allocator> {
    buffer: LineBuffer<A>,
    // Where the next line starts.
    start: u64,
    stage: Stage,
    endings: Endings,
}

impl<A: Allocator> Model for LineCursor<A> {
    ghost use Rattle.ascii_lines.specs.LineReader.{CursorState};

    ghost Value = { CursorState };

    ghost view = { λ c. record {
      size = c.buffer.size;
      start = c.start;
      held = c.buffer.held;
      stage = c.stage;
      endings = c.endings;
      is_at_end = c.buffer.is_at_end;
      lent = c.buffer.given;
    } };
}

impl<A: Allocator> LineCursor<A> {
    ghost use Rattle.ascii_lines.specs.LineReader.{fresh_cursor};

    /// At the start of an input, with a buffer for lines of up to this number of bytes.
    pub(crate) fn new(alloc: A, size: usize, endings: Endings) -> Result<LineCursor<A>, AllocError>
        ensures { IfOk result (λ cursor. cursor ≡ fresh_cursor size endings) }
    {
        let buffer = LineBuffer::new(alloc, size)?;
        Ok(LineCursor {
            buffer,
            start: 0,
            stage: Stage::Open,
            endings,
        })
    }

    /// The position of the next line or part.
    pub(crate) fn start(&self) -> u64
        ensures { result ≡ self.now.start }
    {
        self.start
    }

    /// Which endings end a line.
    pub(crate) fn endings(&self) -> Endings
        ensures { result ≡ self.now.endings }
    {
        self.endings
    }

    /// Sets which endings end a line.
    pub(crate) fn lines_ended_by(&mut self, endings: Endings)
        ensures { self.new ≡ record self.old { endings = endings } }
    {
        self.endings = endings;
    }

    /// The bytes that were taken last.
    pub(crate) fn line_bytes(&self) -> &[u8]
        ensures { result.now ≡ self.now.lent }
    {
        self.buffer.line_bytes()
    }

    /// Takes the bytes of what is wanted, and returns whether there are any.
    pub(crate) fn advance<S: Source>(
        &mut self,
        source: &mut S,
        wanted: Wanted,
    ) -> Result<bool, LineError>
        requires { KnowsEnd self.old.is_at_end (S.rest source.old) }
        ensures { AdvancesFrom self.old.stage wanted (reading_at S.Source self.old source.old)
            result (reading_at S.Source self.new source.new) }
    {
        match self.stage {
            Stage::Open => {}
            Stage::Ended => return nothing_left(wanted),
            Stage::Refused(error) => return Err(error),
        }
        match take_wanted(&mut self.buffer, source, wanted, self.start) {
            Ok((end, is_last)) => {
                if is_last {
                    self.stage = Stage::Ended;
                }
                let is_some = self.start < end;
                self.start = end;
                Ok(is_some)
            }
            Err(error) => {
                self.stage = Stage::Refused(error);
                Err(error)
            }
        }
    }

    /// Reads over the next line, or over the line at fault.
    pub(crate) fn skip_line<S: Source>(
        &mut self,
        source: &mut S,
        most: u64,
    ) -> Result<SkippedLine, LineError>
        requires { KnowsEnd self.old.is_at_end (S.rest source.old) }
        ensures { Skips most (reading_at S.Source self.old source.old) result
            (reading_at S.Source self.new source.new) }
    {
        match self.stage {
            Stage::Open => self.skip(source, most),
            Stage::Ended => Ok(nothing_skipped(self.start)),
            Stage::Refused(error) => {
                if is_final(error) {
                    Err(error)
                } else {
                    self.skip(source, most)
                }
            }
        }
    }

    /// Reads over a line.
    fn skip<S: Source>(&mut self, source: &mut S, most: u64) -> Result<SkippedLine, LineError>
        requires { KnowsEnd self.old.is_at_end (S.rest source.old) }
        ensures { SkipsLine most (state_at self.old (source_state S.Source source.old)) result
            (state_at self.new (source_state S.Source source.new)) }
    {
        let start = self.start;
        let limit = most.min(u64::MAX - start);
        let endings = whole_endings(self.endings);
        let (passed, why) = pass_line(&mut self.buffer, source, endings, limit);
        self.start = start + passed.count;
        let error = skip_error(why, start, limit < most);
        self.stage = stage_after(why, error);
        match error {
            Some(error) => Err(error),
            None => Ok(skipped(start, passed)),
        }
    }
}

/// What a reader that has ended returns.
fn nothing_left(wanted: Wanted) -> Result<bool, LineError>
    ensures { result ≡ at_end wanted }
{
    match wanted {
        Wanted::Line(..) | Wanted::Until(_) => Ok(false),
        Wanted::Part(..) => Err(LineError::Incomplete(0)),
    }
}
