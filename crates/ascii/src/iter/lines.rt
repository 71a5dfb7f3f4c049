//! The lines of a view, with and without their starts and endings.
//!
//! Nothing here allocates.

ghost use Rattle.std.specs.Prelude.{⊤, ◌≡◌, ◌+◌, ◌≤◌, ◌∷◌, ◌++◌, [], IfSome, MatchOption, length};
ghost use Rattle.std.specs.Iterator.{item_count};
ghost use Rattle.ascii.specs.Found.{terminated_line, line_spans, part_in};
ghost use Rattle.ascii.specs.Lines.{IsRemainderOfLines, IteratesLines, bodies};
ghost use Rattle.ascii.specs.Placed.{ArePlacedLines};
ghost use Rattle.ascii.specs.Spans.{EndFits, IsRemainderOfLineSpans, IteratesLineSpans, line_in};
ghost use Rattle.ascii.specs.Steps.{DropsFirst, DropsFirstSpan, DropsLast, DropsLastSpan};
ghost use Rattle.ascii.specs.Steps.{LoopsBackOverLineSpans, LoopsBackOverLines, LoopsOverLineSpans};
ghost use Rattle.ascii.specs.Steps.{LoopsOverLines, YieldsFirstAnd, YieldsLastAnd};
ghost use Rattle.ascii.specs.View.{text_of};

use crate::ascii_str::AsciiStr;
use crate::iter::cursor::Cursor;
use crate::iter::spans::{Ending, LineSpan};
use std::alloc::AllocError;
use std::iter::FusedIterator;
use std::marker::Model;

impl<'a> Cursor<'a> {
    /// The whole part as one line before an LF: one CR before the LF belongs to the ending.
    #[inline(always)]
    fn terminated_line(self) -> LineSpan<'a>
        ensures line { line_in result
            ≡ record {
              start = self.entry.start;
              item = terminated_line (text_of self.entry.view);
            } }
        ensures fits { EndFits result.start result.text }
    {
        match self.view.bytes.split_last() {
            Some((b'\r', body)) => LineSpan {
                start: self.start,
                text: AsciiStr { bytes: body },
                ending: Ending::CrLf,
            },
            _ => LineSpan {
                start: self.start,
                text: self.view,
                ending: Ending::Lf,
            },
        }
    }

    /// The whole part as one line without an ending.
    #[inline(always)]
    fn unterminated_line(self) -> LineSpan<'a>
        ensures line { line_in result ≡ record {
          start = self.entry.start;
          item = record { body = text_of self.entry.view; ending = Ending.Absent };
        } }
        ensures fits { EndFits result.start result.text }
    {
        LineSpan {
            start: self.start,
            text: self.view,
            ending: Ending::Absent,
        }
    }

    /// The first line, and the part after its ending.
    #[inline(always)]
    pub(crate) fn first_line(self) -> Option<(LineSpan<'a>, Cursor<'a>)>
        ensures lines { MatchOption result (line_spans (part_in self.entry) ≡ [])
            (λ cut. line_spans (part_in self.entry) ≡ line_in cut.0 ∷ line_spans (part_in cut.1)) }
        ensures fits { IfSome result (λ cut. EndFits cut.0.start cut.0.text) }
    {
        if self.view.is_empty() {
            return None;
        }
        match self.split_at_first(b'\n') {
            Some((line, others)) => Some((line.terminated_line(), others)),
            None => Some((self.unterminated_line(), self.from(self.view.len()))),
        }
    }

    /// The last line, and the part before it.
    #[inline(always)]
    pub(crate) fn last_line(self) -> Option<(LineSpan<'a>, Cursor<'a>)>
        ensures lines { MatchOption result (line_spans (part_in self.entry) ≡ []) (λ cut.
            line_spans (part_in self.entry) ≡ line_spans (part_in cut.1) ++ line_in cut.0 ∷ []) }
        ensures fits { IfSome result (λ cut. EndFits cut.0.start cut.0.text) }
    {
        let (last, front) = self.view.bytes.split_last()?;
        if *last == b'\n' {
            let (others, line) = self.to(front.len()).split_after_last(b'\n');
            Some((line.terminated_line(), others))
        } else {
            let (others, line) = self.split_after_last(b'\n');
            Some((line.unterminated_line(), others))
        }
    }
}

/// A double-ended iterator over the lines of a view, each with its start and its ending.
#[derive(Drop)]
pub struct LineSpans<'a> {
    // The lines that are left, with their endings.
    cursor: Cursor<'a>,
}

impl<'a> Model for LineSpans<'a> {
    ghost use Rattle.std.specs.Prelude.{List};
    ghost use Rattle.ascii.specs.Found.{line_spans, part_in};
    ghost use Rattle.ascii.specs.Lines.{Line};
    ghost use Rattle.ascii.specs.Spans.{WithStart};

    ghost Value = { List (WithStart Line) };

    ghost view = { λ lines. line_spans (part_in lines.cursor) };
}

impl Clone for LineSpans<'_> {
    ghost is_clone = { λ lines copy. copy ≡ lines };

    ghost is_infallible = { λ _. ⊤ };

    /// Returns an iterator with the same remaining lines, starts and endings. Always returns `Ok`.
    ///
    ///     AsciiStr::literal("x\ny").line_spans().clone()?.remainder() // Some((0, "x\ny"))
    ///     AsciiStr::literal("").line_spans().clone()?.remainder() // None
    fn clone(&self) -> Result<Self, AllocError> {
        Ok(LineSpans {
            cursor: self.cursor,
        })
    }
}

impl<'a> Iterator for LineSpans<'a> {
    type Item = LineSpan<'a>;

    ghost next_gives = { YieldsFirstAnd line_in (λ lines. lines) DropsFirstSpan };

    ghost remaining = { item_count (λ lines. lines) };

    /// Returns the next line with its start and its ending, or `None` if there are none left; it
    /// then keeps returning `None`.
    ///
    ///     AsciiStr::literal("x\ny").line_spans().next() // Some(LineSpan { start: 0, text: "x", ending: Lf })
    ///     AsciiStr::literal("").line_spans().next() // None
    #[inline(always)]
    fn next(&mut self) -> Option<LineSpan<'a>> {
        let (first, others) = self.cursor.first_line()?;
        self.cursor = others;
        Some(first)
    }
}

impl<'a> DoubleEndedIterator for LineSpans<'a> {
    ghost next_back_gives = { YieldsLastAnd line_in (λ lines. lines) DropsLastSpan };

    /// Returns the last of the remaining lines with its start and its ending, or `None` if there
    /// are none left; it then keeps returning `None`.
    ///
    ///     AsciiStr::literal("x\ny").line_spans().next_back() // Some(LineSpan { start: 2, text: "y", ending: Absent })
    ///     AsciiStr::literal("").line_spans().next_back() // None
    #[inline(always)]
    fn next_back(&mut self) -> Option<LineSpan<'a>> {
        let (last, others) = self.cursor.last_line()?;
        self.cursor = others;
        Some(last)
    }
}

impl FusedIterator for LineSpans<'_> {}

impl<'a> LineSpans<'a> {
    /// Returns the remaining lines with their endings as one view, with the start of the first one,
    /// or `None` if there are none left. The iterator is unchanged. Constant time.
    ///
    ///     let mut spans = AsciiStr::literal("x\r\ny").line_spans();
    ///     spans.next() // Some(LineSpan { start: 0, text: "x", ending: CrLf })
    ///     spans.remainder() // Some((3, "y"))
    pub fn remainder(&self) -> Option<(usize, AsciiStr<'a>)>
        ensures remainder { IsRemainderOfLineSpans self.now result }
        ensures fits { IfSome result (λ tail. EndFits tail.0 tail.1) }
    {
        if self.cursor.view.is_empty() {
            return None;
        }
        Some((self.cursor.start, self.cursor.view))
    }
}

/// A double-ended iterator over the lines of a view without their endings.
#[derive(Drop)]
pub struct Lines<'a> {
    spans: LineSpans<'a>,
}

impl<'a> Model for Lines<'a> {
    ghost use Rattle.std.specs.Prelude.{List};
    ghost use Rattle.ascii.specs.Lines.{Line};
    ghost use Rattle.ascii.specs.Spans.{items_of};

    ghost Value = { List Line };

    ghost view = { λ lines. items_of lines.spans };
}

impl Clone for Lines<'_> {
    ghost is_clone = { λ lines copy. copy ≡ lines };

    ghost is_infallible = { λ _. ⊤ };

    /// Returns an iterator with the same remaining lines. Always returns `Ok`.
    ///
    ///     AsciiStr::literal("x\ny").lines().clone()?.remainder() // Some("x\ny")
    ///     AsciiStr::literal("").lines().clone()?.remainder() // None
    fn clone(&self) -> Result<Self, AllocError> {
        Ok(Lines {
            spans: self.spans.clone()?,
        })
    }
}

impl<'a> Iterator for Lines<'a> {
    type Item = AsciiStr<'a>;

    ghost next_gives = { YieldsFirstAnd text_of bodies DropsFirst };

    ghost remaining = { item_count bodies };

    /// Returns the next line without its ending, or `None` if there are none left; it then keeps
    /// returning `None`.
    ///
    ///     AsciiStr::literal("\nx").lines().next() // Some("")
    ///     AsciiStr::literal("").lines().next() // None
    #[inline(always)]
    fn next(&mut self) -> Option<AsciiStr<'a>> {
        let span = self.spans.next()?;
        Some(span.text)
    }
}

impl<'a> DoubleEndedIterator for Lines<'a> {
    ghost next_back_gives = { YieldsLastAnd text_of bodies DropsLast };

    /// Returns the last of the remaining lines without its ending, or `None` if there are none
    /// left; it then keeps returning `None`.
    ///
    ///     AsciiStr::literal("x\n").lines().next_back() // Some("x")
    ///     AsciiStr::literal("").lines().next_back() // None
    #[inline(always)]
    fn next_back(&mut self) -> Option<AsciiStr<'a>> {
        let span = self.spans.next_back()?;
        Some(span.text)
    }
}

impl FusedIterator for Lines<'_> {}

impl<'a> Lines<'a> {
    /// Returns the remaining lines with their endings as one view, or `None` if there are none
    /// left. The iterator is unchanged. Constant time.
    ///
    ///     let mut lines = AsciiStr::literal("x\r\ny").lines();
    ///     lines.next() // Some("x")
    ///     lines.remainder() // Some("y")
    #[tactic(auto, using(crate::proofs::SpansLemmas::items_some))]
    pub fn remainder(&self) -> Option<AsciiStr<'a>>
        ensures { IsRemainderOfLines self.now result }
    {
        let (_, view) = self.spans.remainder()?;
        Some(view)
    }
}

impl<'a> AsciiStr<'a> {
    /// Returns a double-ended iterator over the lines of the view without their endings. A line
    /// ends in LF or in CR LF; another CR belongs to its line, and so does a last CR with no LF
    /// after it. An LF at the end of the view makes no further line.
    ///
    /// Constant time; a full walk searches the view once.
    ///
    /// To read the lines of an input, also those that only CR LF ends, use `LineReader` of
    /// `ascii_lines`.
    ///
    ///     let mut lines = AsciiStr::literal("x\r\ny\nz").lines();
    ///     lines.next() // Some("x")
    ///     lines.next_back() // Some("z")
    ///     lines.next_back() // Some("y")
    ///     lines.next() // None
    ///     AsciiStr::literal("x\r").lines().next() // Some("x\r")
    ///     AsciiStr::literal("").lines().next() // None
    pub fn lines(self) -> Lines<'a>
        ensures iterates { IteratesLines (text_of self.entry) result }
        ensures loops { LoopsOverLines }
        ensures loops_back { LoopsBackOverLines }
    {
        Lines {
            spans: self.line_spans(),
        }
    }

    /// Returns a double-ended iterator over the lines of the view, each with its ending and the
    /// position in the view at which it starts.
    ///
    /// Constant time; a full walk searches the view once.
    ///
    ///     let mut spans = AsciiStr::literal("x\r\ny").line_spans();
    ///     spans.next() // Some(LineSpan { start: 0, text: "x", ending: CrLf })
    ///     spans.next() // Some(LineSpan { start: 3, text: "y", ending: Absent })
    ///     AsciiStr::literal("x\n").line_spans().next_back() // Some(LineSpan { start: 0, text: "x", ending: Lf })
    pub fn line_spans(self) -> LineSpans<'a>
        ensures iterates { IteratesLineSpans 0 (text_of self.entry) result }
        ensures placed { ArePlacedLines 0 (text_of self.entry) result }
        ensures loops { LoopsOverLineSpans }
        ensures loops_back { LoopsBackOverLineSpans }
    {
        self.line_spans_from(0)
    }

    /// Returns an iterator over the lines of the view, like `line_spans`, but adds `offset` to
    /// every start.
    ///
    /// Condition: `offset` and the length together are at most `usize::MAX`.
    ///
    ///     AsciiStr::literal("x\r\ny").line_spans_from(10).next_back() // Some(LineSpan { start: 13, text: "y", ending: Absent })
    ///     AsciiStr::literal("").line_spans_from(10).next_back() // None
    pub fn line_spans_from(self, offset: usize) -> LineSpans<'a>
        requires { offset + length (text_of self) ≤ usize.MAX }
        ensures iterates { IteratesLineSpans offset (text_of self.entry) result }
        ensures placed { ArePlacedLines offset (text_of self.entry) result }
        ensures loops { LoopsOverLineSpans }
        ensures loops_back { LoopsBackOverLineSpans }
    {
        LineSpans {
            cursor: Cursor {
                start: offset,
                view: self,
            },
        }
    }
}
