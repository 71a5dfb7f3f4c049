//! The pieces of a view between separators, with and without their starts.
//!
//! Nothing here allocates.

ghost use Rattle.std.specs.Prelude.{⊤, ◌≡◌, ◌+◌, ◌≤◌, length};
ghost use Rattle.ascii_base.specs.Code.{code_of};
ghost use Rattle.ascii.specs.ByClass.{whole};
ghost use Rattle.ascii.specs.Found.{part_in};
ghost use Rattle.ascii.specs.Pieces.{IteratesPieces};
ghost use Rattle.ascii.specs.Spans.{EndFits, IteratesPieceSpans, piece_in};
ghost use Rattle.ascii.specs.Steps.{Iterates, IteratesSpans};
ghost use Rattle.ascii.specs.TheCuts.{at_code};
ghost use Rattle.ascii.specs.View.{text_of};

use crate::ascii_str::AsciiStr;
use crate::iter::cursor::Cursor;
use crate::iter::items::{Cut, CutBack, Items, Spans};
use crate::iter::spans::SplitSpan;
use ascii_base::ascii_char::AsciiChar;
use std::marker::Model;

/// The cut at each one character.
#[derive(Clone, Copy, Drop)]
pub struct AtChar {
    code: u8,
}

impl Model for AtChar {
    ghost use Rattle.std.specs.Prelude.{ℕ};

    ghost Value = { ℕ };

    ghost view = { λ at. at.code };

    ghost inverse = { λ code. record { code = code } };
}

impl AtChar {
    /// Returns the cut at each `on`.
    #[inline(always)]
    pub(crate) fn new(on: AsciiChar) -> AtChar
        ensures { result ≡ code_of on }
    {
        AtChar { code: on.as_byte() }
    }
}

impl Cut for AtChar {
    type Marks = ();

    ghost cut = { at_code };

    ghost knows = { λ _ _. ⊤ };

    #[inline(always)]
    fn first<'a>(
        self,
        part: Cursor<'a>,
        _marks: (),
    ) -> Option<(SplitSpan<'a>, Option<Cursor<'a>>, ())> {
        match part.split_at_first(self.code) {
            Some((piece, others)) => Some((piece.piece(), Some(others), ())),
            None => Some((part.piece(), None, ())),
        }
    }

    #[inline(always)]
    fn has_none(self, _part: Cursor<'_>, _marks: ()) -> bool {
        false
    }

    #[inline(always)]
    #[tactic(auto, using(crate::proofs::CutLaws::at_code_lawful))]
    fn tell_laws(self) {}
}

impl CutBack for AtChar {
    #[inline(always)]
    fn last<'a>(
        self,
        part: Cursor<'a>,
        _marks: (),
    ) -> Option<(SplitSpan<'a>, Option<Cursor<'a>>, ())> {
        match part.split_at_last(self.code) {
            Some((others, piece)) => Some((piece.piece(), Some(others), ())),
            None => Some((part.piece(), None, ())),
        }
    }
}

impl<'a> Cursor<'a> {
    /// The whole part as one piece.
    #[inline(always)]
    pub(crate) fn piece(self) -> SplitSpan<'a>
        ensures piece { piece_in result ≡ part_in self.entry }
        ensures fits { EndFits result.start result.text }
    {
        SplitSpan {
            start: self.start,
            text: self.view,
        }
    }
}

/// A double-ended iterator over the pieces of a view between separators, each with its start.
pub type SplitSpans<'a> = Spans<'a, AtChar>;

/// A double-ended iterator over the pieces of a view between separators.
pub type Split<'a> = Items<'a, AtChar>;

impl<'a> AsciiStr<'a> {
    /// Returns a double-ended iterator over the pieces of the view at each `on`. There is at least
    /// one piece, and none contains `on`. A separator at an end of the view makes an empty piece
    /// there.
    ///
    /// Constant time; a full walk searches the view once.
    ///
    /// Without an empty last piece use `split_terminator`; for words, `words`; for two parts,
    /// `split_once`.
    ///
    ///     let mut pieces = AsciiStr::literal("foo;bar;baz").split(AsciiChar::Semicolon);
    ///     pieces.next() // Some("foo")
    ///     pieces.next_back() // Some("baz")
    ///     pieces.next() // Some("bar")
    ///     pieces.next() // None
    ///     AsciiStr::literal("").split(AsciiChar::Semicolon).next() // Some("")
    pub fn split(self, on: AsciiChar) -> Split<'a>
        ensures iterates { IteratesPieces (text_of self.entry) (code_of on) result }
        ensures walks { Iterates at_code (code_of on) (text_of self.entry) result }
    {
        self.items_at(AtChar::new(on), ())
    }

    /// Returns a double-ended iterator over the pieces of the view at each `on`, each with the
    /// position in the view at which it starts.
    ///
    /// Constant time; a full walk searches the view once.
    ///
    ///     let mut spans = AsciiStr::literal("foo;bar").split_spans(AsciiChar::Semicolon);
    ///     spans.next_back() // Some(SplitSpan { start: 4, text: "bar" })
    ///     AsciiStr::literal(";").split_spans(AsciiChar::Semicolon).next_back() // Some(SplitSpan { start: 1, text: "" })
    pub fn split_spans(self, on: AsciiChar) -> SplitSpans<'a>
        ensures iterates { IteratesPieceSpans 0 (text_of self.entry) (code_of on) result }
        ensures walks { IteratesSpans at_code (code_of on) (whole (text_of self.entry)) result }
    {
        self.split_spans_from(on, 0)
    }

    /// Returns an iterator over the pieces of the view at each `on`, like `split_spans`, but adds
    /// `offset` to every start.
    ///
    /// Condition: `offset` and the length together are at most `usize::MAX`.
    ///
    ///     let mut spans = AsciiStr::literal("foo;bar").split_spans_from(AsciiChar::Semicolon, 10);
    ///     spans.next_back() // Some(SplitSpan { start: 14, text: "bar" })
    ///     spans.next_back() // Some(SplitSpan { start: 10, text: "foo" })
    pub fn split_spans_from(self, on: AsciiChar, offset: usize) -> SplitSpans<'a>
        requires { offset + length (text_of self) ≤ usize.MAX }
        ensures iterates { IteratesPieceSpans offset (text_of self.entry) (code_of on) result }
        ensures walks { IteratesSpans at_code (code_of on)
            (record { start = offset; item = text_of self.entry }) result }
    {
        self.spans_at(AtChar::new(on), (), offset)
    }
}
