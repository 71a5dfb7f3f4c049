//! The pieces of a view at the characters of a class, its words, which are the pieces that are not
//! empty, and its runs of characters of a class.
//!
//! Nothing here allocates.

ghost use Rattle.std.specs.Prelude.{not, true};
ghost use Rattle.ascii_base.specs.Class.{IsWhitespace};
ghost use Rattle.ascii_base.specs.Bytes.{IsOnSide};
ghost use Rattle.ascii_base.specs.Tests.{is_whitespace};
ghost use Rattle.ascii_search.specs.Marked.{AreEndMarks};
ghost use Rattle.ascii.specs.Steps.{Iterates};
ghost use Rattle.ascii.specs.TheCuts.{at_class, at_words};
ghost use Rattle.ascii.specs.View.{text_of};

use crate::ascii_str::AsciiStr;
use crate::iter::cursor::Cursor;
use crate::iter::items::{Cut, CutBack, Items};
use crate::iter::spans::SplitSpan;
use ascii_base::classes::{Searched, Whitespace};
use ascii_search::marked::{MarkedEnds, first_piece, first_run, marks_to};
use ascii_search::marked_back::{last_marks_from, last_piece, last_run};
use std::marker::PhantomData;

/// The cut at each character of a class.
#[derive(Drop)]
#[derive_where(Clone, Copy)]
pub struct AtClass<C> {
    class: PhantomData<C>,
}

impl<C: Searched> Cut for AtClass<C> {
    type Marks = MarkedEnds;

    ghost cut = { λ _. at_class C.is C.test };

    ghost knows = { AreEndMarks C.is true };

    #[inline(always)]
    fn first<'a>(
        self,
        part: Cursor<'a>,
        marks: MarkedEnds,
    ) -> Option<(SplitSpan<'a>, Option<Cursor<'a>>, MarkedEnds)> {
        let bytes = part.view.bytes;
        let (end, front) = first_piece::<C>(bytes, marks.front);
        if end == bytes.len() {
            return Some((part.piece(), None, marks));
        }
        let back = last_marks_from::<C, true>(bytes, marks.back, end + 1);
        let marks = MarkedEnds { front, back };
        Some((part.to(end).piece(), Some(part.from(end + 1)), marks))
    }

    #[inline(always)]
    fn has_none(self, _part: Cursor<'_>, _marks: MarkedEnds) -> bool {
        false
    }

    #[inline(always)]
    fn tell_laws(self) {}
}

impl<C: Searched> CutBack for AtClass<C> {
    #[inline(always)]
    fn last<'a>(
        self,
        part: Cursor<'a>,
        marks: MarkedEnds,
    ) -> Option<(SplitSpan<'a>, Option<Cursor<'a>>, MarkedEnds)> {
        let bytes = part.view.bytes;
        let (start, back) = last_piece::<C>(bytes, marks.back);
        if start == 0 {
            return Some((part.piece(), None, marks));
        }
        let front = marks_to::<C, true>(bytes, marks.front, start - 1);
        let marks = MarkedEnds { front, back };
        Some((part.from(start).piece(), Some(part.to(start - 1)), marks))
    }
}

/// The cut into runs: the longest runs of characters of a class if `INSIDE` is true, and of characters
/// outside it, its words, if `INSIDE` is false.
#[derive(Drop)]
#[derive_where(Clone, Copy)]
pub struct AtRuns<C, const INSIDE: bool> {
    class: PhantomData<C>,
}

impl<C: Searched, const INSIDE: bool> Cut for AtRuns<C, INSIDE> {
    ghost use Rattle.ascii.specs.ByClass.{side_test};

    type Marks = MarkedEnds;

    ghost cut = { λ _. at_words (IsOnSide C.is (not INSIDE)) (side_test C.test (not INSIDE)) };

    ghost knows = { AreEndMarks C.is INSIDE };

    #[inline(always)]
    fn first<'a>(
        self,
        part: Cursor<'a>,
        marks: MarkedEnds,
    ) -> Option<(SplitSpan<'a>, Option<Cursor<'a>>, MarkedEnds)> {
        let bytes = part.view.bytes;
        let found = first_run::<C, INSIDE>(bytes, marks.front)?;
        let back = last_marks_from::<C, INSIDE>(bytes, marks.back, found.end);
        Some((
            part.to(found.end).from(found.start).piece(),
            Some(part.from(found.end)),
            MarkedEnds {
                front: found.marks,
                back,
            },
        ))
    }

    #[inline(always)]
    #[tactic(auto, using(crate::proofs::CutLaws::at_words_lawful))]
    fn tell_laws(self) {}
}

impl<C: Searched, const INSIDE: bool> CutBack for AtRuns<C, INSIDE> {
    #[inline(always)]
    fn last<'a>(
        self,
        part: Cursor<'a>,
        marks: MarkedEnds,
    ) -> Option<(SplitSpan<'a>, Option<Cursor<'a>>, MarkedEnds)> {
        let bytes = part.view.bytes;
        let found = last_run::<C, INSIDE>(bytes, marks.back)?;
        let front = marks_to::<C, INSIDE>(bytes, marks.front, found.start);
        let rest = part.to(found.end);
        Some((
            rest.from(found.start).piece(),
            Some(rest.to(found.start)),
            MarkedEnds {
                front,
                back: found.marks,
            },
        ))
    }
}

/// The cut into words: the longest runs of characters outside a class.
pub type AtWords<C> = AtRuns<C, false>;

/// A double-ended iterator over the pieces of a view between characters of a class.
pub type SplitBy<'a, C> = Items<'a, AtClass<C>>;

/// A double-ended iterator over the words of a view.
pub type Words<'a, C> = Items<'a, AtWords<C>>;

/// A double-ended iterator over the runs of characters of a class.
pub type Runs<'a, C> = Items<'a, AtRuns<C, true>>;

impl<'a> AsciiStr<'a> {
    /// Returns a double-ended iterator over the pieces of the view at each character of the class.
    /// There is at least one piece, and none contains a character of the class. A character of the
    /// class at an end of the view makes an empty piece there, and so do two in a row between them.
    ///
    /// Constant time; a full walk searches the view once.
    ///
    /// For the pieces that are not empty use `words`.
    ///
    ///     let mut pieces = AsciiStr::literal("a b\tc").split_by::<Blank>();
    ///     pieces.next() // Some("a")
    ///     pieces.next_back() // Some("c")
    ///     pieces.remainder() // Some("b")
    ///     AsciiStr::literal("").split_by::<Blank>().next() // Some("")
    pub fn split_by<C: Searched>(self) -> SplitBy<'a, C>
        ensures iterates { Iterates (λ _. at_class C.is C.test)
            result.on (text_of self.entry) result }
    {
        self.items_at(AtClass { class: PhantomData }, MarkedEnds::none())
    }

    /// Returns a double-ended iterator over the words of the view: the longest runs of characters
    /// that are not in the class. There are no empty words.
    ///
    /// Constant time; a full walk searches the view once.
    ///
    /// If an empty piece counts, use `split_by`; for words between whitespace, `split_whitespace`.
    ///
    ///     let mut words = AsciiStr::literal(" to be  or not").words::<Blank>();
    ///     words.next() // Some("to")
    ///     words.next_back() // Some("not")
    ///     AsciiStr::literal(" ").words::<Blank>().next() // None
    pub fn words<C: Searched>(self) -> Words<'a, C>
        ensures iterates { Iterates (λ _. at_words C.is C.test)
            result.on (text_of self.entry) result }
    {
        self.items_at(AtRuns { class: PhantomData }, MarkedEnds::none())
    }

    /// Returns a double-ended iterator over the words of the view between whitespace. There are no
    /// empty words.
    ///
    /// Constant time; a full walk searches the view once.
    ///
    /// If each separator counts, use `split_by`.
    ///
    ///     let mut words = AsciiStr::literal(" to be\n or not").split_whitespace();
    ///     words.next() // Some("to")
    ///     words.next() // Some("be")
    ///     AsciiStr::literal(" \n").split_whitespace().next() // None
    pub fn split_whitespace(self) -> Words<'a, Whitespace>
        ensures iterates { Iterates (λ _. at_words IsWhitespace is_whitespace)
            result.on (text_of self.entry) result }
    {
        self.words::<Whitespace>()
    }

    /// Returns a double-ended iterator over the longest runs of characters of the class in the
    /// view. There are no empty runs.
    ///
    /// Constant time; a full walk searches the view once.
    ///
    ///     let mut runs = AsciiStr::literal("v1.20").runs::<Digit>();
    ///     runs.next() // Some("1")
    ///     runs.next() // Some("20")
    ///     AsciiStr::literal("abc").runs::<Digit>().next() // None
    pub fn runs<C: Searched>(self) -> Runs<'a, C>
        ensures iterates { Iterates
            (λ _. at_words (λ code. ¬ (C.is code)) (λ code. not (C.test code)))
            result.on (text_of self.entry) result }
    {
        self.items_at(AtRuns { class: PhantomData }, MarkedEnds::none())
    }
}
