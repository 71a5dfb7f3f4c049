//! The items of a text, cut off its ends: `Spans` and `Items` are the iterators over them, for every way to
//! cut a text.
//!
//! A way to cut is a `Cut`: it says what the items of a text are, and cuts off the first one. If it can also
//! cut off the last one, it is a `CutBack`, and its iterators are double-ended. `Spans` yields the items with
//! their starts, `Items` without them.
//!
//! A contract sees an iterator as where it cuts, `on`, and the list of items that it has yet to yield, `items`.
//!
//! Nothing here allocates.

ghost use Rattle.std.specs.Prelude.{⊤, ◌≡◌, ◌+◌, ◌≤◌, ◌↔◌, ℕ, List, [], IfSome, IsTrue, MatchOption, length};
ghost use Rattle.std.specs.Iterator.{item_count};
ghost use Rattle.ascii.specs.Cutting.{Cutting, IsLawful, left_of};
ghost use Rattle.ascii.specs.Cuts.{CutsFirst, CutsLast, IsCut, IsPartLeft, IsRemainder, IsRestOf, IsSpansOf};
ghost use Rattle.ascii.specs.Cuts.{KnowsRest, LeavesFrontOf, LeavesRest};
ghost use Rattle.ascii.specs.Found.{part_in};
ghost use Rattle.ascii.specs.Spans.{EndFits, piece_in};
ghost use Rattle.ascii.specs.Steps.{Iterates, IteratesSpans, StepsSpan, StepsText, YieldsFirstAnd};
ghost use Rattle.ascii.specs.Steps.{YieldsLastAnd, at_back, at_front};
ghost use Rattle.ascii.specs.View.{text_of};

use crate::ascii_str::AsciiStr;
use crate::iter::cursor::Cursor;
use crate::iter::spans::SplitSpan;
use std::alloc::AllocError;
use std::iter::FusedIterator;
use std::marker::Model;

/// A way to cut a text into items.
pub trait Cut: Copy {
    /// What is known of the text that is left, so that its bytes are not tested again.
    type Marks: Copy;

    // what the items are, and what is left when one was cut off
    ghost cut: { Self → Cutting };

    // what marks say of a text
    ghost knows: { Self.Marks → List ℕ → Type 0 };

    /// Returns the first item, what is left and its marks, or `None` if there is no item.
    ///
    /// Condition: `marks` are marks of the part.
    fn first<'a>(
        self,
        part: Cursor<'a>,
        marks: Self::Marks,
    ) -> Option<(SplitSpan<'a>, Option<Cursor<'a>>, Self::Marks)>
        requires { knows marks (text_of part.view) }
        ensures first { CutsFirst (cut self) part.entry result }
        ensures item { IsCut (cut self).IsItem result }
        ensures left { LeavesRest (cut self) part.entry result }
        ensures marks { KnowsRest knows result };

    /// Returns `true` if the part has no items.
    ///
    /// Condition: `marks` are marks of the part.
    #[inline(always)]
    fn has_none(self, part: Cursor<'_>, marks: Self::Marks) -> bool
        requires { knows marks (text_of part.view) }
        ensures { IsTrue result ↔ ((cut self).spans (part_in part.entry) ≡ []) }
    {
        self.first(part, marks).is_none()
    }

    /// Tells the prover the laws of the cut. Does nothing at run time.
    ///
    ///     AtTerminator { on: AsciiChar::Comma }.tell_laws();
    fn tell_laws(self)
        ensures { IsLawful (cut self) };
}

/// A way to cut a text into items from both ends.
pub trait CutBack: Cut {
    /// Returns the last item, what is left and its marks, or `None` if there is no item.
    ///
    /// Condition: `marks` are marks of the part.
    fn last<'a>(
        self,
        part: Cursor<'a>,
        marks: Self::Marks,
    ) -> Option<(SplitSpan<'a>, Option<Cursor<'a>>, Self::Marks)>
        requires { Self.knows marks (text_of part.view) }
        ensures last { CutsLast (Self.cut self) part.entry result }
        ensures item { IsCut (Self.cut self).IsItem result }
        ensures left { LeavesFrontOf (Self.cut self) part.entry result }
        ensures marks { KnowsRest Self.knows result };
}

/// An iterator over the items of a view, each with its start. It is double-ended if the way to cut,
/// `C`, has a back.
///
/// `SplitSpans` is a name of it, and `spans` of an iterator over items makes it of the same items.
pub struct Spans<'a, C: Cut> {
    // What is left to cut, or `None` if no items are left.
    pub(crate) rest: Option<Cursor<'a>>,
    pub(crate) marks: C::Marks,
    pub(crate) on: C,
}

impl<'a, C: Cut> Model for Spans<'a, C> {
    ghost use Rattle.std.specs.Prelude.{IfSome, List, ℕ};
    ghost use Rattle.std.specs.Option.{option_map};
    ghost use Rattle.ascii.specs.Cutting.{left_of};
    ghost use Rattle.ascii.specs.Found.{part_in};
    ghost use Rattle.ascii.specs.Pieces.{Remaining};
    ghost use Rattle.ascii.specs.Spans.{WithStart};
    ghost use Rattle.ascii.specs.View.{text_of};

    ghost Value = { Remaining C (WithStart (List ℕ)) };

    ghost view = { λ spans. record {
      on = spans.on;
      items = left_of (C.cut spans.on).spans (option_map part_in spans.rest);
      rest = option_map part_in spans.rest;
    } };

    ghost invariant = { λ spans.
        IfSome spans.rest (λ rest. C.knows spans.marks (text_of rest.view)) };
}

impl<'a, C: Cut + Drop> Drop for Spans<'a, C> {
    fn drop(self) {
        let Spans {
            rest: _,
            marks: _,
            on,
        } = self;
        drop(on);
    }
}

impl<'a, C: Cut> Clone for Spans<'a, C> {
    ghost is_clone = { λ spans copy. copy ≡ spans };

    ghost is_infallible = { λ _. ⊤ };

    /// Returns an iterator with the same remaining items and starts. Always returns `Ok`.
    ///
    ///     AsciiStr::literal("a,b").split_spans(AsciiChar::Comma).clone()?.remainder() // Some((0, "a,b"))
    ///     AsciiStr::literal(" ").words::<Blank>().spans().clone()?.remainder() // None
    fn clone(&self) -> Result<Self, AllocError> {
        Ok(Spans {
            rest: self.rest,
            marks: self.marks,
            on: self.on,
        })
    }
}

impl<'a, C: Cut> Iterator for Spans<'a, C> {
    type Item = SplitSpan<'a>;

    ghost next_gives = { YieldsFirstAnd piece_in (λ left. left.items) (StepsSpan at_front C.cut) };

    ghost remaining = { item_count (λ left. left.items) };

    /// Returns the next item with its start, or `None` if there are none left; it then keeps
    /// returning `None`.
    ///
    ///     AsciiStr::literal("a,b").split_spans(AsciiChar::Comma).next() // Some(SplitSpan { start: 0, text: "a" })
    ///     AsciiStr::literal(" ").words::<Blank>().spans().next() // None
    #[inline(always)]
    fn next(&mut self) -> Option<SplitSpan<'a>> {
        self.on.tell_laws();
        let (first, others, marks) = self.on.first(self.rest?, self.marks)?;
        self.rest = others;
        self.marks = marks;
        Some(first)
    }
}

impl<'a, C: CutBack> DoubleEndedIterator for Spans<'a, C> {
    ghost next_back_gives = { YieldsLastAnd piece_in (λ left. left.items) (StepsSpan at_back C.cut) };

    /// Returns the last of the remaining items with its start, or `None` if there are none left; it
    /// then keeps returning `None`.
    ///
    ///     AsciiStr::literal("a,b").split_spans(AsciiChar::Comma).next_back() // Some(SplitSpan { start: 2, text: "b" })
    ///     AsciiStr::literal(" ").words::<Blank>().spans().next_back() // None
    #[inline(always)]
    fn next_back(&mut self) -> Option<SplitSpan<'a>> {
        self.on.tell_laws();
        let (last, others, marks) = self.on.last(self.rest?, self.marks)?;
        self.rest = others;
        self.marks = marks;
        Some(last)
    }
}

impl<'a, C: Cut> FusedIterator for Spans<'a, C> {}

impl<'a, C: Cut> Spans<'a, C> {
    /// Tells the prover that the remaining items are those of the part that is left, and the laws of
    /// the cut.
    #[inline(always)]
    fn tell_items(&self)
        ensures items { self.now.items ≡ left_of (C.cut self.now.on).spans self.now.rest }
        ensures laws { IsLawful (C.cut self.now.on) }
    {
        let _ = &self.rest;
        self.on.tell_laws();
    }

    /// The part that is left, or `None` if no items remain.
    #[inline(always)]
    fn part_left(&self) -> Option<Cursor<'a>>
        ensures { MatchOption result (self.now.items ≡ []) (λ part.
            IsPartLeft C.cut self.now (part_in part)) }
    {
        let part = self.rest?;
        self.on.tell_laws();
        if self.on.has_none(part, self.marks) {
            return None;
        }
        Some(part)
    }

    /// Returns the part of the text that is left, with its start, or `None` if no items remain. The
    /// remaining items are those of the part. The iterator is unchanged.
    ///
    /// Constant time for pieces; for words, runs and matches, searches for the next one.
    ///
    ///     let mut spans = AsciiStr::literal("foo;bar").split_spans(AsciiChar::Semicolon);
    ///     spans.next() // Some(SplitSpan { start: 0, text: "foo" })
    ///     spans.remainder() // Some((4, "bar"))
    pub fn remainder(&self) -> Option<(usize, AsciiStr<'a>)>
        ensures remainder { IsRestOf C.cut self.now result }
        ensures fits { IfSome result (λ tail. EndFits tail.0 tail.1) }
    {
        match self.part_left() {
            Some(part) => Some((part.start, part.view)),
            None => None,
        }
    }
}

/// An iterator over the items of a view. It is double-ended if the way to cut, `C`, has a back.
///
/// `Split`, `Words` and the other types of this module over items without starts are names of it.
pub struct Items<'a, C: Cut> {
    pub(crate) spans: Spans<'a, C>,
}

impl<'a, C: Cut> Model for Items<'a, C> {
    ghost use Rattle.std.specs.Prelude.{List, ℕ};
    ghost use Rattle.ascii.specs.Pieces.{Remaining};
    ghost use Rattle.ascii.specs.Spans.{items_of};

    ghost Value = { Remaining C (List ℕ) };

    ghost view = { λ items. record {
      on = items.spans.on;
      items = items_of items.spans.items;
      rest = items.spans.rest;
    } };
}

impl<'a, C: Cut + Drop> Drop for Items<'a, C> {
    fn drop(self) {
        let Items { spans } = self;
        drop(spans);
    }
}

impl<'a, C: Cut> Clone for Items<'a, C> {
    ghost is_clone = { λ items copy. copy ≡ items };

    ghost is_infallible = { λ _. ⊤ };

    /// Returns an iterator with the same remaining items. Always returns `Ok`.
    ///
    ///     AsciiStr::literal("a,b").split(AsciiChar::Comma).clone()?.remainder() // Some("a,b")
    ///     AsciiStr::literal(" ").words::<Blank>().clone()?.remainder() // None
    fn clone(&self) -> Result<Self, AllocError> {
        Ok(Items {
            spans: self.spans.clone()?,
        })
    }
}

impl<'a, C: Cut> Iterator for Items<'a, C> {
    type Item = AsciiStr<'a>;

    ghost next_gives = { YieldsFirstAnd text_of (λ left. left.items) (StepsText at_front C.cut) };

    ghost remaining = { item_count (λ left. left.items) };

    /// Returns the next item, or `None` if there are none left; it then keeps returning `None`.
    ///
    ///     AsciiStr::literal("a,b").split(AsciiChar::Comma).next() // Some("a")
    ///     AsciiStr::literal(" ").words::<Blank>().next() // None
    #[inline(always)]
    fn next(&mut self) -> Option<AsciiStr<'a>> {
        let span = self.spans.next()?;
        Some(span.text)
    }
}

impl<'a, C: CutBack> DoubleEndedIterator for Items<'a, C> {
    ghost next_back_gives = { YieldsLastAnd text_of (λ left. left.items) (StepsText at_back C.cut) };

    /// Returns the last of the remaining items, or `None` if there are none left; it then keeps
    /// returning `None`.
    ///
    ///     AsciiStr::literal("a,b").split(AsciiChar::Comma).next_back() // Some("b")
    ///     AsciiStr::literal(" ").words::<Blank>().next_back() // None
    #[inline(always)]
    fn next_back(&mut self) -> Option<AsciiStr<'a>> {
        let span = self.spans.next_back()?;
        Some(span.text)
    }
}

impl<'a, C: Cut> FusedIterator for Items<'a, C> {}

impl<'a, C: Cut> Items<'a, C> {
    /// Returns an iterator over the remaining items, each with its start.
    ///
    ///     let mut spans = AsciiStr::literal("a b").words::<Blank>().spans();
    ///     spans.next_back() // Some(SplitSpan { start: 2, text: "b" })
    ///     AsciiStr::literal(" ").words::<Blank>().spans().next() // None
    #[inline(always)]
    pub fn spans(self) -> Spans<'a, C>
        ensures { IsSpansOf C.cut self.entry result }
    {
        let Items { spans } = self;
        spans.tell_items();
        spans
    }

    /// Returns the text that is left, or `None` if no items remain. The remaining items are those
    /// of the text. The iterator is unchanged.
    ///
    /// Constant time for pieces; for words, runs and matches, searches for the next one.
    ///
    ///     let mut pieces = AsciiStr::literal("foo;bar;baz").split(AsciiChar::Semicolon);
    ///     pieces.next() // Some("foo")
    ///     pieces.remainder() // Some("bar;baz")
    ///     AsciiStr::literal(" ").words::<Blank>().remainder() // None
    pub fn remainder(&self) -> Option<AsciiStr<'a>>
        ensures { IsRemainder C.cut self.now result }
    {
        match self.spans.part_left() {
            Some(part) => Some(part.view),
            None => None,
        }
    }
}

impl<'a> AsciiStr<'a> {
    /// An iterator over the items of the view, each with its start, counted from `offset`.
    #[inline(always)]
    pub(crate) fn spans_at<C: Cut>(self, on: C, marks: C::Marks, offset: usize) -> Spans<'a, C>
        requires fits { offset + length (text_of self) ≤ usize.MAX }
        requires marks { C.knows marks (text_of self) }
        ensures on { result.on ≡ on }
        ensures iterates { IteratesSpans C.cut on
            (record { start = offset; item = text_of self.entry }) result }
    {
        on.tell_laws();
        Spans {
            rest: Some(Cursor {
                start: offset,
                view: self,
            }),
            marks,
            on,
        }
    }

    /// An iterator over the items of the view.
    #[inline(always)]
    pub(crate) fn items_at<C: Cut>(self, on: C, marks: C::Marks) -> Items<'a, C>
        requires { C.knows marks (text_of self) }
        ensures on { result.on ≡ on }
        ensures iterates { Iterates C.cut on (text_of self.entry) result }
    {
        on.tell_laws();
        Items {
            spans: self.spans_at(on, marks, 0),
        }
    }
}
