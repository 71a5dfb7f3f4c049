//! The pieces of a view that a separator ends: without the empty piece after a last separator, and
//! with their separators.
//!
//! Nothing here allocates.

ghost use Rattle.std.specs.Prelude.{⊤, ◌≡◌};
ghost use Rattle.ascii_base.specs.Code.{code_of};
ghost use Rattle.ascii.specs.Steps.{Iterates};
ghost use Rattle.ascii.specs.TheCuts.{at_end, at_terminator};
ghost use Rattle.ascii.specs.View.{text_of};

use crate::ascii_str::AsciiStr;
use crate::iter::cursor::Cursor;
use crate::iter::items::{Cut, CutBack, Items};
use crate::iter::spans::SplitSpan;
use ascii_base::ascii_char::AsciiChar;

/// The cut at each one character, without the empty piece after a last one.
#[derive(Clone, Copy, Drop)]
pub struct AtTerminator {
    /// The character that ends a piece.
    pub on: AsciiChar,
}

impl Cut for AtTerminator {
    type Marks = ();

    ghost cut = { λ at. at_terminator (code_of at.on) };

    ghost knows = { λ _ _. ⊤ };

    #[inline(always)]
    fn first<'a>(
        self,
        part: Cursor<'a>,
        _marks: (),
    ) -> Option<(SplitSpan<'a>, Option<Cursor<'a>>, ())> {
        if part.view.is_empty() {
            return None;
        }
        match part.split_at_first(self.on.as_byte()) {
            Some((piece, others)) => Some((piece.piece(), Some(others), ())),
            None => Some((part.piece(), None, ())),
        }
    }

    #[inline(always)]
    fn has_none(self, part: Cursor<'_>, _marks: ()) -> bool {
        part.view.is_empty()
    }

    #[inline(always)]
    #[tactic(auto, using(crate::proofs::CutLaws::at_terminator_lawful))]
    fn tell_laws(self) {}
}

impl CutBack for AtTerminator {
    #[inline(always)]
    fn last<'a>(
        self,
        part: Cursor<'a>,
        _marks: (),
    ) -> Option<(SplitSpan<'a>, Option<Cursor<'a>>, ())> {
        let on = self.on.as_byte();
        let (last, front) = part.view.bytes.split_last()?;
        if *last == on {
            let (others, piece) = part.to(front.len()).split_after_last(on);
            Some((piece.piece(), Some(others), ()))
        } else {
            let (others, piece) = part.split_after_last(on);
            Some((piece.piece(), Some(others), ()))
        }
    }
}

/// The cut after each one character, which each piece but the last one has as its last.
#[derive(Clone, Copy, Drop)]
pub struct AtEnd {
    /// The character that ends a piece.
    pub on: AsciiChar,
}

impl Cut for AtEnd {
    type Marks = ();

    ghost cut = { λ at. at_end (code_of at.on) };

    ghost knows = { λ _ _. ⊤ };

    #[inline(always)]
    fn first<'a>(
        self,
        part: Cursor<'a>,
        _marks: (),
    ) -> Option<(SplitSpan<'a>, Option<Cursor<'a>>, ())> {
        if part.view.is_empty() {
            return None;
        }
        match part.split_at_first(self.on.as_byte()) {
            Some((piece, others)) => {
                Some((part.to(piece.view.len() + 1).piece(), Some(others), ()))
            }
            None => Some((part.piece(), None, ())),
        }
    }

    #[inline(always)]
    fn has_none(self, part: Cursor<'_>, _marks: ()) -> bool {
        part.view.is_empty()
    }

    #[inline(always)]
    #[tactic(auto, using(crate::proofs::CutLaws::at_end_lawful))]
    fn tell_laws(self) {}
}

impl CutBack for AtEnd {
    #[inline(always)]
    fn last<'a>(
        self,
        part: Cursor<'a>,
        _marks: (),
    ) -> Option<(SplitSpan<'a>, Option<Cursor<'a>>, ())> {
        let (_last, front) = part.view.bytes.split_last()?;
        let (others, _piece) = part.to(front.len()).split_after_last(self.on.as_byte());
        Some((part.from(others.view.len()).piece(), Some(others), ()))
    }
}

/// A double-ended iterator over the pieces of a view that a character ends.
pub type SplitTerminator<'a> = Items<'a, AtTerminator>;

/// A double-ended iterator over the pieces of a view with the separators that end them.
pub type SplitInclusive<'a> = Items<'a, AtEnd>;

impl<'a> AsciiStr<'a> {
    /// Returns a double-ended iterator over the pieces of the view that `on` ends: like `split`,
    /// but without the last piece if it is empty.
    ///
    /// Constant time; a full walk searches the view once.
    ///
    ///     let mut pieces = AsciiStr::literal("a;b;").split_terminator(AsciiChar::Semicolon);
    ///     pieces.next_back() // Some("b")
    ///     pieces.next_back() // Some("a")
    ///     pieces.next_back() // None
    ///     AsciiStr::literal("a;;").split_terminator(AsciiChar::Semicolon).count() // 2
    ///     AsciiStr::literal("").split_terminator(AsciiChar::Semicolon).count() // 0
    pub fn split_terminator(self, on: AsciiChar) -> SplitTerminator<'a>
        ensures on { result.on ≡ record { on = on } }
        ensures iterates { Iterates (λ at. at_terminator (code_of at.on)) (record { on = on })
            (text_of self.entry) result }
    {
        self.items_at(AtTerminator { on }, ())
    }

    /// Returns a double-ended iterator over the pieces of the view at each `on`, each with the `on`
    /// that ends it. A last piece without one is yielded unless it is empty. Joined, the pieces are
    /// the view.
    ///
    /// Constant time; a full walk searches the view once.
    ///
    ///     let mut pieces = AsciiStr::literal("a;b;c").split_inclusive(AsciiChar::Semicolon);
    ///     pieces.next() // Some("a;")
    ///     pieces.next_back() // Some("c")
    ///     pieces.next_back() // Some("b;")
    ///     pieces.next() // None
    pub fn split_inclusive(self, on: AsciiChar) -> SplitInclusive<'a>
        ensures on { result.on ≡ record { on = on } }
        ensures iterates { Iterates (λ at. at_end (code_of at.on)) (record { on = on })
            (text_of self.entry) result }
    {
        self.items_at(AtEnd { on }, ())
    }
}
