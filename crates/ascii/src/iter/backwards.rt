//! The items of a view in reverse, by double-ended iterators.
//!
//! Nothing here allocates.

ghost use Rattle.ascii_base.specs.Code.{code_of};
ghost use Rattle.ascii.specs.Cutting.{backwards};
ghost use Rattle.ascii.specs.Steps.{Iterates};
ghost use Rattle.ascii.specs.TheCuts.{at_code};
ghost use Rattle.ascii.specs.View.{text_of};

use crate::ascii_str::AsciiStr;
use crate::iter::cursor::Cursor;
use crate::iter::items::{Cut, CutBack, Items};
use crate::iter::spans::SplitSpan;
use crate::iter::split::AtChar;
use ascii_base::ascii_char::AsciiChar;

/// A cut from the other end: its items are those of the cut, in reverse.
#[derive(Clone, Copy, Drop)]
pub struct Backwards<C> {
    /// The cut whose items they are.
    pub cut: C,
}

impl<C: CutBack> Cut for Backwards<C> {
    type Marks = C::Marks;

    ghost cut = { λ back. backwards (C.cut back.cut) };

    ghost knows = { C.knows };

    #[inline(always)]
    fn first<'a>(
        self,
        part: Cursor<'a>,
        marks: C::Marks,
    ) -> Option<(SplitSpan<'a>, Option<Cursor<'a>>, C::Marks)> {
        self.cut.last(part, marks)
    }

    #[inline(always)]
    fn has_none(self, part: Cursor<'_>, marks: C::Marks) -> bool {
        self.cut.has_none(part, marks)
    }

    #[inline(always)]
    #[tactic(auto, using(crate::proofs::CutLaws::backwards_lawful))]
    fn tell_laws(self) {
        self.cut.tell_laws();
    }
}

impl<C: CutBack> CutBack for Backwards<C> {
    #[inline(always)]
    fn last<'a>(
        self,
        part: Cursor<'a>,
        marks: C::Marks,
    ) -> Option<(SplitSpan<'a>, Option<Cursor<'a>>, C::Marks)> {
        self.cut.first(part, marks)
    }
}

/// A double-ended iterator over the pieces of a view between separators, the last piece first.
pub type RSplit<'a> = Items<'a, Backwards<AtChar>>;

impl<'a> AsciiStr<'a> {
    /// Returns a double-ended iterator over the pieces of the view at each `on`, the last piece
    /// first.
    ///
    /// Constant time; a full walk searches the view once.
    ///
    ///     let mut pieces = AsciiStr::literal("a.b.c").rsplit(AsciiChar::Dot);
    ///     pieces.next() // Some("c")
    ///     pieces.remainder() // Some("a.b")
    pub fn rsplit(self, on: AsciiChar) -> RSplit<'a>
        ensures iterates { Iterates (λ back. backwards (at_code back.cut))
            (record { cut = code_of on }) (text_of self.entry) result }
    {
        self.items_at(
            Backwards {
                cut: AtChar::new(on),
            },
            (),
        )
    }
}
