//! The pieces of a view at each occurrence of a text, and the occurrences, from the front.
//!
//! The occurrences are found from the left, each after the end of the one before. An empty text occurs
//! nowhere here: the view is its only piece, and there are no matches.
//!
//! Nothing here allocates.

ghost use Rattle.std.specs.Prelude.{⊤, ◌≡◌};
ghost use Rattle.ascii.specs.Steps.{Iterates};
ghost use Rattle.ascii.specs.TheCuts.{at_matches, at_text};
ghost use Rattle.ascii.specs.View.{text_of};

use crate::ascii_str::AsciiStr;
use crate::iter::cursor::Cursor;
use crate::iter::items::{Cut, Items};
use crate::iter::spans::SplitSpan;

/// The cut at each occurrence of a text.
#[derive(Clone, Copy, Drop)]
pub struct AtText<'n> {
    /// The text at which to cut.
    pub needle: AsciiStr<'n>,
}

impl<'n> Cut for AtText<'n> {
    type Marks = ();

    ghost cut = { λ at. at_text (text_of at.needle) };

    ghost knows = { λ _ _. ⊤ };

    #[inline(always)]
    fn first<'a>(
        self,
        part: Cursor<'a>,
        _marks: (),
    ) -> Option<(SplitSpan<'a>, Option<Cursor<'a>>, ())> {
        if self.needle.is_empty() {
            return Some((part.piece(), None, ()));
        }
        match part.view.find_near(self.needle) {
            Some(at) => Some((
                part.to(at).piece(),
                Some(part.from(at + self.needle.len())),
                (),
            )),
            None => Some((part.piece(), None, ())),
        }
    }

    #[inline(always)]
    fn has_none(self, _part: Cursor<'_>, _marks: ()) -> bool {
        false
    }

    #[inline(always)]
    #[tactic(auto, using(crate::proofs::CutLaws::at_text_lawful))]
    fn tell_laws(self) {}
}

/// The cut into the occurrences of a text.
#[derive(Clone, Copy, Drop)]
pub struct AtMatches<'n> {
    /// The text that occurs.
    pub needle: AsciiStr<'n>,
}

impl<'n> Cut for AtMatches<'n> {
    type Marks = ();

    ghost cut = { λ at. at_matches (text_of at.needle) };

    ghost knows = { λ _ _. ⊤ };

    #[inline(always)]
    fn first<'a>(
        self,
        part: Cursor<'a>,
        _marks: (),
    ) -> Option<(SplitSpan<'a>, Option<Cursor<'a>>, ())> {
        if self.needle.is_empty() {
            return None;
        }
        let at = part.view.find_near(self.needle)?;
        let found = part.from(at).to(self.needle.len());
        Some((found.piece(), Some(part.from(at + self.needle.len())), ()))
    }

    #[inline(always)]
    #[tactic(auto, using(crate::proofs::CutLaws::at_matches_lawful))]
    fn tell_laws(self) {}
}

/// An iterator over the pieces of a view at each occurrence of a text, from the front.
pub type SplitStr<'a, 'n> = Items<'a, AtText<'n>>;

/// An iterator over the occurrences of a text in a view, from the front.
pub type Matches<'a, 'n> = Items<'a, AtMatches<'n>>;

impl<'a> AsciiStr<'a> {
    /// Returns an iterator over the pieces of the view at each occurrence of `needle`, from the front.
    /// There is at least one piece, and `needle` does not occur in any. If `needle` is empty, the view
    /// is the only piece.
    ///
    /// Constant time; a full walk searches the view once.
    ///
    ///     let mut pieces = AsciiStr::literal("one, two, three").split_str(AsciiStr::literal(", "));
    ///     pieces.next() // Some("one")
    ///     pieces.remainder() // Some("two, three")
    ///     AsciiStr::literal("aaa").split_str(AsciiStr::literal("aa")).count() // 2
    pub fn split_str<'n>(self, needle: AsciiStr<'n>) -> SplitStr<'a, 'n>
        ensures on { result.on ≡ record { needle = needle.entry } }
        ensures iterates { Iterates (λ at. at_text (text_of at.needle))
            (record { needle = needle.entry }) (text_of self.entry) result }
    {
        self.items_at(AtText { needle }, ())
    }

    /// Returns an iterator over the occurrences of `needle` in the view, from the front. Each is a part
    /// of the view. There are none if `needle` is empty.
    ///
    /// Constant time; a full walk searches the view once.
    ///
    ///     AsciiStr::literal("banana").matches(AsciiStr::literal("an")).count() // 2
    ///     AsciiStr::literal("aaa").matches(AsciiStr::literal("aa")).count() // 1
    pub fn matches<'n>(self, needle: AsciiStr<'n>) -> Matches<'a, 'n>
        ensures on { result.on ≡ record { needle = needle.entry } }
        ensures iterates { Iterates (λ at. at_matches (text_of at.needle))
            (record { needle = needle.entry }) (text_of self.entry) result }
    {
        self.items_at(AtMatches { needle }, ())
    }
}
