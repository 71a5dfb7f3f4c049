//! At most `n` pieces of a view, of which the n-th holds the rest.
//!
//! Nothing here allocates.

ghost use Rattle.std.specs.Prelude.{⊤, ◌≡◌, List, ℕ};
ghost use Rattle.std.specs.Iterator.{item_count};
ghost use Rattle.ascii_base.specs.Code.{code_of};
ghost use Rattle.ascii.specs.Pieces.{IsRemainderUpTo, IteratesPiecesUpTo, Remaining};
ghost use Rattle.ascii.specs.Steps.{KeepsOn, LoopsInOrder, YieldsFirstAnd};
ghost use Rattle.ascii.specs.View.{text_of};

use crate::ascii_str::AsciiStr;
use crate::iter::split::Split;
use ascii_base::ascii_char::AsciiChar;
use std::alloc::AllocError;
use std::iter::FusedIterator;
use std::marker::Model;

/// An iterator over at most `n` pieces of a view, of which the n-th holds the rest of the view.
#[derive(Drop)]
pub struct SplitN<'a> {
    pieces: Split<'a>,
    count: usize,
}

impl<'a> Model for SplitN<'a> {
    ghost use Rattle.std.specs.Prelude.{◌==◌, List, None, cond, ℕ};
    ghost use Rattle.ascii.specs.Found.{pieces_up_to};
    ghost use Rattle.ascii.specs.Pieces.{Remaining};

    ghost Value = { Remaining ℕ (List ℕ) };

    ghost view = { λ split. record {
      on = split.pieces.on;
      items = pieces_up_to split.pieces.on split.count split.pieces.items;
      rest = cond (split.count == 0) None split.pieces.rest;
    } };
}

impl Clone for SplitN<'_> {
    ghost is_clone = { λ split copy. copy ≡ split };

    ghost is_infallible = { λ _. ⊤ };

    /// Returns an iterator with the same remaining pieces. Always returns `Ok`.
    ///
    ///     let mut pieces = AsciiStr::literal("a,b,c").splitn(2, AsciiChar::Comma);
    ///     let mut copy = pieces.clone()?;
    ///     pieces.next() // Some("a")
    ///     copy.next() // Some("a")
    fn clone(&self) -> Result<Self, AllocError> {
        Ok(SplitN {
            pieces: self.pieces.clone()?,
            count: self.count,
        })
    }
}

impl<'a> Iterator for SplitN<'a> {
    type Item = AsciiStr<'a>;

    ghost next_gives = { YieldsFirstAnd text_of (λ left. left.items) KeepsOn };

    ghost remaining = { item_count (λ left. left.items) };

    /// Returns the next piece, or `None` if there are none left; it then keeps returning `None`.
    ///
    ///     AsciiStr::literal("a,b,c").splitn(1, AsciiChar::Comma).next() // Some("a,b,c")
    ///     AsciiStr::literal("a,b,c").splitn(0, AsciiChar::Comma).next() // None
    #[inline(always)]
    fn next(&mut self) -> Option<AsciiStr<'a>> {
        match self.count {
            0 => None,
            1 => {
                self.count = 0;
                self.pieces.remainder()
            }
            _ => {
                self.count -= 1;
                self.pieces.next()
            }
        }
    }
}

impl FusedIterator for SplitN<'_> {}

impl<'a> SplitN<'a> {
    /// Returns the part of the view whose pieces remain, or `None` if there are none left. The iterator
    /// is unchanged. Constant time.
    ///
    ///     let mut pieces = AsciiStr::literal("a,b,c").splitn(3, AsciiChar::Comma);
    ///     pieces.next() // Some("a")
    ///     pieces.remainder() // Some("b,c")
    ///     AsciiStr::literal("a,b,c").splitn(0, AsciiChar::Comma).remainder() // None
    pub fn remainder(&self) -> Option<AsciiStr<'a>>
        ensures { IsRemainderUpTo self.now result }
    {
        if self.count == 0 {
            return None;
        }
        self.pieces.remainder()
    }
}

impl<'a> AsciiStr<'a> {
    /// Returns an iterator over at most `n` pieces of the view at `on`: the n-th piece holds the
    /// rest of the view, with every `on` in it. There are none if `n` is 0.
    ///
    /// For two parts use `split_once`.
    ///
    ///     let mut pieces = AsciiStr::literal("a,b,c").splitn(2, AsciiChar::Comma);
    ///     pieces.next() // Some("a")
    ///     pieces.next() // Some("b,c")
    ///     pieces.next() // None
    ///     AsciiStr::literal("a,b").splitn(0, AsciiChar::Comma).next() // None
    pub fn splitn(self, n: usize, on: AsciiChar) -> SplitN<'a>
        ensures iterates { IteratesPiecesUpTo n (text_of self.entry) (code_of on) result.items }
        ensures separator { result.on ≡ code_of on }
        ensures loops { LoopsInOrder text_of (λ (left : Remaining ℕ (List ℕ)). left.items) KeepsOn }
    {
        SplitN {
            pieces: self.split(on),
            count: n,
        }
    }
}
