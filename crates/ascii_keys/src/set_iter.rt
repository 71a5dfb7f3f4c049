//! The texts of a set, in order.

ghost use Rattle.std.specs.Iterator.{item_count};
ghost use Rattle.std.specs.Map.{keys_of};
ghost use Rattle.std.specs.Map.Iter.{TakesFirst};
ghost use Rattle.std.specs.Prelude.{◌≡◌};
ghost use Rattle.ascii.specs.View.{text_of};

use crate::map_iter::{AsciiMapIter, FoldedMapKeys};
use ascii::AsciiStr;
use std::marker::Model;

/// An iterator over the texts of an `AsciiSet`.
#[derive(Drop)]
pub struct AsciiSetIter<'a> {
    entries: AsciiMapIter<'a, ()>,
}

impl<'a> Model for AsciiSetIter<'a> {
    ghost use Rattle.std.specs.Map.{keys_of};
    ghost use Rattle.std.specs.Prelude.{List, ℕ};

    ghost Value = { List (List ℕ) };

    ghost view = { λ iter. keys_of iter.entries };
}

impl<'a> AsciiSetIter<'a> {
    /// Returns an iterator over the keys of these entries.
    pub(crate) fn new(entries: AsciiMapIter<'a, ()>) -> Self
        ensures { result ≡ keys_of entries.entry }
    {
        AsciiSetIter { entries }
    }
}

impl<'a> Iterator for AsciiSetIter<'a> {
    type Item = AsciiStr<'a>;

    ghost next_gives = { TakesFirst text_of };

    ghost remaining = { item_count (λ texts. texts) };

    /// Returns the next text, or `None` if there are none left; it then keeps returning `None`.
    ///
    ///     let mut words = AsciiSet::new(alloc);
    ///     words.insert(AsciiStr::literal("the"))?;
    ///     let mut texts = words.iter();
    ///     texts.next() // Some("the")
    ///     texts.next() // None
    fn next(&mut self) -> Option<AsciiStr<'a>> {
        let (text, _) = self.entries.next()?;
        Some(text)
    }
}

/// An iterator over the texts of a `FoldedSet`, each as it was first written.
pub type FoldedSetIter<'a> = FoldedMapKeys<'a, ()>;
