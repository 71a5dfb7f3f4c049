//! The entries of a map, its keys and its values, in the order of its keys.

ghost use Rattle.std.specs.Iterator.{item_count};
ghost use Rattle.std.specs.Map.{keys_of};
ghost use Rattle.std.specs.Map.Iter.{TakesFirst};
ghost use Rattle.std.specs.Prelude.{◌≡◌};
ghost use Rattle.ascii.specs.View.{text_of};
ghost use Rattle.ascii_keys.specs.Maps.{entry_of};

use crate::folded::FoldedString;
use ascii::{AsciiStr, text};
use std::collections::btree_map;
use std::marker::Model;
use std::slice;

/// An iterator over the entries of an `AsciiMap`.
#[derive(Drop)]
pub struct AsciiMapIter<'a, V> {
    entries: btree_map::Iter<'a, String, V>,
}

impl<'a, V> Model for AsciiMapIter<'a, V> {
    ghost use Rattle.ascii_keys.specs.Maps.{Entries, HasAsciiKeys, texts_of};

    ghost Value = { Entries V };

    ghost view = { λ iter. texts_of iter.entries };

    ghost invariant = { λ iter. HasAsciiKeys iter.entries };
}

impl<'a, V> AsciiMapIter<'a, V> {
    ghost use Rattle.ascii_keys.specs.Maps.{HasAsciiKeys, texts_of};

    /// Returns an iterator over these entries.
    pub(crate) fn new(entries: btree_map::Iter<'a, String, V>) -> Self
        requires { HasAsciiKeys entries }
        ensures { result ≡ texts_of entries.entry }
    {
        AsciiMapIter { entries }
    }
}

impl<'a, V> Iterator for AsciiMapIter<'a, V> {
    type Item = (AsciiStr<'a>, &'a V);

    ghost next_gives = { TakesFirst entry_of };

    ghost remaining = { item_count (λ entries. entries) };

    /// Returns the next key and its value, or `None` if there are none left; it then keeps returning
    /// `None`.
    ///
    ///     let mut ports = AsciiMap::new(alloc);
    ///     ports.insert(AsciiStr::literal("http"), 80)?;
    ///     let mut entries = ports.iter();
    ///     entries.next() // Some(("http", 80))
    ///     entries.next() // None
    fn next(&mut self) -> Option<(AsciiStr<'a>, &'a V)> {
        let (key, value) = self.entries.next()?;
        Some((text::as_ascii_str_unchecked(key.as_str()), value))
    }
}

/// An iterator over the values of an `AsciiMap`, in the order of their keys: that of std's `BTreeMap`.
pub type AsciiMapValues<'a, V> = btree_map::Values<'a, String, V>;

/// An iterator over the entries of a `FoldedMap`: each key as it was first written, and its value.
#[derive(Drop)]
pub struct FoldedMapIter<'a, V> {
    entries: slice::Iter<'a, (FoldedString, V)>,
}

impl<'a, V> Model for FoldedMapIter<'a, V> {
    ghost use Rattle.std.specs.Slice.Iter.{iter_rest};
    ghost use Rattle.ascii_keys.specs.Maps.{Entries};

    ghost Value = { Entries V };

    ghost view = { λ iter. iter_rest iter.entries };
}

impl<'a, V> FoldedMapIter<'a, V> {
    /// Returns an iterator over these entries.
    pub(crate) fn new(entries: &'a [(FoldedString, V)]) -> Self
        ensures { result ≡ entries.now }
    {
        FoldedMapIter {
            entries: entries.iter(),
        }
    }
}

impl<'a, V> Iterator for FoldedMapIter<'a, V> {
    type Item = (AsciiStr<'a>, &'a V);

    ghost next_gives = { TakesFirst entry_of };

    ghost remaining = { item_count (λ entries. entries) };

    /// Returns the next key, as it was first written, and its value, or `None` if there are none
    /// left; it then keeps returning `None`.
    ///
    ///     let mut headers = FoldedMap::new(alloc);
    ///     headers.insert(AsciiStr::literal("Host"), 1)?;
    ///     let mut entries = headers.iter();
    ///     entries.next() // Some(("Host", 1))
    ///     entries.next() // None
    fn next(&mut self) -> Option<(AsciiStr<'a>, &'a V)> {
        let (key, value) = self.entries.next()?;
        Some((key.as_folded().into_inner(), value))
    }
}

/// An iterator over the keys of a `FoldedMap`, each as it was first written.
#[derive(Drop)]
pub struct FoldedMapKeys<'a, V> {
    entries: FoldedMapIter<'a, V>,
}

impl<'a, V> Model for FoldedMapKeys<'a, V> {
    ghost use Rattle.std.specs.Map.{keys_of};
    ghost use Rattle.std.specs.Prelude.{List, ℕ};

    ghost Value = { List (List ℕ) };

    ghost view = { λ iter. keys_of iter.entries };
}

impl<'a, V> FoldedMapKeys<'a, V> {
    /// Returns an iterator over the keys of these entries.
    pub(crate) fn new(entries: FoldedMapIter<'a, V>) -> Self
        ensures { result ≡ keys_of entries.entry }
    {
        FoldedMapKeys { entries }
    }
}

impl<'a, V> Iterator for FoldedMapKeys<'a, V> {
    type Item = AsciiStr<'a>;

    ghost next_gives = { TakesFirst text_of };

    ghost remaining = { item_count (λ keys. keys) };

    /// Returns the next key, as it was first written, or `None` if there are none left; it then keeps
    /// returning `None`.
    ///
    ///     let mut headers = FoldedMap::new(alloc);
    ///     headers.insert(AsciiStr::literal("Host"), 1)?;
    ///     let mut keys = headers.keys();
    ///     keys.next() // Some("Host")
    ///     keys.next() // None
    fn next(&mut self) -> Option<AsciiStr<'a>> {
        let (key, _) = self.entries.next()?;
        Some(key)
    }
}
