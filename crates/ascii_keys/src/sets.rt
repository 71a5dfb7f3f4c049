//! Sets of texts, which are asked by a view.
//!
//!     let mut words = FoldedSet::new(alloc);
//!     words.insert(AsciiStr::literal("The"))? // true
//!     words.contains(AsciiStr::literal("the")) // true
//!     words.contains(AsciiStr::literal("them")) // false
//!
//! A set costs what the map with the same keys costs, and can be walked in order. A contract sees it as the list of its
//! texts: `is_member` says whether a text is one of them, and `Adds` what an insert changes.

ghost use Rattle.std.specs.Prelude.{◌≡◌, [], ℕ, IfOk, IsOk, IsTrue, List, OnErr, OnOk, not};
ghost use Rattle.std.specs.Map.{keys_of};
ghost use Rattle.std.specs.Set.{is_member};
ghost use Rattle.ascii.specs.View.{text_of};
ghost use Rattle.ascii_keys.specs.Sets.{Adds, WalksTexts};

use crate::maps::{AsciiMap, FoldedMap};
use crate::set_iter::{AsciiSetIter, FoldedSetIter};
use ascii::AsciiStr;
use std::alloc::{AllocError, Global};
use std::marker::Model;

/// A set of texts that ignores ASCII case: a `FoldedMap` without values. An insert moves the texts that come after the
/// new one.
#[derive(Drop)]
pub struct FoldedSet {
    map: FoldedMap<()>,
}

impl Model for FoldedSet {
    ghost Value = { List (List ℕ) };

    ghost view = { λ set. keys_of set.map };
}

impl FoldedSet {
    ghost use Rattle.ascii_keys.specs.Maps.{folded_order, same_folded};

    /// Creates an empty set. Does not allocate.
    ///
    ///     FoldedSet::new(alloc).contains(AsciiStr::literal("")) // false
    pub fn new(alloc: Global) -> FoldedSet
        ensures { result ≡ [] }
    {
        FoldedSet {
            map: FoldedMap::new(alloc),
        }
    }

    /// Returns `true` if the set has `text`, ignoring ASCII case.
    ///
    ///     let mut words = FoldedSet::new(alloc);
    ///     words.insert(AsciiStr::literal("The"))?;
    ///     words.contains(AsciiStr::literal("THE")) // true
    ///     words.contains(AsciiStr::literal("he")) // false
    pub fn contains(&self, text: AsciiStr<'_>) -> bool
        ensures { result ≡ is_member same_folded self.now (text_of text.entry) }
    {
        self.map.get(text).is_some()
    }

    /// Adds `text`, and returns `true` if the set did not have it, ignoring ASCII case. Fails only if
    /// an allocation fails; the set is then unchanged.
    ///
    /// Copies the text, unless the set has it: then no call fails.
    ///
    ///     let mut words = FoldedSet::new(alloc);
    ///     words.insert(AsciiStr::literal("The"))? // true
    ///     words.insert(AsciiStr::literal("the"))? // false
    ///     words.insert(AsciiStr::literal("them"))? // true
    pub fn insert(&mut self, text: AsciiStr<'_>) -> Result<bool, AllocError>
        ensures added { IfOk result (λ added.
            added ≡ not (is_member same_folded self.old (text_of text.entry))) }
        ensures adds { OnOk result (Adds same_folded self.old (text_of text.entry) self.new) }
        ensures there { IsTrue (is_member same_folded self.old (text_of text.entry))
            → IsOk result }
        ensures unchanged { OnErr result (self.new ≡ self.old) }
    {
        Ok(self.map.insert(text, ())?.is_none())
    }

    /// Returns an iterator over the texts, in the order of the texts in lower case, each as it was first
    /// written. Does not allocate.
    ///
    ///     let mut words = FoldedSet::new(alloc);
    ///     words.insert(AsciiStr::literal("b"))? // true
    ///     words.insert(AsciiStr::literal("A"))? // true
    ///     words.iter().next() // Some("A")
    ///     FoldedSet::new(alloc).iter().next() // None
    pub fn iter(&self) -> FoldedSetIter<'_>
        ensures { WalksTexts folded_order self.now result }
    {
        self.map.keys()
    }
}

/// A set of texts, in the order of their bytes: an `AsciiMap` without values.
///
/// A look-up and an insert compare O(log n) texts, whichever texts they are.
#[derive(Drop)]
pub struct AsciiSet {
    map: AsciiMap<()>,
}

impl Model for AsciiSet {
    ghost Value = { List (List ℕ) };

    ghost view = { λ set. keys_of set.map };
}

impl AsciiSet {
    ghost use Rattle.std.specs.Cmp.Lexicographic.{slice_cmp};
    ghost use Rattle.std.specs.Ordering.{nat_cmp};
    ghost use Rattle.std.specs.Str.{bytes_eq};

    /// Creates an empty set. Does not allocate.
    ///
    ///     AsciiSet::new(alloc).contains(AsciiStr::literal("")) // false
    pub fn new(alloc: Global) -> AsciiSet
        ensures { result ≡ [] }
    {
        AsciiSet {
            map: AsciiMap::new(alloc),
        }
    }

    /// Returns `true` if the set has `text`.
    ///
    ///     let mut words = AsciiSet::new(alloc);
    ///     words.insert(AsciiStr::literal("the"))?;
    ///     words.contains(AsciiStr::literal("the")) // true
    ///     words.contains(AsciiStr::literal("The")) // false
    pub fn contains(&self, text: AsciiStr<'_>) -> bool
        ensures { result ≡ is_member bytes_eq self.now (text_of text.entry) }
    {
        self.map.contains_key(text)
    }

    /// Adds `text`, and returns `true` if the set did not have it. Fails only if an allocation
    /// fails; the set is then unchanged.
    ///
    /// Copies the text, unless the set has it: then nothing is allocated, and no call fails.
    ///
    ///     let mut words = AsciiSet::new(alloc);
    ///     words.insert(AsciiStr::literal("the"))? // true
    ///     words.insert(AsciiStr::literal("the"))? // false
    ///     words.insert(AsciiStr::literal("The"))? // true
    pub fn insert(&mut self, text: AsciiStr<'_>) -> Result<bool, AllocError>
        ensures added { IfOk result (λ added.
            added ≡ not (is_member bytes_eq self.old (text_of text.entry))) }
        ensures adds { OnOk result (Adds bytes_eq self.old (text_of text.entry) self.new) }
        ensures there { IsTrue (is_member bytes_eq self.old (text_of text.entry)) → IsOk result }
        ensures unchanged { OnErr result (self.new ≡ self.old) }
    {
        let before = self.map.insert(text, ())?;
        Ok(before.is_none())
    }

    /// Removes all texts. Does not allocate.
    ///
    ///     let mut words = AsciiSet::new(alloc);
    ///     words.insert(AsciiStr::literal("the"))? // true
    ///     words.clear();
    ///     words.contains(AsciiStr::literal("the")) // false
    pub fn clear(&mut self)
        ensures { self.new ≡ [] }
    {
        self.map.clear();
    }

    /// Returns an iterator over the texts, in the order of their bytes. Does not allocate.
    ///
    ///     let mut words = AsciiSet::new(alloc);
    ///     words.insert(AsciiStr::literal("a"))? // true
    ///     words.insert(AsciiStr::literal("B"))? // true
    ///     words.iter().next() // Some("B")
    ///     AsciiSet::new(alloc).iter().next() // None
    pub fn iter(&self) -> AsciiSetIter<'_>
        ensures { WalksTexts (slice_cmp nat_cmp) self.now result }
    {
        AsciiSetIter::new(self.map.iter())
    }
}
