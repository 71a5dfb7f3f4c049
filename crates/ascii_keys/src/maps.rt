//! Maps from texts to values, which are asked by a view.
//!
//!     let mut ports = AsciiMap::new(alloc);
//!     ports.insert(AsciiStr::literal("http"), 80)?;
//!     ports.get(AsciiStr::literal("http")) // Some(80)
//!     ports.get(AsciiStr::literal("HTTP")) // None
//!
//! | Map | Keys | A look-up | An insert |
//! |---|---|---|---|
//! | `AsciiMap` | by bytes | compares with few keys | compares with few keys |
//! | `FoldedMap` | ignoring ASCII case | compares with few keys | moves the entries after it |
//!
//! No map hashes, so no choice of keys makes a look-up slow: it compares O(log n) keys of n. Both can
//! be walked in the order of their keys.
//!
//! A contract sees a map as the list of its entries, and as a function from texts to values
//! (`value_at`, `folded_value_at`). A look-up does not allocate.

ghost use Rattle.std.specs.Prelude.{◌≡◌, ◌+◌, ◌↔◌, None, Some, IfOk, IsTrue, OnErr, OnOk};
ghost use Rattle.std.specs.Prelude.{if◌then◌else◌, is_some};
ghost use Rattle.std.specs.Option.{option_copied};
ghost use Rattle.ascii.specs.View.{text_of};

use crate::folded::{FoldedStr, FoldedString};
use crate::map_iter::{AsciiMapIter, AsciiMapValues, FoldedMapIter, FoldedMapKeys};
use ascii::AsciiStr;
use std::alloc::{AllocError, Global};
use std::cmp::Ordering;
use std::collections::BTreeMap;
use std::marker::Model;
use std::mem;

/// A map from texts to values, in the order of the bytes of its keys: a `BTreeMap`.
///
/// A look-up, an insert and a removal compare O(log n) keys, whichever keys they are. So it can
/// hold keys that somebody else chooses: none of them makes the others slow.
#[derive(Drop)]
pub struct AsciiMap<V> {
    alloc: Global,
    entries: BTreeMap<String, V>,
}

impl<V> Model for AsciiMap<V> {
    ghost use Rattle.ascii_keys.specs.Maps.{Entries, HasAsciiKeys, texts_of};

    ghost Value = { Entries V };

    ghost view = { λ map. texts_of map.entries.entries };

    ghost invariant = { λ map. HasAsciiKeys map.entries.entries };
}

impl<V: Drop> AsciiMap<V> {
    ghost use Rattle.std.specs.Borrow.{sem};
    ghost use Rattle.std.specs.Option.{option_copied_mut};
    ghost use Rattle.std.specs.Prelude.{[], IsOk, IsSome, length};
    ghost use Rattle.ascii_keys.specs.AsciiMapLends.{lends_at};
    ghost use Rattle.ascii_keys.specs.Maps.{ChangesAt, Walks, WalksValues, value_at};

    /// Creates an empty map. Does not allocate.
    ///
    ///     AsciiMap::<u8>::new(alloc).is_empty() // true
    pub fn new(alloc: Global) -> AsciiMap<V>
        ensures { result ≡ [] }
    {
        let entries = BTreeMap::new(alloc);
        AsciiMap { alloc, entries }
    }

    /// Returns the value at `key`, or `None` if there is none.
    ///
    ///     let mut ports = AsciiMap::new(alloc);
    ///     ports.insert(AsciiStr::literal("http"), 80)?;
    ///     ports.get(AsciiStr::literal("http")) // Some(80)
    ///     ports.get(AsciiStr::literal("ftp")) // None
    pub fn get(&self, key: AsciiStr<'_>) -> Option<&V>
        ensures { option_copied result ≡ value_at self.now (text_of key.entry) }
    {
        self.entries.get(key.as_str())
    }

    /// Returns a mutable reference to the value at `key`, or `None` if there is none.
    ///
    ///     let mut ports = AsciiMap::new(alloc);
    ///     ports.insert(AsciiStr::literal("http"), 80)?;
    ///     if let Some(port) = ports.get_mut(AsciiStr::literal("http")) { *port += 1; }
    ///     ports.get(AsciiStr::literal("http")) // Some(81)
    ///     ports.get_mut(AsciiStr::literal("ftp")) // None
    pub fn get_mut(&mut self, key: AsciiStr<'_>) -> Option<&mut V>
        ensures* writes_back { sem 𝓛 (lends_at V.row self.entry (text_of key.entry) result) }
        ensures value { option_copied_mut result ≡ value_at self.old (text_of key.entry) }
    {
        self.entries.get_mut(key.as_str())
    }

    /// Whether there is a value at `key`.
    pub(crate) fn contains_key(&self, key: AsciiStr<'_>) -> bool
        ensures { result ≡ is_some (value_at self.now (text_of key.entry)) }
    {
        self.get(key).is_some()
    }

    /// Puts a value at `key`, and returns the one that was there. Fails only if an allocation
    /// fails; the map is then unchanged, and the value is dropped.
    ///
    /// If the key is there, nothing is copied or allocated, and no call fails. Otherwise copies the key.
    ///
    ///     let mut ports = AsciiMap::new(alloc);
    ///     ports.insert(AsciiStr::literal("http"), 80)? // None
    ///     ports.insert(AsciiStr::literal("http"), 8_080)? // Some(80)
    pub fn insert(&mut self, key: AsciiStr<'_>, value: V) -> Result<Option<V>, AllocError>
        ensures before { IfOk result (λ before. before ≡ value_at self.old (text_of key.entry)) }
        ensures puts { OnOk result
            (ChangesAt (text_of key.entry) (Some value) self.old self.new) }
        ensures size { IfOk result (λ before.
            length self.new ≡ length self.old + (if is_some before then 0 else 1)) }
        ensures there { IsSome (value_at self.old (text_of key.entry)) → IsOk result }
        ensures unchanged { OnErr result (self.new ≡ self.old) }
    {
        let text = key.as_str();
        if let Some(there) = self.entries.get_mut(text) {
            return Ok(Some(mem::replace(there, value)));
        }
        let key = String::from_str(self.alloc, text)?;
        Ok(self.entries.insert(key, value)?)
    }

    /// Removes the value at `key` and returns it, or returns `None` if there is none. Does not
    /// allocate.
    ///
    ///     let mut ports = AsciiMap::new(alloc);
    ///     ports.insert(AsciiStr::literal("http"), 80)?;
    ///     ports.remove(AsciiStr::literal("http")) // Some(80)
    ///     ports.remove(AsciiStr::literal("http")) // None
    pub fn remove(&mut self, key: AsciiStr<'_>) -> Option<V>
        ensures before { result ≡ value_at self.old (text_of key.entry) }
        ensures size { length self.new + (if is_some result then 1 else 0) ≡ length self.old }
        ensures removes { ChangesAt (text_of key.entry) None self.old self.new }
    {
        self.entries.remove(key.as_str())
    }

    /// Removes all keys and their values. Does not allocate.
    ///
    ///     let mut ports = AsciiMap::new(alloc);
    ///     ports.insert(AsciiStr::literal("http"), 80)?;
    ///     ports.clear();
    ///     ports.len() // 0
    pub fn clear(&mut self)
        ensures { self.new ≡ [] }
    {
        self.entries.clear();
    }

    /// Returns the number of keys that have a value.
    ///
    ///     let mut ports = AsciiMap::new(alloc);
    ///     ports.insert(AsciiStr::literal("http"), 80)? // None
    ///     ports.len() // 1
    pub fn len(&self) -> usize
        ensures { result ≡ length self.now }
    {
        self.entries.len()
    }

    /// Returns `true` if no key has a value.
    ///
    ///     let mut ports = AsciiMap::new(alloc);
    ///     ports.insert(AsciiStr::literal(""), 80)? // None
    ///     ports.is_empty() // false
    pub fn is_empty(&self) -> bool
        ensures { IsTrue result ↔ (self.now ≡ []) }
    {
        self.entries.is_empty()
    }

    /// Returns an iterator over the keys and their values, in the order of the bytes of the keys. Does
    /// not allocate.
    ///
    ///     let mut ports = AsciiMap::new(alloc);
    ///     ports.insert(AsciiStr::literal("http"), 80)?;
    ///     ports.insert(AsciiStr::literal("ftp"), 21)?;
    ///     ports.iter().next() // Some(("ftp", 21))
    ///     AsciiMap::<u8>::new(alloc).iter().next() // None
    pub fn iter(&self) -> AsciiMapIter<'_, V>
        ensures { Walks self.now result }
    {
        AsciiMapIter::new(self.entries.iter())
    }

    /// Returns an iterator over the values, in the order of the bytes of their keys. Does not allocate.
    ///
    ///     let mut ports = AsciiMap::new(alloc);
    ///     ports.insert(AsciiStr::literal("http"), 80)?;
    ///     ports.insert(AsciiStr::literal("ftp"), 21)?;
    ///     ports.values().next() // Some(21)
    ///     ports.values().max() // Some(80)
    ///     AsciiMap::<u8>::new(alloc).values().next() // None
    pub fn values(&self) -> AsciiMapValues<'_, V>
        ensures { WalksValues self.now result }
    {
        self.entries.values()
    }
}

/// A map from texts to values that ignores ASCII case, in the order of its keys in lower case. It
/// is for keys that are few, such as the headers of a request: an insert moves the entries after
/// it, and with some hundred keys a `HashMap` with keys of `FoldedString` is faster.
#[derive(Drop)]
pub struct FoldedMap<V> {
    alloc: Global,
    entries: Vec<(FoldedString, V)>,
}

impl<V> Model for FoldedMap<V> {
    ghost use Rattle.ascii_keys.specs.Maps.{Entries, IsInOrder};

    ghost Value = { Entries V };

    ghost view = { λ map. map.entries.items };

    ghost invariant = { λ map. IsInOrder map.entries.items };
}

impl<V: Drop> FoldedMap<V> {
    ghost use Rattle.std.specs.Prelude.{[], ◌<◌, IfErr, IsOk, IsSome, All, length};
    ghost use Rattle.std.specs.Borrow.{sem};
    ghost use Rattle.std.specs.Map.{keys_of, remove_entry};
    ghost use Rattle.std.specs.Option.{unwrap_or};
    ghost use Rattle.ascii_keys.specs.FoldedMapLends.{lends_put};
    ghost use Rattle.ascii_keys.specs.Maps.{Changes, HasKeys, Puts, folded_value_at, same_folded};
    ghost use Rattle.ascii_keys.specs.Maps.{IsGapFor, IsPlaceOf, WalksInOrder, folded_order};
    ghost use Rattle.ascii_keys.specs.Sets.{WalksTexts};

    /// Creates an empty map. Does not allocate.
    ///
    ///     FoldedMap::<u8>::new(alloc).is_empty() // true
    pub fn new(alloc: Global) -> FoldedMap<V>
        ensures { result ≡ [] }
    {
        let entries = Vec::new(alloc);
        FoldedMap { alloc, entries }
    }

    /// Returns the value at `key`, ignoring ASCII case, or `None` if there is none.
    ///
    ///     let mut headers = FoldedMap::new(alloc);
    ///     headers.insert(AsciiStr::literal("Host"), 1)?;
    ///     headers.get(AsciiStr::literal("HOST")) // Some(1)
    ///     headers.get(AsciiStr::literal("Hosts")) // None
    pub fn get(&self, key: AsciiStr<'_>) -> Option<&V>
        ensures { option_copied result ≡ folded_value_at self.now (text_of key.entry) }
    {
        match self.place_of(key) {
            Ok(place) => Some(&self.entries[place].1),
            Err(_) => None,
        }
    }

    /// Puts a value at `key`, ignoring ASCII case, and returns the one that was there. Fails only
    /// if an allocation fails; the map is then unchanged, and the value is dropped.
    ///
    /// Copies the key, unless it is there: then it stays as it was first written, and no call fails.
    ///
    ///     let mut headers = FoldedMap::new(alloc);
    ///     headers.insert(AsciiStr::literal("Host"), 1)? // None
    ///     headers.insert(AsciiStr::literal("HOST"), 2)? // Some(1)
    pub fn insert(&mut self, key: AsciiStr<'_>, value: V) -> Result<Option<V>, AllocError>
        ensures before { IfOk result (λ before.
            before ≡ folded_value_at self.old (text_of key.entry)) }
        ensures puts { OnOk result (Changes same_folded (folded_value_at self.old)
            (text_of key.entry) (Some value) (folded_value_at self.new)) }
        ensures size { IfOk result (λ before.
            length self.new ≡ length self.old + (if is_some before then 0 else 1)) }
        ensures keys { OnOk result (HasKeys self.old (text_of key.entry) self.new) }
        ensures there { IsSome (folded_value_at self.old (text_of key.entry)) → IsOk result }
        ensures unchanged { OnErr result (self.new ≡ self.old) }
    {
        match self.place_of(key) {
            Ok(place) => Ok(Some(mem::replace(&mut self.entries[place].1, value))),
            Err(place) => {
                let key = FoldedStr::new(key).to_folded_string(self.alloc)?;
                self.entries.insert(place, (key, value))?;
                Ok(None)
            }
        }
    }

    /// Returns a mutable reference to the value at `key`, ignoring ASCII case. If there is none,
    /// puts `default` there first. Fails only if an allocation fails; the map is then unchanged.
    ///
    /// If the key is there, nothing is copied or allocated, and no call fails. Otherwise copies the key.
    ///
    ///     let mut counts = FoldedMap::new(alloc);
    ///     *counts.get_or_insert(AsciiStr::literal("The"), 0)? += 1;
    ///     *counts.get_or_insert(AsciiStr::literal("the"), 0)? += 1;
    ///     *counts.get_or_insert(AsciiStr::literal("THE"), 7)? // 2
    ///     *counts.get_or_insert(AsciiStr::literal("then"), 7)? // 7
    pub fn get_or_insert(&mut self, key: AsciiStr<'_>, default: V) -> Result<&mut V, AllocError>
        ensures* writes_back { sem 𝓛 (lends_put V.row self.entry (text_of key.entry) result) }
        ensures value { IfOk result (λ value.
            value.now ≡ unwrap_or (folded_value_at self.old (text_of key.entry)) default) }
        ensures there { IsSome (folded_value_at self.old (text_of key.entry)) → IsOk result }
    {
        let place = self.put_if_absent(key, default)?;
        Ok(&mut self.entries[place].1)
    }

    /// Puts `default` at `key` if there is no value. Returns the place of the entry.
    fn put_if_absent(&mut self, key: AsciiStr<'_>, default: V) -> Result<usize, AllocError>
        ensures put { IfOk result (λ place. IsPlaceOf self.new (text_of key.entry) place
            × Puts self.old (text_of key.entry)
            (unwrap_or (folded_value_at self.old (text_of key.entry)) default) self.new) }
        ensures there { IsSome (folded_value_at self.old (text_of key.entry)) → IsOk result }
        ensures unchanged { OnErr result (self.new ≡ self.old) }
    {
        match self.place_of(key) {
            Ok(place) => Ok(place),
            Err(place) => {
                let key = FoldedStr::new(key).to_folded_string(self.alloc)?;
                self.entries.insert(place, (key, default))?;
                Ok(place)
            }
        }
    }

    /// Removes the value at `key`, ignoring ASCII case, and returns it, or returns `None` if there
    /// is none. Does not allocate.
    ///
    ///     let mut headers = FoldedMap::new(alloc);
    ///     headers.insert(AsciiStr::literal("Host"), 1)?;
    ///     headers.remove(AsciiStr::literal("HOST")) // Some(1)
    ///     headers.remove(AsciiStr::literal("Host")) // None
    pub fn remove(&mut self, key: AsciiStr<'_>) -> Option<V>
        ensures before { result ≡ folded_value_at self.old (text_of key.entry) }
        ensures size { length self.new + (if is_some result then 1 else 0) ≡ length self.old }
        ensures removes { Changes same_folded (folded_value_at self.old) (text_of key.entry) None
            (folded_value_at self.new) }
        ensures entries { self.new ≡ remove_entry (same_folded (text_of key.entry)) self.old }
    {
        match self.place_of(key) {
            Ok(place) => Some(self.entries.remove(place).1),
            Err(_) => None,
        }
    }

    /// Returns the number of keys that have a value.
    ///
    ///     let mut headers = FoldedMap::new(alloc);
    ///     headers.insert(AsciiStr::literal("Host"), 1)? // None
    ///     headers.insert(AsciiStr::literal("HOST"), 2)? // Some(1)
    ///     headers.len() // 1
    pub fn len(&self) -> usize
        ensures { result ≡ length self.now }
    {
        self.entries.len()
    }

    /// Returns `true` if no key has a value.
    ///
    ///     let mut headers = FoldedMap::new(alloc);
    ///     headers.insert(AsciiStr::literal(""), 1)? // None
    ///     headers.is_empty() // false
    pub fn is_empty(&self) -> bool
        ensures { IsTrue result ↔ (self.now ≡ []) }
    {
        self.entries.is_empty()
    }

    /// Returns an iterator over the keys and their values, in the order of the keys in lower case.
    /// Does not allocate.
    ///
    ///     let mut headers = FoldedMap::new(alloc);
    ///     headers.insert(AsciiStr::literal("b"), 1)?;
    ///     headers.insert(AsciiStr::literal("A"), 2)?;
    ///     headers.iter().next() // Some(("A", 2))
    ///     FoldedMap::<u8>::new(alloc).iter().next() // None
    pub fn iter(&self) -> FoldedMapIter<'_, V>
        ensures { WalksInOrder self.now result }
    {
        FoldedMapIter::new(self.entries.as_slice())
    }

    /// Returns an iterator over the keys, in the order of the keys in lower case, each as it was first
    /// written. Does not allocate.
    ///
    ///     let mut headers = FoldedMap::new(alloc);
    ///     headers.insert(AsciiStr::literal("b"), 1)?;
    ///     headers.insert(AsciiStr::literal("A"), 2)?;
    ///     headers.keys().next() // Some("A")
    ///     FoldedMap::<u8>::new(alloc).keys().next() // None
    pub fn keys(&self) -> FoldedMapKeys<'_, V>
        ensures { WalksTexts folded_order (keys_of self.now) result }
    {
        FoldedMapKeys::new(self.iter())
    }

    /// Returns the place of the entry at `key`, or the place where its entry would be.
    fn place_of(&self, key: AsciiStr<'_>) -> Result<usize, usize>
        ensures found { IfOk result (IsPlaceOf self.now (text_of key.entry)) }
        ensures absent { IfErr result (IsGapFor self.now (text_of key.entry)) }
    {
        self.entries.binary_search_by(
            |entry: &(FoldedString, V)| -> Ordering
                ensures { result ≡ folded_order entry.now.0 (text_of key.entry) }
            { entry.0.as_folded().cmp(&FoldedStr::new(key)) },
        )
    }
}
