//! A store: a value for each key that was set. Keys and values are bytes.

use std::alloc::{AllocError, Global};
use std::collections::BTreeMap;

/// A map from keys to values.
#[derive(Drop)]
pub struct Store {
    entries: BTreeMap<Vec<u8>, Vec<u8>>,
}

impl Store {
    ghost use Rattle.std.specs.Map.{update};
    ghost use Rattle.std.specs.Option.{option_copied};
    ghost use Rattle.std.specs.Prelude.{◌≡◌, List, None, OnOk, Some, is_some, ℕ};
    ghost use Rattle.std.specs.Str.{bytes_eq};
    ghost use Rattle.example_resp.specs.Store.{Changes, byte_lists, contents_of, removed_count};
    ghost use Rattle.example_resp.specs.Store.{value_count, without};

    /// Creates an empty store. Does not allocate.
    pub fn new(alloc: Global) -> Store
        ensures { (key : List ℕ) → contents_of result key ≡ None }
    {
        Store {
            entries: BTreeMap::new(alloc),
        }
    }

    /// Returns the value at the key, or `None` if there is none.
    pub fn get(&self, key: &[u8]) -> Option<&[u8]>
        ensures { option_copied result ≡ contents_of self.now key.now }
    {
        match self.entries.get(key) {
            Some(value) => Some(value.as_slice()),
            None => None,
        }
    }

    /// Returns `true` if there is a value at the key.
    fn contains(&self, key: &[u8]) -> bool
        ensures { result ≡ is_some (contents_of self.now key.now) }
    {
        self.get(key).is_some()
    }

    /// Sets the value at the key, or returns an error if an allocation fails.
    pub fn set(&mut self, alloc: Global, key: &[u8], value: &[u8]) -> Result<(), AllocError>
        ensures { OnOk result (Changes (contents_of self.old) key.now (Some value.now)
            (contents_of self.new)) }
    {
        let key = Vec::from_slice(alloc, key)?;
        let value = Vec::from_slice(alloc, value)?;
        self.entries.insert(key, value)?;
        Ok(())
    }

    /// Removes the value at the key. Returns `true` if there was one.
    fn delete(&mut self, key: &[u8]) -> bool
        ensures found { result ≡ is_some (contents_of self.old key.now) }
        ensures removed { Changes (contents_of self.old) key.now None (contents_of self.new) }
    {
        self.entries.remove(key).is_some()
    }

    /// Returns the number of keys at which there is a value. A key that comes twice counts twice.
    pub fn count(&self, keys: &[Vec<u8>]) -> usize
        ensures { result ≡ value_count (contents_of self.now) (byte_lists keys.now) }
    {
        let mut count = 0;
        for key in keys {
            if self.contains(key.as_slice()) {
                count += 1;
            }
        }
        count
    }

    /// Removes the values at the keys, and returns how many there were.
    pub fn delete_all(&mut self, keys: &[Vec<u8>]) -> usize
        ensures count { result ≡ removed_count (contents_of self.old) (byte_lists keys.now) }
        ensures removed { (key : List ℕ) → contents_of self.new key
            ≡ without (contents_of self.old) (byte_lists keys.now) key }
    {
        let mut count = 0;
        for key in keys {
            if self.delete(key.as_slice()) {
                count += 1;
            }
        }
        count
    }
}
