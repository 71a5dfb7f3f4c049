//! A map from header names to values. Names are compared ignoring ASCII case: `HOST` finds the value of
//! `Host: a.example`.

use crate::headers::Header;
use ascii::AsciiStr;
use ascii_keys::FoldedMap;
use std::alloc::{AllocError, Global};

/// The values of headers by name, ignoring ASCII case. If a name occurs more than once, its last value
/// counts.
#[derive(Drop)]
pub struct HeaderMap<'a> {
    values: FoldedMap<AsciiStr<'a>>,
}

impl<'a> HeaderMap<'a> {
    ghost use Rattle.std.specs.Option.{option_map};
    ghost use Rattle.std.specs.Prelude.{◌≡◌, IfOk};
    ghost use Rattle.ascii.specs.View.{text_of};
    ghost use Rattle.cookbook.specs.HeaderMap.{HasLastValues, values_of};

    /// Creates the map of the headers, or returns an error if an allocation fails. It copies the names,
    /// and keeps views of the values.
    pub fn from_headers(alloc: Global, headers: &[Header<'a>]) -> Result<HeaderMap<'a>, AllocError>
        ensures { IfOk result (λ map. HasLastValues headers.now (values_of map)) }
    {
        let mut values = FoldedMap::new(alloc);
        for header in headers {
            values.insert(header.name, header.value)?;
        }
        Ok(HeaderMap { values })
    }

    /// Returns the value of the last header with the name, ignoring ASCII case, or `None` if no header
    /// has the name.
    pub fn get(&self, name: AsciiStr<'_>) -> Option<AsciiStr<'a>>
        ensures { option_map text_of result ≡ values_of self.now (text_of name.entry) }
    {
        self.values.get(name).copied()
    }
}
