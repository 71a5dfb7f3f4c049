//! Texts that are compared ignoring ASCII case, maps from texts to values, and sets of texts.
//!
//!     let mut headers = FoldedMap::new(alloc);
//!     headers.insert(AsciiStr::literal("Host"), 1)?;
//!     headers.get(AsciiStr::literal("HOST")) // Some(1)
//!     headers.get(AsciiStr::literal("Hosts")) // None
//!
//! | You want | Use |
//! |---|---|
//! | to compare, order or hash views ignoring case | `FoldedStr` |
//! | such a key that owns its text | `FoldedString` |
//! | a map from texts to values that is asked by a view | `AsciiMap`; ignoring case, `FoldedMap` |
//! | a set of texts that is asked by a view | `AsciiSet`; ignoring case, `FoldedSet` |
//!
//! In an example, `alloc` is an allocator, and the comment after `//` is the value's `{:?}` output.
#![tactic(auto)]

mod folded;
mod map_iter;
mod maps;
mod set_iter;
mod sets;

pub use folded::{Folded, FoldedStr, FoldedString};
pub use map_iter::{AsciiMapIter, AsciiMapValues, FoldedMapIter, FoldedMapKeys};
pub use maps::{AsciiMap, FoldedMap};
pub use set_iter::{AsciiSetIter, FoldedSetIter};
pub use sets::{AsciiSet, FoldedSet};
