//! The base of ASCII text: characters, classes of bytes, and searches and maps over bytes.
//!
//! A user of text names the crate `ascii`, which re-exports all of this. The modules:
//!
//! | Module | What it holds |
//! |---|---|
//! | `ascii_char` | `AsciiChar`, its class tests and cases, and `ToAsciiChar` for values that may be a character |
//! | `classes` | sets of bytes as types, for searches; also for a class of your own |
//! | `kernels` | the searches, the case changes and the comparison without case, 32 bytes at a time |
//! | `range` | `AsciiRange`, the six forms of a range |
//! | `free_functions` | caret notation, which writes a tab as `^I` |
//!
//! A contract sees a character as its code, `code_of ch`, a number from 0 to 127.
//!
//! In an example, `alloc` is an allocator, and the comment after `//` is the value's `{:?}` output.
#![tactic(auto)]

pub mod ascii_char;
pub mod classes;
pub mod free_functions;
mod images;
pub mod kernels;
mod lanes;
pub mod range;
mod serde_impls;
