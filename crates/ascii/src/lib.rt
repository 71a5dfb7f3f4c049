//! Text that can hold nothing but ASCII: views over bytes, iterators over them, and owned strings.
//!
//! A source is checked once, when its view is made; then the view is read without further checks:
//!
//!     bytes::as_ascii_str(b"Host: a.example") // Ok("Host: a.example")
//!     AsciiStr::literal("Host: a.example").split_once(AsciiChar::Colon) // Some(("Host", " a.example"))
//!
//! | You want | Use |
//! |---|---|
//! | a view of bytes or of a `str` | `bytes::as_ascii_str`, `text::as_ascii_str`; a literal: `AsciiStr::literal` |
//! | to edit a part of a source in place | `bytes::slice_ascii_mut`, which returns an `AsciiStrMut` |
//! | an owned string | `AsciiString`; the buffer of a `Vec<u8>` or a `String`: the modules `vec` and `string` |
//! | characters, pieces, lines or words, by a double-ended iterator | `chars`, `split`, `lines`, `split_whitespace` of a view |
//! | the positions of pieces, lines or words | `split_spans`, `line_spans`, `spans()` of the iterator of words |
//! | to search for a text, a character or a class | `find`, `position`, `span::<C>()` of a view |
//! | to search many texts for one; the lines that contain it | `Finder`, `FinderIgnoringCase`; `lines_with` of a view |
//! | a quoted text at the start of a view | `take_quoted` |
//! | a view in escapes or in caret notation; escapes read back | `escape_ascii`, `caret`; `unescape` |
//! | a part that keeps its position; a line and a column | `Part` of the crate `ascii_formats`; `line_and_column` |
//! | keys that ignore case; a map asked by a view | the crate `ascii_keys` |
//! | the ASCII runs of bytes that may hold others | `bytes::ascii_chunks` |
//! | a class of characters of your own | the module `classes` |
//! | JSON values, serde | the module `json`; the traits of `serde` |
//!
//! Views, iterators and searches do not allocate. A call that may allocate returns a `Result`. If its allocation
//! fails, an edit leaves the string unchanged; an extend keeps what it has appended. A contract sees a view as
//! `text_of view`, the list of its codes.
//!
//! In an example, `alloc` is an allocator, and the comment after `//` is the value's `{:?}` output.
#![tactic(auto)]

pub mod ascii_str;
pub mod ascii_str_mut;
pub mod ascii_string;
mod bounds;
mod boxed;
mod boxed_order;
mod boxed_print;
pub mod buffer;
pub mod bytes;
mod bytes_mut;
pub mod chunks;
mod collect;
mod conversions;
mod copies;
pub mod endings;
mod errors;
mod finder;
mod folded_search;
mod from_ascii;
pub mod iter;
pub mod json;
mod range_edits;
mod replace;
mod retain;
mod search;
mod serde_impls;
mod splits;
pub mod string;
pub mod text;
mod trims;
pub mod vec;

pub use ascii_base::ascii_char::{AsciiChar, ToAsciiChar, ToAsciiCharError};
pub use ascii_base::free_functions::{caret_decode, caret_encode};
pub use ascii_base::range::AsciiRange;
pub use ascii_base::{classes, kernels};
pub use ascii_str::{AsAsciiStrError, AsciiStr};
pub use ascii_str_mut::AsciiStrMut;
pub use ascii_string::{AsciiString, Text};
pub use boxed::{BoxedAsciiStr, CowAsciiStr, Kept, RcAsciiStr};
pub use buffer::{Buffer, CloneBuffer, InlineBuffer, NewBuffer};
pub use finder::{AnyFinder, Finder, FinderIgnoringCase};
pub use from_ascii::{CopyError, FromAsciiError};
pub use iter::{Chars, CharsRef};
