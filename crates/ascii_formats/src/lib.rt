//! Formats over ASCII text: numbers, quotes, escapes, padding, and places for people.
//!
//!     AsciiStr::literal("0042").to_number::<u8>() // Ok(42)
//!     AsciiStr::literal("ab\ncd").line_and_column(4).to_string(alloc)? // "2:2"
//!
//! Two traits bring the calls: `AsciiStrExt` those of a view, `AsciiStringExt` those of a string.
//!
//! | You want | Use |
//! |---|---|
//! | a whole number, in a radix, or at the start of a view | `to_number`, `to_number_radix`, `take_number` |
//! | a decimal number | `to_decimal` |
//! | the first character of a view, or what comes after it | `split_first`, `starts_with_char`, `strip_prefix_char` |
//! | the first character in a class, and the sides of a cut there | `find_by`, `split_once_by` |
//! | a quoted text at the start of a view, and what it represents | `take_quoted`, `unquote` |
//! | a view in escapes or in caret notation; escapes read back | `EscapeAscii`, `Caret`; `unescape` |
//! | a part that keeps its position, for parsers; a line and a column | `Part`; `line_and_column`, `fault_at` |
//! | to append a number, or a view filled up to a width or in quotes | `push_decimal`, `push_hex`, `push_padded`, `push_quoted` |
//!
//! In an example, `alloc` is an allocator, and the comment after `//` is the value's `{:?}` output.
#![tactic(auto)]

pub mod decimals;
mod errors;
mod line_feeds;
pub mod notations;
pub mod numbers;
mod padding;
pub mod part_iter;
pub mod parts;
pub mod places;
pub mod quotes;
mod strings;
pub mod unescape;
mod views;

pub use strings::AsciiStringExt;
pub use views::AsciiStrExt;
