//! Iterators over the characters, the pieces, the words and the lines of a view.
//!
//! | Items | Made by | With their starts | Double-ended |
//! |---|---|---|---|
//! | characters | `chars()` | | yes |
//! | pieces between separators | `split(on)` | `split_spans(on)` | yes |
//! | .. the last one first | `rsplit(on)` | `.spans()` | yes |
//! | .. at most `n` | `splitn(n, on)` | | no |
//! | .. without an empty last one | `split_terminator(on)` | `.spans()` | yes |
//! | .. with their separators | `split_inclusive(on)` | `.spans()` | yes |
//! | pieces at the characters of a class | `split_by::<C>()` | `.spans()` | yes |
//! | pieces at each occurrence of a text | `split_str(needle)` | `.spans()` | no |
//! | these occurrences | `matches(needle)` | `.spans()` | no |
//! | words: the longest runs outside a class | `words::<C>()`, `split_whitespace()` | `.spans()` | yes |
//! | runs: the longest runs of a class | `runs::<C>()` | `.spans()` | yes |
//! | lines | `lines()` | `line_spans()`, also with their endings | yes |
//! | lines that contain a text | | `lines_with(&finder)`, also with their endings | no |
//!
//! A double-ended iterator yields from the front and from the back, in any order. `remainder`, or `as_str` of `chars`, returns what is left
//! as a view, which can be iterated again:
//!
//!     let mut pieces = AsciiStr::literal("a,b,c").split(AsciiChar::Comma);
//!     pieces.next_back() // Some("c")
//!     pieces.remainder() // Some("a,b")
//!
//! If a text is a part of a longer one, `split_spans_from(on, offset)` and
//! `line_spans_from(offset)` count positions from the start of that one.
//!
//! The iterators hold only views: they do not allocate, and a clone never fails. A contract sees an iterator as the
//! list of items that it has yet to yield, beside where it cuts.

mod backwards;
mod by_class;
mod by_text;
mod chars;
pub(crate) mod cursor;
mod ended;
mod items;
mod lines;
mod spans;
mod split;
mod split_n;
mod walks;

pub use crate::finder::LinesWith;
pub use backwards::{Backwards, RSplit};
pub use by_class::{AtClass, AtRuns, AtWords, Runs, SplitBy, Words};
pub use by_text::{AtMatches, AtText, Matches, SplitStr};
pub use chars::{Chars, CharsRef};
pub use ended::{AtEnd, AtTerminator, SplitInclusive, SplitTerminator};
pub use items::{Cut, CutBack, Items, Spans};
pub use lines::{LineSpans, Lines};
pub use spans::{Ending, Endings, LineSpan, SplitSpan};
pub use split::{AtChar, Split, SplitSpans};
pub use split_n::SplitN;
pub use walks::{End, take_end, walk_line_spans, walk_lines, walk_split, walk_split_spans};
