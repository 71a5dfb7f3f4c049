//! What tests share.
//!
//! | For a test | Use |
//! |---|---|
//! | of the view of a text that is known to be ASCII | `view("ab")` |
//! | of the view of any other text | `ascii`, which is empty if the text is not ASCII |
//! | that compares values | `assert_row!(rt; got, want)` |
//! | of `{:?}` output | `assert_debug!(rt; got, "want")` |
#![tactic(auto)]

mod comparisons;
mod texts;

pub use comparisons::{Different, DifferentDebug, compare, compare_debug};
pub use texts::{ascii, view};
