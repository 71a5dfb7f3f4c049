//! The edits of a string that can grow, over any buffer, and the buffers that keep a text in the value itself.

mod array;
mod ascii_buf;
mod inline;

pub use array::{Array, ArrayAsciiString, Full};
pub use ascii_buf::AsciiBuf;
pub use inline::{Inline, SmallAsciiString};
