//! Recipes: problems that users have, solved over the public contracts of `ascii` and `ascii_run` and proved.
//!
//! | You have | You want | Module |
//! |---|---|---|
//! | the header lines of a message | names and values, or the first line that is not a header | `headers` |
//! | headers | the last value at a name, ignoring ASCII case | `header_map` |
//! | the value of a header Content-Type | the type, the subtype and the parameters | `media_type` |
//! | a host name | to check it, and to compare it ignoring ASCII case | `hosts` |
//! | a settings file, `key = value # comment` | the key and the value of a line | `settings` |
//! | a table with tabs between the fields | the fields of a row | `table` |
//! | a text with any characters, or a line of a CSV file | a field for the text, or the text of a field | `csv` |
//! | a text that begins with an identifier | the identifier and the rest, by a class of one's own | `identifiers` |
//! | a log | its last lines, and whether the last one is complete | `last_lines` |
//! | bytes that may not be ASCII | a text with `?` in place of other bytes | `copy_lossy` |
//! | text for a terminal | what a screen of a given width shows of it | `screen` |
//! | an `AsciiString` and JSON | a value, and the string back | `values` |
//!
//! Each error prints a line and implements `Error`, except the `ParseError` of `media_type`, which `Part::fault` prints.
//! Lines of an input are read by the crate `ascii_lines`.
#![tactic(auto)]

pub mod copy_lossy;
pub mod csv;
mod errors;
pub mod header_map;
pub mod headers;
pub mod hosts;
pub mod identifiers;
pub mod last_lines;
pub mod media_type;
pub mod screen;
pub mod settings;
pub mod table;
pub mod values;
