//! Calls of the libraries with typed parameters, which `bin/lib/static_library` exports to a program in Rust: the
//! differential test compares their answers with those of tables and of other implementations. Their names begin with
//! `ask_`.
//!
//! Such a call puts what the library returns into its answer; `answer` says how that is written. It states no more than
//! what it needs of its caller, because its answers are what is compared. A program in Rust passes bytes for an
//! `AsciiStr` and a byte for an `AsciiChar`, and has to know that they are ASCII.
#![tactic(auto)]

pub mod answer;
pub mod characters;
pub mod conversions;
pub mod copies;
pub mod devices;
pub mod edits;
pub mod engines;
pub mod json_values;
pub mod lines_in_and_out;
pub mod maps;
pub mod numbers;
pub mod places;
pub mod planned_devices;
pub mod prints;
pub mod recipes;
pub mod rewrites;
pub mod searches;
pub mod serving;
pub mod slices;
pub mod steps;
pub mod texts;
pub mod walks;
pub mod words;
