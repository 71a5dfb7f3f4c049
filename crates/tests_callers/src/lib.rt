//! Callers of the libraries whose only purpose is to pin contracts: each proves what a user would,
//! from the public clauses alone.
#![tactic(auto)]

pub mod both_types;
pub mod chunks;
pub mod cuts;
pub mod encodings;
pub mod engines;
pub mod escapes;
pub mod folded;
pub mod goals;
pub mod in_place;
pub mod iterators;
pub mod numbers;
pub mod places;
pub mod prefixes;
pub mod quotes;
pub mod remainders;
pub mod servers;
pub mod small_strings;
pub mod spans;
pub mod strings;
pub mod texts;
pub mod writers;
