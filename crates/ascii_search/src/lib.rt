//! Searches over bytes by masks of many positions at once, for the views of `ascii`: a text in another, and the
//! runs of a class from both ends. Users of text call `ascii`.
#![tactic(auto)]

pub mod marked;
pub mod marked_back;
pub mod short_search;
mod windows;
