//! The tests of `ascii`, `ascii_run` and `ascii_devices` that are in Rattle, in a crate of their own, because a crate with tests
//! is proved once more with them.
#![tactic(auto)]

#[cfg(test)]
mod tests;
