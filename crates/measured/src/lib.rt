//! Calls of the libraries that `bin/bench` measures, which `bin/lib/static_library` exports to a program in Rust. Their
//! names begin with `bench_`. They state what they need of their caller; four also state what they return.
#![tactic(auto)]

pub mod calls;
pub mod everyday;
