//! Programs over ASCII text: strings in the value itself, lists of commands, and an engine from bytes to bytes.
//!
//! | You want | Use |
//! |---|---|
//! | a string that keeps up to 24 characters in the value itself | `SmallAsciiString` |
//! | a string of a fixed capacity, which never allocates | `ArrayAsciiString` |
//! | code that edits any string that can grow | the trait `AsciiBuf`, for each `Text` whose edits return `AllocError` |
//! | a list of edits and questions carried out in order, with a reply for each | `run` over a list of `Cmd` |
//! | the output of a mode, such as `Mode::Tac`, for all bytes of an input | `engine` |
//! | the output of a mode, such as `BoundedMode::Lines`, in bounded memory | `bounded_engine` |
//! | readers and writers whose bytes a contract can name | `Source` and `Sink`, with `Input` and `Output` over std's |
//!
//! A contract sees a string as its text, a list of codes, and its capacity. Up to the *sure length* of its type an
//! edit never allocates: 0 for `AsciiString`, 24 for `SmallAsciiString`, `N` for `ArrayAsciiString<N>`.
//!
//! In an example, `alloc` is an allocator, and the comment after `//` is the
//! value's `{:?}` output.
#![tactic(auto)]

mod both_types;
mod bounded;
pub mod buf;
mod commands;
mod faults;
mod front_output;
mod modes;
mod streamed;
mod text_engine;

pub use ascii::iter::End;
pub use ascii::{AsAsciiStrError, AsciiChar, AsciiRange, AsciiStr, AsciiString};
pub use ascii_devices::{DeviceFault, Input, Output, Sink, Source};
pub use both_types::{BothRuns, run_both};
pub use bounded::{BoundedMode, bounded_engine};
pub use buf::{ArrayAsciiString, AsciiBuf, Full, Inline, SmallAsciiString};
pub use commands::{Cmd, Reply, plain_run, run, runs_agree};
pub use faults::{BoundedFault, EngineFault};
pub use modes::Mode;
pub use text_engine::engine;
