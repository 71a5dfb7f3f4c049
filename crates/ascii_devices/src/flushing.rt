//! A writer with a count of its flushes, which only contracts see.
//!
//! The contract of std's `flush` says nothing of a writer that a contract could compare, so no clause can tell whether
//! the body below calls it. It is the only body that raises the count, and each history of this crate has as many
//! flushes as that says.

ghost use Rattle.std.specs.Prelude.{◌≡◌, ◌+◌, MatchResult};
ghost use Rattle.std.specs.Io.KnownBytes.{Keeps};
ghost use Rattle.ascii_devices.specs.Flushes.{flushes_of};

use crate::log::Log;
use std::io;

/// A writer with a count of the flushes that returned `Ok`.
#[derive(Drop)]
pub(crate) struct Flushing<W> {
    pub(crate) writer: W,
    // An item for each of them.
    flushes: Log<u8>,
}

impl<W: io::Write> Flushing<W> {
    /// A writer that was not flushed yet.
    pub(crate) fn new(writer: W) -> Flushing<W>
        ensures writer { result.writer ≡ writer }
        ensures flushes { flushes_of result ≡ 0 }
    {
        Flushing {
            writer,
            flushes: Log::new(),
        }
    }

    /// Flushes the writer, and counts that.
    pub(crate) fn flush(&mut self) -> io::Result<()>
        ensures bytes { Keeps (W.contents self.old.writer) (W.contents self.new.writer) }
        ensures flushes { MatchResult result (λ _. flushes_of self.new ≡ flushes_of self.old + 1)
            (λ _. flushes_of self.new ≡ flushes_of self.old) }
    {
        self.writer.flush()?;
        self.flushes = self.flushes.and(&0);
        Ok(())
    }
}
