//! A reader and a writer as one device of both directions.
//!
//! A history for each direction cannot say whether an answer was sent before the next read. A `Duplex` has one history
//! of both, so a contract of a server can.

ghost use Rattle.std.specs.Prelude.{◌≡◌};
ghost use Rattle.ascii_devices.specs.Flushes.{flushes_in};

use crate::log::{Event, Log};
use crate::notes::{note_received, note_sent};
use crate::{Channel, DeviceFault, Input, Output, Sink, Source};
use std::io;

/// A reader and a writer as one device of both directions, a `Source` and a `Sink` with one history of
/// both. Each direction has its own count of failures.
#[derive(Drop)]
pub struct Duplex<R, W> {
    input: Input<R>,
    output: Output<W>,
    log: Log<Event>,
    ghost flushes: { flushes_in log.items ≡ flushes_in output.log.items },
}

impl<R: io::Read, W: io::Write> Duplex<R, W> {
    ghost use Rattle.std.specs.Prelude.{[], Some};
    ghost use Rattle.ascii_devices.specs.Wrapped.{reader_of, input_failures, writer_of};
    ghost use Rattle.ascii_devices.specs.Wrapped.{output_failures};
    ghost use Rattle.ascii_devices.specs.Wrapped.{duplex_history, input_of, output_of};

    /// Creates a device over the reader and the writer, at which nothing has happened.
    ///
    ///     let mut duplex = Duplex::new(b"ab".as_slice(), Vec::new(alloc));
    ///     duplex.write(b"c") // Ok(1)
    ///     duplex.read(&mut [0; 3]) // Ok(2)
    ///     duplex.flush() // Ok(())
    pub fn new(reader: R, writer: W) -> Duplex<R, W>
        ensures reader { reader_of (input_of result) ≡ reader }
        ensures writer { writer_of (output_of result) ≡ writer }
        ensures failures { (input_failures (input_of result) ≡ 0)
            × (output_failures (output_of result) ≡ 0) }
        ensures history { duplex_history result ≡ Some [] }
    {
        Duplex {
            input: Input::new(reader),
            output: Output::new(writer),
            log: Log::new(),
        }
    }

    /// Returns the reader and the writer as two devices.
    ///
    ///     let (input, output) = Duplex::new(b"ab".as_slice(), Vec::new(alloc)).into_parts();
    ///     input.into_inner() // [97, 98]
    ///     output.into_inner() // []
    pub fn into_parts(self) -> (Input<R>, Output<W>)
        ensures { result ≡ (input_of self, output_of self) }
    {
        let Duplex {
            input,
            output,
            log: _,
        } = self;
        (input, output)
    }
}

impl<R: io::Read, W: io::Write> Source for Duplex<R, W> {
    ghost use Rattle.std.specs.Prelude.{List, ℕ};
    ghost use Rattle.ascii_devices.specs.Wrapped.{reader_of, input_failures, writer_of};
    ghost use Rattle.ascii_devices.specs.Wrapped.{output_failures};
    ghost use Rattle.ascii_devices.specs.Wrapped.{duplex_history, input_of, output_of};

    ghost rest = { λ duplex. R.remaining (reader_of (input_of duplex)) };

    ghost failures = { λ duplex. input_failures (input_of duplex) };

    ghost history = { λ duplex. duplex_history duplex };

    ghost aside = { λ duplex. record {
      bytes = W.contents (writer_of (output_of duplex));
      failures = output_failures (output_of duplex);
    } };

    fn failures(&self) -> u64 {
        self.input.failures()
    }

    fn read(&mut self, buf: &mut [u8]) -> Result<usize, DeviceFault> {
        self.log = self.log.and(&Event::Read);
        let n = self.input.read(buf)?;
        note_received(&mut self.log, &buf[..n]);
        Ok(n)
    }
}

impl<R: io::Read, W: io::Write> Sink for Duplex<R, W> {
    ghost use Rattle.std.specs.Prelude.{List, ℕ};
    ghost use Rattle.ascii_devices.specs.Wrapped.{reader_of, input_failures, writer_of};
    ghost use Rattle.ascii_devices.specs.Wrapped.{output_failures};
    ghost use Rattle.ascii_devices.specs.Wrapped.{duplex_history, input_of, output_of};

    ghost taken = { λ duplex. W.contents (writer_of (output_of duplex)) };

    ghost failures = { λ duplex. output_failures (output_of duplex) };

    ghost history = { λ duplex. duplex_history duplex };

    ghost aside = { λ duplex. record {
      bytes = R.remaining (reader_of (input_of duplex));
      failures = input_failures (input_of duplex);
    } };

    fn failures(&self) -> u64 {
        self.output.failures()
    }

    fn write(&mut self, bytes: &[u8]) -> Result<usize, DeviceFault> {
        let n = self.output.write(bytes)?;
        note_sent(&mut self.log, &bytes[..n]);
        Ok(n)
    }

    fn flush(&mut self) -> Result<(), DeviceFault> {
        self.output.flush()?;
        self.log = self.log.and(&Event::Flushed);
        Ok(())
    }
}

impl<R: io::Read, W: io::Write> Channel for Duplex<R, W> {
    ghost use Rattle.std.specs.Prelude.{refl};

    ghost one_history = { λ c. refl };

    ghost read_aside = { λ c. refl };

    ghost write_aside = { λ c. refl };
}
