//! Devices: sources that give bytes and sinks that take them, as contracts can speak of them.
//!
//! After an error, std's contracts say little of a reader or a writer. These traits say more: a contract sees of a
//! `Source` the bytes that it has yet to give, if they are known, and of a `Sink` those that it has taken. Both count
//! the calls that failed, so that a caller can tell from the count whether a device failed. The only error is
//! `DeviceFault`. `Input` and `Output` keep the last error of the reader or the writer, which `into_error` returns.
//!
//! | You have | Use |
//! |---|---|
//! | a reader of std, also `&[u8]` | `Input::new(reader)` |
//! | a writer of std, also `Vec<u8>` | `Output::new(writer)` |
//! | a reader and a writer of the same peer | `Duplex::new(reader, writer)` |
//! | many small pieces to write | a `BufferedSink` before the sink |
//! | a device of your own | an `impl` of `Source` or `Sink` |
//!
//! A device may keep a *history*, which only contracts see: each read, each byte that it gave or took and each flush, in
//! order. `Input`, `Output` and `Duplex` keep one. Std's contracts do not know the bytes of standard input and of
//! standard output; the history has them. A device of your own that keeps none gives no `history`.
//!
//! In an example, `alloc` is an allocator, and the comment after `//` is the value's `{:?}` output.
#![tactic(auto)]

ghost use Rattle.std.specs.Prelude.{◌≡◌, ℕ, ◌<◌, ◌≤◌, List, [], ◌∷◌, length, take, IfOk, MatchResult};
ghost use Rattle.std.specs.Prelude.{IsNone, IsSome, None};
ghost use Rattle.std.specs.Io.KnownBytes.{Appends, Consumes, IsAtEnd, Keeps};
ghost use Rattle.std.specs.declared.option.Option.{Option};
ghost use Rattle.ascii_devices.specs.Devices.{Aside, CountsFault, Grows, no_aside, read_of, write_of};
ghost use Rattle.ascii_devices.specs.declared.log.Event.{Event};
ghost use Rattle.ascii_devices.specs.declared.log.Event.TheVariants.{Flushed};
ghost use Rattle.ascii_devices.specs.Flushes.{flushes_in, flushes_of};

mod buffer_copy;
mod buffered;
mod duplex;
mod flushing;
mod log;
mod notes;

pub use buffered::{BufferedSink, zeros};
pub use duplex::Duplex;
use flushing::Flushing;
pub use log::{Event, Log};
use notes::{note_received, note_sent};
use std::error::Error;
use std::{fmt, io};

/// A device failed. Its count of failures has risen by one.
#[derive(Clone, Copy, PartialEq, Eq, Debug)]
pub struct DeviceFault;

impl fmt::Display for DeviceFault {
    ghost use Rattle.std.specs.Prelude.{Some, codes};

    ghost output = { λ _. Some (codes "a device failed") };

    /// Writes `a device failed`.
    ///
    ///     format!(in alloc; "{0} ({0:?})", DeviceFault)? // "a device failed (DeviceFault)"
    fn fmt<W: fmt::Write>(&self, f: &mut fmt::Formatter<W>) -> fmt::Result {
        f.write_str("a device failed")
    }
}

impl Error for DeviceFault {}

/// A device that gives bytes.
pub trait Source {
    // The bytes that it has yet to give, or `None` if they are not known.
    ghost rest: { Self → Option (List ℕ) };

    // How many calls have failed.
    ghost failures: { Self → ℕ };

    // What has happened at it, in both directions if it has two, or `None` if that is not kept.
    ghost history: { Self → Option (List Event) } = { λ _. None };

    // What a read leaves unchanged: its other direction, if it has one.
    ghost aside: { Self → Aside } = { λ _. no_aside };

    /// Returns how many calls have failed.
    ///
    ///     let mut input = Input::new(b"".as_slice());
    ///     input.read(&mut [0; 4]) // Ok(0)
    ///     input.failures() // 0
    fn failures(&self) -> u64
        ensures { result ≡ failures self.now };

    /// Copies the next bytes to the start of `buf` and returns their number, or an error if the
    /// device failed; the count of failures then rises by one. The number is 0 only if there are no
    /// bytes left.
    ///
    /// A history gains `Event::Read` and then the bytes; on an error, `Event::Read` only.
    ///
    /// Condition: `buf` is not empty, and fewer than `u64::MAX` calls have failed.
    ///
    ///     let mut input = Input::new(b"ab".as_slice());
    ///     let mut buffer = [0; 3];
    ///     input.read(&mut buffer) // Ok(2)
    ///     input.read(&mut buffer) // Ok(0)
    fn read(&mut self, buf: &mut [u8]) -> Result<usize, DeviceFault>
        requires room { 0 < length buf.old }
        requires count { failures self.old < u64.MAX }
        ensures bytes { IfOk result (λ n. (n ≤ length buf.new)
            × Consumes (rest self.old) (rest self.new) (take n buf.new)) }
        ensures end { IfOk result (λ n. n ≡ 0 → IsAtEnd (rest self.new)) }
        ensures count { CountsFault (failures self.old) (failures self.new) result }
        ensures history { MatchResult result
            (λ n. Grows (history self.old) (history self.new) (read_of (take n buf.new)))
            (λ _. Grows (history self.old) (history self.new) (read_of [])) }
        ensures aside { aside self.new ≡ aside self.old };
}

/// A device that takes bytes.
pub trait Sink {
    // The bytes that it has taken, or `None` if they are not known.
    ghost taken: { Self → Option (List ℕ) };

    // How many calls have failed.
    ghost failures: { Self → ℕ };

    // What has happened at it, in both directions if it has two, or `None` if that is not kept.
    ghost history: { Self → Option (List Event) } = { λ _. None };

    // What a write and a flush leave unchanged: its other direction, if it has one.
    ghost aside: { Self → Aside } = { λ _. no_aside };

    /// Returns how many calls have failed.
    ///
    ///     let mut full = [0u8; 0];
    ///     let mut output = Output::new(full.as_mut_slice());
    ///     output.write(b"a") // Err(DeviceFault)
    ///     output.failures() // 1
    fn failures(&self) -> u64
        ensures { result ≡ failures self.now };

    /// Takes a prefix of `bytes` of at least one byte and returns its length, or an error if the
    /// device failed; the count of failures then rises by one.
    ///
    /// A history gains the bytes that were taken; on an error, nothing.
    ///
    /// Condition: `bytes` is not empty, and fewer than `u64::MAX` calls have failed.
    ///
    ///     let mut output = Output::new(Vec::new(alloc));
    ///     output.write(b"ab") // Ok(2)
    ///     output.into_inner() // [97, 98]
    fn write(&mut self, bytes: &[u8]) -> Result<usize, DeviceFault>
        requires some { 0 < length bytes.now }
        requires count { failures self.old < u64.MAX }
        ensures number { IfOk result (λ n. (1 ≤ n) × (n ≤ length bytes.now)) }
        ensures bytes { MatchResult result
            (λ n. Appends (taken self.old) (taken self.new) (take n bytes.now))
            (λ _. Keeps (taken self.old) (taken self.new)) }
        ensures count { CountsFault (failures self.old) (failures self.new) result }
        ensures history { MatchResult result
            (λ n. Grows (history self.old) (history self.new) (write_of (take n bytes.now)))
            (λ _. history self.new ≡ history self.old) }
        ensures aside { aside self.new ≡ aside self.old };

    /// Passes on the bytes that the device holds, or returns an error if the device failed; the
    /// count of failures then rises by one. The bytes that it has taken are unchanged.
    ///
    /// A history gains `Event::Flushed`; on an error, nothing.
    ///
    /// Condition: fewer than `u64::MAX` calls have failed.
    ///
    ///     Output::new(Vec::new(alloc)).flush() // Ok(())
    ///     Output::new([0u8; 0].as_mut_slice()).flush() // Ok(())
    fn flush(&mut self) -> Result<(), DeviceFault>
        requires count { failures self.old < u64.MAX }
        ensures bytes { Keeps (taken self.old) (taken self.new) }
        ensures count { CountsFault (failures self.old) (failures self.new) result }
        ensures history { MatchResult result
            (λ _. Grows (history self.old) (history self.new) (Flushed ∷ []))
            (λ _. history self.new ≡ history self.old) }
        ensures aside { aside self.new ≡ aside self.old };
}

/// A device of both directions, with one history of both, so that a contract can say what was sent
/// before which read.
pub trait Channel: Source + Sink {
    // Both directions have the same history.
    ghost one_history: { (c : Self) → Self.Source.history c ≡ Self.Sink.history c };

    // A read leaves unchanged what was taken, and how many writes and flushes failed.
    ghost read_aside: { (c : Self) → Self.Source.aside c
        ≡ record { bytes = Self.Sink.taken c; failures = Self.Sink.failures c } };

    // A write or a flush leaves unchanged what is yet to be given, and how many reads failed.
    ghost write_aside: { (c : Self) → Self.Sink.aside c
        ≡ record { bytes = Self.Source.rest c; failures = Self.Source.failures c } };
}

/// A reader as a `Source`. Each error of the reader is a failure, an interruption too. It keeps a
/// history and the last error.
#[derive(Drop)]
pub struct Input<R> {
    reader: R,
    failures: u64,
    /// The error of the last read that failed.
    error: Option<io::Error>,
    log: Log<Event>,
    ghost no_error: { failures ≡ 0 → IsNone error },
    ghost last_error: { 0 < failures → IsSome error },
}

impl<R: io::Read> Input<R> {
    ghost use Rattle.std.specs.Prelude.{[], Some};
    ghost use Rattle.ascii_devices.specs.Wrapped.{reader_of, input_failures, input_history};

    /// Creates a source over the reader, with no failure and an empty history.
    ///
    ///     Input::new(b"ab".as_slice()).read(&mut [0; 4]) // Ok(2)
    ///     Input::new(b"".as_slice()).read(&mut [0; 4]) // Ok(0)
    pub fn new(reader: R) -> Input<R>
        ensures reader { reader_of result ≡ reader }
        ensures failures { input_failures result ≡ 0 }
        ensures history { input_history result ≡ Some [] }
    {
        Input {
            reader,
            failures: 0,
            error: None,
            log: Log::new(),
        }
    }

    /// Returns the reader.
    ///
    ///     let mut input = Input::new(b"ab".as_slice());
    ///     input.read(&mut [0; 1]) // Ok(1)
    ///     input.into_inner() // [98]
    pub fn into_inner(self) -> R
        ensures { result ≡ reader_of self }
    {
        let Input {
            reader,
            failures: _,
            error: _,
            log: _,
        } = self;
        reader
    }

    /// Returns the reader's error of the last read that failed, or `None` if no read has failed. The
    /// reader is dropped.
    ///
    ///     Input::new(b"ab".as_slice()).into_error() // None
    pub fn into_error(self) -> Option<io::Error>
    where
        R: Drop,
        ensures none { input_failures self ≡ 0 → result ≡ None }
        ensures some { 0 < input_failures self → IsSome result }
    {
        self.error
    }
}

impl<R: io::Read> Source for Input<R> {
    ghost use Rattle.std.specs.Prelude.{List, ℕ};
    ghost use Rattle.ascii_devices.specs.Wrapped.{reader_of, input_failures, input_history};

    ghost rest = { λ input. R.remaining (reader_of input) };

    ghost failures = { λ input. input_failures input };

    ghost history = { λ input. input_history input };

    fn failures(&self) -> u64 {
        self.failures
    }

    fn read(&mut self, buf: &mut [u8]) -> Result<usize, DeviceFault> {
        self.log = self.log.and(&Event::Read);
        match self.reader.read(buf) {
            Ok(n) => {
                note_received(&mut self.log, &buf[..n]);
                Ok(n)
            }
            Err(error) => {
                self.failures += 1;
                self.error = Some(error);
                Err(DeviceFault)
            }
        }
    }
}

/// A writer as a `Sink`. Each error of the writer is a failure, an interruption too, and so is a
/// write that takes no byte. It keeps a history and the last error.
#[derive(Drop)]
pub struct Output<W> {
    writer: Flushing<W>,
    failures: u64,
    /// The error of the last call that failed.
    error: Option<io::Error>,
    log: Log<Event>,
    ghost no_error: { failures ≡ 0 → IsNone error },
    ghost last_error: { 0 < failures → IsSome error },
    ghost flushes: { flushes_in log.items ≡ flushes_of writer },
}

impl<W: io::Write> Output<W> {
    ghost use Rattle.std.specs.Prelude.{[], Some};
    ghost use Rattle.ascii_devices.specs.Wrapped.{writer_of, output_failures, output_history};

    /// Creates a sink over the writer, with no failure and an empty history.
    ///
    ///     Output::new(Vec::new(alloc)).write(b"ab") // Ok(2)
    ///     Output::new([0u8; 0].as_mut_slice()).write(b"ab") // Err(DeviceFault)
    pub fn new(writer: W) -> Output<W>
        ensures writer { writer_of result ≡ writer }
        ensures failures { output_failures result ≡ 0 }
        ensures history { output_history result ≡ Some [] }
    {
        Output {
            writer: Flushing::new(writer),
            failures: 0,
            error: None,
            log: Log::new(),
        }
    }

    /// Returns the writer.
    ///
    ///     let mut output = Output::new(Vec::new(alloc));
    ///     output.write(b"ab") // Ok(2)
    ///     output.into_inner() // [97, 98]
    pub fn into_inner(self) -> W
        ensures { result ≡ writer_of self }
    {
        let Output {
            writer,
            failures: _,
            error: _,
            log: _,
        } = self;
        writer.writer
    }

    /// Returns the writer's error of the last write or flush that failed, or `None` if none has
    /// failed. For a write that took no byte it is an error of the kind `WriteZero`. The writer is
    /// dropped.
    ///
    ///     let mut full = [0u8; 0];
    ///     let mut output = Output::new(full.as_mut_slice());
    ///     output.write(b"a") // Err(DeviceFault)
    ///     output.into_error() // Some(Kind(WriteZero))
    pub fn into_error(self) -> Option<io::Error>
    where
        W: Drop,
        ensures none { output_failures self ≡ 0 → result ≡ None }
        ensures some { 0 < output_failures self → IsSome result }
    {
        self.error
    }
}

impl<W: io::Write> Sink for Output<W> {
    ghost use Rattle.std.specs.Prelude.{List, ℕ};
    ghost use Rattle.ascii_devices.specs.Wrapped.{writer_of, output_failures, output_history};

    ghost taken = { λ output. W.contents (writer_of output) };

    ghost failures = { λ output. output_failures output };

    ghost history = { λ output. output_history output };

    fn failures(&self) -> u64 {
        self.failures
    }

    fn write(&mut self, bytes: &[u8]) -> Result<usize, DeviceFault> {
        match self.writer.writer.write(bytes) {
            Ok(n) if n > 0 => {
                note_sent(&mut self.log, &bytes[..n]);
                Ok(n)
            }
            taken => {
                self.failures += 1;
                self.error = Some(error_of(taken));
                Err(DeviceFault)
            }
        }
    }

    fn flush(&mut self) -> Result<(), DeviceFault> {
        match self.writer.flush() {
            Ok(()) => {
                self.log = self.log.and(&Event::Flushed);
                Ok(())
            }
            Err(error) => {
                self.failures += 1;
                self.error = Some(error);
                Err(DeviceFault)
            }
        }
    }
}

/// The error of a write that failed or took no byte.
fn error_of(taken: io::Result<usize>) -> io::Error {
    match taken {
        Ok(_) => io::Error::from(io::ErrorKind::WriteZero),
        Err(error) => error,
    }
}
