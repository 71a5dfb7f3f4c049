//! Devices of this file's own, and what the contracts of `Output` and `Log` say of any writer.

ghost use Rattle.std.specs.Prelude.{◌≡◌, ◌<◌, ◌⊎◌, ◌∷◌, [], Some};
ghost use Rattle.ascii_devices.specs.Wrapped.{output_failures, output_history};
ghost use Rattle.ascii_devices.specs.declared.log.Event.TheVariants.{Flushed, Sent};

use ascii_devices::{DeviceFault, Event, Input, Log, Output, Sink, Source};
use std::convert::AsSlice;
use std::io::{self, ErrorKind};
use testing::assert_row;

/// A source of some bytes that has only the members that every source has, and so keeps no history.
#[derive(Drop)]
struct Bytes<'a> {
    bytes: &'a [u8],
}

impl Source for Bytes<'_> {
    ghost use Rattle.std.specs.Prelude.{List, Some, ℕ};

    ghost rest = { λ source. Some source.bytes.now };

    ghost failures = { λ _. 0 };

    fn failures(&self) -> u64 {
        0
    }

    fn read(&mut self, buf: &mut [u8]) -> Result<usize, DeviceFault> {
        let n = buf.len().min(self.bytes.len());
        let (now, later) = self.bytes.split_at(n);
        buf[..n].copy_from_slice(now);
        self.bytes = later;
        Ok(n)
    }
}

/// A sink that fails at every call, with only the members that every sink has.
#[derive(Drop)]
struct Broken {
    failures: u64,
}

impl Sink for Broken {
    ghost use Rattle.std.specs.Prelude.{List, Some, [], ℕ};

    ghost taken = { λ _. Some [] };

    ghost failures = { λ sink. sink.failures };

    fn failures(&self) -> u64 {
        self.failures
    }

    fn write(&mut self, bytes: &[u8]) -> Result<usize, DeviceFault> {
        self.failures += 1;
        Err(DeviceFault)
    }

    fn flush(&mut self) -> Result<(), DeviceFault> {
        self.failures += 1;
        Err(DeviceFault)
    }
}

#[test]
fn devices_without_a_history(rt: HostRuntime) {
    let mut source = Bytes { bytes: b"abc" };
    let mut buf = [0u8; 2];
    assert_row!(rt; source.read(&mut buf), Ok(2));
    assert_row!(rt; buf.as_slice(), b"ab".as_slice());
    assert_row!(rt; source.read(&mut buf), Ok(1));
    assert_row!(rt; source.read(&mut buf), Ok(0));
    assert_row!(rt; source.failures(), 0);

    let mut sink = Broken { failures: 0 };
    assert_row!(rt; sink.write(b"x"), Err(DeviceFault));
    assert_row!(rt; sink.flush(), Err(DeviceFault));
    assert_row!(rt; sink.failures(), 2);
}

/// Writes `a` to any writer and flushes it. If no call failed, the history says so, whether or not the writer's own
/// contract knows its bytes.
fn write_a<W: io::Write>(writer: W) -> Output<W>
    ensures { (output_history result ≡ Some (Sent 97 ∷ Flushed ∷ [])) ⊎ (0 < output_failures result) }
{
    let mut output = Output::new(writer);
    if output.write(b"a").is_ok() {
        let _ = output.flush();
    }
    output
}

/// A writer that writes down its calls: the bytes that it took and `|` for a write, `!` for a flush.
#[derive(Drop)]
struct Recording {
    calls: Vec<u8>,
}

impl io::Write for Recording {
    fn write(&mut self, buf: &[u8]) -> io::Result<usize> {
        self.calls.extend_from_slice(buf)?;
        self.calls.push(b'|')?;
        Ok(buf.len())
    }

    fn flush(&mut self) -> io::Result<()> {
        self.calls.push(b'!')?;
        Ok(())
    }
}

#[test]
fn a_history_of_any_writer(rt: HostRuntime) {
    let recording = Recording {
        calls: Vec::new(rt.alloc()),
    };
    assert_row!(rt; write_a(recording).into_inner().calls.as_slice(), b"a|!".as_slice());
}

/// A reader that counts its calls, which all fail.
#[derive(Drop)]
struct Unreadable {
    calls: u64,
}

impl io::Read for Unreadable {
    fn read(&mut self, _buf: &mut [u8]) -> io::Result<usize> {
        self.calls = self.calls.saturating_add(1);
        Err(io::Error::from(ErrorKind::Interrupted))
    }
}

#[test]
fn a_reader_that_fails_is_called_once(rt: HostRuntime) {
    let mut input = Input::new(Unreadable { calls: 0 });
    assert_row!(rt; input.read(&mut [0; 2]), Err(DeviceFault));
    assert_row!(rt; input.into_inner().calls, 1);
}

#[test]
fn a_log_takes_no_memory(rt: HostRuntime) {
    let _log = Log::new().and(&Event::Read).and(&Event::Received(97));
    assert_row!(rt; std::mem::size_of::<Log<Event>>(), 0);
    assert_row!(rt; Event::Received(97) == Event::Received(97), true);
    assert_row!(rt; Event::Sent(97) == Event::Received(97), false);
}
