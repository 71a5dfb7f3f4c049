//! A reader and a writer that give and take little at a time, that fail at one call, and that move no byte at another.

use crate::answer::{Answer, Put};
use std::alloc::Global;
use std::io::{self, ErrorKind};

/// How a device behaves. Its calls are counted from 0.
#[repr(C)]
#[derive(Clone, Copy)]
pub struct Device {
    /// The most bytes that a call moves.
    pub most: usize,
    /// The call that fails.
    pub fails: u64,
    /// The call that moves no byte.
    pub empty: u64,
    /// The error of the call that fails, as its index in `KINDS`.
    pub error: u8,
}

impl Device {
    /// How many bytes a call may move, or its error.
    fn most_at(self, call: u64) -> io::Result<usize> {
        if call == self.fails {
            return Err(error_of(self.error));
        }
        Ok(if call == self.empty { 0 } else { self.most })
    }
}

/// The kinds of error that a device can name.
static KINDS: [ErrorKind; 41] = [
    ErrorKind::NotFound,
    ErrorKind::PermissionDenied,
    ErrorKind::ConnectionRefused,
    ErrorKind::ConnectionReset,
    ErrorKind::HostUnreachable,
    ErrorKind::NetworkUnreachable,
    ErrorKind::ConnectionAborted,
    ErrorKind::NotConnected,
    ErrorKind::AddrInUse,
    ErrorKind::AddrNotAvailable,
    ErrorKind::NetworkDown,
    ErrorKind::BrokenPipe,
    ErrorKind::AlreadyExists,
    ErrorKind::WouldBlock,
    ErrorKind::NotADirectory,
    ErrorKind::IsADirectory,
    ErrorKind::DirectoryNotEmpty,
    ErrorKind::ReadOnlyFilesystem,
    ErrorKind::FilesystemLoop,
    ErrorKind::StaleNetworkFileHandle,
    ErrorKind::InvalidInput,
    ErrorKind::InvalidData,
    ErrorKind::TimedOut,
    ErrorKind::WriteZero,
    ErrorKind::StorageFull,
    ErrorKind::NotSeekable,
    ErrorKind::QuotaExceeded,
    ErrorKind::FileTooLarge,
    ErrorKind::ResourceBusy,
    ErrorKind::ExecutableFileBusy,
    ErrorKind::Deadlock,
    ErrorKind::CrossesDevices,
    ErrorKind::TooManyLinks,
    ErrorKind::InvalidFilename,
    ErrorKind::ArgumentListTooLong,
    ErrorKind::Interrupted,
    ErrorKind::Unsupported,
    ErrorKind::UnexpectedEof,
    ErrorKind::OutOfMemory,
    ErrorKind::InProgress,
    ErrorKind::Other,
];

/// The error whose kind has this index in `KINDS`.
pub(crate) fn error_of(number: u8) -> io::Error {
    io::Error::from(match KINDS.get(usize::from(number)) {
        Some(kind) => *kind,
        None => ErrorKind::Other,
    })
}

/// The index in `KINDS` of an error's kind.
impl Put for io::Error {
    fn put(self, answer: &mut Answer) {
        let kind = self.kind();
        answer.put(KINDS.iter().position(|other| *other == kind));
    }
}

/// A reader of bytes.
#[derive(Drop)]
pub(crate) struct Given<'a> {
    rest: &'a [u8],
    device: Device,
    pub(crate) calls: u64,
}

impl<'a> Given<'a> {
    pub(crate) fn new(source: &'a [u8], device: Device) -> Given<'a> {
        Given {
            rest: source,
            device,
            calls: 0,
        }
    }
}

impl io::Read for Given<'_> {
    fn read(&mut self, buf: &mut [u8]) -> io::Result<usize> {
        let call = self.calls;
        self.calls = call.saturating_add(1);
        let most = self.device.most_at(call)?;
        let n = most.min(buf.len()).min(self.rest.len());
        let (now, later) = self.rest.split_at(n);
        buf[..n].copy_from_slice(now);
        self.rest = later;
        Ok(n)
    }
}

/// The most bytes that a writer keeps without growing. The driver knows an allocation for a writer by this size, so that
/// it lets only those of the libraries fail.
const KEPT: usize = 4 << 20;

/// An empty list for what a writer takes.
pub(crate) fn kept(alloc: Global) -> Vec<u8> {
    Vec::with_capacity(alloc, KEPT).unwrap_or(Vec::new(alloc))
}

/// A writer that keeps what it takes. A flush counts as a call too.
#[derive(Drop)]
pub(crate) struct Taken {
    pub(crate) bytes: Vec<u8>,
    device: Device,
    pub(crate) calls: u64,
}

impl Taken {
    pub(crate) fn new(alloc: Global, device: Device) -> Taken {
        Taken {
            bytes: kept(alloc),
            device,
            calls: 0,
        }
    }

    /// Counts a call, and returns how many bytes it may move.
    fn count(&mut self) -> io::Result<usize> {
        let call = self.calls;
        self.calls = call.saturating_add(1);
        self.device.most_at(call)
    }
}

/// The number of calls, and the bytes.
impl Put for Taken {
    fn put(self, answer: &mut Answer) {
        answer.put((self.calls, self.bytes.as_slice()));
    }
}

impl io::Write for Taken {
    fn write(&mut self, buf: &[u8]) -> io::Result<usize> {
        let n = self.count()?.min(buf.len());
        self.bytes.extend_from_slice(&buf[..n])?;
        Ok(n)
    }

    fn flush(&mut self) -> io::Result<()> {
        self.count()?;
        Ok(())
    }
}
