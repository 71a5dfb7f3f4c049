//! A buffer of fixed size between a source and its lines.

ghost use Rattle.std.specs.Prelude.{◌≡◌, ◌+◌, ◌<◌, ◌≤◌, ◌++◌, ◌⊎◌, [], IfOk, OnErr, List, ℕ, false};
ghost use Rattle.std.specs.Prelude.{drop, length, slice_range, take};
ghost use Rattle.ascii_devices.specs.States.{source_state};
ghost use Rattle.ascii_lines.specs.Turns.{PutsBehind};
ghost use Rattle.ascii_lines.specs.LineBuffer.{Fills, IsAsciiLength, IsUsable, ReadsBehind};
ghost use Rattle.ascii_lines.specs.LineBuffer.{Refills};

use crate::wanted::{Content, Wanted};
use ascii::kernels::first_other;
use ascii_devices::{DeviceFault, Source, zeros};
use std::alloc::{AllocError, Allocator};
use std::marker::Model;

/// The bytes that were read and not taken, and those that were taken last. It never grows. It has room
/// for one byte more than a line may have, so that a line that is longer shows, and for two at least.
#[derive(Drop)]
pub(crate) struct LineBuffer<A: Allocator> {
    bytes: Vec<u8, A>,
    // How many bytes a line or part may have, with its ending.
    size: usize,
    // Where the bytes start that were taken last.
    given: usize,
    // Where they end, and those start that were not taken.
    from: usize,
    // There is no non-ASCII byte from there up to here.
    checked: usize,
    // Where the bytes end.
    filled: usize,
    // Whether a read of the source has returned no bytes.
    is_at_end: bool,
}

impl<A: Allocator> Model for LineBuffer<A> {
    ghost use Rattle.std.specs.Prelude.{◌-◌, slice_range, vec_len};
    ghost use Rattle.ascii_lines.specs.LineBuffer.{WindowState, IsLaidOut};

    ghost Value = { WindowState };

    ghost view = { λ w. record {
      size = w.size;
      room = vec_len w.bytes;
      given = slice_range w.bytes.items w.given w.from;
      held = slice_range w.bytes.items w.from w.filled;
      checked = w.checked - w.from;
      spare = vec_len w.bytes - w.filled;
      is_at_end = w.is_at_end;
    } };

    ghost invariant = { λ w. IsLaidOut w.size w.bytes.items w.given w.from w.checked w.filled };
}

impl<A: Allocator> LineBuffer<A> {
    /// An empty buffer for lines of up to this number of bytes.
    pub(crate) fn new(alloc: A, size: usize) -> Result<LineBuffer<A>, AllocError>
        ensures size { IfOk result (λ buffer. buffer.size ≡ size) }
        ensures held { IfOk result (λ buffer. buffer.held ≡ []) }
        ensures given { IfOk result (λ buffer. buffer.given ≡ []) }
        ensures at_end { IfOk result (λ buffer. buffer.is_at_end ≡ false) }
    {
        let Some(room) = size.max(1).checked_add(1) else {
            return Err(AllocError);
        };
        Ok(LineBuffer {
            bytes: zeros(alloc, room)?,
            size,
            given: 0,
            from: 0,
            checked: 0,
            filled: 0,
            is_at_end: false,
        })
    }

    /// How many bytes it holds.
    #[inline]
    pub(crate) fn len(&self) -> usize
        ensures { result ≡ length self.now.held }
    {
        self.filled - self.from
    }

    /// How many bytes a line or part may have.
    #[inline]
    pub(crate) fn size(&self) -> usize
        ensures { result ≡ self.now.size }
    {
        self.size
    }

    /// Whether a read of the source has returned no bytes. The source is then not read again.
    #[inline]
    pub(crate) fn is_at_end(&self) -> bool
        ensures { result ≡ self.now.is_at_end }
    {
        self.is_at_end
    }

    /// The bytes that may be in what is wanted: of those that it holds, as many as fit, up to the first
    /// that what is wanted may not have.
    #[inline]
    pub(crate) fn usable(&self, wanted: Wanted) -> &[u8]
        ensures { IsUsable wanted self.now result.now }
    {
        let end = match wanted {
            Wanted::Line(_, Content::Any) | Wanted::Part(_, Content::Any) => self.filled,
            _ => self.checked,
        };
        &self.bytes[self.from..self.from + (end - self.from).min(self.size)]
    }

    /// The first bytes that it holds.
    #[inline]
    pub(crate) fn front(&self, n: usize) -> &[u8]
        requires { n ≤ length self.now.held }
        ensures { result.now ≡ take n self.now.held }
    {
        &self.bytes[self.from..self.from + n]
    }

    /// The bytes that were taken last.
    #[inline]
    pub(crate) fn line_bytes(&self) -> &[u8]
        ensures { result.now ≡ self.now.given }
    {
        &self.bytes[self.given..self.from]
    }

    /// Takes bytes from the front.
    #[inline]
    pub(crate) fn take(&mut self, n: usize)
        requires { n ≤ length self.old.held }
        ensures given { self.new.given ≡ take n self.old.held }
        ensures held { self.new.held ≡ drop n self.old.held }
        ensures size { self.new.size ≡ self.old.size }
        ensures room { (self.new.room ≡ self.old.room) × (1 < self.new.room) }
        ensures at_end { self.new.is_at_end ≡ self.old.is_at_end }
    {
        self.given = self.from;
        self.from += n;
        if self.checked < self.from {
            self.checked = self.from + ascii_len(&self.bytes[self.from..self.filled]);
        }
    }

    /// Moves the bytes that it holds to the front of the buffer.
    fn move_to_front(&mut self)
        ensures held { self.new.held ≡ self.old.held }
        ensures size { self.new.size ≡ self.old.size }
        ensures room { self.new.room ≡ self.old.room }
        ensures spare { self.new.spare + length self.new.held ≡ self.new.room }
        ensures roomy { (self.new.size < self.new.room) × (1 < self.new.room) }
        ensures at_end { self.new.is_at_end ≡ self.old.is_at_end }
    {
        if self.from > 0 {
            self.bytes.copy_within(self.from..self.filled, 0);
            self.checked -= self.from;
            self.filled -= self.from;
            self.from = 0;
        }
        self.given = 0;
    }

    /// Takes as many of these bytes as there is room for, after those that it holds.
    pub(crate) fn put(&mut self, bytes: &[u8]) -> usize
        ensures { PutsBehind self.old self.new bytes.now result }
    {
        self.move_to_front();
        let n = copy_behind(bytes, &mut self.bytes, self.filled);
        if self.checked == self.filled {
            self.checked = self.filled + ascii_len(&self.bytes[self.filled..self.filled + n]);
        }
        self.filled += n;
        n
    }

    /// Reads more bytes after those that it holds, by one call of the source, unless calls have failed
    /// `u64::MAX` times.
    pub(crate) fn fill<S: Source>(&mut self, source: &mut S) -> Result<(), DeviceFault>
        requires more { self.old.is_at_end ≡ false }
        requires room { (length self.old.held ≤ self.old.size) ⊎ (length self.old.held ≤ 1) }
        ensures { Fills self.old self.new (source_state S.Source source.old)
            (source_state S.Source source.new) result }
    {
        self.move_to_front();
        if source.failures() == u64::MAX {
            return Err(DeviceFault);
        }
        self.refill(source)
    }

    /// Reads more bytes after those that it holds, by one call of the source.
    fn refill<S: Source>(&mut self, source: &mut S) -> Result<(), DeviceFault>
        requires more { self.old.is_at_end ≡ false }
        requires room { length self.old.held < self.old.room }
        requires count { S.failures source.old < u64.MAX }
        ensures { Refills self.old self.new (source_state S.Source source.old)
            (source_state S.Source source.new) result }
    {
        self.move_to_front();
        let n = read_behind(source, &mut self.bytes, self.filled)?;
        if self.checked == self.filled {
            self.checked = self.filled + ascii_len(&self.bytes[self.filled..self.filled + n]);
        }
        self.filled += n;
        self.is_at_end = n == 0;
        Ok(())
    }
}

/// The number of bytes before the first that is not ASCII.
fn ascii_len(bytes: &[u8]) -> usize
    ensures { IsAsciiLength bytes.now result }
{
    match first_other(bytes) {
        Some(place) => place,
        None => bytes.len(),
    }
}

/// Copies as many bytes as there is room for after the first `filled` ones.
fn copy_behind(from: &[u8], bytes: &mut [u8], filled: usize) -> usize
    requires { filled ≤ length bytes.old }
    ensures front { take filled bytes.new ≡ take filled bytes.old }
    ensures len { length bytes.new ≡ length bytes.old }
    ensures within { (result ≤ length from.now) × (filled + result ≤ length bytes.new) }
    ensures copied { slice_range bytes.new filled (filled + result) ≡ take result from.now }
    ensures most { (result ≡ length from.now) ⊎ (filled + result ≡ length bytes.new) }
{
    let n = from.len().min(bytes.len() - filled);
    bytes[filled..filled + n].copy_from_slice(&from[..n]);
    n
}

/// Reads bytes after the first `filled` ones, by one call of the source.
fn read_behind<S: Source>(
    source: &mut S,
    bytes: &mut [u8],
    filled: usize,
) -> Result<usize, DeviceFault>
    requires room { filled < length bytes.old }
    requires count { S.failures source.old < u64.MAX }
    ensures { ReadsBehind filled bytes.old bytes.new (source_state S.Source source.old)
        (source_state S.Source source.new) result }
{
    source.read(&mut bytes[filled..])
}
