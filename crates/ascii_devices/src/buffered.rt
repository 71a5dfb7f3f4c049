//! A buffer of fixed size before a sink.
//!
//! A `BufferedSink` gathers bytes and passes them to a sink when they do not fit any more. No call that appends returns
//! an error: after a write has failed, nothing more is written, and `finish` returns the error. So a loop that appends
//! many pieces tests for an error once, after the loop.
//!
//! A contract sees the buffer as the bytes that it holds, its size, and whether a write has failed. It sees the sink
//! and the buffer before it as one state (`OutputState`). `AppendsTo` says that bytes were appended: of the bytes held
//! before and then those, the sink took a prefix, and the buffer holds the others. The sink's history, if it is kept,
//! has exactly the bytes that the sink took.

ghost use Rattle.std.specs.Prelude.{◌≡◌, ◌+◌, ◌<◌, ◌≤◌, ◌∷◌, ◌++◌, IfOk, OnErr, OnOk, [], true};
ghost use Rattle.std.specs.Prelude.{length};
ghost use Rattle.std.specs.Prelude.{All, replicate, take, vec_len};
ghost use Rattle.ascii_devices.specs.Buffered.{AppendsTo, FinishOutcome, IsReady, MayFail};
ghost use Rattle.ascii_devices.specs.Buffered.{Sends, SendsFront, output_state, unbuffered};
ghost use Rattle.ascii_devices.specs.Devices.{CountsFault};

use crate::buffer_copy::{FIXED, copy_at, copy_front};
use crate::{DeviceFault, Sink};
use std::alloc::{AllocError, Allocator};
use std::marker::Model;

/// A buffer of fixed size before a sink: the bytes that were appended and that the sink has not taken
/// yet. After a write has failed, nothing more is written. The sink is an argument of each call, and
/// is to be the same at every call.
#[derive(Drop)]
pub struct BufferedSink<A: Allocator> {
    /// All bytes of the buffer, of which the first `used` were appended.
    room: Vec<u8, A>,
    used: usize,
    is_broken: bool,
}

impl<A: Allocator> Model for BufferedSink<A> {
    ghost use Rattle.std.specs.Prelude.{◌≤◌, length, take};
    ghost use Rattle.ascii_devices.specs.Buffered.{BufferState};

    ghost Value = { BufferState };

    ghost view = { λ buffer. record {
      bytes = take buffer.used buffer.room.items;
      size = length buffer.room.items;
      is_broken = buffer.is_broken;
    } };

    ghost invariant = { λ buffer. buffer.used ≤ length buffer.room.items };
}

impl<A: Allocator> BufferedSink<A> {
    /// Creates an empty buffer of `size` bytes, or returns an error if the allocation fails. No later
    /// call allocates.
    ///
    /// With a `size` of 0, the bytes of each call go to the sink at once.
    ///
    ///     BufferedSink::new(alloc, 4)?.is_broken() // false
    ///     BufferedSink::new(alloc, usize::MAX).is_err() // true
    pub fn new(alloc: A, size: usize) -> Result<BufferedSink<A>, AllocError>
        ensures ready { IfOk result IsReady }
        ensures size { IfOk result (λ buffer. buffer.size ≡ size) }
    {
        Ok(BufferedSink {
            room: zeros(alloc, size)?,
            used: 0,
            is_broken: false,
        })
    }

    /// Appends bytes. If there is no room for them, the buffer is first written to the sink, and
    /// emptied; bytes that are longer than the whole buffer go to the sink at once.
    ///
    /// If a write fails, the sink has taken a prefix of the bytes held before and then these. If one has
    /// failed before, nothing is written.
    ///
    /// Condition: a write has failed before, or fewer than `u64::MAX` calls of the sink have.
    ///
    ///     let mut output = Output::new(Vec::new(alloc));
    ///     let mut buffer = BufferedSink::new(alloc, 4)?;
    ///     buffer.put(&mut output, b"abc");
    ///     buffer.put(&mut output, b"de");
    ///     output.into_inner() // [97, 98, 99]
    #[inline]
    pub fn put<K: Sink>(&mut self, writer: &mut K, bytes: &[u8])
        requires { MayFail (output_state K.Sink writer.old self.old) }
        ensures { AppendsTo K.Sink writer.old self.old writer.new self.new bytes.now }
    {
        if bytes.len() <= self.room.len() - self.used {
            self.hold(bytes);
        } else {
            self.send(writer);
            self.pass(writer, bytes);
        }
    }

    /// Appends the first `n` of the bytes, as `put` does. If they are at most 64 of at least 64 bytes,
    /// they are appended by one copy of a fixed size.
    ///
    /// Condition: `n` is at most the number of bytes, and a write has failed before or fewer than
    /// `u64::MAX` calls of the sink have.
    ///
    ///     let mut output = Output::new(Vec::new(alloc));
    ///     let mut buffer = BufferedSink::new(alloc, 4)?;
    ///     buffer.put_front(&mut output, b"abc", 2);
    ///     buffer.finish(&mut output) // Ok(())
    ///     output.into_inner() // [97, 98]
    #[inline]
    pub fn put_front<K: Sink>(&mut self, writer: &mut K, bytes: &[u8], n: usize)
        requires fail { MayFail (output_state K.Sink writer.old self.old) }
        requires within { n ≤ length bytes.now }
        ensures { AppendsTo K.Sink writer.old self.old writer.new self.new (take n bytes.now) }
    {
        if n <= FIXED && bytes.len() >= FIXED && self.room.len() - self.used >= FIXED {
            self.hold_front(bytes, n);
        } else {
            self.put(writer, &bytes[..n]);
        }
    }

    /// Appends the body of a line and LF, as `put` does.
    ///
    /// Condition: a write has failed before, or fewer than `u64::MAX` calls of the sink have.
    ///
    ///     let mut output = Output::new(Vec::new(alloc));
    ///     let mut buffer = BufferedSink::new(alloc, 4)?;
    ///     buffer.put_line(&mut output, b"ab");
    ///     buffer.finish(&mut output) // Ok(())
    ///     output.into_inner() // [97, 98, 10]
    #[inline]
    pub fn put_line<K: Sink>(&mut self, writer: &mut K, body: &[u8])
        requires { MayFail (output_state K.Sink writer.old self.old) }
        ensures { AppendsTo K.Sink writer.old self.old writer.new self.new
            (body.now ++ 10 ∷ []) }
    {
        if body.len() < self.room.len() - self.used {
            self.hold_line(body);
        } else {
            self.put(writer, body);
            self.put(writer, b"\n");
        }
    }

    /// Appends bytes that there is room for.
    #[inline(always)]
    fn hold(&mut self, bytes: &[u8])
        requires { length self.old.bytes + length bytes.now ≤ self.old.size }
        ensures bytes { self.new.bytes ≡ self.old.bytes ++ bytes.now }
        ensures size { self.new.size ≡ self.old.size }
        ensures broken { self.new.is_broken ≡ self.old.is_broken }
    {
        self.used = copy_at(&mut self.room, self.used, bytes);
    }

    /// Appends the first `n` bytes to a buffer that has room for `FIXED`.
    #[inline(always)]
    fn hold_front(&mut self, bytes: &[u8], n: usize)
        requires room { length self.old.bytes + FIXED ≤ self.old.size }
        requires front { (n ≤ FIXED) × (FIXED ≤ length bytes.now) }
        ensures bytes { self.new.bytes ≡ self.old.bytes ++ take n bytes.now }
        ensures size { self.new.size ≡ self.old.size }
        ensures broken { self.new.is_broken ≡ self.old.is_broken }
    {
        self.used = copy_front(&mut self.room, self.used, bytes, n);
    }

    /// Appends the body of a line and LF, for both of which there is room.
    #[inline(always)]
    fn hold_line(&mut self, body: &[u8])
        requires { length self.old.bytes + length body.now < self.old.size }
        ensures bytes { self.new.bytes ≡ self.old.bytes ++ (body.now ++ 10 ∷ []) }
        ensures size { self.new.size ≡ self.old.size }
        ensures broken { self.new.is_broken ≡ self.old.is_broken }
    {
        self.hold(body);
        self.hold(b"\n");
    }

    /// Appends bytes to an empty buffer, or writes them at once if they are longer than
    /// the buffer.
    fn pass<K: Sink>(&mut self, writer: &mut K, bytes: &[u8])
        requires fail { MayFail (output_state K.Sink writer.old self.old) }
        requires empty { self.old.bytes ≡ [] }
        ensures { AppendsTo K.Sink writer.old self.old writer.new self.new bytes.now }
    {
        if bytes.len() <= self.room.len() {
            self.hold(bytes);
        } else if !self.is_broken {
            self.is_broken = write_each(writer, bytes).is_err();
        }
    }

    /// Writes the bytes of the buffer, unless a write has failed, and empties it. Not inlined, so that `put`, which seldom
    /// comes to it, is short enough for its caller to inline.
    #[inline(never)]
    fn send<K: Sink>(&mut self, writer: &mut K)
        requires { MayFail (output_state K.Sink writer.old self.old) }
        ensures puts { AppendsTo K.Sink writer.old self.old writer.new self.new [] }
        ensures empty { self.new.bytes ≡ [] }
    {
        if !self.is_broken {
            self.is_broken = write_each(writer, &self.room[..self.used]).is_err();
        }
        self.used = 0;
    }

    /// Writes the bytes of the buffer to the sink, empties it and flushes the sink, or returns an error
    /// if a write or the flush fails, or if one had failed before.
    ///
    /// After `Ok` the sink has taken all bytes that were appended. On an error it has taken a prefix of
    /// them, and nothing more if a call had failed before.
    ///
    /// Condition: a write has failed before, or fewer than `u64::MAX` calls of the sink have.
    ///
    ///     let mut output = Output::new(Vec::new(alloc));
    ///     let mut buffer = BufferedSink::new(alloc, 4)?;
    ///     buffer.put(&mut output, b"abc");
    ///     buffer.finish(&mut output) // Ok(())
    ///     output.into_inner() // [97, 98, 99]
    pub fn finish<K: Sink>(&mut self, writer: &mut K) -> Result<(), DeviceFault>
        requires { MayFail (output_state K.Sink writer.old self.old) }
        ensures outcome { FinishOutcome self.old.is_broken (output_state K.Sink writer.old self.old)
            (output_state K.Sink writer.new self.new) result }
        ensures ready { OnOk result (IsReady self.new) }
        ensures broken { OnErr result (self.new.is_broken ≡ true) }
        ensures none { self.new.bytes ≡ [] }
        ensures size { self.new.size ≡ self.old.size }
        ensures aside { K.aside writer.new ≡ K.aside writer.old }
    {
        self.send(writer);
        if self.is_broken {
            return Err(DeviceFault);
        }
        match writer.flush() {
            Ok(()) => Ok(()),
            Err(fault) => {
                self.is_broken = true;
                Err(fault)
            }
        }
    }

    /// Returns `true` if a write or a flush has failed, or after `give_up`.
    ///
    ///     let mut buffer = BufferedSink::new(alloc, 4)?;
    ///     buffer.is_broken() // false
    ///     buffer.give_up();
    ///     buffer.is_broken() // true
    #[inline]
    pub fn is_broken(&self) -> bool
        ensures broken { result ≡ self.now.is_broken }
        ensures within { length self.now.bytes ≤ self.now.size }
    {
        self.is_broken
    }

    /// Makes every later call write nothing, as after a write that failed. For a sink that may not be
    /// called again, for example because its count of failures is `u64::MAX`.
    ///
    ///     let mut output = Output::new(Vec::new(alloc));
    ///     let mut buffer = BufferedSink::new(alloc, 4)?;
    ///     buffer.put(&mut output, b"ab");
    ///     buffer.give_up();
    ///     buffer.finish(&mut output) // Err(DeviceFault)
    ///     output.into_inner() // []
    pub fn give_up(&mut self)
        ensures broken { self.new.is_broken ≡ true }
        ensures bytes { self.new.bytes ≡ self.old.bytes }
        ensures size { self.new.size ≡ self.old.size }
    {
        self.is_broken = true;
    }
}

/// What `zeros` copies.
static ZEROS: [u8; 1_024] = [0; 1_024];

/// Returns `count` zeros, or an error if the allocation fails. They are copied 1,024 at a time, since
/// a loop that appends a byte at a time takes longer than the output of a short text.
///
///     zeros(alloc, 3)? // [0, 0, 0]
///     zeros(alloc, usize::MAX) // Err(AllocError)
pub fn zeros<A: Allocator>(alloc: A, count: usize) -> Result<Vec<u8, A>, AllocError>
    ensures size { IfOk result (λ zeros. vec_len zeros ≡ count) }
    ensures zeros { IfOk result (λ zeros. All (λ byte. byte ≡ 0) zeros.items) }
{
    let mut zeros = Vec::with_capacity(alloc, count)?;
    'parts: while zeros.len() < count {
        let part = ZEROS.len().min(count - zeros.len());
        zeros.extend_from_slice(zeros_up_to(part))?;
    }
    Ok(zeros)
}

/// A part of the zeros that `zeros` copies.
#[inline(always)]
fn zeros_up_to(n: usize) -> &'static [u8]
    requires { n ≤ 1_024 }
    ensures { result.now ≡ replicate n 0 }
{
    &ZEROS[..n]
}

/// Writes all of the bytes, in as many writes as the writer needs.
fn write_each<K: Sink>(writer: &mut K, bytes: &[u8]) -> Result<(), DeviceFault>
    requires { K.failures writer.old < u64.MAX }
    ensures ok { OnOk result (Sends (unbuffered K.Sink writer.old) (unbuffered K.Sink writer.new)
        bytes.now) }
    ensures err { OnErr result (SendsFront (unbuffered K.Sink writer.old)
        (unbuffered K.Sink writer.new) bytes.now) }
    ensures count { CountsFault (K.failures writer.old) (K.failures writer.new) result }
    ensures aside { K.aside writer.new ≡ K.aside writer.old }
{
    let mut remaining = bytes;
    'writes: while !remaining.is_empty() {
        let n = writer.write(remaining)?;
        remaining = &remaining[n..];
    }
    Ok(())
}
