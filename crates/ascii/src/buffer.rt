//! The buffers that a text can be kept in. `AsciiString` is a `Text` over a `Vec<u8>`; the crate
//! `ascii_run` has a buffer in the value itself and one of a fixed capacity, and other crates can
//! add their own.
//!
//! A contract sees a buffer as its bytes and its capacity, `state buffer`.

ghost use Rattle.std.specs.Prelude.{◌≡◌, ℕ, ◌+◌, ◌-◌, ◌<◌, ◌≤◌, ◌↔◌, List, [], ◌∷◌, ◌++◌};
ghost use Rattle.std.specs.Prelude.{IfErr, IfOk, IsOk, IsTrue, MatchResult, OnErr, OnOk, drop};
ghost use Rattle.std.specs.Prelude.{insert, length, max, remove, slice_get, slice_index, take};
ghost use Rattle.std.specs.Prelude.{vec_capacity};
ghost use Rattle.std.specs.Borrow.{sem};
ghost use Rattle.std.specs.List.{refill};
ghost use Rattle.std.specs.Vec.{with_items};
ghost use Rattle.std.below.core.specs.declared.int.usize.TheConstants.{MAX};
ghost use Rattle.std.proofs.Common.{rules};
ghost use Rattle.ascii.specs.Buffer.{LendsBytes};
ghost use Rattle.ascii.specs.StringState.{EditsInPlace, GrowsTo, Reserves, StringState};

use std::alloc::{AllocError, Allocator};

/// Bytes that a `Text` is kept in. If an edit fails, the bytes are unchanged.
///
///     let mut bytes: Vec<u8> = NewBuffer::with_copy(alloc, b"oo")?;
///     bytes.insert_byte(0, 102) // Ok(())
///     bytes.append_byte(33) // Ok(())
///     bytes.pop_byte() // Some(33)
///     Buffer::append(&mut bytes, b"bar") // Ok(())
///     bytes.bytes_mut()[0] = 122;
///     bytes.bytes() // [122, 111, 111, 98, 97, 114]
///     bytes.remove_byte(0) // 122
///     bytes.keep_front(2);
///     bytes // [111, 111]
///     Buffer::reserve(&mut bytes, 10) // Ok(())
///     Buffer::reserve_exact(&mut bytes, 20) // Ok(())
///     bytes.room() >= 22 // true
///     bytes.shrink() // Ok(())
///     bytes.is_inline() // false
pub trait Buffer: Drop {
    /// The error of an edit for which there is no room.
    type Refusal: Drop;

    // the bytes, and the number of bytes up to which the buffer does not have to grow
    ghost state: { Self → StringState };

    // the buffer with its bytes written again
    ghost with: { Self → List ℕ → Self };

    // the sure length: an edit never fails for bytes up to it
    ghost sure: { ℕ };

    // the largest capacity
    ghost most: { ℕ };

    // what a shrink does if it does not fail
    ghost shrinks: { StringState → StringState → Type 0 };

    /// Returns the bytes.
    fn bytes(&self) -> &[u8]
        ensures { result.now ≡ (state self.now).text };

    /// Returns the bytes as a mutable slice: what is written there are the bytes from then on. Their
    /// number and the room are unchanged.
    fn bytes_mut(&mut self) -> &mut [u8]
        ensures* writes_back { sem 𝓛 (LendsBytes Self.row with self.entry result) }
        ensures value { result.now ≡ (state self.old).text }
        ensures room { length (state self.old).text ≤ (state self.old).capacity };

    /// Returns the number of bytes up to which the buffer does not have to grow, which is at least the
    /// number of bytes.
    fn room(&self) -> usize
        ensures capacity { result ≡ (state self.now).capacity }
        ensures room { length (state self.now).text ≤ result }
        ensures sure { sure ≤ result }
        ensures most { result ≤ most };

    /// Returns `true` if the bytes are in the value itself, or nothing is allocated.
    fn is_inline(&self) -> bool
        ensures { IsTrue result ↔ ((state self.now).capacity ≡ sure) };

    /// Makes room for at least `additional` more bytes, or returns an error if there is none; the bytes
    /// are unchanged.
    ///
    /// Condition: `additional` and the number of bytes together are at most `usize::MAX`.
    fn reserve(&mut self, additional: usize) -> Result<(), Self::Refusal>
        requires { length (state self.old).text + additional ≤ usize.MAX }
        ensures { Reserves sure additional (state self.old) (state self.new) result };

    /// Makes room for `additional` more bytes and asks for no more than that, or returns an error if
    /// there is none; the bytes are unchanged.
    ///
    /// Condition: `additional` and the number of bytes together are at most `usize::MAX`.
    fn reserve_exact(&mut self, additional: usize) -> Result<(), Self::Refusal>
        requires { length (state self.old).text + additional ≤ usize.MAX }
        ensures { Reserves sure additional (state self.old) (state self.new) result };

    /// Gives back the room that the bytes do not need, or returns an error if some of it is left; the
    /// bytes are unchanged.
    fn shrink(&mut self) -> Result<(), Self::Refusal>
        ensures text { (state self.new).text ≡ (state self.old).text }
        ensures ok { OnOk result (shrinks (state self.old) (state self.new)) }
        ensures err { OnErr result (length (state self.new).text < (state self.new).capacity) }
        ensures unsure { OnErr result (sure ≡ 0) }
        ensures capacity { (state self.new).capacity ≤ (state self.old).capacity }
        ensures room { length (state self.new).text ≤ (state self.new).capacity };

    /// Appends a byte, or returns an error if there is no room; the bytes are then unchanged.
    fn append_byte(&mut self, byte: u8) -> Result<(), Self::Refusal>
        ensures { let old = state self.old in
            GrowsTo sure (old.text ++ byte ∷ []) old (state self.new) result };

    /// Appends bytes, or returns an error if there is no room; the bytes are then unchanged.
    fn append(&mut self, piece: &[u8]) -> Result<(), Self::Refusal>
        ensures { let old = state self.old in
            GrowsTo sure (old.text ++ piece.now) old (state self.new) result };

    /// Inserts a byte before position `idx`, or returns an error if there is no room; the bytes are
    /// then unchanged.
    ///
    /// Condition: `idx` is at most the number of bytes.
    fn insert_byte(&mut self, idx: usize, byte: u8) -> Result<(), Self::Refusal>
        requires { idx ≤ length (state self.old).text }
        ensures { let old = state self.old in
            GrowsTo sure (insert old.text idx byte) old (state self.new) result };

    /// Removes the byte at position `idx` and returns it. The room is unchanged.
    ///
    /// Condition: `idx` is less than the number of bytes.
    fn remove_byte(&mut self, idx: usize) -> u8
        requires { idx < length (state self.old).text }
        ensures removed { result ≡ slice_index (state self.old).text idx }
        ensures edits { let old = state self.old in
            EditsInPlace (remove old.text idx) old (state self.new) };

    /// Removes the last byte and returns it, or returns `None` if there are no bytes. The room is
    /// unchanged.
    fn pop_byte(&mut self) -> Option<u8>
        ensures popped { let text = (state self.old).text in
            result ≡ slice_get text (length text - 1) }
        ensures edits { let old = state self.old in
            EditsInPlace (take (length old.text - 1) old.text) old (state self.new) };

    /// Keeps the first `n` bytes, or all if there are fewer, and removes the others. The room is
    /// unchanged.
    fn keep_front(&mut self, n: usize)
        ensures { let old = state self.old in
            EditsInPlace (take n old.text) old (state self.new) };

    // what is written again is the bytes alone
    ghost with_text: { (buffer : Self) (bytes : List ℕ)
        → (state (with buffer bytes)).text
        ≡ refill (length (state buffer).text) (state buffer).text bytes };

    ghost with_capacity: { (buffer : Self) (bytes : List ℕ)
        → (state (with buffer bytes)).capacity ≡ (state buffer).capacity };
}

/// A buffer that can be created.
///
///     let mut bytes: Vec<u8> = NewBuffer::with_room(alloc, 3)?;
///     bytes.room() >= 3 // true
///     Buffer::reserve(&mut bytes, 10) // Ok(())
///     Buffer::reserve_exact(&mut bytes, 20) // Ok(())
///     bytes.room() >= 20 // true
///     bytes.shrink() // Ok(())
///     bytes.is_inline() // true
///     let bytes: Vec<u8> = NewBuffer::empty(alloc);
///     bytes // []
///     let bytes: Vec<u8> = NewBuffer::with_copy(alloc, b"foo")?;
///     bytes // [102, 111, 111]
pub trait NewBuffer: Buffer {
    /// What a new buffer allocates from: `()` if it does not allocate.
    type Alloc: Drop;

    /// Creates an empty buffer. Does not allocate.
    fn empty(alloc: Self::Alloc) -> Self
        ensures { Self.state result ≡ record { text = []; capacity = Self.sure } };

    /// Creates an empty buffer with room for at least `capacity` bytes, or returns an error if there is
    /// none.
    fn with_room(alloc: Self::Alloc, capacity: usize) -> Result<Self, Self::Refusal>
        ensures text { IfOk result (λ buffer. (Self.state buffer).text ≡ []) }
        ensures capacity { IfOk result (λ buffer. capacity ≤ (Self.state buffer).capacity) }
        ensures exact { capacity ≤ Self.sure
            → IfOk result (λ buffer. (Self.state buffer).capacity ≡ Self.sure) }
        ensures succeeds { capacity ≤ Self.sure → IsOk result };

    /// Creates a buffer with a copy of `bytes`, or returns an error if there is no room for it.
    fn with_copy(alloc: Self::Alloc, bytes: &[u8]) -> Result<Self, Self::Refusal>
        ensures text { IfOk result (λ buffer. (Self.state buffer).text ≡ bytes.now) }
        ensures room { IfOk result (λ buffer. length bytes.now ≤ (Self.state buffer).capacity) }
        ensures exact { length bytes.now ≤ Self.sure
            → IfOk result (λ buffer. (Self.state buffer).capacity ≡ Self.sure) }
        ensures succeeds { length bytes.now ≤ Self.sure → IsOk result };
}

/// A buffer of which a second one can be made, with a clone of what it allocates from.
///
///     let mut bytes: Vec<u8> = NewBuffer::with_copy(alloc, b"foobar")?;
///     CloneBuffer::split_off(&mut bytes, 3) // Ok([98, 97, 114])
///     bytes.copy() // Ok([102, 111, 111])
pub trait CloneBuffer: Buffer {
    // the states of which a copy never fails
    ghost copies: { StringState → Type 0 };

    // what a buffer allocates from can always be cloned
    ghost clones: { Type 0 };

    /// Returns a copy of the buffer.
    fn copy(&self) -> Result<Self, AllocError>
        ensures cases { MatchResult result
            (λ copy. (Self.state copy).text ≡ (Self.state self.now).text)
            (λ _. ¬ (copies (Self.state self.now))) }
        ensures exact { copies (Self.state self.now)
            → IfOk result (λ copy. (Self.state copy).capacity ≡ Self.sure) };

    /// Keeps the first `at` bytes and returns the others as a buffer of their own, or returns an
    /// error if the others do not fit; the bytes are then unchanged. Never fails for others that fit
    /// the sure length, if what the buffer allocates from can always be cloned.
    ///
    /// Condition: `at` is at most the number of bytes.
    fn split_off(&mut self, at: usize) -> Result<Self, Self::Refusal>
        requires { at ≤ length (Self.state self.old).text }
        ensures tail { IfOk result (λ tail.
            (Self.state tail).text ≡ drop at (Self.state self.old).text) }
        ensures ok { OnOk result (let old = Self.state self.old in
            EditsInPlace (take at old.text) old (Self.state self.new)) }
        ensures err { OnErr result (let old = Self.state self.old in
            EditsInPlace old.text old (Self.state self.new)) }
        ensures succeeds { clones → length (Self.state self.old).text ≤ at + Self.sure
            → IsOk result };
}

/// A buffer that keeps few bytes in the value itself, and more in a `Vec`.
///
///     let bytes: Inline<24> = InlineBuffer::from_vec(Vec::from_slice(alloc, b"foo")?);
///     bytes.room() // 24
///     bytes.into_vec().ok() // Some([102, 111, 111])
pub trait InlineBuffer: Buffer {
    /// Converts a `Vec` into a buffer, keeping its allocation if that has more room than the sure
    /// length.
    fn from_vec(bytes: Vec<u8>) -> Self
        ensures text { (Self.state result).text ≡ bytes.items }
        ensures capacity { (Self.state result).capacity ≡ max Self.sure (vec_capacity bytes) };

    /// Converts the buffer into a `Vec`. Bytes in an allocation keep it. If bytes in the value itself
    /// cannot be copied, returns the buffer as the error.
    fn into_vec(self) -> Result<Vec<u8>, Self>
        ensures ok { IfOk result (λ bytes. bytes.items ≡ (Self.state self).text) }
        ensures err { IfErr result (λ buffer. buffer ≡ self) }
        ensures succeeds { Self.sure < (Self.state self).capacity → IsOk result };
}

/// The capacity that a `Vec` asks for at its first byte, so that a short text grows once. 24 bytes are the smallest block
/// of glibc. A string that grew from 8 bytes to 16 and 32 took 1.2 to 2.5 times as long for 12 to 31 characters.
const FIRST_ROOM: usize = 24;

impl<A: Allocator> Buffer for Vec<u8, A> {
    type Refusal = AllocError;

    ghost state = { λ bytes. record { text = bytes.items; capacity = vec_capacity bytes } };

    ghost with = { with_items };

    ghost sure = { 0 };

    ghost most = { MAX };

    ghost shrinks = { λ old new. new.capacity ≡ length new.text };

    #[inline]
    fn bytes(&self) -> &[u8] {
        self.as_slice()
    }

    #[inline]
    fn bytes_mut(&mut self) -> &mut [u8] {
        self.as_mut_slice()
    }

    #[inline]
    fn room(&self) -> usize {
        self.capacity()
    }

    #[inline]
    fn is_inline(&self) -> bool {
        self.capacity() == 0
    }

    fn reserve(&mut self, additional: usize) -> Result<(), AllocError> {
        self.reserve(additional)
    }

    fn reserve_exact(&mut self, additional: usize) -> Result<(), AllocError> {
        self.reserve_exact(additional)
    }

    fn shrink(&mut self) -> Result<(), AllocError> {
        self.shrink_to_fit();
        if self.len() < self.capacity() {
            return Err(AllocError);
        }
        Ok(())
    }

    #[inline]
    fn append_byte(&mut self, byte: u8) -> Result<(), AllocError> {
        if self.len() == self.capacity() {
            make_first_room(self)?;
        }
        self.push(byte)?;
        Ok(())
    }

    #[inline]
    fn append(&mut self, piece: &[u8]) -> Result<(), AllocError> {
        self.extend_from_slice(piece)
    }

    fn insert_byte(&mut self, idx: usize, byte: u8) -> Result<(), AllocError> {
        self.insert(idx, byte)?;
        Ok(())
    }

    fn remove_byte(&mut self, idx: usize) -> u8 {
        self.remove(idx)
    }

    #[inline]
    fn pop_byte(&mut self) -> Option<u8> {
        self.pop()
    }

    #[inline]
    fn keep_front(&mut self, n: usize) {
        self.truncate(n);
    }

    ghost with_text = { Prim.search rules };

    ghost with_capacity = { Prim.search rules };
}

/// Makes room for a short text in a `Vec` without an allocation. Not inlined, so that a loop over
/// `append_byte` has one test for each byte.
#[cold]
#[inline(never)]
fn make_first_room<A: Allocator>(bytes: &mut Vec<u8, A>) -> Result<(), AllocError>
    ensures items { bytes.new.items ≡ bytes.old.items }
    ensures capacity { vec_capacity bytes.old ≤ vec_capacity bytes.new }
{
    if bytes.capacity() == 0 {
        bytes.reserve_exact(FIRST_ROOM)?;
    }
    Ok(())
}

impl<A: Allocator> NewBuffer for Vec<u8, A> {
    type Alloc = A;

    #[inline]
    fn empty(alloc: A) -> Self {
        Vec::new(alloc)
    }

    fn with_room(alloc: A, capacity: usize) -> Result<Self, AllocError> {
        Vec::with_capacity(alloc, capacity)
    }

    fn with_copy(alloc: A, bytes: &[u8]) -> Result<Self, AllocError> {
        if bytes.is_empty() {
            return Ok(Vec::new(alloc));
        }
        let mut copy = Vec::with_capacity(alloc, bytes.len())?;
        copy.extend_from_slice(bytes)?;
        Ok(copy)
    }
}

impl<A: Allocator + Clone> CloneBuffer for Vec<u8, A> {
    ghost copies = { λ _. ⊥ };

    ghost clones = { (alloc : A) → A.is_infallible alloc };

    fn copy(&self) -> Result<Self, AllocError> {
        self.clone()
    }

    fn split_off(&mut self, at: usize) -> Result<Self, AllocError> {
        self.split_off(at)
    }
}
