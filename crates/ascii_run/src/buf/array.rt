//! A buffer of a fixed capacity, which never allocates.

ghost use Rattle.std.specs.Prelude.{⊤, ◌≡◌, ◌≤◌, Some, codes, length};
ghost use Rattle.arrayvec.specs.ArrayVec.{with_items};

use arrayvec::ArrayVec;
use ascii::{Buffer, CloneBuffer, NewBuffer, Text};
use std::alloc::AllocError;
use std::error::Error;
use std::fmt;

/// The error of a text that does not fit a fixed capacity.
#[derive(Clone, Copy, PartialEq, Eq, Debug)]
pub struct Full;

impl fmt::Display for Full {
    ghost output = { λ _. Some (codes "the text does not fit") };

    /// Writes `the text does not fit`.
    ///
    ///     format!(in alloc; "{0} ({0:?})", Full)? // "the text does not fit (Full)"
    fn fmt<W: fmt::Write>(&self, f: &mut fmt::Formatter<W>) -> fmt::Result {
        f.write_str("the text does not fit")
    }
}

impl Error for Full {}

/// A buffer of at most `N` bytes in the value itself. It never allocates: an edit whose
/// bytes do not fit returns `Full`.
#[derive(Drop)]
pub struct Array<const N: usize> {
    bytes: ArrayVec<u8, N>,
}

/// An owned string of at most `N` ASCII characters in the value itself. It never allocates: an edit
/// whose text does not fit returns `Full`, and the text is unchanged. Its calls are those of `Text`.
pub type ArrayAsciiString<const N: usize> = Text<Array<N>>;

impl<const N: usize> Array<N> {
    /// Tells the prover that the bytes fit the buffer.
    #[inline(always)]
    fn tell_room(&self)
        ensures { length self.now.bytes.items ≤ N }
    {
        let _fits = self.bytes.as_slice();
    }
}

impl<const N: usize> Buffer for Array<N> {
    ghost use Rattle.std.proofs.Common.{rules};

    type Refusal = Full;

    ghost state = { λ array. record { text = array.bytes.items; capacity = N } };

    ghost with = { λ array bytes. record { bytes = with_items array.bytes bytes } };

    ghost sure = { N };

    ghost most = { N };

    ghost shrinks = { λ old new. new ≡ old };

    #[inline]
    fn bytes(&self) -> &[u8] {
        self.bytes.as_slice()
    }

    #[inline]
    fn bytes_mut(&mut self) -> &mut [u8] {
        self.bytes.as_mut_slice()
    }

    #[inline]
    fn room(&self) -> usize {
        self.tell_room();
        N
    }

    #[inline]
    fn is_inline(&self) -> bool {
        true
    }

    fn reserve(&mut self, additional: usize) -> Result<(), Full> {
        self.tell_room();
        if additional > N - self.bytes.len() {
            return Err(Full);
        }
        Ok(())
    }

    fn reserve_exact(&mut self, additional: usize) -> Result<(), Full> {
        Buffer::reserve(self, additional)
    }

    /// Does nothing, and cannot fail.
    fn shrink(&mut self) -> Result<(), Full> {
        self.tell_room();
        Ok(())
    }

    #[inline]
    fn append_byte(&mut self, byte: u8) -> Result<(), Full> {
        self.append(&[byte])
    }

    #[inline]
    fn append(&mut self, piece: &[u8]) -> Result<(), Full> {
        self.tell_room();
        let done = self.bytes.try_extend_from_slice(piece);
        self.tell_room();
        done.map_err(|_| Full)
    }

    fn insert_byte(&mut self, idx: usize, byte: u8) -> Result<(), Full> {
        self.tell_room();
        let done = self.bytes.try_insert(idx, byte);
        self.tell_room();
        done.map_err(|_| Full)
    }

    fn remove_byte(&mut self, idx: usize) -> u8 {
        self.tell_room();
        self.bytes.remove(idx)
    }

    #[inline]
    fn pop_byte(&mut self) -> Option<u8> {
        self.tell_room();
        self.bytes.pop()
    }

    #[inline]
    fn keep_front(&mut self, n: usize) {
        self.tell_room();
        self.bytes.truncate(n);
    }

    ghost with_text = { Prim.search rules };

    ghost with_capacity = { Prim.search rules };
}

impl<const N: usize> NewBuffer for Array<N> {
    type Alloc = ();

    #[inline]
    fn empty(_alloc: ()) -> Self {
        Array {
            bytes: ArrayVec::new(),
        }
    }

    fn with_room(_alloc: (), capacity: usize) -> Result<Self, Full> {
        if capacity > N {
            return Err(Full);
        }
        Ok(Self::empty(()))
    }

    fn with_copy(_alloc: (), bytes: &[u8]) -> Result<Self, Full> {
        let mut copy = Self::empty(());
        copy.append(bytes)?;
        Ok(copy)
    }
}

impl<const N: usize> CloneBuffer for Array<N> {
    ghost copies = { λ _. ⊤ };

    ghost clones = { ⊤ };

    fn copy(&self) -> Result<Self, AllocError> {
        match Self::with_copy((), self.bytes.as_slice()) {
            Ok(copy) => Ok(copy),
            Err(_) => Err(AllocError),
        }
    }

    fn split_off(&mut self, at: usize) -> Result<Self, Full> {
        self.tell_room();
        let tail = Self::with_copy((), &self.bytes.as_slice()[at..])?;
        self.bytes.truncate(at);
        Ok(tail)
    }
}
