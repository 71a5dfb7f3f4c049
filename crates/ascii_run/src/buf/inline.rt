//! A buffer that keeps short texts in the value itself.

ghost use Rattle.std.specs.Prelude.{⊤, ◌≡◌, ◌≤◌, length, max};
ghost use Rattle.smallvec.specs.SmallVec.{with_items};

use ascii::{Buffer, CloneBuffer, InlineBuffer, NewBuffer, Text};
use smallvec::SmallVec;
use std::alloc::{AllocError, Global};

/// A buffer that keeps up to `N` bytes in the value itself (inline), and more in an allocation.
#[derive(Drop)]
pub struct Inline<const N: usize> {
    bytes: SmallVec<u8, N>,
}

/// An owned string of ASCII characters that keeps up to 24 of them in the value itself (inline),
/// and more in an allocation. Most host labels and header names fit, and then nothing is allocated.
///
/// Its size is 40 bytes wherever the value is stored or moved, and each call tests where the text is.
/// Its calls are those of `Text`.
pub type SmallAsciiString = Text<Inline<24>>;

impl<const N: usize> Inline<N> {
    /// Tells the prover that the buffer has room for its bytes, and for `N`.
    #[inline(always)]
    fn tell_room(&self)
        ensures sure { N ≤ self.now.bytes.capacity }
        ensures room { length self.now.bytes.items ≤ self.now.bytes.capacity }
    {
        let _sure = self.bytes.capacity();
        let _room = self.bytes.len();
    }
}

impl<const N: usize> Buffer for Inline<N> {
    ghost use Rattle.std.below.core.specs.declared.int.usize.TheConstants.{MAX};
    ghost use Rattle.std.proofs.Common.{rules};

    type Refusal = AllocError;

    ghost state = { λ inline. record {
      text = inline.bytes.items;
      capacity = max N inline.bytes.capacity;
    } };

    ghost with = { λ inline bytes. record { bytes = with_items inline.bytes bytes } };

    ghost sure = { N };

    ghost most = { MAX };

    ghost shrinks = { λ old new. new ≡ old };

    #[inline]
    fn bytes(&self) -> &[u8] {
        self.bytes.as_slice()
    }

    #[inline]
    fn bytes_mut(&mut self) -> &mut [u8] {
        self.tell_room();
        self.bytes.as_mut_slice()
    }

    #[inline]
    fn room(&self) -> usize {
        self.tell_room();
        self.bytes.capacity()
    }

    #[inline]
    fn is_inline(&self) -> bool {
        !self.bytes.spilled()
    }

    fn reserve(&mut self, additional: usize) -> Result<(), AllocError> {
        self.tell_room();
        self.bytes.reserve(additional)?;
        self.tell_room();
        Ok(())
    }

    fn reserve_exact(&mut self, additional: usize) -> Result<(), AllocError> {
        self.tell_room();
        self.bytes.reserve_exact(additional)?;
        self.tell_room();
        Ok(())
    }

    /// Does nothing, and cannot fail.
    fn shrink(&mut self) -> Result<(), AllocError> {
        self.tell_room();
        Ok(())
    }

    #[inline]
    fn append_byte(&mut self, byte: u8) -> Result<(), AllocError> {
        self.tell_room();
        self.bytes.push(byte)?;
        self.tell_room();
        Ok(())
    }

    #[inline]
    fn append(&mut self, piece: &[u8]) -> Result<(), AllocError> {
        self.tell_room();
        self.bytes.extend_from_slice(piece)?;
        self.tell_room();
        Ok(())
    }

    fn insert_byte(&mut self, idx: usize, byte: u8) -> Result<(), AllocError> {
        self.tell_room();
        self.bytes.reserve(1)?;
        self.bytes.insert(idx, byte)?;
        self.tell_room();
        Ok(())
    }

    fn remove_byte(&mut self, idx: usize) -> u8 {
        self.tell_room();
        self.bytes.remove(idx)
    }

    #[inline]
    fn pop_byte(&mut self) -> Option<u8> {
        self.tell_room();
        self.bytes.pop()
    }

    #[inline]
    fn keep_front(&mut self, n: usize) {
        self.tell_room();
        self.bytes.truncate(n);
    }

    ghost with_text = { Prim.search rules };

    ghost with_capacity = { Prim.search rules };
}

impl<const N: usize> NewBuffer for Inline<N> {
    type Alloc = Global;

    #[inline]
    fn empty(alloc: Global) -> Self {
        Inline {
            bytes: SmallVec::new(alloc),
        }
    }

    fn with_room(alloc: Global, capacity: usize) -> Result<Self, AllocError> {
        Ok(Inline {
            bytes: SmallVec::with_capacity(alloc, capacity)?,
        })
    }

    fn with_copy(alloc: Global, bytes: &[u8]) -> Result<Self, AllocError> {
        let inline = Inline {
            bytes: SmallVec::from_slice(alloc, bytes)?,
        };
        inline.tell_room();
        Ok(inline)
    }
}

impl<const N: usize> CloneBuffer for Inline<N> {
    ghost copies = { λ inline. length inline.text ≤ N };

    ghost clones = { ⊤ };

    fn copy(&self) -> Result<Self, AllocError> {
        Self::with_copy(*self.bytes.allocator(), self.bytes.as_slice())
    }

    fn split_off(&mut self, at: usize) -> Result<Self, AllocError> {
        self.tell_room();
        let tail = Self::with_copy(*self.bytes.allocator(), &self.bytes.as_slice()[at..])?;
        self.bytes.truncate(at);
        Ok(tail)
    }
}

impl<const N: usize> InlineBuffer for Inline<N> {
    fn from_vec(bytes: Vec<u8>) -> Self {
        Inline {
            bytes: SmallVec::from_vec(bytes),
        }
    }

    fn into_vec(self) -> Result<Vec<u8>, Self> {
        match self.bytes.into_vec() {
            Ok(bytes) => Ok(bytes),
            Err(refused) => Err(Inline {
                bytes: refused.value,
            }),
        }
    }
}
