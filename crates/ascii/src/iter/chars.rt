//! The characters of a view.
//!
//! Nothing here allocates.

ghost use Rattle.std.specs.Prelude.{⊤, ◌≡◌, IfSome, Some, length};
ghost use Rattle.std.specs.Iterator.{UpTo, YieldsFirstBy, YieldsLastBy, item_count};
ghost use Rattle.std.specs.Iterator.SizeHint.{IsWithinCount};
ghost use Rattle.std.specs.Slice.Iter.{iter_rest};
ghost use Rattle.std.specs.Str.{IsAscii};
ghost use Rattle.std.proofs.Props.{props};
ghost use Rattle.ascii_base.specs.Code.{code_of};
ghost use Rattle.ascii.specs.View.{text_of};

use crate::ascii_str::AsciiStr;
use ascii_base::ascii_char::AsciiChar;
use std::alloc::AllocError;
use std::iter::FusedIterator;
use std::marker::Model;
use std::slice;

/// A double-ended iterator over the characters of a view, which knows how many remain.
#[derive(Drop)]
pub struct Chars<'a> {
    bytes: slice::Iter<'a, u8>,
    ghost ascii: { IsAscii (iter_rest bytes) } by { Prim.hlevel props },
}

impl<'a> Model for Chars<'a> {
    ghost use Rattle.std.specs.Prelude.{List, ℕ};
    ghost use Rattle.std.specs.Slice.Iter.{iter_rest};

    ghost Value = { List ℕ };

    ghost view = { λ chars. iter_rest chars.bytes };
}

impl<'a> Chars<'a> {
    /// Returns a view of the remaining characters.
    ///
    ///     let mut chars = AsciiStr::literal("foo").chars();
    ///     chars.next() // Some('f')
    ///     chars.as_str() // "oo"
    #[inline]
    pub fn as_str(&self) -> AsciiStr<'a>
        ensures { text_of result ≡ self.now }
    {
        AsciiStr {
            bytes: self.bytes.as_slice(),
        }
    }
}

impl Clone for Chars<'_> {
    ghost is_clone = { λ chars copy. copy ≡ chars };

    ghost is_infallible = { λ _. ⊤ };

    /// Returns an iterator over the same characters. Always returns `Ok`.
    ///
    ///     let mut chars = AsciiStr::literal("foo").chars();
    ///     let copy = chars.clone()?;
    ///     chars.next() // Some('f')
    ///     copy.as_str() // "foo"
    fn clone(&self) -> Result<Self, AllocError> {
        Ok(self.as_str().chars())
    }
}

impl<'a> Iterator for Chars<'a> {
    type Item = AsciiChar;

    ghost next_gives = { YieldsFirstBy code_of (λ chars. chars) };

    ghost remaining = { item_count (λ chars. chars) };

    /// Returns the next character, or `None` if there are none left; it then keeps returning
    /// `None`.
    ///
    ///     AsciiStr::literal("foo").chars().next() // Some('f')
    ///     AsciiStr::literal("").chars().next() // None
    #[inline]
    fn next(&mut self) -> Option<AsciiChar> {
        let first = self.bytes.next()?;
        Some(AsciiChar::from_ascii_unchecked(*first))
    }

    /// Returns the number of remaining characters, as the least and as the largest number.
    ///
    ///     AsciiStr::literal("foo").chars().size_hint() // (3, Some(3))
    ///     AsciiStr::literal("").chars().size_hint() // (0, Some(0))
    #[inline]
    fn size_hint(&self) -> (usize, Option<usize>)
        ensures lower { IsWithinCount result.0 (item_count (λ chars. chars) self.now) }
        ensures upper { IfSome result.1 (UpTo (item_count (λ chars. chars) self.now)) }
        ensures exact { (result.0 ≡ length self.now) × (result.1 ≡ Some (length self.now)) }
    {
        (self.bytes.len(), Some(self.bytes.len()))
    }
}

impl<'a> DoubleEndedIterator for Chars<'a> {
    ghost next_back_gives = { YieldsLastBy code_of (λ chars. chars) };

    /// Returns the last of the remaining characters, or `None` if there are none left; it then
    /// keeps returning `None`.
    ///
    ///     AsciiStr::literal("foo").chars().next_back() // Some('o')
    ///     AsciiStr::literal("").chars().next_back() // None
    #[inline]
    fn next_back(&mut self) -> Option<AsciiChar> {
        let last = self.bytes.next_back()?;
        Some(AsciiChar::from_ascii_unchecked(*last))
    }
}

impl ExactSizeIterator for Chars<'_> {
    /// Returns the number of remaining characters.
    ///
    ///     AsciiStr::literal("foo").chars().len() // 3
    ///     AsciiStr::literal("").chars().len() // 0
    #[inline]
    fn len(&self) -> usize {
        self.bytes.len()
    }
}

impl FusedIterator for Chars<'_> {}

/// A double-ended iterator over the characters of a view: the one that `for ch in view` uses.
#[derive(Drop)]
pub struct CharsRef<'a> {
    chars: Chars<'a>,
}

impl<'a> Model for CharsRef<'a> {
    ghost use Rattle.std.specs.Prelude.{List, ℕ};

    ghost Value = { List ℕ };

    ghost view = { λ by_view. by_view.chars };
}

impl<'a> CharsRef<'a> {
    /// Returns a view of the remaining characters.
    ///
    ///     AsciiStr::literal("foo").into_iter().as_str() // "foo"
    ///     AsciiStr::literal("").into_iter().as_str() // ""
    #[inline]
    pub fn as_str(&self) -> AsciiStr<'a>
        ensures { text_of result ≡ self.now }
    {
        self.chars.as_str()
    }
}

impl Clone for CharsRef<'_> {
    ghost is_clone = { λ chars copy. copy ≡ chars };

    ghost is_infallible = { λ _. ⊤ };

    /// Returns an iterator over the same characters. Always returns `Ok`.
    ///
    ///     AsciiStr::literal("foo").into_iter().clone()?.as_str() // "foo"
    ///     AsciiStr::literal("").into_iter().clone()?.as_str() // ""
    fn clone(&self) -> Result<Self, AllocError> {
        Ok(CharsRef {
            chars: self.as_str().chars(),
        })
    }
}

impl<'a> Iterator for CharsRef<'a> {
    type Item = AsciiChar;

    ghost next_gives = { YieldsFirstBy code_of (λ chars. chars) };

    ghost remaining = { item_count (λ chars. chars) };

    /// Returns the next character, or `None` if there are none left; it then keeps returning
    /// `None`.
    ///
    ///     AsciiStr::literal("foo").into_iter().next() // Some('f')
    ///     AsciiStr::literal("").into_iter().next() // None
    #[inline]
    fn next(&mut self) -> Option<AsciiChar> {
        self.chars.next()
    }

    /// Returns the number of remaining characters, as the least and as the largest number.
    ///
    ///     AsciiStr::literal("foo").into_iter().size_hint() // (3, Some(3))
    ///     AsciiStr::literal("").into_iter().size_hint() // (0, Some(0))
    #[inline]
    fn size_hint(&self) -> (usize, Option<usize>)
        ensures lower { IsWithinCount result.0 (item_count (λ chars. chars) self.now) }
        ensures upper { IfSome result.1 (UpTo (item_count (λ chars. chars) self.now)) }
        ensures exact { (result.0 ≡ length self.now) × (result.1 ≡ Some (length self.now)) }
    {
        self.chars.size_hint()
    }
}

impl<'a> DoubleEndedIterator for CharsRef<'a> {
    ghost next_back_gives = { YieldsLastBy code_of (λ chars. chars) };

    /// Returns the last of the remaining characters, or `None` if there are none left; it then
    /// keeps returning `None`.
    ///
    ///     AsciiStr::literal("foo").into_iter().next_back() // Some('o')
    ///     AsciiStr::literal("").into_iter().next_back() // None
    #[inline]
    fn next_back(&mut self) -> Option<AsciiChar> {
        self.chars.next_back()
    }
}

impl FusedIterator for CharsRef<'_> {}

impl<'a> IntoIterator for AsciiStr<'a> {
    type Item = AsciiChar;

    type IntoIter = CharsRef<'a>;

    ghost into_iter_gives = { λ view chars. chars ≡ text_of view };

    /// Returns an iterator over the characters of the view, so that `for ch in view` works.
    ///
    ///     let mut digit = false;
    ///     for ch in AsciiStr::literal("f7") {
    ///         digit = digit || ch.is_ascii_digit();
    ///     }
    ///     digit // true
    ///     AsciiStr::literal("").into_iter().next() // None
    #[inline]
    fn into_iter(self) -> CharsRef<'a> {
        CharsRef {
            chars: self.chars(),
        }
    }
}

impl<'a> AsciiStr<'a> {
    /// Returns a double-ended iterator over the characters of the view. Constant time.
    ///
    ///     let mut chars = AsciiStr::literal("foo").chars();
    ///     chars.next() // Some('f')
    ///     chars.next_back() // Some('o')
    ///     AsciiStr::literal("").chars().next() // None
    #[inline]
    pub fn chars(self) -> Chars<'a>
        ensures { result ≡ text_of self.entry }
    {
        Chars {
            bytes: self.bytes.iter(),
        }
    }
}
