//! Mutable views: a part of a borrowed source that holds only ASCII bytes can be changed, and
//! keeps holding only ASCII bytes.
//!
//! Nothing here allocates.

ghost use Rattle.std.specs.Prelude.{◌≡◌, ◌<◌, ◌≤◌, ◌++◌, length, slice_set, map};
ghost use Rattle.std.proofs.Props.{props};
ghost use Rattle.ascii_base.specs.Case.{upper_image, lower_image};
ghost use Rattle.ascii_base.specs.Code.{code_of};
ghost use Rattle.ascii.specs.Slice.{AsciiBetween};
ghost use Rattle.ascii.specs.View.{text_of};

use crate::ascii_str::AsciiStr;
use ascii_base::ascii_char::AsciiChar;
use ascii_base::kernels;

/// A mutable view: ASCII text in a source that is mutably borrowed.
///
/// The text can be changed and stays ASCII. It keeps its length, and the bytes of the source before
/// and after it are unchanged.
#[derive(Drop)]
pub struct AsciiStrMut<'a> {
    pub(crate) bytes: &'a mut [u8],
    pub(crate) start: usize,
    pub(crate) end: usize,
    ghost ordered: { start ≤ end } by { Prim.hlevel props },
    ghost inside: { end ≤ length bytes.now } by { Prim.hlevel props },
    ghost ascii: { AsciiBetween bytes.now start end } by { Prim.hlevel props },
}

impl AsciiStrMut<'_> {
    ghost use Rattle.ascii.specs.WritingView.{EditsTo, mut_text_of};

    /// Sets the character at position `i`, counted from 0, to `ch`. The other characters are
    /// unchanged.
    ///
    /// Condition: `i` is less than the length.
    ///
    ///     let mut source = *b"foo";
    ///     bytes::as_mut_ascii_str_unchecked(&mut source).set(0, AsciiChar::z);
    ///     source == *b"zoo" // true
    ///     bytes::as_mut_ascii_str_unchecked(&mut source).set(2, AsciiChar::A);
    ///     source == *b"zoA" // true
    #[inline]
    pub fn set(&mut self, i: usize, ch: AsciiChar)
        requires { i < length (mut_text_of self.old) }
        ensures { EditsTo (slice_set (mut_text_of self.old) i (code_of ch)) self.old self.new }
    {
        self.bytes[self.start + i] = ch.as_byte();
    }

    /// Changes each letter `a` to `z` of the text to `A` to `Z`. The other characters are
    /// unchanged.
    ///
    ///     let mut source = *b"aZ{9";
    ///     bytes::as_mut_ascii_str_unchecked(&mut source).make_ascii_uppercase();
    ///     source == *b"AZ{9" // true
    #[tactic(auto, using(std::proofs::lemmas::Slice::overwrites, crate::proofs::WritingViewLemmas::keeps_ascii))]
    pub fn make_ascii_uppercase(&mut self)
        ensures { EditsTo (map upper_image (mut_text_of self.old)) self.old self.new }
    {
        kernels::upper_in_place(&mut self.bytes[self.start..self.end]);
    }

    /// Changes each letter `A` to `Z` of the text to `a` to `z`. The other characters are
    /// unchanged.
    ///
    ///     let mut source = *b"Az[9";
    ///     bytes::as_mut_ascii_str_unchecked(&mut source).make_ascii_lowercase();
    ///     source == *b"az[9" // true
    #[tactic(auto, using(std::proofs::lemmas::Slice::overwrites, crate::proofs::WritingViewLemmas::keeps_ascii))]
    pub fn make_ascii_lowercase(&mut self)
        ensures { EditsTo (map lower_image (mut_text_of self.old)) self.old self.new }
    {
        kernels::lower_in_place(&mut self.bytes[self.start..self.end]);
    }

    /// Returns a view of the text, to read it.
    ///
    ///     let mut source = *b"foo";
    ///     bytes::as_mut_ascii_str_unchecked(&mut source).as_ascii_str() // "foo"
    ///     bytes::as_mut_ascii_str_unchecked(&mut []).as_ascii_str() // ""
    #[inline]
    pub fn as_ascii_str(&self) -> AsciiStr<'_>
        ensures { text_of result ≡ mut_text_of self.now }
    {
        AsciiStr {
            bytes: &self.bytes[self.start..self.end],
        }
    }
}
