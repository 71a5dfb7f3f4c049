//! Owned copies of views and of lists of characters.

ghost use Rattle.std.specs.Prelude.{◌≡◌, ◌≤◌, [], ◌∷◌, IfErr, IfOk, IsOk, length, map};
ghost use Rattle.std.specs.List.{repeat};
ghost use Rattle.ascii_base.specs.Case.{lower_image, upper_image};
ghost use Rattle.ascii_base.specs.Code.{code_of, code_text};
ghost use Rattle.ascii.specs.View.{text_of};

use crate::ascii_str::AsciiStr;
use crate::ascii_string::{AsciiString, Text};
use crate::buffer::{Buffer, NewBuffer};
use ascii_base::ascii_char::AsciiChar;
use std::alloc::{AllocError, Allocator};

impl AsciiStr<'_> {
    /// Returns a copy of the view as a string. Fails only if the allocation fails, and never for
    /// the empty view.
    ///
    /// Allocates once, for the length of the view.
    ///
    ///     AsciiStr::literal("foo").to_ascii_string(alloc)? // "foo"
    ///     AsciiStr::literal("").to_ascii_string(alloc)? // ""
    pub fn to_ascii_string<A: Allocator>(self, alloc: A) -> Result<AsciiString<A>, AllocError>
        ensures text { IfOk result (λ string. string.text ≡ text_of self.entry) }
        ensures empty { text_of self.entry ≡ [] → IsOk result }
    {
        AsciiString::from_ascii_str(alloc, self)
    }

    /// Returns a copy of the view with each letter `a` to `z` changed to `A` to `Z`. Fails only if
    /// the allocation fails.
    ///
    /// Allocates once, and changes the case in the copy.
    ///
    /// To change a string in place use `make_ascii_uppercase`.
    ///
    ///     AsciiStr::literal("foo").to_ascii_uppercase(alloc)? // "FOO"
    ///     AsciiStr::literal("a1").to_ascii_uppercase(alloc)? // "A1"
    pub fn to_ascii_uppercase<A: Allocator>(self, alloc: A) -> Result<AsciiString<A>, AllocError>
        ensures { IfOk result (λ string. string.text ≡ map upper_image (text_of self.entry)) }
    {
        let mut string = self.to_ascii_string(alloc)?;
        string.make_ascii_uppercase();
        Ok(string)
    }

    /// Returns a copy of the view with each letter `A` to `Z` changed to `a` to `z`. Fails only if
    /// the allocation fails.
    ///
    /// Allocates once, and changes the case in the copy.
    ///
    /// To change a string in place use `make_ascii_lowercase`; to compare only,
    /// `eq_ignore_ascii_case`.
    ///
    ///     AsciiStr::literal("FOO").to_ascii_lowercase(alloc)? // "foo"
    ///     AsciiStr::literal("A1").to_ascii_lowercase(alloc)? // "a1"
    pub fn to_ascii_lowercase<A: Allocator>(self, alloc: A) -> Result<AsciiString<A>, AllocError>
        ensures { IfOk result (λ string. string.text ≡ map lower_image (text_of self.entry)) }
    {
        let mut string = self.to_ascii_string(alloc)?;
        string.make_ascii_lowercase();
        Ok(string)
    }

    /// Returns a string of `n` copies of the view, one after the other. Fails only if the allocation
    /// fails, or if the copies have more than `usize::MAX` bytes; never for the empty view.
    ///
    /// Allocates once, for the length of the string.
    ///
    ///     AsciiStr::literal("ab").repeat(alloc, 3)? // "ababab"
    ///     AsciiStr::literal("ab").repeat(alloc, 0)? // ""
    ///     AsciiStr::literal("ab").repeat(alloc, usize::MAX).is_err() // true
    #[tactic(auto, using(crate::proofs::TextLemmas::ascii_repeated, crate::proofs::TextLemmas::nothing_repeated))]
    pub fn repeat<A: Allocator>(self, alloc: A, n: usize) -> Result<AsciiString<A>, AllocError>
        ensures text { IfOk result (λ string. string.text ≡ repeat n (text_of self.entry)) }
        ensures empty { text_of self.entry ≡ [] → IsOk result }
    {
        if self.is_empty() {
            return Ok(AsciiString::new(alloc));
        }
        let text = self.as_str().repeat(alloc, n)?;
        Ok(AsciiString::from_ascii_unchecked(text.into_bytes()))
    }

    /// Returns the characters of the view as a `Vec`, in order. Fails only if the allocation fails.
    ///
    ///     AsciiStr::literal("ab").to_chars(alloc)? // ['a', 'b']
    ///     AsciiStr::literal("").to_chars(alloc)? // []
    pub fn to_chars<A: Allocator>(self, alloc: A) -> Result<Vec<AsciiChar, A>, AllocError>
        ensures { IfOk result (λ chars. map code_of chars.items ≡ text_of self.entry) }
    {
        let bytes = self.as_bytes();
        let mut chars = Vec::with_capacity(alloc, bytes.len())?;
        for byte in bytes {
            chars.push(AsciiChar::from_ascii_unchecked(*byte))?;
        }
        Ok(chars)
    }
}

impl<B: NewBuffer> Text<B> {
    /// Returns a string of one character. Fails only if the allocation fails, and never if the sure
    /// length is not 0.
    ///
    ///     AsciiString::from_char(alloc, AsciiChar::a)? // "a"
    ///     AsciiString::from_char(alloc, AsciiChar::LineFeed)? // "\n"
    pub fn from_char(alloc: B::Alloc, ch: AsciiChar) -> Result<Text<B>, B::Refusal>
        ensures text { IfOk result (λ string. string.text ≡ code_text ch) }
        ensures succeeds { 1 ≤ B.sure → IsOk result }
    {
        let mut string = Text::with_capacity(alloc, 1)?;
        string.push(ch)?;
        Ok(string)
    }

    /// Returns a string of the characters, in order. Fails only if the allocation fails, and never
    /// if they fit the sure length.
    ///
    ///     AsciiString::from_chars(alloc, &[AsciiChar::a, AsciiChar::b])? // "ab"
    ///     AsciiString::from_chars(alloc, &[])? // ""
    pub fn from_chars(alloc: B::Alloc, chars: &[AsciiChar]) -> Result<Text<B>, B::Refusal>
        ensures text { IfOk result (λ string. string.text ≡ map code_of chars.now) }
        ensures succeeds { length chars.now ≤ B.sure → IsOk result }
    {
        let mut string = Text::with_capacity(alloc, chars.len())?;
        for ch in chars {
            string.push(*ch)?;
        }
        Ok(string)
    }
}

impl<B: Buffer> Text<B> {
    /// Copies the characters of the string into a `Vec`, in order. If the allocation fails, returns
    /// the string as the error.
    ///
    ///     AsciiStr::literal("ab").to_ascii_string(alloc)?.into_chars(alloc) // Ok(['a', 'b'])
    ///     AsciiString::new(alloc).into_chars(alloc) // Ok([])
    pub fn into_chars<A: Allocator>(self, alloc: A) -> Result<Vec<AsciiChar, A>, Text<B>>
        ensures ok { IfOk result (λ chars. map code_of chars.items ≡ self.text) }
        ensures err { IfErr result (λ string. string ≡ self) }
    {
        self.as_ascii_str().to_chars(alloc).map_err(|_| self)
    }
}
