//! Owned text out of iterators.

ghost use Rattle.std.specs.Prelude.{◌≡◌, ◌+◌, ◌<◌, ◌≤◌, [], ◌∷◌, IfErr, IfOk, List, length, take};
ghost use Rattle.std.specs.Iterator.{Drains, IsFinite, IsNearerEnd};
ghost use Rattle.std.specs.List.{flat_map, join_by};
ghost use Rattle.std.specs.Str.{IsAscii};
ghost use Rattle.ascii_base.specs.Code.{code_of, code_text};
ghost use Rattle.ascii_base.specs.declared.ascii_char.AsciiChar.{AsciiChar as Char};
ghost use Rattle.ascii.specs.declared.ascii_str.AsciiStr.{AsciiStr as View};
ghost use Rattle.ascii.specs.Extend.{Collects, CollectsJoined, Extends, Fills, TakesFront};
ghost use Rattle.ascii.specs.Extend.{YieldsPast};
ghost use Rattle.ascii.specs.View.{text_of};

use crate::ascii_str::AsciiStr;
use crate::ascii_string::Text;
use crate::buffer::{Buffer, NewBuffer};
use crate::bytes;
use ascii_base::ascii_char::AsciiChar;
use std::alloc::AllocError;

/// The number of characters of an iterator that are gathered before they are appended at once, because a push tests for
/// room at each of them.
const GATHERED: usize = 64;

/// Fills a slice from its start with the codes of the characters that an iterator yields, and
/// returns their number: less than the length only if the iterator has ended.
#[inline(always)]
fn gather<I: Iterator<Item = AsciiChar>>(iter: &mut I, codes: &mut [u8]) -> usize
    requires can { I.can_next iter.old }
    requires ends { IsFinite (I.remaining iter.old) }
    ensures fills { Fills I.next_gives code_of iter.old iter.new codes.new result }
    ensures ascii { IsAscii (take result codes.new) }
    ensures nearer { 0 < result → result ≡ length codes.new
        → IsNearerEnd I.can_next I.remaining iter.old iter.new }
{
    for at in 0..codes.len() {
        match iter.next() {
            Some(ch) => codes[at] = ch.as_byte(),
            None => return at,
        }
    }
    codes.len()
}

impl<B: Buffer> Text<B> {
    /// Appends the characters of an iterator. Fails only if the string has to grow and the
    /// allocation fails; the characters before the first that did not fit have then been appended.
    /// Never fails if all of them fit the capacity.
    ///
    /// Condition: the iterator can be called, and it ends.
    ///
    /// The string grows as the characters come; the size hint is not used.
    ///
    ///     let mut text = AsciiStr::literal("foo").to_ascii_string(alloc)?;
    ///     text.extend_chars(AsciiStr::literal("bar").chars()) // Ok(())
    ///     text // "foobar"
    pub fn extend_chars<I: Iterator<Item = AsciiChar> + Drop>(
        &mut self,
        iter: I,
    ) -> Result<(), B::Refusal>
        requires can { I.can_next iter }
        requires ends { IsFinite (I.remaining iter) }
        ensures extends { Extends B.sure I.next_gives code_text iter self.old self.new result }
        ensures capacity { self.old.capacity ≤ self.new.capacity }
    {
        let mut iter = iter;
        let mut codes = [0; GATHERED];
        loop {
            let count = gather(&mut iter, &mut codes);
            self.push_gathered(&codes[..count])?;
            if count < GATHERED {
                return Ok(());
            }
        }
    }

    /// Appends ASCII codes at once. If the allocation for all of them fails, appends them one by one
    /// up to the first that does not fit.
    fn push_gathered(&mut self, codes: &[u8]) -> Result<(), B::Refusal>
        requires { IsAscii codes.now }
        ensures { TakesFront B.sure codes.now self.old self.new result }
    {
        if self.push_str(bytes::as_ascii_str_unchecked(codes)).is_ok() {
            return Ok(());
        }
        for at in 0..codes.len() {
            self.push(AsciiChar::from_ascii_unchecked(codes[at]))?;
        }
        Ok(())
    }

    /// Appends the views of an iterator, one by one. Fails only if the string has to grow and the
    /// allocation fails; the views before the first that did not fit have then been appended, and
    /// no part of that one. Never fails if all of them fit the capacity.
    ///
    /// Condition: the iterator can be called, and it ends.
    ///
    /// The string grows as the views come; the size hint is not used.
    ///
    ///     let mut text = AsciiStr::literal("a").to_ascii_string(alloc)?;
    ///     text.extend_strs(AsciiStr::literal("b,c").split(AsciiChar::Comma)) // Ok(())
    ///     text // "abc"
    pub fn extend_strs<'a, I: Iterator<Item = AsciiStr<'a>> + Drop>(
        &mut self,
        iter: I,
    ) -> Result<(), B::Refusal>
        requires can { I.can_next iter }
        requires ends { IsFinite (I.remaining iter) }
        ensures extends { Extends B.sure I.next_gives text_of iter self.old self.new result }
        ensures capacity { self.old.capacity ≤ self.new.capacity }
    {
        for view in iter {
            self.push_str(view)?;
        }
        Ok(())
    }
}

impl<B: NewBuffer> Text<B> {
    /// Returns a string of the characters of an iterator, in order. Fails only if an allocation
    /// fails, and never if they fit the sure length.
    ///
    /// Condition: the iterator can be called, and it ends.
    ///
    /// The string grows as the characters come.
    ///
    ///     AsciiString::collect_chars(alloc, AsciiStr::literal("foo").chars().rev())? // "oof"
    ///     AsciiString::collect_chars(alloc, AsciiStr::literal("").chars())? // ""
    pub fn collect_chars<I: Iterator<Item = AsciiChar> + Drop>(
        alloc: B::Alloc,
        iter: I,
    ) -> Result<Text<B>, B::Refusal>
        requires can { I.can_next iter }
        requires ends { IsFinite (I.remaining iter) }
        ensures text { IfOk result (λ string. Collects I.next_gives code_text iter string.text) }
        ensures full { IfErr result (λ _.
            YieldsPast B.sure I.next_gives (flat_map code_text) iter) }
    {
        let mut string = Text::new(alloc);
        string.extend_chars(iter)?;
        Ok(string)
    }

    /// Returns a string of the views of an iterator, one after the other. Fails only if an
    /// allocation fails, and never if they fit the sure length.
    ///
    /// Condition: the iterator can be called, and it ends.
    ///
    /// The string grows as the views come.
    ///
    ///     AsciiString::collect_strs(alloc, AsciiStr::literal("b,c").split(AsciiChar::Comma))? // "bc"
    ///     AsciiString::collect_strs(alloc, AsciiStr::literal(",").split(AsciiChar::Comma))? // ""
    pub fn collect_strs<'a, I: Iterator<Item = AsciiStr<'a>> + Drop>(
        alloc: B::Alloc,
        iter: I,
    ) -> Result<Text<B>, B::Refusal>
        requires can { I.can_next iter }
        requires ends { IsFinite (I.remaining iter) }
        ensures text { IfOk result (λ string. Collects I.next_gives text_of iter string.text) }
        ensures full { IfErr result (λ _. YieldsPast B.sure I.next_gives (flat_map text_of) iter) }
    {
        let mut string = Text::new(alloc);
        string.extend_strs(iter)?;
        Ok(string)
    }

    /// Returns a string of the views of an iterator, with `separator` between each two. Fails only if
    /// an allocation fails, and never if the text fits the sure length.
    ///
    /// Condition: the iterator can be called, and it ends.
    ///
    /// The string grows as the views come.
    ///
    /// For no separator use `collect_strs`.
    ///
    ///     AsciiString::collect_joined(alloc, AsciiStr::literal("a b").split_whitespace(), AsciiStr::literal(", "))? // "a, b"
    ///     AsciiString::collect_joined(alloc, AsciiStr::literal("a").split_whitespace(), AsciiStr::literal(", "))? // "a"
    ///     AsciiString::collect_joined(alloc, AsciiStr::literal("").split_whitespace(), AsciiStr::literal(", "))? // ""
    pub fn collect_joined<'a, I: Iterator<Item = AsciiStr<'a>> + Drop>(
        alloc: B::Alloc,
        iter: I,
        separator: AsciiStr<'_>,
    ) -> Result<Text<B>, B::Refusal>
        requires can { I.can_next iter }
        requires ends { IsFinite (I.remaining iter) }
        ensures text { IfOk result (λ string.
            CollectsJoined I.next_gives (text_of separator.entry) iter string.text) }
        ensures full { IfErr result (λ _.
            YieldsPast B.sure I.next_gives (join_by text_of (text_of separator.entry)) iter) }
    {
        let mut iter = iter;
        let mut string = Text::new(alloc);
        let Some(first) = iter.next() else {
            return Ok(string);
        };
        string.push_str(first)?;
        for piece in iter {
            string.push_str(separator)?;
            string.push_str(piece)?;
        }
        Ok(string)
    }
}
