//! Owned ASCII text: making a string, reading it, and its edits.
//!
//! An edit that may allocate returns a `Result`. If its allocation fails, the text is unchanged. It never fails if the
//! new text fits the capacity, so a caller that reserves first knows that the edits after it succeed:
//!
//!     let mut line = AsciiString::with_capacity(alloc, 3)?;
//!     line.push(AsciiChar::a) // Ok(())
//!     line.push_str(AsciiStr::literal("bc")) // Ok(())
//!     line // "abc"
//!
//! A contract sees a string as `string.text`, a list of codes, and `string.capacity`.
//!
//! A string is a `Text` over the buffer that its bytes are kept in. All of them have the calls of `Text`; up to the
//! sure length no edit fails:
//!
//! | String | Buffer | Sure length, `B.sure` | Largest, `B.most` | Error of an edit, `B::Refusal` |
//! |---|---|---|---|---|
//! | `AsciiString<A>` | `Vec<u8, A>` | 0 | `usize::MAX` | `AllocError` |
//! | `SmallAsciiString` of `ascii_run` | the value itself, then a `SmallVec` | 24 | `usize::MAX` | `AllocError` |
//! | `ArrayAsciiString<N>` of `ascii_run` | the value itself | `N` | `N` | `Full` |
//!
//! Made by `bin/docs tables`: the other calls of `Text` are in `copies` (`from_char`, `from_chars`,
//! `into_chars`); `retain` (`retain`); `range_edits` (`replace_range`); `collect` (`extend_chars`,
//! `extend_strs`, `collect_chars`, `collect_strs`, `collect_joined`); `json` (`to_json`).
//!
//! The traits of std are in `conversions`, those of serde in `serde_impls`. Only `AsciiString` has
//! `from_ascii_unchecked` here, the conversion to boxed text in `boxed`, and `From` of it for a `Vec` and a `String`,
//! since these keep its `Vec`, and in `boxed` the conversion to shared text, which copies it; the modules `vec` and
//! `string` make it from a `Vec` or a `String`.

ghost use Rattle.std.specs.Prelude.{◌≡◌, ◌+◌, ◌-◌, ◌<◌, ◌≤◌, ◌↔◌, ◌++◌, ◌∷◌, [], IfErr, IfOk, IsOk};
ghost use Rattle.std.specs.Prelude.{IsTrue, MatchResult, OnErr, OnOk, drop, insert, length, map, remove, slice_get};
ghost use Rattle.std.specs.Prelude.{slice_index, slice_set, take, vec_capacity};
ghost use Rattle.std.specs.Option.{option_map};
ghost use Rattle.ascii_base.specs.Case.{lower_image, upper_image};
ghost use Rattle.ascii_base.specs.Code.{code_of, code_text};
ghost use Rattle.ascii.specs.StringState.{EditsInPlace, GrowsTo, Reserves, Writes, insert_text};
ghost use Rattle.ascii.specs.View.{text_of};

use crate::ascii_str::AsciiStr;
use crate::buffer::{Buffer, CloneBuffer, InlineBuffer, NewBuffer};
use crate::text;
use ascii_base::ascii_char::{AsciiChar, ToAsciiChar};
use ascii_base::kernels;
use std::alloc::{AllocError, Allocator, Global};
use std::cmp::Ordering;
use std::fmt;
use std::hash::{Hash, Hasher};
use std::marker::Model;

/// Owned ASCII text over a buffer that its bytes are kept in.
///
/// `==`, the order and the hash are those of the text; the capacity does not count.
#[derive(Drop)]
pub struct Text<B: Buffer> {
    pub(crate) bytes: B,
}

/// Owned ASCII text that can grow: a `String` that can hold nothing else. It keeps the allocator
/// that it was made with.
pub type AsciiString<A = Global> = Text<Vec<u8, A>>;

impl<B: Buffer> Model for Text<B> {
    ghost use Rattle.std.specs.Str.{IsAscii};
    ghost use Rattle.ascii.specs.StringState.{StringState};

    ghost Value = { StringState };

    ghost view = { λ s. B.state s.bytes };

    ghost invariant = { λ s. IsAscii (B.state s.bytes).text };
}

impl<B: NewBuffer> Text<B> {
    ghost use Rattle.std.specs.Str.{IsAscii};

    /// Creates an empty string. Does not allocate.
    ///
    /// To make room at once, use `with_capacity`; for a copy of a view, `to_ascii_string`.
    ///
    ///     AsciiString::new(alloc).len() // 0
    ///     AsciiString::new(alloc).capacity() // 0
    #[inline]
    pub fn new(alloc: B::Alloc) -> Text<B>
        ensures text { result.text ≡ [] }
        ensures capacity { result.capacity ≡ B.sure }
    {
        Text {
            bytes: B::empty(alloc),
        }
    }

    /// Creates an empty string with room for at least `capacity` bytes. Fails only if the
    /// allocation fails.
    ///
    ///     AsciiString::with_capacity(alloc, 10)?.capacity() >= 10 // true
    ///     AsciiString::with_capacity(alloc, usize::MAX) // Err(AllocError)
    pub fn with_capacity(alloc: B::Alloc, capacity: usize) -> Result<Text<B>, B::Refusal>
        ensures text { IfOk result (λ string. string.text ≡ []) }
        ensures capacity { IfOk result (λ string. capacity ≤ string.capacity) }
        ensures exact { capacity ≤ B.sure → IfOk result (λ string. string.capacity ≡ B.sure) }
        ensures succeeds { capacity ≤ B.sure → IsOk result }
    {
        Ok(Text {
            bytes: B::with_room(alloc, capacity)?,
        })
    }

    /// Returns a copy of a view. Fails only if the allocation fails, and never for a view that fits
    /// the sure length.
    ///
    /// Allocates at most once, for the length of the view.
    ///
    ///     AsciiString::from_ascii_str(alloc, AsciiStr::literal("foo"))? // "foo"
    ///     AsciiString::from_ascii_str(alloc, AsciiStr::literal(""))?.capacity() // 0
    pub fn from_ascii_str(alloc: B::Alloc, view: AsciiStr<'_>) -> Result<Text<B>, B::Refusal>
        ensures text { IfOk result (λ string. string.text ≡ text_of view.entry) }
        ensures room { IfOk result (λ string. length string.text ≤ string.capacity) }
        ensures inline { length (text_of view.entry) ≤ B.sure
            → IfOk result (λ string. string.capacity ≡ B.sure) }
        ensures succeeds { length (text_of view.entry) ≤ B.sure → IsOk result }
    {
        Ok(Text {
            bytes: B::with_copy(alloc, view.as_bytes())?,
        })
    }
}

impl<B: Buffer> Text<B> {
    ghost use Rattle.std.specs.Str.{IsAscii};

    /// Returns a view of the whole text.
    ///
    ///     AsciiStr::literal("foo").to_ascii_string(alloc)?.as_ascii_str() // "foo"
    ///     AsciiString::new(alloc).as_ascii_str() // ""
    #[inline]
    pub fn as_ascii_str(&self) -> AsciiStr<'_>
        ensures { text_of result ≡ self.now.text }
    {
        AsciiStr {
            bytes: self.bytes.bytes(),
        }
    }

    /// Returns the number of bytes up to which the text does not have to grow: at least its length.
    ///
    ///     AsciiString::new(alloc).capacity() // 0
    ///     AsciiStr::literal("foo").to_ascii_string(alloc)?.capacity() >= 3 // true
    #[inline]
    pub fn capacity(&self) -> usize
        ensures capacity { result ≡ self.now.capacity }
        ensures room { length self.now.text ≤ result }
        ensures sure { B.sure ≤ result }
        ensures most { result ≤ B.most }
    {
        self.bytes.room()
    }

    /// Returns `true` if the text is in the value itself, or nothing is allocated. A text that has
    /// grown into an allocation remains there.
    ///
    ///     AsciiString::new(alloc).is_inline() // true
    ///     AsciiStr::literal("foo").to_ascii_string(alloc)?.is_inline() // false
    #[inline]
    pub fn is_inline(&self) -> bool
        ensures { IsTrue result ↔ (self.now.capacity ≡ B.sure) }
    {
        self.bytes.is_inline()
    }

    /// Makes room for at least `additional` more bytes. Fails only if there is not enough room and
    /// the allocation fails. The text is unchanged.
    ///
    /// Condition: the length and `additional` together are at most `usize::MAX`.
    ///
    /// May make more room than that, so that repeated calls do not allocate each time.
    ///
    ///     let mut text = AsciiStr::literal("foo").to_ascii_string(alloc)?;
    ///     text.reserve(10) // Ok(())
    ///     text.capacity() >= 13 // true
    pub fn reserve(&mut self, additional: usize) -> Result<(), B::Refusal>
        requires { length self.old.text + additional ≤ usize.MAX }
        ensures { Reserves B.sure additional self.old self.new result }
    {
        self.bytes.reserve(additional)
    }

    /// Makes room for `additional` more bytes, and asks for no more than that. Fails only if there
    /// is not enough room and the allocation fails. The text is unchanged.
    ///
    /// Condition: the length and `additional` together are at most `usize::MAX`.
    ///
    ///     let mut text = AsciiStr::literal("foo").to_ascii_string(alloc)?;
    ///     text.reserve_exact(10) // Ok(())
    ///     text.capacity() >= 13 // true
    pub fn reserve_exact(&mut self, additional: usize) -> Result<(), B::Refusal>
        requires { length self.old.text + additional ≤ usize.MAX }
        ensures { Reserves B.sure additional self.old self.new result }
    {
        self.bytes.reserve_exact(additional)
    }

    /// Gives back the room that the text does not need, or returns an error if the allocation fails
    /// and such room is left. The text is unchanged, and the capacity does not grow.
    ///
    ///     let mut text = AsciiString::with_capacity(alloc, 10)?;
    ///     text.shrink_to_fit() // Ok(())
    ///     text.capacity() // 0
    pub fn shrink_to_fit(&mut self) -> Result<(), B::Refusal>
        ensures text { self.new.text ≡ self.old.text }
        ensures ok { OnOk result (B.shrinks self.old self.new) }
        ensures err { OnErr result (length self.new.text < self.new.capacity) }
        ensures unsure { OnErr result (B.sure ≡ 0) }
        ensures capacity { self.new.capacity ≤ self.old.capacity }
        ensures room { length self.new.text ≤ self.new.capacity }
    {
        self.bytes.shrink()
    }

    /// Appends `ch`. Fails only if the string has to grow and the allocation fails; the text is
    /// then unchanged.
    ///
    /// Amortized constant time.
    ///
    /// To append a view use `push_str`; to append the characters of an iterator, `extend_chars`.
    ///
    ///     let mut text = AsciiStr::literal("fo").to_ascii_string(alloc)?;
    ///     text.push(AsciiChar::o) // Ok(())
    ///     text // "foo"
    #[inline]
    pub fn push(&mut self, ch: AsciiChar) -> Result<(), B::Refusal>
        ensures { GrowsTo B.sure (self.old.text ++ code_text ch) self.old self.new result }
    {
        self.bytes.append_byte(ch.as_byte())
    }

    /// Appends a view. Fails only if the string has to grow and the allocation fails; the text is
    /// then unchanged. Never fails for the empty view.
    ///
    /// To append one character use `push`; to append at another position, `insert_str`.
    ///
    ///     let mut text = AsciiStr::literal("foo").to_ascii_string(alloc)?;
    ///     text.push_str(AsciiStr::literal("bar")) // Ok(())
    ///     text // "foobar"
    ///     text.push_str(AsciiStr::literal("")) // Ok(())
    #[inline]
    pub fn push_str(&mut self, view: AsciiStr<'_>) -> Result<(), B::Refusal>
        ensures { GrowsTo B.sure (self.old.text ++ text_of view.entry) self.old self.new result }
    {
        self.bytes.append(view.as_bytes())
    }

    /// Inserts `ch` before position `idx`, or appends it if `idx` is the length. Fails only if the
    /// string has to grow and the allocation fails; the text is then unchanged.
    ///
    /// Condition: `idx` is at most the length.
    ///
    /// Moves the bytes from `idx` on.
    ///
    ///     let mut text = AsciiStr::literal("fo").to_ascii_string(alloc)?;
    ///     text.insert(0, AsciiChar::z) // Ok(())
    ///     text // "zfo"
    ///     let mut end = AsciiStr::literal("fo").to_ascii_string(alloc)?;
    ///     end.insert(2, AsciiChar::o) // Ok(())
    ///     end // "foo"
    pub fn insert(&mut self, idx: usize, ch: AsciiChar) -> Result<(), B::Refusal>
        requires { idx ≤ length self.old.text }
        ensures { GrowsTo B.sure (insert self.old.text idx (code_of ch)) self.old self.new result }
    {
        self.bytes.insert_byte(idx, ch.as_byte())
    }

    /// Inserts a view before position `idx`, or appends it if `idx` is the length. Fails only if
    /// the string has to grow and the allocation fails; the text is then unchanged. Never fails for
    /// the empty view.
    ///
    /// Condition: `idx` is at most the length.
    ///
    /// Moves the bytes from `idx` on.
    ///
    ///     let mut text = AsciiStr::literal("fo").to_ascii_string(alloc)?;
    ///     text.insert_str(1, AsciiStr::literal("lo")) // Ok(())
    ///     text // "floo"
    ///     let mut end = AsciiStr::literal("fo").to_ascii_string(alloc)?;
    ///     end.insert_str(2, AsciiStr::literal("rd")) // Ok(())
    ///     end // "ford"
    pub fn insert_str(&mut self, idx: usize, view: AsciiStr<'_>) -> Result<(), B::Refusal>
        requires { idx ≤ length self.old.text }
        ensures { GrowsTo B.sure (insert_text self.old.text idx (text_of view.entry))
            self.old self.new result }
    {
        insert_bytes(&mut self.bytes, idx, view.as_bytes())?;
        Ok(())
    }

    /// Removes the character at position `idx`, counted from 0, and returns it. Does not allocate.
    ///
    /// Condition: `idx` is less than the length.
    ///
    /// Moves the bytes after `idx`.
    ///
    /// To remove the last character use `pop`; to remove all that a test rejects, `retain`.
    ///
    ///     let mut text = AsciiStr::literal("foo").to_ascii_string(alloc)?;
    ///     text.remove(0) // 'f'
    ///     text // "oo"
    pub fn remove(&mut self, idx: usize) -> AsciiChar
        requires { idx < length self.old.text }
        ensures removed { code_of result ≡ slice_index self.old.text idx }
        ensures edits { EditsInPlace (remove self.old.text idx) self.old self.new }
    {
        AsciiChar::from_ascii_unchecked(self.bytes.remove_byte(idx))
    }

    /// Removes the last character and returns it, or returns `None` if the text is empty. Does not
    /// allocate.
    ///
    ///     let mut text = AsciiStr::literal("fo").to_ascii_string(alloc)?;
    ///     text.pop() // Some('o')
    ///     text // "f"
    ///     text.pop() // Some('f')
    ///     text.pop() // None
    #[inline]
    pub fn pop(&mut self) -> Option<AsciiChar>
        ensures popped { let text = self.old.text in
            option_map code_of result ≡ slice_get text (length text - 1) }
        ensures edits { let text = self.old.text in
            EditsInPlace (take (length text - 1) text) self.old self.new }
    {
        let byte = self.bytes.pop_byte()?;
        Some(AsciiChar::from_ascii_unchecked(byte))
    }

    /// Keeps the first `n` characters, or all if there are fewer. Does not allocate, and keeps the
    /// capacity.
    ///
    ///     let mut text = AsciiStr::literal("foo").to_ascii_string(alloc)?;
    ///     text.truncate(2);
    ///     text // "fo"
    ///     text.truncate(7);
    ///     text // "fo"
    #[inline]
    pub fn truncate(&mut self, n: usize)
        ensures { EditsInPlace (take n self.old.text) self.old self.new }
    {
        self.bytes.keep_front(n);
    }

    /// Removes all characters. Does not allocate, and keeps the capacity.
    ///
    ///     let mut text = AsciiStr::literal("foo").to_ascii_string(alloc)?;
    ///     text.clear();
    ///     text // ""
    ///     text.capacity() >= 3 // true
    #[inline]
    pub fn clear(&mut self)
        ensures { EditsInPlace [] self.old self.new }
    {
        self.bytes.keep_front(0);
    }

    /// Sets the character at position `i`, counted from 0, to `ch`. Does not allocate.
    ///
    /// Condition: `i` is less than the length.
    ///
    ///     let mut text = AsciiStr::literal("foo").to_ascii_string(alloc)?;
    ///     text.set(0, AsciiChar::z);
    ///     text // "zoo"
    ///     text.set(2, AsciiChar::A);
    ///     text // "zoA"
    #[inline]
    pub fn set(&mut self, i: usize, ch: AsciiChar)
        requires { i < length self.old.text }
        ensures { EditsInPlace (slice_set self.old.text i (code_of ch)) self.old self.new }
    {
        self.bytes.bytes_mut()[i] = ch.as_byte();
    }

    /// Changes each letter `a` to `z` to `A` to `Z`. Every other character is unchanged.
    ///
    ///     let mut text = AsciiStr::literal("aZ{9").to_ascii_string(alloc)?;
    ///     text.make_ascii_uppercase();
    ///     text // "AZ{9"
    pub fn make_ascii_uppercase(&mut self)
        ensures { EditsInPlace (map upper_image self.old.text) self.old self.new }
    {
        kernels::upper_in_place(self.bytes.bytes_mut());
    }

    /// Changes each letter `A` to `Z` to `a` to `z`. Every other character is unchanged.
    ///
    ///     let mut text = AsciiStr::literal("Az[9").to_ascii_string(alloc)?;
    ///     text.make_ascii_lowercase();
    ///     text // "az[9"
    pub fn make_ascii_lowercase(&mut self)
        ensures { EditsInPlace (map lower_image self.old.text) self.old self.new }
    {
        kernels::lower_in_place(self.bytes.bytes_mut());
    }

    /// Returns the number of characters, which is also the number of bytes.
    ///
    ///     AsciiStr::literal("foo").to_ascii_string(alloc)?.len() // 3
    ///     AsciiString::with_capacity(alloc, 10)?.len() // 0
    #[inline]
    pub fn len(&self) -> usize
        ensures { result ≡ length self.now.text }
    {
        self.bytes.bytes().len()
    }

    /// Returns `true` if the text is empty.
    ///
    ///     AsciiStr::literal("foo").to_ascii_string(alloc)?.is_empty() // false
    ///     AsciiString::new(alloc).is_empty() // true
    #[inline]
    pub fn is_empty(&self) -> bool
        ensures { IsTrue result ↔ (self.now.text ≡ []) }
    {
        self.bytes.bytes().is_empty()
    }
}

/// Inserts bytes before position `idx`. If the allocation fails, the bytes are unchanged.
pub(crate) fn insert_bytes<B: Buffer>(
    bytes: &mut B,
    idx: usize,
    piece: &[u8],
) -> Result<(), B::Refusal>
    requires { idx ≤ length (B.state bytes.old).text }
    ensures { let old = B.state bytes.old in
        GrowsTo B.sure (insert_text old.text idx piece.now) old (B.state bytes.new) result }
{
    bytes.append(piece)?;
    bytes.bytes_mut()[idx..].rotate_right(piece.len());
    Ok(())
}

impl<A: Allocator> Text<Vec<u8, A>> {
    ghost use Rattle.std.specs.Str.{IsAscii};

    /// Converts the bytes into a string, keeping their buffer. Nothing is checked.
    ///
    /// Condition: every byte is ASCII.
    ///
    ///     AsciiString::from_ascii_unchecked(Vec::from_slice(alloc, b"foo")?) // "foo"
    ///     AsciiString::from_ascii_unchecked(Vec::from_slice(alloc, b"\x7f")?) // "\u{7f}"
    #[inline]
    pub fn from_ascii_unchecked(bytes: Vec<u8, A>) -> AsciiString<A>
        requires { IsAscii bytes.items }
        ensures text { result.text ≡ bytes.items }
        ensures capacity { result.capacity ≡ vec_capacity bytes }
    {
        Text { bytes }
    }
}

impl<B: CloneBuffer> Text<B> {
    /// Keeps the first `at` characters and returns the others as a string of their own. On error,
    /// the text is unchanged; the capacity is unchanged either way. Never fails if the others fit
    /// the sure length and the allocator can always be cloned.
    ///
    /// Condition: `at` is at most the length.
    ///
    ///     let mut text = AsciiStr::literal("foobar").to_ascii_string(alloc)?;
    ///     text.split_off(3) // Ok("bar")
    ///     text // "foo"
    pub fn split_off(&mut self, at: usize) -> Result<Text<B>, B::Refusal>
        requires { at ≤ length self.old.text }
        ensures tail { IfOk result (λ tail. tail.text ≡ drop at self.old.text) }
        ensures ok { OnOk result (EditsInPlace (take at self.old.text) self.old self.new) }
        ensures err { OnErr result (EditsInPlace self.old.text self.old self.new) }
        ensures succeeds { B.clones → length self.old.text ≤ at + B.sure → IsOk result }
    {
        let bytes = self.bytes.split_off(at)?;
        Ok(Text { bytes })
    }
}

impl<B: InlineBuffer> Text<B> {
    /// Converts the string into an `AsciiString`. A text in an allocation keeps it, and this cannot
    /// fail. An inline text is copied: if the allocation fails, returns the string as the error.
    ///
    ///     SmallAsciiString::from_ascii_str(alloc, AsciiStr::literal("foo"))?.into_ascii_string().ok() // Some("foo")
    ///     let allocated = SmallAsciiString::with_capacity(alloc, 30)?;
    ///     allocated.into_ascii_string().map(|it| it.capacity() >= 30).ok() // Some(true)
    pub fn into_ascii_string(self) -> Result<AsciiString, Text<B>>
        ensures ok { IfOk result (λ string. string.text ≡ self.text) }
        ensures err { IfErr result (λ string. string ≡ self) }
        ensures succeeds { B.sure < self.capacity → IsOk result }
    {
        match self.bytes.into_vec() {
            Ok(bytes) => Ok(AsciiString::from_ascii_unchecked(bytes)),
            Err(bytes) => Err(Text { bytes }),
        }
    }
}

impl<B: CloneBuffer> Clone for Text<B> {
    ghost is_clone = { λ string copy. copy.text ≡ string.text };

    ghost is_infallible = { λ string. B.copies string };

    /// Returns a copy of the string, with a copy of its allocator. Fails only if the allocation
    /// fails; never for a `SmallAsciiString` of at most 24 characters, or an `ArrayAsciiString`.
    ///
    ///     AsciiStr::literal("foo").to_ascii_string(alloc)?.clone()? // "foo"
    ///     AsciiString::new(alloc).clone()? // ""
    fn clone(&self) -> Result<Text<B>, AllocError>
        ensures cases { MatchResult result (λ copy. copy.text ≡ self.now.text)
            (λ _. ¬ (B.copies self.now)) }
        ensures inline { B.copies self.now → IfOk result (λ copy. copy.capacity ≡ B.sure) }
    {
        Ok(Text {
            bytes: self.bytes.copy()?,
        })
    }
}

impl<B: Buffer> PartialEq for Text<B> {
    ghost use Rattle.std.specs.Prelude.{◌==◌};
    ghost use Rattle.std.specs.Ordering.{on};
    ghost use Rattle.std.specs.Cmp.Lexicographic.{pointwise};
    ghost use Rattle.std.specs.Cmp.Rules.{comparing};
    ghost use Rattle.std.proofs.Common.{rules};

    ghost eq = { on (λ string. string.text) (pointwise ◌==◌) };

    ghost laws = { Prim.search (comparing, rules) };

    /// Returns `true` if the two texts are equal.
    ///
    ///     AsciiString::with_capacity(alloc, 10)? == AsciiString::new(alloc) // true
    ///     AsciiString::from_char(alloc, AsciiChar::a)? == AsciiString::new(alloc) // false
    fn eq(&self, other: &Text<B>) -> bool {
        self.as_ascii_str() == other.as_ascii_str()
    }
}

impl<B: Buffer> Eq for Text<B> {
    ghost use Rattle.std.specs.Cmp.Rules.{comparing};
    ghost use Rattle.std.proofs.Common.{rules};

    ghost laws = { Prim.search (comparing, rules) };
}

impl<B: Buffer> PartialOrd for Text<B> {
    ghost use Rattle.std.specs.Ordering.{as_partial_cmp, nat_cmp, on};
    ghost use Rattle.std.specs.Cmp.Lexicographic.{slice_cmp};
    ghost use Rattle.std.specs.Cmp.{partial_order_from_own_ties};
    ghost use Rattle.std.specs.Cmp.Rules.{comparing};
    ghost use Rattle.std.proofs.Common.{rules};

    ghost partial_cmp = { as_partial_cmp (on (λ string. string.text) (slice_cmp nat_cmp)) };

    ghost laws = { partial_order_from_own_ties
        (Prim.search (comparing, rules)) (Prim.search (comparing, rules)) };

    /// Returns the order of the two texts: that of `cmp`.
    ///
    ///     let text = AsciiStr::literal("foo").to_ascii_string(alloc)?;
    ///     text < AsciiStr::literal("fop").to_ascii_string(alloc)? // true
    ///     text < AsciiStr::literal("Fop").to_ascii_string(alloc)? // false
    fn partial_cmp(&self, other: &Text<B>) -> Option<Ordering> {
        Some(self.cmp(other))
    }
}

impl<B: Buffer> Ord for Text<B> {
    ghost use Rattle.std.specs.Ordering.{nat_cmp, on};
    ghost use Rattle.std.specs.Cmp.Lexicographic.{slice_cmp};
    ghost use Rattle.std.specs.Cmp.Rules.{comparing};
    ghost use Rattle.std.proofs.Common.{rules};

    ghost cmp = { on (λ string. string.text) (slice_cmp nat_cmp) };

    ghost total = { Prim.search (comparing, rules) };

    ghost matches_partial_cmp = { Prim.search (comparing, rules) };

    ghost matches_eq = { Prim.search (comparing, rules) };

    /// Returns the order of the two texts: lexicographic, by the codes.
    ///
    ///     AsciiStr::literal("foo").to_ascii_string(alloc)?.cmp(&AsciiStr::literal("fo").to_ascii_string(alloc)?) // Greater
    ///     AsciiString::new(alloc).cmp(&AsciiString::with_capacity(alloc, 10)?) // Equal
    fn cmp(&self, other: &Text<B>) -> Ordering {
        self.as_ascii_str().cmp(&other.as_ascii_str())
    }
}

impl<B: Buffer> Hash for Text<B> {
    ghost use Rattle.std.specs.Hash as fed;
    ghost use Rattle.std.specs.Cmp.Rules.{hashing};
    ghost use Rattle.std.proofs.Common.{rules};

    ghost hash_input = { λ string. fed.slice fed.u8 string.text };

    ghost respects_eq = { Prim.search (hashing, rules) };

    /// Hashes the text as a view of it is hashed.
    ///
    ///     let mut seen = HashSet::new(alloc);
    ///     seen.insert(AsciiString::new(alloc))? // true
    ///     seen.insert(AsciiString::with_capacity(alloc, 10)?)? // false
    fn hash<H: Hasher>(&self, state: &mut H) {
        self.as_ascii_str().hash(state);
    }
}

impl<B: Buffer> fmt::Display for Text<B> {
    ghost use Rattle.std.specs.Prelude.{Some};
    ghost use Rattle.std.specs.Fmt.{styled_text};

    ghost output = { λ string. Some string.text };

    ghost styled_output = { λ string spec. Some (styled_text spec string.text) };

    /// Writes the text, with the width, the alignment and the precision of the format, as for
    /// `str`.
    ///
    ///     format!(in alloc; "{}", AsciiStr::literal("foo").to_ascii_string(alloc)?)? // "foo"
    ///     format!(in alloc; "{:->3}", AsciiString::new(alloc))? // "---"
    fn fmt<W: fmt::Write>(&self, f: &mut fmt::Formatter<W>) -> fmt::Result {
        fmt::Display::fmt(&self.as_ascii_str(), f)
    }
}

impl<B: Buffer> fmt::Debug for Text<B> {
    ghost use Rattle.std.specs.Prelude.{Some};
    ghost use Rattle.ascii.specs.View.{debug_text};

    ghost debug_output = { λ string. Some (debug_text string.text) };

    /// Writes the text in double quotes, escaped as std escapes it.
    ///
    ///     format!(in alloc; "{:?}", AsciiStr::literal("foo").to_ascii_string(alloc)?)? // "\"foo\""
    ///     format!(in alloc; "{:?}", AsciiStr::literal("\n").to_ascii_string(alloc)?)? // "\"\\n\""
    fn fmt<W: fmt::Write>(&self, f: &mut fmt::Formatter<W>) -> fmt::Result {
        fmt::Debug::fmt(&self.as_ascii_str(), f)
    }
}

impl<B: Buffer> Text<B> {
    ghost use Rattle.std.specs.Str.{IsAscii};

    /// Appends a character. Fails if it is not ASCII, or if the string has to grow and the
    /// allocation fails; the text is then unchanged.
    ///
    ///     let mut text = AsciiStr::literal("foo").to_ascii_string(alloc)?;
    ///     text.write_char('d') // Ok(())
    ///     text.write_char('č') // Err(Error)
    ///     text // "food"
    pub fn write_char(&mut self, ch: char) -> fmt::Result
        ensures { Writes B.sure (ch ∷ []) self.old self.new result }
    {
        // Tells the prover that the text fits the capacity.
        let _capacity = self.capacity();
        let Ok(ch) = ch.to_ascii_char() else {
            return Err(fmt::Error);
        };
        self.push(ch).map_err(|_| fmt::Error)
    }
}

impl<B: Buffer> fmt::Write for Text<B> {
    ghost use Rattle.std.specs.Str.{IsAscii};

    ghost write_str_gives = { λ old bytes new. new.text ≡ old.text ++ bytes };

    /// Appends a text. Fails if it has a character that is not ASCII, or if the string has to grow
    /// and the allocation fails; the text is then unchanged, and no part of the other one was
    /// appended.
    ///
    ///     let mut text = AsciiStr::literal("foo").to_ascii_string(alloc)?;
    ///     write!(text, "{}", 7) // Ok(())
    ///     text // "foo7"
    fn write_str(&mut self, s: &str) -> fmt::Result
        ensures ok { IsOk result → self.new.text ≡ self.old.text ++ s.now }
        ensures writes { Writes B.sure s.now self.old self.new result }
    {
        // Tells the prover that the text fits the capacity.
        let _capacity = self.capacity();
        let Ok(view) = text::as_ascii_str(s) else {
            return Err(fmt::Error);
        };
        self.push_str(view).map_err(|_| fmt::Error)
    }
}

impl<A: Allocator> From<AsciiString<A>> for Vec<u8, A> {
    ghost from_gives = { λ string bytes.
        (bytes.items ≡ string.text) × (vec_capacity bytes ≡ string.capacity) };

    /// Converts the string into its bytes, keeping the buffer. Cannot fail.
    ///
    ///     Vec::from(AsciiStr::literal("foo").to_ascii_string(alloc)?) // [102, 111, 111]
    ///     Vec::from(AsciiString::with_capacity(alloc, 10)?).capacity() >= 10 // true
    fn from(string: AsciiString<A>) -> Vec<u8, A> {
        string.bytes
    }
}

impl<A: Allocator> From<AsciiString<A>> for String<A> {
    ghost use Rattle.std.specs.String.{string_bytes, string_capacity};

    ghost from_gives = { λ string text.
        (string_bytes text ≡ string.text) × (string_capacity text ≡ string.capacity) };

    /// Converts the string into a `String`, keeping the buffer. Cannot fail.
    ///
    ///     String::from(AsciiStr::literal("foo").to_ascii_string(alloc)?) // "foo"
    ///     String::from(AsciiString::with_capacity(alloc, 10)?).capacity() >= 10 // true
    fn from(string: AsciiString<A>) -> String<A> {
        unsafe { String::from_utf8_unchecked(string.bytes) }
    }
}
