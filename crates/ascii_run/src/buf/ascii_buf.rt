//! The edits of a string, whichever string type holds it.

ghost use Rattle.std.specs.Prelude.{◌≡◌, ℕ, ◌+◌, ◌-◌, ◌<◌, ◌≤◌, [], ◌∷◌, ◌++◌, OnErr, insert};
ghost use Rattle.std.specs.Prelude.{length, map, remove, slice_get, slice_index, slice_set, take};
ghost use Rattle.std.specs.Option.{option_map};
ghost use Rattle.ascii.specs.Case.{lower_image, upper_image};
ghost use Rattle.ascii.specs.Code.{code_of};
ghost use Rattle.ascii.specs.StringState.{EditsInPlace, GrowsTo, StringState, Reserves};
ghost use Rattle.ascii.specs.StringState.{insert_text};
ghost use Rattle.ascii.specs.View.{text_of};

use ascii::{AsciiChar, AsciiStr, Buffer, Text};
use std::alloc::AllocError;

/// A string type whose text can be edited.
pub trait AsciiBuf {
    // The text, and the length up to which it does not have to grow.
    ghost state: { Self → StringState };

    // The sure length: an edit never allocates for a text up to it.
    ghost sure: { ℕ };

    /// Returns a view of the whole text.
    ///
    ///     AsciiBuf::as_ascii_str(&SmallAsciiString::new(alloc)) // ""
    ///     AsciiBuf::as_ascii_str(&AsciiStr::literal("foo").to_ascii_string(alloc)?) // "foo"
    fn as_ascii_str(&self) -> AsciiStr<'_>
        ensures { text_of result ≡ (state self.now).text };

    /// Makes room for `additional` more bytes. The text is unchanged. Fails only if there is no
    /// room for them and the allocation fails; never fails if `additional` is 0.
    ///
    /// Condition: the length and `additional` together are at most `usize::MAX`.
    ///
    ///     let mut text = SmallAsciiString::new(alloc);
    ///     text.reserve(24) // Ok(())
    ///     text.is_inline() // true
    fn reserve(&mut self, additional: usize) -> Result<(), AllocError>
        requires { length (state self.old).text + additional ≤ usize.MAX }
        ensures { Reserves sure additional (state self.old) (state self.new) result };

    /// Gives back the room that the text does not need. The text is unchanged. Fails only if there
    /// is such room and the allocation fails; never fails if the sure length is not 0.
    ///
    ///     let mut text = AsciiStr::literal("foo").to_ascii_string(alloc)?;
    ///     AsciiBuf::shrink_to_fit(&mut text) // Ok(())
    ///     text // "foo"
    fn shrink_to_fit(&mut self) -> Result<(), AllocError>
        ensures text { (state self.new).text ≡ (state self.old).text }
        ensures err { OnErr result (length (state self.new).text < (state self.new).capacity) }
        ensures unsure { OnErr result (sure ≡ 0) }
        ensures capacity { (state self.new).capacity ≤ (state self.old).capacity }
        ensures room { length (state self.new).text ≤ (state self.new).capacity };

    /// Appends a character. Fails only if the longer text does not fit the capacity and the
    /// allocation fails; the text is then unchanged.
    ///
    ///     let mut text = SmallAsciiString::new(alloc);
    ///     text.push(AsciiChar::a) // Ok(())
    ///     text // "a"
    fn push(&mut self, ch: AsciiChar) -> Result<(), AllocError>
        ensures { let old = state self.old in
            GrowsTo sure (old.text ++ code_of ch ∷ []) old (state self.new) result };

    /// Appends a view. Fails only if the longer text does not fit the capacity and the allocation
    /// fails; the text is then unchanged. Never fails if the view is empty.
    ///
    ///     let mut text = SmallAsciiString::new(alloc);
    ///     text.push_str(AsciiStr::literal("foo")) // Ok(())
    ///     text // "foo"
    fn push_str(&mut self, view: AsciiStr<'_>) -> Result<(), AllocError>
        ensures { let old = state self.old in
            GrowsTo sure (old.text ++ text_of view.entry) old (state self.new) result };

    /// Inserts a character before the position `idx`; at the length it is appended. Fails only if
    /// the longer text does not fit the capacity and the allocation fails; the text is then
    /// unchanged.
    ///
    /// Condition: `idx` is at most the length.
    ///
    ///     let mut text = SmallAsciiString::from_ascii_str(alloc, AsciiStr::literal("fo"))?;
    ///     text.insert(0, AsciiChar::z) // Ok(())
    ///     text // "zfo"
    fn insert(&mut self, idx: usize, ch: AsciiChar) -> Result<(), AllocError>
        requires { idx ≤ length (state self.old).text }
        ensures { let old = state self.old in
            GrowsTo sure (insert old.text idx (code_of ch)) old (state self.new) result };

    /// Inserts a view before the position `idx`; at the length it is appended. Fails only if the
    /// longer text does not fit the capacity and the allocation fails; the text is then unchanged.
    /// Never fails if the view is empty.
    ///
    /// Condition: `idx` is at most the length.
    ///
    ///     let mut text = SmallAsciiString::from_ascii_str(alloc, AsciiStr::literal("fo"))?;
    ///     text.insert_str(1, AsciiStr::literal("lo")) // Ok(())
    ///     text // "floo"
    fn insert_str(&mut self, idx: usize, view: AsciiStr<'_>) -> Result<(), AllocError>
        requires { idx ≤ length (state self.old).text }
        ensures { let old = state self.old in
            GrowsTo sure (insert_text old.text idx (text_of view.entry)) old (state self.new)
            result };

    /// Removes the character at the position `idx` and returns it.
    ///
    /// Condition: `idx` is less than the length.
    ///
    ///     let mut text = SmallAsciiString::from_ascii_str(alloc, AsciiStr::literal("foo"))?;
    ///     text.remove(0) // 'f'
    ///     text // "oo"
    fn remove(&mut self, idx: usize) -> AsciiChar
        requires { idx < length (state self.old).text }
        ensures removed { code_of result ≡ slice_index (state self.old).text idx }
        ensures edits { let old = state self.old in
            EditsInPlace (remove old.text idx) old (state self.new) };

    /// Removes the last character and returns it, or returns `None` if the text is empty.
    ///
    ///     let mut text = SmallAsciiString::from_ascii_str(alloc, AsciiStr::literal("fo"))?;
    ///     text.pop() // Some('o')
    ///     text // "f"
    fn pop(&mut self) -> Option<AsciiChar>
        ensures popped { let old = state self.old in
            option_map code_of result ≡ slice_get old.text (length old.text - 1) }
        ensures edits { let old = state self.old in
            EditsInPlace (take (length old.text - 1) old.text) old (state self.new) };

    /// Keeps the first `n` characters, or all if there are fewer.
    ///
    ///     let mut text = SmallAsciiString::from_ascii_str(alloc, AsciiStr::literal("foo"))?;
    ///     text.truncate(7);
    ///     text // "foo"
    ///     text.truncate(2);
    ///     text // "fo"
    fn truncate(&mut self, n: usize)
        ensures { let old = state self.old in
            EditsInPlace (take n old.text) old (state self.new) };

    /// Removes all characters. The capacity is unchanged.
    ///
    ///     let mut text = SmallAsciiString::from_ascii_str(alloc, AsciiStr::literal("foo"))?;
    ///     text.clear();
    ///     text // ""
    ///     text.capacity() // 24
    fn clear(&mut self)
        ensures { EditsInPlace [] (state self.old) (state self.new) };

    /// Replaces the character at the position `i`.
    ///
    /// Condition: `i` is less than the length.
    ///
    ///     let mut text = SmallAsciiString::from_ascii_str(alloc, AsciiStr::literal("foo"))?;
    ///     text.set(2, AsciiChar::x);
    ///     text // "fox"
    ///     text.len() // 3
    fn set(&mut self, i: usize, ch: AsciiChar)
        requires { i < length (state self.old).text }
        ensures { let old = state self.old in
            EditsInPlace (slice_set old.text i (code_of ch)) old (state self.new) };

    /// Changes `a` to `z` to `A` to `Z`. Every other character is unchanged.
    ///
    ///     let mut text = SmallAsciiString::from_ascii_str(alloc, AsciiStr::literal("foo{1}"))?;
    ///     text.make_ascii_uppercase();
    ///     text // "FOO{1}"
    fn make_ascii_uppercase(&mut self)
        ensures { let old = state self.old in
            EditsInPlace (map upper_image old.text) old (state self.new) };

    /// Changes `A` to `Z` to `a` to `z`. Every other character is unchanged.
    ///
    ///     let mut text = SmallAsciiString::from_ascii_str(alloc, AsciiStr::literal("FOO@1"))?;
    ///     text.make_ascii_lowercase();
    ///     text // "foo@1"
    fn make_ascii_lowercase(&mut self)
        ensures { let old = state self.old in
            EditsInPlace (map lower_image old.text) old (state self.new) };

    // The sure length is at most every capacity.
    ghost holds_sure: { (buf : Self) → sure ≤ (state buf).capacity };
}

impl<B: Buffer<Refusal = AllocError>> AsciiBuf for Text<B> {
    ghost use Rattle.std.proofs.Common.{rules};
    ghost use Rattle.std.proofs.Math.Nat.{le-max_left};
    ghost use Rattle.ascii_run.specs.Room.{with_room};

    ghost state = { with_room B.sure };

    ghost sure = { B.sure };

    #[inline]
    fn as_ascii_str(&self) -> AsciiStr<'_> {
        self.as_ascii_str()
    }

    fn reserve(&mut self, additional: usize) -> Result<(), AllocError> {
        tell_sure(self);
        self.reserve(additional)
    }

    fn shrink_to_fit(&mut self) -> Result<(), AllocError> {
        let done = self.shrink_to_fit();
        tell_sure(self);
        done
    }

    #[inline]
    fn push(&mut self, ch: AsciiChar) -> Result<(), AllocError> {
        tell_sure(self);
        self.push(ch)
    }

    #[inline]
    fn push_str(&mut self, view: AsciiStr<'_>) -> Result<(), AllocError> {
        tell_sure(self);
        self.push_str(view)
    }

    fn insert(&mut self, idx: usize, ch: AsciiChar) -> Result<(), AllocError> {
        tell_sure(self);
        self.insert(idx, ch)
    }

    fn insert_str(&mut self, idx: usize, view: AsciiStr<'_>) -> Result<(), AllocError> {
        tell_sure(self);
        self.insert_str(idx, view)
    }

    fn remove(&mut self, idx: usize) -> AsciiChar {
        tell_sure(self);
        self.remove(idx)
    }

    #[inline]
    fn pop(&mut self) -> Option<AsciiChar> {
        tell_sure(self);
        self.pop()
    }

    #[inline]
    fn truncate(&mut self, n: usize) {
        tell_sure(self);
        self.truncate(n);
    }

    #[inline]
    fn clear(&mut self) {
        tell_sure(self);
        self.clear();
    }

    #[inline]
    fn set(&mut self, i: usize, ch: AsciiChar) {
        tell_sure(self);
        self.set(i, ch);
    }

    fn make_ascii_uppercase(&mut self) {
        tell_sure(self);
        self.make_ascii_uppercase();
    }

    fn make_ascii_lowercase(&mut self) {
        tell_sure(self);
        self.make_ascii_lowercase();
    }

    ghost holds_sure = { λ buf. le-max_left B.sure buf.capacity };
}

/// Tells the prover that the capacity is at least the sure length.
#[inline(always)]
fn tell_sure<B: Buffer>(text: &Text<B>)
    ensures { B.sure ≤ text.now.capacity }
{
    let _sure = text.capacity();
}
