//! Edits of a range of a string.
//!
//! A range is an `AsciiRange`, and has to fit the text, as for `slice`.

ghost use Rattle.std.specs.Prelude.{◌+◌, ◌≤◌, ◌++◌, drop, length, take};
ghost use Rattle.std.specs.List.{replace_range};
ghost use Rattle.ascii_base.specs.Range.{Fits, end_of, start_of};
ghost use Rattle.ascii.specs.StringState.{EditsInPlace, GrowsTo};
ghost use Rattle.ascii.specs.View.{text_of};

use crate::ascii_str::AsciiStr;
use crate::ascii_string::{Text, insert_bytes};
use crate::buffer::Buffer;
use ascii_base::range::AsciiRange;

impl<B: Buffer> Text<B> {
    /// Puts a view in place of the characters in `range`. Fails only if the string has to grow and the
    /// allocation fails; the text is then unchanged.
    ///
    /// Condition: `range` fits the text.
    ///
    /// Moves the bytes after the range. To put a text in place of each occurrence of another, use
    /// `replace`.
    ///
    ///     let mut text = AsciiStr::literal("foobar").to_ascii_string(alloc)?;
    ///     text.replace_range(AsciiRange::Range(0, 3), AsciiStr::literal("crow")) // Ok(())
    ///     text // "crowbar"
    ///     text.replace_range(AsciiRange::From(4), AsciiStr::literal("")) // Ok(())
    ///     text // "crow"
    pub fn replace_range(&mut self, range: AsciiRange, view: AsciiStr<'_>) -> Result<(), B::Refusal>
        requires { Fits range (length self.old.text) }
        ensures { let text = self.old.text in
            GrowsTo B.sure (replace_range text (start_of range) (end_of range (length text))
            (text_of view.entry)) self.old self.new result }
    {
        let end = range.end(self.len());
        splice_bytes(&mut self.bytes, range.start(), end, view.as_bytes())?;
        Ok(())
    }
}

/// Puts bytes in place of those from `start` up to `end`. If the allocation fails, the bytes are
/// unchanged.
fn splice_bytes<B: Buffer>(
    bytes: &mut B,
    start: usize,
    end: usize,
    piece: &[u8],
) -> Result<(), B::Refusal>
    requires order { start ≤ end }
    requires inside { end ≤ length (B.state bytes.old).text }
    ensures { let old = B.state bytes.old in
        GrowsTo B.sure (replace_range old.text start end piece.now) old (B.state bytes.new) result }
{
    let size = end - start;
    if piece.len() <= size {
        overwrite(bytes, start, piece);
        remove_bytes(bytes, start + piece.len(), end);
        return Ok(());
    }
    let (front, rest) = piece.split_at(size);
    insert_bytes(bytes, end, rest)?;
    overwrite(bytes, start, front);
    Ok(())
}

/// Writes bytes over those from `at` on.
fn overwrite<B: Buffer>(bytes: &mut B, at: usize, piece: &[u8])
    requires { at + length piece.now ≤ length (B.state bytes.old).text }
    ensures { let old = B.state bytes.old in
        EditsInPlace (replace_range old.text at (at + length piece.now) piece.now) old
        (B.state bytes.new) }
{
    bytes.bytes_mut()[at..at + piece.len()].copy_from_slice(piece);
}

/// Removes the bytes from `start` up to `end`.
fn remove_bytes<B: Buffer>(bytes: &mut B, start: usize, end: usize)
    requires order { start ≤ end }
    requires inside { end ≤ length (B.state bytes.old).text }
    ensures { let old = B.state bytes.old in
        EditsInPlace (take start old.text ++ drop end old.text) old (B.state bytes.new) }
{
    let size = end - start;
    let left = bytes.bytes().len() - size;
    bytes.bytes_mut()[start..].rotate_left(size);
    bytes.keep_front(left);
}
