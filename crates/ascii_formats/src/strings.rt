//! The calls of a string that append numbers, padded texts and quoted texts.

ghost use Rattle.std.specs.Prelude.{ℕ, ◌++◌, false};
ghost use Rattle.std.specs.Fmt.{digits};
ghost use Rattle.std.below.core.specs.declared.fmt.formatter.Alignment.TheVariants.{Right};
ghost use Rattle.ascii.specs.Code.{code_of};
ghost use Rattle.ascii.specs.StringState.{GrowsTo, StringState};
ghost use Rattle.ascii.specs.View.{text_of};
ghost use Rattle.ascii_formats.specs.Padding.{padded};
ghost use Rattle.ascii_formats.specs.Quotes.{quoted_text};

use crate::padding::{push_between, write_hex};
use crate::quotes::push_between_quotes;
use ascii::{AsciiChar, AsciiStr, Buffer, Text, bytes};
use itoa::{Buffer as Digits, Integer};
use std::fmt::Alignment;

/// The calls of a string that append numbers, padded texts and quoted texts.
pub trait AsciiStringExt {
    /// The error of a call for which there is no room: that of the string's buffer.
    type Refusal;

    // the length up to which no edit fails
    ghost sure: { ℕ };

    // the text and the capacity
    ghost state: { Self → StringState };

    /// Appends the decimal digits of `n`, after `-` if `n` is negative. Fails only if the string has
    /// to grow and the allocation fails; the text is then unchanged.
    ///
    ///     let mut text = AsciiStr::literal("n = ").to_ascii_string(alloc)?;
    ///     text.push_decimal(42u64) // Ok(())
    ///     text // "n = 42"
    fn push_decimal<I: Integer>(&mut self, n: I) -> Result<(), Self::Refusal>
        ensures { GrowsTo sure ((state self.old).text ++ I.text n) (state self.old) (state self.new) result };

    /// Appends the lower-case hexadecimal digits of `n`, at least `width` of them: if there are fewer,
    /// zeros come first. Fails only if the string has to grow and the allocation fails; the text is then
    /// unchanged.
    ///
    /// Asks for room once. For decimal digits use `push_decimal`.
    ///
    ///     let mut text = AsciiString::new(alloc);
    ///     text.push_hex(0xbeef, 8) // Ok(())
    ///     text // "0000beef"
    ///     text.push_hex(0, 0) // Ok(())
    ///     text // "0000beef0"
    fn push_hex(&mut self, n: u64, width: usize) -> Result<(), Self::Refusal>
        ensures { GrowsTo sure ((state self.old).text ++ padded Right width 48 (digits 16 false n))
            (state self.old) (state self.new) result };

    /// Appends a view, filled up to `width` characters by `fill`. Fails only if the string has to grow
    /// and the allocation fails; the text is then unchanged.
    ///
    /// The fill comes after the view for `Alignment::Left` and before it for `Right`. For `Center` it
    /// comes on both sides, with one more after the view if its number is odd.
    ///
    /// A view that is not shorter than `width` is appended as it is. Asks for room once.
    ///
    ///     let mut text = AsciiString::new(alloc);
    ///     text.push_padded(AsciiStr::literal("ab"), 5, AsciiChar::Dot, Alignment::Right) // Ok(())
    ///     text // "...ab"
    ///     text.push_padded(AsciiStr::literal("ab"), 5, AsciiChar::Space, Alignment::Center) // Ok(())
    ///     text // "...ab ab  "
    ///     text.push_padded(AsciiStr::literal("ab"), 1, AsciiChar::Dot, Alignment::Left) // Ok(())
    ///     text // "...ab ab  ab"
    fn push_padded(
        &mut self,
        view: AsciiStr<'_>,
        width: usize,
        fill: AsciiChar,
        align: Alignment,
    ) -> Result<(), Self::Refusal>
        ensures { GrowsTo sure
            ((state self.old).text ++ padded align width (code_of fill) (text_of view.entry))
            (state self.old) (state self.new) result };

    /// Appends a view in quotes: `quote`, the view with `escape` before each `quote` and each `escape`
    /// in it, and `quote`. Fails only if the string has to grow and the allocation fails; the text is
    /// then unchanged.
    ///
    /// If `escape` is `quote`, each quote in the view is doubled, as in CSV. `take_quoted` takes the text
    /// again, and `unquote` reads it. Asks once for the room of the view and its quotes.
    ///
    ///     let mut text = AsciiString::new(alloc);
    ///     text.push_quoted(AsciiStr::literal("a'\\"), AsciiChar::Apostrophe, AsciiChar::BackSlash) // Ok(())
    ///     text // "'a\\'\\\\'"
    ///     text.push_quoted(AsciiStr::literal("it's"), AsciiChar::Apostrophe, AsciiChar::Apostrophe) // Ok(())
    ///     text // "'a\\'\\\\''it''s'"
    fn push_quoted(
        &mut self,
        view: AsciiStr<'_>,
        quote: AsciiChar,
        escape: AsciiChar,
    ) -> Result<(), Self::Refusal>
        ensures { GrowsTo sure ((state self.old).text
            ++ quoted_text (code_of quote) (code_of escape) (text_of view.entry))
            (state self.old) (state self.new) result };
}

impl<B: Buffer> AsciiStringExt for Text<B> {
    type Refusal = B::Refusal;

    ghost sure = { B.sure };

    ghost state = { λ string. string };

    fn push_decimal<I: Integer>(&mut self, n: I) -> Result<(), B::Refusal> {
        let mut digits = Digits::new();
        self.push_str(bytes::as_ascii_str_unchecked(digits.format(n).as_bytes()))
    }

    fn push_hex(&mut self, n: u64, width: usize) -> Result<(), B::Refusal> {
        let mut room = [0; 16];
        let start = write_hex(n, &mut room);
        let digits = bytes::as_ascii_str_unchecked(&room[start..]);
        self.push_padded(digits, width, AsciiChar::_0, Alignment::Right)
    }

    fn push_padded(
        &mut self,
        view: AsciiStr<'_>,
        width: usize,
        fill: AsciiChar,
        align: Alignment,
    ) -> Result<(), B::Refusal> {
        let padding = width.saturating_sub(view.len());
        let before = match align {
            Alignment::Left => 0,
            Alignment::Right => padding,
            Alignment::Center => padding / 2,
        };
        let room = padding.saturating_add(view.len());
        self.reserve(room.min(usize::MAX - self.len()))?;
        push_between(self, fill, before, view, padding - before)
    }

    fn push_quoted(
        &mut self,
        view: AsciiStr<'_>,
        quote: AsciiChar,
        escape: AsciiChar,
    ) -> Result<(), B::Refusal> {
        let room = view.len().saturating_add(2);
        self.reserve(room.min(usize::MAX - self.len()))?;
        push_between_quotes(self, view, quote, escape)
    }
}
