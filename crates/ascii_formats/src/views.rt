//! The calls of a view that read formats.

ghost use Rattle.std.specs.Prelude.{◌≡◌, ℕ, ◌≤◌, ◌↔◌, List, [], ◌∷◌, IfOk, IsOk, IsTrue};
ghost use Rattle.std.specs.Prelude.{MatchOption, MatchResult, length};
ghost use Rattle.ascii.specs.ByClass.{IsOutside};
ghost use Rattle.ascii.specs.Bytes.{IsFirstOf};
ghost use Rattle.ascii.specs.Code.{code_of};
ghost use Rattle.ascii.specs.Search.{IsPrefix, StartsWith};
ghost use Rattle.ascii.specs.View.{text_of};
ghost use Rattle.ascii_formats.specs.Decimals.{IsDecimalFault, WritesDecimal};
ghost use Rattle.ascii_formats.specs.Numbers.{IsFaultIn, IsStartFault, StartsWithNumber};
ghost use Rattle.ascii_formats.specs.Numbers.{WritesNumberIn};
ghost use Rattle.ascii_formats.specs.Parts.{IsCutBy};
ghost use Rattle.ascii_formats.specs.Places.{place_at};
ghost use Rattle.ascii_formats.specs.Quotes.{IsQuoteFault, StartsQuoted, unquoted};
ghost use Rattle.ascii_formats.specs.Unescape.{IsUnescapeFault, Unescapes};

use crate::decimals::{Decimal, continue_number, split_sign, without_zeros};
use crate::numbers::{Number, NumberError, begins_with_sign, leading_number};
use crate::places::{Fault, Place};
use crate::quotes::{QuoteError, closing_quote, unquote_into};
use crate::unescape::{UnescapeError, unescape_into};
use ascii::classes::Searched;
use ascii::{AsciiChar, AsciiRange, AsciiStr, AsciiString, kernels};
use std::alloc::{AllocError, Allocator};

/// The calls of a view that read its first character, numbers, quotes and escapes, and find a class, a line
/// and a column.
pub trait AsciiStrExt: Sized {
    // the codes of the text
    ghost codes: { Self → List ℕ };

    /// Returns the first character and the view after it, or `None` if the view is empty. Constant time.
    ///
    ///     AsciiStr::literal("abc").split_first() // Some(('a', "bc"))
    ///     AsciiStr::literal("").split_first() // None
    fn split_first(self) -> Option<(AsciiChar, Self)>
        ensures { MatchOption result (codes self ≡ [])
            (λ split. codes self ≡ code_of split.0 ∷ codes split.1) };

    /// Returns `true` if the view starts with `ch`. Constant time.
    ///
    /// To take the view after it too, use `strip_prefix_char`.
    ///
    ///     AsciiStr::literal("#x").starts_with_char(AsciiChar::Hash) // true
    ///     AsciiStr::literal("x#").starts_with_char(AsciiChar::Hash) // false
    ///     AsciiStr::literal("").starts_with_char(AsciiChar::Hash) // false
    fn starts_with_char(self, ch: AsciiChar) -> bool
        ensures { IsTrue result ↔ StartsWith (code_of ch ∷ []) (codes self) };

    /// Returns the view after `ch`, or `None` if the view does not start with it. Constant time.
    ///
    ///     AsciiStr::literal("##x").strip_prefix_char(AsciiChar::Hash) // Some("#x")
    ///     AsciiStr::literal("x#").strip_prefix_char(AsciiChar::Hash) // None
    fn strip_prefix_char(self, ch: AsciiChar) -> Option<Self>
        ensures { MatchOption result (¬ (StartsWith (code_of ch ∷ []) (codes self)))
            (λ rest. IsPrefix (code_of ch ∷ []) (codes self) (codes rest)) };

    /// Returns the position of the first character of the view that is in the class, or `None` if no
    /// character is in it.
    ///
    /// Scans the view once, 32 bytes at a time. For the first character that is not in the class use
    /// `first_not`; for one character, `position`; to cut there, `split_once_by`.
    ///
    ///     AsciiStr::literal("px42").find_by::<Digit>() // Some(2)
    ///     AsciiStr::literal("px").find_by::<Digit>() // None
    ///     AsciiStr::literal("").find_by::<Digit>() // None
    fn find_by<C: Searched>(self) -> Option<usize>
        ensures { let text = codes self in
            MatchOption result (IsOutside C.is text) (IsFirstOf C.is text 0 (length text)) };

    /// Returns the views before and after the first character of the view that is in the class, or
    /// `None` if no character is in it. That character is in neither view.
    ///
    /// Scans the view once, 32 bytes at a time. For one character use `split_once`; for sides that keep
    /// their places, `Part::split_once_by`.
    ///
    ///     AsciiStr::literal("a\tb c").split_once_by::<Blank>() // Some(("a", "b c"))
    ///     AsciiStr::literal("ab").split_once_by::<Blank>() // None
    fn split_once_by<C: Searched>(self) -> Option<(Self, Self)>
        ensures { let text = codes self in MatchOption result (IsOutside C.is text)
            (λ sides. IsCutBy C.is text (codes sides.0) (codes sides.1)) };

    /// Returns the number that the decimal digits of the view write, or an error with the first
    /// position at fault.
    ///
    /// For a signed type a `-` before the digits is a sign. For another radix use `to_number_radix`;
    /// if something follows the digits, `take_number`.
    ///
    ///     AsciiStr::literal("0042").to_number::<u8>() // Ok(42)
    ///     AsciiStr::literal("-128").to_number::<i8>() // Ok(-128)
    ///     AsciiStr::literal("4.2").to_number::<u8>() // Err(NotDigit(1))
    ///     AsciiStr::literal("256").to_number::<u8>() // Err(TooLarge(2))
    ///     AsciiStr::literal("-129").to_number::<i8>() // Err(TooLarge(3))
    ///     AsciiStr::literal("").to_number::<u8>() // Err(Empty)
    fn to_number<N: Number>(self) -> Result<N, NumberError>
        ensures { let text = codes self in
            MatchResult result (WritesNumberIn N.range 10 text) (IsFaultIn N.range 10 text) };

    /// Returns the number that the digits of the view write in `radix`, or an error with the first
    /// position at fault.
    ///
    /// Condition: `radix` is from 2 to 36.
    ///
    /// The digits are `0` to `9` and the letters of either case, as far as the radix has them. For a
    /// signed type a `-` before them is a sign. A `+` is an error, which `from_str_radix` of std
    /// accepts.
    ///
    ///     AsciiStr::literal("fF").to_number_radix::<u8>(16) // Ok(255)
    ///     AsciiStr::literal("-1000").to_number_radix::<i8>(2) // Ok(-8)
    ///     AsciiStr::literal("+F").to_number_radix::<u8>(16) // Err(NotDigit(0))
    ///     AsciiStr::literal("128").to_number_radix::<u8>(8) // Err(NotDigit(2))
    ///     AsciiStr::literal("100").to_number_radix::<u8>(16) // Err(TooLarge(2))
    fn to_number_radix<N: Number>(self, radix: u32) -> Result<N, NumberError>
        requires two { 2 ≤ radix }
        requires most { radix ≤ 36 }
        ensures { let text = codes self in
            MatchResult result (WritesNumberIn N.range radix text) (IsFaultIn N.range radix text) };

    /// Returns the number that the decimal digits at the start of the view write, and the view after
    /// them, or an error if there are no digits or the type does not hold the number.
    ///
    /// For a signed type a `-` before the digits is a sign. If the whole view has to be a number, use
    /// `to_number`.
    ///
    ///     AsciiStr::literal("42 km").take_number::<u8>() // Ok((42, " km"))
    ///     AsciiStr::literal("-3 C").take_number::<i8>() // Ok((-3, " C"))
    ///     AsciiStr::literal("km").take_number::<u8>() // Err(NotDigit(0))
    ///     AsciiStr::literal("256 km").take_number::<u8>() // Err(TooLarge(2))
    fn take_number<N: Number>(self) -> Result<(N, Self), NumberError>
        ensures { let text = codes self in MatchResult result
            (λ taken. StartsWithNumber N.range 10 text taken.0 (codes taken.1))
            (IsStartFault N.range 10 text) };

    /// Returns the decimal number that the view writes, or an error with the first position at fault.
    ///
    /// A decimal number is an optional `-`, one digit or more, and optionally a `.` and one digit or
    /// more. Zeros at the start count for nothing. Those at the end of the fraction are dropped, and
    /// `places` is the number of the digits after the point that are left.
    ///
    /// The error is `Empty` if the view is empty or `-` alone. Otherwise the position is that of a
    /// character that is not a digit, or of a point with no digit before it or nothing after it; or of
    /// the digit with which the digits that count are more than a `u64` holds.
    ///
    ///     AsciiStr::literal("-12.50").to_decimal() // Ok(Decimal { negative: true, digits: 125, places: 1 })
    ///     AsciiStr::literal("0.05").to_decimal() // Ok(Decimal { negative: false, digits: 5, places: 2 })
    ///     AsciiStr::literal("2.000").to_decimal() // Ok(Decimal { negative: false, digits: 2, places: 0 })
    ///     AsciiStr::literal("1e3").to_decimal() // Err(NotDigit(1))
    ///     AsciiStr::literal("5.").to_decimal() // Err(NotDigit(1))
    ///     AsciiStr::literal("18446744073709551616").to_decimal() // Err(TooLarge(19))
    ///     AsciiStr::literal("-").to_decimal() // Err(Empty)
    fn to_decimal(self) -> Result<Decimal, NumberError>
        ensures { let text = codes self in
            MatchResult result (WritesDecimal text) (IsDecimalFault text) };

    /// Returns the text between the quotes at the start of the view, and the view after them, or an
    /// error if the view does not begin with `quote` or nothing closes the text.
    ///
    /// The text is returned as it is written, with its escapes. It ends at the first `quote` that is
    /// not escaped: `escape` makes the character after it an ordinary one. If `escape` is `quote`, a
    /// doubled quote does not end the text.
    ///
    /// Scans the view once, up to the closing quote.
    ///
    ///     AsciiStr::literal("'a\\'b' c").take_quoted(AsciiChar::Apostrophe, AsciiChar::BackSlash) // Ok(("a\\'b", " c"))
    ///     AsciiStr::literal("'a''b' c").take_quoted(AsciiChar::Apostrophe, AsciiChar::Apostrophe) // Ok(("a''b", " c"))
    ///     AsciiStr::literal("''").take_quoted(AsciiChar::Apostrophe, AsciiChar::BackSlash) // Ok(("", ""))
    ///     AsciiStr::literal("a").take_quoted(AsciiChar::Apostrophe, AsciiChar::BackSlash) // Err(NoQuote)
    ///     AsciiStr::literal("'a").take_quoted(AsciiChar::Apostrophe, AsciiChar::BackSlash) // Err(NotClosed(2))
    fn take_quoted(self, quote: AsciiChar, escape: AsciiChar) -> Result<(Self, Self), QuoteError>
        ensures { let text = codes self in MatchResult result
            (λ taken. StartsQuoted (code_of quote) (code_of escape) text
            (codes taken.0) (codes taken.1))
            (IsQuoteFault (code_of quote) (code_of escape) text) };

    /// Returns the text that the view represents if it comes between quotes: an `escape` and the
    /// character after it represent that character, and any other character represents itself. Fails
    /// only if the allocation fails.
    ///
    /// An `escape` at the end represents itself; `take_quoted` returns no such text. What `push_quoted`
    /// writes between its quotes represents the text that was written. For std's escapes, as `\n`, use
    /// `unescape`.
    ///
    /// Allocates once, for the length of the view. Never fails for the empty view.
    ///
    ///     AsciiStr::literal("a\\'b\\\\").unquote(alloc, AsciiChar::BackSlash) // Ok("a'b\\")
    ///     AsciiStr::literal("a''b").unquote(alloc, AsciiChar::Apostrophe) // Ok("a'b")
    ///     AsciiStr::literal("\\n\\").unquote(alloc, AsciiChar::BackSlash) // Ok("n\\")
    fn unquote<A: Allocator>(
        self,
        alloc: A,
        escape: AsciiChar,
    ) -> Result<AsciiString<A>, AllocError>
        ensures text { IfOk result (λ string.
            string.text ≡ unquoted (code_of escape) (codes self)) }
        ensures empty { codes self ≡ [] → IsOk result };

    /// Returns the text that the view represents, in which characters are escaped as by std's
    /// `escape_ascii`, or an error: with the position of the first backslash that does not begin an
    /// escape, or of the first escape of a byte above 127, whichever comes first; or `Memory` if the
    /// allocation fails.
    ///
    /// Characters other than a backslash represent themselves. An escape is `\t`, `\r`, `\n`, `\'`,
    /// `\"`, `\\`, or `\x` with two hexadecimal digits, in either case.
    ///
    /// Allocates once, for the length of the view. Never fails for the empty view.
    ///
    ///     AsciiStr::literal("a\\tb\\x41").unescape(alloc) // Ok("a\tbA")
    ///     AsciiStr::literal("").unescape(alloc) // Ok("")
    ///     AsciiStr::literal("a\\q").unescape(alloc) // Err(Invalid(1))
    ///     AsciiStr::literal("\\xc4").unescape(alloc) // Err(NotAscii(0))
    fn unescape<A: Allocator>(self, alloc: A) -> Result<AsciiString<A>, UnescapeError>
        ensures { let text = codes self in
            MatchResult result (λ string. Unescapes text string.text) (IsUnescapeFault text) };

    /// Returns the line and the column of a position, both counted from 1, columns in bytes. A line
    /// ends at LF. Scans the view up to the position.
    ///
    /// Condition: `position` is at most the length.
    ///
    ///     AsciiStr::literal("ab\ncd").line_and_column(2) // Place { line: 1, column: 3 }
    ///     AsciiStr::literal("ab\ncd").line_and_column(3) // Place { line: 2, column: 1 }
    ///     AsciiStr::literal("").line_and_column(0) // Place { line: 1, column: 1 }
    fn line_and_column(self, position: usize) -> Place
        requires { position ≤ length (codes self) }
        ensures { result ≡ place_at (codes self) position };

    /// Returns what is wrong at a position, with its line and column, which `line_and_column` counts.
    ///
    /// Condition: `position` is at most the length.
    ///
    ///     AsciiStr::literal("ab\ncd").fault_at(4, "no '='") // Fault { place: Place { line: 2, column: 2 }, what: "no '='" }
    ///     AsciiStr::literal("ab\n").fault_at(3, "no key").place // Place { line: 2, column: 1 }
    fn fault_at<E>(self, position: usize, what: E) -> Fault<E>
        requires { position ≤ length (codes self) }
        ensures { result ≡ record { place = place_at (codes self) position; what = what } };
}

impl<'a> AsciiStrExt for AsciiStr<'a> {
    ghost codes = { text_of };

    fn split_first(self) -> Option<(AsciiChar, AsciiStr<'a>)> {
        let first = self.first()?;
        Some((first, self.slice(AsciiRange::From(1))))
    }

    fn starts_with_char(self, ch: AsciiChar) -> bool {
        self.strip_prefix_char(ch).is_some()
    }

    fn strip_prefix_char(self, ch: AsciiChar) -> Option<AsciiStr<'a>> {
        let (first, rest) = self.split_first()?;
        if first != ch {
            return None;
        }
        Some(rest)
    }

    fn find_by<C: Searched>(self) -> Option<usize> {
        kernels::first_of::<C>(self.as_bytes())
    }

    #[tactic(auto, using(crate::proofs::PartsLemmas::cut_by))]
    fn split_once_by<C: Searched>(self) -> Option<(AsciiStr<'a>, AsciiStr<'a>)> {
        let at = self.find_by::<C>()?;
        Some((
            self.slice(AsciiRange::To(at)),
            self.slice(AsciiRange::From(at + 1)),
        ))
    }

    fn to_number<N: Number>(self) -> Result<N, NumberError> {
        self.to_number_radix(10)
    }

    fn to_number_radix<N: Number>(self, radix: u32) -> Result<N, NumberError> {
        let minus = begins_with_sign::<N>(self);
        let (number, end) = leading_number(self, minus, radix as u8).map_err(
            NumberError::TooLarge,
        )?;
        if end < self.len() {
            Err(NumberError::NotDigit(end))
        } else if end == usize::from(minus) {
            Err(NumberError::Empty)
        } else {
            Ok(number)
        }
    }

    fn take_number<N: Number>(self) -> Result<(N, AsciiStr<'a>), NumberError> {
        let minus = begins_with_sign::<N>(self);
        let (number, end) = leading_number(self, minus, 10).map_err(NumberError::TooLarge)?;
        if usize::from(minus) < end {
            Ok((number, self.slice(AsciiRange::From(end))))
        } else if end < self.len() {
            Err(NumberError::NotDigit(end))
        } else {
            Err(NumberError::Empty)
        }
    }

    fn to_decimal(self) -> Result<Decimal, NumberError> {
        let (negative, unsigned) = split_sign(self);
        let start = usize::from(negative);
        let Some((whole, fraction)) = unsigned.split_once(AsciiChar::Dot) else {
            let digits = continue_number(0, unsigned, start)?;
            if unsigned.is_empty() {
                return Err(NumberError::Empty);
            }
            return Ok(Decimal {
                negative,
                digits,
                places: 0,
            });
        };
        let point = start + whole.len();
        let number = continue_number(0, whole, start)?;
        if whole.is_empty() || fraction.is_empty() {
            return Err(NumberError::NotDigit(point));
        }
        let kept = without_zeros(fraction);
        let digits = continue_number(number, kept, point + 1)?;
        Ok(Decimal {
            negative,
            digits,
            places: kept.len(),
        })
    }

    fn take_quoted(
        self,
        quote: AsciiChar,
        escape: AsciiChar,
    ) -> Result<(AsciiStr<'a>, AsciiStr<'a>), QuoteError> {
        if self.is_empty() || self.as_bytes()[0] != quote.as_byte() {
            return Err(QuoteError::NoQuote);
        }
        let tail = self.slice(AsciiRange::From(1));
        let Some(end) = closing_quote(tail.as_bytes(), quote.as_byte(), escape.as_byte()) else {
            return Err(QuoteError::NotClosed(self.len()));
        };
        Ok((
            tail.slice(AsciiRange::To(end)),
            tail.slice(AsciiRange::From(end + 1)),
        ))
    }

    fn unquote<A: Allocator>(
        self,
        alloc: A,
        escape: AsciiChar,
    ) -> Result<AsciiString<A>, AllocError> {
        let mut string = AsciiString::with_capacity(alloc, self.len())?;
        unquote_into(self, escape, &mut string);
        Ok(string)
    }

    fn unescape<A: Allocator>(self, alloc: A) -> Result<AsciiString<A>, UnescapeError> {
        let Ok(mut string) = AsciiString::with_capacity(alloc, self.len()) else {
            return Err(UnescapeError::Memory);
        };
        unescape_into(self, &mut string)?;
        Ok(string)
    }

    fn line_and_column(self, position: usize) -> Place {
        let first = Place { line: 1, column: 1 };
        first.after(&self.as_bytes()[..position])
    }

    fn fault_at<E>(self, position: usize, what: E) -> Fault<E> {
        let place = self.line_and_column(position);
        Fault { place, what }
    }
}
