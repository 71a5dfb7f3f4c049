//! Decimal numbers that a view writes, read without rounding.
//!
//! A decimal number is an optional `-`, one digit or more, and optionally a `.` and one digit or more. It is
//! read into a `Decimal`, which has the digits as a whole number and how many of them come after the point.
//! Zeros at the start and at the end of the fraction count for nothing, so there may be any number of them.
//!
//!     AsciiStr::literal("-12.50").to_decimal() // Ok(Decimal { negative: true, digits: 125, places: 1 })
//!     AsciiStr::literal("7").to_decimal() // Ok(Decimal { negative: false, digits: 7, places: 0 })
//!
//! For whole numbers see the module `numbers`. Nothing here allocates.

ghost use Rattle.std.specs.Prelude.{◌≡◌, ◌+◌, ◌^◌, ◌-◌, ◌/◌, ◌%◌, ◌≤◌, MatchResult, Some};
ghost use Rattle.std.specs.Prelude.{drop, length};
ghost use Rattle.std.specs.Int.{from_bool};
ghost use Rattle.std.specs.Str.Parse.{AllDigits, digits_value_after, starts_with_minus};
ghost use Rattle.std.proofs.Common.{rules};
ghost use Rattle.ascii_formats.specs.Decimals.{IsDigitFault, IsZeroCode};
ghost use Rattle.ascii_formats.specs.Decimals.{decimal_text};
ghost use Rattle.ascii.specs.Trim.{TrimsEnd};
ghost use Rattle.ascii.specs.View.{text_of};

use crate::numbers::{Number, NumberError};
use ascii::classes::{ByRanges, Ranges};
use ascii::{AsciiChar, AsciiRange, AsciiStr};
use std::fmt;

/// A decimal number: `digits / 10^places`, or the negative of it.
///
///     let price = Decimal { negative: false, digits: 995, places: 2 };
///     AsciiStr::literal("9.95").to_decimal() == Ok(price) // true
///     AsciiStr::literal("9.950").to_decimal() == Ok(price) // true
#[derive(Clone, Copy, PartialEq, Eq, Debug)]
pub struct Decimal {
    /// Whether a `-` comes before the digits. It may also come before 0.
    pub negative: bool,
    /// The number of all its digits, without the point.
    pub digits: u64,
    /// The number of digits after the point.
    pub places: usize,
}

impl Decimal {
    /// The digits before the point and those after it, as two numbers.
    fn parts(self) -> (u64, u64)
        ensures whole { result.0 ≡ self.digits / 10 ^ self.places }
        ensures fraction { result.1 ≡ self.digits % 10 ^ self.places }
    {
        if self.places < 20 {
            let scale = 10u64.pow(self.places as u32);
            (self.digits / scale, self.digits % scale)
        } else {
            (0, self.digits)
        }
    }
}

impl fmt::Display for Decimal {
    ghost output = { λ d. Some (decimal_text d) };

    /// Writes the number: a `-` if it is negative, the digits before the point, at least one, and
    /// after a point as many digits as it has places. If it has none, no point is written.
    ///
    ///     Decimal { negative: true, digits: 125, places: 1 }.to_string(alloc)? // "-12.5"
    ///     Decimal { negative: false, digits: 5, places: 2 }.to_string(alloc)? // "0.05"
    ///     Decimal { negative: false, digits: 7, places: 0 }.to_string(alloc)? // "7"
    fn fmt<W: fmt::Write>(&self, f: &mut fmt::Formatter<W>) -> fmt::Result {
        let sign = if self.negative { "-" } else { "" };
        let (whole, fraction) = self.parts();
        let places = self.places;
        if places == 0 {
            write!(f, "{sign}{whole}")
        } else {
            write!(f, "{sign}{whole}.{fraction:0places$}")
        }
    }
}

/// The ranges of `Zero`.
struct ZeroRanges;

const ZERO: [(u8, u8); 1] = [(b'0', b'0')];

impl Ranges for ZeroRanges {
    ghost use Rattle.ascii_formats.specs.declared.decimals.TheConstants.{ZERO};

    ghost set = { IsZeroCode };

    ghost list = { ZERO };

    ghost matches = { λ n. Prim.search rules };

    fn ranges() -> &'static [(u8, u8)] {
        &ZERO
    }
}

/// The digit `0`.
type Zero = ByRanges<ZeroRanges>;

/// Whether the view begins with `-`, and the view after it.
pub(crate) fn split_sign(view: AsciiStr<'_>) -> (bool, AsciiStr<'_>)
    ensures minus { result.0 ≡ starts_with_minus (text_of view.entry) }
    ensures rest { let text = text_of view.entry in
        text_of result.1 ≡ drop (from_bool (starts_with_minus text)) text }
{
    let negative = view.as_bytes().first() == Some(&b'-');
    let start = usize::from(negative);
    (negative, view.slice(AsciiRange::From(start)))
}

/// The view without the zeros at its end.
pub(crate) fn without_zeros(digits: AsciiStr<'_>) -> AsciiStr<'_>
    ensures { TrimsEnd IsZeroCode (text_of digits.entry) (text_of result) }
{
    digits.trim_end_matches::<Zero>()
}

/// The number that the digits write after those of `number`, or the first position at fault. The
/// digits start at position `start`.
#[inline]
pub(crate) fn continue_number(
    number: u64,
    digits: AsciiStr<'_>,
    start: usize,
) -> Result<u64, NumberError>
    requires { start + length (text_of digits) ≤ 2 ^ 64 - 1 }
    ensures { let codes = text_of digits.entry in MatchResult result
        (λ n. AllDigits 10 codes × (n ≡ digits_value_after 10 number codes))
        (IsDigitFault start number codes) }
{
    let mut longer = number;
    for at in 0..digits.len() {
        let Some(digit) = char::from(digits.as_bytes()[at]).to_digit(10) else {
            return Err(NumberError::NotDigit(start + at));
        };
        let Some(appended) = longer.with_digit(false, 10, digit as u8) else {
            return Err(NumberError::TooLarge(start + at));
        };
        longer = appended;
    }
    Ok(longer)
}
