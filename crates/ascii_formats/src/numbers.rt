//! Numbers that the digits of a view write. `AsciiString::push_decimal` writes them.
//!
//! | Call | What it reads |
//! |---|---|
//! | `to_number` | the whole view, in decimal digits |
//! | `to_number_radix` | the whole view, in digits of a radix from 2 to 36 |
//! | `take_number` | the decimal digits at the start, and it returns the view after them |
//! | `to_decimal` of the module `decimals` | the whole view, in decimal digits with a point |
//!
//! Decimal digits are `0` to `9`; in a larger radix the letters of either case follow. Zeros at the
//! start count for nothing. For a signed type a `-` at the start is a sign; a `+` never is.
//!
//!     AsciiStr::literal("0042").to_number::<u8>() // Ok(42)
//!     AsciiStr::literal("-128").to_number::<i8>() // Ok(-128)
//!
//! Nothing here allocates.

ghost use Rattle.std.specs.Prelude.{◌≡◌, Bool, ◌+◌, ◌*◌, ◌^◌, ◌-◌, ◌<◌, ◌≤◌};
ghost use Rattle.std.specs.Prelude.{MatchOption, MatchResult, SomeIff};
ghost use Rattle.std.specs.Char.{digit_value};
ghost use Rattle.ascii_formats.specs.Numbers.{IsFaultIn, LeadsWithNumber, NumberRange};
ghost use Rattle.ascii_formats.specs.Numbers.{has_sign};
ghost use Rattle.ascii_formats.specs.Numbers.{signed_up_to, unsigned_up_to};
ghost use Rattle.ascii.specs.View.{text_of};

use ascii::{AsciiRange, AsciiStr};

/// The error of a view that does not write a number of the type: the first position at fault.
///
/// Positions are counted from 0, from the left, a sign included: digits after a fault do not matter.
#[derive(Clone, Copy, PartialEq, Eq, Debug)]
pub enum NumberError {
    /// There are no digits: the view is empty, or for a signed type `-` alone.
    Empty,
    /// The position of a character that is not a digit.
    NotDigit(usize),
    /// The position of the digit with which the number is beyond what the type holds.
    TooLarge(usize),
}

/// The types of integers: `u8` to `u128` and `usize`, and `i8` to `i128` and `isize`. A clause sees
/// the numbers of a type as `range`.
///
/// The size of a number is the number without its sign. `minus` says that a `-` comes before the
/// digits, so that the number is below 0, or 0.
///
///     <u8 as Number>::zero() // 0
///     <i8 as Number>::is_signed() // true
///     25u8.with_digit(false, 10, 5) // Some(255)
///     25u8.with_digit(false, 10, 6) // None
///     (-12i8).with_digit(true, 10, 8) // Some(-128)
pub trait Number: Copy {
    ghost range: { NumberRange Self };

    /// Returns `true` if a `-` before the digits is a sign.
    fn is_signed() -> bool
        ensures { result ≡ range.signed };

    /// Returns 0.
    fn zero() -> Self
        ensures number { (minus : Bool) → result ≡ range.number minus 0 }
        ensures size { range.size result ≡ 0 };

    /// Returns the number with `digit` appended in `radix`, or `None` if the type does not hold it.
    ///
    /// Condition: `digit` is less than `radix`, which is at most 36.
    ///
    /// Condition: the number is not above 0 if `minus`, and not below 0 otherwise.
    fn with_digit(self, minus: bool, radix: u8, digit: u8) -> Option<Self>
        requires digit { digit < radix }
        requires radix { radix ≤ 36 }
        requires side { self ≡ range.number minus (range.size self) }
        ensures { let size = range.size self * radix + digit in
            MatchOption result (range.most minus < size)
            (λ n. (n ≡ range.number minus size) × (range.size n ≡ size)
            × (size ≤ range.most minus)) };
}

impl Number for u8 {
    ghost range = { unsigned_up_to (2 ^ 8 - 1) };

    #[inline]
    fn is_signed() -> bool {
        false
    }

    #[inline]
    fn zero() -> u8 {
        0
    }

    #[inline]
    fn with_digit(self, _minus: bool, radix: u8, digit: u8) -> Option<u8> {
        self.checked_mul(radix)?.checked_add(digit)
    }
}

impl Number for u16 {
    ghost range = { unsigned_up_to (2 ^ 16 - 1) };

    #[inline]
    fn is_signed() -> bool {
        false
    }

    #[inline]
    fn zero() -> u16 {
        0
    }

    #[inline]
    fn with_digit(self, _minus: bool, radix: u8, digit: u8) -> Option<u16> {
        self.checked_mul(radix.into())?.checked_add(digit.into())
    }
}

impl Number for u32 {
    ghost range = { unsigned_up_to (2 ^ 32 - 1) };

    #[inline]
    fn is_signed() -> bool {
        false
    }

    #[inline]
    fn zero() -> u32 {
        0
    }

    #[inline]
    fn with_digit(self, _minus: bool, radix: u8, digit: u8) -> Option<u32> {
        self.checked_mul(radix.into())?.checked_add(digit.into())
    }
}

impl Number for u64 {
    ghost range = { unsigned_up_to (2 ^ 64 - 1) };

    #[inline]
    fn is_signed() -> bool {
        false
    }

    #[inline]
    fn zero() -> u64 {
        0
    }

    #[inline]
    fn with_digit(self, _minus: bool, radix: u8, digit: u8) -> Option<u64> {
        self.checked_mul(radix.into())?.checked_add(digit.into())
    }
}

impl Number for u128 {
    ghost range = { unsigned_up_to (2 ^ 128 - 1) };

    #[inline]
    fn is_signed() -> bool {
        false
    }

    #[inline]
    fn zero() -> u128 {
        0
    }

    #[inline]
    fn with_digit(self, _minus: bool, radix: u8, digit: u8) -> Option<u128> {
        self.checked_mul(radix.into())?.checked_add(digit.into())
    }
}

impl Number for usize {
    ghost range = { unsigned_up_to (2 ^ 64 - 1) };

    #[inline]
    fn is_signed() -> bool {
        false
    }

    #[inline]
    fn zero() -> usize {
        0
    }

    #[inline]
    fn with_digit(self, _minus: bool, radix: u8, digit: u8) -> Option<usize> {
        self.checked_mul(radix.into())?.checked_add(digit.into())
    }
}

impl Number for i8 {
    ghost range = { signed_up_to (2 ^ 7 - 1) };

    #[inline]
    fn is_signed() -> bool {
        true
    }

    #[inline]
    fn zero() -> i8 {
        0
    }

    #[inline]
    fn with_digit(self, minus: bool, radix: u8, digit: u8) -> Option<i8> {
        let size = self.unsigned_abs().checked_mul(radix)?.checked_add(digit)?;
        if minus {
            0i8.checked_sub_unsigned(size)
        } else {
            0i8.checked_add_unsigned(size)
        }
    }
}

impl Number for i16 {
    ghost range = { signed_up_to (2 ^ 15 - 1) };

    #[inline]
    fn is_signed() -> bool {
        true
    }

    #[inline]
    fn zero() -> i16 {
        0
    }

    #[inline]
    fn with_digit(self, minus: bool, radix: u8, digit: u8) -> Option<i16> {
        let size = self
            .unsigned_abs()
            .checked_mul(radix.into())?
            .checked_add(digit.into())?;
        if minus {
            0i16.checked_sub_unsigned(size)
        } else {
            0i16.checked_add_unsigned(size)
        }
    }
}

impl Number for i32 {
    ghost range = { signed_up_to (2 ^ 31 - 1) };

    #[inline]
    fn is_signed() -> bool {
        true
    }

    #[inline]
    fn zero() -> i32 {
        0
    }

    #[inline]
    fn with_digit(self, minus: bool, radix: u8, digit: u8) -> Option<i32> {
        let size = self
            .unsigned_abs()
            .checked_mul(radix.into())?
            .checked_add(digit.into())?;
        if minus {
            0i32.checked_sub_unsigned(size)
        } else {
            0i32.checked_add_unsigned(size)
        }
    }
}

impl Number for i64 {
    ghost range = { signed_up_to (2 ^ 63 - 1) };

    #[inline]
    fn is_signed() -> bool {
        true
    }

    #[inline]
    fn zero() -> i64 {
        0
    }

    #[inline]
    fn with_digit(self, minus: bool, radix: u8, digit: u8) -> Option<i64> {
        let size = self
            .unsigned_abs()
            .checked_mul(radix.into())?
            .checked_add(digit.into())?;
        if minus {
            0i64.checked_sub_unsigned(size)
        } else {
            0i64.checked_add_unsigned(size)
        }
    }
}

impl Number for i128 {
    ghost range = { signed_up_to (2 ^ 127 - 1) };

    #[inline]
    fn is_signed() -> bool {
        true
    }

    #[inline]
    fn zero() -> i128 {
        0
    }

    #[inline]
    fn with_digit(self, minus: bool, radix: u8, digit: u8) -> Option<i128> {
        let size = self
            .unsigned_abs()
            .checked_mul(radix.into())?
            .checked_add(digit.into())?;
        if minus {
            0i128.checked_sub_unsigned(size)
        } else {
            0i128.checked_add_unsigned(size)
        }
    }
}

impl Number for isize {
    ghost range = { signed_up_to (2 ^ 63 - 1) };

    #[inline]
    fn is_signed() -> bool {
        true
    }

    #[inline]
    fn zero() -> isize {
        0
    }

    #[inline]
    fn with_digit(self, minus: bool, radix: u8, digit: u8) -> Option<isize> {
        let size = self
            .unsigned_abs()
            .checked_mul(radix.into())?
            .checked_add(digit.into())?;
        if minus {
            0isize.checked_sub_unsigned(size)
        } else {
            0isize.checked_add_unsigned(size)
        }
    }
}

/// Returns `true` if the view begins with a sign of the type.
#[inline]
pub(crate) fn begins_with_sign<N: Number>(view: AsciiStr<'_>) -> bool
    ensures { result ≡ has_sign N.range (text_of view.entry) }
{
    N::is_signed() && view.as_bytes().first() == Some(&b'-')
}

/// The number that the longest run of digits after the sign writes, 0 for none, and the run's end; or
/// the position of the digit with which the number leaves the range.
#[inline]
pub(crate) fn leading_number<N: Number>(
    view: AsciiStr<'_>,
    minus: bool,
    radix: u8,
) -> Result<(N, usize), usize>
    requires sign { minus ≡ has_sign N.range (text_of view) }
    requires two { 2 ≤ radix }
    requires most { radix ≤ 36 }
    ensures { let text = text_of view.entry in MatchResult result
        (λ read. LeadsWithNumber N.range radix text read.0 read.1)
        (λ p. IsFaultIn N.range radix text (NumberError.TooLarge p)) }
{
    let mut number = N::zero();
    for position in usize::from(minus)..view.len() {
        let Some(digit) = digit_of(view.as_bytes()[position], radix) else {
            return Ok((number, position));
        };
        let Some(longer) = number.with_digit(minus, radix, digit) else {
            return Err(position);
        };
        number = longer;
    }
    Ok((number, view.len()))
}

/// The digit that a byte is in a radix, in either case, or `None`. In a radix of up to 10 no letter is looked for.
#[inline(always)]
fn digit_of(byte: u8, radix: u8) -> Option<u8>
    requires { radix ≤ 36 }
    ensures { SomeIff result (digit_value byte < radix) (digit_value byte) }
{
    let decimal = byte.wrapping_sub(b'0');
    let digit = if decimal < 10 || radix <= 10 {
        decimal
    } else {
        letter_digit(byte)
    };
    if digit < radix { Some(digit) } else { None }
}

/// The digit that a letter is, in either case, and 36 for another byte.
#[inline(always)]
fn letter_digit(byte: u8) -> u8
    requires { ¬ ((48 ≤ byte) × (byte < 58)) }
    ensures { result ≡ digit_value byte }
{
    let upper = byte.wrapping_sub(b'A');
    let lower = byte.wrapping_sub(b'a');
    if upper < 26 {
        upper + 10
    } else if lower < 26 {
        lower + 10
    } else {
        36
    }
}
