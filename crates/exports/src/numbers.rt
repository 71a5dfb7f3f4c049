//! Numbers that are read and appended.

ghost use Rattle.std.specs.Prelude.{◌≤◌};

use crate::answer::{Answer, Made, Put};
use crate::steps::Step;
use ascii::{AsciiStr, AsciiString};
use ascii_formats::decimals::Decimal;
use ascii_formats::numbers::{Number, NumberError};
use ascii_formats::{AsciiStrExt, AsciiStringExt};
use itoa::Integer;
use std::alloc::Global;
use std::string::ToString;

/// The number that a text writes and the one at its start, as each type of number.
pub fn ask_numbers(alloc: Global, source: AsciiStr, answer: &mut Answer) {
    read_number::<u8>(alloc, source, answer);
    read_number::<u16>(alloc, source, answer);
    read_number::<u32>(alloc, source, answer);
    read_number::<u64>(alloc, source, answer);
    read_number::<u128>(alloc, source, answer);
    read_number::<usize>(alloc, source, answer);
    read_number::<i8>(alloc, source, answer);
    read_number::<i16>(alloc, source, answer);
    read_number::<i32>(alloc, source, answer);
    read_number::<i64>(alloc, source, answer);
    read_number::<i128>(alloc, source, answer);
    read_number::<isize>(alloc, source, answer);
}

fn read_number<N: Number + ToString + Drop>(alloc: Global, view: AsciiStr, answer: &mut Answer) {
    put_number(alloc, view.to_number::<N>(), answer);
    match view.take_number::<N>() {
        Ok((n, rest)) => {
            put_number(alloc, Ok(n), answer);
            answer.put(rest);
        }
        Err(error) => answer.put(error),
    }
}

/// The number that a text writes in a radix, as types of both signs.
pub fn ask_numbers_of_radix(alloc: Global, radix: u32, source: AsciiStr, answer: &mut Answer)
    requires two { 2 ≤ radix }
    requires most { radix ≤ 36 }
{
    put_number(alloc, source.to_number_radix::<u8>(radix), answer);
    put_number(alloc, source.to_number_radix::<i8>(radix), answer);
    put_number(alloc, source.to_number_radix::<u64>(radix), answer);
    put_number(alloc, source.to_number_radix::<i64>(radix), answer);
}

/// The digits of a number, or the error of one that is read.
fn put_number<N: ToString + Drop>(
    alloc: Global,
    read: Result<N, NumberError>,
    answer: &mut Answer,
) {
    match read {
        Ok(n) => answer.put_result(n.to_string(alloc)),
        Err(error) => answer.put(error),
    }
}

impl Put for NumberError {
    fn put(self, answer: &mut Answer) {
        match self {
            NumberError::Empty => answer.put("empty"),
            NumberError::NotDigit(position) => answer.put(("digit", position)),
            NumberError::TooLarge(position) => answer.put(("large", position)),
        }
    }
}

/// A text with the digits of numbers appended, each as some types. `high` and `low` are the bits of a `u128` and an
/// `i128`, and `low` those of the shorter types, as far as it fits them.
pub fn ask_decimals(alloc: Global, high: u64, low: u64, source: AsciiStr, answer: &mut Answer) {
    let long = (u128::from(high) << 64) | u128::from(low);
    let signed = i64::from_le_bytes(low.to_le_bytes());
    let signed_long = i128::from_le_bytes(long.to_le_bytes());
    answer.put_result(with_digits(source.to_ascii_string(alloc), long));
    answer.put_result(with_digits(source.to_ascii_string(alloc), signed_long));
    answer.put_result(with_digits(source.to_ascii_string(alloc), low));
    answer.put_result(with_digits(source.to_ascii_string(alloc), signed));
    if let Ok(n) = i32::try_from(signed) {
        answer.put_result(with_digits(source.to_ascii_string(alloc), n));
    }
    if let Ok(n) = u16::try_from(low) {
        answer.put_result(with_digits(source.to_ascii_string(alloc), n));
    }
    if let Ok(n) = i8::try_from(signed) {
        answer.put_result(with_digits(source.to_ascii_string(alloc), n));
    }
}

/// Whether the digits of a number are appended to a string, and the string after that.
fn with_digits<I: Integer>(made: Made<AsciiString>, n: I) -> Made<(bool, AsciiString)> {
    let mut string = made?;
    Ok((string.push_decimal(n).is_ok(), string))
}

/// The decimal number that a text writes: whether it is negative, its digits and its places.
pub fn ask_decimal(source: AsciiStr, answer: &mut Answer) {
    let number = source.to_decimal();
    answer.put(number.map(|it| (it.negative, it.digits, it.places)));
}

/// The texts of decimal numbers. The number of a step has the digits `at`, of which `start` are after the point, and is
/// negative if its kind is not 0.
pub fn ask_decimals_written(alloc: Global, steps: &[Step], answer: &mut Answer) {
    for step in steps {
        let number = Decimal {
            negative: step.kind != 0,
            digits: step.at as u64,
            places: step.start,
        };
        answer.put_result(number.to_string(alloc));
    }
}

/// A text with the hexadecimal digits of a number appended, filled up to a width by zeros.
pub fn ask_hex(alloc: Global, n: u64, width: usize, source: AsciiStr, answer: &mut Answer) {
    let mut string = AsciiString::new(alloc);
    match string.push_str(source) {
        Ok(()) => answer.put((string.push_hex(n, width).is_ok(), string)),
        Err(error) => answer.put(error),
    }
}
