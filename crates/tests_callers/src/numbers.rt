//! Numbers that are written and read again.

ghost use Rattle.std.specs.Prelude.{◌≡◌, ◌<◌, ◌^◌, IfOk, Ok};
ghost use Rattle.std.specs.Str.Parse.{IsNumeral, digits_value};
ghost use Rattle.ascii_formats.specs.Decimals.{WritesDecimal};
ghost use Rattle.ascii.specs.View.{text_of};

use ascii::{AsciiStr, AsciiString};
use ascii_formats::decimals::Decimal;
use ascii_formats::numbers::NumberError;
use ascii_formats::{AsciiStrExt, AsciiStringExt};
use std::alloc::{AllocError, Global};

/// The number that is read from the digits of `n`: it is `n`.
pub fn write_and_read(alloc: Global, n: u64) -> Result<Result<u64, NumberError>, AllocError>
    ensures { IfOk result (λ read. read ≡ Ok n) }
{
    let mut string = AsciiString::new(alloc);
    string.push_decimal(n)?;
    Ok(string.as_ascii_str().to_number())
}

/// The number that is read from the sign and the digits of `n`: it is `n`.
pub fn write_and_read_signed(alloc: Global, n: i64) -> Result<Result<i64, NumberError>, AllocError>
    ensures { IfOk result (λ read. read ≡ Ok n) }
{
    let mut string = AsciiString::new(alloc);
    string.push_decimal(n)?;
    Ok(string.as_ascii_str().to_number())
}

/// The number that hexadecimal digits write. They are never an error, since they write a `u32`.
pub fn read_hex(digits: AsciiStr<'_>) -> Result<u32, NumberError>
    requires digits { IsNumeral 16 (text_of digits) }
    requires fits { digits_value 16 (text_of digits) < 2 ^ 32 }
    ensures { result ≡ Ok (digits_value 16 (text_of digits.entry)) }
{
    digits.to_number_radix(16)
}

/// The decimal number of a view that writes `number`: it is `number`, and never an error.
pub fn read_decimal(view: AsciiStr<'_>, number: Decimal) -> Result<Decimal, NumberError>
    requires { WritesDecimal (text_of view) number }
    ensures { result ≡ Ok number }
{
    view.to_decimal()
}
