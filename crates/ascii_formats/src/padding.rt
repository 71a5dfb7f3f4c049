//! Appending a text, or the hexadecimal digits of a number, that are filled up to a width.

ghost use Rattle.std.specs.Prelude.{◌≡◌, ◌+◌, ◌-◌, ◌<◌, ◌≤◌, ◌++◌, drop, false, length, replicate};
ghost use Rattle.std.specs.Fmt.{digit_glyph, digits};
ghost use Rattle.ascii.specs.Code.{code_of};
ghost use Rattle.ascii_formats.specs.Padding.{AppendsInParts};
ghost use Rattle.ascii.specs.StringState.{GrowsTo};
ghost use Rattle.ascii.specs.View.{text_of};

use ascii::{AsciiChar, AsciiStr, Buffer, Text, bytes};
use std::fmt::Alignment;

/// Appends a view with `fill` before it and after it. If an allocation fails, the text is
/// unchanged.
pub(crate) fn push_between<B: Buffer>(
    string: &mut Text<B>,
    fill: AsciiChar,
    before: usize,
    view: AsciiStr<'_>,
    after: usize,
) -> Result<(), B::Refusal>
    ensures { GrowsTo B.sure (string.old.text ++ (replicate before (code_of fill)
        ++ (text_of view.entry ++ replicate after (code_of fill)))) string.old string.new result }
{
    let length = string.len();
    let pushed = push_parts(string, fill, before, view, after);
    // Tells the prover that the text fits the capacity.
    let _capacity = string.capacity();
    if let Err(refusal) = pushed {
        string.truncate(length);
        return Err(refusal);
    }
    Ok(())
}

/// Appends a view with `fill` before it and after it, as far as there is room.
fn push_parts<B: Buffer>(
    string: &mut Text<B>,
    fill: AsciiChar,
    before: usize,
    view: AsciiStr<'_>,
    after: usize,
) -> Result<(), B::Refusal>
    ensures { AppendsInParts B.sure (replicate before (code_of fill)
        ++ (text_of view.entry ++ replicate after (code_of fill))) string.old string.new result }
{
    push_fill(string, fill, before)?;
    string.push_str(view)?;
    push_fill(string, fill, after)
}

/// Appends `fill` the given number of times, as far as there is room.
fn push_fill<B: Buffer>(
    string: &mut Text<B>,
    fill: AsciiChar,
    count: usize,
) -> Result<(), B::Refusal>
    ensures { AppendsInParts B.sure (replicate count (code_of fill)) string.old string.new result }
{
    for _ in 0..count {
        string.push(fill)?;
    }
    Ok(())
}

/// Writes the hexadecimal digits of `n` at the end of 16 bytes, and returns the position of the first.
pub(crate) fn write_hex(n: u64, room: &mut [u8]) -> usize
    requires { length room.old ≡ 16 }
    ensures inside { result ≤ length room.new }
    ensures digits { drop result room.new ≡ digits 16 false n }
{
    let mut rest = n;
    for written in 0..16 {
        let at = 15 - written;
        room[at] = hex_digit((rest % 16) as u8);
        rest /= 16;
        if rest == 0 {
            return at;
        }
    }
    0
}

/// Returns the character of a hexadecimal digit.
fn hex_digit(digit: u8) -> u8
    requires { digit < 16 }
    ensures { result ≡ digit_glyph false digit }
{
    if digit < 10 {
        b'0' + digit
    } else {
        b'a' - 10 + digit
    }
}
