//! Texts in which characters are escaped, read back: the inverse of `EscapeAscii`.
//!
//! The escapes are those of std: `\t`, `\r`, `\n`, `\'`, `\"`, `\\`, and `\x` with two hexadecimal digits in either case.
//!
//!     AsciiStr::literal("a\\tb").unescape(alloc) // Ok("a\tb")
//!     EscapeAscii::new(AsciiStr::literal("a\\tb")).to_string(alloc)? // "a\\\\tb"

ghost use Rattle.std.specs.Prelude.{◌≡◌, ◌<◌, ◌≤◌, [], MatchOption, MatchResult, length, slice_index};
ghost use Rattle.ascii_formats.specs.Unescape.{HasNoPiece, IsFaultOfText, StartsWithPiece, Unescapes};
ghost use Rattle.ascii.specs.View.{text_of};

use ascii::{AsciiChar, AsciiStr, AsciiString};
use std::alloc::Allocator;

/// Why a text is not unescaped.
#[derive(Clone, Copy, PartialEq, Eq, Debug)]
pub enum UnescapeError {
    /// The backslash at this position does not begin an escape.
    Invalid(usize),
    /// The escape at this position is of a byte above 127.
    NotAscii(usize),
    /// The allocation failed.
    Memory,
}

/// Appends the text that the view represents to an empty string, or returns an error with what
/// is wrong with the view. Does not allocate.
///
/// Condition: the string is empty and has room for the length of the view.
pub(crate) fn unescape_into<A: Allocator>(
    view: AsciiStr<'_>,
    string: &mut AsciiString<A>,
) -> Result<(), UnescapeError>
    requires empty { string.old.text ≡ [] }
    requires room { length (text_of view) ≤ string.old.capacity }
    ensures { let text = text_of view.entry in
        MatchResult result (λ _. Unescapes text string.new.text) (IsFaultOfText text) }
{
    let mut at = 0;
    'pieces: while at < view.len() {
        let Some((code, size)) = read_piece(&view.as_bytes()[at..]) else {
            return Err(UnescapeError::Invalid(at));
        };
        if code > 127 {
            return Err(UnescapeError::NotAscii(at));
        }
        let Ok(()) = string.push(AsciiChar::from_ascii_unchecked(code)) else {
            unreachable!()
        };
        at += size;
    }
    Ok(())
}

/// The code that the piece at the start of the bytes represents, and the size of that piece, or
/// `None` if there is no piece.
fn read_piece(bytes: &[u8]) -> Option<(u8, usize)>
    requires { 0 < length bytes.now }
    ensures { MatchOption result (HasNoPiece bytes.now)
        (λ piece. StartsWithPiece bytes.now piece.0 piece.1) }
{
    if bytes[0] != b'\\' {
        return Some((bytes[0], 1));
    }
    if bytes.len() < 2 {
        return None;
    }
    match bytes[1] {
        b't' => Some((b'\t', 2)),
        b'r' => Some((b'\r', 2)),
        b'n' => Some((b'\n', 2)),
        b'\'' => Some((b'\'', 2)),
        b'"' => Some((b'"', 2)),
        b'\\' => Some((b'\\', 2)),
        b'x' => read_hex(bytes),
        _ => None,
    }
}

/// The code of a piece that begins with `\x`, and its size, or `None` if no two hexadecimal digits
/// follow.
fn read_hex(bytes: &[u8]) -> Option<(u8, usize)>
    requires inside { 1 < length bytes.now }
    requires backslash { slice_index bytes.now 0 ≡ 92 }
    requires x { slice_index bytes.now 1 ≡ 120 }
    ensures { MatchOption result (HasNoPiece bytes.now)
        (λ piece. StartsWithPiece bytes.now piece.0 piece.1) }
{
    if bytes.len() < 4 {
        return None;
    }
    let high = char::from(bytes[2]).to_digit(16)?;
    let low = char::from(bytes[3]).to_digit(16)?;
    Some(((high * 16 + low) as u8, 4))
}
