//! Caret notation, which writes a control character as a caret and a printable partner.

ghost use Rattle.std.specs.Prelude.{◌≡◌, ◌≤◌, ◌↔◌, ◌⊎◌, ℕ, IsSome, IfSome, IfNone};
ghost use Rattle.std.specs.Int.{IsInRange};
ghost use Rattle.ascii_base.specs.Caret.{IsCaretPair};
ghost use Rattle.ascii_base.specs.Code.{code_of};

use crate::ascii_char::AsciiChar;

/// Returns the character that follows the caret for a control character, or `None` for any other
/// byte: 64 more for the bytes 0 to 31, and the question mark for 127.
///
///     caret_encode(b'\n') // Some('J')
///     caret_encode(b'a') // None
#[inline]
pub fn caret_encode(c: u8) -> Option<AsciiChar>
    ensures pair { IfSome result (λ partner. IsCaretPair c (code_of partner)) }
    ensures none { IfNone result ((m : ℕ) → ¬ (IsCaretPair c m)) }
    ensures some { IsSome result ↔ ((c ≤ 31) ⊎ (c ≡ 127)) }
{
    match c {
        0..=31 | 127 => Some(AsciiChar::from_ascii_unchecked(c ^ 0x40)),
        _ => None,
    }
}

/// Returns the control character that a character after a caret stands for, or `None` if it stands
/// for none: 64 less for the bytes 64 to 95, and 127 for the question mark.
///
///     caret_decode(b'J') // Some('\n')
///     caret_decode(b'j') // None
#[inline]
pub fn caret_decode(c: u8) -> Option<AsciiChar>
    ensures pair { IfSome result (λ control. IsCaretPair (code_of control) c) }
    ensures none { IfNone result ((n : ℕ) → ¬ (IsCaretPair n c)) }
    ensures some { IsSome result ↔ (IsInRange 64 95 c ⊎ (c ≡ 63)) }
{
    match c {
        b'?'..=b'_' => Some(AsciiChar::from_ascii_unchecked(c ^ 0x40)),
        _ => None,
    }
}
