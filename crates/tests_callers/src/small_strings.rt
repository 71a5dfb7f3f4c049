//! Callers that edit a short string which they were passed: within 24 characters no edit fails.

ghost use Rattle.std.specs.Prelude.{◌≡◌, ◌+◌, ◌<◌, ◌≤◌, ◌++◌, ◌∷◌, [], IsOk, IsOkAnd, drop, insert, length};
ghost use Rattle.std.specs.Prelude.{take};
ghost use Rattle.std.specs.Str.{IsAscii};
ghost use Rattle.ascii.specs.Code.{code_of};
ghost use Rattle.ascii.specs.StringState.{insert_text};
ghost use Rattle.ascii.specs.View.{text_of};

use ascii::{AsciiChar, AsciiStr};
use ascii_run::{ArrayAsciiString, Full, SmallAsciiString};
use std::alloc::AllocError;
use std::fmt::{self, Write};

/// Appends a character to a text of less than 24. It never fails.
pub fn push_short(text: &mut SmallAsciiString, ch: AsciiChar) -> Result<(), AllocError>
    requires { length text.old.text < 24 }
    ensures ok { IsOk result }
    ensures text { text.new.text ≡ text.old.text ++ code_of ch ∷ [] }
{
    text.push(ch)
}

/// Appends a view that leaves the text within 24 characters. It never fails.
pub fn push_str_short(text: &mut SmallAsciiString, view: AsciiStr<'_>) -> Result<(), AllocError>
    requires { length text.old.text + length (text_of view) ≤ 24 }
    ensures ok { IsOk result }
    ensures text { text.new.text ≡ text.old.text ++ text_of view.entry }
{
    text.push_str(view)
}

/// Inserts a character into a text of less than 24. It never fails.
pub fn insert_short(
    text: &mut SmallAsciiString,
    idx: usize,
    ch: AsciiChar,
) -> Result<(), AllocError>
    requires inside { idx ≤ length text.old.text }
    requires short { length text.old.text < 24 }
    ensures ok { IsOk result }
    ensures text { text.new.text ≡ insert text.old.text idx (code_of ch) }
{
    text.insert(idx, ch)
}

/// Inserts a view that leaves the text within 24 characters. It never fails.
pub fn insert_str_short(
    text: &mut SmallAsciiString,
    idx: usize,
    view: AsciiStr<'_>,
) -> Result<(), AllocError>
    requires inside { idx ≤ length text.old.text }
    requires short { length text.old.text + length (text_of view) ≤ 24 }
    ensures ok { IsOk result }
    ensures text { text.new.text ≡ insert_text text.old.text idx (text_of view.entry) }
{
    text.insert_str(idx, view)
}

/// Makes room for more characters, up to 24 in all. It never fails.
pub fn reserve_short(text: &mut SmallAsciiString, more: usize) -> Result<(), AllocError>
    requires { length text.old.text + more ≤ 24 }
    ensures ok { IsOk result }
    ensures text { text.new.text ≡ text.old.text }
{
    text.reserve(more)
}

/// Writes an ASCII text that leaves the string within 24 characters. It never fails.
pub fn write_short(text: &mut SmallAsciiString, piece: &str) -> fmt::Result
    requires ascii { IsAscii piece.now }
    requires short { length text.old.text + length piece.now ≤ 24 }
    ensures ok { IsOk result }
    ensures text { text.new.text ≡ text.old.text ++ piece.now }
{
    text.write_str(piece)
}

/// Keeps the first characters of a text of at most 24, and returns the others. It never fails.
pub fn split_short(text: &mut SmallAsciiString, at: usize) -> Result<SmallAsciiString, AllocError>
    requires inside { at ≤ length text.old.text }
    requires short { length text.old.text ≤ 24 }
    ensures tail { IsOkAnd result (λ tail. tail.text ≡ drop at text.old.text) }
    ensures text { text.new.text ≡ take at text.old.text }
{
    text.split_off(at)
}

/// Appends a character to a text of less than the capacity. It never fails.
pub fn push_fixed(text: &mut ArrayAsciiString<8>, ch: AsciiChar) -> Result<(), Full>
    requires { length text.old.text < 8 }
    ensures ok { IsOk result }
    ensures text { text.new.text ≡ text.old.text ++ code_of ch ∷ [] }
{
    text.push(ch)
}
