//! Views written by characters that print: by the escapes of std, or in caret notation.
//!
//! | Type | What it writes for a character that does not print |
//! |---|---|
//! | `EscapeAscii` | `\t`, `\r`, `\n`, or `\x` and two hexadecimal digits; it also writes `\'`, `\"` and `\\` |
//! | `Caret` | `^` and the caret letter; LF is written as itself |
//!
//! Each returns an iterator over the characters that are written, and `{}` prints them:
//!
//!     EscapeAscii::new(AsciiStr::literal("a\tb")).to_string(alloc)? // "a\\tb"
//!     Caret::new(AsciiStr::literal("a\tb")).to_string(alloc)? // "a^Ib"
//!
//! A contract sees the iterator as the list of codes that it has yet to yield. Nothing here allocates.

ghost use Rattle.std.specs.Prelude.{⊤, ◌≡◌, ◌≢◌, ◌+◌, ◌≤◌, ◌<◌, ℕ, List, [], ◌∷◌, Some};
ghost use Rattle.std.specs.Char.Escape.{backslash, escape_ascii, hex_digit_at};
ghost use Rattle.std.specs.Fmt.{WritesOnOk, WritesStyledOnOk};
ghost use Rattle.std.specs.Iterator.{YieldsFirstBy, YieldsLastBy, item_count};
ghost use Rattle.std.specs.List.{flat_map};
ghost use Rattle.ascii.specs.Code.{code_of};
ghost use Rattle.ascii.specs.Notations.{caret_text};
ghost use Rattle.ascii.specs.View.{text_of};

use ascii::{AsciiChar, AsciiRange, AsciiStr, Chars};
use std::alloc::AllocError;
use std::fmt;
use std::iter::FusedIterator;
use std::marker::{Model, PhantomData};

/// The printable characters, in the order of their codes.
const PRINTABLE: &str =
    " !\"#$%&'()*+,-./0123456789:;<=>?@ABCDEFGHIJKLMNOPQRSTUVWXYZ[\\]^_`abcdefghijklmnopqrstuvwxyz{|}~";

/// The escapes of the codes less than 32 by two hexadecimal digits.
const HEX_ESCAPES: &str = "\
\\x00\\x01\\x02\\x03\\x04\\x05\\x06\\x07\\x08\\x09\\x0a\\x0b\\x0c\\x0d\\x0e\\x0f\
\\x10\\x11\\x12\\x13\\x14\\x15\\x16\\x17\\x18\\x19\\x1a\\x1b\\x1c\\x1d\\x1e\\x1f";

/// The carets and the caret letters of the codes less than 32.
const CARETS: &str = "^@^A^B^C^D^E^F^G^H^I^J^K^L^M^N^O^P^Q^R^S^T^U^V^W^X^Y^Z^[^\\^]^^^_";

/// A way to write each character by characters that print.
///
///     Escapes::write(AsciiChar::Tab) // "\\t"
///     Carets::write(AsciiChar::Tab) // "^I"
pub trait Notation {
    // what is written for a code
    ghost written: { ℕ → List ℕ };

    /// Returns what is written for a character, which is at least one character.
    fn write(ch: AsciiChar) -> AsciiStr<'static>
        ensures text { text_of result ≡ written (code_of ch) }
        ensures some { text_of result ≢ [] };
}

/// The escapes of std's `escape_ascii`.
pub struct Escapes;

impl Notation for Escapes {
    ghost written = { escape_ascii };

    fn write(ch: AsciiChar) -> AsciiStr<'static> {
        let code = ch.as_byte();
        match code {
            b'\t' => AsciiStr::literal("\\t"),
            b'\r' => AsciiStr::literal("\\r"),
            b'\n' => AsciiStr::literal("\\n"),
            b'\'' => AsciiStr::literal("\\'"),
            b'"' => AsciiStr::literal("\\\""),
            b'\\' => AsciiStr::literal("\\\\"),
            127 => AsciiStr::literal("\\x7f"),
            0..=31 => hex_escape(code),
            _ => printable(code),
        }
    }
}

/// Caret notation: a control character is written as `^` and its caret letter. LF is written as
/// itself.
pub struct Carets;

impl Notation for Carets {
    ghost written = { caret_text };

    fn write(ch: AsciiChar) -> AsciiStr<'static> {
        let code = ch.as_byte();
        match code {
            b'\n' => AsciiStr::literal("\n"),
            127 => AsciiStr::literal("^?"),
            0..=31 => caret(code),
            _ => printable(code),
        }
    }
}

/// A printable character as a view.
fn printable(code: u8) -> AsciiStr<'static>
    requires low { 32 ≤ code }
    requires high { code < 127 }
    ensures { text_of result ≡ code ∷ [] }
{
    let at = usize::from(code - 32);
    AsciiStr::literal(PRINTABLE).slice(AsciiRange::Range(at, at + 1))
}

/// The escape of a code by two hexadecimal digits.
fn hex_escape(code: u8) -> AsciiStr<'static>
    requires { code < 32 }
    ensures { text_of result ≡ backslash ∷ 120 ∷ hex_digit_at 16 code ∷ hex_digit_at 1 code ∷ [] }
{
    let at = usize::from(code) * 4;
    AsciiStr::literal(HEX_ESCAPES).slice(AsciiRange::Range(at, at + 4))
}

/// The caret and the caret letter of a code.
fn caret(code: u8) -> AsciiStr<'static>
    requires { code < 32 }
    ensures { text_of result ≡ 94 ∷ (code + 64) ∷ [] }
{
    let at = usize::from(code) * 2;
    AsciiStr::literal(CARETS).slice(AsciiRange::Range(at, at + 2))
}

/// An iterator over the characters that the notation `N` writes for those of a view, in order.
/// Double-ended.
///
/// `EscapeAscii` and `Caret` are names of it.
#[derive(Drop)]
pub struct Written<'a, N: Notation> {
    // What is left of the characters that were written for one at the front, and at the back.
    front: Chars<'static>,
    back: Chars<'static>,
    chars: Chars<'a>,
    notation: PhantomData<N>,
}

/// An iterator over the characters of a view as std's `escape_ascii` writes them.
///
/// Tab, CR, LF, the quotes and the backslash are written as `\t`, `\r`, `\n`, `\'`, `\"` and `\\`, the
/// other control characters as `\x` and two hexadecimal digits in lower case, and all others as
/// themselves. To read them back, use `unescape`.
pub type EscapeAscii<'a> = Written<'a, Escapes>;

/// An iterator over the characters of a view in caret notation.
///
/// A control character other than LF is written as `^` and its caret letter, and the others as
/// themselves. So `^I` may be a tab, or the two characters.
pub type Caret<'a> = Written<'a, Carets>;

impl<'a, N: Notation> Written<'a, N> {
    /// Returns an iterator over the characters that the notation writes for those of the view.
    ///
    ///     EscapeAscii::new(AsciiStr::literal("a\tb\x7f")).to_string(alloc)? // "a\\tb\\x7f"
    ///     Caret::new(AsciiStr::literal("a\tb\x7f")).to_string(alloc)? // "a^Ib^?"
    ///     Caret::new(AsciiStr::literal("a\n")).to_string(alloc)? // "a\n"
    ///     EscapeAscii::new(AsciiStr::literal("")).next() // None
    pub fn new(view: AsciiStr<'a>) -> Written<'a, N>
        ensures { result ≡ flat_map N.written (text_of view.entry) }
    {
        Written {
            front: AsciiStr::default().chars(),
            back: AsciiStr::default().chars(),
            chars: view.chars(),
            notation: PhantomData,
        }
    }
}

impl<'a, N: Notation> Model for Written<'a, N> {
    ghost use Rattle.std.specs.Prelude.{◌++◌, List, ℕ};
    ghost use Rattle.std.specs.List.{flat_map};

    ghost Value = { List ℕ };

    ghost view = { λ written.
        written.front ++ (flat_map N.written written.chars ++ written.back) };
}

impl<N: Notation> Clone for Written<'_, N> {
    ghost is_clone = { λ written copy. copy ≡ written };

    ghost is_infallible = { λ _. ⊤ };

    /// Returns an iterator over the same characters. Always returns `Ok`.
    ///
    ///     EscapeAscii::new(AsciiStr::literal("\t")).clone()?.next() // Some('\\')
    ///     EscapeAscii::new(AsciiStr::literal("")).clone()?.next() // None
    fn clone(&self) -> Result<Self, AllocError> {
        Ok(Written {
            front: self.front.clone()?,
            back: self.back.clone()?,
            chars: self.chars.clone()?,
            notation: PhantomData,
        })
    }
}

impl<N: Notation> Iterator for Written<'_, N> {
    type Item = AsciiChar;

    ghost next_gives = { YieldsFirstBy code_of (λ written. written) };

    ghost remaining = { item_count (λ written. written) };

    /// Returns the next character, or `None` if there are none left; it then keeps returning
    /// `None`.
    ///
    ///     let mut caret = Caret::new(AsciiStr::literal("\t"));
    ///     caret.next() // Some('^')
    ///     caret.next() // Some('I')
    ///     caret.next() // None
    fn next(&mut self) -> Option<AsciiChar> {
        if let Some(ch) = self.front.next() {
            return Some(ch);
        }
        if let Some(ch) = self.chars.next() {
            self.front = N::write(ch).chars();
            return self.front.next();
        }
        self.back.next()
    }
}

impl<N: Notation> DoubleEndedIterator for Written<'_, N> {
    ghost next_back_gives = { YieldsLastBy code_of (λ written. written) };

    /// Returns the last of the remaining characters, or `None` if there are none left; it then
    /// keeps returning `None`.
    ///
    ///     Caret::new(AsciiStr::literal("\t")).next_back() // Some('I')
    ///     Caret::new(AsciiStr::literal("")).next_back() // None
    fn next_back(&mut self) -> Option<AsciiChar> {
        if let Some(ch) = self.back.next_back() {
            return Some(ch);
        }
        if let Some(ch) = self.chars.next_back() {
            self.back = N::write(ch).chars();
            return self.back.next_back();
        }
        self.front.next_back()
    }
}

impl<N: Notation> FusedIterator for Written<'_, N> {}

impl<N: Notation> fmt::Display for Written<'_, N> {
    ghost output = { λ written. Some written };

    ghost styled_output = { λ written _. Some written };

    /// Writes the remaining characters. The options of the format have no effect.
    ///
    ///     format!(in alloc; "{}", EscapeAscii::new(AsciiStr::literal("a\0")))? // "a\\x00"
    ///     format!(in alloc; "{:5}", Caret::new(AsciiStr::literal("\0")))? // "^@"
    fn fmt<W: fmt::Write>(&self, f: &mut fmt::Formatter<W>) -> fmt::Result {
        f.write_str(self.front.as_str().as_str())?;
        write_all::<N, W>(self.chars.as_str(), f)?;
        f.write_str(self.back.as_str().as_str())
    }
}

/// Writes each character of a view in a notation.
fn write_all<N: Notation, W: fmt::Write>(
    view: AsciiStr<'_>,
    f: &mut fmt::Formatter<W>,
) -> fmt::Result
    ensures writes { let text = flat_map N.written (text_of view.entry) in
        WritesOnOk W.write_str_gives f.old result text f.new }
    ensures styled { let text = flat_map N.written (text_of view.entry) in
        WritesStyledOnOk W.write_str_gives f.old result text f.new }
{
    for ch in view {
        f.write_str(N::write(ch).as_str())?;
    }
    Ok(())
}
