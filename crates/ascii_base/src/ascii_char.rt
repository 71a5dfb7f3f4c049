//! ASCII characters: the type `AsciiChar`, its class tests, cases and printed forms, and the trait
//! `ToAsciiChar`.
//!
//! Bytes, numbers and `char`s become a character in two ways:
//!
//! | | may not be ASCII | known to be ASCII |
//! |---|---|---|
//! | any of them | `to_ascii_char`, `AsciiChar::from_ascii` | `to_ascii_char_unchecked` |
//! | a `char` | | `AsciiChar::new` |
//! | a byte | | `AsciiChar::from_ascii_unchecked` |
//!
//! A call in the last column checks nothing. It has a condition, which its caller has to prove.
//!
//! Some class tests come in pairs, as `is_alphabetic` and `is_ascii_alphabetic`: upstream has both names. The
//! names without `ascii` are std's for `char`; `is_whitespace` includes vertical tab, as that of `char` does,
//! and `is_ascii_whitespace` does not, as that of `u8`.
//!
//! A contract sees a character as its code, `code_of ch`.

ghost use Rattle.std.specs.Prelude.{◌≡◌, ◌<◌, ◌≤◌, ◌↔◌, IsTrue, ℤ, pos, MatchResult, IsSome, IfSome, Some};
ghost use Rattle.ascii_base.specs.Code.{code_of, code_text};
ghost use Rattle.ascii_base.specs.Class.{IsAlphabetic, digit_value, IsDigitIn, IsDigit, IsAlphanumeric, IsBlank, IsWhitespace, IsAsciiWhitespace, IsControl, IsGraphic, IsPrintable, IsLowercase, IsUppercase, IsPunctuation, IsHexdigit};
ghost use Rattle.ascii_base.specs.Case.{upper_image, lower_image};
ghost use Rattle.ascii_base.specs.Printable.{printable_of};
ghost use Rattle.ascii_base.specs.ToAscii.{HasCode, IsCode, IsNotAscii, not_ascii_text};

use crate::classes::{
    Alphabetic, Alphanumeric, AsciiWhitespace, Blank, Class, Control, Digit, Graphic, Hexdigit,
    Lowercase, Printable, Punctuation, Uppercase, Whitespace,
};
use std::cmp::Ordering;
use std::error::Error;
use std::fmt;
use std::hash::{Hash, Hasher};

/// An ASCII character, one byte wide. The number of a variant is its code.
///
/// Letters and digits have their own names. The other variants are words or, for the control
/// characters, their abbreviations, as upstream names them. Three of these abbreviations differ
/// from those of US-ASCII: 2 is `SOX` (there STX), 14 is `SI` (there SO) and 15 is `SO` (there SI).
///
///     AsciiChar::A.as_byte() // 65
///     AsciiChar::SOX.as_byte() // 2
#[derive(Clone, Copy)]
pub enum AsciiChar {
    Null = 0,
    SOH = 1,
    SOX = 2,
    ETX = 3,
    EOT = 4,
    ENQ = 5,
    ACK = 6,
    Bell = 7,
    BackSpace = 8,
    Tab = 9,
    LineFeed = 10,
    VT = 11,
    FF = 12,
    CarriageReturn = 13,
    SI = 14,
    SO = 15,
    DLE = 16,
    DC1 = 17,
    DC2 = 18,
    DC3 = 19,
    DC4 = 20,
    NAK = 21,
    SYN = 22,
    ETB = 23,
    CAN = 24,
    EM = 25,
    SUB = 26,
    ESC = 27,
    FS = 28,
    GS = 29,
    RS = 30,
    US = 31,
    Space = 32,
    Exclamation = 33,
    Quotation = 34,
    Hash = 35,
    Dollar = 36,
    Percent = 37,
    Ampersand = 38,
    Apostrophe = 39,
    ParenOpen = 40,
    ParenClose = 41,
    Asterisk = 42,
    Plus = 43,
    Comma = 44,
    Minus = 45,
    Dot = 46,
    Slash = 47,
    _0 = 48,
    _1 = 49,
    _2 = 50,
    _3 = 51,
    _4 = 52,
    _5 = 53,
    _6 = 54,
    _7 = 55,
    _8 = 56,
    _9 = 57,
    Colon = 58,
    Semicolon = 59,
    LessThan = 60,
    Equal = 61,
    GreaterThan = 62,
    Question = 63,
    At = 64,
    A = 65,
    B = 66,
    C = 67,
    D = 68,
    E = 69,
    F = 70,
    G = 71,
    H = 72,
    I = 73,
    J = 74,
    K = 75,
    L = 76,
    M = 77,
    N = 78,
    O = 79,
    P = 80,
    Q = 81,
    R = 82,
    S = 83,
    T = 84,
    U = 85,
    V = 86,
    W = 87,
    X = 88,
    Y = 89,
    Z = 90,
    BracketOpen = 91,
    BackSlash = 92,
    BracketClose = 93,
    Caret = 94,
    UnderScore = 95,
    Grave = 96,
    a = 97,
    b = 98,
    c = 99,
    d = 100,
    e = 101,
    f = 102,
    g = 103,
    h = 104,
    i = 105,
    j = 106,
    k = 107,
    l = 108,
    m = 109,
    n = 110,
    o = 111,
    p = 112,
    q = 113,
    r = 114,
    s = 115,
    t = 116,
    u = 117,
    v = 118,
    w = 119,
    x = 120,
    y = 121,
    z = 122,
    CurlyBraceOpen = 123,
    VerticalBar = 124,
    CurlyBraceClose = 125,
    Tilde = 126,
    DEL = 127,
}

impl AsciiChar {
    /// Returns the character whose code is `ch`, or an error if `ch` is not from 0 to 127.
    ///
    ///     AsciiChar::from_ascii(b'a') // Ok('a')
    ///     AsciiChar::from_ascii('č') // Err(not an ASCII character)
    #[inline]
    pub fn from_ascii<C: ToAsciiChar>(ch: C) -> Result<AsciiChar, ToAsciiCharError>
        ensures { MatchResult result (HasCode (C.code ch)) (λ _. IsNotAscii (C.code ch)) }
    {
        ch.to_ascii_char()
    }

    /// Returns the character of a `char`. Nothing is checked.
    ///
    /// Condition: `ch` is ASCII, from 0 to 127.
    ///
    ///     AsciiChar::new('!') // '!'
    ///     AsciiChar::new('\x7f') // '\u{7f}'
    #[inline]
    pub fn new(ch: char) -> AsciiChar
        requires { ch < 128 }
        ensures { code_of result ≡ ch }
    {
        of_low_bits(ch as u8)
    }

    /// Returns the character of a byte. Nothing is checked.
    ///
    /// Condition: `ch` is ASCII, from 0 to 127.
    ///
    ///     AsciiChar::from_ascii_unchecked(0x61) // 'a'
    ///     AsciiChar::from_ascii_unchecked(127) // '\u{7f}'
    #[inline]
    pub fn from_ascii_unchecked(ch: u8) -> AsciiChar
        requires { ch < 128 }
        ensures { code_of result ≡ ch }
    {
        of_low_bits(ch)
    }

    /// Returns the code of the character, from 0 to 127. It costs nothing: the character is that
    /// byte.
    ///
    ///     AsciiChar::LineFeed.as_byte() // 10
    ///     AsciiChar::DEL.as_byte() // 127
    #[inline]
    pub fn as_byte(self) -> u8
        ensures code { result ≡ code_of self }
        ensures small { result < 128 }
    {
        self as u8
    }

    /// Returns the character as a `char`.
    ///
    ///     AsciiChar::Slash.as_char() // '/'
    ///     AsciiChar::Null.as_char() // '\0'
    #[inline]
    pub fn as_char(self) -> char
        ensures code { result ≡ code_of self }
        ensures small { result < 128 }
    {
        self.as_byte() as char
    }

    /// Returns `true` if the character is a letter, `A` to `Z` or `a` to `z`.
    ///
    ///     AsciiChar::a.is_alphabetic() // true
    ///     AsciiChar::UnderScore.is_alphabetic() // false
    #[inline]
    pub fn is_alphabetic(self) -> bool
        ensures { IsTrue result ↔ IsAlphabetic (code_of self) }
    {
        Alphabetic::has(self.as_byte())
    }

    /// Returns `true` if the character is a letter, `A` to `Z` or `a` to `z`.
    ///
    ///     AsciiChar::_7.is_ascii_alphabetic() // false
    ///     AsciiChar::Z.is_ascii_alphabetic() // true
    #[inline]
    pub fn is_ascii_alphabetic(&self) -> bool
        ensures { IsTrue result ↔ IsAlphabetic (code_of self.now) }
    {
        self.is_alphabetic()
    }

    /// Returns `true` if the character is a digit in `radix`: `0` to `9` count for 0 to 9, and the
    /// letters of either case for 10 to 35.
    ///
    /// Condition: `radix` is at most 36.
    ///
    /// In radix 0 there is no digit, in radix 1 only `0`.
    ///
    ///     AsciiChar::f.is_digit(16) // true
    ///     AsciiChar::f.is_digit(10) // false
    #[inline]
    pub fn is_digit(self, radix: u32) -> bool
        requires { radix ≤ 36 }
        ensures { IsTrue result ↔ IsDigitIn radix (code_of self) }
    {
        self.to_digit(radix).is_some()
    }

    /// Returns the value of the character as a digit in `radix`, or `None` if it is not a digit
    /// there: `0` to `9` count for 0 to 9, and the letters of either case for 10 to 35.
    ///
    /// Condition: `radix` is at most 36.
    ///
    /// In radix 0 there is no digit, in radix 1 only `0`.
    ///
    ///     AsciiChar::F.to_digit(16) // Some(15)
    ///     AsciiChar::F.to_digit(15) // None
    #[inline]
    pub fn to_digit(self, radix: u32) -> Option<u32>
        requires { radix ≤ 36 }
        ensures digit { IsSome result ↔ IsDigitIn radix (code_of self) }
        ensures value { IfSome result (λ d. digit_value (code_of self) ≡ Some d) }
    {
        let value = match self.as_byte() {
            digit @ b'0'..=b'9' => u32::from(digit - b'0'),
            letter @ b'a'..=b'z' => u32::from(letter - b'a') + 10,
            letter @ b'A'..=b'Z' => u32::from(letter - b'A') + 10,
            _ => return None,
        };
        (value < radix).then_some(value)
    }

    /// Returns `true` if the character is a decimal digit, `0` to `9`.
    ///
    ///     AsciiChar::_7.is_ascii_digit() // true
    ///     AsciiChar::F.is_ascii_digit() // false
    #[inline]
    pub fn is_ascii_digit(&self) -> bool
        ensures { IsTrue result ↔ IsDigit (code_of self.now) }
    {
        Digit::has(self.as_byte())
    }

    /// Returns `true` if the character is a letter or a decimal digit.
    ///
    ///     AsciiChar::UnderScore.is_alphanumeric() // false
    ///     AsciiChar::_7.is_alphanumeric() // true
    #[inline]
    pub fn is_alphanumeric(self) -> bool
        ensures { IsTrue result ↔ IsAlphanumeric (code_of self) }
    {
        Alphanumeric::has(self.as_byte())
    }

    /// Returns `true` if the character is a letter or a decimal digit.
    ///
    ///     AsciiChar::_7.is_ascii_alphanumeric() // true
    ///     AsciiChar::Minus.is_ascii_alphanumeric() // false
    #[inline]
    pub fn is_ascii_alphanumeric(&self) -> bool
        ensures { IsTrue result ↔ IsAlphanumeric (code_of self.now) }
    {
        self.is_alphanumeric()
    }

    /// Returns `true` if the character is space or tab.
    ///
    ///     AsciiChar::Tab.is_ascii_blank() // true
    ///     AsciiChar::LineFeed.is_ascii_blank() // false
    #[inline]
    pub fn is_ascii_blank(&self) -> bool
        ensures { IsTrue result ↔ IsBlank (code_of self.now) }
    {
        Blank::has(self.as_byte())
    }

    /// Returns `true` if the character is space, tab, line feed, vertical tab, form feed or
    /// carriage return.
    ///
    ///     AsciiChar::VT.is_whitespace() // true
    ///     AsciiChar::VT.is_ascii_whitespace() // false
    #[inline]
    pub fn is_whitespace(self) -> bool
        ensures { IsTrue result ↔ IsWhitespace (code_of self) }
    {
        Whitespace::has(self.as_byte())
    }

    /// Returns `true` if the character is space, tab, line feed, form feed or carriage return, but
    /// not vertical tab.
    ///
    ///     AsciiChar::VT.is_ascii_whitespace() // false
    ///     AsciiChar::FF.is_ascii_whitespace() // true
    #[inline]
    pub fn is_ascii_whitespace(&self) -> bool
        ensures { IsTrue result ↔ IsAsciiWhitespace (code_of self.now) }
    {
        AsciiWhitespace::has(self.as_byte())
    }

    /// Returns `true` if the character is a control character, 0 to 31 or 127.
    ///
    ///     AsciiChar::DEL.is_ascii_control() // true
    ///     AsciiChar::Space.is_ascii_control() // false
    #[inline]
    pub fn is_ascii_control(&self) -> bool
        ensures { IsTrue result ↔ IsControl (code_of self.now) }
    {
        Control::has(self.as_byte())
    }

    /// Returns `true` if the character is visible (graphic): neither a control character nor space.
    ///
    ///     AsciiChar::Space.is_ascii_graphic() // false
    ///     AsciiChar::Tilde.is_ascii_graphic() // true
    #[inline]
    pub fn is_ascii_graphic(&self) -> bool
        ensures { IsTrue result ↔ IsGraphic (code_of self.now) }
    {
        Graphic::has(self.as_byte())
    }

    /// Returns `true` if the character is visible (graphic) or space: not a control character.
    ///
    ///     AsciiChar::Space.is_ascii_printable() // true
    ///     AsciiChar::Tab.is_ascii_printable() // false
    #[inline]
    pub fn is_ascii_printable(&self) -> bool
        ensures { IsTrue result ↔ IsPrintable (code_of self.now) }
    {
        Printable::has(self.as_byte())
    }

    /// Returns `true` if the character is a lowercase letter, `a` to `z`.
    ///
    ///     AsciiChar::a.is_lowercase() // true
    ///     AsciiChar::A.is_lowercase() // false
    #[inline]
    pub fn is_lowercase(self) -> bool
        ensures { IsTrue result ↔ IsLowercase (code_of self) }
    {
        Lowercase::has(self.as_byte())
    }

    /// Returns `true` if the character is a lowercase letter, `a` to `z`.
    ///
    ///     AsciiChar::A.is_ascii_lowercase() // false
    ///     AsciiChar::z.is_ascii_lowercase() // true
    #[inline]
    pub fn is_ascii_lowercase(&self) -> bool
        ensures { IsTrue result ↔ IsLowercase (code_of self.now) }
    {
        self.is_lowercase()
    }

    /// Returns `true` if the character is an uppercase letter, `A` to `Z`.
    ///
    ///     AsciiChar::A.is_uppercase() // true
    ///     AsciiChar::a.is_uppercase() // false
    #[inline]
    pub fn is_uppercase(self) -> bool
        ensures { IsTrue result ↔ IsUppercase (code_of self) }
    {
        Uppercase::has(self.as_byte())
    }

    /// Returns `true` if the character is an uppercase letter, `A` to `Z`.
    ///
    ///     AsciiChar::_7.is_ascii_uppercase() // false
    ///     AsciiChar::Z.is_ascii_uppercase() // true
    #[inline]
    pub fn is_ascii_uppercase(&self) -> bool
        ensures { IsTrue result ↔ IsUppercase (code_of self.now) }
    {
        self.is_uppercase()
    }

    /// Returns `true` if the character is visible (graphic) and neither a letter nor a digit.
    ///
    ///     AsciiChar::Dollar.is_ascii_punctuation() // true
    ///     AsciiChar::Space.is_ascii_punctuation() // false
    #[inline]
    pub fn is_ascii_punctuation(&self) -> bool
        ensures { IsTrue result ↔ IsPunctuation (code_of self.now) }
    {
        Punctuation::has(self.as_byte())
    }

    /// Returns `true` if the character is a hexadecimal digit, in either case.
    ///
    ///     AsciiChar::F.is_ascii_hexdigit() // true
    ///     AsciiChar::G.is_ascii_hexdigit() // false
    #[inline]
    pub fn is_ascii_hexdigit(&self) -> bool
        ensures { IsTrue result ↔ IsHexdigit (code_of self.now) }
    {
        Hexdigit::has(self.as_byte())
    }

    /// Returns a `char` that shows the character: the pictures from U+2400 on for the codes 0 to
    /// 31, U+2421 for delete, and the character itself for all others.
    ///
    ///     AsciiChar::LineFeed.as_printable_char() // '␊'
    ///     AsciiChar::a.as_printable_char() // 'a'
    #[inline]
    pub fn as_printable_char(self) -> char
        ensures { result ≡ printable_of (code_of self) }
    {
        match self.as_byte() {
            control @ 0..=0x1f => char::from_u32(0x2400 + u32::from(control)).unwrap(),
            0x7f => '␡',
            _ => self.as_char(),
        }
    }

    /// Changes a letter `a` to `z` to `A` to `Z`. Every other character is unchanged.
    ///
    ///     let mut chars = [AsciiChar::a, AsciiChar::_7];
    ///     chars.iter_mut().for_each(|ch| ch.make_ascii_uppercase());
    ///     chars // ['A', '7']
    #[inline]
    pub fn make_ascii_uppercase(&mut self)
        ensures { code_of self.new ≡ upper_image (code_of self.old) }
    {
        *self = self.to_ascii_uppercase();
    }

    /// Changes a letter `A` to `Z` to `a` to `z`. Every other character is unchanged.
    ///
    ///     let mut chars = [AsciiChar::A, AsciiChar::_7];
    ///     chars.iter_mut().for_each(|ch| ch.make_ascii_lowercase());
    ///     chars // ['a', '7']
    #[inline]
    pub fn make_ascii_lowercase(&mut self)
        ensures { code_of self.new ≡ lower_image (code_of self.old) }
    {
        *self = self.to_ascii_lowercase();
    }

    /// Returns the uppercase letter for `a` to `z`, and the character itself for every other one.
    ///
    ///     AsciiChar::a.to_ascii_uppercase() // 'A'
    ///     AsciiChar::CurlyBraceOpen.to_ascii_uppercase() // '{'
    #[inline]
    pub fn to_ascii_uppercase(&self) -> AsciiChar
        ensures { code_of result ≡ upper_image (code_of self.now) }
    {
        if self.is_lowercase() {
            of_low_bits(self.as_byte() - 32)
        } else {
            *self
        }
    }

    /// Returns the lowercase letter for `A` to `Z`, and the character itself for every other one.
    ///
    ///     AsciiChar::A.to_ascii_lowercase() // 'a'
    ///     AsciiChar::At.to_ascii_lowercase() // '@'
    #[inline]
    pub fn to_ascii_lowercase(&self) -> AsciiChar
        ensures { code_of result ≡ lower_image (code_of self.now) }
    {
        if self.is_uppercase() {
            of_low_bits(self.as_byte() + 32)
        } else {
            *self
        }
    }

    /// Returns `true` if the two characters are equal, ignoring ASCII case.
    ///
    ///     AsciiChar::a.eq_ignore_ascii_case(&AsciiChar::A) // true
    ///     AsciiChar::At.eq_ignore_ascii_case(&AsciiChar::Grave) // false
    #[inline]
    pub fn eq_ignore_ascii_case(&self, other: &AsciiChar) -> bool
        ensures { IsTrue result
            ↔ (lower_image (code_of self.now) ≡ lower_image (code_of other.now)) }
    {
        self.to_ascii_lowercase() == other.to_ascii_lowercase()
    }
}

/// The character of code 0.
impl Default for AsciiChar {
    ghost is_default = { λ ch. code_of ch ≡ 0 };

    /// Returns the character with code 0.
    ///
    ///     AsciiChar::default() // '\0'
    #[inline]
    fn default() -> AsciiChar {
        AsciiChar::Null
    }
}

impl PartialEq for AsciiChar {
    ghost use Rattle.std.specs.Prelude.{◌==◌};
    ghost use Rattle.std.specs.Ordering.{on};
    ghost use Rattle.std.specs.Cmp.{partial_equiv_from_equiv, on_equiv, nat_eq_equiv};

    ghost eq = { on code_of ◌==◌ };

    ghost laws = { partial_equiv_from_equiv (on_equiv code_of nat_eq_equiv) };

    /// Returns `true` if the codes are equal.
    ///
    ///     AsciiChar::a == AsciiChar::A // false
    ///     AsciiChar::from_ascii(97u8) == Ok(AsciiChar::a) // true
    #[inline]
    fn eq(&self, other: &AsciiChar) -> bool {
        self.as_byte() == other.as_byte()
    }
}

impl Eq for AsciiChar {
    ghost use Rattle.std.specs.Cmp.{on_equiv, nat_eq_equiv};

    ghost laws = { on_equiv code_of nat_eq_equiv };
}

impl PartialOrd for AsciiChar {
    ghost use Rattle.std.specs.Ordering.{on, nat_cmp, as_partial_cmp};
    ghost use Rattle.std.specs.Cmp.{on_po, unsigned_po};

    ghost partial_cmp = { as_partial_cmp (on code_of nat_cmp) };

    ghost laws = { on_po code_of unsigned_po };

    /// Returns the order of the codes.
    ///
    ///     AsciiChar::A < AsciiChar::a // true
    ///     AsciiChar::a < AsciiChar::Z // false
    #[inline]
    fn partial_cmp(&self, other: &AsciiChar) -> Option<Ordering> {
        Some(self.cmp(other))
    }
}

impl Ord for AsciiChar {
    ghost use Rattle.std.specs.Ordering.{on, nat_cmp};
    ghost use Rattle.std.specs.Cmp.{on_total, nat_cmp_total, unsigned_ties};
    ghost use Rattle.std.proofs.Common.{rules};

    ghost cmp = { on code_of nat_cmp };

    ghost total = { on_total code_of nat_cmp_total };

    ghost matches_partial_cmp = { Prim.search rules };

    ghost matches_eq = { λ x y. unsigned_ties (code_of x) (code_of y) };

    /// Returns the order of the codes.
    ///
    ///     AsciiChar::a.cmp(&AsciiChar::A) // Greater
    ///     AsciiChar::_9.cmp(&AsciiChar::A) // Less
    #[inline]
    fn cmp(&self, other: &AsciiChar) -> Ordering {
        self.as_byte().cmp(&other.as_byte())
    }
}

impl Hash for AsciiChar {
    ghost use Rattle.std.specs.Hash as fed;
    ghost use Rattle.std.specs.Cmp.Rules.{hashing};
    ghost use Rattle.std.proofs.Common.{rules};

    ghost hash_input = { λ ch. fed.u8 (code_of ch) };

    ghost respects_eq = { Prim.search (hashing, rules) };

    /// Hashes the code.
    ///
    ///     let mut seen = HashSet::new(alloc);
    ///     seen.insert(AsciiChar::a)? // true
    ///     seen.insert(AsciiChar::a)? // false
    #[inline]
    fn hash<H: Hasher>(&self, state: &mut H) {
        state.write_u8(self.as_byte());
    }
}

impl fmt::Display for AsciiChar {
    ghost use Rattle.std.specs.Prelude.{Some};
    ghost use Rattle.std.specs.Fmt.{styled_text};

    ghost output = { λ ch. Some (code_text ch) };

    ghost styled_output = { λ ch spec. Some (styled_text spec (code_text ch)) };

    /// Writes the character, with the width and the alignment of the format, as for `char`.
    ///
    ///     format!(in alloc; "{}", AsciiChar::a)? // "a"
    ///     format!(in alloc; "{:>3}", AsciiChar::a)? // "  a"
    #[inline]
    fn fmt<W: fmt::Write>(&self, f: &mut fmt::Formatter<W>) -> fmt::Result {
        fmt::Display::fmt(&self.as_char(), f)
    }
}

impl fmt::Debug for AsciiChar {
    ghost use Rattle.std.specs.Prelude.{[], ◌∷◌, ◌++◌, Some};
    ghost use Rattle.std.specs.Fmt.{debug_escape};

    // the escaped character between single quotes
    ghost debug_output = { λ ch. Some (39 ∷ (debug_escape 39 (code_of ch) ++ 39 ∷ [])) };

    /// Writes the character in single quotes, escaped as std escapes a `char`.
    ///
    ///     format!(in alloc; "{:?}", AsciiChar::a)? // "'a'"
    ///     format!(in alloc; "{:?}", AsciiChar::LineFeed)? // "'\\n'"
    #[inline]
    fn fmt<W: fmt::Write>(&self, f: &mut fmt::Formatter<W>) -> fmt::Result {
        fmt::Debug::fmt(&self.as_char(), f)
    }
}

impl From<AsciiChar> for u8 {
    ghost from_gives = { λ ch byte. byte ≡ code_of ch };

    /// Returns the code of the character.
    ///
    ///     u8::from(AsciiChar::a) // 97
    ///     u8::from(AsciiChar::_7) // 55
    #[inline]
    fn from(ch: AsciiChar) -> u8 {
        ch.as_byte()
    }
}

impl From<AsciiChar> for char {
    ghost from_gives = { λ ch point. point ≡ code_of ch };

    /// Returns the character as a `char`.
    ///
    ///     char::from(AsciiChar::a) // 'a'
    ///     char::from(AsciiChar::DEL) // '\u{7f}'
    #[inline]
    fn from(ch: AsciiChar) -> char {
        ch.as_char()
    }
}

/// The error of a value that is not the code of an ASCII character.
#[derive(Clone, Copy, PartialEq, Eq)]
pub struct ToAsciiCharError(());

const MESSAGE: &str = "not an ASCII character";

impl ToAsciiCharError {
    /// Returns the line of the error: `not an ASCII character`.
    ///
    ///     128u8.to_ascii_char().map_err(|e| e.description()) // Err("not an ASCII character")
    ///     127u8.to_ascii_char().map_err(|e| e.description()) // Ok('\u{7f}')
    #[inline]
    pub fn description(&self) -> &'static str
        ensures { result.now ≡ not_ascii_text }
    {
        MESSAGE
    }
}

impl fmt::Debug for ToAsciiCharError {
    ghost use Rattle.std.specs.Prelude.{Some};

    ghost debug_output = { λ _. Some not_ascii_text };

    /// Writes the line of the error, as Display does.
    ///
    ///     128u8.to_ascii_char() // Err(not an ASCII character)
    #[inline]
    fn fmt<W: fmt::Write>(&self, f: &mut fmt::Formatter<W>) -> fmt::Result {
        fmt::Display::fmt(self, f)
    }
}

impl fmt::Display for ToAsciiCharError {
    ghost use Rattle.std.specs.Prelude.{Some};

    ghost output = { λ _. Some not_ascii_text };

    // no option of a hole changes the text
    ghost styled_output = { λ _ _. Some not_ascii_text };

    /// Writes the line of the error: `not an ASCII character`.
    ///
    ///     200u8.to_ascii_char().map_err(|e| e.to_string(alloc)) // Err(Ok("not an ASCII character"))
    #[inline]
    fn fmt<W: fmt::Write>(&self, f: &mut fmt::Formatter<W>) -> fmt::Result {
        f.write_str(self.description())
    }
}

impl Error for ToAsciiCharError {}

/// Values that may be ASCII characters. A contract sees each as a whole number, `code`.
///
///     200u8.to_ascii_char() // Err(not an ASCII character)
///     'a'.to_ascii_char() // Ok('a')
///     97u32.to_ascii_char_unchecked() // 'a'
pub trait ToAsciiChar: Sized {
    ghost code: { Self → ℤ };

    /// Returns the character whose code is the value, or an error if the value is not from 0 to
    /// 127.
    fn to_ascii_char(self) -> Result<AsciiChar, ToAsciiCharError>
        ensures { MatchResult result (HasCode (code self)) (λ _. IsNotAscii (code self)) };

    /// Returns the character whose code is the value. Nothing is checked.
    ///
    /// Condition: the value is from 0 to 127.
    fn to_ascii_char_unchecked(self) -> AsciiChar
        requires { IsCode (code self) }
        ensures { HasCode (code self) result };
}

impl ToAsciiChar for AsciiChar {
    ghost code = { λ ch. pos (code_of ch) };

    #[inline]
    fn to_ascii_char(self) -> Result<AsciiChar, ToAsciiCharError> {
        Ok(self)
    }

    #[inline]
    fn to_ascii_char_unchecked(self) -> AsciiChar {
        self
    }
}

impl ToAsciiChar for u8 {
    ghost code = { λ value. pos value };

    #[inline]
    fn to_ascii_char(self) -> Result<AsciiChar, ToAsciiCharError> {
        of_number(self.into())
    }

    #[inline]
    fn to_ascii_char_unchecked(self) -> AsciiChar {
        of_low_bits(self)
    }
}

impl ToAsciiChar for i8 {
    ghost code = { λ value. value };

    #[inline]
    fn to_ascii_char(self) -> Result<AsciiChar, ToAsciiCharError> {
        of_number(self.cast_unsigned().into())
    }

    #[inline]
    fn to_ascii_char_unchecked(self) -> AsciiChar {
        of_low_bits(self as u8)
    }
}

impl ToAsciiChar for u16 {
    ghost code = { λ value. pos value };

    #[inline]
    fn to_ascii_char(self) -> Result<AsciiChar, ToAsciiCharError> {
        of_number(self.into())
    }

    #[inline]
    fn to_ascii_char_unchecked(self) -> AsciiChar {
        of_low_bits(self as u8)
    }
}

impl ToAsciiChar for u32 {
    ghost code = { λ value. pos value };

    #[inline]
    fn to_ascii_char(self) -> Result<AsciiChar, ToAsciiCharError> {
        of_number(self)
    }

    #[inline]
    fn to_ascii_char_unchecked(self) -> AsciiChar {
        of_low_bits(self as u8)
    }
}

impl ToAsciiChar for char {
    ghost code = { λ value. pos value };

    #[inline]
    fn to_ascii_char(self) -> Result<AsciiChar, ToAsciiCharError> {
        of_number(self.into())
    }

    #[inline]
    fn to_ascii_char_unchecked(self) -> AsciiChar {
        of_low_bits(self as u8)
    }
}

/// Returns the character whose code is the number, or an error if the number is above 127.
#[inline]
fn of_number(number: u32) -> Result<AsciiChar, ToAsciiCharError>
    ensures { MatchResult result (λ ch. code_of ch ≡ number) (λ _. 127 < number) }
{
    if number < 128 {
        Ok(of_low_bits(number as u8))
    } else {
        Err(ToAsciiCharError(()))
    }
}

/// Returns the character of the low seven bits of a byte.
#[inline]
fn of_low_bits(byte: u8) -> AsciiChar
    requires { byte < 128 }
    ensures { code_of result ≡ byte }
{
    match byte & 0x7f {
        0 => AsciiChar::Null,
        1 => AsciiChar::SOH,
        2 => AsciiChar::SOX,
        3 => AsciiChar::ETX,
        4 => AsciiChar::EOT,
        5 => AsciiChar::ENQ,
        6 => AsciiChar::ACK,
        7 => AsciiChar::Bell,
        8 => AsciiChar::BackSpace,
        9 => AsciiChar::Tab,
        10 => AsciiChar::LineFeed,
        11 => AsciiChar::VT,
        12 => AsciiChar::FF,
        13 => AsciiChar::CarriageReturn,
        14 => AsciiChar::SI,
        15 => AsciiChar::SO,
        16 => AsciiChar::DLE,
        17 => AsciiChar::DC1,
        18 => AsciiChar::DC2,
        19 => AsciiChar::DC3,
        20 => AsciiChar::DC4,
        21 => AsciiChar::NAK,
        22 => AsciiChar::SYN,
        23 => AsciiChar::ETB,
        24 => AsciiChar::CAN,
        25 => AsciiChar::EM,
        26 => AsciiChar::SUB,
        27 => AsciiChar::ESC,
        28 => AsciiChar::FS,
        29 => AsciiChar::GS,
        30 => AsciiChar::RS,
        31 => AsciiChar::US,
        32 => AsciiChar::Space,
        33 => AsciiChar::Exclamation,
        34 => AsciiChar::Quotation,
        35 => AsciiChar::Hash,
        36 => AsciiChar::Dollar,
        37 => AsciiChar::Percent,
        38 => AsciiChar::Ampersand,
        39 => AsciiChar::Apostrophe,
        40 => AsciiChar::ParenOpen,
        41 => AsciiChar::ParenClose,
        42 => AsciiChar::Asterisk,
        43 => AsciiChar::Plus,
        44 => AsciiChar::Comma,
        45 => AsciiChar::Minus,
        46 => AsciiChar::Dot,
        47 => AsciiChar::Slash,
        48 => AsciiChar::_0,
        49 => AsciiChar::_1,
        50 => AsciiChar::_2,
        51 => AsciiChar::_3,
        52 => AsciiChar::_4,
        53 => AsciiChar::_5,
        54 => AsciiChar::_6,
        55 => AsciiChar::_7,
        56 => AsciiChar::_8,
        57 => AsciiChar::_9,
        58 => AsciiChar::Colon,
        59 => AsciiChar::Semicolon,
        60 => AsciiChar::LessThan,
        61 => AsciiChar::Equal,
        62 => AsciiChar::GreaterThan,
        63 => AsciiChar::Question,
        64 => AsciiChar::At,
        65 => AsciiChar::A,
        66 => AsciiChar::B,
        67 => AsciiChar::C,
        68 => AsciiChar::D,
        69 => AsciiChar::E,
        70 => AsciiChar::F,
        71 => AsciiChar::G,
        72 => AsciiChar::H,
        73 => AsciiChar::I,
        74 => AsciiChar::J,
        75 => AsciiChar::K,
        76 => AsciiChar::L,
        77 => AsciiChar::M,
        78 => AsciiChar::N,
        79 => AsciiChar::O,
        80 => AsciiChar::P,
        81 => AsciiChar::Q,
        82 => AsciiChar::R,
        83 => AsciiChar::S,
        84 => AsciiChar::T,
        85 => AsciiChar::U,
        86 => AsciiChar::V,
        87 => AsciiChar::W,
        88 => AsciiChar::X,
        89 => AsciiChar::Y,
        90 => AsciiChar::Z,
        91 => AsciiChar::BracketOpen,
        92 => AsciiChar::BackSlash,
        93 => AsciiChar::BracketClose,
        94 => AsciiChar::Caret,
        95 => AsciiChar::UnderScore,
        96 => AsciiChar::Grave,
        97 => AsciiChar::a,
        98 => AsciiChar::b,
        99 => AsciiChar::c,
        100 => AsciiChar::d,
        101 => AsciiChar::e,
        102 => AsciiChar::f,
        103 => AsciiChar::g,
        104 => AsciiChar::h,
        105 => AsciiChar::i,
        106 => AsciiChar::j,
        107 => AsciiChar::k,
        108 => AsciiChar::l,
        109 => AsciiChar::m,
        110 => AsciiChar::n,
        111 => AsciiChar::o,
        112 => AsciiChar::p,
        113 => AsciiChar::q,
        114 => AsciiChar::r,
        115 => AsciiChar::s,
        116 => AsciiChar::t,
        117 => AsciiChar::u,
        118 => AsciiChar::v,
        119 => AsciiChar::w,
        120 => AsciiChar::x,
        121 => AsciiChar::y,
        122 => AsciiChar::z,
        123 => AsciiChar::CurlyBraceOpen,
        124 => AsciiChar::VerticalBar,
        125 => AsciiChar::CurlyBraceClose,
        126 => AsciiChar::Tilde,
        _ => AsciiChar::DEL,
    }
}
