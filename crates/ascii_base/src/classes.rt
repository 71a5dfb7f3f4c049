//! Classes of bytes, which the searches of `kernels` are for.
//!
//! A class is a type that has no values in use: `Class` says which bytes are in it, and `ClassBy`
//! tests several bytes at once. A class of your own gives the ranges of its bytes, from which both tests
//! come: the page of `Ranges` has an `impl`. A class whose bytes are computed gives its own test of one
//! byte, as `Class` shows, and `impl<const N: usize> ClassBy<N>` without a body tests one byte after the
//! other. A contract sees a class `C` as the set of codes `C.is`.

ghost use Rattle.std.specs.Prelude.{ℕ, Bool, ◌≡◌, ◌<◌, ◌≤◌, ◌+◌, ◌↔◌, IsTrue, List, codes, length};
ghost use Rattle.std.specs.List.{Contains};
ghost use Rattle.std.specs.Bool.{Decides};
ghost use Rattle.std.proofs.Common.{rules};
ghost use Rattle.ascii_base.specs.Class.{IsAlphabetic, IsAlphanumeric, IsAsciiWhitespace, IsAtomCode};
ghost use Rattle.ascii_base.specs.Class.{IsBlank, IsControl, IsDigit, IsFieldTextCode, IsGraphic};
ghost use Rattle.ascii_base.specs.Class.{IsHexdigit, IsLabelCode, IsLowercase, IsPrintable};
ghost use Rattle.ascii_base.specs.Class.{IsPunctuation, IsQuotableCode, IsTokenCode};
ghost use Rattle.ascii_base.specs.Class.{IsUppercase, IsWhitespace, in_ranges};
ghost use Rattle.ascii_base.specs.Lanes.{Marks};
ghost use Rattle.ascii_base.specs.Tests.{is_ascii, is_ascii-decides, is_token, is_token-decides};
ghost use Rattle.ascii_base.specs.declared.classes.TheConstants.{WHITESPACE, UPPERCASE, LOWERCASE};
ghost use Rattle.ascii_base.specs.declared.classes.TheConstants.{ALPHABETIC, DIGIT, ALPHANUMERIC};
ghost use Rattle.ascii_base.specs.declared.classes.TheConstants.{HEXDIGIT, BLANK, ASCII_WHITESPACE};
ghost use Rattle.ascii_base.specs.declared.classes.TheConstants.{CONTROL, GRAPHIC, PRINTABLE};
ghost use Rattle.ascii_base.specs.declared.classes.TheConstants.{PUNCTUATION, TOKEN, LABEL};
ghost use Rattle.ascii_base.specs.declared.classes.TheConstants.{FIELD_TEXT, QUOTABLE, ATOM};

use std::marker::PhantomData;
use std::simd::prelude::*;

/// A class of bytes.
pub trait Class {
    // The bytes of the class.
    ghost is: { ℕ → Type 0 };

    // Whether a byte is in the class.
    ghost test: { ℕ → Bool };

    /// Returns `true` if the byte is in the class.
    ///
    ///     Digit::has(b'7') // true
    ///     Alphabetic::has(0xe9) // false
    fn has(byte: u8) -> bool
        ensures { IsTrue result ↔ is byte };

    // The test is that of the class.
    ghost decides: { (byte : ℕ) → Decides (test byte) (is byte) };
}

/// A class with a test of `N` bytes at once.
pub trait ClassBy<const N: usize>: Class {
    /// Marks the bytes that are not in the class among the `N` bytes from position `at`: bit `k` of
    /// the result is set if byte `at + k` is not in the class.
    ///
    /// Condition: `N` is at most 64, and the `N` bytes are there.
    ///
    /// Without a test of its own, a class tests one byte after the other.
    ///
    ///     <Digit as ClassBy<4>>::marks(b"42px", 0) // 12
    ///     <Digit as ClassBy<4>>::marks(b"v42px", 1) // 12
    #[inline(always)]
    fn marks(bytes: &[u8], at: usize) -> u64
        requires lanes { N ≤ 64 }
        requires room { at + N ≤ length bytes.now }
        ensures { Marks Self.is bytes.now at N result }
    {
        marks_one_by_one::<Self, N>(bytes, at)
    }
}

/// A class that can be searched for: one with tests of 4, 8, 16 and 32 bytes at once.
pub trait Searched: ClassBy<4> + ClassBy<8> + ClassBy<16> + ClassBy<32> {}

impl<C: ClassBy<4> + ClassBy<8> + ClassBy<16> + ClassBy<32>> Searched for C {}

/// Marks the bytes that are not in the class among the `N` from `at` on, one after the other.
#[inline(always)]
fn marks_one_by_one<C: Class, const N: usize>(bytes: &[u8], at: usize) -> u64
    requires lanes { N ≤ 64 }
    requires room { at + N ≤ length bytes.now }
    ensures { Marks C.is bytes.now at N result }
{
    let mut marked = 0;
    for k in 0..N {
        if !C::has(bytes[at + k]) {
            marked |= 1 << k;
        }
    }
    marked
}

/// The ranges of a class, which is `ByRanges` of them. Up to a dozen, the compiled tests have no loop over
/// them.
pub trait Ranges {
    // The bytes of the class.
    ghost set: { ℕ → Type 0 };

    // The first and the last byte of each range.
    ghost list: { List (ℕ × ℕ) };

    /// Returns the first and the last byte of each range.
    ///
    ///     ControlRanges::ranges() // [(0, 31), (127, 127)]
    fn ranges() -> &'static [(u8, u8)]
        ensures { result.now ≡ list };

    // The ranges are those of the class.
    ghost matches: { (n : ℕ) → Decides (in_ranges list n) (set n) };
}

/// The class of the bytes in the ranges `R`.
pub struct ByRanges<R> {
    ranges: PhantomData<R>,
}

impl<R: Ranges> Class for ByRanges<R> {
    ghost is = { R.set };

    ghost test = { in_ranges R.list };

    #[inline(always)]
    fn has(byte: u8) -> bool {
        let mut is_in = false;
        for (low, high) in R::ranges() {
            is_in |= (*low <= byte) & (byte <= *high);
        }
        is_in
    }

    ghost decides = { R.matches };
}

impl<R: Ranges, const N: usize> ClassBy<N> for ByRanges<R> {
    ///     <Alphabetic as ClassBy<4>>::marks(b"a1b2", 0) // 10
    ///     <Alphabetic as ClassBy<4>>::marks(b"abcd", 0) // 0
    #[inline(always)]
    fn marks(bytes: &[u8], at: usize) -> u64
        requires lanes { N ≤ 64 }
        requires room { at + N ≤ length bytes.now }
        ensures { Marks R.set bytes.now at N result }
    {
        let lanes = Simd::<u8, N>::from_slice(&bytes[at..]);
        let mut is_in = Mask::<i8, N>::splat(false);
        for (low, high) in R::ranges() {
            is_in |= lanes.simd_ge(Simd::splat(*low)) & lanes.simd_le(Simd::splat(*high));
        }
        (!is_in).to_bitmask()
    }
}

/// The ASCII bytes: 0 to 127.
pub struct Ascii;

impl Class for Ascii {
    ghost is = { λ byte. byte < 128 };

    ghost test = { is_ascii };

    #[inline(always)]
    fn has(byte: u8) -> bool {
        byte < 128
    }

    ghost decides = { is_ascii-decides };
}

impl<const N: usize> ClassBy<N> for Ascii {
    ///     <Ascii as ClassBy<4>>::marks(b"a\xc4b\xff", 0) // 10
    ///     <Ascii as ClassBy<4>>::marks(b"ab\x7f\x80", 0) // 8
    #[inline(always)]
    fn marks(bytes: &[u8], at: usize) -> u64
        requires lanes { N ≤ 64 }
        requires room { at + N ≤ length bytes.now }
        ensures { Marks (λ byte. byte < 128) bytes.now at N result }
    {
        let lanes = Simd::<u8, N>::from_slice(&bytes[at..]);
        lanes.simd_ge(Simd::splat(128)).to_bitmask()
    }
}

/// The ranges of `Whitespace`.
pub struct WhitespaceRanges;

const WHITESPACE: [(u8, u8); 2] = [(b'\t', b'\r'), (b' ', b' ')];

impl Ranges for WhitespaceRanges {
    ghost set = { IsWhitespace };

    ghost list = { WHITESPACE };

    ghost matches = { λ n. Prim.search rules };

    fn ranges() -> &'static [(u8, u8)] {
        &WHITESPACE
    }
}

/// Space, tab, line feed, vertical tab, form feed and carriage return.
pub type Whitespace = ByRanges<WhitespaceRanges>;

/// The ranges of `Uppercase`.
pub struct UppercaseRanges;

const UPPERCASE: [(u8, u8); 1] = [(b'A', b'Z')];

impl Ranges for UppercaseRanges {
    ghost set = { IsUppercase };

    ghost list = { UPPERCASE };

    ghost matches = { λ n. Prim.search rules };

    fn ranges() -> &'static [(u8, u8)] {
        &UPPERCASE
    }
}

/// The letters `A` to `Z`.
pub type Uppercase = ByRanges<UppercaseRanges>;

/// The ranges of `Lowercase`.
pub struct LowercaseRanges;

const LOWERCASE: [(u8, u8); 1] = [(b'a', b'z')];

impl Ranges for LowercaseRanges {
    ghost set = { IsLowercase };

    ghost list = { LOWERCASE };

    ghost matches = { λ n. Prim.search rules };

    fn ranges() -> &'static [(u8, u8)] {
        &LOWERCASE
    }
}

/// The letters `a` to `z`.
pub type Lowercase = ByRanges<LowercaseRanges>;

/// The ranges of `Alphabetic`.
pub struct AlphabeticRanges;

const ALPHABETIC: [(u8, u8); 2] = [(b'A', b'Z'), (b'a', b'z')];

impl Ranges for AlphabeticRanges {
    ghost set = { IsAlphabetic };

    ghost list = { ALPHABETIC };

    ghost matches = { λ n. Prim.search rules };

    fn ranges() -> &'static [(u8, u8)] {
        &ALPHABETIC
    }
}

/// The letters, `A` to `Z` and `a` to `z`.
pub type Alphabetic = ByRanges<AlphabeticRanges>;

/// The ranges of `Digit`.
pub struct DigitRanges;

const DIGIT: [(u8, u8); 1] = [(b'0', b'9')];

impl Ranges for DigitRanges {
    ghost set = { IsDigit };

    ghost list = { DIGIT };

    ghost matches = { λ n. Prim.search rules };

    fn ranges() -> &'static [(u8, u8)] {
        &DIGIT
    }
}

/// The digits `0` to `9`.
pub type Digit = ByRanges<DigitRanges>;

/// The ranges of `Alphanumeric`.
pub struct AlphanumericRanges;

const ALPHANUMERIC: [(u8, u8); 3] = [(b'0', b'9'), (b'A', b'Z'), (b'a', b'z')];

impl Ranges for AlphanumericRanges {
    ghost set = { IsAlphanumeric };

    ghost list = { ALPHANUMERIC };

    ghost matches = { λ n. Prim.search rules };

    fn ranges() -> &'static [(u8, u8)] {
        &ALPHANUMERIC
    }
}

/// The letters and digits.
pub type Alphanumeric = ByRanges<AlphanumericRanges>;

/// The ranges of `Hexdigit`.
pub struct HexdigitRanges;

const HEXDIGIT: [(u8, u8); 3] = [(b'0', b'9'), (b'A', b'F'), (b'a', b'f')];

impl Ranges for HexdigitRanges {
    ghost set = { IsHexdigit };

    ghost list = { HEXDIGIT };

    ghost matches = { λ n. Prim.search rules };

    fn ranges() -> &'static [(u8, u8)] {
        &HEXDIGIT
    }
}

/// The hexadecimal digits: `0` to `9`, `A` to `F` and `a` to `f`.
pub type Hexdigit = ByRanges<HexdigitRanges>;

/// The ranges of `Blank`.
pub struct BlankRanges;

const BLANK: [(u8, u8); 2] = [(b'\t', b'\t'), (b' ', b' ')];

impl Ranges for BlankRanges {
    ghost set = { IsBlank };

    ghost list = { BLANK };

    ghost matches = { λ n. Prim.search rules };

    fn ranges() -> &'static [(u8, u8)] {
        &BLANK
    }
}

/// Space and tab.
pub type Blank = ByRanges<BlankRanges>;

/// The ranges of `AsciiWhitespace`.
pub struct AsciiWhitespaceRanges;

const ASCII_WHITESPACE: [(u8, u8); 5] = [
    (b'\t', b'\t'),
    (b'\n', b'\n'),
    (12, 12),
    (b'\r', b'\r'),
    (b' ', b' '),
];

impl Ranges for AsciiWhitespaceRanges {
    ghost set = { IsAsciiWhitespace };

    ghost list = { ASCII_WHITESPACE };

    ghost matches = { λ n. Prim.search rules };

    fn ranges() -> &'static [(u8, u8)] {
        &ASCII_WHITESPACE
    }
}

/// Space, tab, line feed, form feed and carriage return, but not vertical tab.
pub type AsciiWhitespace = ByRanges<AsciiWhitespaceRanges>;

/// The ranges of `Control`.
pub struct ControlRanges;

const CONTROL: [(u8, u8); 2] = [(0, 31), (127, 127)];

impl Ranges for ControlRanges {
    ghost set = { IsControl };

    ghost list = { CONTROL };

    ghost matches = { λ n. Prim.search rules };

    fn ranges() -> &'static [(u8, u8)] {
        &CONTROL
    }
}

/// The control characters: 0 to 31, and delete.
pub type Control = ByRanges<ControlRanges>;

/// The ranges of `Graphic`.
pub struct GraphicRanges;

const GRAPHIC: [(u8, u8); 1] = [(b'!', b'~')];

impl Ranges for GraphicRanges {
    ghost set = { IsGraphic };

    ghost list = { GRAPHIC };

    ghost matches = { λ n. Prim.search rules };

    fn ranges() -> &'static [(u8, u8)] {
        &GRAPHIC
    }
}

/// The visible (graphic) characters: `!` to `~`.
pub type Graphic = ByRanges<GraphicRanges>;

/// The ranges of `Printable`.
pub struct PrintableRanges;

const PRINTABLE: [(u8, u8); 1] = [(b' ', b'~')];

impl Ranges for PrintableRanges {
    ghost set = { IsPrintable };

    ghost list = { PRINTABLE };

    ghost matches = { λ n. Prim.search rules };

    fn ranges() -> &'static [(u8, u8)] {
        &PRINTABLE
    }
}

/// The visible (graphic) characters and space.
pub type Printable = ByRanges<PrintableRanges>;

/// The ranges of `Punctuation`.
pub struct PunctuationRanges;

const PUNCTUATION: [(u8, u8); 4] = [(b'!', b'/'), (b':', b'@'), (b'[', b'`'), (b'{', b'~')];

impl Ranges for PunctuationRanges {
    ghost set = { IsPunctuation };

    ghost list = { PUNCTUATION };

    ghost matches = { λ n. Prim.search rules };

    fn ranges() -> &'static [(u8, u8)] {
        &PUNCTUATION
    }
}

/// The visible (graphic) characters that are neither letters nor digits.
pub type Punctuation = ByRanges<PunctuationRanges>;

/// The ranges of `Token`.
struct TokenRanges;

const TOKEN: [(u8, u8); 9] = [
    (b'!', b'!'),
    (b'#', b'\''),
    (b'*', b'+'),
    (b'-', b'.'),
    (b'0', b'9'),
    (b'A', b'Z'),
    (b'^', b'z'),
    (b'|', b'|'),
    (b'~', b'~'),
];

impl Ranges for TokenRanges {
    ghost set = { λ n. IsTrue (in_ranges TOKEN n) };

    ghost list = { TOKEN };

    ghost matches = { λ _. (λ is. is, λ is. is) };

    fn ranges() -> &'static [(u8, u8)] {
        &TOKEN
    }
}

/// The characters of a token, such as the name of a header: letters, digits and fifteen marks.
pub struct Token;

impl Class for Token {
    ghost is = { IsTokenCode };

    ghost test = { is_token };

    #[inline(always)]
    #[tactic(auto, unfolding(crate::specs::Class::IsTokenCode))]
    fn has(byte: u8) -> bool {
        Alphanumeric::has(byte) || is_token_mark(byte)
    }

    ghost decides = { is_token-decides };
}

impl<const N: usize> ClassBy<N> for Token {
    #[inline(always)]
    fn marks(bytes: &[u8], at: usize) -> u64 {
        <ByRanges<TokenRanges> as ClassBy<N>>::marks(bytes, at)
    }
}

/// Whether the byte is one of the marks of a token.
#[inline]
fn is_token_mark(byte: u8) -> bool
    ensures { IsTrue result ↔ Contains (codes "!#$%&'*+-.^_`|~") byte }
{
    b"!#$%&'*+-.^_`|~".contains(&byte)
}

/// The ranges of `Label`.
pub struct LabelRanges;

const LABEL: [(u8, u8); 4] = [(b'0', b'9'), (b'A', b'Z'), (b'a', b'z'), (b'-', b'-')];

impl Ranges for LabelRanges {
    ghost set = { IsLabelCode };

    ghost list = { LABEL };

    ghost matches = { λ n. Prim.search rules };

    fn ranges() -> &'static [(u8, u8)] {
        &LABEL
    }
}

/// The characters of a label of a host name: letters, digits and `-`.
pub type Label = ByRanges<LabelRanges>;

/// The ranges of `FieldText`.
pub struct FieldTextRanges;

const FIELD_TEXT: [(u8, u8); 2] = [(b'\t', b'\t'), (b' ', b'~')];

impl Ranges for FieldTextRanges {
    ghost set = { IsFieldTextCode };

    ghost list = { FIELD_TEXT };

    ghost matches = { λ n. Prim.search rules };

    fn ranges() -> &'static [(u8, u8)] {
        &FIELD_TEXT
    }
}

/// The characters of the value of an HTTP header field: tab, space and the visible (graphic) characters.
pub type FieldText = ByRanges<FieldTextRanges>;

/// The ranges of `Quotable`.
pub struct QuotableRanges;

const QUOTABLE: [(u8, u8); 4] = [(b'\t', b'\t'), (b' ', b'!'), (b'#', b'['), (b']', b'~')];

impl Ranges for QuotableRanges {
    ghost set = { IsQuotableCode };

    ghost list = { QUOTABLE };

    ghost matches = { λ n. Prim.search rules };

    fn ranges() -> &'static [(u8, u8)] {
        &QUOTABLE
    }
}

/// The characters that a quoted string of HTTP or mail may have without a backslash before them: tab,
/// space and the visible (graphic) characters, but not `"` or a backslash.
pub type Quotable = ByRanges<QuotableRanges>;

/// The ranges of `Atom`.
pub struct AtomRanges;

const ATOM: [(u8, u8); 9] = [
    (b'!', b'!'),
    (b'#', b'\''),
    (b'*', b'+'),
    (b'-', b'-'),
    (b'/', b'9'),
    (b'=', b'='),
    (b'?', b'?'),
    (b'A', b'Z'),
    (b'^', b'~'),
];

impl Ranges for AtomRanges {
    ghost set = { IsAtomCode };

    ghost list = { ATOM };

    ghost matches = { λ n. Prim.search rules };

    fn ranges() -> &'static [(u8, u8)] {
        &ATOM
    }
}

/// The characters of an atom of a mail header, such as the part of an address before `@`: letters, digits
/// and nineteen marks.
pub type Atom = ByRanges<AtomRanges>;
