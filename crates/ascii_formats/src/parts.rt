//! Parts of a text that keep their place in it: for parsers that say where something is.
//!
//! | Call | Result |
//! |---|---|
//! | `of` | all of a text |
//! | `text`, `len`, `is_empty` | what is in the part |
//! | `trim`, `trim_matches` | the part without the whitespace, or what is in a class, at its ends |
//! | `split_once`, `split_once_by`, `split_at`, `span` | the two sides of a cut |
//! | `take_some` | the characters of a class at the start, one at least, and the rest |
//! | `take`, `digits` | such characters up to a number, or a number of digits, and the rest; or an error |
//! | `expect`, `expect_quoted` | what comes after a character, or a quoted text and what comes after it; or an error |
//! | `strip_prefix`, `strip_prefix_char` | what comes after a prefix |
//! | `quoted` | a quoted text and what comes after it, or why there is none |
//! | `split`, `words`, `lines` | an iterator over the pieces, the words or the lines, each as a part |
//! | `to_number` | a number, or an error with the position in the whole text |
//! | `line_and_column`, `fault` | the line and the column of the start; what is wrong there |
//!
//! Each cut does what the call of `AsciiStr` does, and its results are parts of the same text:
//!
//!     let line = Part::of(AsciiStr::literal("port = 80"));
//!     line.split_once(AsciiChar::Equal).map(|(_, value)| value.trim()) // Some(7..9 "80")
//!     line.split_once(AsciiChar::Colon) // None
//!
//! A parser takes something from the start of a part and returns it with the rest. If it is not
//! there, the parser still has the part, and reports it: `Err(part)` says where, and `part.fault(what)` prints it.
//!
//! A contract says of each result that its `whole` is that of the part, and says its `start` and its
//! `end` by equations. So the measure of a loop that takes from the start of `rest` is
//! `l.rest.end - l.rest.start`. Nothing here allocates.

ghost use Rattle.std.specs.Prelude.{◌≡◌, ◌≢◌, ◌<◌, ◌≤◌, ◌↔◌, ◌+◌, ◌-◌, [], ◌∷◌, Some, IfOk};
ghost use Rattle.std.specs.Prelude.{IfSome, IsTrue, MatchOption, MatchResult, OnErr, drop, length};
ghost use Rattle.std.specs.Prelude.{slice_get, take};
ghost use Rattle.std.proofs.Props.{props};
ghost use Rattle.ascii.specs.ByClass.{IsOutside};
ghost use Rattle.ascii.specs.Class.{IsWhitespace};
ghost use Rattle.ascii.specs.Code.{code_of};
ghost use Rattle.ascii.specs.Search.{EndsWith, IsCutAt, IsPrefix, StartsWith};
ghost use Rattle.ascii.specs.Trim.{IsSpan};
ghost use Rattle.ascii.specs.View.{text_of};
ghost use Rattle.ascii_formats.specs.Numbers.{WritesNumberIn};
ghost use Rattle.ascii_formats.specs.Places.{place_at};
ghost use Rattle.ascii_formats.specs.Quotes.{StartsQuoted};

use crate::numbers::{Number, NumberError};
use crate::places::{Fault, Place};
use crate::quotes::QuoteError;
use crate::views::AsciiStrExt;
use ascii::classes::{Digit, Searched, Whitespace};
use ascii::{AsciiChar, AsciiRange, AsciiStr};
use std::fmt;

/// A part of a text, which keeps the text and its place in it: the positions of its start and its
/// end, counted in bytes from 0.
#[derive(Clone, Copy, PartialEq, Eq)]
pub struct Part<'a> {
    /// The whole text.
    pub whole: AsciiStr<'a>,
    /// The position of its first byte; if the part is empty, that of what follows it.
    pub start: usize,
    /// The position after its last byte.
    pub end: usize,
    ghost fits: { (start ≤ end) × (end ≤ length (text_of whole)) } by { Prim.hlevel props },
}

/// What a parser expected at the start of a part.
#[derive(Clone, Copy, Debug)]
pub enum Expected {
    /// This character.
    Char(AsciiChar),
    /// Characters of a class, one at least and at most this number.
    Characters(usize),
    /// This number of digits.
    Digits(usize),
    /// A quoted text.
    Quoted,
    /// Something that has this name.
    Named(&'static str),
}

/// Why a parser stopped.
#[derive(Clone, Copy, Debug)]
pub enum ParseError<'a> {
    /// What it expected is not at the start of this part.
    At(Part<'a>, Expected),
    /// An allocation failed.
    Memory,
}

/// What a parser takes from the start of a part, and the rest of the part; or why it stopped.
pub type Taken<'a, T> = Result<(T, Part<'a>), ParseError<'a>>;

impl<'a> Part<'a> {
    ghost use Rattle.std.specs.List.{Contains};
    ghost use Rattle.ascii_formats.specs.Parts.{AreDigits, AreSidesFrom, AreSidesOf, IsFollowed};
    ghost use Rattle.ascii_formats.specs.Parts.{IsFrontTo, IsQuotedIn, IsTaken, IsUntakable};
    ghost use Rattle.ascii_formats.specs.Parts.{HasNoQuoted, IsCutBy, LacksDigits};
    ghost use Rattle.ascii_formats.specs.Parts.{IsPartFault, IsPartQuoteFault, IsRestFrom};
    ghost use Rattle.ascii_formats.specs.Parts.{IsTrimmed, part_text};

    /// Returns all of a text as a part.
    ///
    ///     Part::of(AsciiStr::literal("ab")) // 0..2 "ab"
    ///     Part::of(AsciiStr::literal("")) // 0..0 ""
    #[tactic(auto, using(crate::proofs::PartsLemmas::whole_range), unfolding(crate::specs::Parts::part_text))]
    pub fn of(text: AsciiStr<'a>) -> Part<'a>
        ensures text { part_text result ≡ text_of text.entry }
        ensures whole { result.whole ≡ text.entry }
        ensures start { result.start ≡ 0 }
        ensures end { result.end ≡ length (text_of text.entry) }
    {
        Part {
            whole: text,
            start: 0,
            end: text.len(),
        }
    }

    /// Returns the text of the part. Constant time.
    ///
    ///     Part::of(AsciiStr::literal(" ab ")).trim().text() // "ab"
    ///     Part::of(AsciiStr::literal("")).text() // ""
    #[tactic(auto, unfolding(crate::specs::Parts::part_text))]
    pub fn text(self) -> AsciiStr<'a>
        ensures { text_of result ≡ part_text self.entry }
    {
        self.whole.slice(AsciiRange::Range(self.start, self.end))
    }

    /// Returns the number of characters of the part, which is also the number of bytes.
    ///
    ///     Part::of(AsciiStr::literal(" ab ")).trim().len() // 2
    ///     Part::of(AsciiStr::literal("")).len() // 0
    #[tactic(auto, using(crate::proofs::PartsLemmas::length_range), unfolding(crate::specs::Parts::part_text))]
    pub fn len(self) -> usize
        ensures text { result ≡ length (part_text self.entry) }
        ensures place { self.entry.start + result ≡ self.entry.end }
    {
        self.end - self.start
    }

    /// Returns `true` if the part has no characters.
    ///
    ///     Part::of(AsciiStr::literal(" ")).trim().is_empty() // true
    ///     Part::of(AsciiStr::literal(" ")).is_empty() // false
    #[tactic(auto, using(crate::proofs::PartsLemmas::empty_range), unfolding(crate::specs::Parts::part_text))]
    pub fn is_empty(self) -> bool
        ensures text { IsTrue result ↔ (part_text self.entry ≡ []) }
        ensures place { IsTrue result ↔ (self.entry.start ≡ self.entry.end) }
    {
        self.start == self.end
    }

    /// Returns the part of this one that ends where it ends and has this text.
    fn rest(self, text: AsciiStr<'a>) -> Part<'a>
        requires { EndsWith (text_of text) (part_text self) }
        ensures text { part_text result ≡ text_of text.entry }
        ensures place { let start = self.entry.end - length (text_of text.entry) in
            IsRestFrom start self.entry result }
        ensures start { result.start + length (text_of text.entry) ≡ self.entry.end }
    {
        Part {
            whole: self.whole,
            start: self.end - text.len(),
            end: self.end,
        }
    }

    /// Returns the part of this one that starts where it starts and has this text.
    #[tactic(auto, using(crate::proofs::PartsLemmas::front_range), unfolding(crate::specs::Parts::part_text))]
    fn front(self, text: AsciiStr<'a>) -> Part<'a>
        requires { StartsWith (text_of text) (part_text self) }
        ensures text { part_text result ≡ text_of text.entry }
        ensures place { let end = self.entry.start + length (text_of text.entry) in
            IsFrontTo end self.entry result }
    {
        Part {
            whole: self.whole,
            start: self.start,
            end: self.start + text.len(),
        }
    }

    /// Returns the part without the whitespace at both of its ends. Whitespace is that of
    /// `AsciiStr::trim`.
    ///
    ///     Part::of(AsciiStr::literal(" a b\r\n")).trim() // 1..4 "a b"
    ///     Part::of(AsciiStr::literal(" \t")).trim() // 2..2 ""
    pub fn trim(self) -> Part<'a>
        ensures { IsTrimmed IsWhitespace self.entry result }
    {
        self.trim_matches::<Whitespace>()
    }

    /// Returns the part without the characters at both of its ends that are in the class.
    ///
    ///     Part::of(AsciiStr::literal("(a-b),")).trim_matches::<Punctuation>() // 1..4 "a-b"
    ///     Part::of(AsciiStr::literal("--")).trim_matches::<Punctuation>() // 2..2 ""
    #[tactic(auto, using(crate::proofs::PartsLemmas::part_lengths))]
    pub fn trim_matches<C: Searched>(self) -> Part<'a>
        ensures { IsTrimmed C.is self.entry result }
    {
        let tail = self.rest(self.text().trim_start_matches::<C>());
        tail.front(tail.text().trim_end_matches::<C>())
    }

    /// Returns the sides of the part before and after its first `on`, or `None` if the part does
    /// not contain `on`.
    ///
    ///     Part::of(AsciiStr::literal("a=b")).split_once(AsciiChar::Equal) // Some((0..1 "a", 2..3 "b"))
    ///     Part::of(AsciiStr::literal("ab")).split_once(AsciiChar::Equal) // None
    #[tactic(auto, using(crate::proofs::PartsLemmas::part_lengths))]
    pub fn split_once(self, on: AsciiChar) -> Option<(Part<'a>, Part<'a>)>
        ensures text { MatchOption result (¬ (Contains (part_text self.entry) (code_of on)))
            (λ sides. IsCutAt (code_of on) (part_text self.entry)
            (part_text sides.0) (part_text sides.1)) }
        ensures place { IfSome result (AreSidesOf 1 self.entry) }
    {
        let (before, after) = self.text().split_once(on)?;
        Some((self.front(before), self.rest(after)))
    }

    /// Returns the sides of the part before and after its first character in the class, or `None` if no
    /// character of the part is in it. That character is in neither side.
    ///
    ///     Part::of(AsciiStr::literal("a\tb c")).split_once_by::<Blank>() // Some((0..1 "a", 2..5 "b c"))
    ///     Part::of(AsciiStr::literal("ab")).split_once_by::<Blank>() // None
    #[tactic(auto, using(crate::proofs::PartsLemmas::cut_by))]
    pub fn split_once_by<C: Searched>(self) -> Option<(Part<'a>, Part<'a>)>
        ensures text { let text = part_text self.entry in MatchOption result (IsOutside C.is text)
            (λ sides. IsCutBy C.is text (part_text sides.0) (part_text sides.1)) }
        ensures place { IfSome result (AreSidesOf 1 self.entry) }
    {
        let at = self.text().find_by::<C>()?;
        let (before, _) = self.split_at(at);
        let (_, after) = self.split_at(at + 1);
        Some((before, after))
    }

    /// Returns the first `mid` characters of the part, and the others. Constant time.
    ///
    /// Condition: `mid` is at most the length of the part.
    ///
    ///     Part::of(AsciiStr::literal("abc")).split_at(1) // (0..1 "a", 1..3 "bc")
    ///     Part::of(AsciiStr::literal("abc")).split_at(3) // (0..3 "abc", 3..3 "")
    #[tactic(auto, using(crate::proofs::PartsLemmas::part_lengths))]
    pub fn split_at(self, mid: usize) -> (Part<'a>, Part<'a>)
        requires { mid ≤ length (part_text self) }
        ensures front { part_text result.0 ≡ take mid (part_text self.entry) }
        ensures rest { part_text result.1 ≡ drop mid (part_text self.entry) }
        ensures place { AreSidesOf 0 self.entry result }
        ensures cut { result.0.end ≡ self.entry.start + mid }
    {
        let (front, rest) = self.text().split_at(mid);
        (self.front(front), self.rest(rest))
    }

    /// Returns the characters at the start of the part that are in the class, and the rest.
    ///
    ///     Part::of(AsciiStr::literal("42px")).span::<Digit>() // (0..2 "42", 2..4 "px")
    ///     Part::of(AsciiStr::literal("px")).span::<Digit>() // (0..0 "", 0..2 "px")
    #[tactic(auto, using(crate::proofs::PartsLemmas::part_lengths))]
    pub fn span<C: Searched>(self) -> (Part<'a>, Part<'a>)
        ensures text { IsSpan C.is (part_text self.entry)
            (part_text result.0) (part_text result.1) }
        ensures place { AreSidesOf 0 self.entry result }
    {
        let (front, rest) = self.text().span::<C>();
        (self.front(front), self.rest(rest))
    }

    /// Returns the characters at the start of the part that are in the class, and the rest, or `None` if
    /// the part does not start with one. The rest is shorter than the part.
    ///
    ///     Part::of(AsciiStr::literal("42px")).take_some::<Digit>() // Some((0..2 "42", 2..4 "px"))
    ///     Part::of(AsciiStr::literal("px")).take_some::<Digit>() // None
    #[tactic(auto, using(crate::proofs::PartsLemmas::part_lengths))]
    pub fn take_some<C: Searched>(self) -> Option<(Part<'a>, Part<'a>)>
        ensures text { MatchOption result
            (IfSome (slice_get (part_text self.entry) 0) (λ first. ¬ (C.is first)))
            (λ sides. IsSpan C.is (part_text self.entry)
            (part_text sides.0) (part_text sides.1)) }
        ensures some { IfSome result (λ sides. part_text sides.0 ≢ []) }
        ensures place { IfSome result (AreSidesOf 0 self.entry) }
        ensures shorter { IfSome result (λ sides. self.entry.start < sides.1.start) }
    {
        let sides = self.span::<C>();
        if sides.0.is_empty() {
            return None;
        }
        Some(sides)
    }

    /// Returns the characters at the start of the part that are in the class, and the rest, or an error if
    /// there are none or more than `most`.
    ///
    ///     Part::of(AsciiStr::literal("42px")).take::<Digit>(3) // Ok((0..2 "42", 2..4 "px"))
    ///     Part::of(AsciiStr::literal("42px")).take::<Digit>(1) // Err(At(0..4 "42px", Characters(1)))
    pub fn take<C: Searched>(self, most: usize) -> Taken<'a, Part<'a>>
        ensures taken { MatchResult result (IsTaken C.is most self.entry)
            (λ error. error ≡ ParseError.At self.entry (Expected.Characters most)) }
        ensures none { OnErr result (IsUntakable C.is most (part_text self.entry)) }
    {
        let (front, rest) = self.span::<C>();
        if front.is_empty() || front.len() > most {
            return Err(ParseError::At(self, Expected::Characters(most)));
        }
        Ok((front, rest))
    }

    /// Returns the first `count` characters of the part, which are digits, and the rest, or an error if
    /// one of them is not a digit, or the part has fewer characters. The rest may start with a digit.
    ///
    ///     Part::of(AsciiStr::literal("0930Z")).digits(2) // Ok((0..2 "09", 2..5 "30Z"))
    ///     Part::of(AsciiStr::literal("9:30Z")).digits(2) // Err(At(0..5 "9:30Z", Digits(2)))
    #[tactic(auto, using(crate::proofs::PartsLemmas::part_lengths))]
    pub fn digits(self, count: usize) -> Taken<'a, Part<'a>>
        ensures taken { MatchResult result (AreDigits count self.entry)
            (λ error. error ≡ ParseError.At self.entry (Expected.Digits count)) }
        ensures none { OnErr result (LacksDigits count (part_text self.entry)) }
    {
        if count <= self.len() {
            let (front, rest) = self.split_at(count);
            if front.text().is_all::<Digit>() {
                return Ok((front, rest));
            }
        }
        Err(ParseError::At(self, Expected::Digits(count)))
    }

    /// Returns the part without `prefix`, or `None` if the part does not start with it.
    ///
    ///     Part::of(AsciiStr::literal("foobar")).strip_prefix(AsciiStr::literal("foo")) // Some(3..6 "bar")
    ///     Part::of(AsciiStr::literal("foobar")).strip_prefix(AsciiStr::literal("bar")) // None
    #[tactic(auto, using(crate::proofs::PartsLemmas::part_lengths))]
    pub fn strip_prefix(self, prefix: AsciiStr<'_>) -> Option<Part<'a>>
        ensures text { MatchOption result
            (¬ (StartsWith (text_of prefix.entry) (part_text self.entry)))
            (λ rest. IsPrefix (text_of prefix.entry) (part_text self.entry) (part_text rest)) }
        ensures place { IfSome result
            (IsRestFrom (self.entry.start + length (text_of prefix.entry)) self.entry) }
    {
        let rest = self.text().strip_prefix(prefix)?;
        Some(self.rest(rest))
    }

    /// Returns the part after `ch`, or `None` if the part does not start with it. Constant time.
    ///
    ///     Part::of(AsciiStr::literal("#x")).strip_prefix_char(AsciiChar::Hash) // Some(1..2 "x")
    ///     Part::of(AsciiStr::literal("x#")).strip_prefix_char(AsciiChar::Hash) // None
    #[tactic(auto, using(crate::proofs::PartsLemmas::part_lengths))]
    pub fn strip_prefix_char(self, ch: AsciiChar) -> Option<Part<'a>>
        ensures text { MatchOption result
            (¬ (StartsWith (code_of ch ∷ []) (part_text self.entry)))
            (λ rest. IsPrefix (code_of ch ∷ []) (part_text self.entry) (part_text rest)) }
        ensures place { IfSome result (IsRestFrom (self.entry.start + 1) self.entry) }
    {
        let rest = self.text().strip_prefix_char(ch)?;
        Some(self.rest(rest))
    }

    /// Returns the part after `ch`, or an error if the part does not start with it. Constant time.
    ///
    ///     Part::of(AsciiStr::literal("#x")).expect(AsciiChar::Hash) // Ok(1..2 "x")
    ///     Part::of(AsciiStr::literal("x#")).expect(AsciiChar::Hash) // Err(At(0..2 "x#", Char('#')))
    pub fn expect(self, ch: AsciiChar) -> Result<Part<'a>, ParseError<'a>>
        ensures followed { MatchResult result (IsFollowed self.entry (code_of ch ∷ []))
            (λ error. error ≡ ParseError.At self.entry (Expected.Char ch)) }
        ensures none { OnErr result (¬ (StartsWith (code_of ch ∷ []) (part_text self.entry))) }
    {
        match self.strip_prefix_char(ch) {
            Some(rest) => Ok(rest),
            None => Err(ParseError::At(self, Expected::Char(ch))),
        }
    }

    /// Returns the text between the quotes at the start of the part, and the part after them, or an
    /// error if the part does not begin with `quote` or nothing closes the text. The position of the
    /// error is the end of the part, in the whole text.
    ///
    /// What closes the text, and what `escape` does, is as in `AsciiStrExt::take_quoted`.
    ///
    ///     Part::of(AsciiStr::literal("'a\\'b' c")).quoted(AsciiChar::Apostrophe, AsciiChar::BackSlash) // Ok((1..5 "a\\'b", 6..8 " c"))
    ///     Part::of(AsciiStr::literal("a")).quoted(AsciiChar::Apostrophe, AsciiChar::BackSlash) // Err(NoQuote)
    ///     Part::of(AsciiStr::literal("'a")).quoted(AsciiChar::Apostrophe, AsciiChar::BackSlash) // Err(NotClosed(2))
    #[tactic(auto, using(crate::proofs::PartsLemmas::part_lengths))]
    pub fn quoted(
        self,
        quote: AsciiChar,
        escape: AsciiChar,
    ) -> Result<(Part<'a>, Part<'a>), QuoteError>
        ensures text { MatchResult result
            (λ taken. StartsQuoted (code_of quote) (code_of escape) (part_text self.entry)
            (part_text taken.0) (part_text taken.1))
            (IsPartQuoteFault (code_of quote) (code_of escape) self.entry) }
        ensures place { IfOk result (AreSidesFrom (self.entry.start + 1) 1 self.entry) }
    {
        match self.text().take_quoted(quote, escape) {
            Ok((inside, rest)) => {
                let (_quote, tail) = self.split_at(1);
                Ok((tail.front(inside), self.rest(rest)))
            }
            Err(QuoteError::NoQuote) => Err(QuoteError::NoQuote),
            Err(QuoteError::NotClosed(_)) => Err(QuoteError::NotClosed(self.end)),
        }
    }

    /// Returns the text between the quotes at the start of the part, and the part after them, or an
    /// error if no quoted text is there; the error of `quoted` also says why.
    ///
    ///     Part::of(AsciiStr::literal("'a' b")).expect_quoted(AsciiChar::Apostrophe, AsciiChar::BackSlash) // Ok((1..2 "a", 3..5 " b"))
    ///     Part::of(AsciiStr::literal("'a")).expect_quoted(AsciiChar::Apostrophe, AsciiChar::BackSlash) // Err(At(0..2 "'a", Quoted))
    #[tactic(auto, using(crate::proofs::PartsLemmas::part_lengths))]
    pub fn expect_quoted(self, quote: AsciiChar, escape: AsciiChar) -> Taken<'a, Part<'a>>
        ensures taken { MatchResult result (IsQuotedIn (code_of quote) (code_of escape) self.entry)
            (λ error. error ≡ ParseError.At self.entry Expected.Quoted) }
        ensures none { OnErr result
            (HasNoQuoted (code_of quote) (code_of escape) (part_text self.entry)) }
    {
        match self.quoted(quote, escape) {
            Ok(sides) => Ok(sides),
            Err(_) => Err(ParseError::At(self, Expected::Quoted)),
        }
    }

    /// Returns the number that the digits of the part write, or an error with the first position at
    /// fault, counted from the start of the whole text. `Empty` has no position: the part is empty, or
    /// for a signed type `-` alone.
    ///
    ///     Part::of(AsciiStr::literal("x=42")).split_at(2).1.to_number::<u8>() // Ok(42)
    ///     Part::of(AsciiStr::literal("x=4a")).split_at(2).1.to_number::<u8>() // Err(NotDigit(3))
    pub fn to_number<N: Number>(self) -> Result<N, NumberError>
        ensures { MatchResult result
            (WritesNumberIn N.range 10 (part_text self.entry))
            (IsPartFault N.range self.entry) }
    {
        match self.text().to_number::<N>() {
            Ok(number) => Ok(number),
            Err(NumberError::Empty) => Err(NumberError::Empty),
            Err(NumberError::NotDigit(at)) => Err(NumberError::NotDigit(self.start + at)),
            Err(NumberError::TooLarge(at)) => Err(NumberError::TooLarge(self.start + at)),
        }
    }

    /// Returns the line and the column of the start of the part in the whole text, both counted from
    /// 1, columns in bytes. A line ends at LF. Scans the whole text up to the start.
    ///
    ///     Part::of(AsciiStr::literal("ab\ncd")).split_at(4).1.line_and_column() // Place { line: 2, column: 2 }
    ///     Part::of(AsciiStr::literal("")).line_and_column() // Place { line: 1, column: 1 }
    pub fn line_and_column(self) -> Place
        ensures { result ≡ place_at (text_of self.entry.whole) self.entry.start }
    {
        self.whole.line_and_column(self.start)
    }

    /// Returns what is wrong at the start of the part, with the line and the column of the start, which
    /// `line_and_column` counts.
    ///
    ///     Part::of(AsciiStr::literal("ab\ncd")).split_at(4).1.fault("no '='").to_string(alloc)? // "2:2: no '='"
    ///     Part::of(AsciiStr::literal("")).fault("no key").place // Place { line: 1, column: 1 }
    pub fn fault<E>(self, what: E) -> Fault<E>
        ensures { let place = place_at (text_of self.entry.whole) self.entry.start in
            result ≡ record { place = place; what = what } }
    {
        self.whole.fault_at(self.start, what)
    }
}

impl fmt::Display for Part<'_> {
    ghost use Rattle.std.specs.Fmt.{styled_text};
    ghost use Rattle.ascii_formats.specs.Parts.{part_text};

    ghost output = { λ part. Some (part_text part) };

    ghost styled_output = { λ part spec. Some (styled_text spec (part_text part)) };

    /// Writes the text of the part, with the width, the alignment and the precision of the format, as
    /// for `str`.
    ///
    ///     Part::of(AsciiStr::literal(" a b ")).trim().to_string(alloc)? // "a b"
    ///     format!(in alloc; "{:>3}", Part::of(AsciiStr::literal("a")))? // "  a"
    fn fmt<W: fmt::Write>(&self, f: &mut fmt::Formatter<W>) -> fmt::Result {
        fmt::Display::fmt(&self.text(), f)
    }
}

impl fmt::Debug for Part<'_> {
    ghost use Rattle.ascii_formats.specs.Parts.{part_debug};

    ghost debug_output = { λ part. Some (part_debug part) };

    /// Writes the start, the end and the text.
    ///
    ///     Part::of(AsciiStr::literal(" a\n")).trim() // 1..2 "a"
    ///     Part::of(AsciiStr::literal("\"\n")) // 0..2 "\"\n"
    fn fmt<W: fmt::Write>(&self, f: &mut fmt::Formatter<W>) -> fmt::Result {
        let text = self.text();
        write!(f, "{}..{} {text:?}", self.start, self.end)
    }
}
