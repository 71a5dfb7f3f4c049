//! Views of text that is known to be ASCII: reading, slicing, trimming and comparing them.
//!
//! A view is made by `bytes` and `text`.
//!
//! Made by `bin/docs tables`: the other calls of `AsciiStr` are in `text` (`literal`); `trims`
//! (`trim_matches`, `trim_start_matches`, `trim_end_matches`, `span`); `search` (`find`,
//! `contains`, `starts_with`, `ends_with`, `strip_prefix`, `strip_suffix`, `count`, `position`,
//! `first_not`, `is_all`, `rfind`, `rposition`); `folded_search` (`find_ignore_ascii_case`,
//! `contains_ignore_ascii_case`, `strip_prefix_ignore_ascii_case`); `finder` (`lines_with`);
//! `splits` (`split_once`, `rsplit_once`, `split_once_str`, `rsplit_once_str`, `split_at`);
//! `iter::chars` (`chars`); `iter::split` (`split`, `split_spans`, `split_spans_from`);
//! `iter::split_n` (`splitn`); `iter::backwards` (`rsplit`); `iter::ended` (`split_terminator`,
//! `split_inclusive`); `iter::by_text` (`split_str`, `matches`); `iter::by_class` (`split_by`,
//! `words`, `split_whitespace`, `runs`); `iter::lines` (`lines`, `line_spans`, `line_spans_from`);
//! `copies` (`to_ascii_string`, `to_ascii_uppercase`, `to_ascii_lowercase`, `repeat`, `to_chars`);
//! `replace` (`replace`); `json` (`to_json`).

ghost use Rattle.std.specs.Prelude.{◌≡◌, ◌-◌, ◌<◌, ◌↔◌, [], IsOkAnd, IsTrue, OnErr, Some, codes};
ghost use Rattle.std.specs.Prelude.{length, map, slice_get, slice_index};
ghost use Rattle.std.specs.Str.{IsAscii};
ghost use Rattle.std.specs.Option.{option_map};
ghost use Rattle.std.proofs.Props.{props};
ghost use Rattle.ascii_base.specs.Case.{lower_image};
ghost use Rattle.ascii_base.specs.Class.{IsWhitespace};
ghost use Rattle.ascii_base.specs.Code.{code_of};
ghost use Rattle.ascii_base.specs.Range.{Fits, part_of};
ghost use Rattle.ascii.specs.Trim.{Trims, TrimsEnd, TrimsStart};

use ascii_base::ascii_char::AsciiChar;
use ascii_base::kernels;
use ascii_base::range::AsciiRange;
use std::fmt;

/// A borrowed text whose bytes are all ASCII: a `&str` that can hold nothing else.
///
/// The bytes are checked once, when the view is made, and read without a copy. `==`, the order and
/// the hash are those of the bytes, so the order is lexicographic.
///
/// Its calls do not allocate, except those that return a `Result` with `AllocError`.
#[derive(Clone, Copy, PartialEq, Eq, PartialOrd, Ord, Hash)]
pub struct AsciiStr<'a> {
    pub(crate) bytes: &'a [u8],
    ghost ascii: { IsAscii bytes.now } by { Prim.hlevel props },
}

impl<'a> AsciiStr<'a> {
    ghost use Rattle.ascii.specs.Slice.{SliceOutcome};
    ghost use Rattle.ascii.specs.View.{text_of};

    /// Returns the view as a `&str`. Nothing is checked or copied.
    ///
    ///     AsciiStr::literal("foo").as_str() // "foo"
    ///     AsciiStr::literal("").as_str() // ""
    #[inline]
    pub fn as_str(self) -> &'a str
        ensures { result.now ≡ text_of self.entry }
    {
        unsafe { str::from_utf8_unchecked(self.bytes) }
    }

    /// Returns the bytes of the view, one for each character.
    ///
    ///     AsciiStr::literal("foo").as_bytes() // [102, 111, 111]
    ///     AsciiStr::literal("").as_bytes() // []
    #[inline]
    pub fn as_bytes(self) -> &'a [u8]
        ensures codes { result.now ≡ text_of self.entry }
        ensures ascii { IsAscii result.now }
    {
        self.bytes
    }

    /// Returns the number of characters, which is also the number of bytes.
    ///
    ///     AsciiStr::literal("foo").len() // 3
    ///     AsciiStr::literal("").len() // 0
    #[inline]
    pub fn len(self) -> usize
        ensures { result ≡ length (text_of self.entry) }
    {
        self.bytes.len()
    }

    /// Returns `true` if the view has no characters.
    ///
    ///     AsciiStr::literal("").is_empty() // true
    ///     AsciiStr::literal(" ").is_empty() // false
    #[inline]
    pub fn is_empty(self) -> bool
        ensures { IsTrue result ↔ (text_of self.entry ≡ []) }
    {
        self.bytes.is_empty()
    }

    /// Returns the first character, or `None` if the view is empty.
    ///
    ///     AsciiStr::literal("foo").first() // Some('f')
    ///     AsciiStr::literal("").first() // None
    #[inline]
    pub fn first(self) -> Option<AsciiChar>
        ensures { option_map code_of result ≡ slice_get (text_of self.entry) 0 }
    {
        self.get_ascii(0)
    }

    /// Returns the last character, or `None` if the view is empty.
    ///
    ///     AsciiStr::literal("foo").last() // Some('o')
    ///     AsciiStr::literal("").last() // None
    #[inline]
    pub fn last(self) -> Option<AsciiChar>
        ensures { let text = text_of self.entry in
            option_map code_of result ≡ slice_get text (length text - 1) }
    {
        self.get_ascii(self.bytes.len().saturating_sub(1))
    }

    /// Returns the character at position `i`, counted from 0, or `None` if `i` is not less than the
    /// length.
    ///
    ///     AsciiStr::literal("foo").get_ascii(0) // Some('f')
    ///     AsciiStr::literal("foo").get_ascii(3) // None
    #[inline]
    pub fn get_ascii(self, i: usize) -> Option<AsciiChar>
        ensures { option_map code_of result ≡ slice_get (text_of self.entry) i }
    {
        if i < self.bytes.len() {
            Some(self.char_at(i))
        } else {
            None
        }
    }

    /// Returns the character at position `i`, counted from 0.
    ///
    /// Condition: `i` is less than the length.
    ///
    /// If that is not known, use `get_ascii`.
    ///
    ///     AsciiStr::literal("foo").char_at(0) // 'f'
    ///     AsciiStr::literal("foo").char_at(2) // 'o'
    #[inline]
    pub fn char_at(self, i: usize) -> AsciiChar
        requires { i < length (text_of self) }
        ensures { code_of result ≡ slice_index (text_of self.entry) i }
    {
        AsciiChar::from_ascii_unchecked(self.bytes[i])
    }

    /// Returns the view itself as `Ok`: a view never has to be checked again.
    ///
    ///     AsciiStr::literal("foo").as_ascii_str() // Ok("foo")
    ///     AsciiStr::literal("").as_ascii_str() // Ok("")
    #[inline]
    pub fn as_ascii_str(self) -> Result<AsciiStr<'a>, AsAsciiStrError>
        ensures { IsOkAnd result (λ view. text_of view ≡ text_of self.entry) }
    {
        Ok(self)
    }

    /// Returns the part of the view in `range`, or an error with the view's length if `range` does
    /// not fit.
    ///
    ///     AsciiStr::literal("foo").slice_ascii(AsciiRange::To(2)) // Ok("fo")
    ///     AsciiStr::literal("foo").slice_ascii(AsciiRange::To(4)) // Err(AsAsciiStrError(3))
    #[inline]
    pub fn slice_ascii(self, range: AsciiRange) -> Result<AsciiStr<'a>, AsAsciiStrError>
        ensures outcome { SliceOutcome (text_of self.entry) range result }
        ensures unfit { OnErr result (¬ Fits range (length (text_of self.entry))) }
    {
        let len = self.bytes.len();
        if range.fits(len) {
            Ok(self.slice(range))
        } else {
            Err(AsAsciiStrError { valid_up_to: len })
        }
    }

    /// Returns the part of the view in `range`. Constant time.
    ///
    /// Condition: `range` fits the view.
    ///
    /// If that is not known, use `slice_ascii`.
    ///
    ///     AsciiStr::literal("foo").slice(AsciiRange::From(1)) // "oo"
    ///     AsciiStr::literal("foo").slice(AsciiRange::From(3)) // ""
    #[inline]
    pub fn slice(self, range: AsciiRange) -> AsciiStr<'a>
        requires { Fits range (length (text_of self)) }
        ensures { text_of result ≡ part_of (text_of self.entry) range }
    {
        let start = range.start();
        let end = range.end(self.bytes.len());
        AsciiStr {
            bytes: &self.bytes[start..end],
        }
    }

    /// Returns the view without the whitespace at both of its ends: space, tab, line feed, vertical
    /// tab, form feed and carriage return.
    ///
    /// Reads only the whitespace that it removes, and up to one step of 32 bytes more at each end.
    ///
    /// For the characters of another class use `trim_matches`.
    ///
    ///     AsciiStr::literal(" a b\r\n").trim() // "a b"
    ///     AsciiStr::literal("a").trim() // "a"
    ///     AsciiStr::literal(" \t").trim() // ""
    #[inline]
    pub fn trim(self) -> AsciiStr<'a>
        ensures { Trims IsWhitespace (text_of self.entry) (text_of result) }
    {
        self.trim_start().trim_end()
    }

    /// Returns the view without the whitespace at its start. Whitespace is that of `trim`.
    ///
    ///     AsciiStr::literal(" a b ").trim_start() // "a b "
    ///     AsciiStr::literal(" ").trim_start() // ""
    #[inline]
    pub fn trim_start(self) -> AsciiStr<'a>
        ensures { TrimsStart IsWhitespace (text_of self.entry) (text_of result) }
    {
        let start = kernels::first_not_whitespace(self.bytes).unwrap_or(self.bytes.len());
        AsciiStr {
            bytes: &self.bytes[start..],
        }
    }

    /// Returns the view without the whitespace at its end. Whitespace is that of `trim`.
    ///
    ///     AsciiStr::literal(" a b ").trim_end() // " a b"
    ///     AsciiStr::literal(" ").trim_end() // ""
    #[inline]
    pub fn trim_end(self) -> AsciiStr<'a>
        ensures { TrimsEnd IsWhitespace (text_of self.entry) (text_of result) }
    {
        let end = kernels::last_not_whitespace(self.bytes).map_or(0, |last| last + 1);
        AsciiStr {
            bytes: &self.bytes[..end],
        }
    }

    /// Returns `true` if the two views are equal, ignoring ASCII case.
    ///
    /// Compares the lengths and the first character first, and stops at the first step of bytes
    /// that differ.
    ///
    /// For the keys of a map use `folded`.
    ///
    ///     AsciiStr::literal("Host").eq_ignore_ascii_case(AsciiStr::literal("HOST")) // true
    ///     AsciiStr::literal("Host").eq_ignore_ascii_case(AsciiStr::literal("Hos")) // false
    #[inline]
    pub fn eq_ignore_ascii_case(self, other: AsciiStr<'_>) -> bool
        ensures { IsTrue result
            ↔ (map lower_image (text_of self.entry) ≡ map lower_image (text_of other.entry)) }
    {
        kernels::eq_ignore_case(self.bytes, other.bytes)
    }

    /// Returns `true` if the view has the same bytes as a text.
    ///
    ///     AsciiStr::literal("foo").eq_str("foo") // true
    ///     AsciiStr::literal("foo").eq_str("Foo") // false
    #[inline]
    pub fn eq_str(self, other: &str) -> bool
        ensures { IsTrue result ↔ (text_of self.entry ≡ other.now) }
    {
        self.eq_bytes(other.as_bytes())
    }

    /// Returns `true` if the view has these bytes.
    ///
    ///     AsciiStr::literal("foo").eq_bytes(b"foo") // true
    ///     AsciiStr::literal("foo").eq_bytes(b"fo") // false
    #[inline]
    pub fn eq_bytes(self, other: &[u8]) -> bool
        ensures { IsTrue result ↔ (text_of self.entry ≡ other.now) }
    {
        self.bytes == other
    }
}

impl Default for AsciiStr<'_> {
    ghost use Rattle.ascii.specs.View.{text_of};

    ghost is_default = { λ view. text_of view ≡ [] };

    /// Returns the empty view.
    ///
    ///     AsciiStr::default() // ""
    ///     bytes::as_ascii_str(b"ab\xc4").unwrap_or_default() // ""
    fn default() -> Self {
        AsciiStr { bytes: &[] }
    }
}

impl<'a> From<AsciiStr<'a>> for &'a str {
    ghost use Rattle.ascii.specs.View.{text_of};

    ghost from_gives = { λ view text. text.now ≡ text_of view };

    /// Returns the view as a `&str`. Nothing is checked or copied.
    ///
    ///     <&str>::from(AsciiStr::literal("foo")) // "foo"
    ///     <&str>::from(AsciiStr::literal("")) // ""
    fn from(view: AsciiStr<'a>) -> &'a str {
        view.as_str()
    }
}

impl<'a> From<AsciiStr<'a>> for &'a [u8] {
    ghost use Rattle.ascii.specs.View.{text_of};

    ghost from_gives = { λ view bytes. bytes.now ≡ text_of view };

    /// Returns the bytes of the view, one for each character.
    ///
    ///     <&[u8]>::from(AsciiStr::literal("foo")) // [102, 111, 111]
    ///     <&[u8]>::from(AsciiStr::literal("\0\x7f")) // [0, 127]
    fn from(view: AsciiStr<'a>) -> &'a [u8] {
        view.as_bytes()
    }
}

impl fmt::Display for AsciiStr<'_> {
    ghost use Rattle.std.specs.Fmt.{styled_text};
    ghost use Rattle.ascii.specs.View.{text_of};

    ghost output = { λ view. Some (text_of view) };

    ghost styled_output = { λ view spec. Some (styled_text spec (text_of view)) };

    /// Writes the text, with the width, the alignment and the precision of the format, as for
    /// `str`.
    ///
    ///     format!(in alloc; "{}", AsciiStr::literal("a\"b"))? // "a\"b"
    ///     format!(in alloc; "{:>5.2}", AsciiStr::literal("foo"))? // "   fo"
    fn fmt<W: fmt::Write>(&self, f: &mut fmt::Formatter<W>) -> fmt::Result {
        fmt::Display::fmt(&self.as_str(), f)
    }
}

impl fmt::Debug for AsciiStr<'_> {
    ghost use Rattle.ascii.specs.View.{debug_text, text_of};

    ghost debug_output = { λ view. Some (debug_text (text_of view)) };

    /// Writes the text in double quotes, escaped as std escapes it.
    ///
    ///     format!(in alloc; "{:?}", AsciiStr::literal("a\"\0\x7f"))? // "\"a\\\"\\0\\u{7f}\""
    fn fmt<W: fmt::Write>(&self, f: &mut fmt::Formatter<W>) -> fmt::Result {
        fmt::Debug::fmt(&self.as_str(), f)
    }
}

/// The error of a source that is not ASCII text: its range does not fit, or a byte in its range is
/// not ASCII.
#[derive(Clone, Copy, PartialEq, Eq, Hash, PartialOrd, Ord)]
pub struct AsAsciiStrError {
    pub(crate) valid_up_to: usize,
}

impl AsAsciiStrError {
    ghost use Rattle.ascii.specs.View.{position_of};

    /// Returns the error of a source whose first non-ASCII byte is at this position, counted from 0. It is for a caller
    /// that checks a source in pieces, and knows where in the source a piece starts.
    ///
    ///     AsAsciiStrError::new(2) // AsAsciiStrError(2)
    ///     bytes::as_ascii_str(b"ab\xc4") == Err(AsAsciiStrError::new(2)) // true
    #[inline]
    pub fn new(valid_up_to: usize) -> AsAsciiStrError
        ensures { position_of result ≡ valid_up_to }
    {
        AsAsciiStrError { valid_up_to }
    }

    /// Returns the position in the source of the first non-ASCII byte of the range, counted from 0,
    /// or the length of the source if the range does not fit.
    ///
    ///     bytes::as_ascii_str(b"ab\xc4").map_err(AsAsciiStrError::valid_up_to) // Err(2)
    ///     bytes::slice_ascii(b"foo", AsciiRange::To(4)).map_err(|e| e.valid_up_to()) // Err(3)
    #[inline]
    pub fn valid_up_to(self) -> usize
        ensures { result ≡ position_of self }
    {
        self.valid_up_to
    }

    /// Returns the line of the error without the position.
    ///
    ///     bytes::as_ascii_str(b"ab\xc4").map_err(|e| e.description()) // Err("one or more bytes are not ASCII")
    ///     AsAsciiStrError::new(2).to_string(alloc)? // "the byte at index 2 is not ASCII"
    pub fn description(&self) -> &'static str
        ensures { result.now ≡ codes "one or more bytes are not ASCII" }
    {
        "one or more bytes are not ASCII"
    }
}

impl fmt::Display for AsAsciiStrError {
    ghost use Rattle.ascii.specs.View.{error_text, position_of};

    ghost output = { λ e. Some (error_text (position_of e)) };

    /// Writes the line of the error, as `the byte at index 2 is not ASCII`. It says so also if the
    /// range did not fit: the index is then the length of the source.
    ///
    ///     bytes::as_ascii_str(b"ab\xc4").map_err(|e| e.to_string(alloc)) // Err(Ok("the byte at index 2 is not ASCII"))
    ///     let unfit = bytes::slice_ascii(b"foo", AsciiRange::To(4));
    ///     unfit.map_err(|e| e.to_string(alloc)) // Err(Ok("the byte at index 3 is not ASCII"))
    fn fmt<W: fmt::Write>(&self, f: &mut fmt::Formatter<W>) -> fmt::Result {
        let position = self.valid_up_to;
        write!(f, "the byte at index {position} is not ASCII")
    }
}

impl fmt::Debug for AsAsciiStrError {
    /// Writes the position, as `AsAsciiStrError(2)`.
    ///
    ///     bytes::as_ascii_str(b"ab\xc4") // Err(AsAsciiStrError(2))
    ///     bytes::slice_ascii(b"foo", AsciiRange::To(4)) // Err(AsAsciiStrError(3))
    fn fmt<W: fmt::Write>(&self, f: &mut fmt::Formatter<W>) -> fmt::Result {
        f.debug_tuple("AsAsciiStrError")
            .field(&self.valid_up_to)
            .finish()
    }
}
