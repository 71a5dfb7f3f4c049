//! Cutting what is in a class of characters off the ends of a view. A class is a type of `classes`, or
//! one of your own. No call of this module allocates.
//!
//! | Call | Result |
//! |---|---|
//! | `span` | what is in the class at the start, and the rest |
//! | `trim_matches` | the view without what is in the class at both ends |
//! | `trim_start_matches`, `trim_end_matches` | the same at one end |
//!
//! A contract sees a class `C` as the set of codes `C.is`.

ghost use Rattle.ascii.specs.Trim.{IsSpan, Trims, TrimsEnd, TrimsStart};
ghost use Rattle.ascii.specs.View.{text_of};

use crate::ascii_str::AsciiStr;
use ascii_base::classes::Searched;
use ascii_base::kernels;

impl<'a> AsciiStr<'a> {
    /// Returns the characters at the start of the view that are in the class, and the rest of the
    /// view. The two parts join to the view.
    ///
    ///     AsciiStr::literal("42px").span::<Digit>() // ("42", "px")
    ///     AsciiStr::literal("px").span::<Digit>() // ("", "px")
    ///     AsciiStr::literal("").span::<Digit>() // ("", "")
    pub fn span<C: Searched>(self) -> (AsciiStr<'a>, AsciiStr<'a>)
        ensures { IsSpan C.is (text_of self.entry) (text_of result.0) (text_of result.1) }
    {
        let end = kernels::first_not::<C>(self.bytes).unwrap_or(self.bytes.len());
        let (front, rest) = self.bytes.split_at(end);
        (AsciiStr { bytes: front }, AsciiStr { bytes: rest })
    }

    /// Returns the view without the characters at both ends that are in the class.
    ///
    /// For whitespace use `trim`.
    ///
    ///     AsciiStr::literal(" \ta b ").trim_matches::<Blank>() // "a b"
    ///     AsciiStr::literal("007").trim_matches::<Digit>() // ""
    ///     AsciiStr::literal("a").trim_matches::<Blank>() // "a"
    pub fn trim_matches<C: Searched>(self) -> AsciiStr<'a>
        ensures { Trims C.is (text_of self.entry) (text_of result) }
    {
        self.trim_start_matches::<C>().trim_end_matches::<C>()
    }

    /// Returns the view without the characters at the start that are in the class.
    ///
    ///     AsciiStr::literal("42px7").trim_start_matches::<Digit>() // "px7"
    ///     AsciiStr::literal("px7").trim_start_matches::<Digit>() // "px7"
    pub fn trim_start_matches<C: Searched>(self) -> AsciiStr<'a>
        ensures { TrimsStart C.is (text_of self.entry) (text_of result) }
    {
        let (_cut, rest) = self.span::<C>();
        rest
    }

    /// Returns the view without the characters at the end that are in the class.
    ///
    ///     AsciiStr::literal("42px7").trim_end_matches::<Digit>() // "42px"
    ///     AsciiStr::literal("42").trim_end_matches::<Digit>() // ""
    pub fn trim_end_matches<C: Searched>(self) -> AsciiStr<'a>
        ensures { TrimsEnd C.is (text_of self.entry) (text_of result) }
    {
        let end = kernels::last_not::<C>(self.bytes).map_or(0, |last| last + 1);
        AsciiStr {
            bytes: &self.bytes[..end],
        }
    }
}
