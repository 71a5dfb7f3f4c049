//! Searching views: where a text, a character or a class of characters is, and whether a view contains,
//! starts with or ends with a text. No call of this module allocates.

ghost use Rattle.std.specs.Prelude.{◌≡◌, ◌↔◌, IsTrue, MatchOption, length};
ghost use Rattle.std.specs.List.{All};
ghost use Rattle.memchr.specs.Find.{FindsLastNeedle, FindsNeedle, IsFirstByte, IsLastByte};
ghost use Rattle.memchr.specs.Find.{is_byte};
ghost use Rattle.ascii_base.specs.Bytes.{IsFirstNot};
ghost use Rattle.ascii_base.specs.Code.{code_of};
ghost use Rattle.ascii.specs.ByText.{matches_at};
ghost use Rattle.ascii.specs.Search.{ContainsText, EndsWith, IsPrefix, IsSuffix, StartsWith, Strips};
ghost use Rattle.ascii.specs.View.{text_of};

use crate::ascii_str::AsciiStr;
use crate::iter::cursor::find_first;
use ascii_base::ascii_char::AsciiChar;
use ascii_base::classes::Searched;
use ascii_base::kernels;
use ascii_base::range::AsciiRange;
use ascii_search::short_search;
use memchr::memmem;

impl<'a> AsciiStr<'a> {
    /// Returns the position of the first `needle` in the view, or `None` if the view does not
    /// contain it. An empty needle is found at 0.
    ///
    /// To cut the view there use `split_once_str`; to ask only whether it is there, `contains`.
    ///
    ///     AsciiStr::literal("abcabc").find(AsciiStr::literal("bc")) // Some(1)
    ///     AsciiStr::literal("abcabc").find(AsciiStr::literal("d")) // None
    ///     AsciiStr::literal("abc").find(AsciiStr::literal("")) // Some(0)
    pub fn find(self, needle: AsciiStr<'_>) -> Option<usize>
        ensures { FindsNeedle (text_of self.entry) (text_of needle.entry) 0 result }
    {
        short_search::first_needle(self.bytes, needle.bytes)
    }

    /// Like `find`, but one that is near is found without preparing a search, and inline if it has one
    /// character. For a search that is repeated after each occurrence.
    #[inline(always)]
    pub(crate) fn find_near(self, needle: AsciiStr<'_>) -> Option<usize>
        ensures { FindsNeedle (text_of self.entry) (text_of needle.entry) 0 result }
    {
        if needle.len() == 1 {
            find_first(needle.bytes[0], self.bytes)
        } else {
            short_search::first_needle_near(self.bytes, needle.bytes)
        }
    }

    /// Returns the position of the last `needle` in the view, or `None` if the view does not
    /// contain it. An empty needle is found at the length.
    ///
    /// To cut the view there use `rsplit_once_str`.
    ///
    ///     AsciiStr::literal("abcabc").rfind(AsciiStr::literal("bc")) // Some(4)
    ///     AsciiStr::literal("abcabc").rfind(AsciiStr::literal("d")) // None
    ///     AsciiStr::literal("abc").rfind(AsciiStr::literal("")) // Some(3)
    pub fn rfind(self, needle: AsciiStr<'_>) -> Option<usize>
        ensures { FindsLastNeedle (text_of self.entry) (text_of needle.entry) result }
    {
        memmem::rfind(self.bytes, needle.bytes)
    }

    /// Returns `true` if the view contains `needle`.
    ///
    /// If the position is needed too, use `find`.
    ///
    ///     AsciiStr::literal("abcabc").contains(AsciiStr::literal("ca")) // true
    ///     AsciiStr::literal("abcabc").contains(AsciiStr::literal("ac")) // false
    ///     AsciiStr::literal("abc").contains(AsciiStr::literal("")) // true
    #[tactic(auto, using(crate::proofs::CutLemmas::found_if_contained))]
    pub fn contains(self, needle: AsciiStr<'_>) -> bool
        ensures { IsTrue result ↔ ContainsText (text_of needle.entry) (text_of self.entry) }
    {
        self.find(needle).is_some()
    }

    /// Returns the number of occurrences of `needle` in the view: those of `matches`, which are found
    /// from the left and do not overlap. An empty needle occurs nowhere.
    ///
    /// Searches the view once. If the occurrences are needed too, use `matches`.
    ///
    ///     AsciiStr::literal("banana").count(AsciiStr::literal("an")) // 2
    ///     AsciiStr::literal("aaa").count(AsciiStr::literal("aa")) // 1
    ///     AsciiStr::literal("aaa").count(AsciiStr::literal("")) // 0
    pub fn count(self, needle: AsciiStr<'_>) -> usize
        ensures { result ≡ length (matches_at (text_of needle.entry) (text_of self.entry)) }
    {
        self.matches(needle).count()
    }

    /// Returns the position of the first `ch` in the view, or `None` if the view does not contain
    /// it.
    ///
    /// To cut the view there use `split_once`.
    ///
    ///     AsciiStr::literal("abcabc").position(AsciiChar::b) // Some(1)
    ///     AsciiStr::literal("abcabc").position(AsciiChar::d) // None
    ///     AsciiStr::literal("").position(AsciiChar::b) // None
    pub fn position(self, ch: AsciiChar) -> Option<usize>
        ensures { IsFirstByte (is_byte (code_of ch)) (text_of self.entry) result }
    {
        memchr::memchr(ch.as_byte(), self.bytes)
    }

    /// Returns the position of the last `ch` in the view, or `None` if the view does not contain
    /// it.
    ///
    /// To cut the view there use `rsplit_once`.
    ///
    ///     AsciiStr::literal("abcabc").rposition(AsciiChar::b) // Some(4)
    ///     AsciiStr::literal("abcabc").rposition(AsciiChar::d) // None
    ///     AsciiStr::literal("").rposition(AsciiChar::b) // None
    pub fn rposition(self, ch: AsciiChar) -> Option<usize>
        ensures { IsLastByte (is_byte (code_of ch)) (text_of self.entry) result }
    {
        memchr::memrchr(ch.as_byte(), self.bytes)
    }

    /// Returns `true` if all characters of the view are in the class. The empty view has no other
    /// character, so for it the result is `true`.
    ///
    /// Scans the view once, 32 bytes at a time. If the position of the first other one is needed
    /// too, use `first_not`; to take those at the start, `span`.
    ///
    ///     AsciiStr::literal("2024").is_all::<Digit>() // true
    ///     AsciiStr::literal("2024!").is_all::<Digit>() // false
    ///     AsciiStr::literal("").is_all::<Digit>() // true
    pub fn is_all<C: Searched>(self) -> bool
        ensures { IsTrue result ↔ All C.is (text_of self.entry) }
    {
        self.first_not::<C>().is_none()
    }

    /// Returns the position of the first character of the view that is not in the class, or `None`
    /// if all of them are in it.
    ///
    /// Scans the view once, 32 bytes at a time. If the position does not matter, use `is_all`; to
    /// cut the view there, `span`.
    ///
    ///     AsciiStr::literal("42px").first_not::<Digit>() // Some(2)
    ///     AsciiStr::literal("42").first_not::<Digit>() // None
    ///     AsciiStr::literal("").first_not::<Digit>() // None
    pub fn first_not<C: Searched>(self) -> Option<usize>
        ensures { let text = text_of self.entry in
            MatchOption result (All C.is text) (IsFirstNot C.is text 0 (length text)) }
    {
        kernels::first_not::<C>(self.bytes)
    }

    /// Returns `true` if the view starts with `prefix`.
    ///
    /// To take the rest too, use `strip_prefix`; ignoring ASCII case, `strip_prefix_ignore_ascii_case`.
    ///
    ///     AsciiStr::literal("foobar").starts_with(AsciiStr::literal("foo")) // true
    ///     AsciiStr::literal("foobar").starts_with(AsciiStr::literal("bar")) // false
    ///     AsciiStr::literal("foobar").starts_with(AsciiStr::literal("")) // true
    pub fn starts_with(self, prefix: AsciiStr<'_>) -> bool
        ensures { IsTrue result ↔ StartsWith (text_of prefix.entry) (text_of self.entry) }
    {
        self.strip_prefix(prefix).is_some()
    }

    /// Returns `true` if the view ends with `suffix`.
    ///
    /// To take the rest too, use `strip_suffix`.
    ///
    ///     AsciiStr::literal("foobar").ends_with(AsciiStr::literal("bar")) // true
    ///     AsciiStr::literal("foobar").ends_with(AsciiStr::literal("foo")) // false
    ///     AsciiStr::literal("foobar").ends_with(AsciiStr::literal("")) // true
    pub fn ends_with(self, suffix: AsciiStr<'_>) -> bool
        ensures { IsTrue result ↔ EndsWith (text_of suffix.entry) (text_of self.entry) }
    {
        self.strip_suffix(suffix).is_some()
    }

    /// Returns the view without `prefix`, or `None` if the view does not start with it.
    ///
    /// To ask only whether the view starts so, use `starts_with`.
    ///
    ///     AsciiStr::literal("foobar").strip_prefix(AsciiStr::literal("foo")) // Some("bar")
    ///     AsciiStr::literal("foobar").strip_prefix(AsciiStr::literal("bar")) // None
    ///     AsciiStr::literal("foo").strip_prefix(AsciiStr::literal("foo")) // Some("")
    #[tactic(auto, using(crate::proofs::CutLemmas::prefix_reads, crate::proofs::CutLemmas::joined_at))]
    pub fn strip_prefix(self, prefix: AsciiStr<'_>) -> Option<AsciiStr<'a>>
        ensures { Strips (StartsWith (text_of prefix.entry) (text_of self.entry))
            (IsPrefix (text_of prefix.entry) (text_of self.entry)) result }
    {
        let n = prefix.len();
        if n <= self.len() && self.slice(AsciiRange::To(n)).eq_bytes(prefix.bytes) {
            Some(self.slice(AsciiRange::From(n)))
        } else {
            None
        }
    }

    /// Returns the view without `suffix`, or `None` if the view does not end with it.
    ///
    /// To ask only whether the view ends so, use `ends_with`.
    ///
    ///     AsciiStr::literal("foobar").strip_suffix(AsciiStr::literal("bar")) // Some("foo")
    ///     AsciiStr::literal("foobar").strip_suffix(AsciiStr::literal("foo")) // None
    ///     AsciiStr::literal("foo").strip_suffix(AsciiStr::literal("foo")) // Some("")
    #[tactic(auto, using(crate::proofs::CutLemmas::suffix_reads, crate::proofs::CutLemmas::suffix_fits, crate::proofs::CutLemmas::joined_at))]
    pub fn strip_suffix(self, suffix: AsciiStr<'_>) -> Option<AsciiStr<'a>>
        ensures { Strips (EndsWith (text_of suffix.entry) (text_of self.entry))
            (IsSuffix (text_of suffix.entry) (text_of self.entry)) result }
    {
        let n = suffix.len();
        if self.len() < n {
            return None;
        }
        let start = self.len() - n;
        if self.slice(AsciiRange::From(start)).eq_bytes(suffix.bytes) {
            Some(self.slice(AsciiRange::To(start)))
        } else {
            None
        }
    }
}
