//! Searches and prefixes of views, ignoring ASCII case. No call of this module
//! allocates.

ghost use Rattle.std.specs.Prelude.{◌↔◌, IsTrue, map};
ghost use Rattle.memchr.specs.Find.{FindsNeedle};
ghost use Rattle.ascii_base.specs.Case.{lower_image};
ghost use Rattle.ascii.specs.Search.{ContainsText, IgnoringCase, IsPrefix};
ghost use Rattle.ascii.specs.Search.{StartsWith, Strips};
ghost use Rattle.ascii.specs.View.{text_of};

use crate::ascii_str::AsciiStr;
use ascii_base::range::AsciiRange;
use ascii_search::short_search;

impl<'a> AsciiStr<'a> {
    /// Returns the position of the first `needle` in the view, ignoring ASCII case, or `None` if the
    /// view does not contain it so. An empty needle is found at 0.
    ///
    /// Compares the needle where its first, its middle and its last character are. If that is at too many positions, the
    /// remainder of the view is copied in lower case, a part at a time, and searched by the crate `memchr`. So it takes
    /// linear time if the needle has at most 8,192 characters. At worst a longer one is compared at each position.
    ///
    /// If case matters, use `find`; to ask only whether it is there, `contains_ignore_ascii_case`.
    ///
    ///     AsciiStr::literal("a Host: b").find_ignore_ascii_case(AsciiStr::literal("hOST")) // Some(2)
    ///     AsciiStr::literal("a Host: b").find_ignore_ascii_case(AsciiStr::literal("hosts")) // None
    ///     AsciiStr::literal("abc").find_ignore_ascii_case(AsciiStr::literal("")) // Some(0)
    pub fn find_ignore_ascii_case(self, needle: AsciiStr<'_>) -> Option<usize>
        ensures { FindsNeedle (map lower_image (text_of self.entry))
            (map lower_image (text_of needle.entry)) 0 result }
    {
        short_search::first_needle_ignoring_case(self.bytes, needle.bytes)
    }

    /// Returns `true` if the view contains `needle`, ignoring ASCII case.
    ///
    /// If the position is needed too, use `find_ignore_ascii_case`.
    ///
    ///     AsciiStr::literal("Keep-Alive, close").contains_ignore_ascii_case(AsciiStr::literal("CLOSE")) // true
    ///     AsciiStr::literal("Keep-Alive").contains_ignore_ascii_case(AsciiStr::literal("CLOSE")) // false
    ///     AsciiStr::literal("abc").contains_ignore_ascii_case(AsciiStr::literal("")) // true
    #[tactic(auto, using(crate::proofs::CutLemmas::found_if_contained))]
    pub fn contains_ignore_ascii_case(self, needle: AsciiStr<'_>) -> bool
        ensures { IsTrue result ↔ ContainsText (map lower_image (text_of needle.entry))
            (map lower_image (text_of self.entry)) }
    {
        self.find_ignore_ascii_case(needle).is_some()
    }

    /// Returns the view without `prefix`, or `None` if the view does not start with it,
    /// ignoring ASCII case.
    ///
    ///     AsciiStr::literal("Host: a").strip_prefix_ignore_ascii_case(AsciiStr::literal("hOST:")) // Some(" a")
    ///     AsciiStr::literal("Host: a").strip_prefix_ignore_ascii_case(AsciiStr::literal("a")) // None
    #[tactic(auto, using(crate::proofs::FoldLemmas::folded_reads, crate::proofs::FoldLemmas::folded_fits, crate::proofs::FoldLemmas::folded_rest))]
    pub fn strip_prefix_ignore_ascii_case(self, prefix: AsciiStr<'_>) -> Option<AsciiStr<'a>>
        ensures { Strips
            (IgnoringCase (λ start. StartsWith start (text_of self.entry)) (text_of prefix.entry))
            (λ rest. IgnoringCase (λ start. IsPrefix start (text_of self.entry) rest)
            (text_of prefix.entry)) result }
    {
        let n = prefix.len();
        if n <= self.len() && self.slice(AsciiRange::To(n)).eq_ignore_ascii_case(prefix) {
            Some(self.slice(AsciiRange::From(n)))
        } else {
            None
        }
    }
}
