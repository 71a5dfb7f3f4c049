//! Cutting a view in two at a character or a text. No call of this module allocates.

ghost use Rattle.std.specs.Prelude.{◌≡◌, ◌+◌, ◌≤◌, ◌∷◌, [], drop, length, take};
ghost use Rattle.std.specs.List.{Contains};
ghost use Rattle.ascii_base.specs.Code.{code_of};
ghost use Rattle.memchr.specs.Find.{Nowhere, OccursAt};
ghost use Rattle.ascii.specs.Search.{ContainsText, SplitsOnce};
ghost use Rattle.ascii.specs.View.{text_of};

use crate::ascii_str::AsciiStr;
use ascii_base::ascii_char::AsciiChar;
use ascii_base::range::AsciiRange;

impl<'a> AsciiStr<'a> {
    /// Returns the parts of the view before and after its first `on`, or `None` if the view does
    /// not contain `on`.
    ///
    /// For all pieces use `split`.
    ///
    ///     AsciiStr::literal("a=b=c").split_once(AsciiChar::Equal) // Some(("a", "b=c"))
    ///     AsciiStr::literal("abc").split_once(AsciiChar::Equal) // None
    ///     AsciiStr::literal("=b").split_once(AsciiChar::Equal) // Some(("", "b"))
    pub fn split_once(self, on: AsciiChar) -> Option<(AsciiStr<'a>, AsciiStr<'a>)>
        ensures { SplitsOnce (Contains (text_of self.entry) (code_of on))
            (λ before after. ¬ (Contains before (code_of on))) (code_of on ∷ [])
            (text_of self.entry) result }
    {
        let mut pieces = self.split(on);
        let before = pieces.next()?;
        let after = pieces.remainder()?;
        Some((before, after))
    }

    /// Returns the parts of the view before and after its last `on`, or `None` if the view does not
    /// contain `on`.
    ///
    /// For all pieces, the last one first, use `rsplit`.
    ///
    ///     AsciiStr::literal("a=b=c").rsplit_once(AsciiChar::Equal) // Some(("a=b", "c"))
    ///     AsciiStr::literal("abc").rsplit_once(AsciiChar::Equal) // None
    ///     AsciiStr::literal("a=").rsplit_once(AsciiChar::Equal) // Some(("a", ""))
    #[tactic(auto, using(crate::proofs::CallerLemmas::join_with_last))]
    pub fn rsplit_once(self, on: AsciiChar) -> Option<(AsciiStr<'a>, AsciiStr<'a>)>
        ensures { SplitsOnce (Contains (text_of self.entry) (code_of on))
            (λ before after. ¬ (Contains after (code_of on))) (code_of on ∷ [])
            (text_of self.entry) result }
    {
        let mut pieces = self.split(on);
        let after = pieces.next_back()?;
        let before = pieces.remainder()?;
        Some((before, after))
    }

    /// Returns the first `mid` characters of the view, and the others. Constant time.
    ///
    /// Condition: `mid` is at most the length.
    ///
    /// If that is not known, use `slice_ascii`.
    ///
    ///     AsciiStr::literal("foobar").split_at(3) // ("foo", "bar")
    ///     AsciiStr::literal("foo").split_at(3) // ("foo", "")
    #[inline]
    pub fn split_at(self, mid: usize) -> (AsciiStr<'a>, AsciiStr<'a>)
        requires { mid ≤ length (text_of self) }
        ensures front { text_of result.0 ≡ take mid (text_of self.entry) }
        ensures rest { text_of result.1 ≡ drop mid (text_of self.entry) }
    {
        let (front, rest) = self.bytes.split_at(mid);
        (AsciiStr { bytes: front }, AsciiStr { bytes: rest })
    }

    /// Returns the parts of the view before and after its first `needle`, or `None` if the view
    /// does not contain `needle`. An empty needle is found at 0.
    ///
    /// For all pieces use `split_str`.
    ///
    ///     AsciiStr::literal("a: b: c").split_once_str(AsciiStr::literal(": ")) // Some(("a", "b: c"))
    ///     AsciiStr::literal("a:b").split_once_str(AsciiStr::literal(": ")) // None
    ///     AsciiStr::literal("a: ").split_once_str(AsciiStr::literal(": ")) // Some(("a", ""))
    #[tactic(auto, using(crate::proofs::CutLemmas::not_found))]
    pub fn split_once_str(self, needle: AsciiStr<'_>) -> Option<(AsciiStr<'a>, AsciiStr<'a>)>
        ensures { SplitsOnce (ContainsText (text_of needle.entry) (text_of self.entry))
            (λ before after. Nowhere (OccursAt (text_of self.entry) (text_of needle.entry))
            0 (length before)) (text_of needle.entry) (text_of self.entry) result }
    {
        let start = self.find(needle)?;
        let end = start + needle.len();
        Some((
            self.slice(AsciiRange::To(start)),
            self.slice(AsciiRange::From(end)),
        ))
    }

    /// Returns the parts of the view before and after its last `needle`, or `None` if the view does
    /// not contain `needle`. An empty needle is found at the length.
    ///
    ///     AsciiStr::literal("a: b: c").rsplit_once_str(AsciiStr::literal(": ")) // Some(("a: b", "c"))
    ///     AsciiStr::literal("a:b").rsplit_once_str(AsciiStr::literal(": ")) // None
    ///     AsciiStr::literal(": a").rsplit_once_str(AsciiStr::literal(": ")) // Some(("", "a"))
    #[tactic(auto, using(crate::proofs::CutLemmas::not_found_last))]
    pub fn rsplit_once_str(self, needle: AsciiStr<'_>) -> Option<(AsciiStr<'a>, AsciiStr<'a>)>
        ensures { SplitsOnce (ContainsText (text_of needle.entry) (text_of self.entry))
            (λ before after. Nowhere (OccursAt (text_of self.entry) (text_of needle.entry))
            (length before + 1) (length (text_of self.entry) + 1)) (text_of needle.entry)
            (text_of self.entry) result }
    {
        let start = self.rfind(needle)?;
        let end = start + needle.len();
        Some((
            self.slice(AsciiRange::To(start)),
            self.slice(AsciiRange::From(end)),
        ))
    }
}
