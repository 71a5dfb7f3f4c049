//! Texts to search for that are prepared once, and the lines of a view that contain one of them.
//!
//! | You want | Use |
//! |---|---|
//! | to search one text | `find`, `contains` of a view |
//! | to search many texts for the same one | `Finder` |
//! | .. ignoring ASCII case | `FinderIgnoringCase` |
//! | the lines that contain a text | `lines_with` of a view, with either of these |
//!
//! A contract sees a finder as the text that it searches for, and the iterator as the list of
//! lines that it has yet to yield.
//!
//! Nothing here allocates.

ghost use Rattle.std.specs.Prelude.{⊤, ◌≡◌, ◌≤◌, ◌<◌, ◌^◌, ◌↔◌, ◌∷◌, [], IfSome, IsTrue};
ghost use Rattle.std.specs.Prelude.{List, MatchOption, length, map, ℕ};
ghost use Rattle.std.specs.Iterator.{item_count};
ghost use Rattle.memchr.specs.Find.{FindsNeedle};
ghost use Rattle.ascii_base.specs.Case.{lower_image};
ghost use Rattle.ascii.specs.Found.{IsAfterLines, lines_with, part_in};
ghost use Rattle.ascii.specs.Placed.{ArePlacedLines};
ghost use Rattle.ascii.specs.Search.{ContainsText, IsByCodes};
ghost use Rattle.ascii.specs.Spans.{EndFits, Filters, OfLineSpans, line_in};
ghost use Rattle.ascii.specs.Steps.{DropsFirstSpan, LoopsOverLineSpans, YieldsFirstAnd};
ghost use Rattle.ascii.specs.View.{text_of};

use crate::ascii_str::AsciiStr;
use crate::iter::LineSpan;
use crate::iter::cursor::Cursor;
use ascii_search::short_search::{SHORT, first_needle};
use memchr::memmem;
use std::alloc::AllocError;
use std::iter::FusedIterator;
use std::marker::Model;

/// A finder of either kind, for `lines_with` of a view: a `Finder` or a `FinderIgnoringCase`.
pub trait AnyFinder {
    // the needle, as it is compared
    ghost wanted: { Self → List ℕ };

    // a text, as it is compared
    ghost image: { List ℕ → List ℕ };

    /// Returns the position of the first needle in `text`, or `None` if the text does not contain
    /// it. An empty needle is found at 0.
    ///
    ///     let finder = FinderIgnoringCase::new(AsciiStr::literal("bc"));
    ///     finder.first_in(AsciiStr::literal("aBC")) // Some(1)
    ///     finder.first_in(AsciiStr::literal("acb")) // None
    fn first_in(&self, text: AsciiStr<'_>) -> Option<usize>
        ensures { FindsNeedle (image (text_of text.entry)) (wanted self.now) 0 result };

    /// Returns the number of characters of the needle.
    ///
    ///     Finder::new(AsciiStr::literal("bc")).needle_len() // 2
    fn needle_len(&self) -> usize
        ensures { result ≡ length (wanted self.now) };

    // texts are compared character by character
    ghost by_codes: { IsByCodes image };
}

/// A text to search for, prepared once for any number of searches.
///
/// For a search in one text use `find` or `contains` of a view.
#[derive(Drop)]
pub struct Finder<'n> {
    needle: AsciiStr<'n>,
    prepared: memmem::Finder<'n>,
}

impl<'n> Model for Finder<'n> {
    ghost use Rattle.std.specs.Prelude.{◌≡◌, List, ℕ};
    ghost use Rattle.ascii.specs.View.{text_of};

    ghost Value = { List ℕ };

    ghost view = { λ finder. text_of finder.needle };

    ghost invariant = { λ finder. finder.prepared ≡ text_of finder.needle };
}

impl<'n> Finder<'n> {
    /// Creates a finder for `needle`. Does not allocate.
    ///
    /// Reads the needle once; its searches do not prepare it again.
    ///
    ///     Finder::new(AsciiStr::literal("bc")).find(AsciiStr::literal("abcabc")) // Some(1)
    ///     Finder::new(AsciiStr::literal("")).find(AsciiStr::literal("abc")) // Some(0)
    pub fn new(needle: AsciiStr<'n>) -> Finder<'n>
        ensures { result ≡ text_of needle.entry }
    {
        Finder {
            needle,
            prepared: memmem::Finder::new(needle.bytes),
        }
    }

    /// Returns the text that is searched for.
    ///
    ///     Finder::new(AsciiStr::literal("bc")).needle() // "bc"
    #[inline]
    pub fn needle(&self) -> AsciiStr<'n>
        ensures { text_of result ≡ self.now }
    {
        self.needle
    }

    /// Returns the position of the first needle in `text`, or `None` if the text does not contain
    /// it. An empty needle is found at 0.
    ///
    /// Searches the text once.
    ///
    ///     let finder = Finder::new(AsciiStr::literal("bc"));
    ///     finder.find(AsciiStr::literal("abcabc")) // Some(1)
    ///     finder.find(AsciiStr::literal("acb")) // None
    pub fn find(&self, text: AsciiStr<'_>) -> Option<usize>
        ensures { FindsNeedle (text_of text.entry) self.now 0 result }
    {
        // `first_needle` would prepare a search in each longer text.
        if text.len() > SHORT {
            self.prepared.find(text.bytes)
        } else {
            first_needle(text.bytes, self.needle.bytes)
        }
    }

    /// Returns `true` if `text` contains the needle.
    ///
    /// If the position is needed too, use `find`.
    ///
    ///     let finder = Finder::new(AsciiStr::literal("bc"));
    ///     finder.is_in(AsciiStr::literal("abcabc")) // true
    ///     finder.is_in(AsciiStr::literal("acb")) // false
    ///     Finder::new(AsciiStr::literal("")).is_in(AsciiStr::literal("")) // true
    #[tactic(auto, using(crate::proofs::CutLemmas::found_if_contained))]
    pub fn is_in(&self, text: AsciiStr<'_>) -> bool
        ensures { IsTrue result ↔ ContainsText self.now (text_of text.entry) }
    {
        self.find(text).is_some()
    }
}

impl AnyFinder for Finder<'_> {
    ghost use Rattle.std.specs.Prelude.{refl};

    ghost wanted = { λ finder. finder };

    ghost image = { λ text. text };

    #[inline(always)]
    fn first_in(&self, text: AsciiStr<'_>) -> Option<usize> {
        self.find(text)
    }

    #[inline(always)]
    fn needle_len(&self) -> usize {
        self.needle().len()
    }

    ghost by_codes = { record { joined = λ a b. refl; long = λ text. refl } };
}

/// A text to search for, ignoring ASCII case, prepared once for any number of searches.
///
/// For a search in one text use `find_ignore_ascii_case` or `contains_ignore_ascii_case` of a view.
#[derive(Drop)]
pub struct FinderIgnoringCase<'n> {
    needle: AsciiStr<'n>,
}

impl<'n> Model for FinderIgnoringCase<'n> {
    ghost use Rattle.std.specs.Prelude.{List, ℕ};
    ghost use Rattle.ascii.specs.View.{text_of};

    ghost Value = { List ℕ };

    ghost view = { λ finder. text_of finder.needle };
}

impl<'n> FinderIgnoringCase<'n> {
    /// Creates a finder for `needle`, ignoring ASCII case. Does not allocate.
    ///
    /// Constant time.
    ///
    ///     FinderIgnoringCase::new(AsciiStr::literal("bC")).find(AsciiStr::literal("aBcabc")) // Some(1)
    ///     FinderIgnoringCase::new(AsciiStr::literal("")).find(AsciiStr::literal("abc")) // Some(0)
    pub fn new(needle: AsciiStr<'n>) -> FinderIgnoringCase<'n>
        ensures { result ≡ text_of needle.entry }
    {
        FinderIgnoringCase { needle }
    }

    /// Returns the text that is searched for.
    ///
    ///     FinderIgnoringCase::new(AsciiStr::literal("bC")).needle() // "bC"
    #[inline]
    pub fn needle(&self) -> AsciiStr<'n>
        ensures { text_of result ≡ self.now }
    {
        self.needle
    }

    /// Returns the position of the first needle in `text`, ignoring ASCII case, or `None` if the
    /// text does not contain it so. An empty needle is found at 0.
    ///
    /// Takes linear time if the needle has at most 8,192 characters. At worst a longer one is
    /// compared at each position.
    ///
    ///     let finder = FinderIgnoringCase::new(AsciiStr::literal("bC"));
    ///     finder.find(AsciiStr::literal("aBcabc")) // Some(1)
    ///     finder.find(AsciiStr::literal("acb")) // None
    pub fn find(&self, text: AsciiStr<'_>) -> Option<usize>
        ensures { FindsNeedle (map lower_image (text_of text.entry)) (map lower_image self.now)
            0 result }
    {
        text.find_ignore_ascii_case(self.needle)
    }

    /// Returns `true` if `text` contains the needle, ignoring ASCII case.
    ///
    /// If the position is needed too, use `find`.
    ///
    ///     let finder = FinderIgnoringCase::new(AsciiStr::literal("bC"));
    ///     finder.is_in(AsciiStr::literal("aBcabc")) // true
    ///     finder.is_in(AsciiStr::literal("acb")) // false
    ///     FinderIgnoringCase::new(AsciiStr::literal("")).is_in(AsciiStr::literal("")) // true
    #[tactic(auto, using(crate::proofs::CutLemmas::found_if_contained))]
    pub fn is_in(&self, text: AsciiStr<'_>) -> bool
        ensures { IsTrue result ↔ ContainsText (map lower_image self.now)
            (map lower_image (text_of text.entry)) }
    {
        self.find(text).is_some()
    }
}

impl AnyFinder for FinderIgnoringCase<'_> {
    ghost use Rattle.std.proofs.lemmas.List.{length-map, map-append};

    ghost wanted = { map lower_image };

    ghost image = { map lower_image };

    #[inline(always)]
    fn first_in(&self, text: AsciiStr<'_>) -> Option<usize> {
        self.find(text)
    }

    #[inline(always)]
    fn needle_len(&self) -> usize {
        self.needle().len()
    }

    ghost by_codes = { record {
      joined = map-append lower_image;
      long = λ text. length-map text lower_image;
    } };
}

/// The first line of the part whose body contains the needle, and the part after its ending. If
/// the needle that is found first goes past the body of its line, the line does not contain it.
fn first_line_with<'a, F: AnyFinder>(
    finder: &F,
    part: Cursor<'a>,
) -> Option<(LineSpan<'a>, Cursor<'a>)>
    ensures lines { MatchOption result
        (lines_with F.image (F.wanted finder.now) (part_in part.entry) ≡ [])
        (λ cut. lines_with F.image (F.wanted finder.now) (part_in part.entry)
        ≡ line_in cut.0 ∷ lines_with F.image (F.wanted finder.now) (part_in cut.1)) }
    ensures fits { IfSome result (λ cut. EndFits cut.0.start cut.0.text) }
{
    let mut left = part;
    while let Some(place) = finder.first_in(left.view) {
        let (line, others) = from_line_at(left, place).first_line()?;
        let end = left.start + place + finder.needle_len();
        if end <= line.start + line.text.len() {
            return Some((line, others));
        }
        left = others;
    }
    None
}

/// The part from the start of the line that a position is in.
#[inline(always)]
fn from_line_at<'a>(part: Cursor<'a>, place: usize) -> Cursor<'a>
    requires { place ≤ length (text_of part.view) }
    ensures { IsAfterLines place (part_in part.entry) (part_in result) }
{
    let (before, _) = part.to(place).split_after_last(b'\n');
    part.from(before.view.len())
}

/// An iterator over the lines of a view whose body contains the needle of a finder, each with its
/// start and its ending.
#[derive(Drop)]
pub struct LinesWith<'a, 'f, F: AnyFinder> {
    // The text that is left to search.
    cursor: Cursor<'a>,
    finder: &'f F,
}

impl<'a, 'f, F: AnyFinder> Model for LinesWith<'a, 'f, F> {
    ghost use Rattle.std.specs.Prelude.{List};
    ghost use Rattle.ascii.specs.Found.{lines_with, part_in};
    ghost use Rattle.ascii.specs.Lines.{Line};
    ghost use Rattle.ascii.specs.Spans.{WithStart};

    ghost Value = { List (WithStart Line) };

    ghost view = { λ lines.
        lines_with F.image (F.wanted lines.finder.now) (part_in lines.cursor) };
}

impl<F: AnyFinder> Clone for LinesWith<'_, '_, F> {
    ghost is_clone = { λ lines copy. copy ≡ lines };

    ghost is_infallible = { λ _. ⊤ };

    /// Returns an iterator with the same remaining lines, starts and endings. Always returns `Ok`.
    ///
    ///     let finder = Finder::new(AsciiStr::literal("b"));
    ///     AsciiStr::literal("a\nb").lines_with(&finder).clone()?.count() // 1
    ///     AsciiStr::literal("a\nc").lines_with(&finder).clone()?.count() // 0
    fn clone(&self) -> Result<Self, AllocError> {
        Ok(LinesWith {
            cursor: self.cursor,
            finder: self.finder,
        })
    }
}

impl<'a, F: AnyFinder> Iterator for LinesWith<'a, '_, F> {
    type Item = LineSpan<'a>;

    ghost next_gives = { YieldsFirstAnd line_in (λ lines. lines) DropsFirstSpan };

    ghost remaining = { item_count (λ lines. lines) };

    /// Returns the next line that contains the needle, with its start and its ending, or `None` if
    /// there are none left; it then keeps returning `None`.
    ///
    ///     let finder = Finder::new(AsciiStr::literal("b"));
    ///     let mut lines = AsciiStr::literal("a\nb").lines_with(&finder);
    ///     lines.next() // Some(LineSpan { start: 2, text: "b", ending: Absent })
    ///     lines.next() // None
    #[inline]
    fn next(&mut self) -> Option<LineSpan<'a>> {
        let Some((first, others)) = first_line_with(self.finder, self.cursor) else {
            // Nothing is left, so that a further call has nothing to search.
            self.cursor = self.cursor.from(self.cursor.view.len());
            return None;
        };
        self.cursor = others;
        Some(first)
    }
}

impl<F: AnyFinder> FusedIterator for LinesWith<'_, '_, F> {}

impl<'a> AsciiStr<'a> {
    /// Returns an iterator over the lines of the view whose body contains the needle of `finder`,
    /// each with its ending and the position in the view at which it starts. With a
    /// `FinderIgnoringCase`, ASCII case is ignored. The lines are those of `line_spans`. No body
    /// contains an LF, so a needle with an LF is in none of them; an empty needle is in each.
    ///
    /// Constant time; a full walk searches the view once, and not line by line. If the needle is in
    /// most lines, a loop over `line_spans` that asks `is_in` is faster.
    ///
    ///     let finder = Finder::new(AsciiStr::literal("b"));
    ///     let mut lines = AsciiStr::literal("a\nab\r\nb").lines_with(&finder);
    ///     lines.next() // Some(LineSpan { start: 2, text: "ab", ending: CrLf })
    ///     lines.next() // Some(LineSpan { start: 6, text: "b", ending: Absent })
    ///     lines.next() // None
    ///     let finder = FinderIgnoringCase::new(AsciiStr::literal("b"));
    ///     AsciiStr::literal("a\nAB\nb").lines_with(&finder).count() // 2
    pub fn lines_with<'f, F: AnyFinder>(self, finder: &'f F) -> LinesWith<'a, 'f, F>
        ensures lines { OfLineSpans self.entry (λ lines. Filters
            (λ line. ContainsText (F.wanted finder.now) (F.image line.item.body)) lines result) }
        ensures placed { ArePlacedLines 0 (text_of self.entry) result }
        ensures fits { length result < 2 ^ 64 }
        ensures loops { LoopsOverLineSpans }
    {
        LinesWith {
            cursor: Cursor {
                start: 0,
                view: self,
            },
            finder,
        }
    }
}
