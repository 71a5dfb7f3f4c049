//! Callers that cut a view at a prefix, at its last separator, at the end of a class, or into words, or
//! that trim it.

ghost use Rattle.std.specs.Prelude.{◌≡◌, ◌==◌, ◌↔◌, ◌⊎◌, ◌∷◌, ℕ, [], Contains, IfOk, IsSomeAnd, IsTrue};
ghost use Rattle.std.specs.Prelude.{List, MatchOption, codes, length, map};
ghost use Rattle.std.specs.Str.{IsAscii};
ghost use Rattle.ascii.specs.Class.{IsDigit, IsWhitespace};
ghost use Rattle.ascii.specs.Code.{code_of};
ghost use Rattle.ascii.specs.Pieces.{OfPieces};
ghost use Rattle.ascii.specs.Search.{ContainsText, IsPrefix, StartsWith};
ghost use Rattle.ascii.specs.Trim.{IsSpan, Trims};
ghost use Rattle.ascii.specs.View.{text_of};
ghost use Rattle.ascii.specs.ByClass.{words_by};
ghost use Rattle.ascii.specs.Tests.{is_whitespace};
ghost use Rattle.ascii.specs.Words.{OfWords};
ghost use Rattle.tests_callers.specs.Cuts.{EndsWithPiece};

use ascii::classes::{Digit, Searched, Whitespace};
use ascii::{AsciiChar, AsciiRange, AsciiStr};
use std::alloc::{AllocError, Global};

/// The view without a prefix, or the view itself if it does not start with it.
pub fn without_prefix<'a>(view: AsciiStr<'a>, prefix: AsciiStr<'_>) -> AsciiStr<'a>
    ensures { IsPrefix (text_of prefix.entry) (text_of view.entry) (text_of result)
        ⊎ ((text_of result ≡ text_of view.entry)
        × ¬ (StartsWith (text_of prefix.entry) (text_of view.entry))) }
{
    view.strip_prefix(prefix).unwrap_or(view)
}

/// Whether a view has a mark, by the search that gives its position too.
#[tactic(auto, using(ascii::proofs::CallerLemmas::contains_if_found))]
pub fn has_mark(view: AsciiStr<'_>, mark: AsciiStr<'_>) -> bool
    ensures { IsTrue result ↔ ContainsText (text_of mark.entry) (text_of view.entry) }
{
    view.find(mark).is_some()
}

/// The text after the last dot of a file name, or `None` if it has no dot.
pub fn extension<'a>(name: AsciiStr<'a>) -> Option<AsciiStr<'a>>
    ensures { MatchOption result (¬ (Contains (text_of name.entry) (code_of AsciiChar.Dot)))
        (λ end. OfPieces name.entry AsciiChar.Dot (λ pieces. EndsWithPiece pieces (text_of end))) }
{
    let (_stem, end) = name.rsplit_once(AsciiChar::Dot)?;
    Some(end)
}

/// The digits at the start of a view, and its unit: `("42", "px")` for `42px`.
pub fn number_and_unit<'a>(view: AsciiStr<'a>) -> (AsciiStr<'a>, AsciiStr<'a>)
    ensures { IsSpan IsDigit (text_of view.entry) (text_of result.0) (text_of result.1) }
{
    view.span::<Digit>()
}

/// The first word of a view, or `None` if it has no word.
pub fn first_word<'a>(view: AsciiStr<'a>) -> Option<AsciiStr<'a>>
    ensures { MatchOption result (words_by is_whitespace (text_of view.entry) ≡ [])
        (λ word. (others : List (List ℕ))
        × (words_by is_whitespace (text_of view.entry) ≡ text_of word ∷ others)) }
{
    view.split_whitespace().next()
}

/// The first word of a line, cut out by its place, which the step says is in the line; or `None` if
/// the line has no word.
pub fn first_word_by_place<'a>(line: AsciiStr<'a>) -> Option<AsciiStr<'a>>
    ensures { MatchOption result (words_by is_whitespace (text_of line.entry) ≡ [])
        (λ word. (rest : List (List ℕ))
        × (words_by is_whitespace (text_of line.entry) ≡ text_of word ∷ rest)) }
{
    let span = line.split_whitespace().spans().next()?;
    Some(line.slice(AsciiRange::Range(span.start, span.start + span.text.len())))
}

/// The number of words of a view.
pub fn word_count(view: AsciiStr<'_>) -> usize
    ensures { result ≡ length (words_by is_whitespace (text_of view.entry)) }
{
    view.split_whitespace().count()
}

/// The number of words of a view, by the words with their starts.
pub fn word_span_count(view: AsciiStr<'_>) -> usize
    ensures { result ≡ length (words_by is_whitespace (text_of view.entry)) }
{
    view.split_whitespace().spans().count()
}

/// The number of words of a view between characters of a class, by what the words are.
pub fn word_count_by<C: Searched>(view: AsciiStr<'_>) -> usize
    ensures { OfWords C.is view.entry (λ words. result ≡ length words) }
{
    view.words::<C>().count()
}

/// The words of a view, in order.
pub fn all_words<'a>(alloc: Global, view: AsciiStr<'a>) -> Result<Vec<AsciiStr<'a>>, AllocError>
    ensures { IfOk result (λ views.
        map text_of views.items ≡ words_by is_whitespace (text_of view.entry)) }
{
    view.split_whitespace().collect(alloc)
}

/// Returns `true` if the word is `GET`.
pub fn is_get(word: AsciiStr<'_>) -> bool
    ensures { IsTrue result ↔ (text_of word.entry ≡ codes "GET") }
{
    word == AsciiStr::literal("GET")
}

/// A reply with the commands of a server, as a literal that is longer than the others here.
pub fn help_reply() -> AsciiStr<'static>
    ensures { length (text_of result) ≡ 79 }
{
    AsciiStr::literal(
        "214 commands: HELO EHLO MAIL RCPT DATA RSET VRFY NOOP QUIT; a line ends by CRLF",
    )
}

/// The view of a text of which the caller knows that it is ASCII. Nothing is checked at run time.
#[tactic(auto, using(ascii::proofs::CallerLemmas::test_by_ascii))]
pub fn known_text<'a>(text: &'a str) -> AsciiStr<'a>
    requires { IsAscii text.now }
    ensures { text_of result ≡ text.now }
{
    AsciiStr::literal(text)
}

/// The only piece of a view that does not contain the separator: the view itself.
#[tactic(auto, using(ascii::proofs::CallerLemmas::one_piece))]
pub fn only_piece<'a>(view: AsciiStr<'a>, on: AsciiChar) -> Option<AsciiStr<'a>>
    requires { ¬ (Contains (text_of view) (code_of on)) }
    ensures { IsSomeAnd result (λ piece. text_of piece ≡ text_of view.entry) }
{
    view.split(on).next()
}

/// A view that is trimmed twice: what one trim leaves.
pub fn trim_twice<'a>(view: AsciiStr<'a>) -> AsciiStr<'a>
    ensures { Trims IsWhitespace (text_of view.entry) (text_of result) }
{
    view.trim().trim()
}
