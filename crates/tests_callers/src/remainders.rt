//! Callers that stop in the middle of a walk: they count what is left, return it as a view, and take
//! it up again.

ghost use Rattle.std.specs.Prelude.{◌≡◌, ◌+◌, ◌-◌, ◌++◌, ◌∷◌, ℕ, IfOk, IfSome, List, MatchOption, []};
ghost use Rattle.std.specs.Prelude.{drop, length, map};
ghost use Rattle.std.specs.List.{join_with_byte};
ghost use Rattle.std.specs.Option.{option_map};
ghost use Rattle.ascii.specs.Code.{code_of};
ghost use Rattle.ascii.specs.Walks.{TakesEnd};
ghost use Rattle.ascii.specs.Lines.{Line, LinesOf, OfLines, line_text};
ghost use Rattle.ascii.specs.Pieces.{Pieces, PiecesUpTo, OfPieces};
ghost use Rattle.ascii.specs.Spans.{line_in};
ghost use Rattle.ascii.specs.View.{text_of};

use ascii::iter::{End, LineSpan, LineSpans, Lines, Split, SplitSpan, SplitSpans, take_end};
use ascii::{AsciiChar, AsciiStr};
use std::alloc::{AllocError, Global};

/// The number of pieces of a view after the first one.
pub fn count_after_first(view: AsciiStr<'_>, on: AsciiChar) -> usize
    ensures { OfPieces view.entry on (λ pieces. result ≡ length pieces - 1) }
{
    let mut split = view.split(on);
    split.next();
    split.count()
}

/// The number of lines of a view before the last one.
pub fn count_before_last(view: AsciiStr<'_>) -> usize
    ensures { OfLines view.entry (λ lines. result ≡ length lines - 1) }
{
    let mut lines = view.lines();
    lines.next_back();
    lines.count()
}

/// The number of lines of a view, and an iterator that has yet to yield all of them.
pub fn count_and_lines(view: AsciiStr<'_>) -> Result<(usize, Lines<'_>), AllocError>
    ensures { IfOk result (λ answer.
        LinesOf (text_of view.entry) answer.1 × (answer.0 ≡ length answer.1)) }
{
    let lines = view.lines();
    let count = lines.clone()?.count();
    Ok((count, lines))
}

/// The text after the first two separators.
pub fn after_two_separators<'a>(view: AsciiStr<'a>, on: AsciiChar) -> Option<AsciiStr<'a>>
    ensures { OfPieces view.entry on (λ pieces. MatchOption result (drop 2 pieces ≡ [])
        (λ rest. Pieces (text_of rest) (code_of on) (drop 2 pieces))) }
{
    let mut split = view.split(on);
    split.next();
    split.next();
    split.remainder()
}

/// A split with the same remaining pieces as one that was stopped, if any remain.
pub fn resume_split<'a>(split: &Split<'a>, on: AsciiChar) -> Option<Split<'a>>
    requires { code_of on ≡ split.now.on }
    ensures { MatchOption result (split.now.items ≡ [])
        (λ other. (other.items ≡ split.now.items) × (other.on ≡ split.now.on)) }
{
    let rest = split.remainder()?;
    Some(rest.split(on))
}

/// An iterator with the same remaining lines as one that was stopped, if any remain.
pub fn resume_lines<'a>(lines: &Lines<'a>) -> Option<Lines<'a>>
    ensures { MatchOption result (lines.now ≡ []) (λ other. other ≡ lines.now) }
{
    let rest = lines.remainder()?;
    Some(rest.lines())
}

/// A split with the same remaining pieces and starts, if any remain.
pub fn resume_split_spans<'a>(split: &SplitSpans<'a>, on: AsciiChar) -> Option<SplitSpans<'a>>
    requires { code_of on ≡ split.now.on }
    ensures { MatchOption result (split.now.items ≡ [])
        (λ other. (other.items ≡ split.now.items) × (other.on ≡ split.now.on)) }
{
    let (start, rest) = split.remainder()?;
    Some(rest.split_spans_from(on, start))
}

/// An iterator with the same remaining lines, starts and endings, if any remain.
pub fn resume_line_spans<'a>(lines: &LineSpans<'a>) -> Option<LineSpans<'a>>
    ensures { MatchOption result (lines.now ≡ []) (λ other. other ≡ lines.now) }
{
    let (start, rest) = lines.remainder()?;
    Some(rest.line_spans_from(start))
}

/// Takes a line with its start and its ending from an end.
pub fn take_line_span<'a>(lines: &mut LineSpans<'a>, end: End) -> Option<LineSpan<'a>>
    ensures { TakesEnd end lines.old (option_map line_in result) lines.new }
{
    take_end(lines, end)
}

/// The lengths of the pieces that a split has yet to yield.
#[tactic(auto, using(ascii::proofs::StepsLemmas::run_of_first_and))]
pub fn lengths_left(alloc: Global, split: Split<'_>) -> Result<Vec<usize>, AllocError>
    ensures { IfOk result (λ lengths. lengths.items ≡ map length split.entry.items) }
{
    split.map(|piece| piece.len()).collect(alloc)
}

/// What follows the first of at most `n` pieces, or `None` if nothing does.
pub fn after_first_piece<'a>(view: AsciiStr<'a>, n: usize, on: AsciiChar) -> Option<AsciiStr<'a>>
    ensures { IfSome result (λ rest. (first : List ℕ) × (others : List (List ℕ))
        × PiecesUpTo n (text_of view.entry) (code_of on) (first ∷ others)
        × (join_with_byte (code_of on) others ≡ text_of rest)) }
{
    let mut pieces = view.splitn(n, on);
    pieces.next()?;
    pieces.remainder()
}

/// The folder and the name of a path, which its last slash separates, or `None` if it has no slash.
#[tactic(auto, using(ascii::proofs::CallerLemmas::join_with_last))]
pub fn folder_and_name<'a>(path: AsciiStr<'a>) -> Option<(AsciiStr<'a>, AsciiStr<'a>)>
    ensures { IfSome result (λ parts.
        text_of parts.0 ++ code_of AsciiChar.Slash ∷ text_of parts.1 ≡ text_of path.entry) }
{
    let mut pieces = path.split(AsciiChar::Slash);
    let name = pieces.next_back()?;
    let folder = pieces.remainder()?;
    Some((folder, name))
}

/// The name of a file without its last extension, or `None` if it has no dot.
pub fn stem<'a>(name: AsciiStr<'a>) -> Option<AsciiStr<'a>>
    ensures { IfSome result (λ stem. (extension : List ℕ)
        × (text_of stem ++ code_of AsciiChar.Dot ∷ extension ≡ text_of name.entry)) }
{
    let mut pieces = name.split(AsciiChar::Dot);
    pieces.next_back()?;
    pieces.remainder()
}

/// The columns of a row before the last one, and the last one with its start, or `None` if the row
/// has one column.
pub fn last_column<'a>(row: AsciiStr<'a>, on: AsciiChar) -> Option<(AsciiStr<'a>, SplitSpan<'a>)>
    ensures { IfSome result (λ parts.
        (parts.1.start ≡ length (text_of parts.0) + 1)
        × (text_of parts.0 ++ code_of on ∷ text_of parts.1.text ≡ text_of row.entry)) }
{
    let mut columns = row.split_spans(on);
    let last = columns.next_back()?;
    let (_start, others) = columns.remainder()?;
    Some((others, last))
}

/// A text without its last line, or `None` if it has one line at most.
pub fn without_last_line<'a>(view: AsciiStr<'a>) -> Option<AsciiStr<'a>>
    ensures { IfSome result (λ others. (last : Line)
        × (text_of others ++ line_text last ≡ text_of view.entry)) }
{
    let mut lines = view.lines();
    lines.next_back()?;
    lines.remainder()
}

/// The lines of a text before the last one, and the last one with its start and its ending, or `None`
/// if there is one line at most.
pub fn last_line_span<'a>(view: AsciiStr<'a>) -> Option<(AsciiStr<'a>, LineSpan<'a>)>
    ensures { IfSome result (λ parts. let line = line_in parts.1 in
        (line.start ≡ length (text_of parts.0))
        × (text_of parts.0 ++ line_text line.item ≡ text_of view.entry)) }
{
    let mut lines = view.line_spans();
    let last = lines.next_back()?;
    let (_start, others) = lines.remainder()?;
    Some((others, last))
}
