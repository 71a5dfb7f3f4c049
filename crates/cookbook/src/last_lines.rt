//! Giving the last lines of a text, as `tail -n` does, without a walk over those before them.

ghost use Rattle.std.specs.Prelude.{◌≡◌, ◌+◌, ◌++◌, ◌↔◌, IsTrue, List, MatchOption, [], length, ℕ};
ghost use Rattle.ascii.specs.Lines.{Line, LinesOf};
ghost use Rattle.ascii.specs.Spans.{WithStart};
ghost use Rattle.ascii.specs.View.{text_of};
ghost use Rattle.cookbook.specs.LastLines.{HasLastLine, HasLastLines, HasLinesBefore};

use ascii::iter::{Ending, Lines};
use ascii::{AsciiRange, AsciiStr};

/// Returns the end of a view with its last `n` lines and their endings: the whole view if it has fewer, and
/// an empty one if `n` is 0. For `a\nb\r\nc` and 2 it is `b\r\nc`.
pub fn last_lines<'a>(view: AsciiStr<'a>, n: usize) -> AsciiStr<'a>
    ensures lines { HasLastLines n (text_of view.entry) (text_of result) }
    ensures suffix { (front : List ℕ) × (front ++ text_of result ≡ text_of view.entry) }
{
    let front = without_last_lines(view, n);
    view.slice(AsciiRange::From(front.len()))
}

/// Returns the start of a view up to its last `n` lines, as `head -n -N` does: an empty view if it has at
/// most `n` lines. For `a\nb\r\nc` and 2 it is `a\n`.
pub fn without_last_lines<'a>(view: AsciiStr<'a>, n: usize) -> AsciiStr<'a>
    ensures lines { HasLinesBefore n (text_of view.entry) (text_of result) }
    ensures prefix { (others : List ℕ) × (text_of result ++ others ≡ text_of view.entry) }
{
    let mut lines = view.lines();
    for _ in 0..n {
        if lines.next_back().is_none() {
            break;
        }
    }
    remaining_text(&lines)
}

/// Returns the position after the body of the last line, or `None` if the view is empty: 4 for `a\nbc\n`.
pub fn last_body_end(view: AsciiStr<'_>) -> Option<usize>
    ensures { MatchOption result (text_of view.entry ≡ []) (λ end. (last : WithStart Line)
        × HasLastLine (text_of view.entry) last × (end ≡ last.start + length last.item.body)) }
{
    let last = view.line_spans().next_back()?;
    Some(last.start + last.text.len())
}

/// Returns `true` if the view has a last line without an ending: for `a\nb`, but not for `a\n` or an
/// empty view.
pub fn is_open(view: AsciiStr<'_>) -> bool
    ensures { IsTrue result ↔ ((last : WithStart Line)
        × HasLastLine (text_of view.entry) last × (last.item.ending ≡ Ending.Absent)) }
{
    match view.line_spans().next_back() {
        Some(last) => last.ending == Ending::Absent,
        None => false,
    }
}

/// The lines that an iterator has yet to yield, as a view: an empty one if none remain.
fn remaining_text<'a>(lines: &Lines<'a>) -> AsciiStr<'a>
    ensures { LinesOf (text_of result) lines.now }
{
    lines.remainder().unwrap_or_default()
}
