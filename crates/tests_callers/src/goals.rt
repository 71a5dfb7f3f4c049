//! Callers that are proved only in this form: docs/UNPROVED.md shows the other one, and what the check says of it.

ghost use Rattle.std.specs.Prelude.{◌≡◌, ◌↔◌, ◌<◌, ◌+◌, ◌-◌, IsTrue, MatchOption, Some, length};
ghost use Rattle.std.specs.Prelude.{slice_get, slice_index};
ghost use Rattle.ascii.specs.Code.{code_of};
ghost use Rattle.ascii.specs.Pieces.{OfPieces};
ghost use Rattle.ascii.specs.View.{text_of};

use ascii::{AsciiChar, AsciiStr};

/// Returns the last character of a line.
///
/// Condition: the line is not empty.
pub fn last_char(line: AsciiStr<'_>) -> AsciiChar
    requires { 0 < length (text_of line) }
    ensures { code_of result
        ≡ slice_index (text_of line.entry) (length (text_of line.entry) - 1) }
{
    line.char_at(line.len() - 1)
}

/// Returns the position after a field, by its start, or `None` if it does not fit a `usize`.
pub fn end_of(start: usize, field: AsciiStr<'_>) -> Option<usize>
    ensures { let end = start + length (text_of field.entry) in
        MatchOption result (usize.MAX < end) (λ position. position ≡ end) }
{
    start.checked_add(field.len())
}

/// Returns what comes before the first `=` of a line, or the whole line if it has none.
fn key(line: AsciiStr<'_>) -> AsciiStr<'_>
    ensures { OfPieces line.entry AsciiChar.Equal
        (λ pieces. slice_get pieces 0 ≡ Some (text_of result)) }
{
    line.split(AsciiChar::Equal).next().unwrap_or_default()
}

/// Returns `true` if the key of a line is `name`.
pub fn has_key(line: AsciiStr<'_>, name: AsciiStr<'_>) -> bool
    ensures { OfPieces line.entry AsciiChar.Equal
        (λ pieces. IsTrue result ↔ (slice_get pieces 0 ≡ Some (text_of name.entry))) }
{
    key(line) == name
}
