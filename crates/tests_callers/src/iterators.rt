//! Callers of the iterators of a view: loops and adapters, and what they gave.

ghost use Rattle.std.specs.Prelude.{◌≡◌, ◌+◌, ◌≤◌, ◌++◌, IfOk, IsOk, OnOk, ℕ};
ghost use Rattle.std.specs.Prelude.{reverse, string_bytes, codes, length, map, take};
ghost use Rattle.std.specs.List.{flat_map};
ghost use Rattle.ascii.specs.Case.{upper_image};
ghost use Rattle.ascii.specs.View.{debug_text};
ghost use Rattle.ascii.specs.Lines.{OfLines, bodies};
ghost use Rattle.ascii.specs.Pieces.{OfPieces};
ghost use Rattle.ascii.specs.View.{text_of};

use ascii::{AsciiChar, AsciiStr, AsciiString};
use std::alloc::{AllocError, Global};

/// The number of pieces of a view between separators.
pub fn piece_count(view: AsciiStr<'_>, on: AsciiChar) -> usize
    ensures { OfPieces view.entry on (λ pieces. result ≡ length pieces) }
{
    view.split(on).count()
}

/// The lengths of the pieces of a view between separators.
pub fn piece_lengths(
    alloc: Global,
    view: AsciiStr<'_>,
    on: AsciiChar,
) -> Result<Vec<usize>, AllocError>
    ensures { IfOk result (λ lengths.
        OfPieces view.entry on (λ pieces. lengths.items ≡ map length pieces)) }
{
    let mut lengths = Vec::new(alloc);
    for piece in view.split(on) {
        lengths.push(piece.len())?;
    }
    Ok(lengths)
}

/// The lengths of the pieces of a view between separators, by a map.
pub fn piece_lengths_by_map(
    alloc: Global,
    view: AsciiStr<'_>,
    on: AsciiChar,
) -> Result<Vec<usize>, AllocError>
    ensures { IfOk result (λ lengths.
        OfPieces view.entry on (λ pieces. lengths.items ≡ map length pieces)) }
{
    view.split(on).map(|piece| piece.len()).collect(alloc)
}

/// The pieces of a view between separators, the last one first.
pub fn pieces_reversed<'a>(
    alloc: Global,
    view: AsciiStr<'a>,
    on: AsciiChar,
) -> Result<Vec<AsciiStr<'a>>, AllocError>
    ensures { IfOk result (λ views.
        OfPieces view.entry on (λ pieces. map text_of views.items ≡ reverse pieces)) }
{
    view.split(on).rev().collect(alloc)
}

/// The number of lines of a view.
pub fn line_count(view: AsciiStr<'_>) -> usize
    ensures { OfLines view.entry (λ lines. result ≡ length lines) }
{
    view.lines().count()
}

/// The lengths of the lines of a view, without their endings, by a loop.
pub fn line_lengths_by_for(alloc: Global, view: AsciiStr<'_>) -> Result<Vec<usize>, AllocError>
    ensures { IfOk result (λ lengths.
        OfLines view.entry (λ lines. lengths.items ≡ map length (bodies lines))) }
{
    let mut lengths = Vec::new(alloc);
    for body in view.lines() {
        lengths.push(body.len())?;
    }
    Ok(lengths)
}

/// The bodies of the lines of a view, the last one first.
pub fn bodies_reversed<'a>(
    alloc: Global,
    view: AsciiStr<'a>,
) -> Result<Vec<AsciiStr<'a>>, AllocError>
    ensures { IfOk result (λ views.
        OfLines view.entry (λ lines. map text_of views.items ≡ reverse (bodies lines))) }
{
    view.lines().rev().collect(alloc)
}

/// The lengths of the lines of a view, without their endings.
pub fn line_lengths(alloc: Global, view: AsciiStr<'_>) -> Result<Vec<usize>, AllocError>
    ensures { IfOk result (λ lengths.
        OfLines view.entry (λ lines. lengths.items ≡ map length (bodies lines))) }
{
    view.lines().map(|line| line.len()).collect(alloc)
}

/// Appends the characters of a view one by one. On error, the characters before the one that did not
/// fit have been appended.
pub fn append_chars(string: &mut AsciiString, view: AsciiStr<'_>) -> Result<(), AllocError>
    ensures { OnOk result (string.new.text ≡ string.old.text ++ text_of view.entry) }
{
    string.extend_chars(view.chars())
}

/// Copies a view character by character.
#[tactic(auto, using(ascii::proofs::CallerLemmas::collects_chars))]
pub fn copy_chars(alloc: Global, view: AsciiStr<'_>) -> Result<AsciiString, AllocError>
    ensures { IfOk result (λ string. string.text ≡ text_of view.entry) }
{
    let string = AsciiString::collect_chars(alloc, view.chars())?;
    Ok(string)
}

/// Appends the characters of a view one by one to a string that has room for them. It never fails.
pub fn fill_chars(string: &mut AsciiString, view: AsciiStr<'_>) -> Result<(), AllocError>
    requires { length string.old.text + length (text_of view) ≤ string.old.capacity }
    ensures { IsOk result }
{
    string.extend_chars(view.chars())
}

/// Appends the characters of a view in upper case. If an allocation fails, those before the one that
/// did not fit have been appended; it never fails if all of them fit the capacity.
pub fn push_upper(string: &mut AsciiString, view: AsciiStr<'_>) -> Result<(), AllocError>
    ensures ok { OnOk result
        (string.new.text ≡ string.old.text ++ map upper_image (text_of view.entry)) }
    ensures front { (n : ℕ)
        × (string.new.text ≡ string.old.text ++ map upper_image (take n (text_of view.entry))) }
    ensures succeeds { length string.old.text + length (text_of view.entry) ≤ string.old.capacity
        → IsOk result }
{
    string.extend_chars(view.chars().map(|ch| ch.to_ascii_uppercase()))
}

/// Appends the pieces of a view between separators. On error, the pieces before the one that did not
/// fit have been appended.
pub fn append_pieces(
    string: &mut AsciiString,
    view: AsciiStr<'_>,
    on: AsciiChar,
) -> Result<(), AllocError>
    ensures { OnOk result (OfPieces view.entry on (λ pieces.
        string.new.text ≡ string.old.text ++ flat_map (λ piece. piece) pieces)) }
{
    string.extend_strs(view.split(on))
}

/// The text of a view without its separators.
pub fn without_separators(
    alloc: Global,
    view: AsciiStr<'_>,
    on: AsciiChar,
) -> Result<AsciiString, AllocError>
    ensures { IfOk result (λ string.
        OfPieces view.entry on (λ pieces. string.text ≡ flat_map (λ piece. piece) pieces)) }
{
    AsciiString::collect_strs(alloc, view.split(on))
}

/// The text of a view without its line endings.
pub fn without_line_endings(alloc: Global, view: AsciiStr<'_>) -> Result<AsciiString, AllocError>
    ensures { IfOk result (λ string.
        OfLines view.entry (λ lines. string.text ≡ flat_map (λ line. line.body) lines)) }
{
    AsciiString::collect_strs(alloc, view.lines())
}

/// A view between square brackets.
pub fn in_brackets(alloc: Global, view: AsciiStr<'_>) -> Result<String, AllocError>
    ensures { IfOk result (λ text.
        string_bytes text ≡ codes "[" ++ (text_of view.entry ++ codes "]")) }
{
    format!(in alloc; "[{view}]")
}

/// A view between quotes, its controls, quotes and backslashes escaped.
pub fn in_quotes(alloc: Global, view: AsciiStr<'_>) -> Result<String, AllocError>
    ensures { IfOk result (λ text. string_bytes text ≡ debug_text (text_of view.entry)) }
{
    format!(in alloc; "{view:?}")
}
