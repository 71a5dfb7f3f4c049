//! Quoted texts at the start of a view.
//!
//! Between its quotes a quoted text has any characters. An escape character inside makes the next one an ordinary
//! character, so that a quote after it does not end the text. If the escape is the quote itself, a quote inside is
//! doubled, as in CSV.
//!
//!     AsciiStr::literal("'a\\'b' c").take_quoted(AsciiChar::Apostrophe, AsciiChar::BackSlash) // Ok(("a\\'b", " c"))
//!     AsciiStr::literal("'a''b' c").take_quoted(AsciiChar::Apostrophe, AsciiChar::Apostrophe) // Ok(("a''b", " c"))
//!
//! What `take_quoted` returns has the escapes as they are written. `unquote` returns the text that it represents, and
//! `push_quoted` writes a text in quotes.

ghost use Rattle.std.specs.Prelude.{◌≡◌, ◌<◌, ◌≤◌, ◌+◌, ◌++◌, ◌↔◌, ◌∷◌, [], ℕ, List, IsTrue};
ghost use Rattle.std.specs.Prelude.{MatchOption, drop, length};
ghost use Rattle.std.specs.List.{flat_map};
ghost use Rattle.ascii.specs.Code.{code_of};
ghost use Rattle.ascii.specs.StringState.{GrowsTo};
ghost use Rattle.ascii.specs.View.{text_of};
ghost use Rattle.ascii_formats.specs.Padding.{AppendsInParts};
ghost use Rattle.ascii_formats.specs.Quotes.{ClosesBefore, IsEscapeAt, quoted_code, quoted_text};
ghost use Rattle.ascii_formats.specs.Quotes.{unquoted};

use crate::views::AsciiStrExt;
use ascii::{AsciiChar, AsciiRange, AsciiStr, AsciiString, Buffer, Text};
use std::alloc::Allocator;

/// Why no quoted text is at the start of a view.
#[derive(Clone, Copy, PartialEq, Eq, Debug)]
pub enum QuoteError {
    /// The view does not begin with a quote.
    NoQuote,
    /// The view ends at this position, its length, and no quote before it closes the text.
    NotClosed(usize),
}

/// The position of the quote that closes a text whose first quote comes before the bytes, or `None`
/// if there is none.
pub(crate) fn closing_quote(bytes: &[u8], quote: u8, escape: u8) -> Option<usize>
    ensures { MatchOption result
        ((rest : List ℕ) → ¬ (ClosesBefore quote escape bytes.now rest))
        (λ end. (end < length bytes.now)
        × ClosesBefore quote escape bytes.now (drop (end + 1) bytes.now)) }
{
    let mut at = 0;
    'scan: while at < bytes.len() {
        if is_escape(bytes, at, quote, escape) {
            at += 2;
        } else if bytes[at] == quote {
            return Some(at);
        } else {
            at += 1;
        }
    }
    None
}

/// Returns `true` if the byte at `at` is an escape of the byte after it.
fn is_escape(bytes: &[u8], at: usize, quote: u8, escape: u8) -> bool
    requires { at < length bytes.now }
    ensures { IsTrue result ↔ IsEscapeAt quote escape bytes.now at }
{
    if bytes[at] != escape {
        return false;
    }
    escape != quote || at + 1 < bytes.len() && bytes[at + 1] == quote
}

/// Appends the text that a text between quotes represents to an empty string. Does not allocate.
///
/// Condition: the string is empty and has room for the length of the view.
pub(crate) fn unquote_into<A: Allocator>(
    view: AsciiStr<'_>,
    escape: AsciiChar,
    string: &mut AsciiString<A>,
)
    requires empty { string.old.text ≡ [] }
    requires room { length (text_of view) ≤ string.old.capacity }
    ensures { string.new.text ≡ unquoted (code_of escape) (text_of view.entry) }
{
    let mut rest = view;
    'codes: while let Some((ch, after)) = unquote_first(rest, escape) {
        let Ok(()) = string.push(ch) else {
            unreachable!()
        };
        rest = after;
    }
}

/// Returns the first character that a text between quotes represents, and what comes after the one or
/// two that represent it.
fn unquote_first<'a>(text: AsciiStr<'a>, escape: AsciiChar) -> Option<(AsciiChar, AsciiStr<'a>)>
    ensures { let text = text_of text.entry in MatchOption result (text ≡ [])
        (λ split. (unquoted (code_of escape) text
        ≡ code_of split.0 ∷ unquoted (code_of escape) (text_of split.1))
        × (length (text_of split.1) < length text)) }
{
    let (first, after) = text.split_first()?;
    if first != escape {
        return Some((first, after));
    }
    match after.split_first() {
        Some(escaped) => Some(escaped),
        None => Some((first, after)),
    }
}

/// Appends a view in quotes. If an allocation fails, the text is unchanged.
pub(crate) fn push_between_quotes<B: Buffer>(
    string: &mut Text<B>,
    view: AsciiStr<'_>,
    quote: AsciiChar,
    escape: AsciiChar,
) -> Result<(), B::Refusal>
    ensures { GrowsTo B.sure
        (string.old.text ++ quoted_text (code_of quote) (code_of escape) (text_of view.entry))
        string.old string.new result }
{
    let length = string.len();
    let pushed = push_quoted_parts(string, view, quote, escape);
    // Tells the prover that the text fits the capacity.
    let _capacity = string.capacity();
    if let Err(refusal) = pushed {
        string.truncate(length);
        return Err(refusal);
    }
    Ok(())
}

/// Appends a view in quotes, as far as there is room.
fn push_quoted_parts<B: Buffer>(
    string: &mut Text<B>,
    view: AsciiStr<'_>,
    quote: AsciiChar,
    escape: AsciiChar,
) -> Result<(), B::Refusal>
    ensures { AppendsInParts B.sure
        (quoted_text (code_of quote) (code_of escape) (text_of view.entry))
        string.old string.new result }
{
    string.push(quote)?;
    push_escaped(string, view, quote, escape)?;
    string.push(quote)
}

/// Appends a view with `escape` before each `quote` and each `escape` in it, as far as there is room.
fn push_escaped<B: Buffer>(
    string: &mut Text<B>,
    view: AsciiStr<'_>,
    quote: AsciiChar,
    escape: AsciiChar,
) -> Result<(), B::Refusal>
    ensures { AppendsInParts B.sure
        (flat_map (quoted_code (code_of quote) (code_of escape)) (text_of view.entry))
        string.old string.new result }
{
    'codes: for at in 0..view.len() {
        push_code(string, view.char_at(at), quote, escape)?;
    }
    Ok(())
}

/// Appends a character as it is written between quotes, as far as there is room.
fn push_code<B: Buffer>(
    string: &mut Text<B>,
    ch: AsciiChar,
    quote: AsciiChar,
    escape: AsciiChar,
) -> Result<(), B::Refusal>
    ensures { AppendsInParts B.sure (quoted_code (code_of quote) (code_of escape) (code_of ch))
        string.old string.new result }
{
    if ch == quote || ch == escape {
        string.push(escape)?;
    }
    string.push(ch)
}
