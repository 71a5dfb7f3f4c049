//! Callers of `take_quoted`, `unquote` and `push_quoted`.

ghost use Rattle.std.specs.Prelude.{◌≡◌, ◌↔◌, IfOk, IsOkAnd, IsTrue, List, ℕ};
ghost use Rattle.ascii_formats.specs.Quotes.{StartsQuoted};
ghost use Rattle.ascii.specs.View.{text_of};

use ascii::{AsciiChar, AsciiStr, AsciiString};
use ascii_formats::quotes::QuoteError;
use ascii_formats::{AsciiStrExt, AsciiStringExt};
use std::alloc::{AllocError, Global};

/// Returns `true` if a quoted string is at the start of the view.
pub fn starts_quoted(view: AsciiStr<'_>) -> bool
    ensures { let text = text_of view.entry in
        IsTrue result ↔ ((inside rest : List ℕ) × StartsQuoted 34 92 text inside rest) }
{
    view.take_quoted(AsciiChar::Quotation, AsciiChar::BackSlash)
        .is_ok()
}

/// Takes the quoted string at the start of a view, whose parts are known.
///
/// Condition: the view is `inside` in quotes, and `rest`.
pub fn take_back<'a>(
    view: AsciiStr<'a>,
    inside: AsciiStr<'_>,
    rest: AsciiStr<'_>,
) -> Result<(AsciiStr<'a>, AsciiStr<'a>), QuoteError>
    requires { StartsQuoted 34 92 (text_of view) (text_of inside) (text_of rest) }
    ensures { IsOkAnd result (λ taken.
        (text_of taken.0 ≡ text_of inside.entry) × (text_of taken.1 ≡ text_of rest.entry)) }
{
    view.take_quoted(AsciiChar::Quotation, AsciiChar::BackSlash)
}

/// Writes a text in quotes and reads it back, which gives the text.
pub fn through_quotes(
    alloc: Global,
    view: AsciiStr<'_>,
    quote: AsciiChar,
    escape: AsciiChar,
) -> Result<AsciiString, AllocError>
    ensures { IfOk result (λ string. string.text ≡ text_of view.entry) }
{
    let mut written = AsciiString::new(alloc);
    written.push_quoted(view, quote, escape)?;
    match written.as_ascii_str().take_quoted(quote, escape) {
        Ok((inside, _rest)) => inside.unquote(alloc, escape),
        Err(_) => unreachable!(),
    }
}
