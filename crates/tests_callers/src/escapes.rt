//! Callers of `EscapeAscii` and `unescape`.

ghost use Rattle.std.specs.Prelude.{◌≡◌, MatchResult};
ghost use Rattle.ascii_formats.specs.declared.unescape.UnescapeError.TheVariants.{Memory};
ghost use Rattle.ascii.specs.View.{text_of};

use ascii::{AsciiStr, AsciiString};
use ascii_formats::AsciiStrExt;
use ascii_formats::notations::EscapeAscii;
use ascii_formats::unescape::UnescapeError;
use std::alloc::Global;

/// Escapes a text and reads it back, which gives the text.
pub fn through_escapes(alloc: Global, view: AsciiStr<'_>) -> Result<AsciiString, UnescapeError>
    ensures { MatchResult result (λ string. string.text ≡ text_of view.entry) (λ e. e ≡ Memory) }
{
    let Ok(escaped) = AsciiString::collect_chars(alloc, EscapeAscii::new(view)) else {
        return Err(UnescapeError::Memory);
    };
    escaped.as_ascii_str().unescape(alloc)
}
