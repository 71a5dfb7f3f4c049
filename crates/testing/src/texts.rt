//! Views of literals.

ghost use Rattle.std.specs.Prelude.{◌≡◌, MatchResult, [], length};
ghost use Rattle.std.specs.Str.{IsAscii};
ghost use Rattle.ascii.specs.View.{text_of};

use ascii::{AsciiStr, text};

/// Returns the view of a text, which is empty if the text is not ASCII.
pub fn ascii(source: &str) -> AsciiStr<'_>
    ensures { IsAscii source.now → text_of result ≡ source.now }
{
    text::as_ascii_str(source).unwrap_or_default()
}

/// Returns the view of a text.
///
/// Condition: the text is ASCII.
pub fn view(source: &str) -> AsciiStr<'_>
    requires { IsAscii source.now }
    ensures { text_of result ≡ source.now }
{
    text::as_ascii_str_unchecked(source)
}
