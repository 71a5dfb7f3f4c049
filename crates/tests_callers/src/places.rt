//! Parts of a text with their positions.

ghost use Rattle.std.specs.Prelude.{◌≡◌, IfSome};
ghost use Rattle.ascii.specs.Placed.{HasAt};
ghost use Rattle.ascii.specs.View.{text_of};
ghost use Rattle.ascii_formats.specs.Parts.{part_text};

use ascii::{AsciiChar, AsciiStr};
use ascii_formats::parts::Part;

/// Returns the value of a setting `key = value`, without whitespace around it and with its place in
/// the line, or `None` if the line has no `=`.
#[tactic(auto, using(ascii_formats::proofs::PartsLemmas::part_is_at))]
pub fn value_of(line: AsciiStr<'_>) -> Option<Part<'_>>
    ensures whole { IfSome result (λ value. value.whole ≡ line.entry) }
    ensures place { IfSome result
        (λ value. HasAt (text_of line.entry) value.start (part_text value)) }
{
    let (_key, value) = Part::of(line).split_once(AsciiChar::Equal)?;
    Some(value.trim())
}
