//! Callers of texts as JSON values.

ghost use Rattle.std.specs.Prelude.{◌≡◌, MatchResult};
ghost use Rattle.ascii.specs.declared.json.JsonError.TheVariants.{Memory};

use ascii::AsciiString;
use ascii::json::{JsonError, string_from_json};
use std::alloc::Global;

/// Converts a string into a JSON value and back: the text is the same. Fails only with `Memory`, if
/// an allocation fails.
pub fn through_json(alloc: Global, string: &AsciiString) -> Result<AsciiString, JsonError>
    ensures { MatchResult result (λ copy. copy.text ≡ string.now.text) (λ error. error ≡ Memory) }
{
    let Ok(value) = string.to_json(alloc) else {
        return Err(JsonError::Memory);
    };
    string_from_json(alloc, &value)
}
