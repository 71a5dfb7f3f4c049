//! Views that are compared ignoring ASCII case.

ghost use Rattle.std.specs.Prelude.{◌≡◌, ◌↔◌, IsTrue, map};
ghost use Rattle.ascii.specs.Case.{lower_image};

use ascii_keys::FoldedStr;

/// Whether two folded views are equal: exactly if their texts in lower case are.
pub fn are_alike(first: FoldedStr<'_>, second: FoldedStr<'_>) -> bool
    ensures { IsTrue result ↔ (map lower_image first.entry ≡ map lower_image second.entry) }
{
    first == second
}
