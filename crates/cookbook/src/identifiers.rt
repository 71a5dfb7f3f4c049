//! A class of a caller's own, and a search for it: identifiers of letters, digits and `_`.

ghost use Rattle.std.proofs.Common.{rules};
ghost use Rattle.ascii.specs.Trim.{IsSpan};
ghost use Rattle.ascii.specs.View.{text_of};
ghost use Rattle.cookbook.specs.Identifiers.{IsIdentifierCode};
ghost use Rattle.cookbook.specs.declared.identifiers.TheConstants.{IDENTIFIER};

use ascii::AsciiStr;
use ascii::classes::{ByRanges, Ranges};

/// The ranges of `Identifier`.
pub struct IdentifierRanges;

const IDENTIFIER: [(u8, u8); 4] = [(b'0', b'9'), (b'A', b'Z'), (b'a', b'z'), (b'_', b'_')];

impl Ranges for IdentifierRanges {
    ghost set = { IsIdentifierCode };

    ghost list = { IDENTIFIER };

    ghost matches = { λ n. Prim.search rules };

    fn ranges() -> &'static [(u8, u8)] {
        &IDENTIFIER
    }
}

/// The characters of an identifier: letters, digits and `_`.
pub type Identifier = ByRanges<IdentifierRanges>;

/// Returns the characters at the start of a text that an identifier can contain, and the rest of the text:
/// `("a_max", " = 3")` for `a_max = 3`.
pub fn split_identifier<'a>(text: AsciiStr<'a>) -> (AsciiStr<'a>, AsciiStr<'a>)
    ensures { IsSpan IsIdentifierCode (text_of text.entry) (text_of result.0) (text_of result.1) }
{
    text.span::<Identifier>()
}
