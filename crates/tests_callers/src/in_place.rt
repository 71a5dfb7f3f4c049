//! Edits of a part of a source.

ghost use Rattle.std.specs.Prelude.{◌≡◌, OnOk, OnErr, IfErr};
ghost use Rattle.ascii.specs.Slice.{IsRejected};
ghost use Rattle.tests_callers.specs.UpperPart.{upper_part};

use ascii::{AsAsciiStrError, AsciiRange, AsciiStrMut, bytes};

/// Changes the letters of a part of a source to upper case, if the part is ASCII text. A rejected
/// source is unchanged.
pub fn upper_in(source: &mut [u8], range: AsciiRange) -> Result<(), AsAsciiStrError>
    ensures done { OnOk result (source.new ≡ upper_part source.old range) }
    ensures unchanged { OnErr result (source.new ≡ source.old) }
    ensures refused { IfErr result (IsRejected source.old range) }
{
    bytes::slice_ascii(&*source, range)?;
    bytes::slice_ascii_mut_unchecked(source, range).make_ascii_uppercase();
    Ok(())
}
