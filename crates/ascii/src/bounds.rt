//! The one test of a range over a source, for every form of range and every kind of source.

ghost use Rattle.std.specs.Prelude.{MatchResult};
ghost use Rattle.ascii.specs.Slice.{IsAsciiBounds, IsRejected};

use crate::ascii_str::AsAsciiStrError;
use ascii_base::kernels;
use ascii_base::range::AsciiRange;

/// The start and the end of a range of a source that fits and holds only bytes below 128.
/// The fit is tested before any byte is read, and the range is scanned once.
pub(crate) fn checked_bounds(
    source: &[u8],
    range: AsciiRange,
) -> Result<(usize, usize), AsAsciiStrError>
    ensures { MatchResult result (IsAsciiBounds source.now range) (IsRejected source.now range) }
{
    let len = source.len();
    if !range.fits(len) {
        return Err(AsAsciiStrError { valid_up_to: len });
    }
    let start = range.start();
    let end = range.end(len);
    match kernels::first_other(&source[start..end]) {
        Some(i) => Err(AsAsciiStrError {
            valid_up_to: start + i,
        }),
        None => Ok((start, end)),
    }
}
