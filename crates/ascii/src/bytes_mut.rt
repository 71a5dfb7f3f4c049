//! Mutable views of borrowed bytes.

ghost use Rattle.std.specs.Prelude.{true, false, ◌≡◌, IfOk, length};
ghost use Rattle.ascii_base.specs.Range.{start_of, end_of, Fits};
ghost use Rattle.ascii.specs.Slice.{AsciiBetween};
ghost use Rattle.ascii.specs.WritingView.{IsViewOf, MutSliceOutcome, FinalSource, borrow_of, whole_source_of};
ghost use Rattle.ascii.specs.Slice.{IsRejected};
ghost use Rattle.std.specs.Str.{IsAscii};
ghost use Rattle.std.specs.Borrow.{sem};

use crate::ascii_str::AsAsciiStrError;
use crate::ascii_str_mut::AsciiStrMut;
use crate::bounds::checked_bounds;
use ascii_base::range::AsciiRange;

/// Returns a mutable view of the part of the source in `range`. Nothing is checked.
///
/// Condition: the range fits, and every byte of the source in it is ASCII.
///
///     let mut source = *b"foo\xc4";
///     bytes::slice_ascii_mut_unchecked(&mut source, AsciiRange::To(2)).make_ascii_uppercase();
///     source == *b"FOo\xc4" // true
///     bytes::slice_ascii_mut_unchecked(&mut [196], AsciiRange::To(0)).as_ascii_str() // ""
#[inline]
pub fn slice_ascii_mut_unchecked(source: &mut [u8], range: AsciiRange) -> AsciiStrMut<'_>
    requires fits { Fits range (length source.old) }
    requires ascii { AsciiBetween source.old (start_of range) (end_of range (length source.old)) }
    ensures part { IsViewOf source.old (start_of range) (end_of range (length source.old)) result }
    ensures lender { borrow_of result ≡ source.entry.ghost_name }
{
    let end = range.end(source.len());
    AsciiStrMut {
        bytes: source,
        start: range.start(),
        end,
    }
}

/// Returns a mutable view of the whole source. Nothing is checked.
///
/// Condition: every byte of the source is ASCII.
///
///     let mut source = *b"foo";
///     bytes::as_mut_ascii_str_unchecked(&mut source).make_ascii_uppercase();
///     source == *b"FOO" // true
///     bytes::as_mut_ascii_str_unchecked(&mut []).as_ascii_str() // ""
#[inline]
pub fn as_mut_ascii_str_unchecked(source: &mut [u8]) -> AsciiStrMut<'_>
    requires { IsAscii source.old }
    ensures part { IsViewOf source.old 0 (length source.old) result }
    ensures lender { borrow_of result ≡ source.entry.ghost_name }
{
    slice_ascii_mut_unchecked(source, AsciiRange::Full)
}

/// Returns a mutable view of the part of the source in `range`, or an error: with the length of the
/// source if the range does not fit, and otherwise with the position in the source of the first
/// non-ASCII byte in the range. Bytes outside the range do not matter.
///
/// On error, the source is unchanged. On success, once the view is dropped, the source is the bytes
/// before the range, the last text of the view, and the bytes after the range.
///
///     let mut source = *b"foo\xc4";
///     if let Ok(mut view) = bytes::slice_ascii_mut(&mut source, AsciiRange::To(2)) {
///         view.make_ascii_uppercase();
///     }
///     source == *b"FOo\xc4" // true
///     bytes::slice_ascii_mut(&mut source, AsciiRange::From(2)).err() // Some(AsAsciiStrError(3))
pub fn slice_ascii_mut(
    source: &mut [u8],
    range: AsciiRange,
) -> Result<AsciiStrMut<'_>, AsAsciiStrError>
    ensures outcome { MutSliceOutcome source.old range result }
    ensures lender { IfOk result (λ v. borrow_of v ≡ source.entry.ghost_name) }
    ensures* rests { sem 𝓛 (FinalSource source.entry result) }
{
    let searched = search(source, range);
    if searched.is_refused {
        return Err(AsAsciiStrError {
            valid_up_to: searched.valid_up_to,
        });
    }
    Ok(searched.view)
}

/// Returns a mutable view of the whole source, or an error with the position of its first byte above
/// 127.
///
/// On error, the source is unchanged. On success, once the view is dropped, the source is the last
/// text of the view.
///
///     let mut source = *b"foo";
///     if let Ok(mut view) = bytes::as_mut_ascii_str(&mut source) {
///         view.make_ascii_uppercase();
///     }
///     source == *b"FOO" // true
///     bytes::as_mut_ascii_str(&mut [97, 98, 196]).err() // Some(AsAsciiStrError(2))
pub fn as_mut_ascii_str(source: &mut [u8]) -> Result<AsciiStrMut<'_>, AsAsciiStrError>
    ensures outcome { MutSliceOutcome source.old AsciiRange.Full result }
    ensures lender { IfOk result (λ v. borrow_of v ≡ source.entry.ghost_name) }
    ensures* rests { sem 𝓛 (FinalSource source.entry result) }
{
    slice_ascii_mut(source, AsciiRange::Full)
}

/// What a search of a range of a source found.
#[derive(Drop)]
struct SearchOutcome<'a> {
    /// The part of the source in the range; an empty part if the source is rejected.
    view: AsciiStrMut<'a>,
    is_refused: bool,
    /// The position that the error names.
    valid_up_to: usize,
}

/// Searches the range of a source for a non-ASCII byte, and keeps the borrow of the source.
fn search(source: &mut [u8], range: AsciiRange) -> SearchOutcome<'_>
    ensures accepted { result.is_refused ≡ false → let n = length source.old in
        Fits range n × IsViewOf source.old (start_of range) (end_of range n) result.view }
    ensures refused { result.is_refused ≡ true
        → IsRejected source.old range (record { valid_up_to = result.valid_up_to }) }
    ensures whole { whole_source_of result.view ≡ source.old }
    ensures lender { borrow_of result.view ≡ source.entry.ghost_name }
{
    match checked_bounds(source, range) {
        Ok((start, end)) => SearchOutcome {
            view: AsciiStrMut {
                bytes: source,
                start,
                end,
            },
            is_refused: false,
            valid_up_to: end,
        },
        Err(error) => SearchOutcome {
            view: AsciiStrMut {
                bytes: source,
                start: 0,
                end: 0,
            },
            is_refused: true,
            valid_up_to: error.valid_up_to,
        },
    }
}
