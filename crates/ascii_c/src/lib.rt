//! The library for C: which bytes are ASCII, case, comparison, searches, whitespace and lines.
//!
//! | To find or change | Call |
//! |---|---|
//! | the first non-ASCII byte | `ascii_first_other` |
//! | whether a part of a source is ASCII, and if not, the position | `ascii_accepts_part` |
//! | the case of letters, in place | `ascii_to_upper`, `ascii_to_lower` |
//! | whether two texts are equal, ignoring ASCII case | `ascii_equal_ignoring_case` |
//! | a text in another one | `ascii_find`, `ascii_find_ignoring_case` |
//! | the whitespace at the ends of a text | `ascii_trim_start`, `ascii_trim_end` |
//! | the first line of a text, and where the next one starts | `ascii_next_line` |
//!
//! Bytes are passed as a pointer and a length; `ascii.h` declares the calls. Nothing is allocated. A call
//! that has no position to return returns the length.
#![tactic(auto)]

ghost use Rattle.std.specs.Prelude.{◌≡◌, ◌≢◌, ◌<◌, ◌≤◌, ◌⊎◌, ◌↔◌, [], IsFalse, IsTrue, length, map};
ghost use Rattle.std.specs.Prelude.{slice_range, take};
ghost use Rattle.std.specs.Str.{IsAscii};
ghost use Rattle.ascii.specs.Bytes.{FirstOther};
ghost use Rattle.ascii.specs.Case.{lower_image, upper_image};
ghost use Rattle.ascii.specs.Class.{IsWhitespace};
ghost use Rattle.ascii.specs.Trim.{TrimsEnd, TrimsStart};
ghost use Rattle.ascii_c.specs.Part.{IsWithin, IsRejectedAt};
ghost use Rattle.ascii_c.specs.Places.{FindsOrEnd, IsFirstLine};

use ascii::iter::Endings;
use ascii::{AsciiRange, bytes, endings, kernels};
use ascii_search::short_search;

/// Returns the position of the first non-ASCII byte, or `length` if every byte is less than 128. For
/// `ab\xc4` it is 2.
#[unsafe(no_mangle)]
pub extern "C" fn ascii_first_other(bytes: &[u8]) -> usize
    ensures { FirstOther bytes.now 0 (length bytes.now) result
        ⊎ (IsAscii bytes.now × (result ≡ length bytes.now)) }
{
    kernels::first_other(bytes).unwrap_or(bytes.len())
}

/// Changes each byte of `a` to `z` to that of `A` to `Z`. Every other byte is unchanged. `Ab-1`
/// becomes `AB-1`.
#[unsafe(no_mangle)]
pub extern "C" fn ascii_to_upper(bytes: &mut [u8])
    ensures { bytes.new ≡ map upper_image bytes.old }
{
    kernels::upper_in_place(bytes);
}

/// Changes each byte of `A` to `Z` to that of `a` to `z`. Every other byte is unchanged. `Ab-1`
/// becomes `ab-1`.
#[unsafe(no_mangle)]
pub extern "C" fn ascii_to_lower(bytes: &mut [u8])
    ensures { bytes.new ≡ map lower_image bytes.old }
{
    kernels::lower_in_place(bytes);
}

/// Returns `true` if two texts are equal, ignoring ASCII case. `Host` and `HOST` are.
#[unsafe(no_mangle)]
pub extern "C" fn ascii_equal_ignoring_case(first: &[u8], second: &[u8]) -> bool
    ensures { IsTrue result ↔ (map lower_image first.now ≡ map lower_image second.now) }
{
    kernels::eq_ignore_case(first, second)
}

/// Returns the position of the first `needle` in `text`, or `length` if the text does not contain it.
/// An empty needle is found at 0. In `abcabc` the needle `bc` is at 1.
#[unsafe(no_mangle)]
pub extern "C" fn ascii_find(text: &[u8], needle: &[u8]) -> usize
    ensures { FindsOrEnd text.now needle.now result }
{
    short_search::first_needle(text, needle).unwrap_or(text.len())
}

/// Returns the position of the first `needle` in `text`, ignoring ASCII case, or `length` if the text
/// does not contain it. An empty needle is found at 0. In `abcABC` the needle `BC` is at 1.
#[unsafe(no_mangle)]
pub extern "C" fn ascii_find_ignoring_case(text: &[u8], needle: &[u8]) -> usize
    ensures { FindsOrEnd (map lower_image text.now) (map lower_image needle.now) result }
{
    short_search::first_needle_ignoring_case(text, needle).unwrap_or(text.len())
}

/// Returns `true` if the bytes from `start` up to `end` are within the source and all less than
/// 128; `place` is then unchanged. Otherwise `place` becomes the position of the first of them above
/// 127, or `length` if they are not within the source. For `ab\xc4` the part from 0 to 2 is
/// accepted, the part from 1 to 3 is rejected at 2, and the part from 2 to 4 at 3.
#[unsafe(no_mangle)]
pub extern "C" fn ascii_accepts_part(
    source: &[u8],
    start: usize,
    end: usize,
    place: &mut usize,
) -> bool
    ensures accepted { IsTrue result
        → IsWithin source.now start end × IsAscii (slice_range source.now start end) }
    ensures refused { IsFalse result → IsRejectedAt source.now start end place.new }
    ensures stays { IsTrue result → place.new ≡ place.old }
{
    match bytes::slice_ascii(source, AsciiRange::Range(start, end)) {
        Ok(_) => true,
        Err(refusal) => {
            *place = refusal.valid_up_to();
            false
        }
    }
}

/// Returns the position at which the bytes begin without leading whitespace. For ` ab ` it is 1.
#[unsafe(no_mangle)]
pub extern "C" fn ascii_trim_start(bytes: &[u8]) -> usize
    ensures inside { result ≤ length bytes.now }
    ensures trims { TrimsStart IsWhitespace bytes.now
        (slice_range bytes.now result (length bytes.now)) }
{
    kernels::first_not_whitespace(bytes).unwrap_or(bytes.len())
}

/// Returns the length of the bytes without trailing whitespace. For ` ab ` it is 3.
#[unsafe(no_mangle)]
pub extern "C" fn ascii_trim_end(bytes: &[u8]) -> usize
    ensures inside { result ≤ length bytes.now }
    ensures trims { TrimsEnd IsWhitespace bytes.now (take result bytes.now) }
{
    kernels::last_not_whitespace(bytes).map_or(0, |last| last + 1)
}

/// Returns the length of the first line of `text` without its ending, and sets `next` to where the
/// line after it starts, or to `length` if there is none. A line ends in LF or CR LF; the last one may
/// have no ending. An empty text has no line, and both are 0. For `ab\r\nc` they are 2 and 4.
#[unsafe(no_mangle)]
pub extern "C" fn ascii_next_line(text: &[u8], next: &mut usize) -> usize
    ensures none { text.now ≡ [] → (result ≡ 0) × (next.new ≡ 0) }
    ensures line { text.now ≢ [] → IsFirstLine text.now result next.new }
{
    let end = endings::find_end(Endings::Any, text, 0).unwrap_or(text.len());
    *next = end;
    if end == 0 {
        return 0;
    }
    let (body, _) = endings::split_ending(Endings::Any, &text[..end]);
    body.len()
}
