//! The first occurrence of a needle, ignoring the case of letters, in linear time: parts of the text, the windows, are
//! copied in lower case one after another, and the crate `memchr` searches each copy.
//!
//! A search by masks is faster if it has few candidates.

ghost use Rattle.std.specs.Prelude.{◌≡◌, ◌<◌, ◌≤◌, length, map};
ghost use Rattle.memchr.specs.Find.{FindsNeedle};
ghost use Rattle.ascii_base.specs.Case.{lower_image};

use ascii_base::kernels::lower_in_place;
use memchr::arch::all::twoway::Finder;

/// The length of the longest needle that a search in windows takes.
pub(crate) const LONGEST: usize = 8_192;

/// The length of a window. Two windows in a row share one byte less than the needle has.
const WINDOW: usize = 16_384;

/// Returns the position of the first `needle` in `hay` from `from` on, ignoring ASCII case, or `None` if there is none.
/// Not inlined, so that only a search in windows needs its 24 KiB of stack.
#[inline(never)]
pub(crate) fn first_in_windows(hay: &[u8], needle: &[u8], from: usize) -> Option<usize>
    requires some { 0 < length needle.now }
    requires short { length needle.now ≤ LONGEST }
    requires inside { from ≤ length hay.now }
    ensures { FindsNeedle (map lower_image hay.now) (map lower_image needle.now) from result }
{
    let mut copy = [0; LONGEST];
    let folded = in_lower_case(needle, &mut copy);
    let finder = Finder::new(folded);
    let mut room = [0; WINDOW];
    let mut start = from;
    while hay.len() - start >= needle.len() {
        let end = hay.len().min(start + WINDOW);
        let window = in_lower_case(&hay[start..end], &mut room);
        if let Some(found) = finder.find(window, folded) {
            return Some(start + found);
        }
        start = end - needle.len() + 1;
    }
    None
}

/// Copies `bytes` in lower case to the start of `room`, and returns the copy.
fn in_lower_case<'a>(bytes: &[u8], room: &'a mut [u8]) -> &'a [u8]
    requires { length bytes.now ≤ length room.old }
    ensures { result.now ≡ map lower_image bytes.now }
{
    let copy = &mut room[..bytes.len()];
    copy.copy_from_slice(bytes);
    lower_in_place(copy);
    copy
}
