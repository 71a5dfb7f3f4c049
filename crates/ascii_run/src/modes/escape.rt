//! The mode `Escape`.

ghost use Rattle.std.specs.Prelude.{◌≡◌, ◌<◌, ⊤, List};
ghost use Rattle.std.specs.Char.{digit_char};
ghost use Rattle.std.specs.Char.Escape.{escape_ascii};
ghost use Rattle.std.proofs.Common.{rules};
ghost use Rattle.ascii_run.specs.Modes.Escape.{IsUnescapedByte, escape_plain};
ghost use Rattle.ascii_run.specs.declared.modes.escape.TheConstants.{UNESCAPED};

use super::mapped::Show;
use ascii::classes::{ByRanges, Ranges};
use ascii::kernels::first_not;
use ascii_devices::{BufferedSink, Sink};
use std::alloc::Allocator;

/// The first and the last byte of each range of bytes that `escape` shows as themselves.
const UNESCAPED: [(u8, u8); 4] = [(32, 33), (35, 38), (40, 91), (93, 126)];

/// The ranges of the bytes that `escape` shows as themselves.
struct UnescapedRanges;

impl Ranges for UnescapedRanges {
    ghost set = { IsUnescapedByte };

    ghost list = { UNESCAPED };

    ghost matches = { λ n. Prim.search rules };

    fn ranges() -> &'static [(u8, u8)] {
        &UNESCAPED
    }
}

/// The bytes that `escape` shows as themselves: printable ASCII except quotes and the backslash.
type Unescaped = ByRanges<UnescapedRanges>;

/// Shows each byte as std's `escape_ascii` does.
pub(crate) struct Escape;

impl Show for Escape {
    ghost shown = { escape_ascii };

    ghost is_ready = { λ _. ⊤ };

    ghost is_plain = { IsUnescapedByte };

    ghost plain = { escape_plain };

    #[inline(always)]
    fn first_other(codes: &[u8]) -> Option<usize> {
        first_not::<Unescaped>(codes)
    }

    fn put_other<K: Sink, A: Allocator>(
        &self,
        code: u8,
        buffer: &mut BufferedSink<A>,
        writer: &mut K,
    ) {
        match code {
            b'\t' => buffer.put(writer, b"\\t"),
            b'\r' => buffer.put(writer, b"\\r"),
            b'\n' => buffer.put(writer, b"\\n"),
            b'\'' | b'"' | b'\\' => buffer.put(writer, &[b'\\', code]),
            _ => {
                let digits = [b'\\', b'x', hex_digit(code / 16), hex_digit(code % 16)];
                buffer.put(writer, &digits);
            }
        }
    }
}

/// The lower-case hexadecimal digit of a number.
fn hex_digit(number: u8) -> u8
    requires { number < 16 }
    ensures { result ≡ digit_char number }
{
    if number < 10 {
        b'0' + number
    } else {
        b'a' - 10 + number
    }
}
