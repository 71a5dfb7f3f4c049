//! The number of LF among bytes.

ghost use Rattle.std.specs.Prelude.{◌≡◌, ◌≤◌, length};
ghost use Rattle.ascii_formats.specs.Places.{feeds};

/// How many bytes `count_few` takes at most, so that it counts in a byte.
const FEW: usize = 255;

/// Returns the number of LF among the bytes.
pub(crate) fn count_feeds(bytes: &[u8]) -> u64
    ensures count { result ≡ feeds bytes.now }
    ensures most { result ≤ length bytes.now }
{
    let mut rest = bytes;
    let mut count = 0;
    'parts: while rest.len() > FEW {
        let (part, others) = rest.split_at(FEW);
        count += u64::from(count_few(part));
        rest = others;
    }
    count + u64::from(count_few(rest))
}

/// Returns the number of LF among a few bytes.
fn count_few(bytes: &[u8]) -> u8
    requires { length bytes.now ≤ FEW }
    ensures count { result ≡ feeds bytes.now }
    ensures most { result ≤ length bytes.now }
{
    let mut count = 0;
    for &byte in bytes {
        count += u8::from(byte == b'\n');
    }
    count
}
