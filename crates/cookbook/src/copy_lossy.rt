//! A text from bytes that may not be ASCII, with a mark where other bytes are.

ghost use Rattle.std.specs.Prelude.{IfOk};
ghost use Rattle.cookbook.specs.Lossy.{IsLossyCopy};

use ascii::chunks::ByteRun;
use ascii::{AsciiChar, AsciiString, bytes};
use std::alloc::{AllocError, Global};

/// Returns a copy of the source with one question mark in place of each longest run of bytes that are
/// not ASCII, as `String::from_utf8_lossy` does for UTF-8. Fails only if an allocation fails.
///
/// For `na\xc3\xafve` it is `na?ve`.
pub fn copy_lossy(alloc: Global, source: &[u8]) -> Result<AsciiString, AllocError>
    ensures { IfOk result (λ copy. IsLossyCopy source.now copy.text) }
{
    let mut copy = AsciiString::new(alloc);
    for chunk in bytes::ascii_chunks(source) {
        match chunk.run {
            ByteRun::Ascii(text) => copy.push_str(text)?,
            ByteRun::Other(_) => copy.push(AsciiChar::Question)?,
        }
    }
    Ok(copy)
}
