//! A caller of the chunks of bytes.

ghost use Rattle.std.specs.Prelude.{◌≡◌, IfOk};

use ascii::bytes;
use ascii::chunks::ByteRun;
use std::alloc::{AllocError, Global};

/// The bytes of the source, put together again from its chunks.
#[tactic(auto, using(ascii::proofs::CallerLemmas::joined_chunks))]
pub fn join_chunks(alloc: Global, source: &[u8]) -> Result<Vec<u8>, AllocError>
    ensures { IfOk result (λ bytes. bytes.items ≡ source.now) }
{
    let mut joined = Vec::new(alloc);
    for chunk in bytes::ascii_chunks(source) {
        match chunk.run {
            ByteRun::Ascii(text) => joined.extend_from_slice(text.as_bytes())?,
            ByteRun::Other(other) => joined.extend_from_slice(other)?,
        }
    }
    Ok(joined)
}
