//! The mode `Json`.

ghost use Rattle.std.specs.Prelude.{◌≡◌, ◌<◌, ◌≤◌, ◌+◌, ◌∷◌, [], IfOk, length, map};
ghost use Rattle.ascii.specs.Lanes.{Marks};
ghost use Rattle.ascii.specs.View.{text_of};
ghost use Rattle.ascii_devices.specs.Buffered.{AppendsTo, MayFail, output_state};
ghost use Rattle.ascii_run.specs.Modes.Json.{is_unescaped, is_unescaped-decides, json_plain};
ghost use Rattle.ascii_run.specs.Modes.Json.{AreEscapes, HasEscapes, IsUnescaped, json_code};
ghost use Rattle.ascii_run.specs.Modes.Json.{json_text};

use super::mapped::Show;
use ascii::classes::{Class, ClassBy};
use ascii::kernels::first_not;
use ascii::{AsciiStr, AsciiString, bytes};
use ascii_devices::{BufferedSink, Sink};
use json::Writer;
use std::alloc::{AllocError, Allocator};
use std::simd::prelude::*;

/// The characters that appear as themselves in a JSON string.
struct JsonPassThrough;

impl Class for JsonPassThrough {
    ghost is = { IsUnescaped };

    ghost test = { is_unescaped };

    #[inline(always)]
    fn has(code: u8) -> bool {
        code >= 32 && code != b'"' && code != b'\\'
    }

    ghost decides = { is_unescaped-decides };
}

impl<const N: usize> ClassBy<N> for JsonPassThrough {
    #[inline(always)]
    fn marks(bytes: &[u8], at: usize) -> u64
        requires lanes { N ≤ 64 }
        requires room { at + N ≤ length bytes.now }
        ensures { Marks IsUnescaped bytes.now at N result }
    {
        let lanes = Simd::<u8, N>::from_slice(&bytes[at..]);
        let is_quote = lanes.simd_eq(Simd::splat(b'"')) | lanes.simd_eq(Simd::splat(b'\\'));
        (lanes.simd_lt(Simd::splat(32)) | is_quote).to_bitmask()
    }
}

/// The text as a compact JSON string.
pub(crate) fn json_string<A: Allocator>(
    alloc: A,
    text: AsciiStr<'_>,
) -> Result<AsciiString<A>, AllocError>
    ensures { IfOk result (λ output. output.text ≡ json_text (text_of text.entry)) }
{
    let mut writer = Writer::new(Vec::with_capacity(alloc, text.len().saturating_add(2))?);
    writer.string(text.as_str())?;
    Ok(AsciiString::from_ascii_unchecked(writer.into_inner()))
}

/// The JSON string of each character by itself, indexed by its code.
#[derive(Drop)]
pub(crate) struct Escapes<A: Allocator> {
    strings: Vec<AsciiString<A>, A>,
}

impl<A: Allocator + Copy> Escapes<A> {
    /// The JSON strings of all characters.
    pub(crate) fn new(alloc: A) -> Result<Escapes<A>, AllocError>
        ensures { IfOk result HasEscapes }
    {
        let mut strings = Vec::with_capacity(alloc, 128)?;
        for code in 0..128u8 {
            strings.push(json_string(alloc, bytes::as_ascii_str_unchecked(&[code]))?)?;
        }
        Ok(Escapes { strings })
    }

    /// No JSON string, for the modes that need none.
    pub(crate) fn none(alloc: A) -> Escapes<A> {
        Escapes {
            strings: Vec::new(alloc),
        }
    }
}

impl<B: Allocator> Show for Escapes<B> {
    ghost shown = { json_code };

    ghost is_ready = { HasEscapes };

    ghost is_plain = { IsUnescaped };

    ghost plain = { json_plain };

    #[inline(always)]
    fn first_other(codes: &[u8]) -> Option<usize> {
        first_not::<JsonPassThrough>(codes)
    }

    fn put_other<K: Sink, A: Allocator>(
        &self,
        code: u8,
        buffer: &mut BufferedSink<A>,
        writer: &mut K,
    ) {
        let escape = escape_of(code, &self.strings);
        buffer.put(writer, &escape[1..escape.len() - 1]);
    }
}

/// The JSON string of a character.
fn escape_of<A: Allocator>(code: u8, escapes: &[AsciiString<A>]) -> &[u8]
    requires escapes { AreEscapes 128 (map (λ escape. escape.text) escapes.now) }
    requires ascii { code < 128 }
    ensures { result.now ≡ json_text (code ∷ []) }
{
    escapes[code as usize].as_ascii_str().as_bytes()
}
