//! Names in printable ASCII, quoted so that a shell reads them back.

ghost use Rattle.std.specs.Prelude.{◌≡◌, ◌++◌, ⊤, [], IfOk, IsTrue, MatchOption, codes};
ghost use Rattle.std.specs.Prelude.{if◌then◌else◌};
ghost use Rattle.std.specs.Int.{IsInRange};
ghost use Rattle.std.specs.List.{All};
ghost use Rattle.std.specs.Result.{OnOk};
ghost use Rattle.std.proofs.Common.{rules};
ghost use Rattle.ascii.specs.Class.{IsPrintable};
ghost use Rattle.ascii_filter.specs.Quoted.{Adds, IsBare, IsDoubled, Reads, letter_value};
ghost use Rattle.ascii_filter.specs.Quoted.{reading_of};
ghost use Rattle.ascii_filter.specs.Quoted.{ansi};
ghost use Rattle.ascii_filter.specs.declared.quoted.TheConstants.{BARE, DOUBLED};

use ascii::classes::{ByRanges, Ranges};
use ascii::kernels::first_not;
use std::alloc::{AllocError, Allocator};

/// The first and the last byte of each range of bytes that need no quotes, except at the start of a name.
const BARE: [(u8, u8); 8] = [
    (35, 35),
    (37, 37),
    (43, 57),
    (64, 90),
    (93, 93),
    (95, 95),
    (97, 123),
    (125, 126),
];

/// The ranges of the bytes that need no quotes.
struct BareRanges;

impl Ranges for BareRanges {
    ghost set = { IsBare };

    ghost list = { BARE };

    ghost matches = { λ n. Prim.search rules };

    fn ranges() -> &'static [(u8, u8)] {
        &BARE
    }
}

/// The first and the last byte of each range of bytes that are themselves in double quotes.
const DOUBLED: [(u8, u8); 8] = [
    (32, 32),
    (37, 37),
    (39, 39),
    (43, 58),
    (64, 90),
    (93, 93),
    (95, 95),
    (97, 122),
];

/// The ranges of the bytes that are themselves in double quotes.
struct DoubledRanges;

impl Ranges for DoubledRanges {
    ghost set = { IsDoubled };

    ghost list = { DOUBLED };

    ghost matches = { λ n. Prim.search rules };

    fn ranges() -> &'static [(u8, u8)] {
        &DOUBLED
    }
}

/// Returns a name as coreutils write it: as it is, if it needs no quotes; in double quotes, if it has a single quote
/// and nothing else that needs more than quotes; otherwise in single quotes, with escapes for what is not printable
/// ASCII. Fails only if an allocation fails.
pub fn quoted<A: Allocator>(alloc: A, name: &[u8]) -> Result<Vec<u8, A>, AllocError>
    ensures printable { IfOk result (λ quoted. All IsPrintable quoted.items) }
    ensures back { IfOk result (λ quoted. Reads quoted.items name.now) }
{
    if is_bare(name) {
        return Vec::from_slice(alloc, name);
    }
    if is_doubled(name) {
        return in_double_quotes(alloc, name);
    }
    in_single_quotes(alloc, name)
}

/// Returns `true` if the name needs no quotes. `#` and `~` need them at the start of a name, and `{` and `}` alone.
fn is_bare(name: &[u8]) -> bool
    ensures { IsTrue result → All IsBare name.now }
{
    match name {
        [] | [b'#' | b'~', ..] | [b'{' | b'}'] => false,
        _ => first_not::<ByRanges<BareRanges>>(name).is_none(),
    }
}

/// Returns `true` if the name has a single quote, and all of its bytes are themselves in double quotes.
fn is_doubled(name: &[u8]) -> bool
    ensures { IsTrue result → All IsDoubled name.now }
{
    name.contains(&b'\'') && first_not::<ByRanges<DoubledRanges>>(name).is_none()
}

/// Returns a name of bytes that are themselves in double quotes between two of these.
fn in_double_quotes<A: Allocator>(alloc: A, name: &[u8]) -> Result<Vec<u8, A>, AllocError>
    requires { All IsDoubled name.now }
    ensures { IfOk result (λ quoted. quoted.items ≡ codes "\"" ++ (name.now ++ codes "\"")) }
{
    let mut quoted = Vec::from_slice(alloc, b"\"")?;
    quoted.extend_from_slice(name)?;
    quoted.extend_from_slice(b"\"")?;
    Ok(quoted)
}

/// Returns a name in single quotes, with escapes for what is not printable ASCII.
fn in_single_quotes<A: Allocator>(alloc: A, name: &[u8]) -> Result<Vec<u8, A>, AllocError>
    ensures printable { IfOk result (λ quoted. All IsPrintable quoted.items) }
    ensures back { IfOk result (λ quoted. Reads quoted.items name.now) }
{
    let mut quoted = Vec::from_slice(alloc, b"'")?;
    let mut is_escaping = false;
    for &byte in name {
        is_escaping = put_byte(&mut quoted, is_escaping, byte)?;
    }
    quoted.extend_from_slice(b"'")?;
    Ok(quoted)
}

/// Appends a byte to a quoted name, and returns whether it was escaped, as the byte before it was if `is_escaping`.
fn put_byte<A: Allocator>(
    quoted: &mut Vec<u8, A>,
    is_escaping: bool,
    byte: u8,
) -> Result<bool, AllocError>
    ensures { IfOk result (λ escapes.
        Adds quoted.old.items quoted.new.items (reading_of is_escaping) byte (reading_of escapes)) }
{
    match byte {
        b'\'' => {
            quoted.extend_from_slice(b"'\\''")?;
            Ok(false)
        }
        b' '..=b'~' => {
            quoted.extend_from_slice(closing(is_escaping))?;
            quoted.extend_from_slice(&[byte])?;
            Ok(false)
        }
        _ => {
            quoted.extend_from_slice(opening(is_escaping))?;
            put_escape(quoted, byte)?;
            Ok(true)
        }
    }
}

/// What ends a run of escapes, if there is one: the quotes that close `$'..'` and open others.
fn closing(is_escaping: bool) -> &'static [u8]
    ensures { result.now ≡ if is_escaping then codes "''" else [] }
{
    if is_escaping { b"''" } else { b"" }
}

/// What begins a run of escapes, unless there is one: the quotes that close others and open `$'..'`.
fn opening(is_escaping: bool) -> &'static [u8]
    ensures { result.now ≡ if is_escaping then [] else codes "'$'" }
{
    if is_escaping { b"" } else { b"'$'" }
}

/// Appends the escape of a byte: the letter that C has for it, or else its three octal digits.
fn put_escape<A: Allocator>(quoted: &mut Vec<u8, A>, byte: u8) -> Result<(), AllocError>
    ensures { OnOk result (Adds quoted.old.items quoted.new.items ansi byte ansi) }
{
    match letter_of(byte) {
        Some(letter) => {
            quoted.extend_from_slice(&[b'\\', letter])?;
            Ok(())
        }
        None => {
            let digits = [
                b'\\',
                b'0' + byte / 64,
                b'0' + byte / 8 % 8,
                b'0' + byte % 8,
            ];
            quoted.extend_from_slice(&digits)?;
            Ok(())
        }
    }
}

/// The letter that C has for a control character.
fn letter_of(byte: u8) -> Option<u8>
    ensures { MatchOption result ⊤
        (λ letter. IsInRange 97 122 letter × (letter_value letter ≡ byte)) }
{
    match byte {
        0x07 => Some(b'a'),
        0x08 => Some(b'b'),
        b'\t' => Some(b't'),
        b'\n' => Some(b'n'),
        0x0B => Some(b'v'),
        0x0C => Some(b'f'),
        b'\r' => Some(b'r'),
        _ => None,
    }
}
