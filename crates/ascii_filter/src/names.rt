//! The names of inputs: what the option parser, the system and a reader of messages have of each.

ghost use Rattle.std.specs.Prelude.{◌≡◌, ◌≢◌, ◌↔◌, ◌++◌, ◌∷◌, [], EachIndex, IfOk, IsTrue, Some};
ghost use Rattle.std.specs.Prelude.{codes, if◌then◌else◌, slice_get, slice_index};
ghost use Rattle.ascii_filter.specs.Quoted.{IsPlain};
ghost use Rattle.ascii_filter.specs.Status.{IsNameOf, IsShownAs};

use crate::options::STANDARD_INPUT;
use crate::quoted::quoted;
use std::alloc::{AllocError, Global};

/// What begins the word that the parser has in place of an argument that is not valid UTF-8. No
/// argument has a NUL.
const MARK: &str = "\0";

/// Returns what the option parser has of an argument: its text, or if it is not valid UTF-8, a NUL and its index.
pub fn word_of(alloc: Global, index: usize, argument: &[u8]) -> Result<String, AllocError> {
    match str::from_utf8(argument) {
        Ok(text) => String::from_str(alloc, text),
        Err(_) => format!(in alloc; "{MARK}{index}"),
    }
}

/// Returns `true` if the argument is valid UTF-8: its word does not begin with NUL.
pub fn is_text(word: &str) -> bool
    ensures { IsTrue result ↔ (slice_get word.now 0 ≢ Some 0) }
{
    word.as_bytes().first() != Some(&0)
}

/// Returns the bytes of the argument that the parser has as this word; for `-` the name of standard input.
pub fn name_of<'a>(word: &'a str, arguments: &'a [Vec<u8>]) -> &'a [u8]
    ensures { IsNameOf word.now result.now }
{
    if word == "-" {
        return STANDARD_INPUT.as_bytes();
    }
    if is_text(word) {
        return word.as_bytes();
    }
    let Some(digits) = word.strip_prefix(MARK) else {
        return word.as_bytes();
    };
    match digits.parse::<usize>() {
        Ok(index) if index < arguments.len() => &arguments[index],
        _ => word.as_bytes(),
    }
}

/// Returns what messages and lines call an input: its name, quoted, or the name of standard input.
pub fn shown_name(alloc: Global, word: &str, name: &[u8]) -> Result<Vec<u8>, AllocError>
    ensures { IfOk result (λ shown. IsShownAs word.now name.now shown.items) }
{
    if word == "-" {
        return Vec::from_slice(alloc, name);
    }
    quoted(alloc, name)
}

/// Returns what comes before each line and number of an input: for machines its name and NUL, otherwise what it is
/// called and a colon.
pub fn label_of(
    alloc: Global,
    is_null: bool,
    name: &[u8],
    shown: &[u8],
) -> Result<Vec<u8>, AllocError>
    ensures { IfOk result (λ label. label.items
        ≡ if is_null then name.now ++ 0 ∷ [] else shown.now ++ codes ":") }
{
    let (name, end) = if is_null {
        (name, b'\0')
    } else {
        (shown, b':')
    };
    let mut label = Vec::from_slice(alloc, name)?;
    label.push(end)?;
    Ok(label)
}

/// Writes `?` in place of each byte that is neither printable ASCII nor LF.
pub fn make_plain(text: &mut [u8])
    ensures { EachIndex text.new (λ k. IsPlain (slice_index text.new k)) }
{
    for byte in text.iter_mut() {
        *byte = plain(*byte);
    }
}

/// Returns the byte, or `?` if it is neither printable ASCII nor LF.
fn plain(byte: u8) -> u8
    ensures { IsPlain result }
{
    match byte {
        b'\n' | b' '..=b'~' => byte,
        _ => b'?',
    }
}
