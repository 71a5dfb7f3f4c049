//! Strings that are written again in the room that they have.

ghost use Rattle.std.specs.Prelude.{◌≡◌, ◌+◌, ◌-◌, ◌<◌, ◌++◌, ◌∷◌, ◌==◌, [], IsOk, IsOkAnd};
ghost use Rattle.std.specs.Prelude.{codes, filter, length, map, not, remove, slice_index};
ghost use Rattle.std.specs.Prelude.{string_bytes, take};
ghost use Rattle.std.specs.List.{All};
ghost use Rattle.ascii.specs.Case.{lower_image, upper_image};
ghost use Rattle.ascii.specs.Code.{code_of};

use ascii::classes::Class;
use ascii::{AsciiChar, AsciiString};
use std::alloc::AllocError;
use std::fmt::{self, Write};

/// Replaces the last character of a text that has one. It never fails.
pub fn replace_last(string: &mut AsciiString, ch: AsciiChar) -> Result<(), AllocError>
    requires { 0 < length string.old.text }
    ensures ok { IsOk result }
    ensures text { string.new.text
        ≡ take (length string.old.text - 1) string.old.text ++ code_of ch ∷ [] }
{
    string.pop();
    string.push(ch)
}

/// Moves the character at a position, counted from 0, to the end of the text. It never fails.
pub fn move_to_end(string: &mut AsciiString, idx: usize) -> Result<(), AllocError>
    requires { idx < length string.old.text }
    ensures ok { IsOk result }
    ensures text { string.new.text
        ≡ remove string.old.text idx ++ slice_index string.old.text idx ∷ [] }
{
    let ch = string.remove(idx);
    string.push(ch)
}

/// Cuts a text that is longer than `n` down to `n` characters and a mark after them. It never
/// fails.
pub fn truncate_with_mark(
    string: &mut AsciiString,
    n: usize,
    mark: AsciiChar,
) -> Result<(), AllocError>
    requires { n < length string.old.text }
    ensures ok { IsOk result }
    ensures text { string.new.text ≡ take n string.old.text ++ code_of mark ∷ [] }
{
    string.truncate(n);
    string.push(mark)
}

/// Replaces a text that is not empty by one character. It never fails.
pub fn replace_with_char(string: &mut AsciiString, ch: AsciiChar) -> Result<(), AllocError>
    requires { 0 < length string.old.text }
    ensures ok { IsOk result }
    ensures text { string.new.text ≡ code_of ch ∷ [] }
{
    string.clear();
    string.push(ch)
}

/// Writes nothing, which never fails.
pub fn write_nothing(string: &mut AsciiString) -> fmt::Result
    ensures ok { IsOk result }
    ensures text { string.new.text ≡ string.old.text }
{
    string.write_str("")
}

/// The number of characters that can be pushed before the string has to grow.
pub fn spare_room(string: &AsciiString) -> usize
    ensures { length string.now.text + result ≡ string.now.capacity }
{
    string.capacity() - string.len()
}

/// The bytes of a text with one more in the room that the string had spare. It never fails.
pub fn into_bytes_with_end(string: AsciiString, end: u8) -> Result<Vec<u8>, AllocError>
    requires { length string.text < string.capacity }
    ensures { IsOkAnd result (λ bytes. bytes.items ≡ string.text ++ end ∷ []) }
{
    let mut bytes = Vec::from(string);
    bytes.push(end)?;
    Ok(bytes)
}

/// A text as a `String` with one character more in the room that the string had spare. It never fails.
pub fn into_string_with_end(string: AsciiString) -> Result<String, AllocError>
    requires { length string.text < string.capacity }
    ensures { IsOkAnd result (λ text. string_bytes text ≡ string.text ++ codes ".") }
{
    let mut text = String::from(string);
    text.push_str(".")?;
    Ok(text)
}

/// The character that a table begins with where nothing was put in: code 0.
pub fn blank() -> AsciiChar
    ensures { code_of result ≡ 0 }
{
    AsciiChar::default()
}

/// Removes each `-` of a text.
pub fn remove_minus(text: &mut AsciiString)
    ensures { text.new.text ≡ filter (λ code. not (code == 45)) text.old.text }
{
    text.retain(|ch| ch != AsciiChar::Minus);
}

/// Changes the letters of a text to upper case twice: what one change leaves.
#[tactic(auto, using(ascii::proofs::CallerLemmas::upper_twice))]
pub fn upper_twice(text: &mut AsciiString)
    ensures { text.new.text ≡ map upper_image text.old.text }
{
    text.make_ascii_uppercase();
    text.make_ascii_uppercase();
}

/// Changes the letters of a text to lower case twice: what one change leaves.
#[tactic(auto, using(ascii::proofs::CallerLemmas::lower_twice))]
pub fn lower_twice(text: &mut AsciiString)
    ensures { text.new.text ≡ map lower_image text.old.text }
{
    text.make_ascii_lowercase();
    text.make_ascii_lowercase();
}

/// Removes each character that is not in a class.
pub fn keep_class<C: Class>(text: &mut AsciiString)
    ensures { All C.is text.new.text }
{
    text.retain(|ch| C::has(ch.as_byte()));
}
