//! Strings over any buffer, calls of the small string and of the string of a fixed capacity, and
//! hashes.

ghost use Rattle.std.specs.Prelude.{◌≡◌, ◌+◌, ◌<◌, ◌≤◌, ◌++◌, ◌∷◌, [], IfErr, IfOk, IsErr, IsOk};
ghost use Rattle.std.specs.Prelude.{IsOkAnd, OnErr, OnOk, length, vec_capacity};
ghost use Rattle.ascii.specs.Code.{code_of};
ghost use Rattle.ascii.specs.Cow.{cow_text};
ghost use Rattle.ascii.specs.View.{text_of};

use ascii::{
    AsciiChar, AsciiStr, AsciiString, Buffer, CowAsciiStr, FromAsciiError, Kept, NewBuffer, Text,
};
use ascii_run::{ArrayAsciiString, Full, SmallAsciiString};
use std::alloc::{AllocError, Allocator, Global};
use std::convert::AsStr;
use std::hash::{Hash, Hasher};

/// A view in brackets, over any buffer.
pub fn bracketed<B: NewBuffer>(alloc: B::Alloc, view: AsciiStr<'_>) -> Result<Text<B>, B::Refusal>
    ensures { IfOk result (λ string. string.text ≡ 40 ∷ text_of view.entry ++ 41 ∷ []) }
{
    let mut string = Text::new(alloc);
    string.push(AsciiChar::ParenOpen)?;
    string.push_str(view)?;
    string.push(AsciiChar::ParenClose)?;
    Ok(string)
}

/// Two characters in the value itself. It never fails.
pub fn two(
    alloc: Global,
    first: AsciiChar,
    second: AsciiChar,
) -> Result<SmallAsciiString, AllocError>
    ensures { IsOkAnd result (λ string. string.text ≡ code_of first ∷ code_of second ∷ []) }
{
    let mut string = SmallAsciiString::new(alloc);
    string.push(first)?;
    string.push(second)?;
    Ok(string)
}

/// Appends a view to at most eight characters: it fails exactly if they do not fit, and the text is
/// then unchanged.
pub fn append_to_eight(string: &mut ArrayAsciiString<8>, view: AsciiStr<'_>) -> Result<(), Full>
    ensures fits { length string.old.text + length (text_of view.entry) ≤ 8 → IsOk result }
    ensures full { 8 < length string.old.text + length (text_of view.entry) → IsErr result }
    ensures ok { OnOk result (string.new.text ≡ string.old.text ++ text_of view.entry) }
    ensures err { OnErr result (string.new.text ≡ string.old.text) }
{
    let _before = string.capacity();
    string.push_str(view)?;
    let _after = string.capacity();
    Ok(())
}

/// Converts bytes into a string that keeps their buffer.
pub fn kept_buffer<A: Allocator>(
    bytes: Vec<u8, A>,
) -> Result<AsciiString<A>, FromAsciiError<Vec<u8, A>>>
    ensures text { IfOk result (λ string. string.text ≡ bytes.items) }
    ensures capacity { IfOk result (λ string. string.capacity ≡ vec_capacity bytes) }
{
    AsciiString::try_from(bytes)
}

/// Hashes a view and a string of the same text: the hashers are then equal, if they were.
pub fn hash_string<H: Hasher, B: Buffer>(
    view: AsciiStr<'_>,
    string: &Text<B>,
    of_view: &mut H,
    of_string: &mut H,
)
    requires text { string.now.text ≡ text_of view }
    requires hashers { of_view.old ≡ of_string.old }
    ensures { of_view.new ≡ of_string.new }
{
    view.hash(of_view);
    string.hash(of_string);
}

/// Hashes a view and boxed or shared text, if they are the same text.
pub fn hash_kept<H: Hasher, S: AsStr>(
    view: AsciiStr<'_>,
    kept: &Kept<S>,
    of_view: &mut H,
    of_kept: &mut H,
)
    requires text { kept.now ≡ text_of view }
    requires hashers { of_view.old ≡ of_kept.old }
    ensures { of_view.new ≡ of_kept.new }
{
    view.hash(of_view);
    kept.hash(of_kept);
}

/// Hashes a view and borrowed or owned text, if they are the same text.
pub fn hash_cow<H: Hasher, A: Allocator>(
    view: AsciiStr<'_>,
    cow: &CowAsciiStr<'_, A>,
    of_view: &mut H,
    of_cow: &mut H,
)
    requires text { cow_text cow.now ≡ text_of view }
    requires hashers { of_view.old ≡ of_cow.old }
    ensures { of_view.new ≡ of_cow.new }
{
    view.hash(of_view);
    cow.hash(of_cow);
}
