//! Classes of characters, and characters that are kept.

ghost use Rattle.std.specs.Prelude.{◌≤◌, length};

use crate::answer::Answer;
use crate::walks::put_items;
use ascii::classes::{
    Alphabetic, Alphanumeric, Ascii, AsciiWhitespace, Atom, Blank, ClassBy, Control, Digit,
    FieldText, Graphic, Hexdigit, Label, Lowercase, Printable, Punctuation, Quotable, Searched,
    Token, Uppercase, Whitespace,
};
use ascii::{AsciiChar, AsciiStr, bytes, kernels};
use ascii_formats::AsciiStrExt;
use cookbook::identifiers::Identifier;
use std::alloc::{AllocError, Global};

/// The number of a class is its index in the list of `ask_class`.
///
/// Which of the bytes are in the class, the first and the last one that is not and that is, and the ends of the run outside
/// it at either end; and of a text the first character that is not in it, whether all are, its run at the start, the first
/// character that is in it and the sides of a cut there, the text without the class at its ends, and its words, runs and
/// pieces by a script.
pub fn ask_class(class: u8, source: &[u8], script: &[u8], answer: &mut Answer) {
    match class {
        0 => search::<Ascii>(source, script, answer),
        1 => search::<Whitespace>(source, script, answer),
        2 => search::<Uppercase>(source, script, answer),
        3 => search::<Lowercase>(source, script, answer),
        4 => search::<Alphabetic>(source, script, answer),
        5 => search::<Digit>(source, script, answer),
        6 => search::<Alphanumeric>(source, script, answer),
        7 => search::<Hexdigit>(source, script, answer),
        8 => search::<Blank>(source, script, answer),
        9 => search::<AsciiWhitespace>(source, script, answer),
        10 => search::<Control>(source, script, answer),
        11 => search::<Graphic>(source, script, answer),
        12 => search::<Printable>(source, script, answer),
        13 => search::<Punctuation>(source, script, answer),
        14 => search::<Token>(source, script, answer),
        15 => search::<Label>(source, script, answer),
        16 => search::<Identifier>(source, script, answer),
        17 => search::<FieldText>(source, script, answer),
        18 => search::<Quotable>(source, script, answer),
        _ => search::<Atom>(source, script, answer),
    }
}

fn search<C: Searched>(source: &[u8], script: &[u8], answer: &mut Answer) {
    for byte in source {
        answer.put(C::has(*byte));
    }
    let last = kernels::last_not::<C>(source);
    answer.put((kernels::first_not::<C>(source), last));
    let last = kernels::last_of::<C>(source);
    answer.put((kernels::first_of::<C>(source), last));
    let end = kernels::run_end::<C>(source, 0, false);
    answer.put((end, kernels::run_start::<C>(source, source.len(), false)));
    if let Ok(view) = bytes::as_ascii_str(source) {
        answer.put((view.first_not::<C>(), view.is_all::<C>(), view.span::<C>()));
        answer.put((view.find_by::<C>(), view.split_once_by::<C>()));
        let (both, start) = (view.trim_matches::<C>(), view.trim_start_matches::<C>());
        answer.put((both, start, view.trim_end_matches::<C>()));
        put_items(view.words::<C>(), script, answer);
        put_items(view.runs::<C>(), script, answer);
        put_items(view.split_by::<C>(), script, answer);
    }
}

/// The marks of the bytes that are not in a class, of 4 and of 8 bytes from each position on: those of the digits, of the
/// codes of a token and of whitespace.
pub fn ask_marks(source: &[u8], answer: &mut Answer) {
    for at in 0..source.len() {
        put_marks::<Digit>(source, at, answer);
        put_marks::<Token>(source, at, answer);
        put_marks::<Whitespace>(source, at, answer);
    }
}

fn put_marks<C: Searched>(source: &[u8], at: usize, answer: &mut Answer)
    requires { at ≤ length source.now }
{
    if 4 <= source.len() - at {
        answer.put(<C as ClassBy<4>>::marks(source, at));
    }
    if 8 <= source.len() - at {
        answer.put(<C as ClassBy<8>>::marks(source, at));
    }
}

/// A text without a character, and whether it is empty then.
pub fn ask_retain(alloc: Global, on: AsciiChar, source: AsciiStr, answer: &mut Answer) {
    let Ok(mut string) = source.to_ascii_string(alloc) else {
        return answer.put(AllocError);
    };
    string.retain(|ch| ch != on);
    answer.put((string.is_empty(), string));
}
