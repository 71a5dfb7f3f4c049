//! Prints each word of a text that is not in the first line of the input, ignoring ASCII case, with its line and its
//! column; and then each of these words once, in order. A word is what is between whitespace, without the punctuation at
//! its ends.
#![tactic(auto)]

ghost use Rattle.std.specs.List.{filter};
ghost use Rattle.std.specs.Prelude.{◌≡◌, ◌++◌, ◌∷◌, [], IfOk, OnOk, map};
ghost use Rattle.ascii.specs.ByClass.{words_by};
ghost use Rattle.ascii.specs.Tests.{is_whitespace};
ghost use Rattle.ascii.specs.View.{text_of};
ghost use Rattle.ascii_formats.specs.Parts.{part_text};
ghost use Rattle.examples.specs.Spelling.{AreUnknown, HasWords, is_unknown};

use ascii::classes::{Punctuation, Whitespace};
use ascii::{AsciiChar, AsciiStr, text};
use ascii_formats::parts::Part;
use ascii_keys::FoldedSet;
use std::alloc::{AllocError, Global};
use std::io::{self, Read};

/// Returns the words of a list, or an error if an allocation fails.
pub fn read_words(alloc: Global, list: AsciiStr<'_>) -> Result<FoldedSet, AllocError>
    ensures { IfOk result (HasWords (words_by is_whitespace (text_of list.entry))) }
{
    let mut known = FoldedSet::new(alloc);
    for word in list.split_whitespace() {
        known.insert(word)?;
    }
    Ok(known)
}

/// Returns the words of a text that are not known, each where it is, in order, or an error if an allocation fails.
pub fn unknown_words<'a>(
    alloc: Global,
    text: Part<'a>,
    known: &FoldedSet,
) -> Result<Vec<Part<'a>>, AllocError>
    ensures { IfOk result (λ unknown. AreUnknown known.now text.entry unknown.items) }
{
    let mut unknown = Vec::new(alloc);
    for part in text.words::<Whitespace>() {
        push_unknown(&mut unknown, part.trim_matches::<Punctuation>(), known)?;
    }
    Ok(unknown)
}

/// Appends a word, if it has characters and is not known.
fn push_unknown<'a>(
    unknown: &mut Vec<Part<'a>>,
    word: Part<'a>,
    known: &FoldedSet,
) -> Result<(), AllocError>
    ensures { OnOk result (unknown.new.items
        ≡ unknown.old.items ++ filter (is_unknown known.now) (word.entry ∷ [])) }
{
    if !word.is_empty() && !known.contains(word.text()) {
        unknown.push(word)?;
    }
    Ok(())
}

/// Returns these words, each once, ignoring ASCII case, or an error if an allocation fails.
pub fn unique_words(alloc: Global, words: &[Part<'_>]) -> Result<FoldedSet, AllocError>
    ensures { IfOk result (HasWords (map part_text words.now)) }
{
    let mut unique = FoldedSet::new(alloc);
    for word in words {
        unique.insert(word.text())?;
    }
    Ok(unique)
}

pub fn main(rt: HostRuntime) -> io::Result<()> {
    let mut source = String::new(rt.alloc());
    rt.stdin().read_to_string(&mut source)?;
    let view = match text::as_ascii_str(source.as_str()) {
        Ok(view) => view,
        Err(error) => return println!(rt; "{error}"),
    };
    let Some((list, rest)) = Part::of(view).split_once(AsciiChar::LineFeed) else {
        return println!(rt; "no text");
    };
    let known = read_words(rt.alloc(), list.text())?;
    let unknown = unknown_words(rt.alloc(), rest, &known)?;
    show_places(&rt, unknown.as_slice())?;
    let unique = unique_words(rt.alloc(), &unknown)?;
    show_unique(&rt, &unique)
}

/// Prints words, each with its line and column.
fn show_places(rt: &HostRuntime, words: &[Part<'_>]) -> io::Result<()> {
    for word in words {
        println!(rt; "{}: {word}", word.line_and_column())?;
    }
    Ok(())
}

/// Prints the words of a set.
fn show_unique(rt: &HostRuntime, words: &FoldedSet) -> io::Result<()> {
    for word in words.iter() {
        println!(rt; "{word}")?;
    }
    Ok(())
}
