//! Prints each line of standard input once in its paragraph, where it comes first. An empty line begins a paragraph.
#![tactic(auto)]

ghost use Rattle.std.specs.List.{flat_map};
ghost use Rattle.std.specs.Prelude.{◌≡◌, [], IfOk, OnOk, string_bytes};
ghost use Rattle.ascii.specs.Lines.{OfLines, bodies};
ghost use Rattle.ascii.specs.View.{text_of};
ghost use Rattle.examples.specs.Seen.{Gains, firsts, is_new, seen_line};

use ascii::{AsciiStr, text};
use ascii_keys::AsciiSet;
use std::alloc::{AllocError, Global};
use std::io::{self, Read};

/// Returns each line of a text once in its paragraph, where it comes first, or an error if an allocation fails.
pub fn first_lines(alloc: Global, text: AsciiStr<'_>) -> Result<String, AllocError>
    ensures { OfLines text.entry (λ lines. IfOk result (λ printed.
        string_bytes printed ≡ flat_map seen_line (firsts [] (bodies lines)))) }
{
    let mut seen = AsciiSet::new(alloc);
    let mut printed = String::new(alloc);
    for line in text.lines() {
        if add_line(&mut seen, line)? {
            writeln!(printed, "{line}")?;
        }
    }
    Ok(printed)
}

/// Adds a line to the lines of its paragraph, and returns `true` if it is the first. An empty line begins a paragraph.
fn add_line(seen: &mut AsciiSet, line: AsciiStr<'_>) -> Result<bool, AllocError>
    ensures first { IfOk result (λ first. first ≡ is_new seen.old (text_of line.entry)) }
    ensures gains { OnOk result (Gains seen.old (text_of line.entry) seen.new) }
{
    if line.is_empty() {
        seen.clear();
    }
    seen.insert(line)
}

pub fn main(rt: HostRuntime) -> io::Result<()> {
    let mut source = String::new(rt.alloc());
    rt.stdin().read_to_string(&mut source)?;
    match text::as_ascii_str(source.as_str()) {
        Ok(view) => print!(rt; "{}", first_lines(rt.alloc(), view)?),
        Err(error) => println!(rt; "{error}"),
    }
}
