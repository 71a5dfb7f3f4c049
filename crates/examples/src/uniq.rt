//! Prints each line of standard input once, with the number of times that it occurs: `COUNT LINE` for each, in the order
//! of their bytes. The counts are to the right in a column that is as wide as the largest of them.
#![tactic(auto)]

ghost use Rattle.std.specs.List.{flat_map};
ghost use Rattle.std.specs.Prelude.{◌≡◌, IfOk, OnOk, string_bytes};
ghost use Rattle.ascii.specs.Lines.{OfLines};
ghost use Rattle.examples.specs.Tally.{Ascends, CountsLines, uniq_line, width_of};

use ascii::{AsciiStr, text};
use ascii_keys::AsciiMap;
use std::alloc::{AllocError, Global};
use std::io::{self, Read};

/// Returns how often each line of a text occurs, or an error if an allocation fails.
pub fn count_lines(alloc: Global, text: AsciiStr<'_>) -> Result<AsciiMap<usize>, AllocError>
    ensures { OfLines text.entry (λ lines. IfOk result (CountsLines lines)) }
{
    let mut counts = AsciiMap::new(alloc);
    for line in text.lines() {
        match counts.get_mut(line) {
            Some(count) => *count += 1,
            None => {
                counts.insert(line, 1)?;
            }
        }
    }
    Ok(counts)
}

/// Returns the number of digits of the largest count, or an error if an allocation fails.
fn count_width(alloc: Global, counts: &AsciiMap<usize>) -> Result<usize, AllocError>
    ensures { IfOk result (λ width. width ≡ width_of counts.now) }
{
    let largest = counts.values().max().copied().unwrap_or(0);
    Ok(largest.to_string(alloc)?.len())
}

/// Returns a line `COUNT LINE` for each line, in order, or an error if an allocation fails. Spaces before a count fill it
/// up to the width of the largest.
pub fn uniq_lines(alloc: Global, counts: &AsciiMap<usize>) -> Result<String, AllocError>
    ensures lines { IfOk result (λ lines.
        string_bytes lines ≡ flat_map (uniq_line (width_of counts.now)) counts.now) }
    ensures ordered { OnOk result (Ascends counts.now) }
{
    let width = count_width(alloc, counts)?;
    let mut lines = String::new(alloc);
    for (line, count) in counts.iter() {
        writeln!(lines, "{count:>width$} {line}")?;
    }
    Ok(lines)
}

pub fn main(rt: HostRuntime) -> io::Result<()> {
    let mut source = String::new(rt.alloc());
    rt.stdin().read_to_string(&mut source)?;
    let view = match text::as_ascii_str(source.as_str()) {
        Ok(view) => view,
        Err(error) => return println!(rt; "{error}"),
    };
    let counts = count_lines(rt.alloc(), view)?;
    print!(rt; "{}", uniq_lines(rt.alloc(), &counts)?)
}
