//! Prints the key of each line `key=value` of standard input, or an error if the line is not ASCII.
#![tactic(auto)]

ghost use Rattle.std.specs.Prelude.{◌≡◌, Some, slice_get};
ghost use Rattle.ascii.specs.Pieces.{OfPieces};
ghost use Rattle.ascii.specs.View.{text_of};

use ascii::{AsciiChar, AsciiStr, text};
use std::io;

/// Returns what comes before the first `=` of a line, or the whole line if it has none.
pub fn key_of(line: AsciiStr<'_>) -> AsciiStr<'_>
    ensures { OfPieces line.entry AsciiChar.Equal
        (λ pieces. slice_get pieces 0 ≡ Some (text_of result)) }
{
    line.split(AsciiChar::Equal).next().unwrap_or_default()
}

pub fn main(rt: HostRuntime) -> io::Result<()> {
    for line in rt.lines(rt.alloc()) {
        match text::as_ascii_str(line?.as_str()) {
            Ok(view) => println!(rt; "{}", key_of(view))?,
            Err(error) => println!(rt; "{error}")?,
        }
    }
    Ok(())
}
