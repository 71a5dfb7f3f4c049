//! Prints a text from the last line on that contains the word in the first line of the input, ignoring case, in rows
//! of 24 columns.
#![tactic(auto)]

ghost use Rattle.std.specs.Prelude.{◌≡◌, ◌≤◌, ◌<◌, All, IfOk, IfSome, length};
ghost use Rattle.std.specs.List.{flat_map};
ghost use Rattle.ascii.specs.Spans.{OfLineSpans};
ghost use Rattle.ascii.specs.View.{text_of};
ghost use Rattle.examples.specs.Search.{IsLastWith};

use ascii::iter::LineSpan;
use ascii::{AsciiChar, AsciiStr, FinderIgnoringCase, text};
use std::alloc::{AllocFailed, Global};
use std::io::{self, Read};

/// Returns the last line that contains the word, ignoring ASCII case, with its start, or `None` if there is none.
pub fn last_with<'a>(text: AsciiStr<'a>, word: &FinderIgnoringCase<'_>) -> Option<LineSpan<'a>>
    ensures last { OfLineSpans text.entry (IsLastWith word.now result) }
    ensures inside { IfSome result (λ line. line.start ≤ length (text_of text.entry)) }
{
    text.lines_with(word).last()
}

/// Returns the rows of a line in a window: at most `width` characters each.
///
/// Condition: `width` is not 0.
pub fn rows_of<'a>(
    alloc: Global,
    line: AsciiStr<'a>,
    width: usize,
) -> Result<Vec<AsciiStr<'a>>, AllocFailed<AsciiStr<'a>>>
    requires { 0 < width }
    ensures joins { IfOk result (λ rows. flat_map text_of rows.items ≡ text_of line.entry) }
    ensures narrow { IfOk result (λ rows. All (λ row. length (text_of row) ≤ width) rows.items) }
{
    let mut rows = Vec::new(alloc);
    let mut rest = line;
    while rest.len() > width {
        let (row, others) = rest.split_at(width);
        rows.push(row)?;
        rest = others;
    }
    rows.push(rest)?;
    Ok(rows)
}

pub fn main(rt: HostRuntime) -> io::Result<()> {
    let mut source = String::new(rt.alloc());
    rt.stdin().read_to_string(&mut source)?;
    let view = match text::as_ascii_str(source.as_str()) {
        Ok(view) => view,
        Err(error) => return println!(rt; "{error}"),
    };
    let Some((word, rest)) = view.split_once(AsciiChar::LineFeed) else {
        return println!(rt; "no text");
    };
    let finder = FinderIgnoringCase::new(word);
    let Some(first) = last_with(rest, &finder) else {
        return println!(rt; "'{}' not found", finder.needle());
    };
    let (_, shown) = rest.split_at(first.start);
    for line in shown.lines() {
        for row in &rows_of(rt.alloc(), line, 24)? {
            println!(rt; "{row}")?;
        }
    }
    Ok(())
}
