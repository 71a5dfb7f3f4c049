//! Showing a text on a screen of a number of columns: controls in caret form, tabs as spaces, long lines wrapped.

ghost use Rattle.std.specs.Prelude.{◌≡◌, ◌≢◌, ◌+◌, ◌-◌, ◌%◌, ◌≤◌, ◌++◌, IfOk, length, min};
ghost use Rattle.ascii.specs.Code.{code_of};
ghost use Rattle.ascii.specs.View.{text_of};
ghost use Rattle.cookbook.specs.Screen.{IsPlain, cell_text, column_after, char_on_screen};
ghost use Rattle.cookbook.specs.Screen.{screen_text};

use ascii::{AsciiChar, AsciiRange, AsciiStr, AsciiString, caret_encode, text};
use std::alloc::{AllocError, Global};

/// A text as a screen shows it.
#[derive(Drop)]
pub struct ScreenText {
    /// What goes out.
    pub text: AsciiString,
    /// The column, from 0, of the next character.
    pub column: usize,
}

/// Lays out a text for a screen of `width` columns, or returns an error if an allocation fails. A control
/// other than tab and LF becomes `^` and its letter, and a tab becomes spaces up to the next column that 8
/// divides, or to the edge. What has no room on its line begins a new one: `a\tb\x01` on 10 columns becomes
/// `a       b`, and `^A` on a line of its own.
///
/// Condition: `width` is at least 2.
pub fn wrap_for_screen(
    alloc: Global,
    view: AsciiStr<'_>,
    width: usize,
) -> Result<ScreenText, AllocError>
    requires { 2 ≤ width }
    ensures each { IfOk result (λ out. out.text.text ≡ screen_text width 0 (text_of view.entry)) }
    ensures column { IfOk result (λ out. out.column ≡ column_after 0 out.text.text) }
    ensures plain { IfOk result (λ out. IsPlain width out.text.text) }
    ensures unchanged { IsPlain width (text_of view.entry)
        → IfOk result (λ out. out.text.text ≡ text_of view.entry) }
{
    let mut text = AsciiString::new(alloc);
    let mut column = 0;
    for ch in view.chars() {
        column = put(&mut text, ch, column, width)?;
    }
    Ok(ScreenText { text, column })
}

/// Appends what a screen shows of a character at a column, and returns the column after it.
fn put(
    out: &mut AsciiString,
    ch: AsciiChar,
    column: usize,
    width: usize,
) -> Result<usize, AllocError>
    requires width { 2 ≤ width }
    requires column { column ≤ width }
    ensures text { IfOk result (λ _.
        out.new.text ≡ out.old.text ++ char_on_screen width column (code_of ch)) }
    ensures column { IfOk result (λ next.
        next ≡ column_after column (char_on_screen width column (code_of ch))) }
    ensures inside { IfOk result (λ next. next ≤ width) }
{
    if ch == AsciiChar::LineFeed {
        out.push(ch)?;
        return Ok(0);
    }
    if cell_size(ch, column, width) <= width - column {
        return put_cell(out, ch, column, width);
    }
    out.push(AsciiChar::LineFeed)?;
    put_cell(out, ch, 0, width)
}

/// How many columns a character other than LF takes.
fn cell_size(ch: AsciiChar, column: usize, width: usize) -> usize
    requires column { column ≤ width }
    requires other { code_of ch ≢ 10 }
    ensures { result ≡ length (cell_text width column (code_of ch)) }
{
    match ch {
        AsciiChar::Tab => spaces(column, width),
        _ if ch.is_ascii_control() => 2,
        _ => 1,
    }
}

/// How many spaces a tab is at a column.
fn spaces(column: usize, width: usize) -> usize
    requires { column ≤ width }
    ensures { result ≡ min (8 - column % 8) (width - column) }
{
    (8 - column % 8).min(width - column)
}

/// Appends the cell of a character other than LF, and returns the column after it.
fn put_cell(
    out: &mut AsciiString,
    ch: AsciiChar,
    column: usize,
    width: usize,
) -> Result<usize, AllocError>
    requires room { column + length (cell_text width column (code_of ch)) ≤ width }
    requires other { code_of ch ≢ 10 }
    ensures text { IfOk result (λ _.
        out.new.text ≡ out.old.text ++ cell_text width column (code_of ch)) }
    ensures column { IfOk result (λ next.
        next ≡ column + length (cell_text width column (code_of ch))) }
{
    if ch == AsciiChar::Tab {
        let n = spaces(column, width);
        out.push_str(text::as_ascii_str_unchecked("        ").slice(AsciiRange::To(n)))?;
        return Ok(column + n);
    }
    match caret_encode(ch.as_byte()) {
        Some(letter) => {
            out.push(AsciiChar::Caret)?;
            out.push(letter)?;
            Ok(column + 2)
        }
        None => {
            out.push(ch)?;
            Ok(column + 1)
        }
    }
}
