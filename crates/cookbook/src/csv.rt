//! A field of a CSV file, as RFC 4180 has it, written and read. A text with a comma, a quote or a line break is
//! written in quotes, and each quote in it is doubled.

ghost use Rattle.std.specs.Prelude.{◌≡◌, ◌++◌, ◌≤◌, IfErr, IfOk, List, MatchResult, length, ℕ};
ghost use Rattle.std.proofs.Common.{rules};
ghost use Rattle.ascii.specs.StringState.{GrowsTo};
ghost use Rattle.ascii.specs.View.{text_of};
ghost use Rattle.cookbook.specs.Csv.{HasField, IsFieldError, IsPlainCode, IsWrittenField};
ghost use Rattle.cookbook.specs.Csv.{StartsWithField};
ghost use Rattle.cookbook.specs.declared.csv.TheConstants.{PLAIN};

use ascii::classes::{ByRanges, Ranges};
use ascii::{AsciiChar, AsciiStr, AsciiString};
use ascii_formats::{AsciiStrExt, AsciiStringExt};
use std::alloc::{AllocError, Global};

/// The ranges of `Plain`.
pub struct PlainRanges;

const PLAIN: [(u8, u8); 5] = [(0, 9), (11, 12), (14, 33), (35, 43), (45, 127)];

impl Ranges for PlainRanges {
    ghost set = { IsPlainCode };

    ghost list = { PLAIN };

    ghost matches = { λ n. Prim.search rules };

    fn ranges() -> &'static [(u8, u8)] {
        &PLAIN
    }
}

/// The characters of a field without quotes: all but a comma, a quote, CR and LF.
pub type Plain = ByRanges<PlainRanges>;

/// Why no field is at the start of a line.
#[derive(Clone, Copy, PartialEq, Eq, Debug)]
pub enum FieldError {
    /// The line begins with a quote, and no other quote closes the field.
    NotClosed,
    /// The character at this position comes after a field, and is not a comma.
    NotComma(usize),
    /// The allocation for the text of the field failed.
    Memory,
}

impl From<AllocError> for FieldError {
    ghost use Rattle.cookbook.specs.declared.csv.FieldError.TheVariants.{Memory};

    ghost from_gives = { λ _ error. error ≡ Memory };

    fn from(_: AllocError) -> FieldError {
        FieldError::Memory
    }
}

/// Appends a field with the text to a line, or returns an error if the allocation fails; the line is then
/// unchanged. `a b` is written as it is, and `a,"b"` as `"a,""b"""`.
pub fn push_field(line: &mut AsciiString, text: AsciiStr<'_>) -> Result<(), AllocError>
    ensures { (field : List ℕ) × IsWrittenField (text_of text.entry) field
        × GrowsTo 0 (line.old.text ++ field) line.old line.new result }
{
    if text.is_all::<Plain>() {
        return line.push_str(text);
    }
    line.push_quoted(text, AsciiChar::Quotation, AsciiChar::Quotation)
}

/// Returns the text of the field at the start of a line without its ending, and what comes after the field:
/// nothing, or a comma and the other fields; or an error with what is wrong there. For `"a,""b""",c` the text
/// is `a,"b"`, and `,c` comes after it.
pub fn take_field<'a>(
    alloc: Global,
    line: AsciiStr<'a>,
) -> Result<(AsciiString, AsciiStr<'a>), FieldError>
    ensures { MatchResult result
        (λ taken. StartsWithField (text_of line.entry) taken.0.text (text_of taken.1))
        (IsFieldError (text_of line.entry)) }
{
    let (text, rest) = split_field(alloc, line)?;
    if !rest.is_empty() && !rest.starts_with_char(AsciiChar::Comma) {
        return Err(FieldError::NotComma(line.len() - rest.len()));
    }
    Ok((text, rest))
}

/// Returns the text of the field at the start of a line, and what comes after the field.
fn split_field<'a>(
    alloc: Global,
    line: AsciiStr<'a>,
) -> Result<(AsciiString, AsciiStr<'a>), FieldError>
    ensures field { IfOk result (λ split.
        HasField (text_of line.entry) split.0.text (text_of split.1)) }
    ensures fits { IfOk result (λ split.
        length (text_of split.1) ≤ length (text_of line.entry)) }
    ensures fault { IfErr result (IsFieldError (text_of line.entry)) }
{
    if !line.starts_with_char(AsciiChar::Quotation) {
        let (field, rest) = line.span::<Plain>();
        return Ok((field.to_ascii_string(alloc)?, rest));
    }
    match line.take_quoted(AsciiChar::Quotation, AsciiChar::Quotation) {
        Ok((inside, rest)) => Ok((inside.unquote(alloc, AsciiChar::Quotation)?, rest)),
        Err(_) => Err(FieldError::NotClosed),
    }
}
