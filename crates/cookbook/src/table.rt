//! Reading a row of a table: the fields between tabs, as many as the table has columns, none of them empty.

ghost use Rattle.std.specs.Prelude.{◌≡◌};
ghost use Rattle.ascii.specs.View.{text_of};
ghost use Rattle.cookbook.specs.Rows.{ReadsRow};

use ascii::{AsciiChar, AsciiStr};
use std::alloc::{AllocFailed, Global};

/// Why a row was rejected. A field is counted from 0, and a position is that of a byte from the
/// start of the row.
#[derive(Clone, Copy, PartialEq, Eq, Debug)]
pub enum RowError {
    /// This field is the first empty one; it is at this position.
    Empty { field: usize, start: usize },
    /// The row has only this many fields.
    TooFew { found: usize },
    /// The first extra field starts at this position.
    TooMany { start: usize },
    /// The allocation for the list of fields failed.
    Memory,
}

impl<T: Drop> From<AllocFailed<T>> for RowError {
    ghost use Rattle.cookbook.specs.declared.table.RowError.TheVariants.{Memory};

    ghost from_gives = { λ _ error. error ≡ Memory };

    fn from(_: AllocFailed<T>) -> RowError {
        RowError::Memory
    }
}

/// Returns the fields of a row if it has as many as the table has columns and none is empty, or an
/// error. A row `Ann<tab>Rome` of 2 columns has the fields `Ann` and `Rome`. For `Ann<tab>` the
/// error is `Empty { field: 1, start: 4 }`.
pub fn read_row<'a>(
    alloc: Global,
    row: AsciiStr<'a>,
    columns: usize,
) -> Result<Vec<AsciiStr<'a>>, RowError>
    ensures { ReadsRow columns (text_of row.entry) result }
{
    let mut fields = Vec::new(alloc);
    for span in row.split_spans(AsciiChar::Tab) {
        if fields.len() == columns {
            return Err(RowError::TooMany { start: span.start });
        }
        if span.text.is_empty() {
            let field = fields.len();
            let start = span.start;
            return Err(RowError::Empty { field, start });
        }
        fields.push(span.text)?;
    }
    if fields.len() < columns {
        let found = fields.len();
        return Err(RowError::TooFew { found });
    }
    Ok(fields)
}
