//! Reading the header lines of a message: a name, a colon and a value. A header is found by its name, ignoring ASCII case.
//!
//! Only spaces and tabs around a value are removed. Another character there, such as a vertical tab, stays in the value;
//! the value of a well-formed message has none.

ghost use Rattle.std.specs.Prelude.{◌≡◌};
ghost use Rattle.ascii.specs.View.{text_of};
ghost use Rattle.cookbook.specs.Headers.{FindsHeader, ReadsHeader, ReadsHeaders};

use ascii::classes::{Blank, Token};
use ascii::{AsciiChar, AsciiStr};
use std::alloc::{AllocFailed, Global};

/// A header line.
#[derive(Clone, Copy, PartialEq, Eq, Debug)]
pub struct Header<'a> {
    /// The text before the first colon, in the case that the line has.
    pub name: AsciiStr<'a>,
    /// The text after the first colon, without spaces and tabs around it.
    pub value: AsciiStr<'a>,
}

/// Why a line is not a header.
#[derive(Clone, Copy, PartialEq, Eq, Debug)]
pub enum HeaderError {
    /// The line has no colon.
    NoColon,
    /// There is nothing before the colon.
    NoName,
    /// The character at this position of the line is the first before the colon that no name may
    /// have.
    NotToken(usize),
}

/// Why a block of lines was rejected.
#[derive(Clone, Copy, PartialEq, Eq, Debug)]
pub enum HeaderBlockError {
    /// The line at this index, counted from 0, is the first that is not a header; it starts at this
    /// position of the block.
    InLine {
        number: usize,
        start: usize,
        error: HeaderError,
    },
    /// The allocation for the list of headers failed.
    Memory,
}

impl<T: Drop> From<AllocFailed<T>> for HeaderBlockError {
    ghost use Rattle.cookbook.specs.declared.headers.HeaderBlockError.TheVariants.{Memory};

    ghost from_gives = { λ _ error. error ≡ Memory };

    fn from(_: AllocFailed<T>) -> HeaderBlockError {
        HeaderBlockError::Memory
    }
}

/// Returns the headers of a block of lines, in order, or an error with the first line that is not a
/// header. An empty line is not a header, so the block has to end before it.
pub fn read_headers<'a>(
    alloc: Global,
    block: AsciiStr<'a>,
) -> Result<Vec<Header<'a>>, HeaderBlockError>
    ensures { ReadsHeaders (text_of block.entry) result }
{
    let mut headers = Vec::new(alloc);
    for line in block.line_spans() {
        match read_header(line.text) {
            Ok(header) => headers.push(header)?,
            Err(error) => {
                let number = headers.len();
                let start = line.start;
                return Err(HeaderBlockError::InLine {
                    number,
                    start,
                    error,
                });
            }
        }
    }
    Ok(headers)
}

/// Returns the header of one line without its ending, or an error. For `Host: a.example`, the name
/// is `Host` and the value `a.example`.
pub fn read_header<'a>(line: AsciiStr<'a>) -> Result<Header<'a>, HeaderError>
    ensures { ReadsHeader (text_of line.entry) result }
{
    let Some((name, behind)) = line.split_once(AsciiChar::Colon) else {
        return Err(HeaderError::NoColon);
    };
    if name.is_empty() {
        return Err(HeaderError::NoName);
    }
    let (token, rest) = name.span::<Token>();
    if !rest.is_empty() {
        return Err(HeaderError::NotToken(token.len()));
    }
    let value = behind.trim_matches::<Blank>();
    Ok(Header { name, value })
}

/// Returns the first header with the name, ignoring ASCII case, or `None` if there is none: `HOST` finds
/// `Host: a.example`.
pub fn find_header<'a>(headers: &[Header<'a>], name: AsciiStr<'_>) -> Option<Header<'a>>
    ensures { FindsHeader headers.now (text_of name.entry) result }
{
    headers
        .iter()
        .find(|header| header.name.eq_ignore_ascii_case(name))
        .copied()
}
