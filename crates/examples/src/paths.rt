//! Prints the file names of standard input that are not portable, each quoted and in a line of its
//! own. Each ends in NUL, as `find -print0` prints it. One that has a byte above 127, or does not fit
//! in 4,096 bytes with its NUL, is reported with its position, and no name after it is read.
#![tactic(auto)]

ghost use Rattle.std.specs.Prelude.{◌↔◌, IsTrue};
ghost use Rattle.std.proofs.Common.{rules};
ghost use Rattle.ascii.specs.View.{text_of};
ghost use Rattle.examples.specs.Paths.{IsPathCode, IsPortable};

use ascii::classes::{ByRanges, Ranges};
use ascii_lines::{AsciiChar, AsciiStr, Endings, Input, LineReader};
use std::io;

pub struct PathRanges;

const PATH: [(u8, u8); 4] = [(b'-', b'9'), (b'A', b'Z'), (b'_', b'_'), (b'a', b'z')];

impl Ranges for PathRanges {
    ghost use Rattle.examples.specs.declared.paths.TheConstants.{PATH};

    ghost set = { IsPathCode };

    ghost list = { PATH };

    ghost matches = { λ n. Prim.search rules };

    fn ranges() -> &'static [(u8, u8)] {
        &PATH
    }
}

/// Returns `true` if a file name is portable, as POSIX says: it has only letters, digits, `.`, `_`,
/// `-`, and the `/` between its components, none of which starts with `-`.
pub fn is_portable(name: AsciiStr<'_>) -> bool
    ensures { IsTrue result ↔ IsPortable (text_of name.entry) }
{
    name.is_all::<ByRanges<PathRanges>>()
        && !name.starts_with(AsciiStr::literal("-"))
        && !name.contains(AsciiStr::literal("/-"))
}

pub fn main(rt: HostRuntime) -> io::Result<()> {
    let mut reader = LineReader::new(rt.alloc(), Input::new(rt.stdin()), 4_096, Endings::Any)?;
    'names: loop {
        let start = reader.position();
        match reader.next_until(AsciiChar::Null) {
            Ok(Some(name)) => {
                if !is_portable(name.text) {
                    println!(rt; "{:?}", name.text)?;
                }
            }
            Ok(None) => return Ok(()),
            Err(error) => return println!(rt; "{error}"),
        }
        if reader.position() <= start {
            return Ok(());
        }
    }
}
