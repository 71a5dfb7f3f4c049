//! Prints the value of each header `Host` of standard input, and an error for a line that is not ASCII.
#![tactic(auto)]

use ascii::{AsciiChar, AsciiStr, text};
use std::io;

pub fn main(rt: HostRuntime) -> io::Result<()> {
    for line in rt.lines(rt.alloc()) {
        match text::as_ascii_str(line?.as_str()) {
            Ok(line) => {
                if let Some((name, value)) = line.split_once(AsciiChar::Colon) {
                    if name.eq_ignore_ascii_case(AsciiStr::literal("host")) {
                        println!(rt; "{}", value.trim())?;
                    }
                }
            }
            Err(error) => println!(rt; "{error}")?,
        }
    }
    Ok(())
}
