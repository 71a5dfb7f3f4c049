//! Prints the settings of a file, each with the line and the column of its value: `key = value` or `key: value` in
//! sections `[name]`, comments after `;`. A text that is not a settings file is reported with the place of its first
//! fault.
#![tactic(auto)]

ghost use Rattle.std.specs.Prelude.{◌≡◌, All, IfOk, MatchResult, Ok};
ghost use Rattle.std.proofs.Common.{rules};
ghost use Rattle.examples.specs.Entries.{ArePartsOf, IsEntryOf, IsErrorIn, IsFaultOf, IsLineError};
ghost use Rattle.examples.specs.Entries.{ReadsEntries, ReadsLine, Says, after_line};

use ascii::classes::{ByRanges, Ranges};
use ascii::{AsciiChar, AsciiStr, text};
use ascii_formats::AsciiStrExt;
use ascii_formats::parts::Part;
use std::alloc::Global;
use std::io::{self, Read};
use thiserror::Error;

/// A setting: the section that it is in, its key and its value, each with its place in the text.
#[derive(Clone, Copy)]
pub struct Entry<'a> {
    pub section: Part<'a>,
    pub key: Part<'a>,
    pub value: Part<'a>,
}

/// What a line says.
#[derive(Clone, Copy)]
pub enum Parsed<'a> {
    Blank,
    Section(Part<'a>),
    Setting(Part<'a>, Part<'a>),
}

/// What is wrong with a line.
#[derive(Clone, Copy, Debug, Error)]
pub enum What {
    #[error("no ']' after the name of the section")]
    OpenSection,
    #[error("no '=' or ':'")]
    NoDelimiter,
    #[error("no key before the '=' or ':'")]
    NoKey,
}

pub struct DelimiterRanges;

const DELIMITER: [(u8, u8); 2] = [(b':', b':'), (b'=', b'=')];

impl Ranges for DelimiterRanges {
    ghost use Rattle.examples.specs.Entries.{IsDelimiter};
    ghost use Rattle.examples.specs.declared.ini.TheConstants.{DELIMITER};

    ghost set = { IsDelimiter };

    ghost list = { DELIMITER };

    ghost matches = { λ n. Prim.search rules };

    fn ranges() -> &'static [(u8, u8)] {
        &DELIMITER
    }
}

/// The characters that may be between a key and its value.
pub type Delimiter = ByRanges<DelimiterRanges>;

/// Why a text was rejected: the part at fault and what is wrong at its start, or a lack of memory.
#[derive(Clone, Copy)]
pub enum IniError<'a> {
    At(Part<'a>, What),
    Memory,
}

/// Returns the entries of the lines that say a setting, in order, or an error with the first line at fault, without the
/// whitespace at its ends. An entry is in the section that the last line before it names; before the first such line,
/// in an empty part at the start of the text.
pub fn read_entries<'a>(alloc: Global, text: AsciiStr<'a>) -> Result<Vec<Entry<'a>>, IniError<'a>>
    ensures entries { ReadsEntries text.entry result }
    ensures parts { MatchResult result (λ entries. All (IsEntryOf text.entry) entries.items)
        (IsErrorIn text.entry) }
{
    let mut entries = Vec::new(alloc);
    let (mut section, _) = Part::of(text).split_at(0);
    for line in Part::of(text).lines() {
        section = add_line(&mut entries, section, line)?;
    }
    Ok(entries)
}

/// Appends the entry of a line, if it has one, and returns the section after it.
fn add_line<'a>(
    entries: &mut Vec<Entry<'a>>,
    section: Part<'a>,
    line: Part<'a>,
) -> Result<Part<'a>, IniError<'a>>
    requires whole { line.whole ≡ section.whole }
    requires entries { All (IsEntryOf section.whole) entries.old.items }
    ensures parts { let whole = section.entry.whole in MatchResult result
        (λ next. (next.whole ≡ whole) × All (IsEntryOf whole) entries.new.items)
        (IsErrorIn whole) }
    ensures line { MatchResult result
        (λ next. (parsed : Parsed) × ReadsLine line.entry (Ok parsed)
        × ((next, entries.new.items) ≡ after_line (section.entry, entries.old.items) parsed))
        (IsLineError line.entry) }
{
    match read_line(line)? {
        Parsed::Blank => Ok(section),
        Parsed::Section(name) => Ok(name),
        Parsed::Setting(key, value) => {
            let entry = Entry {
                section,
                key,
                value,
            };
            match entries.push(entry) {
                Ok(()) => Ok(section),
                Err(_) => Err(IniError::Memory),
            }
        }
    }
}

/// Returns what a line says, with the places of its parts.
fn read_line<'a>(line: Part<'a>) -> Result<Parsed<'a>, IniError<'a>>
    ensures parts { MatchResult result (ArePartsOf line.entry.whole)
        (IsErrorIn line.entry.whole) }
    ensures line { ReadsLine line.entry result }
{
    read_body(line.trim())
}

/// Returns what a line without whitespace at its ends says.
fn read_body<'a>(body: Part<'a>) -> Result<Parsed<'a>, IniError<'a>>
    ensures parts { IfOk result (ArePartsOf body.entry.whole) }
    ensures body { MatchResult result (Says body.entry) (IsFaultOf body.entry) }
{
    if body.is_empty() || body.text().starts_with_char(AsciiChar::Semicolon) {
        return Ok(Parsed::Blank);
    }
    if let Some(rest) = body.strip_prefix_char(AsciiChar::BracketOpen) {
        return match rest.split_once(AsciiChar::BracketClose) {
            Some((name, after)) if after.is_empty() => Ok(Parsed::Section(name)),
            _ => Err(IniError::At(body, What::OpenSection)),
        };
    }
    let Some((key, value)) = body.split_once_by::<Delimiter>() else {
        return Err(IniError::At(body, What::NoDelimiter));
    };
    let (key, value) = (key.trim(), value.trim());
    if key.is_empty() {
        return Err(IniError::At(body, What::NoKey));
    }
    Ok(Parsed::Setting(key, value))
}

pub fn main(rt: HostRuntime) -> io::Result<()> {
    let mut source = String::new(rt.alloc());
    rt.stdin().read_to_string(&mut source)?;
    let view = match text::as_ascii_str(source.as_str()) {
        Ok(view) => view,
        Err(error) => return println!(rt; "{error}"),
    };
    match read_entries(rt.alloc(), view) {
        Ok(entries) => {
            for entry in entries.iter() {
                let Entry {
                    section,
                    key,
                    value,
                } = entry;
                println!(rt; "{}: [{section}] {key} = {value}", value.line_and_column())?;
            }
            Ok(())
        }
        Err(IniError::At(part, what)) => println!(rt; "{}", part.fault(what)),
        Err(IniError::Memory) => println!(rt; "no memory"),
    }
}
