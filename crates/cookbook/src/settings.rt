//! Reading the lines of a settings file: `key = value # comment`.

ghost use Rattle.std.specs.Prelude.{◌≡◌, ◌+◌, ◌≤◌, length};
ghost use Rattle.ascii_formats.specs.Places.{place_at};
ghost use Rattle.ascii.specs.View.{text_of};
ghost use Rattle.cookbook.specs.Settings.{IsWithoutComment, ReadsSetting, ReadsSettings};
ghost use Rattle.cookbook.specs.Settings.{position_of, what_of};

use ascii::{AsciiChar, AsciiStr};
use ascii_formats::AsciiStrExt;
use ascii_formats::places::Fault;
use std::alloc::{AllocFailed, Global};

/// A setting, without whitespace around its key and its value.
#[derive(Clone, Copy, PartialEq, Eq, Debug)]
pub struct Setting<'a> {
    /// The text before the first `=`; it is not empty.
    pub key: AsciiStr<'a>,
    /// The text after the first `=`; it may be empty, and may have more of them.
    pub value: AsciiStr<'a>,
}

/// Why a line was rejected. A position is that of a byte, counted from the start of the line.
#[derive(Clone, Copy, PartialEq, Eq, Debug)]
pub enum SettingError {
    /// There is no `=` before the comment, in the text that begins at this position.
    NoEquals(usize),
    /// There is no key before the `=` at this position.
    NoKey(usize),
}

/// What is wrong with a line.
#[derive(Clone, Copy, PartialEq, Eq, Debug)]
pub enum SettingFault {
    /// There is no `=` before the comment.
    NoEquals,
    /// There is no key before the `=`.
    NoKey,
}

/// Why a settings file was rejected.
#[derive(Clone, Copy, PartialEq, Eq, Debug)]
pub enum SettingsError {
    /// What is wrong with the first line at fault, at its line and column.
    At(Fault<SettingFault>),
    /// The allocation for the list of settings failed.
    Memory,
}

impl<T: Drop> From<AllocFailed<T>> for SettingsError {
    ghost use Rattle.cookbook.specs.declared.settings.SettingsError.TheVariants.{Memory};

    ghost from_gives = { λ _ error. error ≡ Memory };

    fn from(_: AllocFailed<T>) -> SettingsError {
        SettingsError::Memory
    }
}

/// Returns the settings of a file, in order, or an error with the line and the column of the first
/// fault, which prints as `3:10: no '='`. Lines with nothing but whitespace and a comment are left
/// out.
pub fn read_settings<'a>(
    alloc: Global,
    text: AsciiStr<'a>,
) -> Result<Vec<Setting<'a>>, SettingsError>
    ensures { ReadsSettings (text_of text.entry) result }
{
    let mut settings = Vec::new(alloc);
    for line in text.line_spans() {
        match read_setting(line.text) {
            Ok(found) => {
                if let Some(setting) = found {
                    settings.push(setting)?;
                }
            }
            Err(error) => return Err(SettingsError::At(fault_of(text, line.start, error))),
        }
    }
    Ok(settings)
}

/// The error of the line that begins at `start`, as a fault of the text.
fn fault_of(text: AsciiStr<'_>, start: usize, error: SettingError) -> Fault<SettingFault>
    requires { start + position_of error ≤ length (text_of text) }
    ensures { result ≡ record {
      place = place_at (text_of text.entry) (start + position_of error);
      what = what_of error;
    } }
{
    match error {
        SettingError::NoEquals(position) => text.fault_at(start + position, SettingFault::NoEquals),
        SettingError::NoKey(position) => text.fault_at(start + position, SettingFault::NoKey),
    }
}

/// Returns the setting of a line, `None` if the line has nothing but whitespace and a comment, or
/// an error. For ` mode = fast # or slow` the key is `mode` and the value `fast`. Whitespace is
/// that of `trim`.
pub fn read_setting<'a>(line: AsciiStr<'a>) -> Result<Option<Setting<'a>>, SettingError>
    ensures { ReadsSetting (text_of line.entry) result }
{
    let body = without_comment(line);
    let words = body.trim_start();
    if words.is_empty() {
        return Ok(None);
    }
    let Some((before, behind)) = body.split_once(AsciiChar::Equal) else {
        return Err(SettingError::NoEquals(body.len() - words.len()));
    };
    let key = before.trim();
    if key.is_empty() {
        return Err(SettingError::NoKey(before.len()));
    }
    let value = behind.trim();
    Ok(Some(Setting { key, value }))
}

/// The line up to its first `#`.
fn without_comment<'a>(line: AsciiStr<'a>) -> AsciiStr<'a>
    ensures { IsWithoutComment (text_of line.entry) (text_of result) }
{
    match line.split_once(AsciiChar::Hash) {
        Some((body, _comment)) => body,
        None => line,
    }
}
