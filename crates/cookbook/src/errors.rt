//! The lines that the errors of this crate print, and the trait `Error`, by which `?` converts them to an
//! `anyhow::Error`.

ghost use Rattle.std.specs.Prelude.{Some};

use crate::csv::FieldError;
use crate::headers::{HeaderBlockError, HeaderError};
use crate::hosts::HostNameError;
use crate::settings::{SettingError, SettingFault, SettingsError};
use crate::table::RowError;
use std::error::Error;
use std::fmt;

impl fmt::Display for RowError {
    ghost use Rattle.cookbook.specs.ErrorTexts.{row_error_text};

    ghost output = { λ error. Some (row_error_text error) };

    fn fmt<W: fmt::Write>(&self, f: &mut fmt::Formatter<W>) -> fmt::Result {
        match *self {
            RowError::Empty { field, start } => write!(
                f,
                "field {field} at index {start} is empty"
            ),
            RowError::TooFew { found } => write!(f, "too few fields: {found}"),
            RowError::TooMany { start } => write!(f, "one field too many at index {start}"),
            RowError::Memory => f.write_str("no memory"),
        }
    }
}

impl Error for RowError {}

impl fmt::Display for FieldError {
    ghost use Rattle.cookbook.specs.ErrorTexts.{field_error_text};

    ghost output = { λ error. Some (field_error_text error) };

    fn fmt<W: fmt::Write>(&self, f: &mut fmt::Formatter<W>) -> fmt::Result {
        match *self {
            FieldError::NotClosed => f.write_str("no quote closes the field"),
            FieldError::NotComma(position) => write!(f, "no comma at index {position}"),
            FieldError::Memory => f.write_str("no memory"),
        }
    }
}

impl Error for FieldError {}

impl fmt::Display for SettingError {
    ghost use Rattle.cookbook.specs.ErrorTexts.{setting_error_text};

    ghost output = { λ error. Some (setting_error_text error) };

    fn fmt<W: fmt::Write>(&self, f: &mut fmt::Formatter<W>) -> fmt::Result {
        match *self {
            SettingError::NoEquals(start) => write!(f, "no '=' in the text at index {start}"),
            SettingError::NoKey(position) => {
                write!(f, "no key before the '=' at index {position}")
            }
        }
    }
}

impl Error for SettingError {}

impl fmt::Display for SettingFault {
    ghost use Rattle.cookbook.specs.ErrorTexts.{setting_fault_text};

    ghost output = { λ fault. Some (setting_fault_text fault) };

    fn fmt<W: fmt::Write>(&self, f: &mut fmt::Formatter<W>) -> fmt::Result {
        f.write_str(match self {
            SettingFault::NoEquals => "no '='",
            SettingFault::NoKey => "no key before the '='",
        })
    }
}

impl fmt::Display for SettingsError {
    ghost use Rattle.cookbook.specs.ErrorTexts.{settings_error_text};

    ghost output = { λ error. Some (settings_error_text error) };

    fn fmt<W: fmt::Write>(&self, f: &mut fmt::Formatter<W>) -> fmt::Result {
        match self {
            SettingsError::At(fault) => write!(f, "{fault}"),
            SettingsError::Memory => f.write_str("no memory"),
        }
    }
}

impl Error for SettingsError {}

impl fmt::Display for HeaderError {
    ghost use Rattle.cookbook.specs.ErrorTexts.{header_error_text};

    ghost output = { λ error. Some (header_error_text error) };

    fn fmt<W: fmt::Write>(&self, f: &mut fmt::Formatter<W>) -> fmt::Result {
        match *self {
            HeaderError::NoColon => f.write_str("no colon"),
            HeaderError::NoName => f.write_str("no name before the colon"),
            HeaderError::NotToken(position) => {
                write!(
                    f,
                    "the character at index {position} is not allowed in a name"
                )
            }
        }
    }
}

impl Error for HeaderError {}

impl fmt::Display for HeaderBlockError {
    ghost use Rattle.cookbook.specs.ErrorTexts.{block_error_text};

    ghost output = { λ error. Some (block_error_text error) };

    fn fmt<W: fmt::Write>(&self, f: &mut fmt::Formatter<W>) -> fmt::Result {
        match *self {
            HeaderBlockError::InLine {
                number,
                start,
                error,
            } => write!(f, "line {number} at index {start}: {error}"),
            HeaderBlockError::Memory => f.write_str("no memory"),
        }
    }
}

impl Error for HeaderBlockError {}

impl fmt::Display for HostNameError {
    ghost use Rattle.cookbook.specs.ErrorTexts.{host_error_text};

    ghost output = { λ error. Some (host_error_text error) };

    fn fmt<W: fmt::Write>(&self, f: &mut fmt::Formatter<W>) -> fmt::Result {
        match *self {
            HostNameError::TooLong => f.write_str("more than 253 characters"),
            HostNameError::EmptyLabel(start) => write!(f, "the label at index {start} is empty"),
            HostNameError::LongLabel(start) => {
                write!(f, "the label at index {start} has more than 63 characters")
            }
            HostNameError::Character(position) => {
                write!(
                    f,
                    "the character at index {position} is not allowed in a host name"
                )
            }
            HostNameError::Hyphen(position) => {
                write!(
                    f,
                    "the hyphen at index {position} is at an end of its label"
                )
            }
            HostNameError::Memory => f.write_str("no memory"),
        }
    }
}

impl Error for HostNameError {}
