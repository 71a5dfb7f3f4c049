//! What the cookbook reads and shows.

ghost use Rattle.std.specs.Prelude.{◌≤◌};

use crate::answer::{Answer, Put};
use ascii::{AsciiStr, AsciiString};
use ascii_formats::parts::ParseError;
use cookbook::copy_lossy::copy_lossy;
use cookbook::csv::{FieldError, push_field, take_field};
use cookbook::header_map::HeaderMap;
use cookbook::headers::{
    Header, HeaderBlockError, HeaderError, find_header, read_header, read_headers,
};
use cookbook::hosts::{HostName, HostNameError, host_order, same_host};
use cookbook::identifiers::split_identifier;
use cookbook::last_lines::{is_open, last_body_end, last_lines, without_last_lines};
use cookbook::media_type::MediaType;
use cookbook::screen::{ScreenText, wrap_for_screen};
use cookbook::settings::{Setting, SettingError, SettingsError, read_setting, read_settings};
use cookbook::table::{RowError, read_row};
use std::alloc::{AllocError, Global};

/// A line as a header.
pub fn ask_header(source: AsciiStr, answer: &mut Answer) {
    answer.put(read_header(source));
}

impl Put for Header<'_> {
    fn put(self, answer: &mut Answer) {
        answer.put((self.name, self.value));
    }
}

impl Put for HeaderError {
    fn put(self, answer: &mut Answer) {
        match self {
            HeaderError::NoColon => answer.put("colon"),
            HeaderError::NoName => answer.put("name"),
            HeaderError::NotToken(position) => answer.put(("token", position)),
        }
    }
}

/// A block as headers, the value of a name in the map of them, and the first header with that name.
pub fn ask_headers(alloc: Global, name: AsciiStr, block: AsciiStr, answer: &mut Answer) {
    match read_headers(alloc, block) {
        Ok(headers) => {
            for header in &headers {
                answer.put(*header);
            }
            match HeaderMap::from_headers(alloc, &headers) {
                Ok(map) => answer.put(map.get(name)),
                Err(error) => answer.put(error),
            }
            answer.put(find_header(&headers, name));
        }
        Err(error) => answer.put(error),
    }
}

impl Put for HeaderBlockError {
    fn put(self, answer: &mut Answer) {
        match self {
            HeaderBlockError::InLine {
                number,
                start,
                error,
            } => answer.put((("line", number), start, error)),
            HeaderBlockError::Memory => answer.put(AllocError),
        }
    }
}

/// A text as a media type: the value of its first parameter with a name, and all its parameters.
pub fn ask_media_type(alloc: Global, name: AsciiStr, source: AsciiStr, answer: &mut Answer) {
    match MediaType::parse(alloc, source) {
        Ok(media) => {
            let named = media.parameter(name).map(|parameter| parameter.value);
            answer.put((media.kind, media.subtype, named));
            for parameter in &media.parameters {
                answer.put((parameter.name, parameter.value));
            }
        }
        Err(ParseError::At(part, _)) => answer.put(("missing", part.start)),
        Err(ParseError::Memory) => answer.put(AllocError),
    }
}

/// Two names of hosts: the first one in lower case, whether they are the same host, and their order.
pub fn ask_hosts(alloc: Global, first: AsciiStr, second: AsciiStr, answer: &mut Answer) {
    answer.put(HostName::parse(alloc, first));
    answer.put(same_host(alloc, first, second));
    answer.put(host_order(alloc, first, second));
}

impl Put for HostName {
    fn put(self, answer: &mut Answer) {
        answer.put(self.as_ascii_str());
    }
}

impl Put for HostNameError {
    fn put(self, answer: &mut Answer) {
        match self {
            HostNameError::TooLong => answer.put("long"),
            HostNameError::EmptyLabel(position) => answer.put(("empty", position)),
            HostNameError::LongLabel(position) => answer.put(("label", position)),
            HostNameError::Character(position) => answer.put(("character", position)),
            HostNameError::Hyphen(position) => answer.put(("hyphen", position)),
            HostNameError::Memory => answer.put(AllocError),
        }
    }
}

/// A line as a setting.
pub fn ask_setting(source: AsciiStr, answer: &mut Answer) {
    answer.put(read_setting(source));
}

impl Put for Setting<'_> {
    fn put(self, answer: &mut Answer) {
        answer.put((self.key, self.value));
    }
}

impl Put for SettingError {
    fn put(self, answer: &mut Answer) {
        match self {
            SettingError::NoEquals(position) => answer.put(("equals", position)),
            SettingError::NoKey(position) => answer.put(("key", position)),
        }
    }
}

/// A file as settings, or what its error prints.
pub fn ask_settings(alloc: Global, source: AsciiStr, answer: &mut Answer) {
    match read_settings(alloc, source) {
        Ok(settings) => answer.put(settings),
        Err(SettingsError::Memory) => answer.put(AllocError),
        Err(error) => answer.put_result(format!(in alloc; "{error}")),
    }
}

/// A CSV field for a text, and the text of the field at the start of a line, with what comes after the field.
pub fn ask_field(alloc: Global, text: AsciiStr, line: AsciiStr, answer: &mut Answer) {
    let mut field = AsciiString::new(alloc);
    answer.put((push_field(&mut field, text).is_ok(), field));
    answer.put_result(take_field(alloc, line));
}

impl Put for FieldError {
    fn put(self, answer: &mut Answer) {
        match self {
            FieldError::NotClosed => answer.put("closed"),
            FieldError::NotComma(position) => answer.put(("comma", position)),
            FieldError::Memory => answer.put(AllocError),
        }
    }
}

/// A line as the fields of a row with a number of columns.
pub fn ask_row(alloc: Global, columns: usize, source: AsciiStr, answer: &mut Answer) {
    answer.put_result(read_row(alloc, source, columns));
}

impl Put for RowError {
    fn put(self, answer: &mut Answer) {
        match self {
            RowError::Empty { field, start } => answer.put(("empty", field, start)),
            RowError::TooFew { found } => answer.put(("few", found)),
            RowError::TooMany { start } => answer.put(("many", start)),
            RowError::Memory => answer.put(AllocError),
        }
    }
}

/// A text as a screen of some width shows it, and the column after it.
pub fn ask_screen(alloc: Global, width: usize, source: AsciiStr, answer: &mut Answer)
    requires width { 2 ≤ width }
{
    answer.put_result(wrap_for_screen(alloc, source, width));
}

impl Put for ScreenText {
    fn put(self, answer: &mut Answer) {
        answer.put((self.text, self.column));
    }
}

/// The identifier at the start of a text, and the rest.
pub fn ask_identifier(source: AsciiStr, answer: &mut Answer) {
    answer.put(split_identifier(source));
}

/// Bytes as a text with a mark in place of each run of non-ASCII bytes.
pub fn ask_lossy(alloc: Global, source: &[u8], answer: &mut Answer) {
    answer.put_result(copy_lossy(alloc, source));
}

/// The last `n` lines of a text, the lines before them, the end of the last body, and whether the last line is open.
pub fn ask_last_lines(n: usize, source: AsciiStr, answer: &mut Answer) {
    answer.put((last_lines(source, n), without_last_lines(source, n)));
    answer.put((last_body_end(source), is_open(source)));
}
