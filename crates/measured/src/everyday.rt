//! Tasks as a program has them every day, from bytes that are not checked yet. The benchmark measures them. A text that
//! is not ASCII, or not of the form that a task reads, gives 0.

use crate::calls::{mark, mixed};
use ascii::classes::{Blank, Hexdigit, Token};
use ascii::{AnyFinder, AsciiChar, AsciiStr, AsciiString, Finder, FinderIgnoringCase, bytes};
use ascii_formats::{AsciiStrExt, AsciiStringExt};
use cookbook::identifiers::Identifier;
use std::alloc::{AllocError, Global};
use std::fmt::Write;

/// The room that a reply is given, in bytes: its head is shorter.
const REPLY: usize = 64;

/// The names and values of a block of headers, and the number in the one that has the length.
pub fn bench_headers(source: &[u8]) -> usize {
    let Ok(text) = bytes::as_ascii_str(source) else {
        return 0;
    };
    let mut sum: usize = 0;
    for line in text.lines() {
        let Some((name, value)) = line.split_once(AsciiChar::Colon) else {
            return sum;
        };
        let value = value.trim();
        sum = mixed(mixed(sum, name.len()), value.len());
        if name.eq_ignore_ascii_case(AsciiStr::literal("content-length")) {
            sum = mixed(sum, value.to_number::<usize>().unwrap_or(0));
        }
    }
    sum
}

/// The names and values of a block of headers. A name has to be a token, and a value loses the blanks around it.
pub fn bench_strict_headers(source: &[u8]) -> usize {
    let Ok(text) = bytes::as_ascii_str(source) else {
        return 0;
    };
    let mut sum: usize = 0;
    for line in text.lines() {
        // The token ends at the colon.
        let (name, rest) = line.span::<Token>();
        let Some(value) = rest.strip_prefix_char(AsciiChar::Colon) else {
            return sum;
        };
        let value = value.trim_matches::<Blank>();
        sum = mixed(mixed(sum, name.len()), value.len());
    }
    sum
}

/// The parts of a request line: the method, the path, the query and the version.
pub fn bench_request(source: &[u8]) -> usize {
    let Ok(text) = bytes::as_ascii_str(source) else {
        return 0;
    };
    let Some((method, rest)) = text.split_once(AsciiChar::Space) else {
        return 0;
    };
    let Some((target, version)) = rest.split_once(AsciiChar::Space) else {
        return 0;
    };
    if !version.starts_with(AsciiStr::literal("HTTP/1.")) {
        return 0;
    }
    let sum = mixed(method.len(), version.len());
    match target.split_once(AsciiChar::Question) {
        Some((path, query)) => mixed(mixed(sum, path.len()), query.len()),
        None => mixed(sum, target.len()),
    }
}

/// The lines of a text that contain another text.
pub fn bench_grep(source: &[u8], needle: &[u8]) -> usize {
    let (Ok(text), Ok(needle)) = (bytes::as_ascii_str(source), bytes::as_ascii_str(needle)) else {
        return 0;
    };
    lines_found(text, &Finder::new(needle))
}

/// The lines of a text that contain another text, ignoring case.
pub fn bench_grep_ignoring_case(source: &[u8], needle: &[u8]) -> usize {
    let (Ok(text), Ok(needle)) = (bytes::as_ascii_str(source), bytes::as_ascii_str(needle)) else {
        return 0;
    };
    lines_found(text, &FinderIgnoringCase::new(needle))
}

fn lines_found<F: AnyFinder>(text: AsciiStr, finder: &F) -> usize {
    let mut sum: usize = 0;
    for line in text.lines_with(finder) {
        sum = mixed(sum, line.text.len());
    }
    sum
}

/// The value after a name in a block of headers.
pub fn bench_lookup(source: &[u8], name: &[u8]) -> usize {
    let (Ok(text), Ok(wanted)) = (bytes::as_ascii_str(source), bytes::as_ascii_str(name)) else {
        return 0;
    };
    for line in text.lines() {
        // The colon of the wanted name has one place.
        if line.get_ascii(wanted.len()) == Some(AsciiChar::Colon)
            && let Some(rest) = line.strip_prefix_ignore_ascii_case(wanted)
            && let Some(value) = rest.strip_prefix_char(AsciiChar::Colon)
        {
            return value.trim().len();
        }
    }
    0
}

/// The heads of ten replies, each appended to a string.
pub fn bench_replies(alloc: Global, source: &[u8]) -> usize {
    let mut sum: usize = 0;
    for number in 0..10usize {
        let Ok(mut reply) = AsciiString::with_capacity(alloc, REPLY) else {
            return 0;
        };
        if push_reply(&mut reply, number.wrapping_mul(source.len())).is_err() {
            return 0;
        }
        sum = mixed(sum, reply.len());
    }
    sum
}

/// Appends the head of a reply with a body of this length.
fn push_reply(reply: &mut AsciiString, length: usize) -> Result<(), AllocError> {
    reply.push_str(AsciiStr::literal("HTTP/1.1 "))?;
    reply.push_decimal(200usize)?;
    reply.push_str(AsciiStr::literal(" OK\r\nContent-Length: "))?;
    reply.push_decimal(length)?;
    reply.push_str(AsciiStr::literal("\r\n\r\n"))
}

/// The heads of ten replies, each written by `write!`.
pub fn bench_written_replies(alloc: Global, source: &[u8]) -> usize {
    let mut sum: usize = 0;
    for number in 0..10usize {
        let Ok(mut reply) = AsciiString::with_capacity(alloc, REPLY) else {
            return 0;
        };
        if write_reply(&mut reply, number.wrapping_mul(source.len())).is_err() {
            return 0;
        }
        sum = mixed(sum, reply.len());
    }
    sum
}

/// Writes the head of a reply with a body of this length.
fn write_reply(reply: &mut AsciiString, length: usize) -> std::fmt::Result {
    let status: usize = 200;
    write!(
        reply,
        "HTTP/1.1 {status} OK\r\nContent-Length: {length}\r\n\r\n"
    )
}

/// The sum of a table of numbers, with commas between them.
pub fn bench_table(source: &[u8]) -> usize {
    let Ok(text) = bytes::as_ascii_str(source) else {
        return 0;
    };
    let mut sum: usize = 0;
    for line in text.lines() {
        let Ok((number, mut rest)) = line.take_number::<u32>() else {
            return 0;
        };
        sum = sum.wrapping_add(number as usize);
        'fields: while let Some(fields) = rest.strip_prefix_char(AsciiChar::Comma) {
            let Ok((number, others)) = fields.take_number::<u32>() else {
                return 0;
            };
            sum = sum.wrapping_add(number as usize);
            rest = others;
        }
        if !rest.is_empty() {
            return 0;
        }
    }
    sum
}

/// How many lines have only characters of identifiers.
pub fn bench_identifiers(source: &[u8]) -> usize {
    let Ok(text) = bytes::as_ascii_str(source) else {
        return 0;
    };
    let mut count: usize = 0;
    for line in text.lines() {
        let (_, rest) = line.span::<Identifier>();
        if rest.is_empty() {
            count = count.wrapping_add(1);
        }
    }
    count
}

/// A text in lower case, with a hyphen for each character that is not a letter or a digit.
pub fn bench_slug(alloc: Global, source: &[u8]) -> usize {
    let Ok(text) = bytes::as_ascii_str(source) else {
        return 0;
    };
    let Ok(mut slug) = AsciiString::with_capacity(alloc, text.len()) else {
        return 0;
    };
    match slug.extend_chars(text.chars().map(in_slug)) {
        Ok(()) => mark(slug.as_ascii_str()),
        Err(_) => 0,
    }
}

/// The character of a slug for one of a title.
fn in_slug(ch: AsciiChar) -> AsciiChar {
    if ch.is_ascii_alphanumeric() {
        ch.to_ascii_lowercase()
    } else {
        AsciiChar::Minus
    }
}

/// The names and values of a settings file, with comments and empty lines.
pub fn bench_settings(source: &[u8]) -> usize {
    let Ok(text) = bytes::as_ascii_str(source) else {
        return 0;
    };
    let mut sum: usize = 0;
    for line in text.lines() {
        let line = line.trim();
        if line.is_empty() || line.starts_with_char(AsciiChar::Hash) {
            continue;
        }
        let Some((name, value)) = line.split_once(AsciiChar::Equal) else {
            return 0;
        };
        sum = mixed(mixed(sum, name.trim_end().len()), value.trim_start().len());
    }
    sum
}

/// How many lines are digests: 32 hexadecimal digits.
pub fn bench_digests(source: &[u8]) -> usize {
    let Ok(text) = bytes::as_ascii_str(source) else {
        return 0;
    };
    let mut count: usize = 0;
    for line in text.lines() {
        if line.len() == 32 && line.is_all::<Hexdigit>() {
            count = count.wrapping_add(1);
        }
    }
    count
}

/// A text with `%20` for each space.
pub fn bench_replace(alloc: Global, source: &[u8]) -> usize {
    let Ok(text) = bytes::as_ascii_str(source) else {
        return 0;
    };
    match text.replace(alloc, AsciiStr::literal(" "), AsciiStr::literal("%20")) {
        Ok(replaced) => mark(replaced.as_ascii_str()),
        Err(_) => 0,
    }
}

/// How many words a text has, and the length of the longest.
pub fn bench_longest_word(source: &[u8]) -> usize {
    let Ok(text) = bytes::as_ascii_str(source) else {
        return 0;
    };
    let mut count: usize = 0;
    let mut longest: usize = 0;
    for word in text.split_whitespace() {
        count = count.wrapping_add(1);
        longest = longest.max(word.len());
    }
    mixed(count, longest)
}

/// The parts of an address: the scheme, the host, the port and the path.
pub fn bench_address(source: &[u8]) -> usize {
    let Ok(text) = bytes::as_ascii_str(source) else {
        return 0;
    };
    let Some((scheme, rest)) = text.split_once(AsciiChar::Colon) else {
        return 0;
    };
    let Some(rest) = rest.strip_prefix(AsciiStr::literal("//")) else {
        return 0;
    };
    let Some((authority, path)) = rest.split_once(AsciiChar::Slash) else {
        return 0;
    };
    let sum = mixed(scheme.len(), path.len());
    let Some((host, port)) = authority.rsplit_once(AsciiChar::Colon) else {
        return mixed(sum, authority.len());
    };
    let port = port.to_number::<u16>().unwrap_or(0);
    mixed(mixed(sum, host.len()), port as usize)
}

/// The names of a block of headers in lower case, each in a string of its own.
pub fn bench_lower_names(alloc: Global, source: &[u8]) -> usize {
    let Ok(text) = bytes::as_ascii_str(source) else {
        return 0;
    };
    let mut sum: usize = 0;
    for line in text.lines() {
        let Some((name, _)) = line.split_once(AsciiChar::Colon) else {
            return sum;
        };
        let Ok(lower) = name.to_ascii_lowercase(alloc) else {
            return 0;
        };
        sum = mixed(sum, mark(lower.as_ascii_str()));
    }
    sum
}
