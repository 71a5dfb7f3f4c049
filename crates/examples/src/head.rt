//! Prints the request line of an HTTP/1.1 request, its host, the names of its headers and the charset of its content, or
//! why it has none. The host is that of the target, if it begins with `http://`, and otherwise that of the header Host.
#![tactic(auto)]

ghost use Rattle.std.specs.Prelude.{IfOk, IfSome, MatchOption, MatchResult, codes};
ghost use Rattle.std.proofs.Common.{rules};
ghost use Rattle.ascii.specs.Search.{IgnoringCase, StartsWith};
ghost use Rattle.ascii.specs.View.{text_of};
ghost use Rattle.examples.specs.Head.{AreHeaders, HasAuthority, IsHeadersError, IsNameList};
ghost use Rattle.examples.specs.Head.{IsRequestLine};

use ascii::classes::{ByRanges, Graphic, Ranges, Token};
use ascii_formats::AsciiStrExt;
use ascii_formats::parts::{ParseError, Part};
use ascii_keys::FoldedMap;
use ascii_lines::{
    AsciiChar, AsciiStr, AsciiString, Block, BlockEnd, Endings, Input, LineReader, OwnedLine,
    read_block,
};
use cookbook::headers::{HeaderError, read_header};
use cookbook::media_type::MediaType;
use std::alloc::{AllocError, Global};
use std::io;

/// The parts of a request line. For `GET / HTTP/1.1` the minor version is 1.
#[derive(Clone, Copy)]
pub struct RequestLine<'a> {
    pub method: AsciiStr<'a>,
    pub target: AsciiStr<'a>,
    pub minor: u8,
}

/// Why lines are not headers with different names. A line is named by its index, counted from 0.
#[derive(Clone, Copy)]
pub enum HeadersError {
    /// The first line that is not a header, and why.
    NotHeader(usize, HeaderError),
    /// The first header that has the name of one before it, ignoring ASCII case.
    Twice(usize),
    /// An allocation failed.
    Memory,
}

pub struct AuthorityEndRanges;

const AUTHORITY_END: [(u8, u8); 3] = [(b'#', b'#'), (b'/', b'/'), (b'?', b'?')];

impl Ranges for AuthorityEndRanges {
    ghost use Rattle.examples.specs.Head.{EndsAuthority};
    ghost use Rattle.examples.specs.declared.head.TheConstants.{AUTHORITY_END};

    ghost set = { EndsAuthority };

    ghost list = { AUTHORITY_END };

    ghost matches = { λ n. Prim.search rules };

    fn ranges() -> &'static [(u8, u8)] {
        &AUTHORITY_END
    }
}

/// The characters of which the first ends the authority of a URL.
pub type AuthorityEnd = ByRanges<AuthorityEndRanges>;

/// Returns the parts of a request line, or `None` if the line is none.
pub fn read_request_line<'a>(line: AsciiStr<'a>) -> Option<RequestLine<'a>>
    ensures { IfSome result (IsRequestLine (text_of line.entry)) }
{
    let (method, rest) = line.split_once(AsciiChar::Space)?;
    let (target, version) = rest.split_once(AsciiChar::Space)?;
    let digits = Part::of(version).strip_prefix(AsciiStr::literal("HTTP/1."))?;
    let (minor, end) = digits.digits(1).ok()?;
    if method.is_empty() || !method.is_all::<Token>() {
        return None;
    }
    if target.is_empty() || !target.is_all::<Graphic>() {
        return None;
    }
    if !end.is_empty() {
        return None;
    }
    Some(RequestLine {
        method,
        target,
        minor: minor.to_number::<u8>().ok()?,
    })
}

/// Returns the authority of a target that begins with `http://`, in any case, or `None` if it does not: that of
/// `http://a.example:80/b?c` is `a.example:80`.
pub fn authority_of<'a>(target: AsciiStr<'a>) -> Option<AsciiStr<'a>>
    ensures { let text = text_of target.entry in MatchOption result
        (¬ (IgnoringCase (λ start. StartsWith start text) (codes "http://")))
        (λ authority. HasAuthority text (text_of authority)) }
{
    let rest = target.strip_prefix_ignore_ascii_case(AsciiStr::literal("http://"))?;
    match rest.split_once_by::<AuthorityEnd>() {
        Some((authority, _)) => Some(authority),
        None => Some(rest),
    }
}

/// Returns the value of the header of each line by its name, ignoring ASCII case, or an error with the first line that
/// is not a header or has the name of one before it.
pub fn read_headers<'a>(
    alloc: Global,
    lines: &'a [OwnedLine],
) -> Result<FoldedMap<AsciiStr<'a>>, HeadersError>
    ensures { MatchResult result (AreHeaders lines.now) (IsHeadersError lines.now) }
{
    let mut headers = FoldedMap::new(alloc);
    for (index, line) in lines.iter().enumerate() {
        let header = match read_header(line.text.as_ascii_str()) {
            Ok(header) => header,
            Err(error) => return Err(HeadersError::NotHeader(index, error)),
        };
        match headers.insert(header.name, header.value) {
            Ok(None) => {}
            Ok(Some(_)) => return Err(HeadersError::Twice(index)),
            Err(_) => return Err(HeadersError::Memory),
        }
    }
    Ok(headers)
}

/// Returns the names of the headers in lower case, in order, with `;` between each two, as a signature of a request lists
/// them; or an error if an allocation fails.
pub fn name_list(
    alloc: Global,
    headers: &FoldedMap<AsciiStr<'_>>,
) -> Result<AsciiString, AllocError>
    ensures { IfOk result (λ list. IsNameList headers.now list.text) }
{
    let mut list = AsciiString::collect_joined(alloc, headers.keys(), AsciiStr::literal(";"))?;
    list.make_ascii_lowercase();
    Ok(list)
}

/// Prints the host of a request, the names of its headers and the charset of its content, or why there are none.
fn show_headers(rt: &HostRuntime, target: AsciiStr<'_>, lines: &[OwnedLine]) -> io::Result<()> {
    match read_headers(rt.alloc(), lines) {
        Ok(headers) => show_found(rt, target, &headers),
        Err(HeadersError::NotHeader(index, error)) => println!(rt; "header {index}: {error}"),
        Err(HeadersError::Twice(index)) => println!(rt; "header {index} comes twice"),
        Err(HeadersError::Memory) => println!(rt; "no memory"),
    }
}

/// Prints the host of a request, the names of its headers and the charset of its content.
fn show_found(
    rt: &HostRuntime,
    target: AsciiStr<'_>,
    headers: &FoldedMap<AsciiStr<'_>>,
) -> io::Result<()> {
    let named = headers.get(AsciiStr::literal("host")).copied();
    match authority_of(target).or(named) {
        Some(host) => println!(rt; "host {host}")?,
        None => println!(rt; "no host")?,
    }
    println!(rt; "headers {}", name_list(rt.alloc(), headers)?)?;
    match headers.get(AsciiStr::literal("content-type")) {
        Some(value) => show_charset(rt, *value),
        None => Ok(()),
    }
}

/// Prints the charset of a media type, or why there is none.
fn show_charset(rt: &HostRuntime, text: AsciiStr<'_>) -> io::Result<()> {
    match MediaType::parse(rt.alloc(), text) {
        Ok(media) => match media.parameter(AsciiStr::literal("charset")) {
            Some(charset) => println!(rt; "charset {}", charset.value),
            None => println!(rt; "no charset"),
        },
        Err(ParseError::At(part, what)) => println!(rt; "content type, {}", part.fault(what)),
        Err(ParseError::Memory) => println!(rt; "no memory"),
    }
}

/// Prints the host and the headers of lines with this end, or that the end is not that of a head.
fn show_lines(
    rt: &HostRuntime,
    target: AsciiStr<'_>,
    lines: &[OwnedLine],
    end: BlockEnd,
) -> io::Result<()> {
    match end {
        BlockEnd::EmptyLine => show_headers(rt, target, lines),
        BlockEnd::EndOfInput => println!(rt; "the input ends in the head"),
        BlockEnd::Full => println!(rt; "more than 100 lines"),
        BlockEnd::Reader(error) => println!(rt; "{error}"),
    }
}

/// Prints the request line of a block, and its headers.
fn show(rt: &HostRuntime, block: &Block) -> io::Result<()> {
    let Some((first, others)) = block.lines.split_first() else {
        return println!(rt; "no request line");
    };
    let Some(request) = read_request_line(first.text.as_ascii_str()) else {
        return println!(rt; "not a request line: {}", first.text);
    };
    println!(rt; "{} {} 1.{}", request.method, request.target, request.minor)?;
    show_lines(rt, request.target, others, block.end)
}

pub fn main(rt: HostRuntime) -> io::Result<()> {
    let alloc = rt.alloc();
    let input = Input::new(rt.stdin());
    let mut reader = LineReader::new(alloc, input, 8_192, Endings::CrLfStrict)?;
    show(&rt, &read_block(alloc, &mut reader, 100)?)
}
