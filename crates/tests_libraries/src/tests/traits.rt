//! The traits of std for views and strings, each through a function that is generic over the trait.

use ascii::{AsciiStr, AsciiString};
use std::convert::{AsSlice, AsStr};
use std::io::AsBytes;
use std::path::AsPath;
use testing::{ascii, assert_row};

fn str_len<T: AsStr>(text: &T) -> usize {
    text.as_str().len()
}

fn slice_len<T: AsSlice<u8>>(items: &T) -> usize {
    items.as_slice().len()
}

fn byte_len<T: AsBytes>(bytes: &T) -> usize {
    bytes.as_byte_slice().len()
}

fn path_len(path: &impl AsPath) -> usize {
    path.path_text().len()
}

#[test]
fn text_bytes_and_path_have_the_length(rt: HostRuntime) {
    let alloc = rt.alloc();
    for (source, want) in [("", 0), ("a/b", 3)] {
        let view = ascii(source);
        let string = view.to_ascii_string(alloc).expect(&rt, "no memory");
        assert_row!(rt; str_len(&view), want);
        assert_row!(rt; slice_len(&view), want);
        assert_row!(rt; byte_len(&view), want);
        assert_row!(rt; path_len(&view), want);
        assert_row!(rt; str_len(&string), want);
        assert_row!(rt; slice_len(&string), want);
        assert_row!(rt; byte_len(&string), want);
    }
}

/// The length of a source that converts to a view.
fn checked_len<'a, S: TryInto<AsciiStr<'a>>>(source: S) -> Option<usize>
where
    S::Error: Drop,
{
    Some(source.try_into().ok()?.len())
}

/// The length of a source that converts to a string.
fn owned_len<S: TryInto<AsciiString>>(source: S) -> Option<usize>
where
    S::Error: Drop,
{
    Some(source.try_into().ok()?.len())
}

#[test]
fn sources_convert_if_they_are_ascii(rt: HostRuntime) {
    let alloc = rt.alloc();
    for (source, want) in [("", Some(0)), ("abc", Some(3)), ("abč", None)] {
        assert_row!(rt; checked_len(source), want);
        assert_row!(rt; checked_len(source.as_bytes()), want);
        let string = String::from_str(alloc, source).expect(&rt, "no memory");
        assert_row!(rt; owned_len(string), want);
        let vector = Vec::from_slice(alloc, source.as_bytes()).expect(&rt, "no memory");
        assert_row!(rt; owned_len(vector), want);
    }
}
