//! What an iterator over the parts of a text has left, and how it is cut. A separator and LF are
//! found by the crate `memchr` alone.

ghost use Rattle.std.specs.Prelude.{◌≡◌, ◌+◌, ◌<◌, ◌≤◌, ◌^◌, MatchOption, drop, length, take};
ghost use Rattle.std.proofs.Props.{props};
ghost use Rattle.memchr.specs.Find.{IsFirstByte, is_byte};

use crate::ascii_str::AsciiStr;
use memchr::arch::all::memchr::One;
use memchr::{memchr, memrchr};

/// A part of a text, and where it starts.
#[derive(Clone, Copy)]
pub struct Cursor<'a> {
    pub(crate) start: usize,
    pub(crate) view: AsciiStr<'a>,
    ghost fits: { start + length view.bytes.now < 2 ^ 64 } by { Prim.hlevel props },
}

/// The number of bytes that are searched inline first: most separators are close together, and the compiler cuts the
/// search of 32 bytes down to one vector.
const NEAR: usize = 32;

/// Returns the position of the first byte that is `on`, or `None` if there is none. The search is
/// inlined, and cut down by the compiler if there are at most `NEAR` bytes.
#[inline(always)]
fn find_near(on: u8, bytes: &[u8]) -> Option<usize>
    ensures { IsFirstByte (is_byte on) bytes.now result }
{
    One::new(on).find(bytes)
}

/// Returns the position of the first byte that is `on`, or `None` if there is none. The first `NEAR`
/// bytes are searched inline, and a call searches those after them. If these are fewer than `NEAR`, the
/// last `NEAR` bytes are searched inline instead, because `memchr` tests fewer than `NEAR` one by one.
#[inline(always)]
pub(crate) fn find_first(on: u8, bytes: &[u8]) -> Option<usize>
    ensures { IsFirstByte (is_byte on) bytes.now result }
{
    if bytes.len() < NEAR {
        return find_near(on, bytes);
    }
    match find_near(on, &bytes[..NEAR]) {
        Some(position) => Some(position),
        None if bytes.len() < 2 * NEAR => {
            let start = bytes.len() - NEAR;
            match find_near(on, &bytes[start..]) {
                Some(position) => Some(start + position),
                None => None,
            }
        }
        None => match memchr(on, &bytes[NEAR..]) {
            Some(position) => Some(NEAR + position),
            None => None,
        },
    }
}

impl<'a> Cursor<'a> {
    ghost use Rattle.ascii.specs.Found.{HasNo, IsSplitAfterLast, IsSplitAtFirst};
    ghost use Rattle.ascii.specs.Found.{IsSplitAtLast, part_in};
    ghost use Rattle.ascii.specs.View.{text_of};

    /// The part before a position.
    #[inline(always)]
    pub(crate) fn to(self, place: usize) -> Cursor<'a>
        requires { place ≤ length (text_of self.view) }
        ensures start { result.start ≡ self.entry.start }
        ensures text { text_of result.view ≡ take place (text_of self.entry.view) }
    {
        Cursor {
            start: self.start,
            view: AsciiStr {
                bytes: &self.view.bytes[..place],
            },
        }
    }

    /// The part from a position on.
    #[inline(always)]
    pub(crate) fn from(self, place: usize) -> Cursor<'a>
        requires { place ≤ length (text_of self.view) }
        ensures start { result.start ≡ self.entry.start + place }
        ensures text { text_of result.view ≡ drop place (text_of self.entry.view) }
    {
        Cursor {
            start: self.start + place,
            view: AsciiStr {
                bytes: &self.view.bytes[place..],
            },
        }
    }

    /// The text before the first byte that is `on`, and the text after it.
    #[inline(always)]
    pub(crate) fn split_at_first(self, on: u8) -> Option<(Cursor<'a>, Cursor<'a>)>
        ensures { MatchOption result (HasNo on (text_of self.entry.view))
            (IsSplitAtFirst on (part_in self.entry)) }
    {
        let place = find_first(on, self.view.bytes)?;
        Some((self.to(place), self.from(place + 1)))
    }

    /// The text before the last byte that is `on`, and the text after it.
    #[inline(always)]
    pub(crate) fn split_at_last(self, on: u8) -> Option<(Cursor<'a>, Cursor<'a>)>
        ensures { MatchOption result (HasNo on (text_of self.entry.view))
            (IsSplitAtLast on (part_in self.entry)) }
    {
        let place = memrchr(on, self.view.bytes)?;
        Some((self.to(place), self.from(place + 1)))
    }

    /// The text up to and with the last byte that is `on`, and the text after it.
    #[inline(always)]
    pub(crate) fn split_after_last(self, on: u8) -> (Cursor<'a>, Cursor<'a>)
        ensures { IsSplitAfterLast on (part_in self.entry) result }
    {
        match memrchr(on, self.view.bytes) {
            Some(place) => (self.to(place + 1), self.from(place + 1)),
            None => (self.to(0), self),
        }
    }
}
