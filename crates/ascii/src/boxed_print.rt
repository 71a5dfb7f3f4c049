//! Printing of boxed, shared, and borrowed or owned text, which is that of the view.

ghost use Rattle.std.specs.Prelude.{Some};
ghost use Rattle.std.specs.Fmt.{styled_text};
ghost use Rattle.ascii.specs.Cow.{cow_text};
ghost use Rattle.ascii.specs.View.{debug_text};

use crate::boxed::{CowAsciiStr, Kept};
use std::alloc::Allocator;
use std::convert::AsStr;
use std::fmt;

impl<S: AsStr> fmt::Display for Kept<S> {
    ghost output = { λ kept. Some kept };

    ghost styled_output = { λ kept spec. Some (styled_text spec kept) };

    /// Writes the text, with the width, the alignment and the precision of the format, as for
    /// `str`.
    ///
    ///     let boxed = BoxedAsciiStr::from_ascii_str(alloc, AsciiStr::literal("a\"b"))?;
    ///     format!(in alloc; "{boxed}")? // "a\"b"
    ///     format!(in alloc; "{boxed:>4.1}")? // "   a"
    fn fmt<W: fmt::Write>(&self, f: &mut fmt::Formatter<W>) -> fmt::Result {
        fmt::Display::fmt(&self.as_ascii_str(), f)
    }
}

impl<S: AsStr> fmt::Debug for Kept<S> {
    ghost debug_output = { λ kept. Some (debug_text kept) };

    /// Writes the text in double quotes, escaped as std escapes it.
    ///
    ///     let boxed = BoxedAsciiStr::from_ascii_str(alloc, AsciiStr::literal("a\"\n"))?;
    ///     format!(in alloc; "{boxed:?}")? // "\"a\\\"\\n\""
    ///     format!(in alloc; "{boxed}")? // "a\"\n"
    fn fmt<W: fmt::Write>(&self, f: &mut fmt::Formatter<W>) -> fmt::Result {
        fmt::Debug::fmt(&self.as_ascii_str(), f)
    }
}

impl<A: Allocator> fmt::Display for CowAsciiStr<'_, A> {
    ghost output = { λ cow. Some (cow_text cow) };

    ghost styled_output = { λ cow spec. Some (styled_text spec (cow_text cow)) };

    /// Writes the text, with the width, the alignment and the precision of the format, as for
    /// `str`.
    ///
    ///     format!(in alloc; "{}", CowAsciiStr::<Global>::from(AsciiStr::literal("a\"b")))? // "a\"b"
    ///     format!(in alloc; "{:->3}", CowAsciiStr::Owned(AsciiString::new(alloc)))? // "---"
    fn fmt<W: fmt::Write>(&self, f: &mut fmt::Formatter<W>) -> fmt::Result {
        fmt::Display::fmt(&self.as_ascii_str(), f)
    }
}

impl<A: Allocator> fmt::Debug for CowAsciiStr<'_, A> {
    ghost debug_output = { λ cow. Some (debug_text (cow_text cow)) };

    /// Writes the text in double quotes, escaped as std escapes it.
    ///
    ///     format!(in alloc; "{:?}", CowAsciiStr::<Global>::from(AsciiStr::literal("foo")))? // "\"foo\""
    ///     format!(in alloc; "{:?}", CowAsciiStr::Owned(AsciiString::new(alloc)))? // "\"\""
    fn fmt<W: fmt::Write>(&self, f: &mut fmt::Formatter<W>) -> fmt::Result {
        fmt::Debug::fmt(&self.as_ascii_str(), f)
    }
}
