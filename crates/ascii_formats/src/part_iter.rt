//! The cuts of a part into parts of the same text, each where it is.

ghost use Rattle.std.specs.Iterator.{YieldsFirstBy, item_count};
ghost use Rattle.std.specs.Prelude.{◌≡◌, List, map, ℕ};
ghost use Rattle.ascii.specs.ByClass.{whole, word_spans_by};
ghost use Rattle.ascii.specs.Parts.{WithStart};
ghost use Rattle.ascii.specs.Code.{code_of};
ghost use Rattle.ascii.specs.Placed.{body_in};
ghost use Rattle.ascii_formats.specs.Parts.{AreLinesOf, ArePiecesOf, YieldsPlace, in_whole};
ghost use Rattle.ascii_formats.specs.Parts.{part_text, parts_of};

use crate::parts::Part;
use ascii::AsciiChar;
use ascii::classes::Searched;
use ascii::iter::{AtChar, AtWords, Cut, LineSpans, Spans};
use std::marker::Model;

/// An iterator over texts of a view with their starts: `Spans` is one for each way to cut, and
/// `LineSpans` is the one for lines, whose endings it leaves out.
trait TextSpans: Drop {
    // the texts that it has yet to yield, with their starts
    ghost texts: { Self → List (WithStart (List ℕ)) };

    /// Returns the start and the length of the next text, or `None` if there are none left.
    fn next_place(&mut self) -> Option<(usize, usize)>
        ensures { YieldsPlace texts self.old result self.new };
}

impl<'a, C: Cut> TextSpans for Spans<'a, C> {
    ghost texts = { λ spans. spans.items };

    fn next_place(&mut self) -> Option<(usize, usize)> {
        let span = self.next()?;
        Some((span.start, span.text.len()))
    }
}

impl TextSpans for LineSpans<'_> {
    ghost texts = { map body_in };

    fn next_place(&mut self) -> Option<(usize, usize)> {
        let span = self.next()?;
        Some((span.start, span.text.len()))
    }
}

/// An iterator over parts of a part: `Part::split`, `Part::words` and `Part::lines` make one. `S` is the
/// iterator of `ascii` that finds their texts.
///
/// A contract sees it as the list of parts that it has yet to yield: each as its whole, and its text
/// with its start.
pub struct Parts<'a, S: TextSpans> {
    of: Part<'a>,
    spans: S,
}

impl<'a, S: TextSpans> Model for Parts<'a, S> {
    ghost use Rattle.std.specs.Prelude.{List, ℕ};
    ghost use Rattle.ascii.specs.Parts.{WithStart};
    ghost use Rattle.ascii.specs.Placed.{ArePlaced};
    ghost use Rattle.ascii.specs.declared.ascii_str.AsciiStr.{AsciiStr};
    ghost use Rattle.ascii_formats.specs.Parts.{part_text, parts_of};

    ghost Value = { List (AsciiStr × WithStart (List ℕ)) };

    ghost view = { λ parts. parts_of parts.of (S.texts parts.spans) };

    ghost invariant = { λ parts. ArePlaced 0 (part_text parts.of) (S.texts parts.spans) };
}

impl<'a, S: TextSpans> Drop for Parts<'a, S> {
    fn drop(self) {
        let Parts { of: _, spans } = self;
        drop(spans);
    }
}

impl<'a, S: TextSpans> Iterator for Parts<'a, S> {
    type Item = Part<'a>;

    ghost next_gives = { YieldsFirstBy in_whole (λ parts. parts) };

    ghost remaining = { item_count (λ parts. parts) };

    /// Returns the next part, or `None` if there are none left; it then keeps returning `None`.
    ///
    ///     let (_, tail) = Part::of(AsciiStr::literal("so it is")).split_at(2);
    ///     let mut words = tail.words::<Blank>();
    ///     words.next() // Some(3..5 "it")
    ///     words.next() // Some(6..8 "is")
    ///     words.next() // None
    fn next(&mut self) -> Option<Part<'a>> {
        let (start, length) = self.spans.next_place()?;
        let (_, tail) = self.of.split_at(start);
        let (part, _) = tail.split_at(length);
        Some(part)
    }
}

impl<'a> Part<'a> {
    /// Returns an iterator over the pieces of the part at each `on`, each as a part where it is. There is
    /// at least one piece, and none contains `on`. The pieces are those of `AsciiStr::split`.
    ///
    /// Constant time; a full walk searches the part once.
    ///
    ///     let mut fields = Part::of(AsciiStr::literal("x: a,,b")).split_at(3).1.split(AsciiChar::Comma);
    ///     fields.next() // Some(3..4 "a")
    ///     fields.next() // Some(5..5 "")
    ///     fields.next() // Some(6..7 "b")
    ///     fields.next() // None
    ///     Part::of(AsciiStr::literal("")).split(AsciiChar::Comma).next() // Some(0..0 "")
    pub fn split(self, on: AsciiChar) -> Parts<'a, Spans<'a, AtChar>>
        ensures { ArePiecesOf (code_of on) self.entry result }
    {
        Parts {
            of: self,
            spans: self.text().split_spans(on),
        }
    }

    /// Returns an iterator over the words of the part, each as a part where it is: the longest runs of
    /// characters that are not in the class. There are no empty words.
    ///
    /// Constant time; a full walk searches the part once.
    ///
    ///     let line = Part::of(AsciiStr::literal(" to be"));
    ///     line.words::<Blank>().next() // Some(1..3 "to")
    ///     line.split_at(3).1.words::<Blank>().next() // Some(4..6 "be")
    ///     line.split_at(1).0.words::<Blank>().next() // None
    pub fn words<C: Searched>(self) -> Parts<'a, Spans<'a, AtWords<C>>>
        ensures { let text = part_text self.entry in
            result ≡ parts_of self.entry (word_spans_by C.test (whole text)) }
    {
        Parts {
            of: self,
            spans: self.text().words::<C>().spans(),
        }
    }

    /// Returns an iterator over the lines of the part, each without its ending, as a part where it is.
    /// A line ends in LF or CR LF; an LF at the end of the part makes no further line. The lines are
    /// those of `AsciiStr::lines`.
    ///
    /// Constant time; a full walk searches the part once.
    ///
    ///     let mut lines = Part::of(AsciiStr::literal("# a\r\n\nb")).split_at(2).1.lines();
    ///     lines.next() // Some(2..3 "a")
    ///     lines.next() // Some(5..5 "")
    ///     lines.next() // Some(6..7 "b")
    ///     lines.next() // None
    ///     Part::of(AsciiStr::literal("")).lines().next() // None
    pub fn lines(self) -> Parts<'a, LineSpans<'a>>
        ensures { AreLinesOf self.entry result }
    {
        Parts {
            of: self,
            spans: self.text().line_spans(),
        }
    }
}
