//! Copies of views with a text in place of another.

ghost use Rattle.std.specs.Prelude.{◌≡◌, ◌≢◌, [], IfOk, IsOk};
ghost use Rattle.ascii.specs.Replace.{Replaces};
ghost use Rattle.ascii.specs.View.{text_of};

use crate::ascii_str::AsciiStr;
use crate::ascii_string::AsciiString;
use ascii_base::range::AsciiRange;
use std::alloc::{AllocError, Allocator};

impl AsciiStr<'_> {
    /// Returns a copy of the view with `to` in place of each `from`. The occurrences are found from the
    /// left, and do not overlap. Fails only if an allocation fails, and never for the empty view.
    ///
    /// Condition: `from` is not empty.
    ///
    ///     AsciiStr::literal("a-b-c").replace(alloc, AsciiStr::literal("-"), AsciiStr::literal("::")) // Ok("a::b::c")
    ///     AsciiStr::literal("aaa").replace(alloc, AsciiStr::literal("aa"), AsciiStr::literal("b")) // Ok("ba")
    pub fn replace<A: Allocator>(
        self,
        alloc: A,
        from: AsciiStr<'_>,
        to: AsciiStr<'_>,
    ) -> Result<AsciiString<A>, AllocError>
        requires { text_of from ≢ [] }
        ensures text { IfOk result (λ copy.
            Replaces (text_of from.entry) (text_of to.entry) (text_of self.entry) copy.text) }
        ensures empty { text_of self.entry ≡ [] → IsOk result }
    {
        let mut copy = AsciiString::new(alloc);
        if self.is_empty() {
            return Ok(copy);
        }
        let mut rest = self;
        while let Some(at) = rest.find_near(from) {
            if copy.is_empty() {
                copy.reserve(self.room_for(from, to))?;
            }
            copy.push_str(rest.slice(AsciiRange::To(at)))?;
            copy.push_str(to)?;
            rest = rest.slice(AsciiRange::From(at + from.len()));
        }
        copy.push_str(rest)?;
        Ok(copy)
    }

    /// How many bytes a copy is given at first: for a longer text in place of another twice as many as
    /// the view has, since the copy grows past these.
    fn room_for(self, from: AsciiStr<'_>, to: AsciiStr<'_>) -> usize {
        if to.len() > from.len() {
            self.len().saturating_mul(2)
        } else {
            self.len()
        }
    }
}
