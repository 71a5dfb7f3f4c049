//! Steps of a caller that are asked for one after another.

use ascii::{AsciiRange, AsciiStr};

/// A step: what is done, and what it may take. The calls that go through steps say what `kind` stands for.
#[repr(C)]
#[derive(Clone, Copy)]
pub struct Step {
    /// What is done.
    pub kind: u8,
    /// The code of a character, or the form of a range.
    pub code: u8,
    /// A position or a number.
    pub at: usize,
    /// The start of a range, or of the step's text in the texts of all steps.
    pub start: usize,
    /// The end of that range or text.
    pub end: usize,
}

impl Step {
    /// The step's text, which is empty if its bounds do not fit.
    pub(crate) fn text<'a>(self, texts: AsciiStr<'a>) -> AsciiStr<'a> {
        texts
            .slice_ascii(AsciiRange::Range(self.start, self.end))
            .unwrap_or_default()
    }
}
