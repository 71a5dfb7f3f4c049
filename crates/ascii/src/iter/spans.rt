//! Pieces and lines with their starts. A start is a position in bytes, from 0.

use crate::ascii_str::AsciiStr;

/// A piece or a word of a text, with its start.
#[derive(Clone, Copy, PartialEq, Eq, Debug)]
pub struct SplitSpan<'a> {
    /// The position of its first byte; if the piece is empty, that of the separator after it, or
    /// the end of the text.
    pub start: usize,
    /// The piece or the word.
    pub text: AsciiStr<'a>,
}

/// How a line ends.
#[derive(Clone, Copy, PartialEq, Eq, Debug)]
pub enum Ending {
    /// LF.
    Lf,
    /// CR LF.
    CrLf,
    /// No ending: the text ends.
    Absent,
}

/// Which endings end the lines of an input. The last line may have none.
#[derive(Clone, Copy, PartialEq, Eq, Debug)]
pub enum Endings {
    /// LF and CR LF. A CR that is not before an LF is part of a line.
    Any,
    /// CR LF only. A CR or an LF that is not part of a CR LF is part of a line.
    CrLf,
    /// CR LF only. A CR or an LF that is not part of a CR LF is part of no line, so that not every text has lines.
    CrLfStrict,
}

/// A line of a text, with its start and its ending.
#[derive(Clone, Copy, PartialEq, Eq, Debug)]
pub struct LineSpan<'a> {
    /// The position of the first byte of its body or, if the body is empty, of its ending.
    pub start: usize,
    /// The body.
    pub text: AsciiStr<'a>,
    /// The ending.
    pub ending: Ending,
}
