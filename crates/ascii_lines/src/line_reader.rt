//! A reader of lines over any source, through one buffer of fixed size.

ghost use Rattle.std.specs.Prelude.{◌≡◌, ◌≢◌, ◌-◌, ◌≤◌, ◌∷◌, [], IfOk, length};
ghost use Rattle.std.specs.Str.{IsAscii};
ghost use Rattle.ascii.specs.Endings.{IsFirstStop, IsOneLine};
ghost use Rattle.ascii.specs.Spans.{LineSpansEndedBy};
ghost use Rattle.ascii_devices.specs.States.{source_state};
ghost use Rattle.ascii.specs.View.{text_of};
ghost use Rattle.ascii_lines.specs.LineReader.{IsBytesAt, IsTextBefore, read_line_in};
ghost use Rattle.ascii_lines.specs.Wanted.{IsOne};
ghost use Rattle.ascii_lines.specs.declared.wanted.Wanted.TheVariants.{Until};

use crate::line_cursor::LineCursor;
use crate::skipping::SkippedLine;
use crate::wanted::{Content, Wanted};
use ascii::endings::split_ending;
use ascii::iter::{Ending, Endings};
use ascii::{AsciiChar, AsciiStr, bytes};
use ascii_devices::Source;
use std::alloc::{AllocError, Allocator, Global};
use std::marker::Model;

/// Why a reader returns no further line. The lines before were returned.
#[derive(Clone, Copy, PartialEq, Eq, Debug)]
pub enum LineError {
    /// The byte at this position of the input, counted from 0, is the first that is not ASCII. It is among
    /// the bytes of its line that fit in the buffer.
    NotAscii(u64),
    /// The byte at this position of the input, counted from 0, is a CR without an LF after it or an LF
    /// without a CR before it, in a line that `Endings::CrLfStrict` end.
    LoneBreak(u64),
    /// The line that starts at this position of the input, counted from 0, is longer than the buffer, with
    /// its ending; or the part that starts there is longer than the buffer. By `skip_line`: the line has
    /// more bytes from there on than may be skipped.
    TooLong(u64),
    /// The next line or part ends after the position `u64::MAX`, or its first non-ASCII byte is there.
    TooFar,
    /// The input ended after this number of bytes of a part, which is longer.
    Incomplete(usize),
    /// The source failed, or has failed `u64::MAX` times before.
    Read,
}

/// A line of an input.
#[derive(Clone, Copy, PartialEq, Eq, Debug)]
pub struct ReadLine<'a> {
    /// The position of its first byte in the input, counted from 0.
    pub start: u64,
    /// The body.
    pub text: AsciiStr<'a>,
    /// The ending.
    pub ending: Ending,
}

/// A line of an input that may have any bytes.
#[derive(Clone, Copy, PartialEq, Eq, Debug)]
pub struct ReadBytes<'a> {
    /// The position of its first byte in the input, counted from 0.
    pub start: u64,
    /// The body.
    pub bytes: &'a [u8],
    /// The body as a view, or the position in the input of its first byte that is not ASCII, counted
    /// from 0.
    pub text: Result<AsciiStr<'a>, u64>,
    /// The ending.
    pub ending: Ending,
}

/// A part of an input, of a length or up to a character that the caller has named.
#[derive(Clone, Copy, PartialEq, Eq, Debug)]
pub struct ReadPart<'a> {
    /// The position of its first byte in the input, counted from 0.
    pub start: u64,
    /// The text, which may have any ASCII character.
    pub text: AsciiStr<'a>,
}

/// Whether a reader has further lines.
#[derive(Clone, Copy)]
pub(crate) enum Stage {
    /// It may have.
    Open,
    /// Every line was returned.
    Ended,
    /// This error was returned, and is returned from then on.
    Refused(LineError),
}

/// A reader of lines. It reads its source into one buffer and lends each line out of it. `next_line`
/// checks and searches each byte once. When the buffer is filled again, the part of an unfinished line
/// moves to its start, and nothing else is copied.
#[derive(Drop)]
pub struct LineReader<S: Source, A: Allocator = Global> {
    source: S,
    cursor: LineCursor<A>,
}

impl<S: Source, A: Allocator> Model for LineReader<S, A> {
    ghost use Rattle.ascii_lines.specs.LineReader.{Reading, reading_at};
    ghost use Rattle.ascii_lines.specs.Wanted.{KnowsEnd};

    ghost Value = { Reading S };

    ghost view = { λ r. reading_at S.Source r.cursor r.source };

    ghost invariant = { λ r. KnowsEnd r.cursor.is_at_end (S.rest r.source) };
}

impl<S: Source, A: Allocator> LineReader<S, A> {
    ghost use Rattle.std.specs.Borrow.{sem};
    ghost use Rattle.std.specs.Io.BufRead.{Rests};
    ghost use Rattle.ascii_lines.specs.LineReader.{Next, NextBytes, NextPart, NextText};
    ghost use Rattle.ascii.specs.Code.{code_of};
    ghost use Rattle.ascii_lines.specs.LineReader.{ended_by, fresh_reader};
    ghost use Rattle.ascii_lines.specs.Skipping.{Skips};
    ghost use Rattle.ascii_lines.specs.contracts.line_reader.LineReader.{the_row};

    /// Creates a reader over `source` with a buffer for lines of `size` bytes, their endings included, or
    /// returns an error if the allocation fails; the source is then dropped. No later call allocates.
    ///
    /// A line that is longer is rejected by `next_line`; with a `size` of 0, so is every line. The buffer
    /// has one byte more than a line, and two at least.
    ///
    ///     let source = Input::new(b"ab\r\ncd".as_slice());
    ///     let mut reader = LineReader::new(alloc, source, 64, Endings::Any)?;
    ///     reader.next_line() // Ok(Some(ReadLine { start: 0, text: "ab", ending: CrLf }))
    ///
    /// With `Endings::CrLf` a CR or an LF by itself is part of the line:
    ///
    ///     let source = Input::new(b"a\nb\r\nc".as_slice());
    ///     let mut reader = LineReader::new(alloc, source, 64, Endings::CrLf)?;
    ///     reader.next_line() // Ok(Some(ReadLine { start: 0, text: "a\nb", ending: CrLf }))
    ///     reader.next_line() // Ok(Some(ReadLine { start: 5, text: "c", ending: Absent }))
    ///
    /// With `Endings::CrLfStrict` it is an error with its position:
    ///
    ///     let source = Input::new(b"a\r\nb\nc\r\n".as_slice());
    ///     let mut reader = LineReader::new(alloc, source, 64, Endings::CrLfStrict)?;
    ///     reader.next_line() // Ok(Some(ReadLine { start: 0, text: "a", ending: CrLf }))
    ///     reader.next_line() // Err(LoneBreak(4))
    pub fn new(
        alloc: A,
        source: S,
        size: usize,
        endings: Endings,
    ) -> Result<LineReader<S, A>, AllocError>
    where
        S: Drop,
        ensures fresh { IfOk result (λ reader.
            reader.state ≡ fresh_reader size endings (source_state S.Source source)) }
        ensures source { IfOk result (λ reader. reader.source ≡ source) }
    {
        let cursor = LineCursor::new(alloc, size, endings)?;
        Ok(LineReader { source, cursor })
    }

    /// Sets which endings end the lines that are returned from now on. Nothing else changes: the next line
    /// starts where it would have started, and a reader that has returned `None` or an error continues to
    /// return it.
    ///
    ///     let source = Input::new(b"a\nb\nc\r\n".as_slice());
    ///     let mut reader = LineReader::new(alloc, source, 64, Endings::Any)?;
    ///     reader.next_line() // Ok(Some(ReadLine { start: 0, text: "a", ending: Lf }))
    ///     reader.lines_ended_by(Endings::CrLf);
    ///     reader.next_line() // Ok(Some(ReadLine { start: 2, text: "b\nc", ending: CrLf }))
    pub fn lines_ended_by(&mut self, endings: Endings)
        ensures state { self.new.state ≡ ended_by endings self.old.state }
        ensures source { self.new.source ≡ self.old.source }
    {
        self.cursor.lines_ended_by(endings);
    }

    /// Returns the source. Bytes that the reader has read of it are lost.
    ///
    ///     let source = Input::new(b"ab\ncd".as_slice());
    ///     let mut reader = LineReader::new(alloc, source, 64, Endings::Any)?;
    ///     reader.next_line() // Ok(Some(ReadLine { start: 0, text: "ab", ending: Lf }))
    ///     reader.into_source().into_inner() // []
    pub fn into_source(self) -> S
        ensures { result ≡ self.source }
    {
        self.source
    }

    /// Returns the position in the input at which the next line or part starts, counted from 0. After an
    /// error it is that of the line or part at fault; after an error of `skip_line`, the one after the
    /// bytes that were skipped.
    ///
    ///     let source = Input::new(b"ab\r\ncd".as_slice());
    ///     let mut reader = LineReader::new(alloc, source, 64, Endings::Any)?;
    ///     reader.position() // 0
    ///     let _ = reader.next_line();
    ///     reader.position() // 4
    pub fn position(&self) -> u64
        ensures { result ≡ self.now.state.start }
    {
        self.cursor.start()
    }

    /// Returns the next line with its start and its ending, or `None` if there are no more lines, or
    /// an error. The endings of the reader say where a line ends; only the last line of the input may have
    /// no ending. With its ending it is no longer than the buffer.
    ///
    /// `None` is returned when every byte of the input was in a line or part that was returned, or was
    /// skipped, and the source is at its end. An error is returned instead of the next line; if that line has several
    /// faults, the first one in the order of its bytes:
    ///
    /// - `NotAscii` if that line has a non-ASCII byte among those of its bytes that fit in the buffer.
    ///   The error has the position of the first one.
    /// - `LoneBreak` if that line has a CR without an LF after it or an LF without a CR before it, and
    ///   the endings are `Endings::CrLfStrict`. The error has the position of the first one. It is the
    ///   byte after a CR, or the end of the input, that shows this fault: if that byte is not ASCII or
    ///   does not fit in the buffer, the error is `NotAscii` or `TooLong`.
    /// - `TooLong` if that line is longer than the buffer, and those of its bytes that fit are ASCII.
    ///   The error has the start of the line.
    /// - `TooFar` if that line has a byte at the position `u64::MAX` or after it.
    /// - `Read` if a call of the source failed, or `u64::MAX` calls have failed before.
    ///
    /// After an error the position, the size and the endings are as they were, and the reader holds all bytes
    /// that it has read from the start of that line on. Every later call returns the same, and changes nothing,
    /// unless `skip_line` reads over the line. So it is after `None`. The source's count of failures rises by
    /// one when `Read` is first returned, unless it is `u64::MAX`; otherwise no call changes it.
    ///
    /// The source is read only while the bytes held fit, have no fault, and no line ends in them. After a read that
    /// returned no bytes, no call reads it again.
    ///
    /// The result borrows the reader, also if it is `None` or an error. What the call promises of the
    /// reader and its source, it promises for when that borrow has ended.
    ///
    ///     let source = Input::new(b"\nc".as_slice());
    ///     let mut reader = LineReader::new(alloc, source, 64, Endings::Any)?;
    ///     reader.next_line() // Ok(Some(ReadLine { start: 0, text: "", ending: Lf }))
    ///     reader.next_line() // Ok(Some(ReadLine { start: 1, text: "c", ending: Absent }))
    ///     reader.next_line() // Ok(None)
    ///
    /// A line that is too long is an error with the position of its start:
    ///
    ///     let source = Input::new(b"a\nbcd\n".as_slice());
    ///     let mut reader = LineReader::new(alloc, source, 3, Endings::Any)?;
    ///     reader.next_line() // Ok(Some(ReadLine { start: 0, text: "a", ending: Lf }))
    ///     reader.next_line() // Err(TooLong(2))
    pub fn next_line(&mut self) -> Result<Option<ReadLine<'_>>, LineError>
        ensures* next { sem 𝓛 (Rests (the_row S.row A.row S.Source A.Allocator) self.entry
            (Next self.old result)) }
    {
        let (start, endings) = (self.cursor.start(), self.cursor.endings());
        if self
            .cursor
            .advance(&mut self.source, Wanted::Line(endings, Content::Text))?
        {
            Ok(Some(line_at(endings, start, self.cursor.line_bytes())))
        } else {
            Ok(None)
        }
    }

    /// Returns the next line as bytes, with its start and its ending, and with its text: a view if all bytes
    /// are ASCII, otherwise the position of the first that is not. Or returns `None` if there are no more
    /// lines, or an error. It is for inputs that may have other bytes, as mail and headers have.
    ///
    /// A line starts, ends and fits as for `next_line`, and all errors but `NotAscii` are as there.
    ///
    ///     let source = Input::new(b"ab\n\xffc\n".as_slice());
    ///     let mut reader = LineReader::new(alloc, source, 64, Endings::Any)?;
    ///     reader.next_bytes() // Ok(Some(ReadBytes { start: 0, bytes: [97, 98], text: Ok("ab"), ending: Lf }))
    ///     reader.next_bytes() // Ok(Some(ReadBytes { start: 3, bytes: [255, 99], text: Err(3), ending: Lf }))
    pub fn next_bytes(&mut self) -> Result<Option<ReadBytes<'_>>, LineError>
        ensures* next { sem 𝓛 (Rests (the_row S.row A.row S.Source A.Allocator) self.entry
            (NextBytes self.old result)) }
    {
        let endings = self.cursor.endings();
        if self
            .cursor
            .advance(&mut self.source, Wanted::Line(endings, Content::Any))?
        {
            let end = self.cursor.start();
            Ok(Some(bytes_at(endings, end, self.cursor.line_bytes())))
        } else {
            Ok(None)
        }
    }

    /// Returns the next `n` bytes as a text with its start, or an error. It is for protocols that announce
    /// a length, and may be mixed with `next_line` in any order: the next line or part starts after it.
    ///
    /// - `TooLong` if `n` is larger than the buffer. The error has the start of the part, and nothing is read.
    /// - `NotAscii` if one of the bytes is not ASCII. The error has the position of the first one.
    /// - `Incomplete` if the input ends before. The error has the number of bytes that came.
    /// - `TooFar` if the part ends after the position `u64::MAX`. Nothing is read.
    /// - `Read` if a call of the source failed, or `u64::MAX` calls have failed before.
    ///
    /// What stands after an error, and when the source is read, is as for `next_line`. After `None`, or a line
    /// or text without an ending, the error is `Incomplete(0)`, and the reader is unchanged.
    ///
    ///     let source = Input::new(b"$4\na\nbc\nd".as_slice());
    ///     let mut reader = LineReader::new(alloc, source, 64, Endings::Any)?;
    ///     reader.next_line() // Ok(Some(ReadLine { start: 0, text: "$4", ending: Lf }))
    ///     reader.read_exact_part(4) // Ok(ReadPart { start: 3, text: "a\nbc" })
    ///     reader.next_line() // Ok(Some(ReadLine { start: 7, text: "", ending: Lf }))
    ///     reader.read_exact_part(2) // Err(Incomplete(1))
    pub fn read_exact_part(&mut self, n: usize) -> Result<ReadPart<'_>, LineError>
        ensures* part { sem 𝓛 (Rests (the_row S.row A.row S.Source A.Allocator) self.entry
            (NextPart n self.old result)) }
    {
        let start = self.cursor.start();
        self.cursor
            .advance(&mut self.source, Wanted::Part(n, Content::Text))?;
        Ok(ReadPart {
            start,
            text: bytes::as_ascii_str_unchecked(self.cursor.line_bytes()),
        })
    }

    /// Returns the text up to the next `end` with its start, or `None` if there are no more bytes, or an
    /// error. The `end` is taken too, but is not in the text. Only the last text of the input may have
    /// no `end` after it. `find -print0` prints file names in this form, each with a NUL after it.
    ///
    /// A CR or an LF is a character like any other, unless it is `end`: the endings of the reader do
    /// not matter here. Calls of `next_line` and the others may come before and after this one, in any
    /// order: the next line, part or text starts after `end`.
    ///
    /// - `NotAscii` if the text has a non-ASCII byte among those of its bytes that fit in the buffer.
    ///   The error has the position of the first one.
    /// - `TooLong` if the text is longer than the buffer, with its `end`, and those of its bytes that
    ///   fit are ASCII. The error has the start of the text.
    /// - `TooFar` if the text or its `end` has a byte at the position `u64::MAX` or after it.
    /// - `Read` if a call of the source failed, or `u64::MAX` calls have failed before.
    ///
    /// What an error or `None` leaves, and when the source is read, is as for `next_line`. After an
    /// error `skip_line` reads over a line, up to its ending: no call reads over a text up to `end`.
    ///
    ///     let source = Input::new(b"a\0b\nc\0\0d".as_slice());
    ///     let mut reader = LineReader::new(alloc, source, 64, Endings::Any)?;
    ///     reader.next_until(AsciiChar::Null) // Ok(Some(ReadPart { start: 0, text: "a" }))
    ///     reader.next_until(AsciiChar::Null) // Ok(Some(ReadPart { start: 2, text: "b\nc" }))
    ///     reader.next_until(AsciiChar::Null) // Ok(Some(ReadPart { start: 6, text: "" }))
    ///     reader.next_until(AsciiChar::Null) // Ok(Some(ReadPart { start: 7, text: "d" }))
    ///     reader.next_until(AsciiChar::Null) // Ok(None)
    pub fn next_until(&mut self, end: AsciiChar) -> Result<Option<ReadPart<'_>>, LineError>
        ensures* next { sem 𝓛 (Rests (the_row S.row A.row S.Source A.Allocator) self.entry
            (NextText (code_of end) self.old result)) }
    {
        let (start, code) = (self.cursor.start(), end.as_byte());
        if self.cursor.advance(&mut self.source, Wanted::Until(code))? {
            let text = text_before(code, self.cursor.line_bytes());
            Ok(Some(ReadPart { start, text }))
        } else {
            Ok(None)
        }
    }

    /// Reads over the next line, or over the line at fault after `NotAscii`, `LoneBreak` or `TooLong`, up to its
    /// ending, and returns what was skipped; the next call then reads on. The line may have any bytes and any
    /// length up to `most` bytes, its ending included. If the input ends before its ending, it is skipped up to
    /// there.
    ///
    /// With `Endings::Any` a line ends at its first LF, with the other endings at its first CR LF: a CR or an LF
    /// by itself is skipped. The source is read only while no line ends in the bytes held, and not after a read that
    /// returned no bytes.
    ///
    /// - `TooLong` if the line has more than `most` bytes. The error has the position at which the call started.
    ///   These bytes were skipped, except a CR at their end that may belong to the ending; `skip_line` may be
    ///   called again and goes on from there. With a `most` of 0, or of 1 at a CR, nothing is skipped.
    /// - `TooFar` if the line has no ending before the position `u64::MAX`. The bytes before it were skipped.
    /// - `Read` if a call of the source failed, or `u64::MAX` calls have failed before. The bytes that had been
    ///   read of the line were skipped, except a CR at their end.
    ///
    /// After `None`, or a line or text without an ending, nothing is skipped. After `Read`, `TooFar` or `Incomplete` that
    /// error is returned again. Both change nothing.
    ///
    ///     let source = Input::new(b"ok\n\xffabcdef\nok2\n".as_slice());
    ///     let mut reader = LineReader::new(alloc, source, 5, Endings::Any)?;
    ///     reader.next_line() // Ok(Some(ReadLine { start: 0, text: "ok", ending: Lf }))
    ///     reader.next_line() // Err(NotAscii(3))
    ///     reader.skip_line(100) // Ok(SkippedLine { start: 3, length: 8, non_ascii: Some(3) })
    ///     reader.next_line() // Ok(Some(ReadLine { start: 11, text: "ok2", ending: Lf }))
    pub fn skip_line(&mut self, most: u64) -> Result<SkippedLine, LineError>
        ensures { Skips most self.old result self.new }
    {
        self.cursor.skip_line(&mut self.source, most)
    }
}

/// The line of bytes of which only the last one may end a line.
#[inline]
pub(crate) fn line_at(endings: Endings, start: u64, line: &[u8]) -> ReadLine<'_>
    requires ascii { IsAscii line.now }
    requires one { IsOneLine endings line.now }
    ensures line { LineSpansEndedBy endings start line.now (read_line_in result ∷ []) }
    ensures ended { IsFirstStop endings line.now (length line.now)
        → result.ending ≢ Ending.Absent }
{
    let (body, ending) = split_ending(endings, line);
    ReadLine {
        start,
        text: bytes::as_ascii_str_unchecked(body),
        ending,
    }
}

/// The text of bytes of which only the last one may be `code`.
fn text_before(code: u8, bytes: &[u8]) -> AsciiStr<'_>
    requires ascii { IsAscii bytes.now }
    requires one { IsOne (Until code) bytes.now }
    ensures { IsTextBefore code bytes.now (text_of result) }
{
    let text = match bytes.split_last() {
        Some((last, text)) if *last == code => text,
        _ => bytes,
    };
    bytes::as_ascii_str_unchecked(text)
}

/// The same of bytes of which some may not be ASCII, from the position after them.
fn bytes_at(endings: Endings, end: u64, line: &[u8]) -> ReadBytes<'_>
    requires one { IsOneLine endings line.now }
    requires inside { length line.now ≤ end }
    ensures { IsBytesAt endings (end - length line.now) line.now result }
{
    let start = end - line.len() as u64;
    let (body, ending) = split_ending(endings, line);
    let text = match bytes::as_ascii_str(body) {
        Ok(view) => Ok(view),
        Err(error) => Err(start + error.valid_up_to() as u64),
    };
    ReadBytes {
        start,
        bytes: body,
        text,
        ending,
    }
}
