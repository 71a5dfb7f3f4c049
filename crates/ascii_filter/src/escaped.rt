//! Inputs of which each byte above 127 is read as its escape.

ghost use Rattle.std.specs.Prelude.{◌≡◌, ◌+◌, ◌*◌, ◌<◌, ◌≤◌, ◌++◌, [], length, option_map, take};
ghost use Rattle.std.specs.Char.{digit_char};
ghost use Rattle.std.specs.Io.{ReadsAtMost};
ghost use Rattle.std.specs.Io.KnownBytes.{ReadConsumes};
ghost use Rattle.std.specs.List.{flat_map, slice_range};
ghost use Rattle.ascii_filter.specs.Options.{escape_of, escaped};

use std::io;

/// How many bytes are read at a time at most.
const MOST: usize = 2_048;

/// A reader of which each byte above 127 is read as `\x` and two hexadecimal digits.
#[derive(Drop)]
pub struct Escaped<R: io::Read> {
    reader: R,
    /// What was read and did not fit: the characters from `start` to `end`.
    held: [u8; 4],
    start: usize,
    end: usize,
    ghost within: { (start ≤ end) × (end ≤ 4) },
}

impl<R: io::Read> Escaped<R> {
    /// Returns such a reader of the bytes of `reader`.
    pub fn new(reader: R) -> Escaped<R>
        ensures reader { result.reader ≡ reader }
        ensures empty { slice_range result.held result.start result.end ≡ [] }
    {
        Escaped {
            reader,
            held: [0; 4],
            start: 0,
            end: 0,
        }
    }

    /// Gives as many of the held characters as fit, and returns their number.
    fn give(&mut self, buf: &mut [u8]) -> usize
        ensures given { take result buf.new ++ slice_range self.new.held self.new.start self.new.end
            ≡ slice_range self.old.held self.old.start self.old.end }
        ensures some { result ≡ 0 → 0 < length buf.new → self.old.start ≡ self.old.end }
        ensures within { result ≤ length buf.new }
        ensures reader { self.new.reader ≡ self.old.reader }
    {
        let n = buf.len().min(self.end - self.start);
        buf[..n].copy_from_slice(&self.held[self.start..self.start + n]);
        self.start += n;
        n
    }
}

impl<R: io::Read> io::Read for Escaped<R> {
    ghost use Rattle.std.specs.Io.KnownBytes.{prepend_known};
    ghost use Rattle.std.specs.Prelude.{option_map};
    ghost use Rattle.std.specs.List.{flat_map, slice_range};
    ghost use Rattle.ascii_filter.specs.Options.{escaped};

    ghost remaining = { λ input. prepend_known (slice_range input.held input.start input.end)
        (option_map (flat_map escaped) (R.remaining input.reader)) };

    fn read(&mut self, buf: &mut [u8]) -> io::Result<usize> {
        if self.start < self.end {
            return Ok(self.give(buf));
        }
        if buf.len() >= self.held.len() {
            return read_escaped(&mut self.reader, buf);
        }
        let end = read_escaped(&mut self.reader, &mut self.held)?;
        self.start = 0;
        self.end = end;
        Ok(self.give(buf))
    }
}

/// Reads at most a quarter as many bytes as the buffer holds, and writes them there, those above 127 as their escapes.
fn read_escaped<R: io::Read>(reader: &mut R, buf: &mut [u8]) -> io::Result<usize>
    requires { 4 ≤ length buf.old }
    ensures bound { ReadsAtMost result buf.new }
    ensures bytes { ReadConsumes (option_map (flat_map escaped) (R.remaining reader.old))
        (option_map (flat_map escaped) (R.remaining reader.new)) result buf.new }
{
    let mut bytes = [0; MOST];
    let most = MOST.min(buf.len() / 4);
    let n = reader.read(&mut bytes[..most])?;
    Ok(escape_into(&bytes[..n], buf))
}

/// Writes bytes to the start of a buffer, those above 127 as their escapes, and returns the position after them.
fn escape_into(bytes: &[u8], buf: &mut [u8]) -> usize
    requires { 4 * length bytes.now ≤ length buf.old }
    ensures text { take result buf.new ≡ flat_map escaped bytes.now }
    ensures within { (result ≤ length buf.new) × (length bytes.now ≤ result) }
{
    let mut end = 0;
    for &byte in bytes {
        end = put(byte, buf, end);
    }
    end
}

/// Writes a byte to a position of a buffer, as its escape if it is above 127, and returns the position after it.
#[tactic(auto, unfolding(crate::specs::Options::escaped))]
fn put(byte: u8, buf: &mut [u8], at: usize) -> usize
    requires { at + 4 ≤ length buf.old }
    ensures text { take result buf.new ≡ take at buf.old ++ escaped byte }
    ensures end { (at < result) × (result ≤ at + 4) }
    ensures length { length buf.new ≡ length buf.old }
{
    if byte < 128 {
        buf[at] = byte;
        return at + 1;
    }
    buf[at..at + 4].copy_from_slice(&escape(byte));
    at + 4
}

/// Returns `\x` and the two hexadecimal digits of a byte.
fn escape(byte: u8) -> [u8; 4]
    ensures { result ≡ escape_of byte }
{
    [b'\\', b'x', hex_digit(byte / 16), hex_digit(byte % 16)]
}

/// Returns the lower-case hexadecimal digit of a number.
fn hex_digit(number: u8) -> u8
    requires { number < 16 }
    ensures { result ≡ digit_char number }
{
    if number < 10 {
        b'0' + number
    } else {
        b'a' + (number - 10)
    }
}
