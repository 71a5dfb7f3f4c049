//! The mode `check`: a line for each non-ASCII byte, or their number.

ghost use Rattle.std.specs.Prelude.{◌≡◌, ◌++◌, ◌+◌, ◌<◌, ◌≤◌, ℕ, List, drop, true};
ghost use Rattle.std.specs.Io.KnownBytes.{IsAtEnd};
ghost use Rattle.std.specs.declared.result.Result.TheVariants.{Err};
ghost use Rattle.ascii_devices.specs.Buffered.{AppendsTo, IsReady, MayFail, output_state};
ghost use Rattle.ascii_devices.specs.States.{Gives, Takes};
ghost use Rattle.std.specs.List.{flat_map};
ghost use Rattle.ascii_filter.specs.Checked.{IsWritten, LooksAt, check_output, place_text};
ghost use Rattle.ascii_filter.specs.Checked.{shown_count};
ghost use Rattle.ascii_filter.specs.Checked.{shown_place, upper_hex};
ghost use Rattle.ascii_filter.specs.Places.{IsFresh, others_of};
ghost use Rattle.ascii_filter.specs.declared.check.TheConstants.{LINE};

use crate::answer::Answer;
use crate::options::Check;
use crate::scanner::{OtherByte, Scanner};
use ascii_devices::{BufferedSink, Sink, Source};
use ascii_run::BoundedFault;
use itoa::{Buffer, write_digits};
use std::alloc::{Allocator, Global};

/// The size of the buffer before the output.
const SIZE: usize = 32_768;

/// Writes a line for each non-ASCII byte of an input, at most `check.most`, or one with their number,
/// and flushes them.
///
/// Condition: fewer than `u64::MAX` calls of the reader and of the writer have failed.
pub fn name_others<S: Source, K: Sink>(
    alloc: Global,
    check: Check,
    label: &[u8],
    reader: &mut S,
    writer: &mut K,
) -> Answer
    requires reads { S.failures reader.old < u64.MAX }
    requires writes { K.failures writer.old < u64.MAX }
    ensures outcome { (given took text : List ℕ)
        × (gives : Gives S.Source reader.old reader.new given)
        × Takes K.Sink writer.old writer.new took
        × LooksAt check result given (IsAtEnd gives.rest) text
        × IsWritten result (check_output check label.now result text) took
        (K.failures writer.old) (K.failures writer.new) }
    ensures read { result.outcome ≡ Err BoundedFault.Read
        → S.failures reader.new ≡ S.failures reader.old + 1 }
{
    let Ok(mut scanner) = Scanner::new(alloc) else {
        return Answer::out_of_memory();
    };
    let Ok(mut buffer) = BufferedSink::new(alloc, SIZE) else {
        return Answer::out_of_memory();
    };
    let answer = find_others(check, label, &mut scanner, reader, &mut buffer, writer);
    put_count(check, label, answer, &mut buffer, writer);
    let _ = buffer.finish(writer);
    answer
}

/// Looks for the non-ASCII bytes of an input, and appends what is shown of each. Stops early if a write
/// has failed.
fn find_others<S: Source, K: Sink, A: Allocator>(
    check: Check,
    label: &[u8],
    scanner: &mut Scanner<A>,
    reader: &mut S,
    buffer: &mut BufferedSink<A>,
    writer: &mut K,
) -> Answer
    requires fresh { IsFresh scanner.old }
    requires ready { IsReady buffer.old }
    requires reads { S.failures reader.old < u64.MAX }
    requires writes { K.failures writer.old < u64.MAX }
    ensures looks { (given text : List ℕ)
        × (gives : Gives S.Source reader.old reader.new given)
        × AppendsTo K.Sink writer.old buffer.old writer.new buffer.new
        (flat_map (shown_place check label.now) (others_of text))
        × LooksAt check result given (IsAtEnd gives.rest) text }
    ensures read { result.outcome ≡ Err BoundedFault.Read
        → S.failures reader.new ≡ S.failures reader.old + 1 }
    ensures write { result.outcome ≡ Err BoundedFault.Write → buffer.new.is_broken ≡ true }
{
    let mut found = 0;
    'others: while found < check.most {
        match scanner.next(reader) {
            Ok(None) => return Answer {
                found,
                outcome: Ok(()),
            },
            Ok(Some(other)) => {
                found += 1;
                put_place(check, label, other, buffer, writer);
                if buffer.is_broken() {
                    let outcome = Err(BoundedFault::Write);
                    return Answer { found, outcome };
                }
            }
            Err(fault) => {
                let outcome = Err(fault);
                return Answer { found, outcome };
            }
        }
    }
    Answer {
        found,
        outcome: Ok(()),
    }
}

/// Appends what is shown of a non-ASCII byte.
#[inline(always)]
fn put_place<K: Sink, A: Allocator>(
    check: Check,
    label: &[u8],
    other: OtherByte,
    buffer: &mut BufferedSink<A>,
    writer: &mut K,
)
    requires { MayFail (output_state K.Sink writer.old buffer.old) }
    ensures { AppendsTo K.Sink writer.old buffer.old writer.new buffer.new
        (shown_place check label.now other) }
{
    if check.is_count || check.is_quiet {
        return;
    }
    put_line(label, other, buffer, writer);
}

/// A line without its label, whose end is there except for the value of the byte.
const LINE: [u8; 64] = *b"                                                    : byte 0x00\n";

/// Where the end of a line begins, and where the two digits of its byte are.
const END: usize = 52;

const HIGH: usize = 61;

const LOW: usize = 62;

/// Appends the line of a non-ASCII byte.
#[inline(always)]
fn put_line<K: Sink, A: Allocator>(
    label: &[u8],
    other: OtherByte,
    buffer: &mut BufferedSink<A>,
    writer: &mut K,
)
    requires { MayFail (output_state K.Sink writer.old buffer.old) }
    ensures { AppendsTo K.Sink writer.old buffer.old writer.new buffer.new
        (label.now ++ place_text other) }
{
    let mut room = LINE;
    let start = write_place(other.place.line, other.place.column, other.byte, &mut room);
    buffer.put(writer, label);
    buffer.put(writer, &room[start..]);
}

/// Writes what is said of a non-ASCII byte to the end of `LINE`, and returns its start.
#[inline(always)]
fn write_place(line: u64, column: u64, byte: u8, room: &mut [u8; 64]) -> usize
    requires { room.old ≡ LINE }
    ensures within { result ≤ 64 }
    ensures text { drop result room.new ≡ place_text
        (record { place = record { line = line; column = column }; byte = byte }) }
{
    room[HIGH] = hex_digit(byte / 16);
    room[LOW] = hex_digit(byte % 16);
    let start = write_digits(column, room, END) - 1;
    room[start] = b':';
    write_digits(line, room, start)
}

/// The upper-case hexadecimal digit of a number.
#[inline(always)]
fn hex_digit(number: u8) -> u8
    requires { number < 16 }
    ensures { result ≡ upper_hex number }
{
    if number < 10 {
        b'0' + number
    } else {
        b'A' - 10 + number
    }
}

/// Appends what is shown at the end of an input.
fn put_count<K: Sink, A: Allocator>(
    check: Check,
    label: &[u8],
    answer: Answer,
    buffer: &mut BufferedSink<A>,
    writer: &mut K,
)
    requires { MayFail (output_state K.Sink writer.old buffer.old) }
    ensures { AppendsTo K.Sink writer.old buffer.old writer.new buffer.new
        (shown_count check label.now answer.found answer.outcome) }
{
    let Ok(()) = answer.outcome else {
        return;
    };
    if check.is_quiet {
        return;
    }
    if !check.is_count {
        return;
    }
    let mut number = Buffer::new();
    buffer.put(writer, label);
    buffer.put(writer, number.format(answer.found).as_bytes());
    buffer.put(writer, b"\n");
}
