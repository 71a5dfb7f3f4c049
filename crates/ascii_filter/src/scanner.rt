//! The non-ASCII bytes of an input of any length, with their lines and columns.

ghost use Rattle.std.specs.Prelude.{◌≡◌, ℕ, List, ◌+◌, ◌<◌, ◌≤◌, ◌^◌, ◌-◌, ◌++◌, ◌∷◌, [], IfOk};
ghost use Rattle.std.specs.Prelude.{length, MatchOption, None, Some, false, true};
ghost use Rattle.std.specs.Result.{OnOk};
ghost use Rattle.std.specs.Io.KnownBytes.{IsAtEnd};
ghost use Rattle.std.specs.declared.result.Result.TheVariants.{Ok};
ghost use Rattle.ascii_devices.specs.States.{Gives};
ghost use Rattle.ascii_filter.specs.Places.{FillOutcome, HeldNext, IsFresh, ScanOutcome};
ghost use Rattle.ascii_run.specs.Reading.{Counts};

use ascii::kernels::first_other;
use ascii_devices::{Source, zeros};
use ascii_formats::places::Place;
use ascii_run::BoundedFault;
use std::alloc::{AllocError, Allocator};
use std::marker::Model;

/// A non-ASCII byte and its place.
#[derive(Clone, Copy, PartialEq, Eq, Debug)]
pub struct OtherByte {
    pub place: Place,
    pub byte: u8,
}

/// How many bytes one read asks for.
const CHUNK: usize = 131_072;

/// A search for the non-ASCII bytes of an input.
#[derive(Drop)]
pub struct Scanner<A: Allocator> {
    /// The bytes that were read last, of which those from `start` to `end` were not passed.
    chunk: Vec<u8, A>,
    start: usize,
    end: usize,
    /// The place of the byte at `start`.
    place: Place,
    /// How many bytes may still be read.
    room: u64,
    /// Whether the end of the input was found.
    is_done: bool,
}

impl<A: Allocator> Model for Scanner<A> {
    ghost use Rattle.std.specs.Prelude.{◌≡◌, ◌+◌, ◌-◌, ◌<◌, ◌≤◌, ◌^◌, length, take, drop, true};
    ghost use Rattle.ascii_filter.specs.Places.{ScanState};

    ghost Value = { ScanState };

    ghost view = { λ scanner. record {
      place = scanner.place;
      held = take (scanner.end - scanner.start) (drop scanner.start scanner.chunk.items);
      room = scanner.room;
      is_done = scanner.is_done;
    } };

    ghost invariant = { λ scanner. (scanner.start ≤ scanner.end)
        × (scanner.end ≤ length scanner.chunk.items) × (0 < length scanner.chunk.items)
        × (1 ≤ scanner.place.column)
        × (scanner.place.line + scanner.place.column + (scanner.end - scanner.start) + scanner.room
        < 2 ^ 64) × (scanner.is_done ≡ true → scanner.start ≡ scanner.end) };
}

impl<A: Allocator> Scanner<A> {
    /// Creates a scanner at the start of an input.
    pub fn new(alloc: A) -> Result<Scanner<A>, AllocError>
        ensures { IfOk result IsFresh }
    {
        Ok(Scanner {
            chunk: zeros(alloc, CHUNK)?,
            start: 0,
            end: 0,
            place: Place { line: 1, column: 1 },
            room: u64::MAX - 2,
            is_done: false,
        })
    }

    /// Returns the next non-ASCII byte with its place, or `None` if there are none left, or an error. After
    /// `None` it keeps returning `None`, and reads no more.
    ///
    /// Condition: fewer than `u64::MAX` reads have failed.
    pub fn next<S: Source>(&mut self, reader: &mut S) -> Result<Option<OtherByte>, BoundedFault>
        requires { S.failures reader.old < u64.MAX }
        ensures outcome { (given : List ℕ) × (gives : Gives S.Source reader.old reader.new given)
            × ScanOutcome result self.old self.new given (IsAtEnd gives.rest) }
        ensures done { self.old.is_done ≡ true
            → (result ≡ Ok None) × (self.new ≡ self.old) × (reader.new ≡ reader.old) }
        ensures count { Counts BoundedFault.Read (S.failures reader.old) (S.failures reader.new)
            result }
    {
        if self.is_done {
            return Ok(None);
        }
        if let Some(other) = self.first_held() {
            return Ok(Some(other));
        }
        'chunks: loop {
            if let Some(other) = self.next_held() {
                return Ok(Some(other));
            }
            match self.fill(reader) {
                Ok(0) => {
                    self.is_done = true;
                    return Ok(None);
                }
                Ok(_) => {}
                Err(fault) => return Err(fault),
            }
        }
    }

    /// Returns the first byte of those that are held, if it is not ASCII. In some texts most bytes are not, and this
    /// takes less than a search.
    #[inline(always)]
    fn first_held(&mut self) -> Option<OtherByte>
        requires { self.old.is_done ≡ false }
        ensures { MatchOption result (self.new ≡ self.old)
            (λ found. HeldNext self.old self.new (Some found)) }
    {
        let byte = *self.chunk[self.start..self.end].first()?;
        if byte < 128 {
            return None;
        }
        let place = self.place;
        self.place = place.after_byte(byte);
        self.start += 1;
        Some(OtherByte { place, byte })
    }

    /// Returns the next non-ASCII byte of those that are held, or passes all of them.
    fn next_held(&mut self) -> Option<OtherByte>
        requires { self.old.is_done ≡ false }
        ensures { HeldNext self.old self.new result }
    {
        let held = &self.chunk[self.start..self.end];
        let Some(at) = first_other(held) else {
            self.place = self.place.after(held);
            self.start = self.end;
            return None;
        };
        let byte = held[at];
        let place = self.place.after(&held[..at]);
        self.place = place.after_byte(byte);
        self.start += at + 1;
        Some(OtherByte { place, byte })
    }

    /// Reads more bytes, and returns how many.
    fn fill<S: Source>(&mut self, reader: &mut S) -> Result<usize, BoundedFault>
        requires count { S.failures reader.old < u64.MAX }
        requires empty { self.old.held ≡ [] }
        requires not_done { self.old.is_done ≡ false }
        ensures outcome { (given : List ℕ) × (gives : Gives S.Source reader.old reader.new given)
            × FillOutcome result self.old self.new given (IsAtEnd gives.rest) }
        ensures count { Counts BoundedFault.Read (S.failures reader.old) (S.failures reader.new)
            result }
    {
        let Ok(n) = reader.read(&mut self.chunk) else {
            return Err(BoundedFault::Read);
        };
        let Some(room) = self.room.checked_sub(n as u64) else {
            self.start = 0;
            self.end = 0;
            return Err(BoundedFault::TooLong);
        };
        self.room = room;
        self.start = 0;
        self.end = n;
        Ok(n)
    }
}
