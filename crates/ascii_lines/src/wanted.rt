//! What a reader is asked for, and the search for it in a buffer.

ghost use Rattle.std.specs.Prelude.{◌≡◌, ◌≤◌, IfErr, IfOk, MatchOption, OnOk, length};
ghost use Rattle.ascii_devices.specs.States.{source_state};
ghost use Rattle.ascii_lines.specs.LineReader.{FindsEnd, IsLookedFor, Looks, TakesOff, window_at};
ghost use Rattle.ascii_lines.specs.Wanted.{EndsAt, LacksUpTo, Refuses};
ghost use Rattle.ascii_lines.specs.Wanted.{FindsFault, IsEndOf, IsRefusal, IsSearched, IsUnfit};
ghost use Rattle.ascii_lines.specs.Wanted.{KnowsEnd, MayFit};
ghost use Rattle.ascii_lines.specs.declared.wanted.Wanted.TheVariants.{Until};

use crate::line_buffer::LineBuffer;
use crate::line_reader::LineError;
use ascii::endings::{find_end, lone_break};
use ascii::iter::Endings;
use ascii_devices::Source;
use memchr::memchr;
use std::alloc::Allocator;

/// Which bytes may be in what is asked for.
#[derive(Clone, Copy)]
pub(crate) enum Content {
    /// ASCII alone.
    Text,
    /// Any.
    Any,
}

/// What a reader is asked for.
#[derive(Clone, Copy)]
pub(crate) enum Wanted {
    /// The next line by these endings.
    Line(Endings, Content),
    /// The next part, of this number of bytes.
    Part(usize, Content),
    /// The next text up to this code.
    Until(u8),
}

/// Where what is wanted is in a buffer.
#[derive(Clone, Copy)]
pub(crate) struct Found {
    /// The number of its bytes, which are the first.
    pub(crate) count: usize,
    /// The position after them.
    pub(crate) end: u64,
    /// Whether they are all that were left of the input, and what is wanted does not end in them.
    pub(crate) is_last: bool,
}

/// Takes what is wanted off the buffer, or all bytes if it is not among them, and reads the source before if it has to.
/// Returns the position after them, and whether the source has ended. Each byte is searched once.
pub(crate) fn take_wanted<S: Source, A: Allocator>(
    buffer: &mut LineBuffer<A>,
    source: &mut S,
    wanted: Wanted,
    start: u64,
) -> Result<(u64, bool), LineError>
    requires { KnowsEnd buffer.old.is_at_end (S.rest source.old) }
    ensures ok { IfOk result (λ taken. TakesOff wanted start buffer.old buffer.new
        (source_state S.Source source.old) (source_state S.Source source.new) taken.0 taken.1) }
    ensures err { IfErr result (Refuses wanted start buffer.old.size buffer.old.held
        buffer.old.is_at_end buffer.new.is_at_end (source_state S.Source source.old)
        (source_state S.Source source.new) buffer.new.held) }
    ensures size { buffer.new.size ≡ buffer.old.size }
{
    let mut searched = 0;
    'fills: loop {
        let is_ended = buffer.is_at_end();
        if let Some(found) = look(buffer, wanted, start, is_ended, searched)? {
            buffer.take(found.count);
            return Ok((found.end, found.is_last));
        }
        searched = buffer.len();
        let Ok(()) = buffer.fill(source) else {
            return Err(LineError::Read);
        };
    }
}

/// Looks for what is wanted among the bytes of a buffer, of which the first `searched` were searched. Returns where it
/// is, or `None` if more bytes have to come.
#[inline]
pub(crate) fn look<A: Allocator>(
    buffer: &LineBuffer<A>,
    wanted: Wanted,
    start: u64,
    is_ended: bool,
    searched: usize,
) -> Result<Option<Found>, LineError>
    requires { IsLookedFor wanted start buffer.now searched }
    ensures { Looks wanted start (window_at is_ended buffer.now) result }
{
    may_fit(wanted, start, buffer.size())?;
    let text = buffer.usable(wanted);
    if let Some(n) = find(wanted, text, searched) {
        return look_at(buffer, wanted, start, is_ended, n, false);
    }
    if text.len() < buffer.len() {
        return Err(refusal(start, text.len(), buffer.size()));
    }
    if is_ended {
        return look_at(buffer, wanted, start, is_ended, text.len(), true);
    }
    Ok(None)
}

/// The place of the first `n` bytes, or why they are not what is wanted.
#[inline]
fn look_at<A: Allocator>(
    buffer: &LineBuffer<A>,
    wanted: Wanted,
    start: u64,
    is_ended: bool,
    n: usize,
    is_last: bool,
) -> Result<Option<Found>, LineError>
    requires { FindsEnd wanted (window_at is_ended buffer.now) n is_last }
    ensures { Looks wanted start (window_at is_ended buffer.now) result }
{
    let end = end_of(wanted, start, buffer.front(n), is_last)?;
    Ok(Some(Found {
        count: n,
        end,
        is_last,
    }))
}

/// The number of bytes up to the end of what is wanted. It is not among the first `searched`.
#[inline]
fn find(wanted: Wanted, text: &[u8], searched: usize) -> Option<usize>
    requires within { searched ≤ length text.now }
    requires searched { IsSearched wanted text.now searched }
    ensures { MatchOption result (LacksUpTo wanted text.now (length text.now))
        (λ n. (n ≤ length text.now) × EndsAt wanted text.now n) }
{
    match wanted {
        Wanted::Line(endings, _) => find_end(endings, text, searched),
        Wanted::Part(count, _) => (count <= text.len()).then_some(count),
        Wanted::Until(code) => find_code(code, text, searched),
    }
}

/// The number of bytes up to the first `code`, with it. It is not among the first `searched`.
#[inline]
fn find_code(code: u8, text: &[u8], searched: usize) -> Option<usize>
    requires within { searched ≤ length text.now }
    requires searched { LacksUpTo (Until code) text.now searched }
    ensures { MatchOption result (LacksUpTo (Until code) text.now (length text.now))
        (λ n. (n ≤ length text.now) × EndsAt (Until code) text.now n) }
{
    match memchr(code, &text[searched..]) {
        Some(place) => Some(searched + place + 1),
        None => None,
    }
}

/// Rejects a part that does not fit in a buffer of this size, or ends too far.
#[inline]
fn may_fit(wanted: Wanted, start: u64, size: usize) -> Result<(), LineError>
    ensures ok { OnOk result (MayFit wanted start size) }
    ensures err { IfErr result (IsUnfit wanted start size) }
{
    let Wanted::Part(count, _) = wanted else {
        return Ok(());
    };
    if count > size {
        return Err(LineError::TooLong(start));
    }
    match start.checked_add(count as u64) {
        Some(_) => Ok(()),
        None => Err(LineError::TooFar),
    }
}

/// The position after the bytes of what is wanted, or why they are not given. If it is not among
/// them, they are the last of the input.
#[inline]
fn end_of(wanted: Wanted, start: u64, bytes: &[u8], is_last: bool) -> Result<u64, LineError>
    ensures { IsEndOf wanted start bytes.now is_last result }
{
    if let Wanted::Part(..) = wanted
        && is_last
    {
        return Err(LineError::Incomplete(bytes.len()));
    }
    let Some(end) = start.checked_add(bytes.len() as u64) else {
        return Err(LineError::TooFar);
    };
    match find_lone_break(wanted, bytes) {
        Some(place) => Err(LineError::LoneBreak(start + place as u64)),
        None => Ok(end),
    }
}

/// The position of a lone CR or LF that is a fault among the last two of `bytes`.
#[inline]
fn find_lone_break(wanted: Wanted, bytes: &[u8]) -> Option<usize>
    ensures { FindsFault wanted bytes.now result }
{
    match wanted {
        Wanted::Line(endings, _) => lone_break(endings, bytes),
        Wanted::Part(..) | Wanted::Until(_) => None,
    }
}

/// The error of bytes that do not fit in a buffer of this size, or of which the one at `place` is not
/// ASCII.
fn refusal(start: u64, place: usize, size: usize) -> LineError
    ensures { IsRefusal start place size result }
{
    if place == size {
        return LineError::TooLong(start);
    }
    match start.checked_add(place as u64) {
        Some(at) => LineError::NotAscii(at),
        None => LineError::TooFar,
    }
}
