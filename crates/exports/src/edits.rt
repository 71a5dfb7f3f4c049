//! Runs of commands over both string types, and capacities.

use crate::answer::{Answer, Made, Put};
use crate::slices::range_of;
use crate::steps::Step;
use ascii::{AsciiChar, AsciiStr, AsciiString};
use ascii_run::{AsciiBuf, Cmd, Reply, SmallAsciiString, run};
use std::alloc::{AllocError, Global};

/// The replies to commands, and the text after them, of a string or an inline string. The kind of a step is the
/// index of its command in the list of `Cmd`.
pub fn ask_edits(
    alloc: Global,
    is_small: bool,
    source: AsciiStr,
    texts: AsciiStr,
    steps: &[Step],
    answer: &mut Answer,
) {
    let Ok(cmds) = commands(alloc, texts, steps) else {
        return answer.put(AllocError);
    };
    if is_small {
        let small = SmallAsciiString::from_ascii_str(alloc, source);
        put_run(alloc, small, &cmds, answer);
    } else {
        put_run(alloc, source.to_ascii_string(alloc), &cmds, answer);
    }
}

fn put_run<B: AsciiBuf + Drop>(
    alloc: Global,
    made: Made<B>,
    cmds: &[Cmd<'_>],
    answer: &mut Answer,
) {
    let Ok(mut buf) = made else {
        return answer.put(AllocError);
    };
    answer.put_result(run(alloc, &mut buf, cmds));
    answer.put(buf.as_ascii_str());
}

pub(crate) fn commands<'a>(
    alloc: Global,
    texts: AsciiStr<'a>,
    steps: &[Step],
) -> Made<Vec<Cmd<'a>>> {
    let mut cmds = Vec::with_capacity(alloc, steps.len())?;
    for step in steps {
        cmds.push(command(*step, texts))?;
    }
    Ok(cmds)
}

fn command<'a>(step: Step, texts: AsciiStr<'a>) -> Cmd<'a> {
    let ch = AsciiChar::from_ascii(step.code).ok().unwrap_or_default();
    match step.kind {
        0 => Cmd::Push(ch),
        1 => Cmd::PushStr(step.text(texts)),
        2 => Cmd::Insert(step.at, ch),
        3 => Cmd::InsertStr(step.at, step.text(texts)),
        4 => Cmd::Remove(step.at),
        5 => Cmd::Pop,
        6 => Cmd::Truncate(step.at),
        7 => Cmd::Clear,
        8 => Cmd::Set(step.at, ch),
        9 => Cmd::Upper,
        10 => Cmd::Lower,
        11 => Cmd::Reserve(step.at),
        12 => Cmd::Shrink,
        13 => Cmd::Len,
        14 => Cmd::First,
        15 => Cmd::Last,
        16 => Cmd::Get(step.at),
        17 => Cmd::Copy(range_of(step.code, step.start, step.end)),
        _ => Cmd::EqIgnoreCase(step.text(texts)),
    }
}

impl Put for Reply {
    fn put(self, answer: &mut Answer) {
        match self {
            Reply::Done => answer.put("done"),
            Reply::Char(ch) => answer.put(ch),
            Reply::Number(number) => answer.put(number),
            Reply::Truth(holds) => answer.put(holds),
            Reply::Text(text) => answer.put(text),
            Reply::BadPosition => answer.put("position"),
            Reply::Refused(error) => answer.put(("ascii", error)),
            Reply::NoMemory => answer.put("memory"),
            Reply::TooMany => answer.put("many"),
        }
    }
}

/// The capacity of an empty string that was created with room for `capacity` bytes; then for each command its
/// reply and the capacity. A step of the kind 19 reserves exactly.
pub fn ask_capacities(
    alloc: Global,
    capacity: usize,
    texts: AsciiStr,
    steps: &[Step],
    answer: &mut Answer,
) {
    let Ok(mut string) = AsciiString::with_capacity(alloc, capacity) else {
        return answer.put(AllocError);
    };
    answer.put(string.capacity());
    for step in steps {
        if step.kind == 19 {
            reserve_exactly(&mut string, step.at, answer);
        } else {
            answer.put_result(run(alloc, &mut string, &[command(*step, texts)]));
        }
        answer.put(string.capacity());
    }
}

fn reserve_exactly(string: &mut AsciiString, additional: usize, answer: &mut Answer) {
    if additional > usize::MAX - string.len() {
        return answer.put("many");
    }
    answer.put(string.reserve_exact(additional).map_err(|_| "memory"));
}

/// Whether an inline string is inline and its capacity; then for each command its reply, and those again.
pub fn ask_small_capacities(
    alloc: Global,
    source: AsciiStr,
    texts: AsciiStr,
    steps: &[Step],
    answer: &mut Answer,
) {
    let Ok(mut small) = SmallAsciiString::from_ascii_str(alloc, source) else {
        return answer.put(AllocError);
    };
    answer.put((small.is_inline(), small.capacity()));
    for step in steps {
        answer.put_result(run(alloc, &mut small, &[command(*step, texts)]));
        answer.put((small.is_inline(), small.capacity()));
    }
}
