//! The modes of both engines and their names, over devices that give and take little or fail.

use crate::answer::{Answer, Made, Put};
use crate::devices::{Device, Given, Taken};
use crate::edits::commands;
use crate::steps::Step;
use ascii::AsciiStr;
use ascii::iter::End;
use ascii_run::{
    BoundedFault, BoundedMode, Cmd, EngineFault, Input, Mode, Output, Sink, Source, bounded_engine,
    engine,
};
use std::alloc::{AllocError, Global};

/// What `engine` returns, and what it wrote, unless an allocation failed and it wrote nothing. The number of a mode is
/// its index in the list of `Mode`, without `Edit`; the script is that of the two modes that have one.
pub fn ask_engine(
    alloc: Global,
    mode: u8,
    script: &[u8],
    source: &[u8],
    reads: &Device,
    writes: &Device,
    answer: &mut Answer,
) {
    if let Ok(script) = ends_of(alloc, script) {
        let mut input = Input::new(Given::new(source, *reads));
        let mut output = Output::new(Taken::new(alloc, *writes));
        let run = engine(alloc, mode_of(mode, &script, &[]), &mut input, &mut output);
        answer.put(run);
        let taken = output.into_inner();
        if run != Err(EngineFault::Memory) || !taken.bytes.is_empty() {
            answer.put(taken.bytes.as_slice());
        }
    } else {
        answer.put(AllocError);
    }
}

impl Put for EngineFault {
    fn put(self, answer: &mut Answer) {
        match self {
            EngineFault::NotAscii(position) => answer.put(("ascii", position)),
            EngineFault::Position(position) => answer.put(("position", position)),
            EngineFault::Memory => answer.put(AllocError),
            EngineFault::Read => answer.put("read"),
            EngineFault::Write => answer.put("write"),
        }
    }
}

pub(crate) fn ends_of(alloc: Global, script: &[u8]) -> Made<Vec<End>> {
    let mut ends = Vec::with_capacity(alloc, script.len())?;
    for number in script {
        ends.push(if *number == 0 { End::Front } else { End::Back })?;
    }
    Ok(ends)
}

fn mode_of<'a>(mode: u8, script: &'a [End], cmds: &'a [Cmd<'_>]) -> Mode<'a> {
    match mode {
        0 => Mode::Copy,
        1 => Mode::Lines,
        2 => Mode::Tac,
        3 => Mode::Caret,
        4 => Mode::Ends(script),
        5 => Mode::EndsSpans(script),
        6 => Mode::Json,
        _ => Mode::Edit(cmds),
    }
}

/// What `engine` returns at the first of two runs over the same devices, and how many reads and writes have failed; then
/// these for the second run, the number of calls of the writer, and what it took. The mode 7 is `Edit` with
/// these commands; the others are those of `ask_engine`.
pub fn ask_engine_runs(
    alloc: Global,
    mode: u8,
    script: &[u8],
    texts: AsciiStr,
    edits: &[Step],
    source: &[u8],
    reads: &Device,
    writes: &Device,
    answer: &mut Answer,
) {
    if let (Ok(script), Ok(cmds)) = (ends_of(alloc, script), commands(alloc, texts, edits)) {
        let mode = mode_of(mode, &script, &cmds);
        let mut input = Input::new(Given::new(source, *reads));
        let mut output = Output::new(Taken::new(alloc, *writes));
        for _ in 0..2 {
            if input.failures() < u64::MAX && output.failures() < u64::MAX {
                answer.put(engine(alloc, mode, &mut input, &mut output));
            }
            answer.put((input.failures(), output.failures()));
        }
        answer.put(output.into_inner());
    } else {
        answer.put(AllocError);
    }
}

/// What `bounded_engine` returns, how many reads and writes have failed, and what it wrote, unless an allocation failed
/// and it called no device. The number of a mode is its index in the list of `BoundedMode`.
pub fn ask_bounded_engine(
    alloc: Global,
    mode: u8,
    source: &[u8],
    reads: &Device,
    writes: &Device,
    answer: &mut Answer,
) {
    let mode = bounded_mode_of(mode);
    let mut input = Input::new(Given::new(source, *reads));
    let mut output = Output::new(Taken::new(alloc, *writes));
    let run = bounded_engine(alloc, mode, &mut input, &mut output);
    answer.put(run);
    let failures = (input.failures(), output.failures());
    let (given, taken) = (input.into_inner(), output.into_inner());
    if run != Err(BoundedFault::Memory) || given.calls > 0 || taken.calls > 0 {
        answer.put((failures, taken.bytes.as_slice()));
    }
}

impl Put for BoundedFault {
    fn put(self, answer: &mut Answer) {
        match self {
            BoundedFault::NotAscii(position) => answer.put(("ascii", position)),
            BoundedFault::TooLong => answer.put("long"),
            BoundedFault::Memory => answer.put(AllocError),
            BoundedFault::Read => answer.put("read"),
            BoundedFault::Write => answer.put("write"),
        }
    }
}

fn bounded_mode_of(mode: u8) -> BoundedMode {
    match mode {
        0 => BoundedMode::Copy,
        1 => BoundedMode::Lines,
        2 => BoundedMode::Caret,
        3 => BoundedMode::Json,
        4 => BoundedMode::Upper,
        5 => BoundedMode::Lower,
        _ => BoundedMode::Escape,
    }
}

/// The name of each bounded mode by its number, the names of `BoundedMode::all`, and that of each mode by its number;
/// and the names of the bounded mode and of the mode with the name `word`.
pub fn ask_mode_names(word: &[u8], answer: &mut Answer) {
    for number in 0..7 {
        answer.put(bounded_mode_of(number));
    }
    for mode in BoundedMode::all() {
        answer.put(*mode);
    }
    for number in 0..8 {
        put_mode(number, answer);
    }
    if let Ok(word) = str::from_utf8(word) {
        answer.put((BoundedMode::from_name(word), Mode::from_name(word)));
    }
}

fn put_mode(number: u8, answer: &mut Answer) {
    answer.put(mode_of(number, &[], &[]));
}

/// The name of a mode.
impl Put for BoundedMode {
    fn put(self, answer: &mut Answer) {
        answer.put(self.name());
    }
}

/// The name of a mode.
impl Put for Mode<'_> {
    fn put(self, answer: &mut Answer) {
        answer.put(self.name());
    }
}
