//! `ascii_filter MODE [FILE..]`: files or standard input of any length, in one of several modes, to standard output.
#![tactic(auto)]

ghost use Rattle.std.specs.Prelude.{IfOk, map};
ghost use Rattle.ascii_filter.specs.Status.{VisitsAll};

mod answer;
mod check;
mod escaped;
mod failure;
mod inputs;
mod names;
mod options;
mod quoted;
mod replaced;
mod scanner;

use ascii_devices::{Output, Sink, zeros};
use clap::error::ErrorKind;
use clap::{ArgMatches, Error};
use inputs::{output_of, run_file};
use names::{is_text, label_of, make_plain, name_of, shown_name, word_of};
use options::{Task, command, mode_names, options_of, task_of};
use std::alloc::AllocError;
use std::env::{Env, FillError};
use std::process::ExitCode;
use std::{fmt, io};

/// How many arguments leave less of the stack than a call takes.
const MANY: usize = 4_000;

/// The most bytes of stack that a call takes, with room to spare.
const STACK: usize = 65_536;

/// How much memory is asked for before the stack grows: enough that the system takes it back when it is freed.
const PROBE: usize = 262_144;

/// Writes a line to standard error that says what is wrong with an input or the output, in one write.
fn report<D: fmt::Display>(rt: &HostRuntime, name: &[u8], why: &D) -> Result<(), AllocError> {
    let mut line = Vec::from_slice(rt.alloc(), b"ascii_filter: ")?;
    line.extend_from_slice(name)?;
    let end = format!(in rt.alloc(); ": {why}\n")?;
    line.extend_from_slice(end.as_bytes())?;
    let _ = io::Write::write_all(&mut rt.stderr(), &line);
    Ok(())
}

/// Carries out the task on each file in order, and returns the highest status. Stops if the output
/// failed, and after the first file with a non-ASCII byte if nothing is to be written.
fn run_each<K: Sink>(
    rt: &HostRuntime,
    task: Task,
    files: &[&str],
    arguments: &[Vec<u8>],
    writer: &mut K,
) -> Result<u8, AllocError>
    ensures { let words = map (λ file. file.now) files.now in
        IfOk result (VisitsAll K.Sink task words writer.old writer.new) }
{
    let output = output_of(rt, task);
    let mut status = 0;
    for &word in files {
        if writer.failures() > 0 {
            return Ok(status);
        }
        let name = name_of(word, arguments);
        let shown = shown_name(rt.alloc(), word, name)?;
        let label = label_of(rt.alloc(), task.is_null(), name, &shown)?;
        let verdict = run_file(rt, task, word, &label, output, writer);
        status = status.max(verdict.status());
        if let Some(failure) = verdict.failure {
            report(rt, &shown, &failure)?;
        }
        if verdict.found > 0 && task.is_quiet() {
            return Ok(status);
        }
    }
    Ok(status)
}

/// Carries out the task on each file, and returns the highest status: that of an output that failed is
/// 3, but one whose pipe is closed counts as nothing.
fn run_files(
    rt: &HostRuntime,
    task: Task,
    files: &[&str],
    arguments: &[Vec<u8>],
) -> Result<u8, AllocError> {
    let mut writer = Output::new(io::writer(rt));
    let status = run_each(rt, task, files, arguments, &mut writer)?;
    match writer.into_error() {
        Some(error) if error.kind() != io::ErrorKind::BrokenPipe => {
            report(rt, b"(standard output)", &error)?;
            Ok(3)
        }
        _ => Ok(status),
    }
}

/// Writes a line to standard error, and returns the status of a fault in the arguments.
fn refuse(rt: &HostRuntime, line: &str) -> u8 {
    let _ = io::Write::write_all(&mut rt.stderr(), line.as_bytes());
    2
}

/// Prints the help or the version, or why the arguments are not a call, in plain text; and returns the status.
fn print_error(rt: &HostRuntime, error: &Error) -> Result<u8, AllocError> {
    if !error.use_stderr() {
        let _ = error.print(rt);
        return Ok(0);
    }
    let mut text = format!(in rt.alloc(); "{error}")?.into_bytes();
    make_plain(&mut text);
    let _ = io::Write::write_all(&mut rt.stderr(), &text);
    Ok(2)
}

/// Runs the arguments that were parsed.
fn run_matches(
    rt: &HostRuntime,
    matches: &ArgMatches<'_>,
    arguments: &[Vec<u8>],
) -> Result<u8, AllocError> {
    let files = matches.get_strs("FILE").unwrap_or_default();
    match task_of(options_of(matches)) {
        Ok(task) => run_files(rt, task, files, arguments),
        Err(line) => Ok(refuse(rt, line)),
    }
}

/// What is said of an argument that is not text.
const NOT_TEXT: &str = "ascii_filter: an argument is not valid UTF-8\n";

/// Returns `true` if an argument that begins with `-`, before any `--`, is not valid UTF-8. Its word does not begin with `-`,
/// so the parser would take it for a file.
fn has_option_without_text(words: &[String], arguments: &[Vec<u8>]) -> bool {
    let mut options = words
        .iter()
        .zip(arguments)
        .take_while(|(word, _)| word.as_str() != "--");
    options.any(|(word, argument)| !is_text(word) && argument.first() == Some(&b'-'))
}

/// Parses the arguments, before any input is read, and runs them.
fn run_words(rt: &HostRuntime, words: &[String], arguments: &[Vec<u8>]) -> Result<u8, AllocError> {
    if has_option_without_text(words, arguments) {
        return Ok(refuse(rt, NOT_TEXT));
    }
    let names = mode_names(rt.alloc())?;
    match command(rt.alloc(), &names)?.try_get_matches_from(words) {
        Ok(matches) => run_matches(rt, &matches, arguments),
        Err(error) if matches!(error.kind(), ErrorKind::OutOfMemory) => Err(AllocError),
        Err(_) if words.iter().any(|word| !is_text(word)) => Ok(refuse(rt, NOT_TEXT)),
        Err(error) => print_error(rt, &error),
    }
}

/// How many bytes of an argument are asked for first.
const ROOM: usize = 256;

/// Reads the arguments of the system.
fn read_arguments(rt: &HostRuntime) -> Result<Vec<Vec<u8>>, AllocError> {
    let mut room = zeros(rt.alloc(), ROOM)?;
    let mut arguments = Vec::new(rt.alloc());
    for _ in 0..u64::MAX {
        match rt.arg(arguments.len(), &mut room) {
            Ok(n) => arguments.push(Vec::from_slice(rt.alloc(), &room[..n])?)?,
            Err(FillError::TooLong) => room = zeros(rt.alloc(), room.len().saturating_mul(2))?,
            Err(FillError::NotPresent) => break,
        }
    }
    Ok(arguments)
}

/// Lets the stack grow to what a call takes, or returns an error if there is less memory. The system sets 128 KiB aside
/// for it, of which an argument takes 8 bytes: with many arguments the stack has to grow, which ends the program by a
/// signal if the heap has taken all memory before.
fn grow_stack(rt: &HostRuntime) -> Result<(), AllocError> {
    let probe: Vec<u8> = Vec::with_capacity(rt.alloc(), PROBE)?;
    drop(probe);
    touch_stack(rt);
    Ok(())
}

/// Writes to as much of the stack as a call takes.
#[inline(never)]
fn touch_stack(rt: &HostRuntime) {
    let mut room = [0; STACK];
    let _ = rt.arg(0, &mut room);
}

/// Reads the arguments of the system and runs them.
fn run(rt: &HostRuntime) -> Result<u8, AllocError> {
    if !matches!(rt.arg(MANY, &mut []), Err(FillError::NotPresent)) {
        grow_stack(rt)?;
    }
    let arguments = read_arguments(rt)?;
    let mut words = Vec::new(rt.alloc());
    for (index, argument) in arguments.iter().enumerate() {
        words.push(word_of(rt.alloc(), index, argument)?)?;
    }
    run_words(rt, &words, &arguments)
}

fn main(rt: HostRuntime) -> ExitCode {
    match run(&rt) {
        Ok(status) => ExitCode::from(status),
        Err(_) => {
            let _ = io::Write::write_all(&mut rt.stderr(), b"ascii_filter: no memory\n");
            ExitCode::from(3)
        }
    }
}
