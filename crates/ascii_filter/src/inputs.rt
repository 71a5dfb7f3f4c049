//! The task on one input: a file, or standard input.

ghost use Rattle.std.specs.Prelude.{◌≡◌, ◌+◌, ◌<◌, ℕ, List};
ghost use Rattle.std.specs.Io.KnownBytes.{Consumes, IsAtEnd};
ghost use Rattle.std.specs.declared.option.Option.{Option};
ghost use Rattle.std.specs.declared.result.Result.TheVariants.{Err};
ghost use Rattle.ascii_devices.specs.States.{Takes};
ghost use Rattle.ascii_devices.specs.Wrapped.{input_failures};
ghost use Rattle.ascii_filter.specs.Checked.{IsAnswer};
ghost use Rattle.ascii_filter.specs.Options.{given_to};
ghost use Rattle.ascii_filter.specs.Status.{IsFailureOf, IsVisit};
ghost use Rattle.ascii_filter.specs.declared.answer.Answer.{Answer};

use crate::answer::{Answer, run_task};
use crate::escaped::Escaped;
use crate::failure::{Failure, Verdict};
use crate::names::is_text;
use crate::options::{Other, Task};
use crate::replaced::Replaced;
use ascii_devices::{Input, Sink};
use ascii_run::BoundedFault;
use std::alloc::Global;
use std::fs::Metadata;
use std::os::unix::fs::MetadataExt;
use std::{fs, io};

/// The device and the number there of a regular file.
#[derive(Clone, Copy, PartialEq, Eq)]
pub struct FileId {
    device: u64,
    number: u64,
}

/// Which file this is, if it is a regular file.
fn id_of(file: io::Result<Metadata>) -> Option<FileId> {
    let metadata = file.ok()?;
    if !metadata.is_file() {
        return None;
    }
    Some(FileId {
        device: metadata.dev(),
        number: metadata.ino(),
    })
}

/// Which file the task writes to, if that is a regular file.
pub fn output_of(rt: &HostRuntime, task: Task) -> Option<FileId> {
    if task.is_quiet() {
        return None;
    }
    id_of(fs::metadata(rt, "/dev/stdout"))
}

/// Opens a file, or standard input for `-`, and carries out the task on it, unless it is the output.
pub fn run_file<K: Sink>(
    rt: &HostRuntime,
    task: Task,
    word: &str,
    label: &[u8],
    output: Option<FileId>,
    writer: &mut K,
) -> Verdict
    requires { K.failures writer.old < u64.MAX }
    ensures { (took : List ℕ) × Takes K.Sink writer.old writer.new took
        × IsVisit task label.now took (K.failures writer.old) (K.failures writer.new) result }
{
    if !is_text(word) {
        return Verdict::failed(Failure::NotUtf8);
    }
    if word == "-" {
        if output.is_some() && id_of(fs::metadata(rt, "/dev/stdin")) == output {
            return Verdict::failed(Failure::IsOutput);
        }
        return run_decoded(rt.alloc(), task, label, rt.reader(), writer);
    }
    match fs::open(rt, word) {
        Ok(file) if output.is_some() && id_of(file.metadata()) == output => {
            Verdict::failed(Failure::IsOutput)
        }
        Ok(file) => run_decoded(rt.alloc(), task, label, file, writer),
        Err(error) => Verdict::failed(Failure::Input(error)),
    }
}

/// Carries out the task on an input, of which each byte above 127 is read as the task says.
fn run_decoded<I: io::Read + Drop, K: Sink>(
    alloc: Global,
    task: Task,
    label: &[u8],
    input: I,
    writer: &mut K,
) -> Verdict
    requires { K.failures writer.old < u64.MAX }
    ensures { (given took : List ℕ) × (rest : Option (List ℕ)) × (answer : Answer)
        × Consumes (given_to task (I.remaining input)) rest given
        × Takes K.Sink writer.old writer.new took
        × IsAnswer task label.now answer given (IsAtEnd rest) took
        (K.failures writer.old) (K.failures writer.new)
        × (result.found ≡ answer.found) × IsFailureOf answer.outcome result.failure }
{
    match task.other() {
        Other::Stop => run_input(alloc, task, label, input, writer),
        Other::Replace => run_input(alloc, task, label, Replaced { reader: input }, writer),
        Other::Escape => run_input(alloc, task, label, Escaped::new(input), writer),
    }
}

/// Carries out the task on an input.
fn run_input<I: io::Read + Drop, K: Sink>(
    alloc: Global,
    task: Task,
    label: &[u8],
    input: I,
    writer: &mut K,
) -> Verdict
    requires { K.failures writer.old < u64.MAX }
    ensures { (given took : List ℕ) × (rest : Option (List ℕ)) × (answer : Answer)
        × Consumes (I.remaining input) rest given × Takes K.Sink writer.old writer.new took
        × IsAnswer task label.now answer given (IsAtEnd rest) took
        (K.failures writer.old) (K.failures writer.new)
        × (result.found ≡ answer.found) × IsFailureOf answer.outcome result.failure }
{
    let mut reader = Input::new(input);
    let answer = run_task(alloc, task, label, &mut reader, writer);
    let failure = failure_of(answer.outcome, reader);
    Verdict {
        found: answer.found,
        failure,
    }
}

/// Why an input is at fault, by the outcome of the task and the error that its reader keeps.
///
/// Condition: if the outcome is `Read`, a read has failed.
fn failure_of<I: io::Read + Drop>(
    outcome: Result<(), BoundedFault>,
    reader: Input<I>,
) -> Option<Failure>
    requires { outcome ≡ Err BoundedFault.Read → 0 < input_failures reader }
    ensures { IsFailureOf outcome result }
{
    match outcome {
        Ok(()) => None,
        Err(BoundedFault::NotAscii(position)) => Some(Failure::NotAscii(position)),
        Err(BoundedFault::TooLong) => Some(Failure::TooLong),
        Err(BoundedFault::Memory) => Some(Failure::Memory),
        Err(BoundedFault::Read | BoundedFault::Write) => match reader.into_error() {
            Some(error) => Some(Failure::Input(error)),
            None => None,
        },
    }
}
