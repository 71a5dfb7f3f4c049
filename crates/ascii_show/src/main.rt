//! `ascii_show MODE [..]`: standard input, in one of several modes, to standard output.
#![tactic(auto)]

ghost use Rattle.std.specs.Prelude.{◌≡◌, ◌<◌, Result};
ghost use Rattle.ascii_run.specs.Wrapped.{output_failures, writer_of};
ghost use Rattle.ascii_show.specs.Answer.{MayReturn, Writes};
ghost use Rattle.ascii_show.specs.Call.{words_of};
ghost use Rattle.ascii_show.specs.Status.{status_of};

mod arguments;
mod failure;
mod modes;
mod os_args;

use arguments::parse_args;
use arrayvec::ArrayString;
use ascii_run::{EngineFault, Input, Output, engine};
use failure::Failure;
use os_args::OsArgs;
use std::alloc::{AllocError, Allocator};
use std::fmt::Write as _;
use std::io;
use std::process::ExitCode;

/// Runs the arguments after the program's name: reads `input`, writes `output`, and if that fails
/// writes one line to `errors`. Returns the status: 0 for success, 1 for input that is not ASCII, 2
/// for a fault in the arguments, 3 for a failed allocation or device. A failure of `errors` does
/// not change the status.
pub fn show<A: Allocator + Copy, I: io::Read + Drop, O: io::Write + Drop, E: io::Write + Drop>(
    alloc: A,
    args: &[&str],
    input: I,
    output: O,
    errors: E,
) -> u8
    ensures { (answer : Result (Unit {0}) Failure)
        × MayReturn (words_of args.now) (I.remaining input) answer
        × (result ≡ status_of answer) }
{
    match run_args(alloc, args, input, &mut Output::new(output)) {
        Ok(()) => 0,
        Err(failure) => report(failure, errors),
    }
}

/// More bytes than the message of a failure has.
const LINE: usize = 128;

/// Writes the message of a failure in one write, and returns its status. Does not allocate.
fn report<E: io::Write + Drop>(failure: Failure, mut errors: E) -> u8
    ensures { result ≡ status_of (Err failure) }
{
    let mut line = ArrayString::<LINE>::new();
    if writeln!(line, "{failure}").is_ok() {
        let _ = errors.write_all(line.as_bytes());
    }
    failure.status()
}

/// Parses the arguments before any input is read.
fn run_args<A: Allocator + Copy, I: io::Read + Drop, O: io::Write + Drop>(
    alloc: A,
    args: &[&str],
    input: I,
    output: &mut Output<O>,
) -> Result<(), Failure>
    requires { output_failures output.old < u64.MAX }
    ensures answer { MayReturn (words_of args.now) (I.remaining input) result }
    ensures output { Writes (words_of args.now) (I.remaining input) result
        (O.contents (writer_of output.old)) (O.contents (writer_of output.new)) }
{
    let request = parse_args(alloc, args)?;
    engine(alloc, request.mode(), &mut Input::new(input), output)?;
    Ok(())
}

/// Runs the arguments after the program's name over the standard streams.
fn show_args(rt: &HostRuntime) -> Result<u8, AllocError> {
    let os_args = OsArgs::read(rt)?;
    let args = os_args.views(rt.alloc())?;
    Ok(show(rt.alloc(), &args, rt.reader(), io::writer(rt), rt.stderr()))
}

fn main(rt: HostRuntime) -> ExitCode {
    let status = match show_args(&rt) {
        Ok(status) => status,
        Err(_) => report(Failure::Engine(EngineFault::Memory), rt.stderr()),
    };
    ExitCode::from(status)
}
