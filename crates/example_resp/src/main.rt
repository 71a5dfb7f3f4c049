//! Answers the requests of standard input as a store over a RESP-like protocol does, on standard output. Why the
//! session ended goes to standard error.
#![tactic(auto)]

mod commands;
mod conversing;
mod replies;
mod session;
mod store;
mod words;

use ascii_lines::{Duplex, Ending, Endings, LineChannel, LineError, Stop};
use conversing::converse;
use session::Session;
use std::process::ExitCode;
use std::{env, io};

/// How the program is called.
const USAGE: &str =
    "usage: example_resp\nAnswers the requests of standard input as a store does, on standard output.\nStatus 64: wrong usage; 74: a read or a write failed.";

/// The status of wrong arguments.
const WRONG_USAGE: u8 = 64;

/// The status if a read or a write of the streams failed.
const FAILED: u8 = 74;

fn main(rt: HostRuntime) -> io::Result<ExitCode> {
    match env::args(&rt)?.nth(1) {
        Some(word) if word.as_str() == "--help" => {
            println!(rt; "{USAGE}")?;
            Ok(ExitCode::SUCCESS)
        }
        Some(_) => {
            eprintln!(rt; "{USAGE}")?;
            Ok(ExitCode::from(WRONG_USAGE))
        }
        None => serve_client(&rt),
    }
}

/// Answers the client of the standard streams, and returns the status.
fn serve_client(rt: &HostRuntime) -> io::Result<ExitCode> {
    let alloc = rt.alloc();
    let device = Duplex::new(rt.stdin(), rt.stdout());
    let mut lines = LineChannel::new(alloc, device, 65_536, Endings::CrLfStrict, Ending::CrLf)?;
    let mut session = Session::new(alloc);
    report_stop(rt, converse(&mut lines, &mut session))
}

/// Says why a session ended, and returns the status.
fn report_stop(rt: &HostRuntime, stop: Stop) -> io::Result<ExitCode> {
    eprintln!(rt; "{stop:?}")?;
    match stop {
        Stop::Writer | Stop::Reader(LineError::Read) => Ok(ExitCode::from(FAILED)),
        _ => Ok(ExitCode::SUCCESS),
    }
}
