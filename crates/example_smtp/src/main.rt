//! Receives mail over an SMTP-like protocol, on standard input and output. Why the session ended, and how
//! many messages were received, goes to standard error.
#![tactic(auto)]

mod commands;
mod folder;
mod mailbox;
mod message;
mod paths;
mod receiving;
mod session;
mod system;

use ascii_lines::{AsciiStr, Duplex, Ending, Endings, LineChannel, LineError, Stop, WriteError};
use mailbox::Mailbox;
use receiving::receive;
use session::Session;
use std::process::ExitCode;
use std::{env, io};
use system::SystemFolder;

/// How the program is called.
const USAGE: &str =
    "usage: example_smtp [FOLDER]\nReceives mail over standard input and output, and stores it in FOLDER, a Maildir.\nStatus 64: wrong usage; 73: FOLDER cannot be used; 74: a read or a write failed.";

/// The status of wrong arguments.
const WRONG_USAGE: u8 = 64;

/// The status if the folder cannot be used.
const CANNOT_CREATE: u8 = 73;

/// The status if a read or a write of the streams failed.
const FAILED: u8 = 74;

fn main(rt: HostRuntime) -> io::Result<ExitCode> {
    let mut words = env::args(&rt)?;
    let Some(word) = words.nth(1) else {
        return serve_client(&rt, None);
    };
    let path = word.as_str();
    if path == "--help" {
        println!(rt; "{USAGE}")?;
        return Ok(ExitCode::SUCCESS);
    }
    if path.starts_with("-") || words.next().is_some() {
        eprintln!(rt; "{USAGE}")?;
        return Ok(ExitCode::from(WRONG_USAGE));
    }
    match SystemFolder::open(&rt, path) {
        Ok(folder) => serve_client(&rt, Some(Mailbox::new(folder))),
        Err(error) => {
            eprintln!(rt; "{path}: {error}")?;
            Ok(ExitCode::from(CANNOT_CREATE))
        }
    }
}

/// Receives mail from the client of the standard streams, and returns the status.
fn serve_client(
    rt: &HostRuntime,
    mailbox: Option<Mailbox<SystemFolder<'_>>>,
) -> io::Result<ExitCode> {
    let device = Duplex::new(rt.stdin(), rt.stdout());
    let mut lines = LineChannel::new(rt.alloc(), device, 4096, Endings::CrLfStrict, Ending::CrLf)?;
    let mut session = Session::new(rt.alloc(), mailbox);
    if let Err(error) = lines.greet(AsciiStr::literal("220 ready")) {
        return report_error(rt, error);
    }
    let stop = receive(&mut lines, &mut session);
    report_stop(rt, stop, session.message_count())
}

/// Says why the client could not be greeted, and returns the status.
fn report_error(rt: &HostRuntime, error: WriteError) -> io::Result<ExitCode> {
    eprintln!(rt; "{error}")?;
    Ok(ExitCode::from(FAILED))
}

/// Says why a session ended and how many messages it received, and returns the status.
fn report_stop(rt: &HostRuntime, stop: Stop, count: usize) -> io::Result<ExitCode> {
    eprintln!(rt; "{stop:?}, {count} messages")?;
    match stop {
        Stop::Writer | Stop::Reader(LineError::Read) => Ok(ExitCode::from(FAILED)),
        _ => Ok(ExitCode::SUCCESS),
    }
}
