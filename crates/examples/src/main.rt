//! `examples NAME`: runs the example NAME over the standard streams. Each other file of this folder is a whole program.
#![tactic(auto)]

mod events;
mod head;
mod host;
mod ini;
mod keys;
mod lines;
mod nmea;
mod pager;
mod paths;
mod register;
mod seen;
mod spell;
mod syslog;
mod tally;
mod tokens;
mod uniq;

use std::env::Env;
use std::io;
use std::process::ExitCode;

/// Runs the example that the first argument names. If it names none, prints the usage and returns the status 64.
fn main(rt: HostRuntime) -> io::Result<ExitCode> {
    let mut name = [0; 16];
    let length = rt.arg(1, &mut name).unwrap_or(0);
    match &name[..length] {
        b"events" => events::main(rt),
        b"head" => head::main(rt),
        b"host" => host::main(rt),
        b"ini" => ini::main(rt),
        b"keys" => keys::main(rt),
        b"lines" => lines::main(rt),
        b"nmea" => nmea::main(rt),
        b"pager" => pager::main(rt),
        b"paths" => paths::main(rt),
        b"register" => register::main(rt),
        b"seen" => seen::main(rt),
        b"spell" => spell::main(rt),
        b"syslog" => syslog::main(rt),
        b"tally" => tally::main(rt),
        b"tokens" => tokens::main(rt),
        b"uniq" => uniq::main(rt),
        _ => {
            eprintln!(rt;
                "usage: examples events|head|host|ini|keys|lines|nmea|pager|paths|register|seen|spell|syslog|tally|tokens|uniq"
            )?;
            return Ok(ExitCode::from(64));
        }
    }?;
    Ok(ExitCode::SUCCESS)
}
