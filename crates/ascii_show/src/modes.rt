//! The modes of the program, which are the library's, by name.

ghost use Rattle.std.specs.Prelude.{◌≡◌, MatchOption, Some};
ghost use Rattle.ascii_show.specs.Call.{IsModeName, NamesMode};
ghost use Rattle.ascii_show.specs.Modes.{usage_line};

use ascii_run::Mode;
use std::fmt;

/// The arguments that a mode takes after its name.
#[derive(Clone, Copy)]
pub enum Takes {
    /// None; the mode is known by its name.
    Nothing(Mode<'static>),
    /// A script of ends, perhaps after `-s`.
    Script,
    /// Any number of commands.
    Commands,
}

/// Returns what the mode with this name takes, or `None` if no mode has the name.
pub fn find_mode(name: &str) -> Option<Takes>
    ensures { MatchOption result (¬ (IsModeName name.now)) (NamesMode name.now) }
{
    if name == Mode::Ends(&[]).name() {
        Some(Takes::Script)
    } else if name == Mode::Edit(&[]).name() {
        Some(Takes::Commands)
    } else {
        match Mode::from_name(name) {
            Some(mode) => Some(Takes::Nothing(mode)),
            None => None,
        }
    }
}

/// The usage line.
pub struct Usage;

impl fmt::Display for Usage {
    ghost output = { λ _. Some usage_line };

    /// Writes the names of the modes, each with the arguments that it takes.
    fn fmt<W: fmt::Write>(&self, f: &mut fmt::Formatter<W>) -> fmt::Result {
        let (copy, lines, tac) = (Mode::Copy.name(), Mode::Lines.name(), Mode::Tac.name());
        let (caret, json) = (Mode::Caret.name(), Mode::Json.name());
        let (ends, edit) = (Mode::Ends(&[]).name(), Mode::Edit(&[]).name());
        write!(
            f,
            "usage: ascii_show {copy}|{lines}|{tac}|{caret}|{ends} [-s] SCRIPT|{edit} WORD..|{json}",
        )
    }
}
