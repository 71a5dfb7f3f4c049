//! The options of the program.

ghost use Rattle.std.specs.Prelude.{◌≡◌, ◌↔◌, IsTrue, MatchOption, codes};
ghost use Rattle.clap.specs.Words.{found_of};
ghost use Rattle.ascii_filter.specs.Options.{AreOptionsOf, IsModeName, IsNull, IsQuiet, NamesMode};
ghost use Rattle.ascii_filter.specs.Options.{TakesNoOther, TaskOutcome, other_of};

use ascii_run::BoundedMode;
use clap::builder::ValueParser;
use clap::{Arg, ArgAction, ArgMatches, Command};
use std::alloc::{AllocError, Global};

/// What the program calls standard input.
pub const STANDARD_INPUT: &str = "(standard input)";

/// The name of the mode that names each non-ASCII byte.
const CHECK: &str = "check";

/// The name of `copy` with `--other=replace`. The other modes are those of the library.
const LOSSY: &str = "lossy";

/// The names of `Other`.
const OTHERS: [&str; 3] = ["stop", "replace", "escape"];

/// What a mode does with a byte above 127.
#[derive(Clone, Copy, PartialEq, Eq)]
pub enum Other {
    /// It ends the input of a mode that takes only ASCII.
    Stop,
    /// It is read as `?`.
    Replace,
    /// It is read as `\x` and its two hexadecimal digits.
    Escape,
}

impl Other {
    ghost use Rattle.ascii_filter.specs.Options.{IsOtherOf};

    /// Returns what the word after `--other` names: `Stop` if there is none.
    fn from_name(name: &str) -> Other
        ensures { IsOtherOf name.now result }
    {
        if name == OTHERS[1] {
            Other::Replace
        } else if name == OTHERS[2] {
            Other::Escape
        } else {
            Other::Stop
        }
    }
}

/// What `check` writes of each input.
#[derive(Clone, Copy)]
pub struct Check {
    /// How many non-ASCII bytes are looked for at most.
    pub most: u64,
    /// Whether their number is written, and not each of them.
    pub is_count: bool,
    /// Whether nothing is written.
    pub is_quiet: bool,
    /// Whether NUL ends each name, which is not quoted.
    pub is_null: bool,
}

/// What is done with each input.
#[derive(Clone, Copy)]
pub enum Task {
    /// The output of a mode is written.
    Filter {
        /// The mode.
        mode: BoundedMode,
        /// What it does with a byte above 127.
        other: Other,
    },
    /// Each non-ASCII byte is named.
    Check(Check),
}

impl Task {
    /// Returns `true` if nothing is written.
    pub fn is_quiet(self) -> bool
        ensures { IsTrue result ↔ IsQuiet self }
    {
        matches!(self, Task::Check(Check { is_quiet: true, .. }))
    }

    /// Returns `true` if NUL ends each name, which is not quoted.
    pub fn is_null(self) -> bool
        ensures { IsTrue result ↔ IsNull self }
    {
        matches!(self, Task::Check(Check { is_null: true, .. }))
    }

    /// Returns what is done with a byte above 127: `check` reads it as it is.
    pub fn other(self) -> Other
        ensures { result ≡ other_of self }
    {
        match self {
            Task::Filter { other, .. } => other,
            Task::Check(_) => Other::Stop,
        }
    }
}

/// What the words of a call name.
#[derive(Clone, Copy)]
pub struct Options<'a> {
    /// The name of a mode, or `check`.
    pub mode: &'a str,
    /// How many files are named.
    pub files: usize,
    /// Whether `--count` is there.
    pub is_count: bool,
    /// Whether `--quiet` is there.
    pub is_quiet: bool,
    /// Whether `--null` is there.
    pub is_null: bool,
    /// The number after `--max`.
    pub max: Option<u64>,
    /// The word after `--other`, or nothing.
    pub other: &'a str,
}

/// The options among the parsed arguments. The number after `--max` is the one that `clap` reads.
pub fn options_of<'a>(matches: &ArgMatches<'a>) -> Options<'a>
    ensures { AreOptionsOf (found_of matches.now) result }
{
    Options {
        mode: matches.get_str("MODE").unwrap_or_default(),
        files: matches.get_strs("FILE").unwrap_or_default().len(),
        is_count: matches.get_flag("count"),
        is_quiet: matches.get_flag("quiet"),
        is_null: matches.get_flag("null"),
        max: matches.get_one::<u64>("max"),
        other: matches.get_str("other").unwrap_or_default(),
    }
}

/// The task that the options ask for, or a line that says what is wrong with them.
pub fn task_of(options: Options<'_>) -> Result<Task, &'static str>
    ensures { TaskOutcome options.entry result }
{
    let Options {
        is_count,
        is_quiet,
        is_null,
        max,
        ..
    } = options;
    let other = Other::from_name(options.other);
    if other != Other::Stop && takes_no_other(options.mode) {
        return Err("ascii_filter: --other is not an option of check or lossy\n");
    }
    if options.mode == CHECK {
        let most = if is_quiet { 1 } else { max.unwrap_or(u64::MAX) };
        return Ok(Task::Check(Check {
            most,
            is_count,
            is_quiet,
            is_null,
        }));
    }
    let Some((mode, other)) = named_mode(options.mode, other) else {
        return Err("ascii_filter: there is no such mode\n");
    };
    if is_count || is_quiet || is_null || max.is_some() {
        return Err("ascii_filter: --count, --max, --null and --quiet are options of check\n");
    }
    if mode == BoundedMode::Json && options.files > 1 {
        return Err("ascii_filter: json takes one input\n");
    }
    Ok(Task::Filter { mode, other })
}

/// Whether the mode with a name takes no `--other`.
fn takes_no_other(word: &str) -> bool
    ensures { IsTrue result ↔ TakesNoOther word.now }
{
    word == CHECK || word == LOSSY
}

/// The mode that a word names, and what it does with a byte above 127 if `--other` names `other`.
fn named_mode(word: &str, other: Other) -> Option<(BoundedMode, Other)>
    requires { word.now ≡ codes "lossy" → other ≡ Other.Stop }
    ensures { MatchOption result (¬ (IsModeName word.now)) (NamesMode word.now other) }
{
    if word == LOSSY {
        return Some((BoundedMode::Copy, Other::Replace));
    }
    Some((BoundedMode::from_name(word)?, other))
}

/// The names of the modes, in the order of the help.
pub fn mode_names(alloc: Global) -> Result<Vec<&'static str>, AllocError> {
    let mut names = Vec::new(alloc);
    for mode in BoundedMode::all() {
        names.push(mode.name())?;
    }
    names.push(LOSSY)?;
    names.push(CHECK)?;
    Ok(names)
}

/// What the help says after the options.
const AFTER_HELP: &str = "\
Modes:
  copy    The text itself
  lines   The body of each line and LF
  caret   Each character; a control character other than LF as `^` and its caret letter
  json    The text as a JSON string; takes one input
  upper   The text with its letters in upper case
  lower   The text with its letters in lower case
  escape  Each byte as `u8::escape_ascii` of Rust writes it; takes any bytes
  lossy   The text with `?` for each byte above 127: copy --other=replace
  check   A line for each byte above 127: the file, the line, the column and the byte

Exit status:
  0  Every input was ASCII, or the mode takes any bytes, or `--other` reads them as ASCII
  1  An input has a byte above 127
  2  The arguments are not a call; nothing was read
  3  An input could not be read, or is the output; a write failed; or there was no memory

Of several, the status is the highest. A pipe that its reader has closed counts as nothing.

Examples:
  ascii_filter check -m 1 *.txt      The first byte above 127 of each file
  ascii_filter lossy old.txt > new   A copy with `?` for each byte above 127
  ascii_filter --other=replace json  Such a copy of standard input as a JSON string
  ascii_filter --other=escape lines  The lines of standard input, with `\\xNN` for such a byte";

/// What the help says of each option.
const COUNT_HELP: &str = "check: write the number of bytes above 127 of each file";

const QUIET_HELP: &str = "check: write nothing, and stop at the first of them";

const NULL_HELP: &str = "check: write NUL in place of the colon after each name, and quote no name";

const OTHER_HELP: &str =
    "The other modes: a byte above 127 ends what is written, or is read as `?` or as `\\xNN`";

/// The command line of the program, with these names of modes.
pub fn command<'a>(alloc: Global, names: &'a [&'a str]) -> Result<Command<'a>, AllocError> {
    Command::new(alloc, "ascii_filter")
        .version("0.1.0")
        .about("Writes ASCII inputs of any length in one of several modes")
        .after_help(AFTER_HELP)
        .arg(mode_argument(alloc, names))?
        .arg(files_argument(alloc))?
        .arg(flag(alloc, "count", 'c', COUNT_HELP))?
        .arg(max_option(alloc))?
        .arg(flag(alloc, "quiet", 'q', QUIET_HELP))?
        .arg(flag(alloc, "null", '0', NULL_HELP))?
        .arg(other_option(alloc))
}

fn mode_argument<'a>(alloc: Global, names: &'a [&'a str]) -> Arg<'a> {
    Arg::new(alloc, "MODE")
        .required(true)
        .action(ArgAction::Set)
        .value_parser(names)
        .help("What is written of each input")
}

fn files_argument<'a>(alloc: Global) -> Arg<'a> {
    Arg::new(alloc, "FILE")
        .action(ArgAction::Append)
        .default_value("-")
        .help("The files to read, each as an input of its own; `-` is standard input")
}

fn flag<'a>(alloc: Global, name: &'a str, short: char, help: &'a str) -> Arg<'a> {
    Arg::new(alloc, name)
        .short(short)
        .long(name)
        .action(ArgAction::SetTrue)
        .help(help)
}

fn max_option<'a>(alloc: Global) -> Arg<'a> {
    Arg::new(alloc, "max")
        .short('m')
        .long("max")
        .value_name("N")
        .action(ArgAction::Set)
        .value_parser(ValueParser::unsigned(1, u64::MAX))
        .help("check: stop after N of them in a file")
}

fn other_option<'a>(alloc: Global) -> Arg<'a> {
    Arg::new(alloc, "other")
        .long("other")
        .value_name("WHAT")
        .action(ArgAction::Set)
        .value_parser(OTHERS.as_slice())
        .help(OTHER_HELP)
}
