//! A folder of the system.
//!
//! No contract of std says what a call does to a file. So the methods of `Folder` below say it of what those of `Files`
//! do, and are to be read beside these: each makes one call, and notes its outcome. `bin/test dialogues` compares the
//! system calls of a delivery.

ghost use Rattle.std.specs.Prelude.{◌≡◌, ◌++◌, IfOk, map};
ghost use Rattle.ascii.specs.View.{text_of};
ghost use Rattle.example_smtp.specs.Mail.{IsUnbroken};
ghost use Rattle.example_smtp.specs.Folder.{Returns, Writes, contents_of};
ghost use Rattle.example_smtp.specs.declared.folder.Call.TheVariants.{Append};

use crate::folder::{Call, Folder};
use ascii::endings::first_break;
use ascii::string;
use ascii_devices::Log;
use ascii_lines::{AsciiStr, AsciiString};
use jiff::Timestamp;
use std::alloc::Global;
use std::fs::{self, File};
use std::io::{self, ErrorKind, Write};
use std::time::{SystemTime, UNIX_EPOCH};

/// A folder with the folders `tmp`, `new` and `cur`, and its files that are not finished.
#[derive(Drop)]
struct Files<'a> {
    rt: &'a HostRuntime,
    path: String,
    // The time at which it was opened, which is a part of each name.
    time: u128,
    new: File,
    draft: Option<(File, String)>,
    link: Option<String>,
}

impl<'a> Files<'a> {
    /// Opens a folder, and creates what is missing of it.
    fn open(rt: &'a HostRuntime, path: &str) -> io::Result<Files<'a>> {
        let alloc = rt.alloc();
        for name in ["tmp", "new", "cur"] {
            fs::create_dir_all(rt, format!(in alloc; "{path}/{name}")?.as_str())?;
        }
        let now = SystemTime::now(rt)?;
        Ok(Files {
            rt,
            path: format!(in alloc; "{path}")?,
            time: now
                .duration_since(UNIX_EPOCH)
                .unwrap_or_default()
                .as_nanos(),
            new: File::open(rt, format!(in alloc; "{path}/new")?.as_str())?,
            draft: None,
            link: None,
        })
    }

    /// Returns the path of a file with this number.
    fn path_in(&self, folder: &str, number: u64) -> io::Result<String> {
        let alloc = self.rt.alloc();
        Ok(format!(in alloc; "{}/{folder}/{}.{number}", self.path.as_str(), self.time)?)
    }

    fn create(&mut self, number: u64) -> io::Result<()> {
        let path = self.path_in("tmp", number)?;
        let file = File::create_new(self.rt, &path)?;
        self.draft = Some((file, path));
        Ok(())
    }

    fn write(&mut self, text: AsciiStr<'_>) -> io::Result<()> {
        match &mut self.draft {
            Some((file, _)) => file.write_all(text.as_bytes()),
            None => Err(io::Error::from(ErrorKind::NotFound)),
        }
    }

    fn sync(&mut self) -> io::Result<()> {
        match &self.draft {
            Some((file, _)) => file.sync_all(),
            None => Err(io::Error::from(ErrorKind::NotFound)),
        }
    }

    fn link(&mut self, number: u64) -> io::Result<()> {
        let path = self.path_in("new", number)?;
        match &self.draft {
            Some((_, draft)) => fs::hard_link(self.rt, draft, &path)?,
            None => return Err(io::Error::from(ErrorKind::NotFound)),
        }
        self.link = Some(path);
        Ok(())
    }

    fn sync_folder(&mut self) -> io::Result<()> {
        self.new.sync_all()?;
        self.link = None;
        Ok(())
    }

    fn unlink(&mut self) -> io::Result<()> {
        if let Some(path) = &self.link {
            remove_if_there(self.rt, path)?;
        }
        self.link = None;
        Ok(())
    }

    fn remove(&mut self) -> io::Result<()> {
        if let Some((_, path)) = &self.draft {
            remove_if_there(self.rt, path)?;
        }
        self.draft = None;
        Ok(())
    }
}

/// Removes a file, if it is there.
fn remove_if_there(rt: &HostRuntime, path: &String) -> io::Result<()> {
    match fs::remove_file(rt, path) {
        Err(error) if error.kind() != ErrorKind::NotFound => Err(error),
        _ => Ok(()),
    }
}

/// A folder of the system, as Maildir has it: a draft is in `tmp`, a mail in `new`.
#[derive(Drop)]
pub struct SystemFolder<'a> {
    files: Files<'a>,
    calls: Log<Call>,
}

impl<'a> SystemFolder<'a> {
    /// Opens a folder and creates what is missing of it, or returns an error if it cannot be used.
    pub fn open(rt: &'a HostRuntime, path: &str) -> io::Result<SystemFolder<'a>> {
        Ok(SystemFolder {
            files: Files::open(rt, path)?,
            calls: Log::new(),
        })
    }
}

impl Folder for SystemFolder<'_> {
    ghost contents = { λ folder. contents_of folder.calls.items };

    fn date(&self, alloc: Global) -> io::Result<AsciiString> {
        date_of(read_clock(self.files.rt, alloc))
    }

    fn create(&mut self, number: u64) -> io::Result<()> {
        note(Call::Create, self.files.create(number), &mut self.calls)
    }

    fn write(&mut self, text: AsciiStr<'_>) -> io::Result<()> {
        note_write(text, self.files.write(text), &mut self.calls)
    }

    fn sync(&mut self) -> io::Result<()> {
        note(Call::Sync, self.files.sync(), &mut self.calls)
    }

    fn link(&mut self, number: u64) -> io::Result<()> {
        note(Call::Link, self.files.link(number), &mut self.calls)
    }

    fn sync_folder(&mut self) -> io::Result<()> {
        note(Call::SyncFolder, self.files.sync_folder(), &mut self.calls)
    }

    fn unlink(&mut self) -> io::Result<()> {
        note(Call::Unlink, self.files.unlink(), &mut self.calls)
    }

    fn remove(&mut self) -> io::Result<()> {
        note(Call::Remove, self.files.remove(), &mut self.calls)
    }
}

/// Returns the date and the time of now by the form of mails, in UTC.
fn read_clock(rt: &HostRuntime, alloc: Global) -> Result<String, jiff::Error> {
    Timestamp::now(rt)?.strftime(alloc, "%a, %d %b %Y %H:%M:%S +0000")
}

/// Returns a date that was read, or an error if it was not, or no line of a mail can have it.
fn date_of(read: Result<String, jiff::Error>) -> io::Result<AsciiString>
    ensures { IfOk result (λ date. IsUnbroken date.text) }
{
    let Ok(text) = read else {
        return Err(io::Error::from(ErrorKind::InvalidData));
    };
    let Ok(date) = string::into_ascii_string(text) else {
        return Err(io::Error::from(ErrorKind::InvalidData));
    };
    if first_break(date.as_ascii_str().as_bytes()).is_some() {
        return Err(io::Error::from(ErrorKind::InvalidData));
    }
    Ok(date)
}

/// Notes what a call of the system has returned, and returns it.
#[tactic(auto, using(crate::proofs::FolderLemmas::call_noted))]
fn note(call: Call, done: io::Result<()>, calls: &mut Log<Call>) -> io::Result<()>
    ensures { Returns call (contents_of calls.old.items) result (contents_of calls.new.items) }
{
    match done {
        Ok(()) => {
            *calls = calls.and(&call);
            Ok(())
        }
        Err(error) => {
            *calls = calls.and(&Call::Fail);
            Err(error)
        }
    }
}

/// Notes what writing a text has returned, and returns it.
#[tactic(auto, using(crate::proofs::FolderLemmas::bytes_noted, crate::proofs::FolderLemmas::call_noted))]
fn note_write(text: AsciiStr<'_>, done: io::Result<()>, calls: &mut Log<Call>) -> io::Result<()>
    ensures { Writes (text_of text.entry) (contents_of calls.old.items) result
        (contents_of calls.new.items) }
{
    match done {
        Ok(()) => {
            note_bytes(text.as_bytes(), calls);
            Ok(())
        }
        Err(error) => {
            *calls = calls.and(&Call::Fail);
            Err(error)
        }
    }
}

/// Notes bytes that were written.
fn note_bytes(bytes: &[u8], calls: &mut Log<Call>)
    ensures { calls.new.items ≡ calls.old.items ++ map Append bytes.now }
{
    for &byte in bytes {
        *calls = calls.and(&Call::Append(byte));
    }
}
