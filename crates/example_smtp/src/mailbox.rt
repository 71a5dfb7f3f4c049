//! Storing a mail in a folder.

ghost use Rattle.std.specs.Prelude.{◌≡◌, ◌<◌, ◌≤◌, ◌++◌, ◌∷◌, [], IfOk, OnErr, OnOk};
ghost use Rattle.ascii.specs.View.{text_of};
ghost use Rattle.example_smtp.specs.Mail.{IsUnbroken};
ghost use Rattle.example_smtp.specs.Folder.{Stores};

use crate::folder::Folder;
use ascii_lines::{AsciiStr, AsciiString};
use std::alloc::Global;
use std::io::{self, ErrorKind};
use std::marker::Model;

/// How many names are tried for a mail.
const MOST_NAMES: usize = 1_000;

/// A folder that keeps mail. Contracts see what is in it.
#[derive(Drop)]
pub struct Mailbox<F: Folder> {
    folder: F,
    count: u64,
}

impl<F: Folder> Model for Mailbox<F> {
    ghost use Rattle.example_smtp.specs.Folder.{Contents};

    ghost Value = { Contents };

    ghost view = { λ mailbox. F.contents mailbox.folder };
}

impl<F: Folder> Mailbox<F> {
    /// Returns the mailbox of a folder.
    pub fn new(folder: F) -> Mailbox<F>
        ensures { result ≡ F.contents folder }
    {
        Mailbox { folder, count: 0 }
    }

    /// Returns the date and the time of now as a mail has them, or an error.
    pub fn date(&self, alloc: Global) -> io::Result<AsciiString>
        ensures { IfOk result (λ date. IsUnbroken date.text) }
    {
        self.folder.date(alloc)
    }

    /// Stores a mail, the envelope before the text, under a name that no other mail has; or returns an error if a
    /// call failed, and then the folder has no other mail than before.
    #[tactic(auto, using(crate::proofs::FolderLemmas::stores_none, crate::proofs::FolderLemmas::stores_then))]
    pub fn store(&mut self, envelope: AsciiStr<'_>, text: AsciiStr<'_>) -> io::Result<()>
        ensures ok { OnOk result (Stores self.old
            ((text_of envelope.entry ++ text_of text.entry) ∷ []) self.new) }
        ensures err { OnErr result (Stores self.old [] self.new) }
    {
        for _ in 0..MOST_NAMES {
            match self.store_once(envelope, text) {
                Ok(()) => return Ok(()),
                Err(error) if error.kind() == ErrorKind::AlreadyExists => {}
                Err(error) => return Err(error),
            }
        }
        Err(io::Error::from(ErrorKind::AlreadyExists))
    }

    /// Stores a mail under the next name, and removes what earlier calls left.
    fn store_once(&mut self, envelope: AsciiStr<'_>, text: AsciiStr<'_>) -> io::Result<()>
        ensures ok { OnOk result (Stores self.old
            ((text_of envelope.entry ++ text_of text.entry) ∷ []) self.new) }
        ensures err { OnErr result (Stores self.old [] self.new) }
    {
        self.count = self.count.wrapping_add(1);
        self.folder.unlink()?;
        self.folder.remove()?;
        self.folder.create(self.count)?;
        let stored = self.publish(envelope, text);
        let _ = self.folder.remove();
        stored
    }

    /// Writes the mail to the draft, and gives it a name.
    fn publish(&mut self, envelope: AsciiStr<'_>, text: AsciiStr<'_>) -> io::Result<()>
        requires draft { self.old.drafts ≡ [] ∷ [] }
        requires named { self.old.links ≡ [] }
        ensures ok { OnOk result ((self.new.mails ≡ self.old.mails
            ++ (text_of envelope.entry ++ text_of text.entry) ∷ [])
            × (self.new.links ≡ []) × (self.old.failures ≤ self.new.failures)) }
        ensures err { OnErr result ((self.new.mails ≡ self.old.mails)
            × (self.old.failures < self.new.failures)) }
    {
        self.folder.write(envelope)?;
        self.folder.write(text)?;
        self.folder.sync()?;
        self.folder.link(self.count)?;
        if let Err(error) = self.folder.sync_folder() {
            let _ = self.folder.unlink();
            return Err(error);
        }
        Ok(())
    }
}
