//! A folder that keeps mail, as contracts see it: what is in it after each call.

ghost use Rattle.std.specs.Prelude.{◌≡◌, [], IfOk};
ghost use Rattle.ascii.specs.View.{text_of};
ghost use Rattle.example_smtp.specs.Mail.{IsUnbroken};
ghost use Rattle.example_smtp.specs.Folder.{Returns, Writes};

use ascii_lines::{AsciiStr, AsciiString};
use std::alloc::Global;
use std::io;

/// A call at a folder.
#[derive(Clone, Copy, PartialEq, Eq, Debug)]
pub enum Call {
    /// Creates a draft.
    Create,
    /// Appends a byte to the draft.
    Append(u8),
    /// Stores the draft.
    Sync,
    /// Gives the draft the name of a mail.
    Link,
    /// Stores that name.
    SyncFolder,
    /// Removes the name.
    Unlink,
    /// Removes the draft.
    Remove,
    /// Any of them, which failed.
    Fail,
}

/// A folder of mail with one draft at most, and one mail at most whose name the system has not stored.
pub trait Folder {
    ghost use Rattle.example_smtp.specs.Folder.{Contents};

    // What is in the folder.
    ghost contents: { Self → Contents };

    /// Returns the date and the time of now as a mail has them, or an error.
    fn date(&self, alloc: Global) -> io::Result<AsciiString>
        ensures { IfOk result (λ date. IsUnbroken date.text) };

    /// Creates a draft with no bytes under a name with this number, or returns an error, which is `AlreadyExists` if
    /// there is a file of this name.
    ///
    /// Condition: there is no draft.
    fn create(&mut self, number: u64) -> io::Result<()>
        requires { (contents self.old).drafts ≡ [] }
        ensures { Returns Call.Create (contents self.old) result (contents self.new) };

    /// Appends a text to the draft.
    fn write(&mut self, text: AsciiStr<'_>) -> io::Result<()>
        ensures { Writes (text_of text.entry) (contents self.old) result (contents self.new) };

    /// Lets the system store the bytes of the draft.
    fn sync(&mut self) -> io::Result<()>
        ensures { Returns Call.Sync (contents self.old) result (contents self.new) };

    /// Gives the draft a name with this number as a mail, or returns an error, which is `AlreadyExists` if there is a
    /// mail of this name.
    ///
    /// Condition: the system has stored the bytes of the draft, and the name of each mail.
    fn link(&mut self, number: u64) -> io::Result<()>
        requires stored { (contents self.old).stored ≡ (contents self.old).drafts }
        requires named { (contents self.old).links ≡ [] }
        ensures { Returns Call.Link (contents self.old) result (contents self.new) };

    /// Lets the system store the name of the mail.
    fn sync_folder(&mut self) -> io::Result<()>
        ensures { Returns Call.SyncFolder (contents self.old) result (contents self.new) };

    /// Removes the mail whose name the system has not stored, if there is one.
    fn unlink(&mut self) -> io::Result<()>
        ensures { Returns Call.Unlink (contents self.old) result (contents self.new) };

    /// Removes the draft, if there is one.
    fn remove(&mut self) -> io::Result<()>
        ensures { Returns Call.Remove (contents self.old) result (contents self.new) };
}
