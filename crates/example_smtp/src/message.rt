//! A message, and the lines of it.

ghost use Rattle.std.specs.Prelude.{◌≡◌, ◌∷◌, ◌++◌, [], IfOk, OnOk};
ghost use Rattle.std.specs.List.{flat_map};
ghost use Rattle.ascii.specs.View.{text_of};
ghost use Rattle.example_smtp.specs.Mail.{delivered_to, received_at, string_texts, unstuffed};

use ascii_lines::{AsciiStr, AsciiString};
use std::alloc::{AllocError, Global};

/// A message: its text has each line with CR LF. The client is what it introduced itself by.
#[derive(Drop)]
pub struct Message {
    pub client: AsciiString,
    pub sender: AsciiString,
    pub recipients: Vec<AsciiString>,
    pub text: AsciiString,
}

impl Message {
    ghost use Rattle.example_smtp.specs.Mail.{address_lines, envelope_of, mail_of, no_mail};

    /// Creates a message with nothing in it. Does not allocate.
    pub fn new(alloc: Global) -> Message
        ensures { mail_of result ≡ no_mail [] }
    {
        Message {
            client: AsciiString::new(alloc),
            sender: AsciiString::new(alloc),
            recipients: Vec::new(alloc),
            text: AsciiString::new(alloc),
        }
    }

    /// Drops all of the message but its client. Does not allocate.
    pub fn clear(&mut self, alloc: Global)
        ensures { mail_of self.new ≡ no_mail self.old.client.text }
    {
        self.sender = AsciiString::new(alloc);
        self.recipients = Vec::new(alloc);
        self.text = AsciiString::new(alloc);
    }

    /// Returns the lines before the text in the file of the message, or an error if an allocation fails.
    pub fn envelope(&self, alloc: Global, date: AsciiStr<'_>) -> Result<AsciiString, AllocError>
        ensures { IfOk result (λ envelope.
            envelope.text ≡ envelope_of (text_of date.entry) (mail_of self.now)) }
    {
        let mut envelope = self.address_lines(alloc)?;
        append_received(&mut envelope, self.client.as_ascii_str(), date)?;
        Ok(envelope)
    }

    /// Returns the lines that say whom the message comes from and whom it goes to, or an error if an allocation fails.
    fn address_lines(&self, alloc: Global) -> Result<AsciiString, AllocError>
        ensures { IfOk result (λ lines. lines.text ≡ address_lines (mail_of self.now)) }
    {
        let mut lines = AsciiString::new(alloc);
        lines.push_str(AsciiStr::literal("Return-Path: <"))?;
        lines.push_str(self.sender.as_ascii_str())?;
        append_line(&mut lines, AsciiStr::literal(">"))?;
        append_recipients(&mut lines, &self.recipients)?;
        Ok(lines)
    }
}

/// Appends a line for each recipient, or returns an error if an allocation fails.
fn append_recipients(
    envelope: &mut AsciiString,
    recipients: &[AsciiString],
) -> Result<(), AllocError>
    ensures { OnOk result (envelope.new.text
        ≡ envelope.old.text ++ flat_map delivered_to (string_texts recipients.now)) }
{
    for recipient in recipients {
        envelope.push_str(AsciiStr::literal("Delivered-To: "))?;
        append_line(envelope, recipient.as_ascii_str())?;
    }
    Ok(())
}

/// Appends the line that says from which client and when the mail came, or returns an error if an allocation fails.
fn append_received(
    envelope: &mut AsciiString,
    client: AsciiStr<'_>,
    date: AsciiStr<'_>,
) -> Result<(), AllocError>
    ensures { OnOk result (envelope.new.text
        ≡ envelope.old.text ++ received_at (text_of client.entry) (text_of date.entry)) }
{
    envelope.push_str(AsciiStr::literal("Received: from "))?;
    envelope.push_str(client)?;
    envelope.push_str(AsciiStr::literal(" by localhost; "))?;
    append_line(envelope, date)?;
    Ok(())
}

/// Appends a line and CR LF, or returns an error if an allocation fails; then a part of it may be there.
pub fn append_line(text: &mut AsciiString, line: AsciiStr<'_>) -> Result<(), AllocError>
    ensures { OnOk result
        (text.new.text ≡ text.old.text ++ (text_of line.entry ++ 13 ∷ 10 ∷ [])) }
{
    text.push_str(line)?;
    text.push_str(AsciiStr::literal("\r\n"))
}

/// Returns a line of a message with dot-stuffing undone.
pub fn unstuff<'a>(sent: AsciiStr<'a>) -> AsciiStr<'a>
    ensures { text_of result ≡ unstuffed (text_of sent.entry) }
{
    match sent.strip_prefix(AsciiStr::literal(".")) {
        Some(line) => line,
        None => sent,
    }
}
