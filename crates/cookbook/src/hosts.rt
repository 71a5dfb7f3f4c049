//! Host names: labels of letters, digits and hyphens, joined by dots. Case is ignored.

ghost use Rattle.std.specs.Prelude.{◌≡◌, ◌+◌, ◌≤◌, ◌↔◌, IfErr, IfOk, IsTrue, MatchResult, OnOk};
ghost use Rattle.std.specs.Prelude.{length};
ghost use Rattle.ascii.specs.Spans.{piece_in};
ghost use Rattle.ascii.specs.View.{text_of};
ghost use Rattle.cookbook.specs.Cases.{EqIgnoringCase, lower_text, order_ignoring_case};
ghost use Rattle.cookbook.specs.Hosts.{OnlyFailsOnAlloc, IsHost, IsHostError, IsLabel};
ghost use Rattle.cookbook.specs.Hosts.{IsLabelError, host_text};

use ascii::classes::Label;
use ascii::iter::SplitSpan;
use ascii::{AsciiChar, AsciiStr};
use ascii_run::{AsciiBuf, SmallAsciiString};
use std::alloc::{AllocError, Global};
use std::cmp::Ordering;

/// A host name. It is kept in lower case, so that `==`, the order and the hash, which are those of
/// what is kept, ignore ASCII case. A name of at most 24 characters does not allocate.
#[derive(PartialEq, Eq, PartialOrd, Ord, Hash, Debug, Drop)]
pub struct HostName {
    name: SmallAsciiString,
}

/// Why a name was rejected. A position is that of a byte, counted from the start of the name.
#[derive(Clone, Copy, PartialEq, Eq, Debug)]
pub enum HostNameError {
    /// The name has more than 253 characters.
    TooLong,
    /// The label at this position is empty.
    EmptyLabel(usize),
    /// The label at this position has more than 63 characters.
    LongLabel(usize),
    /// The character at this position is not a letter, a digit, a hyphen or a dot.
    Character(usize),
    /// The hyphen at this position is the first or the last character of its label.
    Hyphen(usize),
    /// The allocation for a name of more than 24 characters failed.
    Memory,
}

impl From<AllocError> for HostNameError {
    ghost use Rattle.cookbook.specs.declared.hosts.HostNameError.TheVariants.{Memory};

    ghost from_gives = { λ _ error. error ≡ Memory };

    fn from(_: AllocError) -> HostNameError {
        HostNameError::Memory
    }
}

impl HostName {
    /// Returns the host of a name, or an error with the first label that is wrong, whose length is
    /// tested first. `Example.ORG` is kept as `example.org`; for `a..b` the error is
    /// `EmptyLabel(2)`.
    pub fn parse(alloc: Global, name: AsciiStr<'_>) -> Result<HostName, HostNameError>
        ensures host { OnOk result (IsHost (text_of name.entry)) }
        ensures text { IfOk result (λ host. host_text host ≡ lower_text (text_of name.entry)) }
        ensures error { IfErr result (IsHostError (text_of name.entry)) }
        ensures exact { IsHost (text_of name.entry) → OnlyFailsOnAlloc result }
    {
        if name.len() > 253 {
            return Err(HostNameError::TooLong);
        }
        for label in name.split_spans(AsciiChar::Dot) {
            check_label(label)?;
        }
        let mut kept = SmallAsciiString::from_ascii_str(alloc, name)?;
        kept.make_ascii_lowercase();
        Ok(HostName { name: kept })
    }

    /// Returns the name in lower case.
    pub fn as_ascii_str(&self) -> AsciiStr<'_>
        ensures { text_of result ≡ host_text self.now }
    {
        self.name.as_ascii_str()
    }
}

/// Returns `true` if two names are those of one host, as `WWW.a.example` and `www.A.example` are,
/// or an error if one of them is not a host name.
pub fn same_host(alloc: Global, a: AsciiStr<'_>, b: AsciiStr<'_>) -> Result<bool, HostNameError>
    ensures same { IfOk result (λ same.
        IsTrue same ↔ EqIgnoringCase (text_of a.entry) (text_of b.entry)) }
    ensures hosts { OnOk result (IsHost (text_of a.entry) × IsHost (text_of b.entry)) }
    ensures exact { IsHost (text_of a.entry) → IsHost (text_of b.entry) → OnlyFailsOnAlloc result }
{
    Ok(HostName::parse(alloc, a)? == HostName::parse(alloc, b)?)
}

/// Returns the order of the hosts of two names, which is that of the names in lower case, or an
/// error if one of them is not a host name.
pub fn host_order(
    alloc: Global,
    a: AsciiStr<'_>,
    b: AsciiStr<'_>,
) -> Result<Ordering, HostNameError>
    ensures order { IfOk result (λ order.
        order ≡ order_ignoring_case (text_of a.entry) (text_of b.entry)) }
    ensures hosts { OnOk result (IsHost (text_of a.entry) × IsHost (text_of b.entry)) }
    ensures exact { IsHost (text_of a.entry) → IsHost (text_of b.entry) → OnlyFailsOnAlloc result }
{
    Ok(HostName::parse(alloc, a)?.cmp(&HostName::parse(alloc, b)?))
}

/// Returns an error if the piece is not a valid label.
fn check_label(label: SplitSpan<'_>) -> Result<(), HostNameError>
    requires { label.start + length (text_of label.text) ≤ usize.MAX }
    ensures { MatchResult result (λ _. IsLabel (text_of label.entry.text))
        (IsLabelError (piece_in label.entry)) }
{
    let SplitSpan { start, text } = label;
    if text.is_empty() {
        return Err(HostNameError::EmptyLabel(start));
    }
    if text.len() > 63 {
        return Err(HostNameError::LongLabel(start));
    }
    let (front, rest) = text.span::<Label>();
    if !rest.is_empty() {
        return Err(HostNameError::Character(start + front.len()));
    }
    if text.first() == Some(AsciiChar::Minus) {
        return Err(HostNameError::Hyphen(start));
    }
    if text.last() == Some(AsciiChar::Minus) {
        return Err(HostNameError::Hyphen(start + text.len() - 1));
    }
    Ok(())
}
