//! The paths of mail: whom it comes from, and whom it goes to.

ghost use Rattle.std.specs.Prelude.{◌↔◌, ℕ, IsTrue, List, MatchOption, false};
ghost use Rattle.ascii.specs.Code.{code_of};
ghost use Rattle.ascii.specs.View.{text_of};
ghost use Rattle.example_smtp.specs.Paths.{AreBetween, IsAddress, IsAtom, IsBetween, IsDomain};
ghost use Rattle.example_smtp.specs.Paths.{IsDomainName, IsHop, IsLabel, IsLiteral, IsMailbox};
ghost use Rattle.example_smtp.specs.Paths.{IsName, IsPath, IsQuoted, IsQuotedText, IsRecipient};
ghost use Rattle.example_smtp.specs.Paths.{IsSender, IsTaggedAddress};

use ascii::classes::{self, Label};
use ascii::{AsciiChar, AsciiStr};
use std::net::{Ipv4Addr, Ipv6Addr};

/// The most characters of the name of a mailbox.
const MOST_OF_NAME: usize = 64;

/// The most characters of a domain.
const MOST_OF_DOMAIN: usize = 255;

/// The most characters of a label of a domain.
const MOST_OF_LABEL: usize = 63;

/// Returns the address in a path, which is what is between `<` and `>`, without the route with which it may begin; or
/// `None` if the text is not a path.
pub fn address_of<'a>(path: AsciiStr<'a>) -> Option<AsciiStr<'a>>
    ensures { MatchOption result ((address : List ℕ) → ¬ (IsPath address (text_of path.entry)))
        (λ address. IsPath (text_of address) (text_of path.entry)) }
{
    let inner = between(path, AsciiStr::literal("<"), AsciiStr::literal(">"))?;
    if !inner.starts_with(AsciiStr::literal("@")) {
        return Some(inner);
    }
    let (route, address) = inner.split_once(AsciiChar::Colon)?;
    if are_between::<Hop>(route, AsciiChar::Comma) && is_mailbox(address) {
        Some(address)
    } else {
        None
    }
}

/// Returns `true` if a message may come from this.
pub fn is_sender(text: AsciiStr<'_>) -> bool
    ensures { IsTrue result ↔ IsSender (text_of text.entry) }
{
    text.is_empty() || is_mailbox(text)
}

/// Returns `true` if a message may go to this.
pub fn is_recipient(text: AsciiStr<'_>) -> bool
    ensures { IsTrue result ↔ IsRecipient (text_of text.entry) }
{
    text.eq_ignore_ascii_case(AsciiStr::literal("postmaster")) || is_mailbox(text)
}

/// Returns `true` if the text is a mailbox.
#[tactic(auto, using(crate::proofs::PathLemmas::mailbox_has_at))]
fn is_mailbox(text: AsciiStr<'_>) -> bool
    ensures { IsTrue result ↔ IsMailbox (text_of text.entry) }
{
    match text.rsplit_once(AsciiChar::At) {
        Some((name, domain)) => is_name(name) && is_domain(domain),
        None => false,
    }
}

/// Returns `true` if the text is the name of a mailbox.
fn is_name(text: AsciiStr<'_>) -> bool
    ensures { IsTrue result ↔ IsName (text_of text.entry) }
{
    text.len() <= MOST_OF_NAME && (are_between::<Atom>(text, AsciiChar::Dot) || is_quoted(text))
}

/// Returns `true` if the text is a domain.
fn is_domain(text: AsciiStr<'_>) -> bool
    ensures { IsTrue result ↔ IsDomain (text_of text.entry) }
{
    is_domain_name(text) || is_literal(text)
}

/// Returns `true` if the text is the name of a domain.
fn is_domain_name(text: AsciiStr<'_>) -> bool
    ensures { IsTrue result ↔ IsDomainName (text_of text.entry) }
{
    text.len() <= MOST_OF_DOMAIN && are_between::<DomainLabel>(text, AsciiChar::Dot)
}

/// What each part between dots or commas has to be.
trait Part {
    ghost is: { List ℕ → Type 0 };

    /// Returns `true` if the text is such a part.
    fn accepts(text: AsciiStr<'_>) -> bool
        ensures { IsTrue result ↔ is (text_of text.entry) };
}

/// An atom.
struct Atom;

impl Part for Atom {
    ghost is = { IsAtom };

    fn accepts(text: AsciiStr<'_>) -> bool {
        !text.is_empty() && text.is_all::<classes::Atom>()
    }
}

/// A label of a domain.
struct DomainLabel;

impl Part for DomainLabel {
    ghost is = { IsLabel };

    fn accepts(text: AsciiStr<'_>) -> bool {
        !text.is_empty()
            && text.len() <= MOST_OF_LABEL
            && text.is_all::<Label>()
            && text.first() != Some(AsciiChar::Minus)
            && text.last() != Some(AsciiChar::Minus)
    }
}

/// A host of a route: `@` and the name of a domain.
struct Hop;

impl Part for Hop {
    ghost is = { IsHop };

    fn accepts(text: AsciiStr<'_>) -> bool {
        match text.strip_prefix(AsciiStr::literal("@")) {
            Some(name) => is_domain_name(name),
            None => false,
        }
    }
}

/// Returns `true` if each part of the text between the separators is accepted.
fn are_between<P: Part>(text: AsciiStr<'_>, separator: AsciiChar) -> bool
    ensures { IsTrue result ↔ AreBetween (code_of separator) P.is (text_of text.entry) }
{
    for part in text.split(separator) {
        if !P::accepts(part) {
            return false;
        }
    }
    true
}

/// Returns `true` if the text is between quotes.
fn is_quoted(text: AsciiStr<'_>) -> bool
    ensures { IsTrue result ↔ IsQuoted (text_of text.entry) }
{
    match between(text, AsciiStr::literal("\""), AsciiStr::literal("\"")) {
        Some(inner) => is_quoted_text(inner),
        None => false,
    }
}

/// Returns `true` if the text may be between quotes.
fn is_quoted_text(text: AsciiStr<'_>) -> bool
    ensures { IsTrue result ↔ IsQuotedText false (text_of text.entry) }
{
    let mut is_escaped = false;
    for ch in text.chars() {
        if !ch.is_ascii_printable() || (ch == AsciiChar::Quotation && !is_escaped) {
            return false;
        }
        is_escaped = ch == AsciiChar::BackSlash && !is_escaped;
    }
    !is_escaped
}

/// Returns `true` if the text is an address in brackets.
fn is_literal(text: AsciiStr<'_>) -> bool
    ensures { IsTrue result ↔ IsLiteral (text_of text.entry) }
{
    match between(text, AsciiStr::literal("["), AsciiStr::literal("]")) {
        Some(inner) => is_address(inner),
        None => false,
    }
}

/// Returns `true` if the text is an address of the Internet, of which one of IPv6 has its tag before it.
fn is_address(text: AsciiStr<'_>) -> bool
    ensures { IsTrue result ↔ IsAddress (text_of text.entry) }
{
    Ipv4Addr::parse_ascii(text.as_bytes()).is_ok() || is_tagged_address(text)
}

/// Returns `true` if the text is `IPv6:`, in any case, and an address of IPv6.
fn is_tagged_address(text: AsciiStr<'_>) -> bool
    ensures { IsTrue result ↔ IsTaggedAddress (text_of text.entry) }
{
    match text.strip_prefix_ignore_ascii_case(AsciiStr::literal("IPv6:")) {
        Some(address) => Ipv6Addr::parse_ascii(address.as_bytes()).is_ok(),
        None => false,
    }
}

/// Returns the text between an opening and a closing text, or `None` if the text has not both.
#[tactic(auto, using(std::proofs::lemmas::List::append_cancel_left))]
fn between<'a>(text: AsciiStr<'a>, start: AsciiStr<'_>, end: AsciiStr<'_>) -> Option<AsciiStr<'a>>
    ensures { MatchOption result ((inner : List ℕ)
        → ¬ (IsBetween (text_of start.entry) (text_of end.entry) (text_of text.entry) inner))
        (λ inner. IsBetween (text_of start.entry) (text_of end.entry) (text_of text.entry)
        (text_of inner)) }
{
    let rest = text.strip_prefix(start)?;
    let inner = rest.strip_suffix(end)?;
    Some(inner)
}
