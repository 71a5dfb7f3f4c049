//! Texts that are compared ignoring ASCII case: keys of a map or a set, such as names of headers.

ghost use Rattle.std.specs.Prelude.{◌≡◌, ◌==◌, IfOk, map};
ghost use Rattle.std.specs.Cmp.{partial_order_from_own_ties};
ghost use Rattle.std.specs.Cmp.Lexicographic.{pointwise, slice_cmp};
ghost use Rattle.std.specs.Cmp.Rules.{comparing, hashing};
ghost use Rattle.std.specs.Hash as fed;
ghost use Rattle.std.specs.List.{flat_map, fold};
ghost use Rattle.std.specs.Ordering.{as_partial_cmp, nat_cmp, on};
ghost use Rattle.std.proofs.Common.{rules};
ghost use Rattle.ascii.specs.Case.{lower_image};
ghost use Rattle.ascii.specs.View.{text_of};

use ascii::{AsciiStr, AsciiString, Buffer, Text, kernels};
use std::alloc::{AllocError, Allocator, Global};
use std::cmp::Ordering;
use std::convert::AsStr;
use std::fmt;
use std::hash::{Hash, Hasher};
use std::marker::Model;

/// A text whose equality, order and hash are those of its text in lower case. It keeps the text in
/// its own case, which is what it prints.
///
///     FoldedStr::new(AsciiStr::literal("Host")) == FoldedStr::new(AsciiStr::literal("HOST")) // true
///     FoldedStr::new(AsciiStr::literal("HOST")) // "HOST"
#[derive(Drop)]
pub struct Folded<T: AsStr> {
    text: T,
}

/// A view that is compared ignoring ASCII case.
pub type FoldedStr<'a> = Folded<AsciiStr<'a>>;

/// A string that is compared ignoring ASCII case, such as a key that a map owns.
pub type FoldedString<A = Global> = Folded<AsciiString<A>>;

impl<T: AsStr> Model for Folded<T> {
    ghost use Rattle.std.specs.Prelude.{List, ℕ};

    ghost Value = { List ℕ };

    ghost view = { λ folded. T.text folded.text };
}

impl<T: AsStr> Folded<T> {
    /// Returns the text as one that is compared ignoring ASCII case. Nothing is copied.
    ///
    ///     FoldedStr::new(AsciiStr::literal("Host")) // "Host"
    ///     Folded::new(AsciiStr::literal("").to_ascii_string(alloc)?) // ""
    #[inline]
    pub fn new(text: T) -> Folded<T>
        ensures { result ≡ T.text text }
    {
        Folded { text }
    }

    /// Returns the text, in its own case. A string keeps its buffer.
    ///
    ///     FoldedStr::new(AsciiStr::literal("Host")).into_inner() // "Host"
    ///     FoldedStr::new(AsciiStr::literal("a")).into_inner() == AsciiStr::literal("A") // false
    #[inline]
    pub fn into_inner(self) -> T
        ensures { T.text result ≡ self }
    {
        self.text
    }

    /// The bytes of the text, in its own case.
    #[inline]
    fn bytes(&self) -> &[u8]
        ensures { result.now ≡ self.now }
    {
        self.text.as_str().as_bytes()
    }
}

impl FoldedStr<'_> {
    /// Returns a copy of the text, in its own case, that is compared in the same way. Fails only if
    /// the allocation fails.
    ///
    ///     FoldedStr::new(AsciiStr::literal("Host")).to_folded_string(alloc)? // "Host"
    ///     FoldedStr::new(AsciiStr::literal("")).to_folded_string(alloc)? // ""
    pub fn to_folded_string<A: Allocator>(self, alloc: A) -> Result<FoldedString<A>, AllocError>
        ensures { IfOk result (λ folded. folded ≡ self.entry) }
    {
        Ok(Folded::new(self.text.to_ascii_string(alloc)?))
    }
}

impl<B: Buffer> Folded<Text<B>> {
    /// Returns a view of the text that is compared in the same way.
    ///
    ///     let key = FoldedStr::new(AsciiStr::literal("Host")).to_folded_string(alloc)?;
    ///     key.as_folded() == FoldedStr::new(AsciiStr::literal("HOST")) // true
    ///     key.as_folded() == FoldedStr::new(AsciiStr::literal("Hos")) // false
    #[inline]
    pub fn as_folded(&self) -> FoldedStr<'_>
        ensures { result ≡ self.now }
    {
        Folded::new(self.text.as_ascii_str())
    }
}

impl<T: AsStr> PartialEq for Folded<T> {
    ghost eq = { on (map lower_image) (pointwise ◌==◌) };

    ghost laws = { Prim.search (comparing, rules) };

    /// Returns `true` if the two texts are equal, ignoring ASCII case.
    ///
    ///     FoldedStr::new(AsciiStr::literal("Host")) == FoldedStr::new(AsciiStr::literal("Hosts")) // false
    ///     Folded::new(AsciiStr::literal("Host")) == Folded::new(AsciiStr::literal("HOST")) // true
    fn eq(&self, other: &Self) -> bool {
        kernels::eq_ignore_case(self.bytes(), other.bytes())
    }
}

impl<T: AsStr> Eq for Folded<T> {
    ghost laws = { Prim.search (comparing, rules) };
}

impl<T: AsStr> PartialOrd for Folded<T> {
    ghost partial_cmp = { as_partial_cmp (on (map lower_image) (slice_cmp nat_cmp)) };

    ghost laws = { partial_order_from_own_ties
        (Prim.search (comparing, rules)) (Prim.search (comparing, rules)) };

    /// Returns the order of the two texts in lower case: that of `cmp`.
    ///
    ///     FoldedStr::new(AsciiStr::literal("HOST")) < FoldedStr::new(AsciiStr::literal("hostess")) // true
    ///     FoldedStr::new(AsciiStr::literal("Z")) < FoldedStr::new(AsciiStr::literal("_")) // false
    fn partial_cmp(&self, other: &Self) -> Option<Ordering> {
        Some(self.cmp(other))
    }
}

impl<T: AsStr> Ord for Folded<T> {
    ghost cmp = { on (map lower_image) (slice_cmp nat_cmp) };

    ghost total = { Prim.search (comparing, rules) };

    ghost matches_partial_cmp = { Prim.search (comparing, rules) };

    ghost matches_eq = { Prim.search (comparing, rules) };

    /// Returns the order of the two texts in lower case: lexicographic, by the codes.
    ///
    ///     FoldedStr::new(AsciiStr::literal("b")).cmp(&FoldedStr::new(AsciiStr::literal("A"))) // Greater
    ///     Folded::new(AsciiStr::literal("a")).cmp(&Folded::new(AsciiStr::literal("A"))) // Equal
    fn cmp(&self, other: &Self) -> Ordering {
        compare_lower(self.bytes(), other.bytes())
    }
}

impl<T: AsStr> Hash for Folded<T> {
    ghost hash_input = { λ folded. fed.slice fed.u8 (map lower_image folded) };

    ghost respects_eq = { Prim.search (hashing, rules) };

    /// Hashes the text in lower case, so that equal texts have equal hashes.
    ///
    ///     let mut seen = HashSet::new(alloc);
    ///     seen.insert(FoldedStr::new(AsciiStr::literal("Host")))? // true
    ///     seen.insert(FoldedStr::new(AsciiStr::literal("HOST")))? // false
    fn hash<H: Hasher>(&self, state: &mut H) {
        let bytes = self.bytes();
        state.write_usize(bytes.len());
        feed_lower(bytes, state);
    }
}

/// The order of the lower images of two byte strings. Only bytes that differ are mapped, since equal bytes have equal images.
#[tactic(auto, using(crate::proofs::OrderLemmas::compares_next, crate::proofs::OrderLemmas::compares_end))]
fn compare_lower(first: &[u8], second: &[u8]) -> Ordering
    ensures { result ≡ slice_cmp nat_cmp (map lower_image first.now) (map lower_image second.now) }
{
    let common = first.len().min(second.len());
    for i in 0..common {
        if first[i] != second[i] {
            let order = lower(&first[i]).cmp(&lower(&second[i]));
            if order != Ordering::Equal {
                return order;
            }
        }
    }
    first.len().cmp(&second.len())
}

/// The lower image of a byte.
#[inline]
fn lower(byte: &u8) -> u8
    ensures { result ≡ lower_image byte.now }
{
    byte.to_ascii_lowercase()
}

/// Feeds the lower image of each byte to a hasher.
fn feed_lower<H: Hasher>(bytes: &[u8], state: &mut H)
    ensures { state.new ≡ fold H.write state.old (flat_map fed.u8 (map lower_image bytes.now)) }
{
    for byte in bytes {
        state.write_u8(lower(byte));
    }
}

impl<T: AsStr> fmt::Display for Folded<T> {
    ghost use Rattle.std.specs.Prelude.{Some};
    ghost use Rattle.std.specs.Fmt.{styled_text};

    ghost output = { λ folded. Some folded };

    ghost styled_output = { λ folded spec. Some (styled_text spec folded) };

    /// Writes the text in its own case, with the width, the alignment and the precision of the
    /// format, as for `str`.
    ///
    ///     format!(in alloc; "{}", FoldedStr::new(AsciiStr::literal("Host")))? // "Host"
    ///     format!(in alloc; "{:>5.3}", FoldedStr::new(AsciiStr::literal("Host")))? // "  Hos"
    fn fmt<W: fmt::Write>(&self, f: &mut fmt::Formatter<W>) -> fmt::Result {
        fmt::Display::fmt(self.text.as_str(), f)
    }
}

impl fmt::Debug for FoldedStr<'_> {
    ghost use Rattle.std.specs.Prelude.{Some};
    ghost use Rattle.ascii.specs.View.{debug_text};

    ghost debug_output = { λ folded. Some (debug_text folded) };

    /// Writes the text in its own case, in double quotes, escaped as std escapes it.
    ///
    ///     format!(in alloc; "{:?}", FoldedStr::new(AsciiStr::literal("Host")))? // "\"Host\""
    ///     format!(in alloc; "{:?}", FoldedStr::new(AsciiStr::literal("\t")))? // "\"\\t\""
    fn fmt<W: fmt::Write>(&self, f: &mut fmt::Formatter<W>) -> fmt::Result {
        fmt::Debug::fmt(&self.text, f)
    }
}

impl<B: Buffer> fmt::Debug for Folded<Text<B>> {
    ghost use Rattle.std.specs.Prelude.{Some};
    ghost use Rattle.ascii.specs.View.{debug_text};

    ghost debug_output = { λ folded. Some (debug_text folded) };

    /// Writes the text in its own case, in double quotes, escaped as std escapes it.
    ///
    ///     FoldedStr::new(AsciiStr::literal("Host")).to_folded_string(alloc)? // "Host"
    ///     FoldedStr::new(AsciiStr::literal("a\tb")).to_folded_string(alloc)? // "a\tb"
    fn fmt<W: fmt::Write>(&self, f: &mut fmt::Formatter<W>) -> fmt::Result {
        fmt::Debug::fmt(&self.as_folded(), f)
    }
}
