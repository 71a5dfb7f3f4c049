//! Equality, order and hash of boxed, shared, and borrowed or owned text: those of the view.

ghost use Rattle.std.specs.Prelude.{◌==◌};
ghost use Rattle.std.specs.Cmp.{partial_order_from_own_ties};
ghost use Rattle.std.specs.Cmp.Lexicographic.{pointwise, slice_cmp};
ghost use Rattle.std.specs.Cmp.Rules.{comparing, hashing};
ghost use Rattle.std.specs.Hash as fed;
ghost use Rattle.std.specs.Ordering.{as_partial_cmp, nat_cmp, on};
ghost use Rattle.std.proofs.Common.{rules};
ghost use Rattle.ascii.specs.Cow.{cow_text};

use crate::boxed::{CowAsciiStr, Kept};
use std::alloc::Allocator;
use std::cmp::Ordering;
use std::convert::AsStr;
use std::hash::{Hash, Hasher};

impl<S: AsStr> PartialEq for Kept<S> {
    ghost eq = { pointwise ◌==◌ };

    ghost laws = { Prim.search (comparing, rules) };

    /// Returns `true` if the two texts are equal.
    ///
    ///     let boxed = BoxedAsciiStr::from_ascii_str(alloc, AsciiStr::literal("foo"))?;
    ///     boxed == BoxedAsciiStr::from_ascii_str(alloc, AsciiStr::literal("foo"))? // true
    ///     boxed == BoxedAsciiStr::from_ascii_str(alloc, AsciiStr::literal("Foo"))? // false
    fn eq(&self, other: &Kept<S>) -> bool {
        self.as_ascii_str() == other.as_ascii_str()
    }
}

impl<S: AsStr> Eq for Kept<S> {
    ghost laws = { Prim.search (comparing, rules) };
}

impl<S: AsStr> PartialOrd for Kept<S> {
    ghost partial_cmp = { as_partial_cmp (slice_cmp nat_cmp) };

    ghost laws = { partial_order_from_own_ties
        (Prim.search (comparing, rules)) (Prim.search (comparing, rules)) };

    /// Returns the order of the two texts: that of `cmp`.
    ///
    ///     let boxed = BoxedAsciiStr::from_ascii_str(alloc, AsciiStr::literal("foo"))?;
    ///     boxed < BoxedAsciiStr::from_ascii_str(alloc, AsciiStr::literal("fop"))? // true
    ///     boxed < BoxedAsciiStr::from_ascii_str(alloc, AsciiStr::literal("Fop"))? // false
    fn partial_cmp(&self, other: &Kept<S>) -> Option<Ordering> {
        Some(self.cmp(other))
    }
}

impl<S: AsStr> Ord for Kept<S> {
    ghost cmp = { slice_cmp nat_cmp };

    ghost total = { Prim.search (comparing, rules) };

    ghost matches_partial_cmp = { Prim.search (comparing, rules) };

    ghost matches_eq = { Prim.search (comparing, rules) };

    /// Returns the order of the two texts: lexicographic, by the codes.
    ///
    ///     let boxed = BoxedAsciiStr::from_ascii_str(alloc, AsciiStr::literal("foo"))?;
    ///     boxed.cmp(&BoxedAsciiStr::from_ascii_str(alloc, AsciiStr::literal("fo"))?) // Greater
    ///     boxed.cmp(&BoxedAsciiStr::from_ascii_str(alloc, AsciiStr::literal("z"))?) // Less
    fn cmp(&self, other: &Kept<S>) -> Ordering {
        self.as_ascii_str().cmp(&other.as_ascii_str())
    }
}

impl<S: AsStr> Hash for Kept<S> {
    ghost hash_input = { λ kept. fed.slice fed.u8 kept };

    ghost respects_eq = { Prim.search (hashing, rules) };

    /// Hashes the text as a view of it is hashed.
    ///
    ///     let mut seen = HashSet::new(alloc);
    ///     seen.insert(BoxedAsciiStr::from_ascii_str(alloc, AsciiStr::literal("foo"))?)? // true
    ///     seen.insert(BoxedAsciiStr::from_ascii_str(alloc, AsciiStr::literal("foo"))?)? // false
    fn hash<H: Hasher>(&self, state: &mut H) {
        self.as_ascii_str().hash(state);
    }
}

impl<A: Allocator> PartialEq for CowAsciiStr<'_, A> {
    ghost eq = { on cow_text (pointwise ◌==◌) };

    ghost laws = { Prim.search (comparing, rules) };

    /// Returns `true` if the two texts are equal, whether borrowed or owned.
    ///
    ///     let cow: CowAsciiStr = AsciiStr::literal("foo").into();
    ///     cow == CowAsciiStr::Owned(AsciiStr::literal("foo").to_ascii_string(alloc)?) // true
    ///     cow == CowAsciiStr::Borrowed(AsciiStr::literal("Foo")) // false
    fn eq(&self, other: &CowAsciiStr<'_, A>) -> bool {
        self.as_ascii_str() == other.as_ascii_str()
    }
}

impl<A: Allocator> Eq for CowAsciiStr<'_, A> {
    ghost laws = { Prim.search (comparing, rules) };
}

impl<A: Allocator> PartialOrd for CowAsciiStr<'_, A> {
    ghost partial_cmp = { as_partial_cmp (on cow_text (slice_cmp nat_cmp)) };

    ghost laws = { partial_order_from_own_ties
        (Prim.search (comparing, rules)) (Prim.search (comparing, rules)) };

    /// Returns the order of the two texts: that of `cmp`.
    ///
    ///     let cow: CowAsciiStr = AsciiStr::literal("foo").into();
    ///     cow < CowAsciiStr::Borrowed(AsciiStr::literal("fop")) // true
    ///     cow < CowAsciiStr::Borrowed(AsciiStr::literal("Fop")) // false
    fn partial_cmp(&self, other: &CowAsciiStr<'_, A>) -> Option<Ordering> {
        Some(self.cmp(other))
    }
}

impl<A: Allocator> Ord for CowAsciiStr<'_, A> {
    ghost cmp = { on cow_text (slice_cmp nat_cmp) };

    ghost total = { Prim.search (comparing, rules) };

    ghost matches_partial_cmp = { Prim.search (comparing, rules) };

    ghost matches_eq = { Prim.search (comparing, rules) };

    /// Returns the order of the two texts: lexicographic, by the codes.
    ///
    ///     let cow: CowAsciiStr = AsciiStr::literal("foo").into();
    ///     cow.cmp(&CowAsciiStr::Borrowed(AsciiStr::literal("fo"))) // Greater
    ///     cow.cmp(&CowAsciiStr::Borrowed(AsciiStr::literal("z"))) // Less
    fn cmp(&self, other: &CowAsciiStr<'_, A>) -> Ordering {
        self.as_ascii_str().cmp(&other.as_ascii_str())
    }
}

impl<A: Allocator> Hash for CowAsciiStr<'_, A> {
    ghost hash_input = { λ cow. fed.slice fed.u8 (cow_text cow) };

    ghost respects_eq = { Prim.search (hashing, rules) };

    /// Hashes the text as a view of it is hashed.
    ///
    ///     let mut seen = HashSet::new(alloc);
    ///     seen.insert(CowAsciiStr::Owned(AsciiString::new(alloc)))? // true
    ///     seen.insert(CowAsciiStr::Borrowed(AsciiStr::literal("")))? // false
    fn hash<H: Hasher>(&self, state: &mut H) {
        self.as_ascii_str().hash(state);
    }
}
