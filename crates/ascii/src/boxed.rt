//! Owned text in a box, shared text, and text that is borrowed or owned.

ghost use Rattle.std.specs.Prelude.{◌≡◌, IfErr, IfOk, IsOkAnd};
ghost use Rattle.std.specs.Box.{boxed_str_bytes};
ghost use Rattle.ascii.specs.View.{text_of};

use crate::ascii_str::AsciiStr;
use crate::ascii_string::{AsciiString, Text};
use std::alloc::{AllocError, Allocator, Global};
use std::boxed::BoxedStr;
use std::convert::AsStr;
use std::marker::Model;
use std::rc::RcStr;

/// Text that is kept and can't be edited, in a box or shared: `BoxedAsciiStr` or `RcAsciiStr`.
///
/// `==`, the order and the hash are those of the text.
#[derive(Drop)]
pub struct Kept<S: AsStr> {
    text: S,
}

/// ASCII text in a box: owned text that does not grow.
pub type BoxedAsciiStr<A = Global> = Kept<BoxedStr<A>>;

/// ASCII text that several owners share by counting references.
pub type RcAsciiStr<A = Global> = Kept<RcStr<A>>;

impl<S: AsStr> Model for Kept<S> {
    ghost use Rattle.std.specs.Prelude.{List, ℕ};
    ghost use Rattle.std.specs.Str.{IsAscii};

    ghost Value = { List ℕ };

    ghost view = { λ kept. S.text kept.text };

    ghost invariant = { λ kept. IsAscii (S.text kept.text) };
}

impl<S: AsStr> Kept<S> {
    /// Returns a view of the text.
    ///
    ///     BoxedAsciiStr::from_ascii_str(alloc, AsciiStr::literal("foo"))?.as_ascii_str().len() // 3
    ///     RcAsciiStr::from_ascii_str(alloc, AsciiStr::literal(""))?.as_ascii_str() // ""
    #[inline]
    pub fn as_ascii_str(&self) -> AsciiStr<'_>
        ensures { text_of result ≡ self.now }
    {
        AsciiStr {
            bytes: self.text.as_str().as_bytes(),
        }
    }
}

impl<A: Allocator> Kept<BoxedStr<A>> {
    /// Returns a copy of a view in a box. Fails only if the allocation fails.
    ///
    ///     BoxedAsciiStr::from_ascii_str(alloc, AsciiStr::literal("foo"))?.as_ascii_str() // "foo"
    ///     BoxedAsciiStr::from_ascii_str(alloc, AsciiStr::literal(""))?.as_ascii_str() // ""
    pub fn from_ascii_str(alloc: A, view: AsciiStr<'_>) -> Result<BoxedAsciiStr<A>, AllocError>
        ensures { IfOk result (λ boxed. boxed ≡ text_of view.entry) }
    {
        Ok(Kept {
            text: BoxedStr::from_str(alloc, view.as_str())?,
        })
    }

    /// Converts the box into a string that can grow, keeping its buffer. Always returns `Ok`.
    ///
    ///     BoxedAsciiStr::from_ascii_str(alloc, AsciiStr::literal("foo"))?.into_ascii_string().ok() // Some("foo")
    ///     let empty = BoxedAsciiStr::from_ascii_str(alloc, AsciiStr::literal(""))?;
    ///     empty.into_ascii_string().ok() // Some("")
    pub fn into_ascii_string(self) -> Result<AsciiString<A>, BoxedAsciiStr<A>>
        ensures { IsOkAnd result (λ string. string.text ≡ self) }
    {
        let bytes = self.text.into_string().into_bytes();
        Ok(AsciiString::from_ascii_unchecked(bytes))
    }

    /// Converts the box into a boxed `str`, keeping its buffer. Cannot fail.
    ///
    ///     BoxedAsciiStr::from_ascii_str(alloc, AsciiStr::literal("foo"))?.into_boxed_str() // "foo"
    ///     BoxedAsciiStr::from_ascii_str(alloc, AsciiStr::literal(""))?.into_boxed_str() // ""
    pub fn into_boxed_str(self) -> BoxedStr<A>
        ensures { boxed_str_bytes result ≡ self }
    {
        self.text
    }
}

impl<A: Allocator> Kept<RcStr<A>> {
    /// Returns a shared copy of a view. Fails only if the allocation fails.
    ///
    ///     RcAsciiStr::from_ascii_str(alloc, AsciiStr::literal("foo"))?.as_ascii_str() // "foo"
    ///     RcAsciiStr::from_ascii_str(alloc, AsciiStr::literal(""))?.as_ascii_str() // ""
    pub fn from_ascii_str(alloc: A, view: AsciiStr<'_>) -> Result<RcAsciiStr<A>, AllocError>
    where
        A: Clone,
        ensures { IfOk result (λ shared. shared ≡ text_of view.entry) }
    {
        Ok(Kept {
            text: RcStr::from_str(alloc, view.as_str())?,
        })
    }
}

// Shared text alone can be cloned: a clone of boxed text would need an allocator.
impl<A: Allocator> Clone for Kept<RcStr<A>> {
    ghost is_clone = { λ shared copy. copy ≡ shared };

    /// Returns one more owner of the text. Does not allocate.
    ///
    ///     let shared = RcAsciiStr::from_ascii_str(alloc, AsciiStr::literal("foo"))?;
    ///     shared.clone()? // "foo"
    ///     shared.clone()? == shared // true
    fn clone(&self) -> Result<RcAsciiStr<A>, AllocError> {
        Ok(Kept {
            text: self.text.clone()?,
        })
    }
}

impl<A: Allocator> Text<Vec<u8, A>> {
    /// Converts the string into boxed text, keeping its buffer. Always returns `Ok`.
    ///
    ///     AsciiStr::literal("foo").to_ascii_string(alloc)?.into_boxed_ascii_str().is_ok() // true
    ///     AsciiString::new(alloc).into_boxed_ascii_str().ok() // Some("")
    pub fn into_boxed_ascii_str(self) -> Result<BoxedAsciiStr<A>, AsciiString<A>>
        ensures { IsOkAnd result (λ boxed. boxed ≡ self.text) }
    {
        let text = String::from(self).into_boxed_str();
        Ok(Kept { text })
    }

    /// Returns a shared copy of the text, and drops the string. If the allocation fails, returns
    /// the string as the error.
    ///
    ///     AsciiStr::literal("foo").to_ascii_string(alloc)?.into_rc_ascii_str(alloc).is_ok() // true
    ///     AsciiString::new(alloc).into_rc_ascii_str(alloc).ok() // Some("")
    pub fn into_rc_ascii_str<B: Allocator + Clone>(
        self,
        alloc: B,
    ) -> Result<RcAsciiStr<B>, AsciiString<A>>
        ensures ok { IfOk result (λ shared. shared ≡ self.text) }
        ensures err { IfErr result (λ string. string ≡ self) }
    {
        RcAsciiStr::from_ascii_str(alloc, self.as_ascii_str()).map_err(|_| self)
    }
}

/// ASCII text that is borrowed or owned.
///
/// It is an enum with public variants, as std's `Cow`: a contract sees the variant, and its text is `cow_text`. So it is not
/// a `Kept`, which a contract sees as its text.
#[derive(Drop)]
pub enum CowAsciiStr<'a, A: Allocator = Global> {
    /// Borrowed text: a view.
    Borrowed(AsciiStr<'a>),
    /// Owned text: a string.
    Owned(AsciiString<A>),
}

impl<'a, A: Allocator> CowAsciiStr<'a, A> {
    ghost use Rattle.ascii.specs.Cow.{OwnedStays, cow_text};

    /// Returns a view of the text.
    ///
    ///     let cow: CowAsciiStr = AsciiStr::literal("foo").into();
    ///     cow.as_ascii_str() // "foo"
    ///     CowAsciiStr::Owned(AsciiString::new(alloc)).as_ascii_str() // ""
    pub fn as_ascii_str(&self) -> AsciiStr<'_>
        ensures { text_of result ≡ cow_text self.now }
    {
        match self {
            CowAsciiStr::Borrowed(view) => *view,
            CowAsciiStr::Owned(string) => string.as_ascii_str(),
        }
    }

    /// Converts the text into a string: an owned one is returned as it is, a borrowed one is
    /// copied. If the allocation for the copy fails, returns the value itself as the error.
    ///
    ///     let cow: CowAsciiStr = AsciiStr::literal("foo").into();
    ///     cow.into_owned(alloc).ok() // Some("foo")
    ///     CowAsciiStr::Owned(AsciiString::new(alloc)).into_owned(alloc).ok() // Some("")
    pub fn into_owned(self, alloc: A) -> Result<AsciiString<A>, CowAsciiStr<'a, A>>
        ensures ok { IfOk result (λ string. string.text ≡ cow_text self.entry) }
        ensures owned { OwnedStays self.entry result }
        ensures err { IfErr result (λ cow. cow ≡ self.entry) }
    {
        match self {
            CowAsciiStr::Owned(string) => Ok(string),
            CowAsciiStr::Borrowed(view) => view
                .to_ascii_string(alloc)
                .map_err(|_| CowAsciiStr::Borrowed(view)),
        }
    }
}

impl<'a, A: Allocator> From<AsciiStr<'a>> for CowAsciiStr<'a, A> {
    ghost use Rattle.ascii.specs.declared.boxed.CowAsciiStr.TheVariants.{Borrowed};

    ghost from_gives = { λ view cow. cow ≡ Borrowed view };

    /// Wraps a view as borrowed text.
    ///
    ///     let cow: CowAsciiStr = AsciiStr::literal("foo").into();
    ///     cow.as_ascii_str() // "foo"
    ///     matches!(cow, CowAsciiStr::Borrowed(_)) // true
    fn from(view: AsciiStr<'a>) -> CowAsciiStr<'a, A> {
        CowAsciiStr::Borrowed(view)
    }
}

impl<'a, A: Allocator> From<AsciiString<A>> for CowAsciiStr<'a, A> {
    ghost use Rattle.ascii.specs.declared.boxed.CowAsciiStr.TheVariants.{Owned};

    ghost from_gives = { λ string cow. cow ≡ Owned string };

    /// Wraps a string as owned text.
    ///
    ///     let cow: CowAsciiStr = AsciiStr::literal("foo").to_ascii_string(alloc)?.into();
    ///     cow.as_ascii_str() // "foo"
    ///     matches!(cow, CowAsciiStr::Borrowed(_)) // false
    fn from(string: AsciiString<A>) -> CowAsciiStr<'a, A> {
        CowAsciiStr::Owned(string)
    }
}
