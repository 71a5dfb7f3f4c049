//! The errors of conversions to ASCII text.

ghost use Rattle.std.specs.Prelude.{◌≡◌, Some};

use crate::ascii_str::AsAsciiStrError;
use std::alloc::AllocError;
use std::fmt;

/// The error of a failed conversion to ASCII text: it holds the source, unchanged, and the position
/// of its first non-ASCII byte.
#[derive(PartialEq, Eq, Drop)]
pub struct FromAsciiError<O> {
    pub(crate) error: AsAsciiStrError,
    pub(crate) source: O,
}

impl<O> FromAsciiError<O> {
    ghost use Rattle.ascii.specs.ConversionError.{ascii_error_of, source_of};

    /// Returns why the source was rejected: the position of its first non-ASCII byte.
    ///
    ///     vec::into_ascii_string(Vec::from_slice(alloc, b"ab\xc4")?).map_err(|e| e.ascii_error()) // Err(AsAsciiStrError(2))
    ///     vec::into_ascii_string(Vec::new(alloc)).map_err(|e| e.ascii_error()) // Ok("")
    #[inline]
    pub fn ascii_error(&self) -> AsAsciiStrError
        ensures { result ≡ ascii_error_of self.now }
    {
        self.error
    }

    /// Returns the source, unchanged.
    ///
    ///     vec::into_ascii_string(Vec::from_slice(alloc, b"ab\xc4")?).map_err(|e| e.into_source()) // Err([97, 98, 196])
    ///     string::into_ascii_string(String::new(alloc)).map_err(|e| e.into_source()) // Ok("")
    #[inline]
    pub fn into_source(self) -> O
        ensures { result ≡ source_of self }
    {
        let FromAsciiError { error: _, source } = self;
        source
    }
}

impl<O> fmt::Display for FromAsciiError<O> {
    ghost use Rattle.ascii.specs.ConversionError.{ascii_error_of};
    ghost use Rattle.ascii.specs.View.{error_text, position_of};

    ghost output = { λ e. Some (error_text (position_of (ascii_error_of e))) };

    /// Writes the line of the position, as `the byte at index 2 is not ASCII`.
    ///
    ///     vec::into_ascii_string(Vec::from_slice(alloc, b"ab\xc4")?).map_err(|e| e.to_string(alloc)) // Err(Ok("the byte at index 2 is not ASCII"))
    ///     vec::into_ascii_string(Vec::new(alloc)).map_err(|e| e.to_string(alloc)) // Ok("")
    fn fmt<W: fmt::Write>(&self, f: &mut fmt::Formatter<W>) -> fmt::Result {
        fmt::Display::fmt(&self.error, f)
    }
}

impl<O> fmt::Debug for FromAsciiError<O> {
    /// Writes the error for a programmer. No contract states this text.
    ///
    ///     vec::into_ascii_string(Vec::from_slice(alloc, b"ab\xc4")?) // Err(AsAsciiStrError(2))
    ///     string::into_ascii_string(String::from_str(alloc, "č")?) // Err(AsAsciiStrError(0))
    fn fmt<W: fmt::Write>(&self, f: &mut fmt::Formatter<W>) -> fmt::Result {
        fmt::Debug::fmt(&self.error, f)
    }
}

/// The error of a failed copy of a source into owned text.
#[derive(PartialEq, Eq, Debug, Drop)]
pub enum CopyError<O> {
    /// A byte of the source is not ASCII. This is decided before anything is allocated.
    NotAscii(FromAsciiError<O>),
    /// The allocation for the copy failed.
    Memory(AllocError),
}
