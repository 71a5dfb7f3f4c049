//! Assertions that print what they compared.

ghost use Rattle.std.specs.Prelude.{◌↔◌, IsOk, IsTrue};

use std::alloc::Global;
use std::fmt;
use std::fmt::Debug;

/// Fails the test if `got` differs from `want`, and prints both, and the source of `got`.
///
/// The crate of the test has the function `tests::assert_same`, which takes the error of `compare`.
#[macro_export]
macro_rules! assert_row {
    ($rt:expr; $got:expr, $want:expr) => {
        crate::tests::assert_same(&$rt, $got, $want, stringify!($got))
    };
}

/// Fails the test if the `{:?}` output of `got` is not `want`, and prints both.
///
/// The crate of the test has the function `tests::assert_shows`, which takes the error of
/// `compare_debug`.
#[macro_export]
macro_rules! assert_debug {
    ($rt:expr; $got:expr, $want:expr) => {
        crate::tests::assert_shows(&$rt, $rt.alloc(), &$got, $want)
    };
}

/// The error of a comparison of two values: both, and the source of the first one.
#[derive(Drop)]
pub struct Different<T> {
    got: T,
    want: T,
    source: &'static str,
}

/// Prints the source and the two values, a line each.
impl<T: Debug> Debug for Different<T> {
    fn fmt<W: fmt::Write>(&self, f: &mut fmt::Formatter<W>) -> fmt::Result {
        let Different { got, want, source } = self;
        write!(f, "{source}\n got: {got:?}\nwant: {want:?}")
    }
}

/// Returns an error with both values if they differ.
pub fn compare<T: PartialEq + Drop>(
    got: T,
    want: T,
    source: &'static str,
) -> Result<(), Different<T>>
    ensures { IsOk result ↔ IsTrue (T.eq got want) }
{
    if got == want {
        Ok(())
    } else {
        Err(Different { got, want, source })
    }
}

/// The error of a comparison of a value's `{:?}` output: the value, and the expected output.
#[derive(Drop)]
pub struct DifferentDebug<'a, T> {
    got: &'a T,
    want: &'a str,
}

/// Prints the two outputs, a line each.
impl<'a, T: Debug> Debug for DifferentDebug<'a, T> {
    fn fmt<W: fmt::Write>(&self, f: &mut fmt::Formatter<W>) -> fmt::Result {
        let DifferentDebug { got, want } = self;
        write!(f, "\n got: {got:?}\nwant: {want}")
    }
}

/// Returns an error if the `{:?}` output of `got` is not `want`, or if an allocation fails.
pub fn compare_debug<'a, T: Debug>(
    alloc: Global,
    got: &'a T,
    want: &'a str,
) -> Result<(), DifferentDebug<'a, T>> {
    match format!(in alloc; "{got:?}") {
        Ok(text) if text.as_str() == want => Ok(()),
        _ => Err(DifferentDebug { got, want }),
    }
}
