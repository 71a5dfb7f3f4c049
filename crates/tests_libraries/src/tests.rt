//! What the differential test cannot ask: types of the test's own, as devices and strings in an array; generic code at such
//! types; the traits of std; and what errors print. All other rows are those of `bin/soak`.

mod devices;
mod size_hints;
mod strings;
mod strings_in_the_value;
mod traits;
mod views;

ghost use Rattle.std.specs.Prelude.{IsTrue};

use std::fmt::Debug;
use std::process::Abort;

/// Fails the test if `got` differs from `want`.
fn assert_same<T: PartialEq + Debug + Drop>(rt: &impl Abort, got: T, want: T, source: &'static str)
    ensures { IsTrue (T.eq got want) }
{
    testing::compare(got, want, source).expect(rt, "got differs from want")
}
