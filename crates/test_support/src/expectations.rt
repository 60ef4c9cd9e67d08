//! What a test expects, and how it fails if that is not so.

ghost use Rattle.std.specs.Prelude.{IsErr, IsOk, IsTrue, ◌↔◌};

use std::fmt::{Debug, Display};
use std::test::Fail;

/// What was found is what is wanted, or the test fails with both.
///
/// A call is easier to prove than `assert_eq!`, which writes out at each use how a failure is shown.
pub fn agree<T: PartialEq + Debug + Drop>(found: T, wanted: T) -> Result<(), Fail>
    ensures { IsOk result ↔ IsTrue (T.eq found wanted) }
{
    if found == wanted {
        return Ok(());
    }
    Err(Fail::new(format_args!("found {found:?}, wanted {wanted:?}")))
}

/// What was found at one of several places is what is wanted there, or the test fails with the place and both.
pub fn agree_at<P: Display + Drop, T: PartialEq + Debug + Drop>(
    place: P,
    found: T,
    wanted: T,
) -> Result<(), Fail>
    ensures { IsOk result ↔ IsTrue (T.eq found wanted) }
{
    if found == wanted {
        return Ok(());
    }
    Err(Fail::new(format_args!("{place}: found {found:?}, wanted {wanted:?}")))
}

/// The call answered that memory was refused; what it was given is as it was, and the same call again succeeds.
const REFUSED: &str = "a growth was refused, and all is as it was";

/// The call answered otherwise, or what it was given is not as it was.
const CHANGED: &str = "a growth was refused, and not all is as it was";

/// The end of a test in which a growth was refused: it fails with one of two texts, which `tests/refused-memory` counts.
pub fn growth_refused(is_as_it_was: bool) -> Result<(), Fail>
    ensures { IsErr result }
{
    Err(Fail::new(if is_as_it_was { REFUSED } else { CHANGED }))
}
