//! The one assertion of these tests.

use std::fmt::{Debug, Display};
use std::process::Abort;

/// Both are one, or the test ends, and says what was looked at and what was told. It is a function of its own, since an assertion that is
/// written out is proved anew with all that is alive where it stands.
pub(crate) fn same<T: PartialEq + Debug + Drop>(
    rt: &impl Abort,
    what: impl Display + Drop,
    told: T,
    wanted: T,
) {
    assert_eq!(rt; told, wanted, "{what}");
}
