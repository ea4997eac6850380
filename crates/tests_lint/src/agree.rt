//! Assertions as calls. One that is written in a test is proved there anew, with all that it prints;
//! these are proved once, over any type. They stand in each crate of tests, since a library's functions
//! may not end the process.
use std::fmt::{Debug, Display};
use std::process::Abort;

/// Ends the test unless the two are the same, and tells of which row.
pub(crate) fn agree_at<T: PartialEq + Debug + Drop>(
    rt: &impl Abort,
    got: T,
    wanted: T,
    row: impl Display + Drop,
) {
    assert_eq!(rt; got, wanted, "{row}");
}
