// What the tests of this crate compare by: a call is proved sooner than an assertion that stands in the test itself.
use std::fmt::Debug;
use std::process::Abort;

/// Ends the test unless both values are the same.
pub fn same<T: PartialEq + Debug + Drop>(rt: &impl Abort, got: T, want: T) {
    assert_eq!(rt; got, want);
}

/// Ends the test unless both values are the same, and says where.
pub fn same_at<A: Debug + Drop, T: PartialEq + Debug + Drop>(
    rt: &impl Abort,
    at: A,
    got: T,
    want: T,
) {
    assert_eq!(rt; got, want, "{at:?}");
}
