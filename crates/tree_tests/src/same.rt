//! Two values that have to be the same. The tests call this function, since an `assert_eq!` is dear wherever it stands.
use std::fmt::Debug;
use std::process::Abort;

/// That what was found is what is wanted. Where it isn't, the place is told.
pub fn assert_same<T: PartialEq + Debug + Drop, P: Debug + Drop>(
    rt: &impl Abort,
    found: T,
    wanted: T,
    place: P,
) {
    assert_eq!(rt; found, wanted, "at {place:?}");
}
