//! What was made, as tests compare it. So the code that owns a text, and ends a test as memory runs out, is proved once, and not in each test.

use std::alloc::AllocError;
use std::process::Abort;

/// Asserts that a text was made, and is this one.
pub(crate) fn assert_shown(rt: &impl Abort, made: Result<String, AllocError>, want: &str) {
    let made = made.expect(rt, "memory");
    assert_eq!(rt; made.as_str(), want);
}

/// Asserts that this was found out, and holds.
pub(crate) fn assert_holds(rt: &impl Abort, found: Result<bool, AllocError>, what: &str) {
    assert!(rt; found.expect(rt, "memory"), "{what}");
}
