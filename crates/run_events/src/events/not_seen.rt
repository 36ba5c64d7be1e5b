//! The tests that a rerun did not find.

use crate::config::OwnedTestInstanceId;

/// The tests that an earlier run left for this one, and that have no event in this one. They may have
/// been removed or renamed.
#[derive(Debug, Drop)]
pub struct TestsNotSeen {
    /// Some of these tests, as many as a reporter should show.
    pub not_seen: Vec<OwnedTestInstanceId>,

    /// The number of all these tests.
    pub total_not_seen: usize,
}
