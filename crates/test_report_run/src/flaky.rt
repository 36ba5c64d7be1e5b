//! The flaky tests of a suite.

ghost use Rattle.std.specs.Prelude.{length};
ghost use Rattle.test_report_run_notes.specs.InOrder.{IsPlaced};

mod changes;

use crate::suite::FlakyTest;
use std::collections::BTreeMap;

/// The tests of a suite that passed after several attempts, in the order in which they started.
#[derive(Drop)]
pub(crate) struct FlakyTests {
    /// The tests. The key of a test is the number of tests that started before it, and the number of flaky tests
    /// that ended before it.
    pub(crate) tests: BTreeMap<(usize, usize), FlakyTest>,

    ghost placed: { IsPlaced (λ t. t.order) (length tests.entries) tests.entries },
}
