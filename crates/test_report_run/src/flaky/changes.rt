//! What adds flaky tests.

ghost use Rattle.std.specs.Prelude.{◌≡◌, [], OnOk, length};
ghost use Rattle.test_report_run.specs.Ended.{with_flaky};
ghost use Rattle.test_report_run.specs.Suite.{flaky_of, flaky_view};

use crate::flaky::FlakyTests;
use crate::suite::FlakyTest;
use std::alloc::{AllocError, Global};
use std::collections::BTreeMap;

impl FlakyTests {
    /// Returns no tests.
    pub(crate) fn new(alloc: Global) -> FlakyTests
        ensures { flaky_of result ≡ [] }
    {
        FlakyTests {
            tests: BTreeMap::new(alloc),
        }
    }

    /// Returns the number of tests.
    pub(crate) fn len(&self) -> usize
        ensures { result ≡ length (flaky_of self.now) }
    {
        self.tests.len()
    }

    /// Adds a test.
    pub(crate) fn insert(&mut self, test: FlakyTest) -> Result<(), AllocError>
        ensures { OnOk result (flaky_of self.new ≡ with_flaky (flaky_view test) (flaky_of self.old)) }
    {
        let place = (test.order, self.tests.len());
        self.tests.insert(place, test)?;
        Ok(())
    }
}
