//! How all that is open ends early.

ghost use Rattle.std.specs.Prelude.{◌≡◌, [], None};
ghost use Rattle.test_report_run.specs.Over as spec;
ghost use Rattle.test_report_run.specs.Running.{running_test_view};

use crate::running::RunningTest;
use std::alloc::Global;
use std::collections::BTreeSet;
use test_report_events::program::ProgramEnd;

/// What is known when all that is open in a run ends early.
#[derive(Drop)]
pub struct EarlyEnd {
    /// How the program ended whose tests run, if a line says so.
    pub end: Option<ProgramEnd>,

    /// The names of the threads that overflowed their stack. If running tests have such names, these crashed, and the
    /// other running tests were stopped.
    pub overflowed: BTreeSet<String>,

    /// The names of the threads that panicked. They count as the others do, if no running test has one of those.
    pub panicked: BTreeSet<String>,
}

/// How a suite ends early.
pub(crate) struct Ending {
    /// How its program ended, if that is known.
    pub(crate) end: Option<ProgramEnd>,

    /// The names of the tests that crashed, if not all that ran did.
    pub(crate) crashed: Option<BTreeSet<String>>,
}

impl Drop for Ending {
    fn drop(self) {
        let Ending { end: _, crashed: _ } = self;
    }
}

impl EarlyEnd {
    /// Returns an end that nothing says anything about.
    pub fn unknown(alloc: Global) -> EarlyEnd
        ensures { spec.early_view result ≡ record { end = None; overflowed = []; panicked = [] } }
    {
        EarlyEnd {
            end: None,
            overflowed: BTreeSet::new(alloc),
            panicked: BTreeSet::new(alloc),
        }
    }
}

impl Ending {
    /// Returns the end of a suite that nothing says anything about.
    pub(crate) fn unknown() -> Ending
        ensures { spec.early_end_of result ≡ spec.nothing_known }
    {
        Ending {
            end: None,
            crashed: None,
        }
    }

    /// Returns true if a running test crashed: all did, or it has one of the names.
    pub(crate) fn crashes(&self, test: &RunningTest) -> bool
        ensures { result ≡ spec.is_crashed (spec.early_end_of self.now) (running_test_view test.now) }
    {
        match &self.crashed {
            Some(names) => is_among(names, test),
            None => true,
        }
    }
}

/// Returns true if a test has one of these names.
pub(crate) fn is_among(names: &BTreeSet<String>, test: &RunningTest) -> bool
    ensures { result ≡ spec.is_among (spec.names_of names.now) (running_test_view test.now) }
{
    names.contains(test.name.as_str())
}
