//! Laws of a run.

ghost use Rattle.test_report_laws.specs.Run.{CargoFailureShows, CleanEndIsWhole, CommandEndShows, DamagedLineShows, EarlyEndShows, FailedLineShows, FailedLinesAreTold, FailedVerdictShows, FailureIsTold, FailuresAreKnown, LastLineAgrees, NoEventShows, NoFailureOfFileEnd, OneFailureOfLine, OutcomeMeans, StrayEndShows, SuitesAreSound, TotalsAreCounts};
ghost use Rattle.test_report_laws.specs.Status.{AnnouncedAreCounted, FailureHasReason, NotRunIsNamed, SuccessIsInOrder};

/// A line that says that a test failed makes exactly one such failure known, with the name in the line,
/// without `#N` after N attempts, and with the time and the reason of the line. No other line makes one
/// known, and neither does the end of a file.
pub fn one_failure_of_line()
    ensures lines { OneFailureOfLine }
    ensures file_ends { NoFailureOfFileEnd }
    ensures told { FailureIsTold }
{}

/// The sums at the end of a run count the tests that became known. The number of skipped tests is at least that
/// of those that became known.
pub fn totals_are_counts()
    ensures { TotalsAreCounts }
{}

/// The outcome of a run is `Success` or `NoTestsRun` if and only if no test failed, there is no contradiction, and no
/// suite has tests that were not run. Skipped tests do not count as not run. It is `Success` if and only if
/// also a test passed.
pub fn outcome_means()
    ensures { OutcomeMeans }
{}

/// No contradiction is hidden. The last line of a suite agrees with its tests, or a contradiction becomes
/// known. The same is true of a suite that ends early, and of a last line that counts tests of a suite that
/// is not open.
pub fn nothing_is_hidden()
    ensures last_lines { LastLineAgrees }
    ensures early_ends { EarlyEndShows }
    ensures stray_ends { StrayEndShows }
    ensures sound { SuitesAreSound }
    ensures known { FailuresAreKnown }
{}

/// Each line of a whole run that says that a test failed makes a failed test known. If there is such a
/// line, the outcome is neither `Success` nor `NoTestsRun`.
pub fn failed_lines_show()
    ensures told { FailedLinesAreTold }
    ensures shown { FailedLineShows }
{}

/// A run with the outcome `Success` or `NoTestsRun` has no last line of a suite with a failed verdict, and no
/// damaged line that says that a test or a suite failed. Each of its commands whose end is known ended with status 0,
/// and each of its other files has an event of a harness. A suite whose last line makes nothing wrong known has skipped
/// each test that has no end, and ran or skipped as many tests as it announced. If cargo reports a failure while no suite
/// is open, other than in the output of a command, a failed test or a contradiction becomes known.
pub fn success_means()
    ensures verdicts { FailedVerdictShows }
    ensures damaged { DamagedLineShows }
    ensures events { NoEventShows }
    ensures commands { CommandEndShows }
    ensures whole { CleanEndIsWhole }
    ensures cargo { CargoFailureShows }
{}

/// A run that does not succeed has a reason that becomes known: a failed test, a contradiction, or a
/// suite whose tests were not all run, which a note names. Otherwise its outcome is `NoTestsRun`, and no
/// test passed.
pub fn failure_has_reason()
    ensures named { NotRunIsNamed }
    ensures reason { FailureHasReason }
{}

/// If the outcome is `Success`, a test passed, and nothing is wrong with the lines of the run: no test
/// failed, there is no contradiction, and no suite has tests that were not run. No line says that a test failed, no
/// last line of a suite has a failed verdict, and no damaged line says that a test or a suite failed. Each
/// command whose end is known ended with status 0, and each other file has an event of a harness. Each last line that
/// ends a suite agrees with its tests, and each of them ended or was skipped. A last line of a suite that is not open
/// counts no test that ran. Each suite has its last line, and no test starts outside of a suite. At least as many tests
/// finished or were skipped as were announced. No failure of cargo is read while no suite is open, other than in the
/// output of a command. If the outcome is `NoTestsRun`, no test passed, and nothing is wrong either.
pub fn success_is_in_order()
    ensures announced { AnnouncedAreCounted }
    ensures in_order { SuccessIsInOrder }
{}
