//! Laws of a run in which lines tell of each test program.

ghost use Rattle.test_report_laws.specs.Programs.{ClosesAreEvents, FailedEndFails, FailedEndShows, FailedProgramShows, FileEndsAreEvents, LinesAreEvents, LinesKeepKnown, RunsAreFiles, UnstartedProgramShows};

/// Each line of a run with programs is events of a run, and so is what happens at the end of a file. As many of them say
/// that a test failed as of the events in the line. So a whole run with programs is a run of such events, and each law
/// of a run is true of these.
pub fn lines_are_events()
    ensures lines { LinesAreEvents }
    ensures closes { ClosesAreEvents }
    ensures file_ends { FileEndsAreEvents }
    ensures runs { RunsAreFiles }
{}

/// If a program ended with another status than 0, or ran no test and may not be empty, a failed test or a contradiction
/// is known when the program is over. So it is if a program ended with another status than 0 and did not start. If a line
/// says that a program ended in one of these ways, where such lines count, the outcome is neither `Success` nor
/// `NoTestsRun`.
pub fn failed_programs_show()
    ensures known { LinesKeepKnown }
    ensures programs { FailedProgramShows }
    ensures unstarted { UnstartedProgramShows }
    ensures ends { FailedEndShows }
    ensures outcome { FailedEndFails }
{}
