//! A law about the events of lines, for the proofs of callers. It is a function that does nothing, and its
//! contract is the law.

ghost use Rattle.test_report_events.specs.Laws.{OneReadingOfLine};

/// A line is read in one way: it has one list of events.
pub fn one_reading_of_line()
    ensures { OneReadingOfLine }
{}
