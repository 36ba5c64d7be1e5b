//! Laws of the lines of an input, for the proofs of callers. Each is a function that does nothing,
//! and its contract is the law.

ghost use Rattle.run_digest_engine.specs.Laws.{LinesAreCut, OneEntry, OneReading, OneStart, OneUnit};

/// The lines of an input join to it. Each ends with its only line feed, except that the last may
/// have none.
pub fn lines_are_cut()
    ensures { LinesAreCut }
{
    output_slice::laws::lines_are_cut();
}

/// A line is the start of at most one run, for each keyword.
pub fn one_start()
    ensures { OneStart }
{}

/// A line is at most one unit.
pub fn one_unit()
    ensures { OneUnit }
{}

/// A line is a unit or the start of a sub-run, and never both.
pub fn one_entry()
    ensures { OneEntry }
{}

/// Lines describe at most one list of runs.
pub fn one_reading()
    ensures { OneReading }
{}
