//! Lines that are cut.

ghost use Rattle.std.specs.Prelude.{◌≡◌, ◌≤◌, length};
ghost use Rattle.test_report_run.specs.LongestEnd.{cut_to};
ghost use Rattle.test_report_run.specs.Prints.{cut};

/// The most bytes that a note has of a line.
const MOST_IN_NOTE: usize = 200;

/// Returns the longest start of a line that has at most `most` bytes and ends between characters.
pub(crate) fn start_of(line: &str, most: usize) -> &str
    ensures start { result.now ≡ cut_to most line.now }
    ensures fits { length result.now ≤ most }
{
    &line[..line.floor_char_boundary(most)]
}

/// Returns the longest start of a line that has at most 200 bytes and ends between characters.
pub(crate) fn shortened(line: &str) -> &str
    ensures { result.now ≡ cut line.now }
{
    start_of(line, MOST_IN_NOTE)
}
