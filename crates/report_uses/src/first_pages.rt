//! A short caller for the first page of a library that no other file has.

ghost use Rattle.std.specs.Prelude.{◌≡◌, ◌||◌, nat_lt};
ghost use Rattle.test_report_run_notes.specs.Note.{failed_of};

use test_report_run_notes::note::{RunEnd, failed_count};

/// Returns true if a test of a run failed or was not run.
pub fn lacks_success(end: &RunEnd) -> bool
    ensures { result ≡ (nat_lt 0 (failed_of end.now.stats) || nat_lt 0 end.now.not_run) }
{
    failed_count(&end.stats) > 0 || end.not_run > 0
}
