//! Counting runs, from the lines of their units to the reports of their counters.

ghost use Rattle.std.specs.Prelude.{◌≡◌, ◌≢◌, ◌↔◌, ℕ, true, false, IfErr, IfOk, IfSome, OnOk, IsErrOf, string_bytes};
ghost use Rattle.program_io.specs.Engine.{Answers, KeepsSink, ReadsToEnd};
ghost use Rattle.run_digest_engine.specs.Answer.{IsDigest, IsRefusal};
ghost use Rattle.run_digest_engine.specs.Fault.{stage_of};
ghost use Rattle.run_digest_engine.specs.Reading.{IsFirstBadLine, texts_of};
ghost use Rattle.run_digest_engine.specs.declared.fault.Fault.TheVariants as faults;

use crate::fault::Fault;
use crate::lines::stats_in;
use crate::report::reports;
use program_io::device::{Sink, Source};
use program_io::transfer::{read_all, write_all};
use run_events_stats::outcome::RunOutcome;
use std::alloc::Global;

/// Returns the text for an input, and whether the outcome of its runs is `Success`.
fn digest(alloc: Global, bytes: &[u8]) -> Result<(String, bool), Fault>
    ensures digest { IfOk result (λ d. IsDigest (texts_of bytes.now) (string_bytes d.0) d.1) }
    ensures refusal { IfErr result (λ fault. IsRefusal (texts_of bytes.now) fault) }
{
    let runs = stats_in(alloc, bytes)?;
    let (text, outcome) = reports(alloc, runs.as_slice())?;
    Ok((text, outcome == RunOutcome::Success))
}

/// Reads the finished units of a run, or of the sub-runs of a repeated run, from `source`, and writes
/// a report of each run to `sink`. Returns true if the outcome of all runs is `Success`.
///
/// A report is three lines: the numbers of the tests, those of the setup scripts, and the summary. If
/// there is more than one run, a line with their outcome follows.
///
/// The input is at most 10,000 lines, which end with `\n` or `\r\n`. The last line end may be
/// missing.
///
/// - Line 1 is `run TESTS SCRIPTS REASON`: how many tests and scripts were to run, each at most
///   1,000,000, and why the run was cancelled, or `-`.
/// - A line `sub-run TESTS SCRIPTS REASON` begins another sub-run.
/// - A line `script R` is a finished setup script with its result.
/// - A line `test R,R,..` is a finished test with the results of its 1 to 100 attempts. Then there can
///   be ` slow` for a slow last attempt, and then ` flaky-fail` for the setting that fails flaky tests.
///
/// Neither device may have failed before. All input is read first, then the whole text is written,
/// then the sink is flushed. After a fault nothing was written, except that after [`Fault::Write`]
/// some first bytes of the text may have been written.
///
/// - [`Fault::Read`] if and only if the source fails, and [`Fault::Write`] if and only if the sink
///   fails.
/// - [`Fault::BadLine`] with the number of the first bad line: a line that is not allowed there, line
///   10,001, or line 1 if there is none.
/// - [`Fault::OutOfMemory`] if there is not enough memory.
pub fn count<R: Source, W: Sink>(alloc: Global, source: &mut R, sink: &mut W) -> Result<bool, Fault>
    requires source_works { R.failed source.old ≡ false }
    requires sink_works { W.failed sink.old ≡ false }
    ensures faults { IfErr result (λ e. e ≢ faults.BadWord) }
    ensures read { IsErrOf result faults.Read ↔ (R.failed source.new ≡ true) }
    ensures write { IsErrOf result faults.Write ↔ (W.failed sink.new ≡ true) }
    ensures end { ReadsToEnd stage_of result (R.left source.new) }
    ensures kept { KeepsSink stage_of result (W.written sink.old) (W.written sink.new) }
    ensures flushed { OnOk result (W.flushed sink.new ≡ true) }
    ensures answer { IfSome (R.left source.old)
        (λ input. Answers stage_of (IsDigest (texts_of input)) result
        (W.written sink.old) (W.written sink.new)) }
    ensures bad_line { IfSome (R.left source.old)
        (λ input. (number : ℕ) → IsErrOf result (faults.BadLine number)
        → IsFirstBadLine (texts_of input) number) }
{
    let bytes = read_all(alloc, source)?;
    let (text, success) = digest(alloc, bytes.as_slice())?;
    write_all(sink, text.as_bytes())?;
    Ok(success)
}
