//! The caller that the page on calling `run_digest_engine` shows.

ghost use Rattle.std.specs.Prelude.{◌≡◌, ◌↔◌, ◌⊎◌, true, false, IfErr, IfOk, IfSome, IsErrOf, MatchOption};
ghost use Rattle.run_digest_engine.specs.Answer.{NoBadLine};
ghost use Rattle.run_digest_engine.specs.Reading.{IsFirstBadLine, texts_of};
ghost use Rattle.run_digest_engine.specs.declared.fault.Fault.TheVariants as faults;

use program_io::device::{Sink, Source};
use run_digest_engine::count::count;
use run_digest_engine::fault::Fault;
use std::alloc::Global;

/// Counts the runs of a source and writes their reports to the sink. Returns the number of the
/// first bad line, counted from 1, or `None` if no line is bad. A failed write is not an error
/// here.
pub fn first_bad_line<R: Source, W: Sink>(
    alloc: Global,
    source: &mut R,
    sink: &mut W,
) -> Result<Option<usize>, Fault>
    requires source_works { R.failed source.old ≡ false }
    requires sink_works { W.failed sink.old ≡ false }
    ensures bad_line { IfSome (R.left source.old)
        (λ input. IfOk result (λ found. MatchOption found (NoBadLine (texts_of input))
        (IsFirstBadLine (texts_of input)))) }
    ensures errors { IfErr result (λ e. (e ≡ faults.Read) ⊎ (e ≡ faults.OutOfMemory)) }
    ensures read { IsErrOf result faults.Read ↔ (R.failed source.new ≡ true) }
{
    match count(alloc, source, sink) {
        Ok(_) | Err(Fault::Write) => Ok(None),
        Err(Fault::BadLine { number }) => Ok(Some(number)),
        Err(fault) => Err(fault),
    }
}
