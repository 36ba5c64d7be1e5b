//! Counting the runs of an input.

ghost use Rattle.std.specs.Prelude.{◌≡◌, IfErr, IfOk};
ghost use Rattle.run_digest_engine.specs.Counted.{AreCounted, Counts, HasRoom};
ghost use Rattle.run_digest_engine.specs.Answer.{IsRefusal};
ghost use Rattle.run_digest_engine.specs.EntryView.{entry_view};
ghost use Rattle.run_digest_engine.specs.Reader.{start_of_words, words_of};
ghost use Rattle.run_digest_engine.specs.Reading.{texts_of};

use crate::entry::{Entry, parse_entry};
use crate::fault::Fault;
use crate::parts::Parts;
use crate::words::parse_start;
use bstr::ByteSlice;
use run_events_stats::stats::{RunStart, RunStats};
use std::alloc::{AllocError, Global};

/// The greatest number of lines of an input.
const MAX_LINES: usize = 10_000;

/// Parses line 1.
#[tactic(auto, unfolding(crate::specs::Reader::start_of_words))]
fn parse_first(line: &[u8]) -> Option<RunStart>
    ensures { result ≡ start_of_words (words_of line.now) }
{
    let Ok(text) = str::from_utf8(line) else {
        return None;
    };
    let mut words = Parts::new(text, ' ');
    match words.next() {
        Some("run") => parse_start(words),
        _ => None,
    }
}

/// Counts a line, and returns the statistics of the current run. If another sub-run begins, those of
/// the run before it are pushed to `runs`.
fn count_entry(
    runs: &mut Vec<RunStats>,
    mut stats: RunStats,
    entry: Entry,
) -> Result<RunStats, AllocError>
    requires { HasRoom stats (entry_view entry) }
    ensures { IfOk result
        (λ next. Counts (entry_view entry) runs.old.items stats runs.new.items next) }
{
    match entry {
        Entry::Script(result) => stats.on_script_result(&result),
        Entry::Test(test) => stats.on_test_view(&test.view()),
        Entry::SubRun(start) => {
            runs.push(stats)?;
            return Ok(RunStats::of_run(&[], start));
        }
    }
    Ok(stats)
}

/// Returns the statistics of the runs of an input, which are at least one. The error is the first bad
/// line.
pub(crate) fn stats_in(alloc: Global, bytes: &[u8]) -> Result<Vec<RunStats>, Fault>
    ensures stats { IfOk result (λ v. AreCounted (texts_of bytes.now) v.items) }
    ensures refusal { IfErr result (λ fault. IsRefusal (texts_of bytes.now) fault) }
{
    let mut lines = bytes.lines();
    let Some(first) = lines.next() else {
        return Err(Fault::BadLine { number: 1 });
    };
    let Some(start) = parse_first(first) else {
        return Err(Fault::BadLine { number: 1 });
    };
    let mut runs = Vec::new(alloc);
    let mut stats = RunStats::of_run(&[], start);
    let mut number = 2;
    while let Some(line) = lines.next() {
        if number > MAX_LINES {
            return Err(Fault::BadLine { number });
        }
        let Some(entry) = parse_entry(line) else {
            return Err(Fault::BadLine { number });
        };
        stats = count_entry(&mut runs, stats, entry)?;
        number += 1;
    }
    runs.push(stats)?;
    Ok(runs)
}
