//! The lines after line 1.

ghost use Rattle.std.specs.Prelude.{◌≡◌, option_map};
ghost use Rattle.run_digest_engine.specs.EntryView.{entry_view};
ghost use Rattle.run_digest_engine.specs.Reader.{entry_of_words, words_of};

use crate::parts::Parts;
use crate::units::{parse_script, parse_test};
use crate::words::parse_start;
use run_events_results::results::ExecutionResultDescription;
use run_events_results::view::FinishedTest;
use run_events_stats::stats::RunStart;

/// A line after line 1.
#[derive(Drop)]
pub(crate) enum Entry {
    /// A finished setup script of the current run, with its result.
    Script(ExecutionResultDescription),

    /// A finished test of the current run.
    Test(FinishedTest),

    /// Another sub-run begins.
    SubRun(RunStart),
}

/// Parses a line after line 1.
pub(crate) fn parse_entry(line: &[u8]) -> Option<Entry>
    ensures { option_map entry_view result ≡ entry_of_words (words_of line.now) }
{
    match str::from_utf8(line) {
        Ok(text) => parse_words(Parts::new(text, ' ')),
        Err(_) => None,
    }
}

/// Parses the words of a line after line 1.
#[tactic(auto, unfolding(crate::specs::Reader::entry_of_words))]
fn parse_words(mut words: Parts<'_>) -> Option<Entry>
    ensures { option_map entry_view result ≡ entry_of_words words.entry }
{
    match words.next() {
        Some("sub-run") => parse_start(words).map(Entry::SubRun),
        Some("script") => parse_script(words).map(Entry::Script),
        Some("test") => parse_test(words).map(Entry::Test),
        _ => None,
    }
}
