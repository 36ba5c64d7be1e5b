//! The lines of finished units.

ghost use Rattle.std.specs.Prelude.{◌≡◌, option_map};
ghost use Rattle.run_events_results.specs.ViewedTest.{finished_view};
ghost use Rattle.run_digest_engine.specs.Reader.{results_of, script_of_words, test_of_words};

use crate::parts::Parts;
use crate::words::{parse_flags, parse_result};
use run_events_results::results::{ExecutionResult, ExecutionResultDescription};
use run_events_results::view::FinishedTest;

/// The greatest number of results of a test.
const MAX_RESULTS: usize = 100;

/// Parses the words after `script`.
#[tactic(auto, unfolding(crate::specs::Reader::script_of_words))]
pub(crate) fn parse_script(mut words: Parts<'_>) -> Option<ExecutionResultDescription>
    ensures { result ≡ script_of_words words.entry }
{
    let (Some(word), None) = (words.next(), words.next()) else {
        return None;
    };
    let result = parse_result(word)?;
    Some(ExecutionResultDescription::from_status(result, None))
}

/// Parses the results of a test, which are separated by commas and at most [`MAX_RESULTS`]. Returns the
/// last one and their number.
#[tactic(auto, unfolding(crate::specs::Reader::results_from, crate::specs::Reader::results_of))]
fn parse_results(list: &str) -> Option<(ExecutionResultDescription, usize)>
    ensures { result ≡ results_of list.now }
{
    // Only the last result is described, because a description owns memory.
    // A text has at least one part, so the first result replaces this one.
    let mut last = ExecutionResult::Pass;
    let mut count = 0;
    let mut words = Parts::new(list, ',');
    while let Some(word) = words.next() {
        if count == MAX_RESULTS {
            return None;
        }
        last = parse_result(word)?;
        count += 1;
    }
    Some((ExecutionResultDescription::from_status(last, None), count))
}

/// Parses the words after `test`: the results of the attempts, and the flags.
#[tactic(auto, unfolding(crate::specs::Reader::test_of_words))]
pub(crate) fn parse_test(mut words: Parts<'_>) -> Option<FinishedTest>
    ensures { option_map finished_view result ≡ test_of_words words.entry }
{
    let list = words.next()?;
    let (is_slow, flaky_result) = parse_flags(words)?;
    let (result, attempts) = parse_results(list)?;
    Some(FinishedTest {
        result,
        attempts,
        is_slow,
        flaky_result,
    })
}
