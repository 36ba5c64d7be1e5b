//! The words of an input.

ghost use Rattle.std.specs.Prelude.{◌≡◌, ◌≤◌, None, true, length, option_map};
ghost use Rattle.std.specs.Char.{is_ascii_digit};
ghost use Rattle.std.specs.List.{list_all};
ghost use Rattle.run_events_results.specs.Described.{described_result};
ghost use Rattle.run_digest_engine.specs.Reader.{flags_of, number_of, reason_of, result_of, start_fields, value_of_digits};
ghost use Rattle.run_digest_engine.specs.Spelling.{reason_word};

use crate::parts::Parts;
use run_events_results::config::{FlakyResult, LeakTimeoutResult, SlowTimeoutResult};
use run_events_results::results::{CancelReason, ExecutionResult, FailureStatus};
use run_events_stats::stats::RunStart;

/// The greatest number of digits of a number.
const MAX_DIGITS: usize = 7;

/// The greatest number.
const MAX_NUMBER: usize = 1_000_000;

/// Parses the word for a result.
#[tactic(auto, unfolding(crate::specs::Reader::result_of))]
pub(crate) fn parse_result(word: &str) -> Option<ExecutionResult>
    ensures { option_map (λ r. described_result r None) result ≡ result_of word.now }
{
    match word {
        "pass" => Some(ExecutionResult::Pass),
        "leak" => Some(ExecutionResult::Leak {
            result: LeakTimeoutResult::Pass,
        }),
        "leak-fail" => Some(ExecutionResult::Leak {
            result: LeakTimeoutResult::Fail,
        }),
        "fail" => Some(ExecutionResult::Fail {
            failure_status: FailureStatus::ExitCode(1),
            leaked: false,
        }),
        "exec-fail" => Some(ExecutionResult::ExecFail),
        "timeout" => Some(ExecutionResult::Timeout {
            result: SlowTimeoutResult::Fail,
        }),
        "timeout-pass" => Some(ExecutionResult::Timeout {
            result: SlowTimeoutResult::Pass,
        }),
        _ => None,
    }
}

/// Returns the word for a reason, as in line 1.
#[tactic(auto, unfolding(crate::specs::Spelling::reason_word))]
pub(crate) fn reason_text(reason: Option<CancelReason>) -> &'static str
    ensures { result.now ≡ reason_word reason }
{
    match reason {
        None => "-",
        Some(CancelReason::SetupScriptFailure) => "setup-script-failure",
        Some(CancelReason::TestFailure) => "test-failure",
        Some(CancelReason::ReportError) => "report-error",
        Some(CancelReason::OutputLimit) => "output-limit",
        Some(CancelReason::TestFailureImmediate) => "test-failure-immediate",
        Some(CancelReason::GlobalTimeout) => "global-timeout",
        Some(CancelReason::Signal) => "signal",
        Some(CancelReason::Interrupt) => "interrupt",
        Some(CancelReason::SecondSignal) => "second-signal",
    }
}

/// Parses the word for a reason. The result is `Some(None)` for `-`.
#[tactic(auto, unfolding(crate::specs::Reader::reason_of, crate::specs::Spelling::reason_word))]
fn parse_reason(word: &str) -> Option<Option<CancelReason>>
    ensures { result ≡ reason_of word.now }
{
    match word {
        "-" => Some(None),
        "setup-script-failure" => Some(Some(CancelReason::SetupScriptFailure)),
        "test-failure" => Some(Some(CancelReason::TestFailure)),
        "report-error" => Some(Some(CancelReason::ReportError)),
        "output-limit" => Some(Some(CancelReason::OutputLimit)),
        "test-failure-immediate" => Some(Some(CancelReason::TestFailureImmediate)),
        "global-timeout" => Some(Some(CancelReason::GlobalTimeout)),
        "signal" => Some(Some(CancelReason::Signal)),
        "interrupt" => Some(Some(CancelReason::Interrupt)),
        "second-signal" => Some(Some(CancelReason::SecondSignal)),
        _ => None,
    }
}

/// Returns true if all bytes are decimal digits.
fn are_digits(word: &[u8]) -> bool
    ensures { result ≡ list_all is_ascii_digit word.now }
{
    word.iter().all(|b| b.is_ascii_digit())
}

/// Returns the value of at most [`MAX_DIGITS`] digits.
fn value_of(digits: &[u8]) -> usize
    requires digits { list_all is_ascii_digit digits.now ≡ true }
    requires few { length digits.now ≤ MAX_DIGITS }
    ensures { result ≡ value_of_digits digits.now }
{
    let mut value: usize = 0;
    for digit in digits {
        value = 10 * value + usize::from(*digit - b'0');
    }
    value
}

/// Parses a number: one to [`MAX_DIGITS`] digits, and at most [`MAX_NUMBER`].
#[tactic(auto, unfolding(crate::specs::Reader::number_of))]
fn parse_number(word: &[u8]) -> Option<usize>
    ensures { result ≡ number_of word.now }
{
    if word.is_empty() || word.len() > MAX_DIGITS || !are_digits(word) {
        return None;
    }
    let value = value_of(word);
    if value > MAX_NUMBER {
        return None;
    }
    Some(value)
}

/// Parses the words after `run` or `sub-run`: two numbers and a reason.
#[tactic(auto, unfolding(crate::specs::Reader::start_fields))]
pub(crate) fn parse_start(mut words: Parts<'_>) -> Option<RunStart>
    ensures { result ≡ start_fields words.entry }
{
    match (words.next(), words.next(), words.next(), words.next()) {
        (Some(tests), Some(scripts), Some(reason), None) => Some(RunStart {
            initial_run_count: parse_number(tests.as_bytes())?,
            setup_scripts_initial_count: parse_number(scripts.as_bytes())?,
            skipped: 0,
            cancel_reason: parse_reason(reason)?,
        }),
        _ => None,
    }
}

/// Parses the words after the results of a test: whether the last attempt was slow, and the setting.
#[tactic(auto, unfolding(crate::specs::Reader::flags_of))]
pub(crate) fn parse_flags(mut words: Parts<'_>) -> Option<(bool, FlakyResult)>
    ensures { result ≡ flags_of words.entry }
{
    match (words.next(), words.next(), words.next()) {
        (None, _, _) => Some((false, FlakyResult::Pass)),
        (Some("slow"), None, _) => Some((true, FlakyResult::Pass)),
        (Some("flaky-fail"), None, _) => Some((false, FlakyResult::Fail)),
        (Some("slow"), Some("flaky-fail"), None) => Some((true, FlakyResult::Fail)),
        _ => None,
    }
}
