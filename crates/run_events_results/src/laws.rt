//! Laws that callers rely on, each carried by the contract of a function.

ghost use Rattle.std.specs.Prelude.{◌↔◌, ◌≡◌, ◌≢◌, ◌≤◌, IsTrue, codes, pos};
ghost use Rattle.std.specs.Ordering.{nat_cmp};
ghost use Rattle.run_events_results.specs.CancelReasons.{reason_rank};
ghost use Rattle.std.specs.List.{fold};
ghost use Rattle.run_events_results.specs.Stress.{IsNoLaterSubRun, index_writes};
ghost use Rattle.run_events_results.specs.LevelRanks.{final_level_rank, level_rank};

use crate::config::FlakyResult;
use crate::levels::{FinalStatusLevel, StatusLevel};
use crate::results::{CancelReason, ExecutionResult, SIGTERM, UnitKind};
use crate::run_mode::NextestRunMode;
use crate::stress::StressIndex;
use std::cmp::Ordering;
use std::hash::{Hash, Hasher};

/// Cancel reasons are ordered as they are declared, from `SetupScriptFailure`, the least, to
/// `SecondSignal`, the greatest.
pub fn cancel_reason_order(a: CancelReason, b: CancelReason) -> Ordering
    ensures order { result ≡ nat_cmp (reason_rank a) (reason_rank b) }
    ensures equality { (result ≡ Ordering.Equal) ↔ (a ≡ b) }
{
    a.cmp(&b)
}

/// `<=` of cancel reasons is that order.
pub fn cancel_reason_at_most(a: CancelReason, b: CancelReason) -> bool
    ensures { IsTrue result ↔ (reason_rank a ≤ reason_rank b) }
{
    a <= b
}

/// The signal that asks a process to end has the number 15.
pub fn termination_signal() -> i32
    ensures constant { result ≡ SIGTERM }
    ensures number { result ≡ pos 15 }
{
    SIGTERM
}

/// The constant messages while the runner waits for a process are these texts.
pub fn waiting_on_messages() -> (&'static str, &'static str)
    ensures constants { (result.0.now ≡ UnitKind.WAITING_ON_TEST_MESSAGE.now)
        × (result.1.now ≡ UnitKind.WAITING_ON_SCRIPT_MESSAGE.now) }
    ensures test { result.0.now ≡ codes "waiting on test process" }
    ensures script { result.1.now ≡ codes "waiting on script process" }
{
    (
        UnitKind::WAITING_ON_TEST_MESSAGE,
        UnitKind::WAITING_ON_SCRIPT_MESSAGE,
    )
}

/// The constant descriptions of the errors of a unit are these texts.
pub fn executing_messages() -> (&'static str, &'static str)
    ensures constants { (result.0.now ≡ UnitKind.EXECUTING_TEST_MESSAGE.now)
        × (result.1.now ≡ UnitKind.EXECUTING_SCRIPT_MESSAGE.now) }
    ensures test { result.0.now ≡ codes "executing test" }
    ensures script { result.1.now ≡ codes "executing script" }
{
    (
        UnitKind::EXECUTING_TEST_MESSAGE,
        UnitKind::EXECUTING_SCRIPT_MESSAGE,
    )
}

/// Results are equal if and only if they are the same case with the same parts: how a leak or a
/// timeout counts, the code or signal of a failure, and whether it left a handle open.
pub fn results_are_equal(a: ExecutionResult, b: ExecutionResult) -> bool
    ensures { IsTrue result ↔ (a ≡ b) }
{
    a == b
}

/// By default a flaky test counts as passed.
pub fn flaky_result_default() -> FlakyResult
    ensures { result ≡ FlakyResult.Pass }
{
    FlakyResult::default()
}

/// By default a run runs tests.
pub fn run_mode_default() -> NextestRunMode
    ensures { result ≡ NextestRunMode.Test }
{
    NextestRunMode::default()
}

/// Sub-runs are ordered by their number, then by their total. An unknown total is less than a known
/// one.
pub fn stress_index_order(a: StressIndex, b: StressIndex) -> Ordering
    ensures at_most { (result ≢ Ordering.Greater) ↔ IsNoLaterSubRun a b }
    ensures equality { (result ≡ Ordering.Equal) ↔ (a ≡ b) }
{
    a.cmp(&b)
}

/// `<=` of sub-runs is that order.
pub fn stress_index_at_most(a: StressIndex, b: StressIndex) -> bool
    ensures { IsTrue result ↔ IsNoLaterSubRun a b }
{
    a <= b
}

/// A sub-run writes its number to a hasher, and then its total. So equal sub-runs have the same
/// hash: two hashers that are in the same state before are in the same state after.
pub fn stress_index_hashes<H: Hasher>(
    a: StressIndex,
    b: StressIndex,
    first: &mut H,
    second: &mut H,
) -> bool
    ensures equality { IsTrue result ↔ (a ≡ b) }
    ensures first_writes { first.new ≡ fold H.write first.old (index_writes a) }
    ensures second_writes { second.new ≡ fold H.write second.old (index_writes b) }
    ensures alike { IsTrue result → first.old ≡ second.old → first.new ≡ second.new }
{
    let are_equal = a == b;
    a.hash(first);
    b.hash(second);
    are_equal
}

/// Status levels are ordered as they are declared, from `None`, the least, to `All`, the greatest.
pub fn status_level_order(a: StatusLevel, b: StatusLevel) -> Ordering
    ensures order { result ≡ nat_cmp (level_rank a) (level_rank b) }
    ensures equality { (result ≡ Ordering.Equal) ↔ (a ≡ b) }
{
    a.cmp(&b)
}

/// `<=` of status levels is that order.
pub fn status_level_at_most(a: StatusLevel, b: StatusLevel) -> bool
    ensures { IsTrue result ↔ (level_rank a ≤ level_rank b) }
{
    a <= b
}

/// Final levels are ordered as they are declared, from `None`, the least, to `All`, the greatest.
pub fn final_level_order(a: FinalStatusLevel, b: FinalStatusLevel) -> Ordering
    ensures order { result ≡ nat_cmp (final_level_rank a) (final_level_rank b) }
    ensures equality { (result ≡ Ordering.Equal) ↔ (a ≡ b) }
{
    a.cmp(&b)
}

/// `<=` of final levels is that order.
pub fn final_level_at_most(a: FinalStatusLevel, b: FinalStatusLevel) -> bool
    ensures { IsTrue result ↔ (final_level_rank a ≤ final_level_rank b) }
{
    a <= b
}
