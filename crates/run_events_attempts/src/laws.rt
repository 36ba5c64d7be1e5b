//! Laws that callers rely on, each carried by the contract of a function.

ghost use Rattle.std.specs.Prelude.{◌↔◌, ◌≡◌, ◌≢◌, IsTrue};
ghost use Rattle.run_events_attempts.specs.Attempts.{IsNoLaterAttempt};

use crate::attempts::RetryData;
use crate::chain::SerializableError;
use std::cmp::Ordering;

/// Attempts are ordered by their number, then by their total.
pub fn retry_data_order(a: RetryData, b: RetryData) -> Ordering
    ensures at_most { (result ≢ Ordering.Greater) ↔ IsNoLaterAttempt a b }
    ensures equality { (result ≡ Ordering.Equal) ↔ (a ≡ b) }
{
    a.cmp(&b)
}

/// `<=` of attempts is that order.
pub fn retry_data_at_most(a: RetryData, b: RetryData) -> bool
    ensures { IsTrue result ↔ IsNoLaterAttempt a b }
{
    a <= b
}

/// Errors are equal if and only if their messages and all messages of their causes are equal.
#[tactic(auto, using(crate::proofs::SameChains::same_chain))]
pub fn errors_are_equal(a: &SerializableError, b: &SerializableError) -> bool
    ensures { IsTrue result ↔ (a.now ≡ b.now) }
{
    a == b
}
