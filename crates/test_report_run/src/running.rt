//! The tests that are running.

ghost use Rattle.std.proofs.Props.{props};
ghost use Rattle.std.specs.Prelude.{◌≡◌, ◌<◌, ℕ, List, Option, IsSome};
ghost use Rattle.std.specs.BTreeMap.{IsOrdered, get};
ghost use Rattle.std.specs.BTreeSet.{contains};
ghost use Rattle.std.specs.Ordering.{nat_cmp};
ghost use Rattle.test_report_run.specs.Orders.{has_order, is_in_suite, is_named, suite_order_cmp};

mod changes;
mod names;

use crate::running::names::NameOrders;
use std::collections::{BTreeMap, BTreeSet};

/// A test that is running.
#[derive(Drop)]
pub struct RunningTest {
    /// The name in the line of its start.
    pub(crate) name: String,

    /// The number of its suite, or `None` if it started outside of a suite.
    pub(crate) suite: Option<usize>,

    /// The number of tests that started before it.
    pub(crate) order: usize,

    /// True if a line says that it is slow.
    pub(crate) slow: bool,
}

/// The tests that are running, in the order in which they started.
#[derive(Drop)]
pub struct Running {
    /// The tests, by the number of tests that started before each.
    tests: BTreeMap<usize, RunningTest>,

    /// The numbers of the tests of each name.
    names: NameOrders,

    /// The numbers of the tests of each suite.
    suites: BTreeSet<(Option<usize>, usize)>,

    started: usize,

    ghost ordered: { IsOrdered nat_cmp tests } by { Prim.hlevel props },
    ghost below: { (n : ℕ) → IsSome (get nat_cmp tests n) → n < started },
    ghost named: { (name : List ℕ) (n : ℕ) → has_order names name n ≡ is_named tests name n },
    ghost in_suites: { (suite : Option ℕ) (n : ℕ) → contains suite_order_cmp suites (suite, n) ≡ is_in_suite tests suite n },
}
