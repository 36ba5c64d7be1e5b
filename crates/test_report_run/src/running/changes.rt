//! What starts and ends running tests.

ghost use Rattle.std.specs.Prelude.{◌≡◌, ◌≤◌, ◌<◌, ◌++◌, ◌∷◌, [], ◌+◌, ℕ, List, None, true, false, filter, not, IfNone, IfOk, IfSome, MatchOption, OnOk, option_map, slice_get};
ghost use Rattle.std.specs.BTreeMap.{get, is_at};
ghost use Rattle.std.specs.List.{list_any, position, remove};
ghost use Rattle.std.specs.Map.{remove_entry, set_value};
ghost use Rattle.std.specs.Option.{option_map_or};
ghost use Rattle.std.specs.Ordering.{nat_cmp};
ghost use Rattle.test_report_run.specs.Orders.{is_in_suite, is_named};
ghost use Rattle.test_report_run.specs.Over.{is_among, names_of};
ghost use Rattle.test_report_run.specs.Running.{CountsAttempts, RunningView, ended_at, is_of, place_by_attempts, place_of_end, running_at, running_test_view, running_view, split_of, tests_of, with_slow};

use crate::early::is_among;
use crate::error::{RunError, one_more};
use crate::running::names::NameOrders;
use crate::running::{Running, RunningTest};
use std::alloc::{AllocError, Global};
use std::collections::{BTreeMap, BTreeSet};

/// The most attempts that a name may end with.
const MOST_ATTEMPTS: usize = 1_000;

impl Running {
    /// Returns no tests.
    pub fn new(alloc: Global) -> Running
        ensures tests { tests_of result ≡ [] }
        ensures started { result.started ≡ 0 }
    {
        Running {
            tests: BTreeMap::new(alloc),
            names: NameOrders::new(alloc),
            suites: BTreeSet::new(alloc),
            started: 0,
        }
    }

    /// Adds a test that starts. `suite` is the number of its suite, or `None` outside of a suite. After an error
    /// tests may be missing. Fails if memory runs out, or the number of tests that started does not fit.
    pub fn begin(&mut self, alloc: Global, name: &str, suite: Option<usize>) -> Result<(), RunError>
        ensures tests { OnOk result (tests_of self.new ≡ tests_of self.old
            ++ record { name = name.now; suite = suite; order = self.old.started; slow = false } ∷ []) }
        ensures started { OnOk result (self.new.started ≡ self.old.started + 1) }
    {
        let order = self.started;
        let started = one_more(order)?;
        let test = RunningTest {
            name: String::from_str(alloc, name)?,
            suite,
            order,
            slow: false,
        };
        let mut running = std::mem::replace(self, Running::new(alloc));
        running.names.insert(alloc, name, order)?;
        running.suites.insert((suite, order))?;
        running.tests.insert(order, test)?;
        running.started = started;
        *self = running;
        Ok(())
    }

    /// Removes the test that ends, and returns it with the number of its attempts. `written` is the name in
    /// the line of its end. Returns `None` if no such test is running.
    pub fn end(&mut self, written: &str) -> Option<(RunningTest, usize)>
        ensures found { option_map {U = RunningView × ℕ} (λ found. (running_test_view found.0, found.1)) result
            ≡ option_map (ended_at (tests_of self.old)) (place_of_end (tests_of self.old) written.now) }
        ensures left { tests_of self.new ≡ option_map_or (λ place. remove (tests_of self.old) place.0)
            (place_of_end (tests_of self.old) written.now) (tests_of self.old) }
        ensures started { self.new.started ≡ self.old.started }
    {
        let (order, attempts) = self.order_of_end(written)?;
        let test = self.remove(order)?;
        Some((test, attempts))
    }

    /// Marks the running test that a line calls slow, and returns the number of its suite, which is `None` outside of
    /// a suite. `written` is the name in the line. Returns `None` if no such test is running.
    pub(crate) fn mark_slow(&mut self, written: &str) -> Option<Option<usize>>
        ensures suite { result ≡ option_map (λ place. (running_at (tests_of self.old) place.0).suite)
            (place_of_end (tests_of self.old) written.now) }
        ensures marks { tests_of self.new ≡ option_map_or (λ place. with_slow (tests_of self.old) place.0)
            (place_of_end (tests_of self.old) written.now) (tests_of self.old) }
        ensures started { self.new.started ≡ self.old.started }
    {
        let (order, _) = self.order_of_end(written)?;
        self.mark(order)
    }

    /// Returns the number of tests that started.
    pub(crate) fn started(&self) -> usize
        ensures { result ≡ self.now.started }
    {
        self.started
    }

    /// Returns the test that started first.
    pub(crate) fn first(&self) -> Option<&RunningTest>
        ensures { option_map (λ t. running_test_view t.now) result ≡ slice_get (tests_of self.now) 0 }
    {
        let (_, test) = self.tests.first_key_value()?;
        Some(test)
    }

    /// Returns true if a running test has one of these names.
    pub(crate) fn has_one_of(&self, names: &BTreeSet<String>) -> bool
        ensures { result ≡ list_any (is_among (names_of names.now)) (tests_of self.now) }
    {
        self.tests.values().any(|test| is_among(names, test))
    }

    /// Removes the tests of a suite, and returns them in the order in which they started.
    pub(crate) fn take_suite(
        &mut self,
        alloc: Global,
        suite: Option<usize>,
    ) -> Result<Vec<RunningTest>, AllocError>
        ensures taken { IfOk result (λ taken.
            running_view taken.items ≡ filter (is_of suite) (tests_of self.old)) }
        ensures left { OnOk result (tests_of self.new
            ≡ filter (λ t. not (is_of suite t)) (tests_of self.old)) }
        ensures started { OnOk result (self.new.started ≡ self.old.started) }
    {
        let mut taken = Vec::new(alloc);
        while let Some(test) = self.remove_of_suite(suite) {
            taken.push(test)?;
        }
        Ok(taken)
    }

    /// Returns the number of the test that ends with this written name, and the number of its attempts.
    fn order_of_end(&self, written: &str) -> Option<(usize, usize)>
        ensures named { IfSome result (λ found. (name : List ℕ) × (is_named self.now.tests name found.0 ≡ true)
            × ((n : ℕ) → is_named self.now.tests name n ≡ true → found.0 ≤ n)
            × (place_of_end (tests_of self.now) written.now ≡ place_by_attempts (tests_of self.now) (name, found.1))) }
        ensures none { IfNone result (place_of_end (tests_of self.now) written.now ≡ None) }
    {
        match self.names.first(written) {
            Some(order) => Some((order, 1)),
            None => {
                let (name, attempts) = name_and_attempts(written)?;
                let order = self.names.first(name)?;
                Some((order, attempts))
            }
        }
    }

    /// Marks the test with this number as slow, and returns the number of its suite.
    fn mark(&mut self, order: usize) -> Option<Option<usize>>
        ensures suite { result ≡ option_map (λ t. t.suite) (get nat_cmp self.old.tests order) }
        ensures marks { IfSome (get nat_cmp self.old.tests order) (λ t. self.new.tests.entries
            ≡ set_value (is_at (nat_cmp order)) self.old.tests.entries (record t { slow = true })) }
        ensures started { self.new.started ≡ self.old.started }
    {
        let test = self.tests.get_mut(&order)?;
        test.slow = true;
        Some(test.suite)
    }

    /// Removes the first test of a suite, and returns it.
    fn remove_of_suite(&mut self, suite: Option<usize>) -> Option<RunningTest>
        ensures found { option_map running_test_view result
            ≡ option_map (running_at (tests_of self.old)) (position (is_of suite) (tests_of self.old)) }
        ensures left { tests_of self.new ≡ option_map_or (remove (tests_of self.old))
            (position (is_of suite) (tests_of self.old)) (tests_of self.old) }
        ensures started { self.new.started ≡ self.old.started }
    {
        let order = self.first_of_suite(suite)?;
        self.remove(order)
    }

    /// Returns the number of the first test of a suite.
    fn first_of_suite(&self, suite: Option<usize>) -> Option<usize>
        ensures first { IfSome result (λ order. is_in_suite self.now.tests suite order ≡ true) }
        ensures least { IfSome result (λ order. (n : ℕ) → is_in_suite self.now.tests suite n ≡ true → order ≤ n) }
        ensures none { IfNone result ((n : ℕ) → is_in_suite self.now.tests suite n ≡ false) }
    {
        match self.suites.range((suite, 0)..).next() {
            Some((found, order)) if *found == suite => Some(*order),
            _ => None,
        }
    }

    /// Removes the test with this number, and returns it.
    fn remove(&mut self, order: usize) -> Option<RunningTest>
        ensures test { result ≡ get nat_cmp self.old.tests order }
        ensures left { self.new.tests.entries ≡ remove_entry (is_at (nat_cmp order)) self.old.tests.entries }
        ensures started { self.new.started ≡ self.old.started }
    {
        let test = self.tests.remove(&order)?;
        self.names.remove(test.name.as_str(), order);
        self.suites.remove(&(test.suite, order));
        Some(test)
    }
}

/// Splits a name that ends with `#` and a number of attempts into the name of the test and the number.
fn name_and_attempts(written: &str) -> Option<(&str, usize)>
    ensures { option_map {U = List ℕ × ℕ} (λ found. (found.0.now, found.1)) result ≡ split_of written.now }
{
    let (name, digits) = written.rsplit_once('#')?;
    let attempts = number_of_attempts(digits)?;
    Some((name, attempts))
}

/// Parses a number of attempts, which is from 2 to 1,000 and has neither a sign nor a leading zero.
fn number_of_attempts(digits: &str) -> Option<usize>
    ensures { MatchOption result ((n : ℕ) → ¬ CountsAttempts digits.now n) (CountsAttempts digits.now) }
{
    if digits.starts_with('+') || digits.starts_with('0') {
        return None;
    }
    let attempts: usize = digits.parse().ok()?;
    if 2 <= attempts && attempts <= MOST_ATTEMPTS {
        Some(attempts)
    } else {
        None
    }
}
