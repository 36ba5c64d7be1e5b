//! The open suites of a run.

ghost use Rattle.std.specs.Prelude.{◌≡◌, ◌≤◌, ◌<◌, ℕ, Some, None, length, map, slice_index, slice_index_or};
ghost use Rattle.test_report_run.specs.Keys.{keys_in, number_at, numbers_in};

mod changes;
mod keys;

use crate::open_suites::keys::KeyNumbers;
use crate::suite::Suite;

/// The open suites in the order of their first lines. They have the numbers of their first lines, and are found by
/// their numbers and their keys.
#[derive(Drop)]
pub(crate) struct OpenSuites {
    /// The suites. They are boxed because a suite that ends is removed from among them, which moves all later
    /// ones.
    pub(crate) list: Vec<Box<Suite>>,

    /// The number of each of them.
    numbers: Vec<usize>,

    /// Their numbers by their keys.
    keys: KeyNumbers,

    /// The number of suites that started.
    started: usize,

    ghost numbered: { numbers_in list.items ≡ map Some numbers.items },
    ghost rising: { (i j : ℕ) → i < j → j < length numbers.items
        → slice_index numbers.items i < slice_index numbers.items j },
    ghost below: { (i : ℕ) → i < length numbers.items → slice_index numbers.items i ≤ started },
    ghost keyed: { (i : ℕ) → i < length numbers.items
        → number_at keys (slice_index_or (keys_in list.items) i None) ≡ Some (slice_index numbers.items i) },
}
