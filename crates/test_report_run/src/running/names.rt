//! The numbers of the running tests of each name.

ghost use Rattle.std.specs.Prelude.{◌≡◌, ◌≤◌, ◌&&◌, ◌||◌, ◌==◌, ℕ, List, true, false, not, IfNone, IfSome, OnOk};
ghost use Rattle.std.specs.Str.{bytes_eq};
ghost use Rattle.test_report_run.specs.Orders.{has_order};

use std::alloc::{AllocError, Global};
use std::collections::{BTreeMap, BTreeSet};

/// The numbers of the running tests of each name. A name without a running test is not in the map.
#[derive(Drop)]
pub(crate) struct NameOrders {
    orders: BTreeMap<String, BTreeSet<usize>>,
}

impl NameOrders {
    /// Returns no numbers.
    pub(crate) fn new(alloc: Global) -> NameOrders
        ensures { (name : List ℕ) (n : ℕ) → has_order result name n ≡ false }
    {
        NameOrders {
            orders: BTreeMap::new(alloc),
        }
    }

    /// Adds a number to those of a name.
    pub(crate) fn insert(
        &mut self,
        alloc: Global,
        name: &str,
        order: usize,
    ) -> Result<(), AllocError>
        ensures { OnOk result ((q : List ℕ) (n : ℕ) → has_order self.new q n
            ≡ (has_order self.old q n || (bytes_eq name.now q && order == n))) }
    {
        let name = String::from_str(alloc, name)?;
        let orders = self.orders.entry(name)?.or_insert(BTreeSet::new(alloc));
        orders.insert(order)?;
        Ok(())
    }

    /// Removes a number from those of a name.
    pub(crate) fn remove(&mut self, name: &str, order: usize)
        ensures { (q : List ℕ) (n : ℕ) → has_order self.new q n
            ≡ (has_order self.old q n && not (bytes_eq name.now q && order == n)) }
    {
        let Some(orders) = self.orders.get_mut(name) else {
            return;
        };
        orders.remove(&order);
        if orders.is_empty() {
            self.orders.remove(name);
        }
    }

    /// Returns the least number of a name.
    pub(crate) fn first(&self, name: &str) -> Option<usize>
        ensures first { IfSome result (λ order. has_order self.now name.now order ≡ true) }
        ensures least { IfSome result (λ order. (n : ℕ) → has_order self.now name.now n ≡ true → order ≤ n) }
        ensures none { IfNone result ((n : ℕ) → has_order self.now name.now n ≡ false) }
    {
        let orders = self.orders.get(name)?;
        orders.first().copied()
    }
}
