//! What opens, finds and removes open suites.

ghost use Rattle.std.specs.Prelude.{◌≡◌, ◌<◌, ◌+◌, ◌++◌, ◌∷◌, [], Some, None, OnOk, length, nat_lt, option_map, slice_get, string_bytes};
ghost use Rattle.std.specs.List.{position, remove};
ghost use Rattle.test_report_run_notes.specs.Note.{text_view};
ghost use Rattle.test_report_run.specs.OpenSuites.{states_in, suites_of};
ghost use Rattle.test_report_run.specs.Others.{others_view};
ghost use Rattle.test_report_run.specs.Running.{is_same};
ghost use Rattle.test_report_run.specs.Suite.{has_key, state_of, suite_start};

use crate::error::{RunError, one_more};
use crate::open_suites::OpenSuites;
use crate::open_suites::keys::KeyNumbers;
use crate::others::Others;
use crate::suite::Suite;
use std::alloc::Global;
use std::rc::Rc;

impl OpenSuites {
    /// Returns no suites.
    pub(crate) fn new(alloc: Global) -> OpenSuites
        ensures suites { suites_of result ≡ [] }
        ensures started { result.started ≡ 0 }
    {
        OpenSuites {
            list: Vec::new(alloc),
            numbers: Vec::new(alloc),
            keys: KeyNumbers::new(alloc),
            started: 0,
        }
    }

    /// Returns true if a suite has started.
    pub(crate) fn has_started(&self) -> bool
        ensures { result ≡ nat_lt 0 self.now.started }
    {
        self.started > 0
    }

    /// Opens a suite. `others` are the other lines of the file before it. After an error suites may be missing. Fails
    /// if memory runs out, or the number of suites that started does not fit.
    pub(crate) fn open(
        &mut self,
        alloc: Global,
        key: Option<String>,
        heading: Option<Rc<String>>,
        test_count: Option<u128>,
        others: &Others,
    ) -> Result<(), RunError>
        requires { position (has_key (text_view key)) (suites_of self.old) ≡ None }
        ensures suites { OnOk result (suites_of self.new ≡ suites_of self.old
            ++ suite_start (Some (self.old.started + 1)) (text_view key) (option_map (λ n. string_bytes n.value) heading)
            test_count (others_view others.now) ∷ []) }
        ensures started { OnOk result (self.new.started ≡ self.old.started + 1) }
    {
        let number = one_more(self.started)?;
        let suite = Suite::new(alloc, number, key, heading, test_count, others)?;
        let boxed = Box::new(alloc, suite)?;
        let mut open = std::mem::replace(self, OpenSuites::new(alloc));
        open.keys.insert(&boxed.name.key, number)?;
        open.numbers.push(number)?;
        open.list.push(boxed)?;
        open.started = number;
        *self = open;
        Ok(())
    }

    /// Removes the suite at a position, and returns it.
    pub(crate) fn remove(&mut self, at: usize) -> Suite
        requires { at < length self.old.list.items }
        ensures suite { slice_get (suites_of self.old) at ≡ Some (state_of result) }
        ensures left { suites_of self.new ≡ remove (suites_of self.old) at }
        ensures key { position (has_key (state_of result).key) (suites_of self.new) ≡ None }
        ensures started { self.new.started ≡ self.old.started }
    {
        let suite = Box::into_inner(self.list.remove(at));
        self.numbers.remove(at);
        self.keys.remove(&suite.name.key);
        suite
    }

    /// Removes all suites, and returns them.
    pub(crate) fn take_all(&mut self, alloc: Global) -> Vec<Box<Suite>>
        ensures taken { states_in result.items ≡ suites_of self.old }
        ensures left { suites_of self.new ≡ [] }
        ensures started { self.new.started ≡ self.old.started }
    {
        let started = self.started;
        let open = std::mem::replace(self, OpenSuites::new(alloc));
        self.started = started;
        open.list
    }

    /// Returns the position of the suite with a key, or without a key.
    pub(crate) fn place_of_key(&self, key: Option<&str>) -> Option<usize>
        ensures { result ≡ position (has_key (option_map (λ key. key.now) key.entry)) (suites_of self.now) }
    {
        let number = self.keys.number_of_key(key)?;
        let at = self.numbers.binary_search(&number).ok()?;
        if self.list[at].has_key(key) {
            Some(at)
        } else {
            None
        }
    }

    /// Returns the position of the suite with a number.
    pub(crate) fn place_of_number(&self, number: Option<usize>) -> Option<usize>
        ensures { result ≡ position (λ s. is_same s.number number) (suites_of self.now) }
    {
        self.numbers.binary_search(&number?).ok()
    }
}
