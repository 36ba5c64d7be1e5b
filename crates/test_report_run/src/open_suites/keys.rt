//! The numbers of the open suites by their keys.

ghost use Rattle.std.specs.Prelude.{◌≡◌, ◌≢◌, ℕ, List, Option, None, Some, OnOk, option_map};
ghost use Rattle.test_report_run_notes.specs.Note.{text_view};
ghost use Rattle.test_report_run.specs.Keys.{number_at};

use std::alloc::{AllocError, Global};
use std::collections::BTreeMap;

/// The numbers of the open suites by their keys. No two of them have the same key, and at most one has none.
#[derive(Drop)]
pub(crate) struct KeyNumbers {
    keys: BTreeMap<String, usize>,

    /// The number of the suite without a key.
    keyless: Option<usize>,
}

impl KeyNumbers {
    /// Returns no numbers.
    pub(crate) fn new(alloc: Global) -> KeyNumbers
        ensures { (key : Option (List ℕ)) → number_at result key ≡ None }
    {
        KeyNumbers {
            keys: BTreeMap::new(alloc),
            keyless: None,
        }
    }

    /// Returns the number of the suite with a key, or without a key.
    pub(crate) fn number_of_key(&self, key: Option<&str>) -> Option<usize>
        ensures { result ≡ number_at self.now (option_map (λ key. key.now) key.entry) }
    {
        match key {
            Some(key) => self.keys.get(key).copied(),
            None => self.keyless,
        }
    }

    /// Sets the number of the suite with a key, or without a key.
    pub(crate) fn insert(&mut self, key: &Option<String>, number: usize) -> Result<(), AllocError>
        ensures set { OnOk result (number_at self.new (text_view key.now) ≡ Some number) }
        ensures others { OnOk result ((other : Option (List ℕ)) → other ≢ text_view key.now
            → number_at self.new other ≡ number_at self.old other) }
    {
        match key {
            Some(key) => {
                self.keys.insert(key.clone()?, number)?;
            }
            None => self.keyless = Some(number),
        }
        Ok(())
    }

    /// Removes the number of the suite with a key, or without a key.
    pub(crate) fn remove(&mut self, key: &Option<String>)
        ensures removed { number_at self.new (text_view key.now) ≡ None }
        ensures others { (other : Option (List ℕ)) → other ≢ text_view key.now
            → number_at self.new other ≡ number_at self.old other }
    {
        match key {
            Some(key) => {
                self.keys.remove(key.as_str());
            }
            None => self.keyless = None,
        }
    }
}
