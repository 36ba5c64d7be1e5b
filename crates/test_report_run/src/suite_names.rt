//! The names that are known of suites before they start.

ghost use Rattle.std.specs.Prelude.{◌≡◌, [], OnOk, option_map, string_bytes};
ghost use Rattle.std.specs.BTreeMap.{insert_entry};
ghost use Rattle.std.specs.Cmp.Lexicographic.{slice_cmp};
ghost use Rattle.std.specs.Map.{lookup};
ghost use Rattle.std.specs.Ordering.{nat_cmp};
ghost use Rattle.std.specs.Str.{bytes_eq};
ghost use Rattle.test_report_run.specs.SuiteNames.{names_of};

use std::alloc::{AllocError, Global};
use std::collections::BTreeMap;

/// The names of suites by the paths of their binaries, which are written as in headings. A name here replaces the one
/// in the heading.
#[derive(Drop)]
pub struct SuiteNames {
    names: BTreeMap<String, String>,
}

impl SuiteNames {
    /// Returns no names.
    pub fn new(alloc: Global) -> SuiteNames
        ensures { names_of result ≡ [] }
    {
        SuiteNames {
            names: BTreeMap::new(alloc),
        }
    }

    /// Adds the name of the suites of the binary with this path. It replaces the name that the path had.
    pub fn insert(&mut self, path: String, name: String) -> Result<(), AllocError>
        ensures { OnOk result (names_of self.new
            ≡ insert_entry (slice_cmp nat_cmp) (names_of self.old) (string_bytes path) (string_bytes name)) }
    {
        self.names.insert(path, name)?;
        Ok(())
    }

    /// Returns the name of the suites of the binary with this path, if it is known.
    pub(crate) fn get(&self, path: &str) -> Option<&str>
        ensures { option_map (λ name. name.now) result ≡ lookup (bytes_eq path.now) (names_of self.now) }
    {
        match self.names.get(path) {
            Some(name) => Some(name.as_str()),
            None => None,
        }
    }
}
