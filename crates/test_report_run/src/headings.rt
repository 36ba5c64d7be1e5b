//! The names that headings give suites.

ghost use Rattle.std.specs.Prelude.{◌≡◌, [], IfOk, OnOk, option_map, string_bytes};
ghost use Rattle.test_report_run.specs.Headings.{headings_of, number_of, numbers_view, paths_of, shown_by, with_heading, with_path};

use crate::texts::owned;
use std::alloc::{AllocError, Global};
use std::collections::BTreeMap;

/// The headings of a file: the paths that each name had.
#[derive(Drop)]
pub(crate) struct Headings {
    names: BTreeMap<String, Paths>,
}

/// The paths that one name had, each with its number. Headings of documentation tests have no path.
#[derive(Drop)]
struct Paths {
    numbers: BTreeMap<Option<String>, usize>,
}

impl Headings {
    /// Returns no headings.
    pub(crate) fn new(alloc: Global) -> Headings
        ensures { headings_of result ≡ [] }
    {
        Headings {
            names: BTreeMap::new(alloc),
        }
    }

    /// Takes a heading, and returns the name of the suites that follow it. If headings with this name had
    /// other paths before they had this one, the name is followed by the number of the path, as in ` (2)`.
    pub(crate) fn take_heading(
        &mut self,
        alloc: Global,
        name: &str,
        path: Option<&str>,
    ) -> Result<String, AllocError>
        ensures shows { IfOk result (λ shown. string_bytes shown ≡ shown_by (headings_of self.old)
            name.now (option_map (λ path. path.now) path.entry)) }
        ensures takes { OnOk result (headings_of self.new ≡ with_heading (headings_of self.old)
            name.now (option_map (λ path. path.now) path.entry)) }
    {
        let number = self.number(alloc, name, path)?;
        if number == 1 {
            return String::from_str(alloc, name);
        }
        format!(in alloc; "{name} ({number})")
    }

    /// Adds a path to those of a name, and returns its number.
    fn number(&mut self, alloc: Global, name: &str, path: Option<&str>) -> Result<usize, AllocError>
        ensures number { IfOk result (λ number. number ≡ number_of (paths_of (headings_of self.old) name.now)
            (option_map (λ path. path.now) path.entry)) }
        ensures takes { OnOk result (headings_of self.new ≡ with_heading (headings_of self.old)
            name.now (option_map (λ path. path.now) path.entry)) }
    {
        let name = String::from_str(alloc, name)?;
        let paths = self.names.entry(name)?.or_insert(Paths::new(alloc));
        paths.number(alloc, path)
    }
}

impl Paths {
    /// Returns no paths.
    fn new(alloc: Global) -> Paths
        ensures { numbers_view result ≡ [] }
    {
        Paths {
            numbers: BTreeMap::new(alloc),
        }
    }

    /// Adds a path if it is new, and returns its number. The first path has the number 1.
    fn number(&mut self, alloc: Global, path: Option<&str>) -> Result<usize, AllocError>
        ensures number { IfOk result (λ number. number ≡ number_of (numbers_view self.old)
            (option_map (λ path. path.now) path.entry)) }
        ensures takes { OnOk result (numbers_view self.new ≡ with_path (numbers_view self.old)
            (option_map (λ path. path.now) path.entry)) }
    {
        let path = owned(alloc, path)?;
        let next = self.numbers.len() + 1;
        let number = self.numbers.get(&path).copied().unwrap_or(next);
        self.numbers.insert(path, number)?;
        Ok(number)
    }
}
