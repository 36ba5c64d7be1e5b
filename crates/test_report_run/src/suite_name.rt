//! The name of a suite.

ghost use Rattle.std.specs.Prelude.{◌≡◌, IfOk, OnOk, None, Some, option_and_then, option_map, string_bytes};
ghost use Rattle.std.specs.Option.{option_or};
ghost use Rattle.test_report_run_notes.specs.Note.{text_view};
ghost use Rattle.test_report_run.specs.Name.{before_dollar, given_by, name_by, name_of};

use std::alloc::{AllocError, Global};
use std::rc::Rc;

/// The number and the texts that can name a suite, and the name that they give it. The name is made once, and the
/// notes of the suite share it.
#[derive(Drop)]
pub(crate) struct SuiteName {
    /// The number of the suite, from 1 on in the order of first lines, or `None` for the tests outside of a
    /// suite.
    pub(crate) number: Option<usize>,

    /// The key of the suite.
    pub(crate) key: Option<String>,

    /// The last heading before the suite started.
    pub(crate) heading: Option<Rc<String>>,

    /// The name in the first line of a test of the suite.
    pub(crate) first_test: Option<String>,

    /// The name of the suite, or `None` for the tests outside of a suite.
    shown: Option<Rc<String>>,

    ghost shows: { option_map (λ n. string_bytes n.value) shown
        ≡ name_by number (text_view key) (option_map (λ n. string_bytes n.value) heading) (text_view first_test) },
}

impl SuiteName {
    /// Returns the name of the tests outside of a suite.
    pub(crate) fn outside() -> SuiteName
        ensures number { result.number ≡ None }
        ensures key { text_view result.key ≡ None }
        ensures heading { option_map (λ n. string_bytes n.value) result.heading ≡ None }
        ensures first_test { text_view result.first_test ≡ None }
    {
        SuiteName {
            number: None,
            key: None,
            heading: None,
            first_test: None,
            shown: None,
        }
    }

    /// Returns the name of a suite before its first test.
    pub(crate) fn new(
        alloc: Global,
        number: usize,
        key: Option<String>,
        heading: Option<Rc<String>>,
    ) -> Result<SuiteName, AllocError>
        ensures number { IfOk result (λ name. name.number ≡ Some number) }
        ensures key { IfOk result (λ name. text_view name.key ≡ text_view key) }
        ensures heading { IfOk result (λ name. option_map (λ n. string_bytes n.value) name.heading
            ≡ option_map (λ n. string_bytes n.value) heading) }
        ensures first_test { IfOk result (λ name. text_view name.first_test ≡ None) }
    {
        let number = Some(number);
        let shown = shown_name(alloc, number, given_name(&key, &heading, None))?;
        Ok(SuiteName {
            number,
            key,
            heading,
            first_test: None,
            shown,
        })
    }

    /// Takes the name in a line of a test of the suite.
    pub(crate) fn take_test(&mut self, alloc: Global, name: &str) -> Result<(), AllocError>
        ensures number { self.new.number ≡ self.old.number }
        ensures key { text_view self.new.key ≡ text_view self.old.key }
        ensures heading { option_map (λ n. string_bytes n.value) self.new.heading
            ≡ option_map (λ n. string_bytes n.value) self.old.heading }
        ensures first_test { OnOk result (text_view self.new.first_test
            ≡ option_or (text_view self.old.first_test) (Some name.now)) }
    {
        if self.first_test.is_some() {
            return Ok(());
        }
        let given = given_name(&self.key, &self.heading, Some(name));
        let shown = shown_name(alloc, self.number, given)?;
        let first_test = String::from_str(alloc, name)?;
        self.first_test = Some(first_test);
        self.shown = shown;
        Ok(())
    }

    /// Returns the name, or `None` for the tests outside of a suite.
    pub(crate) fn shown(&self) -> Result<Option<Rc<String>>, AllocError>
        ensures { IfOk result (λ shown. option_map (λ n. string_bytes n.value) shown
            ≡ name_by self.now.number (text_view self.now.key) (option_map (λ n. string_bytes n.value) self.now.heading) (text_view self.now.first_test)) }
    {
        self.shown.clone()
    }

    /// Returns the text of the name, or `None` for the tests outside of a suite.
    pub(crate) fn shown_text(&self) -> Option<&str>
        ensures { option_map (λ shown. shown.now) result
            ≡ name_by self.now.number (text_view self.now.key) (option_map (λ n. string_bytes n.value) self.now.heading) (text_view self.now.first_test) }
    {
        match &self.shown {
            Some(shown) => Some(shown.as_str()),
            None => None,
        }
    }
}

/// Returns the name that texts give a suite: its key, or else the heading, or else the part of its first
/// test's name before the first `$`. No other suite shares it.
fn given_name<'a>(
    key: &'a Option<String>,
    heading: &'a Option<Rc<String>>,
    first_test: Option<&'a str>,
) -> Option<&'a str>
    ensures { option_map (λ name. name.now) result
        ≡ given_by (text_view key.now) (option_map (λ n. string_bytes n.value) heading.now) (option_map (λ name. name.now) first_test.entry) }
{
    match (key, heading) {
        (Some(key), _) => Some(key.as_str()),
        (None, Some(heading)) => Some(heading.as_str()),
        (None, None) => before_dollar(first_test),
    }
}

/// Returns the part of the name of a test before the first `$`.
fn before_dollar(test: Option<&str>) -> Option<&str>
    ensures { option_map (λ name. name.now) result
        ≡ option_and_then before_dollar (option_map (λ name. name.now) test.entry) }
{
    let (name, _) = test?.split_once('$')?;
    Some(name)
}

/// Returns the name of a suite: the given one, or else `suite` and its number. The tests outside of a suite
/// have none.
fn shown_name(
    alloc: Global,
    number: Option<usize>,
    given: Option<&str>,
) -> Result<Option<Rc<String>>, AllocError>
    ensures { IfOk result (λ shown. option_map (λ n. string_bytes n.value) shown
        ≡ name_of number (option_map (λ name. name.now) given.entry)) }
{
    let Some(number) = number else {
        return Ok(None);
    };
    let name = match given {
        Some(given) => String::from_str(alloc, given)?,
        None => format!(in alloc; "suite {number}")?,
    };
    Ok(Some(Rc::new(alloc, name)?))
}
