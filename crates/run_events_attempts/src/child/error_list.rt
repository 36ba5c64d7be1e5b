//! A list of at least one error.

ghost use Rattle.std.specs.Prelude.{◌≡◌, ◌↔◌, ◌<◌, ◌≤◌, [], IsNone, IfSome, length, map, vec_capacity, vec_len};
ghost use Rattle.std.specs.Slice.Iter.{iter_rest};
ghost use Rattle.run_events_attempts.specs.ChildErrors.{described_error, described_errors};

use crate::child::errors::{ChildError, ChildErrorDescription};
use std::marker::Model;
use std::slice::Iter;

/// The errors of one operation, with a description of the operation. There is always at least one.
#[derive(Debug, Drop)]
pub struct ErrorList<T> {
    description: &'static str,
    errors: Vec<T>,
}

impl<T> Model for ErrorList<T> {
    ghost use Rattle.std.specs.Prelude.{◌<◌, length};
    ghost use Rattle.run_events_attempts.specs.ListedErrors.{ListedErrors};

    ghost Value = { ListedErrors T };

    ghost view = { λ l. record { description = l.description.now; items = l.errors.items } };

    ghost invariant = { λ l. 0 < length l.errors.items };
}

impl<T> ErrorList<T> {
    /// Returns a list of these errors, or `None` if there are none.
    pub fn new(description: &'static str, errors: Vec<T>) -> Option<Self>
        ensures empty { IsNone result ↔ (errors.items ≡ []) }
        ensures list { IfSome result (λ l. (l.description ≡ description.entry.now)
            × (l.items ≡ errors.items)) }
    {
        if errors.is_empty() {
            errors.destroy_empty();
            None
        } else {
            Some(ErrorList {
                description,
                errors,
            })
        }
    }

    /// Returns the description of the operation.
    pub fn description(&self) -> &'static str
        ensures { result.now ≡ self.now.description }
    {
        self.description
    }

    /// Returns the number of errors, which is at least 1.
    pub fn len(&self) -> usize
        ensures count { result ≡ length self.now.items }
        ensures not_empty { 0 < result }
    {
        self.errors.len()
    }

    /// Returns an iterator over the errors.
    pub fn iter(&self) -> Iter<'_, T>
        ensures { iter_rest result ≡ self.now.items }
    {
        self.errors.iter()
    }
}

impl<'a, T> IntoIterator for &'a ErrorList<T> {
    type Item = &'a T;

    type IntoIter = Iter<'a, T>;

    ghost into_iter_gives = { λ l i. iter_rest i ≡ l.now.items };

    fn into_iter(self) -> Iter<'a, T> {
        self.iter()
    }
}

impl<T: Drop> IntoIterator for ErrorList<T> {
    ghost use Rattle.std.specs.Vec.Iter.{into_iter_items};

    type Item = T;

    type IntoIter = std::vec::IntoIter<T>;

    ghost into_iter_gives = { λ l i. into_iter_items i ≡ l.items };

    fn into_iter(self) -> std::vec::IntoIter<T> {
        let ErrorList {
            description: _,
            errors,
        } = self;
        errors.into_iter()
    }
}

impl ErrorList<ChildError> {
    /// Describes the errors, and keeps the descriptions in `room`, which must be empty and large
    /// enough.
    pub(crate) fn described(
        self,
        room: Vec<ChildErrorDescription>,
    ) -> ErrorList<ChildErrorDescription>
        requires empty { room.items ≡ [] }
        requires room { length self.items ≤ vec_capacity room }
        ensures { result ≡ described_errors self }
    {
        let ErrorList {
            description,
            errors,
        } = self;
        ErrorList {
            description,
            errors: described_items(errors, room),
        }
    }
}

/// Describes errors, and keeps the descriptions in `room`.
fn described_items(
    errors: Vec<ChildError>,
    mut room: Vec<ChildErrorDescription>,
) -> Vec<ChildErrorDescription>
    requires empty { room.items ≡ [] }
    requires room { vec_len errors ≤ vec_capacity room }
    ensures { result.items ≡ map described_error errors.items }
{
    for error in errors {
        room.push_reserved(ChildErrorDescription::from(error));
    }
    room
}
