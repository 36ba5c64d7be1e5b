//! The parts of a text between occurrences of an ASCII character.

ghost use Rattle.std.specs.Prelude.{◌≡◌, ◌==◌, ◌<◌, ◌∷◌, List, ℕ};
ghost use Rattle.std.specs.List.{slice_split};
ghost use Rattle.std.specs.Iterator.{YieldsFirstRef, item_count};
ghost use Rattle.run_digest_engine.specs.Parts.{parts_left};

use std::marker::Model;

/// Returns the first part of a text, and the text after `divider` if it occurs.
fn first_part(text: &str, divider: char) -> (&str, Option<&str>)
    requires { divider < 128 }
    ensures { slice_split (λ b. b == divider) text.now
        ≡ result.0.now ∷ parts_left divider result.1 }
{
    match text.split_once(divider) {
        Some((part, rest)) => (part, Some(rest)),
        None => (text, None),
    }
}

/// An iterator over the parts of a text.
#[derive(Drop)]
pub(crate) struct Parts<'a> {
    rest: Option<&'a str>,
    divider: char,
    ghost is_ascii: { divider < 128 },
}

impl<'a> Model for Parts<'a> {
    ghost Value = { List (List ℕ) };

    ghost view = { λ s. parts_left s.divider s.rest };
}

impl<'a> Parts<'a> {
    /// Returns an iterator over the parts of a text. `divider` must be an ASCII character.
    pub(crate) fn new(text: &'a str, divider: char) -> Parts<'a>
        requires { divider < 128 }
        ensures { result ≡ slice_split (λ b. b == divider) text.now }
    {
        Parts {
            rest: Some(text),
            divider,
        }
    }
}

impl<'a> Iterator for Parts<'a> {
    type Item = &'a str;

    ghost next_gives = { YieldsFirstRef (λ rest. rest) };

    ghost remaining = { item_count (λ rest. rest) };

    fn next(&mut self) -> Option<&'a str> {
        let (part, rest) = first_part(self.rest?, self.divider);
        self.rest = rest;
        Some(part)
    }
}
