//! Text that is no event, and says that a test, a suite or a benchmark failed.

ghost use Rattle.std.specs.Prelude.{◌↔◌, ◌<◌, IfOk, IsTrue, length, option_map};
ghost use Rattle.test_report_events.specs.Content as kept;
ghost use Rattle.test_report_events.specs.Damage.{HasMember, HasType, IsDamage, IsFollowedBy, SaysFailure};

use crate::content::Content;
use crate::plain::{line_text, without_spaces};
use bstr::ByteSlice;
use std::alloc::{AllocError, Global};

/// Returns the event that a text is damaged, or `None` if it says no failure. The text is not, or not part of, an
/// event.
pub(crate) fn damage_of(alloc: Global, text: &[u8]) -> Result<Option<Content>, AllocError>
    ensures { IfOk result (λ damage. IsDamage text.now (option_map kept.content_event damage)) }
{
    if says_failure(text) {
        Ok(Some(Content::Damaged(line_text(alloc, text)?)))
    } else {
        Ok(None)
    }
}

/// Returns true if a text says that a test, a suite or a benchmark failed.
fn says_failure(text: &[u8]) -> bool
    ensures { IsTrue result ↔ SaysFailure text.now }
{
    has_member(text, b"\"event\"", b"\"failed\"") && has_type(text)
}

/// Returns true if a text has the type of a test, a suite or a benchmark in it.
fn has_type(text: &[u8]) -> bool
    ensures { IsTrue result ↔ HasType text.now }
{
    has_member(text, b"\"type\"", b"\"test\"")
        || has_member(text, b"\"type\"", b"\"suite\"")
        || has_member(text, b"\"type\"", b"\"bench\"")
}

/// Returns true if a text has a member in it: a key, and after it a colon, which may be between spaces, and a value.
fn has_member(text: &[u8], key: &[u8], value: &[u8]) -> bool
    requires { 0 < length key.now }
    ensures { IsTrue result ↔ HasMember text.now key.now value.now }
{
    let mut rest = text;
    while let Some(at) = rest.find(key) {
        if begins_value(&rest[at + key.len()..], value) {
            return true;
        }
        rest = &rest[at + 1..];
    }
    false
}

/// Returns true if a text begins with a colon, which may be between spaces, and a value.
fn begins_value(text: &[u8], value: &[u8]) -> bool
    ensures { IsTrue result ↔ IsFollowedBy text.now value.now }
{
    match without_spaces(text).strip_prefix(b":") {
        Some(after) => without_spaces(after).starts_with(value),
        None => false,
    }
}
