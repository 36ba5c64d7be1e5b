//! How the characters of a value are shown.

ghost use Rattle.std.specs.Prelude.{◌≡◌, ◌++◌, OnOk, string_bytes};
ghost use Rattle.template.specs.Shown as spec;

use std::alloc::AllocError;
use std::fmt::Write;

/// Returns true for a character that is shown as an escape: a control character other than a tab and a line feed, or
/// one that changes the direction of writing.
pub fn is_escaped(c: char) -> bool
    ensures { result ≡ spec.is_escaped c }
{
    match c {
        '\t' | '\n' => false,
        '\u{61c}' | '\u{200e}' | '\u{200f}' => true,
        '\u{202a}'..='\u{202e}' | '\u{2066}'..='\u{2069}' => true,
        _ => c.is_control(),
    }
}

/// Appends the escape of a character, such as `\u{1b}`.
#[tactic(auto, unfolding(crate::specs::Shown::escape))]
pub fn push_escape(text: &mut String, c: char) -> Result<(), AllocError>
    ensures { OnOk result (string_bytes text.new ≡ string_bytes text.old ++ spec.escape c) }
{
    let code = u32::from(c);
    write!(text, "\\u{{{code:x}}}")
}

/// Returns U+FFFD for U+FFFE and U+FFFF, which XML does not allow, and any other character as it is.
pub fn allowed(c: char) -> char
    ensures { result ≡ spec.allowed c }
{
    match c {
        '\u{fffe}' | '\u{ffff}' => '\u{fffd}',
        _ => c,
    }
}
