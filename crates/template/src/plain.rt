//! Texts of Markdown in which no character is markup.

ghost use Rattle.std.specs.Prelude.{◌≡◌, ◌++◌, OnOk, string_bytes};
ghost use Rattle.std.specs.Str.{chars};
ghost use Rattle.template.specs.Hole as spec;
ghost use Rattle.template.specs.Hole.{plain, plain_char, plain_chars, plain_escape};
ghost use Rattle.template.specs.Shown.{shown, shown_char};

use crate::shown::{allowed, is_escaped};
use std::alloc::AllocError;
use std::fmt::Write;

/// Appends a value outside of `<pre>`. Every character that can mean something to Markdown is a reference.
pub(crate) fn push_plain(text: &mut String, value: &str) -> Result<(), AllocError>
    ensures { OnOk result (string_bytes text.new ≡ string_bytes text.old ++ plain (shown value.now)) }
{
    let mut before = ' ';
    for c in value.chars() {
        push_shown(text, before, c)?;
        before = c;
    }
    Ok(())
}

/// Appends a character of a value.
#[tactic(auto, using(crate::proofs::Written::plain_shown_escape, crate::proofs::Written::plain_shown_other))]
fn push_shown(text: &mut String, before: char, c: char) -> Result<(), AllocError>
    ensures { OnOk result (string_bytes text.new
        ≡ string_bytes text.old ++ plain_chars before (chars (shown_char c))) }
{
    if is_escaped(c) {
        push_plain_escape(text, c)
    } else {
        push_plain_char(text, before, allowed(c))
    }
}

/// Appends the escape of a character, with references for its punctuation.
#[tactic(auto, unfolding(crate::specs::Hole::plain_escape))]
fn push_plain_escape(text: &mut String, c: char) -> Result<(), AllocError>
    ensures { OnOk result (string_bytes text.new ≡ string_bytes text.old ++ plain_escape c) }
{
    let code = u32::from(c);
    write!(text, "&#92;u&#123;{code:x}&#125;")
}

/// Appends a character.
fn push_plain_char(text: &mut String, before: char, c: char) -> Result<(), AllocError>
    ensures { OnOk result (string_bytes text.new
        ≡ string_bytes text.old ++ plain_char before c) }
{
    if is_syntax(before, c) {
        let code = u32::from(c);
        write!(text, "&#{code};")
    } else {
        text.push(c)
    }
}

/// Returns true for a character that can mean something to Markdown after another one: most ASCII punctuation, a tab, a
/// line feed, and a space after another one. A colon can only mean something before `/`, which is a reference there.
fn is_syntax(before: char, c: char) -> bool
    ensures { result ≡ spec.is_syntax before c }
{
    match c {
        '\t' | '\n' => true,
        ' ' => before == ' ',
        '"' | '%' | '\'' | ',' | ':' | ';' | '?' => false,
        '/' | '_' => !before.is_ascii_alphanumeric(),
        '.' => !is_before_point(before),
        _ => c.is_ascii_punctuation(),
    }
}

/// Returns true for a character after which a point is no markup: an ASCII letter, but not `w`, because a point after
/// `www` would begin the address of a link.
fn is_before_point(c: char) -> bool
    ensures { result ≡ spec.is_before_point c }
{
    c.is_ascii_alphabetic() && !matches!(c, 'W' | 'w')
}
