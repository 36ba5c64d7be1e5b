//! How a text of any origin is written.

ghost use Rattle.std.specs.Prelude.{◌≡◌, ◌==◌, ◌≤◌, length, take, true};
ghost use Rattle.std.specs.List.{list_all};
ghost use Rattle.std.specs.Str.{chars};
ghost use Rattle.report_text.specs.Shown as spec;
ghost use Rattle.report_text.specs.Shown.{Adds};

use crate::line::{Front, Line, Mark, is_hidden, line_after, line_inside, push_escape};
use crate::noted_text::NotedText;
use crate::sequence::style_len;

/// How a text is written.
#[derive(Clone, Copy)]
pub struct Rules {
    /// Nothing is a command or a marker.
    pub for_terminal: bool,
    /// Tabs and line feeds are escapes.
    pub one_line: bool,
    /// Sequences of the text that set styles are written as they are.
    pub keeps_colours: bool,
}

/// Returns true if a character is written as an escape.
fn escapes(one_line: bool, line: Line, c: char) -> bool
    ensures { result ≡ spec.escapes one_line line c }
{
    match c {
        '\t' | '\n' => one_line,
        ':' => matches!(line.front, Front::Colon),
        '[' => matches!(line.mark, Mark::Hashes),
        _ => is_hidden(c),
    }
}

/// Appends a character or its escape, and returns what is known after it.
fn push_char(text: &mut NotedText, rules: Rules, line: Line, c: char) -> Line
    ensures text { Adds text.old text.new (spec.written rules line c) }
    ensures line { result ≡ spec.next rules line c }
{
    if escapes(rules.one_line, line, c) {
        push_escape(text, c);
        line_inside()
    } else {
        text.add_char(c);
        line_after(rules.for_terminal, line, c)
    }
}

/// Returns true for a byte that is written as it is in a line that has begun.
fn is_plain(byte: u8) -> bool
    ensures { result ≡ spec.is_plain byte }
{
    matches!(byte, b' '..=b'"' | b'$'..=b'~')
}

/// Returns true if all bytes are written as they are in a line that has begun. Looks at all of them, since a loop that
/// does not end early is faster.
fn all_plain(bytes: &[u8]) -> bool
    ensures { result ≡ list_all spec.is_plain bytes.now }
{
    let mut all = true;
    for byte in bytes {
        all &= is_plain(*byte);
    }
    all
}

/// Returns the number of bytes at the front of a text that are written as they are in a line that has begun.
fn plain_len(bytes: &[u8]) -> usize
    ensures within { result ≤ length bytes.now }
    ensures plain { list_all spec.is_plain (take result bytes.now) ≡ true }
{
    let mut n: usize = 0;
    while bytes.len() - n >= 16 && all_plain(&bytes[n..n + 16]) {
        n += 16;
    }
    while n < bytes.len() && is_plain(bytes[n]) {
        n += 1;
    }
    n
}

/// Returns the number of spaces at the front of a text.
fn spaces_len(bytes: &[u8]) -> usize
    ensures within { result ≤ length bytes.now }
    ensures spaces { list_all (λ b. b == 32) (take result bytes.now) ≡ true }
{
    for (i, byte) in bytes.iter().enumerate() {
        if *byte != b' ' {
            return i;
        }
    }
    bytes.len()
}

/// Returns the number of bytes at the front of a text that are written as they are and change nothing of what is known.
fn stays_len(line: Line, bytes: &[u8]) -> usize
    ensures within { result ≤ length bytes.now }
    ensures stay { list_all (spec.stays line) (take result bytes.now) ≡ true }
{
    match (line.front, line.mark) {
        (Front::Inside, Mark::Nothing) => plain_len(bytes),
        (Front::White, Mark::Nothing) => spaces_len(bytes),
        _ => 0,
    }
}

/// Returns the number of bytes after a character of a sequence that is written as it is, or 0.
fn kept_len(rules: Rules, c: char, text: &str) -> usize
    ensures { result ≡ spec.kept_len rules c (chars text.now) }
{
    if rules.keeps_colours && c == '\u{1b}' {
        style_len(text)
    } else {
        0
    }
}

/// Appends a text of any origin. Returns what is known after it, and true if it had sequences that set styles.
pub(crate) fn push_shown(
    text: &mut NotedText,
    rules: Rules,
    start: Line,
    shown: &str,
) -> (Line, bool)
    ensures text { Adds text.old text.new (spec.pushed rules start 0 (chars shown.now)) }
    ensures line { result.0 ≡ spec.ends rules start 0 (chars shown.now) }
    ensures colours { result.1 ≡ spec.has_kept rules (chars shown.now) }
{
    let mut line = start;
    let mut has_style = false;
    let mut rest = shown.chars();
    while let Some(c) = rest.next() {
        let tail = rest.as_str();
        let kept = kept_len(rules, c, tail);
        if kept == 0 {
            line = push_char(text, rules, line, c);
            let n = stays_len(line, tail.as_bytes());
            text.add_str(&tail[..n]);
            rest = tail[n..].chars();
        } else {
            text.add_char(c);
            text.add_str(&tail[..kept]);
            rest = tail[kept..].chars();
            has_style = true;
        }
    }
    (line, has_style)
}
