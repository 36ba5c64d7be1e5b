//! What looking back needs to know of a text, so that what is pushed next completes no command.

ghost use Rattle.std.specs.Prelude.{◌≡◌};
ghost use Rattle.report_text.specs.Line as spec;
ghost use Rattle.report_text.specs.Shown.{Adds};

use crate::noted_text::NotedText;

/// What is in the last line so far.
#[derive(Clone, Copy)]
pub enum Front {
    /// White space alone.
    White,
    /// White space and a colon.
    Colon,
    /// Anything else.
    Inside,
    /// White space and two colons.
    Command,
}

/// What is at the end of the text.
#[derive(Clone, Copy)]
pub enum Mark {
    /// Nothing of a marker.
    Nothing,
    /// A number sign.
    Hash,
    /// Two or more number signs and letters.
    Hashes,
    /// A marker is somewhere in the text.
    Marker,
}

/// What is known of the end of a text, without its sequences. On a terminal nothing is a command or a marker.
#[derive(Clone, Copy)]
pub struct Line {
    pub front: Front,
    pub mark: Mark,
}

/// Returns what is known at the start of a line.
pub(crate) fn line_start() -> Line
    ensures { result ≡ spec.line_start }
{
    Line {
        front: Front::White,
        mark: Mark::Nothing,
    }
}

/// Returns what is known after an escape.
pub(crate) fn line_inside() -> Line
    ensures { result ≡ spec.line_inside }
{
    Line {
        front: Front::Inside,
        mark: Mark::Nothing,
    }
}

/// Returns true for a control character except tab and line feed, and for one that changes the direction of writing.
pub(crate) fn is_hidden(c: char) -> bool
    ensures { result ≡ spec.is_hidden c }
{
    match c {
        '\t' | '\n' => false,
        '\u{61c}' | '\u{200e}' | '\u{200f}' => true,
        '\u{202a}'..='\u{202e}' | '\u{2066}'..='\u{2069}' => true,
        _ => c.is_control(),
    }
}

/// Returns what is in the line after one more character.
fn front_after(for_terminal: bool, front: Front, c: char) -> Front
    ensures { result ≡ spec.front_after for_terminal front c }
{
    if c == '\n' {
        return Front::White;
    }
    match front {
        Front::White => {
            if c.is_whitespace() {
                Front::White
            } else if c == ':' && !for_terminal {
                Front::Colon
            } else {
                Front::Inside
            }
        }
        Front::Colon => {
            if c == ':' {
                Front::Command
            } else {
                Front::Inside
            }
        }
        Front::Inside => Front::Inside,
        Front::Command => Front::Command,
    }
}

/// Returns what is at the end of the text after one more character.
pub(crate) fn mark_after(for_terminal: bool, mark: Mark, c: char) -> Mark
    ensures { result ≡ spec.mark_after for_terminal mark c }
{
    match mark {
        Mark::Nothing => {
            if c == '#' && !for_terminal {
                Mark::Hash
            } else {
                Mark::Nothing
            }
        }
        Mark::Hash => {
            if c == '#' {
                Mark::Hashes
            } else {
                Mark::Nothing
            }
        }
        Mark::Hashes => match c {
            '[' => Mark::Marker,
            '#' | 'A'..='Z' | 'a'..='z' => Mark::Hashes,
            _ => Mark::Nothing,
        },
        Mark::Marker => Mark::Marker,
    }
}

/// Returns what is known after one more character.
pub(crate) fn line_after(for_terminal: bool, line: Line, c: char) -> Line
    ensures { result ≡ spec.line_after for_terminal line c }
{
    Line {
        front: front_after(for_terminal, line.front, c),
        mark: mark_after(for_terminal, line.mark, c),
    }
}

/// Appends the escape of a character, such as `\u{1b}`.
pub(crate) fn push_escape(text: &mut NotedText, c: char)
    ensures { Adds text.old text.new (spec.escape c) }
{
    text.add_escape(c);
}
