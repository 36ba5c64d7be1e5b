//! The commands of GitHub's runner.

ghost use Rattle.std.specs.Prelude.{◌≡◌, true, if◌then◌else◌};
ghost use Rattle.std.specs.Str.{chars};
ghost use Rattle.report_text.specs.Command as spec;
ghost use Rattle.report_text.specs.Line.{line_end};
ghost use Rattle.report_text.specs.Shown.{Adds};
ghost use Rattle.report_text.specs.declared.line.Mark.TheVariants.{Nothing};

use crate::line::{Front, Mark, is_hidden, mark_after, push_escape};
use crate::noted_text::NotedText;

/// How serious the finding of a command is.
#[derive(Clone, Copy)]
pub enum Kind {
    Error,
    Warning,
    Notice,
}

/// The name of a property of a command.
#[derive(Clone, Copy)]
pub enum PropertyName {
    File,
    Line,
    Column,
    Title,
}

/// A property of a command.
#[derive(Clone, Copy)]
pub struct Property<'a> {
    pub name: PropertyName,
    pub value: &'a str,
}

/// Returns the name of a kind of commands.
fn kind_name(kind: Kind) -> &'static str
    ensures { result.now ≡ spec.kind_name kind }
{
    match kind {
        Kind::Error => "error",
        Kind::Warning => "warning",
        Kind::Notice => "notice",
    }
}

/// Returns the name of a property.
fn property_name(name: PropertyName) -> &'static str
    ensures { result.now ≡ spec.property_name name }
{
    match name {
        PropertyName::File => "file",
        PropertyName::Line => "line",
        PropertyName::Column => "col",
        PropertyName::Title => "title",
    }
}

/// Returns true for a character that is not written as it is in a command.
fn is_encoded(c: char, in_property: bool, mark: Mark) -> bool
    ensures { result ≡ spec.is_encoded in_property mark c }
{
    match c {
        '%' | '\r' | '\n' => true,
        ':' | ',' => in_property,
        '[' => matches!(mark, Mark::Hashes),
        _ => is_hidden(c),
    }
}

/// Appends what replaces a character in a command.
fn push_replacement(text: &mut NotedText, c: char)
    ensures { Adds text.old text.new (spec.replacement c) }
{
    match c {
        '%' => text.add_str("%25"),
        '\r' => text.add_str("%0D"),
        '\n' => text.add_str("%0A"),
        ':' => text.add_str("%3A"),
        ',' => text.add_str("%2C"),
        _ => push_escape(text, c),
    }
}

/// Appends a character of a command, and returns what is at the end of the text after it.
fn push_encoded_char(text: &mut NotedText, c: char, in_property: bool, mark: Mark) -> Mark
    ensures text { Adds text.old text.new (spec.encoded_char in_property mark c) }
    ensures mark { result ≡ spec.mark_encoded in_property mark c }
{
    if is_encoded(c, in_property, mark) {
        push_replacement(text, c);
        Mark::Nothing
    } else {
        text.add_char(c);
        mark_after(false, mark, c)
    }
}

/// Appends a property's value or a message of a command.
fn push_encoded(text: &mut NotedText, value: &str, in_property: bool)
    ensures { Adds text.old text.new (spec.encoded in_property Nothing (chars value.now)) }
{
    let mut mark = Mark::Nothing;
    for c in value.chars() {
        mark = push_encoded_char(text, c, in_property, mark);
    }
}

/// Appends a property.
fn push_property(text: &mut NotedText, property: &Property)
    ensures { Adds text.old text.new (spec.property_text property.now) }
{
    text.add_str(property_name(property.name));
    text.add_char('=');
    push_encoded(text, property.value, true);
}

/// Returns what is before a property.
fn separator(first: bool) -> char
    ensures { result ≡ (if first then 32 else 44) }
{
    if first { ' ' } else { ',' }
}

/// Appends a space or a comma and a property, for each of these.
fn push_properties(text: &mut NotedText, properties: &[Property])
    ensures { Adds text.old text.new (spec.properties_text true properties.now) }
{
    let mut first = true;
    for property in properties {
        text.add_char(separator(first));
        push_property(text, property);
        first = false;
    }
}

/// Appends the line of a command.
pub(crate) fn push_command_line(
    text: &mut NotedText,
    kind: Kind,
    properties: &[Property],
    message: &str,
)
    ensures { Adds text.old text.new (spec.command_line kind properties.now (chars message.now)) }
{
    text.add_str("::");
    text.add_str(kind_name(kind));
    push_properties(text, properties);
    text.add_str("::");
    push_encoded(text, message, false);
    text.add_char('\n');
}

/// Ends a line that has begun, also if sequences alone are in it: a CI system looks for commands at the start of a line.
pub(crate) fn push_line_end(text: &mut NotedText, front: Front)
    ensures { Adds text.old text.new (line_end front text.old.text) }
{
    match front {
        Front::White => {
            if !text.starts_line() {
                text.add_char('\n');
            }
        }
        _ => text.add_char('\n'),
    }
}
