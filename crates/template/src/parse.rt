//! The parser of templates.

ghost use Rattle.std.specs.Prelude.{◌≡◌, IfOk, Some, None, map, string_bytes, [], option_map};
ghost use Rattle.template.specs.Parse as spec;
ghost use Rattle.template.specs.Parse.{parsed_view, parsing_view};
ghost use Rattle.template.specs.Template.{parts_view, part_view};

use crate::hole::Hole;
use crate::part::Part;
use std::alloc::{AllocError, Global};

/// What a name between braces means.
#[derive(Clone, Copy)]
enum Kind {
    /// `{{name}}`: a hole in a tag, or between tags.
    Value,

    /// `{{*name}}`: a hole of Markdown, outside of `<pre>`.
    Plain,

    /// `{{#name}}`: a section for each item.
    Each,

    /// `{{^name}}`: a section if there is no item.
    Otherwise,

    /// `{{/name}}`: the end of a section.
    End,
}

/// A section that is not over.
#[derive(Drop)]
struct Section {
    for_each: bool,
    name: String,
    before: Vec<Part>,
}

/// What was parsed.
#[derive(Drop)]
struct Parsed {
    /// The sections that are not over, the innermost last.
    sections: Vec<Section>,

    /// The parts of the innermost section.
    parts: Vec<Part>,

    /// The text is in a tag.
    in_tag: bool,
}

/// The state of the parser.
#[derive(Drop)]
enum Parsing {
    /// In a text, which is this so far.
    InText(Parsed, String),

    /// After a text and a brace.
    OneBrace(Parsed, String),

    /// After two braces.
    TwoBraces(Parsed),

    /// In a name.
    InName(Parsed, Kind, String),

    /// After a name and a brace.
    NameEnd(Parsed, Kind, String),

    /// The text is no template.
    Bad,
}

impl Parsed {
    /// Adds a part.
    fn with_part(mut self, part: Part) -> Result<Parsed, AllocError>
        ensures { IfOk result (λ p. parsed_view p ≡ spec.with_part (parsed_view self) (part_view part)) }
    {
        self.parts.push(part)?;
        Ok(self)
    }

    /// Adds a text, unless it is empty.
    fn with_text(self, text: String) -> Result<Parsed, AllocError>
        ensures { IfOk result (λ p. parsed_view p ≡ spec.with_text (parsed_view self) (string_bytes text)) }
    {
        if text.is_empty() {
            Ok(self)
        } else {
            self.with_part(Part::Text(text))
        }
    }

    /// Returns the state after a part.
    fn after_part(self, alloc: Global, part: Part) -> Result<Parsing, AllocError>
        ensures { IfOk result (λ p. parsing_view p
            ≡ spec.InText (spec.with_part (parsed_view self) (part_view part)) []) }
    {
        let parsed = self.with_part(part)?;
        Ok(Parsing::InText(parsed, String::new(alloc)))
    }

    /// Returns the state after the beginning of a section.
    fn begin_section(
        self,
        alloc: Global,
        for_each: bool,
        name: String,
    ) -> Result<Parsing, AllocError>
        ensures { IfOk result (λ p. parsing_view p
            ≡ spec.InText (spec.with_section (parsed_view self) for_each (string_bytes name)) []) }
    {
        let Parsed {
            mut sections,
            parts,
            in_tag,
        } = self;
        sections.push(Section {
            for_each,
            name,
            before: parts,
        })?;
        let parsed = Parsed {
            sections,
            parts: Vec::new(alloc),
            in_tag,
        };
        Ok(Parsing::InText(parsed, String::new(alloc)))
    }

    /// Ends a section.
    fn close(self, alloc: Global, name: &str) -> Result<Parsing, AllocError>
        ensures { IfOk result (λ p. parsing_view p
            ≡ spec.close (parsed_view self) (spec.ParsedView.sections (parsed_view self)) name.now) }
    {
        let Parsed {
            mut sections,
            parts,
            in_tag,
        } = self;
        match sections.pop() {
            Some(section) => {
                if section.name.as_str() != name {
                    return Ok(Parsing::Bad);
                }
                let part = section_part(section.for_each, section.name, parts);
                let outer = Parsed {
                    sections,
                    parts: section.before,
                    in_tag,
                };
                outer.after_part(alloc, part)
            }
            None => Ok(Parsing::Bad),
        }
    }

    /// Returns the state after a name.
    fn on_name(self, alloc: Global, kind: Kind, name: String) -> Result<Parsing, AllocError>
        ensures { IfOk result (λ p. parsing_view p ≡ spec.on_name (parsed_view self) kind (string_bytes name)) }
    {
        match kind {
            Kind::Value => {
                let kind = kind_at(self.in_tag);
                self.after_part(alloc, Part::Hole { kind, name })
            }
            Kind::Plain => {
                let kind = Hole::Plain;
                self.after_part(alloc, Part::Hole { kind, name })
            }
            Kind::Each => self.begin_section(alloc, true, name),
            Kind::Otherwise => self.begin_section(alloc, false, name),
            Kind::End => self.close(alloc, name.as_str()),
        }
    }

    /// Returns the state after one more character of a text.
    fn more_text(mut self, alloc: Global, mut text: String, c: char) -> Result<Parsing, AllocError>
        ensures { IfOk result (λ p. parsing_view p ≡ spec.more_text (parsed_view self) (string_bytes text) c) }
    {
        self.in_tag = in_tag_after(self.in_tag, c);
        text.push(c)?;
        self.end_line(alloc, text, c)
    }

    /// Returns the state after a text. If it ends a line, it is a part of its own.
    fn end_line(self, alloc: Global, text: String, c: char) -> Result<Parsing, AllocError>
        ensures { IfOk result (λ p. parsing_view p ≡ spec.end_line (parsed_view self) (string_bytes text) c) }
    {
        if c == '\n' {
            Ok(Parsing::InText(self.with_text(text)?, String::new(alloc)))
        } else {
            Ok(Parsing::InText(self, text))
        }
    }

    /// Returns the state after a text, a brace and a character.
    fn after_brace(self, alloc: Global, mut text: String, c: char) -> Result<Parsing, AllocError>
        ensures { IfOk result (λ p. parsing_view p
            ≡ spec.parse_step (spec.OneBrace (parsed_view self) (string_bytes text)) c) }
    {
        if c == '{' {
            Ok(Parsing::TwoBraces(self.with_text(text)?))
        } else {
            text.push('{')?;
            self.more_text(alloc, text, c)
        }
    }

    /// Returns the state after one more character of a name.
    fn more_name(self, kind: Kind, mut name: String, c: char) -> Result<Parsing, AllocError>
        ensures { IfOk result (λ p. parsing_view p
            ≡ spec.parse_step (spec.InName (parsed_view self) kind (string_bytes name)) c) }
    {
        if c == '}' {
            Ok(Parsing::NameEnd(self, kind, name))
        } else {
            name.push(c)?;
            Ok(Parsing::InName(self, kind, name))
        }
    }

    /// Returns the state after the first character after two braces.
    fn begin_name(self, alloc: Global, c: char) -> Result<Parsing, AllocError>
        ensures { IfOk result (λ p. parsing_view p ≡ spec.begin_name (parsed_view self) c) }
    {
        let mut name = String::new(alloc);
        match c {
            '#' => Ok(Parsing::InName(self, Kind::Each, name)),
            '^' => Ok(Parsing::InName(self, Kind::Otherwise, name)),
            '/' => Ok(Parsing::InName(self, Kind::End, name)),
            '*' => Ok(Parsing::InName(self, Kind::Plain, name)),
            '{' | '}' => Ok(Parsing::Bad),
            _ => {
                name.push(c)?;
                Ok(Parsing::InName(self, Kind::Value, name))
            }
        }
    }
}

/// Returns the part of a section with these parts.
fn section_part(for_each: bool, name: String, parts: Vec<Part>) -> Part
    ensures { part_view result
        ≡ spec.section_part for_each (string_bytes name) (map part_view parts.items) }
{
    if for_each {
        Part::Each { name, parts }
    } else {
        Part::Otherwise { name, parts }
    }
}

/// Returns the kind of a hole in a tag, or between tags.
fn kind_at(in_tag: bool) -> Hole
    ensures { result ≡ spec.kind_at in_tag }
{
    if in_tag { Hole::Attribute } else { Hole::Text }
}

/// Returns true if a text is in a tag after a character.
fn in_tag_after(in_tag: bool, c: char) -> bool
    ensures { result ≡ spec.in_tag_after in_tag c }
{
    match c {
        '<' => true,
        '>' => false,
        _ => in_tag,
    }
}

impl Parsing {
    /// Returns the state after one more character.
    fn step(self, alloc: Global, c: char) -> Result<Parsing, AllocError>
        ensures { IfOk result (λ p. parsing_view p ≡ spec.parse_step (parsing_view self) c) }
    {
        match self {
            Parsing::InText(parsed, text) => {
                if c == '{' {
                    Ok(Parsing::OneBrace(parsed, text))
                } else {
                    parsed.more_text(alloc, text, c)
                }
            }
            Parsing::OneBrace(parsed, text) => parsed.after_brace(alloc, text, c),
            Parsing::TwoBraces(parsed) => parsed.begin_name(alloc, c),
            Parsing::InName(parsed, kind, name) => parsed.more_name(kind, name, c),
            Parsing::NameEnd(parsed, kind, name) => {
                if c == '}' {
                    parsed.on_name(alloc, kind, name)
                } else {
                    Ok(Parsing::Bad)
                }
            }
            Parsing::Bad => Ok(Parsing::Bad),
        }
    }

    /// Returns the parts, if the text is over here.
    fn finish(self) -> Result<Option<Vec<Part>>, AllocError>
        ensures { IfOk result (λ o. option_map (λ v. parts_view v.items) o ≡ spec.parsed (parsing_view self)) }
    {
        match self {
            Parsing::InText(parsed, text) => {
                let parsed = parsed.with_text(text)?;
                if parsed.sections.is_empty() {
                    Ok(Some(parsed.parts))
                } else {
                    Ok(None)
                }
            }
            Parsing::OneBrace(..)
            | Parsing::TwoBraces(..)
            | Parsing::InName(..)
            | Parsing::NameEnd(..)
            | Parsing::Bad => Ok(None),
        }
    }
}

/// Returns the parts of a template. `None` means that a section is not ended, that its end has another name, that a
/// name begins with a brace or does not end with two braces, or that the last character of the text is `{`.
pub fn parse_template(alloc: Global, text: &str) -> Result<Option<Vec<Part>>, AllocError>
    ensures { IfOk result (λ o. option_map (λ v. parts_view v.items) o ≡ spec.parse text.now) }
{
    let parsed = Parsed {
        sections: Vec::new(alloc),
        parts: Vec::new(alloc),
        in_tag: false,
    };
    let mut state = Parsing::InText(parsed, String::new(alloc));
    for c in text.chars() {
        state = state.step(alloc, c)?;
    }
    state.finish()
}
