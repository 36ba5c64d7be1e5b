//! A text that is safe to show.

ghost use Rattle.std.specs.Prelude.{◌≡◌, ◌==◌, [], ◌∷◌, ◌++◌, length, false, true, IfOk, IsOk, MatchResult, string_bytes, if◌then◌else◌};
ghost use Rattle.std.specs.List.{list_all};
ghost use Rattle.std.specs.Str.{chars};
ghost use Rattle.report_text.specs.Command.{command, command_line, commands};
ghost use Rattle.report_text.specs.Line.{line_end};
ghost use Rattle.report_text.specs.Safe.{EndsBlank, KeepsCommands, Safe};
ghost use Rattle.report_text.specs.Sequence.{link_mark, style_text as style_spec, target_text, visible};
ghost use Rattle.report_text.specs.Shown as spec;
ghost use Rattle.report_text.specs.Shown.{Appends, has_kept, is_free, line_of, rules};
ghost use Rattle.report_text.specs.declared.line.Front.TheVariants.{White};
ghost use Rattle.report_text.specs.declared.sequence.Style.TheVariants.{Reset};

use crate::command::{Kind, Property, push_command_line, push_line_end};
use crate::line::{Line, line_start};
use crate::noted_text::NotedText;
use crate::sequence::{Style, push_link_mark, style_text};
use crate::shown::{Rules, push_shown};
use std::alloc::{AllocError, Global};
use std::marker::Model;

/// A text that is safe to show.
#[derive(Drop)]
pub struct ReportText {
    text: NotedText,
    line: Line,
    for_terminal: bool,
}

impl Model for ReportText {
    ghost use Rattle.std.specs.Prelude.{◌≡◌, false};
    ghost use Rattle.report_text.specs.Safe.{Kept};
    ghost use Rattle.report_text.specs.Shown.{Report};

    ghost Value = { Report };

    ghost view = { λ t. record { text = t.text.text; failed = t.text.failed; for_terminal = t.for_terminal } };

    ghost invariant = { λ t. t.text.failed ≡ false → Kept t.for_terminal t.text.text t.line };
}

impl ReportText {
    /// Returns an empty text for a log that a CI system may read.
    pub fn new(alloc: Global) -> ReportText
        ensures { result ≡ record { text = []; failed = false; for_terminal = false } }
    {
        ReportText {
            text: NotedText::new(alloc),
            line: line_start(),
            for_terminal: false,
        }
    }

    /// Returns an empty text for a terminal that is no CI system: `::` and `##[` are written as they are.
    pub fn for_terminal(alloc: Global) -> ReportText
        ensures { result ≡ record { text = []; failed = false; for_terminal = true } }
    {
        ReportText {
            text: NotedText::new(alloc),
            line: line_start(),
            for_terminal: true,
        }
    }

    /// Returns the text.
    pub fn as_str(&self) -> &str
        ensures text { self.now.failed ≡ false → chars result.now ≡ self.now.text }
        ensures lost { self.now.failed ≡ true → result.now ≡ [] }
        ensures safe { Safe self.now.for_terminal (chars result.now) }
    {
        self.text.as_str()
    }

    /// Returns true if the text is empty.
    pub fn is_empty(&self) -> bool
        ensures { result ≡ (length self.now.text == 0) }
    {
        self.text.is_empty()
    }

    /// Appends a text of any origin by these rules. Returns true if it had sequences that set styles.
    fn push_by(&mut self, one_line: bool, keeps_colours: bool, text: &str) -> bool
        ensures text { Appends self.old self.new (spec.shown self.old one_line keeps_colours (chars text.now)) }
        ensures commands { KeepsCommands self.old self.new }
        ensures colours { result ≡ has_kept (rules self.old one_line keeps_colours) (chars text.now) }
    {
        let rules = Rules {
            for_terminal: self.for_terminal,
            one_line,
            keeps_colours,
        };
        let (line, has_style) = push_shown(&mut self.text, rules, self.line, text);
        self.line = line;
        has_style
    }

    /// Appends a text of any origin.
    pub fn push(&mut self, text: &str)
        ensures text { Appends self.old self.new (spec.shown self.old false false (chars text.now)) }
        ensures commands { KeepsCommands self.old self.new }
        ensures plain { list_all (is_free false) (chars text.now) ≡ true → Appends self.old self.new (chars text.now) }
    {
        self.push_by(false, false, text);
    }

    /// Appends a text of any origin, whose line feeds and tabs are escapes, too.
    pub fn push_line(&mut self, text: &str)
        ensures text { Appends self.old self.new (spec.shown self.old true false (chars text.now)) }
        ensures commands { KeepsCommands self.old self.new }
        ensures plain { list_all (is_free true) (chars text.now) ≡ true → Appends self.old self.new (chars text.now) }
    {
        self.push_by(true, false, text);
    }

    /// Appends the sequence that sets a style.
    pub fn push_style(&mut self, style: Style)
        ensures text { Appends self.old self.new (style_spec style) }
        ensures commands { KeepsCommands self.old self.new }
    {
        self.text.add_str(style_text(style));
    }

    /// Appends a text of any origin with its own sequences that set styles, and resets the style if there were any.
    pub fn push_coloured(&mut self, text: &str)
        ensures text { Appends self.old self.new (spec.shown self.old false true (chars text.now)
            ++ (if has_kept (rules self.old false true) (chars text.now) then style_spec Reset else [])) }
        ensures commands { KeepsCommands self.old self.new }
    {
        if self.push_by(false, true, text) {
            self.push_style(Style::Reset);
        }
    }

    /// Appends a link whose label is a text of any origin. The target is percent-encoded.
    pub fn push_link(&mut self, target: &str, label: &str)
        ensures text { Appends self.old self.new (link_mark (target_text target.now)
            ++ (spec.shown self.old true false (chars label.now) ++ link_mark [])) }
        ensures commands { KeepsCommands self.old self.new }
    {
        let rules = Rules {
            for_terminal: self.for_terminal,
            one_line: true,
            keeps_colours: false,
        };
        push_link_mark(&mut self.text, target);
        let (line, _) = push_shown(&mut self.text, rules, self.line, label);
        push_link_mark(&mut self.text, "");
        self.line = line;
    }

    /// Appends the line of a command of GitHub's runner. Ends a line that has begun first.
    pub fn push_command(&mut self, kind: Kind, properties: &[Property], message: &str)
        ensures text { Appends self.old self.new (line_end (line_of self.old.for_terminal self.old.text).front self.old.text
            ++ command_line kind properties.now (chars message.now)) }
        ensures commands { self.new.for_terminal ≡ false → self.new.failed ≡ false → commands White (visible self.new.text)
            ≡ commands White (visible self.old.text) ++ command kind properties.now (chars message.now) ∷ [] }
    {
        push_line_end(&mut self.text, self.line.front);
        push_command_line(&mut self.text, kind, properties, message);
        self.line = line_start();
    }

    /// Returns what was written and leaves an empty text. Ends a line that has begun first.
    pub fn take(&mut self) -> Result<String, AllocError>
        ensures text { IfOk result (λ t. (self.old.failed ≡ false) × (chars (string_bytes t)
            ≡ self.old.text ++ line_end (line_of self.old.for_terminal self.old.text).front self.old.text)) }
        ensures safe { IfOk result (λ t. Safe self.old.for_terminal (chars (string_bytes t))) }
        ensures ends { IfOk result (λ t. self.old.for_terminal ≡ false → EndsBlank (chars (string_bytes t))) }
        ensures left { MatchResult result
            (λ _. self.new ≡ record { text = []; failed = false; for_terminal = self.old.for_terminal })
            (λ _. self.new.failed ≡ true) }
    {
        push_line_end(&mut self.text, self.line.front);
        let taken = self.text.take()?;
        self.line = line_start();
        Ok(taken)
    }

    /// Returns all that was written.
    pub fn finish(self) -> Result<String, AllocError>
        ensures text { IfOk result (λ t. (self.failed ≡ false) × (chars (string_bytes t) ≡ self.text)) }
        ensures safe { IfOk result (λ t. Safe self.for_terminal (chars (string_bytes t))) }
        ensures failed { self.failed ≡ false → IsOk result }
    {
        let ReportText { text, .. } = self;
        Ok(text.end()?)
    }
}
