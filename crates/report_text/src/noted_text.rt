//! A text that notes that memory ran out.

ghost use Rattle.std.specs.Prelude.{◌≡◌, ◌==◌, [], ◌∷◌, ◌++◌, length, false, true, string_bytes, MatchResult, OnOk};
ghost use Rattle.std.specs.Str.{chars};
ghost use Rattle.report_text.specs.Line as spec;
ghost use Rattle.report_text.specs.Shown.{Adds};

use std::alloc::{AllocError, Global};
use std::fmt::Write;
use std::marker::Model;
use std::mem;

/// Appends the escape of a character, such as `\u{1b}`.
#[tactic(auto, unfolding(crate::specs::Line::escape))]
fn write_escape(text: &mut String, c: char) -> Result<(), AllocError>
    ensures { OnOk result (string_bytes text.new ≡ string_bytes text.old ++ spec.escape c) }
{
    let code = u32::from(c);
    write!(text, "\\u{{{code:x}}}")
}

/// A text to which more is appended, until memory runs out. Then it is empty, and stays so.
#[derive(Drop)]
pub struct NotedText {
    text: String,
    failed: bool,
    alloc: Global,
}

impl Model for NotedText {
    ghost use Rattle.std.specs.Prelude.{◌≡◌, [], true, string_bytes};
    ghost use Rattle.std.specs.Str.{chars};
    ghost use Rattle.report_text.specs.Shown.{Noted};

    ghost Value = { Noted };

    ghost view = { λ t. record { text = chars (string_bytes t.text); failed = t.failed } };

    ghost invariant = { λ t. t.failed ≡ true → string_bytes t.text ≡ [] };
}

impl NotedText {
    /// Returns an empty text.
    pub(crate) fn new(alloc: Global) -> NotedText
        ensures { result ≡ record { text = []; failed = false } }
    {
        NotedText {
            text: String::new(alloc),
            failed: false,
            alloc,
        }
    }

    /// Returns the text.
    pub(crate) fn as_str(&self) -> &str
        ensures text { chars result.now ≡ self.now.text }
        ensures lost { self.now.failed ≡ true → result.now ≡ [] }
    {
        self.text.as_str()
    }

    /// Returns true if the text is empty.
    pub(crate) fn is_empty(&self) -> bool
        ensures { result ≡ (length self.now.text == 0) }
    {
        self.text.as_str().is_empty()
    }

    /// Returns true if the text is empty or ends in a line feed.
    pub(crate) fn starts_line(&self) -> bool
        ensures { result ≡ spec.starts_line self.now.text }
    {
        let bytes = self.text.as_bytes();
        if bytes.is_empty() {
            return true;
        }
        bytes[bytes.len() - 1] == b'\n'
    }

    /// Drops the text, since memory ran out.
    fn fail(&mut self)
        ensures { self.new ≡ record { text = []; failed = true } }
    {
        self.text.clear();
        self.failed = true;
    }

    /// Appends a text.
    pub(crate) fn add_str(&mut self, text: &str)
        ensures { Adds self.old self.new (chars text.now) }
    {
        if self.failed {
            return;
        }
        match self.text.push_str(text) {
            Ok(()) => {}
            Err(_) => self.fail(),
        }
    }

    /// Appends a character.
    pub(crate) fn add_char(&mut self, c: char)
        ensures { Adds self.old self.new (c ∷ []) }
    {
        if self.failed {
            return;
        }
        match self.text.push(c) {
            Ok(()) => {}
            Err(_) => self.fail(),
        }
    }

    /// Appends the escape of a character, such as `\u{1b}`.
    pub(crate) fn add_escape(&mut self, c: char)
        ensures { Adds self.old self.new (spec.escape c) }
    {
        if self.failed {
            return;
        }
        match write_escape(&mut self.text, c) {
            Ok(()) => {}
            Err(_) => self.fail(),
        }
    }

    /// Returns the text and leaves an empty one. Fails if memory ran out.
    pub(crate) fn take(&mut self) -> Result<String, AllocError>
        ensures { MatchResult result
            (λ t. (self.old.failed ≡ false) × (chars (string_bytes t) ≡ self.old.text) × (self.new ≡ record { text = []; failed = false }))
            (λ _. (self.old.failed ≡ true) × (self.new ≡ self.old)) }
    {
        if self.failed {
            return Err(AllocError);
        }
        Ok(mem::replace(&mut self.text, String::new(self.alloc)))
    }

    /// Returns the text. Fails if memory ran out.
    pub(crate) fn end(self) -> Result<String, AllocError>
        ensures { MatchResult result (λ t. (self.failed ≡ false) × (chars (string_bytes t) ≡ self.text)) (λ _. self.failed ≡ true) }
    {
        let NotedText { text, failed, .. } = self;
        if failed { Err(AllocError) } else { Ok(text) }
    }
}
