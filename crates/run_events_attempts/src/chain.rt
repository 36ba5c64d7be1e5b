//! Errors with their causes, kept as texts.

ghost use Rattle.std.specs.Prelude.{◌≡◌, [], map, string_bytes, IfOk, MatchOption, Some};
ghost use Rattle.std.specs.Iterator.{YieldsFirstRef, item_count};
ghost use Rattle.run_events_attempts.specs.ErrorChain.{cause_chains, texts};

use std::alloc::{AllocError, Global};
use std::fmt;
use std::marker::Model;

mod json;

pub use crate::chain::json::FromValueError;

/// An error as its message and the messages of its causes. It can be stored, and outlives the error
/// that it was made from.
///
/// It is displayed as its message, without the causes. Two are equal if their messages and all
/// messages of their causes are equal. It is dropped and compared in loops, so a long chain needs
/// no stack; the derived `Debug` is recursive.
#[derive(Debug)]
pub struct SerializableError {
    message: String,
    source: Option<Box<SerializableError>>,
}

impl Model for SerializableError {
    ghost use Rattle.std.specs.Prelude.{string_bytes, []};
    ghost use Rattle.std.specs.Option.{option_map_or};
    ghost use Rattle.std.proofs.Common.{arith};
    ghost use Rattle.run_events_attempts.specs.ErrorChain.{ErrorChain, texts, text_count};

    // Contracts see it as its texts: the message, then the causes, the nearest first.
    ghost Value = { ErrorChain };

    ghost view = { λ e. record {
      message = string_bytes e.message;
      causes = option_map_or (λ b. texts b.value) e.source [];
    } };

    ghost size = { text_count };

    ghost size_decreases = { λ a h. Prim.grind arith };
}

impl Drop for SerializableError {
    fn drop(mut self) {
        loop {
            let SerializableError { message: _, source } = self;
            match source {
                None => return,
                Some(cause) => self = Box::into_inner(cause),
            }
        }
    }
}

impl SerializableError {
    /// Returns an error with this message and these causes, the nearest cause first.
    pub fn from_message_and_causes(
        alloc: Global,
        message: String,
        mut causes: Vec<String>,
    ) -> Result<Self, AllocError>
        // Takes memory for each cause. If it is refused, message and causes are dropped.
        ensures message { IfOk result (λ e. e.message ≡ string_bytes message) }
        ensures causes { IfOk result (λ e. e.causes ≡ map string_bytes causes.items) }
    {
        let mut source: Option<Box<SerializableError>> = None;
        'link: while let Some(message) = causes.pop() {
            source = Some(Box::new(alloc, SerializableError { message, source })?);
        }
        Ok(SerializableError { message, source })
    }

    /// Returns the message, without the causes.
    pub fn message(&self) -> &str
        ensures { result.now ≡ self.now.message }
    {
        self.message.as_str()
    }

    /// Returns the nearest cause, with its own causes, or `None` if there is no cause.
    pub fn source(&self) -> Option<&SerializableError>
        ensures { MatchOption result (self.now.causes ≡ []) (λ e. self.now.causes ≡ texts e.now) }
    {
        self.source.as_deref()
    }

    /// Returns an iterator over the causes, the nearest first. Each has its own causes.
    pub fn sources(&self) -> SerializableErrorSources<'_>
        ensures { result ≡ self.now.causes }
    {
        SerializableErrorSources {
            current: self.source(),
        }
    }
}

impl fmt::Display for SerializableError {
    ghost output = { λ e. Some e.message };

    ghost styled_output = { λ e _. Some e.message };

    fn fmt<W: fmt::Write>(&self, f: &mut fmt::Formatter<W>) -> fmt::Result {
        f.write_str(self.message())
    }
}

impl PartialEq for SerializableError {
    ghost use Rattle.std.specs.Ordering.{on};
    ghost use Rattle.std.specs.Str.{bytes_eq};
    ghost use Rattle.std.specs.Cmp.{on_equiv, partial_equiv_from_equiv};
    ghost use Rattle.std.specs.Cmp.Lexicographic.{pointwise, lists_equiv, nat_list_eq_equiv};
    ghost use Rattle.run_events_attempts.specs.ErrorChain.{texts};

    ghost eq = { on texts (pointwise bytes_eq) };

    ghost laws = { partial_equiv_from_equiv (on_equiv texts (lists_equiv nat_list_eq_equiv)) };

    fn eq(&self, other: &SerializableError) -> bool {
        let mut left = self;
        let mut right = other;
        'compare: loop {
            if left.message() != right.message() {
                return false;
            }
            match (left.source(), right.source()) {
                (None, None) => return true,
                (Some(next_left), Some(next_right)) => {
                    left = next_left;
                    right = next_right;
                }
                _ => return false,
            }
        }
    }
}

impl Eq for SerializableError {
    ghost use Rattle.std.specs.Cmp.{on_equiv};
    ghost use Rattle.std.specs.Cmp.Lexicographic.{lists_equiv, nat_list_eq_equiv};
    ghost use Rattle.run_events_attempts.specs.ErrorChain.{texts};

    ghost laws = { on_equiv texts (lists_equiv nat_list_eq_equiv) };
}

/// An iterator over the causes of an error, the nearest first.
#[derive(Debug, Drop)]
pub struct SerializableErrorSources<'a> {
    current: Option<&'a SerializableError>,
}

impl<'a> Model for SerializableErrorSources<'a> {
    ghost use Rattle.std.specs.Prelude.{ℕ, List, []};
    ghost use Rattle.std.specs.Option.{option_map_or};
    ghost use Rattle.run_events_attempts.specs.ErrorChain.{texts};

    // Contracts see it as the texts of the causes that are left.
    ghost Value = { List (List ℕ) };

    ghost view = { λ s. option_map_or (λ e. texts e.now) s.current [] };
}

impl<'a> Iterator for SerializableErrorSources<'a> {
    type Item = &'a SerializableError;

    ghost next_gives = { YieldsFirstRef cause_chains };

    ghost remaining = { item_count cause_chains };

    fn next(&mut self) -> Option<&'a SerializableError> {
        let error = self.current?;
        self.current = error.source();
        Some(error)
    }
}
