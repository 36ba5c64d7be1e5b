//! Errors with their causes as JSON values.

ghost use Rattle.std.specs.Prelude.{◌≡◌, ◌≤◌, codes, is_some, not, map, option_map, position, Err, IfOk, Ok, if◌then◌else◌};
ghost use Rattle.std.specs.Result.{result_map_both};
ghost use Rattle.serde_json.specs.Data.{depth, string};
ghost use Rattle.serde_json.specs.Find.{as_object, as_str, get};
ghost use Rattle.serde_json.specs.View.{view};
ghost use Rattle.run_events_attempts.specs.ErrorChain.{ErrorChain};
ghost use Rattle.run_events_attempts.specs.ChainReading.{IsChainUnlessMemory, ReadsAs, read_causes, read_chain, read_message, read_texts};
ghost use Rattle.run_events_attempts.specs.ChainValue.{IsChainValue};
ghost use Rattle.run_events_attempts.specs.ChainObject.{chain_object, texts_of};

use crate::chain::SerializableError;
use serde_json::{Map, Value, put};
use std::alloc::{AllocError, Global};
use std::fmt;

/// Why a JSON value is not an error with its causes.
#[derive(Clone, Copy, Debug, PartialEq, Eq)]
pub enum FromValueError {
    /// The value is not an object.
    NotAnObject,

    /// The object has no member `message`.
    MessageMissing,

    /// The member `message` is not a text.
    MessageNotText,

    /// The member `causes` is not a list. `null` is not a list either.
    CausesNotAList,

    /// A cause is not a text.
    CauseNotText {
        /// The position of the first such cause, counted from 0.
        index: usize,
    },

    /// There was not enough memory.
    OutOfMemory,
}

impl fmt::Display for FromValueError {
    ghost use Rattle.std.specs.Prelude.{Some};
    ghost use Rattle.run_events_attempts.specs.ChainReading.{reading_error_text};

    ghost output = { λ e. Some (reading_error_text e) };

    fn fmt<W: fmt::Write>(&self, f: &mut fmt::Formatter<W>) -> fmt::Result {
        let text = match self {
            FromValueError::NotAnObject => "the error is not an object",
            FromValueError::MessageMissing => "the error has no member `message`",
            FromValueError::MessageNotText => "the member `message` is not a string",
            FromValueError::CausesNotAList => "the member `causes` is not a list",
            FromValueError::CauseNotText { index } => {
                return write!(f, "the item {index} of `causes` is not a string");
            }
            FromValueError::OutOfMemory => "out of memory",
        };
        f.write_str(text)
    }
}

impl From<AllocError> for FromValueError {
    ghost use Rattle.run_events_attempts.specs.declared.chain.json.FromValueError.TheVariants.{OutOfMemory};

    ghost from_gives = { λ _ e. e ≡ OutOfMemory };

    fn from(_: AllocError) -> FromValueError {
        FromValueError::OutOfMemory
    }
}

impl SerializableError {
    /// Returns the error as an object with two members: `message`, a text, and `causes`, a list of
    /// texts with the nearest cause first. The list is present even if it is empty.
    #[tactic(auto, using(crate::proofs::ChainLemmas::is_chain_value_from_object, crate::proofs::ChainLemmas::nests_from_object, crate::proofs::ChainLemmas::reads_from_object))]
    pub fn to_value(&self, alloc: Global) -> Result<Value, AllocError>
        ensures members { IfOk result (λ v. IsChainValue (view v) self.now) }

        // `serde_json` reads a text again that nests no deeper than 127.
        ensures nests { IfOk result (λ v. depth (view v) ≤ 2) }
        ensures reads_back { IfOk result (λ v. read_chain (view v) ≡ Ok self.now) }
    {
        object_of(alloc, self)
    }

    /// Reads an error from an object with a text `message` and a list of texts `causes`. If `causes`
    /// is missing, the error has no cause. Other members are ignored.
    ///
    /// If several errors of [`FromValueError`] apply, returns the one that is declared first. A value
    /// from [`Self::to_value`] is read as an equal error.
    #[tactic(auto, using(crate::proofs::ChainLemmas::reads_back_from_reads))]
    pub fn from_value(alloc: Global, value: &Value) -> Result<Self, FromValueError>
        // The value is tested before any memory is taken.
        ensures reads { ReadsAs (read_chain (view value.now)) result }
        ensures reads_back { (c : ErrorChain) → IsChainValue (view value.now) c
            → IsChainUnlessMemory c result }
    {
        let message = message_of(value)?;
        let causes = causes_of(value.get("causes"))?;
        Ok(error_of(alloc, message, causes)?)
    }
}

/// Returns an error as an object with a message and a list of causes.
fn object_of(alloc: Global, error: &SerializableError) -> Result<Value, AllocError>
    // The clauses of `to_value` are proved from this one.
    ensures { IfOk result (λ v. view v ≡ chain_object error.now) }
{
    let mut members = Map::new(alloc);
    let message = Value::try_from_str(alloc, error.message())?;
    put(&mut members, alloc, "message", message)?;
    let causes = Value::Array(causes_as_values(alloc, error)?);
    put(&mut members, alloc, "causes", causes)?;
    Ok(Value::Object(members))
}

/// Returns the messages of the causes of an error as values, the nearest cause first.
#[tactic(auto, using(crate::proofs::ChainLemmas::messages_of_cause_chains))]
fn causes_as_values(alloc: Global, error: &SerializableError) -> Result<Vec<Value>, AllocError>
    ensures { IfOk result (λ vs. map view vs.items ≡ map string error.now.causes) }
{
    let mut values = Vec::new(alloc);
    for cause in error.sources() {
        values.push(Value::try_from_str(alloc, cause.message())?)?;
    }
    Ok(values)
}

/// Returns the message of a value.
fn message_of(value: &Value) -> Result<&str, FromValueError>
    ensures { result_map_both (λ s. s.now) (λ e. e) result
        ≡ (if is_some (as_object (view value.now))
        then read_message (get (codes "message") (view value.now))
        else Err FromValueError.NotAnObject) }
{
    if !value.is_object() {
        return Err(FromValueError::NotAnObject);
    }
    match value.get("message") {
        None => Err(FromValueError::MessageMissing),
        Some(member) => match member.as_str() {
            None => Err(FromValueError::MessageNotText),
            Some(message) => Ok(message),
        },
    }
}

/// Returns the causes in a member of a value, which are none if it is missing.
#[tactic(auto, using(crate::proofs::ChainLemmas::values_in_items_of))]
fn causes_of(member: Option<&Value>) -> Result<&[Value], FromValueError>
    ensures { result_map_both (λ vs. texts_of vs.now) (λ e. e) result
        ≡ read_causes (option_map (λ v. view v.now) member.entry) }
{
    match member {
        None => Ok(&[]),
        Some(member) => match member.as_array() {
            None => Err(FromValueError::CausesNotAList),
            Some(items) => all_texts(items.as_slice()),
        },
    }
}

/// Returns the values if all of them are texts.
#[tactic(auto, using(crate::proofs::ChainLemmas::reads_all, crate::proofs::ChainLemmas::position_of_view))]
fn all_texts(items: &[Value]) -> Result<&[Value], FromValueError>
    ensures { result_map_both (λ vs. texts_of vs.now) (λ e. e) result
        ≡ read_texts (map view items.now) }
{
    match first_no_text(items) {
        None => Ok(items),
        Some(index) => Err(FromValueError::CauseNotText { index }),
    }
}

/// Returns the position of the first value that is not a text.
fn first_no_text(items: &[Value]) -> Option<usize>
    ensures { result ≡ position (λ v. not (is_some (as_str (view v)))) items.now }
{
    items.iter().position(|item| !item.is_string())
}

/// Returns the error with this message, whose causes are the texts of these values. Values that are
/// not texts are left out.
fn error_of(alloc: Global, message: &str, causes: &[Value]) -> Result<SerializableError, AllocError>
    ensures message { IfOk result (λ e. e.message ≡ message.now) }
    ensures causes { IfOk result (λ e. e.causes ≡ texts_of causes.now) }
{
    let mut texts = Vec::with_capacity(alloc, causes.len())?;
    for cause in causes {
        if let Some(text) = cause.as_str() {
            texts.push(String::from_str(alloc, text)?)?;
        }
    }
    SerializableError::from_message_and_causes(alloc, String::from_str(alloc, message)?, texts)
}
