//! A recorder: writes an error with its causes as JSON text, and reads it back.

ghost use Rattle.std.specs.Prelude.{◌≡◌, Err, IfErr, IfOk, IsErrOf, None, Some, option_map, string_bytes};
ghost use Rattle.serde_json.specs.Read.{read};
ghost use Rattle.run_events.specs.ChainReading.{read_chain};
ghost use Rattle.run_events_attempts.specs.declared.chain.json.FromValueError.{FromValueError};
ghost use Rattle.uses.specs.Recorder.{IsRefusal, chain_in};

use run_events::chain::{FromValueError, SerializableError};
use serde_json::Value;
use std::alloc::{AllocError, Global};

/// Why no error was read from a text.
#[derive(Clone, Copy, Debug, PartialEq, Eq)]
pub enum LoadError {
    /// The text is not JSON.
    NotJson,

    /// The text is JSON, but its value is not an error.
    NotAnError(FromValueError),

    /// Memory was refused.
    OutOfMemory,
}

impl From<AllocError> for LoadError {
    ghost use Rattle.uses.specs.declared.recorder.LoadError.TheVariants.{OutOfMemory};

    ghost from_gives = { λ _ e. e ≡ OutOfMemory };

    fn from(_: AllocError) -> LoadError {
        LoadError::OutOfMemory
    }
}

/// Returns the JSON text of an error.
pub fn store(alloc: Global, error: &SerializableError) -> Result<String, AllocError>
    ensures { IfOk result (λ text. chain_in (string_bytes text) ≡ Some error.now) }
{
    error.to_value(alloc)?.to_string(alloc)
}

/// Reads an error from a JSON text.
pub fn load(alloc: Global, text: &str) -> Result<SerializableError, LoadError>
    ensures chain { IfOk result (λ error. chain_in text.now ≡ Some error) }
    // If the text has an error, only a lack of memory keeps it from being read.
    ensures refused { IfErr result (λ e. IsRefusal e → chain_in text.now ≡ None) }
    // The reason given is the right one: the text is not JSON, or its value is refused for this
    // reason.
    ensures not_json { IsErrOf result LoadError.NotJson → read text.now ≡ None }
    ensures not_an_error { (refusal : FromValueError)
        → IsErrOf result (LoadError.NotAnError refusal)
        → option_map read_chain (read text.now) ≡ Some (Err refusal) }
{
    match Value::from_str(alloc, text) {
        Ok(value) => match SerializableError::from_value(alloc, &value) {
            Ok(error) => Ok(error),
            Err(FromValueError::OutOfMemory) => Err(LoadError::OutOfMemory),
            Err(refusal) => Err(LoadError::NotAnError(refusal)),
        },
        Err(error) if error.is_memory() => Err(LoadError::OutOfMemory),
        Err(_) => Err(LoadError::NotJson),
    }
}

/// Writes an error as text and reads it back. Returns an equal error, unless memory is refused.
pub fn through_text(
    alloc: Global,
    error: &SerializableError,
) -> Result<SerializableError, LoadError>
    ensures same { IfOk result (λ back. back ≡ error.now) }
    ensures refused { IfErr result (λ e. e ≡ LoadError.OutOfMemory) }
{
    let text = store(alloc, error)?;
    load(alloc, text.as_str())
}
