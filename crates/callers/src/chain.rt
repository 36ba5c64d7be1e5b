//! Errors with their causes, to JSON values and back.

use crate::print;
use run_events::chain::SerializableError;
use serde_json::Value;
use std::alloc::{AllocError, Global};

/// The value of an error, and values that are not errors.
const VALUES: &str = r#"[
    {"message":"m","causes":["cause 0","cause 1"]},
    [],
    {},
    {"message":null},
    {"message":"m","causes":null},
    {"message":"m","causes":["a",1]}
]"#;

/// The causes of a long error. A comparison or drop that called itself for each needs too much stack.
const MANY: u32 = 200_000;

/// Returns this many texts, which all differ.
fn causes(alloc: Global, count: u32) -> Result<Vec<String>, AllocError> {
    let mut causes = Vec::new(alloc);
    for number in 0..count {
        causes.push(format!(in alloc; "cause {number}")?)?;
    }
    Ok(causes)
}

/// Returns the error with the message `error NUMBER` and this many causes.
pub(crate) fn error(
    alloc: Global,
    number: u32,
    count: u32,
) -> Result<SerializableError, AllocError> {
    let causes = causes(alloc, count)?;
    let message = format!(in alloc; "error {number}")?;
    SerializableError::from_message_and_causes(alloc, message, causes)
}

/// Makes an error, and writes one twice.
pub(crate) fn to_value<R: AllocGlobal + Print>(rt: &R) -> Result<(), AllocError> {
    print(rt, "from-message-and-causes", error(rt.alloc(), 0, 2));
    let error = error(rt.alloc(), 0, 2)?;
    print(rt, "to-value", error.to_value(rt.alloc()));
    print(rt, "to-value", error.to_value(rt.alloc()));
    Ok(())
}

/// Reads an error, and values that are not errors, each twice.
pub(crate) fn from_values<R: AllocGlobal + Print>(rt: &R) -> Result<(), AllocError> {
    let Ok(Value::Array(values)) = Value::from_str(rt.alloc(), VALUES) else {
        return Err(AllocError);
    };
    for value in &values {
        print(
            rt,
            "from-value",
            SerializableError::from_value(rt.alloc(), value),
        );
        print(
            rt,
            "from-value",
            SerializableError::from_value(rt.alloc(), value),
        );
    }
    Ok(())
}

/// Makes a long error, writes it as a value, and reads it from the value.
pub(crate) fn long_error<R: AllocGlobal + Print>(rt: &R) -> Result<(), AllocError> {
    let error = error(rt.alloc(), 0, MANY)?;
    let value = error.to_value(rt.alloc())?;
    let read = SerializableError::from_value(rt.alloc(), &value);
    print(rt, "long-error", read == Ok(error));
    Ok(())
}
