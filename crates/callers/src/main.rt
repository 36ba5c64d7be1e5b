//! Makes calls that allocate, and prints what each returns. `tools/allocation-failures` runs this program with a
//! small library loaded before it that makes one allocation fail.
//!
//! Each call has a line with its name and what it returned. The errors of a list follow on indented lines. If a call
//! runs out of memory, its line says so. The program then makes the call again, with the values that the failed call
//! borrowed or gave back, so a changed value shows. If memory runs out outside of these calls, the program ends.
#![tactic(auto)]

use crate::child::ABORT;
use run_events::progress::{StressCount, StressProgress};
use run_events::results::ExecutionResult;
use std::alloc::AllocError;
use std::fmt::Debug;
use std::time::Duration;
use uuid::Uuid;

mod chain;
mod child;

/// The progress at the last sub-run that can be counted.
const PROGRESS: StressProgress = StressProgress::Count {
    total: StressCount::Infinite,
    elapsed: Duration::ZERO,
    completed: u32::MAX,
};

/// Prints what a call returned, after the name of the call. A line that cannot be written is missing.
fn print<R: Print, T: Debug + Drop>(rt: &R, name: &str, returned: T) {
    let _ = println!(rt; "{name}: {returned:?}");
}

/// Makes the id of the last sub-run that can be counted, twice.
fn unique_id<R: AllocGlobal + Print>(rt: &R) {
    let progress = PROGRESS;
    print(
        rt,
        "unique-id",
        progress.unique_id(rt.alloc(), Uuid::from_u128(1)),
    );
    print(
        rt,
        "unique-id",
        progress.unique_id(rt.alloc(), Uuid::from_u128(1)),
    );
}

/// Makes each call. Those with large values are last.
fn main(rt: HostRuntime) -> Result<(), AllocError> {
    unique_id(&rt);
    chain::to_value(&rt)?;
    chain::from_values(&rt)?;
    child::not_started(&rt)?;
    child::ended(&rt, ExecutionResult::Pass, 0)?;
    child::ended(&rt, ABORT, 0)?;
    child::ended(&rt, ABORT, 2)?;
    child::ended(&rt, ABORT, 2_000)?;
    chain::long_error(&rt)
}
