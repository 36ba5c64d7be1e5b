//! The settings that decide how results count and what a reporter shows, and other values in events.

mod carried;

pub use crate::config::carried::{
    JunitFlakyFailStatus, MismatchReason, OwnedTestInstanceId, ReportSkipPolicy, ScriptId,
    StressCondition, TestGroup, TestInstanceId, TestList,
};
pub use run_events_attempts::moment::Moment;
pub use run_events_results::config::{
    FlakyResult, LeakTimeoutResult, SlowTimeoutResult, TestOutputDisplay,
};
