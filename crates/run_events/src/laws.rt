//! Laws that callers rely on, each carried by the contract of a function of the layer that declares
//! its type.

pub use run_events_attempts::laws::{errors_are_equal, retry_data_at_most, retry_data_order};
pub use run_events_results::laws::{
    cancel_reason_at_most, cancel_reason_order, executing_messages, final_level_at_most,
    final_level_order, flaky_result_default, results_are_equal, run_mode_default,
    status_level_at_most, status_level_order, stress_index_at_most, stress_index_hashes,
    stress_index_order, termination_signal, waiting_on_messages,
};
pub use run_events_stats::laws::{
    failure_step_at_most, failure_step_order, final_stats_are_equal, outcomes_are_equal,
    run_stats_are_equal, run_stats_default,
};
