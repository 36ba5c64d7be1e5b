//! Tests that finished, and the statistics.

ghost use Rattle.std.specs.Prelude.{◌≡◌, OnErr, OnOk};
ghost use Rattle.run_events_stats.specs.Counters.{with_test};
ghost use Rattle.test_report_run_notes.specs.Finish.{view_of_finish};

use run_events_stats::stats::{CounterFull, RunStats};
use test_report_run_notes::finish::{Finish, finished_test};

/// Adds a test that finished to the statistics. Fails if a counter is full, and changes nothing then.
pub(crate) fn count(
    stats: &mut RunStats,
    finish: Finish,
    attempts: usize,
    is_slow: bool,
) -> Result<(), CounterFull>
    ensures counts { OnOk result (stats.new ≡ with_test stats.old (view_of_finish finish attempts is_slow)) }
    ensures kept { OnErr result (stats.new ≡ stats.old) }
{
    let test = finished_test(finish, attempts, is_slow);
    stats.try_on_test_view(&test.view())
}
