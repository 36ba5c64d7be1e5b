//! The caller that the page on calling `test_report_laws` shows.

ghost use Rattle.std.specs.Prelude.{◌↔◌, ◌∷◌, [], IfOk, IsTrue, List, flat_map, map};
ghost use Rattle.std.specs.List.{AllZip};
ghost use Rattle.test_report_events.specs.Event.{EventView};
ghost use Rattle.test_report_events.specs.Line.{LineSays};
ghost use Rattle.test_report_laws.specs.Status.{IsInOrder, Succeeds};
ghost use Rattle.test_report_laws.specs.Whole.{whole_end};
ghost use Rattle.test_report_run.specs.Run.{run_settings};

use crate::of_test_report_run::end_of_lines;
use run_events_stats::outcome::RunOutcome;
use std::alloc::Global;
use test_report_laws::run::success_is_in_order;
use test_report_run::error::RunError;

/// Returns true if and only if the run with these lines succeeded. If so, its lines are in order: for example,
/// no line says that a test failed.
pub fn succeeds_in_order(alloc: Global, lines: &[&[u8]]) -> Result<bool, RunError>
    ensures { IfOk result (λ success. (events : List (List EventView))
        × AllZip LineSays (map (λ line. line.now) lines.now) events
        × (IsTrue success ↔ Succeeds (whole_end (run_settings 60000000 []) (flat_map (λ line. line) events ∷ [])))
        × (IsTrue success → IsInOrder (run_settings 60000000 []) (flat_map (λ line. line) events ∷ []))) }
{
    success_is_in_order();
    let end = end_of_lines(alloc, lines)?;
    Ok(end.outcome == RunOutcome::Success)
}
