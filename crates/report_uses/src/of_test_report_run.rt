//! The caller that the page on calling `test_report_run` shows.

ghost use Rattle.std.specs.Prelude.{◌≡◌, [], IfOk, List, flat_map, map};
ghost use Rattle.std.specs.List.{AllZip};
ghost use Rattle.test_report_events.specs.Event.{EventView};
ghost use Rattle.test_report_events.specs.Line.{LineSays};
ghost use Rattle.test_report_run.specs.FileEnd.{after_file, end_of};
ghost use Rattle.test_report_run.specs.Run.{run_after, run_settings, run_start};

use std::alloc::Global;
use test_report_events::line::Line;
use test_report_run::error::RunError;
use test_report_run::run::TestRun;
use test_report_run_notes::note::RunEnd;

/// Returns the sums and the outcome of a run that is one file with these lines.
pub fn end_of_lines(alloc: Global, lines: &[&[u8]]) -> Result<RunEnd, RunError>
    ensures { IfOk result (λ end. (events : List (List EventView))
        × AllZip LineSays (map (λ line. line.now) lines.now) events
        × (end ≡ end_of (after_file (run_after (run_start (run_settings 60000000 [])) (flat_map (λ line. line) events))))) }
{
    let mut run = TestRun::new(alloc, 60_000_000);
    for bytes in lines {
        let line = Line::read(alloc, bytes)?;
        run.on_line(alloc, &line)?;
    }
    let finished = run.finish(alloc, None, false)?;
    Ok(finished.end)
}
