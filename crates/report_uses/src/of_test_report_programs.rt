//! The caller that the page on calling `test_report_programs` shows.

ghost use Rattle.std.specs.Prelude.{◌≡◌, ◌⊎◌, IfOk};

use std::alloc::Global;
use test_report_events::line::Line;
use test_report_programs::run::ProgramRun;
use test_report_run::error::RunError;
use test_report_run::run::TestRun;

/// Returns the exit status of a run that is one file with these lines.
pub fn status_of_lines(alloc: Global, lines: &[&[u8]]) -> Result<u8, RunError>
    ensures { IfOk result (λ status. (status ≡ 0) ⊎ (status ≡ 1)) }
{
    let mut run = ProgramRun::new(TestRun::new(alloc, 60_000_000));
    for bytes in lines {
        let line = Line::read(alloc, bytes)?;
        run.on_line(alloc, &line)?;
    }
    let finished = run.finish(alloc, None, false)?;
    Ok(finished.status)
}
