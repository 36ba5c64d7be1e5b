//! The caller that the page on calling `test_report_events` shows.

ghost use Rattle.std.specs.Prelude.{◌++◌, ◌∷◌, IfOk, IsSome, List, Option, ℕ};
ghost use Rattle.test_report_events.specs.Event.{EventView, SuiteStarts};
ghost use Rattle.test_report_events.specs.Line.{LineSays};

use std::alloc::{AllocError, Global};
use test_report_events::event::Event;
use test_report_events::line::Line;

/// Returns the number of tests of the suite that starts with this line, if the line says one.
pub fn test_count_of(alloc: Global, bytes: &[u8]) -> Result<Option<u64>, AllocError>
    ensures says { IfOk result (λ count. IsSome count → (key : Option (List ℕ)) × (before : List EventView) × (after : List EventView)
        × LineSays bytes.now (before ++ SuiteStarts key count ∷ after)) }
{
    let line = Line::read(alloc, bytes)?;
    match line.event() {
        Event::SuiteStarted { test_count, .. } => Ok(test_count),
        _ => Ok(None),
    }
}
