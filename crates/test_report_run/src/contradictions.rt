//! Adds contradictions to notes.

ghost use Rattle.std.specs.Prelude.{◌≡◌, ◌++◌, ◌∷◌, [], OnOk, map};
ghost use Rattle.test_report_run_notes.specs.Note.{Contradicts, contradiction_view, note_view};

use std::alloc::AllocError;
use test_report_run_notes::note::{Contradiction, Note};

/// Adds a contradiction to the notes, and does not count it.
pub(crate) fn push_contradiction(
    contradiction: Contradiction,
    notes: &mut Vec<Note>,
) -> Result<(), AllocError>
    ensures { OnOk result (map note_view notes.new.items ≡ map note_view notes.old.items
        ++ Contradicts (contradiction_view contradiction) ∷ []) }
{
    notes.push(Note::Contradiction(contradiction))?;
    Ok(())
}
