//! A short caller for the first page of a library that no other file has.

ghost use Rattle.std.specs.Prelude.{◌≡◌, if◌then◌else◌, codes};
ghost use Rattle.run_events.specs.Results.{status_succeeds, status_word};

use run_events::results::ExecutionResult;

/// Returns the word for the result of an attempt, which is `ok` for every success.
pub fn word_of_end(end: ExecutionResult) -> &'static str
    ensures { result.now ≡ (if status_succeeds end then codes "ok" else status_word end) }
{
    if end.is_success() {
        "ok"
    } else {
        end.as_static_str()
    }
}
