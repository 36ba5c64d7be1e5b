//! Lines without JSON: headings, failures of cargo and prints.

ghost use Rattle.std.specs.Prelude.{◌≡◌, ℕ, List, IfOk, Some, option_map};
ghost use Rattle.test_report_events.specs.Content as kept;
ghost use Rattle.test_report_events.specs.Event.{Prints};
ghost use Rattle.test_report_events.specs.Line as spec;
ghost use Rattle.test_report_events.specs.Plain.{IsPlain, line_text};
ghost use Rattle.test_report_events.specs.Table.{CargoContents, FindsEnd, IsLastFound};
ghost use Rattle.test_report_events.specs.Time as time;

use crate::cargo::{CargoLine, cargo_failure, cargo_line, heading_of};
use crate::content::Content;
use crate::plain::{line_text, plain_text};
use std::alloc::{AllocError, Global};

/// A heading or a failure at the end of a text, and the text in front of it.
#[derive(Clone, Copy)]
struct CargoEnd<'a> {
    front: &'a str,
    text: &'a str,
    says: CargoLine<'a>,
}

/// Returns the content of a line without JSON, and before it the content of the text in front of a heading or a
/// failure in the same line, if there is such text.
pub(crate) fn text_contents(
    alloc: Global,
    line: &[u8],
) -> Result<(Option<Content>, Content), AllocError>
    ensures { IfOk result (λ contents. (plain : List ℕ) × IsPlain line.now plain
        × spec.TextSays line.now plain (option_map kept.content_event contents.0) (kept.content_event contents.1)) }
{
    let plain = plain_text(alloc, line)?;
    let shown = line_text(alloc, line)?;
    match cargo_contents(alloc, shown.as_str(), plain.as_str())? {
        Some(contents) => Ok(contents),
        None => Ok((None, Content::Print { line: shown, plain })),
    }
}

/// Returns the content of a line that is a heading or a failure or ends with one, as [`text_contents`] does.
fn cargo_contents(
    alloc: Global,
    shown: &str,
    plain: &str,
) -> Result<Option<(Option<Content>, Content)>, AllocError>
    ensures { IfOk result (λ found. CargoContents shown.now plain.now
        (option_map (λ contents. (option_map kept.content_event contents.0, kept.content_event contents.1)) found)) }
{
    let text = without_spaces(plain);
    match cargo_line(text) {
        Some(says) => Ok(Some((None, Content::of_cargo(alloc, says, shown, text)?))),
        None => match cargo_end(plain) {
            Some(end) => Ok(Some(end_contents(alloc, end)?)),
            None => Ok(None),
        },
    }
}

/// Returns the contents of a line that ends with a heading or a failure: the print in front of it, and its event.
fn end_contents(alloc: Global, end: CargoEnd<'_>) -> Result<(Option<Content>, Content), AllocError>
    ensures { IfOk result (λ contents.
        (option_map kept.content_event contents.0 ≡ Some (Prints end.entry.front.now end.entry.front.now))
        × (kept.content_event contents.1 ≡ kept.cargo_event end.entry.text.now end.entry.text.now end.entry.says)) }
{
    let before = Content::print(alloc, end.front, end.front)?;
    let content = Content::of_cargo(alloc, end.says, end.text, end.text)?;
    Ok((Some(before), content))
}

/// Returns a text without the spaces at its start.
fn without_spaces(text: &str) -> &str
    ensures { result.now ≡ time.without_spaces text.now }
{
    text.trim_start_matches(' ')
}

/// Returns the heading or else the failure at the end of a text, or `None` if the text ends with neither.
fn cargo_end(plain: &str) -> Option<CargoEnd<'_>>
    ensures { FindsEnd (spec.EndSays plain.now) plain.now result }
{
    match heading_end(plain) {
        Some(end) => Some(end),
        None => failure_end(plain),
    }
}

/// Returns the heading at the end of a text, or `None` if the text does not end with one. It begins at the last
/// place at which a heading begins, with the spaces that cargo aligns it with.
fn heading_end(plain: &str) -> Option<CargoEnd<'_>>
    ensures { FindsEnd (spec.EndsWithHeading plain.now) plain.now result }
{
    let at = last_heading(plain)?;
    let text = &plain[at..];
    let heading = heading_of(without_spaces(text))?;
    Some(CargoEnd {
        front: &plain[..at],
        text,
        says: CargoLine::Heading(heading),
    })
}

/// Returns the last offset at which a heading begins.
fn last_heading(plain: &str) -> Option<usize>
    ensures { IsLastFound (spec.HeadingBegins plain.now) result }
{
    match (plain.rfind("     Running "), plain.rfind("   Doc-tests ")) {
        (Some(running), Some(doc_tests)) => Some(running.max(doc_tests)),
        (Some(running), None) => Some(running),
        (None, doc_tests) => doc_tests,
    }
}

/// Returns the failure at the end of a text, or `None` if the text does not end with one. It begins at the last
/// `error: `.
fn failure_end(plain: &str) -> Option<CargoEnd<'_>>
    ensures { FindsEnd (spec.EndsWithFailure plain.now) plain.now result }
{
    let at = plain.rfind("error: ")?;
    let text = &plain[at..];
    let failure = cargo_failure(text)?;
    Some(CargoEnd {
        front: &plain[..at],
        text,
        says: CargoLine::Failure(failure),
    })
}
