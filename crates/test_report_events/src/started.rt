//! Recognizes, without the JSON parser, most lines that start tests. Such lines are about half of the lines of a run.

ghost use Rattle.std.specs.Prelude.{◌≡◌, ◌↔◌, ◌++◌, IfSome, IsTrue};
ghost use Rattle.std.specs.List.{AllPass};
ghost use Rattle.test_report_events.specs.Event.{TestStarts};
ghost use Rattle.test_report_events.specs.Line.{HoldsEvent};
ghost use Rattle.test_report_events.specs.Started as spec;

/// Returns the name of the test that a line starts, if the line is spelt as Rust's harness or nextest spell
/// it, and the name has no escapes. Any other line has to be parsed.
pub(crate) fn started_test(line: &[u8]) -> Option<&str>
    ensures { IfSome result (λ name. HoldsEvent line.now 0 (TestStarts name.now)) }
{
    let name = quoted_name(line)?;
    if !are_plain(name) {
        return None;
    }
    match str::from_utf8(name) {
        Ok(name) => Some(name),
        Err(_) => None,
    }
}

/// Returns the bytes between the quotes of the name in such a line. They are the name if they have no escapes.
fn quoted_name(line: &[u8]) -> Option<&[u8]>
    ensures { IfSome result (λ name. spec.IsStartOf line.now name.now) }
{
    const HARNESS: &[u8] = b"{ \"type\": \"test\", \"event\": \"started\", \"name\": \"";
    const NEXTEST: &[u8] = b"{\"type\":\"test\",\"event\":\"started\",\"name\":\"";
    match between(line, HARNESS, b"\" }") {
        Some(name) => Some(name),
        None => between(line, NEXTEST, b"\"}"),
    }
}

/// Returns the bytes between the start and the end of a line, if it has both.
fn between<'a>(line: &'a [u8], start: &[u8], end: &[u8]) -> Option<&'a [u8]>
    ensures { IfSome result (λ bytes. line.now ≡ start.now ++ (bytes.now ++ end.now)) }
{
    line.strip_prefix(start)?.strip_suffix(end)
}

/// Returns true if no byte is a quote, a backslash or below 0x20, so that a JSON string has them as they are.
fn are_plain(bytes: &[u8]) -> bool
    ensures { IsTrue result ↔ AllPass spec.is_plain bytes.now }
{
    bytes.iter().all(|byte| is_plain(*byte))
}

/// Returns true unless the byte is a quote, a backslash or below 0x20.
fn is_plain(byte: u8) -> bool
    ensures { result ≡ spec.is_plain byte }
{
    byte >= b' ' && byte != b'"' && byte != b'\\'
}
