//! Lines without escapes.

ghost use Rattle.std.specs.Prelude.{◌≡◌, ◌≢◌, ◌==◌, ◌<◌, ◌≤◌, ◌++◌, ◌∷◌, ℕ, List, IfOk, MatchOption, length, not, slice_index, take, true};
ghost use Rattle.std.specs.List.{AllPass, after_last, position};
ghost use Rattle.std.specs.String.{string_bytes};
ghost use Rattle.bstr.specs.Text.{no_cr};
ghost use Rattle.test_report_events.specs.Plain as plain;
ghost use Rattle.test_report_events.specs.Time as time;

use bstr::ByteSlice;
use std::alloc::{AllocError, Global};

/// Returns a line without the carriage return at its end.
fn without_return(line: &[u8]) -> &[u8]
    ensures { result.now ≡ no_cr line.now }
{
    if !line.is_empty() && line[line.len() - 1] == b'\r' {
        &line[..line.len() - 1]
    } else {
        line
    }
}

/// Returns the text of a line, without the carriage return at its end. Bytes that are not UTF-8 become
/// U+FFFD.
pub(crate) fn line_text(alloc: Global, line: &[u8]) -> Result<String, AllocError>
    ensures { IfOk result (λ text. string_bytes text ≡ plain.line_text line.now) }
{
    String::from_utf8_lossy(alloc, without_return(line))
}

/// Returns the offset of the first byte that is not a space.
fn spaces_end(text: &[u8]) -> Option<usize>
    ensures { result ≡ position (λ b. not (b == 32)) text.now }
{
    text.iter().position(|byte| *byte != b' ')
}

/// Returns a text without the spaces at its start.
pub(crate) fn without_spaces(text: &[u8]) -> &[u8]
    ensures { result.now ≡ time.without_spaces text.now }
{
    match spaces_end(text) {
        Some(front) => &text[front..],
        None => &text[text.len()..],
    }
}

/// Returns true for a byte of an escape's parameters.
fn is_parameter(byte: u8) -> bool
    ensures { result ≡ plain.is_parameter byte }
{
    (b'0'..=b'?').contains(&byte)
}

/// Returns true for the last byte of an escape.
fn is_final(byte: u8) -> bool
    ensures { result ≡ plain.is_final byte }
{
    (b'@'..=b'~').contains(&byte)
}

/// Returns the offset of the first byte that is not part of an escape's parameters.
fn parameters_end(text: &[u8]) -> Option<usize>
    ensures { result ≡ position (λ b. not (plain.is_parameter b)) text.now }
{
    text.iter().position(|byte| !is_parameter(*byte))
}

/// Returns the length of the parameters at the start of a text. Returns `None` if the last byte of an escape
/// does not follow them.
fn parameters_size(text: &[u8]) -> Option<usize>
    ensures { MatchOption result
        ((parameters rest : List ℕ) (last : ℕ) → AllPass plain.is_parameter parameters → plain.is_final last ≡ true
        → text.now ≢ parameters ++ last ∷ rest)
        (λ size. AllPass plain.is_parameter (take size text.now) × (size < length text.now)
        × (plain.is_final (slice_index text.now size) ≡ true)) }
{
    match parameters_end(text) {
        Some(end) => { if is_final(text[end]) { Some(end) } else { None } }
        None => None,
    }
}

/// Returns the length of the escape at the start of a text: `ESC [`, then parameters, then a last byte. Returns
/// `None` if the text does not start with an escape.
fn escape_size(text: &[u8]) -> Option<usize>
    ensures { MatchOption result
        ((escape rest : List ℕ) → plain.IsEscape escape → text.now ≢ escape ++ rest)
        (λ size. plain.IsEscape (take size text.now) × (0 < size) × (size ≤ length text.now)) }
{
    match text {
        [0x1b, b'[', parameters @ ..] => match parameters_size(parameters) {
            Some(size) => Some(size + 3),
            None => None,
        },
        _ => None,
    }
}

/// Returns a line without escapes.
fn without_escapes(alloc: Global, line: &[u8]) -> Result<Vec<u8>, AllocError>
    ensures { IfOk result (λ kept. plain.IsWithoutEscapes line.now kept.items) }
{
    let mut kept = Vec::new(alloc);
    let mut at = 0;
    while at < line.len() {
        match escape_size(&line[at..]) {
            Some(size) => at += size,
            None => {
                kept.push(line[at])?;
                at += 1;
            }
        }
    }
    Ok(kept)
}

/// Returns the text after the last carriage return. A terminal writes it over the text before.
fn after_return(text: &[u8]) -> &[u8]
    ensures { result.now ≡ after_last (λ b. b == 13) text.now }
{
    match text.rfind_byte(b'\r') {
        Some(at) => &text[at + 1..],
        None => text,
    }
}

/// Returns the text of a line as a terminal shows it: without the carriage return at its end, without escapes,
/// and without the text that a carriage return writes over. Bytes that are not UTF-8 become U+FFFD. Lines of
/// cargo are recognized in this form.
pub(crate) fn plain_text(alloc: Global, line: &[u8]) -> Result<String, AllocError>
    ensures { IfOk result (λ text. plain.IsPlain line.now (string_bytes text)) }
{
    let kept = without_escapes(alloc, without_return(line))?;
    String::from_utf8_lossy(alloc, after_return(kept.as_slice()))
}
