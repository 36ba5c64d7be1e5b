//! The threads that standard error names.

ghost use Rattle.std.specs.List.{starts_with};
ghost use Rattle.std.specs.Prelude.{◌≡◌, IfOk, OnOk, nat_eq, option_map};
ghost use Rattle.test_report_programs.specs.Names as spec;
ghost use Rattle.test_report_run.specs.Over.{names_of};

use std::alloc::{AllocError, Global};
use std::collections::BTreeSet;

/// Returns the names of the threads in the lines `thread 'NAME' (N)WORDS..` of a text, which may lack ` (N)`.
pub(crate) fn threads_of(
    alloc: Global,
    words: &str,
    text: &str,
) -> Result<BTreeSet<String>, AllocError>
    ensures { IfOk result (λ names. names_of names ≡ spec.threads_of words.now text.now) }
{
    let mut names = BTreeSet::new(alloc);
    for line in text.lines() {
        add_thread(alloc, &mut names, words, line)?;
    }
    Ok(names)
}

/// Adds the name of the thread in a line, if it is such a line.
fn add_thread(
    alloc: Global,
    names: &mut BTreeSet<String>,
    words: &str,
    line: &str,
) -> Result<(), AllocError>
    ensures { OnOk result (names_of names.new ≡ spec.with_thread words.now (names_of names.old) line.now) }
{
    let Some(name) = thread_of(words, line) else {
        return Ok(());
    };
    let name = String::from_str(alloc, name)?;
    names.insert(name)?;
    Ok(())
}

/// Returns the name of the thread in a line, if it is such a line.
fn thread_of<'a>(words: &str, line: &'a str) -> Option<&'a str>
    ensures { option_map (λ name. name.now) result ≡ spec.thread_of words.now line.now }
{
    match line.strip_prefix("thread '") {
        Some(text) => quoted(words, text),
        None => None,
    }
}

/// Returns the text before the first quote, if these words follow the quote, perhaps after the number of a thread.
fn quoted<'a>(words: &str, text: &'a str) -> Option<&'a str>
    ensures { option_map (λ name. name.now) result ≡ spec.quoted words.now text.now }
{
    match text.split_once('\'') {
        Some((name, after)) => {
            if follows(words, after) {
                Some(name)
            } else {
                None
            }
        }
        None => None,
    }
}

/// Returns true if these words follow the name of a thread and perhaps its number.
fn follows(words: &str, text: &str) -> bool
    ensures { result ≡ starts_with nat_eq (spec.without_number text.now) words.now }
{
    without_number(text).starts_with(words)
}

/// Returns the text after the name of a thread, without the number of the thread.
fn without_number(text: &str) -> &str
    ensures { result.now ≡ spec.without_number text.now }
{
    if !text.starts_with(" (") {
        return text;
    }
    match text.split_once(')') {
        Some((_, after)) => after,
        None => "",
    }
}
