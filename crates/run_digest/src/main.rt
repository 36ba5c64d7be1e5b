//! `run-digest`. Both commands read standard input. `count` reads the description of a run, and counts
//! its tests. `extract` reads the output of a test, and finds the part that explains why the test failed.
#![tactic(auto)]

use program_io::std_device::{StdSink, StdSource};
use program_io::transfer::write_all;
use run_digest_engine::command::Command;
use run_digest_engine::count::count;
use run_digest_engine::extract::extract;
use run_digest_engine::fault::Fault;
use std::env;
use std::io::{self, ErrorKind};
use std::process::ExitCode;
use std::rt::Env;

/// What `--help` prints.
const HELP: &str = "\
Counts the tests of a run, or finds why a test failed

Usage: run-digest [COMMAND]

Commands:
  count    Count the tests and setup scripts of a run. The input has a line for each
  extract  Find the part of a test's output that explains its failure

Options:
  -h, --help     Print help
  -V, --version  Print version

Both commands read standard input. Without a command, `count` is run.

This input of `count` describes a run of 2 tests and no setup scripts that was
not cancelled (`-`). Each `test` line has the results of the test's attempts,
separated by commas. ` slow` after them says that the last attempt was slow:
  run 2 0 -
  test fail,pass
  test fail slow

Exit status:
  0  count: the run succeeded; extract: an explanation was found
  1  count: the run did not succeed; extract: none was found
  2  an argument or a line is invalid
  3  reading or writing failed, or there was not enough memory
";

/// What `--version` prints.
const VERSION: &str = "run-digest 0.1.0\n";

/// Returns true for an argument that asks for help.
fn is_help(word: &str) -> bool {
    matches!(word, "-h" | "--help")
}

/// Returns the text that the arguments ask for instead of a command, if they do.
fn text_for(words: &[String]) -> Option<&'static str> {
    match words {
        [word] if is_help(word.as_str()) => Some(HELP),
        [word] if matches!(word.as_str(), "-V" | "--version") => Some(VERSION),
        [command, word]
            if matches!(command.as_str(), "count" | "extract") && is_help(word.as_str()) => {
            Some(HELP)
        }
        _ => None,
    }
}

/// Does what the arguments ask for, from standard input to standard output.
fn run<R: Env + AllocGlobal + Input + Print>(rt: &R) -> Result<bool, Fault> {
    let mut args = env::args(rt).map_err(|error| match error.kind() {
        ErrorKind::InvalidData => Fault::BadWord,
        _ => Fault::OutOfMemory,
    })?;
    let _program = args.next();
    let mut words = Vec::new(rt.alloc());
    for word in args {
        words.push(word)?;
    }
    let mut sink = StdSink::new(io::writer(rt));
    if let Some(text) = text_for(words.as_slice()) {
        write_all(&mut sink, text.as_bytes())?;
        return Ok(true);
    }
    let command = Command::from_words(words.as_slice())?;
    let mut source = StdSource::new(rt.reader());
    match command {
        Command::Extract => extract(rt.alloc(), &mut source, &mut sink),
        Command::Count => count(rt.alloc(), &mut source, &mut sink),
    }
}

fn main(rt: HostRuntime) -> ExitCode {
    match run(&rt) {
        Ok(true) => ExitCode::SUCCESS,
        Ok(false) => ExitCode::from(1),
        Err(fault) => {
            let _ = eprintln!(rt; "{fault}");
            ExitCode::from(fault.status())
        }
    }
}
