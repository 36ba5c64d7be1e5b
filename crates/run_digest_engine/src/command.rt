//! The commands of `run-digest`.

ghost use Rattle.std.specs.Prelude.{◌≡◌, map, string_bytes};
ghost use Rattle.run_digest_engine.specs.Command.{command_of};

use crate::fault::Fault;

/// A command of `run-digest`.
#[derive(Clone, Copy, Debug, PartialEq, Eq)]
pub enum Command {
    /// Find the part of a test's output that explains its failure.
    Extract,

    /// Count the units of a run.
    Count,
}

impl Command {
    /// Returns the command that the command-line arguments name: [`Command::Extract`] for `extract`,
    /// and [`Command::Count`] for `count` or no argument.
    ///
    /// The error is [`Fault::BadWord`] for any other argument, and for more than one.
    pub fn from_words(words: &[String]) -> Result<Command, Fault>
        ensures { result ≡ command_of (map string_bytes words.now) }
    {
        match words {
            [] => Ok(Command::Count),
            [word] => {
                if word.as_str() == "extract" {
                    Ok(Command::Extract)
                } else if word.as_str() == "count" {
                    Ok(Command::Count)
                } else {
                    Err(Fault::BadWord)
                }
            }
            _ => Err(Fault::BadWord),
        }
    }
}
