//! How and why a runner ends a unit.

ghost use Rattle.std.specs.Prelude.{◌≡◌, Some};
ghost use Rattle.run_events.specs.TerminateTexts.{terminate_reason_text, terminate_signal_text};

use std::fmt;

/// Why the runner ends a running unit, displayed as `timeout`, `signal` or `interrupt`.
#[derive(Clone, Copy, Debug)]
pub enum UnitTerminateReason {
    /// The unit ran out of time.
    Timeout,

    /// The runner got a signal to end.
    Signal,

    /// The user interrupted the run.
    Interrupt,
}

impl fmt::Display for UnitTerminateReason {
    ghost output = { λ r. Some (terminate_reason_text r) };

    ghost styled_output = { λ r _. Some (terminate_reason_text r) };

    fn fmt<W: fmt::Write>(&self, f: &mut fmt::Formatter<W>) -> fmt::Result {
        match self {
            UnitTerminateReason::Timeout => f.write_str("timeout"),
            UnitTerminateReason::Signal => f.write_str("signal"),
            UnitTerminateReason::Interrupt => f.write_str("interrupt"),
        }
    }
}

/// How the runner ends a unit.
#[derive(Clone, Copy, Debug)]
pub enum UnitTerminateMethod {
    /// By a signal.
    Signal(UnitTerminateSignal),
}

/// The signal by which the runner ends a unit.
#[derive(Clone, Copy, Debug, PartialEq, Eq)]
pub enum UnitTerminateSignal {
    /// An interrupt, for example from the keyboard.
    Interrupt,

    /// A request to end.
    Term,

    /// The terminal was closed.
    Hangup,

    /// A request to quit, for example from the keyboard.
    Quit,

    /// A signal that ends a process at once.
    Kill,
}

/// Writes the signal's name, for example `SIGTERM`.
impl fmt::Display for UnitTerminateSignal {
    ghost output = { λ s. Some (terminate_signal_text s) };

    ghost styled_output = { λ s _. Some (terminate_signal_text s) };

    fn fmt<W: fmt::Write>(&self, f: &mut fmt::Formatter<W>) -> fmt::Result {
        f.write_str(self.name())
    }
}

impl UnitTerminateSignal {
    /// Returns the signal's name.
    fn name(self) -> &'static str
        ensures { result.now ≡ terminate_signal_text self }
    {
        match self {
            UnitTerminateSignal::Interrupt => "SIGINT",
            UnitTerminateSignal::Term => "SIGTERM",
            UnitTerminateSignal::Hangup => "SIGHUP",
            UnitTerminateSignal::Quit => "SIGQUIT",
            UnitTerminateSignal::Kill => "SIGKILL",
        }
    }
}
