//! How a command ends.

ghost use Rattle.std.specs.Prelude.{◌≡◌, ◌⊎◌, ◌<◌};
ghost use Rattle.hdl_commands.specs.Exits.{exit_number};
ghost use Rattle.hdl_commands.specs.declared.exit_status.ExitStatus.TheVariants as exits;

use std::process::ExitCode;

/// How a command of `hdl` ends (docs/HDL.md).
#[derive(Clone, Copy, Debug, PartialEq, Eq)]
pub enum ExitStatus {
    /// Each request was answered that it is done.
    Success = 0,
    /// A request was refused, or a handle failed.
    Failure = 1,
    /// The command line, a value or a batch is faulty: nothing was sent.
    Arguments = 2,
    /// No connection, or no answer that can be read: a change may have been made.
    NoAnswer = 3,
}

impl ExitStatus {
    /// Its number, by which the program that started this one knows it.
    pub fn number(self) -> u8
        ensures number { result ≡ exit_number self }
    {
        self as u8
    }

    /// The status if so many requests failed.
    pub(crate) fn of_failures(failures: usize) -> ExitStatus
        ensures { ((failures ≡ 0) × (result ≡ exits.Success)) ⊎ ((0 < failures) × (result ≡ exits.Failure)) }
    {
        if failures == 0 {
            ExitStatus::Success
        } else {
            ExitStatus::Failure
        }
    }
}

impl From<ExitStatus> for ExitCode {
    fn from(status: ExitStatus) -> ExitCode {
        ExitCode::from(status.number())
    }
}
