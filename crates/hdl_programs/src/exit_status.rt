//! How a run of a program ends.

ghost use Rattle.std.specs.Prelude.{◌≡◌, if◌then◌else◌};
ghost use Rattle.hdl_programs.specs.Exits.{exit_number};

use std::process::ExitCode;

/// How a run of `handled` ends (docs/OPERATING.md, "Exit statuses"). `hdl proxy` has the first three.
#[derive(Clone, Copy, Debug, PartialEq, Eq)]
pub enum ExitStatus {
    /// All was done.
    Success = 0,
    /// The machine refused something, or what is read can't be taken.
    Failure = 1,
    /// The command line is faulty.
    Arguments = 2,
    /// The tenants text is faulty, or no server can start with it.
    Tenants = 3,
    /// The table, a copy of it or its text can't be read or written.
    Table = 4,
    /// The text that was exported lacks handles that no text can express.
    LeftOut = 5,
    /// The server has parted from the others of its cluster.
    Diverged = 6,
    /// The table of a cluster can't be had.
    Cluster = 7,
}

impl ExitStatus {
    /// Its number, by which the program that started this one knows it.
    pub fn number(self) -> u8
        ensures number { result ≡ exit_number self }
    {
        self as u8
    }

    /// The status if the command line leaves nothing to do: after help or version, or after a fault.
    pub fn of_usage(is_help: bool) -> ExitStatus
        ensures status { exit_number result ≡ (if is_help then 0 else 2) }
    {
        if is_help {
            ExitStatus::Success
        } else {
            ExitStatus::Arguments
        }
    }
}

impl From<ExitStatus> for ExitCode {
    fn from(status: ExitStatus) -> ExitCode {
        ExitCode::from(status.number())
    }
}

/// The number of the exit status if the command line leaves nothing to do: 0 after help or version, 2 after a fault.
pub fn usage_status(is_help: bool) -> u8
    ensures status { result ≡ (if is_help then 0 else 2) }
{
    ExitStatus::of_usage(is_help).number()
}
