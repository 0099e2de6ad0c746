//! Why a run over a table ends with a fault line.

use crate::copying::CopyFault;
use crate::exporting::{WriteFault, status_of};
use crate::reasons::OpenReason;
use crate::restoring::RestoreFault;
use hdl_durablerows::TableFault;
use hdl_export::ExportFault;
use hdl_programs::{ExitStatus, Fault};
use hdl_wal_check::{PairFault, SummaryFault};
use std::fmt;

/// Why a run over a table ends with a fault line.
#[derive(Clone, Copy)]
pub enum TableRunFault {
    Run(Fault),
    Table(TableFault),
    /// The table's file is read, and another process has it open.
    InUse,
    /// The table's file can't be opened, for this reason.
    Unopened(OpenReason),
    /// The table's file and its log don't belong together, or aren't whole.
    Pair(PairFault),
    Export(ExportFault),
    /// What is exported can't be written.
    Write(WriteFault),
    Copy(CopyFault),
    Restore(RestoreFault),
}

/// What to do where a file and its log are refused.
const PAIR_HELP: &str =
    "keep both files, and put the right ones back, or restore a copy (handled restore); or start once with --accept-loss, which goes on with what is whole";

/// What an operator can do besides what a fault of the file says.
fn advice_for(fault: &TableFault) -> &'static str {
    match fault {
        TableFault::InUse => " (a server by `handled stop --control PATH`)",
        TableFault::Device => ", and the room on it",
        _ => "",
    }
}

impl TableRunFault {
    /// How the run ends.
    pub fn status(&self) -> ExitStatus {
        match self {
            TableRunFault::Run(fault) => fault.status(),
            TableRunFault::Table(TableFault::Memory) => Fault::NoMemory.status(),
            TableRunFault::Export(fault) => status_of(fault),
            TableRunFault::Table(_)
            | TableRunFault::InUse
            | TableRunFault::Unopened(_)
            | TableRunFault::Pair(_)
            | TableRunFault::Write(_)
            | TableRunFault::Copy(_)
            | TableRunFault::Restore(_) => ExitStatus::Table,
        }
    }
}

impl fmt::Display for TableRunFault {
    fn fmt<W: fmt::Write>(&self, f: &mut fmt::Formatter<W>) -> fmt::Result {
        match self {
            TableRunFault::Run(fault) => write!(f, "{fault}"),
            TableRunFault::Table(fault) => write!(f, "{fault}{}", advice_for(fault)),
            TableRunFault::InUse => f.write_str(
                "table: in use: another process has the file open; make a copy of it (handled copy) and name that, or end the process first",
            ),
            TableRunFault::Unopened(reason) => write!(f, "table: cannot open: {reason}"),
            TableRunFault::Pair(fault) => write!(f, "table: {fault}: {PAIR_HELP}"),
            TableRunFault::Export(fault) => write!(f, "{fault}"),
            TableRunFault::Write(fault) => write!(f, "{fault}"),
            TableRunFault::Copy(fault) => write!(f, "{fault}"),
            TableRunFault::Restore(fault) => write!(f, "{fault}"),
        }
    }
}

impl From<Fault> for TableRunFault {
    fn from(fault: Fault) -> TableRunFault {
        TableRunFault::Run(fault)
    }
}

impl From<ExportFault> for TableRunFault {
    fn from(fault: ExportFault) -> TableRunFault {
        TableRunFault::Export(fault)
    }
}

impl From<CopyFault> for TableRunFault {
    fn from(fault: CopyFault) -> TableRunFault {
        TableRunFault::Copy(fault)
    }
}

impl From<RestoreFault> for TableRunFault {
    fn from(fault: RestoreFault) -> TableRunFault {
        TableRunFault::Restore(fault)
    }
}

impl From<WriteFault> for TableRunFault {
    fn from(fault: WriteFault) -> TableRunFault {
        TableRunFault::Write(fault)
    }
}

impl From<TableFault> for TableRunFault {
    fn from(fault: TableFault) -> TableRunFault {
        TableRunFault::Table(fault)
    }
}

/// A file or a log can't be looked at.
impl From<SummaryFault> for TableRunFault {
    fn from(fault: SummaryFault) -> TableRunFault {
        match fault {
            SummaryFault::Memory => TableRunFault::Run(Fault::NoMemory),
            SummaryFault::Device(_) => TableRunFault::Table(TableFault::Device),
        }
    }
}
