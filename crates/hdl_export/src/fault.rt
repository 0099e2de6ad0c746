//! Why a table isn't written as a tenants text.

use hdl_rows::Refused;
use hdl_tenants::TenantFault;
use std::alloc::AllocError;
use thiserror::Error;

/// Why a table isn't written as a tenants text.
#[derive(Clone, Copy, Debug, PartialEq, Eq, Error)]
pub enum ExportFault {
    #[error("no memory")]
    Memory,
    /// The table refused a look.
    #[error("store refused")]
    Store,
    /// A handle of the table is no name, or a length of a value doesn't fit its field: no write of the service makes these.
    #[error("unsound row")]
    Row,
    /// A value on which a publisher's answers rest stands at a handle that no line can name.
    #[error("no text says this publisher: its values refer to a list or key whose handle has a space or line feed in its name")]
    Inexpressible,
    /// The text that was given has this first faulty line, counted from 1.
    #[error("tenants: line {line}: {fault}")]
    Given { line: usize, fault: TenantFault },
    /// The text that was written has this first faulty line: the table has a value there that no text says.
    #[error("no text says this table: line {line}: {fault}")]
    Written { line: usize, fault: TenantFault },
}

impl From<AllocError> for ExportFault {
    fn from(_: AllocError) -> ExportFault {
        ExportFault::Memory
    }
}

impl From<Refused> for ExportFault {
    fn from(_: Refused) -> ExportFault {
        ExportFault::Store
    }
}
