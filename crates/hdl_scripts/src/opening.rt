//! What opens the services here.

use crate::table::{Table, TableRows, empty_rows};
use hdl_core::{OpenFault, Owing, Service, Tenants};
use std::alloc::Global;

/// Opens services over tables of one type. Only its impls name that type: a proof has all parts of each type that its function names.
pub trait Opening {
    type Rows: Owing + Drop;

    /// The service of these tenants, over a table of its own.
    fn open(&self, tenants: Tenants) -> Result<Service<Self::Rows>, OpenFault>;

    /// The write that is made beside, if one is, may end now.
    fn end_write(&self);
}

/// Opens services over an empty table, whose nth call is refused, none with 0.
#[derive(Clone, Copy)]
pub struct Refusing {
    pub alloc: Global,
    pub table: Table,
    pub nth: u64,
}

impl Opening for Refusing {
    type Rows = TableRows;

    fn open(&self, tenants: Tenants) -> Result<Service<TableRows>, OpenFault> {
        match empty_rows(self.alloc, self.table, self.nth) {
            Some(rows) => Service::open(self.alloc, tenants, rows),
            None => Err(OpenFault::Store),
        }
    }

    fn end_write(&self) {}
}
