//! What opens services over a table in memory with a file beside it, whose writes are made once a line says so.

use crate::lanes::later::LaterFile;
use crate::opening::Opening;
use hdl_core::{OpenFault, Service, Tenants};
use hdl_durablerows::{DurableRows, ShutObserver, rows_from_file};
use hdl_rows::PlainRows;
use hdl_sqlrows::load::Progress;
use sqlite::{Alter, Connection, MemStore};
use std::alloc::{AllocError, Global};
use std::sync::Arc;
use std::sync::atomic::AtomicBool;
use std::sync::atomic::Ordering::SeqCst;

/// Counts how many times it was told that the table is shut.
#[derive(Drop)]
pub struct Rings {
    pub count: u64,
}

impl ShutObserver for Rings {
    ghost shut_notices = { λ s. s.count };

    fn note_shut(&mut self) {
        self.count = self.count.saturating_add(1);
    }
}

impl Progress for Rings {
    fn handles(&mut self, _count: u64) {}

    fn values(&mut self, _count: u64) {}
}

type FiledRows<S> = DurableRows<PlainRows, LaterFile<S>, Rings>;

/// Opens services over such a table, and says whether the write that was begun may be made.
#[derive(Drop)]
pub struct Filed {
    alloc: Global,
    may_be_made: Arc<AtomicBool>,
}

impl Filed {
    /// No write was begun yet.
    pub fn new(alloc: Global) -> Result<Filed, AllocError> {
        Ok(Filed {
            alloc,
            may_be_made: Arc::new(alloc, AtomicBool::new(false))?,
        })
    }
}

/// The table of these tenants, over a database that has none.
fn table_with_file<S: Alter + Drop>(
    alloc: Global,
    conn: Connection<S>,
    tenants: &Tenants,
    may_be_made: Arc<AtomicBool>,
) -> Result<FiledRows<S>, OpenFault> {
    if !conn.is_autocommit() {
        return Err(OpenFault::Store);
    }
    let mut rings = Rings { count: 0 };
    let rows = PlainRows::new(alloc);
    let spare = PlainRows::new(alloc);
    let Ok((rows, file)) = rows_from_file(alloc, conn, rows, spare, tenants.opening(), &mut rings)
    else {
        return Err(OpenFault::Store);
    };
    let file = LaterFile::over(file, may_be_made);
    Ok(DurableRows::over(alloc, rows, file, rings))
}

/// The service over that table.
fn service_over<S: Alter + Drop>(
    alloc: Global,
    conn: Connection<S>,
    tenants: Tenants,
    may_be_made: Arc<AtomicBool>,
) -> Result<Service<FiledRows<S>>, OpenFault> {
    let rows = table_with_file(alloc, conn, &tenants, may_be_made)?;
    Service::resume(alloc, tenants, rows)
}

impl Opening for Filed {
    type Rows = FiledRows<MemStore>;

    fn open(&self, tenants: Tenants) -> Result<Service<FiledRows<MemStore>>, OpenFault> {
        let Ok(may_be_made) = Arc::try_clone(&self.may_be_made) else {
            return Err(OpenFault::Memory);
        };
        match Connection::open_in_memory(self.alloc) {
            Ok(conn) => service_over(self.alloc, conn, tenants, may_be_made),
            Err(_) => Err(OpenFault::Memory),
        }
    }

    fn end_write(&self) {
        self.may_be_made.store(true, SeqCst);
    }
}
