//! The tenants text of a program's input.

use crate::fault::Fault;
use hdl_tenants::Tenants;
use std::alloc::Global;

/// The tenants that the text gives, or the first fault of its lines.
pub fn tenants_of(alloc: Global, text: &str) -> Result<Tenants, Fault> {
    match Tenants::read(alloc, text) {
        Ok(tenants) => Ok(tenants),
        Err((line, fault)) => Err(Fault::Tenants(line, fault)),
    }
}
