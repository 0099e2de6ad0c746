//! What no tenants text says of a table.

use crate::fault::ExportFault;
use crate::line::is_expressible;
use crate::prefixes::{ADMIN_AUTHORITY, authorities_of, is_among, prefixes_for, prefixes_of};
use crate::rows::name_of;
use hdl_limits::Octets;
use hdl_rows::Rows;
use std::alloc::Global;

/// How many of the handles that are left out are named.
const NAMED_MAX: usize = 10;

/// How many handles of a table aren't in the text that [`export`](crate::export) writes, though it hosts their prefixes.
#[derive(Drop)]
pub struct LeftOut {
    /// How many handles have no value.
    pub empty: u64,
    /// Those with a value, whose name has a space or a line feed.
    pub inexpressible: u64,
    /// The first of all these, ten at most.
    pub named: Vec<Octets>,
}

/// Counts a handle, if it is left out, and keeps its name, if it is one of the first.
fn count_handle<R: Rows>(
    alloc: Global,
    rows: &mut R,
    prefixes: &[&str],
    handle: &[u8],
    left: &mut LeftOut,
) -> Result<(), ExportFault> {
    let name = name_of(alloc, handle)?;
    if !is_among(name.prefix(), prefixes) {
        return Ok(());
    }
    if rows.values(&name)?.is_empty() {
        left.empty = left.empty.saturating_add(1);
    } else if !is_expressible(handle) {
        left.inexpressible = left.inexpressible.saturating_add(1);
    } else {
        return Ok(());
    }
    if left.named.len() == NAMED_MAX {
        return Ok(());
    }
    let named = Octets::new(Vec::from_slice(alloc, handle)?);
    match left.named.push(named) {
        Ok(()) => Ok(()),
        Err(_) => Err(ExportFault::Memory),
    }
}

fn count_handles<R: Rows>(
    alloc: Global,
    rows: &mut R,
    prefixes: &[&str],
    handles: &[Octets],
    left: &mut LeftOut,
) -> Result<(), ExportFault> {
    for handle in handles {
        count_handle(alloc, rows, prefixes, handle.as_slice(), left)?;
    }
    Ok(())
}

/// How many handles with these prefixes are left out.
fn left_under<R: Rows>(
    alloc: Global,
    prefixes: &[&str],
    rows: &mut R,
) -> Result<LeftOut, ExportFault> {
    let authorities = authorities_of(alloc, prefixes)?;
    let mut left = LeftOut {
        empty: 0,
        inexpressible: 0,
        named: Vec::new(alloc),
    };
    for authority in &authorities {
        let handles = rows.names(authority.as_bytes())?;
        count_handles(alloc, rows, prefixes, handles.as_slice(), &mut left)?;
    }
    Ok(left)
}

/// How many handles with the prefixes that the text hosts are left out of what is written.
pub fn left_out<R: Rows>(alloc: Global, text: &str, rows: &mut R) -> Result<LeftOut, ExportFault> {
    let prefixes = prefixes_of(alloc, text)?;
    left_under(alloc, prefixes.as_slice(), rows)
}

/// How many handles with the prefixes that the text gives to the publisher of this name are left out of what
/// [`export_publisher`](crate::export_publisher) writes.
pub fn left_out_of<R: Rows>(
    alloc: Global,
    text: &str,
    publisher: &str,
    rows: &mut R,
) -> Result<LeftOut, ExportFault> {
    let prefixes = prefixes_for(alloc, text, publisher)?;
    left_under(alloc, prefixes.as_slice(), rows)
}

/// A prefix that a text lacks, and how many handles of a table have it.
#[derive(Drop)]
pub struct LeftPrefix {
    pub prefix: String,
    pub handles: u64,
}

/// Adds a prefix, unless it is one of these.
fn push_prefix<R: Rows>(
    alloc: Global,
    rows: &mut R,
    prefixes: &[&str],
    prefix: &[u8],
    left: &mut Vec<LeftPrefix>,
) -> Result<(), ExportFault> {
    if is_among(prefix, prefixes) {
        return Ok(());
    }
    let Ok(text) = str::from_utf8(prefix) else {
        return Err(ExportFault::Row);
    };
    let others = rows.names(prefix)?.len() as u64;
    let one = LeftPrefix {
        prefix: String::from_str(alloc, text)?,
        handles: others.saturating_add(1),
    };
    match left.push(one) {
        Ok(()) => Ok(()),
        Err(_) => Err(ExportFault::Memory),
    }
}

/// The prefixes that the text lacks, of those whose administrative handle the table has.
pub fn left_prefixes<R: Rows>(
    alloc: Global,
    text: &str,
    rows: &mut R,
) -> Result<Vec<LeftPrefix>, ExportFault> {
    let prefixes = prefixes_of(alloc, text)?;
    let administrative = rows.names(ADMIN_AUTHORITY.as_bytes())?;
    let mut left = Vec::new(alloc);
    for handle in &administrative {
        let name = name_of(alloc, handle.as_slice())?;
        push_prefix(alloc, rows, prefixes.as_slice(), name.prefix(), &mut left)?;
    }
    Ok(left)
}
