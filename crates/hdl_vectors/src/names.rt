//! Names.

use crate::octets::{put_hex, put_text};
use hdl_limits::Octets;
use hdl_name::{Name, NameFault, is_name};
use std::io;

/// The faults whose texts are printed; no line brings the last one about.
const FAULTS: [NameFault; 5] = [
    NameFault::TooLong,
    NameFault::NotUtf8,
    NameFault::NoSlash,
    NameFault::BadSegment,
    NameFault::Memory,
];

/// Prints the parts of a name.
fn put_parts(rt: &HostRuntime, name: &Name) -> io::Result<()> {
    put_text(rt, "sent", name.sent())?;
    put_text(rt, "canonical", name.canon())?;
    put_text(rt, "authority", name.authority())?;
    put_text(rt, "local", name.local())?;
    put_text(rt, "prefix", name.prefix())?;
    put_text(rt, "prefix as sent", name.prefix_sent())?;
    println!(rt; "  administrative {}", name.is_admin_handle())
}

/// Prints the parts of the name that the octets are.
pub fn put_name(rt: &HostRuntime, octets: &[u8]) -> io::Result<()> {
    match Name::read(rt.alloc(), octets) {
        Ok(name) => put_parts(rt, &name),
        Err(fault) => println!(rt; "  {fault}"),
    }
}

/// Prints whether the octets are a name, and the fault that they have.
pub fn put_whether_name(rt: &HostRuntime, octets: &[u8]) -> io::Result<()> {
    println!(rt; "  {}", is_name(octets))?;
    match Name::read(rt.alloc(), octets) {
        Ok(name) => println!(rt; "  {} octets", name.into_sent().len()),
        Err(fault) => println!(rt; "  {fault}"),
    }
}

/// Prints the text of each fault of a name.
pub fn put_faults(rt: &HostRuntime) -> io::Result<()> {
    for fault in &FAULTS {
        println!(rt; "  {fault}")?;
    }
    Ok(())
}

/// Prints octets that were kept, before they are given back and after.
pub fn put_kept(rt: &HostRuntime, octets: &[u8]) -> io::Result<()> {
    let kept = Octets::new(Vec::from_slice(rt.alloc(), octets)?);
    put_hex(rt, "kept", kept.as_slice())?;
    put_hex(rt, "given back", &kept.into_vec())
}
