//! Values, and what their data grants.

ghost use Rattle.hdl_value.specs.Spelling.{CanBeSpelt};

use crate::octets::{put_hex, put_reference, put_text, unread};
use hdl_value::{
    AdminMask, AdminPermission, CutValue, Value, Wire, admin_of, put_value, read_value, u16_at,
    vlist_of, write_value,
};
use std::io;

/// Prints the parts of a value.
fn put_parts(rt: &HostRuntime, value: &Value) -> io::Result<()> {
    println!(rt; "  index {}", value.index)?;
    put_text(rt, "type", value.kind.as_slice())?;
    put_hex(rt, "data", value.bytes.as_slice())?;
    put_hex(rt, "ttl", &value.ttl)?;
    println!(rt; "  permissions {:02x}", value.permissions)?;
    println!(rt; "  class {:?}", value.class())?;
    println!(rt; "  timestamp {}", value.timestamp)?;
    for reference in value.references.as_slice() {
        put_reference(rt, reference.handle.as_slice(), reference.index)?;
    }
    Ok(())
}

/// Prints the octets of a value, and how many stand behind two that were there.
fn put_written(rt: &HostRuntime, value: &Value) -> io::Result<()>
    requires { CanBeSpelt value.now }
{
    put_hex(rt, "written", &write_value(rt.alloc(), value)?)?;
    let mut behind = vec![in rt.alloc(); 1, 2]?;
    put_value(&mut behind, value)?;
    println!(rt; "  behind two octets {}", behind.len())
}

/// Prints the parts of a value's copy.
fn put_copy(rt: &HostRuntime, value: &Value) -> io::Result<()> {
    put_parts(rt, &value.copy(rt.alloc())?)
}

/// Prints what a value grants as an administrator.
fn put_administrator(rt: &HostRuntime, value: &Value) -> io::Result<()> {
    match admin_of(rt.alloc(), value)? {
        None => println!(rt; "  no administrator"),
        Some((mask, reference)) => {
            println!(rt; "  administrator of mask {:04x}", mask.0)?;
            put_reference(rt, reference.name.canon(), reference.index)
        }
    }
}

/// Prints what a value lists.
fn put_listed(rt: &HostRuntime, value: &Value) -> io::Result<()> {
    let Some(listed) = vlist_of(rt.alloc(), value)? else {
        return println!(rt; "  no list");
    };
    println!(rt; "  list of {}", listed.len())?;
    for reference in listed.iter() {
        put_reference(rt, reference.name.sent(), reference.index)?;
    }
    Ok(())
}

/// Prints what the value is at the front of the octets, and how many octets it has.
pub fn put_whole(rt: &HostRuntime, octets: &[u8]) -> io::Result<()> {
    match read_value(rt.alloc(), octets) {
        Err(fault) => println!(rt; "  {fault}"),
        Ok((value, count)) => {
            println!(rt; "  {count} octets")?;
            put_copy(rt, &value)?;
            put_written(rt, &value)?;
            put_administrator(rt, &value)?;
            put_listed(rt, &value)
        }
    }
}

/// Prints how many octets the value has at the front of the octets, or the fault.
pub fn put_whether_value(rt: &HostRuntime, octets: &[u8]) -> io::Result<()> {
    match read_value(rt.alloc(), octets) {
        Err(fault) => println!(rt; "  {fault}"),
        Ok((_, count)) => println!(rt; "  {count} octets"),
    }
}

/// Prints a value in the layout of the Handle.Net software.
fn put_in_handle_net(rt: &HostRuntime, value: &Value) -> io::Result<()>
    requires { CanBeSpelt value.now }
{
    let mut written = Vec::new(rt.alloc());
    Wire::HandleNet.put(&mut written, value)?;
    put_hex(rt, "written", &written)
}

/// Prints the value at the front of the octets in the layout of the Handle.Net software.
pub fn put_handle_net(rt: &HostRuntime, octets: &[u8]) -> io::Result<()> {
    match read_value(rt.alloc(), octets) {
        Err(fault) => println!(rt; "  {fault}"),
        Ok((value, _)) => put_in_handle_net(rt, &value),
    }
}

/// Prints the octets of what was cut, in the profile's layout, behind a word.
pub fn put_spelling(rt: &HostRuntime, word: &str, cut: &CutValue<'_>) -> io::Result<()> {
    let mut spelling = Vec::new(rt.alloc());
    cut.put_spelling(&mut spelling)?;
    put_hex(rt, word, &spelling)
}

/// Prints the data of what was cut, or the fault that it has.
fn put_read(rt: &HostRuntime, cut: &CutValue<'_>) -> io::Result<()> {
    match cut.check() {
        Ok(()) => println!(rt; "  sound")?,
        Err(fault) => println!(rt; "  {fault}")?,
    }
    match cut.read(rt.alloc()) {
        Ok(value) => put_hex(rt, "data", value.bytes.as_slice()),
        Err(_) => Ok(()),
    }
}

/// Prints what is cut at the front of the octets by a layout alone.
pub fn put_cut(rt: &HostRuntime, wire: Wire, octets: &[u8]) -> io::Result<()> {
    let Some((cut, behind)) = wire.cut(octets) else {
        return println!(rt; "  no value by its layout");
    };
    println!(rt; "  index {}", cut.index())?;
    put_text(rt, "type", cut.kind())?;
    put_spelling(rt, "octets", &cut)?;
    println!(rt; "  {} octets behind", behind.len())?;
    put_read(rt, &cut)
}

/// Prints the mask that has the bits of two, and some of what it permits.
pub fn put_masks(rt: &HostRuntime, octets: &[u8]) -> io::Result<()> {
    let Some((first, rest)) = u16_at(octets) else {
        return Err(unread());
    };
    let Some((second, _)) = u16_at(rest) else {
        return Err(unread());
    };
    let mask = AdminMask(first).union(AdminMask(second));
    println!(rt; "  mask {:04x}", mask.0)?;
    println!(rt;
        "  Authorized_Read {}",
        mask.permits(AdminPermission::AuthorizedRead)
    )?;
    println!(rt;
        "  List_Handle {}",
        mask.permits(AdminPermission::ListHandle)
    )
}
