//! Writing an entry.

ghost use Rattle.std.specs.Prelude.{◌≡◌, ◌++◌, ◌<◌, ◌^◌, length, IfOk, OnOk};
ghost use Rattle.std.specs.Int.{w64, to_be_bytes};
ghost use Rattle.hdl_journal_entries.specs.Entries.{messages, dated_octets, entry_octets, IsWritable, AreWritable};

use crate::entry::{DatedMessage, Entry};
use byteorder::{BigEndian, ByteOrder};
use hdl_value::{put_string, put_u32};
use std::alloc::{AllocError, Global};

pub(crate) fn put_number(out: &mut Vec<u8>, number: u64) -> Result<(), AllocError>
    ensures { OnOk result (out.new.items ≡ out.old.items ++ to_be_bytes w64 number) }
{
    let mut octets = [0; 8];
    BigEndian::write_u64(&mut octets, number);
    out.extend_from_slice(&octets)
}

fn put_message(out: &mut Vec<u8>, one: &DatedMessage) -> Result<(), AllocError>
    requires { length one.now.message < 2 ^ 32 }
    ensures { OnOk result (out.new.items ≡ out.old.items ++ dated_octets one.now) }
{
    put_number(out, one.moment)?;
    put_string(out, one.message.as_slice())
}

fn put_messages(out: &mut Vec<u8>, all: &[DatedMessage]) -> Result<(), AllocError>
    requires { AreWritable all.now }
    ensures { OnOk result (out.new.items ≡ out.old.items ++ messages all.now) }
{
    put_u32(out, all.len() as u32)?;
    for one in all {
        put_message(out, one)?;
    }
    Ok(())
}

/// The octets of an entry.
#[tactic(auto, unfolding(crate::specs::Entries::entry_octets))]
pub fn write_entry(alloc: Global, entry: &Entry) -> Result<Vec<u8>, AllocError>
    requires { IsWritable entry.now }
    ensures { IfOk result (λ out. out.items ≡ entry_octets entry.now) }
{
    let mut out = Vec::new(alloc);
    put_number(&mut out, entry.number)?;
    out.extend_from_slice(&entry.nonce)?;
    out.extend_from_slice(&entry.before)?;
    put_messages(&mut out, entry.changes.as_slice())?;
    Ok(out)
}
