use crate::assertion::same;
use hdl_limits::{Items, Octets};
use hdl_name::Name;
use hdl_ops::{Change, apply};
use hdl_rows::{Agent, PlainRows, Provenance, Rows};
use hdl_value::{RawRefs, Reference, Value};
use std::alloc::{AllocError, Global};
use std::test::Fail;

/// A public value of type X with index 2 and a timestamp of its own.
fn value(alloc: Global) -> Result<Value, AllocError> {
    Ok(Value {
        index: 2,
        kind: Octets::new(Vec::from_slice(alloc, b"X")?),
        bytes: Octets::new(Vec::from_slice(alloc, b"a")?),
        ttl: [0; 5],
        permissions: 3,
        timestamp: 7,
        references: RawRefs::new(Vec::new(alloc)),
    })
}

/// The provenance of a change that anyone may make, at a moment.
fn anyone(moment: u64) -> Provenance<'static> {
    let agent = Agent::Anyone;
    Provenance { moment, agent }
}

/// A value that is written has the moment of its event.
#[test]
fn create_is_stamped(rt: HostRuntime) -> Result<(), Fail> {
    let mut rows = PlainRows::new(rt.alloc());
    let name = Name::read(rt.alloc(), b"10/b")?;
    assert!(rt; !rows.exists(&name)?);
    let values = Items::new(Vec::from_array(rt.alloc(), [value(rt.alloc())?])?);
    apply(&mut rows, Change::Create { name, values }, &anyone(1000))?;
    let name = Name::read(rt.alloc(), b"10/b")?;
    let found = rows.at(&Reference { name, index: 2 })?;
    same(&rt, "stamp", found.map(|value| value.timestamp), Some(1000));
    Ok(())
}

#[test]
fn delete_takes_the_handle(rt: HostRuntime) -> Result<(), Fail> {
    let mut rows = PlainRows::new(rt.alloc());
    let name = Name::read(rt.alloc(), b"10/b")?;
    assert!(rt; !rows.exists(&name)?);
    rows.create(&name, &[], &Provenance::opening())?;
    assert!(rt; rows.exists(&name)?);
    apply(&mut rows, Change::Delete { name }, &anyone(1000))?;
    let name = Name::read(rt.alloc(), b"10/b")?;
    assert!(rt; !rows.exists(&name)?);
    Ok(())
}
