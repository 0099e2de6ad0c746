//! Values of handles.

ghost use Rattle.std.specs.Prelude.{◌≡◌, IfOk};

use crate::kinds::{HS_ADMIN, HS_SECKEY, HS_VLIST};
use crate::permission::{Class, Permission};
use crate::references::{RawRef, RawRefs};
use hdl_limits::Octets;
use std::alloc::{AllocError, Global};

/// A value of a handle (RFC 3651, section 3.1; its layout is our profile). The fields in order, numbers in network order:
///
/// ```text
/// index        4 octets
/// type         4 octets of length, and that many
/// data         4 octets of length, and that many
/// TTL          1 octet of kind and 4 of time, kept and never read
/// permission   1 octet, see `Permission`
/// timestamp    8 octets, milliseconds since 1970-01-01 00:00 UTC
/// references   4 octets of count, and that many of a handle (a string) and 4 octets of index
/// ```
#[derive(Drop)]
pub struct Value {
    pub index: u32,
    pub kind: Octets,
    pub bytes: Octets,
    pub ttl: [u8; 5],
    pub permissions: u8,
    pub timestamp: u64,
    pub references: RawRefs,
}

impl Value {
    ghost use Rattle.hdl_value.specs.Permission.{permits, class_of};
    ghost use Rattle.hdl_value.specs.Refs.{is_admin, is_list, is_secret_key};

    /// Whether the permission octet has this bit.
    pub fn permits(&self, permission: Permission) -> bool
        ensures { result ≡ permits self.now permission }
    {
        self.permissions & permission.bit() != 0
    }

    /// Who may read the value: anybody, administrators only, or nobody.
    pub fn class(&self) -> Class
        ensures { result ≡ class_of self.now }
    {
        if self.permits(Permission::PublicRead) {
            Class::Public
        } else if self.permits(Permission::AdminRead) {
            Class::Kept
        } else {
            Class::Hidden
        }
    }

    /// Whether its type is HS_ADMIN.
    pub fn is_admin(&self) -> bool
        ensures { result ≡ is_admin self.now }
    {
        self.kind.as_slice() == HS_ADMIN
    }

    /// Whether its type is HS_VLIST.
    pub fn is_list(&self) -> bool
        ensures { result ≡ is_list self.now }
    {
        self.kind.as_slice() == HS_VLIST
    }

    /// Whether its type is HS_SECKEY.
    pub fn is_secret_key(&self) -> bool
        ensures { result ≡ is_secret_key self.now }
    {
        self.kind.as_slice() == HS_SECKEY
    }

    /// A copy of the value.
    pub fn copy(&self, alloc: Global) -> Result<Value, AllocError>
        ensures { IfOk result (λ v. v ≡ self.now) }
    {
        let kind = Octets::new(Vec::from_slice(alloc, self.kind.as_slice())?);
        let bytes = Octets::new(Vec::from_slice(alloc, self.bytes.as_slice())?);
        let refs = RawRefs::new(copies(alloc, self.references.as_slice())?);
        Ok(Value {
            index: self.index,
            kind,
            bytes,
            ttl: self.ttl,
            permissions: self.permissions,
            timestamp: self.timestamp,
            references: refs,
        })
    }
}

fn copies(alloc: Global, refs: &[RawRef]) -> Result<Vec<RawRef>, AllocError>
    ensures { IfOk result (λ v. v.items ≡ refs.now) }
{
    let mut all = Vec::new(alloc);
    for r in refs {
        let handle = Octets::new(Vec::from_slice(alloc, r.handle.as_slice())?);
        all.push(RawRef {
            handle,
            index: r.index,
        })?;
    }
    Ok(all)
}
