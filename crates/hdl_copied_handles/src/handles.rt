//! Handles by their prefixes.

ghost use Rattle.std.specs.Prelude.{◌≡◌, [], IfOk};
ghost use Rattle.hdl_copied_handles.specs.Handles.{handles_of, is_of, listed_in};

use crate::listed::{ListedHandle, copy};
use hdl_limits::Octets;
use std::alloc::{AllocError, Global};

/// The handles of a prefix, by rising octets: their names for programs, and the same with their URLs for lists.
#[derive(Drop)]
pub(crate) struct PrefixHandles {
    pub(crate) prefix: Vec<u8>,
    pub(crate) handles: Vec<Octets>,
    pub(crate) listed: Vec<ListedHandle>,
}

/// The handles of a copy, by their prefixes in canonical form.
#[derive(Drop)]
pub struct CopiedHandles {
    alloc: Global,
    prefixes: Vec<PrefixHandles>,
}

fn is_of(one: &PrefixHandles, prefix: &[u8]) -> bool
    ensures { result ≡ is_of prefix.now one.now }
{
    one.prefix.as_slice() == prefix
}

impl PrefixHandles {
    fn new(alloc: Global, prefix: &[u8]) -> Result<PrefixHandles, AllocError> {
        Ok(PrefixHandles {
            prefix: Vec::from_slice(alloc, prefix)?,
            handles: Vec::new(alloc),
            listed: Vec::new(alloc),
        })
    }

    fn push(&mut self, alloc: Global, handle: ListedHandle) -> Result<(), AllocError> {
        self.handles.push(copy(alloc, handle.name.as_slice())?)?;
        self.listed.push(handle)?;
        Ok(())
    }
}

impl CopiedHandles {
    pub(crate) fn new(alloc: Global) -> CopiedHandles
        ensures { result.prefixes.items ≡ [] }
    {
        CopiedHandles {
            alloc,
            prefixes: Vec::new(alloc),
        }
    }

    /// Adds a handle that comes after all others, by its prefix and then by its own octets.
    pub(crate) fn push(&mut self, prefix: &[u8], handle: ListedHandle) -> Result<(), AllocError> {
        let alloc = self.alloc;
        if let Some(last) = self.prefixes.last_mut() {
            if is_of(last, prefix) {
                return last.push(alloc, handle);
            }
        }
        let mut one = PrefixHandles::new(alloc, prefix)?;
        one.push(alloc, handle)?;
        self.prefixes.push(one)?;
        Ok(())
    }

    /// The handles of this prefix in canonical form, by rising octets; none where there are none.
    pub fn of(&self, prefix: &[u8]) -> &[Octets]
        ensures { result.now ≡ handles_of prefix.now self.now.prefixes.items }
    {
        for one in &self.prefixes {
            if is_of(one, prefix) {
                return &one.handles;
            }
        }
        &[]
    }

    /// The same, each with the URL to which it leads for anybody.
    pub fn listed(&self, prefix: &[u8]) -> &[ListedHandle]
        ensures { result.now ≡ listed_in prefix.now self.now.prefixes.items }
    {
        for one in &self.prefixes {
            if is_of(one, prefix) {
                return &one.listed;
            }
        }
        &[]
    }
}
