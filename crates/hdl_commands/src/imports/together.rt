//! Whether the rows of each handle stand together.

use std::alloc::{AllocError, Global};
use std::collections::BTreeMap;

/// The handles whose rows were seen, each with the line of its first row, and the handle of the last row.
#[derive(Drop)]
pub(crate) struct HandlesSoFar {
    alloc: Global,
    first_lines: BTreeMap<Vec<u8>, usize>,
    last: Vec<u8>,
}

impl HandlesSoFar {
    /// None so far.
    pub fn new(alloc: Global) -> HandlesSoFar {
        HandlesSoFar {
            alloc,
            first_lines: BTreeMap::new(alloc),
            last: Vec::new(alloc),
        }
    }

    /// Notes the row at this line. Answers the line of its handle's first row, if the row before is another handle's. A row without a handle is none.
    pub fn note(&mut self, line: usize, handle: &[u8]) -> Result<Option<usize>, AllocError> {
        if self.last.as_slice() == handle {
            return Ok(None);
        }
        self.last = Vec::from_slice(self.alloc, handle)?;
        if handle.is_empty() {
            return Ok(None);
        }
        if let Some(first) = self.first_lines.get(handle) {
            return Ok(Some(*first));
        }
        self.first_lines
            .insert(Vec::from_slice(self.alloc, handle)?, line)?;
        Ok(None)
    }
}
