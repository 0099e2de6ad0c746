//! Lines of a text by a key.

use std::alloc::{AllocError, Global};
use std::collections::BTreeMap;

/// Lines by a key, each key's in their order.
#[derive(Drop)]
pub(crate) struct LinesByKey<'a> {
    alloc: Global,
    lines: BTreeMap<Vec<u8>, Vec<&'a str>>,
}

impl<'a> LinesByKey<'a> {
    pub(crate) fn new(alloc: Global) -> LinesByKey<'a> {
        LinesByKey {
            alloc,
            lines: BTreeMap::new(alloc),
        }
    }

    pub(crate) fn add(&mut self, key: &[u8], line: &'a str) -> Result<(), AllocError> {
        if let Some(lines) = self.lines.get_mut(key) {
            lines.push(line)?;
            return Ok(());
        }
        let mut lines = Vec::new(self.alloc);
        lines.push(line)?;
        let key = Vec::from_slice(self.alloc, key)?;
        self.lines.insert(key, lines)?;
        Ok(())
    }

    pub(crate) fn has(&self, key: &[u8]) -> bool {
        self.lines.contains_key(key)
    }

    pub(crate) fn count(&self, key: &[u8]) -> usize {
        match self.lines.get(key) {
            Some(lines) => lines.len(),
            None => 0,
        }
    }

    /// Appends the lines of a key to a text.
    pub(crate) fn push_to(&self, text: &mut String, key: &[u8]) -> Result<(), AllocError> {
        if let Some(lines) = self.lines.get(key) {
            for line in lines {
                text.push_str(line)?;
                text.push('\n')?;
            }
        }
        Ok(())
    }
}
