//! The keys of a range that weren't read yet.

ghost use Rattle.std.specs.Prelude.{◌≡◌, ◌↔◌, IfOk, IsTrue, OnOk, OnErr};
ghost use Rattle.hdl_change_list.specs.Unread.{IsEndWithin, behind_page};

use crate::list::with_last;
use hdl_etcd::RangeResponse;
use std::alloc::{AllocError, Global};
use std::cmp::Ordering;

/// The keys of a range that weren't read yet. etcd 3.4 walks all keys of the range that it is asked for, however few it answers. So narrow ranges
/// are asked for.
#[derive(Drop)]
pub(crate) struct UnreadKeys {
    from: Vec<u8>,
    to: Vec<u8>,
    /// How many of the first octets of `from` the keys have that are asked for next.
    shared: usize,
}

/// How many octets these keys begin with that are the same.
fn shared_len(first: &[u8], last: &[u8]) -> usize {
    first
        .iter()
        .zip(last)
        .take_while(|(one, other)| one == other)
        .count()
}

/// The first key behind those that begin with these octets; none if there is none that is as long.
fn behind_all(alloc: Global, shared: &[u8]) -> Result<Vec<u8>, AllocError> {
    match shared.split_last() {
        Some((last, rest)) if *last < u8::MAX => {
            let mut end = Vec::from_slice(alloc, rest)?;
            end.push(*last + 1)?;
            Ok(end)
        }
        _ => Ok(Vec::new(alloc)),
    }
}

impl UnreadKeys {
    /// All keys of a range.
    pub(crate) fn new(from: Vec<u8>, to: Vec<u8>) -> UnreadKeys
        ensures from { result.from ≡ from }
        ensures to { result.to ≡ to }
    {
        UnreadKeys {
            from,
            to,
            shared: 0,
        }
    }

    /// The first of them.
    pub(crate) fn from(&self) -> &[u8]
        ensures { result.now ≡ self.now.from.items }
    {
        self.from.as_slice()
    }

    /// Whether all were read.
    pub(crate) fn is_empty(&self) -> bool
        ensures { IsTrue result ↔ (self.now.from.items ≡ self.now.to.items) }
    {
        self.from.as_slice() == self.to.as_slice()
    }

    /// The key up to which they are asked for next.
    pub(crate) fn end(&self, alloc: Global) -> Result<Vec<u8>, AllocError>
        ensures within { IfOk result (λ end. IsEndWithin self.now.from.items self.now.to.items end.items) }
    {
        let shared = self.from.get(..self.shared).unwrap_or(&[]);
        let end = behind_all(alloc, shared)?;
        let (from, to) = (self.from.as_slice(), self.to.as_slice());
        if from.cmp(end.as_slice()) == Ordering::Less && end.as_slice().cmp(to) == Ordering::Less {
            return Ok(end);
        }
        Vec::from_slice(alloc, to)
    }

    /// Takes a page of the keys up to this end for read.
    pub(crate) fn pass(
        &mut self,
        alloc: Global,
        page: &RangeResponse,
        end: Vec<u8>,
    ) -> Result<(), AllocError>
        ensures next { OnOk result (self.new.from.items ≡ behind_page page.now end.items) }
        ensures same { self.new.to ≡ self.old.to }
        ensures fault { OnErr result (self.new ≡ self.old) }
    {
        let pairs = page.pairs.as_slice();
        match (pairs.first(), pairs.last()) {
            (Some(first), Some(last)) if page.has_more => {
                let from = with_last(alloc, last.key.as_slice())?;
                self.shared = shared_len(first.key.as_slice(), last.key.as_slice());
                self.from = from;
            }
            _ => {
                // beside keys the next range is as wide; behind none it is wider
                self.shared = if pairs.is_empty() {
                    end.len().saturating_sub(1)
                } else {
                    end.len()
                };
                self.from = end;
            }
        }
        Ok(())
    }
}
