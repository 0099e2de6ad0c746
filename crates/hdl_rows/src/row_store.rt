//! The table as a map of handles.

ghost use Rattle.std.specs.Prelude.{◌≡◌, ◌↔◌, IsTrue, is_some, map, true, false, option_copied, [], ◌∷◌, ◌++◌, IfOk, OnOk, OnErr};
ghost use Rattle.std.specs.List.{position_or_len};
ghost use Rattle.std.specs.Char.{to_ascii_lowercase};
ghost use Rattle.hdl_name.specs.Name.{authority, sent_authority, is_slash};
ghost use Rattle.hdl_value.specs.Place.{same_handle};
ghost use Rattle.hdl_rows.specs.Heads.{heads_of};
ghost use Rattle.hdl_rows.specs.RowStore.{by_index, put_all};
ghost use Rattle.hdl_rows.specs.Table.{no_rows, place, has, at, values_of, values_in, names_of, HaveTheirIndexes, with_new_handle, with_values, without_values, without_handle};

use crate::heads::heads_of;
use crate::row::{copies, put_copies, remove_indexes, value_of};
use hdl_limits::Octets;
use hdl_value::Value;
use std::alloc::{AllocError, Global};
use std::collections::BTreeMap;
use std::marker::Model;

/// Handles by rising octets, each with its values by rising index. Contracts see this as the table.
#[derive(Drop)]
pub(crate) struct RowStore {
    rows: BTreeMap<Vec<u8>, Vec<Value>>,
}

impl Model for RowStore {
    ghost use Rattle.hdl_rows.specs.Table.{Table, table_code};

    ghost Value = { Table };

    ghost coded = { table_code };

    ghost use Rattle.hdl_rows.specs.RowStore.{entries_of, table_of, AreInOrder};

    ghost view = { λ s. table_of (entries_of s.rows.entries) };

    ghost invariant = { λ s. AreInOrder (entries_of s.rows.entries) };
}

/// How many octets there are before the first slash.
fn slash_in(handle: &[u8]) -> usize
    ensures { result ≡ position_or_len is_slash handle.now }
{
    handle.iter().take_while(|octet| **octet != b'/').count()
}

/// The octets before the first slash.
fn front_of(handle: &[u8]) -> &[u8]
    ensures { result.now ≡ sent_authority handle.now }
{
    &handle[..slash_in(handle)]
}

/// Whether the octets are these, once their ASCII letters are lower case.
fn lowers_to(octets: &[u8], lowered: &[u8]) -> bool
    ensures { IsTrue result ↔ (map to_ascii_lowercase octets.now ≡ lowered.now) }
{
    if octets.len() != lowered.len() {
        return false;
    }
    for i in 0..octets.len() {
        if octets[i].to_ascii_lowercase() != lowered[i] {
            return false;
        }
    }
    true
}

/// Whether the handle has this authority, which is in canonical form.
fn is_of(handle: &[u8], prefix: &[u8]) -> bool
    ensures { result ≡ same_handle (authority handle.now) prefix.now }
{
    lowers_to(front_of(handle), prefix)
}

/// The octets, and this octet after them.
fn followed_by(alloc: Global, octets: &[u8], octet: u8) -> Result<Vec<u8>, AllocError>
    ensures { IfOk result (λ all. all.items ≡ octets.now ++ octet ∷ []) }
{
    let mut all = Vec::from_slice(alloc, octets)?;
    all.push(octet)?;
    Ok(all)
}

/// Copies of the values by rising index. If two have the same index, the later one stays.
fn sorted_copies(alloc: Global, values: &[Value]) -> Result<Vec<Value>, AllocError>
    ensures { IfOk result (λ all. by_index all.items ≡ put_all [] values.now) }
{
    let mut all = Vec::new(alloc);
    put_copies(alloc, &mut all, values)?;
    Ok(all)
}

impl RowStore {
    ghost use Rattle.hdl_rows.specs.RowStore.{entries_of, table_of, AreInOrder, HaveAuthorities};

    /// Takes no memory.
    pub(crate) fn new(alloc: Global) -> RowStore
        ensures { result ≡ no_rows }
    {
        RowStore {
            rows: BTreeMap::new(alloc),
        }
    }

    pub(crate) fn has(&self, name: &[u8]) -> bool
        ensures { result ≡ has self.now name.now }
    {
        self.rows.contains_key(name)
    }

    pub(crate) fn value(&self, name: &[u8], index: u32) -> Option<&Value>
        ensures { option_copied result ≡ at self.now (place name.now index) }
    {
        match self.rows.get(name) {
            Some(values) => value_of(values, index),
            None => None,
        }
    }

    pub(crate) fn values(&self, alloc: Global, name: &[u8]) -> Result<Vec<Value>, AllocError>
        ensures found { IfOk result (λ all. all.items ≡ values_of self.now name.now) }
        ensures by_index { IfOk result (λ all. HaveTheirIndexes self.now name.now all.items) }
    {
        match self.rows.get(name) {
            Some(values) => copies(alloc, values),
            None => Ok(Vec::new(alloc)),
        }
    }

    /// The values of a handle. `None` if it is absent.
    pub(crate) fn look(&self, alloc: Global, name: &[u8]) -> Result<Option<Vec<Value>>, AllocError>
        ensures there { IfOk result (λ all. is_some all ≡ has self.now name.now) }
        ensures found { IfOk result (λ all. values_in all ≡ values_of self.now name.now) }
        ensures by_index { IfOk result (λ all. HaveTheirIndexes self.now name.now (values_in all)) }
    {
        match self.rows.get(name) {
            Some(values) => Ok(Some(copies(alloc, values)?)),
            None => Ok(None),
        }
    }

    /// The heads of a handle's values. `None` if it is absent.
    pub(crate) fn heads(&self, alloc: Global, name: &[u8]) -> Result<Option<Vec<Value>>, AllocError>
        ensures there { IfOk result (λ all. is_some all ≡ has self.now name.now) }
        ensures found { IfOk result (λ all. values_in all ≡ heads_of self.now name.now) }
        ensures by_index { OnOk result (HaveTheirIndexes self.now name.now (values_of self.now name.now)) }
    {
        match self.rows.get(name) {
            Some(values) => Ok(Some(heads_of(alloc, values)?)),
            None => Ok(None),
        }
    }

    /// The handles of an authority. Only those that begin with it and a slash are visited.
    pub(crate) fn names(&self, alloc: Global, prefix: &[u8]) -> Result<Vec<Octets>, AllocError>
        requires { HaveAuthorities self.now }
        ensures { IfOk result (λ all. all.items ≡ names_of self.now prefix.now) }
    {
        let first = followed_by(alloc, prefix, b'/')?;
        // the octet that follows the slash
        let next = followed_by(alloc, prefix, b'0')?;
        let mut all = Vec::new(alloc);
        for (name, _) in self.rows.range(first..next) {
            if is_of(name, prefix) {
                all.push(Octets::new(Vec::from_slice(alloc, name)?))?;
            }
        }
        Ok(all)
    }

    /// Inserts an absent handle in order.
    pub(crate) fn create(
        &mut self,
        alloc: Global,
        name: &[u8],
        values: &[Value],
    ) -> Result<(), AllocError>
        requires absent { has self.old name.now ≡ false }
        ensures done { OnOk result (self.new ≡ with_new_handle self.old name.now values.now) }
        ensures undone { OnErr result (self.new ≡ self.old) }
    {
        let all = sorted_copies(alloc, values)?;
        let key = Vec::from_slice(alloc, name)?;
        self.rows.insert(key, all)?;
        Ok(())
    }

    /// Inserts values among those of a handle.
    pub(crate) fn put(
        &mut self,
        alloc: Global,
        name: &[u8],
        values: &[Value],
    ) -> Result<(), AllocError>
        requires there { has self.old name.now ≡ true }
        ensures done { OnOk result (self.new ≡ with_values self.old name.now values.now) }
        ensures undone { OnErr result (self.new ≡ self.old) }
    {
        match self.rows.get_mut(name) {
            Some(all) => put_copies(alloc, all, values),
            None => unreachable!(),
        }
    }

    pub(crate) fn remove(&mut self, name: &[u8], indexes: &[u32])
        requires there { has self.old name.now ≡ true }
        ensures { self.new ≡ without_values self.old name.now indexes.now }
    {
        match self.rows.get_mut(name) {
            Some(all) => remove_indexes(all, indexes),
            None => unreachable!(),
        }
    }

    pub(crate) fn delete(&mut self, name: &[u8])
        ensures { self.new ≡ without_handle self.old name.now }
    {
        self.rows.remove(name);
    }
}
