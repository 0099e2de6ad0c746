//! The request that undoes a change.

ghost use Rattle.std.specs.Prelude.{◌≡◌, ◌⊎◌, Err, IfErr, IfOk, Ok, option_copied};
ghost use Rattle.hdl_undo.specs.Undo as said;

use crate::before::values_before;
use crate::fault::UndoFault;
use crate::standing::{added, are_at, changed, taken, told};
use hdl_history::{Entry, Operation};
use hdl_limits::{Items, Octets, WRITTEN_MAX};
use hdl_msg::RequestBody;
use hdl_value::{Value, Wire};
use std::alloc::{AllocError, Global};

fn handle_of(alloc: Global, entry: &Entry) -> Result<Octets, AllocError>
    ensures { IfOk result (λ handle. handle ≡ entry.now.handle) }
{
    Ok(Octets::new(Vec::from_slice(alloc, entry.handle.as_slice())?))
}

/// Deletes the handle if all its values stand as they were created.
fn undo_create(
    alloc: Global,
    moment: u64,
    entry: &Entry,
    there: Option<&[Value]>,
) -> Result<RequestBody, UndoFault>
    ensures request { IfOk result (λ body. said.undo_create moment entry.now (option_copied there.entry) ≡ Ok body) }
    ensures fault { IfErr result (λ e. (e ≡ UndoFault.Memory) ⊎ (said.undo_create moment entry.now (option_copied there.entry) ≡ Err e)) }
{
    let Some(values) = there else {
        return Err(UndoFault::NotThere);
    };
    if let Some(index) = changed(moment, values, entry.indexes.as_slice()) {
        return Err(UndoFault::Changed(index));
    }
    if let Some(value) = added(entry.indexes.as_slice(), values) {
        return Err(UndoFault::Added(value.index));
    }
    let handle = handle_of(alloc, entry)?;
    Ok(RequestBody::Delete { handle })
}

/// Removes the values that were added if they stand so.
fn undo_add(
    alloc: Global,
    moment: u64,
    entry: &Entry,
    there: Option<&[Value]>,
) -> Result<RequestBody, UndoFault>
    ensures request { IfOk result (λ body. said.undo_add moment entry.now (option_copied there.entry) ≡ Ok body) }
    ensures fault { IfErr result (λ e. (e ≡ UndoFault.Memory) ⊎ (said.undo_add moment entry.now (option_copied there.entry) ≡ Err e)) }
{
    let Some(values) = there else {
        return Err(UndoFault::NotThere);
    };
    if let Some(index) = changed(moment, values, entry.indexes.as_slice()) {
        return Err(UndoFault::Changed(index));
    }
    let handle = handle_of(alloc, entry)?;
    let indexes = Items::new(Vec::from_slice(alloc, entry.indexes.as_slice())?);
    Ok(RequestBody::Remove { handle, indexes })
}

/// Modifies the values back if they stand as they were written.
fn undo_modify(
    alloc: Global,
    moment: u64,
    entry: &Entry,
    before: Vec<Value>,
    there: Option<&[Value]>,
) -> Result<RequestBody, UndoFault>
    ensures request { IfOk result (λ body. said.undo_modify moment entry.now before.items (option_copied there.entry) ≡ Ok body) }
    ensures fault { IfErr result (λ e. (e ≡ UndoFault.Memory) ⊎ (said.undo_modify moment entry.now before.items (option_copied there.entry) ≡ Err e)) }
{
    if !are_at(entry.indexes.as_slice(), &before) {
        return Err(UndoFault::OtherIndexes);
    }
    let Some(values) = there else {
        return Err(UndoFault::NotThere);
    };
    if let Some(index) = changed(moment, values, entry.indexes.as_slice()) {
        return Err(UndoFault::Changed(index));
    }
    Ok(RequestBody::Modify {
        handle: handle_of(alloc, entry)?,
        values: Items::new(before),
    })
}

/// Adds the values that were removed if none stands at their indexes.
fn undo_remove(
    alloc: Global,
    entry: &Entry,
    before: Vec<Value>,
    there: Option<&[Value]>,
) -> Result<RequestBody, UndoFault>
    ensures request { IfOk result (λ body. said.undo_remove entry.now before.items (option_copied there.entry) ≡ Ok body) }
    ensures fault { IfErr result (λ e. (e ≡ UndoFault.Memory) ⊎ (said.undo_remove entry.now before.items (option_copied there.entry) ≡ Err e)) }
{
    if !are_at(entry.indexes.as_slice(), &before) {
        return Err(UndoFault::OtherIndexes);
    }
    let Some(values) = there else {
        return Err(UndoFault::NotThere);
    };
    if let Some(index) = taken(values, entry.indexes.as_slice()) {
        return Err(UndoFault::ValueThere(index));
    }
    Ok(RequestBody::Add {
        handle: handle_of(alloc, entry)?,
        values: Items::new(before),
    })
}

/// Creates the handle with its values if it isn't there.
fn undo_delete(
    alloc: Global,
    entry: &Entry,
    before: Vec<Value>,
    there: Option<&[Value]>,
) -> Result<RequestBody, UndoFault>
    ensures request { IfOk result (λ body. said.undo_delete entry.now before.items (option_copied there.entry) ≡ Ok body) }
    ensures fault { IfErr result (λ e. (e ≡ UndoFault.Memory) ⊎ (said.undo_delete entry.now before.items (option_copied there.entry) ≡ Err e)) }
{
    if there.is_some() {
        return Err(UndoFault::HandleThere);
    }
    if before.len() > WRITTEN_MAX {
        return Err(UndoFault::TooMany(before.len() as u64));
    }
    Ok(RequestBody::Create {
        handle: handle_of(alloc, entry)?,
        values: Items::new(before),
    })
}

/// The request by the values before.
fn undo_by(
    alloc: Global,
    moment: u64,
    entry: &Entry,
    before: Vec<Value>,
    there: Option<&[Value]>,
) -> Result<RequestBody, UndoFault>
    ensures request { IfOk result (λ body. said.undo_by entry.now.operation moment entry.now before.items (option_copied there.entry) ≡ Ok body) }
    ensures fault { IfErr result (λ e. (e ≡ UndoFault.Memory) ⊎ (said.undo_by entry.now.operation moment entry.now before.items (option_copied there.entry) ≡ Err e)) }
{
    match entry.operation {
        Operation::Create => undo_create(alloc, moment, entry, there),
        Operation::Add => undo_add(alloc, moment, entry, there),
        Operation::Modify => undo_modify(alloc, moment, entry, before, there),
        Operation::Remove => undo_remove(alloc, entry, before, there),
        Operation::Delete => undo_delete(alloc, entry, before, there),
    }
}

/// The request that undoes a change of the history, by what a reply of this layout shows of the handle now: None if the handle isn't
/// there, else its values with their timestamps.
///
/// Refuses in this order: the values before aren't in the history, or not at the indexes of the change; the handle is there after a
/// delete, or isn't after another change; a value of the change doesn't stand as the change left it, in the order of its indexes; after
/// a create another value stands.
pub fn undo(
    alloc: Global,
    wire: Wire,
    entry: &Entry,
    there: Option<&[Value]>,
) -> Result<RequestBody, UndoFault>
    ensures request { IfOk result (λ body. said.Undoes wire entry.now (option_copied there.entry) body) }
    ensures fault { IfErr result (λ e. said.CantUndo wire entry.now (option_copied there.entry) e) }
{
    let before = values_before(alloc, &entry.before)?;
    undo_by(alloc, told(wire, entry.moment), entry, before, there)
}
