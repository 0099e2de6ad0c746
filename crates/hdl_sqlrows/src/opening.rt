//! Opening a database with the first values of its handles.

ghost use Rattle.std.specs.Prelude.{◌≡◌, ◌≢◌, ◌↔◌, None, [], ◌∷◌, ◌++◌, false, not, IsTrue, IfOk, OnOk, OnErr, AllPairs, fold, map, filter};
ghost use Rattle.std.specs.FinSet as set;
ghost use Rattle.std.specs.List.{AllByRecursion};
ghost use Rattle.sqlite.specs.State.{HasCleanDisk, Survives};
ghost use Rattle.sqlite.specs.Held.{state};
ghost use Rattle.hdl_name.specs.Name.{canonical, authority as authority_of};
ghost use Rattle.hdl_value.specs.Place.{Place};
ghost use Rattle.hdl_rows.specs.Table.{Table, has, at, IsPlaced};
ghost use Rattle.hdl_sqlrows.specs.Filed.{WhereOpen, KeepsCommitted, IsDraft, draft_table, filed_table};
ghost use Rattle.hdl_sqlrows.specs.Layout.{no_schema};
ghost use Rattle.hdl_sqlrows.specs.Stored.{IsInside, IsBetweenCalls, IsBlank, IsBare};
ghost use Rattle.hdl_sqlrows.specs.Opening.{First, Base, handle, base_in, filed_base, no_base, HasFiled, CrashKeeps, with_first, noted_with, opened_with, left_to_open, absent, place_of, first_at, AreFree, IsOpenedRow, OnlyLooks};

use crate::fault::StoreFault;
use crate::layout::make_within;
use crate::put::{put_entry, put_handle};
use crate::transaction::finish;
use hdl_name::Name;
use hdl_value::Value;
use sqlite::{Alter, Connection, Transaction, params};
use std::alloc::Global;

/// Creates the tables in an empty database, and opens handles with their first values, in one transaction: a crash
/// leaves nothing or all. The list may name a handle in several ways, and have its values in any order.
///
/// Refused if the store or memory is refused. Then nothing is created.
pub fn open_new<S: Alter>(
    conn: &mut Connection<S>,
    alloc: Global,
    opening: &[(Name, Value)],
) -> Result<(), StoreFault>
    requires mode { conn.old.in_transaction ≡ false }
    requires blank { WhereOpen (state S.Store conn.old) (IsBlank (state S.Store conn.old)) }
    requires distinct { AllPairs (λ (p q : Place). p ≢ q) (map place_of opening.now) }
    ensures mode { conn.new.in_transaction ≡ false }
    ensures settled { OnOk result (WhereOpen (state S.Store conn.new) (IsBetweenCalls (state S.Store conn.new))) }
    ensures done { OnOk result (HasCleanDisk (state S.Store conn.new) → HasFiled (state S.Store conn.new) (opened_with no_base opening.now)) }
    ensures undone { OnErr result (KeepsCommitted (state S.Store conn.old) (state S.Store conn.new)) }
    ensures durable { OnOk result (HasCleanDisk (state S.Store conn.new) → CrashKeeps (state S.Store conn.new) (opened_with no_base opening.now)) }
    ensures survives { Survives (state S.Store conn.old) (state S.Store conn.new) (λ db. base_in db ≡ opened_with no_base opening.now) }
{
    let mut tx = conn.transaction();
    let written = make_and_open(&mut tx, alloc, opening);
    finish(tx, written)
}

/// Opens the handles that weren't opened before, in one transaction. Each of them that is absent gets its first values.
/// Handles that were opened before stay as they are, even if they were deleted since. The list is as for [`open_new`].
///
/// Refused if the store or memory is refused. Then all stays as it was.
pub fn open_more<S: Alter>(
    conn: &mut Connection<S>,
    alloc: Global,
    opening: &[(Name, Value)],
) -> Result<(), StoreFault>
    requires mode { conn.old.in_transaction ≡ false }
    requires settled { WhereOpen (state S.Store conn.old) (IsBetweenCalls (state S.Store conn.old)) }
    requires placed { WhereOpen (state S.Store conn.old) (IsPlaced (filed_table (state S.Store conn.old))) }
    requires distinct { AllPairs (λ (p q : Place). p ≢ q) (map place_of opening.now) }
    ensures mode { conn.new.in_transaction ≡ false }
    ensures settled { WhereOpen (state S.Store conn.new) (IsBetweenCalls (state S.Store conn.new)) }
    ensures done { OnOk result (HasCleanDisk (state S.Store conn.new) → HasFiled (state S.Store conn.new) (opened_with (filed_base (state S.Store conn.old)) opening.now)) }
    ensures undone { OnErr result (WhereOpen (state S.Store conn.new) (filed_base (state S.Store conn.new) ≡ filed_base (state S.Store conn.old))) }
    ensures durable { OnOk result (HasCleanDisk (state S.Store conn.new) → CrashKeeps (state S.Store conn.new) (opened_with (filed_base (state S.Store conn.old)) opening.now)) }
    ensures restored { OnErr result (WhereOpen (state S.Store conn.new) (CrashKeeps (state S.Store conn.new) (filed_base (state S.Store conn.old)))) }
    ensures survives { Survives (state S.Store conn.old) (state S.Store conn.new) (λ db. IsTrue (state S.Store conn.old).is_open → base_in db ≡ opened_with (filed_base (state S.Store conn.old)) opening.now) }
{
    // Its rows have the types of the schema.
    let _ = conn.schema();
    let mut tx = conn.transaction();
    let written = open_within(&mut tx, alloc, opening);
    finish(tx, written)
}

/// Whether each handle of the list was opened. Writes nothing.
///
/// Refused if the store or memory is refused.
pub fn are_opened<S: Alter>(
    conn: &mut Connection<S>,
    alloc: Global,
    opening: &[(Name, Value)],
) -> Result<bool, StoreFault>
    requires mode { conn.old.in_transaction ≡ false }
    requires settled { WhereOpen (state S.Store conn.old) (IsBetweenCalls (state S.Store conn.old)) }
    ensures mode { conn.new.in_transaction ≡ false }
    ensures settled { WhereOpen (state S.Store conn.new) (IsBetweenCalls (state S.Store conn.new)) }
    ensures kept { KeepsCommitted (state S.Store conn.old) (state S.Store conn.new) }
    ensures found { IfOk result (λ are. WhereOpen (state S.Store conn.new) (IsTrue are ↔ (left_to_open (filed_base (state S.Store conn.old)).opened opening.now ≡ []))) }
    ensures survives { Survives (state S.Store conn.old) (state S.Store conn.new) (λ _. ⊥) }
{
    // Its rows have the types of the schema.
    let _ = conn.schema();
    let mut tx = conn.transaction();
    let unopened = unopened_of(&mut tx, alloc, opening);
    let _taken_back = finish(tx, Err(StoreFault));
    Ok(unopened?.is_empty())
}

/// A handle that was opened isn't opened again, however the table was changed since: no write changes the record of
/// opened handles (`beside` of [`writes`](crate::writes)).
pub fn opened_once(opening: &[(Name, Value)])
    ensures noted { (base : Base) → AllByRecursion (λ (first : First). IsTrue (set.contains (opened_with base opening.now).opened (handle first))) opening.now }
    ensures once { (base : Base) → (t : Table) → opened_with (record (opened_with base opening.now) { table = t }) opening.now ≡ record (opened_with base opening.now) { table = t } }
{}

/// Creates the tables and opens handles within a transaction.
fn make_and_open<S: Alter>(
    tx: &mut Transaction<'_, S>,
    alloc: Global,
    opening: &[(Name, Value)],
) -> Result<(), StoreFault>
    requires bare { WhereOpen (state S.Store tx.old.conn.now) (IsBare no_schema (state S.Store tx.old.conn.now)) }
    requires distinct { AllPairs (λ (p q : Place). p ≢ q) (map place_of opening.now) }
    ensures same_reference { tx.new.conn.ghost_name ≡ tx.old.conn.ghost_name }
    ensures survives { Survives (state S.Store tx.old.conn.now) (state S.Store tx.new.conn.now) (λ _. ⊥) }
    ensures committed { KeepsCommitted (state S.Store tx.old.conn.now) (state S.Store tx.new.conn.now) }
    ensures inside { OnOk result (HasCleanDisk (state S.Store tx.new.conn.now) → IsTrue (state S.Store tx.old.conn.now).is_open × IsTrue (state S.Store tx.new.conn.now).is_open × IsInside (state S.Store tx.new.conn.now)) }
    ensures opened { OnOk result (HasCleanDisk (state S.Store tx.new.conn.now) → base_in (state S.Store tx.new.conn.now).now.trees ≡ opened_with no_base opening.now) }
{
    make_within(tx)?;
    open_within(tx, alloc, opening)
}

/// Whether the handle is in the table.
fn is_there<S: Alter>(tx: &mut Transaction<'_, S>, name: &[u8]) -> Result<bool, StoreFault>
    requires inside { WhereOpen (state S.Store tx.old.conn.now) (IsInside (state S.Store tx.old.conn.now)) }
    ensures same_reference { tx.new.conn.ghost_name ≡ tx.old.conn.ghost_name }
    ensures survives { Survives (state S.Store tx.old.conn.now) (state S.Store tx.new.conn.now) (λ _. ⊥) }
    ensures committed { KeepsCommitted (state S.Store tx.old.conn.now) (state S.Store tx.new.conn.now) }
    ensures same { OnOk result (HasCleanDisk (state S.Store tx.new.conn.now) → OnlyLooks (state S.Store tx.old.conn.now) (state S.Store tx.new.conn.now)) }
    ensures found { IfOk result (λ is. HasCleanDisk (state S.Store tx.new.conn.now) → is ≡ has (draft_table (state S.Store tx.old.conn.now)) name.now) }
{
    let rows = tx.query_all("SELECT name FROM handles WHERE name = ?1", params![name])?;
    Ok(!rows.is_empty())
}

/// Whether the handle was opened.
fn was_opened<S: Alter>(tx: &mut Transaction<'_, S>, name: &[u8]) -> Result<bool, StoreFault>
    requires inside { WhereOpen (state S.Store tx.old.conn.now) (IsInside (state S.Store tx.old.conn.now)) }
    requires named { WhereOpen (state S.Store tx.old.conn.now) (AllByRecursion IsOpenedRow ((state S.Store tx.old.conn.now).now.trees 4)) }
    ensures same_reference { tx.new.conn.ghost_name ≡ tx.old.conn.ghost_name }
    ensures survives { Survives (state S.Store tx.old.conn.now) (state S.Store tx.new.conn.now) (λ _. ⊥) }
    ensures committed { KeepsCommitted (state S.Store tx.old.conn.now) (state S.Store tx.new.conn.now) }
    ensures same { OnOk result (HasCleanDisk (state S.Store tx.new.conn.now) → OnlyLooks (state S.Store tx.old.conn.now) (state S.Store tx.new.conn.now)) }
    ensures found { IfOk result (λ is. HasCleanDisk (state S.Store tx.new.conn.now) → is ≡ set.contains (base_in (state S.Store tx.old.conn.now).now.trees).opened name.now) }
{
    let rows = tx.query_all("SELECT name FROM opened WHERE name = ?1", params![name])?;
    Ok(!rows.is_empty())
}

/// Records that a handle was opened. It isn't recorded yet.
fn note<S: Alter>(tx: &mut Transaction<'_, S>, name: &[u8]) -> Result<(), StoreFault>
    requires inside { WhereOpen (state S.Store tx.old.conn.now) (IsInside (state S.Store tx.old.conn.now)) }
    requires named { WhereOpen (state S.Store tx.old.conn.now) (AllByRecursion IsOpenedRow ((state S.Store tx.old.conn.now).now.trees 4)) }
    ensures same_reference { tx.new.conn.ghost_name ≡ tx.old.conn.ghost_name }
    ensures survives { Survives (state S.Store tx.old.conn.now) (state S.Store tx.new.conn.now) (λ _. ⊥) }
    ensures committed { KeepsCommitted (state S.Store tx.old.conn.now) (state S.Store tx.new.conn.now) }
    ensures inside { OnOk result (HasCleanDisk (state S.Store tx.new.conn.now) → IsTrue (state S.Store tx.old.conn.now).is_open × IsTrue (state S.Store tx.new.conn.now).is_open × IsInside (state S.Store tx.new.conn.now)) }
    ensures named { OnOk result (HasCleanDisk (state S.Store tx.new.conn.now) → AllByRecursion IsOpenedRow ((state S.Store tx.new.conn.now).now.trees 4)) }
    ensures noted { OnOk result (HasCleanDisk (state S.Store tx.new.conn.now) → base_in (state S.Store tx.new.conn.now).now.trees ≡ record (base_in (state S.Store tx.old.conn.now).now.trees) { opened = set.insert (base_in (state S.Store tx.old.conn.now).now.trees).opened name.now }) }
{
    tx.execute("INSERT INTO opened (name) VALUES (?1)", params![name])?;
    Ok(())
}

/// Adds a handle, unless it is there.
fn put_missing<S: Alter>(
    tx: &mut Transaction<'_, S>,
    name: &[u8],
    authority: &[u8],
) -> Result<(), StoreFault>
    requires inside { WhereOpen (state S.Store tx.old.conn.now) (IsInside (state S.Store tx.old.conn.now)) }
    requires authority { authority.now ≡ authority_of name.now }
    ensures same_reference { tx.new.conn.ghost_name ≡ tx.old.conn.ghost_name }
    ensures survives { Survives (state S.Store tx.old.conn.now) (state S.Store tx.new.conn.now) (λ _. ⊥) }
    ensures committed { KeepsCommitted (state S.Store tx.old.conn.now) (state S.Store tx.new.conn.now) }
    ensures put { OnOk result (HasCleanDisk (state S.Store tx.new.conn.now) → IsTrue (state S.Store tx.old.conn.now).is_open × IsDraft (state S.Store tx.new.conn.now) (record (draft_table (state S.Store tx.old.conn.now)) { handles = set.insert (draft_table (state S.Store tx.old.conn.now)).handles name.now })) }
    ensures beside { OnOk result (HasCleanDisk (state S.Store tx.new.conn.now) → (state S.Store tx.new.conn.now).now.trees 4 ≡ (state S.Store tx.old.conn.now).now.trees 4) }
{
    if is_there(tx, name)? {
        Ok(())
    } else {
        put_handle(tx, name, authority)
    }
}

/// Adds a first value, and its handle if that is absent.
fn put_first<S: Alter>(
    tx: &mut Transaction<'_, S>,
    alloc: Global,
    name: &Name,
    value: &Value,
) -> Result<(), StoreFault>
    requires inside { WhereOpen (state S.Store tx.old.conn.now) (IsInside (state S.Store tx.old.conn.now)) }
    requires free { WhereOpen (state S.Store tx.old.conn.now) (at (draft_table (state S.Store tx.old.conn.now)) (place_of (name.now, value.now)) ≡ None) }
    ensures same_reference { tx.new.conn.ghost_name ≡ tx.old.conn.ghost_name }
    ensures survives { Survives (state S.Store tx.old.conn.now) (state S.Store tx.new.conn.now) (λ _. ⊥) }
    ensures committed { KeepsCommitted (state S.Store tx.old.conn.now) (state S.Store tx.new.conn.now) }
    ensures put { OnOk result (HasCleanDisk (state S.Store tx.new.conn.now) → IsTrue (state S.Store tx.old.conn.now).is_open × IsDraft (state S.Store tx.new.conn.now) (with_first (draft_table (state S.Store tx.old.conn.now)) (name.now, value.now))) }
    ensures beside { OnOk result (HasCleanDisk (state S.Store tx.new.conn.now) → (state S.Store tx.new.conn.now).now.trees 4 ≡ (state S.Store tx.old.conn.now).now.trees 4) }
{
    let handle = name.canon();
    put_missing(tx, handle, name.authority())?;
    put_entry(tx, alloc, handle, value)
}

/// Adds first values, each with its handle if that is absent.
fn put_firsts<S: Alter>(
    tx: &mut Transaction<'_, S>,
    alloc: Global,
    firsts: &[&(Name, Value)],
) -> Result<(), StoreFault>
    requires inside { WhereOpen (state S.Store tx.old.conn.now) (IsInside (state S.Store tx.old.conn.now)) }
    requires free { WhereOpen (state S.Store tx.old.conn.now) (AreFree (draft_table (state S.Store tx.old.conn.now)) (map first_at firsts.now)) }
    ensures same_reference { tx.new.conn.ghost_name ≡ tx.old.conn.ghost_name }
    ensures survives { Survives (state S.Store tx.old.conn.now) (state S.Store tx.new.conn.now) (λ _. ⊥) }
    ensures committed { KeepsCommitted (state S.Store tx.old.conn.now) (state S.Store tx.new.conn.now) }
    ensures put { OnOk result (HasCleanDisk (state S.Store tx.new.conn.now) → IsTrue (state S.Store tx.old.conn.now).is_open → IsDraft (state S.Store tx.new.conn.now) (fold with_first (draft_table (state S.Store tx.old.conn.now)) (map first_at firsts.now))) }
    ensures beside { OnOk result (HasCleanDisk (state S.Store tx.new.conn.now) → (state S.Store tx.new.conn.now).now.trees 4 ≡ (state S.Store tx.old.conn.now).now.trees 4) }
{
    for first in firsts {
        let first = *first;
        put_first(tx, alloc, &first.0, &first.1)?;
    }
    Ok(())
}

/// Records that a handle was opened, unless that is recorded already.
fn note_once<S: Alter>(tx: &mut Transaction<'_, S>, name: &[u8]) -> Result<(), StoreFault>
    requires inside { WhereOpen (state S.Store tx.old.conn.now) (IsInside (state S.Store tx.old.conn.now)) }
    requires named { WhereOpen (state S.Store tx.old.conn.now) (AllByRecursion IsOpenedRow ((state S.Store tx.old.conn.now).now.trees 4)) }
    ensures same_reference { tx.new.conn.ghost_name ≡ tx.old.conn.ghost_name }
    ensures survives { Survives (state S.Store tx.old.conn.now) (state S.Store tx.new.conn.now) (λ _. ⊥) }
    ensures committed { KeepsCommitted (state S.Store tx.old.conn.now) (state S.Store tx.new.conn.now) }
    ensures inside { OnOk result (HasCleanDisk (state S.Store tx.new.conn.now) → IsTrue (state S.Store tx.old.conn.now).is_open × IsTrue (state S.Store tx.new.conn.now).is_open × IsInside (state S.Store tx.new.conn.now)) }
    ensures named { OnOk result (HasCleanDisk (state S.Store tx.new.conn.now) → AllByRecursion IsOpenedRow ((state S.Store tx.new.conn.now).now.trees 4)) }
    ensures noted { OnOk result (HasCleanDisk (state S.Store tx.new.conn.now) → base_in (state S.Store tx.new.conn.now).now.trees ≡ record (base_in (state S.Store tx.old.conn.now).now.trees) { opened = set.insert (base_in (state S.Store tx.old.conn.now).now.trees).opened name.now }) }
{
    if was_opened(tx, name)? {
        Ok(())
    } else {
        note(tx, name)
    }
}

/// Records that the handles of first values were opened.
fn note_firsts<S: Alter>(
    tx: &mut Transaction<'_, S>,
    firsts: &[&(Name, Value)],
) -> Result<(), StoreFault>
    requires inside { WhereOpen (state S.Store tx.old.conn.now) (IsInside (state S.Store tx.old.conn.now)) }
    requires named { WhereOpen (state S.Store tx.old.conn.now) (AllByRecursion IsOpenedRow ((state S.Store tx.old.conn.now).now.trees 4)) }
    ensures same_reference { tx.new.conn.ghost_name ≡ tx.old.conn.ghost_name }
    ensures survives { Survives (state S.Store tx.old.conn.now) (state S.Store tx.new.conn.now) (λ _. ⊥) }
    ensures committed { KeepsCommitted (state S.Store tx.old.conn.now) (state S.Store tx.new.conn.now) }
    ensures inside { OnOk result (HasCleanDisk (state S.Store tx.new.conn.now) → IsTrue (state S.Store tx.old.conn.now).is_open → IsTrue (state S.Store tx.new.conn.now).is_open × IsInside (state S.Store tx.new.conn.now)) }
    ensures noted { OnOk result (HasCleanDisk (state S.Store tx.new.conn.now) → IsTrue (state S.Store tx.old.conn.now).is_open → base_in (state S.Store tx.new.conn.now).now.trees ≡ noted_with (base_in (state S.Store tx.old.conn.now).now.trees) (map first_at firsts.now)) }
{
    for first in firsts {
        let first = *first;
        note_once(tx, first.0.canon())?;
    }
    Ok(())
}

/// Adds a first value to a list, unless it is excluded.
fn push_unless<'a>(
    firsts: &mut Vec<&'a (Name, Value)>,
    first: &'a (Name, Value),
    is_out: bool,
) -> Result<(), StoreFault>
    ensures { OnOk result (map first_at firsts.new.items ≡ map first_at firsts.old.items ++ filter (λ (_ : First). not is_out) (first.now ∷ [])) }
{
    if !is_out {
        firsts.push(first)?;
    }
    Ok(())
}

/// The first values of the handles that weren't opened.
fn unopened_of<'a, S: Alter>(
    tx: &mut Transaction<'_, S>,
    alloc: Global,
    opening: &'a [(Name, Value)],
) -> Result<Vec<&'a (Name, Value)>, StoreFault>
    requires inside { WhereOpen (state S.Store tx.old.conn.now) (IsInside (state S.Store tx.old.conn.now)) }
    requires named { WhereOpen (state S.Store tx.old.conn.now) (AllByRecursion IsOpenedRow ((state S.Store tx.old.conn.now).now.trees 4)) }
    ensures same_reference { tx.new.conn.ghost_name ≡ tx.old.conn.ghost_name }
    ensures survives { Survives (state S.Store tx.old.conn.now) (state S.Store tx.new.conn.now) (λ _. ⊥) }
    ensures committed { KeepsCommitted (state S.Store tx.old.conn.now) (state S.Store tx.new.conn.now) }
    ensures same { OnOk result (HasCleanDisk (state S.Store tx.new.conn.now) → IsTrue (state S.Store tx.old.conn.now).is_open → OnlyLooks (state S.Store tx.old.conn.now) (state S.Store tx.new.conn.now)) }
    ensures found { IfOk result (λ firsts. HasCleanDisk (state S.Store tx.new.conn.now) → IsTrue (state S.Store tx.old.conn.now).is_open → map first_at firsts.items ≡ left_to_open (base_in (state S.Store tx.old.conn.now).now.trees).opened opening.now) }
{
    let mut firsts = Vec::new(alloc);
    for first in opening {
        let is_out = was_opened(tx, first.0.canon())?;
        push_unless(&mut firsts, first, is_out)?;
    }
    Ok(firsts)
}

/// Those of handles that are absent.
fn absent_of<'a, S: Alter>(
    tx: &mut Transaction<'_, S>,
    alloc: Global,
    opening: &[&'a (Name, Value)],
) -> Result<Vec<&'a (Name, Value)>, StoreFault>
    requires inside { WhereOpen (state S.Store tx.old.conn.now) (IsInside (state S.Store tx.old.conn.now)) }
    ensures same_reference { tx.new.conn.ghost_name ≡ tx.old.conn.ghost_name }
    ensures survives { Survives (state S.Store tx.old.conn.now) (state S.Store tx.new.conn.now) (λ _. ⊥) }
    ensures committed { KeepsCommitted (state S.Store tx.old.conn.now) (state S.Store tx.new.conn.now) }
    ensures same { OnOk result (HasCleanDisk (state S.Store tx.new.conn.now) → IsTrue (state S.Store tx.old.conn.now).is_open → OnlyLooks (state S.Store tx.old.conn.now) (state S.Store tx.new.conn.now)) }
    ensures found { IfOk result (λ firsts. HasCleanDisk (state S.Store tx.new.conn.now) → IsTrue (state S.Store tx.old.conn.now).is_open → map first_at firsts.items ≡ absent (draft_table (state S.Store tx.old.conn.now)) (map first_at opening.now)) }
{
    let mut firsts = Vec::new(alloc);
    for first in opening {
        let first = *first;
        let is_out = is_there(tx, first.0.canon())?;
        push_unless(&mut firsts, first, is_out)?;
    }
    Ok(firsts)
}

/// Opens handles within a transaction.
fn open_within<S: Alter>(
    tx: &mut Transaction<'_, S>,
    alloc: Global,
    opening: &[(Name, Value)],
) -> Result<(), StoreFault>
    requires inside { WhereOpen (state S.Store tx.old.conn.now) (IsInside (state S.Store tx.old.conn.now)) }
    requires named { WhereOpen (state S.Store tx.old.conn.now) (AllByRecursion IsOpenedRow ((state S.Store tx.old.conn.now).now.trees 4)) }
    requires placed { WhereOpen (state S.Store tx.old.conn.now) (IsPlaced (draft_table (state S.Store tx.old.conn.now))) }
    requires distinct { AllPairs (λ (p q : Place). p ≢ q) (map place_of opening.now) }
    ensures same_reference { tx.new.conn.ghost_name ≡ tx.old.conn.ghost_name }
    ensures survives { Survives (state S.Store tx.old.conn.now) (state S.Store tx.new.conn.now) (λ _. ⊥) }
    ensures committed { KeepsCommitted (state S.Store tx.old.conn.now) (state S.Store tx.new.conn.now) }
    ensures inside { OnOk result (HasCleanDisk (state S.Store tx.new.conn.now) → IsTrue (state S.Store tx.old.conn.now).is_open → IsTrue (state S.Store tx.new.conn.now).is_open × IsInside (state S.Store tx.new.conn.now)) }
    ensures opened { OnOk result (HasCleanDisk (state S.Store tx.new.conn.now) → IsTrue (state S.Store tx.old.conn.now).is_open → base_in (state S.Store tx.new.conn.now).now.trees ≡ opened_with (base_in (state S.Store tx.old.conn.now).now.trees) opening.now) }
{
    let unopened = unopened_of(tx, alloc, opening)?;
    let fresh = absent_of(tx, alloc, &unopened)?;
    put_firsts(tx, alloc, &fresh)?;
    note_firsts(tx, &unopened)
}
