//! The contents of the lists at references.

ghost use Rattle.std.specs.Prelude.{◌≡◌, ◌≤◌, ◌<◌, ◌+◌, filter, IfOk};
ghost use Rattle.hdl_limits.specs.Counts.{at_most_u64};
ghost use Rattle.hdl_value.specs.Refs.{listed_places, refers, place_of};
ghost use Rattle.hdl_rows.specs.declared.reads.TheConstants.{CALL_OCTETS};
ghost use Rattle.hdl_rows.specs.Reads as reads;
ghost use Rattle.hdl_rows.specs.Reads.{of_value};
ghost use Rattle.hdl_rows.specs.Table.{at, AreRefusalsAfter};
ghost use Rattle.hdl_reach.specs.Reach.{lists};
ghost use Rattle.hdl_reach.specs.Seen.{places};

use hdl_rows::reads::{REFERENCE_OCTETS, value_octets};
use hdl_rows::{Refused, Rows};
use hdl_value::{Reference, Value, vlist_of};
use std::alloc::{AllocError, Global};

/// The references that refer to something: their index isn't 0.
fn referring(alloc: Global, all: Vec<Reference>) -> Result<Vec<Reference>, AllocError>
    ensures { IfOk result (λ some. places some.items ≡ filter refers (places all.items)) }
{
    let mut some = Vec::new(alloc);
    for one in all {
        if one.index != 0 {
            some.push(one)?;
        }
    }
    Ok(some)
}

/// The references of a list. None for another value.
fn references_of(alloc: Global, value: &Value) -> Result<Vec<Reference>, AllocError>
    ensures { IfOk result (λ all. places all.items ≡ listed_places value.now) }
{
    match vlist_of(alloc, value)? {
        Some(all) => referring(alloc, all),
        None => Ok(Vec::new(alloc)),
    }
}

/// How many octets a look counts in addition to the value that it finds, and each reference of the value in addition to
/// its handle.
const LOOK_OCTETS: usize = 32;

/// How many octets more a reference counts here than in `reads` of a table.
const MORE_OCTETS: usize = LOOK_OCTETS - REFERENCE_OCTETS as usize;

/// The result of one look: the references of the list, and how many octets the look counts.
#[derive(Drop)]
pub(crate) struct Looked {
    pub(crate) listed: Vec<Reference>,
    pub(crate) octets: usize,
}

/// How many octets a value counts: those of a table's `reads`, and more for each reference.
fn octets_in(value: &Value) -> usize
    ensures { at_most_u64 (reads.value_octets value.now) ≤ result }
{
    let references = value.references.as_slice().len();
    let octets = value_octets(value) as usize;
    octets.saturating_add(references.saturating_mul(MORE_OCTETS))
}

/// Looks up the value at a reference.
pub(crate) fn list_at<R: Rows>(
    alloc: Global,
    rows: &mut R,
    here: &Reference,
) -> Result<Looked, Refused>
    ensures unchanged { R.content rows.new ≡ R.content rows.old }
    ensures found { IfOk result (λ looked. places looked.listed.items ≡ lists (R.content rows.old) (place_of here.now)) }
    ensures counted { IfOk result (λ looked. 0 < looked.octets) }
    ensures count { AreRefusalsAfter result (R.refused rows.old) (R.refused rows.new) }
    ensures read { IfOk result (λ looked. R.reads rows.new ≤ R.reads rows.old + looked.octets) }
    ensures cost { R.reads rows.new ≤ R.reads rows.old + (CALL_OCTETS + of_value (at (R.content rows.old) (place_of here.now))) }
{
    let Some(value) = rows.at(here)? else {
        return Ok(Looked {
            listed: Vec::new(alloc),
            octets: LOOK_OCTETS,
        });
    };
    Ok(Looked {
        listed: references_of(alloc, &value)?,
        octets: octets_in(&value).saturating_add(LOOK_OCTETS),
    })
}
