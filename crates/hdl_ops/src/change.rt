//! Changes of the table.

ghost use Rattle.std.specs.Prelude.{◌≡◌, map, OnOk, OnErr};
ghost use Rattle.hdl_rows.specs.Table.{indexes, refusals_after};
ghost use Rattle.hdl_ops.specs.Tables.{apply, with_timestamp, CanApply};

use hdl_limits::Items;
use hdl_name::Name;
use hdl_rows::{Provenance, Refused, Rows};
use hdl_value::Value;

/// One write of the table. A name stands for its canonical form.
#[derive(Drop)]
pub enum Change {
    Create { name: Name, values: Items<Value> },
    Delete { name: Name },
    Add { name: Name, values: Items<Value> },
    Remove { name: Name, indexes: Items<u32> },
    Modify { name: Name, values: Items<Value> },
}

fn with_moment(mut values: Vec<Value>, moment: u64) -> Vec<Value>
    ensures { result.items ≡ map (with_timestamp moment) values.items }
{
    for value in values.iter_mut() {
        value.timestamp = moment;
    }
    values
}

/// The values with the moment of their write.
fn stamp(values: Items<Value>, moment: u64) -> Vec<Value>
    ensures stamped { result.items ≡ map (with_timestamp moment) values }
    ensures indexes { indexes result.items ≡ indexes values }
{
    with_moment(values.into_vec(), moment)
}

/// Does the change. The moment of its provenance becomes the timestamp of each value that is written. Refused: the table is
/// as it was.
pub fn apply<R: Rows>(
    rows: &mut R,
    change: Change,
    provenance: &Provenance<'_>,
) -> Result<(), Refused>
    requires can_apply { CanApply (R.content rows.old) change }
    ensures done { OnOk result (R.content rows.new ≡ apply (R.content rows.old) provenance.now.moment change) }
    ensures undone { OnErr result (R.content rows.new ≡ R.content rows.old) }
    ensures count { R.refused rows.new ≡ refusals_after result (R.refused rows.old) }
    ensures reads { R.reads rows.new ≡ R.reads rows.old }
{
    let moment = provenance.moment;
    match change {
        Change::Create { name, values } => rows.create(&name, &stamp(values, moment), provenance),
        Change::Delete { name } => rows.delete(&name, provenance),
        Change::Add { name, values } => rows.add(&name, &stamp(values, moment), provenance),
        Change::Remove { name, indexes } => rows.remove(&name, indexes.as_slice(), provenance),
        Change::Modify { name, values } => rows.modify(&name, &stamp(values, moment), provenance),
    }
}
