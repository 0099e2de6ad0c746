//! How many octets values have.

use hdl_rows::value_with;
use hdl_value::Value;

/// The octets of a value that vary: those of its type, its data, and the handles of its references.
fn octets_of(value: &Value) -> usize {
    let fixed = value
        .kind
        .as_slice()
        .len()
        .saturating_add(value.bytes.as_slice().len());
    value
        .references
        .as_slice()
        .iter()
        .fold(fixed, |sum, reference| {
            sum.saturating_add(reference.handle.as_slice().len())
        })
}

/// Whether values have no more octets than those that they replace, and no more references.
pub(crate) fn takes_no_more(held: &[Value], values: &[Value]) -> bool {
    for value in values {
        let Some(old) = value_with(held, value.index) else {
            return false;
        };
        let has_more = value.references.as_slice().len() > old.references.as_slice().len();
        if has_more || octets_of(value) > octets_of(old) {
            return false;
        }
    }
    true
}
