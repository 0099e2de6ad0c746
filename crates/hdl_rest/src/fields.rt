//! What the members of a value in JSON say.

ghost use Rattle.std.specs.Prelude.{◌≡◌, option_map, option_copied};
ghost use Rattle.hdl_value.specs.Reading.{Reads};
ghost use Rattle.serde_json.specs.View.{view};
ghost use Rattle.hdl_rest.specs.Fields.{number_in_json, number_of, text_of, ttl_in_json, permissions_in_json};

use hdl_proxy::usual_permissions;
use hdl_value_lines::{number_in, permissions_in};
use serde_json::Value as Json;

/// How many seconds a value may be kept where nothing is said of it: a day.
const DAY_SECONDS: u32 = 86_400;

/// The number below 2^32 that is meant: a number, or the text of its decimal digits without a leading zero.
fn number_in_json(json: &Json) -> Option<u32>
    ensures { result ≡ number_in_json (view json.now) }
{
    if let Some(number) = json.as_u64() {
        return u32::try_from(number).ok();
    }
    number_in(json.as_str()?.as_bytes())
}

/// A member that is a number.
pub(crate) fn number_of(json: &Json, key: &str) -> Option<u32>
    ensures { result ≡ number_of key.now (view json.now) }
{
    number_in_json(json.get(key)?)
}

/// A member that is text.
pub(crate) fn text_of<'a>(json: &'a Json, key: &str) -> Option<&'a str>
    ensures { Reads (λ t. t.now) result (text_of key.now (view json.now)) }
{
    json.get(key)?.as_str()
}

/// For how many seconds a value may be kept: a day where nothing is said.
pub(crate) fn ttl_in_json(json: Option<&Json>) -> Option<u32>
    ensures { result ≡ ttl_in_json (option_map view (option_copied json.entry)) }
{
    match json {
        Some(told) => number_in_json(told),
        None => Some(DAY_SECONDS),
    }
}

/// The permissions of a value of this type: four digits, administrator reads, administrator writes, everyone reads, everyone writes.
pub(crate) fn permissions_in_json(kind: &[u8], json: Option<&Json>) -> Option<u8>
    ensures { result ≡ permissions_in_json kind.now (option_map view (option_copied json.entry)) }
{
    match json {
        Some(told) => permissions_in(told.as_str()?.as_bytes()),
        None => Some(usual_permissions(kind)),
    }
}
