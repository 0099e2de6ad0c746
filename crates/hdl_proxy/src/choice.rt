//! Which values are shown, and which one leads on.

ghost use Rattle.std.specs.Prelude.{◌≡◌, codes, option_copied};
ghost use Rattle.hdl_proxy.specs.Choice.{is_shown, is_of, is_url, is_chosen, comes_first, IsFirstOf, IsFirstUrl};

use hdl_value::{HS_ALIAS, HS_GONE, LOCATIONS, Permission, URL, Value};

/// Whether a value is shown: everyone may read it, and it is no key.
pub fn is_shown(value: &Value) -> bool
    ensures { result ≡ is_shown value.now }
{
    value.permits(Permission::PublicRead) && !value.is_secret_key()
}

/// Whether a value is of this type.
pub(crate) fn is_of(kind: &[u8], value: &Value) -> bool
    ensures { result ≡ is_of kind.now value.now }
{
    value.kind.as_slice() == kind
}

/// Whether a value is a URL, by its type.
pub(crate) fn is_url(value: &Value) -> bool
    ensures { result ≡ is_url value.now }
{
    is_of(URL, value)
}

/// Whether a value names another handle, by its type.
pub(crate) fn is_alias(value: &Value) -> bool
    ensures { result ≡ is_of (codes "HS_ALIAS") value.now }
{
    is_of(HS_ALIAS, value)
}

/// Whether a value comes before the one that was chosen so far, if one was.
fn comes_first(value: &Value, chosen: Option<&Value>) -> bool
    ensures { result ≡ comes_first value.now (option_copied chosen.entry) }
{
    match chosen {
        Some(first) => value.index < first.index,
        None => true,
    }
}

/// Whether a value of this type is chosen in the place of the one that was so far, if one was.
fn is_chosen(kind: &[u8], value: &Value, chosen: Option<&Value>) -> bool
    ensures { result ≡ is_chosen kind.now value.now (option_copied chosen.entry) }
{
    is_of(kind, value) && comes_first(value, chosen)
}

/// The value of this type of the lowest index: of these, since a server may send them in any order.
fn first_of<'a>(kind: &[u8], values: &'a [Value]) -> Option<&'a Value>
    ensures { IsFirstOf kind.now values.now (option_copied result) }
{
    let mut chosen: Option<&Value> = None;
    for value in values {
        if is_chosen(kind, value, chosen) {
            chosen = Some(value);
        }
    }
    chosen
}

/// The URL value of the lowest index.
pub fn first_url(values: &[Value]) -> Option<&Value>
    ensures { IsFirstUrl values.now (option_copied result) }
{
    first_of(URL, values)
}

/// The locations of the lowest index.
pub(crate) fn first_place(values: &[Value]) -> Option<&Value>
    ensures { IsFirstOf (codes "10320/loc") values.now (option_copied result) }
{
    first_of(LOCATIONS, values)
}

/// The alias of the lowest index.
pub(crate) fn first_alias(values: &[Value]) -> Option<&Value>
    ensures { IsFirstOf (codes "HS_ALIAS") values.now (option_copied result) }
{
    first_of(HS_ALIAS, values)
}

/// The value of the lowest index that says that the handle is gone.
pub(crate) fn first_gone(values: &[Value]) -> Option<&Value>
    ensures { IsFirstOf (codes "HS_GONE") values.now (option_copied result) }
{
    first_of(HS_GONE, values)
}
