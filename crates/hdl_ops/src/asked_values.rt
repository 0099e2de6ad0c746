//! What a resolution asks for, and the classes of values.

ghost use Rattle.std.specs.Prelude.{◌≡◌, ◌==◌, length};
ghost use Rattle.std.specs.List.{list_any};
ghost use Rattle.hdl_value.specs.Permission.{is_public, is_kept};
ghost use Rattle.hdl_value.specs.Refs.{is_admin};
ghost use Rattle.hdl_msg.specs.Views.{operation_of, numbers_of, strings_of};
ghost use Rattle.hdl_ops.specs.TableViews.{matches, is_named, asks, passes_at};

use hdl_msg::{Body, Numbers, Strings};
use hdl_rows::value_with;
use hdl_value::{Class, Value};

/// A listed type matches the type of a value.
#[tactic(auto, unfolding(crate::specs::TableViews::matches))]
fn matches(listed: &[u8], kind: &[u8]) -> bool
    ensures { result ≡ matches listed.now kind.now }
{
    listed == kind || listed.ends_with(b".") && kind.starts_with(listed)
}

pub(crate) fn lists_index(mut indexes: Numbers<'_>, index: u32) -> bool
    ensures { result ≡ list_any (λ i. i == index) (numbers_of indexes.entry) }
{
    indexes.any(|i| i == index)
}

fn lists_type(mut types: Strings<'_>, kind: &[u8]) -> bool
    ensures { result ≡ list_any (λ t. matches t kind.now) (strings_of types.entry) }
{
    types.any(|listed| matches(listed, kind))
}

fn has_no_index(mut indexes: Numbers<'_>) -> bool
    ensures { result ≡ (length (numbers_of indexes.entry) == 0) }
{
    indexes.next().is_none()
}

fn has_no_type(mut types: Strings<'_>) -> bool
    ensures { result ≡ (length (strings_of types.entry) == 0) }
{
    types.next().is_none()
}

#[tactic(auto, unfolding(crate::specs::TableViews::is_named))]
fn is_named(indexes: Numbers<'_>, types: Strings<'_>, value: &Value) -> bool
    ensures { result ≡ is_named (numbers_of indexes.entry) (strings_of types.entry) value.now }
{
    has_no_index(indexes) && has_no_type(types)
        || lists_index(indexes, value.index)
        || lists_type(types, value.kind.as_slice())
}

/// A resolution asks for the value.
pub(crate) fn asks(body: &Body<'_>, value: &Value) -> bool
    ensures { result ≡ asks (operation_of body.now) value.now }
{
    match body {
        Body::Resolution { indexes, types, .. } => is_named(*indexes, *types, value),
        _ => false,
    }
}

pub(crate) fn is_public(value: &Value) -> bool
    ensures { result ≡ is_public value.now }
{
    value.class() == Class::Public
}

pub(crate) fn is_kept(value: &Value) -> bool
    ensures { result ≡ is_kept value.now }
{
    value.class() == Class::Kept
}

/// The value of this index is there, and is an HS_ADMIN value.
pub(crate) fn is_admin_at(values: &[Value], index: u32) -> bool
    ensures { result ≡ passes_at is_admin values.now index }
{
    match value_with(values, index) {
        Some(value) => value.is_admin(),
        None => false,
    }
}
