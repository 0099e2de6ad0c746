//! Handles that stand for other handles.

ghost use Rattle.std.specs.Prelude.{◌≡◌, ◌++◌, IfOk, OnOk, flat_map, option_map, string_bytes};
ghost use Rattle.hdl_proxy.specs.Alias.{IsAliasAmong, IsAliasOf, IsHop, IsHopIf, hop_words, is_among, is_same, way_words};

use crate::answer::CacheControl;
use crate::cache_control::cache_control_of;
use crate::choice::{first_alias, first_gone};
use crate::found::Found;
use crate::names::{read_name, text_of};
use hdl_name::Name;
use hdl_value::Value;
use std::alloc::{AllocError, Global};

/// An alias that is followed: the handle that it names, and how long others may keep the values that it stands among.
#[derive(Drop)]
pub(crate) struct Hop {
    pub(crate) target: Name,
    pub(crate) cache_control: CacheControl,
}

/// The handle that the alias of these values names: that of the lowest index, where it names one.
fn alias_among(alloc: Global, values: &[Value]) -> Result<Option<Name>, AllocError>
    ensures { IfOk result (IsAliasAmong values.now) }
{
    let Some(alias) = first_alias(values) else {
        return Ok(None);
    };
    match read_name(alloc, alias.bytes.as_slice())? {
        Ok(name) => Ok(Some(name)),
        Err(_) => Ok(None),
    }
}

/// The handle that the alias of these values names, unless one of them says that the handle is gone.
fn alias_of(alloc: Global, values: &[Value]) -> Result<Option<Name>, AllocError>
    ensures { IfOk result (IsAliasOf values.now) }
{
    match first_gone(values) {
        Some(_) => Ok(None),
        None => alias_among(alloc, values),
    }
}

/// The alias of these values that is followed, where aliases are.
fn hop_of(alloc: Global, values: &[Value], follows: bool) -> Result<Option<Hop>, AllocError>
    ensures { IfOk result (IsHopIf follows values.now) }
{
    if !follows {
        return Ok(None);
    }
    match alias_of(alloc, values)? {
        Some(target) => Ok(Some(Hop {
            target,
            cache_control: cache_control_of(values),
        })),
        None => Ok(None),
    }
}

/// The alias of what was found that is followed, where aliases are.
pub(crate) fn hop_in(alloc: Global, found: &Found, follows: bool) -> Result<Option<Hop>, AllocError>
    ensures { IfOk result (IsHop follows found.now) }
{
    match found {
        Found::Values(values) => hop_of(alloc, values, follows),
        Found::Refused(_) | Found::Nothing => Ok(None),
    }
}

fn is_same(one: &Name, other: &Name) -> bool
    ensures { result ≡ is_same one.now other.now }
{
    one.canon() == other.canon()
}

/// Whether a handle is among these.
pub(crate) fn is_among(names: &[Name], name: &Name) -> bool
    ensures { result ≡ is_among names.now name.now }
{
    names.iter().any(|one| is_same(one, name))
}

fn put_hop(text: &mut String, alloc: Global, name: &Name) -> Result<(), AllocError>
    ensures { OnOk result (string_bytes text.new ≡ string_bytes text.old ++ hop_words name.now) }
{
    let shown = text_of(alloc, name.sent())?;
    text.push_str(" ")?;
    text.push_str(&shown)?;
    text.push_str(",")
}

fn put_hops(text: &mut String, alloc: Global, names: &[Name]) -> Result<(), AllocError>
    ensures { OnOk result (string_bytes text.new ≡ string_bytes text.old ++ flat_map hop_words names.now) }
{
    for name in names {
        put_hop(text, alloc, name)?;
    }
    Ok(())
}

/// Words before the handles that aliases lead through, this one the last.
pub(crate) fn way_words(
    alloc: Global,
    front: &str,
    names: &[Name],
    target: &Name,
) -> Result<String, AllocError>
    ensures { IfOk result (λ text. string_bytes text ≡ way_words front.now names.now target.now) }
{
    let mut text = String::from_str(alloc, front)?;
    put_hops(&mut text, alloc, names)?;
    let last = text_of(alloc, target.sent())?;
    text.push_str(" ")?;
    text.push_str(&last)?;
    text.push_str(".")?;
    Ok(text)
}
