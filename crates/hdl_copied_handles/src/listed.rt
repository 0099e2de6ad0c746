//! A handle of a list, where it leads for anybody, and whether it is gone.

ghost use Rattle.std.specs.Prelude.{◌≡◌, IfOk};
ghost use Rattle.hdl_copied_handles.specs.Listed.{is_gone, is_public_gone, is_public_url, listed_of, public_url};

use hdl_limits::Octets;
use std::alloc::{AllocError, Global};

/// What a value that is read says of its handle.
#[derive(Clone, Copy, PartialEq, Eq)]
pub(crate) enum CopiedKind {
    /// Where it leads.
    Url,
    /// That it is gone.
    Gone,
}

/// A URL of a handle, or that it is gone.
#[derive(Drop)]
pub(crate) struct CopiedValue {
    pub(crate) kind: CopiedKind,
    /// Whether anybody may read it.
    pub(crate) is_public: bool,
    pub(crate) octets: Octets,
}

/// A handle, the URL to which it leads for anybody, which is empty if it leads to none, and whether anybody may read that it is gone.
#[derive(Drop)]
pub struct ListedHandle {
    pub name: Octets,
    pub url: Octets,
    pub is_gone: bool,
}

fn is_public_url(value: &CopiedValue) -> bool
    ensures { result ≡ is_public_url value.now }
{
    value.is_public && matches!(value.kind, CopiedKind::Url)
}

fn is_public_gone(value: &CopiedValue) -> bool
    ensures { result ≡ is_public_gone value.now }
{
    value.is_public && matches!(value.kind, CopiedKind::Gone)
}

/// The first URL of these that anybody may read, or nothing.
fn public_url(values: &[CopiedValue]) -> &[u8]
    ensures { result.now ≡ public_url values.now }
{
    for value in values {
        if is_public_url(value) {
            return value.octets.as_slice();
        }
    }
    &[]
}

/// Whether one of these says that the handle is gone, and anybody may read it.
fn is_gone(values: &[CopiedValue]) -> bool
    ensures { result ≡ is_gone values.now }
{
    values.iter().any(|value| is_public_gone(value))
}

/// A copy of these octets.
pub(crate) fn copy(alloc: Global, octets: &[u8]) -> Result<Octets, AllocError>
    ensures { IfOk result (λ copy. copy ≡ octets.now) }
{
    Ok(Octets::new(Vec::from_slice(alloc, octets)?))
}

/// The handle of this name, of which these values were read, by rising indexes.
pub(crate) fn listed(
    alloc: Global,
    name: &[u8],
    values: &[CopiedValue],
) -> Result<ListedHandle, AllocError>
    ensures { IfOk result (λ listed. listed ≡ listed_of name.now values.now) }
{
    Ok(ListedHandle {
        name: copy(alloc, name)?,
        url: copy(alloc, public_url(values))?,
        is_gone: is_gone(values),
    })
}
