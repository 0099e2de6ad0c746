//! References of a value: owned, and in place.

ghost use Rattle.std.specs.Prelude.{◌≡◌, ◌++◌, ◌<◌, ◌^◌, length, IfSome, IfOk, OnOk};
ghost use Rattle.std.specs.List.{AllByRecursion};
ghost use Rattle.std.specs.Option.{option_map};
ghost use Rattle.hdl_value.specs.Spelling.{reference, references, ref_at, refs_at};
ghost use Rattle.hdl_value.specs.Reading.{Reads, many_at, whole_of};
ghost use Rattle.hdl_value.specs.Cut.{ref_view, refs_view, IsWhole};

use crate::fields::{put_string, put_u32, string_at, u32_at};
use hdl_limits::{Items, Octets};
use std::alloc::{AllocError, Global};

/// A reference as it was sent: a handle, which need not be a name, and an index.
#[derive(Drop)]
pub struct RawRef {
    pub handle: Octets,
    pub index: u32,
}

/// The references of a value.
pub type RawRefs = Items<RawRef>;

/// A reference in place.
#[derive(Clone, Copy)]
pub(crate) struct RawReference<'a> {
    pub handle: &'a [u8],
    pub index: u32,
}

/// References in place: their number, and their octets.
#[derive(Clone, Copy)]
pub(crate) struct RawReferences<'a> {
    pub count: u32,
    pub octets: &'a [u8],
}

#[tactic(auto, unfolding(crate::specs::Spelling::ref_at))]
pub(crate) fn reference_at(octets: &[u8]) -> Option<(RawReference<'_>, &[u8])>
    ensures { Reads (λ x. (ref_view x.0, x.1.now)) result (ref_at octets.now) }
{
    let (handle, rest) = string_at(octets)?;
    let (index, rest) = u32_at(rest)?;
    Some((RawReference { handle, index }, rest))
}

/// The octets after `count` references. A count beyond the octets is refused.
fn skip_references(count: u32, octets: &[u8]) -> Option<&[u8]>
    ensures { Reads (λ x. x.now) result (option_map (λ x. x.1) (many_at ref_at count octets.now)) }
{
    let mut rest = octets;
    for _ in 0..count {
        let (_, after) = reference_at(rest)?;
        rest = after;
    }
    Some(rest)
}

fn references_in(count: u32, octets: &[u8]) -> Option<(RawReferences<'_>, &[u8])>
    ensures reads { Reads (λ x. (refs_view x.0, x.1.now)) result (many_at ref_at count octets.now) }
    ensures whole { IfSome result (λ x. IsWhole x.0) }
{
    let rest = skip_references(count, octets)?;
    let (octets, rest) = octets.split_at(octets.len() - rest.len());
    Some((RawReferences { count, octets }, rest))
}

#[tactic(auto, unfolding(crate::specs::Spelling::refs_at, crate::specs::Reading::counted_at))]
pub(crate) fn references_at(octets: &[u8]) -> Option<(RawReferences<'_>, &[u8])>
    ensures reads { Reads (λ x. (refs_view x.0, x.1.now)) result (refs_at octets.now) }
    ensures whole { IfSome result (λ x. IsWhole x.0) }
{
    let (count, rest) = u32_at(octets)?;
    references_in(count, rest)
}

/// Copies the references.
pub(crate) fn copied_references(
    alloc: Global,
    refs: &RawReferences<'_>,
) -> Result<Vec<RawRef>, AllocError>
    requires { IsWhole refs.now }
    ensures { IfOk result (λ v. v.items ≡ refs_view refs.now) }
{
    let mut references = Vec::new(alloc);
    let mut rest = refs.octets;
    for _ in 0..refs.count {
        let Some((reference, after)) = reference_at(rest) else {
            unreachable!()
        };
        let handle = Octets::new(Vec::from_slice(alloc, reference.handle)?);
        let index = reference.index;
        references.push(RawRef { handle, index })?;
        rest = after;
    }
    Ok(references)
}

/// The references, if the octets are a count, that number of references, and nothing else.
#[tactic(auto, unfolding(crate::specs::Reading::whole_of))]
pub fn read_references(alloc: Global, octets: &[u8]) -> Result<Option<Vec<RawRef>>, AllocError>
    ensures { IfOk result (λ o. option_map (λ v. v.items) o ≡ whole_of refs_at octets.now) }
{
    match references_at(octets) {
        Some((refs, rest)) if rest.is_empty() => Ok(Some(copied_references(alloc, &refs)?)),
        _ => Ok(None),
    }
}

fn put_reference(out: &mut Vec<u8>, r: &RawRef) -> Result<(), AllocError>
    requires { length r.now.handle < 2 ^ 32 }
    ensures { OnOk result (out.new.items ≡ out.old.items ++ reference r.now) }
{
    put_string(out, r.handle.as_slice())?;
    put_u32(out, r.index)
}

/// Appends the count and the references. A refusal may leave a part of them.
pub fn put_references(out: &mut Vec<u8>, refs: &[RawRef]) -> Result<(), AllocError>
    requires count { length refs.now < 2 ^ 32 }
    requires handles { AllByRecursion (λ r. length r.handle < 2 ^ 32) refs.now }
    ensures { OnOk result (out.new.items ≡ out.old.items ++ references refs.now) }
{
    put_u32(out, refs.len() as u32)?;
    for r in refs {
        put_reference(out, r)?;
    }
    Ok(())
}
