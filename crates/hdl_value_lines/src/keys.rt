//! References in words, by which a key is named.

ghost use Rattle.std.specs.Prelude.{◌≡◌, ℕ, ◌<◌, IfSome, MatchOption};
ghost use Rattle.hdl_name.specs.Name.{IsHandle};
ghost use Rattle.hdl_value_lines.specs.Fields.{IsIndexOf, IsReferenceOf};

use hdl_name::is_name;

/// The index, from 1 on, that decimal digits spell: leading zeros are allowed, and no sign.
pub fn index_in(digits: &str) -> Option<u32>
    ensures index { MatchOption result ((index : ℕ) → ¬ IsIndexOf digits.now index) (IsIndexOf digits.now) }
{
    if digits.starts_with('+') {
        return None;
    }
    match digits.parse::<u32>() {
        Ok(index) if index > 0 => Some(index),
        _ => None,
    }
}

/// The reference, where its handle is a name.
fn reference_named(index: u32, handle: &str) -> Option<(u32, &str)>
    ensures reference { IfSome result (λ r. (r.0 ≡ index) × (r.1.now ≡ handle.now) × IsHandle handle.now) }
{
    if !is_name(handle.as_bytes()) {
        return None;
    }
    Some((index, handle))
}

/// The index and the handle of a reference: `INDEX:HANDLE` as the Handle.Net tools write it, or `HANDLE:INDEX`. The octets before the
/// first colon are the index where they are digits. None where it is neither, or the handle is no name.
pub fn read_reference(words: &str) -> Option<(u32, &str)>
    ensures reference { IfSome result (λ r. IsReferenceOf words.now r.0 r.1.now) }
{
    if let Some((index, handle)) = words.split_once(':') {
        if let Some(index) = index_in(index) {
            return reference_named(index, handle);
        }
    }
    let (handle, index) = words.rsplit_once(':')?;
    reference_named(index_in(index)?, handle)
}
