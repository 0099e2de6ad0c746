//! The prefixes that a text hosts, and the authorities of their handles.

ghost use Rattle.std.specs.Prelude.{◌≡◌, ◌≤◌, ◌∷◌, ◌++◌, codes, length, map, Contains, IfOk, OnOk};
ghost use Rattle.std.specs.List.{flat_map};
ghost use Rattle.std.specs.Str.Lines.{lines};
ghost use Rattle.hdl_tenants.specs.Lines.{fields_of};
ghost use Rattle.hdl_export.specs.Prefixes.{prefix_named, prefix_given, AreAmong};
ghost use Rattle.hdl_export.specs.Rows as spec;

use std::alloc::{AllocError, Global};

/// The authority of administrative handles, which no text hosts.
pub(crate) const ADMIN_AUTHORITY: &str = "0.na";

/// The fields of a line: what stands between its single spaces.
fn fields_of<'a>(alloc: Global, line: &'a str) -> Result<Vec<&'a str>, AllocError>
    ensures { IfOk result (λ fields. map (λ field. field.now) fields.items ≡ fields_of line.now) }
{
    line.split(' ').collect(alloc)
}

/// Puts the prefix that a line of these fields names, if it names one.
fn put_prefix<'a>(fields: &[&'a str], prefixes: &mut Vec<&'a str>) -> Result<(), AllocError>
    ensures { OnOk result (map (λ p. p.now) prefixes.new.items ≡ map (λ p. p.now) prefixes.old.items ++ prefix_named (map (λ field. field.now) fields.now)) }
{
    if let [word, prefix, ..] = fields {
        if *word == "prefix" {
            prefixes.push(prefix)?;
        }
    }
    Ok(())
}

/// The prefixes that the lines of the text host, in its order, each as often as it stands there.
pub(crate) fn prefixes_of<'a>(alloc: Global, text: &'a str) -> Result<Vec<&'a str>, AllocError>
    ensures { IfOk result (λ all. map (λ p. p.now) all.items ≡ flat_map (λ line. prefix_named (fields_of line)) (lines text.now)) }
{
    let mut prefixes = Vec::new(alloc);
    for line in text.lines() {
        let fields = fields_of(alloc, line)?;
        put_prefix(fields.as_slice(), &mut prefixes)?;
    }
    Ok(prefixes)
}

/// Puts the prefix that a line of these fields gives to the publisher of this name, if it gives it one.
fn put_given<'a>(
    publisher: &str,
    fields: &[&'a str],
    prefixes: &mut Vec<&'a str>,
) -> Result<(), AllocError>
    ensures { OnOk result (map (λ p. p.now) prefixes.new.items ≡ map (λ p. p.now) prefixes.old.items ++ prefix_given publisher.now (map (λ field. field.now) fields.now)) }
{
    if let [word, prefix, name, ..] = fields {
        if *word == "prefix" && *name == publisher {
            prefixes.push(prefix)?;
        }
    }
    Ok(())
}

/// The prefixes that the lines of the text give to the publisher of this name, in its order.
pub(crate) fn prefixes_for<'a>(
    alloc: Global,
    text: &'a str,
    publisher: &str,
) -> Result<Vec<&'a str>, AllocError>
    ensures { IfOk result (λ all. map (λ p. p.now) all.items ≡ flat_map (λ line. prefix_given publisher.now (fields_of line)) (lines text.now)) }
{
    let mut prefixes = Vec::new(alloc);
    for line in text.lines() {
        let fields = fields_of(alloc, line)?;
        put_given(publisher, fields.as_slice(), &mut prefixes)?;
    }
    Ok(prefixes)
}

/// Whether the octets are one of these texts.
pub(crate) fn is_among(octets: &[u8], texts: &[&str]) -> bool
    ensures { result ≡ spec.is_among octets.now (map (λ t. t.now) texts.now) }
{
    texts.iter().any(|text| octets == text.as_bytes())
}

/// Whether the handles of one authority stand before those of the other: each is a name, the authority before a slash.
fn is_before(one: &[u8], other: &[u8]) -> bool {
    for at in 0..one.len().min(other.len()) {
        if one[at] != other[at] {
            return one[at] < other[at];
        }
    }
    if one.len() < other.len() {
        b'/' < other[one.len()]
    } else {
        other.len() < one.len() && one[other.len()] < b'/'
    }
}

/// Where the authority stands among others, so that the handles rise.
fn place_among(authority: &str, others: &[&str]) -> usize
    ensures { result ≤ length others.now }
{
    for at in 0..others.len() {
        if is_before(authority.as_bytes(), others[at].as_bytes()) {
            return at;
        }
    }
    others.len()
}

/// Puts the authority among the others, if it isn't one of them.
fn put_authority<'a>(authority: &'a str, all: &mut Vec<&'a str>) -> Result<(), AllocError>
    ensures among { OnOk result (Contains (map (λ a. a.now) all.new.items) authority.now) }
    ensures kept { OnOk result (AreAmong (map (λ a. a.now) all.old.items) (map (λ a. a.now) all.new.items)) }
{
    if is_among(authority.as_bytes(), all.as_slice()) {
        return Ok(());
    }
    let at = place_among(authority, all.as_slice());
    all.insert(at, authority)?;
    Ok(())
}

/// The authorities of the handles with these prefixes: the prefixes, each once, and that of administrative handles.
pub(crate) fn authorities_of<'a>(
    alloc: Global,
    prefixes: &[&'a str],
) -> Result<Vec<&'a str>, AllocError>
    ensures { IfOk result (λ all. AreAmong (codes "0.na" ∷ map (λ p. p.now) prefixes.now) (map (λ a. a.now) all.items)) }
{
    let mut all = Vec::new(alloc);
    put_authority(ADMIN_AUTHORITY, &mut all)?;
    for prefix in prefixes {
        put_authority(prefix, &mut all)?;
    }
    Ok(all)
}
