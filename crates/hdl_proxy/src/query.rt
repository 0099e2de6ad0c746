//! What the query of an address says.

ghost use Rattle.std.specs.Prelude.{◌≡◌, IfOk, codes, map, option_map, option_copied, string_bytes};
ghost use Rattle.hdl_proxy.specs.Query.{AreIndexes, IsAppended, IsLast, IsLocatt, has_pair, pairs_of, texts_of, values_named};

use hdl_limits::Octets;
use std::alloc::{AllocError, Global};

/// A name and its value, as the query means them.
pub type Pair = (String, String);

/// The pairs of a query, in their order.
pub fn read_pairs(alloc: Global, query: &str) -> Result<Vec<Pair>, AllocError>
    ensures { IfOk result (λ pairs. texts_of pairs.items ≡ pairs_of query.now) }
{
    let mut pairs = Vec::new(alloc);
    for pair in form_urlencoded::parse(alloc, query.as_bytes()).into_owned() {
        pairs.push(pair?)?;
    }
    Ok(pairs)
}

/// Whether there is a pair of this name.
pub fn has_pair(pairs: &[Pair], name: &str) -> bool
    ensures { result ≡ has_pair name.now (texts_of pairs.now) }
{
    for pair in pairs {
        if pair.0.as_str() == name {
            return true;
        }
    }
    false
}

/// The values of the pairs of this name, in their order.
pub fn values_named<'a>(
    alloc: Global,
    pairs: &'a [Pair],
    name: &str,
) -> Result<Vec<&'a str>, AllocError>
    ensures { IfOk result (λ values. map (λ value. value.now) values.items ≡ values_named name.now (texts_of pairs.now)) }
{
    let mut values = Vec::new(alloc);
    for pair in pairs {
        if pair.0.as_str() == name {
            values.push(pair.1.as_str())?;
        }
    }
    Ok(values)
}

/// The last value of this name, if there is one.
pub fn last_named<'a>(
    alloc: Global,
    pairs: &'a [Pair],
    name: &str,
) -> Result<Option<&'a str>, AllocError>
    ensures { IfOk result (λ last. IsLast (values_named name.now (texts_of pairs.now)) (option_copied last)) }
{
    let mut values = values_named(alloc, pairs, name)?;
    Ok(values.pop())
}

/// What is to be appended to the URL that is followed; empty if the query doesn't say.
pub(crate) fn text_to_append(alloc: Global, pairs: &[Pair]) -> Result<Vec<u8>, AllocError>
    ensures { IfOk result (λ append. IsAppended (texts_of pairs.now) append.items) }
{
    match last_named(alloc, pairs, "urlappend")? {
        Some(text) => Vec::from_slice(alloc, text.as_bytes()),
        None => Ok(Vec::new(alloc)),
    }
}

/// Which of several locations is asked for; empty if the query doesn't say.
pub(crate) fn location_asked(alloc: Global, pairs: &[Pair]) -> Result<String, AllocError>
    ensures { IfOk result (λ locatt. IsLocatt (texts_of pairs.now) (string_bytes locatt)) }
{
    match last_named(alloc, pairs, "locatt")? {
        Some(text) => String::from_str(alloc, text),
        None => Ok(String::new(alloc)),
    }
}

/// The types that are asked for.
pub fn types_of(alloc: Global, pairs: &[Pair]) -> Result<Vec<Octets>, AllocError>
    ensures { IfOk result (λ types. types.items ≡ values_named (codes "type") (texts_of pairs.now)) }
{
    let values = values_named(alloc, pairs, "type")?;
    let mut types = Vec::new(alloc);
    for text in &values {
        types.push(Octets::new(Vec::from_slice(alloc, text.as_bytes())?))?;
    }
    Ok(types)
}

/// The indexes that are asked for. None just where one of them is no number below 4,294,967,296.
pub fn indexes_of(alloc: Global, pairs: &[Pair]) -> Result<Option<Vec<u32>>, AllocError>
    ensures { IfOk result (AreIndexes (values_named (codes "index") (texts_of pairs.now))) }
{
    let values = values_named(alloc, pairs, "index")?;
    let mut indexes = Vec::new(alloc);
    for text in &values {
        match text.parse::<u32>() {
            Ok(index) => indexes.push(index)?,
            Err(_) => return Ok(None),
        }
    }
    Ok(Some(indexes))
}
