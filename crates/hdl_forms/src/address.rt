//! Names as readers paste them, and addresses of this site.

ghost use Rattle.std.specs.Prelude.{◌≡◌, ◌↔◌, IfOk, IsTrue, option_copied};
ghost use Rattle.percent_encoding.specs.Percent.{percent_decode};
ghost use Rattle.hdl_value.specs.Reading.{Reads};
ghost use Rattle.hdl_proxy.specs.Url.{Begins};
ghost use Rattle.hdl_forms.specs.Address.{IsAddress, LeadsBack, behind, behind_scheme, host_in, own_host, path_at, up_to};

use hdl_name::Name;
use hdl_proxy::read_name;
use hdl_value_lines::cut_at;
use percent_encoding::percent_decode;
use std::alloc::{AllocError, Global};

/// Whether a name begins as an address or as an identifier does that a reader pastes.
pub(crate) fn is_address(name: &[u8]) -> bool
    ensures { IsTrue result ↔ IsAddress name.now }
{
    begins(name, b"http://")
        || begins(name, b"https://")
        || begins(name, b"hdl:")
        || begins(name, b"doi:")
}

/// Whether a text begins so, in any case of letters.
fn begins(text: &[u8], front: &[u8]) -> bool
    ensures { IsTrue result ↔ Begins text.now front.now }
{
    match text.split_at_checked(front.len()) {
        Some((found, _)) => found.eq_ignore_ascii_case(front),
        None => false,
    }
}

/// What follows this front in a text, in any case of letters.
fn behind<'a>(front: &[u8], text: &'a [u8]) -> Option<&'a [u8]>
    ensures { Reads (λ rest. rest.now) result (behind front.now text.now) }
{
    match text.split_at_checked(front.len()) {
        Some((found, rest)) if found.eq_ignore_ascii_case(front) => Some(rest),
        _ => None,
    }
}

/// What follows the scheme of an address.
fn behind_scheme(text: &[u8]) -> Option<&[u8]>
    ensures { Reads (λ rest. rest.now) result (behind_scheme text.now) }
{
    match behind(b"https://", text) {
        Some(rest) => Some(rest),
        None => behind(b"http://", text),
    }
}

/// A text up to the first of these octets.
fn up_to(stop: u8, text: &[u8]) -> &[u8]
    ensures { result.now ≡ up_to stop text.now }
{
    match cut_at(text, stop) {
        Some((front, _)) => front,
        None => text,
    }
}

/// The path of an address at this host, without what follows a `?` or a `#`.
#[tactic(auto, unfolding(crate::specs::Address::path_at))]
pub(crate) fn path_at<'a>(host: &[u8], text: &'a [u8]) -> Option<&'a [u8]>
    ensures { Reads (λ path. path.now) result (path_at host.now text.now) }
{
    let rest = behind_scheme(text)?;
    let path = behind(host, rest)?;
    Some(up_to(b'?', up_to(b'#', path)))
}

/// The octets that a path stands for: its escapes are read once.
pub(crate) fn decoded(alloc: Global, path: &[u8]) -> Result<Vec<u8>, AllocError>
    ensures { IfOk result (λ octets. octets.items ≡ percent_decode path.now) }
{
    let mut octets = Vec::new(alloc);
    percent_decode(path).append_to(&mut octets)?;
    Ok(octets)
}

/// Whether a text is an address of this handle at this host.
pub(crate) fn leads_back(
    alloc: Global,
    host: &[u8],
    name: &Name,
    text: &[u8],
) -> Result<bool, AllocError>
    ensures { IfOk result (λ back. IsTrue back ↔ LeadsBack host.now name.now text.now) }
{
    let Some(path) = path_at(host, text) else {
        return Ok(false);
    };
    let octets = decoded(alloc, path)?;
    match read_name(alloc, &octets)? {
        Ok(named) => Ok(named.canon() == name.canon()),
        Err(_) => Ok(false),
    }
}

/// What follows the scheme of the site's own address, if it has one.
fn host_in(address: Option<&str>) -> Option<&[u8]>
    ensures { Reads (λ rest. rest.now) result (host_in (option_copied address.entry)) }
{
    behind_scheme(address?.as_bytes())
}

/// The host of this site, and what follows it up to its handles: of the site's own address, or else the host that a request names.
pub fn own_host(
    alloc: Global,
    address: Option<&str>,
    host: Option<&[u8]>,
) -> Result<Vec<u8>, AllocError>
    ensures { IfOk result (λ own. own.items ≡ own_host (option_copied address.entry) (option_copied host.entry)) }
{
    if let Some(own) = host_in(address) {
        return Vec::from_slice(alloc, own);
    }
    let mut own = Vec::from_slice(alloc, host.unwrap_or(b""))?;
    own.push(b'/')?;
    Ok(own)
}
