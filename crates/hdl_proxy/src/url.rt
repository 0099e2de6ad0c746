//! Which URLs a browser is sent to, and how they stand in a Location.

ghost use Rattle.std.specs.Prelude.{◌≡◌, ◌↔◌, ◌∷◌, IsTrue, IfOk, All, option_map};
ghost use Rattle.std.specs.String.{string_bytes};
ghost use Rattle.percent_encoding.specs.Percent.{percent_encode};
ghost use Rattle.hdl_proxy.specs.Url.{Begins, HasFollowedScheme, IsFollowed, IsGraphic, IsSiteAddress, extend, has_path};

use percent_encoding::{AsciiSet, CONTROLS, NON_ALPHANUMERIC, ascii_set, percent_encode};
use std::alloc::{AllocError, Global};

/// What is escaped in a URL that is followed: what isn't graphic ASCII, and quotes and brackets that no URL has.
pub(crate) const IN_LOCATION: AsciiSet = ascii_set!(
    CONTROLS
        .add(b' ')
        .add(b'"')
        .add(b'<')
        .add(b'>')
        .add(b'`')
        .add(b'\\')
);

/// What is escaped in a path: all but letters, digits, `-`, `.`, `_`, `~` and `/`.
pub(crate) const IN_PATH: AsciiSet = ascii_set!(
    NON_ALPHANUMERIC
        .remove(b'-')
        .remove(b'.')
        .remove(b'_')
        .remove(b'~')
        .remove(b'/')
);

/// Whether the URL begins with these octets, in any case of letters.
fn begins(url: &[u8], front: &[u8]) -> bool
    ensures { IsTrue result ↔ Begins url.now front.now }
{
    match url.split_at_checked(front.len()) {
        Some((found, _)) => found.eq_ignore_ascii_case(front),
        None => false,
    }
}

fn has_followed_scheme(url: &[u8]) -> bool
    ensures { IsTrue result ↔ HasFollowedScheme url.now }
{
    begins(url, b"http://")
        || begins(url, b"https://")
        || begins(url, b"ftp://")
        || begins(url, b"mailto:")
        || begins(url, b"doi:")
}

/// Whether a browser may be sent to this URL: whether it begins with `http://`, `https://`, `ftp://`, `mailto:` or `doi:`, and has no
/// control octet. All others, `javascript:` and `data:` among them, are shown and not followed.
pub fn is_followed(url: &[u8]) -> bool
    ensures { IsTrue result ↔ IsFollowed url.now }
{
    has_followed_scheme(url) && url.iter().all(|octet| *octet >= 32 && *octet != 127)
}

/// How many octets a scheme that is followed takes at most, with the colon and the slashes after it.
const SCHEME_MOST: usize = 8;

/// Whether a path has begun in the URL, so that the host stays what it is whatever is appended: a slash follows all that a scheme
/// takes.
fn has_path(url: &[u8]) -> bool
    ensures { result ≡ has_path url.now }
{
    match url.split_at_checked(SCHEME_MOST) {
        Some((_, rest)) => rest.contains(&b'/'),
        None => false,
    }
}

/// The URL with this appended. None where that could change its host.
pub(crate) fn extend(
    alloc: Global,
    url: &[u8],
    append: &[u8],
) -> Result<Option<Vec<u8>>, AllocError>
    ensures { IfOk result (λ o. option_map (λ v. v.items) o ≡ extend url.now append.now) }
{
    if !append.is_empty() && !has_path(url) {
        return Ok(None);
    }
    let mut whole = Vec::from_slice(alloc, url)?;
    whole.extend_from_slice(append)?;
    Ok(Some(whole))
}

/// The URL as it stands in a Location: what isn't graphic ASCII is escaped.
pub fn address(alloc: Global, url: &[u8]) -> Result<String, AllocError>
    ensures spelt { IfOk result (λ text. string_bytes text ≡ percent_encode IN_LOCATION url.now) }
    ensures graphic { IfOk result (λ text. All IsGraphic (string_bytes text)) }
{
    let mut text = String::new(alloc);
    percent_encode(url, IN_LOCATION).append_to(&mut text)?;
    Ok(text)
}

/// A handle's name as it stands in an address: escaped but for its slashes.
pub(crate) fn name_in_address(alloc: Global, name: &[u8]) -> Result<String, AllocError>
    ensures { IfOk result (λ text. string_bytes text ≡ percent_encode IN_PATH name.now) }
{
    let mut text = String::new(alloc);
    percent_encode(name, IN_PATH).append_to(&mut text)?;
    Ok(text)
}

/// Whether this is the address of a site, from its scheme to the slash after its host: `http://` or `https://`, and graphic ASCII with a slash at its end.
pub fn is_site_address(address: &str) -> bool
    ensures { IsTrue result ↔ IsSiteAddress address.now }
{
    let octets = address.as_bytes();
    (begins(octets, b"http://") || begins(octets, b"https://"))
        && octets.ends_with(b"/")
        && octets.iter().all(|octet| *octet >= 33 && *octet <= 126)
}

/// The path of a handle's own address: `/` and the name, escaped but for its slashes.
pub fn path_of(alloc: Global, name: &[u8]) -> Result<String, AllocError>
    ensures spelt { IfOk result (λ text. string_bytes text ≡ 47 ∷ percent_encode IN_PATH name.now) }
    ensures graphic { IfOk result (λ text. All IsGraphic (string_bytes text)) }
{
    let mut text = String::from_str(alloc, "/")?;
    percent_encode(name, IN_PATH).append_to(&mut text)?;
    Ok(text)
}
