//! Reading a site.

ghost use Rattle.std.specs.Prelude.{◌≡◌, IfOk};
ghost use Rattle.hdl_value.specs.Reading.{Reads, many_at, whole_of, octets_at};
ghost use Rattle.hdl_site.specs.Info.{interface_at, interfaces_at, attribute_at, attributes_at, identity_at, server_at, servers_at, head_at, site_at};
ghost use Rattle.hdl_site.specs.Raw.{identity_view, head_view};

use crate::info::{Attribute, Interface, SiteInfo, SiteServer};
use hdl_limits::{Items, Octets};
use hdl_value::{octet_at, string_at, u16_at, u32_at};
use std::alloc::{AllocError, Global};

#[tactic(auto, unfolding(crate::specs::Info::interface_at))]
fn interface_at(octets: &[u8]) -> Option<(Interface, &[u8])>
    ensures { Reads (λ x. (x.0, x.1.now)) result (interface_at octets.now) }
{
    let (serves, rest) = octet_at(octets)?;
    let (protocol, rest) = octet_at(rest)?;
    let (port, rest) = u32_at(rest)?;
    let interface = Interface {
        serves,
        protocol,
        port,
    };
    Some((interface, rest))
}

/// So many interfaces, one after the other.
fn interfaces_in(
    alloc: Global,
    count: u32,
    octets: &[u8],
) -> Result<Option<(Vec<Interface>, &[u8])>, AllocError>
    ensures { IfOk result (λ read. Reads (λ x. (x.0.items, x.1.now)) read (many_at interface_at count octets.now)) }
{
    let mut interfaces = Vec::new(alloc);
    let mut rest = octets;
    for _ in 0..count {
        let Some((interface, after)) = interface_at(rest) else {
            return Ok(None);
        };
        interfaces.push(interface)?;
        rest = after;
    }
    Ok(Some((interfaces, rest)))
}

#[tactic(auto, unfolding(crate::specs::Info::interfaces_at, hdl_value::specs::Reading::counted_at))]
fn interfaces_at(
    alloc: Global,
    octets: &[u8],
) -> Result<Option<(Vec<Interface>, &[u8])>, AllocError>
    ensures { IfOk result (λ read. Reads (λ x. (x.0.items, x.1.now)) read (interfaces_at octets.now)) }
{
    match u32_at(octets) {
        Some((count, rest)) => interfaces_in(alloc, count, rest),
        None => Ok(None),
    }
}

/// The name and the text of an attribute, where they stand.
#[tactic(auto, unfolding(crate::specs::Info::attribute_at))]
fn strings_at(octets: &[u8]) -> Option<(&[u8], &[u8], &[u8])>
    ensures { Reads (λ x. (record { name = x.0.now; text = x.1.now }, x.2.now)) result (attribute_at octets.now) }
{
    let (name, rest) = string_at(octets)?;
    let (text, rest) = string_at(rest)?;
    Some((name, text, rest))
}

fn attribute_of(alloc: Global, name: &[u8], text: &[u8]) -> Result<Attribute, AllocError>
    ensures { IfOk result (λ a. a ≡ record { name = name.now; text = text.now }) }
{
    Ok(Attribute {
        name: Octets::new(Vec::from_slice(alloc, name)?),
        text: Octets::new(Vec::from_slice(alloc, text)?),
    })
}

/// So many attributes, one after the other.
fn attributes_in(
    alloc: Global,
    count: u32,
    octets: &[u8],
) -> Result<Option<(Vec<Attribute>, &[u8])>, AllocError>
    ensures { IfOk result (λ read. Reads (λ x. (x.0.items, x.1.now)) read (many_at attribute_at count octets.now)) }
{
    let mut attributes = Vec::new(alloc);
    let mut rest = octets;
    for _ in 0..count {
        let Some((name, text, after)) = strings_at(rest) else {
            return Ok(None);
        };
        let attribute = attribute_of(alloc, name, text)?;
        attributes.push(attribute)?;
        rest = after;
    }
    Ok(Some((attributes, rest)))
}

#[tactic(auto, unfolding(crate::specs::Info::attributes_at, hdl_value::specs::Reading::counted_at))]
fn attributes_at(
    alloc: Global,
    octets: &[u8],
) -> Result<Option<(Vec<Attribute>, &[u8])>, AllocError>
    ensures { IfOk result (λ read. Reads (λ x. (x.0.items, x.1.now)) read (attributes_at octets.now)) }
{
    match u32_at(octets) {
        Some((count, rest)) => attributes_in(alloc, count, rest),
        None => Ok(None),
    }
}

fn address_at(octets: &[u8]) -> Option<([u8; 16], &[u8])>
    ensures { Reads (λ x. (x.0, x.1.now)) result (octets_at 16 octets.now) }
{
    let (front, rest) = octets.split_first_chunk::<16>()?;
    Some((*front, rest))
}

/// The number, the address and the public key of a server, where they stand.
#[derive(Clone, Copy)]
struct RawIdentity<'a> {
    number: u32,
    address: [u8; 16],
    key: &'a [u8],
}

#[tactic(auto, unfolding(crate::specs::Info::identity_at))]
fn identity_at(octets: &[u8]) -> Option<(RawIdentity<'_>, &[u8])>
    ensures { Reads (λ x. (identity_view x.0, x.1.now)) result (identity_at octets.now) }
{
    let (number, rest) = u32_at(octets)?;
    let (address, rest) = address_at(rest)?;
    let (key, rest) = string_at(rest)?;
    let identity = RawIdentity {
        number,
        address,
        key,
    };
    Some((identity, rest))
}

#[tactic(auto, unfolding(crate::specs::Info::server_at))]
fn server_at(alloc: Global, octets: &[u8]) -> Result<Option<(SiteServer, &[u8])>, AllocError>
    ensures { IfOk result (λ read. Reads (λ x. (x.0, x.1.now)) read (server_at octets.now)) }
{
    let Some((identity, rest)) = identity_at(octets) else {
        return Ok(None);
    };
    let Some((interfaces, rest)) = interfaces_at(alloc, rest)? else {
        return Ok(None);
    };
    let address = identity.address;
    let server = SiteServer {
        number: identity.number,
        address,
        key: Octets::new(Vec::from_slice(alloc, identity.key)?),
        interfaces: Items::new(interfaces),
    };
    Ok(Some((server, rest)))
}

/// So many servers, one after the other.
fn servers_in(
    alloc: Global,
    count: u32,
    octets: &[u8],
) -> Result<Option<(Vec<SiteServer>, &[u8])>, AllocError>
    ensures { IfOk result (λ read. Reads (λ x. (x.0.items, x.1.now)) read (many_at server_at count octets.now)) }
{
    let mut servers = Vec::new(alloc);
    let mut rest = octets;
    for _ in 0..count {
        let Some((server, after)) = server_at(alloc, rest)? else {
            return Ok(None);
        };
        servers.push(server)?;
        rest = after;
    }
    Ok(Some((servers, rest)))
}

#[tactic(auto, unfolding(crate::specs::Info::servers_at, hdl_value::specs::Reading::counted_at))]
fn servers_at(alloc: Global, octets: &[u8]) -> Result<Option<(Vec<SiteServer>, &[u8])>, AllocError>
    ensures { IfOk result (λ read. Reads (λ x. (x.0.items, x.1.now)) read (servers_at octets.now)) }
{
    match u32_at(octets) {
        Some((count, rest)) => servers_in(alloc, count, rest),
        None => Ok(None),
    }
}

/// The head of a site, where it stands.
#[derive(Clone, Copy)]
struct RawHead<'a> {
    form: u16,
    major: u8,
    minor: u8,
    serial: u16,
    primary: u8,
    hash_option: u8,
    hash_filter: &'a [u8],
}

#[tactic(auto, unfolding(crate::specs::Info::head_at))]
fn head_at(octets: &[u8]) -> Option<(RawHead<'_>, &[u8])>
    ensures { Reads (λ x. (head_view x.0, x.1.now)) result (head_at octets.now) }
{
    let (form, rest) = u16_at(octets)?;
    let (major, rest) = octet_at(rest)?;
    let (minor, rest) = octet_at(rest)?;
    let (serial, rest) = u16_at(rest)?;
    let (primary, rest) = octet_at(rest)?;
    let (hash_option, rest) = octet_at(rest)?;
    let (hash_filter, rest) = string_at(rest)?;
    let head = RawHead {
        form,
        major,
        minor,
        serial,
        primary,
        hash_option,
        hash_filter,
    };
    Some((head, rest))
}

#[tactic(auto, unfolding(crate::specs::Info::site_at))]
fn site_at(alloc: Global, octets: &[u8]) -> Result<Option<(SiteInfo, &[u8])>, AllocError>
    ensures { IfOk result (λ read. Reads (λ x. (x.0, x.1.now)) read (site_at octets.now)) }
{
    let Some((head, rest)) = head_at(octets) else {
        return Ok(None);
    };
    let Some((attributes, rest)) = attributes_at(alloc, rest)? else {
        return Ok(None);
    };
    let Some((servers, rest)) = servers_at(alloc, rest)? else {
        return Ok(None);
    };
    let site = SiteInfo {
        form: head.form,
        major: head.major,
        minor: head.minor,
        serial: head.serial,
        primary: head.primary,
        hash_option: head.hash_option,
        hash_filter: Octets::new(Vec::from_slice(alloc, head.hash_filter)?),
        attributes: Items::new(attributes),
        servers: Items::new(servers),
    };
    Ok(Some((site, rest)))
}

/// The site that the octets say, all of them. None where they say none: a length or a count that lies ends where the octets do. Any
/// numbers are good here.
pub fn read_site(alloc: Global, octets: &[u8]) -> Result<Option<SiteInfo>, AllocError>
    ensures { IfOk result (λ read. read ≡ whole_of site_at octets.now) }
{
    match site_at(alloc, octets)? {
        Some((site, rest)) if rest.is_empty() => Ok(Some(site)),
        _ => Ok(None),
    }
}
