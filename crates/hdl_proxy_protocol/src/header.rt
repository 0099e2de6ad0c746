//! Reading the header.

ghost use Rattle.std.specs.Prelude.{◌≡◌, ◌≤◌, ◌<◌, ◌+◌, ◌-◌, ◌^◌, ◌==◌, ◌&&◌, length, slice_index, Ok, Err, None, IfSome, IsOkAnd};
ghost use Rattle.hdl_proxy_protocol.specs.Header as spec;
ghost use Rattle.hdl_proxy_protocol.specs.Header.{header_len, IsV4Client, IsV6Client, IsClient, IsWholeAnd};
ghost use Rattle.hdl_proxy_protocol.specs.declared.header.HeaderStep.TheVariants.{More};

use byteorder::{BigEndian, ByteOrder};
use std::net::{IpAddr, Ipv4Addr, Ipv6Addr, SocketAddr};
use thiserror::Error;

/// How many octets tell how long a header is.
pub const START_LEN: usize = 16;

/// The most octets of a header.
pub const HEADER_MOST: usize = 1024;

/// What each header begins with.
const SIGNATURE: [u8; 12] = [13, 10, 13, 10, 0, 13, 10, 81, 85, 73, 84, 10];

/// Version 2: the proxy speaks for itself, as when it asks whether the server is well.
const LOCAL: u8 = 0x20;

/// Version 2: the proxy speaks for a client.
const FOR_CLIENT: u8 = 0x21;

/// TCP over IPv4, and over IPv6.
const TCP_V4: u8 = 0x11;

const TCP_V6: u8 = 0x21;

/// Why octets are no header. The faults are tested in this order, once the first 16 octets are there.
#[derive(Clone, Copy, Debug, PartialEq, Eq, Error)]
pub enum HeaderFault {
    /// They begin with something else.
    #[error("no header of the PROXY protocol, version 2")]
    Signature,
    /// The version isn't 2, or the command isn't LOCAL or PROXY.
    #[error("unknown version or command of the PROXY protocol")]
    Command,
    /// It has over 1,024 octets.
    #[error("header of the PROXY protocol too long")]
    TooLong,
    /// It has no room for the addresses of its family.
    #[error("header of the PROXY protocol too short for its addresses")]
    Short,
}

/// What the octets that came so far are.
#[derive(Clone, Copy, PartialEq, Eq)]
pub enum HeaderStep {
    /// A beginning: at least this many octets more belong to the header.
    More(usize),
    /// A whole header, and the client for which it speaks. None: the proxy speaks for itself, or doesn't say for which over TCP.
    Whole(Option<SocketAddr>),
}

/// The IPv4 client of a header.
fn v4_client(octets: &[u8]) -> SocketAddr
    requires there { START_LEN + 12 ≤ length octets.now }
    ensures client { IsV4Client octets.now result }
{
    let mut ip = [0; 4];
    ip.copy_from_slice(&octets[16..20]);
    let port = BigEndian::read_u16(&octets[24..26]);
    SocketAddr::new(IpAddr::V4(Ipv4Addr::from_octets(ip)), port)
}

/// The IPv6 client of a header.
fn v6_client(octets: &[u8]) -> SocketAddr
    requires there { START_LEN + 36 ≤ length octets.now }
    ensures client { IsV6Client octets.now result }
{
    let mut ip = [0; 16];
    ip.copy_from_slice(&octets[16..32]);
    let port = BigEndian::read_u16(&octets[48..50]);
    SocketAddr::new(IpAddr::V6(Ipv6Addr::from_octets(ip)), port)
}

/// Whether a header's command and family are these.
fn is_of(octets: &[u8], command: u8, family: u8) -> bool
    requires there { START_LEN ≤ length octets.now }
    ensures { result ≡ (slice_index octets.now 12 == command && slice_index octets.now 13 == family) }
{
    octets[12] == command && octets[13] == family
}

/// How many octets the addresses and ports of a header take.
#[tactic(auto, unfolding(crate::specs::Header::addresses_len))]
fn addresses_len(octets: &[u8]) -> usize
    requires there { START_LEN ≤ length octets.now }
    ensures { result ≡ spec.addresses_len octets.now }
{
    if is_of(octets, FOR_CLIENT, TCP_V4) {
        12
    } else if is_of(octets, FOR_CLIENT, TCP_V6) {
        36
    } else {
        0
    }
}

/// How many octets follow the first 16.
fn rest_len(octets: &[u8]) -> usize
    requires there { START_LEN ≤ length octets.now }
    ensures len { result ≡ spec.rest_len octets.now }
    ensures bound { result < 2 ^ 16 }
{
    BigEndian::read_u16(&octets[14..16]) as usize
}

/// What is wrong with a header of which the first 16 octets are there.
#[tactic(auto, unfolding(crate::specs::Header::fault_of))]
fn fault_of(octets: &[u8]) -> Option<HeaderFault>
    requires there { START_LEN ≤ length octets.now }
    ensures { result ≡ spec.fault_of octets.now }
{
    let command = octets[12];
    let rest = rest_len(octets);
    if !octets.starts_with(&SIGNATURE) {
        Some(HeaderFault::Signature)
    } else if command != LOCAL && command != FOR_CLIENT {
        Some(HeaderFault::Command)
    } else if START_LEN + rest > HEADER_MOST {
        Some(HeaderFault::TooLong)
    } else if rest < addresses_len(octets) {
        Some(HeaderFault::Short)
    } else {
        None
    }
}

/// The client for which a whole header speaks.
fn client_of(octets: &[u8]) -> Option<SocketAddr>
    requires whole { header_len octets.now ≤ length octets.now }
    requires addresses { spec.addresses_len octets.now ≤ spec.rest_len octets.now }
    ensures client { IsClient octets.now result }
{
    if is_of(octets, FOR_CLIENT, TCP_V4) {
        Some(v4_client(octets))
    } else if is_of(octets, FOR_CLIENT, TCP_V6) {
        Some(v6_client(octets))
    } else {
        None
    }
}

/// Reads the octets with which a connection begins (PROXY protocol, version 2, section 2.2). Octets after a whole header don't matter. A fault is returned once the first 16 octets are there.
///
/// ```text
///  0                        12       13       14               16
/// +------------------------+--------+--------+----------------+----------------------------------------------+
/// | signature              | 2, cmd | family | length of rest | client, server, client's port, server's port |
/// +------------------------+--------+--------+----------------+----------------------------------------------+
/// ```
#[tactic(auto, unfolding(crate::specs::Header::fault_of))]
pub fn read_header(octets: &[u8]) -> Result<HeaderStep, HeaderFault>
    ensures beginning { length octets.now < START_LEN → result ≡ Ok (More (START_LEN - length octets.now)) }
    ensures fault { START_LEN ≤ length octets.now → IfSome (spec.fault_of octets.now) (λ fault. result ≡ Err fault) }
    ensures more { START_LEN ≤ length octets.now → spec.fault_of octets.now ≡ None → length octets.now < header_len octets.now → result ≡ Ok (More (header_len octets.now - length octets.now)) }
    ensures whole { START_LEN ≤ length octets.now → spec.fault_of octets.now ≡ None → header_len octets.now ≤ length octets.now → IsOkAnd result (λ step. IsWholeAnd step (IsClient octets.now)) }
{
    if octets.len() < START_LEN {
        return Ok(HeaderStep::More(START_LEN - octets.len()));
    }
    if let Some(fault) = fault_of(octets) {
        return Err(fault);
    }
    let len = START_LEN + rest_len(octets);
    if octets.len() < len {
        return Ok(HeaderStep::More(len - octets.len()));
    }
    Ok(HeaderStep::Whole(client_of(octets)))
}
