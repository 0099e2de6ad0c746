//! What a site says of itself.

use hdl_limits::{Items, Octets};

/// A port of a server: what it serves, by which protocol (RFC 3651, section 3.2.2).
#[derive(Clone, Copy)]
pub struct Interface {
    /// 1 administration, 2 queries, 3 both.
    pub serves: u8,
    /// 0 UDP, 1 TCP, 2 HTTP.
    pub protocol: u8,
    pub port: u32,
}

/// A name and a text, which people read.
#[derive(Drop)]
pub struct Attribute {
    pub name: Octets,
    pub text: Octets,
}

/// A server of a site.
#[derive(Drop)]
pub struct SiteServer {
    /// Its number in the site.
    pub number: u32,
    /// An IPv6 address; an IPv4 address stands in the last four octets, behind zeros.
    pub address: [u8; 16],
    /// A key record of the Handle.Net software, or nothing.
    pub key: Octets,
    pub interfaces: Items<Interface>,
}

/// The data of an HS_SITE value. The fields in order, numbers in network order:
///
/// ```text
/// form of the data        2 octets, 1
/// protocol version        1 octet of major number, 1 of minor
/// serial number           2 octets, one more at each change
/// primary mask            1 octet, 0x80 a primary site, 0x40 one of several
/// hash option             1 octet, how a handle's server is found: by 0 the prefix, 1 the local name, 2 all of the handle
/// hash filter             a string: 4 octets of length, and that many
/// attributes              4 octets of count, and that many of two strings
/// servers                 4 octets of count, and that many of
///   number                4 octets
///   address               16 octets
///   public key            a string
///   interfaces            4 octets of count, and that many of what is served (1), protocol (1) and port (4)
/// ```
#[derive(Drop)]
pub struct SiteInfo {
    pub form: u16,
    pub major: u8,
    pub minor: u8,
    pub serial: u16,
    pub primary: u8,
    pub hash_option: u8,
    pub hash_filter: Octets,
    pub attributes: Items<Attribute>,
    pub servers: Items<SiteServer>,
}
