//! The site of one server.

ghost use Rattle.std.specs.Prelude.{◌≡◌, ◌<◌, ◌^◌, length, IfOk, OnOk};
ghost use Rattle.std.specs.Net.Addr.{MatchIp, ipv4_octets, ipv6_octets};
ghost use Rattle.hdl_site.specs.Info.{IsWritable, site_octets};
ghost use Rattle.hdl_site.specs.Making as spec;
ghost use Rattle.hdl_site.specs.Making.{behind_zeros, planned_server, planned_site};

use crate::info::{Interface, SiteInfo, SiteServer};
use crate::writing::write_site;
use hdl_limits::{Items, Octets};
use std::alloc::{AllocError, Global};
use std::net::IpAddr;

/// What a port serves.
pub const ADMINISTRATION: u8 = 1;

pub const QUERY: u8 = 2;

pub const BOTH: u8 = 3;

/// The protocols of ports.
pub const UDP: u8 = 0;

pub const TCP: u8 = 1;

pub const HTTP: u8 = 2;

/// The bits of a primary mask: changes are made there, and there are several such sites.
pub const PRIMARY: u8 = 0x80;

pub const SEVERAL_PRIMARIES: u8 = 0x40;

/// The hash option by which all of a handle says which server has it.
pub const ALL_OF_HANDLE: u8 = 2;

/// The 16 octets of an address: of IPv4 its four behind zeros.
pub fn address_octets(address: &IpAddr) -> [u8; 16]
    ensures { MatchIp address.now (λ ip. result ≡ behind_zeros (ipv4_octets ip)) (λ ip. result ≡ ipv6_octets ip) }
{
    match address {
        IpAddr::V4(ip) => {
            let [a, b, c, d] = ip.octets();
            [0, 0, 0, 0, 0, 0, 0, 0, 0, 0, 0, 0, a, b, c, d]
        }
        IpAddr::V6(ip) => ip.octets(),
    }
}

/// A server to make a site of.
#[derive(Drop)]
pub struct ServerPlan {
    pub address: [u8; 16],
    /// The port of TCP, and of UDP where that is served.
    pub port: u16,
    /// Whether queries may come by UDP.
    pub is_udp: bool,
    /// The number of the site's data, one more at each change.
    pub serial: u16,
    /// A key record of the Handle.Net software, or nothing.
    pub key: Octets,
}

/// Its ports: TCP for all, and UDP for queries where that is served.
fn interfaces_of(alloc: Global, plan: &ServerPlan) -> Result<Vec<Interface>, AllocError>
    ensures { IfOk result (λ v. v.items ≡ spec.interfaces_of plan.now) }
{
    let port = u32::from(plan.port);
    let mut interfaces = Vec::new(alloc);
    interfaces.push(Interface {
        serves: BOTH,
        protocol: TCP,
        port,
    })?;
    if plan.is_udp {
        interfaces.push(Interface {
            serves: QUERY,
            protocol: UDP,
            port,
        })?;
    }
    Ok(interfaces)
}

fn server_of(alloc: Global, plan: &ServerPlan) -> Result<SiteServer, AllocError>
    ensures { IfOk result (λ server. server ≡ planned_server plan.now) }
{
    let address = plan.address;
    Ok(SiteServer {
        number: 1,
        address,
        key: Octets::new(Vec::from_slice(alloc, plan.key.as_slice())?),
        interfaces: Items::new(interfaces_of(alloc, plan)?),
    })
}

/// The site that has this server alone.
pub fn site_of(alloc: Global, plan: &ServerPlan) -> Result<SiteInfo, AllocError>
    requires short { length plan.now.key < 2 ^ 32 }
    ensures site { IfOk result (λ site. site ≡ planned_site plan.now) }
    ensures writable { OnOk result (IsWritable (planned_site plan.now)) }
{
    let mut servers = Vec::new(alloc);
    servers.push(server_of(alloc, plan)?)?;
    Ok(SiteInfo {
        form: 1,
        major: 2,
        minor: 1,
        serial: plan.serial,
        primary: PRIMARY,
        hash_option: ALL_OF_HANDLE,
        hash_filter: Octets::new(Vec::new(alloc)),
        attributes: Items::new(Vec::new(alloc)),
        servers: Items::new(servers),
    })
}

/// The data of the HS_SITE value of this server. The caller knows that the key has fewer than 2^32 octets.
pub fn planned_octets(alloc: Global, plan: &ServerPlan) -> Result<Vec<u8>, AllocError>
    requires short { length plan.now.key < 2 ^ 32 }
    ensures { IfOk result (λ out. out.items ≡ site_octets (planned_site plan.now)) }
{
    let site = site_of(alloc, plan)?;
    write_site(alloc, &site)
}
