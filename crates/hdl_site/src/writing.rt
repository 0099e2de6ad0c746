//! Writing a site.

ghost use Rattle.std.specs.Prelude.{◌≡◌, ◌++◌, ◌<◌, ◌^◌, length, IfOk, OnOk};
ghost use Rattle.hdl_site.specs.Info.{interface, interfaces, attribute, attributes, server, servers, head, head_of, site_octets, AreFew, IsShort, IsWritableAttribute, IsWritableServer, IsWritable};

use crate::info::{Attribute, Interface, SiteInfo, SiteServer};
use hdl_value::{put_string, put_u16, put_u32};
use std::alloc::{AllocError, Global};

fn put_interface(out: &mut Vec<u8>, one: &Interface) -> Result<(), AllocError>
    ensures { OnOk result (out.new.items ≡ out.old.items ++ interface one.now) }
{
    out.push(one.serves)?;
    out.push(one.protocol)?;
    put_u32(out, one.port)
}

fn put_interfaces(out: &mut Vec<u8>, all: &[Interface]) -> Result<(), AllocError>
    requires count { length all.now < 2 ^ 32 }
    ensures { OnOk result (out.new.items ≡ out.old.items ++ interfaces all.now) }
{
    put_u32(out, all.len() as u32)?;
    for one in all {
        put_interface(out, one)?;
    }
    Ok(())
}

fn put_attribute(out: &mut Vec<u8>, one: &Attribute) -> Result<(), AllocError>
    requires { IsWritableAttribute one.now }
    ensures { OnOk result (out.new.items ≡ out.old.items ++ attribute one.now) }
{
    put_string(out, one.name.as_slice())?;
    put_string(out, one.text.as_slice())
}

fn put_attributes(out: &mut Vec<u8>, all: &[Attribute]) -> Result<(), AllocError>
    requires few { AreFew IsWritableAttribute all.now }
    ensures { OnOk result (out.new.items ≡ out.old.items ++ attributes all.now) }
{
    put_u32(out, all.len() as u32)?;
    for one in all {
        put_attribute(out, one)?;
    }
    Ok(())
}

fn put_server(out: &mut Vec<u8>, one: &SiteServer) -> Result<(), AllocError>
    requires { IsWritableServer one.now }
    ensures { OnOk result (out.new.items ≡ out.old.items ++ server one.now) }
{
    put_u32(out, one.number)?;
    out.extend_from_slice(&one.address)?;
    put_string(out, one.key.as_slice())?;
    put_interfaces(out, one.interfaces.as_slice())
}

fn put_servers(out: &mut Vec<u8>, all: &[SiteServer]) -> Result<(), AllocError>
    requires few { AreFew IsWritableServer all.now }
    ensures { OnOk result (out.new.items ≡ out.old.items ++ servers all.now) }
{
    put_u32(out, all.len() as u32)?;
    for one in all {
        put_server(out, one)?;
    }
    Ok(())
}

fn put_head(out: &mut Vec<u8>, site: &SiteInfo) -> Result<(), AllocError>
    requires { IsShort site.now.hash_filter }
    ensures { OnOk result (out.new.items ≡ out.old.items ++ head (head_of site.now)) }
{
    put_u16(out, site.form)?;
    out.push(site.major)?;
    out.push(site.minor)?;
    put_u16(out, site.serial)?;
    out.push(site.primary)?;
    out.push(site.hash_option)?;
    put_string(out, site.hash_filter.as_slice())?;
    Ok(())
}

/// The octets of a site.
#[tactic(auto, unfolding(crate::specs::Info::site_octets))]
pub fn write_site(alloc: Global, site: &SiteInfo) -> Result<Vec<u8>, AllocError>
    requires { IsWritable site.now }
    ensures { IfOk result (λ out. out.items ≡ site_octets site.now) }
{
    let mut out = Vec::new(alloc);
    put_head(&mut out, site)?;
    put_attributes(&mut out, site.attributes.as_slice())?;
    put_servers(&mut out, site.servers.as_slice())?;
    Ok(out)
}
