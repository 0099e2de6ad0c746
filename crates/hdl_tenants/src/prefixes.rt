//! The hosted prefixes of a tenants text, in its order.

ghost use Rattle.std.specs.Prelude.{◌≡◌, ◌==◌, ◌↔◌, [], ◌∷◌, ◌++◌, find, is_some, unwrap_or, option_copied, Contains, IsTrue, IsFalse, IfOk, IfErr, OnOk, OnErr};
ghost use Rattle.hdl_tenants.specs.Register.{prefixes_of, hosts_among, algorithm_among};
ghost use Rattle.hdl_tenants.specs.Record.{hosts_of};
ghost use Rattle.hdl_tenants.specs.Steps.{IsPrefixFault};

use crate::fault::TenantFault;
use hdl_auth::algorithm::Algorithm;
use indexmap::IndexMap;
use std::alloc::{AllocError, Global};
use std::marker::Model;

/// The place of a publisher for whom a prefix is hosted, and the prefix's hash function on its lanes.
#[derive(Clone, Copy, Drop)]
pub struct Host {
    pub publisher: usize,
    pub algorithm: Algorithm,
}

/// A prefix, and a publisher for whom it is hosted.
#[derive(Drop)]
pub struct HostedPrefix {
    prefix: Vec<u8>,
    host: Host,
}

/// Prefixes in the order of their lines, and the publishers of each, to be asked for each request.
#[derive(Drop)]
pub struct Prefixes {
    hosted: Vec<HostedPrefix>,
    by_prefix: IndexMap<Vec<u8>, Vec<Host>>,
}

/// The publisher at this place among those of a prefix.
fn host_among(publisher: usize, hosts: &[Host]) -> Option<&Host>
    ensures { option_copied result ≡ find (λ h. h.publisher == publisher) hosts.now }
{
    hosts.iter().find(|host| host.publisher == publisher)
}

impl Model for Prefixes {
    ghost use Rattle.std.specs.Prelude.{List};
    ghost use Rattle.hdl_tenants.specs.Register.{Hosting};
    ghost use Rattle.hdl_tenants.specs.Record.{hostings_in, KeepsHostings};

    ghost Value = { List Hosting };

    ghost view = { λ a. hostings_in a.hosted.items };

    ghost invariant = { λ a. KeepsHostings a.by_prefix.entries (hostings_in a.hosted.items) };
}

impl Prefixes {
    /// No prefix yet.
    pub fn new(alloc: Global) -> Prefixes
        ensures { result ≡ [] }
    {
        Prefixes {
            hosted: Vec::new(alloc),
            by_prefix: IndexMap::new(alloc),
        }
    }

    /// Adds a prefix of a publisher behind the others, if the publisher doesn't have it. Else nothing changes.
    pub fn add(&mut self, alloc: Global, host: Host, prefix: &[u8]) -> Result<(), TenantFault>
        ensures ok { OnOk result (self.new ≡ self.old ++ record { prefix = prefix.now; publisher = host.publisher; algorithm = host.algorithm } ∷ []) }
        ensures absent { OnOk result (IsFalse (hosts_among self.old host.publisher prefix.now)) }
        ensures fault { IfErr result (λ e. IsPrefixFault self.old host.publisher prefix.now e) }
        ensures unchanged { OnErr result (self.new ≡ self.old) }
    {
        if self.hosts(host.publisher, prefix) {
            return Err(TenantFault::TwicePrefix);
        }
        let Ok(hosts) = self.hosts_and(alloc, host, prefix) else {
            return Err(TenantFault::Memory);
        };
        let (Ok(key), Ok(octets)) = (
            Vec::from_slice(alloc, prefix),
            Vec::from_slice(alloc, prefix),
        ) else {
            return Err(TenantFault::Memory);
        };
        let Ok(()) = self.hosted.reserve(1) else {
            return Err(TenantFault::Memory);
        };
        let Ok(_) = self.by_prefix.insert(key, hosts) else {
            return Err(TenantFault::Memory);
        };
        let added = HostedPrefix {
            prefix: octets,
            host,
        };
        let Ok(()) = self.hosted.push(added) else {
            unreachable!()
        };
        Ok(())
    }

    /// The publishers of the prefix, and this one behind them.
    fn hosts_and(&self, alloc: Global, host: Host, prefix: &[u8]) -> Result<Vec<Host>, AllocError>
        ensures { IfOk result (λ hosts. hosts.items ≡ hosts_of prefix.now self.now ++ host ∷ []) }
    {
        let mut hosts = match self.by_prefix.get(prefix) {
            Some(hosts) => Vec::from_slice(alloc, hosts)?,
            None => Vec::new(alloc),
        };
        hosts.push(host)?;
        Ok(hosts)
    }

    /// Whether the prefix is hosted for somebody.
    pub fn contains(&self, prefix: &[u8]) -> bool
        ensures { IsTrue result ↔ Contains (prefixes_of self.now) prefix.now }
    {
        match self.by_prefix.get(prefix) {
            Some(hosts) => !hosts.is_empty(),
            None => false,
        }
    }

    /// The publisher at this place, if the prefix is hosted for it.
    fn host(&self, publisher: usize, prefix: &[u8]) -> Option<&Host>
        ensures { option_copied result ≡ find (λ h. h.publisher == publisher) (hosts_of prefix.now self.now) }
    {
        match self.by_prefix.get(prefix) {
            Some(hosts) => host_among(publisher, hosts),
            None => None,
        }
    }

    /// Whether the prefix is hosted for the publisher at this place.
    fn hosts(&self, publisher: usize, prefix: &[u8]) -> bool
        ensures { result ≡ hosts_among self.now publisher prefix.now }
    {
        self.host(publisher, prefix).is_some()
    }

    /// The hash function of the prefix on the lanes of the publisher at this place, if it is hosted for it.
    pub fn algorithm(&self, publisher: usize, prefix: &[u8]) -> Option<Algorithm>
        ensures hosted { is_some result ≡ hosts_among self.now publisher prefix.now }
        ensures algorithm { unwrap_or result Algorithm.Sha1 ≡ algorithm_among self.now publisher prefix.now }
    {
        let host = self.host(publisher, prefix)?;
        Some(host.algorithm)
    }
}
