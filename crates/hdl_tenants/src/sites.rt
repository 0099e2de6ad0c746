//! The site information of a tenants text, in its order.

ghost use Rattle.std.specs.Prelude.{◌≡◌, ◌==◌, ◌++◌, ◌∷◌, [], find, option_copied, Contains, Some, None, MatchOption, IfErr, OnOk, OnErr};
ghost use Rattle.hdl_tenants.specs.Register.{informed, site_among};
ghost use Rattle.hdl_tenants.specs.Steps.{IsSiteFault};

use crate::fault::TenantFault;
use hdl_limits::MESSAGE_MAX;
use std::alloc::Global;
use std::marker::Model;

/// At most so many octets of site information: what a reply has room for beside its header, its credential's length and a
/// SHA-256 digest with the octet that names it.
pub const SITE_MAX: usize = MESSAGE_MAX as usize - 28 - 33;

/// The place of a publisher, and the octets that its lanes answer to a question for site information.
#[derive(Drop)]
pub struct KeptSite {
    publisher: usize,
    octets: Vec<u8>,
}

/// The site information of the publisher at this place among these.
fn kept_among(publisher: usize, kept: &[KeptSite]) -> Option<&KeptSite>
    ensures { option_copied result ≡ find (λ s. s.publisher == publisher) kept.now }
{
    kept.iter().find(|site| site.publisher == publisher)
}

/// Site information in the order of its lines, of each publisher once at most.
#[derive(Drop)]
pub struct Sites {
    kept: Vec<KeptSite>,
}

impl Model for Sites {
    ghost use Rattle.std.specs.Prelude.{List};
    ghost use Rattle.hdl_tenants.specs.Register.{SiteInfo};
    ghost use Rattle.hdl_tenants.specs.Record.{sites_in};

    ghost Value = { List SiteInfo };

    ghost view = { λ a. sites_in a.kept.items };
}

impl Sites {
    /// No site information yet.
    pub fn new(alloc: Global) -> Sites
        ensures { result ≡ [] }
    {
        Sites {
            kept: Vec::new(alloc),
        }
    }

    /// Adds the site information of a publisher that has none. Else nothing changes.
    pub fn add(&mut self, publisher: usize, octets: Vec<u8>) -> Result<(), TenantFault>
        ensures ok { OnOk result (self.new ≡ self.old ++ record { publisher = publisher; octets = octets.items } ∷ []) }
        ensures absent { OnOk result (¬ (Contains (informed self.old) publisher)) }
        ensures fault { IfErr result (λ e. IsSiteFault self.old publisher e) }
        ensures unchanged { OnErr result (self.new ≡ self.old) }
    {
        if self.of(publisher).is_some() {
            return Err(TenantFault::TwiceSite);
        }
        let Ok(()) = self.kept.push(KeptSite { publisher, octets }) else {
            return Err(TenantFault::Memory);
        };
        Ok(())
    }

    /// The site information of the publisher at this place.
    pub fn of(&self, publisher: usize) -> Option<&[u8]>
        ensures { MatchOption result (site_among self.now publisher ≡ None) (λ octets. site_among self.now publisher ≡ Some octets.now) }
    {
        let site = kept_among(publisher, &self.kept)?;
        Some(&site.octets)
    }
}
