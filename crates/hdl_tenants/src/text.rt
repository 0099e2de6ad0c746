//! A tenants text, line after line.

ghost use Rattle.std.specs.Prelude.{◌≡◌, ◌<◌, ◌≤◌, ◌↔◌, ℕ, List, ◌+◌, length, Contains, IsTrue, IsSome, IfOk, IfErr, IfSome, MatchOption, OnOk, map, is_some, unwrap_or, slice_get};
ghost use Rattle.std.specs.Str.Lines.{lines};
ghost use Rattle.hdl_name.specs.Name.{prefix};
ghost use Rattle.hdl_tenants.specs.declared.sites.TheConstants.{SITE_MAX};
ghost use Rattle.hdl_tenants.specs.Register as register;
ghost use Rattle.hdl_tenants.specs.Register.{empty, place, IsPublisher, IsPrefix, IsRegister};
ghost use Rattle.hdl_tenants.specs.Text.{publisher, hosted, register_after, IsAllowed, HasFault, Adds, IsAccepted, IsFirstFault};
ghost use Rattle.hdl_tenants.specs.Steps.{IsPublisherFault, IsHostedFault, IsSitedFault, Informs, IsOpenedFault, Opens};
ghost use Rattle.hdl_tenants.specs.Record.{publisher_on};
ghost use Rattle.hdl_tenants.specs.Taken.{Indexes};

use crate::fault::TenantFault;
use crate::lines::{
    PrefixLine, PublisherLine, SiteLine, ValueLine, fields_of, is_skipped, name_of, prefix_of,
    publisher_of, site_of, site_text, value_of, value_text,
};
use crate::prefixes::{Host, Prefixes};
use crate::publishers::Publishers;
use crate::sites::Sites;
use crate::taken::TakenPlaces;
use hdl_auth::algorithm::Algorithm;
use hdl_name::Name;
use hdl_value::{Value, Wire};
use std::alloc::Global;
use std::marker::Model;

/// What a tenants text says: publishers with their lanes and ports, the prefixes that are hosted for them, their site
/// information, and the values to open with, each in the text's order. A publisher is known by its place in that order, counted from 0.
#[derive(Drop)]
pub struct Tenants {
    publishers: Publishers,
    prefixes: Prefixes,
    sites: Sites,
    opening: Vec<(Name, Value)>,
}

impl Model for Tenants {
    ghost use Rattle.hdl_tenants.specs.Register.{Register, IsRegister};

    ghost Value = { Register };

    ghost view = { λ a. record { publishers = a.publishers; hostings = a.prefixes; sites = a.sites; opening = a.opening.items } };

    ghost invariant = { λ a. IsRegister (record { publishers = a.publishers; hostings = a.prefixes; sites = a.sites; opening = a.opening.items }) };
}

impl Tenants {
    /// What no line says.
    fn new(alloc: Global) -> Tenants
        ensures { result ≡ empty }
    {
        Tenants {
            publishers: Publishers::new(alloc),
            prefixes: Prefixes::new(alloc),
            sites: Sites::new(alloc),
            opening: Vec::new(alloc),
        }
    }

    /// Adds a publisher.
    fn add_publisher(&mut self, alloc: Global, line: &PublisherLine<'_>) -> Result<(), TenantFault>
        requires { IsPublisher (publisher_on line.now) }
        ensures allowed { OnOk result (IsAllowed self.old (publisher (publisher_on line.now))) }
        ensures added { OnOk result (self.new ≡ register_after self.old (publisher (publisher_on line.now))) }
        ensures fault { IfErr result (λ e. IsPublisherFault self.old.publishers (publisher_on line.now) e) }
    {
        self.publishers.add(alloc, line)?;
        Ok(())
    }

    /// Adds a prefix for a publisher that is there.
    fn add_prefix(&mut self, alloc: Global, line: &PrefixLine<'_>) -> Result<(), TenantFault>
        requires { IsPrefix line.now.prefix.now }
        ensures allowed { OnOk result (IsAllowed self.old (hosted line.now.prefix.now line.now.name.now line.now.algorithm)) }
        ensures added { OnOk result (self.new ≡ register_after self.old (hosted line.now.prefix.now line.now.name.now line.now.algorithm)) }
        ensures fault { IfErr result (λ e. IsHostedFault self.old line.now.prefix.now line.now.name.now e) }
    {
        let Some(publisher) = self.publishers.place(line.name) else {
            return Err(TenantFault::BadLine);
        };
        let host = Host {
            publisher,
            algorithm: line.algorithm,
        };
        self.prefixes.add(alloc, host, line.prefix.as_bytes())?;
        Ok(())
    }

    /// Adds site information of a publisher that is there, whose lanes have the layout of the Handle.Net software.
    fn add_site(&mut self, alloc: Global, line: &SiteLine<'_>) -> Result<(), TenantFault>
        ensures ok { OnOk result (Informs self.old line.now.name.now line.now.digits.now self.new) }
        ensures opening { OnOk result (self.new.opening ≡ self.old.opening) }
        ensures fault { IfErr result (λ e. IsSitedFault self.old line.now.name.now line.now.digits.now e) }
    {
        let Some(publisher) = self.publishers.place(line.name) else {
            return Err(TenantFault::BadLine);
        };
        if self.publishers.wire(publisher) != Wire::HandleNet {
            return Err(TenantFault::BadLine);
        }
        let octets = site_text(alloc, line.digits)?;
        self.sites.add(publisher, octets)?;
        Ok(())
    }

    /// Adds a value of a handle whose prefix is there.
    fn add_value(
        &mut self,
        alloc: Global,
        line: &ValueLine<'_>,
        taken: &mut TakenPlaces,
    ) -> Result<(), TenantFault>
        requires { Indexes taken.old (map place self.old.opening) }
        ensures ok { OnOk result (Opens self.old line.now.handle.now line.now.digits.now self.new) }
        ensures taken { OnOk result (Indexes taken.new (map place self.new.opening)) }
        ensures fault { IfErr result (λ e. IsOpenedFault self.old line.now.handle.now line.now.digits.now e) }
    {
        let name = name_of(alloc, line.handle)?;
        if !self.prefixes.contains(name.prefix()) {
            return Err(TenantFault::BadLine);
        }
        let value = value_text(alloc, line.digits)?;
        taken.add(alloc, name.canon(), value.index)?;
        let Ok(()) = self.opening.push((name, value)) else {
            return Err(TenantFault::Memory);
        };
        Ok(())
    }

    /// Adds what the line says.
    fn add_line(
        &mut self,
        alloc: Global,
        line: &str,
        taken: &mut TakenPlaces,
    ) -> Result<(), TenantFault>
        requires { Indexes taken.old (map place self.old.opening) }
        ensures ok { OnOk result (Adds self.old line.now self.new) }
        ensures taken { OnOk result (Indexes taken.new (map place self.new.opening)) }
        ensures fault { IfErr result (λ e. HasFault self.old line.now e) }
    {
        if is_skipped(line) {
            return Ok(());
        }
        let Ok(fields) = fields_of(alloc, line) else {
            return Err(TenantFault::Memory);
        };
        if let Some(line) = publisher_of(&fields) {
            return self.add_publisher(alloc, &line);
        }
        if let Some(line) = prefix_of(&fields) {
            return self.add_prefix(alloc, &line);
        }
        if let Some(line) = site_of(&fields) {
            return self.add_site(alloc, &line);
        }
        if let Some(line) = value_of(&fields) {
            return self.add_value(alloc, &line, taken);
        }
        Err(TenantFault::BadLine)
    }

    /// Reads a tenants text. Its lines end by LF (a CR before it is dropped), which the last line may lack. Empty lines and
    /// lines that begin with `#` are skipped; the fields of the others are divided by single spaces:
    ///
    /// ```text
    /// publisher NAME LANES PORT WIRE    the same; its lanes speak by the layout WIRE, handle-net
    /// publisher NAME LANES PORT    NAME is 1 to 32 of a-z, 0-9 and -; LANES is 2 to 64; PORT is 1 to 65535
    /// prefix PREFIX NAME           PREFIX is a naming authority in canonical form, other than 0.na; NAME stands before;
    /// prefix PREFIX NAME HASH      several publishers may have one prefix. HASH is 2 for SHA-1, as where there is none, or 3
    ///                              for SHA-256: the hash function of the prefix on the lanes of NAME
    /// site NAME HEX                HEX spells the octets that the lanes of NAME, which speak by handle-net, answer to a question
    ///                              for site information, at most 65,475
    /// value HANDLE HEX             HEX spells one value within its limits; the prefix of HANDLE stands before
    /// ```
    ///
    /// Refuses the first faulty line, counted from 1 over all lines: BadLine for any other line, an index twice in a handle and
    /// more than 1,024 values of one; then, in this order, TwicePrefix for a prefix that its publisher has, TwicePublisher, TwiceSite
    /// for a publisher that has site information, TooMany for more than 64 lanes together;
    /// Memory where room for the line was refused. Nothing is left of a text that is refused.
    pub fn read(alloc: Global, text: &str) -> Result<Tenants, (usize, TenantFault)>
        ensures accepted { IfOk result (λ tenants. IsAccepted (lines text.now) tenants) }
        ensures kept { IfOk result IsRegister }
        ensures refused { IfErr result (λ e. IsFirstFault (lines text.now) e.0 e.1) }
    {
        let mut tenants = Tenants::new(alloc);
        let mut taken = TakenPlaces::new(alloc);
        let mut number = 0usize;
        for line in text.lines() {
            number += 1;
            if let Err(fault) = tenants.add_line(alloc, line, &mut taken) {
                return Err((number, fault));
            }
        }
        Ok(tenants)
    }

    /// How many lanes there are in all: at most 64, numbered from 0 in the text's order.
    pub fn lanes(&self) -> u16
        ensures { result ≡ register.lane_count self.now.publishers }
    {
        self.publishers.lanes()
    }

    /// The place of the publisher whose lane this is. None for a lane from `lanes` on.
    pub fn owner(&self, lane: u16) -> Option<usize>
        ensures { result ≡ register.owner self.now lane }
    {
        self.publishers.owner(lane)
    }

    /// The hash function of the name's prefix on the lanes of the publisher at this place, if its whole prefix, in canonical
    /// form, is hosted for it. None where it isn't.
    pub fn hosting(&self, publisher: usize, name: &Name) -> Option<Algorithm>
        ensures hosted { is_some result ≡ register.hosts self.now publisher (prefix name.now) }
        ensures algorithm { unwrap_or result Algorithm.Sha1 ≡ register.algorithm self.now publisher (prefix name.now) }
    {
        self.prefixes.algorithm(publisher, name.prefix())
    }

    /// By whose layout the lanes of the publisher at this place speak of values.
    pub fn wire(&self, publisher: usize) -> Wire
        ensures { result ≡ register.wire self.now publisher }
    {
        self.publishers.wire(publisher)
    }

    /// The octets that the lanes of the publisher at this place answer to a question for site information, if a line gives them.
    pub fn site(&self, publisher: usize) -> Option<&[u8]>
        ensures site { MatchOption result (register.site self.now publisher ≡ None) (λ octets. register.site self.now publisher ≡ Some octets.now) }
        ensures few { IfSome result (λ octets. length octets.now ≤ SITE_MAX) }
    {
        self.sites.of(publisher)
    }

    /// How many publishers there are.
    pub fn publishers(&self) -> usize
        ensures count { result ≡ length self.now.publishers }
    {
        self.publishers.len()
    }

    /// Name, number of lanes and port of the publisher at this place, if there is one.
    pub fn publisher(&self, place: usize) -> Option<(&str, u16, u16)>
        ensures { MatchOption result (slice_get self.now.publishers place ≡ None)
            (λ p. slice_get self.now.publishers place ≡ Some (record { name = p.0.now; lanes = p.1; port = p.2; wire = register.wire self.now place })) }
    {
        let (name, lanes, port, _) = self.publishers.get(place)?;
        Some((name, lanes, port))
    }

    /// The first and the last lane of the publisher at this place, if there is one. The last is the lane of its datagrams, the
    /// others are those of its connections.
    pub fn lanes_of(&self, place: usize) -> Option<(u16, u16)>
        ensures first { IfSome result (λ lanes. lanes.0 ≡ register.first_lane self.now.publishers place) }
        ensures last { IfSome result (λ lanes. lanes.1 + 1 ≡ register.first_lane self.now.publishers (place + 1)) }
        ensures there { IsSome result ↔ (place < length self.now.publishers) }
    {
        let first = self.publishers.first_lane(place)?;
        let (_, lanes, _, _) = self.publishers.get(place)?;
        Some((first, first + lanes - 1))
    }

    /// The names, as the text has them, and the values to open with. A handle may be named in several ways.
    pub fn opening(&self) -> &[(Name, Value)]
        ensures rows { result.now ≡ self.now.opening }
        ensures kept { IsRegister self.now }
    {
        &self.opening
    }
}
