//! The publishers of a tenants text, in its order.

ghost use Rattle.std.specs.Prelude.{◌≡◌, ◌+◌, ◌<◌, ◌≤◌, [], ◌∷◌, ◌++◌, length, Contains, IfErr, IfSome, IfNone, MatchOption, OnOk, OnErr, slice_get};
ghost use Rattle.hdl_tenants.specs.Register.{names_of, lane_count, owner_among, first_lane, wire_among};
ghost use Rattle.hdl_tenants.specs.Steps.{IsPublisherFault};
ghost use Rattle.hdl_tenants.specs.Text.{place_of};
ghost use Rattle.hdl_tenants.specs.Record.{publisher_on};

use crate::fault::TenantFault;
use crate::lines::PublisherLine;
use hdl_limits::LANES;
use hdl_value::Wire;
use indexmap::IndexMap;
use std::alloc::Global;
use std::marker::Model;

/// How many lanes a publisher has, and its port.
#[derive(Clone, Copy)]
pub struct Shape {
    pub lanes: u16,
    pub port: u16,
    pub wire: Wire,
}

/// Publishers in the order of their lines. They have at most 64 lanes together.
#[derive(Drop)]
pub struct Publishers {
    by_name: IndexMap<String, Shape>,
    lanes: u16,
}

impl Model for Publishers {
    ghost use Rattle.std.specs.Prelude.{List};
    ghost use Rattle.hdl_tenants.specs.Register.{Publisher};
    ghost use Rattle.hdl_tenants.specs.Record.{publishers_in, KeepsLanes};

    ghost Value = { List Publisher };

    ghost view = { λ a. publishers_in a.by_name.entries };

    ghost invariant = { λ a. KeepsLanes (publishers_in a.by_name.entries) a.lanes };
}

impl Publishers {
    /// No publisher yet.
    pub fn new(alloc: Global) -> Publishers
        ensures { result ≡ [] }
    {
        Publishers {
            by_name: IndexMap::new(alloc),
            lanes: 0,
        }
    }

    /// Adds a publisher behind the others, if none has its name and there are lanes for it. Else nothing changes.
    pub fn add(&mut self, alloc: Global, line: &PublisherLine<'_>) -> Result<(), TenantFault>
        ensures ok { OnOk result (self.new ≡ self.old ++ publisher_on line.now ∷ []) }
        ensures absent { OnOk result (¬ (Contains (names_of self.old) line.now.name.now)) }
        ensures room { OnOk result (lane_count self.old + line.now.lanes ≤ LANES) }
        ensures fault { IfErr result (λ e. IsPublisherFault self.old (publisher_on line.now) e) }
        ensures unchanged { OnErr result (self.new ≡ self.old) }
    {
        if self.by_name.contains_key(line.name) {
            return Err(TenantFault::TwicePublisher);
        }
        if line.lanes as usize > LANES - self.lanes as usize {
            return Err(TenantFault::TooMany);
        }
        let shape = Shape {
            lanes: line.lanes,
            port: line.port,
            wire: line.wire,
        };
        let Ok(name) = String::from_str(alloc, line.name) else {
            return Err(TenantFault::Memory);
        };
        let Ok(_) = self.by_name.insert(name, shape) else {
            return Err(TenantFault::Memory);
        };
        self.lanes += line.lanes;
        Ok(())
    }

    /// How many publishers there are.
    pub fn len(&self) -> usize
        ensures { result ≡ length self.now }
    {
        self.by_name.len()
    }

    /// How many lanes the publishers have together.
    pub fn lanes(&self) -> u16
        ensures { result ≡ lane_count self.now }
    {
        self.lanes
    }

    /// The place of the publisher with this name.
    pub fn place(&self, name: &str) -> Option<usize>
        ensures place { IfSome result (λ place. place ≡ place_of name.now self.now) }
        ensures within { IfSome result (λ place. place < length self.now) }
        ensures there { IfSome result (λ place. Contains (names_of self.now) name.now) }
        ensures absent { IfNone result (¬ (Contains (names_of self.now) name.now)) }
    {
        self.by_name.get_index_of(name)
    }

    /// Name, lanes, port and layout of the publisher at this place.
    pub fn get(&self, place: usize) -> Option<(&str, u16, u16, Wire)>
        ensures { MatchOption result (slice_get self.now place ≡ None)
            (λ p. slice_get self.now place ≡ Some (record { name = p.0.now; lanes = p.1; port = p.2; wire = p.3 })) }
    {
        let (name, shape) = self.by_name.get_index(place)?;
        Some((name.as_str(), shape.lanes, shape.port, shape.wire))
    }

    /// By whose layout the lanes of the publisher at this place speak of values: our profile's where there is none.
    pub fn wire(&self, place: usize) -> Wire
        ensures { result ≡ wire_among self.now place }
    {
        match self.get(place) {
            Some((_, _, _, wire)) => wire,
            None => Wire::Profile,
        }
    }

    /// The first lane of the publisher at this place.
    pub fn first_lane(&self, place: usize) -> Option<u16>
        ensures found { IfSome result (λ lane. (place < length self.now) × (lane ≡ first_lane self.now place)) }
        ensures absent { IfNone result (length self.now ≤ place) }
    {
        if place >= self.by_name.len() {
            return None;
        }
        let mut lane = 0;
        for before in 0..place {
            let Some((_, shape)) = self.by_name.get_index(before) else {
                unreachable!()
            };
            lane += shape.lanes;
        }
        Some(lane)
    }

    /// The place of the publisher whose lane this is.
    pub fn owner(&self, lane: u16) -> Option<usize>
        ensures { result ≡ owner_among self.now lane }
    {
        let mut rest = lane;
        for place in 0..self.by_name.len() {
            let (_, shape) = self.by_name.get_index(place)?;
            if rest < shape.lanes {
                return Some(place);
            }
            rest -= shape.lanes;
        }
        None
    }
}
