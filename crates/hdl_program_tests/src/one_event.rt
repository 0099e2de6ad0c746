//! One event after the other, by the names that `hdl_core` passes on.

use crate::assertion::same;
use crate::two_workers::{FRAME, REPLY, open};
use hdl_core::{Event, Octets, Outcome, PlainRows, Service, What};
use std::alloc::Global;
use std::test::Fail;

fn digits(alloc: Global, octets: &[u8]) -> Result<String, Fail> {
    Ok(hex::encode(alloc, octets)?)
}

/// What an event on lane 0 brings about: its octets in digits.
fn told(alloc: Global, service: &mut Service<PlainRows>, what: What) -> Result<String, Fail> {
    match service.step(Event { lane: 0, what }) {
        Outcome::Reply(octets) => digits(alloc, octets.as_slice()),
        Outcome::Busy(octets) | Outcome::CloseAfter(octets) => digits(alloc, octets.as_slice()),
        Outcome::Silent => Ok(String::new(alloc)),
    }
}

/// A lane is opened, and an absent handle asked for.
#[test]
fn one_event(rt: HostRuntime) -> Result<(), Fail> {
    let alloc = rt.alloc();
    let mut service = open(alloc)?;
    let opened = told(alloc, &mut service, What::Open)?;
    same(&rt, "opened", opened.as_str(), "");
    let frame = What::Frame {
        peer: 0,
        moment: 1000,
        nonce: [0; 16],
        bytes: Octets::new(hex::decode(alloc, FRAME)?),
    };
    let reply = told(alloc, &mut service, frame)?;
    same(&rt, "reply", reply.as_str(), REPLY);
    Ok(())
}
