//! All lanes full of challenges, by a loop. What single challenges do are lines of `hdl_vectors`.

use crate::assertion::same;
use hdl_limits::Octets;
use hdl_slots::{Digest, Pending, Slots};
use std::alloc::{AllocError, Global};
use std::test::Fail;

const NONCE: [u8; 16] = [0, 1, 2, 3, 4, 5, 6, 7, 8, 9, 10, 11, 12, 13, 14, 15];

const DIGEST: Digest = Digest::Sha256([7; 32]);

/// A challenge to this peer, told from others by its moment.
fn challenge(alloc: Global, peer: u16, moment: u64) -> Result<Pending, AllocError> {
    Ok(Pending {
        peer,
        moment,
        nonce: NONCE,
        digest: DIGEST,
        message: Octets::new(vec![in alloc; 1, 2, 3]?),
    })
}

/// The moment of what was found.
fn moment(found: Option<&Pending>) -> Option<u64> {
    found.map(|p| p.moment)
}

/// With all 512 slots taken each lane holds its own eight.
#[test]
fn every_lane_full(rt: HostRuntime) -> Result<(), Fail> {
    let mut slots = Slots::new(rt.alloc())?;
    for lane in 0..64u16 {
        for k in 1..=8u64 {
            slots.put(lane, challenge(rt.alloc(), lane, k)?);
        }
    }
    for lane in 0..64u16 {
        for number in 1..=8u32 {
            same(
                &rt,
                format_args!("lane {lane}, number {number}"),
                moment(slots.find(lane, lane, number)),
                Some(number as u64),
            );
        }
    }
    Ok(())
}
