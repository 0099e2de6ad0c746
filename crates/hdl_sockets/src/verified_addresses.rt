//! Addresses that answered a challenge lately, so that something is known to be there.

use std::alloc::Global;
use std::rt::Clock;
use std::time::{Duration, Instant};

/// How many addresses are kept.
const ADDRESSES_MOST: usize = 256;

/// For how many seconds an answer counts.
const VALID_SECONDS: u64 = 60;

/// An address that answered a challenge, and when.
#[derive(Clone, Copy)]
struct VerifiedAddress<A> {
    address: A,
    moment: Instant,
}

/// The addresses that answered a challenge last.
#[derive(Drop)]
pub struct VerifiedAddresses<R, A> {
    rt: R,
    addresses: Vec<VerifiedAddress<A>>,
    /// The place of the next one to be displaced, once there are as many as are kept.
    next: usize,
}

impl<R: Clock, A: Eq + Copy> VerifiedAddresses<R, A> {
    pub fn new(rt: R, alloc: Global) -> VerifiedAddresses<R, A> {
        VerifiedAddresses {
            rt,
            addresses: Vec::new(alloc),
            next: 0,
        }
    }

    /// The place of the address among those that are kept.
    fn place(&self, address: A) -> Option<usize> {
        let mut addresses = self.addresses.iter();
        addresses.position(|entry| entry.address == address)
    }

    /// An address answered a challenge just now. It isn't kept where the clock or memory fails, and has to answer another one.
    pub fn put(&mut self, address: A) {
        let Ok(moment) = Instant::now(&self.rt) else {
            return;
        };
        let entry = VerifiedAddress { address, moment };
        let place = match self.place(address) {
            Some(place) => place,
            None if self.addresses.len() < ADDRESSES_MOST => {
                let _ = self.addresses.push(entry);
                return;
            }
            None => self.next_place(),
        };
        if let Some(kept) = self.addresses.get_mut(place) {
            *kept = entry;
        }
    }

    /// The place of the one that is displaced.
    fn next_place(&mut self) -> usize {
        let place = self.next;
        self.next = self.next.wrapping_add(1) % ADDRESSES_MOST;
        place
    }

    /// Whether the address answered a challenge in the last minute.
    pub fn has(&self, address: A) -> bool {
        let Some(place) = self.place(address) else {
            return false;
        };
        let Some(entry) = self.addresses.get(place) else {
            return false;
        };
        match Instant::now(&self.rt) {
            Ok(now) => now.saturating_duration_since(entry.moment)
                <= Duration::from_secs(VALID_SECONDS),
            Err(_) => false,
        }
    }
}
