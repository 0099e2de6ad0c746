//! Bounds of publishers, over any table.

use hdl_boundedrows::{Amount, Bound, BoundObserver, Count};
use hdl_telemetry::{BoundStatus, Notice};
use std::alloc::{AllocError, Global};
use std::sync::Arc;

/// Raises the notice of the publisher that reached its bound, and notes what each holds.
#[derive(Drop)]
pub struct Notices {
    all: Arc<Vec<BoundStatus>>,
}

impl Notices {
    /// Those of these bounds, in the bounds' order.
    pub fn new(all: Arc<Vec<BoundStatus>>) -> Notices {
        Notices { all }
    }
}

/// The notice that a bound is reached.
fn notice_of(alloc: Global, bound: &Bound) -> Result<Notice, AllocError> {
    let publisher = bound.publisher.as_str();
    let most = bound.most;
    let words = format!(in alloc;
        "bound: {publisher} has reached {most}: changes that add more are answered busy. Remove values or handles, or restart with a larger --bound"
    )?;
    Notice::new(alloc, words.as_str())
}

/// The status of each of these bounds, in their order. Nothing is held yet.
pub fn statuses_of(alloc: Global, bounds: &[Bound]) -> Result<Vec<BoundStatus>, AllocError> {
    let mut all = Vec::with_capacity(alloc, bounds.len())?;
    for bound in bounds {
        let Amount { values, octets } = bound.most;
        let notice = notice_of(alloc, bound)?;
        let publisher = bound.publisher.as_str();
        all.push(BoundStatus::new(alloc, publisher, values, octets, notice)?)?;
    }
    Ok(all)
}

impl BoundObserver for Notices {
    fn note_exceeded(&mut self, place: usize, _bound: &Bound) {
        if let Some(status) = self.all.get(place) {
            status.notice.raise();
        }
    }

    fn note_held(&mut self, place: usize, held: Count) {
        let Count { handles, amount } = held;
        if let Some(status) = self.all.get(place) {
            status.set_held(handles, amount.values, amount.octets);
        }
    }
}
