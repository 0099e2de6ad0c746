//! How long something took, in a few buckets.

use std::alloc::{AllocError, Global};
use std::fmt;
use std::fmt::Write;
use std::sync::atomic::AtomicU64;
use std::sync::atomic::Ordering::SeqCst;
use std::time::Duration;

/// The longest time of each bucket but the last one: in microseconds, and in seconds as it is printed.
const BUCKETS: [(u64, &str); 7] = [
    (100, "0.0001"),
    (1_000, "0.001"),
    (5_000, "0.005"),
    (20_000, "0.02"),
    (100_000, "0.1"),
    (500_000, "0.5"),
    (2_500_000, "2.5"),
];

/// Counts that are all zero.
pub(crate) fn zeros(alloc: Global, count: usize) -> Result<Vec<AtomicU64>, AllocError> {
    let mut zeros = Vec::with_capacity(alloc, count)?;
    for _ in 0..count {
        zeros.push(AtomicU64::new(0))?;
    }
    Ok(zeros)
}

/// How often something took how long. Several threads may count.
#[derive(Drop)]
pub struct Histogram {
    /// A count for each bucket, and one for what took longer.
    counts: Vec<AtomicU64>,
    /// All times, in microseconds.
    sum: AtomicU64,
}

impl Histogram {
    /// A histogram of nothing.
    pub fn new(alloc: Global) -> Result<Histogram, AllocError> {
        Ok(Histogram {
            counts: zeros(alloc, BUCKETS.len() + 1)?,
            sum: AtomicU64::new(0),
        })
    }

    /// It took so long once more.
    pub fn count(&self, time: Duration) {
        let micros = u64::try_from(time.as_micros()).unwrap_or(u64::MAX);
        let place = BUCKETS.iter().position(|(most, _)| micros <= *most);
        if let Some(count) = self.counts.get(place.unwrap_or(BUCKETS.len())) {
            count.fetch_add(1, SeqCst);
            self.sum.fetch_add(micros, SeqCst);
        }
    }

    /// Puts the lines of the histogram of this name (Prometheus' text format). `label` is empty, or a label of each line.
    pub fn put<W: Write>(&self, out: &mut W, name: &str, label: &str) -> fmt::Result {
        let comma = if label.is_empty() { "" } else { "," };
        let mut all = 0u64;
        for (place, count) in self.counts.iter().enumerate() {
            all = all.saturating_add(count.load(SeqCst));
            let most = BUCKETS.get(place).map_or("+Inf", |(_, seconds)| *seconds);
            writeln!(out, "{name}_bucket{{{label}{comma}le=\"{most}\"}} {all}")?;
        }
        let sum = self.sum.load(SeqCst);
        let (seconds, micros) = (sum / 1_000_000, sum % 1_000_000);
        let (opening, closing) = if label.is_empty() {
            ("", "")
        } else {
            ("{", "}")
        };
        writeln!(
            out,
            "{name}_sum{opening}{label}{closing} {seconds}.{micros:06}"
        )?;
        writeln!(out, "{name}_count{opening}{label}{closing} {all}")
    }
}
