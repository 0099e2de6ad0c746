//! What a publisher with a bound holds, in numbers.

use crate::notice::Notice;
use std::alloc::{AllocError, Global};
use std::fmt;
use std::fmt::Write;
use std::sync::atomic::AtomicU64;
use std::sync::atomic::Ordering::SeqCst;

/// A publisher's bound, what is held of it, and the notice that it is reached. The thread that serves sets what is held, and others read it.
#[derive(Drop)]
pub struct BoundStatus {
    pub notice: Notice,
    publisher: String,
    most_values: u64,
    most_octets: u64,
    held_handles: AtomicU64,
    held_values: AtomicU64,
    held_octets: AtomicU64,
}

impl BoundStatus {
    /// The status of a publisher that may hold so many values and octets, and holds nothing yet.
    pub fn new(
        alloc: Global,
        publisher: &str,
        most_values: u64,
        most_octets: u64,
        notice: Notice,
    ) -> Result<BoundStatus, AllocError> {
        Ok(BoundStatus {
            notice,
            publisher: String::from_str(alloc, publisher)?,
            most_values,
            most_octets,
            held_handles: AtomicU64::new(0),
            held_values: AtomicU64::new(0),
            held_octets: AtomicU64::new(0),
        })
    }

    /// The publisher holds so many handles, values and octets now.
    pub fn set_held(&self, handles: u64, values: u64, octets: u64) {
        self.held_handles.store(handles, SeqCst);
        self.held_values.store(values, SeqCst);
        self.held_octets.store(octets, SeqCst);
    }

    /// Puts a line of this gauge for the publisher.
    fn put_line<W: Write>(&self, out: &mut W, name: &str, number: u64) -> fmt::Result {
        let publisher = self.publisher.as_str();
        writeln!(out, "{name}{{publisher=\"{publisher}\"}} {number}")
    }
}

/// A gauge of bounds: its name, its help, and its number of a bound.
#[derive(Clone, Copy)]
enum Gauge {
    HeldHandles,
    HeldValues,
    MostValues,
    HeldOctets,
    MostOctets,
}

impl Gauge {
    const ALL: [Gauge; 5] = [
        Gauge::HeldHandles,
        Gauge::HeldValues,
        Gauge::MostValues,
        Gauge::HeldOctets,
        Gauge::MostOctets,
    ];

    fn name(self) -> &'static str {
        match self {
            Gauge::HeldHandles => "handled_held_handles",
            Gauge::HeldValues => "handled_held_values",
            Gauge::MostValues => "handled_bound_values",
            Gauge::HeldOctets => "handled_held_octets",
            Gauge::MostOctets => "handled_bound_octets",
        }
    }

    fn help(self) -> &'static str {
        match self {
            Gauge::HeldHandles =>
                "Handles that a publisher with a bound holds; they have no bound.",
            Gauge::HeldValues => "Values that it holds.",
            Gauge::MostValues => "Values that it may hold.",
            Gauge::HeldOctets => "Octets that it holds, as a bound counts them.",
            Gauge::MostOctets => "Octets that it may hold.",
        }
    }

    fn number(self, status: &BoundStatus) -> u64 {
        match self {
            Gauge::HeldHandles => status.held_handles.load(SeqCst),
            Gauge::HeldValues => status.held_values.load(SeqCst),
            Gauge::MostValues => status.most_values,
            Gauge::HeldOctets => status.held_octets.load(SeqCst),
            Gauge::MostOctets => status.most_octets,
        }
    }
}

/// Puts what publishers with a bound hold and may hold (Prometheus' text format); nothing if there is no bound.
pub fn put_bounds<W: Write>(out: &mut W, bounds: &[BoundStatus]) -> fmt::Result {
    if bounds.is_empty() {
        return Ok(());
    }
    for gauge in Gauge::ALL {
        let (name, help) = (gauge.name(), gauge.help());
        writeln!(out, "# HELP {name} {help}\n# TYPE {name} gauge")?;
        for status in bounds {
            status.put_line(out, name, gauge.number(status))?;
        }
    }
    Ok(())
}
