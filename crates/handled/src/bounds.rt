//! The bounds of the command line, once the tenants text was read.

use hdl_core::Tenants;
use hdl_host::{Amount, Bound};
use hdl_name::Name;
use hdl_programs::ExitStatus;
use hdl_server_options::BoundOption;
use hdl_tables::{has_publisher, publisher_names};
use std::alloc::{AllocError, AllocFailed, Global};
use std::fmt;

/// Why a server can't have its bounds.
#[derive(Drop)]
pub enum BoundFault {
    Memory,
    /// The text has no publisher of this name, but those of these names.
    Unknown(String, String),
    /// What the text opens with is more than the bound of this publisher.
    Beyond {
        publisher: String,
        opened: Amount,
        most: Amount,
    },
}

impl fmt::Display for BoundFault {
    fn fmt<W: fmt::Write>(&self, f: &mut fmt::Formatter<W>) -> fmt::Result {
        match self {
            BoundFault::Memory => write!(f, "no memory"),
            BoundFault::Unknown(publisher, names) => {
                write!(
                    f,
                    "error: invalid value '{publisher}' for '--bound <NAME=VALUES,OCTETS>': the tenants text has no publisher of this name: it has {names}\n\nFor more information, try '--help'."
                )
            }
            BoundFault::Beyond {
                publisher,
                opened,
                most,
            } => {
                write!(
                    f,
                    "tenants: {publisher} opens with {opened}, and its bound is {most}: raise --bound, or remove values from the text"
                )
            }
        }
    }
}

impl From<AllocError> for BoundFault {
    fn from(_: AllocError) -> BoundFault {
        BoundFault::Memory
    }
}

impl<T: Drop> From<AllocFailed<T>> for BoundFault {
    fn from(_: AllocFailed<T>) -> BoundFault {
        BoundFault::Memory
    }
}

impl BoundFault {
    /// How the run ends.
    pub fn status(&self) -> ExitStatus {
        match self {
            BoundFault::Memory => ExitStatus::Failure,
            BoundFault::Unknown(_, _) => ExitStatus::Arguments,
            BoundFault::Beyond { .. } => ExitStatus::Tenants,
        }
    }
}

/// The prefix that a line of an accepted text gives to this publisher.
fn prefix_on<'a>(line: &'a str, publisher: &str) -> Option<&'a str> {
    let mut fields = line.split(' ');
    if fields.next() != Some("prefix") {
        return None;
    }
    let prefix = fields.next()?;
    if fields.next() == Some(publisher) {
        Some(prefix)
    } else {
        None
    }
}

/// The bound of a word, with the prefixes that the text gives to its publisher.
fn bound_of(alloc: Global, word: BoundOption, text: &str) -> Result<Bound, AllocError> {
    let BoundOption {
        publisher,
        values,
        octets,
    } = word;
    let most = Amount { values, octets };
    let mut roots = Vec::new(alloc);
    for line in text.lines() {
        if let Some(prefix) = prefix_on(line, publisher.as_str()) {
            roots.push(format!(in alloc; "0.NA/{prefix}")?)?;
        }
    }
    let mut bound = Bound::new(alloc, publisher, most);
    for root in &roots {
        if let Ok(root) = Name::read(alloc, root.as_bytes()) {
            bound.add(root)?;
        }
    }
    Ok(bound)
}

/// The bounds of the words, over an accepted text and what was read of it.
pub fn bounds_of(
    alloc: Global,
    words: Vec<BoundOption>,
    text: &str,
    tenants: &Tenants,
) -> Result<Vec<Bound>, BoundFault> {
    let mut bounds = Vec::new(alloc);
    for word in words {
        if !has_publisher(tenants, word.publisher.as_str()) {
            let names = publisher_names(alloc, tenants)?;
            return Err(BoundFault::Unknown(word.publisher, names));
        }
        let bound = bound_of(alloc, word, text)?;
        let opened = bound.amount_of_rows(alloc, tenants.opening())?;
        if !opened.fits(bound.most) {
            return Err(BoundFault::Beyond {
                publisher: bound.publisher,
                opened,
                most: bound.most,
            });
        }
        bounds.push(bound)?;
    }
    Ok(bounds)
}
