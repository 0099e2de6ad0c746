//! Judging a line by the service's own reader.

use crate::lines_by_key::LinesByKey;
use hdl_name::Name;
use hdl_tenants::{TenantFault, Tenants};
use std::alloc::{AllocError, Global};

/// The one key of the lines of publishers.
const PUBLISHERS: &[u8] = b"";

/// What a line says, as far as that decides what it rests on.
#[derive(Drop)]
pub(crate) enum LineKind<'a> {
    Publisher,
    Prefix(&'a str),
    Site(&'a str),
    Value(Name),
    Other,
}

/// The kind of the line with these fields.
pub(crate) fn kind_of<'a>(alloc: Global, fields: &[&'a str]) -> LineKind<'a> {
    let Some(word) = fields.first() else {
        return LineKind::Other;
    };
    let Some(subject) = fields.get(1) else {
        return LineKind::Other;
    };
    if *word == "publisher" {
        return LineKind::Publisher;
    }
    if *word == "prefix" {
        return LineKind::Prefix(*subject);
    }
    if *word == "site" {
        return LineKind::Site(*subject);
    }
    if *word != "value" {
        return LineKind::Other;
    }
    match Name::read(alloc, subject.as_bytes()) {
        Ok(name) => LineKind::Value(name),
        Err(_) => LineKind::Other,
    }
}

/// The accepted lines that others rest on, and the faulty ones that others would rest on.
#[derive(Drop)]
pub(crate) struct Accepted<'a> {
    alloc: Global,
    publishers: LinesByKey<'a>,
    prefixes: LinesByKey<'a>,
    /// By publisher.
    sites: LinesByKey<'a>,
    /// By handle, in canonical form.
    values: LinesByKey<'a>,
    /// The accepted lines of publishers, by publisher.
    named_publishers: LinesByKey<'a>,
    /// By publisher.
    faulty_publishers: LinesByKey<'a>,
    /// By prefix, in canonical form.
    faulty_prefixes: LinesByKey<'a>,
}

impl<'a> Accepted<'a> {
    pub(crate) fn new(alloc: Global) -> Accepted<'a> {
        Accepted {
            alloc,
            publishers: LinesByKey::new(alloc),
            prefixes: LinesByKey::new(alloc),
            sites: LinesByKey::new(alloc),
            values: LinesByKey::new(alloc),
            named_publishers: LinesByKey::new(alloc),
            faulty_publishers: LinesByKey::new(alloc),
            faulty_prefixes: LinesByKey::new(alloc),
        }
    }

    /// The accepted lines that a line of this kind rests on.
    fn context_lines(&self, kind: &LineKind<'_>) -> Result<String, AllocError> {
        let mut text = String::new(self.alloc);
        match kind {
            LineKind::Publisher => self.publishers.push_to(&mut text, PUBLISHERS)?,
            LineKind::Prefix(prefix) => {
                self.publishers.push_to(&mut text, PUBLISHERS)?;
                self.prefixes.push_to(&mut text, prefix.as_bytes())?;
            }
            LineKind::Site(publisher) => {
                self.publishers.push_to(&mut text, PUBLISHERS)?;
                self.sites.push_to(&mut text, publisher.as_bytes())?;
            }
            LineKind::Value(name) => {
                self.publishers.push_to(&mut text, PUBLISHERS)?;
                self.prefixes.push_to(&mut text, name.prefix())?;
                self.values.push_to(&mut text, name.canon())?;
            }
            LineKind::Other => {}
        }
        Ok(text)
    }

    /// What the service says of the line after those that it rests on.
    pub(crate) fn judge(
        &self,
        kind: &LineKind<'_>,
        line: &str,
    ) -> Result<Option<TenantFault>, AllocError> {
        let mut text = self.context_lines(kind)?;
        text.push_str(line)?;
        match Tenants::read(self.alloc, &text) {
            Ok(_) => Ok(None),
            Err((_, TenantFault::Memory)) => Err(AllocError),
            Err((_, fault)) => Ok(Some(fault)),
        }
    }

    /// Adds the accepted line of this kind with these fields.
    pub(crate) fn add(
        &mut self,
        kind: &LineKind<'_>,
        fields: &[&str],
        line: &'a str,
    ) -> Result<(), AllocError> {
        if let (LineKind::Publisher, [_, name, ..]) = (kind, fields) {
            self.named_publishers.add(name.as_bytes(), line)?;
        }
        match kind {
            LineKind::Publisher => self.publishers.add(PUBLISHERS, line),
            LineKind::Prefix(prefix) => self.prefixes.add(prefix.as_bytes(), line),
            LineKind::Site(publisher) => self.sites.add(publisher.as_bytes(), line),
            LineKind::Value(name) => self.values.add(name.canon(), line),
            LineKind::Other => Ok(()),
        }
    }

    /// Notes that the line of this kind with these fields is faulty.
    pub(crate) fn note_faulty(
        &mut self,
        kind: &LineKind<'_>,
        fields: &[&str],
        line: &'a str,
    ) -> Result<(), AllocError> {
        match (kind, fields) {
            (LineKind::Publisher, [_, name, ..]) => {
                self.faulty_publishers.add(name.as_bytes(), line)
            }
            (LineKind::Prefix(prefix), _) => {
                let prefix = prefix.to_ascii_lowercase(self.alloc)?;
                self.faulty_prefixes.add(prefix.as_bytes(), line)
            }
            _ => Ok(()),
        }
    }

    /// Whether lines of this publisher stand before, and each is faulty.
    pub(crate) fn has_faulty_publisher(&self, name: &str) -> bool {
        self.faulty_publishers.has(name.as_bytes()) && !self.named_publishers.has(name.as_bytes())
    }

    /// Whether a line of this prefix stands before that is faulty.
    pub(crate) fn has_faulty_prefix(&self, prefix: &[u8]) -> bool {
        self.faulty_prefixes.has(prefix)
    }

    /// Whether a line of a prefix stands before.
    pub(crate) fn has_prefix(&self, prefix: &[u8]) -> bool {
        self.prefixes.has(prefix)
    }

    /// How many lines of the handle's values stand before.
    pub(crate) fn value_count(&self, name: &Name) -> usize {
        self.values.count(name.canon())
    }
}
