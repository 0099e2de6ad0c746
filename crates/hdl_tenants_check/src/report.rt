//! What a tenants text has, or all of its faults.

ghost use Rattle.std.specs.Prelude.{IfOk};
ghost use Rattle.std.specs.Str.Lines.{lines};
ghost use Rattle.hdl_tenants_check.specs.Report.{IsReportOf};

use crate::administrators::push_without_administrator;
use crate::judging::{Accepted, LineKind, kind_of};
use crate::reasons::{IN_WORDS, is_follow_up, reason_of, words_of};
use hdl_tenants::{TenantFault, Tenants};
use hdl_value::Wire;
use std::alloc::{AllocError, AllocFailed, Global};

/// A faulty line of a text, counted from 1, and what is wrong with it.
#[derive(Drop)]
pub struct LineFault {
    pub line: usize,
    pub words: String,
}

/// What a check found.
#[derive(Drop)]
pub enum Report {
    /// The text is accepted, and this is what it has, in lines.
    Accepted(String),
    /// Its faulty lines, in their order.
    Refused(Vec<LineFault>),
}

/// What was found of a text, line by line.
#[derive(Drop)]
struct TextCheck {
    alloc: Global,
    faults: Vec<LineFault>,
    /// The text so far, with an empty line in the place of each that is faulty.
    rest: String,
    line: usize,
}

impl TextCheck {
    fn new(alloc: Global) -> TextCheck {
        TextCheck {
            alloc,
            faults: Vec::new(alloc),
            rest: String::new(alloc),
            line: 0,
        }
    }

    fn push_fault(&mut self, line: usize, words: String) -> Result<(), AllocError> {
        self.faults.push(LineFault { line, words })?;
        Ok(())
    }

    /// Whether a fault that has this reason needs no line more: that values are in words is said once.
    fn is_said(&self, reason: &str) -> bool {
        reason == IN_WORDS
            && self
                .faults
                .iter()
                .any(|fault| fault.words.as_str() == IN_WORDS)
    }

    /// Judges the line of this kind with these fields. One that lacks just a faulty line is no fault more.
    fn judge<'a>(
        &mut self,
        accepted: &mut Accepted<'a>,
        kind: &LineKind<'_>,
        fields: &[&str],
        line: &'a str,
    ) -> Result<(), AllocError> {
        if let Some(fault) = accepted.judge(kind, line)? {
            let words = reason_of(self.alloc, accepted, kind, fields, fault)?;
            if !self.is_said(&words) && !is_follow_up(accepted, kind, fields, &words) {
                self.push_fault(self.line, words)?;
            }
            return accepted.note_faulty(kind, fields, line);
        }
        accepted.add(kind, fields, line)?;
        self.rest.push_str(line)
    }

    /// Looks at the next line.
    fn take<'a>(&mut self, accepted: &mut Accepted<'a>, line: &'a str) -> Result<(), AllocError> {
        self.line = self.line.saturating_add(1);
        let fields: Vec<&'a str> = line.split(' ').collect(self.alloc)?;
        let kind = kind_of(self.alloc, &fields);
        self.judge(accepted, &kind, &fields, line)
    }

    /// Looks at each line, of which those that are accepted stay there.
    fn take_lines<'a>(
        &mut self,
        accepted: &mut Accepted<'a>,
        text: &'a str,
    ) -> Result<(), AllocError> {
        for line in text.lines() {
            self.take(accepted, line)?;
            self.rest.push('\n')?;
        }
        Ok(())
    }

    /// Looks at each line.
    fn take_text(&mut self, text: &str) -> Result<(), AllocError> {
        let mut accepted = Accepted::new(self.alloc);
        self.take_lines(&mut accepted, text)
    }

    /// Looks at the lines together that are accepted one by one.
    fn take_whole(&mut self) -> Result<(), AllocError> {
        match Tenants::read(self.alloc, &self.rest) {
            Ok(_) => Ok(()),
            Err((_, TenantFault::Memory)) => Err(AllocError),
            Err((line, fault)) => {
                let words = words_of(self.alloc, fault)?;
                self.push_fault(line, words)
            }
        }
    }
}

/// The faulty lines of a text.
fn faults_of(alloc: Global, text: &str) -> Result<Vec<LineFault>, AllocError> {
    let mut found = TextCheck::new(alloc);
    found.take_text(text)?;
    found.take_whole()?;
    Ok(found.faults)
}

/// Says that a text is accepted exactly if the service accepts it.
pub fn check(alloc: Global, text: &str) -> Result<Report, AllocError>
    ensures { IfOk result (IsReportOf (lines text.now)) }
{
    match Tenants::read(alloc, text) {
        Ok(tenants) => Ok(Report::Accepted(summary(alloc, text, &tenants)?)),
        Err((_, TenantFault::Memory)) => Err(AllocError),
        Err(_) => Ok(Report::Refused(faults_of(alloc, text)?)),
    }
}

/// The prefixes of a publisher, by the lines of an accepted text.
fn push_prefixes(lines: &mut String, text: &str, publisher: &str) -> Result<(), AllocError> {
    for line in text.lines() {
        let mut fields = line.split(' ');
        if fields.next() != Some("prefix") {
            continue;
        }
        let prefix = fields.next().unwrap_or("");
        if fields.next() == Some(publisher) {
            lines.push(' ')?;
            lines.push_str(prefix)?;
        }
    }
    Ok(())
}

/// What is said of the layout of values behind a port: nothing of our profile's.
fn layout_words(wire: Wire) -> &'static str {
    match wire {
        Wire::Profile => "",
        Wire::HandleNet => " (handle-net)",
    }
}

/// What is said of a publisher's site information: nothing if it has none.
fn site_words(alloc: Global, site: Option<&[u8]>) -> Result<String, AllocError> {
    match site {
        Some(octets) => {
            let count = octets.len();
            format!(in alloc; ", {count} octets of site information")
        }
        None => Ok(String::new(alloc)),
    }
}

/// What an accepted text has: a line for each publisher, one for all values, and one for each prefix without an administrator.
fn summary(alloc: Global, text: &str, tenants: &Tenants) -> Result<String, AllocError> {
    let mut lines = String::new(alloc);
    for place in 0..tenants.publishers() {
        let Some((name, lanes, port)) = tenants.publisher(place) else {
            continue;
        };
        let connections = lanes.saturating_sub(1);
        let layout = layout_words(tenants.wire(place));
        let site = site_words(alloc, tenants.site(place))?;
        let line = format!(in alloc;
            "{name}: port {port}{layout}, {connections} lanes for connections{site}; prefixes"
        )?;
        lines.push_str(&line)?;
        push_prefixes(&mut lines, text, name)?;
        lines.push('\n')?;
    }
    let values = tenants.opening().len();
    let lanes = tenants.lanes();
    let line = format!(in alloc; "{lanes} of 64 lanes, {values} values\n")?;
    lines.push_str(&line)?;
    push_without_administrator(alloc, &mut lines, text, tenants)?;
    Ok(lines)
}
