//! What is done with each handle of a replacement.

use crate::advice::{Asked, KeyWords, advice};
use crate::imports::{row_of, whole_values};
use crate::replaces::asking::ReplaceOptions;
use crate::replaces::data::all_replaced;
use crate::replaces::fault::ReplaceFault;
use crate::words::{code_name, line_of};
use hdl_client::{ClientFault, Key, Session, Transport};
use hdl_limits::{Items, Octets};
use hdl_msg::{ContentView, OpCode, RequestBody, ResponseCode};
use hdl_name::Name;
use hdl_value::{URL, Value};
use hdl_value_lines::printed_octets;
use std::alloc::{AllocError, Global};
use std::fs::File;
use std::io::Write;

/// How many handles came to what.
#[derive(Clone, Copy)]
pub(crate) struct Counts {
    pub changed: usize,
    pub kept: usize,
    pub failed: usize,
}

impl Counts {
    /// Counts what came of a handle. A fault of the connection is none of the handle's.
    fn count(&mut self, done: &Result<Outcome, ReplaceFault>) {
        match done {
            Ok(Outcome::Changed) => self.changed = self.changed.saturating_add(1),
            Ok(Outcome::Kept) => self.kept = self.kept.saturating_add(1),
            Ok(Outcome::Failed) => self.failed = self.failed.saturating_add(1),
            Err(fault) => {
                if fault.is_refusal() {
                    self.failed = self.failed.saturating_add(1);
                }
            }
        }
    }
}

/// What each handle is done with.
#[derive(Drop)]
pub(crate) struct ReplaceRun<'r> {
    pub rt: &'r HostRuntime,
    pub replacement: &'r ReplaceOptions,
    pub key: Key,
    /// The prefix in canonical form.
    pub prefix: Vec<u8>,
    /// What the old values are written to.
    pub undo: Option<File>,
    /// Whether some were.
    pub has_old: bool,
    pub counts: Counts,
}

/// What comes of a handle.
#[derive(Clone, Copy)]
enum Outcome {
    Changed,
    Kept,
    Failed,
}

/// The URLs of a handle, or the code that came instead.
fn urls_of<S: Transport>(
    alloc: Global,
    session: &mut Session<S>,
    replace_run: &ReplaceRun<'_>,
    handle: &[u8],
) -> Result<Result<Vec<Value>, u32>, ClientFault> {
    let mut types = Vec::new(alloc);
    types.push(Octets::new(Vec::from_slice(alloc, URL)?))?;
    let body = RequestBody::Resolution {
        handle: Octets::new(Vec::from_slice(alloc, handle)?),
        indexes: Items::new(Vec::new(alloc)),
        types: Items::new(types),
    };
    let reply = session.ask(replace_run.replacement.wire, &body, Some(&replace_run.key))?;
    let view = reply.view();
    match view.content {
        ContentView::Values { values, .. } => match whole_values(alloc, values)? {
            Some(values) => Ok(Ok(values)),
            None => Ok(Err(ResponseCode::ValueInvalid.number())),
        },
        _ if view.code() == Some(ResponseCode::ValueNotFound) => Ok(Ok(Vec::new(alloc))),
        _ => Ok(Err(view.header.response_code)),
    }
}

impl ReplaceRun<'_> {
    fn report(&self, handle: &[u8], what: &str) -> Result<(), AllocError> {
        let handle = printed_octets(self.rt.alloc(), handle)?;
        let _ = println!(self.rt; "{handle}: {what}");
        Ok(())
    }

    /// Says that a request of this operation was answered by a code, and what to do.
    fn report_code(&self, handle: &[u8], operation: OpCode, code: u32) -> Result<(), AllocError> {
        let alloc = self.rt.alloc();
        let asked = Asked {
            operation,
            handle,
            keys: KeyWords::Options,
        };
        let more = advice(alloc, &asked, code)?;
        let what = format!(in alloc; "{code} {}{more}", code_name(code))?;
        self.report(handle, &what)
    }

    /// Prints a value behind a sign.
    fn report_value(&self, sign: &str, value: &Value) -> Result<(), AllocError> {
        let alloc = self.rt.alloc();
        let Some(line) = line_of(alloc, value)? else {
            return Ok(());
        };
        let line = printed_octets(alloc, &line)?;
        let _ = println!(self.rt; "{sign} {line}");
        Ok(())
    }

    /// Says what of a handle is changed.
    fn report_change(
        &self,
        handle: &[u8],
        there: &[Value],
        changed: &[Value],
    ) -> Result<(), AllocError> {
        let is_dry = self.replacement.is_dry;
        self.report(
            handle,
            if is_dry {
                "would be changed"
            } else {
                "changed"
            },
        )?;
        for value in changed {
            for old in there.iter().filter(|old| old.index == value.index) {
                self.report_value("-", old)?;
            }
            self.report_value("+", value)?;
        }
        Ok(())
    }

    /// The rows of the values that will be changed; None where no row says one of them.
    fn undo_rows(
        &self,
        handle: &[u8],
        there: &[Value],
        changed: &[Value],
    ) -> Result<Option<Vec<u8>>, AllocError> {
        let alloc = self.rt.alloc();
        let mut rows = Vec::new(alloc);
        for old in there {
            if !changed.iter().any(|value| value.index == old.index) {
                continue;
            }
            let Some(row) = row_of(alloc, handle, old)? else {
                return Ok(None);
            };
            rows.extend_from_slice(&row)?;
            rows.push(b'\n')?;
        }
        Ok(Some(rows))
    }

    /// Writes the old values, before they are changed. Answers whether rows say them, or no file is wanted.
    fn keep_old(
        &mut self,
        handle: &[u8],
        there: &[Value],
        changed: &[Value],
    ) -> Result<bool, ReplaceFault> {
        if self.undo.is_none() {
            return Ok(true);
        }
        let Some(rows) = self.undo_rows(handle, there, changed)? else {
            return Ok(false);
        };
        if let Some(file) = &mut self.undo {
            if let Err(error) = file.write_all(&rows) {
                return Err(ReplaceFault::Unwritten(error));
            }
            self.has_old = true;
        }
        Ok(true)
    }

    /// Modifies values of a handle, and tells it.
    fn modify<S: Transport>(
        &self,
        session: &mut Session<S>,
        handle: &[u8],
        there: &[Value],
        changed: Vec<Value>,
    ) -> Result<Outcome, ReplaceFault> {
        let alloc = self.rt.alloc();
        let body = RequestBody::Modify {
            handle: Octets::new(Vec::from_slice(alloc, handle)?),
            values: Items::new(changed),
        };
        let code = match session.ask(self.replacement.wire, &body, Some(&self.key)) {
            Ok(reply) => reply.view().header.response_code,
            Err(ClientFault::TooLong) => {
                self.report(handle, "the request has more than 65536 octets")?;
                return Ok(Outcome::Failed);
            }
            Err(fault) => return Err(fault.into()),
        };
        if code != ResponseCode::Success.number() {
            self.report_code(handle, OpCode::ModifyValue, code)?;
            return self.failed(code);
        }
        if let RequestBody::Modify { values, .. } = &body {
            self.report_change(handle, there, values.as_slice())?;
        }
        Ok(Outcome::Changed)
    }

    /// What a code of failure comes to: one that refuses the key, or any change, ends all.
    fn failed(&self, code: u32) -> Result<Outcome, ReplaceFault> {
        match ResponseCode::of(code) {
            Some(ResponseCode::AuthenticationFailed | ResponseCode::UnableToAuthenticate) => {
                Err(ReplaceFault::Refused)
            }
            Some(ResponseCode::OperationDenied) => Err(ReplaceFault::ReadOnly),
            _ => Ok(Outcome::Failed),
        }
    }

    /// Whether the octets are a handle of the prefix.
    fn is_own(&self, handle: &[u8]) -> bool {
        match Name::read(self.rt.alloc(), handle) {
            Ok(name) => name.prefix() == self.prefix.as_slice(),
            Err(_) => false,
        }
    }

    fn replace_one<S: Transport>(
        &mut self,
        session: &mut Session<S>,
        handle: &[u8],
    ) -> Result<Outcome, ReplaceFault> {
        let alloc = self.rt.alloc();
        if !self.is_own(handle) {
            self.report(handle, "not a handle of this prefix")?;
            return Ok(Outcome::Failed);
        }
        let there = match urls_of(alloc, session, self, handle)? {
            Ok(values) => values,
            Err(code) => {
                self.report_code(handle, OpCode::Resolution, code)?;
                return self.failed(code);
            }
        };
        let (old, new) = (&self.replacement.old, &self.replacement.new);
        let changed = all_replaced(alloc, old.as_bytes(), new.as_bytes(), &there)?;
        if changed.is_empty() {
            return Ok(Outcome::Kept);
        }
        if self.replacement.is_dry {
            self.report_change(handle, &there, &changed)?;
            return Ok(Outcome::Changed);
        }
        if !self.keep_old(handle, &there, &changed)? {
            self.report(
                handle,
                "no row of a CSV file says an old value: change it with `hdl batch`",
            )?;
            return Ok(Outcome::Failed);
        }
        self.modify(session, handle, &there, changed)
    }

    /// Replaces in each of these handles, one after the other.
    pub fn replace_all<S: Transport>(
        &mut self,
        session: &mut Session<S>,
        handles: &[Vec<u8>],
    ) -> Result<(), ReplaceFault> {
        for handle in handles {
            let done = self.replace_one(session, handle);
            self.counts.count(&done);
            done?;
        }
        Ok(())
    }
}
