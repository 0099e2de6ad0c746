//! The text of a batch.

ghost use Rattle.std.specs.Prelude.{◌≡◌, IfOk};
ghost use Rattle.hdl_msg.specs.RequestBody as requests;
ghost use Rattle.hdl_client.specs.Challenge.{plain_header};

use crate::fault::ArgumentFault;
use crate::key::read_key;
use crate::request::{RequestDetails, request_of, takes_values};
use crate::scripts::find_requester;
use crate::words::operation_in;
use hdl_client::{Batch, RequestMessage, Task, request_message};
use hdl_msg::{OpCode, RequestBody};
use hdl_name::Name;
use hdl_tenants::Tenants;
use hdl_value::Wire;
use std::alloc::Global;
use thiserror::Error;

/// The first line of a batch that can't be read, counted from 1, and what is wrong with it.
#[derive(Clone, Copy, Debug, PartialEq, Eq, Error)]
#[error("line {line}: {fault}")]
pub struct BatchFault {
    pub line: usize,
    pub fault: ArgumentFault,
}

/// A request whose values may still come: what its task is made of.
#[derive(Drop)]
struct Block {
    line: usize,
    title: String,
    wire: Wire,
    key: Option<usize>,
    operation: OpCode,
    handle: String,
    details: RequestDetails,
}

/// By whose layout values stand in the messages of a batch.
#[derive(Clone, Copy)]
pub enum Layouts<'t> {
    /// By this one in all of them.
    One(Wire),
    /// By that of the publisher who is asked.
    OfPublishers(&'t Tenants),
}

impl Layouts<'_> {
    /// That of a request about this handle.
    fn of(self, name: &Name) -> Wire {
        match self {
            Layouts::One(wire) => wire,
            Layouts::OfPublishers(tenants) => find_requester(tenants, name).wire,
        }
    }
}

/// What was read so far.
#[derive(Drop)]
struct Reader<'t> {
    alloc: Global,
    layouts: Layouts<'t>,
    batch: Batch,
    block: Option<Block>,
    /// The reference of a key, where its secret is the next line.
    reference: Option<String>,
}

fn message_of(
    alloc: Global,
    wire: Wire,
    operation: OpCode,
    handle: &str,
    details: RequestDetails,
) -> Result<RequestMessage, ArgumentFault> {
    let body = request_of(alloc, operation, handle, details)?;
    Ok(RequestMessage::new(alloc, wire, &body)?)
}

/// The message of a request, or what is wrong with its words.
pub(crate) fn message_or_fault(
    alloc: Global,
    wire: Wire,
    body: &RequestBody,
) -> Result<Vec<u8>, ArgumentFault>
    ensures { IfOk result (λ v. v.items ≡ requests.request_message wire plain_header body.now) }
{
    Ok(request_message(alloc, wire, body)?)
}

/// Why a line is no operation. A tab is named.
fn no_operation(line: &str) -> ArgumentFault {
    if line.contains('\t') {
        ArgumentFault::Tab
    } else {
        ArgumentFault::Operation
    }
}

/// The handle after an operation, and the indexes before it where the operation is to remove values.
fn handle_of<'a>(
    operation: OpCode,
    words: &'a str,
    details: &mut RequestDetails,
) -> Result<&'a str, ArgumentFault> {
    if operation != OpCode::RemoveValue {
        return Ok(words);
    }
    let Some((indexes, handle)) = words.split_once(':') else {
        return Err(ArgumentFault::Index);
    };
    for index in indexes.split(',') {
        details.push_index(index)?;
    }
    Ok(handle)
}

impl Reader<'_> {
    /// Ends the request that was begun.
    fn finish(&mut self) -> Result<(), ArgumentFault> {
        let Some(block) = self.block.take() else {
            return Ok(());
        };
        let Block {
            line,
            title,
            wire,
            key,
            operation,
            handle,
            details,
        } = block;
        let request = message_of(self.alloc, wire, operation, &handle, details)?;
        self.batch.tasks.push(Task {
            line,
            title,
            request,
            key,
        })?;
        Ok(())
    }

    /// Begins a request by its first line.
    fn begin(
        &mut self,
        line: usize,
        operation: OpCode,
        title: &str,
        words: &str,
    ) -> Result<(), ArgumentFault> {
        let mut details = RequestDetails::new(self.alloc);
        let handle = handle_of(operation, words, &mut details)?;
        let name = Name::read(self.alloc, handle.as_bytes())?;
        self.block = Some(Block {
            line,
            title: String::from_str(self.alloc, title)?,
            wire: self.layouts.of(&name),
            key: self.batch.keys.len().checked_sub(1),
            operation,
            handle: String::from_str(self.alloc, handle)?,
            details,
        });
        Ok(())
    }

    fn operation(&mut self, line: usize, text: &str) -> Result<(), ArgumentFault> {
        if text.starts_with('\u{feff}') {
            return Err(ArgumentFault::Mark);
        }
        let Some((word, rest)) = text.split_once(' ') else {
            return Err(no_operation(text));
        };
        if word == "AUTHENTICATE" {
            let Some(reference) = rest.strip_prefix("SECKEY:") else {
                return Err(ArgumentFault::Key);
            };
            self.reference = Some(String::from_str(self.alloc, reference)?);
            return Ok(());
        }
        match operation_in(word) {
            Some(operation) => self.begin(line, operation, text, rest),
            None => Err(no_operation(text)),
        }
    }

    fn value(&mut self, text: &str) -> Result<(), ArgumentFault> {
        match &mut self.block {
            Some(block) if takes_values(block.operation) => {
                block.details.push_value(self.alloc, text)
            }
            _ => Err(ArgumentFault::Stray),
        }
    }

    fn line(&mut self, line: usize, text: &str) -> Result<(), ArgumentFault> {
        if let Some(reference) = self.reference.take() {
            let key = read_key(self.alloc, &reference, text.as_bytes())?;
            self.batch.keys.push(key)?;
            return Ok(());
        }
        if text.starts_with(";;") {
            return Ok(());
        }
        if text.is_empty() {
            return self.finish();
        }
        if text.starts_with("OCTETS ") || text.starts_with(|c: char| c.is_ascii_digit()) {
            return self.value(text);
        }
        self.finish()?;
        self.operation(line, text)
    }
}

impl Reader<'_> {
    /// The line that is named for a fault at this line: the request's own, where the request as a whole is at fault.
    fn line_of(
        &self,
        line: usize,
        begun: Option<usize>,
        fault: ArgumentFault,
    ) -> (usize, ArgumentFault) {
        match fault {
            ArgumentFault::Missing | ArgumentFault::TooLong => (begun.unwrap_or(line), fault),
            _ => (line, fault),
        }
    }

    /// The line at which the request that may go on began.
    fn first_line(&self) -> Option<usize> {
        self.block.as_ref().map(|block| block.line)
    }

    /// Reads all lines.
    fn read(&mut self, text: &str) -> Result<(), (usize, ArgumentFault)> {
        let mut number = 0usize;
        for line in text.lines() {
            number = number.saturating_add(1);
            let begun = self.first_line();
            if let Err(fault) = self.line(number, line) {
                return Err(self.line_of(number, begun, fault));
            }
        }
        if self.reference.is_some() {
            return Err((number, ArgumentFault::NoSecret));
        }
        let begun = self.first_line();
        match self.finish() {
            Ok(()) => Ok(()),
            Err(fault) => Err(self.line_of(number, begun, fault)),
        }
    }
}

/// Reads a batch: blocks of an operation and its values, as users of the Handle.Net tools write them, divided by empty lines.
///
/// ```text
/// AUTHENTICATE SECKEY:300:0.NA/10        the key of all that follows; the next line is its secret
/// CREATE 10/a                            and a line for each value (hdl_value_lines); likewise ADD and MODIFY
/// DELETE 10/a
/// REMOVE 3,4:10/a                        the values with these indexes
/// ```
///
/// Lines that begin with `;;` are comments. Small letters do too, so that what `hdl explain` prints can be read. The first line that
/// can't be read is named; a request that lacks values or is too long is named by its own line. Values in the messages have these layouts.
pub fn read_batch(alloc: Global, layouts: Layouts<'_>, text: &str) -> Result<Batch, BatchFault> {
    let mut reader = Reader {
        alloc,
        layouts,
        batch: Batch {
            keys: Vec::new(alloc),
            tasks: Vec::new(alloc),
        },
        block: None,
        reference: None,
    };
    match reader.read(text) {
        Ok(()) => Ok(reader.batch),
        Err((line, fault)) => Err(BatchFault { line, fault }),
    }
}
