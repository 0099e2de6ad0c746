//! The rows of a CSV file, cut into handles.

ghost use Rattle.std.specs.Prelude.{◌≡◌, ◌∷◌, ◌++◌, [], Ok, OnOk, IfOk};
ghost use Rattle.csv.specs.Records.{fields_of};
ghost use Rattle.hdl_value.specs.declared.value.Value.{Value};
ghost use Rattle.hdl_commands.specs.Rows as said;

use crate::fault::ArgumentFault;
use crate::imports::columns::{Columns, columns_of, fields_in, is_closed};
use crate::imports::creation::creation_task;
use crate::imports::row::value_in_row;
use crate::imports::together::HandlesSoFar;
use crate::warnings::{Warning, warning_of};
use csv::ByteRecord;
use hdl_client::Task;
use hdl_value::{RawRef, Value, Wire};
use hdl_value_lines::{LineFault, cut_at};
use std::alloc::{AllocError, Global};
use std::mem;

/// How many handles are asked for first: what the server refuses of it, it refuses of all.
const FIRST_PART: usize = 1;

/// How many are asked for at a time after that.
const PART: usize = 1000;

/// Is informed of what isn't imported of a file, or may not be meant so.
pub(crate) trait Faults {
    /// This line, a row of this handle, is at fault.
    fn note_fault(&mut self, line: usize, handle: &[u8], fault: ArgumentFault);

    /// One more handle isn't created.
    fn left_out(&mut self);

    /// The row at this line, of this handle, may not be meant so.
    fn note_warning(&mut self, line: usize, handle: &[u8], warning: Warning);
}

/// What is wrong with data that is no text on one line.
fn data_fault(data: &[u8]) -> ArgumentFault {
    match data {
        [] => ArgumentFault::NoData,
        [b' ', ..] | [.., b' '] => ArgumentFault::DataSpace,
        _ if std::str::from_utf8(data).is_err() => ArgumentFault::DataNotUtf8,
        _ => ArgumentFault::Value(LineFault::Text),
    }
}

/// What stands between the fields of a file with this header. Spreadsheets write a semicolon if the country's decimal mark is a comma.
fn separator_of(header: &[u8]) -> Result<u8, ArgumentFault> {
    match header {
        [0xFF, 0xFE, ..] | [0xFE, 0xFF, ..] => Err(ArgumentFault::Utf16),
        _ if header.contains(&b',') => Ok(b','),
        _ if header.contains(&b';') => Ok(b';'),
        _ if header.contains(&b'\t') => Err(ArgumentFault::Tabs),
        _ => Ok(b','),
    }
}

/// How the rows of a file are read, and what is made of them.
#[derive(Drop)]
pub(crate) struct RowFormat {
    /// The layout of values in the requests.
    pub wire: Wire,
    /// The key of the administrator that a handle without one gets.
    pub key: RawRef,
    /// The TTL of a row that says none.
    pub ttl: u32,
    /// Whether the values of the rows are kept beside the tasks.
    pub keeps_rows: bool,
}

/// Handles of a file: the tasks that create them, and, where they are kept, the values of each one's rows.
#[derive(Drop)]
pub(crate) struct Part {
    pub tasks: Vec<Task>,
    pub rows: Vec<Vec<Value>>,
}

impl Part {
    pub fn new(alloc: Global) -> Part {
        Part {
            tasks: Vec::new(alloc),
            rows: Vec::new(alloc),
        }
    }

    fn clear(&mut self) {
        self.tasks.clear();
        self.rows.clear();
    }
}

/// Copies of values.
pub(crate) fn copies(alloc: Global, values: &[Value]) -> Result<Vec<Value>, AllocError>
    ensures { IfOk result (λ all. all.items ≡ values.now) }
{
    let mut all = Vec::new(alloc);
    for value in values {
        all.push(value.copy(alloc)?)?;
    }
    Ok(all)
}

fn is_blank(fields: &ByteRecord) -> bool {
    for place in 0..fields.len() {
        if fields.get(place) != Some(b"") {
            return false;
        }
    }
    true
}

/// A handle, and the values of its rows so far.
#[derive(Drop)]
struct Entry {
    line: usize,
    handle: Vec<u8>,
    values: Vec<Value>,
    rows: u32,
    is_faulty: bool,
}

impl Entry {
    /// Adds the value of one more row.
    fn push_row(
        &mut self,
        alloc: Global,
        columns: &Columns,
        ttl: u32,
        fields: &ByteRecord,
    ) -> Result<(), ArgumentFault>
        ensures { OnOk result ((v : Value) × (self.new.values.items ≡ self.old.values.items ++ v ∷ []) × (said.value_in_row columns.now ttl self.new.rows (fields_of fields.now) ≡ Ok v)) }
    {
        self.rows = self.rows.saturating_add(1);
        let value = match value_in_row(alloc, columns, ttl, self.rows, fields) {
            Ok(value) => value,
            Err(LineFault::Text) => {
                return Err(data_fault(fields.get(columns.bytes).unwrap_or(b"")));
            }
            Err(fault) => return Err(fault.into()),
        };
        if value.is_secret_key() {
            return Err(ArgumentFault::KeyInFile);
        }
        self.values.push(value)?;
        Ok(())
    }
}

/// The rows that are left of a file.
#[derive(Drop)]
pub(crate) struct HandleRows<'t> {
    alloc: Global,
    row_format: RowFormat,
    separator: u8,
    pub columns: Columns,
    /// How many fields a row has.
    width: usize,
    rest: &'t [u8],
    /// How many lines were taken.
    lines: usize,
    /// How many handles are read next at most.
    most: usize,
    entry: Option<Entry>,
}

/// The first line without its end, and what follows.
fn line_of(text: &[u8]) -> (&[u8], &[u8]) {
    let (line, rest) = cut_at(text, b'\n').unwrap_or((text, b""));
    match line {
        [front @ .., b'\r'] => (front, rest),
        _ => (line, rest),
    }
}

/// Whether a CR stands in a line, after which there would be a record more.
fn has_return(line: &[u8]) -> bool {
    line.contains(&b'\r')
}

impl<'t> HandleRows<'t> {
    /// The rows after the header of this text.
    pub fn new(
        alloc: Global,
        row_format: RowFormat,
        text: &'t [u8],
    ) -> Result<HandleRows<'t>, ArgumentFault> {
        let (header, rest) = line_of(text);
        let separator = separator_of(header)?;
        if has_return(header) {
            return Err(ArgumentFault::Return);
        }
        let Some(names) = fields_in(alloc, separator, header)? else {
            return Err(ArgumentFault::Column("handle"));
        };
        Ok(HandleRows {
            alloc,
            row_format,
            separator,
            columns: columns_of(&names)?,
            width: names.len(),
            rest,
            lines: 1,
            most: FIRST_PART,
            entry: None,
        })
    }

    fn next_line(&mut self) -> Option<&'t [u8]> {
        if self.rest.is_empty() {
            return None;
        }
        let (line, rest) = line_of(self.rest);
        self.rest = rest;
        self.lines = self.lines.saturating_add(1);
        Some(line)
    }

    /// Adds the task of a handle with these values, and where they are kept the values.
    fn push_task(
        &self,
        part: &mut Part,
        line: usize,
        handle: &[u8],
        values: Vec<Value>,
    ) -> Result<(), ArgumentFault> {
        let RowFormat { wire, key, .. } = &self.row_format;
        let rows = if self.row_format.keeps_rows {
            copies(self.alloc, &values)?
        } else {
            Vec::new(self.alloc)
        };
        let task = creation_task(self.alloc, *wire, key, line, handle, values)?;
        part.rows.push(rows)?;
        part.tasks.push(task)?;
        Ok(())
    }

    /// Ends the handle that was begun: its task is the next one.
    fn finish<F: Faults>(&mut self, part: &mut Part, faults: &mut F) {
        let Some(entry) = self.entry.take() else {
            return;
        };
        let Entry {
            line,
            handle,
            values,
            is_faulty,
            ..
        } = entry;
        if is_faulty {
            return faults.left_out();
        }
        if let Err(fault) = self.push_task(part, line, &handle, values) {
            faults.note_fault(line, &handle, fault);
            faults.left_out();
        }
    }

    fn is_begun(&self, handle: &[u8]) -> bool {
        match &self.entry {
            Some(entry) => entry.handle.as_slice() == handle,
            None => false,
        }
    }

    fn begin(&mut self, handle: &[u8]) -> Result<(), AllocError> {
        self.entry = Some(Entry {
            line: self.lines,
            handle: Vec::from_slice(self.alloc, handle)?,
            values: Vec::new(self.alloc),
            rows: 0,
            is_faulty: false,
        });
        Ok(())
    }

    fn push(&mut self, line: &[u8], fields: &ByteRecord) -> Result<(), ArgumentFault> {
        if has_return(line) {
            return Err(ArgumentFault::Return);
        }
        if !is_closed(line) {
            return Err(ArgumentFault::Quote);
        }
        if fields.len() != self.width {
            return Err(ArgumentFault::Fields);
        }
        match &mut self.entry {
            Some(entry) => entry.push_row(self.alloc, &self.columns, self.row_format.ttl, fields),
            None => Ok(()),
        }
    }

    /// Takes a line. One without a field that says something is passed over: spreadsheets write such lines.
    fn take<F: Faults>(
        &mut self,
        line: &[u8],
        part: &mut Part,
        faults: &mut F,
    ) -> Result<(), ArgumentFault> {
        let Some(fields) = fields_in(self.alloc, self.separator, line)? else {
            return Ok(());
        };
        if is_blank(&fields) {
            return Ok(());
        }
        let handle = fields.get(self.columns.handle).unwrap_or(b"");
        if !self.is_begun(handle) {
            self.finish(part, faults);
            self.begin(handle)?;
        }
        self.push(line, &fields)?;
        let kind = fields.get(self.columns.kind).unwrap_or(b"");
        let octets = fields.get(self.columns.bytes).unwrap_or(b"");
        if let Some(warning) = warning_of(kind, octets) {
            faults.note_warning(self.lines, handle, warning);
        }
        Ok(())
    }

    /// Tells what is wrong with the last line, and marks the handle that was begun, if one was: it isn't created.
    fn spoil<F: Faults>(&mut self, faults: &mut F, fault: ArgumentFault) {
        match &mut self.entry {
            Some(entry) => {
                entry.is_faulty = true;
                faults.note_fault(self.lines, &entry.handle, fault);
            }
            None => {
                faults.note_fault(self.lines, b"", fault);
                faults.left_out();
            }
        }
    }

    /// How many rows were read, those of a handle that was only begun not among them.
    pub fn rows(&self) -> usize {
        let lines = match &self.entry {
            Some(entry) => entry.line.saturating_sub(1),
            None => self.lines,
        };
        lines.saturating_sub(1)
    }

    /// The handle of a line; None if the line says nothing.
    fn handle_in(&self, line: &[u8]) -> Result<Option<Vec<u8>>, AllocError> {
        let Some(fields) = fields_in(self.alloc, self.separator, line)? else {
            return Ok(None);
        };
        if is_blank(&fields) {
            return Ok(None);
        }
        let handle = fields.get(self.columns.handle).unwrap_or(b"");
        Ok(Some(Vec::from_slice(self.alloc, handle)?))
    }

    /// Tells each line at which rows of a handle go on after rows of others. Answers whether there is one.
    pub fn note_apart<F: Faults>(&self, faults: &mut F) -> Result<bool, AllocError> {
        let mut so_far = HandlesSoFar::new(self.alloc);
        let (mut rest, mut number, mut is_apart) = (self.rest, self.lines, false);
        for _ in 0..u64::MAX {
            if rest.is_empty() {
                break;
            }
            let (line, after) = line_of(rest);
            rest = after;
            number = number.saturating_add(1);
            let Some(handle) = self.handle_in(line)? else {
                continue;
            };
            if let Some(first) = so_far.note(number, &handle)? {
                faults.note_fault(number, &handle, ArgumentFault::Apart(first));
                is_apart = true;
            }
        }
        Ok(is_apart)
    }

    /// Has the next call of [`HandleRows::fill`] read one handle, as the first did.
    pub fn read_one(&mut self) {
        self.most = FIRST_PART;
    }

    /// Reads the first handle, then at each call the next thousand, or those that are left: none where no row is.
    pub fn fill<F: Faults>(&mut self, part: &mut Part, faults: &mut F) {
        part.clear();
        let most = mem::replace(&mut self.most, PART);
        for _ in 0..u64::MAX {
            if part.tasks.len() >= most {
                return;
            }
            let Some(line) = self.next_line() else {
                break;
            };
            if let Err(fault) = self.take(line, part, faults) {
                self.spoil(faults, fault);
            }
        }
        self.finish(part, faults);
    }
}
