//! What is there of the handles of a file, asked before anything is changed.

ghost use Rattle.std.specs.Prelude.{◌≡◌, All, IfOk, OnOk};
ghost use Rattle.hdl_commands.specs.Update.{IsReading, OnlyReads};

use crate::imports::counts::{Counts, print_code, print_line};
use crate::imports::rows::Part;
use hdl_client::{Batch, ClientFault, Outcomes, RequestMessage, Session, Task, Transport};
use hdl_limits::{Items, Octets};
use hdl_msg::{ContentView, OpCode, ReplyView, RequestBody, ResponseCode, Values};
use hdl_value::{Value, ValueFault};
use std::alloc::{AllocError, Global};

/// What is there of the handle whose rows begin at this line: of the values that were asked for, or None where the handle isn't there.
#[derive(Drop)]
pub(crate) struct Reading {
    pub line: usize,
    pub there: Option<Vec<Value>>,
}

/// What comes of the questions for handles.
#[derive(Drop)]
pub(crate) struct Readings<'r> {
    pub rt: &'r HostRuntime,
    pub counts: Counts,
    pub found: Vec<Reading>,
}

/// All of the values, each whole. None where one of them breaks the limits of values.
pub(crate) fn whole_values(
    alloc: Global,
    values: Values<'_>,
) -> Result<Option<Vec<Value>>, AllocError> {
    let mut all = Vec::new(alloc);
    for cut in values {
        match cut.read(alloc) {
            Ok(value) => all.push(value)?,
            Err(ValueFault::Memory) => return Err(AllocError),
            Err(_) => return Ok(None),
        }
    }
    Ok(Some(all))
}

/// What a reply says of a handle; None where it says neither its values nor that none of them, or not even the handle, is there.
fn reading_of(
    alloc: Global,
    line: usize,
    reply: &ReplyView<'_>,
) -> Result<Option<Reading>, AllocError> {
    if let ContentView::Values { values, .. } = reply.content {
        let there = whole_values(alloc, values)?;
        return Ok(there.map(|values| Reading {
            line,
            there: Some(values),
        }));
    }
    match reply.code() {
        Some(ResponseCode::HandleNotFound) => Ok(Some(Reading { line, there: None })),
        Some(ResponseCode::ValueNotFound) => Ok(Some(Reading {
            line,
            there: Some(Vec::new(alloc)),
        })),
        _ => Ok(None),
    }
}

impl Readings<'_> {
    fn note_refusal(&mut self, task: &Task, code: u32) {
        self.counts.note_code(task, code);
        if code == ResponseCode::Success.number() {
            print_line(self.rt, task, code, ", with values that break the limits");
        } else {
            print_code(self.rt, task, OpCode::Resolution, code);
        }
    }
}

impl Outcomes for Readings<'_> {
    // None has failed only if none had.
    ghost notes = { λ old _ _ new. new.counts.failed ≡ 0 → old.counts.failed ≡ 0 };

    fn note_reply(&mut self, task: &Task, code: u32, reply: &ReplyView<'_>) {
        if let Ok(Some(reading)) = reading_of(self.rt.alloc(), task.line, reply) {
            if self.found.push(reading).is_ok() {
                return;
            }
        }
        self.note_refusal(task, code);
        self.counts.fail();
    }
}

/// The task that asks for values of a handle, in the place of the one that was to create it, at the same line.
pub(crate) fn question(alloc: Global, task: &Task, indexes: Vec<u32>) -> Result<Task, ClientFault>
    ensures reading { IfOk result IsReading }
    ensures line { IfOk result (λ asked. asked.line ≡ task.now.line) }
{
    let body = RequestBody::Resolution {
        handle: Octets::new(Vec::from_slice(alloc, task.request.handle())?),
        indexes: Items::new(indexes),
        types: Items::new(Vec::new(alloc)),
    };
    let request = RequestMessage::new(alloc, task.request.wire(), &body)?;
    Ok(Task {
        line: task.line,
        title: String::from_str(alloc, &task.title)?,
        request,
        key: task.key,
    })
}

fn indexes_of(alloc: Global, values: &[Value]) -> Result<Vec<u32>, AllocError> {
    let mut indexes = Vec::new(alloc);
    for value in values {
        indexes.push(value.index)?;
    }
    Ok(indexes)
}

/// Adds a reading to readings.
fn push_reading(tasks: &mut Vec<Task>, task: Task) -> Result<(), ClientFault>
    requires readings { All IsReading tasks.old.items }
    requires reading { IsReading task }
    ensures { OnOk result (All IsReading tasks.new.items) }
{
    tasks.push(task)?;
    Ok(())
}

/// The tasks that ask for the values that the rows of each handle name.
fn questions(alloc: Global, part: &Part) -> Result<Vec<Task>, ClientFault>
    ensures { IfOk result (λ tasks. All IsReading tasks.items) }
{
    let mut questions = Vec::new(alloc);
    for place in 0..part.tasks.len() {
        let indexes = match part.rows.get(place) {
            Some(rows) => indexes_of(alloc, rows)?,
            None => Vec::new(alloc),
        };
        let reading = question(alloc, &part.tasks[place], indexes)?;
        push_reading(&mut questions, reading)?;
    }
    Ok(questions)
}

/// Asks what is there of the handles of a part. All that is sent are questions, and answers to their challenges.
#[tactic(auto, using(crate::proofs::Readings::only_reads))]
pub(crate) fn read_part<S: Transport>(
    session: &mut Session<S>,
    part: &Part,
    batch: &mut Batch,
    readings: &mut Readings<'_>,
) -> Result<(), ClientFault>
    ensures { OnOk result (OnlyReads S.Transport batch.new.keys.items session.old.stream session.new.stream) }
{
    batch.tasks = questions(readings.rt.alloc(), part)?;
    session.run_batch(batch, readings)
}
