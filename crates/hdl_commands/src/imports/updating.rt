//! Handles that are there, updated.

ghost use Rattle.std.specs.Prelude.{OnOk};
ghost use Rattle.hdl_commands.specs.Update.{OnlyReads};

use crate::fault::ArgumentFault;
use crate::imports::counts::{Counts, print_code};
use crate::imports::reading::{Reading, Readings, read_part};
use crate::imports::rows::Part;
use crate::imports::update::{KeptFields, Steps, meant_values, steps_to, value_at};
use crate::words::line_of;
use hdl_client::{Batch, ClientFault, Key, Session, Task, Transport};
use hdl_limits::{Items, Octets};
use hdl_msg::{RequestBody, ResponseCode};
use hdl_value::Value;
use hdl_value_lines::printed_octets;
use std::alloc::{AllocError, Global};

/// How handles that are there are updated.
#[derive(Clone, Copy)]
pub(crate) struct UpdateMode {
    pub kept: KeptFields,
    /// Whether the file names the index of each value.
    pub names_indexes: bool,
    /// Whether it is only told what would be changed.
    pub is_dry: bool,
}

/// A request of an update, and what it changes in words.
#[derive(Drop)]
struct Step {
    is_addition: bool,
    body: RequestBody,
    changes: String,
}

/// Adds a line for a value, behind a sign.
fn push_line(
    alloc: Global,
    text: &mut String,
    sign: &str,
    value: &Value,
) -> Result<(), AllocError> {
    let Some(line) = line_of(alloc, value)? else {
        return Ok(());
    };
    let line = printed_octets(alloc, &line)?;
    text.push_str(sign)?;
    text.push_str(&line)?;
    text.push('\n')
}

/// The lines of values before and after: an old one behind `-`, a new one behind `+`.
fn changes(alloc: Global, there: &[Value], values: &[Value]) -> Result<String, AllocError> {
    let mut text = String::new(alloc);
    for value in values {
        for old in there.iter().filter(|old| old.index == value.index) {
            push_line(alloc, &mut text, "- ", old)?;
        }
        push_line(alloc, &mut text, "+ ", value)?;
    }
    Ok(text)
}

/// Why a value isn't put in the place of the one that is there: that one is a key, or of another type though no index was named.
fn obstacle(update_mode: UpdateMode, there: &[Value], value: &Value) -> Option<ArgumentFault> {
    let old = value_at(value.index, there)?;
    if old.is_secret_key() {
        return Some(ArgumentFault::KeyThere(value.index));
    }
    if !update_mode.names_indexes && old.kind.as_slice() != value.kind.as_slice() {
        return Some(ArgumentFault::OtherType(value.index));
    }
    None
}

fn handle_of(alloc: Global, task: &Task) -> Result<Octets, AllocError> {
    Ok(Octets::new(Vec::from_slice(alloc, task.request.handle())?))
}

/// The requests that bring the wanted values to a handle where those are there.
fn steps_of(
    alloc: Global,
    update_mode: UpdateMode,
    task: &Task,
    there: &[Value],
    wanted: &[Value],
) -> Result<Vec<Step>, ArgumentFault> {
    let wanted = meant_values(alloc, update_mode.kept, there, wanted)?;
    let Steps { modified, added } = steps_to(alloc, there, &wanted)?;
    for value in &modified {
        if let Some(fault) = obstacle(update_mode, there, value) {
            return Err(fault);
        }
    }
    let mut all = Vec::new(alloc);
    if !modified.is_empty() {
        all.push(Step {
            is_addition: false,
            changes: changes(alloc, there, &modified)?,
            body: RequestBody::Modify {
                handle: handle_of(alloc, task)?,
                values: Items::new(modified),
            },
        })?;
    }
    if !added.is_empty() {
        all.push(Step {
            is_addition: true,
            changes: changes(alloc, &[], &added)?,
            body: RequestBody::Add {
                handle: handle_of(alloc, task)?,
                values: Items::new(added),
            },
        })?;
    }
    Ok(all)
}

/// Says what a step changes, or would change.
fn report_step(rt: &HostRuntime, task: &Task, step: &Step, is_dry: bool) {
    let done = match (step.is_addition, is_dry) {
        (false, false) => "changed",
        (false, true) => "would be changed",
        (true, false) => "added",
        (true, true) => "would be added",
    };
    let _ = print!(rt;
        "line {}: {}: {done}\n{}",
        task.line, task.title, step.changes
    );
}

fn report_fault(rt: &HostRuntime, task: &Task, fault: ArgumentFault) {
    let _ = println!(rt; "line {}: {}: {fault}", task.line, task.title);
}

/// Sends a step. Answers whether it was done; if not, it is told why.
fn send_step<S: Transport>(
    rt: &HostRuntime,
    session: &mut Session<S>,
    key: Option<&Key>,
    task: &Task,
    step: &Step,
    counts: &mut Counts,
) -> Result<bool, ClientFault> {
    let reply = match session.ask(task.request.wire(), &step.body, key) {
        Ok(reply) => reply,
        Err(ClientFault::TooLong) => {
            report_fault(rt, task, ArgumentFault::TooLong);
            return Ok(false);
        }
        Err(fault) => return Err(fault),
    };
    let code = reply.view().header.response_code;
    if code == ResponseCode::Success.number() {
        report_step(rt, task, step, false);
        counts.busy = 0;
        return Ok(true);
    }
    counts.note_code(task, code);
    print_code(rt, task, step.body.op_code(), code);
    Ok(false)
}

/// Sends steps one after the other until one isn't done. Answers whether all were.
fn send_all<S: Transport>(
    rt: &HostRuntime,
    session: &mut Session<S>,
    key: Option<&Key>,
    plan: &Plan,
    counts: &mut Counts,
) -> Result<bool, ClientFault> {
    for step in &plan.steps {
        if !send_step(rt, session, key, &plan.task, step, counts)? {
            return Ok(false);
        }
    }
    Ok(true)
}

/// A handle that is there, and the requests that bring the wanted values to it: none where they are there.
#[derive(Drop)]
struct Plan {
    task: Task,
    steps: Vec<Step>,
}

/// What a part of a file comes to: the tasks of handles that aren't there, and the plans of those that are.
#[derive(Drop)]
pub(crate) struct Preview {
    pub absent: Vec<Task>,
    plans: Vec<Plan>,
}

/// What a part of a file comes to by what is there.
fn preview_of(
    rt: &HostRuntime,
    update_mode: UpdateMode,
    part: Part,
    found: &[Reading],
    counts: &mut Counts,
) -> Result<Preview, AllocError> {
    let alloc = rt.alloc();
    let Part { tasks, rows } = part;
    let mut absent = Vec::new(alloc);
    let mut plans = Vec::new(alloc);
    for (task, rows) in tasks.into_iter().zip(rows.iter()) {
        let Some(reading) = found.iter().find(|reading| reading.line == task.line) else {
            continue;
        };
        let Some(there) = &reading.there else {
            absent.push(task)?;
            continue;
        };
        match steps_of(alloc, update_mode, &task, there, rows) {
            Ok(steps) => plans.push(Plan { task, steps })?,
            Err(fault) => {
                report_fault(rt, &task, fault);
                counts.fail();
            }
        }
    }
    Ok(Preview { absent, plans })
}

/// Asks what is there of the handles of a part, and what that comes to.
fn look<S: Transport>(
    rt: &HostRuntime,
    session: &mut Session<S>,
    part: Part,
    batch: &mut Batch,
    update_mode: UpdateMode,
    counts: &mut Counts,
) -> Result<Preview, ClientFault>
    ensures { OnOk result (OnlyReads S.Transport batch.new.keys.items session.old.stream session.new.stream) }
{
    let mut readings = Readings {
        rt,
        counts: *counts,
        found: Vec::new(rt.alloc()),
    };
    let ended = read_part(session, &part, batch, &mut readings);
    *counts = readings.counts;
    ended?;
    Ok(preview_of(rt, update_mode, part, &readings.found, counts)?)
}

/// Tells what an update would do to the handles of a part.
pub(crate) fn preview_part<S: Transport>(
    rt: &HostRuntime,
    session: &mut Session<S>,
    part: Part,
    batch: &mut Batch,
    update_mode: UpdateMode,
    counts: &mut Counts,
) -> Result<(), ClientFault>
    ensures { OnOk result (OnlyReads S.Transport batch.new.keys.items session.old.stream session.new.stream) }
{
    let preview = look(rt, session, part, batch, update_mode, counts)?;
    for task in &preview.absent {
        let _ = println!(rt; "line {}: {}: would be created", task.line, task.title);
        counts.created = counts.created.saturating_add(1);
    }
    for plan in &preview.plans {
        for step in &plan.steps {
            report_step(rt, &plan.task, step, true);
        }
        if plan.steps.is_empty() {
            counts.there = counts.there.saturating_add(1);
        } else {
            counts.changed = counts.changed.saturating_add(1);
        }
    }
    Ok(())
}

/// Updates the handles of a part that are there, and gives the tasks that create the others. A refusal that shows that all later ones would be refused ends it,
/// and then no task is given.
pub(crate) fn update_part<S: Transport>(
    rt: &HostRuntime,
    session: &mut Session<S>,
    part: Part,
    batch: &mut Batch,
    update_mode: UpdateMode,
    counts: &mut Counts,
) -> Result<Vec<Task>, ClientFault> {
    let Preview { absent, plans } = look(rt, session, part, batch, update_mode, counts)?;
    for plan in &plans {
        if plan.steps.is_empty() {
            counts.there = counts.there.saturating_add(1);
        } else if send_all(rt, session, batch.keys.get(0), plan, counts)? {
            counts.changed = counts.changed.saturating_add(1);
        } else {
            counts.fail();
        }
        counts.note_done(rt, &plan.task);
        if counts.refusal.is_some() {
            return Ok(Vec::new(rt.alloc()));
        }
    }
    Ok(absent)
}
