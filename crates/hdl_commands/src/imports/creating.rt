//! The requests that create handles, and the questions for those that are there already.

ghost use Rattle.std.specs.Prelude.{◌≡◌, ◌⊎◌, ◌++◌, ◌∷◌, [], map, IfOk, OnOk};
ghost use Rattle.hdl_msg.specs.declared.codes.ResponseCode.TheVariants.{Success};
ghost use Rattle.hdl_msg.specs.Codes.{response_number};
ghost use Rattle.hdl_commands.specs.Ended.{line_of, found_lines, LeavesLines, AsksAgain, CreatesAll};

use crate::fault::ArgumentFault;
use crate::imports::counts::{Counts, print_code, print_line};
use crate::imports::reading::question;
use crate::imports::rows::Faults;
use crate::warnings::Warning;
use hdl_client::{Batch, ClientFault, Outcomes, Session, Task, Transport};
use hdl_msg::{Body, ContentView, OpCode, ReplyView, ResponseCode, Values, read_request};
use hdl_value_lines::{printed_octets, shown_line};
use std::alloc::{AllocError, Global};
use std::mem;

/// What comes of the requests that create handles.
#[derive(Drop)]
pub(crate) struct Creations<'r> {
    pub rt: &'r HostRuntime,
    pub counts: Counts,
    /// The lines of those that are there already.
    pub found: Vec<usize>,
}

/// Octets as they are printed. Without memory for it they are missing from the line.
fn shown(alloc: Global, octets: &[u8]) -> String {
    printed_octets(alloc, octets).unwrap_or_else(|_| String::new(alloc))
}

impl Faults for Creations<'_> {
    fn note_fault(&mut self, line: usize, handle: &[u8], fault: ArgumentFault) {
        let handle = shown(self.rt.alloc(), handle);
        let _ = println!(self.rt; "line {line}: {handle}: {fault}");
    }

    fn left_out(&mut self) {
        self.counts.fail();
    }

    fn note_warning(&mut self, line: usize, handle: &[u8], warning: Warning) {
        let handle = shown(self.rt.alloc(), handle);
        let _ = println!(self.rt; "warning: line {line}: {handle}: {warning}");
        self.counts.warnings = self.counts.warnings.saturating_add(1);
    }
}

impl Outcomes for Creations<'_> {
    // None has failed only if none had, and this one succeeded or its handle is looked at once more.
    ghost notes = { λ old task code new. new.counts.failed ≡ 0 → (old.counts.failed ≡ 0) × (((code ≡ response_number Success) × (new.found.items ≡ old.found.items)) ⊎ (new.found.items ≡ old.found.items ++ task.line ∷ [])) };

    fn note_reply(&mut self, task: &Task, code: u32, _reply: &ReplyView<'_>) {
        self.counts.note_done(self.rt, task);
        if code == ResponseCode::Success.number() {
            self.counts.created = self.counts.created.saturating_add(1);
            self.counts.busy = 0;
            return;
        }
        if code == ResponseCode::HandleAlreadyExists.number()
            && self.found.push(task.line).is_ok()
        {
            return;
        }
        self.counts.note_code(task, code);
        self.counts.fail();
        print_code(self.rt, task, OpCode::CreateHandle, code);
    }
}

/// The lines of values, which say them but for their timestamps.
fn lines_of(alloc: Global, values: Values<'_>) -> Result<Vec<Vec<u8>>, AllocError> {
    let mut lines = Vec::new(alloc);
    for value in values {
        match lines.push(shown_line(alloc, &value, true)?) {
            Ok(()) => {}
            Err(_) => return Err(AllocError),
        }
    }
    Ok(lines)
}

/// Whether a reply shows just the values of this task, whenever they were written.
fn shows_just(alloc: Global, reply: &ReplyView<'_>, creation: &Task) -> Result<bool, AllocError> {
    let ContentView::Values { values: there, .. } = reply.content else {
        return Ok(false);
    };
    let Ok(request) = read_request(creation.request.wire(), creation.request.octets()) else {
        return Ok(false);
    };
    let Body::Create { values: meant, .. } = request.body() else {
        return Ok(false);
    };
    let there = lines_of(alloc, there)?;
    let meant = lines_of(alloc, *meant)?;
    // no two of a handle's values have one index
    Ok(there.len() == meant.len() && there.iter().all(|line| meant.contains(line)))
}

/// What comes of the questions for handles that are there already.
#[derive(Drop)]
struct Comparisons<'r> {
    rt: &'r HostRuntime,
    counts: Counts,
    /// The tasks that were to create them.
    tasks: &'r [Task],
}

impl Outcomes for Comparisons<'_> {
    ghost notes = { λ old _ _ new. new.counts.failed ≡ 0 → old.counts.failed ≡ 0 };

    fn note_reply(&mut self, task: &Task, code: u32, reply: &ReplyView<'_>) {
        let creation = self.tasks.iter().find(|other| other.line == task.line);
        let is_same = match creation {
            Some(creation) => shows_just(self.rt.alloc(), reply, creation),
            None => Ok(false),
        };
        if is_same.unwrap_or(false) {
            self.counts.there = self.counts.there.saturating_add(1);
            return;
        }
        self.counts.fail();
        if code == ResponseCode::Success.number() {
            let found = ResponseCode::HandleAlreadyExists.number();
            print_line(
                self.rt,
                task,
                found,
                ", with other values: --update --dry-run shows them",
            );
        } else {
            print_code(self.rt, task, OpCode::Resolution, code);
        }
    }
}

/// Those that ask for the handles of these lines.
fn questions(alloc: Global, tasks: &[Task], lines: &[usize]) -> Result<Vec<Task>, ClientFault>
    ensures { IfOk result (λ again. map line_of again.items ≡ found_lines lines.now tasks.now) }
{
    let mut questions = Vec::new(alloc);
    for task in tasks {
        if lines.contains(&task.line) {
            questions.push(question(alloc, task, Vec::new(alloc))?)?;
        }
    }
    Ok(questions)
}

/// Asks for what is there already, in the place of what was to be created.
fn compare<S: Transport>(
    rt: &HostRuntime,
    session: &mut Session<S>,
    batch: &mut Batch,
    counts: &mut Counts,
    found: &[usize],
) -> Result<(), ClientFault>
    ensures none { OnOk result (counts.new.failed ≡ 0 → counts.old.failed ≡ 0) }
    ensures again { OnOk result (AsksAgain S.Transport batch.old.keys.items batch.old.tasks.items found.now session.old.stream session.new.stream) }
{
    let asked = questions(rt.alloc(), &batch.tasks, found)?;
    let tasks = mem::replace(&mut batch.tasks, asked);
    let mut comparisons = Comparisons {
        rt,
        counts: *counts,
        tasks: &tasks,
    };
    let ended = session.run_batch(batch, &mut comparisons);
    *counts = comparisons.counts;
    ended
}

/// Asks for the handles of the batch's tasks to be created. If none has failed, each was created, or its line is kept.
fn create<S: Transport>(
    session: &mut Session<S>,
    batch: &Batch,
    creations: &mut Creations<'_>,
) -> Result<(), ClientFault>
    ensures created { OnOk result (creations.new.counts.failed ≡ 0 → (creations.old.counts.failed ≡ 0) × LeavesLines S.Transport batch.now.keys.items batch.now.tasks.items session.old.stream session.new.stream creations.new.found.items) }
{
    session.run_batch(batch, creations)
}

/// Creates the handles of the batch's tasks, and compares those that are there already. If none has failed, each was created, or was
/// asked for once more.
pub(crate) fn create_all<S: Transport>(
    rt: &HostRuntime,
    session: &mut Session<S>,
    batch: &mut Batch,
    counts: &mut Counts,
) -> Result<(), ClientFault>
    ensures created { OnOk result (counts.new.failed ≡ 0 → (counts.old.failed ≡ 0) × CreatesAll S.Transport batch.old.keys.items batch.old.tasks.items session.old.stream session.new.stream) }
{
    let mut creations = Creations {
        rt,
        counts: *counts,
        found: Vec::new(rt.alloc()),
    };
    let ended = create(session, batch, &mut creations);
    let Creations {
        counts: so_far,
        found,
        ..
    } = creations;
    *counts = so_far;
    ended?;
    compare(rt, session, batch, counts, &found)
}
