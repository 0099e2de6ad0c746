//! How many handles came to what.

ghost use Rattle.std.specs.Prelude.{◌≡◌, ◌≢◌};

use crate::advice::{Asked, KeyWords, asked_by, line_advice};
use crate::imports::progress::Progress;
use crate::words::code_name;
use hdl_client::Task;
use hdl_msg::{OpCode, ResponseCode};

/// Why all later rows would be refused too.
#[derive(Clone, Copy, Debug, PartialEq, Eq)]
pub(crate) enum Refusal {
    /// The key, or its secret.
    Key,
    /// The server takes no changes.
    ReadOnly,
    /// The server takes none for some time: it was busy again and again.
    Busy,
}

/// How many requests are answered busy, one after the other, until no more are sent.
const BUSY_MOST: usize = 10;

/// How many handles came to what.
#[derive(Clone, Copy)]
pub(crate) struct Counts {
    pub created: usize,
    pub changed: usize,
    pub there: usize,
    pub failed: usize,
    pub warnings: usize,
    /// How many of the last requests were answered busy.
    pub busy: usize,
    pub refusal: Option<Refusal>,
    pub progress: Progress,
}

impl Counts {
    /// None so far.
    pub fn new(progress: Progress) -> Counts {
        Counts {
            created: 0,
            changed: 0,
            there: 0,
            failed: 0,
            warnings: 0,
            busy: 0,
            refusal: None,
            progress,
        }
    }

    /// Notes that what there was to do for a task is done: all rows before those of its handle, and the first of them.
    pub fn note_done(&mut self, rt: &HostRuntime, task: &Task)
        ensures { self.new.failed ≡ self.old.failed }
    {
        self.progress.note(rt, task.line.saturating_sub(1));
    }

    pub fn fail(&mut self)
        ensures { self.new.failed ≢ 0 }
    {
        self.failed = self.failed.saturating_add(1);
    }

    /// Notes whether a request of this task that was answered by this code shows that all later ones would be refused.
    pub fn note_code(&mut self, task: &Task, code: u32)
        ensures { self.new.failed ≡ self.old.failed }
    {
        if let Some(refusal) = refusal_by(task.request.handle(), code) {
            self.refusal = Some(refusal);
        }
        self.busy = if code == ResponseCode::ServerBusy.number() {
            self.busy.saturating_add(1)
        } else {
            0
        };
        if self.busy >= BUSY_MOST && self.refusal.is_none() {
            self.refusal = Some(Refusal::Busy);
        }
    }
}

/// What the names of administrative handles begin with.
const ROOT: &[u8] = b"0.NA/";

/// Whether the octets name an administrative handle, which no server creates or deletes.
fn is_administrative(handle: &[u8]) -> bool {
    handle.len() >= ROOT.len() && handle[..ROOT.len()].eq_ignore_ascii_case(ROOT)
}

/// Why all later requests would be refused if one for this handle is answered by this code.
fn refusal_by(handle: &[u8], code: u32) -> Option<Refusal> {
    match ResponseCode::of(code) {
        Some(ResponseCode::AuthenticationFailed | ResponseCode::UnableToAuthenticate) => {
            Some(Refusal::Key)
        }
        Some(ResponseCode::OperationDenied) if !is_administrative(handle) => {
            Some(Refusal::ReadOnly)
        }
        _ => None,
    }
}

/// Prints a line for a handle that failed.
pub(crate) fn print_line(rt: &HostRuntime, task: &Task, code: u32, more: &str) {
    let _ = println!(rt;
        "line {}: {}: {code} {}{more}",
        task.line,
        task.title,
        code_name(code)
    );
}

/// Prints one for a handle of which a request of this operation was answered by a code, with what to do.
pub(crate) fn print_code(rt: &HostRuntime, task: &Task, operation: OpCode, code: u32) {
    let asked = asked_by(task, KeyWords::Options).map(|asked| Asked { operation, ..asked });
    print_line(rt, task, code, &line_advice(rt.alloc(), asked, code));
}
