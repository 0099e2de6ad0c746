//! A batch, asked of a server.

ghost use Rattle.std.specs.Prelude.{◌≡◌, ◌≢◌, ◌↔◌, IfOk};
ghost use Rattle.hdl_msg.specs.declared.codes.ResponseCode.TheVariants.{Success};
ghost use Rattle.hdl_msg.specs.Codes.{response_number};
ghost use Rattle.hdl_commands.specs.Ended.{EndsWith};
ghost use Rattle.hdl_commands.specs.declared.exit_status.ExitStatus.TheVariants as exits;

use crate::advice::{KeyWords, asked_by, line_advice};
use crate::batch_text::{Layouts, read_batch};
use crate::exit_status::ExitStatus;
use crate::reporting::report_fault;
use crate::warnings::{end_counts, print_warnings};
use crate::words::code_name;
use hdl_client::{Batch, ClientFault, Outcomes, Session, Task, Transport, connect};
use hdl_msg::{ReplyView, ResponseCode};
use hdl_value::Wire;
use hdl_value_lines::printed_octets;
use std::io::IsTerminal;

/// Prints what comes, and counts it.
#[derive(Drop)]
struct BatchPrinter<'r> {
    rt: &'r HostRuntime,
    done: usize,
    failures: usize,
    warnings: usize,
    /// The lines of those that failed.
    failed: Vec<usize>,
    /// How many requests there are, where progress is shown.
    shown_of: Option<usize>,
}

impl BatchPrinter<'_> {
    /// Puts how far it is in the place of what stands in the terminal's last line.
    fn show_progress(&self) {
        if let Some(all) = self.shown_of {
            let _ = eprint!(self.rt; "\r{} of {all}", self.done);
            if self.done == all {
                let _ = eprintln!(self.rt);
            }
        }
    }

    /// Prints the outcome of a task, with what to do about it.
    fn print_outcome(&self, task: &Task, code: u32) {
        let alloc = self.rt.alloc();
        // without memory for it the title is missing
        let title = printed_octets(alloc, task.title.as_bytes()).unwrap_or_else(|_| String::new(
            alloc,
        ));
        let more = line_advice(alloc, asked_by(task, KeyWords::Batch), code);
        let _ = println!(self.rt;
            "line {}: {title}: {code} {}{more}",
            task.line,
            code_name(code)
        );
    }
}

impl Outcomes for BatchPrinter<'_> {
    // None has failed exactly if none had and this one succeeded.
    ghost notes = { λ old _ code new. (new.failures ≡ 0) ↔ ((old.failures ≡ 0) × (code ≡ response_number Success)) };

    fn note_reply(&mut self, task: &Task, code: u32, _reply: &ReplyView<'_>) {
        self.done = self.done.saturating_add(1);
        if code != ResponseCode::Success.number() {
            self.failures = self.failures.saturating_add(1);
            // without memory for it the line is missing from the last one
            let _ = self.failed.push(task.line);
        }
        self.print_outcome(task, code);
        if code == ResponseCode::Success.number() {
            self.warnings = self.warnings.saturating_add(print_warnings(self.rt, task));
        }
        self.show_progress();
    }
}

/// Whether progress is shown: where standard error is a terminal, and the outcomes go elsewhere.
pub(crate) fn shows_progress(rt: &HostRuntime) -> bool {
    rt.stderr().is_terminal() && !rt.stdout().is_terminal()
}

/// Prints how many requests succeeded, and how many warnings there were, and the lines of those that failed.
fn print_end(printer: &BatchPrinter<'_>) {
    let failures = printer.failures;
    let succeeded = printer.done.saturating_sub(failures);
    let _ = print!(printer.rt; "{succeeded} succeeded, {failures} failed");
    end_counts(printer.rt, printer.warnings);
    for line in &printer.failed {
        let _ = println!(printer.rt; "failed: line {line}");
    }
}

/// Says on standard error why so many requests have no outcome. Answers the exit status.
fn report_unanswered(rt: &HostRuntime, server: &str, fault: ClientFault, left: usize) -> ExitStatus
    ensures { result ≡ exits.NoAnswer }
{
    report_fault(rt, server, fault);
    let _ = eprintln!(rt; "; {left} without an outcome");
    ExitStatus::NoAnswer
}

/// Asks all of a batch. Answers the exit status: success if each request succeeded, else failure.
fn ask_all<S: Transport>(
    session: &mut Session<S>,
    batch: &Batch,
    printer: &mut BatchPrinter<'_>,
) -> Result<ExitStatus, ClientFault>
    requires { printer.old.failures ≡ 0 }
    ensures whole { IfOk result (EndsWith S.Transport batch.now.keys.items batch.now.tasks.items session.old.stream session.new.stream) }
{
    session.run_batch(batch, printer)?;
    Ok(ExitStatus::of_failures(printer.failures))
}

/// Asks all of a batch, and prints a line for each outcome as it comes, with what to do about it, and at the end how many succeeded and the lines of those that
/// failed; progress on standard error, if that is a terminal and the outcomes go elsewhere. Answers the exit status: 0 if each request
/// succeeded, 1 if all have outcomes and one failed, and 3 if the connection failed, with how many requests have no outcome.
pub fn ask_batch<S: Transport>(
    rt: &HostRuntime,
    server: &str,
    session: &mut Session<S>,
    batch: &Batch,
) -> ExitStatus
    ensures whole { result ≢ exits.NoAnswer → EndsWith S.Transport batch.now.keys.items batch.now.tasks.items session.old.stream session.new.stream result }
{
    let mut printer = BatchPrinter {
        rt,
        done: 0,
        failures: 0,
        warnings: 0,
        failed: Vec::new(rt.alloc()),
        shown_of: Some(batch.tasks.len()).filter(|_| shows_progress(rt)),
    };
    let ended = ask_all(session, batch, &mut printer);
    print_end(&printer);
    match ended {
        Ok(status) => status,
        Err(fault) => {
            let left = batch.tasks.len().saturating_sub(printer.done);
            report_unanswered(rt, server, fault, left)
        }
    }
}

/// Asks all of a batch of a server that speaks of values by this layout, over one connection ([`ask_batch`]). Answers the exit status: that
/// of the batch, 2 for a text that is no batch, of which nothing was sent, and 3 if there is no connection.
pub fn run_batch_text(rt: &HostRuntime, server: &str, wire: Wire, text: &str) -> ExitStatus {
    let batch = match read_batch(rt.alloc(), Layouts::One(wire), text) {
        Ok(batch) => batch,
        Err(fault) => {
            let _ = eprintln!(rt; "hdl: {fault}");
            return ExitStatus::Arguments;
        }
    };
    match connect(rt, server) {
        Ok(mut session) => ask_batch(rt, server, &mut session, &batch),
        Err(fault) => report_unanswered(rt, server, fault, batch.tasks.len()),
    }
}
