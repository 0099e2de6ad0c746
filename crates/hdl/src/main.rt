//! The program `hdl`: a handle service in words.
//!
//! ```text
//! hdl resolve HANDLE [--index N].. [--type TYPE]..    list, create, delete, add, remove, modify likewise: one request of a server
//! hdl batch < BATCH                                   many requests of a server, over one connection
//! hdl import --csv FILE --key INDEX:HANDLE            a handle for the rows of each, over one connection; --update changes those that exist
//! hdl replace PREFIX OLD NEW --key INDEX:HANDLE       URLs that begin otherwise
//! hdl history HANDLE --file FILE                      the changes of a handle, from a file of `handled serve --history`
//! hdl undo HANDLE --file FILE --key INDEX:HANDLE      undoes the last of them
//! hdl export < TENANTS                                the values of a tenants text as rows of a CSV file, or as JSON
//! hdl explain [--keys] < LINES                        each line of a script, of what handled prints, or of octets alone, in words
//! hdl script < WORDS, hdl tenants < WORDS             words to the lines that handled takes
//! hdl init PREFIX.., hdl key                          a tenants text in words for new publishers; a fresh secret
//! hdl site --address ADDRESS, --read DIGITS           the data of an HS_SITE value; the same in words
//! hdl site --of HOST:PORT                             the site information of a server, in words
//! ```
//!
//! It is the command line of `hdl_commands` and `hdl_history_commands`, which stands on the codecs that the service stands on: what it sends is in the grammar,
//! and what it shows is what came. `./hdl proxy` is a program of its own, `hdl_web`.
#![tactic(auto)]

mod arguments;
mod commands;

use arguments::{Invocation, read_arguments};
use hdl_commands::{
    BatchFault, ExitStatus, Printout, ask_site, explain, export_values, import_file, make_site,
    random_secret, replace_urls, run_batch_text, run_request, show_site, tenants_faults,
    write_initial_tenants, write_script, write_tenants,
};
use hdl_history_commands::{HistoryFault, HistoryOptions, UndoOptions, show_history, undo_change};
use hdl_value::Wire;
use std::io::{self, ErrorKind, IsTerminal, Read};
use std::process::ExitCode;

/// Says on standard error that input is read, if someone has to type it.
fn report_reading(rt: &HostRuntime) {
    if rt.stdin().is_terminal() {
        let _ = eprintln!(rt;
            "hdl: standard input is read: type lines, and Ctrl-D at the end, or end the command with < FILE"
        );
    }
}

/// Explains the lines of standard input.
fn explain_all(rt: &HostRuntime, wire: Wire, shows_keys: bool) -> io::Result<()> {
    report_reading(rt);
    let mut line = String::new(rt.alloc());
    for _ in 0..u64::MAX {
        line.clear();
        if rt.read_line(&mut line)? == 0 {
            break;
        }
        let mut printout = Printout::new(rt.alloc(), shows_keys);
        explain(&mut printout, wire, line.trim_end())?;
        print!(rt; "{}", printout.as_str())?;
    }
    Ok(())
}

/// All of standard input.
fn text_of(rt: &HostRuntime) -> io::Result<String> {
    report_reading(rt);
    let mut text = String::new(rt.alloc());
    rt.stdin().read_to_string(&mut text)?;
    Ok(text)
}

fn batch_all(rt: &HostRuntime, server: &str, wire: Wire) -> io::Result<ExitStatus> {
    let text = text_of(rt)?;
    Ok(run_batch_text(rt, server, wire, &text))
}

/// Prints what was made of the words, or what is wrong with them, and answers the exit status.
fn print_made<E: std::fmt::Display + Drop>(
    rt: &HostRuntime,
    made: Result<String, E>,
) -> io::Result<ExitStatus> {
    match made {
        Ok(text) => {
            print!(rt; "{text}")?;
            Ok(ExitStatus::Success)
        }
        Err(fault) => {
            let _ = eprintln!(rt; "hdl: {fault}");
            Ok(ExitStatus::Arguments)
        }
    }
}

fn script_all(rt: &HostRuntime) -> io::Result<ExitStatus> {
    let text = text_of(rt)?;
    print_made(rt, write_script(rt.alloc(), &text))
}

/// Prints the tenants text, or which lines of the words can't be read.
fn tenants_all(rt: &HostRuntime) -> io::Result<ExitStatus> {
    let text = text_of(rt)?;
    if let Ok(made) = write_tenants(rt.alloc(), &text) {
        print!(rt; "{made}")?;
        return Ok(ExitStatus::Success);
    }
    for fault in &tenants_faults(rt.alloc(), &text)? {
        let _ = eprintln!(rt; "hdl: {fault}");
    }
    let _ = eprintln!(rt;
        "hdl: nothing was printed: correct the lines, and start no server with the empty text"
    );
    Ok(ExitStatus::Arguments)
}

/// What the operator does with the text of `hdl init`.
const NEXT: &str = "\
    hdl: keep the text where only you can read it (chmod 600): its HS_SECKEY lines hold the publishers' secrets\n\
    hdl: to start: hdl tenants < TEXT > publishers.tenants, then handled serve --table handles.db < publishers.tenants\n\
    hdl: to create: a secret in HDL_SECRET, then hdl create PREFIX/NAME VALUE.. --key 300:0.NA/PREFIX\n";

/// What he does besides where the ports have the layout of values of the Handle.Net software.
const HANDLE_NET: &str = "hdl: each command that asks this service needs --handle-net\n";

fn init(rt: &HostRuntime, wire: Wire, prefixes: &[String]) -> io::Result<ExitStatus> {
    let status = print_made(rt, write_initial_tenants(rt, wire, prefixes))?;
    if status == ExitStatus::Success {
        let _ = eprint!(rt; "{NEXT}");
        if wire == Wire::HandleNet {
            let _ = eprint!(rt; "{HANDLE_NET}");
        }
    }
    Ok(status)
}

fn key(rt: &HostRuntime) -> io::Result<ExitStatus> {
    let line = match random_secret(rt) {
        Ok(secret) => Ok(format!(in rt.alloc(); "{secret}\n")?),
        Err(fault) => Err(fault),
    };
    print_made(rt, line)
}

/// How a command on a history ends.
fn status_after(fault: &HistoryFault) -> ExitStatus {
    match fault {
        HistoryFault::Handle(_)
        | HistoryFault::Key
        | HistoryFault::NoSecret
        | HistoryFault::Last
        | HistoryFault::File(_)
        | HistoryFault::Memory => ExitStatus::Arguments,
        HistoryFault::Unasked(_) | HistoryFault::Sent(_) => ExitStatus::NoAnswer,
        HistoryFault::NoChange
        | HistoryFault::AnotherMoment
        | HistoryFault::Damaged(_)
        | HistoryFault::Undo(_)
        | HistoryFault::Refused(_, _)
        | HistoryFault::Output => ExitStatus::Failure,
    }
}

/// Says on standard error what fault a command on a history has: of the file, of the server, or of its words.
fn report_history(rt: &HostRuntime, file: &str, server: &str, fault: &HistoryFault) {
    let _ = match fault {
        HistoryFault::File(_)
        | HistoryFault::NoChange
        | HistoryFault::AnotherMoment
        | HistoryFault::Damaged(_) => eprintln!(rt; "hdl: {file}: {fault}"),
        HistoryFault::Unasked(_) | HistoryFault::Sent(_) | HistoryFault::Refused(_, _) => {
            eprintln!(rt; "hdl: {server}: {fault}")
        }
        _ => eprintln!(rt; "hdl: {fault}"),
    };
}

fn history(rt: &HostRuntime, options: &HistoryOptions) -> ExitStatus {
    match show_history(rt, options) {
        Ok(()) => ExitStatus::Success,
        Err(fault) => {
            report_history(rt, &options.file, "", &fault);
            status_after(&fault)
        }
    }
}

fn undo(rt: &HostRuntime, options: &UndoOptions) -> ExitStatus {
    match undo_change(rt, options) {
        Ok(()) => ExitStatus::Success,
        Err(fault) => {
            report_history(rt, &options.file, &options.server, &fault);
            status_after(&fault)
        }
    }
}

/// Does what the command line asks for, and answers how the program ends.
fn run(rt: &HostRuntime) -> io::Result<ExitCode> {
    let status = match read_arguments(rt) {
        Invocation::Explain { wire, shows_keys } => {
            explain_all(rt, wire, shows_keys)?;
            ExitStatus::Success
        }
        Invocation::Ask(question) => run_request(rt, &question),
        Invocation::Batch { server, wire } => batch_all(rt, &server, wire)?,
        Invocation::Import(import) => import_file(rt, &import),
        Invocation::Replace(replacement) => replace_urls(rt, &replacement),
        Invocation::History(options) => history(rt, &options),
        Invocation::Undo(options) => undo(rt, &options),
        Invocation::Export { table, shows_keys } => {
            report_reading(rt);
            export_values(rt, table, shows_keys)
        }
        Invocation::Script => script_all(rt)?,
        Invocation::Tenants => tenants_all(rt)?,
        Invocation::Init { wire, prefixes } => init(rt, wire, &prefixes)?,
        Invocation::Key => key(rt)?,
        Invocation::MakeSite(words) => make_site(rt, &words),
        Invocation::ShowSite { word } => show_site(rt, &word),
        Invocation::AskSite { server } => ask_site(rt, &server),
        Invocation::Ended(code) => return Ok(code),
    };
    Ok(ExitCode::from(status))
}

/// What to do about a fault of standard input or output.
fn advice_for(kind: ErrorKind) -> &'static str {
    match kind {
        ErrorKind::InvalidData => ": save the text on standard input as UTF-8",
        ErrorKind::StorageFull => ": make room on the disk that standard output goes to",
        _ => "",
    }
}

fn main(rt: HostRuntime) -> ExitCode {
    match run(&rt) {
        Ok(code) => code,
        Err(fault) => {
            let way = advice_for(fault.kind());
            let _ = eprintln!(rt; "hdl: {fault}{way}");
            ExitCode::from(ExitStatus::Failure)
        }
    }
}
