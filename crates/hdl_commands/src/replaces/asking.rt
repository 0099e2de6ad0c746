//! Replacements, asked of a server.

ghost use Rattle.std.specs.Prelude.{OnOk};
ghost use Rattle.hdl_commands.specs.Addresses.{KeepsAddresses};

use crate::addresses::keeps_followed;
use crate::advice::{Asked, KeyWords, advice};
use crate::exit_status::ExitStatus;
use crate::fault::ArgumentFault;
use crate::imports::HEADER;
use crate::key::key_of;
use crate::replaces::fault::ReplaceFault;
use crate::replaces::run::{Counts, ReplaceRun};
use crate::reporting::report_fault;
use crate::warnings::end_counts;
use crate::words::code_name;
use hdl_client::{Key, Session, Transport, connect};
use hdl_limits::Octets;
use hdl_msg::{ContentView, OpCode, RequestBody, ResponseCode};
use hdl_name::Name;
use hdl_value::Wire;
use hdl_value_lines::printed_octets;
use std::alloc::{AllocError, Global};
use std::fs::{self, File, OpenOptions};
use std::io::Write;
use std::os::unix::fs::OpenOptionsExt;

/// The program's own user alone reads the old values: not all of them may be public.
const MODE: u32 = 0o600;

/// What is replaced, and where.
#[derive(Drop)]
pub struct ReplaceOptions {
    /// The prefix of the handles.
    pub prefix: String,
    /// How URLs begin.
    pub old: String,
    /// How these begin afterwards.
    pub new: String,
    /// `HOST:PORT`.
    pub server: String,
    /// By whose layout the server speaks of values.
    pub wire: Wire,
    /// A reference to the key that answers the challenges.
    pub key: String,
    /// The path of a file with a handle on each line; without it the server is asked for a list.
    pub handles: Option<String>,
    /// The path of the file that the old values are written to, as rows that an import reads.
    pub undo: Option<String>,
    /// Whether nothing is changed.
    pub is_dry: bool,
}

/// The name of a prefix's administrative handle.
fn authority_of(alloc: Global, prefix: &str) -> Result<Name, ArgumentFault> {
    let handle = if prefix.contains('/') {
        String::from_str(alloc, prefix)?
    } else {
        format!(in alloc; "0.NA/{prefix}")?
    };
    let name = Name::read(alloc, handle.as_bytes())?;
    if !name.is_admin_handle() {
        return Err(ArgumentFault::Prefix);
    }
    Ok(name)
}

/// The handles of a text, one on each line.
fn handles_in(alloc: Global, text: &[u8]) -> Result<Vec<Vec<u8>>, AllocError> {
    let mut handles = Vec::new(alloc);
    for line in text.split(|octet| *octet == b'\n') {
        let line = line.strip_suffix(b"\r").unwrap_or(line);
        if line.is_empty() {
            continue;
        }
        handles.push(Vec::from_slice(alloc, line)?)?;
    }
    Ok(handles)
}

/// The handles of the prefix, as the server lists them.
fn listed<S: Transport>(
    alloc: Global,
    session: &mut Session<S>,
    wire: Wire,
    authority: &Name,
    key: &Key,
) -> Result<Vec<Vec<u8>>, ReplaceFault> {
    let body = RequestBody::List {
        handle: Octets::new(Vec::from_slice(alloc, authority.sent())?),
    };
    let reply = session.ask(wire, &body, Some(key))?;
    let view = reply.view();
    let ContentView::Handles { handles: found } = view.content else {
        return Err(ReplaceFault::List(view.header.response_code));
    };
    let mut handles = Vec::new(alloc);
    for handle in found {
        handles.push(Vec::from_slice(alloc, handle)?)?;
    }
    Ok(handles)
}

/// Makes the file that the old values go to. One that is there stays: it may be what is needed to undo an earlier replacement.
fn undo_file(rt: &HostRuntime, replacement: &ReplaceOptions) -> Result<Option<File>, ReplaceFault> {
    let Some(path) = &replacement.undo else {
        return Ok(None);
    };
    if replacement.is_dry {
        return Ok(None);
    }
    let mut options = OpenOptions::new();
    options.write(true).create_new(true).mode(MODE);
    let mut file = match options.open(rt, path.as_str()) {
        Ok(file) => file,
        Err(error) => return Err(ReplaceFault::Undo(error)),
    };
    match file.write_all(HEADER.as_bytes()) {
        Ok(()) => Ok(Some(file)),
        Err(error) => {
            let _ = fs::remove_file(rt, path.as_str());
            Err(ReplaceFault::Unwritten(error))
        }
    }
}

/// The handles of the file that is named, if one is.
fn named(
    rt: &HostRuntime,
    replacement: &ReplaceOptions,
) -> Result<Option<Vec<Vec<u8>>>, ReplaceFault> {
    let Some(path) = &replacement.handles else {
        return Ok(None);
    };
    match fs::read(rt, path.as_str()) {
        Ok(text) => Ok(Some(handles_in(rt.alloc(), &text)?)),
        Err(error) => Err(ReplaceFault::Handles(error)),
    }
}

/// Refuses beginnings by which an address that a browser is led to becomes another one.
fn check_beginnings(alloc: Global, old: &[u8], new: &[u8]) -> Result<(), ArgumentFault>
    ensures { OnOk result (KeepsAddresses old.now new.now) }
{
    if old.is_empty() {
        return Err(ArgumentFault::NoOld);
    }
    if !keeps_followed(alloc, old, new)? {
        return Err(ArgumentFault::NotFollowed);
    }
    Ok(())
}

/// Warns if the old beginning ends with a slash and the new one doesn't. Answers how many warnings there are.
fn warn_of_slash(rt: &HostRuntime, replacement: &ReplaceOptions) -> usize {
    let (old, new) = (&replacement.old, &replacement.new);
    if !old.ends_with('/') || new.ends_with('/') {
        return 0;
    }
    let alloc = rt.alloc();
    // without memory for it the new beginning is missing
    let shown = printed_octets(alloc, new.as_bytes()).unwrap_or_else(|_| String::new(alloc));
    let _ = println!(rt;
        "warning: OLD ends with a slash and NEW doesn't, so addresses will be such as {shown}report: write {shown}/ if that isn't meant"
    );
    1
}

fn replace_run_of<'r>(
    rt: &'r HostRuntime,
    replacement: &'r ReplaceOptions,
    authority: &Name,
) -> Result<ReplaceRun<'r>, ReplaceFault> {
    check_beginnings(
        rt.alloc(),
        replacement.old.as_bytes(),
        replacement.new.as_bytes(),
    )?;
    let key = key_of(rt, &replacement.key)?;
    Ok(ReplaceRun {
        rt,
        replacement,
        key,
        prefix: Vec::from_slice(rt.alloc(), authority.prefix())?,
        undo: undo_file(rt, replacement)?,
        has_old: false,
        counts: Counts {
            changed: 0,
            kept: 0,
            failed: 0,
        },
    })
}

/// Replaces in the handles that the file named, or else in those that the server lists. Prints how many came to what.
fn replace(
    replace_run: &mut ReplaceRun<'_>,
    authority: &Name,
    from_file: Option<Vec<Vec<u8>>>,
) -> Result<ExitStatus, ReplaceFault> {
    let (rt, replacement) = (replace_run.rt, replace_run.replacement);
    let mut session = connect(rt, &replacement.server)?;
    let handles = match from_file {
        Some(handles) => handles,
        None => listed(
            rt.alloc(),
            &mut session,
            replacement.wire,
            authority,
            &replace_run.key,
        )?,
    };
    let warnings = warn_of_slash(rt, replacement);
    let ended = replace_run.replace_all(&mut session, &handles);
    let Counts {
        changed,
        kept,
        failed,
    } = replace_run.counts;
    let _ = if replacement.is_dry {
        print!(rt;
            "{changed} would be changed, {kept} have no such URL, {failed} failed; only questions were sent"
        )
    } else {
        print!(rt; "{changed} changed, {kept} have no such URL, {failed} failed")
    };
    end_counts(rt, warnings);
    ended?;
    Ok(ExitStatus::of_failures(failed))
}

/// Removes the file for the old values, if it was made and has none: the next run would refuse it.
fn remove_unused(replace_run: ReplaceRun<'_>) {
    let ReplaceRun {
        rt,
        replacement,
        undo,
        has_old,
        ..
    } = replace_run;
    if let (Some(_), Some(path), false) = (undo, &replacement.undo, has_old) {
        let _ = fs::remove_file(rt, path.as_str());
    }
}

fn run(rt: &HostRuntime, replacement: &ReplaceOptions) -> Result<ExitStatus, ReplaceFault> {
    let authority = authority_of(rt.alloc(), &replacement.prefix)?;
    let from_file = named(rt, replacement)?;
    let mut replace_run = replace_run_of(rt, replacement, &authority)?;
    let ended = replace(&mut replace_run, &authority, from_file);
    remove_unused(replace_run);
    ended
}

/// What can be done besides if the server lists no handles.
fn advice_on_list(code: Option<ResponseCode>) -> &'static str {
    match code {
        Some(ResponseCode::Error) => "; name them by --handles FILE, one on a line",
        Some(
            ResponseCode::NotAuthorized
            | ResponseCode::AuthenticationNeeded
            | ResponseCode::AuthenticationFailed
            | ResponseCode::UnableToAuthenticate,
        ) => {
            ". A key may list if an HS_ADMIN value of 0.NA/PREFIX names it, with 1 as the last of its twelve digits: ask the prefix's administrator for one, or name the handles by --handles FILE, one on a line"
        }
        _ => "",
    }
}

/// What to do if the server answers by this code in the place of a list.
fn list_advice(
    alloc: Global,
    replacement: &ReplaceOptions,
    number: u32,
) -> Result<String, ArgumentFault> {
    let authority = authority_of(alloc, &replacement.prefix)?;
    let asked = Asked {
        operation: OpCode::ListHandles,
        handle: authority.sent(),
        keys: KeyWords::Options,
    };
    Ok(advice(alloc, &asked, number)?)
}

/// Says on standard error that the server answered by this code in the place of a list.
fn report_no_list(rt: &HostRuntime, replacement: &ReplaceOptions, number: u32) {
    let alloc = rt.alloc();
    // without memory for it the advice is missing
    let way = list_advice(alloc, replacement, number).unwrap_or_else(|_| String::new(alloc));
    let more = advice_on_list(ResponseCode::of(number));
    let _ = eprintln!(rt; "hdl: no list: {number} {}{way}{more}", code_name(number));
}

/// Says on standard error why a replacement stopped.
fn report(rt: &HostRuntime, replacement: &ReplaceOptions, fault: &ReplaceFault) {
    let _ = match fault {
        ReplaceFault::Client(fault) => {
            report_fault(rt, &replacement.server, *fault);
            eprintln!(rt; "; start again: what was changed has no such URL any more")
        }
        ReplaceFault::Handles(_) => {
            let file = match &replacement.handles {
                Some(file) => file.as_str(),
                None => "",
            };
            eprintln!(rt; "hdl: {file}: {fault}: check --handles")
        }
        ReplaceFault::List(number) => {
            report_no_list(rt, replacement, *number);
            Ok(())
        }
        other => eprintln!(rt; "hdl: {other}"),
    };
}

/// Replaces how URLs begin: of the handles of a prefix, as the server lists them or a file names them, each URL that begins with the old
/// octets begins with the new ones afterwards, and nothing else of a value changes. Prints what is changed, or in a dry run would be, and how
/// many handles came to what. Answers the exit status: 0, 1 where a handle failed or there is no list, 2 where nothing was sent, and 3
/// where the connection failed.
pub fn replace_urls(rt: &HostRuntime, replacement: &ReplaceOptions) -> ExitStatus {
    match run(rt, replacement) {
        Ok(status) => status,
        Err(fault) => {
            report(rt, replacement, &fault);
            fault.status()
        }
    }
}
