//! `hdl undo`.

use crate::fault::HistoryFault;
use crate::file::{LastChange, last_change_of};
use crate::key::key_of;
use crate::server::{ask_values, send_change};
use crate::words::{push_change, push_values};
use hdl_audit::Moment;
use hdl_client::connect;
use hdl_history::{Entry, values_before};
use hdl_msg::RequestBody;
use hdl_undo::undo;
use hdl_value::{Value, Wire};
use std::alloc::{AllocError, Global};

/// Which handle's last change is undone.
#[derive(Drop)]
pub struct UndoOptions {
    pub handle: String,
    /// The path of the history.
    pub file: String,
    /// `HOST:PORT`.
    pub server: String,
    /// By whose layout the server speaks of values.
    pub wire: Wire,
    /// A reference to the key that answers the challenges.
    pub key: String,
    /// The moment of the change that is meant, as `hdl history` prints it or as the file has it; without it any.
    pub at: Option<String>,
    /// Whether nothing is changed.
    pub is_dry: bool,
}

/// The change, the operation that undoes it, and the values that go and come by it.
fn plan_text(
    alloc: Global,
    entry: &Entry,
    body: &RequestBody,
    there: &[Value],
) -> Result<String, AllocError> {
    let mut text = String::new(alloc);
    push_change(&mut text, alloc, entry)?;
    let words = format!(in alloc; "undone by {}\n", body.op_code().name())?;
    text.push_str(&words)?;
    push_values(&mut text, alloc, "- ", &values_before(alloc, there)?)?;
    push_values(&mut text, alloc, "+ ", &entry.before)?;
    Ok(text)
}

/// Undoes a change.
fn undo_entry(rt: &HostRuntime, options: &UndoOptions, entry: &Entry) -> Result<(), HistoryFault> {
    let alloc = rt.alloc();
    let key = key_of(rt, &options.key)?;
    let mut session = connect(rt, &options.server)?;
    let there = ask_values(alloc, &mut session, options.wire, entry, &key)?;
    let there = there.as_deref();
    let body = undo(alloc, options.wire, entry, there)?;
    let text = plan_text(alloc, entry, &body, there.unwrap_or(&[]))?;
    print!(rt; "{text}")?;
    if options.is_dry {
        println!(rt; "nothing was changed (--dry-run)")?;
        return Ok(());
    }
    send_change(&mut session, options.wire, &body, &key)?;
    let _ = println!(rt; "done");
    Ok(())
}

/// Whether a change is of this moment, as `hdl history` prints it or as the file has it.
fn is_at(alloc: Global, entry: &Entry, at: &str) -> Result<bool, AllocError> {
    let printed = format!(in alloc; "{}", Moment(entry.moment))?;
    let number = format!(in alloc; "{}", entry.moment)?;
    Ok(at == printed.as_str() || at == number.as_str())
}

/// Undoes the last change of a handle, if it is of the moment that is asked for: asks the server what stands, prints what it does, and sends it. Says
/// that older changes stand, if there are any.
pub fn undo_change(rt: &HostRuntime, options: &UndoOptions) -> Result<(), HistoryFault> {
    let LastChange { found, has_older } = last_change_of(rt, &options.handle, &options.file)?;
    let Some(entry) = found.entries.first() else {
        return Err(if found.unreadable > 0 {
            HistoryFault::Damaged(found.unreadable)
        } else {
            HistoryFault::NoChange
        });
    };
    if let Some(at) = &options.at {
        if !is_at(rt.alloc(), entry, at)? {
            return Err(HistoryFault::AnotherMoment);
        }
    }
    undo_entry(rt, options, entry)?;
    if has_older && !options.is_dry {
        let _ = println!(rt; "older changes of this handle stand: hdl history shows them");
    }
    Ok(())
}
