//! Scripts for `handled`, from words.

use crate::batch_text::{BatchFault, Layouts, message_or_fault, read_batch};
use crate::fault::ArgumentFault;
use crate::tenants::write_tenants;
use hdl_auth::algorithm::Algorithm;
use hdl_auth::digest;
use hdl_client::{Batch, Key, Task, challenge_response, frame_of, signed_part};
use hdl_limits::MESSAGE_MAX;
use hdl_msg::{Body, read_request};
use hdl_name::Name;
use hdl_tenants::{TenantFault, Tenants};
use hdl_value::Wire;
use hdl_value_lines::printed_octets;
use std::alloc::{AllocError, Global};
use thiserror::Error;

/// The nonce of every event of a script, and so of every challenge.
const NONCE: [u8; 16] = [0, 1, 2, 3, 4, 5, 6, 7, 8, 9, 10, 11, 12, 13, 14, 15];

/// Its digits.
const NONCE_DIGITS: &str = "000102030405060708090a0b0c0d0e0f";

/// Why words aren't those of a script.
#[derive(Clone, Copy, Debug, PartialEq, Eq, Error)]
pub enum ScriptFault {
    #[error("{0}")]
    Words(BatchFault),
    #[error("tenants: line {0}: {1}")]
    Tenants(usize, TenantFault),
    #[error("the line `run` is missing")]
    NoRun,
}

/// What asks: a lane, the hash function of the handle's prefix there, and the layout of values there.
#[derive(Clone, Copy)]
pub(crate) struct Requester {
    pub lane: u16,
    pub algorithm: Algorithm,
    pub wire: Wire,
}

/// The first lane of a publisher for which the handle's prefix is hosted. Lane 0 asks for a handle that is hosted for no publisher.
pub(crate) fn find_requester(tenants: &Tenants, name: &Name) -> Requester {
    for place in 0..usize::from(tenants.lanes()) {
        if let Some(algorithm) = tenants.hosting(place, name) {
            if let Some((lane, _)) = tenants.lanes_of(place) {
                return Requester {
                    lane,
                    algorithm,
                    wire: tenants.wire(place),
                };
            }
        }
    }
    Requester {
        lane: 0,
        algorithm: Algorithm::Sha1,
        wire: tenants.wire(0),
    }
}

/// Adds the line of a frame.
fn push_frame(
    script: &mut String,
    alloc: Global,
    lane: u16,
    session: u32,
    request: u32,
    message: &[u8],
) -> Result<(), ArgumentFault> {
    if message.len() > MESSAGE_MAX as usize {
        return Err(ArgumentFault::TooLong);
    }
    let digits = hex::encode(alloc, &frame_of(alloc, session, request, message)?)?;
    let line = format!(in alloc; "frame {lane} 0 1000 {NONCE_DIGITS} {digits}\n")?;
    script.push_str(&line)?;
    Ok(())
}

/// The message of the response by a key to the challenge of the request with this message.
fn response_message(
    alloc: Global,
    algorithm: Algorithm,
    key: &Key,
    message: &[u8],
) -> Result<Vec<u8>, ArgumentFault> {
    let digest = digest(algorithm, signed_part(message));
    let answer = challenge_response(alloc, key, &NONCE, &digest)?;
    message_or_fault(alloc, Wire::Profile, &answer)
}

/// Adds the response to the challenge of a request, the first on its connection.
fn push_response(
    script: &mut String,
    alloc: Global,
    requester: Requester,
    key: &Key,
    message: &[u8],
) -> Result<(), ArgumentFault> {
    let response = response_message(alloc, requester.algorithm, key, message)?;
    push_frame(script, alloc, requester.lane, 1, 2, &response)
}

/// Adds a line of a word and a lane.
fn push_lane(script: &mut String, alloc: Global, word: &str, lane: u16) -> Result<(), AllocError> {
    let line = format!(in alloc; "{word} {lane}\n")?;
    script.push_str(&line)
}

/// What asks about a task's handle.
fn requester_of(alloc: Global, tenants: &Tenants, task: &Task) -> Result<Requester, ArgumentFault> {
    let name = Name::read(alloc, task.request.handle())?;
    Ok(find_requester(tenants, &name))
}

/// Whether a task is challenged where a key is there: all but resolutions, which ask as anyone.
fn is_challenged(task: &Task) -> bool {
    match read_request(task.request.wire(), task.request.octets()) {
        Ok(request) => !matches!(request.body(), Body::Resolution { .. }),
        Err(_) => false,
    }
}

/// The key that answers the challenge of a task.
fn task_key<'b>(batch: &'b Batch, task: &Task) -> Option<&'b Key> {
    task.key
        .filter(|_| is_challenged(task))
        .and_then(|key| batch.keys.get(key))
}

/// Adds a comment that says what is asked.
fn push_title(script: &mut String, alloc: Global, title: &str) -> Result<(), AllocError> {
    let title = printed_octets(alloc, title.as_bytes())?;
    let line = format!(in alloc; "# {title}\n")?;
    script.push_str(&line)
}

/// Adds the events of a task: its lane opens, so that challenges are numbered from 1, asks, answers the challenge where there is a key,
/// and closes.
fn push_task(
    script: &mut String,
    alloc: Global,
    tenants: &Tenants,
    batch: &Batch,
    task: &Task,
) -> Result<(), ArgumentFault> {
    let requester = requester_of(alloc, tenants, task)?;
    push_title(script, alloc, &task.title)?;
    push_lane(script, alloc, "open", requester.lane)?;
    push_frame(script, alloc, requester.lane, 0, 1, task.request.octets())?;
    if let Some(key) = task_key(batch, task) {
        push_response(script, alloc, requester, key, task.request.octets())?;
    }
    push_lane(script, alloc, "close", requester.lane)?;
    Ok(())
}

/// Adds the events of a batch.
fn push_batch(
    script: &mut String,
    alloc: Global,
    tenants: &Tenants,
    batch: &Batch,
) -> Result<(), BatchFault> {
    for task in &batch.tasks {
        if let Err(fault) = push_task(script, alloc, tenants, batch, task) {
            return Err(BatchFault {
                line: task.line,
                fault,
            });
        }
    }
    Ok(())
}

/// The text before the line `run`, how many lines that are, and the text after it.
fn parts_of(text: &str) -> Option<(&str, usize, &str)> {
    if let Some(rest) = text.strip_prefix("run\n") {
        return Some(("", 1, rest));
    }
    let (tenants, batch) = text.split_once("\nrun\n")?;
    let lines = tenants.lines().count().saturating_add(1);
    Some((tenants, lines, batch))
}

/// A batch's fault, where the batch begins after this many lines.
fn fault_in_script(fault: BatchFault, lines: usize) -> ScriptFault {
    ScriptFault::Words(BatchFault {
        line: fault.line.saturating_add(lines),
        fault: fault.fault,
    })
}

/// The tenants of a text.
fn tenants_of(alloc: Global, text: &str) -> Result<Tenants, ScriptFault> {
    Tenants::read(alloc, text).map_err(|(line, fault)| ScriptFault::Tenants(line, fault))
}

/// Adds the line `run`, and the events of a batch's text.
fn push_events(
    script: &mut String,
    alloc: Global,
    tenants: &Tenants,
    text: &str,
) -> Result<(), BatchFault> {
    let batch = read_batch(alloc, Layouts::OfPublishers(tenants), text)?;
    if script.push_str("run\n").is_err() {
        return Err(BatchFault {
            line: 0,
            fault: ArgumentFault::Memory,
        });
    }
    push_batch(script, alloc, tenants, &batch)
}

/// The script that `handled` takes, from a tenants text with values in words, a line `run`, and a batch. Each request asks on a
/// connection of its own, of the publisher for which its prefix is hosted, by the layout of values there; after an AUTHENTICATE each but a resolution is followed by the response to
/// its challenge, whose nonce the script gives. Where no challenge comes, that response is answered with code 4.
pub fn write_script(alloc: Global, text: &str) -> Result<String, ScriptFault> {
    let Some((tenants_text, lines, batch_text)) = parts_of(text) else {
        return Err(ScriptFault::NoRun);
    };
    let mut script = write_tenants(alloc, tenants_text).map_err(ScriptFault::Words)?;
    let tenants = tenants_of(alloc, &script)?;
    match push_events(&mut script, alloc, &tenants, batch_text) {
        Ok(()) => Ok(script),
        Err(fault) => Err(fault_in_script(fault, lines)),
    }
}
