//! What may not be meant so, and is done all the same.

ghost use Rattle.std.specs.Prelude.{◌≡◌, ◌↔◌, Some};
ghost use Rattle.hdl_commands.specs.Addresses.{IsNearlyUrl, IsUnfollowed};
ghost use Rattle.hdl_commands.specs.declared.warnings.Warning.TheVariants as warning;

use crate::addresses::is_followed;
use hdl_client::Task;
use hdl_msg::{Body, Values, read_request};
use hdl_value::URL;
use thiserror::Error;

/// What may not be meant so, and what to do.
#[derive(Clone, Copy, Debug, PartialEq, Eq, Error)]
pub(crate) enum Warning {
    /// The name of a new handle divides words or lines of a tenants text.
    #[error("the name has a space or line feed, and no export takes the handle along: choose a name without one, such as 10/two-words")]
    Name,
    /// The type is URL but for the case of its letters.
    #[error("the type is URL in letters of another case, so no browser is led there: write URL")]
    Type,
    /// No browser is led to the address.
    #[error("the address begins with neither https:// nor http://, so no browser is led there: write it whole, such as https://example.org/")]
    Address,
}

/// Whether a name has a space or a line feed.
pub(crate) fn is_unsayable(handle: &[u8]) -> bool {
    handle.contains(&b' ') || handle.contains(&b'\n')
}

/// What may not be meant so of a value with this type and data.
pub(crate) fn warning_of(kind: &[u8], octets: &[u8]) -> Option<Warning>
    ensures kind { (result ≡ Some warning.Type) ↔ IsNearlyUrl kind.now }
    ensures address { (result ≡ Some warning.Address) ↔ IsUnfollowed kind.now octets.now }
{
    if kind == URL {
        return if is_followed(octets) {
            None
        } else {
            Some(Warning::Address)
        };
    }
    if kind.eq_ignore_ascii_case(URL) {
        Some(Warning::Type)
    } else {
        None
    }
}

/// Prints the warnings of values of the request of a task. Answers how many there are.
fn print_of_values(rt: &HostRuntime, task: &Task, values: Values<'_>) -> usize {
    let mut warnings = 0usize;
    for cut in values {
        let Ok(value) = cut.read(rt.alloc()) else {
            continue;
        };
        if let Some(warning) = warning_of(value.kind.as_slice(), value.bytes.as_slice()) {
            let _ = println!(rt;
                "warning: line {}: value with index {}: {warning}",
                task.line, value.index
            );
            warnings = warnings.saturating_add(1);
        }
    }
    warnings
}

/// Prints the warnings of the request of a task: of a new handle's name, and of the values that are written. Answers how many there are.
pub(crate) fn print_warnings(rt: &HostRuntime, task: &Task) -> usize {
    let Ok(request) = read_request(task.request.wire(), task.request.octets()) else {
        return 0;
    };
    match request.body() {
        Body::Create { handle, values } if is_unsayable(handle) => {
            let _ = println!(rt; "warning: line {}: {}", task.line, Warning::Name);
            print_of_values(rt, task, *values).saturating_add(1)
        }
        Body::Create { values, .. } | Body::Add { values, .. } | Body::Modify { values, .. } => {
            print_of_values(rt, task, *values)
        }
        _ => 0,
    }
}

/// Ends the line that counts what was done: with how many warnings there were, if there were some.
pub(crate) fn end_counts(rt: &HostRuntime, warnings: usize) {
    let _ = if warnings == 0 {
        println!(rt)
    } else {
        println!(rt; "; warnings: {warnings}")
    };
}
