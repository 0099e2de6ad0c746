//! Checking a tenants text before it is served.

use crate::ports::{report_unavailable, report_unservable};
use hdl_programs::{ExitStatus, Fault, put_all, tenants_of};
use hdl_tenants_check::{Report, check};
use std::net::IpAddr;

/// Prints what the text has, or says on standard error what is wrong with each faulty line; answers the exit status.
pub fn check_text(rt: &HostRuntime, text: &str) -> Result<ExitStatus, Fault> {
    match check(rt.alloc(), text)? {
        Report::Accepted(lines) => {
            put_all(&mut rt.stdout(), lines.as_bytes())?;
            Ok(ExitStatus::Success)
        }
        Report::Refused(faults) => {
            for fault in &faults {
                let line = fault.line;
                let words = fault.words.as_str();
                let _ = eprintln!(rt; "tenants: line {line}: {words}");
            }
            Ok(ExitStatus::Tenants)
        }
    }
}

/// Says on standard error why no server can start with an accepted text, or which ports can't be had now; answers the exit status.
pub fn check_ports(
    rt: &HostRuntime,
    text: &str,
    addresses: &[IpAddr],
) -> Result<ExitStatus, Fault> {
    let tenants = tenants_of(rt.alloc(), text)?;
    if report_unservable(rt, text, &tenants) {
        return Ok(ExitStatus::Tenants);
    }
    Ok(report_unavailable(rt, rt.alloc(), &tenants, addresses)?)
}
