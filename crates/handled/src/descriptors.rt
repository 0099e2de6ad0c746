//! Whether the process may have as many descriptors as its lanes and crowds want.

use hdl_core::Tenants;
use hdl_host::{Limits, descriptors_for};
use libc::RLIMIT_NOFILE;
use libc::types::rlimit;

/// How many descriptors the process may have, where the system says it.
fn limit() -> Option<u64> {
    let mut limit = rlimit {
        rlim_cur: 0,
        rlim_max: 0,
    };
    if libc::getrlimit(RLIMIT_NOFILE, &mut limit) == 0 {
        Some(limit.rlim_cur)
    } else {
        None
    }
}

/// Says on standard error where the process may have fewer descriptors than are wanted.
pub fn report_descriptors(rt: &HostRuntime, tenants: &Tenants, limits: Limits) {
    let wanted = descriptors_for(tenants, limits);
    if let Some(limit) = limit() {
        if limit < wanted {
            let _ = eprintln!(rt;
                "descriptors: the process may have {limit}, and its lanes and crowds may want {wanted}: clients beyond that wait; raise the limit (ulimit -n, LimitNOFILE), or name a smaller --crowd"
            );
        }
    }
}
