//! Serving over a table that other servers have too.

use crate::descriptors::report_descriptors;
use crate::fault::ProgramFault;
use crate::guarding::TableGuard;
use crate::health_of as new_health;
use crate::notices::{TableDescription, TableNotices, report_end, startup_line_of};
use crate::plan::Plan;
use crate::ports::report_empty;
use crate::recording::history_of;
use crate::serving::{health_of, shutdown_of};
use hdl_cluster::{ClusterParts, ClusterStatus, SharedRows, prepare};
use hdl_core::Tenants;
use hdl_guardedrows::GuardedRows;
use hdl_host::{Sharing, host_shared, read_shared};
use hdl_programs::{ExitStatus, Fault, tenants_of};
use hdl_recordedrows::RecordedRows;
use hdl_server_options::ClusterOptions;
use hdl_tables::{ExportText, check_publisher};
use std::alloc::AllocError;
use std::fs::Files;
use std::net::{Net, TcpListener, TcpStream};
use std::random::RandomSource;
use std::rt::Clock;
use std::sync::Arc;
use std::thread::Threads;

/// What a server has beside others, by these options.
fn cluster_parts<R: Net<Stream = TcpStream> + Clock + Eprint + RandomSource + Copy + Drop>(
    machine: &R,
    rt: &HostRuntime,
    cluster: ClusterOptions,
    standing: &Arc<ClusterStatus>,
    notices: TableNotices,
) -> Result<ClusterParts<R, TableNotices>, Fault> {
    let ClusterOptions { members, name } = cluster;
    let name = name.into_bytes();
    match prepare(machine, rt.alloc(), members, name, standing, notices) {
        Ok(beside) => Ok(beside),
        Err(_) => Err(Fault::Device),
    }
}

/// Nothing is known of the others yet.
fn standing(rt: &HostRuntime) -> Result<Arc<ClusterStatus>, AllocError> {
    Ok(Arc::new(rt.alloc(), ClusterStatus::new())?)
}

/// Serves by this plan over the table that the others of a cluster have, and answers the exit status.
pub fn serve_cluster<
    R: Net<Listener = TcpListener, Stream = TcpStream>
        + Threads
        + Clock
        + RandomSource
        + Files
        + Eprint
        + Copy
        + Send
        + Drop
        + 'static,
    P: Plan,
>(
    machine: &R,
    rt: &HostRuntime,
    cluster: ClusterOptions,
    plan: P,
) -> Result<ExitStatus, ProgramFault> {
    let limits = plan.config().limits;
    report_descriptors(rt, plan.tenants(), limits);
    let kept = TableDescription::Cluster(cluster.name.as_str());
    let startup_line = startup_line_of(rt, plan.tenants(), kept, limits).map_err(Fault::from)?;
    let mut output = rt.stdout();
    let shutdown = shutdown_of(plan.config())?;
    let health = health_of(plan.config())?;
    let guard = TableGuard::of_shared(rt, health_of(plan.config())?);
    let standing = standing(rt).map_err(Fault::from)?;
    let notices = TableNotices::new(rt, health_of(plan.config())?);
    let ClusterParts { rows, news, keeper } = cluster_parts(
        machine, rt, cluster, &standing, notices,
    )?;
    let (tenants, mut config) = plan.into_parts();
    config.monitoring.startup_line = startup_line;
    config.monitoring.beside = Some(Arc::try_clone(&standing).map_err(Fault::from)?);
    let history = history_of(rt, &mut config)?;
    let rows = GuardedRows::new(rows, guard);
    let rows = RecordedRows::new(rt.alloc(), rows, history);
    let theirs = Arc::try_clone(&standing).map_err(Fault::from)?;
    let sharing = Sharing {
        news,
        keeper,
        standing: theirs,
    };
    host_shared(
        machine,
        rt.alloc(),
        rows,
        tenants,
        (config, sharing),
        &mut output,
    )?;
    if standing.has_diverged() {
        let _ = eprintln!(rt; "cluster: the server has parted from the others: start it anew");
        return Ok(ExitStatus::Diverged);
    }
    report_end(rt, &health, shutdown.is_requested());
    Ok(ExitStatus::Success)
}

/// The table that the servers of a cluster have. None was put there, if it has no changes.
fn read_cluster<R: Net<Stream = TcpStream> + Clock + Eprint + RandomSource + Copy + Drop>(
    machine: &R,
    rt: &HostRuntime,
    cluster: ClusterOptions,
    tenants: Tenants,
) -> Result<(SharedRows<TableNotices>, u64), ProgramFault> {
    let standing = standing(rt).map_err(Fault::from)?;
    let notices = TableNotices::new(rt, new_health(rt)?);
    let ClusterParts { rows, news, keeper } = cluster_parts(
        machine, rt, cluster, &standing, notices,
    )?;
    let theirs = Arc::try_clone(&standing).map_err(Fault::from)?;
    let sharing = Sharing {
        news,
        keeper,
        standing: theirs,
    };
    let rows = read_shared(rt.alloc(), rows, tenants, sharing)?;
    Ok((rows, standing.changes()))
}

/// Writes the table that the servers of a cluster have as a tenants text, and answers the exit status.
pub fn export_cluster<R: Net<Stream = TcpStream> + Clock + Eprint + RandomSource + Copy + Drop>(
    machine: &R,
    rt: &HostRuntime,
    cluster: ClusterOptions,
    text: ExportText<'_>,
) -> Result<ExitStatus, ProgramFault> {
    if report_empty(rt, text.text) {
        return Ok(ExitStatus::Tenants);
    }
    let tenants = tenants_of(rt.alloc(), text.text)?;
    if !check_publisher(rt, &tenants, text.publisher) {
        return Ok(ExitStatus::Arguments);
    }
    let (mut rows, changes) = read_cluster(machine, rt, cluster, tenants)?;
    if changes == 0 {
        let _ = eprintln!(rt;
            "cluster: these members have no table of this name: check --cluster and --cluster-name"
        );
        return Ok(ExitStatus::Table);
    }
    Ok(text.put(rt, &mut rows)?)
}
