//! Which tenants the program serves, and in which setting.

use crate::bounds::bounds_of;
use crate::monitoring::{open_history, open_log};
use crate::ports::report_unservable;
use hdl_core::Tenants;
use hdl_host::{Health, Limits, Monitoring, ServerConfig, statuses_of};
use hdl_programs::{ExitStatus, Fault, tenants_of};
use hdl_server_options::{BoundOption, LimitOptions, MonitoringOptions};
use std::net::IpAddr;
use std::sync::Arc;

/// Which tenants are served, and in which setting.
///
/// What hands it on is generic over it: proving a function that owns its parts costs many times as much.
pub trait Plan: Drop {
    fn tenants(&self) -> &Tenants;

    fn config(&self) -> &ServerConfig;

    fn into_parts(self) -> (Tenants, ServerConfig);
}

/// The tenants of a text, served in this setting.
#[derive(Drop)]
pub struct TextPlan {
    tenants: Tenants,
    config: ServerConfig,
}

impl Plan for TextPlan {
    fn tenants(&self) -> &Tenants {
        &self.tenants
    }

    fn config(&self) -> &ServerConfig {
        &self.config
    }

    fn into_parts(self) -> (Tenants, ServerConfig) {
        let TextPlan { tenants, config } = self;
        (tenants, config)
    }
}

/// What becomes of a text and the words of bounds.
#[derive(Drop)]
pub enum PlanResult {
    Plan(TextPlan),
    /// A word is no bound of the text, which was said: the exit status.
    Refused(ExitStatus),
}

/// How long is served, and how long clients are waited for.
fn limits_of(options: LimitOptions) -> Limits {
    Limits {
        turns: options.turns.unwrap_or(Limits::DEFAULT.turns),
        idle_seconds: options.idle_seconds.unwrap_or(Limits::DEFAULT.idle_seconds),
        amplify: options.amplify,
        crowd: options.crowd.unwrap_or(Limits::DEFAULT.crowd),
        reserve: options.reserve.unwrap_or(Limits::DEFAULT.reserve),
    }
}

/// What the server tells of itself, and how it takes the word to end.
fn monitoring_of(
    rt: &HostRuntime,
    options: MonitoringOptions,
    reserve: usize,
) -> Result<Monitoring, Fault> {
    let MonitoringOptions {
        log,
        history,
        status,
        control,
        proxied,
    } = options;
    let mut monitoring = Monitoring::none(rt.alloc())?;
    monitoring.health = Arc::new(rt.alloc(), Health::new(rt.alloc(), reserve)?)?;
    monitoring.status = status;
    monitoring.control = control;
    monitoring.proxied = proxied;
    if let Some(path) = log {
        open_log(rt, path.as_str(), &mut monitoring)?;
    }
    if let Some(path) = history {
        open_history(rt, path.as_str(), &mut monitoring)?;
    }
    Ok(monitoring)
}

/// The setting that the options ask for, without bounds.
pub fn config_of(
    rt: &HostRuntime,
    addresses: Vec<IpAddr>,
    limits: LimitOptions,
    takes_changes: bool,
    monitoring: MonitoringOptions,
) -> Result<ServerConfig, Fault> {
    let limits = limits_of(limits);
    let monitoring = monitoring_of(rt, monitoring, limits.reserve)?;
    Ok(ServerConfig {
        addresses,
        limits,
        bounds: Vec::new(rt.alloc()),
        takes_changes,
        monitoring,
    })
}

/// The plan that a text, a setting and the words of bounds make. If the text has no publisher, two of them have one port, or a word is no bound of the text, that is said on standard error.
pub fn plan_of(
    rt: &HostRuntime,
    text: &str,
    config: ServerConfig,
    words: Vec<BoundOption>,
) -> Result<PlanResult, Fault> {
    let mut config = config;
    let tenants = tenants_of(rt.alloc(), text)?;
    if report_unservable(rt, text, &tenants) {
        return Ok(PlanResult::Refused(ExitStatus::Tenants));
    }
    match bounds_of(rt.alloc(), words, text, &tenants) {
        Ok(bounds) => {
            let statuses = statuses_of(rt.alloc(), bounds.as_slice())?;
            config.monitoring.bounds = Arc::new(rt.alloc(), statuses)?;
            config.bounds = bounds;
            Ok(PlanResult::Plan(TextPlan { tenants, config }))
        }
        Err(fault) => {
            let _ = eprintln!(rt; "{fault}");
            Ok(PlanResult::Refused(fault.status()))
        }
    }
}
