//! What is counted, and how it is printed.

use crate::shared::{Shared, Upstream};
use hdl_programs::VERSION;
use hdl_proxy::{Answer, Media};
use std::alloc::{AllocError, Global};
use std::fmt;
use std::sync::atomic::{AtomicU64, Ordering};
use std::sync::{Mutex, Wait};
use std::time::Clock;

/// What an answer is.
#[derive(Clone, Copy, PartialEq, Eq)]
pub(crate) enum AnswerKind {
    Redirect,
    Page,
    Json,
}

impl fmt::Display for AnswerKind {
    fn fmt<W: fmt::Write>(&self, f: &mut fmt::Formatter<W>) -> fmt::Result {
        f.write_str(match self {
            AnswerKind::Redirect => "redirect",
            AnswerKind::Page => "page",
            AnswerKind::Json => "json",
        })
    }
}

pub(crate) fn kind_of(answer: &Answer) -> AnswerKind {
    match answer.media {
        Media::Json => AnswerKind::Json,
        _ if answer.location.is_some() => AnswerKind::Redirect,
        _ => AnswerKind::Page,
    }
}

/// How many answers of a kind had a status.
#[derive(Clone, Copy)]
struct Count {
    kind: AnswerKind,
    status: u16,
    count: u64,
}

/// What is counted in addition to what servers are asked.
#[derive(Drop)]
pub(crate) struct Counts {
    /// Answers from the cache.
    pub(crate) kept: AtomicU64,
    /// Lines of visits that were lost.
    pub(crate) lost: AtomicU64,
    answers: Mutex<Vec<Count>>,
}

/// Counts an answer among the others. Want of memory counts nothing.
fn add_to(counts: &mut Vec<Count>, kind: AnswerKind, status: u16) {
    for one in counts.iter_mut() {
        if one.kind == kind && one.status == status {
            one.count = one.count.wrapping_add(1);
            return;
        }
    }
    let _ = counts.push(Count {
        kind,
        status,
        count: 1,
    });
}

impl Counts {
    pub(crate) fn new(alloc: Global) -> Counts {
        Counts {
            kept: AtomicU64::new(0),
            lost: AtomicU64::new(0),
            answers: Mutex::new(Vec::new(alloc)),
        }
    }

    /// An answer was given.
    pub(crate) fn count_answer<R: Wait>(&self, rt: &R, kind: AnswerKind, status: u16) {
        add_to(&mut self.answers.lock(rt), kind, status);
    }

    fn put<R: Wait>(&self, rt: &R, text: &mut String) -> Result<(), AllocError> {
        text.push_str(
            "# HELP hdl_proxy_answers_total Answers, by kind and status.\n# TYPE hdl_proxy_answers_total counter\n",
        )?;
        for one in self.answers.lock(rt).iter() {
            writeln!(
                text,
                "hdl_proxy_answers_total{{kind=\"{}\",code=\"{}\"}} {}",
                one.kind, one.status, one.count
            )?;
        }
        let kept = self.kept.load(Ordering::Relaxed);
        let lost = self.lost.load(Ordering::Relaxed);
        writeln!(
            text,
            "# HELP hdl_proxy_answers_kept_total Answers from the cache.\n# TYPE hdl_proxy_answers_kept_total counter\nhdl_proxy_answers_kept_total {kept}"
        )?;
        writeln!(
            text,
            "# HELP hdl_proxy_log_lines_lost_total Lines of the log that were lost.\n# TYPE hdl_proxy_log_lines_lost_total counter\nhdl_proxy_log_lines_lost_total {lost}"
        )
    }
}

/// What is counted of each server.
#[derive(Clone, Copy)]
enum ServerMetric {
    Asked,
    Failed,
    LeftOut,
    Waiting,
}

const SERVER_METRICS: [ServerMetric; 4] = [
    ServerMetric::Asked,
    ServerMetric::Failed,
    ServerMetric::LeftOut,
    ServerMetric::Waiting,
];

impl ServerMetric {
    /// Its name after `hdl_proxy_server_`, its type, and what it says.
    fn words(self) -> (&'static str, &'static str, &'static str) {
        match self {
            ServerMetric::Asked => ("asked_total", "counter", "Questions asked, by server."),
            ServerMetric::Failed => (
                "failed_total",
                "counter",
                "Questions that failed, by server.",
            ),
            ServerMetric::LeftOut => (
                "left_out",
                "gauge",
                "1 while a server is left out after a failure.",
            ),
            ServerMetric::Waiting => ("waiting", "gauge", "Waiting questions, by server."),
        }
    }
}

impl<R: Wait + Clock> Shared<R> {
    fn count_of(&self, metric: ServerMetric, upstream: &Upstream) -> u64 {
        match metric {
            ServerMetric::Asked => upstream.asked.load(Ordering::Relaxed),
            ServerMetric::Failed => upstream.failed.load(Ordering::Relaxed),
            ServerMetric::LeftOut => {
                u64::from(upstream.health.lock(&self.rt).is_left_out(self.now()))
            }
            ServerMetric::Waiting => upstream.asks.len() as u64,
        }
    }

    /// Puts what this metric is of each server.
    fn put_servers(&self, text: &mut String, metric: ServerMetric) -> Result<(), AllocError> {
        let (name, kind, help) = metric.words();
        writeln!(
            text,
            "# HELP hdl_proxy_server_{name} {help}\n# TYPE hdl_proxy_server_{name} {kind}"
        )?;
        for (route, upstream) in self.routes.iter().zip(self.upstreams.iter()) {
            let count = self.count_of(metric, upstream);
            writeln!(
                text,
                "hdl_proxy_server_{name}{{server=\"{}\"}} {count}",
                route.address
            )?;
        }
        Ok(())
    }

    /// All that is counted, in the text format of Prometheus.
    pub(crate) fn metrics(&self) -> Result<String, AllocError> {
        let mut text = String::new(self.alloc);
        writeln!(
            text,
            "# HELP hdl_proxy_info The program's version.\n# TYPE hdl_proxy_info gauge\nhdl_proxy_info{{version=\"{VERSION}\"}} 1"
        )?;
        self.counts.put(&self.rt, &mut text)?;
        let answers = self.standbys.answers.load(Ordering::Relaxed);
        writeln!(
            text,
            "# HELP hdl_proxy_standby_answers_total Answers of standbys.\n# TYPE hdl_proxy_standby_answers_total counter\nhdl_proxy_standby_answers_total {answers}"
        )?;
        for metric in SERVER_METRICS {
            self.put_servers(&mut text, metric)?;
        }
        Ok(text)
    }

    /// Whether a server is asked.
    pub(crate) fn is_healthy(&self) -> bool {
        let now = self.now();
        self.upstreams.iter().any(|upstream| !upstream.health.lock(&self.rt).is_left_out(now))
    }
}
