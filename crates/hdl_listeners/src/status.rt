//! The page that says how a server is, over HTTP: `/health` and `/metrics`.

use crate::clients::{RequestHandler, Response};
use hdl_change_list::ClusterStatus;
use hdl_programs::VERSION;
use hdl_telemetry::{BoundStatus, Counts, Health, LogStatus, ProcessMetrics, put_bounds};
use httparse::Status;
use httparse::spans::{EMPTY_HEADER_SPAN, parse_request};
use std::alloc::{AllocError, Global};
use std::fmt;
use std::fmt::Write as _;
use std::sync::Arc;

/// How many headers of a request are read at most.
const HEADERS: usize = 64;

/// The method that asks for the head of a page alone.
const HEAD: &[u8] = b"HEAD";

/// What the page tells.
#[derive(Drop)]
pub struct StatusPage {
    pub counts: Vec<Arc<Counts>>,
    pub health: Arc<Health>,
    /// What the server takes of the machine.
    pub process_metrics: Arc<ProcessMetrics>,
    /// What publishers with a bound hold.
    pub bounds: Arc<Vec<BoundStatus>>,
    /// How the lines of the log go, where there is one.
    pub log: Option<Arc<LogStatus>>,
    /// How the lines of the history go, where there is one.
    pub history: Option<Arc<LogStatus>>,
    /// How the server stands beside the others, if others have its table.
    pub beside: Option<Arc<ClusterStatus>>,
}

/// What is answered: what follows the version, the kind of the body, and the body.
#[derive(Drop)]
struct Page {
    status: &'static str,
    kind: &'static str,
    body: String,
}

/// A page of plain words.
fn plain(alloc: Global, status: &'static str, words: &str) -> Result<Page, AllocError> {
    Ok(Page {
        status,
        kind: "text/plain; charset=utf-8",
        body: String::from_str(alloc, words)?,
    })
}

impl StatusPage {
    /// What is wrong now, in words, if something is.
    fn trouble(&self) -> Option<&'static str> {
        match (self.health.trouble(), &self.beside) {
            (None, Some(standing)) => standing.trouble(),
            (trouble, _) => trouble,
        }
    }

    /// Whether the table takes changes.
    fn health(&self, alloc: Global) -> Result<Page, AllocError> {
        match self.trouble() {
            Some(words) => plain(alloc, "503 Service Unavailable", words),
            None => plain(alloc, "200 OK", "ok\n"),
        }
    }

    /// Puts the counts of all publishers (Prometheus' text format, version 0.0.4).
    fn put_counts<W: fmt::Write>(&self, out: &mut W) -> fmt::Result {
        out.write_str(
            "# HELP handled_replies_total Replies, by publisher, operation and response code.\n# TYPE handled_replies_total counter\n",
        )?;
        for counts in &self.counts {
            counts.put_replies(out)?;
        }
        out.write_str(
            "# HELP handled_reply_seconds Seconds until a reply went, by publisher, of requests that were alone on their lane.\n# TYPE handled_reply_seconds histogram\n",
        )?;
        for counts in &self.counts {
            counts.put_times(out)?;
        }
        out.write_str(
            "# HELP handled_connections Open connections, by publisher.\n# TYPE handled_connections gauge\n",
        )?;
        for counts in &self.counts {
            counts.put_connections(out)?;
        }
        out.write_str(
            "# HELP handled_last_change_timestamp_seconds When the last change was accepted, by publisher.\n# TYPE handled_last_change_timestamp_seconds gauge\n",
        )?;
        for counts in &self.counts {
            counts.put_changed(out)?;
        }
        Ok(())
    }

    /// Puts what is known of the table.
    fn put_table<W: fmt::Write>(&self, out: &mut W) -> fmt::Result {
        let shut = u8::from(self.health.is_shut());
        writeln!(
            out,
            "# HELP handled_table_shut 1 while the table takes no changes, after its file failed or was moved or changed.\n# TYPE handled_table_shut gauge\nhandled_table_shut {shut}"
        )?;
        let failing = u8::from(self.health.is_failing());
        writeln!(
            out,
            "# HELP handled_table_failing 1 if the last change couldn't be written.\n# TYPE handled_table_failing gauge\nhandled_table_failing {failing}"
        )?;
        let failures = self.health.failures();
        writeln!(
            out,
            "# HELP handled_table_failures_total Changes that couldn't be written.\n# TYPE handled_table_failures_total counter\nhandled_table_failures_total {failures}"
        )?;
        out.write_str(
            "# HELP handled_commit_seconds Seconds until a change was in the table's file.\n# TYPE handled_commit_seconds histogram\n",
        )?;
        self.health.commits().put(out, "handled_commit_seconds", "")
    }

    /// Puts what is known of memory.
    fn put_memory<W: fmt::Write>(&self, out: &mut W) -> fmt::Result {
        let short = u8::from(self.health.is_memory_short());
        writeln!(
            out,
            "# HELP handled_memory_short 1 while less memory is left than is kept aside.\n# TYPE handled_memory_short gauge\nhandled_memory_short {short}"
        )?;
        let refusals = self.health.refusals();
        writeln!(
            out,
            "# HELP handled_memory_refusals_total Changes that were refused for want of memory.\n# TYPE handled_memory_refusals_total counter\nhandled_memory_refusals_total {refusals}"
        )
    }

    /// Puts how many lines of the log were lost, where there is one.
    fn put_log<W: fmt::Write>(&self, out: &mut W) -> fmt::Result {
        let Some(log) = &self.log else {
            return Ok(());
        };
        let lost = log.lost();
        writeln!(
            out,
            "# HELP handled_log_lines_lost_total Lines of the log of changes that weren't written.\n# TYPE handled_log_lines_lost_total counter\nhandled_log_lines_lost_total {lost}"
        )
    }

    /// Puts how many changes aren't in the history, where there is one.
    fn put_history<W: fmt::Write>(&self, out: &mut W) -> fmt::Result {
        let Some(history) = &self.history else {
            return Ok(());
        };
        let lost = history.lost();
        writeln!(
            out,
            "# HELP handled_history_lines_lost_total Changes that weren't written into the history.\n# TYPE handled_history_lines_lost_total counter\nhandled_history_lines_lost_total {lost}"
        )
    }

    /// Puts how the server stands beside the others, if others have its table.
    fn put_standing<W: fmt::Write>(&self, out: &mut W) -> fmt::Result {
        let Some(standing) = &self.beside else {
            return Ok(());
        };
        let up = u8::from(!standing.is_cut());
        writeln!(
            out,
            "# HELP handled_cluster_up 1 while a member of etcd answers.\n# TYPE handled_cluster_up gauge\nhandled_cluster_up {up}"
        )?;
        let changes = standing.changes();
        writeln!(
            out,
            "# HELP handled_cluster_changes Changes that the server has, of all servers.\n# TYPE handled_cluster_changes gauge\nhandled_cluster_changes {changes}"
        )?;
        if let Some((known, sum)) = standing.known() {
            writeln!(
                out,
                "# HELP handled_cluster_sum The first 48 bits of the sum of so many changes: servers with equally many changes have one sum.\n# TYPE handled_cluster_sum gauge\nhandled_cluster_sum{{changes=\"{known}\"}} {sum}"
            )?;
        }
        let behind = standing.behind();
        writeln!(
            out,
            "# HELP handled_cluster_behind Changes that the server knows of and hasn't.\n# TYPE handled_cluster_behind gauge\nhandled_cluster_behind {behind}"
        )?;
        let refusals = standing.refusals();
        writeln!(
            out,
            "# HELP handled_cluster_refusals_total Changes that lost a race against another server's, or that etcd refused.\n# TYPE handled_cluster_refusals_total counter\nhandled_cluster_refusals_total {refusals}"
        )?;
        let resent = standing.resent();
        writeln!(
            out,
            "# HELP handled_cluster_resent_total Times that a change was sent again, since no answer came.\n# TYPE handled_cluster_resent_total counter\nhandled_cluster_resent_total {resent}"
        )
    }

    /// Puts everything that is counted.
    fn put_metrics<W: fmt::Write>(&self, out: &mut W) -> fmt::Result {
        writeln!(
            out,
            "# HELP handled_build_info The program's version.\n# TYPE handled_build_info gauge\nhandled_build_info{{version=\"{VERSION}\"}} 1"
        )?;
        self.put_counts(out)?;
        put_bounds(out, self.bounds.as_slice())?;
        self.put_table(out)?;
        self.put_memory(out)?;
        self.put_standing(out)?;
        self.process_metrics.put(out)?;
        self.put_log(out)?;
        self.put_history(out)
    }

    /// Everything that is counted.
    fn metrics(&self, alloc: Global) -> Result<Page, AllocError> {
        let mut body = String::new(alloc);
        match self.put_metrics(&mut body) {
            Ok(()) => Ok(Page {
                status: "200 OK",
                kind: "text/plain; version=0.0.4; charset=utf-8",
                body,
            }),
            Err(_) => Err(AllocError),
        }
    }

    /// The page at a path.
    fn page(&self, alloc: Global, method: &[u8], path: &[u8]) -> Result<Page, AllocError> {
        if method != b"GET".as_slice() && method != HEAD {
            return plain(
                alloc,
                "405 Method Not Allowed\r\nAllow: GET, HEAD",
                "ask with GET or HEAD\n",
            );
        }
        match path {
            b"/health" => self.health(alloc),
            b"/metrics" => self.metrics(alloc),
            _ => plain(alloc, "404 Not Found", "ask for /health or /metrics\n"),
        }
    }

    /// The octets of the answer to a request for this path. HEAD gets all but the body.
    fn reply(&self, alloc: Global, method: &[u8], path: &[u8]) -> Result<Vec<u8>, AllocError> {
        let Page { status, kind, body } = self.page(alloc, method, path)?;
        let length = body.len();
        let mut reply = format!(in alloc;
            "HTTP/1.1 {status}\r\nContent-Type: {kind}\r\nContent-Length: {length}\r\nCache-Control: no-store\r\nConnection: close\r\n\r\n"
        )?;
        if method != HEAD {
            reply.push_str(body.as_str())?;
        }
        Ok(reply.into_bytes())
    }
}

impl RequestHandler for StatusPage {
    /// The page that is asked for, once the head of the request is whole.
    fn answer(&self, alloc: Global, request: &[u8]) -> Response {
        let mut headers = [EMPTY_HEADER_SPAN; HEADERS];
        match parse_request(request, &mut headers) {
            Ok(Status::Complete(spans)) => {
                let (method, path) = (spans.method.of(request), spans.path.of(request));
                match self.reply(alloc, method, path) {
                    Ok(reply) => Response::Octets(reply),
                    Err(_) => Response::Close,
                }
            }
            Ok(Status::Partial) => Response::NeedMore,
            Err(_) => Response::Close,
        }
    }
}
