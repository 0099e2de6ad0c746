//! The program `hdl proxy`, over HTTP/1.1: sockets, threads and time around `hdl_proxy`, which has what is asked and answered.
//!
//! ```text
//! hyper, event loops -> ProxyService: begin -> at once, or a channel -> a thread for each asker: ask, next_step -> ResponseFuture -> hyper
//!                      with --writes: begin_with_key, the body -> a channel -> one thread: carry_out -> ResponseFuture -> hyper
//! ```
//!
//! A thread that serves, one or as many as are asked for, never waits for a server: each asker (`Server`) has a thread of its own, and
//! connections to its servers that it keeps. A head has at most 8 KiB, and ten seconds to come whole, also where a connection is idle. It promises
//! that it is safe, whatever comes, and that a response has its answer's status; what is read and written is `hyper`'s. Nothing of
//! `hdl` but this program needs `hyper`, so asking in words is proved without it.
#![tactic(auto)]

mod accepted;
mod change_requests;
mod changes;
mod event_loop;
mod lifetime;
mod log;
mod logged;
mod metrics;
mod options;
mod owners;
mod pending_question;
mod redirect_cache;
mod response;
mod response_future;
mod servers;
mod service;
mod serving;
mod shared;
mod standbys;
mod text;
mod worker;
mod workers;
mod write_timeout;

use changes::ChangeHistory;
use event_loop::listen_at;
use hdl_copied_handles::{CopiedHandles, read_copy};
use hdl_languages::Language;
use hdl_programs::ExitStatus;
use hdl_proxy::{Site, is_site_address};
use hdl_routes::{Route, read_route};
use log::Log;
use options::{Invocation, ProxyOptions, read_arguments};
use rand::make_rng;
use servers::{ChangeExecutor, Server};
use serving::{Listening, serve_http};
use std::alloc::AllocError;
use std::fs::OpenOptions;
use std::io::{self, ErrorKind};
use std::net::SocketAddr;
use std::process::ExitCode;
use std::sync::Arc;
use std::time::Duration;
use workers::{Config, ProxyWorkers, UpstreamWorkers};

/// Whether an address is a host, a colon and the number of a port. An IPv6 address is in brackets.
fn has_port(address: &str) -> bool {
    match address.rsplit_once(':') {
        Some((host, port)) => {
            let is_bracketed = host.starts_with('[') && host.ends_with(']');
            let is_host = !host.is_empty() && (is_bracketed || !host.contains(':'));
            is_host && port.parse::<u16>().is_ok()
        }
        None => false,
    }
}

/// Adds the servers that these words name, which are standbys or not. None if a word names none, which is reported, or if memory was refused.
fn add_routes(
    rt: &HostRuntime,
    routes: &mut Vec<Route>,
    words: &[String],
    are_standbys: bool,
) -> Option<()> {
    let option = if are_standbys {
        "--standby"
    } else {
        "--server"
    };
    for word in words {
        match read_route(rt.alloc(), routes.len(), are_standbys, word) {
            Ok(route) if has_port(&route.address) => routes.push(route).ok()?,
            Ok(_) => {
                let _ = eprintln!(rt;
                    "error: {option} {word}: write HOST:PORT, such as 127.0.0.1:2641 or [::1]:2641"
                );
                return None;
            }
            Err(fault) => {
                let _ = eprintln!(rt; "error: {option} {word}: {fault}");
                return None;
            }
        }
    }
    Some(())
}

/// The servers that the words name. None if a word names none, which is reported, or if memory was refused.
fn routes(rt: &HostRuntime, words: &ProxyOptions) -> Option<Vec<Route>> {
    let mut routes = Vec::new(rt.alloc());
    add_routes(rt, &mut routes, &words.servers, false)?;
    add_routes(rt, &mut routes, &words.standbys, true)?;
    Some(routes)
}

/// The server as one asker has it, which asks one question at a time.
fn asker(rt: &HostRuntime, words: &ProxyOptions, route: &Route) -> Result<Server, AllocError> {
    Server::new(*rt, &route.address, Duration::from_secs(words.timeout))
}

/// The askers of this server: as many as it is asked questions at once.
fn askers(
    rt: &HostRuntime,
    words: &ProxyOptions,
    route: &Route,
) -> Result<Vec<Server>, AllocError> {
    let mut askers = Vec::new(rt.alloc());
    for _ in 0..words.askers {
        match askers.push(asker(rt, words, route)?) {
            Ok(()) => {}
            Err(_) => return Err(AllocError),
        }
    }
    Ok(askers)
}

/// The handles of the copy that the words name, if they name one. A fault is reported, and then there are none.
fn copied(rt: &HostRuntime, words: &ProxyOptions) -> Result<Option<CopiedHandles>, ExitCode> {
    let Some(path) = &words.lists else {
        return Ok(None);
    };
    match read_copy(rt, path.as_str()) {
        Ok(copied) => Ok(Some(copied)),
        Err(fault) => {
            let _ = eprintln!(rt; "hdl: --lists {path}: {fault}");
            Err(ExitCode::from(ExitStatus::Failure))
        }
    }
}

/// The history that the words name, if they name one. A fault is reported, and then there is none.
fn history(rt: &HostRuntime, words: &ProxyOptions) -> Result<Option<ChangeHistory>, ExitCode> {
    let Some(path) = &words.history else {
        return Ok(None);
    };
    match ChangeHistory::open(rt, path.as_str()) {
        Ok(history) => Ok(Some(history)),
        Err(fault) => {
            let _ = eprintln!(rt;
                "hdl: --history {path}: {fault}: name the file of handled serve --history, which the proxy's user may read"
            );
            Err(ExitCode::from(ExitStatus::Failure))
        }
    }
}

/// The same handles for another one who carries out orders.
fn shared_copy(
    copied: &Option<Arc<CopiedHandles>>,
) -> Result<Option<Arc<CopiedHandles>>, AllocError> {
    match copied {
        Some(copied) => Ok(Some(Arc::try_clone(copied)?)),
        None => Ok(None),
    }
}

/// What carries out orders, if any are taken.
fn writer(
    rt: &HostRuntime,
    words: &ProxyOptions,
    routes: &[Route],
    copied: &Option<Arc<CopiedHandles>>,
) -> io::Result<Option<ChangeExecutor>> {
    if !words.writes {
        return Ok(None);
    }
    let mut servers = Vec::new(rt.alloc());
    for route in routes {
        servers.push(asker(rt, words, route)?)?;
    }
    let rng = make_rng(rt)?;
    let copied = shared_copy(copied)?;
    Ok(Some(ChangeExecutor::new(servers, rng, copied, Vec::new(rt.alloc()))))
}

/// The servers, and who asks each.
fn start_workers(
    rt: &HostRuntime,
    words: &ProxyOptions,
    routes: Vec<Route>,
    copied: Option<CopiedHandles>,
    history: Option<ChangeHistory>,
) -> io::Result<ProxyWorkers<Server, ChangeExecutor>> {
    let copied = match copied {
        Some(copied) => Some(Arc::new(rt.alloc(), copied)?),
        None => None,
    };
    let mut all_workers = Vec::new(rt.alloc());
    for route in &routes {
        let askers = askers(rt, words, route)?;
        let change_servers = writer(rt, words, &routes, &copied)?;
        all_workers.push(UpstreamWorkers {
            askers,
            change_servers,
        })?;
    }
    let config = Config {
        site: site(rt, words)?,
        routes,
        limit: words.timeout.saturating_mul(1000),
        redirects: redirects(words),
        writes: words.writes,
        language: language(words),
        copied,
        history,
        keeps: words.cache.saturating_mul(1000),
    };
    Ok(ProxyWorkers {
        config,
        all_workers,
    })
}

/// For how many seconds browsers keep a redirect at most.
fn redirects(words: &ProxyOptions) -> u32 {
    u32::try_from(words.redirects).unwrap_or(0)
}

/// The site of all pages.
fn site(rt: &HostRuntime, words: &ProxyOptions) -> Result<Site, AllocError> {
    let contact = words.contact.as_ref().map(|contact| contact.as_str());
    let address = words.address.as_ref().map(|address| address.as_str());
    Site::new(rt.alloc(), &words.site, contact, address, redirects(words))
}

/// The language of all pages, if the words name one.
fn language(words: &ProxyOptions) -> Option<Language> {
    match &words.language {
        Some(word) => Language::called(word.as_str()),
        None => None,
    }
}

/// Whether the language that the words name, if they name one, is one of pages. If it isn't, that is reported.
fn is_language_fit(rt: &HostRuntime, words: &ProxyOptions) -> bool {
    match &words.language {
        Some(word) if Language::called(word.as_str()).is_none() => {
            let _ = eprintln!(rt; "error: --lang {word}: write en or de, or leave it out");
            false
        }
        _ => true,
    }
}

/// Whether the name of the site says something. If it doesn't, that is reported.
fn is_site_fit(rt: &HostRuntime, words: &ProxyOptions) -> bool {
    let is_fit = !words.site.trim().is_empty();
    if !is_fit {
        let _ = eprintln!(rt;
            "error: --site is empty: write the site's name, such as 'Handles of the library', or leave it out"
        );
    }
    is_fit
}

/// Whether the address that the words name, if they name one, is that of a site. If it isn't, that is reported.
fn is_address_fit(rt: &HostRuntime, words: &ProxyOptions) -> bool {
    match &words.address {
        Some(address) if !is_site_address(address.as_str()) => {
            let _ = eprintln!(rt;
                "error: --address {address}: write http:// or https://, the host and a slash, such as https://handles.example.org/"
            );
            false
        }
        _ => true,
    }
}

/// Whether the contact that the words name, if they name one, is a mail address or a URL. If it isn't, that is reported.
fn is_contact_fit(rt: &HostRuntime, words: &ProxyOptions) -> bool {
    match &words.contact {
        Some(contact) if !contact.contains('@') && !contact.contains("://") => {
            let _ = eprintln!(rt;
                "error: --contact {contact}: write a mail address or a URL, such as handles@example.org or https://example.org/contact"
            );
            false
        }
        _ => true,
    }
}

/// Whether all that the words name has its form. What hasn't is reported.
fn are_words_fit(rt: &HostRuntime, words: &ProxyOptions) -> bool {
    is_site_fit(rt, words)
        && is_language_fit(rt, words)
        && is_address_fit(rt, words)
        && is_contact_fit(rt, words)
        && are_addresses_fit(rt, words)
}

/// The log of visits, if there is one. A file that can't be written is reported.
fn lines_to(rt: &HostRuntime, words: &ProxyOptions) -> Result<Option<Log>, ExitCode> {
    let Some(path) = &words.log else {
        return Ok(None);
    };
    if path.as_str() == "-" {
        return Ok(Some(Log::Output(rt.stdout())));
    }
    let mut how = OpenOptions::new();
    how.append(true).create(true);
    match how.open(rt, path.as_str()) {
        Ok(file) => Ok(Some(Log::File(file))),
        Err(fault) => {
            let _ = eprintln!(rt;
                "hdl: --log {path}: {fault}: name a file that the proxy's user may write, in a folder that is there"
            );
            Err(ExitCode::from(ExitStatus::Failure))
        }
    }
}

/// Whether each word for an address to listen at is an IP address with a port. The first that isn't is reported.
fn are_addresses_fit(rt: &HostRuntime, words: &ProxyOptions) -> bool {
    for word in &words.listen {
        if word.parse::<SocketAddr>().is_err() {
            let _ = eprintln!(rt;
                "error: --listen {word}: write an IP address with a port, such as 127.0.0.1:8080 or [::1]:8080"
            );
            return false;
        }
    }
    true
}

/// Adds what listens at the address that this word names.
fn listen(
    rt: &HostRuntime,
    words: &ProxyOptions,
    word: &str,
    listening: &mut Listening,
) -> io::Result<()> {
    let Ok(address) = word.parse::<SocketAddr>() else {
        return Err(io::Error::from(ErrorKind::InvalidInput));
    };
    listen_at(rt, &mut listening.loops, address, words.threads)?;
    listening.addresses.push(address)?;
    Ok(())
}

/// What to do if an address can't be listened at, where that is known.
fn advice_on(kind: ErrorKind) -> &'static str {
    match kind {
        ErrorKind::AddrNotAvailable => ": name an address of this machine, see `ip addr`",
        ErrorKind::AddrInUse => ": end the program that uses it, or choose another port",
        ErrorKind::PermissionDenied => ": choose a port from 1024 on",
        _ => "",
    }
}

/// What listens at the addresses that the words name. None if one of them can't be had, which is reported.
fn listening(rt: &HostRuntime, words: &ProxyOptions) -> Option<Listening> {
    let mut listening = Listening {
        addresses: Vec::new(rt.alloc()),
        loops: Vec::new(rt.alloc()),
    };
    for word in &words.listen {
        if let Err(fault) = listen(rt, words, word, &mut listening) {
            let advice = advice_on(fault.kind());
            let _ = eprintln!(rt; "hdl: --listen {word}: {fault}{advice}");
            return None;
        }
    }
    Some(listening)
}

fn main(rt: HostRuntime) -> ExitCode {
    let words = match read_arguments(&rt) {
        Invocation::Proxy(words) => words,
        Invocation::Ended(status) => return ExitCode::from(status),
    };
    if !are_words_fit(&rt, &words) {
        return ExitCode::from(ExitStatus::Arguments);
    }
    let Some(routes) = routes(&rt, &words) else {
        return ExitCode::from(ExitStatus::Arguments);
    };
    let copied = match copied(&rt, &words) {
        Ok(copied) => copied,
        Err(status) => return status,
    };
    let history = match history(&rt, &words) {
        Ok(history) => history,
        Err(status) => return status,
    };
    let log = match lines_to(&rt, &words) {
        Ok(log) => log,
        Err(status) => return status,
    };
    let Some(listening) = listening(&rt, &words) else {
        return ExitCode::from(ExitStatus::Failure);
    };
    let served = match start_workers(&rt, &words, routes, copied, history) {
        Ok(workers_of_all) => serve_http(&rt, listening, workers_of_all, log, &mut rt.stdout()),
        Err(fault) => Err(fault),
    };
    if let Err(fault) = served {
        let _ = eprintln!(rt; "hdl: {fault}");
        return ExitCode::from(ExitStatus::Failure);
    }
    ExitCode::SUCCESS
}
