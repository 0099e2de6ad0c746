//! Who asks each server.

use crate::changes::ChangeHistory;
use crate::log::AccessLogEntry;
use crate::metrics::Counts;
use crate::owners::PrefixOwners;
use crate::pending_question::PendingQuestion;
use crate::redirect_cache::AnswerCache;
use crate::servers::{ChangeServers, Resolver};
use crate::shared::{Shared, Upstream};
use crate::standbys::{Notice, Standbys};
use crate::worker::{ChangeJob, run_change_worker, run_upstream_worker};
use crossbeam_channel::{Receiver, Sender, unbounded};
use hdl_copied_handles::CopiedHandles;
use hdl_forms::TokenKey;
use hdl_languages::Language;
use hdl_proxy::Site;
use hdl_routes::{Route, ServerHealth};
use std::alloc::{AllocGlobal, Global};
use std::hash::RandomState;
use std::io;
use std::random::RandomSource;
use std::sync::atomic::AtomicU64;
use std::sync::{Arc, Mutex, Wait};
use std::thread::{self, Threads};
use std::time::{Clock, Instant};

/// Who asks a server: as many as questions are asked of it at once, and who carries out orders that go to it first, if any are taken.
#[derive(Drop)]
pub struct UpstreamWorkers<S, C> {
    pub askers: Vec<S>,
    pub change_servers: Option<C>,
}

/// The servers, how many milliseconds an answer of each may take, what is kept, and the site of all pages.
#[derive(Drop)]
pub struct Config {
    pub site: Site,
    pub routes: Vec<Route>,
    pub limit: u64,
    /// For how many seconds browsers keep a redirect at most.
    pub redirects: u32,
    pub writes: bool,
    /// The language of all pages; if there is none, each request chooses.
    pub language: Option<Language>,
    /// The handles of a copy of the table, of which lists are made, if there is one.
    pub copied: Option<Arc<CopiedHandles>>,
    /// The history whose last changes forms show, if there is one.
    pub history: Option<ChangeHistory>,
    /// For how many milliseconds replies are kept at most; 0 keeps none.
    pub keeps: u64,
}

/// What is asked, and who asks each server.
#[derive(Drop)]
pub struct ProxyWorkers<S, C> {
    pub config: Config,
    pub all_workers: Vec<UpstreamWorkers<S, C>>,
}

/// The workers of an upstream, and where their questions and orders come from.
#[derive(Drop)]
struct UpstreamQueues<S, C> {
    workers: UpstreamWorkers<S, C>,
    asks: Receiver<PendingQuestion>,
    jobs: Receiver<ChangeJob>,
}

/// An upstream, and its workers.
fn upstream_of<S: Drop, C: Drop>(
    alloc: Global,
    workers: UpstreamWorkers<S, C>,
    writes: bool,
) -> io::Result<(Upstream, UpstreamQueues<S, C>)> {
    let (asks, asked) = unbounded(alloc)?;
    let (jobs, given) = unbounded(alloc)?;
    let upstream = Upstream {
        asks,
        jobs: if writes { Some(jobs) } else { None },
        health: Mutex::new(ServerHealth::Fit),
        asked: AtomicU64::new(0),
        failed: AtomicU64::new(0),
    };
    let queues = UpstreamQueues {
        workers,
        asks: asked,
        jobs: given,
    };
    Ok((upstream, queues))
}

/// The upstreams, and their workers, in their places.
fn all_upstreams<S: Drop, C: Drop>(
    alloc: Global,
    all_workers: Vec<UpstreamWorkers<S, C>>,
    writes: bool,
) -> io::Result<(Vec<Upstream>, Vec<UpstreamQueues<S, C>>)> {
    let mut upstreams = Vec::new(alloc);
    let mut all = Vec::new(alloc);
    for workers in all_workers {
        let (upstream, queues) = upstream_of(alloc, workers, writes)?;
        upstreams.push(upstream)?;
        all.push(queues)?;
    }
    Ok((upstreams, all))
}

/// Starts the threads of an upstream.
fn start_upstream_workers<R, S, C>(
    rt: &R,
    shared: &Arc<Shared<R>>,
    place: usize,
    queues: UpstreamQueues<S, C>,
) -> io::Result<()>
where
    R: Wait + Threads + Clock + AllocGlobal + Copy + Send + Sync + Drop + 'static,
    S: Resolver + Send + 'static,
    C: ChangeServers + Send + 'static,
{
    let UpstreamQueues {
        workers,
        asks,
        jobs,
    } = queues;
    let UpstreamWorkers {
        askers,
        change_servers,
    } = workers;
    for asker in askers {
        let theirs = Arc::try_clone(shared)?;
        let asks = asks.clone()?;
        drop(thread::spawn(rt, move || run_upstream_worker(&theirs, place, asker, asks))?);
    }
    if let Some(change_servers) = change_servers {
        let theirs = Arc::try_clone(shared)?;
        drop(thread::spawn(rt, move || run_change_worker(&theirs, change_servers, jobs))?);
    }
    Ok(())
}

/// What replies are kept in, if any are.
fn cache<R: RandomSource + AllocGlobal>(
    rt: &R,
    keeps: u64,
) -> io::Result<Option<Mutex<AnswerCache>>> {
    if keeps == 0 {
        return Ok(None);
    }
    let cache = AnswerCache::new(rt.alloc(), RandomState::new(rt)?, RandomState::new(rt)?)?;
    Ok(Some(Mutex::new(cache)))
}

fn random<R: RandomSource>(rt: &R) -> io::Result<u64> {
    let mut octets = [0u8; 8];
    rt.fill_bytes(&mut octets)?;
    Ok(u64::from_be_bytes(octets))
}

/// With what tokens of forms are made: octets that no one can guess.
fn token_key<R: RandomSource>(rt: &R) -> io::Result<TokenKey> {
    let mut inner = [0u8; 64];
    let mut outer = [0u8; 64];
    rt.fill_bytes(&mut inner)?;
    rt.fill_bytes(&mut outer)?;
    Ok(TokenKey { inner, outer })
}

/// The board with these posts; lines of visits go to `visits`, those about servers to `notices`.
fn shared_of<R>(
    rt: &R,
    config: Config,
    upstreams: Vec<Upstream>,
    entries: Option<Sender<AccessLogEntry>>,
    notices: Sender<Notice>,
) -> io::Result<Arc<Shared<R>>>
where
    R: Clock + RandomSource + AllocGlobal + Copy + Drop,
{
    let alloc = rt.alloc();
    let shared = Shared {
        rt: *rt,
        alloc,
        routes: config.routes,
        upstreams,
        owners: Mutex::new(PrefixOwners::new(alloc, RandomState::new(rt)?)?),
        began: Instant::now(rt)?,
        limit: config.limit,
        redirects: config.redirects,
        writes: config.writes,
        language: config.language,
        copied: config.copied,
        history: config.history,
        tokens: token_key(rt)?,
        cache: cache(rt, config.keeps)?,
        keeps: config.keeps,
        counts: Counts::new(alloc),
        standbys: Standbys::new(notices),
        drawn: AtomicU64::new(random(rt)?),
        site: Arc::new(alloc, config.site)?,
        entries,
    };
    let shared = Arc::new(alloc, shared)?;
    Ok(shared)
}

/// Starts the threads of all upstreams.
fn start_all_workers<R, S, C>(
    rt: &R,
    shared: &Arc<Shared<R>>,
    all_workers: Vec<UpstreamQueues<S, C>>,
) -> io::Result<()>
where
    R: Wait + Threads + Clock + AllocGlobal + Copy + Send + Sync + Drop + 'static,
    S: Resolver + Send + 'static,
    C: ChangeServers + Send + 'static,
{
    for (place, queues) in all_workers.into_iter().enumerate() {
        start_upstream_workers(rt, shared, place, queues)?;
    }
    Ok(())
}

/// Starts a thread for each who asks, and gives where questions and orders go; lines of visits go to `visits`, those about servers to `notices`.
pub(crate) fn start_upstreams<R, S, C>(
    rt: &R,
    workers_of_all: ProxyWorkers<S, C>,
    entries: Option<Sender<AccessLogEntry>>,
    notices: Sender<Notice>,
) -> io::Result<Arc<Shared<R>>>
where
    R: Wait + Threads + Clock + RandomSource + AllocGlobal + Copy + Send + Sync + Drop + 'static,
    S: Resolver + Send + 'static,
    C: ChangeServers + Send + 'static,
{
    let ProxyWorkers {
        config,
        all_workers,
    } = workers_of_all;
    let (upstreams, all_workers) = all_upstreams(rt.alloc(), all_workers, config.writes)?;
    let shared = shared_of(rt, config, upstreams, entries, notices)?;
    start_all_workers(rt, &shared, all_workers)?;
    Ok(shared)
}
