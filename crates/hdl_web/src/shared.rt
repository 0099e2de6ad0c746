//! What all share: the servers, who waits for each, and how each stands.

use crate::change_requests::Progress;
use crate::changes::ChangeHistory;
use crate::lifetime::lifetime;
use crate::log::AccessLogEntry;
use crate::metrics::Counts;
use crate::owners::PrefixOwners;
use crate::pending_question::{AnswerResult, PendingForm, PendingQuestion};
use crate::redirect_cache::{AnswerCache, CachedRedirect};
use crate::servers::Resolver;
use crate::standbys::Standbys;
use crate::worker::ChangeJob;
use crossbeam_channel::Sender;
use futures::channel::oneshot;
use hdl_client::{ClientFault, Reply};
use hdl_copied_handles::{CopiedHandles, ListedHandle};
use hdl_forms::TokenKey;
use hdl_history::Entry;
use hdl_languages::Language;
use hdl_msg::ResponseCode;
use hdl_name::Name;
use hdl_proxy::{Answer, HOPS_MOST, Next, NoAnswer, Question, Site, finish, next_step};
use hdl_routes::{
    ChangeMark, Failure, Route, ServerHealth, servers_to_ask, servers_to_change, worst,
};
use std::alloc::{AllocError, Global};
use std::sync::atomic::{AtomicU64, Ordering};
use std::sync::{Arc, Mutex, Wait};
use std::time::{Clock, Instant};
use std::vec::IntoIter;

/// How many questions, or changes, wait for a server at most.
pub(crate) const WAITING_MOST: usize = 256;

/// What all know of a server.
#[derive(Drop)]
pub(crate) struct Upstream {
    pub(crate) asks: Sender<PendingQuestion>,
    pub(crate) jobs: Option<Sender<ChangeJob>>,
    pub(crate) health: Mutex<ServerHealth>,
    /// How many questions it was asked, and how many of these it failed to answer.
    pub(crate) asked: AtomicU64,
    pub(crate) failed: AtomicU64,
}

impl Upstream {
    /// Notes that the server answered, and whether it had failed.
    fn note_answer<R: Wait>(&self, rt: &R) -> bool {
        let mut health = self.health.lock(rt);
        let had_failed = *health != ServerHealth::Fit;
        health.note_answer();
        had_failed
    }

    /// Notes that the server failed at this moment, and whether it was fit before.
    fn note_failure<R: Wait>(&self, rt: &R, now: u64) -> bool {
        self.failed.fetch_add(1, Ordering::Relaxed);
        let mut health = self.health.lock(rt);
        let was_fit = *health == ServerHealth::Fit;
        health.note_failure(now);
        was_fit
    }
}

/// The servers, and what is known of them.
#[derive(Drop)]
pub struct Shared<R> {
    pub(crate) rt: R,
    pub(crate) alloc: Global,
    /// The site of all pages.
    pub(crate) site: Arc<Site>,
    /// The language of all pages; if there is none, each request chooses.
    pub(crate) language: Option<Language>,
    pub(crate) routes: Vec<Route>,
    pub(crate) upstreams: Vec<Upstream>,
    pub(crate) owners: Mutex<PrefixOwners>,
    pub(crate) began: Instant,
    /// How many milliseconds an answer of a server may take.
    pub(crate) limit: u64,
    /// For how many seconds browsers keep a redirect at most.
    pub(crate) redirects: u32,
    /// Whether handles are changed.
    pub(crate) writes: bool,
    /// The handles of a copy of the table, of which lists are made, if there is one.
    pub(crate) copied: Option<Arc<CopiedHandles>>,
    /// The history whose last changes forms show, if there is one.
    pub(crate) history: Option<ChangeHistory>,
    /// With what the tokens of forms are made.
    pub(crate) tokens: TokenKey,
    /// What is kept, and replies for how many milliseconds at most, where any are.
    pub(crate) cache: Option<Mutex<AnswerCache>>,
    pub(crate) keeps: u64,
    pub(crate) counts: Counts,
    pub(crate) standbys: Standbys,
    /// How many numbers were drawn, from a random one on, in steps that are odd.
    pub(crate) drawn: AtomicU64,
    /// Where lines of visits go, where any are written.
    pub(crate) entries: Option<Sender<AccessLogEntry>>,
}

impl<R> Shared<R> {
    /// The handles of this prefix in canonical form that lists have.
    pub(crate) fn listed(&self, prefix: &[u8]) -> &[ListedHandle] {
        match &self.copied {
            Some(copied) => copied.listed(prefix),
            None => &[],
        }
    }
}

/// A question as far as what is kept answers it: the answer, or a question that no kept reply answers, its message, and which servers to ask.
#[derive(Drop)]
enum CacheLookup {
    Answer(Answer),
    Miss(Question, Vec<u8>, IntoIter<usize>),
}

/// Whether a reply with this code shows that its server has the prefix.
fn is_owner_code(code: Option<ResponseCode>) -> bool {
    matches!(
        code,
        Some(ResponseCode::Success | ResponseCode::HandleNotFound | ResponseCode::ValueNotFound,)
    )
}

impl<R: Wait + Clock> Shared<R> {
    /// The moment, in milliseconds. Where the clock fails it is the last one, at which no server is left out.
    pub(crate) fn now(&self) -> u64 {
        match self.began.elapsed(&self.rt) {
            Ok(time) => u64::try_from(time.as_millis()).unwrap_or(u64::MAX),
            Err(_) => u64::MAX,
        }
    }

    /// The moment, in seconds.
    pub(crate) fn seconds(&self) -> u32 {
        u32::try_from(self.now() / 1000).unwrap_or(u32::MAX)
    }

    /// A number by which one of several locations is chosen: each bit of it is as likely to be set as not (SplitMix64).
    pub(crate) fn chance(&self) -> u64 {
        let drawn = self
            .drawn
            .fetch_add(0x9E37_79B9_7F4A_7C15, Ordering::Relaxed);
        let mixed = (drawn ^ (drawn >> 30)).wrapping_mul(0xBF58_476D_1CE4_E5B9);
        let mixed = (mixed ^ (mixed >> 27)).wrapping_mul(0x94D0_49BB_1331_11EB);
        mixed ^ (mixed >> 31)
    }

    /// The servers to ask for handles of this prefix, in turn.
    pub(crate) fn turn(&self, prefix: &[u8]) -> Result<Vec<usize>, AllocError> {
        let known = if self.routes.len() > 1 {
            self.owners.lock(&self.rt).of(prefix, self.now())
        } else {
            None
        };
        servers_to_ask(self.alloc, &self.routes, prefix, known)
    }

    /// The reply to this message that is kept, if one is.
    fn kept_reply(&self, message: &[u8]) -> Option<Vec<u8>> {
        let cache = self.cache.as_ref()?;
        let now = self.now();
        cache.lock(&self.rt).kept.find(message, now)
    }

    /// The reply that is kept for a question with this message, unless a server is to be asked anew.
    fn reply_for(&self, question: &Question, message: &[u8]) -> Option<Vec<u8>> {
        if question.anew {
            return None;
        }
        self.kept_reply(message)
    }

    /// The redirect that answers a request of this path alone, if one is kept.
    pub(crate) fn redirect(&self, path: &str) -> Option<Arc<CachedRedirect>> {
        let cache = self.cache.as_ref()?;
        let now = self.now();
        let redirect = cache.lock(&self.rt).redirect(path, now)?;
        self.counts.kept.fetch_add(1, Ordering::Relaxed);
        Some(redirect)
    }

    /// Keeps what a request of this path alone was answered by, as its question's reply says.
    fn keep_redirect(&self, path: &str, message: Vec<u8>, reply: Vec<u8>, answer: &Answer) {
        if let Some(cache) = &self.cache {
            cache
                .lock(&self.rt)
                .keep_redirect(path, message, reply, answer);
        }
    }

    /// What is known of changes of this handle, where anything is kept.
    fn mark(&self, name: &Name) -> Option<ChangeMark> {
        let cache = self.cache.as_ref()?;
        Some(cache.lock(&self.rt).kept.mark(name.canon()))
    }

    /// This handle was changed, or may have been: what is kept of it is given no more.
    pub(crate) fn forget(&self, name: &Name) {
        if let Some(cache) = &self.cache {
            cache.lock(&self.rt).kept.forget(name.canon());
        }
    }

    /// Keeps a reply, for as long as it may be kept. The mark was there before it was asked for.
    fn keep(&self, message: &[u8], reply: &Reply, mark: Option<ChangeMark>) {
        let (Some(cache), Some(mark)) = (&self.cache, mark) else {
            return;
        };
        let Some(seconds) = lifetime(self.alloc, &reply.view()) else {
            return;
        };
        let now = self.now();
        let time = seconds.saturating_mul(1000).min(self.keeps);
        cache
            .lock(&self.rt)
            .kept
            .keep(message, reply.message(), mark, now, time);
    }

    /// A question as far as what is kept answers it, and the handles that its aliases name. `path` is that of its request, where nothing else is asked by it.
    fn look_up(&self, question: Question, path: Option<&str>) -> Result<CacheLookup, AllocError> {
        let mut question = question;
        let mut path = path;
        for _ in 0..=HOPS_MOST {
            // a question has no message where it is longer than a message may be, which no head of 8 KiB comes to
            let Some(message) = question.message(self.alloc)? else {
                let answer = finish(self.alloc, &question, Err(NoAnswer::Unreachable), 0)?;
                return Ok(CacheLookup::Answer(answer));
            };
            let Some(reply) = self.reply_for(&question, &message) else {
                let turn = self.turn(question.name.prefix())?.into_iter();
                return Ok(CacheLookup::Miss(question, message, turn));
            };
            match next_step(self.alloc, question, Ok(&reply), self.chance())? {
                Next::Answer(answer) => {
                    let answer = self.site.bound(answer);
                    self.counts.kept.fetch_add(1, Ordering::Relaxed);
                    if let Some(path) = path {
                        self.keep_redirect(path, message, reply, &answer);
                    }
                    return Ok(CacheLookup::Answer(answer));
                }
                Next::Ask(next) => {
                    question = next;
                    // what aliases lead to is made of several replies
                    path = None;
                }
            }
        }
        // as many aliases as that aren't followed, so none is left here
        Err(AllocError)
    }

    /// Takes a question: it is answered by what is kept, or its answer comes. `path` is that of its request, where nothing else is asked by it.
    pub(crate) fn take(
        &self,
        question: Question,
        path: Option<&str>,
    ) -> Result<Progress, AllocError> {
        match self.look_up(question, path)? {
            CacheLookup::Answer(answer) => Ok(Progress::Answered(Ok(answer))),
            CacheLookup::Miss(question, message, turn) => {
                let (answer, from) = oneshot::channel(self.alloc)?;
                self.send(question, message, turn, None, answer);
                Ok(Progress::Awaited(from))
            }
        }
    }

    /// Takes the question of whose reply a form is made, whatever is kept.
    pub(crate) fn take_for_form(
        &self,
        question: Question,
        token: Vec<u8>,
    ) -> Result<Progress, AllocError> {
        let Some(message) = question.message(self.alloc)? else {
            let answer = finish(self.alloc, &question, Err(NoAnswer::Unreachable), 0)?;
            return Ok(Progress::Answered(Ok(answer)));
        };
        let turn = self.turn(question.name.prefix())?.into_iter();
        let (answer, from) = oneshot::channel(self.alloc)?;
        let changes = self.last_changes(&question.name);
        self.send(
            question,
            message,
            turn,
            Some(PendingForm { token, changes }),
            answer,
        );
        Ok(Progress::Awaited(from))
    }

    /// The last changes of a handle, newest first, if there is a history.
    fn last_changes(&self, name: &Name) -> Vec<Entry> {
        match &self.history {
            Some(history) => history.last(self.alloc, name),
            None => Vec::new(self.alloc),
        }
    }

    /// Sends a question on its way to these servers.
    fn send(
        &self,
        question: Question,
        message: Vec<u8>,
        turn: IntoIter<usize>,
        form: Option<PendingForm>,
        answer: oneshot::Sender<AnswerResult>,
    ) {
        self.forward(PendingQuestion {
            alloc: self.alloc,
            question,
            message,
            turn,
            failure: Failure::Elsewhere,
            since: 0,
            form,
            answer,
        });
    }

    /// Goes on with the question that an alias led to.
    fn resume(&self, question: Question, answer: oneshot::Sender<AnswerResult>) {
        match self.look_up(question, None) {
            Ok(CacheLookup::Miss(question, message, turn)) => {
                self.send(question, message, turn, None, answer);
            }
            Ok(CacheLookup::Answer(made)) => drop(answer.send(Ok(made))),
            Err(refused) => drop(answer.send(Err(refused))),
        }
    }

    /// Why the server at this place isn't to be asked, if it isn't.
    fn obstacle(&self, upstream: &Upstream, now: u64) -> Option<Failure> {
        if upstream.health.lock(&self.rt).is_left_out(now) {
            Some(Failure::Unreachable)
        } else if upstream.asks.len() >= WAITING_MOST {
            Some(Failure::Crowded)
        } else {
            None
        }
    }

    /// The next server that is to be asked, if there is one; why those before it aren't is noted.
    fn next_upstream(&self, ask: &mut PendingQuestion) -> Option<&Upstream> {
        let PendingQuestion { turn, failure, .. } = ask;
        for place in turn {
            let Some(upstream) = self.upstreams.get(place) else {
                continue;
            };
            match self.obstacle(upstream, ask.since) {
                Some(reason) => *failure = worst(*failure, reason),
                None => return Some(upstream),
            }
        }
        None
    }

    /// Hands a question to the next server that is to be asked, or ends it where there is none.
    pub(crate) fn forward(&self, mut ask: PendingQuestion) {
        ask.since = self.now();
        match self.next_upstream(&mut ask) {
            Some(upstream) => {
                let _ = upstream.asks.send(&self.rt, ask);
            }
            None => ask.end(),
        }
    }

    /// Whether a question that waited may be asked now at the server of this post; why not is noted.
    fn try_admit(&self, upstream: &Upstream, ask: &mut PendingQuestion) -> bool {
        let now = self.now();
        if now.saturating_sub(ask.since) > self.limit {
            ask.note_failure(Failure::Crowded);
            return false;
        }
        let admitted = upstream.health.lock(&self.rt).try_admit(now, self.limit);
        if !admitted {
            ask.note_failure(Failure::Unreachable);
        }
        admitted
    }

    /// Answers with the reply of the server at this place, unless that refers elsewhere.
    fn take_reply(
        &self,
        place: usize,
        mut ask: PendingQuestion,
        reply: &Reply,
        mark: Option<ChangeMark>,
    ) {
        let code = reply.view().code();
        if code == Some(ResponseCode::ServiceReferral) {
            ask.note_failure(Failure::Elsewhere);
            return self.forward(ask);
        }
        if self.is_standby(place) {
            self.note_standby(place);
        } else if self.routes.len() > 1 && is_owner_code(code) {
            let prefix = ask.question.name.prefix();
            self.owners.lock(&self.rt).note(prefix, place, self.now());
        }
        self.keep(&ask.message, reply, mark);
        let (next, answer) = ask.next(reply.message(), self.chance());
        match next {
            Ok(Next::Ask(question)) => self.resume(question, answer),
            Ok(Next::Answer(made)) => drop(answer.send(Ok(made))),
            Err(refused) => drop(answer.send(Err(refused))),
        }
    }

    /// Asks the server at this place, and answers, or hands the question on.
    pub(crate) fn ask_upstream<S: Resolver>(
        &self,
        place: usize,
        server: &mut S,
        mut ask: PendingQuestion,
    ) {
        let Some(upstream) = self.upstreams.get(place) else {
            return ask.end();
        };
        if !self.try_admit(upstream, &mut ask) {
            return self.forward(ask);
        }
        upstream.asked.fetch_add(1, Ordering::Relaxed);
        let mark = self.mark(&ask.question.name);
        match server.ask(&ask.message) {
            Ok(reply) => {
                if upstream.note_answer(&self.rt) {
                    self.note_return(place);
                }
                self.take_reply(place, ask, &reply, mark);
            }
            Err(ClientFault::Memory) => ask.refuse(),
            Err(fault) => {
                if upstream.note_failure(&self.rt, self.now()) {
                    self.report_failure(place, fault);
                }
                ask.note_failure(Failure::Unreachable);
                self.forward(ask);
            }
        }
    }

    /// The way to the thread that carries out the changes of handles of this prefix, and the servers that they go to, in turn. None where no server has the prefix, or no
    /// changes are made.
    pub(crate) fn change_servers(
        &self,
        prefix: &[u8],
    ) -> Result<Option<(&Sender<ChangeJob>, Vec<usize>)>, AllocError> {
        let turn = servers_to_change(self.alloc, &self.routes, prefix)?;
        let Some(first) = turn.first() else {
            return Ok(None);
        };
        match self.upstreams.get(*first) {
            Some(
                Upstream {
                    jobs: Some(jobs),
                    ..
                },
            ) => Ok(Some((jobs, turn))),
            _ => Ok(None),
        }
    }
}
