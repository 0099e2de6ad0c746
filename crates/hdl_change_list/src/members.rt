//! The members of etcd, which are asked in turn.

use crate::streams::MemberStream;
use crate::watch::Watch;
use hdl_etcd::{EtcdFault, Exchange, WatchEvents};
use std::alloc::Global;
use std::net::{Net, TcpStream};
use std::time::Duration;

/// How many seconds a member has to take a request, and to send more of its answer.
const TIMEOUT_SECONDS: u64 = 1;

/// How many seconds it has while a table is loaded: it walks all keys of a range before it answers.
const LOAD_TIMEOUT_SECONDS: u64 = 10;

/// The members of etcd, by `HOST:PORT` or `unix:PATH`, one of which is asked at a time, and watched.
#[derive(Drop)]
pub struct Members<R> {
    rt: R,
    alloc: Global,
    addresses: Vec<String>,
    /// The place of the one that is asked next.
    at: usize,
    timeout: Duration,
    exchange: Option<Exchange<MemberStream>>,
    watch: Option<Watch>,
}

impl<R: Net<Stream = TcpStream>> Members<R> {
    pub fn new(rt: R, alloc: Global, addresses: Vec<String>) -> Members<R> {
        Members {
            rt,
            alloc,
            addresses,
            at: 0,
            timeout: Duration::from_secs(TIMEOUT_SECONDS),
            exchange: None,
            watch: None,
        }
    }

    /// The addresses of all members.
    pub fn addresses(&self) -> &[String] {
        &self.addresses
    }

    /// A stream to the member that is asked next.
    fn stream(&self) -> Result<MemberStream, EtcdFault> {
        let Some(address) = self.addresses.get(self.at) else {
            return Err(EtcdFault::NoAnswer);
        };
        Ok(MemberStream::connect(&self.rt, address.as_str(), self.timeout)?)
    }

    /// A connection to the member that is asked next.
    fn exchange(&mut self) -> Result<Exchange<MemberStream>, EtcdFault> {
        if let Some(exchange) = self.exchange.take() {
            return Ok(exchange);
        }
        Exchange::over(self.alloc, self.stream()?)
    }

    /// Gives each member so long from the next connection on.
    fn set_timeout(&mut self, seconds: u64) {
        self.timeout = Duration::from_secs(seconds);
        self.exchange = None;
    }

    /// Members have long to answer from now on, since a table is loaded.
    pub(crate) fn begin_load(&mut self) {
        self.set_timeout(LOAD_TIMEOUT_SECONDS);
    }

    /// The table is loaded.
    pub(crate) fn end_load(&mut self) {
        self.set_timeout(TIMEOUT_SECONDS);
    }

    /// The next member is asked from now on, and the watch is over.
    fn pass(&mut self) {
        self.watch = None;
        self.at = self.at.saturating_add(1);
        if self.at >= self.addresses.len() {
            self.at = 0;
        }
    }

    fn try_ask(&mut self, path: &str, text: &str) -> Result<Vec<u8>, EtcdFault> {
        let mut exchange = self.exchange()?;
        let body = exchange.ask(path, text)?;
        self.exchange = Some(exchange);
        Ok(body)
    }

    /// Sends a request to the member that is asked next, once, and takes the body of its answer. After a fault the next request goes to another member.
    pub fn ask(&mut self, path: &str, text: &str) -> Result<Vec<u8>, EtcdFault> {
        let asked = self.try_ask(path, text);
        if asked.is_err() {
            self.pass();
        }
        asked
    }

    /// Begins to watch at the member that answered last, by this request.
    pub fn begin_watch(&mut self, text: &str) -> Result<(), EtcdFault> {
        if self.exchange.is_none() {
            return Err(EtcdFault::NoAnswer);
        }
        self.watch = Some(Watch::begin(self.alloc, self.stream()?, text)?);
        Ok(())
    }

    /// Watches no more.
    pub fn end_watch(&mut self) {
        self.watch = None;
    }

    /// Whether a watch was begun, and isn't over.
    pub fn has_watch(&self) -> bool {
        self.watch.is_some()
    }

    /// Whether the watch tells of what is put.
    pub fn is_watched(&self) -> bool {
        match &self.watch {
            Some(watch) => watch.stands(),
            None => false,
        }
    }

    /// What the watch tells next, if something came. After a fault it is over.
    pub fn watched(&mut self) -> Result<Option<WatchEvents>, EtcdFault> {
        let Some(mut watch) = self.watch.take() else {
            return Ok(None);
        };
        let told = watch.next()?;
        self.watch = Some(watch);
        Ok(told)
    }
}
