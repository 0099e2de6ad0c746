//! Servers, and the connections to them.

use hdl_client::{ClientFault, Connection, Key, Reply, Session, connect_within};
use hdl_copied_handles::CopiedHandles;
use hdl_limits::Octets;
use hdl_msg::{RequestBody, ResponseCode};
use hdl_rest::{ChangeServer, NoReply, SUFFIX_LEN};
use hdl_value::Wire;
use rand::RngExt;
use rand::rngs::StdRng;
use std::alloc::AllocError;
use std::sync::Arc;
use std::time::{Duration, Instant};

/// A server that is asked one question at a time, and the connection to it where it was asked before.
#[derive(Drop)]
pub struct Server {
    rt: HostRuntime,
    /// `HOST:PORT`
    address: String,
    /// How long an answer may take, with all that it needs.
    limit: Duration,
    session: Option<Session<Connection>>,
}

/// Whether a reply refers to another service.
fn refers(reply: &Reply) -> bool {
    reply.view().code() == Some(ResponseCode::ServiceReferral)
}

/// Whether a connection that was kept may have failed just because it was old: then a new one may do.
fn may_be_old(fault: ClientFault) -> bool {
    !matches!(
        fault,
        ClientFault::TimedOut | ClientFault::TooLong | ClientFault::Memory
    )
}

impl Server {
    /// The server at this address. No connection is made.
    pub fn new(rt: HostRuntime, address: &str, limit: Duration) -> Result<Server, AllocError> {
        Ok(Server {
            rt,
            address: String::from_str(rt.alloc(), address)?,
            limit,
            session: None,
        })
    }

    /// Asks on a new connection, which is kept if it answers.
    fn ask_anew(&mut self, since: Instant, message: &[u8]) -> Result<Reply, ClientFault> {
        let mut session = connect_within(&self.rt, &self.address, since, self.limit)?;
        let reply = session.exchange(Wire::Profile, message)?;
        self.session = Some(session);
        Ok(reply)
    }

    /// Asks on the connection that was kept, or where that has failed on a new one.
    fn reply_to(&mut self, message: &[u8]) -> Result<Reply, ClientFault> {
        let since = Instant::now(&self.rt)?;
        let Some(mut session) = self.session.take() else {
            return self.ask_anew(since, message);
        };
        match session.exchange(Wire::Profile, message) {
            Ok(reply) => {
                self.session = Some(session);
                Ok(reply)
            }
            Err(fault) if may_be_old(fault) => self.ask_anew(since, message),
            Err(fault) => Err(fault),
        }
    }

    /// The connection that was kept, or a new one.
    fn open(&mut self) -> Result<Session<Connection>, ClientFault> {
        match self.session.take() {
            Some(session) => Ok(session),
            None => {
                let since = Instant::now(&self.rt)?;
                connect_within(&self.rt, &self.address, since, self.limit)
            }
        }
    }

    /// Asks with a key on this connection, which is kept if it answers. Nothing is sent twice.
    fn ask_with(
        &mut self,
        mut session: Session<Connection>,
        body: &RequestBody,
        key: &Key,
    ) -> Result<Reply, ClientFault> {
        let reply = session.ask(Wire::Profile, body, Some(key))?;
        self.session = Some(session);
        Ok(reply)
    }

    /// Asks for a change, on the connection that was kept or a new one.
    fn change(&mut self, body: &RequestBody, key: &Key) -> Result<Reply, NoReply> {
        let session = match self.open() {
            Ok(session) => session,
            Err(fault) => return Err(unreached(fault)),
        };
        match self.ask_with(session, body, key) {
            Ok(reply) => Ok(reply),
            Err(fault) => Err(silent(fault)),
        }
    }
}

/// What it is to who asks for a change, where the server wasn't reached.
fn unreached(fault: ClientFault) -> NoReply {
    match fault {
        ClientFault::Memory => NoReply::Memory,
        _ => NoReply::Unreached,
    }
}

/// The same, where the request was sent.
fn silent(fault: ClientFault) -> NoReply {
    match fault {
        ClientFault::Memory => NoReply::Memory,
        _ => NoReply::Silent,
    }
}

/// A way to ask without a key.
pub trait Resolver: Drop {
    /// The reply to a resolution with this message. It may wait, but not for ever.
    fn ask(&mut self, message: &[u8]) -> Result<Reply, ClientFault>;
}

impl Resolver for Server {
    fn ask(&mut self, message: &[u8]) -> Result<Reply, ClientFault> {
        self.reply_to(message)
    }
}

/// Who carries out orders: all servers, of which those of an order's prefix are asked in turn, the generator that draws suffixes, and the handles of a copy
/// of the table, where there is one.
#[derive(Drop)]
pub struct ChangeExecutor {
    servers: Vec<Server>,
    rng: StdRng,
    copied: Option<Arc<CopiedHandles>>,
    turn: Vec<usize>,
}

impl ChangeExecutor {
    /// An asker of these servers, which it knows by their places.
    pub fn new(
        servers: Vec<Server>,
        rng: StdRng,
        copied: Option<Arc<CopiedHandles>>,
        turn: Vec<usize>,
    ) -> ChangeExecutor {
        ChangeExecutor {
            servers,
            rng,
            copied,
            turn,
        }
    }

    /// The reply of the first server in turn that doesn't refer elsewhere. Where one isn't reached, or doesn't answer, no other is asked: its records
    /// and those of another server would part.
    fn reply_with(&mut self, body: &RequestBody, key: &Key) -> Result<Reply, NoReply> {
        let mut last = Err(NoReply::Unreached);
        for place in &self.turn {
            let Some(server) = self.servers.get_mut(*place) else {
                continue;
            };
            let reply = server.change(body, key)?;
            if !refers(&reply) {
                return Ok(reply);
            }
            last = Ok(reply);
        }
        last
    }
}

/// A service of which the next order's requests go to servers in turn.
pub trait ChangeServers: ChangeServer {
    /// The next requests go to the servers at these places.
    fn set_servers(&mut self, turn: Vec<usize>);
}

impl ChangeServers for ChangeExecutor {
    fn set_servers(&mut self, turn: Vec<usize>) {
        self.turn = turn;
    }
}

impl ChangeServer for ChangeExecutor {
    ghost use Rattle.std.specs.Prelude.{false, []};

    ghost is_observed = { false };

    ghost asked = { λ _. [] };

    fn renew(&mut self) {
        for server in &mut self.servers {
            server.session = None;
        }
    }

    fn ask(&mut self, body: &RequestBody, key: &Key) -> Result<Reply, NoReply> {
        self.reply_with(body, key)
    }

    fn draw(&mut self) -> [u8; SUFFIX_LEN] {
        let mut drawn = [0; SUFFIX_LEN];
        self.rng.fill(&mut drawn);
        drawn
    }

    fn copied(&self, prefix: &[u8]) -> Option<&[Octets]> {
        let copied = self.copied.as_ref()?;
        Some(copied.of(prefix))
    }
}
