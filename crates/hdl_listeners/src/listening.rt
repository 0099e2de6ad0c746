//! Listening: the sockets of each publisher, and the lines that tell where they are.

use crate::fault::HostFault;
use crate::monitoring::Monitoring;
use hdl_boundedrows::Bound;
use hdl_programs::Fault;
use hdl_sockets::{
    CallTimeouts, LaneListener, ListenerConfig, OverflowLane, PacketSocket, ShutdownFlag, Sockets,
    lane_listeners_at,
};
use hdl_telemetry::PublisherTelemetry;
use hdl_tenants::Tenants;
use std::alloc::{AllocError, Global};
use std::io;
use std::net::{IpAddr, Ipv4Addr, Net, SocketAddr, TcpListener, TcpStream, UdpSocket};
use std::rt::Clock;
use std::sync::Arc;

/// How long a server serves, and how long it waits for its clients.
#[derive(Clone, Copy, Debug, PartialEq, Eq)]
pub struct Limits {
    /// How many turns each worker and the service have.
    pub turns: u64,
    /// For how many seconds a connection may say nothing while another client of its publisher waits.
    pub idle_seconds: u32,
    /// How many connections the overflow lane of a publisher has at most, where it has one. 0: none has.
    pub crowd: u32,
    /// How many times the octets that asked a reply over UDP may have, to an address that answered no challenge lately. None: `AMPLIFY_DEFAULT` times,
    /// and on loopback as many as it has.
    pub amplify: Option<u32>,
    /// How many octets of memory are kept aside: what takes more is refused where less is left.
    pub reserve: usize,
}

/// How many times the octets that asked a reply over UDP may have, where nothing else is said, and the server listens beyond loopback.
pub const AMPLIFY_DEFAULT: u32 = 8;

impl Limits {
    /// No end of turns, a minute of silence, a thousand connections, and 64 MiB.
    pub const DEFAULT: Limits = Limits {
        turns: u64::MAX,
        idle_seconds: 60,
        crowd: 1000,
        amplify: None,
        reserve: 67_108_864,
    };

    /// How many times the octets that asked a reply may have, through a datagram socket at this address.
    fn times_at(self, address: IpAddr) -> Option<u32> {
        match self.amplify {
            None if address.is_loopback() => None,
            None => Some(AMPLIFY_DEFAULT),
            times => times,
        }
    }
}

/// Where a server listens, its limits, the bounds of its publishers, whether it takes changes, and what is reported of it.
#[derive(Drop)]
pub struct ServerConfig {
    /// The addresses at which each publisher's port is opened, by TCP and UDP.
    pub addresses: Vec<IpAddr>,
    pub limits: Limits,
    /// How much of the table publishers may take; who has none may take all.
    pub bounds: Vec<Bound>,
    /// Whether changes are taken. Else each is answered 5, "operation denied".
    pub takes_changes: bool,
    pub monitoring: Monitoring,
}

impl ServerConfig {
    /// A configuration on 127.0.0.1 alone, with these limits, without bounds, log or status page.
    pub fn on_loopback(alloc: Global, limits: Limits) -> Result<ServerConfig, AllocError> {
        let mut addresses = Vec::new(alloc);
        addresses.push(IpAddr::V4(Ipv4Addr::LOCALHOST))?;
        Ok(ServerConfig {
            addresses,
            limits,
            bounds: Vec::new(alloc),
            takes_changes: true,
            monitoring: Monitoring::none(alloc)?,
        })
    }
}

/// The least number of lanes of a publisher that has an overflow lane: two for a connection each, this one, and that of its datagrams.
const LANES_WITH_OVERFLOW: u16 = 4;

/// How many descriptors each lane wants in addition to its crowd, and the program in addition to its lanes.
const DESCRIPTORS_PER_LANE: u64 = 4;

const DESCRIPTORS_OF_PROGRAM: u64 = 10;

/// How many descriptors the lanes and crowds of these publishers may want.
pub fn descriptors_for(tenants: &Tenants, limits: Limits) -> u64 {
    let mut sum = DESCRIPTORS_OF_PROGRAM;
    for place in 0..tenants.publishers() {
        let Some((_, lanes, _)) = tenants.publisher(place) else {
            break;
        };
        sum = sum.saturating_add(DESCRIPTORS_PER_LANE.saturating_mul(u64::from(lanes)));
        if lanes >= LANES_WITH_OVERFLOW {
            sum = sum.saturating_add(u64::from(limits.crowd));
        }
    }
    sum
}

/// A publisher's datagram sockets, the listeners of its lanes for a connection each, its overflow lane, if it has one, and what is recorded of them all.
///
/// What starts the workers is generic over the overflow lane: proving a function that owns an [`OverflowLane`] costs several times as much.
#[derive(Drop)]
pub struct PublisherSockets<C> {
    pub lane_listeners: Vec<LaneListener>,
    pub overflow: Option<C>,
    pub sockets: Sockets<PacketSocket>,
    pub telemetry: Option<PublisherTelemetry>,
    pub shutdown: Arc<ShutdownFlag>,
}

/// What is opened at the addresses of a publisher.
#[derive(Drop)]
struct OpenedSockets {
    listeners: Vec<TcpListener>,
    sockets: Vec<PacketSocket>,
}

/// What the machine doesn't give is a device fault.
pub fn or_device_fault<T: Drop>(gained: io::Result<T>) -> Result<T, Fault> {
    match gained {
        Ok(value) => Ok(value),
        Err(_) => Err(Fault::Device),
    }
}

/// Listens for connections and datagrams.
fn open_at<R: Net<Listener = TcpListener, Stream = TcpStream>>(
    rt: &R,
    at: SocketAddr,
) -> io::Result<(TcpListener, UdpSocket)> {
    Ok((TcpListener::bind(rt, at)?, UdpSocket::bind(rt, at)?))
}

/// Opens a publisher's port at each address, and adds the line of each.
fn open<R: Net<Listener = TcpListener, Stream = TcpStream>>(
    rt: &R,
    alloc: Global,
    config: &ServerConfig,
    publisher: (&str, u16),
    lines: &mut String,
) -> Result<OpenedSockets, HostFault> {
    let (name, port) = publisher;
    let mut listeners = Vec::new(alloc);
    let mut sockets = Vec::new(alloc);
    for address in &config.addresses {
        let at = SocketAddr::new(*address, port);
        match open_at(rt, at) {
            Ok((listener, socket)) => {
                listeners.push(listener)?;
                let times = config.limits.times_at(*address);
                sockets.push(PacketSocket { socket, times })?;
            }
            Err(e) => return Err(HostFault::Listen(at, e.kind())),
        }
        let line = format!(in alloc; "{name} {at}\n")?;
        lines.push_str(line.as_str())?;
    }
    Ok(OpenedSockets { listeners, sockets })
}

/// The overflow lane, which takes the last lane's listener, where there is to be one.
fn overflow_at<R: Net>(
    rt: &R,
    alloc: Global,
    lanes: u16,
    lane_listeners: &mut Vec<LaneListener>,
    limits: Limits,
) -> io::Result<Option<OverflowLane>> {
    if limits.crowd == 0 || lanes < LANES_WITH_OVERFLOW {
        return Ok(None);
    }
    let Some(lane_listener) = lane_listeners.pop() else {
        return Ok(None);
    };
    let most = usize::try_from(limits.crowd).unwrap_or(usize::MAX);
    let timeout = CallTimeouts::of(limits.turns).door;
    Ok(Some(OverflowLane::new(rt, alloc, lane_listener, most, timeout)?))
}

/// The listeners of a publisher with `lanes` lanes, and its overflow lane, where there is to be one.
fn listeners_and_overflow<R: Net + Clock>(
    rt: &R,
    alloc: Global,
    listeners: Vec<TcpListener>,
    lanes: u16,
    listener_config: &ListenerConfig,
    limits: Limits,
) -> io::Result<(Vec<LaneListener>, Option<OverflowLane>)> {
    let streams = lanes.saturating_sub(1);
    let mut lane_listeners = lane_listeners_at(
        rt,
        alloc,
        listeners.as_slice(),
        streams,
        listener_config,
    )?;
    let overflow = overflow_at(rt, alloc, lanes, &mut lane_listeners, limits)?;
    Ok((lane_listeners, overflow))
}

/// The sockets of a publisher, whose last lane is that of its datagrams.
fn sockets_of<R: Net + Clock>(
    rt: &R,
    alloc: Global,
    opened: OpenedSockets,
    publisher: (&str, u16),
    config: &mut ServerConfig,
) -> io::Result<PublisherSockets<OverflowLane>> {
    let OpenedSockets { listeners, sockets } = opened;
    let (name, lanes) = publisher;
    let limits = config.limits;
    let listener_config = ListenerConfig {
        door: CallTimeouts::of(limits.turns).door,
        idle_seconds: limits.idle_seconds,
        shutdown: Arc::try_clone(&config.monitoring.shutdown)?,
        proxied: config.monitoring.proxied,
    };
    let sockets = Sockets::with_registration(rt, alloc, sockets, listener_config.door)?;
    let telemetry = config.monitoring.telemetry_of(alloc, name, lanes)?;
    let (lane_listeners, overflow) = listeners_and_overflow(
        rt,
        alloc,
        listeners,
        lanes,
        &listener_config,
        limits,
    )?;
    Ok(PublisherSockets {
        lane_listeners,
        overflow,
        sockets,
        telemetry,
        shutdown: listener_config.shutdown,
    })
}

/// The sockets of each publisher, and the lines that tell where they are.
pub fn open_publishers<R: Net<Listener = TcpListener, Stream = TcpStream> + Clock>(
    rt: &R,
    alloc: Global,
    tenants: &Tenants,
    config: &mut ServerConfig,
) -> Result<(Vec<PublisherSockets<OverflowLane>>, String), HostFault> {
    let mut publishers = Vec::new(alloc);
    let mut lines = String::new(alloc);
    for place in 0..tenants.publishers() {
        let Some((name, lanes, port)) = tenants.publisher(place) else {
            unreachable!()
        };
        let opened = open(rt, alloc, config, (name, port), &mut lines)?;
        publishers.push(or_device_fault(sockets_of(rt, alloc, opened, (name, lanes), config))?)?;
    }
    Ok((publishers, lines))
}
