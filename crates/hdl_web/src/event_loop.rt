//! Event loops, and the listeners whose connections they serve.

use std::alloc::AllocGlobal;
use std::io;
use std::net::{Net, SocketAddr};
use std::os::fd::AsFd;
use std::random::RandomSource;
use std::time::Clock;
use tokio::net::TcpListener;
use tokio::runtime::LocalRuntime;

/// An event loop, and the listener whose connections it serves. It is made by who may listen, and sent to the thread that serves.
#[derive(Drop)]
pub struct EventLoop {
    pub(crate) runtime: LocalRuntime,
    pub(crate) listener: TcpListener,
}

impl EventLoop {
    /// An event loop for connections of this socket, which others may serve too.
    fn new<R>(rt: &R, socket: &mio::net::TcpListener) -> io::Result<EventLoop>
    where
        R: Net + Clock + RandomSource + AllocGlobal,
    {
        let runtime = LocalRuntime::new(rt)?;
        let shared = std::net::TcpListener::from(socket.as_fd().try_clone_to_owned()?);
        let listener = TcpListener::from_std(shared, runtime.handle().reactor())?;
        Ok(EventLoop { runtime, listener })
    }
}

/// Adds `count` event loops that share the connections of one address.
pub fn listen_at<R>(
    rt: &R,
    loops: &mut Vec<EventLoop>,
    address: SocketAddr,
    count: u64,
) -> io::Result<()>
where
    R: Net + Clock + RandomSource + AllocGlobal,
{
    let socket = mio::net::TcpListener::bind(rt, address)?;
    for _ in 0..count {
        loops.push(EventLoop::new(rt, &socket)?)?;
    }
    Ok(())
}
