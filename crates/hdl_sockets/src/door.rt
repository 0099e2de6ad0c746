//! The machine's streams as doors. They tell nothing.

use crate::sockets::{has_no_room, is_no_data};
use crate::timeouts::ConnectionTimeouts;
use hdl_workers::{Door, DoorFault};
use std::net::TcpStream;

/// Listeners that several workers share, and the connection of this one, within its limits of time. `accept` waits for a while, so that a worker
/// without a connection costs little. Of a server that is to end it fails.
#[derive(Drop)]
pub struct SocketDoor<R> {
    timeouts: ConnectionTimeouts<R>,
    stream: Option<TcpStream>,
    faults: u64,
}

impl<R> SocketDoor<R> {
    pub fn new(timeouts: ConnectionTimeouts<R>) -> SocketDoor<R> {
        SocketDoor {
            timeouts,
            stream: None,
            faults: 0,
        }
    }
}

impl<R: std::rt::Clock + Drop> Door for SocketDoor<R> {
    ghost use Rattle.std.specs.Prelude.{false, true, []};
    ghost use Rattle.hdl_workers.specs.Door.{fresh};

    ghost is_observed = { false };

    ghost ended = { λ _. [] };

    ghost current = { λ _. fresh };

    ghost is_open = { λ _. true };

    ghost fault_count = { λ d. d.faults };

    fn accept(&mut self) -> Result<bool, DoorFault> {
        match self.timeouts.accept() {
            Ok(stream) => {
                let _ = stream.set_nodelay(true);
                self.timeouts.begin(&stream);
                self.stream = Some(stream);
                Ok(true)
            }
            Err(e) if is_no_data(e.kind()) => Ok(false),
            Err(e) if has_no_room(&e) => {
                self.timeouts.pause();
                Ok(false)
            }
            Err(_) => {
                self.timeouts.stop();
                self.faults = self.faults.saturating_add(1);
                Err(DoorFault)
            }
        }
    }

    fn read(&mut self, buffer: &mut [u8]) -> Result<usize, DoorFault> {
        if let Some(stream) = &mut self.stream {
            if let Ok(count) = self.timeouts.read(stream, buffer) {
                return Ok(count.min(buffer.len()));
            }
        }
        self.faults = self.faults.saturating_add(1);
        Err(DoorFault)
    }

    fn write(&mut self, octets: &[u8]) -> Result<usize, DoorFault> {
        if let Some(stream) = &mut self.stream {
            if let Ok(count) = self.timeouts.write(stream, octets) {
                return Ok(count.min(octets.len()));
            }
        }
        self.faults = self.faults.saturating_add(1);
        Err(DoorFault)
    }

    fn give_up(&mut self) {
        self.faults = self.faults.saturating_add(1);
    }

    fn leave(&mut self) {
        self.stream = None;
        self.timeouts.end();
    }

    fn faults(&self) -> u64 {
        self.faults
    }
}
