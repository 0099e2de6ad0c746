//! The end of a server in order.

use std::sync::atomic::AtomicBool;
use std::sync::atomic::Ordering::SeqCst;

/// Whether the server is asked to end: then no lane takes a connection or a frame more, and each ends once what it took is answered.
#[derive(Drop)]
pub struct ShutdownFlag {
    is_requested: AtomicBool,
}

impl ShutdownFlag {
    /// The server isn't asked to end yet.
    pub fn new() -> ShutdownFlag {
        ShutdownFlag {
            is_requested: AtomicBool::new(false),
        }
    }

    /// Asks the server to end.
    pub fn request(&self) {
        self.is_requested.store(true, SeqCst);
    }

    /// Whether the server is asked to end.
    pub fn is_requested(&self) -> bool {
        self.is_requested.load(SeqCst)
    }
}
