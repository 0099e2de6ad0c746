//! The sleep of the thread that serves, the waker that ends it, and how long calls may wait.

use mio::{Events, Poll, Token, Waker};
use std::alloc::Global;
use std::io;
use std::net::Net;
use std::sync::Arc;
use std::sync::atomic::AtomicBool;
use std::sync::atomic::Ordering::SeqCst;
use std::time::Duration;

/// The token of the one source of a sleep.
const WAKE_TOKEN: Token = Token(0);

/// How long a call may wait: a worker's for a connection or a datagram, and the thread that serves for an event.
#[derive(Clone, Copy)]
pub struct CallTimeouts {
    pub door: Duration,
    pub events: Duration,
}

impl CallTimeouts {
    /// A server whose turns are counted is one of a test, so its turns shall not take long.
    pub fn of(turns: u64) -> CallTimeouts {
        if turns == u64::MAX {
            CallTimeouts {
                door: Duration::from_secs(1),
                events: Duration::from_millis(100),
            }
        } else {
            CallTimeouts {
                door: Duration::from_millis(1),
                events: Duration::from_millis(1),
            }
        }
    }
}

/// By this a worker ends the sleep of the thread that serves.
#[derive(Drop)]
pub struct LoopWaker {
    is_sleeping: AtomicBool,
    waker: Waker,
}

impl LoopWaker {
    /// Ends the sleep, if there is one. A worker that waits for an outcome calls this at each of its pauses, so a sleep that began
    /// between two looks at the lanes ends at the next pause. One of several workers makes the call of the system; where it fails
    /// the next call tries again.
    pub fn wake(&self) {
        let is_mine = self.is_sleeping.load(SeqCst) && self.is_sleeping.swap(false, SeqCst);
        if is_mine && self.waker.wake().is_err() {
            self.is_sleeping.store(true, SeqCst);
        }
    }
}

/// The sleep of the thread that serves.
#[derive(Drop)]
pub struct IdlePoll {
    poll: Poll,
    events: Events,
    waker: Arc<LoopWaker>,
    most: Duration,
}

impl IdlePoll {
    /// A sleep that ends by itself after this time.
    pub fn new<R: Net>(rt: &R, alloc: Global, most: Duration) -> io::Result<IdlePoll> {
        let poll = Poll::new(rt)?;
        let waker = Waker::new(poll.registry(), WAKE_TOKEN)?;
        let loop_waker = LoopWaker {
            is_sleeping: AtomicBool::new(false),
            waker,
        };
        Ok(IdlePoll {
            events: Events::with_capacity(alloc, 1)?,
            waker: Arc::new(alloc, loop_waker)?,
            poll,
            most,
        })
    }

    /// The waker, for a worker.
    pub fn waker(&self) -> io::Result<Arc<LoopWaker>> {
        Ok(Arc::try_clone(&self.waker)?)
    }

    /// Sleeps until a worker wakes it or the time is up. Whether it could.
    pub fn wait(&mut self) -> bool {
        self.waker.is_sleeping.store(true, SeqCst);
        let slept = self.poll.poll(&mut self.events, Some(self.most)).is_ok();
        self.waker.is_sleeping.store(false, SeqCst);
        slept
    }
}
