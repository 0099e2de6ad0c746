//! What a connection has under way.

ghost use Rattle.std.specs.Prelude.{◌≡◌, ◌≤◌, ◌+◌, length, take, None, is_some, IfErr, IfOk, OnOk, OnErr, MatchOption};
ghost use Rattle.hdl_frame.specs.Frames.{BeginsWithFrame, fault_at};
ghost use Rattle.hdl_overflow_lane.specs.Joining.{said_of};
ghost use Rattle.hdl_overflow_lane.specs.ConnectionBuffers.{fresh, is_begun, reads, hands, is_observed, says, writes, refusal_of, Takes};

use crate::joining::push_said;
use hdl_frame::{Cutter, ENVELOPE_LEN, FrameFault};
use hdl_limits::MESSAGE_MAX;
use hdl_msg::refuse;
use std::alloc::{AllocError, Global};
use std::marker::Model;

/// What a connection has under way: octets that were read and not handed out, and octets that were said to its client and not written.
#[derive(Drop)]
pub struct ConnectionBuffers {
    alloc: Global,
    cutter: Cutter,
    /// How many octets the cutter holds.
    held: usize,
    /// The octets of replies, of which the first `written` are written.
    said: Vec<u8>,
    written: usize,
    is_faulty: bool,
}

impl Model for ConnectionBuffers {
    ghost use Rattle.std.specs.Prelude.{◌≡◌, ◌≤◌, length, drop, is_some};
    ghost use Rattle.hdl_overflow_lane.specs.ConnectionBuffers.{Talking};

    ghost Value = { Talking };

    ghost view = { λ t. record { rest = t.cutter.rest; fault = t.cutter.fault; owed = drop t.written t.said.items } };

    ghost invariant = { λ t. (t.held ≡ length t.cutter.rest) × (t.written ≤ length t.said.items) × (t.is_faulty ≡ is_some t.cutter.fault) };
}

impl ConnectionBuffers {
    /// The talk of a new connection. Takes no memory.
    pub fn new(alloc: Global) -> ConnectionBuffers
        ensures { result ≡ fresh }
    {
        ConnectionBuffers {
            alloc,
            cutter: Cutter::new(alloc),
            held: 0,
            said: Vec::new(alloc),
            written: 0,
            is_faulty: false,
        }
    }

    /// Notes octets that were read. An `Err` is the fault that was reported before or, where a growth was refused, Memory; either changes nothing.
    pub fn note_octets(&mut self, octets: &[u8]) -> Result<(), FrameFault>
        ensures ok { OnOk result (Takes self.old (reads octets.now) self.new) }
        ensures unchanged { OnErr result (self.new ≡ self.old) }
    {
        let Some(held) = self.held.checked_add(octets.len()) else {
            return Err(FrameFault::Memory);
        };
        self.cutter.feed(octets)?;
        self.held = held;
        Ok(())
    }

    /// Hands out the frame that stands next: it is copied to the front of the buffer, and its length answered. `None` where neither a whole frame nor a
    /// fault stands there, and then nothing changes. An `Err` is the fault that stands next, and stays.
    pub fn next_frame(&mut self, buffer: &mut [u8]) -> Result<Option<usize>, FrameFault>
        requires room { ENVELOPE_LEN + MESSAGE_MAX ≤ length buffer.old }
        ensures found { IfOk result (λ found. MatchOption found
            ((¬ BeginsWithFrame self.old.rest) × (fault_at self.old.rest ≡ None) × (self.new ≡ self.old))
            (λ len. (len ≤ length buffer.new) × Takes self.old (hands (take len buffer.new)) self.new)) }
        ensures fault { IfErr result (λ fault. Takes self.old (is_observed fault) self.new) }
    {
        match self.cutter.next_frame() {
            Ok(Some(frame)) => {
                let len = frame.bytes.len();
                buffer[..len].copy_from_slice(frame.bytes);
                self.held -= len;
                Ok(Some(len))
            }
            Ok(None) => Ok(None),
            Err(fault) => {
                self.is_faulty = true;
                Err(fault)
            }
        }
    }

    /// Whether a part of a frame stands next, or the fault that was reported.
    pub fn is_begun(&self) -> bool
        ensures { result ≡ is_begun self.now }
    {
        self.held > 0
    }

    /// Says what a datagram of a reply says. Refused memory changes nothing.
    pub fn say(&mut self, datagram: &[u8]) -> Result<(), AllocError>
        ensures ok { OnOk result (Takes self.old (says (said_of datagram.now)) self.new) }
        ensures unchanged { OnErr result (self.new ≡ self.old) }
    {
        push_said(&mut self.said, datagram)
    }

    /// Says that the envelope which stands next is refused, as a lane of one connection does. Refused memory changes nothing.
    pub fn refuse(&mut self, fault: FrameFault) -> Result<(), AllocError>
        ensures ok { OnOk result (Takes self.old (says (refusal_of fault)) self.new) }
        ensures unchanged { OnErr result (self.new ≡ self.old) }
    {
        match fault {
            FrameFault::Version(e) | FrameFault::Flags(e) | FrameFault::TooLong(e) => {
                self.said.extend_from_slice(&refuse(&e))
            }
            FrameFault::Memory => Err(AllocError),
        }
    }

    /// Whether a fault was reported, after which nothing is read.
    pub fn is_faulty(&self) -> bool
        ensures { result ≡ is_some self.now.fault }
    {
        self.is_faulty
    }

    /// The octets of replies that are still to be written.
    pub fn owed(&self) -> &[u8]
        ensures { result.now ≡ self.now.owed }
    {
        &self.said[self.written..]
    }

    /// Notes that `count` of the owed octets were written.
    pub fn wrote(&mut self, count: usize)
        requires owed { count ≤ length self.old.owed }
        ensures { Takes self.old (writes (take count self.old.owed)) self.new }
    {
        self.written += count;
    }

    /// Gives the memory back that is of no use. Nothing else changes.
    pub fn give_back(&mut self)
        ensures { self.new ≡ self.old }
    {
        if self.written == self.said.len() {
            self.said = Vec::new(self.alloc);
            self.written = 0;
        }
        if self.held == 0 && !self.is_faulty {
            self.cutter = Cutter::new(self.alloc);
        }
    }
}
