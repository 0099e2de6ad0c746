//! One connection of a crowd.

ghost use Rattle.std.specs.Prelude.{◌≡◌, ◌≤◌, ◌+◌, length, take, IfErr, IfOk, IfSome, IfNone, OnOk, OnErr};
ghost use Rattle.hdl_overflow_lane.specs.Joining.{said_of};
ghost use Rattle.hdl_overflow_lane.specs.Timing.{after_octets, after_frame, after_reading, after_writing, after_refusal};
ghost use Rattle.hdl_overflow_lane.specs.ConnectionBuffers.{is_begun, is_over, reads, hands, says, writes, Takes, Pauses};

use crate::buffers::ConnectionBuffers;
use crate::timing::Timing;
use hdl_frame::{ENVELOPE_LEN, FrameFault};
use hdl_limits::MESSAGE_MAX;
use std::alloc::AllocError;

/// A connection of a crowd: its place there, and which one it is of all that came.
#[derive(Clone, Copy, PartialEq, Eq)]
pub struct ConnectionId {
    pub place: usize,
    pub serial: u64,
}

/// What is kept of a connection.
#[derive(Drop)]
pub(crate) struct ConnectionEntry {
    pub serial: u64,
    pub talk: ConnectionBuffers,
    pub timing: Timing,
}

impl ConnectionEntry {
    /// Notes octets that were read. An `Err` changes nothing.
    pub(crate) fn note_octets(&mut self, octets: &[u8], now: u64) -> Result<(), FrameFault>
        ensures ok { OnOk result (Takes self.old.talk (reads octets.now) self.new.talk) }
        ensures timing { OnOk result (self.new.timing ≡ after_octets now self.old.timing) }
        ensures unchanged { OnErr result (self.new ≡ self.old) }
        ensures serial { self.new.serial ≡ self.old.serial }
    {
        self.talk.note_octets(octets)?;
        self.timing = self.timing.after_octets(now);
        Ok(())
    }

    /// Hands out the frame that stands next, at the front of the buffer; its length. None where no whole frame stands there, or after a fault, which is
    /// refused when it is met. An `Err`: that memory for this was refused.
    pub(crate) fn next_frame(&mut self, buffer: &mut [u8]) -> Result<Option<usize>, AllocError>
        requires room { ENVELOPE_LEN + MESSAGE_MAX ≤ length buffer.old }
        ensures frame { IfOk result (λ found. IfSome found (λ len. (len ≤ length buffer.new) × Takes self.old.talk (hands (take len buffer.new)) self.new.talk)) }
        ensures none { IfOk result (λ found. IfNone found (Pauses self.old.talk self.new.talk)) }
        ensures timing { IfOk result (λ found. self.new.timing ≡ after_frame found self.old.timing) }
        ensures serial { self.new.serial ≡ self.old.serial }
    {
        if self.talk.is_faulty() {
            return Ok(None);
        }
        match self.talk.next_frame(buffer) {
            Ok(Some(len)) => {
                self.timing = self.timing.after_frame();
                Ok(Some(len))
            }
            Ok(None) => Ok(None),
            Err(fault) => {
                self.talk.refuse(fault)?;
                Ok(None)
            }
        }
    }

    /// Says a datagram. Refused memory changes nothing.
    pub(crate) fn say(&mut self, datagram: &[u8]) -> Result<(), AllocError>
        ensures ok { OnOk result (Takes self.old.talk (says (said_of datagram.now)) self.new.talk) }
        ensures unchanged { OnErr result (self.new ≡ self.old) }
        ensures timing { self.new.timing ≡ self.old.timing }
        ensures serial { self.new.serial ≡ self.old.serial }
    {
        self.talk.say(datagram)
    }

    /// Notes that `count` of the owed octets were written, or all of them if they are fewer.
    pub(crate) fn wrote(&mut self, count: usize, now: u64)
        ensures written { Takes self.old.talk (writes (take count self.old.talk.owed)) self.new.talk }
        ensures timing { self.new.timing ≡ after_writing (length self.old.talk.owed) count now self.old.timing }
        ensures serial { self.new.serial ≡ self.old.serial }
    {
        let owed = self.talk.owed().len();
        self.talk.wrote(count.min(owed));
        self.timing = if count < owed {
            self.timing.took(now)
        } else {
            self.timing.after_answer(now)
        };
    }

    /// Notes that nothing more can be read for now.
    pub(crate) fn waits(&mut self, now: u64)
        ensures talk { self.new.talk ≡ self.old.talk }
        ensures timing { self.new.timing ≡ after_reading (is_begun self.old.talk) now self.old.timing }
        ensures serial { self.new.serial ≡ self.old.serial }
    {
        self.talk.give_back();
        if self.talk.is_begun() {
            self.timing = self.timing.waits(now);
        }
    }

    /// Notes that no more of what is owed is taken for now.
    pub(crate) fn refuses(&mut self, now: u64)
        ensures talk { self.new.talk ≡ self.old.talk }
        ensures timing { self.new.timing ≡ after_refusal now self.old.timing }
        ensures serial { self.new.serial ≡ self.old.serial }
    {
        self.timing = self.timing.refuses(now);
    }

    /// Whether a fault was reported, and all replies are written.
    pub(crate) fn is_over(&self) -> bool
        ensures { result ≡ is_over self.now.talk }
    {
        self.talk.is_faulty() && self.talk.owed().is_empty()
    }
}
