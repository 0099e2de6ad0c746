//! How far a stream is within its frames.

use hdl_frame::{ENVELOPE_LEN, Envelope};

/// How far a stream is within the frame that stands next: the envelopes are read, the payloads counted.
#[derive(Drop)]
pub struct Progress {
    /// The beginning of an envelope, and how many octets of it came.
    envelope: [u8; ENVELOPE_LEN],
    came: usize,
    /// How many octets of the payload are still to come.
    owed: usize,
}

impl Progress {
    /// The progress at the beginning of a stream.
    pub fn new() -> Progress {
        Progress {
            envelope: [0; ENVELOPE_LEN],
            came: 0,
            owed: 0,
        }
    }

    /// Whether a frame is begun and not whole.
    pub fn is_begun(&self) -> bool {
        self.came > 0 || self.owed > 0
    }

    /// The envelope is whole. After a faulty one no frame stands.
    fn begin_payload(&mut self) {
        let envelope = Envelope::read(&self.envelope);
        self.came = 0;
        self.owed = match envelope.fault() {
            Some(_) => 0,
            None => envelope.payload_len(),
        };
    }

    /// Takes what is the envelope's, and answers what follows it.
    fn follow_envelope<'a>(&mut self, octets: &'a [u8]) -> &'a [u8] {
        let Some((octet, rest)) = octets.split_first() else {
            return octets;
        };
        if let Some(place) = self.envelope.get_mut(self.came) {
            *place = *octet;
        }
        self.came = self.came.saturating_add(1);
        if self.came >= ENVELOPE_LEN {
            self.begin_payload();
        }
        rest
    }

    /// Takes what is the payload's, and answers what follows it.
    fn follow_payload<'a>(&mut self, octets: &'a [u8]) -> &'a [u8] {
        let (taken, rest) = octets.split_at(self.owed.min(octets.len()));
        self.owed = self.owed.saturating_sub(taken.len());
        rest
    }

    /// Follows octets of the stream. Whether a frame became whole among them.
    pub fn follow(&mut self, octets: &[u8]) -> bool {
        let mut rest = octets;
        let mut is_whole = false;
        for _ in 0..octets.len() {
            rest = if self.owed > 0 {
                self.follow_payload(rest)
            } else {
                self.follow_envelope(rest)
            };
            is_whole = is_whole || !self.is_begun();
            if rest.is_empty() {
                break;
            }
        }
        is_whole
    }
}
