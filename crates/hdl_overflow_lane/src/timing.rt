//! Since when a connection keeps others waiting.

ghost use Rattle.std.specs.Prelude.{◌≡◌, Some, None};
ghost use Rattle.hdl_overflow_lane.specs.Timing.{at_first, since_first, has_lasted, keeps_waiting, is_late, silent_since};

/// For how many milliseconds the rest of a frame is waited for, and for how many an answer may be left untaken.
pub const WAIT_MAX_MILLIS: u64 = 10_000;

/// Since when a connection is silent, since when the rest of its frame is waited for, and since when it takes nothing of an answer; in milliseconds
/// of its lane's clock.
#[derive(Clone, Copy)]
pub struct Timing {
    pub silent: u64,
    pub begun: Option<u64>,
    pub untaken: Option<u64>,
}

/// The moment of what began before, or this one.
fn since_first(began: Option<u64>, now: u64) -> Option<u64>
    ensures { result ≡ since_first began now }
{
    match began {
        Some(moment) => Some(moment),
        None => Some(now),
    }
}

/// Whether what began, if anything did, is waited for longer than may be.
fn has_lasted(began: Option<u64>, now: u64) -> bool
    ensures { result ≡ has_lasted began now }
{
    match began {
        Some(moment) => now.saturating_sub(moment) > WAIT_MAX_MILLIS,
        None => false,
    }
}

impl Timing {
    /// The pace of a connection that came at this moment.
    pub fn new(now: u64) -> Timing
        ensures { result ≡ at_first now }
    {
        Timing {
            silent: now,
            begun: None,
            untaken: None,
        }
    }

    /// The pace after octets came at this moment.
    pub fn after_octets(self, now: u64) -> Timing
        ensures { result ≡ record self { silent = now } }
    {
        Timing {
            silent: now,
            ..self
        }
    }

    /// The pace after a frame became whole.
    pub fn after_frame(self) -> Timing
        ensures { result ≡ record self { begun = None } }
    {
        Timing {
            begun: None,
            ..self
        }
    }

    /// The pace after no more octets are there, while a frame is begun.
    pub fn waits(self, now: u64) -> Timing
        ensures { result ≡ record self { begun = since_first self.begun now } }
    {
        Timing {
            begun: since_first(self.begun, now),
            ..self
        }
    }

    /// An answer was taken to its end.
    pub fn after_answer(self, now: u64) -> Timing
        ensures { result ≡ record self { silent = now; untaken = None } }
    {
        Timing {
            silent: now,
            untaken: None,
            ..self
        }
    }

    /// Some of an answer was taken, and some is left.
    pub fn took(self, now: u64) -> Timing
        ensures { result ≡ record self { untaken = Some now } }
    {
        Timing {
            untaken: Some(now),
            ..self
        }
    }

    /// The pace after no more of an answer is taken for now.
    pub fn refuses(self, now: u64) -> Timing
        ensures { result ≡ record self { untaken = since_first self.untaken now } }
    {
        Timing {
            untaken: since_first(self.untaken, now),
            ..self
        }
    }

    /// Whether the rest of a frame is waited for, or an answer isn't taken.
    pub fn keeps_waiting(self) -> bool
        ensures { result ≡ keeps_waiting self }
    {
        self.begun.is_some() || self.untaken.is_some()
    }

    /// Whether the connection is to be closed: the rest of its frame, or its taking some of an answer, was waited for longer than may be.
    pub fn is_late(self, now: u64) -> bool
        ensures { result ≡ is_late self now }
    {
        has_lasted(self.begun, now) || has_lasted(self.untaken, now)
    }

    /// Since when the connection is silent. One that has an answer to take isn't.
    pub fn silent_since(self) -> Option<u64>
        ensures { result ≡ silent_since self }
    {
        match self.untaken {
            Some(_) => None,
            None => Some(self.silent),
        }
    }
}
