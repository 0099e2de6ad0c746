//! When a server is asked, and when it is left out.

ghost use Rattle.std.specs.Prelude.{◌≡◌, ◌<◌, ◌↔◌, IsTrue};
ghost use Rattle.hdl_routes.specs.ServerHealth.{IsLeftOut, after_admission, later};

/// For how many milliseconds a server is left out after it failed.
pub const LEFT_OUT_MILLIS: u64 = 3000;

/// Whether a server is asked, by what came of the questions before. Moments are milliseconds.
#[derive(Clone, Copy, PartialEq, Eq)]
pub enum ServerHealth {
    /// It answered last, or wasn't asked yet.
    Fit,
    /// It failed, and isn't asked before this moment.
    Out(u64),
    /// It failed, and one question tries it, which is over at this moment.
    Tried(u64),
}

impl ServerHealth {
    /// Whether the server is left out at this moment.
    pub fn is_left_out(&self, now: u64) -> bool
        ensures { IsTrue result ↔ IsLeftOut self.now now }
    {
        match self {
            ServerHealth::Fit => false,
            ServerHealth::Out(until) | ServerHealth::Tried(until) => now < *until,
        }
    }

    /// Whether a question may be asked at this moment, which takes at most `limit`. Of a server that failed it's the only one until it is over.
    pub fn try_admit(&mut self, now: u64, limit: u64) -> bool
        ensures admitted { IsTrue result ↔ ¬ (IsLeftOut self.old now) }
        ensures refused { IsLeftOut self.old now → self.new ≡ self.old }
        ensures after { ¬ (IsLeftOut self.old now) → self.new ≡ after_admission (later now limit) self.old }
    {
        if self.is_left_out(now) {
            return false;
        }
        if *self != ServerHealth::Fit {
            *self = ServerHealth::Tried(now.saturating_add(limit));
        }
        true
    }

    /// Notes that the server answered.
    pub fn note_answer(&mut self)
        ensures { self.new ≡ ServerHealth.Fit }
    {
        *self = ServerHealth::Fit;
    }

    /// Notes that the server failed at this moment, so it is left out for `LEFT_OUT_MILLIS` milliseconds.
    pub fn note_failure(&mut self, now: u64)
        ensures { self.new ≡ ServerHealth.Out (later now LEFT_OUT_MILLIS) }
    {
        *self = ServerHealth::Out(now.saturating_add(LEFT_OUT_MILLIS));
    }
}
