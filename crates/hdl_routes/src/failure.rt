//! What answers that aren't good come to.

ghost use Rattle.std.specs.Prelude.{◌≡◌, ◌≤◌};
ghost use Rattle.hdl_routes.specs.Failure.{worst};

/// Why a server gave no good answer. What stands later counts more.
#[derive(Clone, Copy, PartialEq, Eq)]
pub enum Failure {
    /// It has no handles of the prefix.
    Elsewhere,
    /// It failed, or was left out since it had failed.
    Unreachable,
    /// Too many questions wait for it, so it wasn't asked: it may be soon.
    Crowded,
}

/// What the misses of two servers come to: no server has the prefix only if none failed, and servers failed only if none
/// may be asked soon.
pub fn worst(one: Failure, other: Failure) -> Failure
    ensures { result ≡ worst one other }
{
    match (one, other) {
        (Failure::Crowded, _) | (_, Failure::Crowded) => Failure::Crowded,
        (Failure::Unreachable, _) | (_, Failure::Unreachable) => Failure::Unreachable,
        (Failure::Elsewhere, Failure::Elsewhere) => Failure::Elsewhere,
    }
}
