//! Laws over whole runs, each the contract of a function without a body.

ghost use Rattle.hdl_laws.specs.Laws.{CalmIsQuiet, HasCover, JoinsRuns, KeepsCovers, ReadsOnly, RunWithoutBusyIsOne, RestrictsRuns, TwinsReplyAlike, TwoRunsAgree, UnsharedIsQuiet};
ghost use Rattle.hdl_laws.specs.Limits.{LimitsBound};
ghost use Rattle.hdl_laws.specs.Reveals.{StepsTell, StepsAnnounce};

/// Two runs in a row are one run of the joined events.
pub fn runs_joined()
    ensures { JoinsRuns }
{}

/// In each world of a run that is quiet for a publisher, a cover for it is closed.
pub fn cover_kept()
    ensures { KeepsCovers }
{}

/// A publisher's part of a quiet run is the run of its events alone, from its rows and the values at a cover (`alone`). That
/// run is one (`one`), so two quiet runs that agree for the publisher give it equal outcomes (`two_runs`).
pub fn restricted()
    ensures alone { RestrictsRuns }
    ensures one { RunWithoutBusyIsOne }
    ensures two_runs { TwoRunsAgree }
{}

/// Runs of the same events from twins, with the same codes, have the same octets and end in twins: beyond its code no reply
/// depends on a value that nobody in the run may read.
pub fn twin_replies()
    ensures { TwinsReplyAlike }
{}

/// A run of a world that takes no changes leaves the table as it was, whatever is pending on its lanes.
pub fn reads_only()
    ensures { ReadsOnly }
{}

/// The reply to one event is the rendering of its code, the request that it answers, the event's envelope and nonce, the lane's
/// next number, and with code 1 of what the caller's level may see, or of the site information of the lane's publisher.
pub fn reply_told()
    ensures { StepsTell }
{}

/// What a step sends is the message of a reply whose header announces what it carries: whether a digest stands, and the form of
/// the content. So reading gives this reply back, where its parts fit their fields, and needs nothing of the request.
pub fn reply_announced()
    ensures { StepsAnnounce }
{}

/// Each run has a cover for each publisher: what the first table's values refer to, and what the values refer to that the publisher
/// writes. So the premise of a cover can be met in every run.
pub fn has_cover()
    ensures { HasCover }
{}

/// A run in which no event of another publisher changes the table is quiet, whatever the cover. So the premise of quiet can be
/// met.
pub fn calm_is_quiet()
    ensures { CalmIsQuiet }
{}

/// If no other publisher hosts a publisher's prefixes or those of a cover, every run is quiet: an event changes only handles of
/// prefixes that the publisher hosts on whose lane it came.
pub fn unshared_is_quiet()
    ensures { UnsharedIsQuiet }
{}

/// A table whose values are within the limits of a value, and whose handles have 1,024 values at most, has these numbers for bounds: a value counts
/// 164,637 octets at most, and the heads of a handle's values 291,840.
pub fn limits_bound()
    ensures { LimitsBound }
{}
