//! Letting in what other servers changed.

ghost use Rattle.std.specs.Prelude.{◌≡◌, ◌++◌, [], List, IfErr, true, false};
ghost use Rattle.hdl_serve.specs.declared.news.StampedChange.{StampedChange};
ghost use Rattle.hdl_serve.specs.Rounds.{HasRunBeside};
ghost use Rattle.hdl_serve.specs.Shared.{IsUnfit};

use crate::news::RemoteChanges;
use crate::rounds::is_owed;
use hdl_core::{Machine, Owing, RemoteChangeResult};

/// How many changes are let in at most before lanes are asked again.
const IN_A_ROW: u64 = 64;

/// The table can't have the next change, so this server has parted from the others.
#[derive(Drop)]
pub(crate) struct Diverged;

/// What became of the next change of the news.
#[derive(Clone, Copy, Debug, PartialEq, Eq, Drop)]
pub(crate) enum Next {
    /// It is in the table.
    Done,
    /// It waits, since the table owes another write.
    Waits,
    /// None has come, or the table doesn't have it yet.
    Missing,
}

/// How far letting in came.
#[derive(Clone, Copy, Debug, PartialEq, Eq, Drop)]
pub(crate) struct Progress {
    /// Whether a change was let in.
    pub(crate) has_worked: bool,
    /// Whether another change may wait.
    pub(crate) is_behind: bool,
}

/// Whether a change has come. It isn't offered to the table.
fn has_next<N: RemoteChanges>(news: &mut N) -> bool
    ensures { N.taken news.new ≡ N.taken news.old }
{
    news.look();
    let has_next = news.front().is_some();
    news.leave();
    has_next
}

/// Lets in the next change of the news, if one has come and the table owes no write but that of this change.
///
/// `is_handed_over` says whether the table owes the write of the next change.
#[tactic(auto, using(crate::proofs::Sharing::lets_none))]
fn apply_next_remote<R: Owing + Drop, N: RemoteChanges>(
    machine: &mut Machine<R>,
    news: &mut N,
    is_handed_over: &mut bool,
) -> Result<Next, Diverged>
    ensures beside { (changes : List StampedChange) × (N.taken news.new ≡ N.taken news.old ++ changes) × HasRunBeside machine.old.world changes [] [] machine.new.world }
    ensures waits { (R.debt machine.old.rows).owes ≡ true → is_handed_over.old ≡ false → (machine.new ≡ machine.old) × (N.taken news.new ≡ N.taken news.old) }
    ensures parted { IfErr result (λ _. IsUnfit (N.seen news.new) machine.new.world.table) }
{
    if is_owed(machine.owed()) && !*is_handed_over {
        return Ok(if has_next(news) {
            Next::Waits
        } else {
            Next::Missing
        });
    }
    news.look();
    let Some(next) = news.front() else {
        return Ok(Next::Missing);
    };
    let outcome = machine.apply_remote(next.moment, &next.change);
    *is_handed_over = outcome == RemoteChangeResult::Owed;
    match outcome {
        RemoteChangeResult::Done => {
            news.take();
            Ok(Next::Done)
        }
        RemoteChangeResult::Unfit => Err(Diverged),
        RemoteChangeResult::Refused | RemoteChangeResult::Owed => {
            news.leave();
            Ok(Next::Missing)
        }
    }
}

/// Lets in the changes that have come, up to 64 of them.
pub(crate) fn apply_remote_changes<R: Owing + Drop, N: RemoteChanges>(
    machine: &mut Machine<R>,
    news: &mut N,
    is_handed_over: &mut bool,
) -> Result<Progress, Diverged>
    ensures beside { (changes : List StampedChange) × (N.taken news.new ≡ N.taken news.old ++ changes) × HasRunBeside machine.old.world changes [] [] machine.new.world }
    ensures parted { IfErr result (λ _. IsUnfit (N.seen news.new) machine.new.world.table) }
{
    for count in 0..IN_A_ROW {
        let next = apply_next_remote(machine, news, is_handed_over)?;
        if next != Next::Done {
            return Ok(Progress {
                has_worked: count > 0,
                is_behind: next == Next::Waits,
            });
        }
    }
    Ok(Progress {
        has_worked: true,
        is_behind: true,
    })
}
