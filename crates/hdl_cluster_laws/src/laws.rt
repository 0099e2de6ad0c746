//! The laws of servers together, each the contract of a function without a body.

ghost use Rattle.hdl_cluster_laws.specs.Laws.{HistoriesAreSteps, ServersAreOne, TurnsAreRuns};

use hdl_laws::laws::{restricted, twin_replies};

/// What several servers answered, in the order of the tables on which they answered, is a run of one service that has the lanes of all.
pub fn turns_are_runs()
    ensures { TurnsAreRuns }
{}

/// What each server did by itself, whenever it did it, can be put into that order if the changes are one list for all.
pub fn histories_are_steps()
    ensures { HistoriesAreSteps }
{}

/// Servers whose changes are one list are one service. In it each publisher is isolated, whichever servers its clients and those of others use, and no reply tells of a value that
/// nobody was allowed to read.
pub fn servers_are_one()
    ensures { ServersAreOne }
{
    restricted();
    twin_replies();
    turns_are_runs();
    histories_are_steps();
}
