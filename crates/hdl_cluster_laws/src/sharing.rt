//! Laws of what servers with one list of changes did, each the contract of a function without a body.

ghost use Rattle.hdl_cluster_laws.specs.SharedLaws.{HasNumbering, HasWhole, KeepsTurns, SharedAreHistories, SharingIsOne};

use crate::laws::servers_are_one;

/// What each server did, its turns and the tables of others that it took over, is a history once it is cut at the changes.
pub fn shared_are_histories()
    ensures { SharedAreHistories }
{}

/// Among the turns of all, in the order of the changes, each server's are those that it took, in its order.
pub fn keeps_turns()
    ensures { KeepsTurns }
{}

/// Servers that start with one table and follow one list of changes are one service, isolated and hidden.
pub fn sharing_is_one()
    ensures { SharingIsOne }
{
    servers_are_one();
    shared_are_histories();
}

/// There are numbers for the lanes of all servers, no number for two. So this premise can be met.
pub fn has_numbering()
    ensures { HasNumbering }
{}

/// If servers host the same prefixes, speak alike and start with one table, there is one service that has the lanes of all. So this premise can be met.
pub fn has_whole()
    ensures { HasWhole }
{}
