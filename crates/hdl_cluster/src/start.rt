//! What a server beside others begins with.

ghost use Rattle.std.specs.Prelude.{◌≡◌, [], IfOk};
ghost use Rattle.hdl_lanes.specs.Lane.{taken_from};
ghost use Rattle.hdl_rows.specs.Table.{no_rows};

use crate::journal::EtcdJournal;
use crate::news::EtcdChanges;
use crate::sync::{ClusterSync, ClusterSyncEnds};
use hdl_change_list::{ChangeList, ClusterStatus};
use hdl_durablerows::{DurableRows, ShutObserver};
use hdl_journalrows::JournalFile;
use hdl_lanes::lane;
use hdl_rows::PlainRows;
use rand::make_rng;
use std::alloc::{AllocError, Global};
use std::io;
use std::net::{Net, TcpStream};
use std::random::RandomSource;
use std::rt::Clock;
use std::sync::Arc;
use std::sync::atomic::AtomicBool;

/// For how many changes a ring has room: more than are read at once.
const RING_ITEMS: usize = 2_048;

/// The table in memory whose writes stand in the list of changes.
pub type SharedRows<A> = DurableRows<PlainRows, JournalFile<EtcdJournal>, A>;

/// What a server has beside others: the journal of its table, the news of the others, and the ends of their rings that the keeper has.
#[derive(Drop)]
struct Rings {
    journal: EtcdJournal,
    news: EtcdChanges,
    ends: ClusterSyncEnds,
}

fn new_rings(alloc: Global, standing: &Arc<ClusterStatus>) -> Result<Rings, AllocError>
    ensures journal { IfOk result (λ r. taken_from r.journal.written ≡ []) }
    ensures news { IfOk result (λ r. taken_from r.news.changes ≡ []) }
{
    let (written, taken) = lane(alloc, RING_ITEMS)?;
    let (changes, seen) = lane(alloc, RING_ITEMS)?;
    let (ordered, orders) = lane(alloc, 1)?;
    let is_offered = Arc::new(alloc, AtomicBool::new(false))?;
    let theirs = Arc::try_clone(&is_offered)?;
    let journals = Arc::try_clone(standing)?;
    let news = Arc::try_clone(standing)?;
    Ok(Rings {
        journal: EtcdJournal::new(alloc, taken, ordered, is_offered, journals),
        news: EtcdChanges::new(seen, theirs, news),
        ends: ClusterSyncEnds {
            written,
            changes,
            orders,
        },
    })
}

/// An empty table over a journal that has told nothing.
fn rows_over<A: ShutObserver + Drop>(
    alloc: Global,
    journal: EtcdJournal,
    observer: A,
) -> SharedRows<A>
    requires new { taken_from journal.written ≡ [] }
    ensures { result.table ≡ no_rows }
{
    let file = JournalFile { journal };
    DurableRows::over(alloc, PlainRows::new(alloc), file, observer)
}

/// What a server has beside others: its table, the news of the others, and what keeps both.
#[derive(Drop)]
pub struct ClusterParts<R, A: ShutObserver + Drop> {
    pub rows: SharedRows<A>,
    pub news: EtcdChanges,
    pub keeper: ClusterSync<R>,
}

/// What a server has beside others that use the same members and name: an empty table, into which the keeper's load has to be let in.
pub fn prepare<
    R: Net<Stream = TcpStream> + Clock + Eprint + RandomSource + Copy + Drop,
    A: ShutObserver + Drop,
>(
    rt: &R,
    alloc: Global,
    members: Vec<String>,
    name: Vec<u8>,
    standing: &Arc<ClusterStatus>,
    observer: A,
) -> io::Result<ClusterParts<R, A>>
    ensures empty { IfOk result (λ b. b.rows.table ≡ no_rows) }
    ensures news { IfOk result (λ b. taken_from b.news.changes ≡ []) }
{
    let list = ChangeList::new(*rt, alloc, members, name, make_rng(rt)?);
    let Rings {
        journal,
        news,
        ends,
    } = new_rings(alloc, standing)?;
    let keeper = ClusterSync::new(*rt, alloc, list, ends, Arc::try_clone(standing)?);
    Ok(ClusterParts {
        rows: rows_over(alloc, journal, observer),
        news,
        keeper,
    })
}
