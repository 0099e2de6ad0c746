//! How the lanes of a publisher speak.

use hdl_ops::Owner;

/// The publisher on whose lane an event came, and whether the service takes changes.
#[derive(Drop)]
pub(crate) struct LaneContext<'a> {
    pub owner: Owner<'a>,
    pub takes_changes: bool,
}
