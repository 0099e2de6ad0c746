//! What goes through a lane to the service.

use hdl_events::What;

/// What a worker puts: what happened on its lane, or that nothing more comes.
#[derive(Drop)]
pub enum Item {
    Event(What),
    End,
}
