//! What is kept of one lane.

/// A lane: whose it is, and whether a connection is open on it.
#[derive(Drop)]
pub(crate) struct Lane {
    pub publisher: usize,
    pub is_open: bool,
}
