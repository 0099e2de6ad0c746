//! Who is asked before writes.

/// What a write does to the room that the table takes.
#[derive(Clone, Copy, Debug, PartialEq, Eq)]
pub enum Effect {
    /// It may take more.
    Takes,
    /// It takes no more than before.
    Frees,
}

/// What became of a write.
#[derive(Clone, Copy, Debug, PartialEq, Eq)]
pub enum WriteResult {
    /// It was made.
    Made,
    /// The table refused it, and owes nothing for it: it is as it was.
    Failed,
    /// Another write, of a call that didn't come again, was settled in its place.
    Deferred,
    /// The guard didn't permit it.
    Forbidden,
}

/// Who is asked before each write, and hears what became of it.
pub trait Guard {
    /// Whether a write with this effect may be made. While a write is owed the guard isn't asked: the write goes on.
    fn authorize(&mut self, effect: Effect) -> bool;

    /// This became of a write.
    fn note(&mut self, fate: WriteResult);
}
