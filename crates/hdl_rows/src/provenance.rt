//! Who asks for a write, and when.

/// Who asks for a write.
#[derive(Clone, Copy)]
pub enum Agent<'a> {
    /// Nobody: the table is being opened, from a text or a file.
    Opening,
    /// A client without a key.
    Anyone,
    /// A client that proved the key at this index of this handle, as it was sent.
    Key { handle: &'a [u8], index: u32 },
    /// Another server of the same table, which decided it.
    Server,
}

/// Who asks for a write, and when. A table may record it; no clause rests on it.
#[derive(Clone, Copy)]
pub struct Provenance<'a> {
    /// In milliseconds since the beginning of 1970.
    pub moment: u64,
    pub agent: Agent<'a>,
}

impl Provenance<'_> {
    /// That of the writes that open a table.
    pub fn opening() -> Provenance<'static> {
        Provenance {
            moment: 0,
            agent: Agent::Opening,
        }
    }
}
