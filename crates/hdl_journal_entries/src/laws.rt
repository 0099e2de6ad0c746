//! Laws over entries, each the contract of a function without a body.

ghost use Rattle.hdl_value.specs.Reading.{IsCodec};
ghost use Rattle.hdl_journal_entries.specs.Entries.{entry_at, entry_octets, EntryFits};
ghost use Rattle.hdl_journal_entries.specs.Chain.{DivergenceIsSeen};
ghost use Rattle.hdl_journal_entries.specs.Keys.{chain_at, chain_octets, ChainFits};

/// What the reader of entries reads is written there, and what is written it reads.
pub fn entry_read_as_spelt()
    ensures { IsCodec entry_at entry_octets EntryFits }
{}

/// Two chains from one beginning, with equally many entries and equal sums, have the same entries, or two different texts have one SHA-256.
pub fn divergence_is_seen()
    ensures { DivergenceIsSeen }
{}

/// What the reader of the head reads is written there, and what is written it reads.
pub fn head_read_as_spelt()
    ensures { IsCodec chain_at chain_octets ChainFits }
{}
