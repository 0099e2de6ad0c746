//! A table whose writes stand in a journal that other servers read too.
//!
//! ```text
//! DurableRows { rows in memory, JournalFile { a Journal } }: each write is put into the journal first, and then made in memory
//! ```
//!
//! [`JournalFile`] takes the place of a file in `hdl_durablerows::DurableRows`: a write is made once the [`Journal`] has it behind all that it told. [`is_of_journal`]
//! says what the table then is: what the told writes make of an empty one, or the write that is owed is the last of them. It is never shut, since a journal
//! always finds out what became of a write.
//!
//! A write that memory refuses stays in the journal, where others have read it: [`JournalFile`] refuses to undo it (`undo`: `refused`, `told`). The table owes it
//! until memory has it.
//!
//! ```rust
//! // crates/hdl_cluster/src/start.rt
//! let file = JournalFile { journal };
//! DurableRows::over(alloc, PlainRows::new(alloc), file, observer)
//! ```
#![tactic(auto)]

mod told;

pub use told::{Journal, JournalFile, is_of_journal};
