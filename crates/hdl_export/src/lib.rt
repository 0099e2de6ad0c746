//! A table written as a tenants text, which is read back as the same rows.
//!
//! ```text
//! tenants text ── its lines but those of values ──┐
//!                                                 ├──► tenants text: publishers, prefixes, site information, then a line for each value
//! table ── names, values of each ── value_line ───┘
//! ```
//!
//! [`export`] writes it. `specs/Lines.antt` defines the line of a row (`value_line`), `specs/Rows.antt` which rows are written. What is
//! promised is said in the words of `hdl_tenants`: reading what was written gives the publishers, prefixes and site information of the
//! text that was given, and just these rows, in this order. [`value_line_is_read`] is the law of one line, [`register_is_read`] that of all: whatever a tenants text can
//! say is read back as it was written; and [`rows_are_only`] that such a text says nothing else.
//!
//! [`export_publisher`] writes one publisher's part in the same way, with what it rests on: the values of other publishers to which its values
//! refer, those to which the lists there refer, and no others (`specs/Laws.antt`, `IsPublisherExport`). [`publisher_moves`] is the law that the service which
//! opens with it has of the publisher just what the old one had, in the words of `hdl_laws`: the restricted worlds are one. So it is answered alike ([`moved_is_answered_alike`]).
//!
//! A text can't say a handle without a value, nor one with a space or a line feed in its name. [`left_out`] and [`left_out_of`] count
//! these, and [`left_prefixes`] the handles of prefixes that the text lacks, which no clause says.
//!
//! ```rust
//! // crates/hdl_tables/src/exporting.rt
//! let left = left_out(rt.alloc(), text, rows)?;
//! let prefixes = left_prefixes(rt.alloc(), text, rows)?;
//! let text = export(rt.alloc(), text, rows)?;
//! ```
//!
//! # Decisions
//!
//! - **The lines of publishers, prefixes and site information are taken over as they stand**, comments too, since a register keeps what they say and not how
//!   they say it. A line that ends with CR gets another one before its LF, so that reading gives each line back.
//! - **What a publisher rests on is looked up place by place**, each once and without a bound, from what its rows refer to. The rows are those that
//!   reading its part of the text gives, so the table is gone through once.
//! - **All lines of publishers stay in a publisher's export**, since lanes are numbered over all of them, and its prefix lines, since a text opens no
//!   row of a prefix that it doesn't host.
//! - **What was written is read before it is given out**: a table may have what no text says, such as more than 1,024 values of a handle, and a
//!   text that nothing opens is no backup. That it is then the text of these rows, and of no others, is proved.
#![tactic(auto)]

mod cover;
mod fault;
mod foreign;
mod laws;
mod left;
mod line;
mod prefixes;
mod references;
mod rows;
mod text;
mod writing;

pub use fault::ExportFault;
pub use laws::{
    lines_are_read, moved_is_answered_alike, publisher_moves, register_is_read, rows_are_only,
    value_line_is_read,
};
pub use left::{LeftOut, LeftPrefix, left_out, left_out_of, left_prefixes};
pub use line::value_line;
pub use writing::{export, export_publisher};
