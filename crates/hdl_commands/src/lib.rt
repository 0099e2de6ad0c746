//! What the program `hdl` does, but for its command line.
//!
//! ```text
//! Question -> run_request -> hdl_client -> a reply in words ([`words`])
//! octets -> explain -> the request, reply or value that they are, in words ([`words`])
//! text of a batch -> read_batch -> Batch -> ask_batch, or write_script -> the script that `handled` takes
//! lines with values in words -> write_tenants -> lines of a tenants text
//! rows of a CSV file -> import_file -> the requests that create its handles, or update them ([`imports`])
//! PREFIX, OLD, NEW -> replace_urls -> the requests that modify URLs ([`replaces`])
//! a tenants text -> export_values -> its values as rows of a CSV file, or as JSON
//! prefixes, random octets -> write_initial_tenants -> a tenants text in words, with fresh secrets
//! an address and a port -> make_site -> the data of an HS_SITE value -> show_site -> what it says, in words ([`sites`])
//! a server -> ask_site -> what its site information says, in words
//! ```
//!
//! Requests are read from words and written by `hdl_msg`'s `write_request`, so what is sent is in the grammar; a value's words are
//! those of `hdl_value_lines`. Promised is that everything here is total, that a line of a [`Printout`] has no control character, that the
//! line of a hidden key is a function of its index and the length of its data, and that a handle is imported with just the values that
//! its rows say (`specs/Rows.antt`), that after an update what the rows name is there and all else as it was (`specs/Update.antt`), that a
//! replacement changes the data of URLs alone, and turns none to which a browser is led into another (`specs/Addresses.antt`), that a row that is written is read as its value (`specs/Replace.antt`), and that a batch's
//! exit status says whether each request succeeded (`specs/Ended.antt`); what else is printed is tested.
//!
//! ```rust
//! // crates/hdl/src/main.rt
//! let mut printout = Printout::new(rt.alloc(), shows_keys);
//! explain(&mut printout, wire, line.trim_end())?;
//! print!(rt; "{}", printout.as_str())?;
//! ```
#![tactic(auto)]

mod addresses;
mod advice;
mod asking;
mod batch_text;
mod batches;
mod exit_status;
mod exports;
mod fault;
mod imports;
mod init;
mod key;
mod replaces;
mod reporting;
mod request;
mod scripts;
mod sites;
mod tenants;
mod warnings;
mod words;

pub use asking::{RequestOptions, run_request};
pub use batch_text::{BatchFault, Layouts, read_batch};
pub use batches::{ask_batch, run_batch_text};
pub use exit_status::ExitStatus;
pub use exports::{ExportFormat, export_values};
pub use fault::ArgumentFault;
pub use imports::{ImportOptions, KeptFields, import_file, update_is_right};
pub use init::{InitFault, random_secret, write_initial_tenants};
pub use key::SECRET_VARIABLE;
pub use replaces::{ReplaceOptions, replace_urls};
pub use scripts::write_script;
pub use sites::{SiteFault, SiteOptions, ask_site, make_site, show_site};
pub use tenants::{tenants_faults, write_tenants};
pub use words::{Printout, explain, operation_in};
