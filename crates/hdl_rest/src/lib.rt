//! Handles that are changed over HTTP: the JSON of Handle.Net's REST interface, and the requests that it takes.
//!
//! ```text
//! method, path, query, the field Authorization -> begin_with_key -> ParsedRequest::Answer, ParsedRequest::Order, or ParsedRequest::Other
//! Order, the body -> carry_out: read_record, then a ChangeServer is asked one request after the other -> Answer
//! ```
//!
//! This crate has no sockets and no clock: [`ChangeServer`] is who is asked. A secret is in the key of an order alone, which nothing prints,
//! and no function that makes an answer is handed one.
//!
//! What it promises: `specs/Record.antt` defines the record that a body in JSON means, or the first thing that is wrong with it
//! (`record_in`), `specs/Credentials.antt` the key that a field means (`key_in`), and `specs/Plan.antt` which requests put values into a
//! handle, in which order (`merging`, `replacing`); [`read_record`], [`read_key`], [`merging`] and [`replacing`] do just that, want of
//! memory aside. An order to change has no word in its query but those that `specs/Words.antt` knows ([`begin_with_key`]). A
//! [`ChangeServer`] is asked a beginning of what `specs/Orders.antt` says of the order, none after a request that wasn't done. The status
//! says that all was done exactly if it was, and no one may cache an answer ([`carry_out`]). Laws: the JSON of a value is read as it
//! ([`written_is_read`]), and a change loses nothing ([`nothing_is_lost`]).
//!
//! ```rust
//! // crates/hdl_web/src/worker.rt
//! None => carry_out(alloc, change_servers, order, body),
//! ```
#![tactic(auto)]

mod asking;
mod carry;
mod change_answers;
mod credentials;
mod data;
mod entry;
mod fault;
mod fields;
mod keys;
mod laws;
mod list_permission;
mod listing;
mod mint;
mod order;
mod plan;
mod present;
mod record;
mod service;
mod shapes;
mod stop;
mod suffix;
mod words;

pub use carry::carry_out;
pub use credentials::{CredentialFault, read_key};
pub use fault::{EntryFault, RecordFault};
pub use laws::{nothing_is_lost, written_is_read};
pub use list_permission::may_list;
pub use order::{
    ChangeAction, Order, PageRange, ParsedRequest, SentRequest, WriteMode, begin_with_key,
};
pub use plan::{merging, replacing};
pub use present::value_there;
pub use record::read_record;
pub use service::{ChangeServer, NoReply};
pub use suffix::{SUFFIX_LEN, with_suffix};
