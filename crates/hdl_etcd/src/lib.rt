//! etcd's JSON gateway: what is asked of it, what it answers, and one request at a time over any stream.
//!
//! ```text
//! Transaction -> transaction_text -> Exchange::ask "/v3/kv/txn"   -> transaction_outcome_of -> Made, or what stands at another key
//! KeyRange    -> range_text       -> Exchange::ask "/v3/kv/range" -> range_response_of  -> a RangeResponse of pairs, and its revision
//! KeyRange    -> watch_text       -> WatchLines::begin "/v3/watch"  -> next_line, and watch_events_of of each
//! ```
//!
//! What is asked reads as the JSON that `specs/Asking.antt` says. What is answered is what `specs/Answers.antt` finds in the octets that came, which have a
//! limit. No clause says what a member does with a request, nor that the network carries it: these are laws of octets. There is no socket here and no
//! clock; a stream that waits too long fails.
//!
//! Whatever the fault is, nobody can tell whether the request was served. A transaction is then sent again as it was. Its fence lets it be made once at most.
//!
//! ```rust
//! // crates/hdl_change_list/src/members.rt
//! let mut exchange = self.exchange()?;
//! let body = exchange.ask(path, text)?;
//! ```
#![tactic(auto)]

mod answers;
mod asking;
mod exchange;
mod fault;
mod lines;

pub use answers::{
    Outcome, Pair, RangeResponse, WatchEvents, range_response_of, transaction_outcome_of,
    watch_events_of,
};
pub use asking::{
    Compare, KeyRange, Operation, Transaction, range_text, transaction_text, watch_text,
};
pub use exchange::{BODY_MAX, Exchange};
pub use fault::EtcdFault;
pub use lines::{LINE_MAX, WatchLines};
