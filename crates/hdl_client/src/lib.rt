//! A client of a handle service, over any stream of octets; [`connect`] opens one over TCP.
//!
//! ```text
//! RequestBody -> Session::ask -> a frame to the stream, a frame from it; with a key, the answer to its challenge -> Reply
//! Batch -> Session::run_batch -> several requests in flight, and the code of each reply as it comes
//! ```
//!
//! It stands on the codecs that the service stands on: what it sends is in the grammar of requests, and what it takes for a reply is
//! in that of replies, and about the operation and the handle that were asked: a reply that shows another handle is refused. It answers a
//! challenge only where the digest in it is that of the request which it sent. A secret is in a
//! [`Key`] alone, which nothing prints, and no fault carries octets.
//!
//! ```rust
//! // crates/hdl_commands/src/asking.rt
//! let mut session = connect(rt, &question.server)?;
//! session.ask(question.wire, body, key)
//! ```
#![tactic(auto)]

mod about;
mod batch;
mod challenge;
mod connecting;
mod exchange;
mod fault;
mod message;
mod reply;
mod session;
mod site_question;
mod task;
mod transport;

pub use challenge::{Key, challenge_answer, challenge_response, request_message, signed_part};
pub use connecting::{Connection, connect, connect_within};
pub use exchange::{OwnedFrame, frame_of, receive, send};
pub use fault::{ClientFault, ConnectFault};
pub use message::RequestMessage;
pub use reply::Reply;
pub use session::Session;
pub use task::{Batch, Outcomes, Task};
pub use transport::Transport;
