//! Identifiers that a browser can follow: what a proxy asks for a request of HTTP, and what it answers.
//!
//! ```text
//! method, path, query -> begin -> Next::Answer, or Next::Ask(Question): the message of a request without a key
//! Question, the message of the reply -> finish -> Answer: a status, a Location, a page or JSON
//! ```
//!
//! This crate has no sockets and no clock. It stands on the codecs of `hdl_msg`, `hdl_value` and `hdl_name`: what is asked is in
//! their grammar, and what is shown was read by it. Who asks a server is the caller's, and [`NoAnswer`] what came where no reply did.
//!
//! What it promises: a question asks for what everyone may read, and for nothing else; a reply shows values that are public, and
//! never a key; a handle's address leads to its URL value of the lowest index, where that is one to be followed
//! ([`is_followed`]); a Location holds graphic ASCII alone; and text in a page is escaped.
//!
//! ```rust
//! // crates/hdl_web/src/service.rt
//! match begin(
//!     self.alloc,
//!     own,
//!     language,
//!     sent.method,
//!     sent.path,
//!     sent.query,
//! )? {
//!     Next::Answer(answer) => Ok(Progress::Answered(Ok(answer))),
//!     Next::Ask(question) => self.shared.take(question, plain_path(sent)),
//! }
//! ```
#![tactic(auto)]

mod alias;
mod answer;
mod cache_control;
mod choice;
mod codes;
mod escape;
mod files;
mod found;
mod guess;
mod hops;
mod json;
mod laws;
mod link;
mod locations;
mod names;
mod note;
mod page;
mod pages;
mod pasted;
mod proxy;
mod query;
mod question;
mod redirect_choice;
mod resolver;
mod site;
mod step;
mod tag;
mod url;
mod value_data;
mod words;
mod xml;

pub use answer::{Answer, CacheControl, Media, Status, reported_code};
pub use choice::{first_url, is_shown};
pub use escape::put_escaped;
pub use found::{Found, read_answer};
pub use json::{json_answer, put_text, refusal, values_answer};
pub use laws::text_is_inert;
pub use names::{read_name, unescape};
pub use pasted::pasted_name;
pub use proxy::{Next, begin, finish, lead_to_form, options};
pub use query::{Pair, has_pair, indexes_of, last_named, read_pairs, types_of, values_named};
pub use question::{AnswerFormat, Question};
pub use resolver::NoAnswer;
pub use site::Site;
pub use step::{HOPS_MOST, next_step};
pub use tag::with_tag;
pub use url::{is_followed, is_site_address, path_of};
pub use words::{CacheLifetime, usual_permissions};
