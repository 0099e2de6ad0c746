//! The languages of the proxy's pages: which one a request prefers, and all that pages say, in each.
//!
//! ```text
//! the field Accept-Language -> preferred_language -> Language
//! Language, Phrase -> words -> a phrase
//! ```
//!
//! All words of readers' pages are in `src/english.rt` and `src/german.rt`, a constant for each phrase; forms have their own, in English.
//! `specs/Words.antt` names the phrases, so that a contract says which one stands where.
//!
//! What it promises: a page is in German only if a request weighs German more than English, `*` counting for English
//! (`specs/Preferred.antt`); and a phrase is the constant of its language.
//!
//! ```rust
//! // crates/hdl_proxy/src/page.rt
//! self.markup(language.words(phrase))?;
//! ```
#![tactic(auto)]

mod english;
mod german;
mod language;
mod phrase;

pub use language::{Language, preferred_language};
pub use phrase::Phrase;
