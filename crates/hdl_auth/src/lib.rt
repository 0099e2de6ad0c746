//! Authentication codes: the digest of a request, the keyed digest of a challenge, and the test of a response.
//!
//! The definitions use the kit's functions `sha1` and `sha256` on lists of octets (FIPS 180-4). The digest of a request
//! is that of its header and body. The keyed digest is `H(key ++ nonce ++ digest ++ key)`, with the hash function H of
//! the digest (docs/PROTOCOL.md, "Challenge and response"). [`check`] decides for any octets whether they are the right
//! response, have another form, or are wrong.
//!
//! It depends on no other crate of the service, stores nothing and takes no memory. It claims nothing about the
//! strength of SHA-1 or SHA-256, nor about how long a comparison takes.
//!
//! ```rust
//! // crates/hdl_vectors/src/digests.rt
//! let verdict = check(key, nonce, digest, response);
//! let is_good = verdict.is_good();
//! let has_form = has_response_form(digest.algorithm(), response);
//! ```
#![tactic(auto)]

ghost use Rattle.std.specs.Prelude.{◌≡◌};
ghost use Rattle.hdl_auth.specs.Mac.{is_good};

pub mod algorithm;
mod response;

pub use response::{check, digest, has_response_form, mac};

/// The verdict on a response.
#[derive(Clone, Copy, Debug, PartialEq, Eq)]
pub enum Verdict {
    /// The right response to the challenge.
    Good,
    /// Its first octet is not that of the challenged request's hash function, or its length is not that of its digests.
    BadForm,
    /// Of the right form, but not the right keyed digest.
    Wrong,
}

impl Verdict {
    /// Whether it is the right response.
    pub fn is_good(self) -> bool
        ensures { result ≡ is_good self }
    {
        matches!(self, Verdict::Good)
    }
}
