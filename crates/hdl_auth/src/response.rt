//! The digest of a request, and the response to its challenge (our profile, after RFC 3652, section 3.5).

ghost use Rattle.std.specs.Prelude.{◌≡◌};
ghost use Rattle.hdl_auth.specs.Digest.{digest_of};
ghost use Rattle.hdl_auth.specs.Mac.{mac_of, has_response_form, is_right_response, is_good, verdict};

use crate::Verdict;
use crate::algorithm::{Algorithm, Digest};
use sha1::Sha1;
use sha2::{Digest as _, Sha256};

/// The digest of the octets by this hash function. For a request, they are its header and body.
pub fn digest(algorithm: Algorithm, octets: &[u8]) -> Digest
    ensures { result ≡ digest_of algorithm octets.now }
{
    match algorithm {
        Algorithm::Sha1 => Digest::Sha1(Sha1::digest(octets)),
        Algorithm::Sha256 => Digest::Sha256(Sha256::digest(octets)),
    }
}

/// The keyed digest of a challenge: of the key, the nonce, the request's digest and the key again, by the hash function
/// of that digest.
pub fn mac(key: &[u8], nonce: &[u8; 16], request_digest: &Digest) -> Digest
    ensures { result ≡ mac_of key.now nonce.now request_digest.now }
{
    match request_digest {
        Digest::Sha1(octets) => {
            let mut hasher = Sha1::new();
            hasher.update(key);
            hasher.update(nonce);
            hasher.update(octets);
            hasher.update(key);
            Digest::Sha1(hasher.finalize())
        }
        Digest::Sha256(octets) => {
            let mut hasher = Sha256::new();
            hasher.update(key);
            hasher.update(nonce.as_slice());
            hasher.update(octets.as_slice());
            hasher.update(key);
            Digest::Sha256(hasher.finalize())
        }
    }
}

/// Whether the octets have the form of a response: the hash function's octet, then as many octets as its digests have.
pub fn has_response_form(algorithm: Algorithm, response: &[u8]) -> bool
    ensures { result ≡ has_response_form algorithm response.now }
{
    response.starts_with(&[algorithm.octet()]) && response.len() == algorithm.size() + 1
}

/// Whether the octets are the right response. `nonce` is the challenge's, `digest` the challenged request's, `key` the
/// administrator's.
fn is_right_response(key: &[u8], nonce: &[u8; 16], request_digest: &Digest, response: &[u8]) -> bool
    ensures { result ≡ is_right_response key.now nonce.now request_digest.now response.now }
{
    let wanted = mac(key, nonce, request_digest);
    match response.split_first() {
        Some((first, rest)) => *first == wanted.algorithm().octet() && rest == wanted.as_slice(),
        None => false,
    }
}

/// The verdict on a response. `nonce` is the challenge's, `digest` the challenged request's, `key` the administrator's.
/// Good is the right response. A response of a bad form is right for no key.
#[tactic(auto, using(crate::proofs::Verdicts::good_is_right, crate::proofs::Verdicts::formless_is_wrong))]
pub fn check(key: &[u8], nonce: &[u8; 16], request_digest: &Digest, response: &[u8]) -> Verdict
    ensures verdict { result ≡ verdict key.now nonce.now request_digest.now response.now }
    ensures good { is_good result ≡ is_right_response key.now nonce.now request_digest.now response.now }
{
    if !has_response_form(request_digest.algorithm(), response) {
        return Verdict::BadForm;
    }
    if is_right_response(key, nonce, request_digest, response) {
        Verdict::Good
    } else {
        Verdict::Wrong
    }
}
