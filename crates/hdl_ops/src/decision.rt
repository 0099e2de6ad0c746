//! What is decided, at what level, and what a decision sees.

use crate::change::Change;
use crate::requests::Response;
use hdl_auth::algorithm::{Algorithm, Digest};
use hdl_limits::Octets;
use hdl_msg::{ReplyContent, Request, ResponseCode};
use hdl_value::Value;

/// A request, and the hash function of its digest: what came, for whoever answers it.
#[derive(Clone, Copy)]
pub struct HashedRequest<'a> {
    pub algorithm: Algorithm,
    pub request: &'a Request<'a>,
}

/// What a decision sees of the table: whether the handle is there, its values by rising index, and for a list the handles of
/// the naming authority.
#[derive(Drop)]
pub(crate) struct TableView {
    pub there: bool,
    pub values: Vec<Value>,
    pub names: Vec<Octets>,
}

/// A challenge response, with the nonce of the challenge and the digest of the challenged request.
#[derive(Clone, Copy)]
pub struct Proof<'a> {
    pub response: Response<'a>,
    pub nonce: &'a [u8; 16],
    pub digest: &'a Digest,
}

/// At what level a request is decided.
#[derive(Clone, Copy)]
pub enum Level<'a> {
    /// As it came.
    Anyone,
    /// It was challenged, and came back with a proof.
    Proven(Proof<'a>),
}

/// The answer to a request, and the change that it makes. With code 402 the content is empty, and who sends the challenge puts
/// its nonce there.
#[derive(Drop)]
pub struct Decision {
    pub code: ResponseCode,
    pub content: ReplyContent,
    pub change: Option<Change>,
}
