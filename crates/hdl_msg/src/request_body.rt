//! The bodies of requests, owned: what a request to be written asks for.

ghost use Rattle.std.specs.Prelude.{◌≡◌};
ghost use Rattle.hdl_msg.specs.RequestBody.{requested_code};

use crate::codes::OpCode;
use hdl_limits::{Items, Octets};
use hdl_value::Value;

/// What a request asks for, with what it names: the body of each operation (RFC 3652, sections 3.2 and 3.5 to 3.7, in our
/// profile: docs/PROTOCOL.md, "Message"), owned by who writes it. `Body` is the same where it stands in a message.
///
/// ```text
/// Resolution            handle (a string), list of indexes, list of types (strings)
/// Create, Add, Modify   handle, list of values
/// Delete, List          handle
/// Remove                handle, list of indexes
/// Response              authentication type (a string), key handle (a string), key index (4 octets), answer (a string)
/// ```
///
/// A string is four octets of length and that many, a list four octets of count and that many. The handle of a List is the
/// administrative handle of a naming authority.
#[derive(Drop)]
pub enum RequestBody {
    Resolution {
        handle: Octets,
        indexes: Items<u32>,
        types: Items<Octets>,
    },
    Create {
        handle: Octets,
        values: Items<Value>,
    },
    Delete {
        handle: Octets,
    },
    Add {
        handle: Octets,
        values: Items<Value>,
    },
    Remove {
        handle: Octets,
        indexes: Items<u32>,
    },
    Modify {
        handle: Octets,
        values: Items<Value>,
    },
    List {
        handle: Octets,
    },
    Response {
        kind: Octets,
        handle: Octets,
        index: u32,
        answer: Octets,
    },
}

impl RequestBody {
    /// The code of the operation.
    pub fn op_code(&self) -> OpCode
        ensures code { result ≡ requested_code self.now }
    {
        match self {
            RequestBody::Resolution { .. } => OpCode::Resolution,
            RequestBody::Create { .. } => OpCode::CreateHandle,
            RequestBody::Delete { .. } => OpCode::DeleteHandle,
            RequestBody::Add { .. } => OpCode::AddValue,
            RequestBody::Remove { .. } => OpCode::RemoveValue,
            RequestBody::Modify { .. } => OpCode::ModifyValue,
            RequestBody::List { .. } => OpCode::ListHandles,
            RequestBody::Response { .. } => OpCode::ChallengeResponse,
        }
    }
}
