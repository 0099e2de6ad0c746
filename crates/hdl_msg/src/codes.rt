//! Operations, flags and responses, and their numbers.

ghost use Rattle.std.specs.Prelude.{◌≡◌};
ghost use Rattle.hdl_msg.specs.Codes.{op_number, op_code_of, IsNumberOf, flag_bit, response_number, response_code_of, IsResponseNumberOf};

/// OpCode, under the names of RFC 3652, section 2.2.2.1; docs/PROTOCOL.md, "Message", has the numbers. Every other number is
/// that of an operation that isn't used.
#[derive(Clone, Copy, Debug, PartialEq, Eq)]
pub enum OpCode {
    Resolution = 1,
    /// The publisher's own site information, on lanes of the Handle.Net layout.
    GetSiteInfo = 2,
    CreateHandle = 100,
    DeleteHandle = 101,
    AddValue = 102,
    RemoveValue = 103,
    ModifyValue = 104,
    ListHandles = 105,
    ChallengeResponse = 200,
}

impl OpCode {
    /// Its number on the wire.
    pub fn number(self) -> u32
        ensures { result ≡ op_number self }
    {
        self as u32
    }

    /// The operation of a number, or None where it is that of none.
    #[tactic(auto, unfolding(crate::specs::Codes::op_code_of))]
    pub fn of(number: u32) -> Option<OpCode>
        ensures computed { result ≡ op_code_of number }
        ensures number { IsNumberOf result number }
    {
        match number {
            1 => Some(OpCode::Resolution),
            2 => Some(OpCode::GetSiteInfo),
            100 => Some(OpCode::CreateHandle),
            101 => Some(OpCode::DeleteHandle),
            102 => Some(OpCode::AddValue),
            103 => Some(OpCode::RemoveValue),
            104 => Some(OpCode::ModifyValue),
            105 => Some(OpCode::ListHandles),
            200 => Some(OpCode::ChallengeResponse),
            _ => None,
        }
    }

    /// What commands, metrics and the log of changes call it.
    pub fn name(self) -> &'static str {
        match self {
            OpCode::Resolution => "resolve",
            OpCode::GetSiteInfo => "get-site-info",
            OpCode::CreateHandle => "create",
            OpCode::DeleteHandle => "delete",
            OpCode::AddValue => "add",
            OpCode::RemoveValue => "remove",
            OpCode::ModifyValue => "modify",
            OpCode::ListHandles => "list",
            OpCode::ChallengeResponse => "respond",
        }
    }
}

/// The bits of OpFlag, under the names of RFC 3652, section 2.2.2.3. Of a request only PublicOnly and ReturnDigest are
/// looked at; of a reply only ReturnDigest is ever set.
#[derive(Clone, Copy, PartialEq, Eq)]
pub enum OpFlag {
    /// AT.
    Authoritative = 0x8000_0000,
    /// CT.
    Certified = 0x4000_0000,
    /// ENC.
    Encrypted = 0x2000_0000,
    /// REC.
    Recursive = 0x1000_0000,
    /// CA.
    CacheAuthentication = 0x0800_0000,
    /// CN.
    Continuous = 0x0400_0000,
    /// KC.
    KeepConnection = 0x0200_0000,
    /// PO: the answer may show public values alone.
    PublicOnly = 0x0100_0000,
    /// RD: the reply is to carry the request's digest.
    ReturnDigest = 0x0080_0000,
}

impl OpFlag {
    /// Its bit.
    pub fn bit(self) -> u32
        ensures { result ≡ flag_bit self }
    {
        self as u32
    }
}

/// ResponseCode, under the names of RFC 3652, section 2.2.2.2; docs/PROTOCOL.md, "Message", has the numbers.
#[derive(Clone, Copy, Debug, PartialEq, Eq)]
pub enum ResponseCode {
    /// The operation was done.
    Success = 1,
    /// Our profile: the answer would be too long.
    Error = 2,
    /// Memory or the store refused; nothing was done.
    ServerBusy = 3,
    /// The frame or the message is out of the grammar, or the response answers no challenge.
    ProtocolError = 4,
    /// The operation isn't offered here.
    OperationDenied = 5,
    HandleNotFound = 100,
    HandleAlreadyExists = 101,
    InvalidHandle = 102,
    ValueNotFound = 200,
    ValueAlreadyExists = 201,
    ValueInvalid = 202,
    /// The prefix isn't hosted here.
    ServiceReferral = 302,
    /// The key is no administrator's.
    NotAuthorized = 400,
    /// The administrator lacks a permission.
    AccessDenied = 401,
    /// A challenge.
    AuthenticationNeeded = 402,
    AuthenticationFailed = 403,
    InvalidCredential = 404,
    AuthenticationTimeout = 405,
    UnableToAuthenticate = 406,
}

impl ResponseCode {
    /// All of them, in the order of their numbers.
    pub const ALL: [ResponseCode; 19] = [
        ResponseCode::Success,
        ResponseCode::Error,
        ResponseCode::ServerBusy,
        ResponseCode::ProtocolError,
        ResponseCode::OperationDenied,
        ResponseCode::HandleNotFound,
        ResponseCode::HandleAlreadyExists,
        ResponseCode::InvalidHandle,
        ResponseCode::ValueNotFound,
        ResponseCode::ValueAlreadyExists,
        ResponseCode::ValueInvalid,
        ResponseCode::ServiceReferral,
        ResponseCode::NotAuthorized,
        ResponseCode::AccessDenied,
        ResponseCode::AuthenticationNeeded,
        ResponseCode::AuthenticationFailed,
        ResponseCode::InvalidCredential,
        ResponseCode::AuthenticationTimeout,
        ResponseCode::UnableToAuthenticate,
    ];

    /// Its number on the wire.
    pub fn number(self) -> u32
        ensures { result ≡ response_number self }
    {
        self as u32
    }

    /// The response of a number, or None where it is that of none.
    #[tactic(auto, unfolding(crate::specs::Codes::response_code_of))]
    pub fn of(number: u32) -> Option<ResponseCode>
        ensures computed { result ≡ response_code_of number }
        ensures number { IsResponseNumberOf result number }
    {
        match number {
            1 => Some(ResponseCode::Success),
            2 => Some(ResponseCode::Error),
            3 => Some(ResponseCode::ServerBusy),
            4 => Some(ResponseCode::ProtocolError),
            5 => Some(ResponseCode::OperationDenied),
            100 => Some(ResponseCode::HandleNotFound),
            101 => Some(ResponseCode::HandleAlreadyExists),
            102 => Some(ResponseCode::InvalidHandle),
            200 => Some(ResponseCode::ValueNotFound),
            201 => Some(ResponseCode::ValueAlreadyExists),
            202 => Some(ResponseCode::ValueInvalid),
            302 => Some(ResponseCode::ServiceReferral),
            400 => Some(ResponseCode::NotAuthorized),
            401 => Some(ResponseCode::AccessDenied),
            402 => Some(ResponseCode::AuthenticationNeeded),
            403 => Some(ResponseCode::AuthenticationFailed),
            404 => Some(ResponseCode::InvalidCredential),
            405 => Some(ResponseCode::AuthenticationTimeout),
            406 => Some(ResponseCode::UnableToAuthenticate),
            _ => None,
        }
    }
}
