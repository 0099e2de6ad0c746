//! Why a request has no reply.

ghost use Rattle.std.specs.Prelude.{◌≡◌, ◌≢◌};
ghost use Rattle.hdl_client.specs.declared.fault.ClientFault.TheVariants.{Memory, NoConnection, TooLong};

use hdl_frame::FrameFault;
use hdl_limits::MESSAGE_MAX;
use std::alloc::{AllocError, AllocFailed};
use std::io::{self, ErrorKind};
use thiserror::Error;

/// Why there is no connection to a server.
#[derive(Clone, Copy, Debug, PartialEq, Eq, Error)]
pub enum ConnectFault {
    #[error("not of the form HOST:PORT")]
    NotHostPort,
    #[error("this name has no address")]
    UnknownName,
    /// The host is there.
    #[error("nothing listens there")]
    Refused,
    #[error("the network is unreachable")]
    NoRoute,
    #[error("no answer in time")]
    Silent,
    #[error("the connection failed")]
    Failed,
}

/// Why a request has no reply that can be read. None of them carries octets that came, or a secret.
#[derive(Clone, Copy, Debug, PartialEq, Eq, Error)]
pub enum ClientFault {
    #[error("{0}")]
    NoConnection(ConnectFault),
    /// A limit of time of the stream ran out.
    #[error("no answer in time")]
    TimedOut,
    /// The stream ended before a whole frame.
    #[error("the connection was closed")]
    Closed,
    /// Another call of the stream failed.
    #[error("the connection failed before an answer came: check the port; a server with --proxied answers only through its proxy")]
    Connection,
    /// An envelope that is refused.
    #[error("the server sent no frame: {0}")]
    NoFrame(FrameFault),
    /// A piece of a message, or a message that is out of the grammar of replies.
    #[error("the server sent no reply")]
    NoReply,
    /// Its RequestId is that of no request which waits, or what it says to be done is another operation.
    #[error("the server replied to another request")]
    OtherRequest,
    /// It shows the values of another handle, lists a handle of another prefix, or refers to the service of another one.
    #[error("the server replied about another handle")]
    OtherHandle,
    /// Its digest isn't that of the request.
    #[error("the server challenged another request")]
    OtherChallenge,
    #[error("the request has more than {MESSAGE_MAX} octets")]
    TooLong,
    #[error("the request names no handle")]
    NoHandle,
    #[error("no memory")]
    Memory,
}

impl From<ConnectFault> for ClientFault {
    ghost from_gives = { λ fault e. e ≡ NoConnection fault };

    fn from(fault: ConnectFault) -> ClientFault {
        ClientFault::NoConnection(fault)
    }
}

impl From<AllocError> for ClientFault {
    ghost from_gives = { λ _ e. e ≡ Memory };

    fn from(_: AllocError) -> ClientFault {
        ClientFault::Memory
    }
}

impl<T: Drop> From<AllocFailed<T>> for ClientFault {
    ghost from_gives = { λ _ e. e ≡ Memory };

    fn from(_: AllocFailed<T>) -> ClientFault {
        ClientFault::Memory
    }
}

impl From<io::Error> for ClientFault {
    // A stream says nothing of a request's length.
    ghost from_gives = { λ _ e. e ≢ TooLong };

    fn from(error: io::Error) -> ClientFault {
        match error.kind() {
            ErrorKind::WouldBlock | ErrorKind::TimedOut => ClientFault::TimedOut,
            ErrorKind::UnexpectedEof => ClientFault::Closed,
            ErrorKind::OutOfMemory => ClientFault::Memory,
            _ => ClientFault::Connection,
        }
    }
}
