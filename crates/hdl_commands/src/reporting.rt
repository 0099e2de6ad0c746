//! What is said where a server gave no reply.

use hdl_client::{ClientFault, ConnectFault};
use hdl_frame::FrameFault;

/// What can be done where there is no connection.
fn advice_on_connection(fault: ConnectFault) -> &'static str {
    match fault {
        ConnectFault::NotHostPort => ": write a host, a colon and a port, as in 127.0.0.1:2641",
        ConnectFault::Refused => {
            ": is a server running? Name another one by --server HOST:PORT, ask `systemctl status handled`, or start an example by `handled serve < examples/serve.tenants`"
        }
        ConnectFault::UnknownName => ": check the name in --server",
        ConnectFault::NoRoute | ConnectFault::Silent => {
            ": check --server, and the network between"
        }
        ConnectFault::Failed => ": check --server",
    }
}

/// What can be done where no answer came that can be read.
fn advice_for(fault: ClientFault) -> &'static str {
    match fault {
        ClientFault::NoConnection(why) => advice_on_connection(why),
        ClientFault::TimedOut => {
            ": check --server; a handle server lets a client wait while others have all its connections"
        }
        ClientFault::Closed => {
            " before an answer came: check --server; a server with --proxied answers only through its proxy"
        }
        ClientFault::NoReply => {
            ": check --server; a port whose line ends with handle-net needs --handle-net"
        }
        ClientFault::NoFrame(_)
        | ClientFault::OtherRequest
        | ClientFault::OtherHandle
        | ClientFault::OtherChallenge => ": check --server: no handle server answers so",
        ClientFault::Connection
        | ClientFault::TooLong
        | ClientFault::NoHandle
        | ClientFault::Memory => "",
    }
}

/// Whether the request may have been carried out all the same.
pub(crate) fn may_be_done(fault: ClientFault) -> bool {
    !matches!(
        fault,
        ClientFault::NoConnection(_) | ClientFault::TooLong | ClientFault::NoHandle
    )
}

/// Says on standard error, and ends no line, why a server gave no reply: with its address and what can be done, unless the fault is the request's own.
pub(crate) fn report_fault(rt: &HostRuntime, server: &str, fault: ClientFault) {
    let _ = match fault {
        ClientFault::TooLong | ClientFault::NoHandle | ClientFault::Memory => {
            eprint!(rt; "hdl: {fault}")
        }
        ClientFault::NoFrame(FrameFault::Version(_)) => eprint!(rt;
            "hdl: {server}: what answers there is no handle server, but perhaps the port of `hdl proxy`, or another program: check --server"
        ),
        _ => eprint!(rt; "hdl: {server}: {fault}{}", advice_for(fault)),
    };
}
