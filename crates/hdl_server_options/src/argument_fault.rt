//! Words that ask for nothing, and what is said of them.

use crate::invocation::OptionsFault;
use clap::Error;
use clap::error::ErrorKind;
use hdl_programs::ExitStatus;
use std::alloc::AllocError;

/// Why the words ask for nothing.
#[derive(Drop)]
pub enum ArgumentFault {
    /// `clap` has something to say of them.
    Clap(Error),
    /// This is no address to listen at.
    Address(String),
    /// This address can't be listened at without the name of its network.
    LinkLocal(String),
    /// This address is given a second time.
    AddressTwice(String),
    /// This is no address of a proxy.
    Proxied(String),
    /// This is no bound.
    Bound(String),
    /// This is a second bound of its publisher.
    BoundTwice(String),
    /// This is no address with a port.
    Status(String),
    /// This is no member of a cluster.
    Member(String),
    /// This can't name a cluster.
    ClusterName(String),
}

impl From<Error> for ArgumentFault {
    fn from(error: Error) -> ArgumentFault {
        ArgumentFault::Clap(error)
    }
}

impl From<AllocError> for ArgumentFault {
    fn from(error: AllocError) -> ArgumentFault {
        ArgumentFault::Clap(Error::from(error))
    }
}

/// Whether a command reads a text from standard input.
fn reads_input(name: &str) -> bool {
    matches!(name, "serve" | "check" | "export" | "replay")
}

/// Says on standard error how a text is given to the command of these words, if it takes one and has a word too many.
fn report_input(rt: &HostRuntime, words: &[String], kind: ErrorKind) {
    let Some(name) = words.get(1) else {
        return;
    };
    if kind == ErrorKind::UnknownArgument && reads_input(name.as_str()) {
        let _ = eprintln!(rt;
            "\nThe command reads its text from standard input: end it with ` < FILE`."
        );
    }
}

/// Prints what `clap` has to say of these words, and answers the exit status.
fn print_help(
    rt: &HostRuntime,
    words: &[String],
    error: Error,
) -> Result<ExitStatus, OptionsFault> {
    let kind = error.kind();
    if kind == ErrorKind::OutOfMemory {
        return Err(OptionsFault::Memory);
    }
    let is_help = !error.use_stderr();
    let printed = error.print(rt);
    report_input(rt, words, kind);
    match printed {
        Err(_) if is_help => Err(OptionsFault::Device),
        _ => Ok(ExitStatus::of_usage(is_help)),
    }
}

/// How the option of an address is written.
const LISTEN: &str = "--listen <ADDRESS>";

/// How the option of a bound is written.
const BOUND: &str = "--bound <NAME=VALUES,OCTETS>";

/// What a word for an address has to be.
const ADDRESS: &str = "not an IPv4 or IPv6 address; write one such as 192.0.2.1 or 2001:db8::1";

/// What is wrong with a word that is no address to listen at.
fn listen_reason(word: &str) -> &'static str {
    if word.starts_with('[') || (word.contains('.') && word.contains(':')) {
        "not an IPv4 or IPv6 address; write one such as 192.0.2.1 or 2001:db8::1, without port and brackets; the ports are in the tenants text"
    } else {
        ADDRESS
    }
}

/// Says what is wrong with the value of an option, and answers the exit status.
fn refuse_value(rt: &HostRuntime, word: &str, option: &str, reason: &str) -> ExitStatus {
    let _ = eprintln!(rt;
        "error: invalid value '{word}' for '{option}': {reason}\n\nFor more information, try '--help'."
    );
    ExitStatus::Arguments
}

/// Prints why these words ask for nothing, and answers the exit status.
pub fn print_argument_fault(
    rt: &HostRuntime,
    words: &[String],
    fault: ArgumentFault,
) -> Result<ExitStatus, OptionsFault> {
    match fault {
        ArgumentFault::Clap(error) => print_help(rt, words, error),
        ArgumentFault::Address(word) => Ok(refuse_value(
            rt,
            word.as_str(),
            LISTEN,
            listen_reason(word.as_str()),
        )),
        ArgumentFault::LinkLocal(word) => Ok(refuse_value(
            rt,
            word.as_str(),
            LISTEN,
            "a link-local address can't be used; name another one that `ip address` shows",
        )),
        ArgumentFault::AddressTwice(word) => Ok(refuse_value(
            rt,
            word.as_str(),
            LISTEN,
            "this address is given already; give each one once",
        )),
        ArgumentFault::Proxied(word) => Ok(refuse_value(
            rt,
            word.as_str(),
            "--proxied <ADDRESS>",
            ADDRESS,
        )),
        ArgumentFault::Bound(word) => Ok(refuse_value(
            rt,
            word.as_str(),
            BOUND,
            "write a publisher's name and two numbers, such as acme=10000,5000000",
        )),
        ArgumentFault::Status(word) => Ok(refuse_value(
            rt,
            word.as_str(),
            "--status <ADDRESS:PORT>",
            "not an address with a port; write one such as 127.0.0.1:9100 or [::1]:9100",
        )),
        ArgumentFault::Member(word) => Ok(refuse_value(
            rt,
            word.as_str(),
            "--cluster <MEMBER[,..]>",
            "not a member of etcd; write its client address, such as 127.0.0.1:2379 or unix:/run/etcd/localhost:2379",
        )),
        ArgumentFault::ClusterName(word) => Ok(refuse_value(
            rt,
            word.as_str(),
            "--cluster-name <NAME>",
            "write letters, digits and hyphens",
        )),
        ArgumentFault::BoundTwice(word) => Ok(refuse_value(
            rt,
            word.as_str(),
            BOUND,
            "this publisher has a --bound already; give one per publisher",
        )),
    }
}
