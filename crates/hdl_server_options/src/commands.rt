//! The commands and options of the command line.

use clap::{Arg, ArgAction, Command, value_parser};
use hdl_programs::VERSION;
use std::alloc::{AllocError, Global};

/// An option with a value.
fn option<'a>(alloc: Global, name: &'a str, value: &'a str, help: &'a str) -> Arg<'a> {
    Arg::new(alloc, name)
        .long(name)
        .value_name(value)
        .help(help)
        .action(ArgAction::Set)
}

fn table_args<'a>(alloc: Global, command: Command<'a>) -> Result<Command<'a>, AllocError> {
    command
        .arg(option(
            alloc,
            "table",
            "FILE",
            "Keeps the table in this SQLite file, so changes outlive the server; makes the file if it is missing",
        ))?
        .arg(
            Arg::new(alloc, "sums")
                .long("sums")
                .help(
                    "Gives each page of a new FILE a checksum, which shows changed bits; done by default",
                )
                .action(ArgAction::SetTrue)
                .requires_arg("table")?,
        )?
        .arg(
            Arg::new(alloc, "no-sums")
                .long("no-sums")
                .help(
                    "Makes a new FILE without checksums on its pages: changed bits go unnoticed, and a plain sqlite3 may write it",
                )
                .action(ArgAction::SetTrue)
                .requires_arg("table")?
                .conflicts_with("sums")?,
        )?
        .arg(
            Arg::new(alloc, "accept-loss")
                .long("accept-loss")
                .help(
                    "Opens FILE even if its log is missing, damaged or another one: what is whole stays, the rest is lost",
                )
                .action(ArgAction::SetTrue)
                .requires_arg("table")?,
        )
}

/// The option of a file that the tenants text is in.
fn text_arg<'a>(alloc: Global) -> Arg<'a> {
    option(
        alloc,
        "text",
        "FILE",
        "Reads the tenants text from this file, of any length, instead of standard input",
    )
}

/// The option of the addresses at which ports are opened.
fn listen_arg<'a>(alloc: Global, help: &'a str) -> Arg<'a> {
    option(alloc, "listen", "ADDRESS", help).action(ArgAction::Append)
}

fn serve_command<'a>(alloc: Global) -> Result<Command<'a>, AllocError> {
    let command = Command::new(alloc, "serve")
        .about("Serves the tenants text on standard input, or in a file, over TCP and UDP")
        .after_help("For example: handled serve --table handles.db < publishers.tenants")
        .arg(text_arg(alloc))?
        .arg(listen_arg(
            alloc,
            "Opens each publisher's port at this IPv4 or IPv6 address; may be repeated; 127.0.0.1 by default",
        ))?;
    let command = bound_args(alloc, limit_args(alloc, command)?)?;
    let command = table_args(alloc, monitoring_args(alloc, command)?)?;
    let command = command.arg(read_only_arg(alloc)?)?;
    cluster_args(alloc, command)
}

/// The option by which no changes are taken.
fn read_only_arg<'a>(alloc: Global) -> Result<Arg<'a>, AllocError> {
    Arg::new(alloc, "read-only")
        .long("read-only")
        .help(
            "Takes no changes: each is answered 5, operation denied; for a standby over a copy of another server's file",
        )
        .action(ArgAction::SetTrue)
        .requires_arg("table")
}

/// The options of `serve` by which other servers have the same table.
fn cluster_args<'a>(alloc: Global, command: Command<'a>) -> Result<Command<'a>, AllocError> {
    command
        .arg(
            option(
                alloc,
                "cluster",
                "MEMBER[,..]",
                "Keeps the table in etcd, so that other servers have the same table: by these members, each as HOST:PORT or unix:PATH",
            )
            .conflicts_with("table")?
            .conflicts_with("row-cache")?,
        )?
        .arg(cluster_name_arg(alloc)?)
}

/// The option that names the table among others on the same members.
fn cluster_name_arg<'a>(alloc: Global) -> Result<Arg<'a>, AllocError> {
    option(
        alloc,
        "cluster-name",
        "NAME",
        "What the table's keys in etcd begin with; handles by default",
    )
    .requires_arg("cluster")
}

/// The options of `serve` by which turns, waiting and crowds have a limit.
fn limit_args<'a>(alloc: Global, command: Command<'a>) -> Result<Command<'a>, AllocError> {
    command
        .arg(option(
            alloc,
            "turns",
            "N",
            "Ends after N turns of each worker and of the service; for tests",
        )
        .value_parser(value_parser!(u64).range(1..)))?
        .arg(option(
            alloc,
            "idle",
            "SECONDS",
            "Closes a connection that is silent for this long while another client waits; 60 by default",
        )
        .value_parser(value_parser!(u32).range(1..)))?
        .arg(option(
            alloc,
            "amplify",
            "N",
            "Limits a UDP reply to N times its request, or to one datagram, until the client answers a challenge; 8 by default, no limit on loopback",
        )
        .value_parser(value_parser!(u32).range(1..)))?
        .arg(option(
            alloc,
            "crowd",
            "CONNECTIONS",
            "Serves at most this many clients of a publisher on its overflow lane; 1000 by default, 0 for no overflow lane",
        )
        .value_parser(value_parser!(u32)))
}

/// The options of `serve` by which what is kept has a bound.
fn bound_args<'a>(alloc: Global, command: Command<'a>) -> Result<Command<'a>, AllocError> {
    command
        .arg(option(
            alloc,
            "bound",
            "NAME=VALUES,OCTETS",
            "Limits the values and octets that this publisher holds; a change beyond it is answered busy; once per publisher",
        )
        .action(ArgAction::Append))?
        .arg(option(
            alloc,
            "reserve",
            "OCTETS",
            "Memory kept aside: while less is left, changes that need memory are answered busy, and reads go on; 67108864 by default, 0 for none",
        )
        .value_parser(value_parser!(u64)))?
        .arg(option(
            alloc,
            "row-cache",
            "OCTETS",
            "Memory for the handles read last; 41943040 by default, 0 for none; without --table only",
        )
        .value_parser(value_parser!(u64)))
}

/// The options of `serve` by which a server is watched and ended.
fn monitoring_args<'a>(alloc: Global, command: Command<'a>) -> Result<Command<'a>, AllocError> {
    command
        .arg(option(
            alloc,
            "log",
            "FILE",
            "Appends a line to FILE for each change that was accepted or refused; - is standard error",
        ))?
        .arg(option(
            alloc,
            "history",
            "FILE",
            "Appends each change to FILE, with its moment, its key and the values before, for `hdl history` and `hdl undo`",
        ))?
        .arg(option(
            alloc,
            "status",
            "ADDRESS:PORT",
            "Answers /health and /metrics over HTTP at this address",
        ))?
        .arg(option(
            alloc,
            "control",
            "PATH",
            "The Unix socket at which `handled stop` ends the server, and `handled reopen` opens its log and history anew",
        ))?
        .arg(option(
            alloc,
            "proxied",
            "ADDRESS",
            "Expects a header of the PROXY protocol, version 2, on each TCP connection from this address, and logs the client that it names",
        ))
}

fn copy_command<'a>(alloc: Global) -> Result<Command<'a>, AllocError> {
    Command::new(alloc, "copy")
        .about("Copies the file of a table, also while a server has it open")
        .arg(option(alloc, "table", "FILE", "The SQLite file of the table").required(true))?
        .arg(option(alloc, "to", "COPY", "The copy: a path where no file is yet").required(true))
}

fn restore_command<'a>(alloc: Global) -> Result<Command<'a>, AllocError> {
    Command::new(alloc, "restore")
        .about(
            "Checks a copy of a table's file, and replaces the file by it; the owner and the permissions stay those of the file",
        )
        .arg(option(
            alloc,
            "from",
            "COPY",
            "The copy, as `handled copy` makes it",
        )
        .required(true))?
        .arg(option(
            alloc,
            "table",
            "FILE",
            "The SQLite file of the table; no server may have it open; it and its log are replaced",
        )
        .required(true))
}

/// The option that names a running server.
fn control_arg<'a>(alloc: Global) -> Arg<'a> {
    option(
        alloc,
        "control",
        "PATH",
        "The Unix socket that the server's --control names",
    )
    .required(true)
}

fn stop_command<'a>(alloc: Global) -> Result<Command<'a>, AllocError> {
    Command::new(alloc, "stop")
        .about("Ends a server in order, and waits until it has ended")
        .arg(control_arg(alloc))
}

fn reopen_command<'a>(alloc: Global) -> Result<Command<'a>, AllocError> {
    Command::new(alloc, "reopen")
        .about(
            "Has a server open the files of its log and history anew once they were renamed; it does so within two seconds",
        )
        .arg(control_arg(alloc))
}

fn replay_command<'a>(alloc: Global) -> Result<Command<'a>, AllocError> {
    let command = Command::new(alloc, "replay")
        .about("Runs the script on standard input")
        .after_help("For example: handled replay < SCRIPT");
    table_args(alloc, command)
}

fn export_command<'a>(alloc: Global) -> Result<Command<'a>, AllocError> {
    Command::new(alloc, "export")
        .about(
            "Writes the table of a file, or of a cluster, as a tenants text; publishers and prefixes come from the text on standard input, or in --text",
        )
        .after_help("For example: handled export --table COPY --to NEW < publishers.tenants")
        .arg(option(
            alloc,
            "table",
            "FILE",
            "The SQLite file of the table, or a copy of it; no server may have it open",
        )
        .required_unless_present("cluster")?)?
        .arg(option(
            alloc,
            "cluster",
            "MEMBER[,..]",
            "Reads the table that servers have in etcd, from one of these members, each as HOST:PORT or unix:PATH",
        )
        .conflicts_with("table")?)?
        .arg(cluster_name_arg(alloc)?)?
        .arg(text_arg(alloc))?
        .arg(option(
            alloc,
            "publisher",
            "NAME",
            "Writes only this publisher's values, and those on which its answers rest",
        ))?
        .arg(option(
            alloc,
            "to",
            "NEW",
            "Writes to this new file, which only its owner may read, instead of standard output",
        ))
}

fn check_command<'a>(alloc: Global) -> Result<Command<'a>, AllocError> {
    Command::new(alloc, "check")
        .about(
            "Checks the tenants text on standard input, or in --text: prints what it has, or all of its faults, and which ports are taken",
        )
        .after_help("For example: handled check < publishers.tenants")
        .arg(text_arg(alloc))?
        .arg(listen_arg(
            alloc,
            "Checks the ports at this IPv4 or IPv6 address; may be repeated; 127.0.0.1 by default",
        ))
}

/// The command line, before it has commands.
fn empty_command<'a>(alloc: Global) -> Command<'a> {
    Command::new(alloc, "handled").version(VERSION).about(
        "A handle server; without a command it runs the script on standard input, as replay does",
    )
}

/// The command line with one more command, if that could be made.
///
/// Who makes a command owns no other one meanwhile: a function's proof writes out what it lets go of at each of its exits.
fn with_command<'a>(
    whole: Command<'a>,
    made: Result<Command<'a>, AllocError>,
) -> Result<Command<'a>, AllocError> {
    whole.subcommand(made?)
}

/// The whole command line.
pub fn command<'a>(alloc: Global) -> Result<Command<'a>, AllocError> {
    let whole = empty_command(alloc);
    let whole = with_command(whole, replay_command(alloc))?;
    let whole = with_command(whole, serve_command(alloc))?;
    let whole = with_command(whole, export_command(alloc))?;
    let whole = with_command(whole, copy_command(alloc))?;
    let whole = with_command(whole, restore_command(alloc))?;
    let whole = with_command(whole, stop_command(alloc))?;
    let whole = with_command(whole, reopen_command(alloc))?;
    with_command(whole, check_command(alloc))
}
