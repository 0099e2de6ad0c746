//! The commands and options of the command line.

use clap::{Arg, ArgAction, Command};
use hdl_programs::VERSION;
use std::alloc::{AllocError, Global};

/// An option without a value.
fn flag<'a>(alloc: Global, name: &'a str, help: &'a str) -> Arg<'a> {
    Arg::new(alloc, name)
        .long(name)
        .help(help)
        .action(ArgAction::SetTrue)
}

/// An option with a value.
fn option<'a>(alloc: Global, name: &'a str, value: &'a str, help: &'a str) -> Arg<'a> {
    Arg::new(alloc, name)
        .long(name)
        .value_name(value)
        .help(help)
        .action(ArgAction::Set)
}

fn server(alloc: Global) -> Arg<'static> {
    option(
        alloc,
        "server",
        "HOST:PORT",
        "The server to ask; 127.0.0.1:2641 by default",
    )
}

fn handle_net(alloc: Global) -> Arg<'static> {
    flag(
        alloc,
        "handle-net",
        "Uses the layout that Handle.Net software is believed to have: for ports whose line ends with handle-net",
    )
}

fn key(alloc: Global) -> Arg<'static> {
    option(
        alloc,
        "key",
        "INDEX:HANDLE",
        "Answers a challenge with this key, or as HANDLE:INDEX; its secret is HDL_SECRET, or else the first line of standard input",
    )
}

/// What a command asks about.
fn asked(alloc: Global, name: &str) -> Arg<'static> {
    let (value, help) = match name {
        "list" => ("PREFIX", "The prefix, such as 10"),
        _ => ("HANDLE", "The handle, such as 10/a"),
    };
    Arg::new(alloc, "handle")
        .value_name(value)
        .help(help)
        .required(true)
        .action(ArgAction::Set)
}

/// A command that asks about a handle, or about a prefix.
fn question<'a>(alloc: Global, name: &'a str, about: &'a str) -> Result<Command<'a>, AllocError> {
    Command::new(alloc, name)
        .about(about)
        .arg(asked(alloc, name))?
        .arg(server(alloc))?
        .arg(handle_net(alloc))?
        .arg(key(alloc))?
        .arg(flag(
            alloc,
            "short",
            "Prints only the data of values, or the handles of a list, one per line",
        ))
}

/// The same, with what the request says of the handle's values.
fn values_question<'a>(
    alloc: Global,
    name: &'a str,
    about: &'a str,
    word: &'a str,
) -> Result<Command<'a>, AllocError> {
    question(alloc, name, about)?.arg(
        Arg::new(alloc, "words")
            .value_name(word)
            .required(true)
            .num_args(1..)
            .action(ArgAction::Append),
    )
}

fn resolve<'a>(alloc: Global) -> Result<Command<'a>, AllocError> {
    question(alloc, "resolve", "Shows the values of a handle")?
        .arg(option(
            alloc,
            "index",
            "N",
            "Shows only the value with this index; may be repeated",
        )
        .action(ArgAction::Append))?
        .arg(option(
            alloc,
            "type",
            "TYPE",
            "Shows only values of this type; a type that ends in a dot matches all that begin with it; may be repeated",
        )
        .action(ArgAction::Append))?
        .arg(flag(
            alloc,
            "keys",
            "Shows the data of HS_SECKEY values, which is hidden otherwise",
        ))
}

fn explain<'a>(alloc: Global) -> Result<Command<'a>, AllocError> {
    Command::new(alloc, "explain")
        .about(
            "Explains lines of standard input: those of a script, those that handled prints, or hexadecimal digits",
        )
        .after_help("For example: hdl explain < LINES")
        .arg(flag(
            alloc,
            "keys",
            "Shows the data of HS_SECKEY values, which is hidden otherwise",
        ))?
        .arg(handle_net(alloc))
}

fn batch<'a>(alloc: Global) -> Result<Command<'a>, AllocError> {
    Command::new(alloc, "batch")
        .about("Runs the batch file on standard input, written as for the Handle.Net tools")
        .after_help("For example: hdl batch --server HOST:PORT < BATCH")
        .arg(server(alloc))?
        .arg(handle_net(alloc))
}

fn import<'a>(alloc: Global) -> Result<Command<'a>, AllocError> {
    Command::new(alloc, "import")
        .about(
            "Creates the handles of a CSV file, or updates them; a handle that has these values counts as done",
        )
        .arg(option(
            alloc,
            "csv",
            "FILE",
            "The CSV file: its first line names the columns handle, type, data, and perhaps ttl, index, permissions; each further row is a value",
        )
        .required(true))?
        .arg(key(alloc).required(true))?
        .arg(flag(
            alloc,
            "update",
            "Changes what differs of handles that exist, adds what they lack, and prints it; their other values stay",
        ))?
        .arg(option(
            alloc,
            "ttl",
            "SECONDS",
            "The TTL of rows that say none; 86400 by default",
        ))?
        .arg(flag(
            alloc,
            "dry-run",
            "Only checks the file, and sends nothing; with --update asks the server, and prints what would be changed",
        ))?
        .arg(server(alloc))?
        .arg(handle_net(alloc))
}

/// A word that is needed.
fn needed<'a>(alloc: Global, name: &'a str, value: &'a str) -> Arg<'a> {
    Arg::new(alloc, name)
        .value_name(value)
        .required(true)
        .action(ArgAction::Set)
}

fn replace<'a>(alloc: Global) -> Result<Command<'a>, AllocError> {
    Command::new(alloc, "replace")
        .about(
            "Makes the URLs of a prefix's handles that begin with OLD begin with NEW, and prints each change",
        )
        .after_help(
            "A server's list ends at about 2000 handles. Of a copy of its table, this names all:\n  handled export --table COPY < TENANTS | sed -n 's/^value \\(.*\\) .*/\\1/p' | uniq > FILE\nAfter an interruption start again, with another file for --undo: what was changed has no such URL any more.",
        )
        .arg(needed(alloc, "prefix", "PREFIX"))?
        .arg(needed(alloc, "old", "OLD"))?
        .arg(needed(alloc, "new", "NEW"))?
        .arg(key(alloc).required(true))?
        .arg(option(
            alloc,
            "handles",
            "FILE",
            "Takes the handles from this file, one on a line; else from the server's list, which ends at about 2000",
        ))?
        .arg(option(
            alloc,
            "undo",
            "FILE",
            "Writes the old values into this new file: hdl import --csv FILE --update brings them back",
        ))?
        .arg(flag(
            alloc,
            "dry-run",
            "Only asks for the values, and prints what would be changed",
        ))?
        .arg(server(alloc))?
        .arg(handle_net(alloc))
}

/// The file that the server writes.
fn history_file(alloc: Global) -> Arg<'static> {
    option(
        alloc,
        "file",
        "FILE",
        "The file that handled serve --history writes",
    )
    .required(true)
}

fn history<'a>(alloc: Global) -> Result<Command<'a>, AllocError> {
    Command::new(alloc, "history")
        .about("Shows the changes of a handle, the newest first, each with the values before it")
        .arg(asked(alloc, "history"))?
        .arg(history_file(alloc))?
        .arg(option(alloc, "last", "N", "Shows only the last N changes"))
}

fn undo<'a>(alloc: Global) -> Result<Command<'a>, AllocError> {
    Command::new(alloc, "undo")
        .about(
            "Undoes the last change of a handle, unless something was changed since, and prints it",
        )
        .after_help(
            "It is a change itself: undoing once more brings back what was undone. A PUT by the proxy may be several changes: older ones stand. The data of keys is in no history: set a key anew.",
        )
        .arg(asked(alloc, "undo"))?
        .arg(history_file(alloc))?
        .arg(key(alloc).required(true))?
        .arg(option(
            alloc,
            "at",
            "MOMENT",
            "Undoes the last change only if it is of this moment, as hdl history prints it, or as the file has it",
        ))?
        .arg(flag(
            alloc,
            "dry-run",
            "Only asks for the values, and prints what would be changed",
        ))?
        .arg(server(alloc))?
        .arg(handle_net(alloc))
}

fn export<'a>(alloc: Global) -> Result<Command<'a>, AllocError> {
    Command::new(alloc, "export")
        .about(
            "Writes the values of the tenants text on standard input, as handled export makes it, one on a line",
        )
        .after_help("For example: hdl export < TENANTS > values.csv")
        .arg(flag(
            alloc,
            "csv",
            "Writes CSV, which hdl import reads as the same values; the default",
        ))?
        .arg(flag(
            alloc,
            "json",
            "As JSON objects, with the data of all values",
        ))?
        .arg(flag(
            alloc,
            "keys",
            "Writes HS_SECKEY values too, with their data: secrets",
        ))
}

fn init<'a>(alloc: Global) -> Result<Command<'a>, AllocError> {
    Command::new(alloc, "init")
        .about(
            "Makes a tenants text for new publishers, one per prefix, each with an administrator and a fresh secret",
        )
        .arg(
            Arg::new(alloc, "prefixes")
                .value_name("PREFIX")
                .help("The prefix of a publisher, such as 10 or 20.500; may be repeated")
                .required(true)
                .num_args(1..)
                .action(ArgAction::Append),
        )?
        .arg(flag(
            alloc,
            "handle-net",
            "Ends the publishers' lines with handle-net, for Handle.Net software",
        ))
}

/// The options by which the data of an HS_SITE value is made.
fn making_options<'a>(command: Command<'a>, alloc: Global) -> Result<Command<'a>, AllocError> {
    command
        .arg(option(
            alloc,
            "address",
            "ADDRESS",
            "The server's IPv4 or IPv6 address, as the network reaches it",
        ))?
        .arg(option(
            alloc,
            "port",
            "PORT",
            "The port of its publisher; 2641 by default",
        ))?
        .arg(flag(
            alloc,
            "udp",
            "Queries may come by UDP too, at the same port",
        ))?
        .arg(option(
            alloc,
            "serial",
            "N",
            "The number of the data, 1 by default; one more at each change",
        ))?
        .arg(option(
            alloc,
            "public-key",
            "FILE",
            "Puts the key record in this file there, as the Handle.Net software makes it; without it none",
        ))?
        .arg(option(
            alloc,
            "out",
            "FILE",
            "Writes the octets to this file, and prints no digits",
        ))
}

fn site<'a>(alloc: Global) -> Result<Command<'a>, AllocError> {
    let command = Command::new(alloc, "site")
        .about("Makes or shows the data of an HS_SITE value, which says where a prefix's server is")
        .after_help(
            "A prefix is registered by its HS_SITE value: send the data to the agency that registers prefixes. docs/HANDLE_NET.md has the steps",
        );
    making_options(command, alloc)?
        .arg(option(
            alloc,
            "publisher",
            "NAME",
            "Prints the digits as this publisher's line `site` of a tenants text",
        ))?
        .arg(option(
            alloc,
            "read",
            "DIGITS|FILE",
            "Shows in words what these hexadecimal digits say, or this file",
        ))?
        .arg(option(
            alloc,
            "of",
            "HOST:PORT",
            "Asks this server for its site information, and shows it in words",
        ))?
        .arg(handle_net(alloc))
}

/// Adds a command that asks about a handle.
fn with_question<'a>(
    command: Command<'a>,
    alloc: Global,
    name: &'a str,
    about: &'a str,
) -> Result<Command<'a>, AllocError> {
    command.subcommand(question(alloc, name, about)?)
}

/// Adds one whose request says something of the handle's values.
fn with_values_question<'a>(
    command: Command<'a>,
    alloc: Global,
    name: &'a str,
    about: &'a str,
    word: &'a str,
) -> Result<Command<'a>, AllocError> {
    command.subcommand(values_question(alloc, name, about, word)?)
}

/// The commands that ask, one request each.
fn questions<'a>(command: Command<'a>, alloc: Global) -> Result<Command<'a>, AllocError> {
    let command = command.subcommand(resolve(alloc)?)?;
    let command = with_question(
        command,
        alloc,
        "list",
        "Lists the handles of a naming authority",
    )?;
    let command = with_values_question(
        command,
        alloc,
        "create",
        "Creates a handle with these values",
        "VALUE",
    )?;
    let command = with_question(command, alloc, "delete", "Deletes a handle")?;
    let command = with_values_question(command, alloc, "add", "Adds values to a handle", "VALUE")?;
    let command = with_values_question(
        command,
        alloc,
        "remove",
        "Removes the values with these indexes",
        "INDEX",
    )?;
    with_values_question(
        command,
        alloc,
        "modify",
        "Replaces the values that have the same indexes",
        "VALUE",
    )
}

fn script<'a>(alloc: Global) -> Command<'a> {
    Command::new(alloc, "script")
        .about(
            "Makes a script for handled from standard input: a tenants text with values in words, a line `run`, and a batch",
        )
        .after_help("For example: hdl script < WORDS | handled")
}

fn tenants<'a>(alloc: Global) -> Command<'a> {
    Command::new(alloc, "tenants")
        .about(
            "Turns the values in words of the tenants text on standard input into digits, as handled reads them",
        )
        .after_help("For example: hdl tenants < WORDS > publishers.tenants")
}

/// The whole command line.
pub fn command<'a>(alloc: Global) -> Result<Command<'a>, AllocError> {
    let command = Command::new(alloc, "hdl")
        .version(VERSION)
        .about("Shows and changes the handles of a server")
        .after_help(
            "hdl proxy redirects browsers from a handle's address to its URL: see hdl proxy --help",
        )
        .subcommand_required(true);
    questions(command, alloc)?
        .subcommand(batch(alloc)?)?
        .subcommand(import(alloc)?)?
        .subcommand(replace(alloc)?)?
        .subcommand(history(alloc)?)?
        .subcommand(undo(alloc)?)?
        .subcommand(export(alloc)?)?
        .subcommand(explain(alloc)?)?
        .subcommand(script(alloc))?
        .subcommand(tenants(alloc))?
        .subcommand(init(alloc)?)?
        .subcommand(Command::new(alloc, "key").about(
            "Makes a fresh secret: 32 random octets in hexadecimal digits",
        ))?
        .subcommand(site(alloc)?)
}
