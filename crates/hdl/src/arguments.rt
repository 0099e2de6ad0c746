//! The words of the command line.

use crate::commands::command;
use clap::error::ErrorKind;
use clap::{ArgMatches, Error};
use hdl_commands::{
    ExitStatus, ExportFormat, ImportOptions, ReplaceOptions, RequestOptions, SiteOptions,
    operation_in,
};
use hdl_history_commands::{HistoryOptions, UndoOptions};
use hdl_msg::OpCode;
use hdl_programs::{arguments_of, usage_status};
use hdl_value::Wire;
use std::alloc::{AllocError, Global};
use std::process::ExitCode;

/// The server that is asked where none is named.
const DEFAULT_SERVER: &str = "127.0.0.1:2641";

/// The port of a site that is made, and the number of its data, where none is given.
const DEFAULT_PORT: &str = "2641";

const DEFAULT_SERIAL: &str = "1";

/// What the command line asks for.
#[derive(Drop)]
pub enum Invocation {
    /// The lines on standard input in words, with the data of keys or without.
    Explain {
        wire: Wire,
        shows_keys: bool,
    },
    /// One request.
    Ask(RequestOptions),
    /// The batch on standard input.
    Batch {
        server: String,
        wire: Wire,
    },
    /// The handles of a CSV file.
    Import(ImportOptions),
    /// URLs that begin otherwise.
    Replace(ReplaceOptions),
    /// The changes of a handle.
    History(HistoryOptions),
    /// The last of them undone.
    Undo(UndoOptions),
    /// The values of the tenants text on standard input, with those that are keys or without.
    Export {
        table: ExportFormat,
        shows_keys: bool,
    },
    /// The script of the words on standard input.
    Script,
    /// The tenants text of the words on standard input.
    Tenants,
    /// A tenants text in words for new publishers.
    Init {
        wire: Wire,
        prefixes: Vec<String>,
    },
    /// A fresh secret.
    Key,
    /// The data of an HS_SITE value, to be made.
    MakeSite(SiteOptions),
    /// The same in words: of digits, or of a file.
    ShowSite {
        word: String,
    },
    /// The site information of a server.
    AskSite {
        server: String,
    },
    /// Nothing: help, the version or a fault was printed, and the program ends so.
    Ended(ExitCode),
}

/// Nothing is left to do, and the program ends so.
fn ended(status: ExitStatus) -> Invocation {
    Invocation::Ended(ExitCode::from(status))
}

/// Whether a command reads a text or lines from standard input.
fn reads_input(name: &str) -> bool {
    matches!(name, "batch" | "export" | "explain" | "script" | "tenants")
}

/// The words of an option or of the rest, copied.
fn words(alloc: Global, matches: &ArgMatches<'_>, id: &str) -> Result<Vec<String>, AllocError> {
    let mut words = Vec::new(alloc);
    if let Some(given) = matches.get_strs(id) {
        for word in given {
            match words.push(String::from_str(alloc, word)?) {
                Ok(()) => {}
                Err(_) => return Err(AllocError),
            }
        }
    }
    Ok(words)
}

/// The word of an option, empty where it isn't there.
fn word(alloc: Global, matches: &ArgMatches<'_>, id: &str) -> Result<String, AllocError> {
    String::from_str(alloc, matches.get_str(id).unwrap_or(""))
}

/// The word of an option, if it is there.
fn given(alloc: Global, matches: &ArgMatches<'_>, id: &str) -> Result<Option<String>, AllocError> {
    match matches.get_str(id) {
        Some(word) => Ok(Some(String::from_str(alloc, word)?)),
        None => Ok(None),
    }
}

/// The word of an option, or this one where it isn't there.
fn word_or(
    alloc: Global,
    matches: &ArgMatches<'_>,
    id: &str,
    other: &str,
) -> Result<String, AllocError> {
    String::from_str(alloc, matches.get_str(id).unwrap_or(other))
}

fn server_of(alloc: Global, matches: &ArgMatches<'_>) -> Result<String, AllocError> {
    word_or(alloc, matches, "server", DEFAULT_SERVER)
}

/// By whose layout values stand.
fn wire_of(matches: &ArgMatches<'_>) -> Wire {
    if matches.get_flag("handle-net") {
        Wire::HandleNet
    } else {
        Wire::Profile
    }
}

/// A site to be shown, to be asked for, or to be made.
fn site_of(alloc: Global, matches: &ArgMatches<'_>) -> Result<Invocation, AllocError> {
    if let Some(word) = given(alloc, matches, "read")? {
        return Ok(Invocation::ShowSite { word });
    }
    if let Some(server) = given(alloc, matches, "of")? {
        return Ok(Invocation::AskSite { server });
    }
    Ok(Invocation::MakeSite(SiteOptions {
        address: word(alloc, matches, "address")?,
        port: word_or(alloc, matches, "port", DEFAULT_PORT)?,
        serial: word_or(alloc, matches, "serial", DEFAULT_SERIAL)?,
        is_udp: matches.get_flag("udp"),
        key: given(alloc, matches, "public-key")?,
        out: given(alloc, matches, "out")?,
        publisher: given(alloc, matches, "publisher")?,
    }))
}

fn question_of(
    alloc: Global,
    operation: OpCode,
    matches: &ArgMatches<'_>,
) -> Result<RequestOptions, AllocError> {
    let is_resolution = operation == OpCode::Resolution;
    Ok(RequestOptions {
        operation,
        handle: word(alloc, matches, "handle")?,
        words: words(
            alloc,
            matches,
            if is_resolution { "index" } else { "words" },
        )?,
        types: words(alloc, matches, "type")?,
        server: server_of(alloc, matches)?,
        wire: wire_of(matches),
        key: given(alloc, matches, "key")?,
        is_short: matches.get_flag("short"),
        shows_keys: is_resolution && matches.get_flag("keys"),
    })
}

fn asked_of(alloc: Global, name: &str, matches: &ArgMatches<'_>) -> Result<Invocation, AllocError> {
    match name {
        "explain" => Ok(Invocation::Explain {
            wire: wire_of(matches),
            shows_keys: matches.get_flag("keys"),
        }),
        "batch" => Ok(Invocation::Batch {
            server: server_of(alloc, matches)?,
            wire: wire_of(matches),
        }),
        "import" => Ok(Invocation::Import(ImportOptions {
            file: word(alloc, matches, "csv")?,
            server: server_of(alloc, matches)?,
            wire: wire_of(matches),
            key: word(alloc, matches, "key")?,
            ttl: given(alloc, matches, "ttl")?,
            is_update: matches.get_flag("update"),
            is_dry: matches.get_flag("dry-run"),
        })),
        "replace" => Ok(Invocation::Replace(ReplaceOptions {
            prefix: word(alloc, matches, "prefix")?,
            old: word(alloc, matches, "old")?,
            new: word(alloc, matches, "new")?,
            server: server_of(alloc, matches)?,
            wire: wire_of(matches),
            key: word(alloc, matches, "key")?,
            handles: given(alloc, matches, "handles")?,
            undo: given(alloc, matches, "undo")?,
            is_dry: matches.get_flag("dry-run"),
        })),
        "history" => Ok(Invocation::History(HistoryOptions {
            handle: word(alloc, matches, "handle")?,
            file: word(alloc, matches, "file")?,
            last: given(alloc, matches, "last")?,
        })),
        "undo" => Ok(Invocation::Undo(UndoOptions {
            handle: word(alloc, matches, "handle")?,
            file: word(alloc, matches, "file")?,
            server: server_of(alloc, matches)?,
            wire: wire_of(matches),
            key: word(alloc, matches, "key")?,
            at: given(alloc, matches, "at")?,
            is_dry: matches.get_flag("dry-run"),
        })),
        "export" => Ok(Invocation::Export {
            table: if matches.get_flag("json") {
                ExportFormat::Json
            } else {
                ExportFormat::Csv
            },
            shows_keys: matches.get_flag("keys"),
        }),
        "script" => Ok(Invocation::Script),
        "tenants" => Ok(Invocation::Tenants),
        "init" => Ok(Invocation::Init {
            wire: wire_of(matches),
            prefixes: words(alloc, matches, "prefixes")?,
        }),
        "key" => Ok(Invocation::Key),
        "site" => site_of(alloc, matches),
        other => match operation_in(other) {
            Some(operation) => Ok(Invocation::Ask(question_of(alloc, operation, matches)?)),
            None => Ok(ended(ExitStatus::Arguments)),
        },
    }
}

fn parse(alloc: Global, words: &[String]) -> Result<Invocation, Error> {
    let matches = command(alloc)?.try_get_matches_from(words)?;
    match matches.subcommand() {
        Some((name, found)) => Ok(asked_of(alloc, name, found)?),
        None => Ok(ended(ExitStatus::Arguments)),
    }
}

/// Says on standard error how a text is given to the command of these words, if it takes one and has a word too many.
fn report_input(rt: &HostRuntime, words: &[String], kind: ErrorKind) {
    let Some(name) = words.get(1) else {
        return;
    };
    if kind == ErrorKind::UnknownArgument && reads_input(name.as_str()) {
        let _ = eprintln!(rt;
            "\nThe command reads standard input: write `hdl {name} < FILE`, and ` > NEW` to keep what it prints."
        );
    }
}

/// Reads the command line, and prints what `clap` has to say of it.
pub fn read_arguments(rt: &HostRuntime) -> Invocation {
    let Ok(words) = arguments_of(rt) else {
        let _ = eprintln!(rt;
            "error: a word of the command line is not UTF-8, or there is no memory for it"
        );
        return ended(ExitStatus::Arguments);
    };
    match parse(rt.alloc(), words.as_slice()) {
        Ok(found) => found,
        Err(error) => {
            let is_help = !error.use_stderr();
            let kind = error.kind();
            let printed = error.print(rt);
            report_input(rt, words.as_slice(), kind);
            match printed {
                Err(_) if is_help => ended(ExitStatus::Failure),
                _ => Invocation::Ended(ExitCode::from(usage_status(is_help))),
            }
        }
    }
}
