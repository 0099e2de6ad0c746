//! Reading the command line.

use crate::argument_fault::{ArgumentFault, print_argument_fault};
use crate::commands::command;
use crate::invocation::{ExportOptions, ExportSource, Invocation, OptionsFault, TableFile};
use crate::serving::{addresses, cluster, serve_options};
use crate::values::{copy_of, required, table_file};
use clap::ArgMatches;
use hdl_programs::{ExitStatus, arguments_of};
use std::alloc::Global;

/// What is asked for by the words after `copy`.
fn copy_options(alloc: Global, found: &ArgMatches) -> Result<Invocation, ArgumentFault> {
    let from = required(alloc, found, "table")?;
    let to = required(alloc, found, "to")?;
    Ok(Invocation::Copy { from, to })
}

/// What is asked for by the words after `restore`.
fn restore_options(alloc: Global, found: &ArgMatches) -> Result<Invocation, ArgumentFault> {
    let from = required(alloc, found, "from")?;
    let table = required(alloc, found, "table")?;
    Ok(Invocation::Restore { from, table })
}

/// What is asked for by the words after `check`.
fn check_options(alloc: Global, found: &ArgMatches) -> Result<Invocation, ArgumentFault> {
    let text = copy_of(alloc, found.get_str("text"))?;
    let addresses = addresses(alloc, found.get_strs("listen").unwrap_or(&[]))?;
    Ok(Invocation::Check { text, addresses })
}

/// What is asked for by the words after `stop`.
fn stop_options(alloc: Global, found: &ArgMatches) -> Result<Invocation, ArgumentFault> {
    let control = required(alloc, found, "control")?;
    Ok(Invocation::Stop { control })
}

/// What is asked for by the words after `reopen`.
fn reopen_options(alloc: Global, found: &ArgMatches) -> Result<Invocation, ArgumentFault> {
    let control = required(alloc, found, "control")?;
    Ok(Invocation::Reopen { control })
}

/// Where the table is that is exported.
fn export_source(alloc: Global, found: &ArgMatches) -> Result<ExportSource, ArgumentFault> {
    if let Some(cluster) = cluster(alloc, found)? {
        return Ok(ExportSource::Cluster(cluster));
    }
    Ok(ExportSource::File(TableFile {
        path: required(alloc, found, "table")?,
        has_sums: true,
        accepts_loss: false,
    }))
}

/// What is asked for by the words after `export`.
fn export_options(alloc: Global, found: &ArgMatches) -> Result<Invocation, ArgumentFault> {
    let source = export_source(alloc, found)?;
    let text = copy_of(alloc, found.get_str("text"))?;
    let publisher = copy_of(alloc, found.get_str("publisher"))?;
    let to = copy_of(alloc, found.get_str("to"))?;
    Ok(Invocation::Export(ExportOptions {
        source,
        text,
        publisher,
        to,
    }))
}

/// What is asked for by the words that `clap` took.
fn invocation_of(alloc: Global, matches: &ArgMatches) -> Result<Invocation, ArgumentFault> {
    if let Some(found) = matches.subcommand_matches("check") {
        return check_options(alloc, found);
    }
    if let Some(found) = matches.subcommand_matches("export") {
        return export_options(alloc, found);
    }
    if let Some(found) = matches.subcommand_matches("serve") {
        return Ok(Invocation::Serve(serve_options(alloc, found)?));
    }
    if let Some(found) = matches.subcommand_matches("copy") {
        return copy_options(alloc, found);
    }
    if let Some(found) = matches.subcommand_matches("restore") {
        return restore_options(alloc, found);
    }
    if let Some(found) = matches.subcommand_matches("stop") {
        return stop_options(alloc, found);
    }
    if let Some(found) = matches.subcommand_matches("reopen") {
        return reopen_options(alloc, found);
    }
    match matches.subcommand_matches("replay") {
        Some(found) => Ok(Invocation::Replay {
            table: table_file(alloc, found)?,
        }),
        None => Ok(Invocation::Replay { table: None }),
    }
}

fn parse(alloc: Global, words: &[String]) -> Result<Invocation, ArgumentFault> {
    let matches = command(alloc)?.try_get_matches_from(words)?;
    invocation_of(alloc, &matches)
}

/// Reads the command line, and prints what there is to say of it.
pub fn read_options(rt: &HostRuntime) -> Result<Invocation, OptionsFault> {
    let Ok(words) = arguments_of(rt) else {
        // words that are no text, or no memory for them
        let _ = eprintln!(rt;
            "error: a word of the command line is not UTF-8, or there is no memory for it"
        );
        return Ok(Invocation::Ended(ExitStatus::Arguments));
    };
    match parse(rt.alloc(), words.as_slice()) {
        Ok(asked) => Ok(asked),
        Err(fault) => Ok(Invocation::Ended(print_argument_fault(rt, words.as_slice(), fault)?)),
    }
}
