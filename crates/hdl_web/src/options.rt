//! The words of the command line.

use clap::{Arg, ArgAction, ArgMatches, Command, Error, value_parser};
use hdl_programs::{VERSION, arguments_of, usage_status};
use std::alloc::{AllocError, Global};

/// How the program is called: ./hdl starts it where its first word is `proxy`.
const NAME: &str = "hdl proxy";

/// Where the proxy listens, where no other address is named.
const DEFAULT_LISTEN: &str = "127.0.0.1:8080";

/// What the site of the pages is called, where it has no other name.
const DEFAULT_SITE: &str = "Handles";

/// For how many seconds a browser keeps a redirect at most, where no other number is named.
const DEFAULT_REDIRECT_SECONDS: u64 = 300;

/// How many threads serve the connections of an address, where no other number is named.
const DEFAULT_THREADS: u64 = 1;

/// How many questions a server is asked at once, where no other number is named.
const DEFAULT_ASKERS: u64 = 2;

/// How many seconds a server's answer may take, where no other number is named.
const DEFAULT_TIMEOUT_SECONDS: u64 = 5;

/// The options of `hdl proxy`.
#[derive(Drop)]
pub struct ProxyOptions {
    /// The addresses at which it listens.
    pub listen: Vec<String>,
    /// How many threads serve the connections of each address: 1 to 64.
    pub threads: u64,
    /// The servers to ask, in this order.
    pub servers: Vec<String>,
    /// The servers to ask if no other one answers, in this order.
    pub standbys: Vec<String>,
    /// How many questions it asks each at once: 1 to 64.
    pub askers: u64,
    /// How many seconds an answer may take: 1 to 60.
    pub timeout: u64,
    /// What the site of its pages is called.
    pub site: String,
    /// The contact for readers' questions.
    pub contact: Option<String>,
    /// The address at which its handles are cited.
    pub address: Option<String>,
    /// The language of all pages, `en` or `de`; if there is none, each request chooses.
    pub language: Option<String>,
    /// For how many seconds browsers keep a redirect at most: up to a day.
    pub redirects: u64,
    /// For how many seconds an answer is kept at most; 0 keeps none.
    pub cache: u64,
    /// Where a line of each visit is written, if anywhere: a file's path, or `-`.
    pub log: Option<String>,
    /// Whether handles are changed, by who has a key.
    pub writes: bool,
    /// A copy of the table, of which lists are made: a file's path.
    pub lists: Option<String>,
    /// The history of a server, whose last changes forms show: a file's path.
    pub history: Option<String>,
}

/// What the command line asks for.
#[derive(Drop)]
pub enum Invocation {
    /// Serving browsers.
    Proxy(ProxyOptions),
    /// Nothing: help or a fault was printed, and this is the exit status.
    Ended(u8),
}

/// An option with a value.
fn option<'a>(alloc: Global, name: &'a str, value: &'a str, help: &'a str) -> Arg<'a> {
    Arg::new(alloc, name)
        .long(name)
        .value_name(value)
        .help(help)
        .action(ArgAction::Set)
}

/// The options that say where it listens, and what answers there.
fn listening_args<'a>(alloc: Global, command: Command<'a>) -> Result<Command<'a>, AllocError> {
    command
        .arg(option(
            alloc,
            "listen",
            "ADDRESS:PORT",
            "An address to listen at; may be repeated; 127.0.0.1:8080 by default",
        )
        .action(ArgAction::Append))?
        .arg(option(
            alloc,
            "threads",
            "N",
            "Threads for the connections of each address; 1 by default",
        )
        .value_parser(value_parser!(u64).range(1..65)))
}

/// The options that say which servers it asks, and how.
fn asking_args<'a>(alloc: Global, command: Command<'a>) -> Result<Command<'a>, AllocError> {
    command
        .arg(
            option(
                alloc,
                "server",
                "HOST:PORT[=PREFIX,..]",
                "A handle server, for these prefixes; without prefixes, for all that no other server has; may be repeated",
            )
            .required(true)
            .action(ArgAction::Append),
        )?
        .arg(option(
            alloc,
            "standby",
            "HOST:PORT[=PREFIX,..]",
            "A server over a copy, asked if no other one answers; it gets no changes; may be repeated",
        )
        .action(ArgAction::Append))?
        .arg(option(
            alloc,
            "askers",
            "N",
            "Questions that each server is asked at once; 2 by default; each may hold a lane",
        )
        .value_parser(value_parser!(u64).range(1..65)))?
        .arg(option(
            alloc,
            "timeout",
            "SECONDS",
            "Time limit for a server's whole answer; 5 by default",
        )
        .value_parser(value_parser!(u64).range(1..61)))
}

/// The options that say what its pages tell of the site.
fn site_args<'a>(alloc: Global, command: Command<'a>) -> Result<Command<'a>, AllocError> {
    command
        .arg(option(
            alloc,
            "site",
            "NAME",
            "The site's name, at the head of every page; Handles by default",
        ))?
        .arg(option(
            alloc,
            "contact",
            "ADDRESS",
            "A mail address or URL for readers' questions, at the foot of every page",
        ))?
        .arg(option(
            alloc,
            "address",
            "URL",
            "The site's own address, such as https://handles.example.org/, for links by which pages are cited",
        ))?
        .arg(option(
            alloc,
            "lang",
            "LANGUAGE",
            "The language of all pages, en or de; by default each browser's own, by Accept-Language",
        ))
}

/// The options that say what it keeps, and where it tells of visits.
fn caching_args<'a>(alloc: Global, command: Command<'a>) -> Result<Command<'a>, AllocError> {
    command
        .arg(option(
            alloc,
            "cache",
            "SECONDS",
            "Caches answers for at most this long, and within their TTL; no cache by default",
        )
        .value_parser(value_parser!(u64).range(1..86401)))?
        .arg(option(
            alloc,
            "browser-cache",
            "SECONDS",
            "How long browsers keep a redirect at most; 300 by default; with 0 they keep none",
        )
        .value_parser(value_parser!(u64).range(0..86401)))?
        .arg(option(
            alloc,
            "log",
            "FILE",
            "Appends a line to FILE for each request; - is standard output; no log by default",
        ))
}

/// The options that say what it does for who has a key.
fn writing_args<'a>(alloc: Global, command: Command<'a>) -> Result<Command<'a>, AllocError> {
    command
        .arg(
            Arg::new(alloc, "writes")
                .long("writes")
                .help(
                    "Lets clients with a key change handles, by PUT and DELETE; put TLS in front of the proxy",
                )
                .action(ArgAction::SetTrue),
        )?
        .arg(option(
            alloc,
            "lists",
            "FILE",
            "With --writes: a copy of the table (handled copy), for lists in browsers and long lists",
        )
        .requires_arg("writes")?)?
        .arg(option(
            alloc,
            "history",
            "FILE",
            "With --writes: the history of the server (handled serve --history), of which forms show the last changes",
        )
        .requires_arg("writes")?)
}

fn command<'a>(alloc: Global) -> Result<Command<'a>, AllocError> {
    let command = Command::new(alloc, NAME)
        .version(VERSION)
        .bin_name(NAME)?
        .about("Redirects browsers from a handle's address to its URL");
    let command = asking_args(alloc, listening_args(alloc, command)?)?;
    writing_args(alloc, caching_args(alloc, site_args(alloc, command)?)?)
}

/// These words, each as a text of its own.
fn texts(alloc: Global, words: &[&str]) -> Result<Vec<String>, AllocError> {
    let mut texts = Vec::new(alloc);
    for word in words {
        texts.push(String::from_str(alloc, word)?)?;
    }
    Ok(texts)
}

/// This word, if there is one, as a text of its own.
fn text(alloc: Global, word: Option<&str>) -> Result<Option<String>, AllocError> {
    match word {
        Some(word) => Ok(Some(String::from_str(alloc, word)?)),
        None => Ok(None),
    }
}

/// What the words say.
fn proxy_options(alloc: Global, found: &ArgMatches<'_>) -> Result<ProxyOptions, AllocError> {
    Ok(ProxyOptions {
        listen: texts(alloc, found.get_strs("listen").unwrap_or(&[DEFAULT_LISTEN]))?,
        threads: found.get_one::<u64>("threads").unwrap_or(DEFAULT_THREADS),
        servers: texts(alloc, found.get_strs("server").unwrap_or(&[]))?,
        standbys: texts(alloc, found.get_strs("standby").unwrap_or(&[]))?,
        askers: found.get_one::<u64>("askers").unwrap_or(DEFAULT_ASKERS),
        timeout: found
            .get_one::<u64>("timeout")
            .unwrap_or(DEFAULT_TIMEOUT_SECONDS),
        site: String::from_str(alloc, found.get_str("site").unwrap_or(DEFAULT_SITE))?,
        contact: text(alloc, found.get_str("contact"))?,
        address: text(alloc, found.get_str("address"))?,
        language: text(alloc, found.get_str("lang"))?,
        redirects: found
            .get_one::<u64>("browser-cache")
            .unwrap_or(DEFAULT_REDIRECT_SECONDS),
        cache: found.get_one::<u64>("cache").unwrap_or(0),
        log: text(alloc, found.get_str("log"))?,
        writes: found.get_flag("writes"),
        lists: text(alloc, found.get_str("lists"))?,
        history: text(alloc, found.get_str("history"))?,
    })
}

fn parse(alloc: Global, words: &[String]) -> Result<ProxyOptions, Error> {
    let matches = command(alloc)?.try_get_matches_from(words)?;
    Ok(proxy_options(alloc, &matches)?)
}

/// Reads the command line, and prints what `clap` has to say of it.
pub fn read_arguments(rt: &HostRuntime) -> Invocation {
    let Ok(words) = arguments_of(rt) else {
        let _ = eprintln!(rt;
            "error: a word of the command line is not UTF-8, or there is no memory for it"
        );
        return Invocation::Ended(2);
    };
    match parse(rt.alloc(), words.as_slice()) {
        Ok(found) => Invocation::Proxy(found),
        Err(error) => {
            let is_help = !error.use_stderr();
            match error.print(rt) {
                Err(_) if is_help => Invocation::Ended(1),
                _ => Invocation::Ended(usage_status(is_help)),
            }
        }
    }
}
