//! Fresh secrets, and the tenants text of new publishers, with values in words.

use hdl_name::is_authority;
use hdl_value::Wire;
use std::alloc::{AllocError, AllocFailed, AllocGlobal, Global};
use std::io;
use std::random::RandomSource;
use thiserror::Error;

/// How many random octets a secret is made of.
const SECRET_LEN: usize = 32;

/// The most lanes that all publishers have together, and the most that one gets.
const LANES: usize = 64;

const LANES_OF_ONE: usize = 8;

/// The port of the first publisher; each other one's is one more.
const FIRST_PORT: usize = 2641;

/// The longest name of a publisher.
const NAME_MAX: usize = 32;

/// Why no text is written. Prefixes are counted from 1.
#[derive(Clone, Copy, Debug, Error)]
pub enum InitFault {
    #[error("the prefix at place {0} has a space or a comma: write each prefix as a word of its own")]
    Separator(usize),
    #[error("the prefix at place {0} isn't a naming authority: write one such as 10 or 10.5072, without a slash, and not 0.NA")]
    Prefix(usize),
    #[error("the prefix at place {0} is given twice: name each prefix once; capital and small letters are the same")]
    Twice(usize),
    #[error("more than 32 prefixes: a server has 64 lanes, and each publisher needs two; make a text for each of several servers")]
    TooMany,
    #[error("the system gives no random octets")]
    Random,
    #[error("no memory")]
    Memory,
}

impl From<AllocError> for InitFault {
    fn from(_: AllocError) -> InitFault {
        InitFault::Memory
    }
}

impl<T: Drop> From<AllocFailed<T>> for InitFault {
    fn from(_: AllocFailed<T>) -> InitFault {
        InitFault::Memory
    }
}

impl From<io::Error> for InitFault {
    fn from(_: io::Error) -> InitFault {
        InitFault::Random
    }
}

/// A fresh secret: 32 octets of the system's random source in hexadecimal digits. The 64 digits are the secret, as text: a HS_SECKEY value
/// has them as its data, and a client proves them.
pub fn random_secret<R: RandomSource + AllocGlobal>(rt: &R) -> Result<String, InitFault> {
    let mut octets = [0u8; SECRET_LEN];
    rt.fill_bytes(&mut octets)?;
    Ok(hex::encode(rt.alloc(), octets.as_slice())?)
}

/// Whether a character may stand in the name of a publisher.
fn is_plain(letter: char) -> bool {
    letter.is_ascii_lowercase() || letter.is_ascii_digit() || letter == '-'
}

/// The name of a publisher: its prefix with `-` for each dot, or, where that is no name, its number.
fn publisher_name(alloc: Global, prefix: &str, number: usize) -> Result<String, AllocError> {
    let mut name = String::new(alloc);
    for letter in prefix.chars() {
        name.push(if letter == '.' { '-' } else { letter })?;
    }
    if name.len() <= NAME_MAX && name.chars().all(is_plain) {
        return Ok(name);
    }
    format!(in alloc; "publisher-{number}")
}

/// The prefixes as a tenants text has them, in lower case.
fn prefixes_of(alloc: Global, words: &[String]) -> Result<Vec<String>, InitFault> {
    let mut prefixes: Vec<String> = Vec::new(alloc);
    let mut number = 0usize;
    for word in words {
        number = number.saturating_add(1);
        let prefix = word.to_ascii_lowercase(alloc)?;
        if prefix.contains(' ') || prefix.contains(',') {
            return Err(InitFault::Separator(number));
        }
        if !is_authority(&prefix) || prefix.as_str() == "0.na" {
            return Err(InitFault::Prefix(number));
        }
        if prefixes
            .iter()
            .any(|other| other.as_str() == prefix.as_str())
        {
            return Err(InitFault::Twice(number));
        }
        prefixes.push(prefix)?;
    }
    Ok(prefixes)
}

/// The word behind a publisher's port, with a space before it: none for our profile's layout of values.
fn layout_word(wire: Wire) -> &'static str {
    match wire {
        Wire::Profile => "",
        Wire::HandleNet => " handle-net",
    }
}

/// The lines of a publisher and of its prefix.
fn publisher_lines(
    alloc: Global,
    wire: Wire,
    prefix: &str,
    number: usize,
    lanes: usize,
) -> Result<String, AllocError> {
    let name = publisher_name(alloc, prefix, number)?;
    let port = FIRST_PORT.saturating_add(number).saturating_sub(1);
    let layout = layout_word(wire);
    format!(in alloc; "publisher {name} {lanes} {port}{layout}\nprefix {prefix} {name}\n")
}

/// Adds these lines of a publisher and its prefix, its administrator and that one's key, which has this secret.
fn push_lines(
    alloc: Global,
    text: &mut String,
    publisher: &str,
    prefix: &str,
    secret: &str,
) -> Result<(), AllocError> {
    let lines = format!(in alloc;
        "\n\
         {publisher}\
         value 0.NA/{prefix} 100 HS_ADMIN 86400 1110 ADMIN 300:111111111111:0.NA/{prefix}\n\
         value 0.NA/{prefix} 300 HS_SECKEY 86400 1100 UTF8 {secret}\n"
    )?;
    text.push_str(&lines)
}

/// Adds a publisher with one prefix, and an administrator whose secret is fresh.
fn push_publisher<R: RandomSource + AllocGlobal>(
    rt: &R,
    text: &mut String,
    wire: Wire,
    prefix: &str,
    number: usize,
    lanes: usize,
) -> Result<(), InitFault> {
    let secret = random_secret(rt)?;
    let publisher = publisher_lines(rt.alloc(), wire, prefix, number, lanes)?;
    push_lines(rt.alloc(), text, &publisher, prefix, &secret)?;
    Ok(())
}

/// What stands before the publishers.
const HEAD: &str = "\
    # A tenants text. hdl tenants < WORDS > publishers.tenants writes values in words as digits; then: handled serve < publishers.tenants.\n\
    # It holds secrets (the values of type HS_SECKEY): only the user who starts the server may read it.\n\
    #\n\
    # publisher NAME LANES PORT: the last lane serves datagrams. With four lanes or more, the one before it serves many connections; each other lane serves one.\n\
    # prefix PREFIX NAME: who answers for the handles of the prefix.\n\
    # value 0.NA/PREFIX ..: its administrator, with all permissions, and the administrator's key. The holder of the secret can create handles.\n";

/// What stands behind that, where ports have the layout of values of the Handle.Net software.
const HANDLE_NET_HEAD: &str = "\
    # handle-net after the port: values stand there as the Handle.Net software lays them out. hdl asks such a port with --handle-net.\n";

/// The tenants text, with values in words, of a publisher for each of these prefixes, with an administrator who has a fresh secret. Values stand
/// on their ports by this layout.
pub fn write_initial_tenants<R: RandomSource + AllocGlobal>(
    rt: &R,
    wire: Wire,
    words: &[String],
) -> Result<String, InitFault> {
    let alloc = rt.alloc();
    let prefixes = prefixes_of(alloc, words)?;
    let lanes = LANES.checked_div(prefixes.len()).unwrap_or(LANES_OF_ONE);
    if lanes < 2 {
        return Err(InitFault::TooMany);
    }
    let mut text = String::from_str(alloc, HEAD)?;
    if wire == Wire::HandleNet {
        text.push_str(HANDLE_NET_HEAD)?;
    }
    let mut number = 0usize;
    for prefix in &prefixes {
        number = number.saturating_add(1);
        push_publisher(rt, &mut text, wire, prefix, number, lanes.min(LANES_OF_ONE))?;
    }
    Ok(text)
}
