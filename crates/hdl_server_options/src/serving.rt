//! The options of `serve`.

use crate::argument_fault::ArgumentFault;
use crate::invocation::{
    BoundOption, ClusterOptions, LimitOptions, MonitoringOptions, ServeOptions,
};
use crate::values::{copy_of, table_file};
use clap::ArgMatches;
use std::alloc::{AllocError, Global};
use std::net::{IpAddr, Ipv4Addr, SocketAddr};

/// The number of octets after an option.
fn octets_after(found: &ArgMatches, option: &str) -> Option<usize> {
    let octets = found.get_one::<u64>(option)?;
    Some(usize::try_from(octets).unwrap_or(usize::MAX))
}

/// How long is served, and how long clients are waited for.
fn limits(found: &ArgMatches) -> LimitOptions {
    LimitOptions {
        turns: found.get_one::<u64>("turns"),
        idle_seconds: found.get_one::<u32>("idle"),
        amplify: found.get_one::<u32>("amplify"),
        crowd: found.get_one::<u32>("crowd"),
        reserve: octets_after(found, "reserve"),
    }
}

/// The address that a word spells.
fn address_of(word: &str) -> Option<IpAddr> {
    word.parse::<IpAddr>().ok()
}

/// Whether an address means another machine on each network, so that no port can be opened there without the network's name: fe80::/10.
fn is_link_local(address: &IpAddr) -> bool {
    match address {
        IpAddr::V4(_) => false,
        IpAddr::V6(address) => {
            let [first, second, ..] = address.octets();
            first == 0xfe && second >= 0x80 && second < 0xc0
        }
    }
}

/// The addresses after `--listen`, each of which has to be one that ports can be opened at, and another one; 127.0.0.1 where there is none.
pub fn addresses(alloc: Global, words: &[&str]) -> Result<Vec<IpAddr>, ArgumentFault> {
    let mut addresses = Vec::new(alloc);
    for word in words {
        let Some(address) = address_of(word) else {
            return Err(ArgumentFault::Address(String::from_str(alloc, word)?));
        };
        if is_link_local(&address) {
            return Err(ArgumentFault::LinkLocal(String::from_str(alloc, word)?));
        }
        if addresses.contains(&address) {
            return Err(ArgumentFault::AddressTwice(String::from_str(alloc, word)?));
        }
        addresses.push(address).map_err(AllocError::from)?;
    }
    if addresses.is_empty() {
        let loopback = IpAddr::V4(Ipv4Addr::LOCALHOST);
        addresses.push(loopback).map_err(AllocError::from)?;
    }
    Ok(addresses)
}

/// The number that a word spells in digits alone.
fn number_of(word: &str) -> Option<u64> {
    if word.starts_with('+') {
        return None;
    }
    word.parse::<u64>().ok()
}

/// The parts of a word after `--bound`: a publisher's name, and how many values and octets it may hold at most.
fn bound_parts(word: &str) -> Option<(&str, u64, u64)> {
    let (publisher, most) = word.split_once('=')?;
    let (values, octets) = most.split_once(',')?;
    Some((publisher, number_of(values)?, number_of(octets)?))
}

/// Whether one of the bounds is this publisher's.
fn is_bounded(bounds: &[BoundOption], publisher: &str) -> bool {
    bounds
        .iter()
        .any(|bound| bound.publisher.as_str() == publisher)
}

/// The bounds that the words spell, each of another publisher.
fn bound_options(alloc: Global, words: &[&str]) -> Result<Vec<BoundOption>, ArgumentFault> {
    let mut bounds = Vec::new(alloc);
    for word in words {
        let Some((publisher, values, octets)) = bound_parts(word) else {
            return Err(ArgumentFault::Bound(String::from_str(alloc, word)?));
        };
        if is_bounded(&bounds, publisher) {
            return Err(ArgumentFault::BoundTwice(String::from_str(alloc, word)?));
        }
        let publisher = String::from_str(alloc, publisher)?;
        let bound = BoundOption {
            publisher,
            values,
            octets,
        };
        bounds.push(bound).map_err(AllocError::from)?;
    }
    Ok(bounds)
}

/// The address of the status page, if one is named.
fn status_at(alloc: Global, found: &ArgMatches) -> Result<Option<SocketAddr>, ArgumentFault> {
    let Some(word) = found.get_str("status") else {
        return Ok(None);
    };
    match word.parse::<SocketAddr>() {
        Ok(at) => Ok(Some(at)),
        Err(_) => Err(ArgumentFault::Status(String::from_str(alloc, word)?)),
    }
}

/// The proxy that says whose its connections are.
fn proxied(alloc: Global, found: &ArgMatches) -> Result<Option<IpAddr>, ArgumentFault> {
    let Some(word) = found.get_str("proxied") else {
        return Ok(None);
    };
    match address_of(word) {
        Some(address) => Ok(Some(address)),
        None => Err(ArgumentFault::Proxied(String::from_str(alloc, word)?)),
    }
}

/// What the server tells of itself, and how it takes the word to end.
fn monitoring(alloc: Global, found: &ArgMatches) -> Result<MonitoringOptions, ArgumentFault> {
    let status = status_at(alloc, found)?;
    let proxied = proxied(alloc, found)?;
    let control = copy_of(alloc, found.get_str("control"))?;
    let log = copy_of(alloc, found.get_str("log"))?;
    let history = copy_of(alloc, found.get_str("history"))?;
    Ok(MonitoringOptions {
        log,
        history,
        status,
        control,
        proxied,
    })
}

/// The name of a cluster, if none is given.
const CLUSTER_NAME: &str = "handles";

/// Whether a word is `HOST:PORT` or `unix:PATH`.
fn is_member(word: &str) -> bool {
    if let Some(path) = word.strip_prefix("unix:") {
        return !path.is_empty();
    }
    match word.rsplit_once(':') {
        Some((host, port)) => {
            !host.is_empty() && !host.contains('/') && port.parse::<u16>().is_ok()
        }
        None => false,
    }
}

/// The members that a word spells, with commas between them.
fn members_of(alloc: Global, words: &str) -> Result<Vec<String>, ArgumentFault> {
    let mut members = Vec::new(alloc);
    for word in words.split(',') {
        if !is_member(word) {
            return Err(ArgumentFault::Member(String::from_str(alloc, word)?));
        }
        members
            .push(String::from_str(alloc, word)?)
            .map_err(AllocError::from)?;
    }
    Ok(members)
}

/// Whether a word can name a cluster: letters, digits and hyphens.
fn is_name(word: &str) -> bool {
    !word.is_empty()
        && word
            .bytes()
            .all(|octet| octet.is_ascii_alphanumeric() || octet == b'-')
}

/// Where the table is that other servers have too, if members are named.
pub(crate) fn cluster(
    alloc: Global,
    found: &ArgMatches,
) -> Result<Option<ClusterOptions>, ArgumentFault> {
    let Some(words) = found.get_str("cluster") else {
        return Ok(None);
    };
    let name = found.get_str("cluster-name").unwrap_or(CLUSTER_NAME);
    if !is_name(name) {
        return Err(ArgumentFault::ClusterName(String::from_str(alloc, name)?));
    }
    Ok(Some(ClusterOptions {
        members: members_of(alloc, words)?,
        name: String::from_str(alloc, name)?,
    }))
}

/// What is asked for by the words after `serve`.
pub fn serve_options(alloc: Global, found: &ArgMatches) -> Result<ServeOptions, ArgumentFault> {
    let addresses = addresses(alloc, found.get_strs("listen").unwrap_or(&[]))?;
    let monitoring = monitoring(alloc, found)?;
    let bounds = bound_options(alloc, found.get_strs("bound").unwrap_or(&[]))?;
    let table = table_file(alloc, found)?;
    let cluster = cluster(alloc, found)?;
    let text = copy_of(alloc, found.get_str("text"))?;
    Ok(ServeOptions {
        text,
        addresses,
        limits: limits(found),
        monitoring,
        bounds,
        takes_changes: !found.get_flag("read-only"),
        row_cache: octets_after(found, "row-cache"),
        table,
        cluster,
    })
}
