//! Servers, and the prefixes that they are named with.

ghost use Rattle.std.specs.Prelude.{◌≡◌, ◌↔◌, All, IsTrue, IfOk, string_bytes};
ghost use Rattle.std.specs.List.{before_first};
ghost use Rattle.hdl_routes.specs.Route.{IsPrefix, is_equals};

use crate::fault::RouteFault;
use hdl_limits::Octets;
use hdl_name::is_authority;
use std::alloc::{AllocError, Global};

/// The authority of administrative handles, which are of the prefix that they name.
const ADMIN_AUTHORITY: &str = "0.na";

/// A server: its place among those of the command line, whether it is a standby, which answers only if no other server does, where it listens, and the prefixes that it was
/// named with, in canonical form.
#[derive(Drop)]
pub struct Route {
    pub place: usize,
    pub is_standby: bool,
    /// `HOST:PORT`
    pub address: String,
    pub prefixes: Vec<Octets>,
}

fn is_prefix(text: &str) -> bool
    ensures { IsTrue result ↔ IsPrefix text.now }
{
    is_authority(text) && text != ADMIN_AUTHORITY
}

/// The prefix that a text is, in canonical form.
fn read_prefix(alloc: Global, text: &str) -> Result<Octets, RouteFault>
    ensures { IfOk result (λ prefix. IsPrefix prefix) }
{
    let lower = text.to_ascii_lowercase(alloc)?;
    if is_prefix(&lower) {
        Ok(Octets::new(lower.into_bytes()))
    } else {
        Err(RouteFault::NoPrefix)
    }
}

/// The prefixes of a list that commas divide, in canonical form.
fn read_prefixes(alloc: Global, list: &str) -> Result<Vec<Octets>, RouteFault>
    ensures { IfOk result (λ prefixes. All IsPrefix prefixes.items) }
{
    let mut prefixes = Vec::new(alloc);
    for part in list.split(',') {
        let prefix = read_prefix(alloc, part)?;
        match prefixes.push(prefix) {
            Ok(()) => {}
            Err(_) => return Err(RouteFault::Memory),
        }
    }
    Ok(prefixes)
}

/// What stands before the first `=` of a word, and what follows it, if it has one.
fn parts_of(word: &str) -> (&str, Option<&str>)
    ensures { result.0.now ≡ before_first is_equals word.now }
{
    match word.split_once('=') {
        Some((address, list)) => (address, Some(list)),
        None => (word, None),
    }
}

/// The server that a word names, `HOST:PORT`, or `HOST:PORT=PREFIX,..` with the prefixes that it is asked for. Whether the address leads anywhere is
/// seen when it is connected to.
pub fn read_route(
    alloc: Global,
    place: usize,
    is_standby: bool,
    word: &str,
) -> Result<Route, RouteFault>
    ensures place { IfOk result (λ route. route.place ≡ place) }
    ensures standby { IfOk result (λ route. route.is_standby ≡ is_standby) }
    ensures address { IfOk result (λ route. string_bytes route.address ≡ before_first is_equals word.now) }
    ensures prefixes { IfOk result (λ route. All IsPrefix route.prefixes.items) }
{
    let (address, list) = parts_of(word);
    if address.is_empty() {
        return Err(RouteFault::NoAddress);
    }
    let prefixes = match list {
        Some(list) => read_prefixes(alloc, list)?,
        None => Vec::new(alloc),
    };
    Ok(Route {
        place,
        is_standby,
        address: String::from_str(alloc, address)?,
        prefixes,
    })
}
