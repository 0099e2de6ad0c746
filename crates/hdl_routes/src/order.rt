//! Which servers to ask for a handle.

ghost use Rattle.std.specs.Prelude.{◌≡◌, IfOk, filter, not};
ghost use Rattle.hdl_routes.specs.Order.{has, is_open, is_named, is_asked, servers_for, standbys_for, is_known, known_first, servers_to_ask, servers_to_change};

use crate::route::Route;
use std::alloc::{AllocError, Global};

/// Whether the server was named with this prefix.
fn has(route: &Route, prefix: &[u8]) -> bool
    ensures { result ≡ has prefix.now route.now }
{
    route.prefixes.iter().any(|own| own.as_slice() == prefix)
}

/// Whether it was named without prefixes.
fn is_open(route: &Route) -> bool
    ensures { result ≡ is_open route.now }
{
    route.prefixes.is_empty()
}

/// Whether a server was named with this prefix.
fn is_named(routes: &[Route], prefix: &[u8]) -> bool
    ensures { result ≡ is_named prefix.now routes.now }
{
    routes.iter().any(|route| has(route, prefix))
}

/// Whether this server is asked for handles of the prefix, by whether one was named with it.
fn is_asked(route: &Route, prefix: &[u8], is_named: bool) -> bool
    ensures { result ≡ is_asked prefix.now is_named route.now }
{
    if is_named {
        has(route, prefix)
    } else {
        is_open(route)
    }
}

/// Whether this is the place that is known to have the prefix, if one is.
fn is_known(known: Option<usize>, place: usize) -> bool
    ensures { result ≡ is_known known place }
{
    known == Some(place)
}

/// The place that is known to have the prefix, if it is among these.
fn known_among(
    alloc: Global,
    places: &[usize],
    known: Option<usize>,
) -> Result<Vec<usize>, AllocError>
    ensures { IfOk result (λ chosen. chosen.items ≡ filter (is_known known) places.now) }
{
    places
        .iter()
        .copied()
        .filter(|place| is_known(known, *place))
        .collect(alloc)
}

/// Those that aren't known to have the prefix.
fn others_among(
    alloc: Global,
    places: &[usize],
    known: Option<usize>,
) -> Result<Vec<usize>, AllocError>
    ensures { IfOk result (λ others. others.items ≡ filter (λ place. not (is_known known place)) places.now) }
{
    places
        .iter()
        .copied()
        .filter(|place| !is_known(known, *place))
        .collect(alloc)
}

/// The same places, the one that is known to have the prefix before the others.
fn known_first(
    alloc: Global,
    places: &[usize],
    known: Option<usize>,
) -> Result<Vec<usize>, AllocError>
    ensures { IfOk result (λ turn. turn.items ≡ known_first known places.now) }
{
    let mut turn = known_among(alloc, places, known)?;
    let others = others_among(alloc, places, known)?;
    turn.extend_from_slice(&others)?;
    Ok(turn)
}

/// The places of the servers that are asked for handles of this prefix, without standbys, in the order of the command line.
fn servers_for(alloc: Global, routes: &[Route], prefix: &[u8]) -> Result<Vec<usize>, AllocError>
    ensures { IfOk result (λ places. places.items ≡ servers_for prefix.now routes.now) }
{
    let named = is_named(routes, prefix);
    let places = routes
        .iter()
        .filter(|route| is_asked(route, prefix, named) && !route.is_standby)
        .map(|route| route.place)
        .collect(alloc)?;
    Ok(places)
}

/// The places of the standbys that are asked for handles of this prefix, in the order of the command line.
fn standbys_for(alloc: Global, routes: &[Route], prefix: &[u8]) -> Result<Vec<usize>, AllocError>
    ensures { IfOk result (λ places. places.items ≡ standbys_for prefix.now routes.now) }
{
    let named = is_named(routes, prefix);
    let places = routes
        .iter()
        .filter(|route| is_asked(route, prefix, named) && route.is_standby)
        .map(|route| route.place)
        .collect(alloc)?;
    Ok(places)
}

/// The places of the servers that are asked for handles of this prefix, in turn: of those that were named with it, or if none was of those that were
/// named without prefixes, in the order of the command line. The one that is known to have the prefix comes first, unless it is a standby; standbys come last.
pub fn servers_to_ask(
    alloc: Global,
    routes: &[Route],
    prefix: &[u8],
    known: Option<usize>,
) -> Result<Vec<usize>, AllocError>
    ensures { IfOk result (λ turn. turn.items ≡ servers_to_ask known prefix.now routes.now) }
{
    let servers = servers_for(alloc, routes, prefix)?;
    let mut turn = known_first(alloc, &servers, known)?;
    let standbys = standbys_for(alloc, routes, prefix)?;
    turn.extend_from_slice(&standbys)?;
    Ok(turn)
}

/// The places of the servers to which changes of handles of this prefix go, in the order of the command line: the first one alone of those that were named
/// with it, and if none was those that were named without prefixes, of which the first that doesn't refer elsewhere is the only one. No change goes to a standby.
pub fn servers_to_change(
    alloc: Global,
    routes: &[Route],
    prefix: &[u8],
) -> Result<Vec<usize>, AllocError>
    ensures { IfOk result (λ places. places.items ≡ servers_to_change prefix.now routes.now) }
{
    let mut places = servers_for(alloc, routes, prefix)?;
    if is_named(routes, prefix) {
        places.truncate(1);
    }
    Ok(places)
}
