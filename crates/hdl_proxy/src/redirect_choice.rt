//! Where a handle's own address leads.

ghost use Rattle.std.specs.Prelude.{◌≡◌, IfOk, Some};
ghost use Rattle.hdl_proxy.specs.Answer.{IsWayAmong, IsWayBy, IsWayFrom, IsWayOf, IsWayToMeant, note_of};
ghost use Rattle.hdl_proxy.specs.Url.{extend};

use crate::choice::{first_place, first_url};
use crate::link::Link;
use crate::locations::{Location, choose, read_locations};
use crate::note::Note;
use crate::url::extend;
use hdl_value::Value;
use std::alloc::{AllocError, Global};

/// The way to a URL with this appended.
fn way_beyond(alloc: Global, url: &[u8], append: &[u8]) -> Result<Option<Link>, AllocError>
    ensures { IfOk result (IsWayToMeant (extend url.now append.now)) }
{
    match extend(alloc, url, append)? {
        Some(whole) => Link::of_url(alloc, &whole),
        None => Ok(None),
    }
}

/// What a way is chosen by: what is put after a URL, which location is asked for, and any number, by which one of several is chosen.
#[derive(Clone, Copy)]
pub(crate) struct RedirectRequest<'a> {
    pub(crate) append: &'a [u8],
    pub(crate) locatt: &'a str,
    pub(crate) chance: u64,
}

/// Where a handle's own address leads, and what is wrong where that is nowhere.
#[derive(Drop)]
pub(crate) struct RedirectChoice {
    pub(crate) to: Option<Link>,
    pub(crate) wrong: Note,
}

/// The way to a URL with this appended, and this note where there is none.
fn way_or(
    alloc: Global,
    url: &[u8],
    append: &[u8],
    wrong: Note,
) -> Result<RedirectChoice, AllocError>
    ensures { IfOk result (λ way. IsWayToMeant (extend url.now append.now) way.to × (way.wrong ≡ note_of wrong way.to)) }
{
    match way_beyond(alloc, url, append)? {
        Some(link) => Ok(RedirectChoice {
            to: Some(link),
            wrong: Note::Nothing,
        }),
        None => Ok(RedirectChoice { to: None, wrong }),
    }
}

/// The way to the first URL of these values with this appended.
fn way_to_url(alloc: Global, values: &[Value], append: &[u8]) -> Result<RedirectChoice, AllocError>
    ensures { IfOk result (λ way. IsWayOf values.now append.now way.to way.wrong) }
{
    match first_url(values) {
        Some(value) => way_or(alloc, value.bytes.as_slice(), append, Note::UrlUnfollowed),
        None => Ok(RedirectChoice {
            to: None,
            wrong: Note::NoUrl,
        }),
    }
}

/// The way to one of these locations; the way to a URL where none of them is chosen.
fn redirect_among(
    alloc: Global,
    locations: &[Location],
    values: &[Value],
    wish: &RedirectRequest<'_>,
) -> Result<RedirectChoice, AllocError>
    ensures { IfOk result (λ way. IsWayAmong locations.now values.now wish.now.append.now way.to way.wrong) }
{
    match choose(locations, wish.chance) {
        Some(location) => way_or(alloc, &location.href, wish.append, Note::Unfollowed),
        None => way_to_url(alloc, values, wish.append),
    }
}

/// The way to one of the locations of this value, where it can be read.
fn redirect_by(
    alloc: Global,
    place: &Value,
    values: &[Value],
    wish: &RedirectRequest<'_>,
) -> Result<RedirectChoice, AllocError>
    ensures { IfOk result (λ way. IsWayBy (Some place.now) values.now wish.now.append.now wish.now.locatt.now way.to way.wrong) }
{
    match read_locations(alloc, place.bytes.as_slice(), wish.locatt.as_bytes())? {
        Some(locations) => redirect_among(alloc, &locations, values, wish),
        None => Ok(RedirectChoice {
            to: None,
            wrong: Note::Unread,
        }),
    }
}

/// Where a handle's own address leads: to one of its locations, or where it has none to its first URL.
pub(crate) fn redirect_from(
    alloc: Global,
    values: &[Value],
    wish: &RedirectRequest<'_>,
) -> Result<RedirectChoice, AllocError>
    ensures { IfOk result (λ way. IsWayFrom values.now wish.now.append.now wish.now.locatt.now way.to way.wrong) }
{
    match first_place(values) {
        Some(place) => redirect_by(alloc, place, values, wish),
        None => way_to_url(alloc, values, wish.append),
    }
}
