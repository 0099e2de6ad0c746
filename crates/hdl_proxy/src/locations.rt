//! Where a handle's thing is, by a value of type 10320/loc: one of several locations is chosen.

ghost use Rattle.std.specs.Prelude.{◌≡◌, ◌++◌, List, ℕ, IfOk, IfSome, option_copied};
ghost use Rattle.std.specs.Str.{bytes_eq};
ghost use Rattle.std.specs.Str.Parse.{IsNumeral, digits_value};
ghost use Rattle.hdl_proxy.specs.Locations.{AreLocations, IsChoice, IsChosen, IsDrawn, IsEnd, IsInside, IsLocation, IsLocationOf, IsWeight, SaysLocations, has_wanted, is_wanted, weight_for, wanted_text};

use crate::xml::{Attribute, after, attribute_value, cut_between, cut_blank, read_tag};
use std::alloc::{AllocError, Global};

/// The most locations of a value, and one more.
const LOCATIONS_MOST: usize = 256;

/// One of the places where a thing is.
#[derive(Drop)]
pub(crate) struct Location {
    pub(crate) href: Vec<u8>,
    /// How often it is chosen, compared with the others' weights.
    pub(crate) weight: u32,
    /// Whether it has the attribute that the address asks for.
    pub(crate) is_wanted: bool,
}

/// The number that decimal digits write. None where a text is anything else, or no `u32` is so large.
fn decimal(text: &[u8]) -> Option<u32>
    ensures { IfSome result (λ number. IsNumeral 10 text.now × (number ≡ digits_value 10 text.now)) }
{
    let Ok(text) = str::from_utf8(text) else {
        return None;
    };
    if text.starts_with('+') {
        return None;
    }
    match text.parse::<u32>() {
        Ok(number) => Some(number),
        Err(_) => None,
    }
}

/// How much a location weighs whose attribute says this.
fn weight_of(said: Option<&[u8]>) -> Option<u32>
    ensures { IfSome result (IsWeight (option_copied said.entry)) }
{
    match said {
        Some(digits) => decimal(digits),
        None => Some(1),
    }
}

/// Whether an attribute's name, a colon, and what it says are this text.
fn is_asked(one: &Attribute, locatt: &[u8]) -> bool
    ensures { result ≡ bytes_eq (wanted_text one.now) locatt.now }
{
    let Some(rest) = after(locatt, &one.name) else {
        return false;
    };
    match after(rest, b":") {
        Some(text) => text == one.text.as_slice(),
        None => false,
    }
}

/// Whether there is the attribute that `locatt` asks for, as `NAME:VALUE`.
fn is_wanted(attributes: &[Attribute], locatt: &[u8]) -> bool
    ensures { result ≡ is_wanted locatt.now attributes.now }
{
    attributes.iter().any(|one| is_asked(one, locatt))
}

/// The location of a tag. None where it has no `href`, or its weight is no number.
fn location_of(
    alloc: Global,
    attributes: &[Attribute],
    locatt: &[u8],
) -> Result<Option<Location>, AllocError>
    ensures { IfOk result (λ read. IfSome read (IsLocationOf locatt.now attributes.now)) }
{
    let Some(href) = attribute_value(attributes, b"href") else {
        return Ok(None);
    };
    let Some(weight) = weight_of(attribute_value(attributes, b"weight")) else {
        return Ok(None);
    };
    Ok(Some(Location {
        href: Vec::from_slice(alloc, href)?,
        weight,
        is_wanted: is_wanted(attributes, locatt),
    }))
}

/// What follows the end of a location, in which nothing stands.
fn cut_end(text: &[u8]) -> Option<&[u8]>
    ensures { IfSome result (λ rest. (end : List ℕ) × (IsEnd end × (text.now ≡ end ++ rest.now))) }
{
    if let Some(rest) = after(text, b"/>") {
        return Some(rest);
    }
    let inside = after(text, b">")?;
    let (_, rest) = cut_blank(inside);
    let rest = after(rest, b"</location>")?;
    Some(rest)
}

/// The location that is next, and what follows it. None where there is none that can be read.
fn read_location<'a>(
    alloc: Global,
    text: &'a [u8],
    locatt: &[u8],
) -> Result<Option<(Location, &'a [u8])>, AllocError>
    ensures { IfOk result (λ read. IfSome read (λ found. (piece : List ℕ) × (IsLocation locatt.now piece found.0 × (text.now ≡ piece ++ found.1.now)))) }
{
    let Some((attributes, rest)) = read_tag(alloc, cut_between(text), b"<location")? else {
        return Ok(None);
    };
    let Some(behind) = cut_end(rest) else {
        return Ok(None);
    };
    match location_of(alloc, &attributes, locatt)? {
        Some(location) => Ok(Some((location, behind))),
        None => Ok(None),
    }
}

/// The locations up to the tag that ends them, and what follows that. None where they can't be read.
fn read_each<'a>(
    alloc: Global,
    text: &'a [u8],
    locatt: &[u8],
) -> Result<Option<(Vec<Location>, &'a [u8])>, AllocError>
    ensures { IfOk result (λ read. IfSome read (λ found. (inside : List ℕ) × (AreLocations locatt.now inside found.0.items × (text.now ≡ inside ++ found.1.now)))) }
{
    let mut locations = Vec::new(alloc);
    let mut rest = text;
    for _ in 0..LOCATIONS_MOST {
        if let Some(behind) = after(cut_between(rest), b"</locations>") {
            return Ok(Some((locations, behind)));
        }
        let Some((location, behind)) = read_location(alloc, rest, locatt)? else {
            return Ok(None);
        };
        locations.push(location)?;
        rest = behind;
    }
    Ok(None)
}

/// The locations after the attributes of the front tag, and what follows them.
fn read_inside<'a>(
    alloc: Global,
    text: &'a [u8],
    locatt: &[u8],
) -> Result<Option<(Vec<Location>, &'a [u8])>, AllocError>
    ensures { IfOk result (λ read. IfSome read (λ found. (inside : List ℕ) × (IsInside locatt.now inside found.0.items × (text.now ≡ inside ++ found.1.now)))) }
{
    if let Some(rest) = after(text, b"/>") {
        return Ok(Some((Vec::new(alloc), rest)));
    }
    let Some(rest) = after(text, b">") else {
        return Ok(None);
    };
    let Some((locations, behind)) = read_each(alloc, rest, locatt)? else {
        return Ok(None);
    };
    Ok(Some((locations, behind)))
}

/// The locations that a value says: `<locations>` with `<location href=".." weight=".."/>` in it, and comments. None where it can't be read.
pub(crate) fn read_locations(
    alloc: Global,
    value: &[u8],
    locatt: &[u8],
) -> Result<Option<Vec<Location>>, AllocError>
    ensures { IfOk result (λ read. IfSome read (λ locations. SaysLocations locatt.now value.now locations.items)) }
{
    if str::from_utf8(value).is_err() {
        return Ok(None);
    }
    let (_, rest) = cut_blank(value);
    let Some((_attributes, rest)) = read_tag(alloc, rest, b"<locations")? else {
        return Ok(None);
    };
    let Some((locations, rest)) = read_inside(alloc, rest, locatt)? else {
        return Ok(None);
    };
    let (_, rest) = cut_blank(rest);
    if rest.is_empty() {
        Ok(Some(locations))
    } else {
        Ok(None)
    }
}

/// How much a location weighs, where only those with the attribute that is asked for are chosen, or all are.
fn weight_for(location: &Location, wanted: bool) -> u64
    ensures { result ≡ weight_for wanted location.now }
{
    if !wanted {
        u64::from(location.weight)
    } else if location.is_wanted {
        u64::from(location.weight.max(1))
    } else {
        0
    }
}

fn total(locations: &[Location], wanted: bool) -> u64 {
    let mut total = 0u64;
    for location in locations {
        total = total.saturating_add(weight_for(location, wanted));
    }
    total
}

/// The location at this place, where each takes as many places as it weighs.
fn at(locations: &[Location], wanted: bool, place: u64) -> Option<&Location>
    ensures { IfSome result (IsChosen locations.now wanted) }
{
    let mut left = place;
    for location in locations {
        let weight = weight_for(location, wanted);
        if left < weight {
            return Some(location);
        }
        left -= weight;
    }
    None
}

/// The first location that weighs something.
fn first_weighing(locations: &[Location], wanted: bool) -> Option<&Location>
    ensures { IsDrawn locations.now wanted result }
{
    for location in locations {
        if weight_for(location, wanted) > 0 {
            return Some(location);
        }
    }
    None
}

/// Whether one of them has the attribute that is asked for.
fn has_wanted(locations: &[Location]) -> bool
    ensures { result ≡ has_wanted locations.now }
{
    locations.iter().any(|one| one.is_wanted)
}

/// The location that this chance gives, where it gives one.
fn draw(locations: &[Location], wanted: bool, chance: u64) -> Option<&Location>
    ensures { IfSome result (IsChosen locations.now wanted) }
{
    let place = chance.checked_rem(total(locations, wanted))?;
    at(locations, wanted, place)
}

/// One of the locations by weight, among those with the attribute that is asked for, or where there is none among all.
pub(crate) fn choose(locations: &[Location], chance: u64) -> Option<&Location>
    ensures choice { IsChoice locations.now result }
{
    let wanted = has_wanted(locations);
    match draw(locations, wanted, chance) {
        Some(location) => Some(location),
        None => first_weighing(locations, wanted),
    }
}
