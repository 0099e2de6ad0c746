//! Calls on the places of one lane. Each leaves every other lane as it was.

ghost use Rattle.std.specs.Prelude.{◌≡◌, ◌<◌, ◌++◌, ◌∷◌, [], length, find, filter, not, option_copied};
ghost use Rattle.hdl_slots.specs.Lanes.{next_after, last_eight, without, challenge_of, is_of, has_number};
ghost use Rattle.hdl_slots.specs.Places.{places_of, contents, passes, IsLane, IsFirst, Becomes};

use crate::cells::Cells;
use crate::pending::{Challenge, Pending};
use hdl_limits::{CHALLENGES_MAX, LANES};

/// The pending challenge of this peer and number.
pub(crate) fn find(cells: &Cells, lane: usize, peer: u16, number: u32) -> Option<&Pending>
    requires lane { lane < LANES }
    requires places { length (places_of cells.now lane) ≡ CHALLENGES_MAX }
    ensures { option_copied result ≡ challenge_of (contents (places_of cells.now lane)) peer number }
{
    let place = place_of(cells, lane, peer, number)?;
    let challenge = cells.at(lane, place)?;
    Some(&challenge.pending)
}

/// Removes and returns the pending challenge of this peer and number.
pub(crate) fn take(cells: &mut Cells, lane: usize, peer: u16, number: u32) -> Option<Pending>
    requires lane { lane < LANES }
    requires places { IsLane (places_of cells.old lane) }
    ensures found { result ≡ challenge_of (contents (places_of cells.old lane)) peer number }
    ensures becomes { Becomes cells.old cells.new lane (filter (λ c. not (is_of peer number c)) (contents (places_of cells.old lane))) }
{
    let place = place_of(cells, lane, peer, number)?;
    let challenge = cells.replace(lane, place, None)?;
    Some(challenge.pending)
}

/// Drops the challenge of this number, if there is one.
pub(crate) fn forget(cells: &mut Cells, lane: usize, number: u32)
    requires lane { lane < LANES }
    requires places { IsLane (places_of cells.old lane) }
    ensures { Becomes cells.old cells.new lane (without number (contents (places_of cells.old lane))) }
{
    if let Some(place) = place_of_number(cells, lane, number) {
        cells.replace(lane, place, None);
    }
}

/// Inserts a challenge as the newest. Each older one moves one place to the front, until an empty place takes one. If
/// no place is empty, the oldest is dropped.
pub(crate) fn push(cells: &mut Cells, lane: usize, challenge: Challenge)
    requires lane { lane < LANES }
    requires places { length (places_of cells.old lane) ≡ CHALLENGES_MAX }
    ensures { Becomes cells.old cells.new lane (last_eight (contents (places_of cells.old lane) ++ (challenge ∷ []))) }
{
    let mut moved = Some(challenge);
    let mut place = CHALLENGES_MAX;
    while place > 0 && moved.is_some() {
        place -= 1;
        moved = cells.replace(lane, place, moved);
    }
}

pub(crate) fn clear(cells: &mut Cells, lane: usize)
    requires lane { lane < LANES }
    requires places { length (places_of cells.old lane) ≡ CHALLENGES_MAX }
    ensures { Becomes cells.old cells.new lane [] }
{
    for place in 0..CHALLENGES_MAX {
        cells.replace(lane, place, None);
    }
}

pub(crate) fn next_after(number: u32) -> u32
    ensures { result ≡ next_after number }
{
    if number == u32::MAX { 1 } else { number + 1 }
}

/// The place of the challenge of this peer and number.
fn place_of(cells: &Cells, lane: usize, peer: u16, number: u32) -> Option<usize>
    requires lane { lane < LANES }
    requires places { length (places_of cells.now lane) ≡ CHALLENGES_MAX }
    ensures { IsFirst (is_of peer number) (places_of cells.now lane) result }
{
    for place in 0..CHALLENGES_MAX {
        if is_of(cells.at(lane, place), peer, number) {
            return Some(place);
        }
    }
    None
}

/// The place of the challenge of this number.
fn place_of_number(cells: &Cells, lane: usize, number: u32) -> Option<usize>
    requires lane { lane < LANES }
    requires places { length (places_of cells.now lane) ≡ CHALLENGES_MAX }
    ensures { IsFirst (has_number number) (places_of cells.now lane) result }
{
    for place in 0..CHALLENGES_MAX {
        if has_number(cells.at(lane, place), number) {
            return Some(place);
        }
    }
    None
}

fn is_of(found: Option<&Challenge>, peer: u16, number: u32) -> bool
    ensures { result ≡ passes (is_of peer number) (option_copied found.entry) }
{
    match found {
        Some(challenge) => challenge.pending.peer == peer && challenge.number == number,
        None => false,
    }
}

fn has_number(found: Option<&Challenge>, number: u32) -> bool
    ensures { result ≡ passes (has_number number) (option_copied found.entry) }
{
    match found {
        Some(challenge) => challenge.number == number,
        None => false,
    }
}
