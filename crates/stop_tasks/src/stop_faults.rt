//! The tests of a load over several sectors, in the order of its faults.

ghost use Rattle.std.specs.Prelude.{◌≡◌, ◌+◌, ◌<◌, ◌≤◌, ◌↔◌, ℕ, length, drop, All, IfNone, IfSome, IsTrue};
ghost use Rattle.hold_parts.specs.declared.parts.Item.{Item};
ghost use Rattle.stop_tasks.specs.Stops.{aboard, stops_of};
ghost use Rattle.stop_tasks.specs.StopFaults.{HasSectors, HasSameHold, HasLeaves, HasItemsAboard, ArePlaces, IsPair, IsFirstWithout, AtEach, AreLawfulStops, IsStopFault};

use crate::fault::StopFault;
use hold_limits::{Hold, Task};
use hold_parts::{Item, Same};

fn are_sectors_few(sectors: &[Task]) -> bool
    ensures { IsTrue result ↔ HasSectors sectors.now }
{
    sectors.len() == 2 || sectors.len() == 3
}

fn has_same_hold(sectors: &[Task], place: usize) -> bool
    requires { place < length sectors.now }
    ensures { IsTrue result ↔ HasSameHold sectors.now place }
{
    sectors[place].hold().same(sectors[0].hold())
}

/// The place of the first sector with another hold than the first one.
fn other_hold(sectors: &[Task]) -> Option<usize>
    ensures all { IfNone result (AtEach (HasSameHold sectors.now) (length sectors.now)) }
    ensures first { IfSome result (IsFirstWithout (HasSameHold sectors.now) (length sectors.now)) }
{
    for place in 0..sectors.len() {
        if !has_same_hold(sectors, place) {
            return Some(place);
        }
    }
    None
}

fn are_known(leaves: &[u8], most: usize) -> bool
    ensures { IsTrue result ↔ All (λ number. (1 ≤ number) × (number ≤ most)) leaves.now }
{
    leaves
        .iter()
        .all(|number| 1 <= *number && *number as usize <= most)
}

fn are_leaves_right(sectors: &[Task], leaves: &[u8]) -> bool
    requires { 0 < length sectors.now }
    ensures { IsTrue result ↔ HasLeaves sectors.now leaves.now }
{
    leaves.len() == sectors[0].items().len() && are_known(leaves, sectors.len())
}

/// Whether these containers are those of the offer that are aboard on the sector with this number.
fn are_aboard(items: &[Item], offer: &[Item], leaves: &[u8], number: usize) -> bool
    requires { length leaves.now ≡ length offer.now }
    ensures { IsTrue result ↔ (items.now ≡ aboard offer.now leaves.now number) }
{
    let mut next = 0;
    for place in 0..offer.len() {
        if number <= leaves[place] as usize {
            if next == items.len() || !items[next].is_same(&offer[place]) {
                return false;
            }
            next += 1;
        }
    }
    next == items.len()
}

fn has_items_aboard(sectors: &[Task], leaves: &[u8], place: usize) -> bool
    requires within { place < length sectors.now }
    requires leaves { HasLeaves sectors.now leaves.now }
    ensures { IsTrue result ↔ HasItemsAboard sectors.now leaves.now place }
{
    are_aboard(
        sectors[place].items(),
        sectors[0].items(),
        leaves,
        place + 1,
    )
}

/// The place of the first sector with other containers than those aboard.
fn other_items(sectors: &[Task], leaves: &[u8]) -> Option<usize>
    requires { HasLeaves sectors.now leaves.now }
    ensures all { IfNone result (AtEach (HasItemsAboard sectors.now leaves.now) (length sectors.now)) }
    ensures first { IfSome result (IsFirstWithout (HasItemsAboard sectors.now leaves.now) (length sectors.now)) }
{
    for place in 0..sectors.len() {
        if !has_items_aboard(sectors, leaves, place) {
            return Some(place);
        }
    }
    None
}

fn are_places(hold: &Hold, pair: (u8, u8)) -> bool
    ensures { IsTrue result ↔ ArePlaces hold.now pair }
{
    pair.0 != pair.1 && pair.0 < hold.position_count() && pair.1 < hold.position_count()
}

fn is_pair(sectors: &[Task], behind: &[(u8, u8)], place: usize) -> bool
    requires first { 0 < length sectors.now }
    requires within { place < length behind.now }
    ensures { IsTrue result ↔ IsPair sectors.now behind.now place }
{
    are_places(sectors[0].hold(), behind[place])
}

/// The place of the first pair with equal or unknown positions.
fn wrong_pair(sectors: &[Task], behind: &[(u8, u8)]) -> Option<usize>
    requires { 0 < length sectors.now }
    ensures all { IfNone result (AtEach (IsPair sectors.now behind.now) (length behind.now)) }
    ensures first { IfSome result (IsFirstWithout (IsPair sectors.now behind.now) (length behind.now)) }
{
    for place in 0..behind.len() {
        if !is_pair(sectors, behind, place) {
            return Some(place);
        }
    }
    None
}

/// The first fault of a load over several sectors with these parts: the first kind that there is, at its first place.
pub fn fault_of_stops(sectors: &[Task], leaves: &[u8], behind: &[(u8, u8)]) -> Option<StopFault>
    ensures lawful { IfNone result (AreLawfulStops (stops_of sectors.now leaves.now behind.now)) }
    ensures fault { IfSome result (IsStopFault (stops_of sectors.now leaves.now behind.now)) }
{
    if !are_sectors_few(sectors) {
        return Some(StopFault::Sectors(sectors.len()));
    }
    if let Some(place) = other_hold(sectors) {
        return Some(StopFault::Holds(place + 1));
    }
    if !are_leaves_right(sectors, leaves) {
        return Some(StopFault::Leaves);
    }
    if let Some(place) = other_items(sectors, leaves) {
        return Some(StopFault::Aboard(place + 1));
    }
    if let Some(place) = wrong_pair(sectors, behind) {
        return Some(StopFault::Behind(place));
    }
    None
}
