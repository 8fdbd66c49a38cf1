//! The tests of a hold, in the order of its faults.

ghost use Rattle.std.specs.Prelude.{◌≡◌, option_map, position};
ghost use Rattle.std.specs.List.{list_any};
ghost use Rattle.hold_limits.specs.Layout.{layout_of};
ghost use Rattle.hold_limits.specs.declared.fault.HoldFault.TheVariants as hold;
ghost use Rattle.hold_limits.specs.Faults.{position_fault, limit_fault, hold_fault, has_wrong_number, has_wrong_influence, has_wrong_fits, has_wrong_mass, has_wrong_fit_mass, has_too_many, is_unknown, is_bulk, has_wrong_positions, same_pair, is_wrong_exclude_at, wrong_exclude, places_rise, is_wrong_combined, is_wrong_cumulative, position_before, is_wrong_side_at, wrong_side};

use crate::fault::HoldFault;
use hold_parts::{Combined, Cumulative, Fit, Position, first_repeat};
use mass_units::Kg;

const MOST_POSITIONS: usize = 64;

const MOST_INFLUENCE: u32 = 100_000;

const MOST_FITS: usize = 16;

const MOST_EXCLUDES: usize = 256;

const MOST_COMBINED: usize = 64;

const MOST_CUMULATIVE: usize = 128;

/// The greatest mass of a container or of a loose load.
pub const MOST_MASS: Kg = Kg(20_000);

fn is_number_wrong(positions: &[Position]) -> bool
    ensures { result ≡ has_wrong_number positions.now }
{
    positions.is_empty() || positions.len() > MOST_POSITIONS
}

fn is_influence_wrong(position: &Position) -> bool
    ensures { result ≡ has_wrong_influence position.now }
{
    position.influence.unsigned_abs() > MOST_INFLUENCE
}

fn wrong_influence(positions: &[Position]) -> Option<usize>
    ensures { result ≡ position has_wrong_influence positions.now }
{
    positions.iter().position(is_influence_wrong)
}

fn are_fits_wrong(position: &Position) -> bool
    ensures { result ≡ has_wrong_fits position.now }
{
    let fits = position.fits.as_slice();
    if position.bulk {
        !fits.is_empty()
    } else {
        fits.is_empty() || fits.len() > MOST_FITS || first_repeat(fits).is_some()
    }
}

fn wrong_fits(positions: &[Position]) -> Option<usize>
    ensures { result ≡ position has_wrong_fits positions.now }
{
    positions.iter().position(are_fits_wrong)
}

fn is_mass_wrong(fit: &Fit) -> bool
    ensures { result ≡ has_wrong_mass fit.now }
{
    fit.most.0 == 0 || fit.most.0 > MOST_MASS.0
}

fn is_fit_mass_wrong(position: &Position) -> bool
    ensures { result ≡ has_wrong_fit_mass position.now }
{
    position.fits.as_slice().iter().any(is_mass_wrong)
}

fn wrong_fit_mass(positions: &[Position]) -> Option<usize>
    ensures { result ≡ position has_wrong_fit_mass positions.now }
{
    positions.iter().position(is_fit_mass_wrong)
}

fn are_too_many(excludes: &[(u8, u8)], combined: &[Combined], cumulative: &[Cumulative]) -> bool
    ensures { result ≡ has_too_many excludes.now combined.now cumulative.now }
{
    excludes.len() > MOST_EXCLUDES
        || combined.len() > MOST_COMBINED
        || cumulative.len() > MOST_CUMULATIVE
}

fn is_position_unknown(positions: &[Position], number: u8) -> bool
    ensures { result ≡ is_unknown positions.now number }
{
    positions.len() <= number as usize
}

/// Whether the number is that of a bulk position.
pub fn is_position_bulk(positions: &[Position], number: u8) -> bool
    ensures { result ≡ is_bulk positions.now number }
{
    positions
        .get(number as usize)
        .is_some_and(|position| position.bulk)
}

fn are_pair_positions_wrong(positions: &[Position], pair: (u8, u8)) -> bool
    ensures { result ≡ has_wrong_positions positions.now pair }
{
    pair.0 == pair.1
        || is_position_unknown(positions, pair.0)
        || is_position_unknown(positions, pair.1)
        || is_position_bulk(positions, pair.0)
        || is_position_bulk(positions, pair.1)
}

/// Whether the two positions are one of the pairs, in either order.
pub fn is_pair_among(pairs: &[(u8, u8)], one: u8, other: u8) -> bool
    ensures { result ≡ list_any (λ pair. same_pair pair (one, other)) pairs.now }
{
    pairs.iter().any(|pair| (pair.0 == one && pair.1 == other)
        || (pair.0 == other && pair.1 == one))
}

fn is_exclude_wrong(positions: &[Position], excludes: &[(u8, u8)], at: usize) -> bool
    ensures { result ≡ is_wrong_exclude_at positions.now excludes.now at }
{
    match excludes.get(at) {
        Some(pair) => are_pair_positions_wrong(positions, *pair)
            || is_pair_among(&excludes[..at], pair.0, pair.1),
        None => false,
    }
}

#[tactic(auto, using(base_words::proofs::ListLemmas::first_steps))]
fn first_wrong_exclude(positions: &[Position], excludes: &[(u8, u8)]) -> Option<usize>
    ensures { result ≡ wrong_exclude positions.now excludes.now }
{
    for at in 0..excludes.len() {
        if is_exclude_wrong(positions, excludes, at) {
            return Some(at);
        }
    }
    None
}

fn are_rising(numbers: &[u8]) -> bool
    ensures { result ≡ places_rise numbers.now }
{
    numbers
        .iter()
        .zip(numbers.iter().skip(1))
        .all(|(number, next)| number < next)
}

fn is_any_unknown(positions: &[Position], numbers: &[u8]) -> bool
    ensures { result ≡ list_any (is_unknown positions.now) numbers.now }
{
    numbers
        .iter()
        .any(|number| is_position_unknown(positions, *number))
}

fn is_combined_wrong(positions: &[Position], limit: &Combined) -> bool
    ensures { result ≡ is_wrong_combined positions.now limit.now }
{
    let numbers = limit.places.as_slice();
    numbers.is_empty() || !are_rising(numbers) || is_any_unknown(positions, numbers)
}

fn first_wrong_combined(positions: &[Position], combined: &[Combined]) -> Option<usize>
    ensures { result ≡ position (is_wrong_combined positions.now) combined.now }
{
    combined
        .iter()
        .position(|limit| is_combined_wrong(positions, limit))
}

fn first_wrong_cumulative(positions: &[Position], cumulative: &[Cumulative]) -> Option<usize>
    ensures { result ≡ position (is_wrong_cumulative positions.now) cumulative.now }
{
    cumulative
        .iter()
        .position(|limit| is_position_unknown(positions, limit.place))
}

fn fault_of_positions(positions: &[Position]) -> Option<HoldFault>
    ensures { result ≡ position_fault positions.now }
{
    if is_number_wrong(positions) {
        return Some(HoldFault::Positions(positions.len()));
    }
    if let Some(place) = first_repeat(positions) {
        return Some(HoldFault::SameName(place));
    }
    if let Some(place) = wrong_influence(positions) {
        return Some(HoldFault::Influence(place));
    }
    if let Some(place) = wrong_fits(positions) {
        return Some(HoldFault::Fits(place));
    }
    wrong_fit_mass(positions).map(HoldFault::FitMass)
}

fn fault_of_limits(
    positions: &[Position],
    excludes: &[(u8, u8)],
    combined: &[Combined],
    cumulative: &[Cumulative],
) -> Option<HoldFault>
    ensures { result ≡ limit_fault (layout_of positions.now excludes.now combined.now cumulative.now) }
{
    if are_too_many(excludes, combined, cumulative) {
        return Some(HoldFault::TooMany);
    }
    if let Some(place) = first_wrong_exclude(positions, excludes) {
        return Some(HoldFault::Exclude(place));
    }
    if let Some(place) = first_wrong_combined(positions, combined) {
        return Some(HoldFault::Combined(place));
    }
    first_wrong_cumulative(positions, cumulative).map(HoldFault::Cumulative)
}

fn position_before(sides: &[(u8, bool)], at: usize) -> Option<u8>
    ensures { result ≡ position_before sides.now at }
{
    let before = at.checked_sub(1)?;
    sides.get(before).map(|(number, _)| *number)
}

fn is_side_wrong(positions: &[Position], sides: &[(u8, bool)], at: usize) -> bool
    ensures { result ≡ is_wrong_side_at positions.now sides.now at }
{
    match sides.get(at) {
        Some((number, _)) => is_position_unknown(positions, *number)
            || position_before(sides, at).is_some_and(|before| *number <= before),
        None => false,
    }
}

#[tactic(auto, using(base_words::proofs::ListLemmas::first_steps))]
fn first_wrong_side(positions: &[Position], sides: &[(u8, bool)]) -> Option<usize>
    ensures { result ≡ wrong_side positions.now sides.now }
{
    for at in 0..sides.len() {
        if is_side_wrong(positions, sides, at) {
            return Some(at);
        }
    }
    None
}

/// The fault of the sides of a hold with these positions.
pub fn fault_of_sides(positions: &[Position], sides: &[(u8, bool)]) -> Option<HoldFault>
    ensures { result ≡ option_map hold.Side (wrong_side positions.now sides.now) }
{
    first_wrong_side(positions, sides).map(HoldFault::Side)
}

/// The first fault of a hold with these parts: the first kind that there is, at its first place in its list.
pub fn fault_of_hold(
    positions: &[Position],
    excludes: &[(u8, u8)],
    combined: &[Combined],
    cumulative: &[Cumulative],
) -> Option<HoldFault>
    ensures { result ≡ hold_fault (layout_of positions.now excludes.now combined.now cumulative.now) }
{
    fault_of_positions(positions).or_else(|| fault_of_limits(
        positions, excludes, combined, cumulative,
    ))
}
