//! What the keys of a file say, before they are tested for making up a lawful aircraft.

use crate::figures::Figures;
use envelope::{Corner, Envelope};
use fuel_table::FuelRow;
use hold_limits::{Combined, Cumulative, Lateral, Position};
use payload::Zone;

/// The positions from nose to tail, and the limits on them.
#[derive(Drop)]
pub struct HoldParts {
    pub positions: Vec<Position>,
    pub limits: Limits,
}

/// The limits on the positions of a hold.
#[derive(Drop)]
pub struct Limits {
    pub excludes: Vec<(u8, u8)>,
    pub combined: Vec<Combined>,
    pub cumulative: Vec<Cumulative>,
}

/// The corners of the two sides of an envelope.
#[derive(Drop)]
pub struct Sides {
    pub forward: Vec<Corner>,
    pub aft: Vec<Corner>,
}

/// The sides of the three envelopes.
#[derive(Drop)]
pub struct AllSides {
    pub zero_fuel: Sides,
    pub take_off: Sides,
    pub landing: Sides,
}

/// The three envelopes of an aircraft.
#[derive(Drop)]
pub struct Envelopes {
    pub zero_fuel: Envelope,
    pub take_off: Envelope,
    pub landing: Envelope,
}

/// All that the keys say.
#[derive(Drop)]
pub struct Parts {
    pub figures: Figures,
    pub zones: Vec<Zone>,
    pub hold: HoldParts,
    pub fuel: Vec<FuelRow>,
    pub sides: AllSides,
    pub lateral: Option<Lateral>,
}
