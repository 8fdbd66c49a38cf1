//! A row as its lines state it.

use base_words::ListOf;
use flight_state::{Leg, Lmcs, Stage};
use hold_limits::Name;
use trim::Figures;

/// The two forms of a row. Only the second says how often the flight was released.
#[derive(Clone, Copy, Debug, PartialEq, Eq)]
pub enum Version {
    One,
    Two,
}

/// Names of positions, in branch order.
pub type PlanNames = ListOf<Name>;

/// A flight as its row states it: its plan names positions that its aircraft may or may not have.
#[derive(Debug, Drop)]
pub struct Row {
    pub leg: Leg,
    pub edition: u32,
    pub stage: Stage,
    pub releases: u32,
    pub base: Figures,
    pub plan: Option<PlanNames>,
    pub lmcs: Lmcs,
}
