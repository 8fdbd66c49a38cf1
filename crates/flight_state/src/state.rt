//! The state of a flight.

ghost use Rattle.std.specs.Prelude.{◌≡◌};

use crate::change::Lmcs;
use crate::leg::Leg;
use hold_limits::Path;
use std::alloc::AllocError;
use trim::Figures;

/// How far a flight is.
#[derive(Clone, Copy, Debug, PartialEq, Eq)]
pub enum Stage {
    /// Its figures are being told.
    Working,
    /// Its hold is planned.
    Planned,
    /// Its loadsheet is issued.
    Released,
    /// It has left.
    Departed,
}

/// The state of a flight.
#[derive(Debug, Drop)]
pub struct FlightState {
    pub leg: Leg,
    /// The number of its edition: 1 at opening, and one more for each change of its figures.
    pub edition: u32,
    pub stage: Stage,
    /// Its figures before the late changes.
    pub base: Figures,
    /// The positions of its containers, one for each in branch order, where its hold is planned.
    pub plan: Option<Path>,
    /// Its late changes, in their order.
    pub lmcs: Lmcs,
    /// How often it was released from a plan.
    pub releases: u32,
}

impl Clone for FlightState {
    ghost is_clone = { λ state copy. copy ≡ state };

    fn clone(&self) -> Result<FlightState, AllocError> {
        Ok(FlightState {
            leg: self.leg,
            edition: self.edition,
            stage: self.stage,
            base: self.base.clone()?,
            plan: self.plan.clone()?,
            lmcs: self.lmcs.clone()?,
            releases: self.releases,
        })
    }
}
