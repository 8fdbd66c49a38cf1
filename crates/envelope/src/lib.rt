//! Centre of gravity envelopes. An envelope bounds the index of an aircraft at each mass, by a forward
//! and an aft side. Each side is a list of corners, with straight edges between neighbouring ones.
#![tactic(auto)]

ghost use Rattle.std.specs.Prelude.{◌≡◌, ◌<◌, ◌≤◌, ◌↔◌, ℤ, ◌≤ℤ◌, IsTrue, IfSome, IfNone, IfOk, IfErr};
ghost use Rattle.envelope.specs.Outline.{HasCorners, SameSpan};

mod corner;
mod side;

pub use corner::Corner;
use mass_units::{Kg, Ticks, first_fall};
use std::marker::Model;
use thiserror::Error;

/// Why two lists of corners do not make an envelope.
#[derive(Clone, Copy, Debug, PartialEq, Eq, Error)]
pub enum EnvFault {
    /// A side has fewer than 2 corners, or more than 64.
    #[error("a side has fewer than 2 corners or more than 64")]
    TooFewCorners,
    /// The corner at this place, counted from 0, has no greater mass than the one before it. Where both
    /// sides have such a corner it is the forward side's.
    #[error("the mass of corner {0} is not above that of the corner before it")]
    NotRising(usize),
    /// The sides begin or end at different masses.
    #[error("the sides begin or end at different masses")]
    DifferentSpan,
    /// The least corner mass at which the forward edge is greater than the aft edge.
    #[error("the sides cross at {0:?}")]
    Crossed(Kg),
}

/// What bounds the index of an aircraft at each mass.
#[derive(Drop)]
pub struct Envelope {
    forward: Vec<Corner>,
    aft: Vec<Corner>,
}

impl Model for Envelope {
    ghost use Rattle.envelope.specs.Outline.{Outline, IsEnvelope};

    ghost Value = { Outline };

    ghost view = { λ e. record { forward = e.forward.items; aft = e.aft.items } };

    ghost invariant = { λ e. IsEnvelope (record { forward = e.forward.items; aft = e.aft.items }) };
}

impl Envelope {
    ghost use Rattle.envelope.specs.Outline.{Outline, IsEnvelope, IsInside, AreInside};
    ghost use Rattle.envelope.specs.Refusal.{IsRefusedFor};

    /// The envelope with these corners, each side from its least mass on. Refused for the first fault in
    /// the order of `EnvFault`.
    pub fn new(forward: Vec<Corner>, aft: Vec<Corner>) -> Result<Envelope, EnvFault>
        ensures ok { IfOk result (λ e. (e.forward ≡ forward.items) × (e.aft ≡ aft.items)) }
        ensures lawful { IfOk result IsEnvelope }
        ensures refused { IfErr result
            (λ fault. IsRefusedFor fault (record { forward = forward.items; aft = aft.items })) }
    {
        if !has_corners(&forward) || !has_corners(&aft) {
            return Err(EnvFault::TooFewCorners);
        }
        if let Some(at) = first_fall(&forward) {
            return Err(EnvFault::NotRising(at));
        }
        if let Some(at) = first_fall(&aft) {
            return Err(EnvFault::NotRising(at));
        }
        if !same_span(&forward, &aft) {
            return Err(EnvFault::DifferentSpan);
        }
        if let Some(mass) = side::first_crossing(&forward, &aft) {
            return Err(EnvFault::Crossed(mass));
        }
        Ok(Envelope { forward, aft })
    }

    /// The corners of the forward side. Each is inside.
    pub fn forward(&self) -> &[Corner]
        ensures value { result.now ≡ self.now.forward }
        ensures lawful { IsEnvelope self.now }
        ensures inside { AreInside self.now self.now.forward }
    {
        &self.forward
    }

    /// The corners of the aft side. Each is inside.
    pub fn aft(&self) -> &[Corner]
        ensures value { result.now ≡ self.now.aft }
        ensures lawful { IsEnvelope self.now }
        ensures inside { AreInside self.now self.now.aft }
    {
        &self.aft
    }

    /// True where the envelope allows the index at that mass. Its edges and corners are inside. Outside
    /// its span of masses nothing is inside.
    pub fn inside(&self, mass: Kg, index: Ticks) -> bool
        ensures { IsTrue result ↔ IsInside self.now mass.0 index.0 }
    {
        side::is_on_or_aft(&self.forward, mass, index)
            && side::is_on_or_forward(&self.aft, mass, index)
    }

    /// The least and the greatest tick inside at that mass. None where no tick is inside.
    pub fn window(&self, mass: Kg) -> Option<(Ticks, Ticks)>
        ensures least { IfSome result (λ w. IsInside self.now mass.0 w.0.0
            × ((z : ℤ) → IsInside self.now mass.0 z → w.0.0 ≤ℤ z)) }
        ensures greatest { IfSome result (λ w. IsInside self.now mass.0 w.1.0
            × ((z : ℤ) → IsInside self.now mass.0 z → z ≤ℤ w.1.0)) }
        ensures between { IfSome result
            (λ w. (z : ℤ) → w.0.0 ≤ℤ z → z ≤ℤ w.1.0 → IsInside self.now mass.0 z) }
        ensures none { IfNone result ((z : ℤ) → ¬ (IsInside self.now mass.0 z)) }
    {
        let first = side::foremost(&self.forward, mass)?;
        let last = side::aftmost(&self.aft, mass)?;
        if last.0 < first.0 {
            return None;
        }
        Some((first, last))
    }
}

fn has_corners(corners: &[Corner]) -> bool
    ensures { IsTrue result ↔ HasCorners corners.now }
{
    2 <= corners.len() && corners.len() <= 64
}

fn same_span(forward: &[Corner], aft: &[Corner]) -> bool
    ensures { IsTrue result ↔ SameSpan (record { forward = forward.now; aft = aft.now }) }
{
    forward.first().map(|corner| corner.mass.0) == aft.first().map(|corner| corner.mass.0)
        && forward.last().map(|corner| corner.mass.0) == aft.last().map(|corner| corner.mass.0)
}
