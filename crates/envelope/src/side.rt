//! One side of an envelope: where an index lies of it, and the ticks next to it.

ghost use Rattle.std.specs.Prelude.{◌≡◌, ℕ, ◌≤◌, ◌↔◌, ℤ, ◌≤ℤ◌, All, Any, IsTrue, IfSome, IfNone, min};
ghost use Rattle.mass_units.specs.Line.{Spans, IsOnOrAft, IsOnOrForward};
ghost use Rattle.std.specs.Option.{option_map_or};
ghost use Rattle.envelope.specs.Outline.{CrossesAt, IsApart};
ghost use Rattle.envelope.specs.Edges.{edges, IsRising, IsOnOrAftOf, IsOnOrForwardOf};

use crate::Corner;
use mass_units::{Kg, Line, Lines, Ticks};

/// True where the index lies on the side at that mass, or aft of it.
#[tactic(auto, unfolding(crate::specs::Edges::IsOnOrAftOf))]
pub fn is_on_or_aft(corners: &[Corner], mass: Kg, index: Ticks) -> bool
    ensures { IsTrue result ↔ IsOnOrAftOf corners.now mass.0 index.0 }
{
    spans(corners, mass)
        && Lines::between(corners).all(|edge| is_aft_where_spanned(edge, mass, index))
}

/// True where the index lies on the side at that mass, or forward of it.
#[tactic(auto, unfolding(crate::specs::Edges::IsOnOrForwardOf))]
pub fn is_on_or_forward(corners: &[Corner], mass: Kg, index: Ticks) -> bool
    ensures { IsTrue result ↔ IsOnOrForwardOf corners.now mass.0 index.0 }
{
    spans(corners, mass)
        && Lines::between(corners).all(|edge| is_forward_where_spanned(edge, mass, index))
}

/// The foremost tick that is not forward of the side at that mass. None where no edge spans the mass.
pub fn foremost(corners: &[Corner], mass: Kg) -> Option<Ticks>
    requires { IsRising corners.now }
    ensures some { IfSome result
        (λ first. (z : ℤ) → IsOnOrAftOf corners.now mass.0 z ↔ (first.0 ≤ℤ z)) }
    ensures none { IfNone result ((z : ℤ) → ¬ (IsOnOrAftOf corners.now mass.0 z)) }
{
    let mut foremost: Option<Ticks> = None;
    for edge in Lines::between(corners) {
        if edge.spans(mass) {
            foremost = Some(greater_index(foremost, edge.ceil_at(mass)));
        }
    }
    foremost
}

/// The aftmost tick that is not aft of the side at that mass. None where no edge spans the mass.
pub fn aftmost(corners: &[Corner], mass: Kg) -> Option<Ticks>
    requires { IsRising corners.now }
    ensures some { IfSome result
        (λ last. (z : ℤ) → IsOnOrForwardOf corners.now mass.0 z ↔ (z ≤ℤ last.0)) }
    ensures none { IfNone result ((z : ℤ) → ¬ (IsOnOrForwardOf corners.now mass.0 z)) }
{
    let mut aftmost: Option<Ticks> = None;
    for edge in Lines::between(corners) {
        if edge.spans(mass) {
            aftmost = Some(lesser_index(aftmost, edge.floor_at(mass)));
        }
    }
    aftmost
}

/// The least corner mass at which the forward edge is greater than the aft edge.
#[tactic(auto, unfolding(crate::specs::Outline::CrossesAt))]
pub fn first_crossing(forward: &[Corner], aft: &[Corner]) -> Option<Kg>
    ensures some { IfSome result
        (λ mass. CrossesAt (record { forward = forward.now; aft = aft.now }) mass.0) }
    ensures least { IfSome result (λ mass. (other : ℕ)
        → CrossesAt (record { forward = forward.now; aft = aft.now }) other → mass.0 ≤ other) }
    ensures none { IfNone result (IsApart (record { forward = forward.now; aft = aft.now })) }
{
    match (first_behind(forward, aft), first_before(aft, forward)) {
        (Some(a), Some(b)) => Some(Kg(a.0.min(b.0))),
        (Some(a), None) => Some(a),
        (None, b) => b,
    }
}

/// The least mass of a corner that lies aft of the aft side.
fn first_behind(corners: &[Corner], aft: &[Corner]) -> Option<Kg>
    ensures some { IfSome result (λ mass. Any
        (λ corner. (corner.mass.0 ≡ mass.0) × ¬ (IsOnOrForwardOf aft.now corner.mass.0 corner.index.0)) corners.now) }
    ensures least { IfSome result (λ mass. All
        (λ corner. ¬ (IsOnOrForwardOf aft.now corner.mass.0 corner.index.0) → mass.0 ≤ corner.mass.0) corners.now) }
    ensures none { IfNone result (All
        (λ corner. IsOnOrForwardOf aft.now corner.mass.0 corner.index.0) corners.now) }
{
    let mut first: Option<Kg> = None;
    for corner in corners {
        if !is_on_or_forward(aft, corner.mass, corner.index) {
            first = Some(lesser_mass(first, corner.mass));
        }
    }
    first
}

/// The least mass of a corner that lies forward of the forward side.
fn first_before(corners: &[Corner], forward: &[Corner]) -> Option<Kg>
    ensures some { IfSome result (λ mass. Any
        (λ corner. (corner.mass.0 ≡ mass.0) × ¬ (IsOnOrAftOf forward.now corner.mass.0 corner.index.0)) corners.now) }
    ensures least { IfSome result (λ mass. All
        (λ corner. ¬ (IsOnOrAftOf forward.now corner.mass.0 corner.index.0) → mass.0 ≤ corner.mass.0) corners.now) }
    ensures none { IfNone result (All
        (λ corner. IsOnOrAftOf forward.now corner.mass.0 corner.index.0) corners.now) }
{
    let mut first: Option<Kg> = None;
    for corner in corners {
        if !is_on_or_aft(forward, corner.mass, corner.index) {
            first = Some(lesser_mass(first, corner.mass));
        }
    }
    first
}

/// The lesser of both masses.
fn lesser_mass(other: Option<Kg>, mass: Kg) -> Kg
    ensures { result.0 ≡ min mass.0 (option_map_or (λ m. m.0) other mass.0) }
{
    match other {
        Some(other) => Kg(mass.0.min(other.0)),
        None => mass,
    }
}

fn spans(corners: &[Corner], mass: Kg) -> bool
    ensures { IsTrue result ↔ Any (λ edge. Spans edge mass.0) (edges corners.now) }
{
    Lines::between(corners).any(|edge| edge.spans(mass))
}

fn is_aft_where_spanned(edge: Line, mass: Kg, index: Ticks) -> bool
    ensures { IsTrue result ↔ (Spans edge mass.0 → IsOnOrAft edge mass.0 index.0) }
{
    !edge.spans(mass) || edge.is_on_or_aft(mass, index)
}

fn is_forward_where_spanned(edge: Line, mass: Kg, index: Ticks) -> bool
    ensures { IsTrue result ↔ (Spans edge mass.0 → IsOnOrForward edge mass.0 index.0) }
{
    !edge.spans(mass) || edge.is_on_or_forward(mass, index)
}

/// The greater of both indices.
fn greater_index(other: Option<Ticks>, index: Ticks) -> Ticks
    ensures { (z : ℤ) → (result.0 ≤ℤ z) ↔ ((index.0 ≤ℤ z) × IfSome other (λ t. t.0 ≤ℤ z)) }
{
    match other {
        Some(other) if index.0 < other.0 => other,
        _ => index,
    }
}

/// The lesser of both indices.
fn lesser_index(other: Option<Ticks>, index: Ticks) -> Ticks
    ensures { (z : ℤ) → (z ≤ℤ result.0) ↔ ((z ≤ℤ index.0) × IfSome other (λ t. z ≤ℤ t.0)) }
{
    match other {
        Some(other) if other.0 < index.0 => other,
        _ => index,
    }
}
