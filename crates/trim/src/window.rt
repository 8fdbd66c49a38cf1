//! The window that the three envelopes leave the hold index.

ghost use Rattle.std.specs.Prelude.{◌≡◌, ◌≤◌, ◌-ℤ◌, unsigned_abs, IfSome, IfNone, IfOk, IfErr};
ghost use Rattle.std.specs.Int.{int_max, int_min};
ghost use Rattle.mass_limits.specs.Masses.{CanBeWeighed};
ghost use Rattle.envelope.specs.Outline.{IsEnvelope};
ghost use Rattle.aircraft_file.specs.Lawful.{AreCorners};
ghost use Rattle.trim.specs.Points.{IsClosed, IsRoom};
ghost use Rattle.trim.specs.Weighed.{AreNear, IsWindowFor, IsNoWindowFor};

use crate::fault::TrimFault;
use crate::weighing::Weighed;
use aircraft_file::Aircraft;
use envelope::Envelope;
use mass_limits::masses;
use mass_units::{Band, Kg, Ticks};

/// The hold indices with which all three points of a flight are inside their envelopes. Where they have none in common
/// the low end of the window is above its high end.
pub fn window_of(a: &Aircraft, flight: &Weighed) -> Result<Band, TrimFault>
    requires masses { CanBeWeighed flight.now.input }
    requires near { AreNear flight.now }
    ensures window { IfOk result (IsWindowFor a.now flight.now) }
    ensures closed { IfErr result (IsNoWindowFor a.now flight.now) }
{
    let masses = masses(&flight.input);
    let Some(zero_fuel) = room_in(a.zero_fuel(), masses.zero_fuel, flight.zero_fuel_base) else {
        return Err(TrimFault::NoWindow(1));
    };
    let Some(take_off) = room_in(a.take_off(), masses.take_off, flight.take_off_base) else {
        return Err(TrimFault::NoWindow(2));
    };
    let Some(landing) = room_in(a.landing(), masses.landing, flight.landing_base) else {
        return Err(TrimFault::NoWindow(3));
    };
    Ok(common(common(zero_fuel, take_off), landing))
}

/// The room that an envelope leaves at this mass, beside this base. None where no index is inside.
fn room_in(envelope: &Envelope, mass: Kg, base: Ticks) -> Option<Band>
    requires lawful { IsEnvelope envelope.now }
    requires corners { AreCorners envelope.now }
    requires near { unsigned_abs base.0 ≤ 1000000000000000 }
    ensures room { IfSome result (IsRoom envelope.now mass.0 base.0) }
    ensures closed { IfNone result (IsClosed envelope.now mass.0) }
{
    let (low, high) = envelope.window(mass)?;
    Some(Band {
        low: less(low, base),
        high: less(high, base),
    })
}

/// How far the first index lies aft of the second.
fn less(index: Ticks, base: Ticks) -> Ticks
    requires index { unsigned_abs index.0 ≤ 1000000000 }
    requires base { unsigned_abs base.0 ≤ 1000000000000000 }
    ensures { result.0 ≡ index.0 -ℤ base.0 }
{
    Ticks(index.0 - base.0)
}

/// What two bands have in common.
fn common(one: Band, other: Band) -> Band
    ensures low { result.low.0 ≡ int_max one.low.0 other.low.0 }
    ensures high { result.high.0 ≡ int_min one.high.0 other.high.0 }
{
    Band {
        low: Ticks(one.low.0.max(other.low.0)),
        high: Ticks(one.high.0.min(other.high.0)),
    }
}
