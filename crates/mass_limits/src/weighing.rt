//! Masses, underload and broken rules.

ghost use Rattle.std.specs.Prelude.{Some, filter, find, ◌<◌, ◌^◌, ◌≡◌};
ghost use Rattle.mass_limits.specs.MassRule.{is_broken, rules};
ghost use Rattle.mass_limits.specs.Masses.{CanBeWeighed, masses_of, take_off_mass, zero_fuel_mass};
ghost use Rattle.mass_limits.specs.Underload.{allowance, is_least, limits, underload_of};

use crate::figures::{Certified, Limiting, MassInput, MassRule, Masses, Underload};
use arrayvec::ArrayVec;
use mass_units::Kg;

/// The masses of a flight, from what was weighed (FAA-H-8083-1B).
///
/// Zero-fuel is dry and traffic, take-off adds the take-off fuel, ramp adds the taxi fuel to that, and
/// landing is take-off less the trip fuel. With masses of at most a million kilograms, and a traffic
/// load of at most a thousand million, the precondition is only that the trip fuel is on board.
pub fn masses(m: &MassInput) -> Masses
    requires { CanBeWeighed m.now }
    ensures { result ≡ masses_of m.now }
{
    let zero_fuel = m.dry.0 + m.traffic.0;
    let take_off = zero_fuel + m.take_off_fuel.0;
    Masses {
        ramp: Kg(take_off + m.taxi.0),
        zero_fuel: Kg(zero_fuel),
        take_off: Kg(take_off),
        landing: Kg(take_off - m.trip.0),
    }
}

/// The traffic load that a flight could still take, and the limit that leaves it the least.
///
/// Each limit allows a take-off mass: the certified zero-fuel mass with the take-off fuel on top, the
/// regulated take-off mass, and the regulated landing mass with the trip fuel on top. The least of the
/// three is the allowed one, and the underload is the allowed mass less the take-off mass. Of equal
/// limits the first is reported, in the order of `Limiting`.
pub fn underload(m: &MassInput, c: &Certified) -> Underload
    ensures kg { result.kg ≡ underload_of m.now c.now }
    ensures first_of_the_least { find (is_least m.now c.now) limits ≡ Some result.limiting }
{
    let zero_fuel = Limiting::ZeroFuel.allowance(m, c);
    let take_off = Limiting::TakeOff.allowance(m, c);
    let landing = Limiting::Landing.allowance(m, c);
    let (allowed, limiting) = if zero_fuel <= take_off && zero_fuel <= landing {
        (zero_fuel, Limiting::ZeroFuel)
    } else if take_off <= landing {
        (take_off, Limiting::TakeOff)
    } else {
        (landing, Limiting::Landing)
    };
    Underload {
        kg: allowed as i64 - m.take_off() as i64,
        limiting,
    }
}

/// The rules that a flight breaks, in the order of `MassRule`.
///
/// Take-off and landing mass are compared with the regulated masses, ramp and zero-fuel mass with the
/// certified ones, and each regulated mass with the certified one. A mass at its limit breaks no rule.
pub fn broken(m: &MassInput, c: &Certified) -> ArrayVec<MassRule, 5>
    ensures { result.items ≡ filter (is_broken m.now c.now) rules }
{
    let mut found = ArrayVec::from([
        MassRule::Ramp,
        MassRule::ZeroFuel,
        MassRule::TakeOff,
        MassRule::Landing,
        MassRule::RegulatedAboveCertified,
    ]);
    found.retain(|rule| rule.is_broken(m, c));
    found
}

impl Limiting {
    /// The greatest take-off mass that keeps this limit.
    fn allowance(self, m: &MassInput, c: &Certified) -> u64
        ensures value { result ≡ allowance m.now c.now self }
        ensures bound { result < 2 ^ 33 }
    {
        match self {
            Limiting::ZeroFuel => wide(c.zero_fuel) + wide(m.take_off_fuel),
            Limiting::TakeOff => wide(m.regulated_take_off),
            Limiting::Landing => wide(m.regulated_landing) + wide(m.trip),
        }
    }
}

impl MassRule {
    /// Whether the flight breaks this rule.
    fn is_broken(self, m: &MassInput, c: &Certified) -> bool
        ensures { result ≡ is_broken m.now c.now self }
    {
        match self {
            MassRule::Ramp => m.take_off() + wide(m.taxi) > wide(c.ramp),
            MassRule::ZeroFuel => m.zero_fuel() > wide(c.zero_fuel),
            MassRule::TakeOff => m.take_off() > wide(m.regulated_take_off),
            MassRule::Landing => {
                m.take_off().saturating_sub(wide(m.trip)) > wide(m.regulated_landing)
            }
            MassRule::RegulatedAboveCertified => {
                m.regulated_take_off.0 > c.take_off.0 || m.regulated_landing.0 > c.landing.0
            }
        }
    }
}

impl MassInput {
    fn zero_fuel(&self) -> u64
        ensures value { result ≡ zero_fuel_mass self.now }
        ensures bound { result < 2 ^ 33 }
    {
        wide(self.dry) + wide(self.traffic)
    }

    fn take_off(&self) -> u64
        ensures value { result ≡ take_off_mass self.now }
        ensures bound { result < 2 ^ 34 }
    {
        self.zero_fuel() + wide(self.take_off_fuel)
    }
}

/// The kilograms in 64 bits, where each sum of the masses of a flight fits.
fn wide(mass: Kg) -> u64
    ensures value { result ≡ mass.0 }
    ensures bound { result < 2 ^ 32 }
{
    u64::from(mass.0)
}
