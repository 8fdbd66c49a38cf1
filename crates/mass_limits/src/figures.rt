//! The figures that the masses of a flight are computed from, and the masses.

use mass_units::Kg;

/// The components of a flight's masses, and the limits of the day.
#[derive(Clone, Copy, Debug, PartialEq, Eq)]
pub struct MassInput {
    /// The dry operating mass: the aircraft with its crew and its equipment, and no usable fuel.
    pub dry: Kg,
    /// The traffic load: passengers, bags and cargo.
    pub traffic: Kg,
    /// The fuel burned between the stand and the runway.
    pub taxi: Kg,
    /// The fuel on board at lift-off.
    pub take_off_fuel: Kg,
    /// The part of the take-off fuel that the trip burns.
    pub trip: Kg,
    /// The greatest take-off mass of the day.
    pub regulated_take_off: Kg,
    /// The greatest landing mass of the day.
    pub regulated_landing: Kg,
}

/// The greatest masses for which the aircraft is certified.
#[derive(Clone, Copy, Debug, PartialEq, Eq)]
pub struct Certified {
    pub ramp: Kg,
    pub zero_fuel: Kg,
    pub take_off: Kg,
    pub landing: Kg,
}

/// The four masses of a flight.
#[derive(Clone, Copy, Debug, PartialEq, Eq)]
pub struct Masses {
    pub ramp: Kg,
    pub zero_fuel: Kg,
    pub take_off: Kg,
    pub landing: Kg,
}

/// The traffic load that a flight could still take, with the limit that decides it.
#[derive(Clone, Copy, Debug, PartialEq, Eq)]
pub struct Underload {
    /// Kilograms. Below zero it is how far the flight is over its limit.
    pub kg: i64,
    pub limiting: Limiting,
}

/// The limit that leaves a flight the least room.
#[derive(Clone, Copy, Debug, PartialEq, Eq)]
pub enum Limiting {
    /// The certified zero-fuel mass.
    ZeroFuel,
    /// The regulated take-off mass.
    TakeOff,
    /// The regulated landing mass.
    Landing,
}

/// A rule on the masses of a flight. The default only fills the unused slots of a list.
#[derive(Clone, Copy, Debug, Default, PartialEq, Eq)]
pub enum MassRule {
    /// The ramp mass is at most the certified one.
    #[default]
    Ramp,
    /// The zero-fuel mass is at most the certified one.
    ZeroFuel,
    /// The take-off mass is at most the regulated one.
    TakeOff,
    /// The landing mass is at most the regulated one.
    Landing,
    /// No regulated mass is above the certified one.
    RegulatedAboveCertified,
}
