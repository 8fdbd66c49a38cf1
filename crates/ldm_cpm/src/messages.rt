//! What the messages say, borrowed from their texts.

use base_words::ListOf;
use mass_units::Kg;
use telex::Part;

/// Which flight a message is about.
#[derive(Debug, Drop)]
pub struct Head<'a> {
    pub flight: Part<'a>,
    pub day: Part<'a>,
    pub registration: Part<'a>,
    /// The version of the aircraft's cabin and hold.
    pub version: Part<'a>,
    /// The crew in the cockpit and in the cabin, in a load message.
    pub crew: Option<(u8, u8)>,
}

/// Compartments with their masses.
pub type Loads = ListOf<(u8, Kg)>;

/// A load message: what is on board for a destination.
#[derive(Debug, Drop)]
pub struct Ldm<'a> {
    pub head: Head<'a>,
    pub destination: Part<'a>,
    pub adults: u32,
    pub children: u32,
    pub infants: u32,
    pub loads: Loads,
}

/// A position of the hold in a container message.
#[derive(Clone, Copy, Debug, PartialEq, Eq)]
pub struct CpmPlace<'a> {
    /// The position's name, which follows the hyphen of its line.
    pub name: Part<'a>,
    /// The container on the position, where one stands there.
    pub id: Option<Part<'a>>,
    /// Where what is on the position goes. None where there is nothing.
    pub destination: Option<Part<'a>>,
    pub mass: Kg,
}

/// The positions of a hold in a container message.
pub type CpmPlaces<'a> = ListOf<CpmPlace<'a>>;

/// A container message: what stands where in the hold.
#[derive(Debug, Drop)]
pub struct Cpm<'a> {
    pub head: Head<'a>,
    pub places: CpmPlaces<'a>,
}
