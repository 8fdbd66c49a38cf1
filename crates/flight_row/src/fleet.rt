//! The aircraft of a fleet.

ghost use Rattle.std.specs.Prelude.{◌≡◌, Some};
ghost use Rattle.std.specs.Option.{option_copied};
ghost use Rattle.aircraft_file.specs.Craft.{Craft};
ghost use Rattle.aircraft_file.specs.Lawful.{IsLawfulCraft};
ghost use Rattle.flight_row.specs.Loading.{aircraft_of};

use aircraft_file::Aircraft;
use flight_state::Leg;

/// The first of the fleet with the registration of the leg.
fn first_with<'a>(fleet: &'a [Aircraft], leg: &Leg) -> Option<&'a Aircraft>
    ensures { option_copied result ≡ aircraft_of fleet.now leg.now }
{
    fleet
        .iter()
        .find(|a| a.registration().bytes() == leg.registration.bytes())
}

/// The aircraft of a leg: the first of the fleet with its registration.
pub fn aircraft_of<'a>(fleet: &'a [Aircraft], leg: &Leg) -> Option<&'a Aircraft>
    ensures found { option_copied result ≡ aircraft_of fleet.now leg.now }
    ensures lawful { (a : Craft) → aircraft_of fleet.now leg.now ≡ Some a → IsLawfulCraft a }
{
    let a = first_with(fleet, leg)?;
    // What is known of an aircraft is known once it is asked for.
    let _hold = a.hold();
    Some(a)
}
