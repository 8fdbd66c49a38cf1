//! The compartments of a sheet's hold with their masses.

ghost use Rattle.std.specs.Prelude.{◌≡◌, ◌<◌, ◌^◌, ◌==◌, if◌then◌else◌, ◌++◌, OnOk};
ghost use Rattle.std.specs.List.{flat_map};
ghost use Rattle.ldm_cpm.specs.Messages.{total, load_elements};
ghost use Rattle.ldm_cpm.specs.Sheets.{marked, mass_in, load_in, loads_below};

use base_words::NoMemory;
use last_minute::Place;
use telex::Builder;

/// The mass on the position, if it lies in the compartment.
fn mass_of(place: &Place, compartment: u16) -> u32
    ensures { result ≡ (if place.now.compartment == compartment then place.now.mass.0 else 0) }
{
    if u16::from(place.compartment) == compartment {
        place.mass.0
    } else {
        0
    }
}

/// The mass on the positions of the compartment, in kilograms.
fn mass_in(places: &[Place], compartment: u16) -> u128
    ensures value { result ≡ mass_in compartment places.now }
    ensures bound { result < 2 ^ 96 }
{
    let mut sum = 0;
    for place in places {
        sum += u128::from(mass_of(place, compartment));
    }
    sum
}

/// The mass in all compartments, in kilograms.
pub fn total_mass(places: &[Place]) -> u128
    ensures { result ≡ total (loads_below 256 places.now) }
{
    let mut sum = 0;
    for compartment in 0..256 {
        sum += mass_in(places, compartment);
    }
    sum
}

/// Appends the compartment with its mass, if it carries any.
fn push_load(out: &mut Builder, places: &[Place], compartment: u16) -> Result<(), NoMemory>
    ensures { OnOk result (out.new ≡ out.old ++ marked (flat_map load_elements (load_in compartment places.now))) }
{
    let mass = mass_in(places, compartment);
    if mass == 0 {
        return Ok(());
    }
    out.text(b".")?;
    out.count(u64::from(compartment))?;
    out.text(b"/")?;
    out.sum(mass)
}

/// Appends the compartments that carry something, rising, with their masses.
pub fn push_loads(out: &mut Builder, places: &[Place]) -> Result<(), NoMemory>
    ensures { OnOk result (out.new ≡ out.old ++ marked (flat_map load_elements (loads_below 256 places.now))) }
{
    for compartment in 0..256 {
        push_load(out, places, compartment)?;
    }
    Ok(())
}
