//! The aircraft, and a fleet of it alone.

ghost use Rattle.std.specs.Prelude.{IfOk};
ghost use Rattle.aircraft_file.specs.Craft.{AreApart};

use aircraft_file::{Aircraft, read_aircraft};
use base_words::NoMemory;
use std::alloc::Global;

/// `examples/daiab.toml`.
pub const DAIAB: &str = r#"registration = "DAIAB"
version = "Y150"
[dry]
mass = 42000
index = "50.00000"
[chord]
k = "50.00000"
c = 1000
reference = 18850
lemac = 17800
mac = 4190
[limits]
ramp = 73900
zero_fuel = 62500
take_off = 73500
landing = 66000
[tolerance]
mass = 500
index = "5.00000"
[trim]
low = "50.00000"
high = "51.00000"
[averages]
adult = 84
child = 35
infant = 10
bag = 15
[[zone]]
capacity = 60
influence = -700
[[zone]]
capacity = 90
influence = 500
[[position]]
name = "11"
compartment = 1
influence = -600
fits = [["AKE", 1500]]
[[position]]
name = "12"
compartment = 1
influence = -400
fits = [["AKE", 1500]]
[[position]]
name = "41"
compartment = 4
influence = 400
fits = [["AKE", 1500]]
[[position]]
name = "42"
compartment = 4
influence = 600
fits = [["AKE", 1500]]
[[position]]
name = "51"
compartment = 5
influence = 900
bulk = true
[hold]
combined = [[2500, "11", "12"]]
aft = [["41", 4500]]
[fuel]
rows = [[0, "0.00000"], [3000, "-0.01000"], [9000, "-1.21000"], [20000, "-2.31000"]]
[envelope.zero_fuel]
forward = [[40000, "40.00000"], [60000, "44.00000"], [65000, "45.00000"]]
aft = [[40000, "60.00000"], [65000, "60.00000"]]
[envelope.take_off]
forward = [[40000, "38.00000"], [75000, "42.00000"]]
aft = [[40000, "62.00000"], [75000, "62.00000"]]
[envelope.landing]
forward = [[40000, "39.00000"], [70000, "43.00000"]]
aft = [[40000, "61.00000"], [70000, "61.00000"]]
"#;

/// The aircraft of the file.
pub fn aircraft(alloc: Global) -> Result<Aircraft, NoMemory> {
    read_aircraft(alloc, DAIAB.as_bytes()).map_err(|_| NoMemory)
}

/// The fleet of this aircraft alone.
pub fn fleet(alloc: Global) -> Result<Vec<Aircraft>, NoMemory>
    ensures { IfOk result (λ fleet. AreApart fleet.items) }
{
    let mut fleet = Vec::new(alloc);
    fleet.push(aircraft(alloc)?)?;
    Ok(fleet)
}
