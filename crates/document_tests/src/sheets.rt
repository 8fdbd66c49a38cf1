// The worked sheet, and numbers that look random.
use aircraft_file::Version;
use last_minute::{Lmcs, PlaceList, Sheet};
use mass_limits::{Limiting, Masses, Underload};
use mass_units::{Kg, Ticks};
use std::alloc::Global;
use trim::{Balance, Dry, Fuel, Regulated};
use worked_day::leg;

fn worked_balance() -> Balance {
    Balance {
        masses: Masses {
            ramp: Kg(63_780),
            zero_fuel: Kg(54_580),
            take_off: Kg(63_580),
            landing: Kg(57_580),
        },
        underload: Underload {
            kg: 7_920,
            limiting: Limiting::ZeroFuel,
        },
        zero_fuel: Ticks(5_166_000),
        take_off: Ticks(5_044_950),
        landing: Ticks(5_165_000),
    }
}

/// The worked sheet, without its places.
pub fn worked(alloc: Global) -> Option<Sheet> {
    Some(Sheet {
        leg: leg().ok()?,
        version: Version::read(b"Y150")?,
        edition: 7,
        dry: Dry {
            mass: Kg(42_000),
            index: Ticks(5_000_000),
            cockpit: 2,
            attendants: 4,
        },
        fuel: Fuel {
            taxi: Kg(200),
            take_off: Kg(9_000),
            trip: Kg(6_000),
        },
        regulated: Regulated {
            take_off: Kg(73_500),
            landing: Kg(66_000),
        },
        max_zero_fuel: Kg(62_500),
        adults: 120,
        children: 10,
        infants: 3,
        cabin_mass: Kg(10_460),
        container_mass: Kg(1_800),
        loose_mass: Kg(320),
        balance: worked_balance(),
        mac: [2_579, 2_523, 2_574],
        places: PlaceList::from(Vec::new(alloc)),
        lmcs: Lmcs::new(alloc),
    })
}

/// The next of a row of numbers that look random, below 2 ^ 24.
pub fn next(seed: &mut u64) -> u32 {
    *seed = seed
        .wrapping_mul(6_364_136_223_846_793_005)
        .wrapping_add(1_442_695_040_888_963_407);
    (*seed >> 40) as u32
}
