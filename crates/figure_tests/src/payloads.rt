use crate::pass;
use case_rows::{Subject, at, numbers, unsigned_at};
use mass_units::Kg;
use payload::{Averages, Cabin, Load, PayFault, Zone, ZoneCount, cabin_load, loose_mass};
use std::alloc::{AllocError, Global};
use std::test::Fail;

const ZONES: [Zone; 2] = [
    Zone {
        capacity: 60,
        influence: -700,
    },
    Zone {
        capacity: 90,
        influence: 500,
    },
];

const AVERAGES: Averages = Averages {
    adult: Kg(84),
    child: Kg(35),
    infant: Kg(10),
    bag: Kg(15),
};

/// The adults, the children and the infants of a zone.
fn count_of(numbers: &[i64]) -> ZoneCount {
    ZoneCount {
        adults: u16::try_from(at(numbers, 0)).unwrap_or(0),
        children: u16::try_from(at(numbers, 1)).unwrap_or(0),
        infants: u16::try_from(at(numbers, 2)).unwrap_or(0),
    }
}

/// The counts of a case's zones, three numbers for each.
fn counts_of(alloc: Global, case: &str) -> Result<Vec<ZoneCount>, Fail> {
    let numbers = numbers(alloc, case)?;
    let mut counts = Vec::new(alloc);
    for zone in numbers.chunks(3) {
        counts.push(count_of(zone))?;
    }
    Ok(counts)
}

fn load_of_one(alloc: Global, zone: ZoneCount) -> Result<Result<Load, PayFault>, AllocError> {
    let cabin = Cabin::from(vec![in alloc; zone]?);
    Ok(cabin_load(&cabin, &ZONES, &AVERAGES))
}

fn load_of_two(
    alloc: Global,
    first: ZoneCount,
    second: ZoneCount,
) -> Result<Result<Load, PayFault>, AllocError> {
    let cabin = Cabin::from(vec![in alloc; first, second]?);
    Ok(cabin_load(&cabin, &ZONES, &AVERAGES))
}

/// The load of a cabin of one or two zones in an aircraft of two.
struct Loads;

impl Subject for Loads {
    fn said(&self, alloc: Global, case: &str) -> Result<String, Fail> {
        let load = match counts_of(alloc, case)?.as_slice() {
            [one] => load_of_one(alloc, *one)?,
            [first, second] => load_of_two(alloc, *first, *second)?,
            _ => return Err(Fail::new("one zone or two")),
        };
        Ok(format!(in alloc; "{load:?}")?)
    }
}

#[test]
fn loads_of_a_cabin(rt: HostRuntime) {
    let rows =
        "Ok(Load { mass: Kg(10460), index: Ticks(-2000), adults: 120, children: 10, infants: 3 })|50 4 2 70 6 1
Ok(Load { mass: Kg(0), index: Ticks(0), adults: 0, children: 0, infants: 0 })|0 0 0 0 0 0
Ok(Load { mass: Kg(4844), index: Ticks(-3390800), adults: 56, children: 4, infants: 0 })|56 4 0 0 0 0
Ok(Load { mass: Kg(7315), index: Ticks(3657500), adults: 85, children: 5, infants: 0 })|0 0 0 85 5 0
Ok(Load { mass: Kg(5640), index: Ticks(-3948000), adults: 60, children: 0, infants: 60 })|60 0 60 0 0 0
Ok(Load { mass: Kg(470), index: Ticks(175000), adults: 5, children: 0, infants: 5 })|0 0 5 5 0 0
Ok(Load { mass: Kg(0), index: Ticks(0), adults: 0, children: 0, infants: 0 })|0 0 0";
    pass(&rt, rt.alloc(), &Loads, rows);
}

// One passenger beyond the seats of a zone, and one infant more than adults over both zones.
#[test]
fn refusals_of_a_cabin(rt: HostRuntime) {
    let rows = "Err(ZoneFull(1, 60))|57 4 0 0 0 0
Err(ZoneFull(1, 60))|56 5 0 0 0 0
Err(ZoneFull(2, 90))|0 0 0 85 6 0
Err(ZoneFull(1, 60))|61 0 0 91 0 0
Err(InfantsOverAdults)|60 0 61 0 0 0
Err(InfantsOverAdults)|0 9 6 5 0 0
Err(ZoneFull(1, 60))|61 0 62 0 0 0";
    pass(&rt, rt.alloc(), &Loads, rows);
}

/// The load of a cabin with more zones than the aircraft, which has two; or none, for a cabin of one.
struct Unknown;

impl Subject for Unknown {
    fn said(&self, alloc: Global, case: &str) -> Result<String, Fail> {
        let cabin = Cabin::from(counts_of(alloc, case)?);
        let count = cabin.as_slice().len();
        let zones = if count == 1 { &[] } else { ZONES.as_slice() };
        if count <= zones.len() {
            return Err(Fail::new("more zones than the aircraft has"));
        }
        Ok(format!(in alloc; "{:?}", cabin_load(&cabin, zones, &AVERAGES))?)
    }
}

#[test]
fn a_zone_that_the_aircraft_does_not_have(rt: HostRuntime) {
    let rows = "Err(ZoneUnknown(3))|61 0 62 0 0 0 0 0 0
Err(ZoneUnknown(3))|0 0 0 0 0 0 0 0 0 0 0 0
Err(ZoneUnknown(1))|0 0 0";
    pass(&rt, rt.alloc(), &Unknown, rows);
}

/// The counts of a cabin, and what it is taken apart to.
struct Returned;

impl Subject for Returned {
    fn said(&self, alloc: Global, case: &str) -> Result<String, Fail> {
        let cabin = Cabin::from(counts_of(alloc, case)?);
        let mut said = format!(in alloc; "{:?}", cabin.as_slice())?;
        let counts = Vec::from(cabin);
        said.push_str(format!(in alloc; "{:?}", counts.as_slice())?.as_str())?;
        Ok(said)
    }
}

#[test]
fn a_cabin_returns_its_counts(rt: HostRuntime) {
    let row =
        "[ZoneCount { adults: 1, children: 2, infants: 3 }, ZoneCount { adults: 0, children: 0, infants: 0 }]\
        [ZoneCount { adults: 1, children: 2, infants: 3 }, ZoneCount { adults: 0, children: 0, infants: 0 }]|1 2 3 0 0 0";
    pass(&rt, rt.alloc(), &Returned, row);
}

/// The mass of a loose load of a mass and of pieces of baggage.
struct Loose;

impl Subject for Loose {
    fn said(&self, alloc: Global, case: &str) -> Result<String, Fail> {
        let numbers = numbers(alloc, case)?;
        let mass = Kg(unsigned_at(numbers.as_slice(), 0));
        let pieces = u16::try_from(at(numbers.as_slice(), 1)).unwrap_or(0);
        Ok(format!(in alloc; "{:?}", loose_mass(mass, pieces, &AVERAGES))?)
    }
}

#[test]
fn loose_load_up_to_twenty_tonnes(rt: HostRuntime) {
    let rows = "Some(Kg(320))|200 8
Some(Kg(0))|0 0
Some(Kg(20000))|20000 0
None|20001 0
Some(Kg(20000))|19985 1
None|19986 1
Some(Kg(19995))|0 1333
None|0 1334
None|4294967295 65535";
    pass(&rt, rt.alloc(), &Loose, rows);
}
