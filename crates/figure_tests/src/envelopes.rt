// Lists that make no envelope, its edges, and its window beside what a scan finds.
use crate::pass;
use case_rows::{Subject, at, field, numbers, unsigned_at};
use envelope::{Corner, Envelope};
use mass_units::{Kg, Ticks};
use std::alloc::Global;
use std::test::Fail;

/// The corners of a text: pairs of a mass and of its index.
fn side_of(alloc: Global, text: &str) -> Result<Vec<Corner>, Fail> {
    let numbers = numbers(alloc, text)?;
    let mut side = Vec::new(alloc);
    for pair in numbers.chunks(2) {
        side.push(Corner {
            mass: Kg(unsigned_at(pair, 0)),
            index: Ticks(at(pair, 1)),
        })?;
    }
    Ok(side)
}

/// Whether a mass and an index are inside an envelope, the window of the mass, and how many corners each side has.
fn told_of(alloc: Global, envelope: &Envelope, asked: &[i64]) -> Result<String, Fail> {
    let mass = Kg(unsigned_at(asked, 0));
    let inside = envelope.inside(mass, Ticks(at(asked, 1)));
    let corners = (envelope.forward().len(), envelope.aft().len());
    Ok(format!(in alloc; "{inside} {:?} {corners:?}", envelope.window(mass))?)
}

/// What an envelope tells, or why there is none. A case has the forward side, the aft side, and a mass with an index.
struct Sides;

impl Subject for Sides {
    fn said(&self, alloc: Global, case: &str) -> Result<String, Fail> {
        let forward = side_of(alloc, field(case, 0)?)?;
        let aft = side_of(alloc, field(case, 1)?)?;
        let asked = numbers(alloc, field(case, 2)?)?;
        match Envelope::new(forward, aft) {
            Ok(envelope) => told_of(alloc, &envelope, asked.as_slice()),
            Err(fault) => Ok(format!(in alloc; "{fault:?}")?),
        }
    }
}

#[test]
fn an_edge_is_not_rounded(rt: HostRuntime) {
    let rows =
        "true Some((Ticks(4200020), Ticks(6000000))) (2, 2)|40000 4000000 60000 4400000|40000 6000000 60000 6000000|50001 4200020
false Some((Ticks(4200020), Ticks(6000000))) (2, 2)|40000 4000000 60000 4400000|40000 6000000 60000 6000000|50001 4200019
true Some((Ticks(4400000), Ticks(6000000))) (2, 2)|40000 4000000 60000 4400000|40000 6000000 60000 6000000|60000 6000000
false None (2, 2)|40000 4000000 60000 4400000|40000 6000000 60000 6000000|60001 5000000
false None (2, 2)|40000 4000000 60000 4400000|40000 6000000 60000 6000000|39999 5000000";
    pass(&rt, rt.alloc(), &Sides, rows);
}

#[test]
fn lists_that_are_no_envelope_are_refused(rt: HostRuntime) {
    let rows = "TooFewCorners|40000 0|40000 6000000 60000 6000000|
TooFewCorners|40000 6000000 60000 6000000||
NotRising(2)|1 0 2 0 2 0 1 0|2 0 1 0|
NotRising(1)|40000 6000000 60000 6000000|2 0 1 0|
DifferentSpan|40000 0 60001 0|40000 6000000 60000 6000000|
DifferentSpan|40001 0 60000 0|40000 6000000 60000 6000000|
Crossed(Kg(60000))|40000 4000000 60000 6100000|40000 6000000 60000 6000000|
Crossed(Kg(50000))|40000 4000000 60000 4000000|40000 6000000 50000 3000000 55000 3000000 60000 6000000|
true Some((Ticks(4000000), Ticks(4000000))) (2, 2)|40000 4000000 60000 4000000|40000 4000000 60000 4000000|50000 4000000";
    pass(&rt, rt.alloc(), &Sides, rows);
}

/// The fault of an envelope with so many corners on each side.
struct Long;

impl Subject for Long {
    fn said(&self, alloc: Global, case: &str) -> Result<String, Fail> {
        let mut corners = Vec::new(alloc);
        for mass in 0..case.parse::<u32>()? {
            corners.push(Corner {
                mass: Kg(mass),
                index: Ticks(0),
            })?;
        }
        let same = corners.clone()?;
        Ok(format!(in alloc; "{:?}", Envelope::new(corners, same).err())?)
    }
}

#[test]
fn a_side_has_at_most_64_corners(rt: HostRuntime) {
    pass(
        &rt,
        rt.alloc(),
        &Long,
        "None|64
Some(TooFewCorners)|65",
    );
}

/// The least and the greatest tick from -30 to 30 that `inside` allows.
fn scan(envelope: &Envelope, mass: Kg) -> Option<(Ticks, Ticks)> {
    let mut found = None;
    for tick in -30..=30 {
        let tick = Ticks(tick);
        if envelope.inside(mass, tick) {
            found = match found {
                None => Some((tick, tick)),
                Some((least, _)) => Some((least, tick)),
            };
        }
    }
    found
}

/// The first mass up to 11 kg whose window is not what a scan finds.
struct Scanned;

impl Subject for Scanned {
    fn said(&self, alloc: Global, case: &str) -> Result<String, Fail> {
        let forward = side_of(alloc, field(case, 0)?)?;
        let aft = side_of(alloc, field(case, 1)?)?;
        let envelope = Envelope::new(forward, aft)?;
        for mass in 0..=11 {
            if envelope.window(Kg(mass)) != scan(&envelope, Kg(mass)) {
                return Ok(format!(in alloc; "{mass}")?);
            }
        }
        Ok(String::from_str(alloc, "none")?)
    }
}

#[test]
fn the_window_is_what_a_scan_finds(rt: HostRuntime) {
    let rows = "none|0 -20 7 -13 10 -17|0 3 3 -5 10 -16
none|0 -2 9 1|0 -2 6 0 9 2";
    pass(&rt, rt.alloc(), &Scanned, rows);
    let rows = "false None (2, 3)|0 -2 9 1|0 -2 6 0 9 2|1 0
true Some((Ticks(-1), Ticks(-1))) (2, 3)|0 -2 9 1|0 -2 6 0 9 2|3 -1
true Some((Ticks(-14), Ticks(-13))) (3, 3)|0 -20 7 -13 10 -17|0 3 3 -5 10 -16|8 -14";
    pass(&rt, rt.alloc(), &Sides, rows);
}
