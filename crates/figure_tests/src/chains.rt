// Lines from point to point.
use crate::pass;
use case_rows::{Subject, at, numbers, unsigned_at};
use mass_units::{Kg, Lines, Point, Ticks, ToPoint, first_fall};
use std::alloc::Global;
use std::test::Fail;

/// A mass of cargo, and the index that it adds.
#[derive(Clone, Copy)]
struct Cargo(u32, i64);

impl ToPoint for Cargo {
    ghost point = { λ c. record { mass = record { 0 = c.0 }; index = record { 0 = c.1 } } };

    fn to_point(&self) -> Point {
        Point {
            mass: Kg(self.0),
            index: Ticks(self.1),
        }
    }
}

/// The cargo of a case: pairs of a mass and of its index.
fn cargo_of(alloc: Global, case: &str) -> Result<Vec<Cargo>, Fail> {
    let numbers = numbers(alloc, case)?;
    let mut cargo = Vec::new(alloc);
    for pair in numbers.chunks(2) {
        cargo.push(Cargo(unsigned_at(pair, 0), at(pair, 1)))?;
    }
    Ok(cargo)
}

/// The lines between the points of a case.
struct Between;

impl Subject for Between {
    fn said(&self, alloc: Global, case: &str) -> Result<String, Fail> {
        let cargo = cargo_of(alloc, case)?;
        let mut said = String::new(alloc);
        for line in Lines::between(cargo.as_slice()) {
            said.push_str(format!(in alloc; "{line:?}")?.as_str())?;
        }
        Ok(said)
    }
}

#[test]
fn lines_run_from_each_point_to_the_next(rt: HostRuntime) {
    let rows = "Line { from: Kg(0), at_from: Ticks(7), to: Kg(10), at_to: Ticks(5) }\
        Line { from: Kg(10), at_from: Ticks(5), to: Kg(30), at_to: Ticks(-8) }|0 7 10 5 30 -8
|4 4";
    pass(&rt, rt.alloc(), &Between, rows);
}

/// The first point of a case that has no more mass than the one before it.
struct FirstFall;

impl Subject for FirstFall {
    fn said(&self, alloc: Global, case: &str) -> Result<String, Fail> {
        let cargo = cargo_of(alloc, case)?;
        Ok(format!(in alloc; "{:?}", first_fall(cargo.as_slice()))?)
    }
}

#[test]
fn equal_masses_do_not_rise(rt: HostRuntime) {
    let rows = "None|0 0 5 0 6 0
Some(2)|0 0 5 0 5 0 1 0";
    pass(&rt, rt.alloc(), &FirstFall, rows);
}
