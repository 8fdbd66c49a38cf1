// Lists that make no table, and the index of a fuel mass between and at its rows.
use crate::pass;
use case_rows::{Subject, at, field, numbers, unsigned_at};
use fuel_table::{FuelRow, FuelTable};
use mass_units::{Kg, Ticks};
use std::alloc::Global;
use std::test::Fail;

/// The rows of a text: pairs of a fuel mass and of its index.
fn rows_of(alloc: Global, text: &str) -> Result<Vec<FuelRow>, Fail> {
    let numbers = numbers(alloc, text)?;
    let mut rows = Vec::new(alloc);
    for pair in numbers.chunks(2) {
        rows.push(FuelRow {
            fuel: Kg(unsigned_at(pair, 0)),
            index: Ticks(at(pair, 1)),
        })?;
    }
    Ok(rows)
}

/// How many rows a table has, and its index of a mass; or why there is no table. A case has the rows and the mass.
struct Table;

impl Subject for Table {
    fn said(&self, alloc: Global, case: &str) -> Result<String, Fail> {
        let mass = numbers(alloc, field(case, 1)?)?;
        let mass = Kg(unsigned_at(mass.as_slice(), 0));
        match FuelTable::new(rows_of(alloc, field(case, 0)?)?) {
            Ok(table) => {
                let count = table.rows().len();
                Ok(format!(in alloc; "{count} {:?}", table.index(mass))?)
            }
            Err(fault) => Ok(format!(in alloc; "{fault:?}")?),
        }
    }
}

#[test]
fn indices_are_rounded_down_between_rows(rt: HostRuntime) {
    let rows = "2 Some(Ticks(0))|0 0 3000 -1000|0
2 Some(Ticks(-1))|0 0 3000 -1000|1
2 Some(Ticks(-1000))|0 0 3000 -1000|3000
2 None|0 0 3000 -1000|3001
3 None|10 5 20 8 30 -8|9
3 Some(Ticks(7))|10 5 20 8 30 -8|19
3 Some(Ticks(8))|10 5 20 8 30 -8|20
3 Some(Ticks(-2))|10 5 20 8 30 -8|26";
    pass(&rt, rt.alloc(), &Table, rows);
}

#[test]
fn one_row_has_its_own_index(rt: HostRuntime) {
    let rows = "1 None|500 -7|499
1 Some(Ticks(-7))|500 -7|500
1 None|500 -7|501";
    pass(&rt, rt.alloc(), &Table, rows);
}

/// What is said of a table with so many rows, and with one more row behind them that has a fuel mass of 256 kg.
struct Long;

impl Subject for Long {
    fn said(&self, alloc: Global, case: &str) -> Result<String, Fail> {
        let mut rows = Vec::new(alloc);
        for fuel in 0..case.parse::<u32>()? {
            rows.push(FuelRow {
                fuel: Kg(fuel),
                index: Ticks(0),
            })?;
        }
        let mut more = rows.clone()?;
        more.push(FuelRow {
            fuel: Kg(256),
            index: Ticks(0),
        })?;
        let fault = FuelTable::new(rows).err();
        Ok(format!(in alloc; "{fault:?} {:?}", FuelTable::new(more).err())?)
    }
}

#[test]
fn lists_that_are_no_table_are_refused(rt: HostRuntime) {
    let rows = "Empty||0
NotRising(2)|0 0 5 0 5 0|0";
    pass(&rt, rt.alloc(), &Table, rows);
    let rows = "None Some(TooMany)|256
Some(TooMany) Some(NotRising(257))|257";
    pass(&rt, rt.alloc(), &Long, rows);
}
