// Centres of gravity on a chord.
use crate::pass;
use case_rows::{Subject, at, numbers, unsigned_at};
use mass_units::{Chord, Kg, Ticks, mac_hundredths};
use std::alloc::Global;
use std::test::Fail;

/// The chord of the first five numbers: its index, its constant, its reference, its leading edge and its length.
fn chord_of(numbers: &[i64]) -> Chord {
    Chord {
        k: Ticks(at(numbers, 0)),
        c: unsigned_at(numbers, 1),
        reference_mm: i32::try_from(at(numbers, 2)).unwrap_or(0),
        lemac_mm: i32::try_from(at(numbers, 3)).unwrap_or(0),
        mac_mm: unsigned_at(numbers, 4),
    }
}

/// The centre of gravity, in hundredths of a percent, of a chord, an index and a mass.
struct Centre;

impl Subject for Centre {
    fn said(&self, alloc: Global, case: &str) -> Result<String, Fail> {
        let numbers = numbers(alloc, case)?;
        let chord = chord_of(numbers.as_slice());
        let index = Ticks(at(numbers.as_slice(), 5));
        let mass = unsigned_at(numbers.as_slice(), 6);
        if mass == 0 || chord.mac_mm == 0 {
            return Err(Fail::new("a mass and a length"));
        }
        Ok(format!(in alloc; "{}", mac_hundredths(index, Kg(mass), &chord))?)
    }
}

#[test]
fn a_loadsheet_has_its_three_centres(rt: HostRuntime) {
    let rows = "2579|5000000 1000 18850 17800 4190 5166000 54580
2523|5000000 1000 18850 17800 4190 5045000 63580
2574|5000000 1000 18850 17800 4190 5165000 57580";
    pass(&rt, rt.alloc(), &Centre, rows);
}

#[test]
fn halves_go_away_from_zero(rt: HostRuntime) {
    let rows = "3|0 1 0 0 200 5 1
-3|0 1 0 0 200 -5 1
2|0 1 0 0 200 4 1
0|0 1 0 0 200 0 1
-220128210903574599117|5000000 1000 18850 17800 4190 -9223372036854775808 1";
    pass(&rt, rt.alloc(), &Centre, rows);
}
