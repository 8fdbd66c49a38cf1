// Lines from mass to index.
use crate::pass;
use case_rows::{Subject, at, numbers, unsigned_at};
use mass_units::{Kg, Line, Ticks};
use std::alloc::Global;
use std::test::Fail;

/// What a line says of a mass and of an index at it: its ticks below and above, and whether the index is on it or aft, and on
/// it or forward. A case has the line's ends, the mass and the index.
struct Slope;

impl Subject for Slope {
    fn said(&self, alloc: Global, case: &str) -> Result<String, Fail> {
        let numbers = numbers(alloc, case)?;
        let line = Line {
            from: Kg(unsigned_at(numbers.as_slice(), 0)),
            at_from: Ticks(at(numbers.as_slice(), 1)),
            to: Kg(unsigned_at(numbers.as_slice(), 2)),
            at_to: Ticks(at(numbers.as_slice(), 3)),
        };
        let mass = Kg(unsigned_at(numbers.as_slice(), 4));
        let index = Ticks(at(numbers.as_slice(), 5));
        if line.from.0 >= line.to.0 || !line.spans(mass) {
            return Err(Fail::new("the line rises in mass and spans it"));
        }
        let (floor, ceil) = (line.floor_at(mass).0, line.ceil_at(mass).0);
        let aft = line.is_on_or_aft(mass, index);
        let forward = line.is_on_or_forward(mass, index);
        Ok(format!(in alloc; "{floor} {ceil} {aft} {forward}")?)
    }
}

#[test]
fn a_falling_line_is_rounded_both_ways(rt: HostRuntime) {
    let rows = "-1 0 false true|0 0 3000 -1000 1 -1
-1 0 true false|0 0 3000 -1000 1 0
-1 -1 true true|0 0 3000 -1000 3 -1
-1000 -1000 true true|0 0 3000 -1000 3000 -1000";
    pass(&rt, rt.alloc(), &Slope, rows);
}

#[test]
fn the_widest_line_has_its_ends(rt: HostRuntime) {
    let rows =
        "-9223372036854775808 -9223372036854775808 true true|0 -9223372036854775808 4294967295 9223372036854775807 0 -9223372036854775808
9223372036854775807 9223372036854775807 true true|0 -9223372036854775808 4294967295 9223372036854775807 4294967295 9223372036854775807
2147483648 2147483648 true true|0 -9223372036854775808 4294967295 9223372036854775807 2147483648 2147483648";
    pass(&rt, rt.alloc(), &Slope, rows);
}
