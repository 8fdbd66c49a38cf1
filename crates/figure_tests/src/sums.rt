// Sums.
use crate::pass;
use case_rows::{Subject, at, numbers, unsigned_at};
use mass_units::{Kg, Ticks};
use std::alloc::Global;
use std::test::Fail;

/// The sum of two masses, and that of two indices.
struct Sums;

impl Subject for Sums {
    fn said(&self, alloc: Global, case: &str) -> Result<String, Fail> {
        let numbers = numbers(alloc, case)?;
        let numbers = numbers.as_slice();
        let mass = Kg(unsigned_at(numbers, 0)).plus(Kg(unsigned_at(numbers, 1)));
        let index = Ticks(at(numbers, 2)).plus(Ticks(at(numbers, 3)));
        Ok(format!(in alloc; "{mass:?} {index:?}")?)
    }
}

#[test]
fn sums_do_not_overflow(rt: HostRuntime) {
    let rows = "Some(Kg(42580)) Some(Ticks(4998000))|42000 580 5000000 -2000
None None|4294967295 1 -9223372036854775808 -1";
    pass(&rt, rt.alloc(), &Sums, rows);
}
