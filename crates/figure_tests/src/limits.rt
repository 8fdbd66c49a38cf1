use crate::pass;
use case_rows::{Subject, numbers, unsigned_at};
use mass_limits::{Certified, MassInput, Masses, broken, masses, underload};
use mass_units::Kg;
use std::alloc::Global;
use std::test::Fail;

const FLIGHT: MassInput = MassInput {
    dry: Kg(42_000),
    traffic: Kg(18_000),
    taxi: Kg(200),
    take_off_fuel: Kg(9_000),
    trip: Kg(6_000),
    regulated_take_off: Kg(73_500),
    regulated_landing: Kg(66_000),
};

#[test]
fn masses_build_on_one_another(rt: HostRuntime) {
    let got = masses(&FLIGHT);
    let want = Masses {
        ramp: Kg(69_200),
        zero_fuel: Kg(60_000),
        take_off: Kg(69_000),
        landing: Kg(63_000),
    };
    assert_eq!(rt; got, want);
}

/// The flight with the first three numbers as its traffic load and its regulated masses of take-off and landing.
fn flight_of(numbers: &[i64]) -> MassInput {
    MassInput {
        traffic: Kg(unsigned_at(numbers, 0)),
        regulated_take_off: Kg(unsigned_at(numbers, 1)),
        regulated_landing: Kg(unsigned_at(numbers, 2)),
        ..FLIGHT
    }
}

/// The next four numbers as the certified masses.
fn certified_of(numbers: &[i64]) -> Certified {
    Certified {
        ramp: Kg(unsigned_at(numbers, 3)),
        zero_fuel: Kg(unsigned_at(numbers, 4)),
        take_off: Kg(unsigned_at(numbers, 5)),
        landing: Kg(unsigned_at(numbers, 6)),
    }
}

/// The underload of a case, which has the traffic load, the regulated masses and the certified ones.
struct Left;

impl Subject for Left {
    fn said(&self, alloc: Global, case: &str) -> Result<String, Fail> {
        let numbers = numbers(alloc, case)?;
        let flight = flight_of(numbers.as_slice());
        let certified = certified_of(numbers.as_slice());
        Ok(format!(in alloc; "{:?}", underload(&flight, &certified))?)
    }
}

// A limit at the zero-fuel allowance and one kilogram below it: the take-off limit, and the landing limit. Then both below it:
// equal, and landing one kilogram below.
#[test]
fn underload_is_what_the_first_of_the_least_limits_leaves(rt: HostRuntime) {
    let rows = "Underload { kg: 2500, limiting: ZeroFuel }|18000 73500 66000 73900 62500 73500 66000
Underload { kg: 0, limiting: ZeroFuel }|20500 73500 66000 73900 62500 73500 66000
Underload { kg: -1, limiting: ZeroFuel }|20501 73500 66000 73900 62500 73500 66000
Underload { kg: 2500, limiting: ZeroFuel }|18000 71500 66000 73900 62500 73500 66000
Underload { kg: 2499, limiting: TakeOff }|18000 71499 66000 73900 62500 73500 66000
Underload { kg: 2500, limiting: ZeroFuel }|18000 73500 65500 73900 62500 73500 66000
Underload { kg: 2499, limiting: Landing }|18000 73500 65499 73900 62500 73500 66000
Underload { kg: 1000, limiting: TakeOff }|18000 70000 64000 73900 62500 73500 66000
Underload { kg: 999, limiting: Landing }|18000 70000 63999 73900 62500 73500 66000";
    pass(&rt, rt.alloc(), &Left, rows);
}

/// The rules that a case breaks.
struct Broken;

impl Subject for Broken {
    fn said(&self, alloc: Global, case: &str) -> Result<String, Fail> {
        let numbers = numbers(alloc, case)?;
        let flight = flight_of(numbers.as_slice());
        let certified = certified_of(numbers.as_slice());
        Ok(format!(in alloc; "{:?}", broken(&flight, &certified).as_slice())?)
    }
}

// A certified mass below the flight's own breaks nothing but the regulated mass above it.
#[test]
fn a_rule_is_broken_one_kilogram_beyond_its_limit(rt: HostRuntime) {
    let rows = "[]|18000 73500 66000 73900 62500 73500 66000
[ZeroFuel]|20501 73500 66000 73900 62500 73500 66000
[]|18000 73500 66000 69200 60000 73500 66000
[Ramp]|18000 73500 66000 69199 60000 73500 66000
[ZeroFuel]|18000 73500 66000 69200 59999 73500 66000
[]|18000 69000 63000 73900 62500 73500 66000
[TakeOff]|18000 68999 63000 73900 62500 73500 66000
[Landing]|18000 69000 62999 73900 62500 73500 66000
[RegulatedAboveCertified]|18000 73500 66000 73900 62500 68000 66000
[RegulatedAboveCertified]|18000 73501 66000 73900 62500 73500 66000
[RegulatedAboveCertified]|18000 73500 66001 73900 62500 73500 66000
[RegulatedAboveCertified]|18000 73501 66001 73900 62500 73500 66000
[Ramp, ZeroFuel, TakeOff, Landing, RegulatedAboveCertified]|18000 68999 62999 69199 59999 68998 62999";
    pass(&rt, rt.alloc(), &Broken, rows);
}
