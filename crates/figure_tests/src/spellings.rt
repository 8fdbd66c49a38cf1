// Texts of numbers and indices.
use crate::pass;
use case_rows::{Subject, at, numbers, unsigned_at};
use mass_units::{
    Ticks, read_long_number, read_number, read_signed, read_ticks5, write_number, write_signed,
    write_ticks2, write_ticks5,
};
use std::alloc::Global;
use std::test::Fail;

/// The index that a text spells.
struct IndexRead;

impl Subject for IndexRead {
    fn said(&self, alloc: Global, case: &str) -> Result<String, Fail> {
        Ok(format!(in alloc; "{:?}", read_ticks5(case.as_bytes()))?)
    }
}

#[test]
fn indices_are_read(rt: HostRuntime) {
    let rows = "Ok(Ticks(0))|0.00000
Ok(Ticks(-1))|-0.00001
Ok(Ticks(5000000))|50.00000
Ok(Ticks(1000000000))|10000.00000
Ok(Ticks(-1000000000))|-10000.00000";
    pass(&rt, rt.alloc(), &IndexRead, rows);
}

#[test]
fn other_texts_are_refused(rt: HostRuntime) {
    let rows = "Err(NotANumber)|
Err(NotANumber)|-
Err(NotANumber)|-0.00000
Err(NotANumber)|01.00000
Err(NotANumber)|-01.00000
Err(NotANumber)|50.0
Err(NotANumber)|50.000000
Err(NotANumber)|+1.00000
Err(NotANumber)|.00000
Err(NotANumber)|50,00000
Err(NotANumber)|50.0000a
Err(NotANumber)| 1.00000
Err(TooLarge)|10000.00001
Err(TooLarge)|-10000.00001
Err(TooLarge)|1234567890123456789012345678901234567890.00000
Err(TooLarge)|-1234567890123456789012345678901234567890.00000";
    pass(&rt, rt.alloc(), &IndexRead, rows);
}

/// An index as it is written with five decimals, and with two.
struct IndexWritten;

impl Subject for IndexWritten {
    fn said(&self, alloc: Global, case: &str) -> Result<String, Fail> {
        let ticks = Ticks(case.parse::<i64>()?);
        let mut out = Vec::new(alloc);
        write_ticks5(alloc, ticks, &mut out)?;
        out.push(b' ')?;
        write_ticks2(alloc, ticks, &mut out)?;
        Ok(String::from_utf8(out)?)
    }
}

#[test]
fn indices_are_written(rt: HostRuntime) {
    let rows = "0.00000 0.00|0
-0.00001 0.00|-1
50.00000 50.00|5000000
-1.23456 -1.23|-123456
92233720368547.75807 92233720368547.76|9223372036854775807
-92233720368547.75808 -92233720368547.76|-9223372036854775808";
    pass(&rt, rt.alloc(), &IndexWritten, rows);
}

#[test]
fn two_decimals_are_rounded_away_from_zero(rt: HostRuntime) {
    let rows = "-0.00499 0.00|-499
-0.00500 -0.01|-500
0.00500 0.01|500
51.66499 51.66|5166499
99.99500 100.00|9999500";
    pass(&rt, rt.alloc(), &IndexWritten, rows);
}

/// The number, the number of up to 32 bits and the signed number that a text spells.
struct NumbersRead;

impl Subject for NumbersRead {
    fn said(&self, alloc: Global, case: &str) -> Result<String, Fail> {
        let text = case.as_bytes();
        let (number, long) = (read_number(text), read_long_number(text));
        Ok(format!(in alloc; "{number:?} {long:?} {:?}", read_signed(text))?)
    }
}

#[test]
fn numbers_are_read(rt: HostRuntime) {
    let rows = "Some(0) Some(0) Some(0)|0
Some(999999999) Some(999999999) Some(999999999)|999999999
None Some(1000000000) None|1000000000
None Some(4294967295) None|4294967295
None None None|4294967296
None None Some(-1)|-1
None None Some(-600)|-600
None None Some(-999999999)|-999999999
None None None|-1000000000
None None None|
None None None|00
None None None|01500
None None None|+1
None None None|12a
None None None|-
None None None|-0
None None None|-01
None None None|--1";
    pass(&rt, rt.alloc(), &NumbersRead, rows);
}

/// A number as it is written, and behind it a signed number.
struct NumbersWritten;

impl Subject for NumbersWritten {
    fn said(&self, alloc: Global, case: &str) -> Result<String, Fail> {
        let numbers = numbers(alloc, case)?;
        let number = u64::from(unsigned_at(numbers.as_slice(), 0));
        let signed = i32::try_from(at(numbers.as_slice(), 1)).unwrap_or(0);
        let mut out = Vec::new(alloc);
        write_number(alloc, number, &mut out)?;
        write_signed(alloc, signed, &mut out)?;
        Ok(String::from_utf8(out)?)
    }
}

#[test]
fn numbers_are_written(rt: HostRuntime) {
    let rows = "1500-600|1500 -600
42949672950|4294967295 0";
    pass(&rt, rt.alloc(), &NumbersWritten, rows);
}
