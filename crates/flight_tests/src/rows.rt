// The row of the worked flight.
use flight_row::{RowFault, read_row, write_row};
use std::alloc::Global;
use std::test::Fail;
use worked_day::{ROW, aircraft};

#[test]
fn the_worked_row_is_read_and_written(rt: HostRuntime) -> Result<(), Fail> {
    let mut fleet = Vec::new(rt.alloc());
    fleet.push(aircraft(rt.alloc())?)?;
    let flight = read_row(rt.alloc(), fleet.as_slice(), ROW.as_bytes())?;
    assert_eq!(rt; flight.releases, 1);
    let Some(aircraft) = fleet.first() else {
        return Err(Fail::new("there is an aircraft"));
    };
    let text = write_row(rt.alloc(), aircraft, &flight)?;
    assert_eq!(rt; text.as_slice(), ROW.as_bytes());
    Ok(())
}

#[test]
fn a_row_without_its_aircraft_or_its_end_is_refused(rt: HostRuntime) {
    let alloc = rt.alloc();
    assert_eq!(rt;
        read_row(alloc, &[], ROW.as_bytes()).err(),
        Some(RowFault::NoAircraft)
    );
    assert_eq!(rt;
        read_row(alloc, &[], b"FLIGHT 2\n").err(),
        Some(RowFault::NoEnd)
    );
    assert_eq!(rt;
        read_row(alloc, &[], b"FLIGHT 3\n").err(),
        Some(RowFault::Line(1))
    );
}
