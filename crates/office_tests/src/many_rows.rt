// How many rows an office opens with.
use editions::{Office, StartFault};
use keeper::{Bytes, Keeper, KeptRow, MemoryKeeper};
use std::alloc::Global;
use std::test::Fail;
use worked_day::fleet;

/// The row of a flight just after its opening.
fn opened_row(alloc: Global, number: u32) -> Result<KeptRow, Fail> {
    let key = format!(in alloc; "XX{number}-12")?;
    let bytes = format!(in alloc;
        "FLIGHT 2\nleg XX{number} 12 DAIAB FRA ARN\nedition 1\nstage working\nreleases 0\ndry 42000 50.00000 0 0\nfuel 0 0 0\nlimits 73500 66000\nEND\n"
    )?;
    Ok(KeptRow {
        key: Bytes::from(key.into_bytes()),
        bytes: Bytes::from(bytes.into_bytes()),
    })
}

/// A keeper of so many flights.
fn keeper_of(alloc: Global, flights: u16) -> Result<MemoryKeeper, Fail> {
    let mut keeper = MemoryKeeper::new(alloc);
    for number in 0..flights {
        keeper.commit(alloc, &opened_row(alloc, 1000 + u32::from(number))?)?;
    }
    Ok(keeper)
}

/// How many flights an office opens with, of which so many are kept, and none where there are too many.
fn opened_with(alloc: Global, flights: u16) -> Result<Option<usize>, Fail> {
    let mut keeper = keeper_of(alloc, flights)?;
    match Office::start(alloc, fleet(alloc)?, 3, &mut keeper) {
        Ok(office) => Ok(Some(office.opening().len())),
        Err(StartFault::TooMany) => Ok(None),
        Err(_) => Err(Fail::new("each row is that of a flight")),
    }
}

#[test]
fn an_office_opens_with_two_thousand_flights(rt: HostRuntime) -> Result<(), Fail> {
    assert_eq!(rt; opened_with(rt.alloc(), 2000)?, Some(2000));
    Ok(())
}

#[test]
fn two_thousand_and_one_flights_are_too_many(rt: HostRuntime) -> Result<(), Fail> {
    assert_eq!(rt; opened_with(rt.alloc(), 2001)?, None);
    Ok(())
}
