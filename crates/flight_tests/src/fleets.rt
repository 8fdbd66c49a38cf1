// Fleets from files, and the first file that cannot join.
ghost use Rattle.std.specs.Prelude.{IfOk};
ghost use Rattle.load_io.specs.MemoryShelf.{HaveDifferentNames, named_files};

use desk_fleet::{FleetFault, fleet_from, line_of_refusal};
use load_io::MemoryShelf;
use std::alloc::{AllocError, Global};
use std::test::Fail;
use worked_day::DAIAB;

// The file of the worked aircraft, one of another aircraft, and one that describes none.
fn three_files(alloc: Global) -> Result<Vec<(String, Vec<u8>)>, AllocError>
    ensures { IfOk result (λ files. HaveDifferentNames (named_files files.items)) }
{
    let other = String::from_str(alloc, DAIAB)?.replace(alloc, "DAIAB", "DAIAC")?;
    let worked = (
        String::from_str(alloc, "a")?,
        DAIAB.as_bytes().to_vec(alloc)?,
    );
    let second = (
        String::from_str(alloc, "b")?,
        other.as_bytes().to_vec(alloc)?,
    );
    let wrong = (
        String::from_str(alloc, "c")?,
        b"registration = 5".to_vec(alloc)?,
    );
    Ok(vec![in alloc; worked, second, wrong]?)
}

/// What is said of the files of these names, one letter each: how many aircraft they describe, or the line of the refused
/// one.
fn said_of(alloc: Global, names: &[u8]) -> Result<String, Fail> {
    let mut shelf = MemoryShelf::new(three_files(alloc)?, Vec::new(alloc));
    let mut words = Vec::new(alloc);
    for name in names {
        words.push(String::from_utf8(vec![in alloc; *name]?).map_err(|_| Fail::new("a name"))?)?;
    }
    match fleet_from(alloc, &mut shelf, &words) {
        Ok(fleet) => Ok(format!(in alloc; "{}", fleet.len())?),
        Err(FleetFault::Refused(file)) => {
            let line = line_of_refusal(alloc, file)?;
            Ok(String::from_utf8(line).map_err(|_| Fail::new("a line"))?)
        }
        Err(fault) => Ok(format!(in alloc; "{fault}")?),
    }
}

#[test]
fn a_fleet_has_an_aircraft_for_each_file(rt: HostRuntime) -> Result<(), Fail> {
    assert_eq!(rt; said_of(rt.alloc(), b"ba")?.as_str(), "2");
    assert_eq!(rt; said_of(rt.alloc(), b"aba")?.as_str(), "AIRCRAFT 3 TWICE\n");
    assert_eq!(rt;
        said_of(rt.alloc(), b"acx")?.as_str(),
        "AIRCRAFT 2 FAULT 3\n"
    );
    assert_eq!(rt;
        said_of(rt.alloc(), b"ax")?.as_str(),
        "a file could not be read"
    );
    Ok(())
}
