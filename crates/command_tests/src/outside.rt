// Files and outputs that fail.
use crate::runs::{due, ran, ran_on, ran_over};
use base_words::NoMemory;
use load_io::{FileShelf, MemoryShelf};
use std::alloc::Global;
use std::test::Fail;

/// A shelf without files, whose first read fails.
fn failing_shelf(alloc: Global) -> Result<MemoryShelf, NoMemory> {
    Ok(MemoryShelf::new(Vec::new(alloc), vec![in alloc; 1]?))
}

#[test]
fn failures_outside_end_the_run(rt: HostRuntime) -> Result<(), Fail> {
    let alloc = rt.alloc();
    let absent = ran(alloc, "place,u", "positions", "nothing")?;
    assert_eq!(rt; absent.as_str(), "6 ");
    let failed = ran_on(alloc, "place,t", &mut failing_shelf(alloc)?, 100)?;
    assert_eq!(rt; failed.as_str(), "6 ");
    Ok(())
}

#[test]
fn a_real_file_that_does_not_exist_ends_the_run(rt: HostRuntime) -> Result<(), Fail> {
    let mut shelf = FileShelf::new(rt);
    let absent = ran_on(rt.alloc(), "place,there/is/no/such.task", &mut shelf, 100)?;
    assert_eq!(rt; absent.as_str(), "6 ");
    Ok(())
}

#[test]
fn a_load_that_is_made_needs_no_file(rt: HostRuntime) -> Result<(), Fail> {
    let alloc = rt.alloc();
    let summary = ran_on(alloc, "gen,0", &mut failing_shelf(alloc)?, 1_000)?;
    assert_eq!(rt; summary.as_str(), due(alloc, "0", "load_0")?.as_str());
    Ok(())
}

/// A shelf with a file `t` of so many bytes.
fn long_shelf(alloc: Global, length: usize) -> Result<MemoryShelf, NoMemory> {
    let mut files = Vec::new(alloc);
    files.push((String::from_str(alloc, "t")?, vec![in alloc; b'x'; length]?))?;
    Ok(MemoryShelf::new(files, Vec::new(alloc)))
}

#[test]
fn a_file_that_is_too_long_is_refused(rt: HostRuntime) -> Result<(), Fail> {
    let mut shelf = long_shelf(rt.alloc(), 1_048_576 + 1)?;
    for words in ["place,t", "stops,t", "transit,t,t,t,FRA,ARN"] {
        let refused = ran_on(rt.alloc(), words, &mut shelf, 100)?;
        assert_eq!(rt; refused.as_str(), "3 INPUT LONG\n");
    }
    Ok(())
}

#[test]
fn an_output_that_is_cut_off_has_a_proper_prefix(rt: HostRuntime) -> Result<(), Fail> {
    let alloc = rt.alloc();
    let whole = due(alloc, "7", "plan")?;
    let length = whole.len().checked_sub(2).ok_or("no status")?;
    for room in 0..length {
        let cut = ran_over(
            alloc,
            "place,t",
            "positions,items,indices",
            String::new(alloc),
            room,
        )?;
        assert_eq!(rt;
            cut.as_bytes(),
            &whole.as_bytes()[..room + 2],
            "with room for {room}"
        );
    }
    Ok(())
}
