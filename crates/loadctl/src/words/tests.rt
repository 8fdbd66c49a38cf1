// Arguments that ask for nothing.
use super::*;
use crate::examples::words;
use std::test::Fail;

#[test]
fn invalid_arguments_are_said_to_be_so(rt: HostRuntime) -> Result<(), Fail> {
    let rows: [&[&str]; 6] = [
        &[],
        &["place"],
        &["place", "a", "b", "c"],
        &["place", "t", "0"],
        &["place", "-x"],
        &["serve", "9", "7001", ":memory:", "a"],
    ];
    for texts in rows {
        let words = words(rt.alloc(), texts)?;
        assert_eq!(rt; needs(rt.alloc(), &words), Err(WordFault::Usage));
    }
    Ok(())
}

#[test]
fn several_desks_need_their_doors(rt: HostRuntime) -> Result<(), Fail> {
    let words = words(rt.alloc(), &["serve", "2", "7001", "day.db", "a"])?;
    let needed = needs(rt.alloc(), &words);
    let due = Needs {
        doors: 2,
        port: 7_001,
        store: Some(3),
    };
    assert_eq!(rt; needed, Ok(due));
    Ok(())
}
