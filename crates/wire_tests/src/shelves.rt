// Shelves in memory, and their failures.
ghost use Rattle.std.specs.Prelude.{IfOk};
ghost use Rattle.load_io.specs.MemoryShelf.{HaveDifferentNames, named_files};

use load_io::{MemoryShelf, Shelf, ShelfFault, SureShelf};
use std::alloc::{AllocError, Global};
use std::test::Fail;

// A file of five bytes and an empty one.
fn two_files(alloc: Global) -> Result<Vec<(String, Vec<u8>)>, AllocError>
    ensures { IfOk result (λ files. HaveDifferentNames (named_files files.items)) }
{
    let five = (String::from_str(alloc, "five")?, b"12345".to_vec(alloc)?);
    let none = (String::from_str(alloc, "none")?, Vec::new(alloc));
    Ok(vec![in alloc; none, five]?)
}

#[test]
fn a_memory_shelf_reads_the_file_of_that_name(rt: HostRuntime) -> Result<(), Fail> {
    let alloc = rt.alloc();
    let mut shelf = MemoryShelf::new(two_files(alloc)?, vec![in alloc; 5]?);
    assert_eq!(rt;
        shelf.read(alloc, "five", 6)?.as_slice(),
        b"12345".as_slice()
    );
    assert_eq!(rt;
        shelf.read(alloc, "five", 5)?.as_slice(),
        b"12345".as_slice()
    );
    assert_eq!(rt; shelf.read(alloc, "none", 0)?.len(), 0);
    assert!(rt; matches!(shelf.read(alloc, "five", 4), Err(ShelfFault::TooLong)));
    assert!(rt;
        matches!(shelf.read(alloc, "five", 5), Err(ShelfFault::Failed)),
        "the listed call"
    );
    assert!(rt;
        matches!(shelf.read(alloc, "six", 5), Err(ShelfFault::Failed)),
        "no such file"
    );
    assert_eq!(rt;
        shelf.read(alloc, "five", 5)?.as_slice(),
        b"12345".as_slice()
    );
    Ok(())
}

#[test]
fn a_sure_shelf_has_an_empty_file_under_each_other_name(rt: HostRuntime) -> Result<(), Fail> {
    let alloc = rt.alloc();
    let mut shelf = SureShelf::new(two_files(alloc)?);
    assert_eq!(rt;
        shelf.read(alloc, "five", 5)?.as_slice(),
        b"12345".as_slice()
    );
    assert!(rt; matches!(shelf.read(alloc, "five", 4), Err(ShelfFault::TooLong)));
    assert_eq!(rt; shelf.read(alloc, "six", 0)?.len(), 0);
    Ok(())
}
