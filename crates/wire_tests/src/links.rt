// Links in memory, the one that never fails, and one that is joined of an input and an output.
use load_io::{Failed, Joined, Link, MemoryLink, MemorySink, SureLink, SureSource, send_all};
use std::test::Fail;

#[test]
fn the_directions_of_a_memory_link_fail_apart(rt: HostRuntime) -> Result<(), Fail> {
    let alloc = rt.alloc();
    let input = Vec::from_slice(alloc, b"abc")?;
    let (fail_reads, fail_writes) = (vec![in alloc; 1]?, vec![in alloc; 2]?);
    let mut link = MemoryLink::new(alloc, input, 9, 5, fail_reads, fail_writes)?;
    let mut buf = *b"....";
    assert_eq!(rt; link.read(&mut buf), Err(Failed));
    assert_eq!(rt; link.write(b"12"), Ok(2));
    assert_eq!(rt; link.read(&mut buf), Ok(3));
    assert_eq!(rt; link.write(b"34"), Err(Failed));
    assert_eq!(rt; send_all(&mut link, b"345"), Ok(()));
    assert_eq!(rt; send_all(&mut link, b"6"), Err(Failed));
    assert_eq!(rt; (&buf, link.written()), (b"abc.", b"12345".as_slice()));
    Ok(())
}

#[test]
fn a_joined_link_reads_and_writes(rt: HostRuntime) -> Result<(), Fail> {
    let alloc = rt.alloc();
    let mut input = SureSource::new(Vec::from_slice(alloc, b"abc")?);
    let mut out = MemorySink::new(alloc, 9, Vec::new(alloc))?;
    let mut link = Joined {
        input: &mut input,
        out: &mut out,
    };
    let mut buf = *b"....";
    assert_eq!(rt; link.read(&mut buf), Ok(3));
    assert_eq!(rt; send_all(&mut link, b"12345"), Ok(()));
    assert_eq!(rt; (&buf, out.written()), (b"abc.", b"12345".as_slice()));
    Ok(())
}

#[test]
fn a_sure_link_reads_and_writes(rt: HostRuntime) -> Result<(), Fail> {
    let mut link = SureLink::new(Vec::from_slice(rt.alloc(), b"abc")?);
    let mut buf = *b"....";
    assert_eq!(rt; link.read(&mut buf), Ok(3));
    assert_eq!(rt; send_all(&mut link, b"12345"), Ok(()));
    assert_eq!(rt; link.read(&mut buf), Ok(0));
    assert_eq!(rt; &buf, b"abc.");
    Ok(())
}
