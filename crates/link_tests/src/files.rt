// Files of the system, and files that are slow or torn.
use load_io::{FileShelf, Shelf, ShelfFault};
use std::alloc::{Allocator, Global};
use std::fs::{Metadata, OpenFile, OpenOptions};
use std::io::{self, ErrorKind, Read, Seek, SeekFrom, Write};
use std::rt::Files;
use std::test::Fail;
use std::{env, fs, process};

/// A file that gives its bytes one at a time. Where it is torn, a read behind them fails.
#[derive(Clone, Copy, Drop)]
struct Slow {
    left: &'static [u8],
    is_torn: bool,
}

/// What a file of the tests does not do.
fn unsupported<T>() -> io::Result<T> {
    Err(io::Error::from(ErrorKind::Unsupported))
}

impl Read for Slow {
    fn read(&mut self, buf: &mut [u8]) -> io::Result<usize> {
        if let ([first, rest @ ..], [slot, ..]) = (self.left, buf) {
            *slot = *first;
            self.left = rest;
            return Ok(1);
        }
        if self.is_torn {
            return Err(io::Error::from(ErrorKind::Other));
        }
        Ok(0)
    }
}

impl Write for Slow {
    fn write(&mut self, _buf: &[u8]) -> io::Result<usize> {
        Err(io::Error::from(ErrorKind::Unsupported))
    }

    fn flush(&mut self) -> io::Result<()> {
        unsupported()
    }
}

impl Seek for Slow {
    fn seek(&mut self, _to: SeekFrom) -> io::Result<u64> {
        unsupported()
    }
}

impl OpenFile for Slow {
    fn metadata(&self) -> io::Result<Metadata> {
        unsupported()
    }

    fn set_len(&self, _size: u64) -> io::Result<()> {
        unsupported()
    }

    fn sync_all(&self) -> io::Result<()> {
        unsupported()
    }

    fn sync_data(&self) -> io::Result<()> {
        unsupported()
    }
}

/// A runtime that has this file under each name.
#[derive(Drop)]
struct Disk(Slow);

impl Files for Disk {
    type File = Slow;

    type Dir = Slow;

    fn open_file(&self, _how: &OpenOptions, _path: &str) -> io::Result<Slow> {
        Ok(self.0)
    }

    fn open_dir(&self, _path: &str) -> io::Result<Slow> {
        unsupported()
    }

    fn metadata(&self, _path: &str) -> io::Result<Metadata> {
        unsupported()
    }

    fn symlink_metadata(&self, _path: &str) -> io::Result<Metadata> {
        unsupported()
    }

    fn copy(&self, _from: &str, _to: &str) -> io::Result<u64> {
        unsupported()
    }

    fn rename(&self, _from: &str, _to: &str) -> io::Result<()> {
        unsupported()
    }

    fn remove_file(&self, _path: &str) -> io::Result<()> {
        unsupported()
    }

    fn create_dir(&self, _path: &str) -> io::Result<()> {
        unsupported()
    }

    fn remove_dir(&self, _path: &str) -> io::Result<()> {
        unsupported()
    }

    fn remove_dir_all<B: Allocator>(&self, _alloc: B, _path: &str) -> io::Result<()> {
        unsupported()
    }
}

/// Why the file of that name is not read, or whether it has these bytes.
fn read<Rt: Files>(
    alloc: Global,
    shelf: &mut FileShelf<Rt>,
    name: &str,
    most: usize,
    due: &[u8],
) -> Result<bool, ShelfFault> {
    let bytes = shelf.read(alloc, name, most)?;
    Ok(bytes.as_slice() == due)
}

#[test]
fn short_reads_are_continued(rt: HostRuntime) {
    let text = b"12345".as_slice();
    // the most bytes that are read, and whether they are those of the file
    let rows = [(4, Err(ShelfFault::TooLong)), (5, Ok(true)), (6, Ok(true))];
    for (most, answer) in rows {
        let mut shelf = FileShelf::new(Disk(Slow {
            left: text,
            is_torn: false,
        }));
        assert_eq!(rt; read(rt.alloc(), &mut shelf, "slow", most, text), answer);
    }
}

#[test]
fn a_failure_after_some_bytes_is_a_failure(rt: HostRuntime) {
    let mut shelf = FileShelf::new(Disk(Slow {
        left: b"123",
        is_torn: true,
    }));
    let answer = read(rt.alloc(), &mut shelf, "torn", 9, b"123");
    assert_eq!(rt; answer, Err(ShelfFault::Failed));
}

#[test]
fn a_file_that_does_not_exist_fails(rt: HostRuntime) {
    let mut shelf = FileShelf::new(&rt);
    for _ in 0..3 {
        let answer = read(rt.alloc(), &mut shelf, "no/such/file", 9, b"");
        assert_eq!(rt; answer, Err(ShelfFault::Failed));
    }
}

/// A name with a blank at each end. The folder for what does not last becomes the current one.
fn temporary_name(rt: &HostRuntime) -> Result<String, Fail> {
    env::set_current_dir(rt, env::temp_dir(rt)?)?;
    Ok(format!(in rt.alloc(); " load_io-{} ", process::id(rt.process()))?)
}

// Names that are the same once trimmed. The files have several bytes, one byte and none.
#[test]
fn a_file_is_read_by_its_exact_name(rt: HostRuntime) -> Result<(), Fail> {
    let name = temporary_name(&rt)?;
    let files: [(&str, &[u8]); 4] = [
        (name.as_str(), b"both"),
        (name.as_str().trim_end(), b"1"),
        (name.as_str().trim_start(), b""),
        (name.as_str().trim(), b"none"),
    ];
    for (name, bytes) in files {
        fs::write(&rt, name, bytes)?;
    }
    let mut shelf = FileShelf::new(&rt);
    for (name, bytes) in files {
        let answer = read(rt.alloc(), &mut shelf, name, 4, bytes);
        assert_eq!(rt; answer, Ok(true), "at {name}");
    }
    for (name, _) in files {
        fs::remove_file(&rt, name)?;
    }
    Ok(())
}

// The lengths are those of the pieces in which a file is read, and their neighbours.
#[test]
fn a_file_is_read_up_to_the_limit(rt: HostRuntime) -> Result<(), Fail> {
    let name = temporary_name(&rt)?;
    let mut shelf = FileShelf::new(&rt);
    for length in [1, 4095, 4096, 4097, 10000] {
        let bytes = vec![in rt.alloc(); b'x'; length]?;
        fs::write(&rt, name.as_str(), bytes.as_slice())?;
        // the most bytes that are read, and whether they are those of the file
        let limits = [
            (length - 1, Err(ShelfFault::TooLong)),
            (length, Ok(true)),
            (length + 1, Ok(true)),
        ];
        for (most, answer) in limits {
            let read = read(
                rt.alloc(),
                &mut shelf,
                name.as_str(),
                most,
                bytes.as_slice(),
            );
            assert_eq!(rt; read, answer, "at {length} and {most}");
        }
    }
    fs::remove_file(&rt, name.as_str())?;
    Ok(())
}
