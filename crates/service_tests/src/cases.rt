// A connection with an office, and what is written to it.
use base_words::NoMemory;
use desk_http::{ConnEnd, Solo, Tools, serve_connection};
use editions::Office;
use keeper::FailingKeeper;
use load_io::MemoryLink;
use placer::Direct;
use std::alloc::Global;
use std::test::Fail;
use worked_day::fleet;

/// A connection with an office, and what fails.
#[derive(Clone, Copy)]
pub struct Case {
    /// What is asked, so many times over.
    pub asked: &'static [&'static str],
    pub times: u32,
    /// The most bytes that a read gives.
    pub most: u32,
    /// How many entries the office has room for.
    pub capacity: u32,
    /// The read, the write and the commit that fail. They are counted from 1, so none has the number 0.
    pub fail_read: u64,
    pub fail_write: u64,
    pub fail_commit: u64,
}

impl Case {
    /// This is asked once, and nothing fails.
    pub fn of(asked: &'static [&'static str]) -> Case {
        Case {
            asked,
            times: 1,
            most: 100,
            capacity: 2_000,
            fail_read: 0,
            fail_write: 0,
            fail_commit: 0,
        }
    }

    fn link(self, alloc: Global, input: Vec<u8>) -> Result<MemoryLink, NoMemory> {
        let most = (self.most as usize).max(1);
        let fail_reads = vec![in alloc; self.fail_read]?;
        let fail_writes = vec![in alloc; self.fail_write]?;
        MemoryLink::new(alloc, input, most, 1_000_000, fail_reads, fail_writes)
    }

    /// The office, for one desk.
    fn office(self, alloc: Global) -> Result<Solo<FailingKeeper>, NoMemory> {
        let fail_commits = vec![in alloc; self.fail_commit]?;
        let mut keeper = FailingKeeper::new(alloc, Vec::new(alloc), fail_commits);
        match Office::start(alloc, fleet(alloc)?, u64::from(self.capacity), &mut keeper) {
            Ok(office) => Ok(Solo::new(office, keeper)),
            Err(_) => Err(NoMemory),
        }
    }
}

/// The bytes of these texts, one after another, so many times over.
pub fn joined(alloc: Global, texts: &[&str], times: u32) -> Result<Vec<u8>, NoMemory> {
    let mut bytes = Vec::new(alloc);
    for _ in 0..times {
        for text in texts {
            bytes.extend_from_slice(text.as_bytes())?;
        }
    }
    Ok(bytes)
}

/// How the connection of a case ends, and what is written to it.
pub fn served(rt: &HostRuntime, case: Case) -> Result<(ConnEnd, Vec<u8>), NoMemory> {
    let input = joined(rt.alloc(), case.asked, case.times)?;
    served_on(rt, case, input)
}

/// The same on this input.
pub fn served_on(
    rt: &HostRuntime,
    case: Case,
    input: Vec<u8>,
) -> Result<(ConnEnd, Vec<u8>), NoMemory> {
    let alloc = rt.alloc();
    let mut link = case.link(alloc, input)?;
    let mut tools = Tools::new(alloc)?;
    let mut solo = case.office(alloc)?;
    let end = serve_connection(rt, alloc, &mut tools, &mut solo, &mut link, &Direct);
    Ok((end, link.written().to_vec(alloc)?))
}

/// Fails where the connection of a case ends otherwise, or where something else is written to it than these texts.
pub fn check(rt: &HostRuntime, case: Case, end: ConnEnd, due: &[&str]) -> Result<(), Fail> {
    let (ended, written) = served(rt, case)?;
    if ended == end && written == joined(rt.alloc(), due, 1)? {
        return Ok(());
    }
    let text = String::from_utf8(written)?;
    Err(Fail::new(format_args!("{ended:?} after {text}")))
}
