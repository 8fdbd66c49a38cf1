// An office, and links that ask.
ghost use Rattle.std.specs.Prelude.{◌≡◌, [], IfOk};
ghost use Rattle.editions.specs.Books.{HasTables};

use base_words::NoMemory;
use editions::Office;
use keeper::Keeper;
use load_io::MemoryLink;
use std::alloc::Global;
use worked_day::fleet;

/// The bytes of these texts, one after another.
pub fn joined(alloc: Global, texts: &[&str]) -> Result<Vec<u8>, NoMemory> {
    let mut bytes = Vec::new(alloc);
    for text in texts {
        bytes.extend_from_slice(text.as_bytes())?;
    }
    Ok(bytes)
}

/// A link with this input, which never fails.
pub fn link(alloc: Global, texts: &[&str]) -> Result<MemoryLink, NoMemory> {
    let input = joined(alloc, texts)?;
    MemoryLink::new(alloc, input, 100, 100_000, Vec::new(alloc), Vec::new(alloc))
}

/// An office with room for so many entries and no flight yet, and its keeper.
pub fn office<K: Keeper + Drop>(
    alloc: Global,
    keeper: K,
    capacity: u32,
) -> Result<(Office, K), NoMemory>
    ensures tables { IfOk result (λ r. HasTables (K.tables r.1) r.0) }
    ensures unasked { IfOk result (λ r. r.0.history ≡ []) }
    ensures reserved { IfOk result (λ r. r.0.spare ≡ capacity) }
{
    let mut keeper = keeper;
    match Office::start(alloc, fleet(alloc)?, u64::from(capacity), &mut keeper) {
        Ok(office) => Ok((office, keeper)),
        Err(_) => Err(NoMemory),
    }
}
