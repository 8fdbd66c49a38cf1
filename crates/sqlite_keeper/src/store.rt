//! A keeper over a file.

ghost use Rattle.std.specs.Prelude.{◌≡◌, ◌≢◌, ◌≤◌, Err, IfOk, string_bytes};
ghost use Rattle.base_words.specs.Faults.{Rose};
ghost use Rattle.keeper.specs.Tables.{AreInKeyOrder};
ghost use Rattle.sqlite_keeper.specs.Path.{keeper_at};

use crate::fault::CommitFault;
use crate::place::Wanted;
use crate::runtime::{OpenRows, StoreRuntime};
use keeper::{KeepFault, Keeper, KeptRow};
use std::alloc::Global;
use std::marker::Model;

/// Keeps rows in the file of a path. Each call takes the file, and lets it go at its end, so that others read and write it
/// between two calls; what others wrote is read again. The first call makes the file if there is none, and no other does; the
/// file that was opened first has to be at the path from then on. Its tables are hidden. It counts each failure other than
/// being out of memory, up to the last value of the counter. Keepers of one file take turns, also those of several programs; but within
/// one program no two of them may be called at once, since one lets go of the locks that the other has.
#[derive(Drop)]
pub struct SqliteKeeper<Rt: StoreRuntime + Drop> {
    rt: Rt,
    path: String,
    wanted: Wanted,
    /// What the last call left open.
    open: Option<(Rt::Rows, Rt::Hold)>,
    faults: u64,
}

impl<Rt: StoreRuntime + Drop> Model for SqliteKeeper<Rt> {
    ghost use Rattle.std.specs.Prelude.{string_bytes};
    ghost use Rattle.sqlite_keeper.specs.Path.{FileKeeper};

    ghost Value = { FileKeeper };

    ghost view = { λ keeper. record { path = string_bytes keeper.path; faults = keeper.faults } };
}

impl<Rt: StoreRuntime + Drop> SqliteKeeper<Rt> {
    /// A keeper of the rows in the file at this path. No call has opened it yet, and no failure has been counted.
    pub fn new(rt: Rt, path: String) -> SqliteKeeper<Rt>
        ensures { result ≡ keeper_at (string_bytes path) }
    {
        SqliteKeeper {
            rt,
            path,
            wanted: Wanted::MadeIfMissing,
            open: None,
            faults: 0,
        }
    }

    /// Opens the file, with its table.
    fn opened(&mut self, alloc: Global) -> Result<(Rt::Rows, Rt::Hold), KeepFault>
        ensures same { self.new ≡ self.old }
    {
        let wanted = self.wanted;
        if let Wanted::MadeIfMissing = wanted {
            self.wanted = Wanted::Any;
        }
        let (mut rows, hold, file) = self.rt.open_store(self.path.as_str(), wanted)?;
        self.wanted = Wanted::Only(file);
        rows.prepare(alloc)?;
        Ok((rows, hold))
    }

    /// Takes the file for one call: what is open, if it is as it was let go, or else the file opened anew.
    fn taken(&mut self, alloc: Global) -> Result<(Rt::Rows, Rt::Hold), KeepFault>
        ensures same { self.new ≡ self.old }
    {
        if let Some((rows, hold)) = self.open.take() {
            if self.rt.take_again(self.path.as_str(), &hold)? {
                return Ok((rows, hold));
            }
        }
        self.opened(alloc)
    }

    /// Lets the file go behind a call that leaves it as it should be.
    fn let_go(&mut self, rows: Rt::Rows, mut hold: Rt::Hold)
        ensures same { self.new ≡ self.old }
    {
        if self.rt.let_go(&mut hold) {
            self.open = Some((rows, hold));
        }
    }

    fn loaded(&mut self, alloc: Global) -> Result<Vec<KeptRow>, KeepFault>
        ensures rising { IfOk result (λ rows. AreInKeyOrder rows.items) }
        ensures same { self.new ≡ self.old }
    {
        let (mut rows, hold) = self.taken(alloc)?;
        let loaded = rows.load(alloc)?;
        self.let_go(rows, hold);
        Ok(loaded)
    }

    fn committed(&mut self, alloc: Global, row: &KeptRow) -> Result<(), KeepFault>
        ensures same { self.new ≡ self.old }
    {
        let (mut rows, hold) = self.taken(alloc)?;
        let done = rows.commit(alloc, row);
        if let Ok(()) | Err(CommitFault::DiskFull) = done {
            self.let_go(rows, hold);
        }
        Ok(done?)
    }

    /// Counts a failure other than being out of memory.
    fn counted<T>(&mut self, answer: Result<T, KeepFault>) -> Result<T, KeepFault>
        ensures same { result ≡ answer }
        ensures same_path { self.new.path ≡ self.old.path }
        ensures never_falls { self.old.faults ≤ self.new.faults }
        ensures uncounted { answer ≢ Err KeepFault.Failed → self.new.faults ≡ self.old.faults }
        ensures counted { answer ≡ Err KeepFault.Failed → Rose self.old.faults self.new.faults }
    {
        if let Err(KeepFault::Failed) = answer {
            self.faults = self.faults.saturating_add(1);
        }
        answer
    }
}

impl<Rt: StoreRuntime + Drop> Keeper for SqliteKeeper<Rt> {
    ghost use Rattle.std.specs.Prelude.{None};

    ghost tables = { λ _. None };

    ghost faults = { λ keeper. keeper.faults };

    fn load(&mut self, alloc: Global) -> Result<Vec<KeptRow>, KeepFault>
        ensures same_path { self.new.path ≡ self.old.path }
        ensures rising { IfOk result (λ rows. AreInKeyOrder rows.items) }
        ensures never_falls { self.old.faults ≤ self.new.faults }
        ensures uncounted { result ≢ Err KeepFault.Failed → self.new.faults ≡ self.old.faults }
        ensures counted { result ≡ Err KeepFault.Failed → Rose self.old.faults self.new.faults }
    {
        let loaded = self.loaded(alloc);
        self.counted(loaded)
    }

    fn commit(&mut self, alloc: Global, row: &KeptRow) -> Result<(), KeepFault>
        ensures same_path { self.new.path ≡ self.old.path }
        ensures never_falls { self.old.faults ≤ self.new.faults }
        ensures uncounted { result ≢ Err KeepFault.Failed → self.new.faults ≡ self.old.faults }
        ensures counted { result ≡ Err KeepFault.Failed → Rose self.old.faults self.new.faults }
    {
        let committed = self.committed(alloc, row);
        self.counted(committed)
    }
}
