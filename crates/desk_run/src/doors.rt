//! One run of several desks.

ghost use Rattle.std.specs.Prelude.{◌≡◌, ◌≢◌, ◌<◌, ◌≤◌, ◌^◌, [], Err, vec_len, IfOk, IfErr, OnErr};
ghost use Rattle.base_words.specs.Faults.{Rose};
ghost use Rattle.desk_fleet.specs.Fleet.{names_of};
ghost use Rattle.desk_run.specs.DoorRuns.{IsRunOfDoors, HaveSameRows};
ghost use Rattle.desk_run.specs.Faults.{IsNotOpened};
ghost use Rattle.desk_serve.specs.Service.{IsOneHistory};
ghost use Rattle.editions.specs.Books.{HasTables};

use crate::fault::DeskFault;
use crate::opening::open_office;
use base_words::NoMemory;
use desk_serve::{DoorsEnd, OfficeRun, serve_doors};
use editions::Office;
use keeper::Keeper;
use load_io::{Door, Shelf};
use placer::Placing;
use std::alloc::Global;
use std::sync::Wait;
use std::thread::Threads;

/// How many entries are reserved for the doors.
const RESERVED: u64 = 1_000_000;

/// The desks of an open office serve the doors.
fn serve_all<Rt: Threads + Wait + Sync, K: Keeper + Send + Drop, D: Door + Send, P: Placing + Sync>(
    rt: &Rt,
    alloc: Global,
    office: Office,
    keeper: K,
    doors: Vec<D>,
    placing: &P,
) -> OfficeRun<Result<DoorsEnd, DeskFault>, K, Vec<D>>
    requires doors { (0 < vec_len doors) × (vec_len doors ≤ 8) }
    requires tables { HasTables (K.tables keeper) office }
    requires unasked { office.history ≡ [] }
    requires few { office.spare < 2 ^ 63 }
    ensures served { IfOk result.ending (λ ending. IsOneHistory D.coming D.handed D.faults
        D.Link.left D.Link.content D.Link.read_faults D.Link.write_faults
        office (K.tables result.keeper) (K.faults keeper) (K.faults result.keeper)
        doors.items result.doors.items ending result.opening.items result.history.items) }
    ensures memory { IfErr result.ending (λ fault. fault ≡ DeskFault.NoMemory) }
    ensures empty { OnErr result.ending ((result.opening.items ≡ []) × (result.history.items ≡ [])) }
    ensures unserved { OnErr result.ending ((result.doors.items ≡ doors.items) × (K.faults result.keeper ≡ K.faults keeper)) }
    ensures kept { OnErr result.ending (HasTables (K.tables result.keeper) office) }
{
    let OfficeRun {
        ending,
        keeper,
        doors,
        opening,
        history,
    } = serve_doors(rt, alloc, office, keeper, doors, placing);
    match ending {
        Ok(ending) => OfficeRun {
            ending: Ok(ending),
            keeper,
            doors,
            opening,
            history,
        },
        Err(NoMemory) => OfficeRun::unopened(alloc, Err(DeskFault::NoMemory), keeper, doors),
    }
}

/// Opens an office on the fleet of the files and on the rows that were kept, and serves the doors, each by a desk of its own,
/// until they are closed or fail. It may wait forever.
pub fn run_doors<
    Rt: Threads + Wait + Sync,
    F: Shelf,
    K: Keeper + Send + Drop,
    D: Door + Send,
    P: Placing + Sync,
>(
    rt: &Rt,
    alloc: Global,
    names: &[String],
    shelf: &mut F,
    keeper: K,
    doors: Vec<D>,
    placing: &P,
) -> OfficeRun<Result<DoorsEnd, DeskFault>, K, Vec<D>>
    requires doors { (0 < vec_len doors) × (vec_len doors ≤ 8) }
    ensures served { IfOk result.ending (λ ending. IsRunOfDoors D.coming D.handed D.faults
        D.Link.left D.Link.content D.Link.read_faults D.Link.write_faults
        (F.files shelf.old) (names_of names.now) (K.tables keeper) (K.tables result.keeper) (K.faults keeper) (K.faults result.keeper)
        doors.items result.doors.items ending result.opening.items result.history.items) }
    ensures refused { IfErr result.ending (IsNotOpened (F.files shelf.old) (names_of names.now) (K.tables keeper)) }
    ensures empty { OnErr result.ending ((result.opening.items ≡ []) × (result.history.items ≡ [])) }
    ensures unserved { OnErr result.ending (result.doors.items ≡ doors.items) }
    ensures counted { result.ending ≡ Err DeskFault.Unread → Rose (F.faults shelf.old) (F.faults shelf.new) }
    ensures uncounted { result.ending ≢ Err DeskFault.Unread → F.faults shelf.new ≡ F.faults shelf.old }
    ensures same_files { F.files shelf.new ≡ F.files shelf.old }
    ensures same_tables { IfErr result.ending (λ fault. fault ≢ DeskFault.NoMemory → K.tables result.keeper ≡ K.tables keeper) }
    ensures same_rows { OnErr result.ending (HaveSameRows (K.tables keeper) (K.tables result.keeper)) }
    ensures cause { result.ending ≡ Err DeskFault.Keeper → Rose (K.faults keeper) (K.faults result.keeper) }
    ensures same_count { IfErr result.ending (λ fault. fault ≢ DeskFault.Keeper → K.faults result.keeper ≡ K.faults keeper) }
    ensures never_falls { K.faults keeper ≤ K.faults result.keeper }
{
    let mut keeper = keeper;
    match open_office(alloc, shelf, names, RESERVED, &mut keeper) {
        Ok(office) => serve_all(rt, alloc, office, keeper, doors, placing),
        Err(fault) => OfficeRun::unopened(alloc, Err(fault), keeper, doors),
    }
}
