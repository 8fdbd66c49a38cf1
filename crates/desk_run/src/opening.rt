//! The office is opened.

ghost use Rattle.std.specs.Prelude.{◌≡◌, ◌≢◌, ◌<◌, ◌≤◌, ◌^◌, Err, IfOk, IfErr, IfSome, Ok};
ghost use Rattle.base_words.specs.Faults.{Rose};
ghost use Rattle.desk_fleet.specs.Fleet.{names_of, IsFleet};
ghost use Rattle.editions.specs.Books.{HasTables};
ghost use Rattle.editions.specs.Starting.{IsStarted};
ghost use Rattle.desk_run.specs.Faults.{IsNotOpened};
ghost use Rattle.desk_run.specs.Runs.{reserved};

use crate::fault::DeskFault;
use desk_fleet::fleet_from;
use desk_http::Tools;
use editions::Office;
use keeper::Keeper;
use load_io::Shelf;
use std::alloc::Global;

/// How many entries are reserved: a connection has at most 1,000 requests, and a request makes at most two.
const RESERVED: u64 = 2_000;

/// An office before its first request, and what its connection is served with.
#[derive(Drop)]
pub struct OpenDesk {
    pub office: Office,
    pub tools: Tools,
}

/// Opens an office on the fleet of the files and on the rows that were kept, with so many entries reserved. The files are read
/// first, then the rows are loaded.
pub fn open_office<F: Shelf, K: Keeper>(
    alloc: Global,
    shelf: &mut F,
    names: &[String],
    capacity: u64,
    keeper: &mut K,
) -> Result<Office, DeskFault>
    requires few { capacity < 2 ^ 63 }
    ensures fleet { IfOk result (λ office. IfSome (F.files shelf.old) (λ files. IsFleet files (names_of names.now) office.fleet)) }
    ensures started { IfOk result (λ office. IsStarted office.fleet capacity (K.tables keeper.old) office) }
    ensures tables { IfOk result (λ office. HasTables (K.tables keeper.new) office) }
    ensures refused { IfErr result (IsNotOpened (F.files shelf.old) (names_of names.now) (K.tables keeper.old)) }
    ensures counted { result ≡ Err DeskFault.Unread → Rose (F.faults shelf.old) (F.faults shelf.new) }
    ensures uncounted { result ≢ Err DeskFault.Unread → F.faults shelf.new ≡ F.faults shelf.old }
    ensures same_files { F.files shelf.new ≡ F.files shelf.old }
    ensures same_tables { K.tables keeper.new ≡ K.tables keeper.old }
    ensures cause { result ≡ Err DeskFault.Keeper → Rose (K.faults keeper.old) (K.faults keeper.new) }
    ensures same_count { result ≢ Err DeskFault.Keeper → K.faults keeper.new ≡ K.faults keeper.old }
    ensures never_falls { K.faults keeper.old ≤ K.faults keeper.new }
{
    let fleet = fleet_from(alloc, shelf, names)?;
    let office = Office::start(alloc, fleet, capacity, keeper)?;
    Ok(office)
}

/// Opens an office as `open_office` does, and takes the memory for what its connection is served with.
pub fn open_desk<F: Shelf, K: Keeper>(
    alloc: Global,
    shelf: &mut F,
    names: &[String],
    keeper: &mut K,
) -> Result<OpenDesk, DeskFault>
    ensures fleet { IfOk result (λ desk. IfSome (F.files shelf.old) (λ files. IsFleet files (names_of names.now) desk.office.fleet)) }
    ensures started { IfOk result (λ desk. IsStarted desk.office.fleet reserved (K.tables keeper.old) desk.office) }
    ensures tables { IfOk result (λ desk. HasTables (K.tables keeper.new) desk.office) }
    ensures refused { IfErr result (IsNotOpened (F.files shelf.old) (names_of names.now) (K.tables keeper.old)) }
    ensures counted { result ≡ Err DeskFault.Unread → Rose (F.faults shelf.old) (F.faults shelf.new) }
    ensures uncounted { result ≢ Err DeskFault.Unread → F.faults shelf.new ≡ F.faults shelf.old }
    ensures same_files { F.files shelf.new ≡ F.files shelf.old }
    ensures same_tables { K.tables keeper.new ≡ K.tables keeper.old }
    ensures cause { result ≡ Err DeskFault.Keeper → Rose (K.faults keeper.old) (K.faults keeper.new) }
    ensures same_count { result ≢ Err DeskFault.Keeper → K.faults keeper.new ≡ K.faults keeper.old }
    ensures never_falls { K.faults keeper.old ≤ K.faults keeper.new }
{
    let office = open_office(alloc, shelf, names, RESERVED, keeper)?;
    let tools = Tools::new(alloc)?;
    Ok(OpenDesk { office, tools })
}
