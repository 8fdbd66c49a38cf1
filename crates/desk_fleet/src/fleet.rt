//! The fleet is read, file by file.

ghost use Rattle.std.specs.Prelude.{◌≡◌, ◌≢◌, ◌+◌, ◌≤◌, [], ◌∷◌, ◌++◌, length, false, Ok, Err, IfOk, IfErr, IfSome, OnOk};
ghost use Rattle.base_words.specs.Faults.{Rose};
ghost use Rattle.load_io.specs.Shelf.{IsWhole, HasMoreThan};
ghost use Rattle.aircraft_file.specs.Craft.{AreApart};
ghost use Rattle.aircraft_file.specs.Lawful.{IsAnswerTo};
ghost use Rattle.desk_fleet.specs.Fleet.{longest_file, names_of, CannotJoin, IfFault, IfRefused, IsFileOf, IsFleet, IsRefused, is_taken};
ghost use Rattle.desk_fleet.specs.declared.fault.FileReason.TheVariants.{Long};

use crate::fault::{FileReason, FleetFault, RefusedFile};
use aircraft_file::{Aircraft, FileFault, Registration, read_aircraft};
use base_words::NoMemory;
use load_io::{Shelf, ShelfFault};
use std::alloc::Global;

/// The greatest length of an aircraft's file, in bytes.
const LONGEST_FILE: usize = 1_048_576;

/// This file is refused.
fn refused(number: usize, reason: FileReason) -> FleetFault
    ensures { result ≡ FleetFault.Refused (record { number = number; reason = reason }) }
{
    FleetFault::Refused(RefusedFile { number, reason })
}

/// The bytes of a file that is not too long.
fn text_from<F: Shelf>(
    alloc: Global,
    shelf: &mut F,
    name: &str,
    number: usize,
) -> Result<Vec<u8>, FleetFault>
    ensures whole { IfOk result (λ text. IsWhole (F.files shelf.old) name.now text.items) }
    ensures short { IfOk result (λ text. length text.items ≤ longest_file) }
    ensures long { IfErr result (λ fault. IfRefused fault (λ file. (file ≡ record { number = number; reason = Long }) × HasMoreThan (F.files shelf.old) name.now longest_file)) }
    ensures counted { result ≡ Err FleetFault.Unread → Rose (F.faults shelf.old) (F.faults shelf.new) }
    ensures uncounted { result ≢ Err FleetFault.Unread → F.faults shelf.new ≡ F.faults shelf.old }
    ensures same { F.files shelf.new ≡ F.files shelf.old }
{
    match shelf.read(alloc, name, LONGEST_FILE) {
        Ok(text) => Ok(text),
        Err(ShelfFault::TooLong) => Err(refused(number, FileReason::Long)),
        Err(ShelfFault::Failed) => Err(FleetFault::Unread),
        Err(ShelfFault::NoMemory) => Err(FleetFault::NoMemory),
    }
}

/// The aircraft that a text describes.
fn aircraft_in(alloc: Global, text: &[u8], number: usize) -> Result<Aircraft, FleetFault>
    ensures described { IfOk result (λ craft. IsAnswerTo text.now (Ok craft)) }
    ensures refused { IfErr result (λ fault. IfRefused fault (λ file. (file.number ≡ number) × IfFault file.reason (λ fault. IsAnswerTo text.now (Err fault)))) }
    ensures read { result ≢ Err FleetFault.Unread }
{
    match read_aircraft(alloc, text) {
        Ok(aircraft) => Ok(aircraft),
        Err(FileFault::NoMemory) => Err(FleetFault::NoMemory),
        Err(fault) => Err(refused(number, FileReason::Fault(fault))),
    }
}

/// Whether an aircraft of the fleet has this registration.
fn is_taken(fleet: &[Aircraft], registration: &Registration) -> bool
    ensures { result ≡ is_taken fleet.now registration.now }
{
    fleet.iter().any(|aircraft| aircraft.registration().bytes() == registration.bytes())
}

/// The aircraft of the next file of a fleet.
fn next_aircraft<F: Shelf>(
    alloc: Global,
    shelf: &mut F,
    fleet: &[Aircraft],
    name: &str,
) -> Result<Aircraft, FleetFault>
    ensures described { IfOk result (λ craft. IfSome (F.files shelf.old) (λ files. IsFileOf files name.now craft)) }
    ensures free { IfOk result (λ craft. is_taken fleet.now craft.registration ≡ false) }
    ensures refused { IfErr result (λ fault. IfRefused fault (λ file. IfSome (F.files shelf.old)
        (λ files. (file.number ≡ length fleet.now + 1) × CannotJoin files fleet.now name.now file.reason))) }
    ensures counted { result ≡ Err FleetFault.Unread → Rose (F.faults shelf.old) (F.faults shelf.new) }
    ensures uncounted { result ≢ Err FleetFault.Unread → F.faults shelf.new ≡ F.faults shelf.old }
    ensures same { F.files shelf.new ≡ F.files shelf.old }
{
    let number = fleet.len() + 1;
    let text = text_from(alloc, shelf, name, number)?;
    let aircraft = aircraft_in(alloc, text.as_slice(), number)?;
    if is_taken(fleet, aircraft.registration()) {
        return Err(refused(number, FileReason::Twice));
    }
    Ok(aircraft)
}

/// The fleet that grows by one aircraft.
fn push_aircraft(fleet: &mut Vec<Aircraft>, aircraft: Aircraft) -> Result<(), NoMemory>
    ensures { OnOk result (fleet.new.items ≡ fleet.old.items ++ aircraft ∷ []) }
{
    fleet.push(aircraft)?;
    Ok(())
}

/// The fleet in the files of these names, which are read and judged in this order. The first that cannot join the
/// aircraft of those before it is refused.
pub fn fleet_from<F: Shelf>(
    alloc: Global,
    shelf: &mut F,
    names: &[String],
) -> Result<Vec<Aircraft>, FleetFault>
    ensures fleet { IfOk result (λ fleet. IfSome (F.files shelf.old) (λ files. IsFleet files (names_of names.now) fleet.items)) }
    ensures apart { IfOk result (λ fleet. AreApart fleet.items) }
    ensures many { IfOk result (λ fleet. length fleet.items ≡ length names.now) }
    ensures refused { IfErr result (λ fault. IfRefused fault (λ file. IfSome (F.files shelf.old)
        (λ files. IsRefused files (names_of names.now) file))) }
    ensures counted { result ≡ Err FleetFault.Unread → Rose (F.faults shelf.old) (F.faults shelf.new) }
    ensures uncounted { result ≢ Err FleetFault.Unread → F.faults shelf.new ≡ F.faults shelf.old }
    ensures same { F.files shelf.new ≡ F.files shelf.old }
{
    let mut fleet = Vec::new(alloc);
    for name in names {
        let aircraft = next_aircraft(alloc, shelf, fleet.as_slice(), name.as_str())?;
        push_aircraft(&mut fleet, aircraft)?;
    }
    Ok(fleet)
}
