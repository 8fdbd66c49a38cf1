//! A desk at an office of its own.

ghost use Rattle.std.specs.Prelude.{IfOk};
ghost use Rattle.editions.specs.Acts.{IsWithinLimits};
ghost use Rattle.aircraft_file.specs.Craft.{AreApart};

use aircraft_file::{Aircraft, Registration, read_aircraft};
use base_words::NoMemory;
use editions::{Office, Reply, Request, What};
use flight_state::{Day, FlightKey, FlightName, Leg, Station};
use keeper::MemoryKeeper;
use std::alloc::Global;

/// The most requests of a run.
const MOST_REQUESTS: u64 = 1_000_000;

/// An office and what keeps its rows.
#[derive(Drop)]
pub struct Desk {
    office: Office,
    keeper: MemoryKeeper,
}

/// The leg of a flight of this number on the 12th.
fn leg(alloc: Global, number: u32) -> Result<Leg, NoMemory> {
    let name = format!(in alloc; "XX{number}")?;
    Ok(Leg {
        flight: FlightName::read(name.as_bytes()).ok_or(NoMemory)?,
        day: Day::read(b"12").ok_or(NoMemory)?,
        registration: Registration::read(b"DAIAB").ok_or(NoMemory)?,
        origin: Station::read(b"FRA").ok_or(NoMemory)?,
        destination: Station::read(b"ARN").ok_or(NoMemory)?,
    })
}

/// The key of the flight of this number.
pub fn key(alloc: Global, number: u32) -> Result<FlightKey, NoMemory> {
    let key = format!(in alloc; "XX{number}-12")?;
    FlightKey::read(key.as_bytes()).ok_or(NoMemory)
}

/// The fleet of the aircraft of this file.
fn fleet(alloc: Global, file: &[u8]) -> Result<Vec<Aircraft>, NoMemory>
    ensures { IfOk result (λ fleet. AreApart fleet.items) }
{
    let mut fleet = Vec::new(alloc);
    fleet.push(read_aircraft(alloc, file).map_err(|_| NoMemory)?)?;
    Ok(fleet)
}

/// An office of this aircraft, on what is kept.
fn opened(alloc: Global, file: &[u8], keeper: &mut MemoryKeeper) -> Result<Office, NoMemory> {
    Office::start(alloc, fleet(alloc, file)?, MOST_REQUESTS, keeper).map_err(|_| NoMemory)
}

impl Desk {
    /// A desk at an office that was started on so many kept flights, with the numbers from 1 on.
    pub fn started(alloc: Global, file: &[u8], flights: u32) -> Result<Desk, NoMemory> {
        let mut keeper = MemoryKeeper::new(alloc);
        let office = opened(alloc, file, &mut keeper)?;
        let mut desk = Desk { office, keeper };
        for number in 0..flights {
            let leg = leg(alloc, number.saturating_add(1))?;
            desk.ask(alloc, Request::NewFlight { leg })?;
        }
        let mut keeper = desk.keeper;
        let office = opened(alloc, file, &mut keeper)?;
        Ok(Desk { office, keeper })
    }

    /// The reply to a request, where an entry is spare.
    pub fn ask(&mut self, alloc: Global, request: Request) -> Result<Reply, NoMemory>
        requires { IsWithinLimits request }
    {
        if self.office.spare() == 0 {
            return Err(NoMemory);
        }
        Ok(self.office.turn(alloc, &mut self.keeper, 1, request))
    }

    /// Shows the first flight so many times.
    pub fn show_often(&mut self, alloc: Global, times: u32) -> Result<(), NoMemory> {
        for _ in 0..times {
            let key = key(alloc, 1)?;
            self.ask(
                alloc,
                Request::Show {
                    key,
                    what: What::State,
                },
            )?;
        }
        Ok(())
    }
}
