//! Rounds of requests about one flight.

ghost use Rattle.std.specs.Prelude.{IfOk};
ghost use Rattle.editions.specs.Acts.{IsPartWithin, IsWithinLimits};

use crate::desk::{Desk, key};
use base_words::NoMemory;
use cert_checker::Proven;
use certificate::{Certificate, Claim, Cuts};
use editions::{FigurePart, Reply, Request, What};
use flight_state::Lmc;
use hold_limits::{Path, Task};
use mass_units::Kg;
use std::alloc::Global;
use trim::Fuel;

/// A request about a flight. A round of a kind ends with it, and has before it what it needs: a plan needs its task, what is
/// released a plan, and the others a release. Each of these rounds begins with other figures.
#[derive(Clone, Copy, PartialEq, Eq)]
pub enum Kind {
    Show,
    Set,
    Take,
    /// A task is taken, and then a plan made of it, whose certificate is checked.
    Plan,
    Install,
    Release,
    Late,
    Reopen,
    Depart,
}

impl Kind {
    /// The kind with this name.
    pub fn read(name: &str) -> Option<Kind> {
        match name {
            "show" => Some(Kind::Show),
            "set" => Some(Kind::Set),
            "take" => Some(Kind::Take),
            "plan" => Some(Kind::Plan),
            "install" => Some(Kind::Install),
            "release" => Some(Kind::Release),
            "late" => Some(Kind::Late),
            "reopen" => Some(Kind::Reopen),
            "depart" => Some(Kind::Depart),
            _ => None,
        }
    }

    /// What the reply to the request has, where it is accepted.
    fn due(self) -> Heard {
        match self {
            Kind::Show => Heard::Row,
            Kind::Take | Kind::Plan => Heard::Task,
            Kind::Release => Heard::Sheet,
            Kind::Set | Kind::Install | Kind::Late | Kind::Reopen | Kind::Depart => Heard::Edition,
        }
    }

    /// The requests of a round.
    fn round(self) -> &'static [Kind] {
        match self {
            Kind::Show => &[Kind::Show],
            Kind::Set => &[Kind::Set],
            Kind::Take => &[Kind::Set, Kind::Take],
            Kind::Plan => &[Kind::Set, Kind::Plan],
            Kind::Install => &[Kind::Set, Kind::Take, Kind::Install],
            Kind::Release => &[Kind::Set, Kind::Take, Kind::Install, Kind::Release],
            Kind::Late => &[
                Kind::Set,
                Kind::Take,
                Kind::Install,
                Kind::Release,
                Kind::Late,
            ],
            Kind::Reopen => &[
                Kind::Set,
                Kind::Take,
                Kind::Install,
                Kind::Release,
                Kind::Reopen,
            ],
            Kind::Depart => &[
                Kind::Set,
                Kind::Take,
                Kind::Install,
                Kind::Release,
                Kind::Depart,
            ],
        }
    }
}

/// What a reply has.
#[derive(Clone, Copy, PartialEq, Eq)]
enum Heard {
    Row,
    Edition,
    Task,
    Sheet,
    Another,
}

/// A flight as the desk knows it: its number, its edition, and the task that was last taken.
#[derive(Drop)]
struct Flight {
    number: u32,
    edition: u32,
    task: Option<Task>,
}

impl Flight {
    fn new(number: u32) -> Flight {
        Flight {
            number,
            edition: 1,
            task: None,
        }
    }

    /// What the reply has. An edition is the flight's from now on, and a task is kept.
    fn hears(&mut self, reply: Reply) -> Heard {
        match reply {
            Reply::Row(_) => Heard::Row,
            Reply::Sheet(_) => Heard::Sheet,
            Reply::Edition(edition) => {
                self.edition = edition;
                Heard::Edition
            }
            Reply::Task(task) => {
                self.task = Some(task);
                Heard::Task
            }
            _ => Heard::Another,
        }
    }

    /// The plan of the task that was taken. It is of no containers.
    fn plan(&mut self, alloc: Global) -> Result<Proven, NoMemory> {
        let task = self.task.take().ok_or(NoMemory)?;
        let certificate = Certificate {
            claim: Claim::Best(Path::new()),
            cuts: Cuts::from(Vec::new(alloc)),
            expanded: 0,
        };
        Proven::new(task, certificate).map_err(|_| NoMemory)
    }
}

/// Fuel for the worked leg.
fn fuel() -> FigurePart
    ensures { IsPartWithin result }
{
    FigurePart::Fuel(Fuel {
        taxi: Kg(200),
        take_off: Kg(9_000),
        trip: Kg(6_000),
    })
}

/// One adult more in the second zone.
fn one_more() -> Lmc {
    Lmc::Cabin {
        zone: 2,
        adults: 1,
        children: 0,
        infants: 0,
    }
}

/// The request of this kind. It takes the task for a plan from the flight.
fn request(alloc: Global, flight: &mut Flight, kind: Kind) -> Result<Request, NoMemory>
    ensures { IfOk result IsWithinLimits }
{
    let key = key(alloc, flight.number)?;
    let edition = flight.edition;
    Ok(match kind {
        Kind::Show => Request::Show {
            key,
            what: What::State,
        },
        Kind::Set => Request::Set {
            key,
            edition,
            part: fuel(),
        },
        Kind::Take | Kind::Plan => Request::Take { key, edition },
        Kind::Install => Request::Install {
            key,
            edition,
            plan: flight.plan(alloc)?,
        },
        Kind::Release => Request::Release { key, edition },
        Kind::Late => Request::Late {
            key,
            edition,
            lmc: one_more(),
        },
        Kind::Reopen => Request::Reopen { key, edition },
        Kind::Depart => Request::Depart { key, edition },
    })
}

/// Makes the request, and returns whether it was accepted.
fn is_accepted(
    alloc: Global,
    desk: &mut Desk,
    flight: &mut Flight,
    kind: Kind,
) -> Result<bool, NoMemory> {
    let request = request(alloc, flight, kind)?;
    let reply = desk.ask(alloc, request)?;
    let is_due = flight.hears(reply) == kind.due();
    if kind == Kind::Plan {
        let _plan = flight.plan(alloc)?;
    }
    Ok(is_due)
}

/// Whether each request of a round was accepted.
fn is_made(
    alloc: Global,
    desk: &mut Desk,
    flight: &mut Flight,
    kind: Kind,
) -> Result<bool, NoMemory> {
    for step in kind.round() {
        if !is_accepted(alloc, desk, flight, *step)? {
            return Ok(false);
        }
    }
    Ok(true)
}

/// Makes so many rounds, and returns how many of them were accepted. Each departure is that of a flight of its own; the other rounds
/// are all about the first flight.
pub fn good_rounds(
    alloc: Global,
    desk: &mut Desk,
    kind: Kind,
    rounds: u32,
) -> Result<u32, NoMemory> {
    let mut good: u32 = 0;
    let mut flight = Flight::new(1);
    for round in 0..rounds {
        if kind == Kind::Depart {
            flight = Flight::new(round.saturating_add(1));
        }
        if is_made(alloc, desk, &mut flight, kind)? {
            good = good.saturating_add(1);
        }
    }
    Ok(good)
}
