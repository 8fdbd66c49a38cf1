// The office over keepers in memory: a flight from its opening to its departure, refusals, and failures. A talk with it is
// a text: a line for each request, with a word for what is asked, an edition, and the reply that is due.
ghost use Rattle.std.specs.Prelude.{IfOk, IfSome};
ghost use Rattle.editions.specs.Acts.{IsPartWithin, IsWithinLimits};

use aircraft_file::Aircraft;
use base_words::NoMemory;
use best_plan::BestPlan;
use cert_checker::Proven;
use certificate::{Certificate, Claim, Cuts};
use editions::{Entry, FigurePart, Office, Refusal, Reply, Request, StartFault, What};
use flight_history::{copy_of, new_flight, standing_after};
use flight_state::{FlightState, Lmc};
use hold_limits::{Name, Path, Task};
use keeper::{Bytes, FailingKeeper, Keeper, KeptRow, MemoryKeeper};
use last_minute::LmcFault;
use mass_units::{Kg, Ticks};
use std::alloc::{AllocError, Global};
use std::str;
use std::test::Fail;
use trim::{Dry, Fuel, Regulated, Rules};
use worked_day::{aircraft, fleet, key, leg};

/// The row of the flight just after its opening.
const OPENED: &str = "FLIGHT 2
leg XX210 12 DAIAB FRA ARN
edition 1
stage working
releases 0
dry 42000 50.00000 0 0
fuel 0 0 0
limits 73500 66000
END
";

/// The part of the figures that a word of a talk sets.
fn part_of(word: &[u8]) -> Option<FigurePart>
    ensures { IfSome result IsPartWithin }
{
    match word {
        b"fuel" => Some(FigurePart::Fuel(Fuel {
            taxi: Kg(200),
            take_off: Kg(9_000),
            trip: Kg(6_000),
        })),
        b"dry" => Some(FigurePart::Dry(Dry {
            mass: Kg(42_100),
            index: Ticks(5_000_000),
            cockpit: 2,
            attendants: 4,
        })),
        b"limits" => Some(FigurePart::Limits(Regulated {
            take_off: Kg(73_000),
            landing: Kg(66_000),
        })),
        // 20 kilograms more than the landing mass, and one less.
        b"tight" => Some(FigurePart::Limits(Regulated {
            take_off: Kg(73_000),
            landing: Kg(45_020),
        })),
        b"over" => Some(FigurePart::Limits(Regulated {
            take_off: Kg(73_000),
            landing: Kg(44_999),
        })),
        _ => None,
    }
}

/// One adult more in the second zone.
fn one_adult() -> Lmc {
    Lmc::Cabin {
        zone: 2,
        adults: 1,
        children: 0,
        infants: 0,
    }
}

/// The mass of a word.
fn kilograms_in(word: &[u8]) -> Option<i32> {
    match word {
        b"1 kg" => Some(1),
        b"20 kg" => Some(20),
        b"21 kg" => Some(21),
        b"500 kg" => Some(500),
        b"501 kg" => Some(501),
        _ => None,
    }
}

/// So much more in the bulk position.
fn more_bulk(mass: i32) -> Result<Lmc, NoMemory> {
    Ok(Lmc::Loose {
        position: Name::read(b"51").ok_or(NoMemory)?,
        mass,
        pieces: 0,
    })
}

/// The request that a word of a talk and an edition stand for. Another word asks for the row.
fn request_of(word: &[u8], edition: u32) -> Result<Request, NoMemory>
    ensures { IfOk result IsWithinLimits }
{
    let key = key()?;
    if let Some(part) = part_of(word) {
        return Ok(Request::Set { key, edition, part });
    }
    if let Some(mass) = kilograms_in(word) {
        let lmc = more_bulk(mass)?;
        return Ok(Request::Late { key, edition, lmc });
    }
    Ok(match word {
        b"new" => Request::NewFlight { leg: leg()? },
        b"take" => Request::Take { key, edition },
        b"release" => Request::Release { key, edition },
        b"late" => Request::Late {
            key,
            edition,
            lmc: one_adult(),
        },
        b"depart" => Request::Depart { key, edition },
        _ => Request::Show {
            key,
            what: What::State,
        },
    })
}

/// The plan of a task without containers.
fn plan_of(alloc: Global, task: Task) -> Result<Proven, NoMemory> {
    let certificate = Certificate {
        claim: Claim::Best(Path::new()),
        cuts: Cuts::from(Vec::new(alloc)),
        expanded: 0,
    };
    Proven::new(task, certificate).map_err(|_| NoMemory)
}

/// The plan alone, without the certificate that proves it.
fn best_of(alloc: Global, plan: &Proven) -> Result<BestPlan, NoMemory> {
    let task = plan.task().copy(alloc)?;
    Ok(BestPlan::new(task, copy_of(plan.path())))
}

/// The rule that is broken, where one is.
fn broken_in(rules: &Rules) -> &'static str {
    match rules.as_slice() {
        [rule] => rule.text(),
        _ => "broken",
    }
}

fn refused_by(refusal: &Refusal) -> (&'static str, Option<u32>) {
    match refusal {
        Refusal::Exists => ("exists", None),
        Refusal::Gone => ("gone", None),
        Refusal::Stale(edition) => ("stale", Some(*edition)),
        Refusal::Ahead(edition) => ("ahead", Some(*edition)),
        Refusal::NoPlanYet => ("no plan", None),
        Refusal::Broken(rules) => (broken_in(rules), None),
        Refusal::Late(LmcFault::TooMany) => ("too many", None),
        Refusal::Late(LmcFault::MassOver(mass)) => ("too heavy", Some(mass.0)),
        Refusal::Late(LmcFault::Breaks(rules)) => (broken_in(rules), None),
        Refusal::OtherTask => ("other task", None),
        Refusal::KeeperFault => ("keeper fault", None),
        _ => ("refused", None),
    }
}

/// What a reply says: a word or two, and an edition where it has one.
fn said_by(reply: &Reply) -> (&'static str, Option<u32>) {
    match reply {
        Reply::Opened(_) => ("opened", None),
        Reply::Edition(edition) => ("edition", Some(*edition)),
        Reply::Sheet(sheet) => ("sheet", Some(sheet.edition)),
        Reply::Task(_) => ("task", None),
        Reply::Row(row) if row.as_slice() == OPENED.as_bytes() => ("as opened", None),
        Reply::Row(_) => ("a row", None),
        Reply::Refused(refusal) => refused_by(refusal),
        _ => ("another reply", None),
    }
}

/// What a reply says, as a line of a talk has it.
fn line_of(alloc: Global, said: (&str, Option<u32>)) -> Result<String, AllocError> {
    match said {
        (words, Some(edition)) => format!(in alloc; "{words} {edition}"),
        (words, None) => String::from_str(alloc, words),
    }
}

/// The reply to a request, where an entry is spare.
fn reply_to<K: Keeper>(
    alloc: Global,
    office: &mut Office,
    keeper: &mut K,
    request: Request,
) -> Result<Reply, NoMemory>
    requires { IsWithinLimits request }
{
    if office.spare() == 0 {
        return Err(NoMemory);
    }
    Ok(office.turn(alloc, keeper, 1, request))
}

/// The request to install the plan of a task: with its certificate of cuts, or as a plan that other evidence proves.
fn install_of(alloc: Global, word: &[u8], edition: u32, task: Task) -> Result<Request, NoMemory>
    ensures { IfOk result IsWithinLimits }
{
    let key = key()?;
    let plan = plan_of(alloc, task)?;
    if word == b"install".as_slice() {
        return Ok(Request::Install { key, edition, plan });
    }
    Ok(Request::InstallBest {
        key,
        edition,
        plan: best_of(alloc, &plan)?,
    })
}

/// The request of a line of a talk. The plan of the task that was taken last is what is installed.
fn request_in(
    alloc: Global,
    word: &[u8],
    edition: u32,
    taken: &Option<Task>,
) -> Result<Request, Fail>
    ensures { IfOk result IsWithinLimits }
{
    if word != b"install".as_slice() && word != b"best".as_slice() {
        return Ok(request_of(word, edition)?);
    }
    let Some(task) = taken else {
        return Err(Fail::new("a task was taken"));
    };
    Ok(install_of(alloc, word, edition, task.copy(alloc)?)?)
}

/// The field at this place of a line.
fn field_at(line: &[u8], place: usize) -> Result<&[u8], Fail> {
    let field = line.split(|byte| *byte == b'|').nth(place);
    Ok(field.ok_or("a line has three fields")?)
}

/// The edition of a line.
fn edition_in(line: &[u8]) -> Result<u32, Fail> {
    let text = str::from_utf8(field_at(line, 1)?).map_err(|_| Fail::new("a text"))?;
    text.parse().map_err(|_| Fail::new("a number"))
}

/// Keeps the task that a reply gives.
fn keep_task(reply: Reply, taken: &mut Option<Task>) {
    if let Reply::Task(task) = reply {
        *taken = Some(task);
    }
}

/// Whether the reply to the request of a line is the one that is due.
fn is_answered<K: Keeper>(
    alloc: Global,
    office: &mut Office,
    keeper: &mut K,
    line: &[u8],
    taken: &mut Option<Task>,
) -> Result<bool, Fail> {
    let request = request_in(alloc, field_at(line, 0)?, edition_in(line)?, taken)?;
    let reply = reply_to(alloc, office, keeper, request)?;
    let is_due = line_of(alloc, said_by(&reply))?.as_bytes() == field_at(line, 2)?;
    keep_task(reply, taken);
    Ok(is_due)
}

/// The first line of a talk whose reply is another one. A line is a word, an edition, and the reply.
fn first_wrong<K: Keeper>(
    alloc: Global,
    office: &mut Office,
    keeper: &mut K,
    talk: &[u8],
) -> Result<Option<usize>, Fail> {
    let mut taken = None;
    for (at, line) in talk.split(|byte| *byte == b'\n').enumerate() {
        if !is_answered(alloc, office, keeper, line, &mut taken)? {
            return Ok(Some(at));
        }
    }
    Ok(None)
}

/// A flight gets its fuel and a plan.
const PLANNED: &[u8] = b"new|1|opened
fuel|1|edition 2
take|2|task
install|2|edition 2";

/// It gets the same plan, which other evidence proves.
const PLANNED_BEST: &[u8] = b"new|1|opened
fuel|1|edition 2
take|2|task
best|2|edition 2";

/// Plans by either evidence come again and again, until the flight has departed.
const BY_EITHER: &[u8] = b"new|1|opened
fuel|1|edition 2
take|2|task
best|3|ahead 2
best|2|edition 2
install|2|edition 2
best|2|edition 2
release|2|sheet 2
best|2|edition 2
release|2|sheet 2
depart|2|edition 2
best|2|gone
install|2|gone";

/// The same flight is released, and changed late.
const LATE: &[u8] = b"new|1|opened
fuel|1|edition 2
take|2|task
install|2|edition 2
release|2|sheet 2
late|2|edition 3";

/// It departs.
const DEPARTED: &[u8] = b"new|1|opened
fuel|1|edition 2
take|2|task
install|2|edition 2
release|2|sheet 2
late|2|edition 3
depart|3|edition 3
release|3|gone";

/// A plan by either evidence comes late, or is for other figures.
const OTHER_FIGURES: &[u8] = b"new|1|opened
fuel|1|edition 2
take|2|task
limits|2|edition 3
dry|3|edition 4
install|2|stale 4
best|2|stale 4
install|4|other task
best|4|other task
release|5|ahead 4";

/// The sheet of a released flight is asked for again; a plan does not outlast its figures.
const AGAIN: &[u8] = b"new|1|opened
fuel|1|edition 2
take|2|task
install|2|edition 2
release|2|sheet 2
release|2|sheet 2
fuel|2|edition 3
release|3|no plan";

/// A late change beyond the tolerance of 500 kilograms, and one that meets it.
const TOLERATED: &[u8] = b"new|1|opened
fuel|1|edition 2
take|2|task
install|2|edition 2
release|2|sheet 2
501 kg|2|too heavy 501
500 kg|2|edition 3";

/// Eleven late changes.
const ELEVEN: &[u8] = b"new|1|opened
fuel|1|edition 2
take|2|task
install|2|edition 2
release|2|sheet 2
1 kg|2|edition 3
1 kg|3|edition 4
1 kg|4|edition 5
1 kg|5|edition 6
1 kg|6|edition 7
1 kg|7|edition 8
1 kg|8|edition 9
1 kg|9|edition 10
1 kg|10|edition 11
1 kg|11|edition 12
1 kg|12|too many";

/// The greatest landing mass is 20 kilograms more than the flight's.
const TIGHT: &[u8] = b"new|1|opened
fuel|1|edition 2
tight|2|edition 3
take|3|task
install|3|edition 3
release|3|sheet 3
21 kg|3|LANDING
20 kg|3|edition 4";

/// It is one kilogram less.
const OVER: &[u8] = b"new|1|opened
fuel|1|edition 2
over|2|edition 3
take|3|task
install|3|edition 3
release|3|LANDING";

/// The first line of a talk with a new office whose reply is another one.
fn first_wrong_of(alloc: Global, talk: &[u8]) -> Result<Option<usize>, Fail> {
    let mut keeper = MemoryKeeper::new(alloc);
    let mut office = Office::start(alloc, fleet(alloc)?, 20, &mut keeper)?;
    first_wrong(alloc, &mut office, &mut keeper, talk)
}

#[test]
fn a_flight_is_released_and_departs(rt: HostRuntime) -> Result<(), Fail> {
    assert_eq!(rt; first_wrong_of(rt.alloc(), DEPARTED)?, None);
    Ok(())
}

#[test]
fn a_release_is_repeated_until_the_figures_change(rt: HostRuntime) -> Result<(), Fail> {
    assert_eq!(rt; first_wrong_of(rt.alloc(), AGAIN)?, None);
    Ok(())
}

#[test]
fn late_changes_are_few_and_within_the_tolerance(rt: HostRuntime) -> Result<(), Fail> {
    for talk in [TOLERATED, ELEVEN] {
        assert_eq!(rt; first_wrong_of(rt.alloc(), talk)?, None);
    }
    Ok(())
}

#[test]
fn the_landing_mass_is_kept(rt: HostRuntime) -> Result<(), Fail> {
    for talk in [TIGHT, OVER] {
        assert_eq!(rt; first_wrong_of(rt.alloc(), talk)?, None);
    }
    Ok(())
}

#[test]
fn a_plan_for_other_figures_is_refused(rt: HostRuntime) -> Result<(), Fail> {
    assert_eq!(rt; first_wrong_of(rt.alloc(), OTHER_FIGURES)?, None);
    Ok(())
}

#[test]
fn a_plan_by_other_evidence_is_answered_alike(rt: HostRuntime) -> Result<(), Fail> {
    assert_eq!(rt; first_wrong_of(rt.alloc(), BY_EITHER)?, None);
    Ok(())
}

/// What an office leaves, as a line.
fn left_by(alloc: Global, office: Office) -> Result<String, AllocError> {
    let spare = office.spare();
    let (opening, history) = office.parts();
    format!(in alloc;
        "{} flights at the beginning, {} entries, room for {spare}",
        opening.len(),
        history.len()
    )
}

/// The office in which a flight is opened, and again.
fn opened_twice(alloc: Global) -> Result<Office, Fail> {
    let mut keeper = MemoryKeeper::new(alloc);
    let mut office = Office::start(alloc, fleet(alloc)?, 3, &mut keeper)?;
    let talk = b"new|1|opened\nnew|1|exists\nrow|1|as opened";
    match first_wrong(alloc, &mut office, &mut keeper, talk)? {
        None => Ok(office),
        Some(_) => Err(Fail::new("each reply is the one that is due")),
    }
}

#[test]
fn a_flight_is_opened_once(rt: HostRuntime) -> Result<(), Fail> {
    let left = left_by(rt.alloc(), opened_twice(rt.alloc())?)?;
    assert_eq!(rt;
        left.as_str(),
        "0 flights at the beginning, 3 entries, room for 0"
    );
    Ok(())
}

/// How the turns of a history ended, a line for each.
fn outcomes(alloc: Global, history: &[Entry]) -> Result<String, Fail> {
    let mut text = String::new(alloc);
    for entry in history {
        writeln!(text, "{:?}", entry.outcome)?;
    }
    Ok(text)
}

/// How the turns of an office ended whose second commit fails.
fn failing_once(alloc: Global) -> Result<String, Fail> {
    let mut keeper = FailingKeeper::new(alloc, Vec::new(alloc), vec![in alloc; 2]?);
    let mut office = Office::start(alloc, fleet(alloc)?, 20, &mut keeper)?;
    let talk = b"new|1|opened\nfuel|1|keeper fault\nrow|1|as opened\nfuel|1|edition 2";
    match first_wrong(alloc, &mut office, &mut keeper, talk)? {
        None => outcomes(alloc, office.history()),
        Some(_) => Err(Fail::new("each reply is the one that is due")),
    }
}

#[test]
fn a_commit_that_fails_changes_nothing(rt: HostRuntime) -> Result<(), Fail> {
    assert_eq!(rt;
        failing_once(rt.alloc())?.as_str(),
        "Done\nKeeperFailed\nDone\nDone\n"
    );
    Ok(())
}

#[test]
fn a_row_without_its_end_starts_no_office(rt: HostRuntime) -> Result<(), Fail> {
    let alloc = rt.alloc();
    let mut keeper = MemoryKeeper::new(alloc);
    let row = KeptRow {
        key: Bytes::from(b"XX210-12".to_vec(alloc)?),
        bytes: Bytes::from(b"FLIGHT 2".to_vec(alloc)?),
    };
    keeper.commit(alloc, &row)?;
    let started = Office::start(alloc, fleet(alloc)?, 3, &mut keeper);
    assert!(rt;
        matches!(&started, Err(StartFault::BadTable(key)) if key.as_slice() == b"XX210-12".as_slice())
    );
    Ok(())
}

/// The row of the flight.
fn row<K: Keeper>(alloc: Global, office: &mut Office, keeper: &mut K) -> Result<Bytes, Fail> {
    match reply_to(alloc, office, keeper, request_of(b"row", 1)?)? {
        Reply::Row(row) => Ok(row),
        _ => Err(Fail::new("the flight has a row")),
    }
}

/// The row of a flight in an office, which keeps it, after a talk.
fn kept_row(alloc: Global, keeper: &mut MemoryKeeper, talk: &[u8]) -> Result<Bytes, Fail> {
    let mut office = Office::start(alloc, fleet(alloc)?, 20, keeper)?;
    if first_wrong(alloc, &mut office, keeper, talk)?.is_some() {
        return Err(Fail::new("each reply is the one that is due"));
    }
    row(alloc, &mut office, keeper)
}

/// How many flights another office opens with on what was kept, and the row of the flight.
fn opened_row(alloc: Global, keeper: &mut MemoryKeeper) -> Result<(usize, Bytes), Fail> {
    let mut office = Office::start(alloc, fleet(alloc)?, 3, keeper)?;
    let flights = office.opening().len();
    Ok((flights, row(alloc, &mut office, keeper)?))
}

#[test]
fn an_office_goes_on_with_the_kept_rows(rt: HostRuntime) -> Result<(), Fail> {
    let mut keeper = MemoryKeeper::new(rt.alloc());
    let shown = kept_row(rt.alloc(), &mut keeper, PLANNED)?;
    let (flights, row) = opened_row(rt.alloc(), &mut keeper)?;
    assert_eq!(rt; flights, 1);
    assert!(rt; row.as_slice() == shown.as_slice());
    Ok(())
}

/// The row of a flight after a talk with a new office.
fn row_after(alloc: Global, talk: &[u8]) -> Result<Bytes, Fail> {
    kept_row(alloc, &mut MemoryKeeper::new(alloc), talk)
}

#[test]
fn a_plan_by_other_evidence_leaves_the_same_row(rt: HostRuntime) -> Result<(), Fail> {
    let (row, best) = (
        row_after(rt.alloc(), PLANNED)?,
        row_after(rt.alloc(), PLANNED_BEST)?,
    );
    assert!(rt; row.as_slice() == best.as_slice());
    Ok(())
}

/// The figures of a flight, as a line.
fn figures_of(alloc: Global, s: &FlightState) -> Result<String, AllocError> {
    let changes = s.lmcs.as_slice().len();
    format!(in alloc;
        "edition {} releases {} fuel {} changes {changes}",
        s.edition, s.releases, s.base.fuel.take_off.0
    )
}

/// These figures of the flight, as the history has them.
fn standing_in(alloc: Global, aircraft: &Aircraft, history: &[Entry]) -> Result<String, Fail> {
    let opened = new_flight(alloc, aircraft, leg()?);
    match &standing_after(alloc, &opened, history)? {
        Some(standing) => Ok(figures_of(alloc, standing)?),
        None => Err(Fail::new("the numbers are within their types")),
    }
}

/// An office with a flight that is planned, released and changed late.
fn worked_office(alloc: Global) -> Result<Office, Fail> {
    let mut keeper = MemoryKeeper::new(alloc);
    let mut office = Office::start(alloc, fleet(alloc)?, 20, &mut keeper)?;
    if first_wrong(alloc, &mut office, &mut keeper, LATE)?.is_some() {
        return Err(Fail::new("each reply is the one that is due"));
    }
    Ok(office)
}

/// The figures of the worked office's flight, as its history has them.
fn worked_standing(alloc: Global) -> Result<String, Fail> {
    let office = worked_office(alloc)?;
    let aircraft = aircraft(alloc)?;
    standing_in(alloc, &aircraft, office.history())
}

#[test]
fn the_standing_is_that_of_the_history(rt: HostRuntime) -> Result<(), Fail> {
    assert_eq!(rt;
        worked_standing(rt.alloc())?.as_str(),
        "edition 3 releases 1 fuel 9000 changes 1"
    );
    Ok(())
}
