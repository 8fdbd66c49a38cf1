// The file of the worked day, edits of it key by key, and files whose keys describe no lawful aircraft.
use crate::pass;
use aircraft_file::{Aircraft, read_aircraft};
use case_rows::{Subject, edited, field};
use hold_limits::{Fit, Hold, Position};
use std::alloc::{AllocError, Global};
use std::str;
use std::test::Fail;
use worked_day::{DAIAB, aircraft};

/// The file without a key, and with the key not in its form: two rows for each key.
const KEYS: &str = r#"key 1 is missing|registration = "DAIAB"=>
key 1 is wrong|registration = "DAIAB"=>registration = "D-AIAB"
key 2 is missing|version = "Y150"=>
key 2 is wrong|version = "Y150"=>version = 150
key 3 is missing|mass = 42000=>
key 3 is wrong|mass = 42000=>mass = 0
key 4 is missing|index = "50.00000"=>
key 4 is wrong|index = "50.00000"=>index = "10000.00001"
key 5 is missing|k = "50.00000"=>
key 5 is wrong|k = "50.00000"=>k = 50.00000
key 6 is missing|~c = 1000=>
key 6 is wrong|~c = 1000=>~c = 1000001
key 7 is missing|reference = 18850=>
key 7 is wrong|reference = 18850=>reference = 100001
key 8 is missing|lemac = 17800=>
key 8 is wrong|lemac = 17800=>lemac = -100001
key 9 is missing|~mac = 4190=>
key 9 is wrong|~mac = 4190=>~mac = 0
key 10 is missing|ramp = 73900=>
key 10 is wrong|ramp = 73900=>ramp = 1000001
key 11 is missing|zero_fuel = 62500=>
key 11 is wrong|zero_fuel = 62500=>zero_fuel = 62500.0
key 12 is missing|take_off = 73500=>
key 12 is wrong|take_off = 73500=>take_off = "73500"
key 13 is missing|landing = 66000=>
key 13 is wrong|landing = 66000=>landing = -66000
key 14 is missing|mass = 500=>
key 14 is wrong|mass = 500=>mass = -1
key 15 is missing|index = "5.00000"=>
key 15 is wrong|index = "5.00000"=>index = "-0.00001"
key 16 is missing|low = "50.00000"=>
key 16 is wrong|low = "50.00000"=>low = "50.0"
key 17 is missing|high = "51.00000"=>
key 17 is wrong|high = "51.00000"=>high = "49.99999"
key 18 is missing|adult = 84=>
key 18 is wrong|adult = 84=>adult = 301
key 19 is missing|child = 35=>
key 19 is wrong|child = 35=>child = -1
key 20 is missing|infant = 10=>
key 20 is wrong|infant = 10=>infant = true
key 21 is missing|bag = 15=>
key 21 is wrong|bag = 15=>bag = 15.5
key 22 is missing|[[zone]]=>[[other]]
key 22 is wrong|[[zone]]=>[[zone]]~[[zone]]
key 23 is missing|[[position]]=>[[other]]
key 23 is wrong|[[position]]=>[[position]]~[[position]]
key 28 is missing|rows = [[0, "0.00000"]=>other = [[]
key 28 is wrong|rows = [[0, "0.00000"]=>rows = [[0]
key 29 is missing|forward = [[40000, "40.00000"]=>other = [[]
key 29 is wrong|forward = [[40000, "40.00000"]=>forward = [40000
key 30 is missing|aft = [[40000, "60.00000"]=>other = [[]
key 30 is wrong|aft = [[40000, "60.00000"]=>aft = [[1000001, "60.00000"]
key 31 is missing|forward = [[40000, "38.00000"]=>other = [[]
key 31 is wrong|forward = [[40000, "38.00000"]=>forward = [[40000, "38"]
key 32 is missing|aft = [[40000, "62.00000"]=>other = [[]
key 32 is wrong|aft = [[40000, "62.00000"]=>aft = [[40000, "62.00000", 1]
key 33 is missing|forward = [[40000, "39.00000"]=>other = [[]
key 33 is wrong|forward = [[40000, "39.00000"]=>forward = [[-1, "39.00000"]
key 34 is missing|aft = [[40000, "61.00000"]=>other = [[]
key 34 is wrong|aft = [[40000, "61.00000"]=>aft = [["61.00000", 40000]"#;

/// The same of the keys that may be absent, of which the file has two.
const LIMITS: &str = r#"an aircraft|[hold]=>[hold]
key 24 is wrong|[hold]=>[hold]~exclude = [["11", "99"]]
an aircraft|combined = [[2500, "11", "12"]]=>
key 25 is wrong|combined = [[2500, "11", "12"]]=>combined = [[2500]]
an aircraft|[hold]=>[hold]
key 26 is wrong|[hold]=>[hold]~forward = [[4500, "11"]]
an aircraft|aft = [["41", 4500]]=>
key 27 is wrong|aft = [["41", 4500]]=>aft = [["41"]]
an aircraft|[hold]=>[hold]
key 35 is wrong|[hold]=>[hold]~lateral = 1000001
an aircraft|[hold]=>[hold]~lateral = 0
key 36 is wrong|[hold]=>[hold]~lateral = 0~left = ["11", "11"]
an aircraft|[hold]=>[hold]~left = ["11", "99"]~right = 5
key 37 is wrong|[hold]=>[hold]~lateral = 0~left = ["11"]~right = ["11"]"#;

/// Edits of the file, behind how it is refused.
const FIRST_FAULTS: &str = r#"as due|envelope 3 ends below the certified mass|[70000, =>[65999, 
as due|the fuel table is not lawful: row 1 has no more fuel than the one before it|[3000, =>[0, |[70000, =>[65999, 
as due|envelope 1 is not lawful: the sides cross at Kg(65000)|[65000, "45.00000"]=>[65000, "61.00000"]|[3000, =>[0, 
as due|the hold is not lawful: position 3 has the name of an earlier one|name = "42"=>name = "41"|[65000, "45.00000"]=>[65000, "61.00000"]
as due|key 25 is wrong|name = "12"=>name = "11"|name = "42"=>name = "41"
as due|key 17 is wrong|low = "50.00000"=>low = "52.00000"|name = "12"=>name = "11"
as due|key 1 is missing|registration = "DAIAB"=>|low = "50.00000"=>low = "52.00000"
as due|the file is not a TOML document|registration = "DAIAB"=>|[dry]=>["#;

/// Edits of the file that break or keep the rule of a single form, behind what is said of it.
const SINGLE_FORMS: &str = r#"as due|key 3 is missing|[dry]=>dry = 5~[other]
as due|the file is not a TOML document|mass = 42000=>mass = 9223372036854775808
as due|key 23 is wrong|bulk = true=>bulk = true~fits = []
as due|key 23 is wrong|bulk = true=>bulk = false
as due|the hold is not lawful: position 4|bulk = true=>fits = []
as due|the hold is not lawful: the influence of position 4|influence = 900=>influence = 999999999
as due|an aircraft|bulk = true=>bulk = false~fits = [["AKE", 1500]]
as due|key 35 is wrong|[hold]=>[hold]~lateral = -1
as due|key 36 is wrong|[hold]=>[hold]~lateral = 0~left = ["99"]
as due|key 37 is wrong|[hold]=>[hold]~lateral = 0~right = ["12", "99"]
as due|key 37 is wrong|[hold]=>[hold]~lateral = 0~right = ["12", "12"]"#;

/// The file's records, as they are read.
const RECORDS: &str =
    "Chord { k: Ticks(5000000), c: 1000, reference_mm: 18850, lemac_mm: 17800, mac_mm: 4190 }
Certified { ramp: Kg(73900), zero_fuel: Kg(62500), take_off: Kg(73500), landing: Kg(66000) }
Averages { adult: Kg(84), child: Kg(35), infant: Kg(10), bag: Kg(15) }
[Zone { capacity: 60, influence: -700 }, Zone { capacity: 90, influence: 500 }]";

/// The file's positions, as they are read: the name; the compartment, the influence and whether it is a bulk position; and
/// what it accepts.
const POSITIONS: &[u8] = b"11 (1, -600, false) AKE 1500
12 (1, -400, false) AKE 1500
41 (4, 400, false) AKE 1500
42 (4, 600, false) AKE 1500
51 (5, 900, true) ";

/// The file's limits of the hold, as they are read: pairs, combined, cumulative and lateral ones, and the sides.
const LIMITS_READ: &str = "[]
[Combined { places: ListOf { list: [0, 1] }, most: Kg(2500) }]
[Cumulative { forward: false, place: 2, most: Kg(4500) }]
None
[]";

/// The same with a forward limit and a pair.
const FORWARD_READ: &str = "[(0, 3)]
[Combined { places: ListOf { list: [0, 1] }, most: Kg(2500) }]
[Cumulative { forward: true, place: 1, most: Kg(3000) }, Cumulative { forward: false, place: 2, most: Kg(4500) }]
None
[]";

/// The lateral limit with positions on both sides.
const SIDES_READ: &str = "
Some(Lateral { most: Kg(500), sides: ListOf { list: [(0, true), (1, false), (2, false), (3, true)] } })
[(0, true), (1, false), (2, false), (3, true)]";

/// The lateral limit with a position on the left alone.
const LEFT_READ: &str = "
Some(Lateral { most: Kg(1000000), sides: ListOf { list: [(4, false)] } })
[(4, false)]";

/// The file's fuel table, and sides of its envelopes, as they are read.
const BALANCE_READ: &str =
    "[FuelRow { fuel: Kg(0), index: Ticks(0) }, FuelRow { fuel: Kg(3000), index: Ticks(-1000) }, \
    FuelRow { fuel: Kg(9000), index: Ticks(-121000) }, FuelRow { fuel: Kg(20000), index: Ticks(-231000) }]
[Corner { mass: Kg(40000), index: Ticks(4000000) }, Corner { mass: Kg(60000), index: Ticks(4400000) }, \
    Corner { mass: Kg(65000), index: Ticks(4500000) }]
[Corner { mass: Kg(40000), index: Ticks(6000000) }, Corner { mass: Kg(65000), index: Ticks(6000000) }]
[Corner { mass: Kg(40000), index: Ticks(3800000) }, Corner { mass: Kg(75000), index: Ticks(4200000) }]
[Corner { mass: Kg(40000), index: Ticks(6100000) }, Corner { mass: Kg(70000), index: Ticks(6100000) }]";

/// What is said of a file: that it describes an aircraft, or why not.
fn said_of(alloc: Global, text: &str) -> Result<String, Fail> {
    match read_aircraft(alloc, text.as_bytes()).err() {
        None => Ok(String::from_str(alloc, "an aircraft")?),
        Some(fault) => Ok(format!(in alloc; "{fault}")?),
    }
}

/// What is said of the file with the edits of a case.
struct Edited;

impl Subject for Edited {
    fn said(&self, alloc: Global, case: &str) -> Result<String, Fail> {
        said_of(alloc, edited(alloc, DAIAB, case)?.as_str())
    }
}

#[test]
fn each_key_may_be_missing_or_wrong(rt: HostRuntime) {
    pass(&rt, rt.alloc(), &Edited, KEYS);
    pass(&rt, rt.alloc(), &Edited, LIMITS);
}

/// Whether what is said of the file with the edits of a case begins as the case does.
struct Begun;

impl Subject for Begun {
    fn said(&self, alloc: Global, case: &str) -> Result<String, Fail> {
        let said = said_of(alloc, edited(alloc, DAIAB, case)?.as_str())?;
        if said.as_str().starts_with(field(case, 0)?) {
            return Ok(String::from_str(alloc, "as due")?);
        }
        Ok(said)
    }
}

#[test]
fn the_first_fault_decides(rt: HostRuntime) {
    pass(&rt, rt.alloc(), &Begun, FIRST_FAULTS);
}

#[test]
fn rules_of_single_forms(rt: HostRuntime) {
    pass(&rt, rt.alloc(), &Begun, SINGLE_FORMS);
}

/// The registration, the version and the single figures of an aircraft.
fn figures_of(alloc: Global, aircraft: &Aircraft) -> Result<String, Fail> {
    let registration = str::from_utf8(aircraft.registration().bytes())?;
    let version = str::from_utf8(aircraft.version().bytes())?;
    let dry = (aircraft.dry_mass(), aircraft.dry_index());
    let tolerances = (aircraft.tolerance_mass(), aircraft.tolerance_index());
    let ideal = (aircraft.ideal_low(), aircraft.ideal_high());
    Ok(format!(in alloc; "{registration} {version} {dry:?} {tolerances:?} {ideal:?}")?)
}

/// The records of an aircraft's figures.
fn records_of(alloc: Global, aircraft: &Aircraft) -> Result<String, AllocError> {
    format!(in alloc;
        "{:?}\n{:?}\n{:?}\n{:?}",
        aircraft.chord(),
        aircraft.certified(),
        aircraft.averages(),
        aircraft.zones()
    )
}

/// The figures of the file's aircraft.
fn figures_read(alloc: Global) -> Result<String, Fail> {
    let aircraft = aircraft(alloc)?;
    figures_of(alloc, &aircraft)
}

/// The records of the file's aircraft.
fn records_read(alloc: Global) -> Result<String, Fail> {
    let aircraft = aircraft(alloc)?;
    Ok(records_of(alloc, &aircraft)?)
}

#[test]
fn the_file_is_read(rt: HostRuntime) -> Result<(), Fail> {
    assert_eq!(rt;
        figures_read(rt.alloc())?.as_str(),
        "DAIAB Y150 (Kg(42000), Ticks(5000000)) (Kg(500), Ticks(500000)) (Ticks(5000000), Ticks(5100000))"
    );
    assert_eq!(rt; records_read(rt.alloc())?.as_str(), RECORDS);
    Ok(())
}

/// What a position accepts, where that is one kind of container at most.
fn fits_text(alloc: Global, fits: &[Fit]) -> Result<String, Fail> {
    match fits {
        [] => Ok(String::new(alloc)),
        [fit] => Ok(format!(in alloc; "{} {}", str::from_utf8(fit.kind.as_slice())?, fit.most.0)?),
        _ => Err(Fail::new("a position accepts one kind")),
    }
}

/// The name, the compartment and the influence of a position, whether it is a bulk position, and what it accepts.
fn position_text(alloc: Global, position: &Position) -> Result<String, Fail> {
    let name = str::from_utf8(position.name.bytes())?;
    let fits = fits_text(alloc, position.fits.as_slice())?;
    let figures = (position.compartment, position.influence, position.bulk);
    Ok(format!(in alloc; "{name} {figures:?} {fits}")?)
}

/// The first position that differs from its row, where there are as many as rows.
fn first_other_position(alloc: Global, hold: &Hold, rows: &[u8]) -> Result<Option<usize>, Fail> {
    for (at, row) in rows.split(|byte| *byte == b'\n').enumerate() {
        let Some(position) = hold.positions().get(at) else {
            return Ok(Some(at));
        };
        if position_text(alloc, position)?.as_bytes() != row {
            return Ok(Some(at));
        }
    }
    Ok(None)
}

/// The limits of a hold.
fn limits_of(alloc: Global, hold: &Hold) -> Result<String, AllocError> {
    format!(in alloc;
        "{:?}\n{:?}\n{:?}\n{:?}\n{:?}",
        hold.excludes(),
        hold.combined(),
        hold.cumulative(),
        hold.lateral(),
        hold.sides()
    )
}

/// How many positions the file's hold has, and the first that differs from its row.
fn positions_read(alloc: Global) -> Result<(usize, Option<usize>), Fail> {
    let aircraft = aircraft(alloc)?;
    let hold = aircraft.hold();
    let other = first_other_position(alloc, hold, POSITIONS)?;
    Ok((hold.positions().len(), other))
}

#[test]
fn its_positions_are_read(rt: HostRuntime) -> Result<(), Fail> {
    assert_eq!(rt; positions_read(rt.alloc())?, (5, None));
    Ok(())
}

/// The aircraft of the file with a text in the place of its line `[hold]`.
fn aircraft_with(alloc: Global, head: &str) -> Result<Aircraft, Fail> {
    let text = String::from_str(alloc, DAIAB)?.replace(alloc, "[hold]", head)?;
    Ok(read_aircraft(alloc, text.as_bytes())?)
}

/// The limits of its hold.
fn limits_with(alloc: Global, head: &str) -> Result<String, Fail> {
    let aircraft = aircraft_with(alloc, head)?;
    Ok(limits_of(alloc, aircraft.hold())?)
}

#[test]
fn its_hold_is_read(rt: HostRuntime) -> Result<(), Fail> {
    assert_eq!(rt; limits_with(rt.alloc(), "[hold]")?.as_str(), LIMITS_READ);
    Ok(())
}

/// The rows of an aircraft's fuel table, and the corners of its envelopes.
fn balance_of(alloc: Global, aircraft: &Aircraft) -> Result<String, AllocError> {
    format!(in alloc;
        "{:?}\n{:?}\n{:?}\n{:?}\n{:?}",
        aircraft.fuel().rows(),
        aircraft.zero_fuel().forward(),
        aircraft.zero_fuel().aft(),
        aircraft.take_off().forward(),
        aircraft.landing().aft()
    )
}

/// The same of the file's aircraft.
fn balance_read(alloc: Global) -> Result<String, Fail> {
    let aircraft = aircraft(alloc)?;
    Ok(balance_of(alloc, &aircraft)?)
}

#[test]
fn its_balance_is_read(rt: HostRuntime) -> Result<(), Fail> {
    assert_eq!(rt; balance_read(rt.alloc())?.as_str(), BALANCE_READ);
    Ok(())
}

#[test]
fn forward_limits_stand_before_aft_ones(rt: HostRuntime) -> Result<(), Fail> {
    let head = "[hold]\nforward = [[\"12\", 3000]]\nexclude = [[\"11\", \"42\"]]";
    assert_eq!(rt; limits_with(rt.alloc(), head)?.as_str(), FORWARD_READ);
    Ok(())
}

#[test]
fn sides_stand_in_position_order(rt: HostRuntime) -> Result<(), Fail> {
    let head = "[hold]\nright = [\"42\", \"11\"]\nlateral = 500\nleft = [\"41\", \"12\"]";
    assert!(rt;
        limits_with(rt.alloc(), head)?
            .as_str()
            .ends_with(SIDES_READ)
    );
    let left_alone = "[hold]\nlateral = 1000000\nleft = [\"51\"]";
    assert!(rt;
        limits_with(rt.alloc(), left_alone)?
            .as_str()
            .ends_with(LEFT_READ)
    );
    Ok(())
}
