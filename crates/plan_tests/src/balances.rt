// Tasks of a few containers in a hold of two compartments, and what placements of them are worth.
use crate::pass;
use crate::small_tasks::{SIDED, numbers_of, path_from, task_from, task_with};
use case_rows::{Subject, field};
use hold_limits::{
    Hold, Item, Lateral, Path, Task, UldId, distance_from_ideal, hold_index_of, is_in_window,
    is_rising, is_sound, lateral_difference_of, lateral_of, outcome,
};
use mass_units::{Kg, Ticks};
use std::alloc::{AllocError, Global};
use std::str;
use std::test::Fail;

/// What a hold tells of its positions 3, 4 and 5, and of a container.
fn told_by_number(alloc: Global, hold: &Hold) -> Result<String, Fail> {
    let container = Item {
        id: UldId::read(b"AKE10001XX").ok_or("an identity")?,
        mass: Kg(1500),
    };
    let names = [
        str::from_utf8(hold.name_at(3))?,
        str::from_utf8(hold.name_at(5))?,
    ];
    let accepted = (
        hold.accepts_at(&container, 3),
        hold.accepts_at(&container, 4),
    );
    let numbers = (hold.position_count(), hold.influence_at(3));
    Ok(format!(in alloc;
        "{numbers:?} {names:?} {accepted:?} {}",
        hold.exclude_each_other(0, 1)
    )?)
}

/// What the hold of the worked task tells, with the edits of a case.
struct Numbered;

impl Subject for Numbered {
    fn said(&self, alloc: Global, case: &str) -> Result<String, Fail> {
        told_by_number(alloc, task_with(alloc, case)?.hold())
    }
}

#[test]
fn a_hold_knows_its_positions_by_number(rt: HostRuntime) {
    let row = "(5, 600) [\"42\", \"\"] (true, false) false|";
    pass(&rt, rt.alloc(), &Numbered, row);
}

fn worth_of(alloc: Global, task: &Task, path: &Path) -> Result<String, AllocError> {
    if !is_sound(task, path.as_slice()) {
        return String::from_str(alloc, "not sound");
    }
    let lateral = lateral_of(task, path);
    format!(in alloc; "{:?} {lateral}", outcome(task, path))
}

/// The take-off index and the distance of a sound path, and its mass on the right less that on the left. A case has the path,
/// a digit for each position, and edits of the task with sides.
struct Paths;

impl Subject for Paths {
    fn said(&self, alloc: Global, case: &str) -> Result<String, Fail> {
        let path = path_from(alloc, field(case, 0)?)?;
        Ok(worth_of(alloc, &task_from(alloc, SIDED, case)?, &path)?)
    }
}

// In the first case the containers are offered the other way round, and branch order turns them back. In the second a loose
// load is on the bulk position.
#[test]
fn a_path_has_its_take_off_index_and_its_distance(rt: HostRuntime) {
    let rows =
        "(Ticks(4920000), 80000) -1800|12|item AKE10001XX 1000~item AKE10002XX 800=>item AKE10002XX 800~item AKE10001XX 1000
(Ticks(5150000), 150000) -100|13|base=>loose 51 100~base";
    pass(&rt, rt.alloc(), &Paths, rows);
}

/// What is asked of a placement: its hold index, its lateral difference, or whether twins rise.
#[derive(Clone, Copy)]
enum Asked {
    Index,
    Difference,
    Rising,
}

/// What is told of the placement of the first containers on these positions.
fn told_of(alloc: Global, task: &Task, prefix: &[u8], asked: Asked) -> Result<String, Fail> {
    if prefix.len() > task.items().len() {
        return Err("a container for each position".into());
    }
    Ok(match asked {
        Asked::Index => format!(in alloc; "{} ", hold_index_of(task, prefix).0)?,
        Asked::Difference => format!(in alloc; "{} ", lateral_difference_of(task, prefix))?,
        Asked::Rising => format!(in alloc; "{} ", is_rising(task, prefix))?,
    })
}

/// The same of placements with a comma between them, a digit for each position.
fn told_of_all(alloc: Global, task: &Task, placements: &str, asked: Asked) -> Result<String, Fail> {
    let mut told = String::new(alloc);
    for digits in placements.split(',') {
        append_told(alloc, &mut told, task, digits, asked)?;
    }
    Ok(told)
}

fn append_told(
    alloc: Global,
    told: &mut String,
    task: &Task,
    digits: &str,
    asked: Asked,
) -> Result<(), Fail> {
    let prefix = numbers_of(alloc, digits)?;
    let text = told_of(alloc, task, prefix.as_slice(), asked)?;
    told.push_str(text.as_str())?;
    Ok(())
}

/// What is told of them all. A case has them and edits of the task with sides.
struct Told(Asked);

impl Subject for Told {
    fn said(&self, alloc: Global, case: &str) -> Result<String, Fail> {
        let task = task_from(alloc, SIDED, case)?;
        told_of_all(alloc, &task, field(case, 0)?, self.0)
    }
}

#[test]
fn loose_loads_count_and_unknown_positions_do_not(rt: HostRuntime) {
    let row = "70000 670000 70000 -10000 150000 |,3,9,12,21|base=>loose 51 100~base|\
        item AKE10001XX 1000~item AKE10002XX 800=>item AKE10002XX 800~item AKE10001XX 1000";
    pass(&rt, rt.alloc(), &Told(Asked::Index), row);
}

#[test]
fn a_lateral_difference_is_right_less_left(rt: HostRuntime) {
    let row = "100 -900 100 -100 1900 -1700 |,1,9,13,03,21|base=>loose 51 100~base";
    pass(&rt, rt.alloc(), &Told(Asked::Difference), row);
}

// A container, and three of another mass, of which two are twins.
#[test]
fn twins_rise_where_the_later_has_the_greater_number(rt: HostRuntime) {
    let row = "true true true false false true false |,32,102,120,121,1320,2310|\
        item AKE10001XX 1000~item AKE10002XX 800=>\
        item AKE10001XX 900~item AKE10002XX 1000~item PMC10003XX 1000~item AKE10004XX 1000";
    pass(&rt, rt.alloc(), &Told(Asked::Rising), row);
}

fn index_text(alloc: Global, task: &Task, index: Ticks) -> Result<String, AllocError> {
    let inside = is_in_window(task, index);
    format!(in alloc; "{inside} {}", distance_from_ideal(task, index))
}

/// Whether the window has an index, and the distance of the index, as that of the take-off, from the ideal band. A case has
/// the index and edits of the worked task.
struct Indices;

impl Subject for Indices {
    fn said(&self, alloc: Global, case: &str) -> Result<String, Fail> {
        let index = Ticks(field(case, 0)?.parse::<i64>()?);
        Ok(index_text(alloc, &task_with(alloc, case)?, index)?)
    }
}

#[test]
fn both_ends_belong_to_the_window(rt: HostRuntime) {
    let rows = "true 15000000|-10000000
true 14999999|-9999999
true 5000000|0
true 5000000|10000000
false 9223372036859775808|-9223372036854775808
false 15000001|-10000001
false 5000001|10000001
false 9223372036849775807|9223372036854775807";
    pass(&rt, rt.alloc(), &Indices, rows);
}

#[test]
fn the_distance_is_to_the_nearer_end_of_the_band(rt: HostRuntime) {
    let rows = "true 80000|4920000|ideal 50.00000 50.00000=>ideal 50.00000 52.00000
true 0|5000000|ideal 50.00000 50.00000=>ideal 50.00000 52.00000
true 0|5100000|ideal 50.00000 50.00000=>ideal 50.00000 52.00000
true 0|5200000|ideal 50.00000 50.00000=>ideal 50.00000 52.00000
true 100000|5300000|ideal 50.00000 50.00000=>ideal 50.00000 52.00000
false 9223372036859775808|-9223372036854775808|ideal 50.00000 50.00000=>ideal 50.00000 52.00000
false 9223372036849575807|9223372036854775807|ideal 50.00000 50.00000=>ideal 50.00000 52.00000";
    pass(&rt, rt.alloc(), &Indices, rows);
}

/// The index at a place: beyond the limit at the one that is asked for.
fn index_at(place: usize, beyond: usize) -> Ticks {
    Ticks(if place == beyond { -1_000_000_001 } else { 0 })
}

/// The fault of a task in which the index with this number is beyond the limit.
struct Beyond;

impl Subject for Beyond {
    fn said(&self, alloc: Global, case: &str) -> Result<String, Fail> {
        let beyond = case.parse::<usize>()?;
        let made = Task::new(
            hold_with(alloc, "")?,
            Vec::new(alloc),
            Vec::new(alloc),
            index_at(1, beyond),
            index_at(2, beyond),
            index_at(3, beyond),
            index_at(4, beyond),
            index_at(5, beyond),
        );
        Ok(format!(in alloc; "{:?}", made.err())?)
    }
}

#[test]
fn an_index_beyond_the_limit_is_named_by_its_number(rt: HostRuntime) {
    let rows = "Some(Range(1))|1
Some(Range(2))|2
Some(Range(3))|3
Some(Range(4))|4
Some(Range(5))|5";
    pass(&rt, rt.alloc(), &Beyond, rows);
}

/// Whether a task is the same as its copy, and as the worked task with the edits of a case; and whether its hold is.
fn told_of_sameness(alloc: Global, one: &Task, edits: &str) -> Result<String, Fail> {
    let (copy, other) = (one.copy(alloc)?, task_with(alloc, edits)?);
    Ok(format!(in alloc; "{} {}", one.same(&copy), one.same(&other))?)
}

/// What is told of the worked task with a loose load of no mass.
struct Sameness;

impl Subject for Sameness {
    fn said(&self, alloc: Global, case: &str) -> Result<String, Fail> {
        let one = task_with(alloc, "base=>loose 51 0\nbase")?;
        told_of_sameness(alloc, &one, case)
    }
}

#[test]
fn a_copy_is_the_same_task_and_another_window_is_not(rt: HostRuntime) {
    let rows = "true true|base=>loose 51 0~base
true false|
true false|base=>loose 51 0~base|ideal 50.00000 50.00000=>ideal 50.00000 50.00001";
    pass(&rt, rt.alloc(), &Sameness, rows);
}

/// The hold of the worked task with these edits.
fn hold_with(alloc: Global, edits: &str) -> Result<Hold, Fail> {
    Ok(task_with(alloc, edits)?.hold().clone()?)
}

/// The task with sides and the edits of a case, or the worked one.
fn other_task(alloc: Global, case: &str) -> Result<Task, Fail> {
    if case == "worked" {
        task_with(alloc, "")
    } else {
        task_from(alloc, SIDED, case)
    }
}

/// The lateral limit of a hold, its number of sides, and the sides of positions 0 to 5.
fn sides_text(alloc: Global, hold: &Hold) -> Result<String, AllocError> {
    let most = hold.lateral().map(|lateral| lateral.most);
    let sides = [
        hold.side_at(0),
        hold.side_at(1),
        hold.side_at(2),
        hold.side_at(3),
        hold.side_at(4),
        hold.side_at(5),
    ];
    format!(in alloc; "{most:?} {}: {sides:?}", hold.sides().len())
}

/// What is told of the sides of that task.
struct Sides;

impl Subject for Sides {
    fn said(&self, alloc: Global, case: &str) -> Result<String, Fail> {
        Ok(sides_text(alloc, other_task(alloc, case)?.hold())?)
    }
}

#[test]
fn a_lateral_limit_gives_positions_their_sides(rt: HostRuntime) {
    let rows = "None 0: [0, 0, 0, 0, 0, 0]|worked
Some(Kg(500)) 5: [1, -1, -1, 1, 1, 0]|";
    pass(&rt, rt.alloc(), &Sides, rows);
}

/// Whether a hold is the same as its copy, and as another one.
fn told_of_copy(alloc: Global, hold: &Hold, other: &Hold) -> Result<String, Fail> {
    Ok(format!(in alloc; "{} {}", hold.same(&hold.clone()?), hold.same(other))?)
}

/// What is told of the hold with sides beside that with the edits of a case, or beside the worked one.
struct SameHold;

impl Subject for SameHold {
    fn said(&self, alloc: Global, case: &str) -> Result<String, Fail> {
        let other = other_task(alloc, case)?;
        told_of_copy(alloc, task_from(alloc, SIDED, "")?.hold(), other.hold())
    }
}

#[test]
fn holds_with_other_lateral_limits_are_not_the_same(rt: HostRuntime) {
    let rows = "true true|\ntrue false|worked\ntrue false|lateral 500=>lateral 501";
    pass(&rt, rt.alloc(), &SameHold, rows);
}

/// The sides that are spelled so: positions, and `l` behind those on the left.
fn sides_in(alloc: Global, spelled: &str) -> Result<Vec<(u8, bool)>, Fail> {
    let mut sides = Vec::new(alloc);
    let mut number = 0;
    for byte in spelled.as_bytes() {
        match *byte {
            b'l' => sides.push((number, false))?,
            b'r' => sides.push((number, true))?,
            digit => number = digit & 15,
        }
    }
    Ok(sides)
}

/// The fault of the worked hold with the sides of a case.
struct ListedSides;

impl Subject for ListedSides {
    fn said(&self, alloc: Global, case: &str) -> Result<String, Fail> {
        let lateral = Lateral {
            most: Kg(500),
            sides: sides_in(alloc, case)?.into(),
        };
        let made = hold_with(alloc, "")?.with_lateral(lateral);
        Ok(format!(in alloc; "{:?}", made.err())?)
    }
}

#[test]
fn sides_are_of_known_positions_in_rising_order(rt: HostRuntime) {
    let rows = "None|
None|2l4r
Some(Side(0))|5r
Some(Side(1))|0r0l
Some(Side(1))|1r0r
Some(Side(2))|0r2l2l
Some(Side(2))|0r3r9l1r";
    pass(&rt, rt.alloc(), &ListedSides, rows);
}

const BEYOND: [i64; 3] = [501, -501, i64::MIN];

/// How many of the differences are within the lateral limit.
fn count_within(hold: &Hold, differences: &[i64]) -> usize {
    differences
        .iter()
        .filter(|difference| hold.is_within_lateral(**difference))
        .count()
}

/// How many differences up to 500 kg, of three, are within the lateral limit of a hold; and how many beyond it.
fn within_text(alloc: Global, hold: &Hold) -> Result<String, AllocError> {
    let (met, beyond) = (
        count_within(hold, &[0, 500, -500]),
        count_within(hold, &BEYOND),
    );
    format!(in alloc; "{met} {beyond}")
}

/// The same of the hold with sides, or of the worked one.
struct Within;

impl Subject for Within {
    fn said(&self, alloc: Global, case: &str) -> Result<String, Fail> {
        Ok(within_text(alloc, other_task(alloc, case)?.hold())?)
    }
}

#[test]
fn a_difference_is_within_the_lateral_limit_that_it_meets_or_within_none(rt: HostRuntime) {
    pass(&rt, rt.alloc(), &Within, "3 0|\n3 3|worked");
}

/// So many containers of one mass.
fn many_items(alloc: Global, count: u8) -> Result<Vec<Item>, Fail> {
    let mut items = Vec::new(alloc);
    for number in 0..count {
        let mut id = *b"AKE10000XX";
        id[6] += number / 10;
        id[7] += number % 10;
        items.push(Item {
            id: UldId::read(&id).ok_or("an identity")?,
            mass: Kg(1000),
        })?;
    }
    Ok(items)
}

/// The fault of a task with so many containers.
struct Many;

impl Subject for Many {
    fn said(&self, alloc: Global, case: &str) -> Result<String, Fail> {
        let items = many_items(alloc, case.parse::<u8>()?)?;
        let made = Task::new(
            hold_with(alloc, "")?,
            items,
            Vec::new(alloc),
            Ticks(0),
            Ticks(0),
            Ticks(0),
            Ticks(0),
            Ticks(0),
        );
        Ok(format!(in alloc; "{:?}", made.err())?)
    }
}

#[test]
fn a_task_has_up_to_sixty_containers(rt: HostRuntime) {
    pass(&rt, rt.alloc(), &Many, "None|60\nSome(TooManyItems)|61");
}
