// The route of each path, and targets that have none.
use desk_routes::{DeskRouter, Route, edition_in, key_in, read_edition};
use std::alloc::Global;
use std::str;
use std::test::Fail;

/// Targets, each with the name of its route.
const TARGETS: &[u8] = b"/flights Flights
/flights/XX210-12 Flight
/flights/XX210-12/dry/7 Dry
/flights/XX210-12/fuel/7 Fuel
/flights/XX210-12/limits/7 Limits
/flights/XX210-12/cabin/7 Cabin
/flights/XX210-12/containers/7 Containers
/flights/XX210-12/loose/7 Loose
/flights/XX210-12/plan/7 Plan
/flights/XX210-12/best/7 Best
/flights/XX210-12/task/7 Task
/flights/XX210-12/release/7 Release
/flights/XX210-12/lmc/7 Late
/flights/XX210-12/reopen/7 Reopen
/flights/XX210-12/depart/7 Depart
/flights/XX210-12/sheet Sheet
/flights/XX210-12/ldm Ldm
/flights/XX210-12/cpm Cpm
/flights/ None
/flights//dry/7 None
/flights/XX210-12/dry/7?x None
/flights/XX210-12/weight/7 None
/flights/XX210-12/dry None
/flights/XX210-12/best None
/flights/XX210-12/task None
/flights/XX210-12/task/7/8 None
* None";

fn name_of(route: Option<Route>) -> &'static str {
    match route {
        Some(Route::Flights) => "Flights",
        Some(Route::Flight) => "Flight",
        Some(Route::Dry) => "Dry",
        Some(Route::Fuel) => "Fuel",
        Some(Route::Limits) => "Limits",
        Some(Route::Cabin) => "Cabin",
        Some(Route::Containers) => "Containers",
        Some(Route::Loose) => "Loose",
        Some(Route::Plan) => "Plan",
        Some(Route::Best) => "Best",
        Some(Route::Task) => "Task",
        Some(Route::Release) => "Release",
        Some(Route::Late) => "Late",
        Some(Route::Reopen) => "Reopen",
        Some(Route::Depart) => "Depart",
        Some(Route::Sheet) => "Sheet",
        Some(Route::Ldm) => "Ldm",
        Some(Route::Cpm) => "Cpm",
        None => "None",
    }
}

/// The first target with another route.
fn first_wrong(alloc: Global, targets: &[u8]) -> Result<Option<usize>, Fail> {
    let router = DeskRouter::new(alloc)?;
    for (at, row) in targets.split(|byte| *byte == b'\n').enumerate() {
        let mut words = row.split(|byte| *byte == b' ');
        let target = words.next().ok_or("a target")?;
        let name = words.next().ok_or("a route")?;
        if name_of(router.route(target)).as_bytes() != name {
            return Ok(Some(at));
        }
    }
    Ok(None)
}

#[test]
fn each_path_has_its_route(rt: HostRuntime) -> Result<(), Fail> {
    assert_eq!(rt; first_wrong(rt.alloc(), TARGETS)?, None);
    let router = DeskRouter::new(rt.alloc())?;
    assert_eq!(rt; router.route(b"/flights/\xff/dry/7"), None);
    Ok(())
}

/// The key and the edition in a path.
fn parts_in(alloc: Global, path: &str) -> Result<String, Fail> {
    let key = str::from_utf8(key_in(path.as_bytes()))?;
    let edition = str::from_utf8(edition_in(path.as_bytes()))?;
    Ok(format!(in alloc; "{key} {edition}")?)
}

#[test]
fn keys_and_editions_are_parts_of_a_path(rt: HostRuntime) -> Result<(), Fail> {
    let rows = [
        ("/flights/XX210-12/dry/7", "XX210-12 7"),
        ("/flights/XX210-12/sheet", "XX210-12 "),
        ("/flights/XX210-12", "XX210-12 "),
    ];
    for (path, due) in rows {
        assert_eq!(rt; parts_in(rt.alloc(), path)?.as_str(), due);
    }
    Ok(())
}

/// The first of these texts that is an edition.
fn first_edition(texts: &[&str]) -> Option<u32> {
    for text in texts {
        if let Some(edition) = read_edition(text.as_bytes()) {
            return Some(edition);
        }
    }
    None
}

#[test]
fn editions_have_their_limits(rt: HostRuntime) {
    let others = ["0", "4294967296", "07", "-1", "", "7x"];
    assert_eq!(rt; first_edition(&others), None);
    assert_eq!(rt; first_edition(&["4294967295"]), Some(4_294_967_295));
}
