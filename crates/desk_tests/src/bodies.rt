// The bodies of the worked day, and bodies on both sides of each limit. What is read of a body is compared as a text.
use desk_bodies::{
    BodyFault, read_budget, read_cabin, read_change, read_containers, read_dry, read_fuel,
    read_leg, read_limits, read_looks, read_loose,
};
use flight_state::{Leg, Lmc};
use hold_limits::Item;
use std::alloc::Global;
use std::fmt::Debug;
use std::str;
use std::test::Fail;
use trim::LooseFigure;

/// What is said of a body that does not have the form of its request.
const REFUSED: &str = "Err(Form)";

/// Fails where the text is not the one that is due.
fn compare(text: &str, due: &str) -> Result<(), Fail> {
    if text == due {
        return Ok(());
    }
    Err(Fail::new(format_args!("{text} in place of {due}")))
}

/// Compares what was read, as its debug text.
fn check<T: Debug + Drop>(
    alloc: Global,
    read: Result<T, BodyFault>,
    due: &str,
) -> Result<(), Fail> {
    let text = format!(in alloc; "{read:?}")?;
    compare(text.as_str(), due)
}

/// The text of these bytes, and nothing where they are not one.
fn text_of(bytes: &[u8]) -> &str {
    match str::from_utf8(bytes) {
        Ok(text) => text,
        Err(_) => "",
    }
}

/// Compares a leg that was read, as its words.
fn check_leg(alloc: Global, leg: &Leg, due: &str) -> Result<(), Fail> {
    let text = format!(in alloc;
        "{} {} {} {} {}",
        text_of(leg.flight.bytes()),
        text_of(leg.day.bytes()),
        text_of(leg.registration.bytes()),
        text_of(leg.origin.bytes()),
        text_of(leg.destination.bytes())
    )?;
    compare(text.as_str(), due)
}

/// Compares containers that were read, as a line for each.
fn check_containers(alloc: Global, containers: &[Item], due: &str) -> Result<(), Fail> {
    let mut text = String::new(alloc);
    for item in containers {
        writeln!(text, "{} {}", text_of(item.id.bytes()), item.mass.0)?;
    }
    compare(text.as_str(), due)
}

/// Compares loose loads that were read, as a line for each.
fn check_loose(alloc: Global, loads: &[LooseFigure], due: &str) -> Result<(), Fail> {
    let mut text = String::new(alloc);
    for load in loads {
        let position = text_of(load.position.bytes());
        writeln!(text, "{position} {} {}", load.mass.0, load.pieces)?;
    }
    compare(text.as_str(), due)
}

#[test]
fn the_leg_of_the_worked_day(rt: HostRuntime) -> Result<(), Fail> {
    let leg = read_leg(
        rt.alloc(),
        br#"{"flight":"XX210","day":12,"registration":"DAIAB","origin":"FRA","destination":"ARN"}"#,
    )?;
    check_leg(rt.alloc(), &leg, "XX210 12 DAIAB FRA ARN")
}

/// Values for the day of a flight, each with the day that is read, and with a dash where the body is refused.
const DAYS: &str = r#"1|01
5|05
12|12
30|30
31|31
"12"|-
"05"|-
05|-
0|-
32|-
-1|-
12.0|-
1e1|-
4294967308|-
18446744073709551628|-
[12]|-
true|-
null|-"#;

/// The day of a leg whose body has this value for it, and a dash where the body is refused.
fn day_read(alloc: Global, value: &str) -> Result<String, Fail> {
    let body = format!(in alloc;
        r#"{{"flight":"XX210","day":{value},"registration":"DAIAB","origin":"FRA","destination":"ARN"}}"#
    )?;
    match read_leg(alloc, body.as_bytes()) {
        Ok(leg) => Ok(String::from_str(alloc, text_of(leg.day.bytes()))?),
        Err(BodyFault::Form) => Ok(String::from_str(alloc, "-")?),
        Err(BodyFault::NoMemory) => Err(Fail::new("out of memory")),
    }
}

#[test]
fn a_day_is_a_number_from_1_to_31(rt: HostRuntime) -> Result<(), Fail> {
    for row in DAYS.split('\n') {
        let (value, due) = row.split_once('|').ok_or("a row has two fields")?;
        compare(day_read(rt.alloc(), value)?.as_str(), due)?;
    }
    Ok(())
}

#[test]
fn the_numbers_of_the_worked_day(rt: HostRuntime) -> Result<(), Fail> {
    let alloc = rt.alloc();
    check(
        rt.alloc(),
        read_dry(
            alloc,
            br#"{"mass":42000,"index":"50.00000","cockpit":2,"cabin":4}"#,
        ),
        "Ok(Dry { mass: Kg(42000), index: Ticks(5000000), cockpit: 2, attendants: 4 })",
    )?;
    check(
        rt.alloc(),
        read_fuel(alloc, br#"{"taxi":200,"takeoff":9000,"trip":6000}"#),
        "Ok(Fuel { taxi: Kg(200), take_off: Kg(9000), trip: Kg(6000) })",
    )?;
    check(
        rt.alloc(),
        read_limits(alloc, br#"{"takeoff":73500,"landing":66000}"#),
        "Ok(Regulated { take_off: Kg(73500), landing: Kg(66000) })",
    )
}

#[test]
fn the_load_of_the_worked_day(rt: HostRuntime) -> Result<(), Fail> {
    let alloc = rt.alloc();
    let cabin = read_cabin(alloc, br#"{"zones":[[50,4,2],[70,6,1]]}"#)?;
    check(
        rt.alloc(),
        Ok(cabin.as_slice()),
        "Ok([ZoneCount { adults: 50, children: 4, infants: 2 }, ZoneCount { adults: 70, children: 6, infants: 1 }])",
    )?;
    let containers = read_containers(alloc, b"id,mass\nAKE10001XX,1000\nAKE10002XX,800\n")?;
    check_containers(
        rt.alloc(),
        containers.as_slice(),
        "AKE10001XX 1000\nAKE10002XX 800\n",
    )?;
    let loose = read_loose(alloc, br#"{"bulk":[["51",200,8]]}"#)?;
    check_loose(rt.alloc(), loose.as_slice(), "51 200 8\n")
}

#[test]
fn numbers_have_their_limits(rt: HostRuntime) -> Result<(), Fail> {
    check(
        rt.alloc(),
        read_fuel(
            rt.alloc(),
            br#"{"taxi":1000000,"takeoff":1000000,"trip":1000000}"#,
        ),
        "Ok(Fuel { taxi: Kg(1000000), take_off: Kg(1000000), trip: Kg(1000000) })",
    )?;
    for body in [
        br#"{"taxi":1000001,"takeoff":9000,"trip":6000}"#.as_slice(),
        br#"{"taxi":200,"takeoff":9000,"trip":9001}"#,
        br#"{"taxi":-1,"takeoff":9000,"trip":6000}"#,
        br#"{"taxi":2e2,"takeoff":9000,"trip":6000}"#,
        br#"{"taxi":"200","takeoff":9000,"trip":6000}"#,
        br#"{"taxi":200,"takeoff":9000}"#,
        br#"{"taxi":200,"takeoff":9000,"trip":6000,"more":1}"#,
        br#"["taxi",200,"takeoff",9000,"trip",6000]"#,
        b"\xff",
        b"",
    ] {
        check(rt.alloc(), read_fuel(rt.alloc(), body), REFUSED)?;
    }
    Ok(())
}

#[test]
fn a_key_given_twice_has_its_last_value(rt: HostRuntime) -> Result<(), Fail> {
    check(
        rt.alloc(),
        read_limits(rt.alloc(), br#" {"takeoff":1, "landing":2, "takeoff":3} "#),
        "Ok(Regulated { take_off: Kg(3), landing: Kg(2) })",
    )
}

#[test]
fn budgets(rt: HostRuntime) -> Result<(), Fail> {
    let rows = [
        (b"".as_slice(), "Ok(2000)"),
        (br#"{"budget":5000}"#, "Ok(5000)"),
        (br#"{"budget":5001}"#, REFUSED),
        (b" ", REFUSED),
    ];
    for (body, due) in rows {
        check(rt.alloc(), read_budget(rt.alloc(), body), due)?;
    }
    Ok(())
}

#[test]
fn looks(rt: HostRuntime) -> Result<(), Fail> {
    let rows = [
        (b"".as_slice(), "Ok(2000)"),
        (br#"{"looks":1}"#, "Ok(1)"),
        (br#"{"looks":1000000}"#, "Ok(1000000)"),
        (br#"{"looks":0}"#, REFUSED),
        (br#"{"looks":1000001}"#, REFUSED),
        (br#"{"looks":-1}"#, REFUSED),
        (br#"{"looks":"5"}"#, REFUSED),
        (br#"{"budget":500}"#, REFUSED),
        (br#"{"looks":5,"budget":500}"#, REFUSED),
        (b"{}", REFUSED),
        (b"5", REFUSED),
        (b" ", REFUSED),
    ];
    for (body, due) in rows {
        check(rt.alloc(), read_looks(rt.alloc(), body), due)?;
    }
    Ok(())
}

/// Compares a late change of loose load, as its words.
fn check_loose_change(alloc: Global, change: &Lmc, due: &str) -> Result<(), Fail> {
    let Lmc::Loose {
        position,
        mass,
        pieces,
    } = change
    else {
        return Err(Fail::new("the change is one of loose load"));
    };
    let position = text_of(position.bytes());
    let text = format!(in alloc; "{position} {mass} {pieces}")?;
    compare(text.as_str(), due)
}

#[test]
fn late_changes(rt: HostRuntime) -> Result<(), Fail> {
    let alloc = rt.alloc();
    check(
        rt.alloc(),
        read_change(
            alloc,
            br#"{"zone":2,"adults":-5,"children":0,"infants":999}"#,
        ),
        "Ok(Cabin { zone: 2, adults: -5, children: 0, infants: 999 })",
    )?;
    let loose = read_change(alloc, br#"{"bulk":"51","mass":-1000000,"pieces":3}"#)?;
    check_loose_change(rt.alloc(), &loose, "51 -1000000 3")
}

#[test]
fn late_changes_have_their_limits(rt: HostRuntime) -> Result<(), Fail> {
    for body in [
        br#"{"zone":0,"adults":1,"children":0,"infants":0}"#.as_slice(),
        br#"{"zone":17,"adults":1,"children":0,"infants":0}"#,
        br#"{"zone":1,"adults":1000,"children":0,"infants":0}"#,
        br#"{"bulk":"abcd","mass":1,"pieces":0}"#,
        br#"{"bulk":"51","mass":1}"#,
    ] {
        check(rt.alloc(), read_change(rt.alloc(), body), REFUSED)?;
    }
    Ok(())
}

#[test]
fn tables_of_containers(rt: HostRuntime) -> Result<(), Fail> {
    let rows = [
        (b"id,mass\n".as_slice(), ""),
        (
            b"\"id\",\"mass\"\r\n\r\n\"AKE10001XX\",1000000",
            "AKE10001XX 1000000\n",
        ),
    ];
    for (body, due) in rows {
        let containers = read_containers(rt.alloc(), body)?;
        check_containers(rt.alloc(), containers.as_slice(), due)?;
    }
    Ok(())
}

#[test]
fn tables_that_are_refused(rt: HostRuntime) -> Result<(), Fail> {
    for body in [
        b"".as_slice(),
        b"mass,id\n1000,AKE10001XX\n",
        b"id,mass\nAKE10001XX\n",
        b"id,mass\nAKE10001XX,1000,1\n",
        b"id,mass\nAKE10001XX,1000001\n",
        b"id,mass\nAKE10001XX,01\n",
        b"id,mass\nake10001XX,1\n",
        b"id,mass\nAKE10001XX,1\n\xff",
    ] {
        check(rt.alloc(), read_containers(rt.alloc(), body), REFUSED)?;
    }
    Ok(())
}
