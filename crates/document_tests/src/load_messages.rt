// The worked messages written and read, what is refused, and messages of random sheets read back.
use crate::sheets::{next, worked};
use hold_limits::{Name, UldId};
use last_minute::{Place, PlaceList, Sheet};
use ldm_cpm::{Cpm, CpmPlace, Head, Ldm, MsgFault, read_cpm, read_ldm, write_cpm, write_ldm};
use mass_units::Kg;
use std::alloc::Global;
use std::str;
use std::test::Fail;
use telex::{Part, TelexFault};
use worked_day::{CPM, LDM};

/// A row of places: a name, the number of its compartment, the identity of its container, if it has one, and a mass.
type Row = (&'static [u8], u8, Option<&'static [u8]>, u32);

/// The places of the worked sheet.
const WORKED: [Row; 5] = [
    (b"11", 1, Some(b"AKE10001XX"), 1_000),
    (b"12", 1, None, 0),
    (b"41", 4, None, 0),
    (b"42", 4, Some(b"AKE10002XX"), 800),
    (b"51", 5, None, 320),
];

/// Places with containers, a loose load, and positions with nothing, in compartments that do not rise.
const ODD: [Row; 7] = [
    (b"41", 4, Some(b"AKE10001XX"), 0),
    (b"11", 1, Some(b"AKE1002XX"), 0),
    (b"12", 1, Some(b"PMC100039K"), 0),
    (b"13", 1, None, 0),
    (b"0A", 0, None, 0),
    (b"9", 9, Some(b"AKE10005XX"), 0),
    (b"51", 5, None, 0),
];

fn identity(id: Option<&[u8]>) -> Option<Option<UldId>> {
    match id {
        Some(id) => Some(Some(UldId::read(id)?)),
        None => Some(None),
    }
}

fn place(row: &Row) -> Option<Place> {
    let (name, compartment, id, mass) = *row;
    Some(Place {
        name: Name::read(name)?,
        compartment,
        bulk: compartment == 5,
        id: identity(id)?,
        mass: Kg(mass),
    })
}

fn places(alloc: Global, rows: &[Row]) -> Result<Vec<Place>, Fail> {
    let mut places = Vec::new(alloc);
    for row in rows {
        places.push(place(row).ok_or("a place is not spelled")?)?;
    }
    Ok(places)
}

fn worked_sheet(alloc: Global) -> Result<Sheet, Fail> {
    let mut sheet = worked(alloc).ok_or("a text is not spelled")?;
    sheet.places = PlaceList::from(places(alloc, &WORKED)?);
    Ok(sheet)
}

#[test]
fn worked_messages_are_written(rt: HostRuntime) -> Result<(), Fail> {
    let sheet = worked_sheet(rt.alloc())?;
    assert_eq!(rt; write_ldm(rt.alloc(), &sheet)?.as_slice(), LDM.as_bytes());
    assert_eq!(rt; write_cpm(rt.alloc(), &sheet)?.as_slice(), CPM.as_bytes());
    Ok(())
}

/// What is read of the worked load message: its parts, each with its mark and where it stands, and its numbers.
const LDM_PARTS: &str = "XX210@4 /12@10 .DAIAB@13 .Y150@19 crew Some((2, 4))
ARN@29 120/10/3 [(1, Kg(1000)), (4, Kg(800)), (5, Kg(320))]
";

/// What is read of the worked container message.
const CPM_PARTS: &str = "XX210@4 /12@10 .DAIAB@13 .Y150@19 crew None
11@25 /AKE10001XX@28 /ARN@39 1000
12@49 0
41@55 0
42@61 /AKE10002XX@64 /ARN@75 800
51@84 /ARN@87 320
";

fn push_part(out: &mut String, part: &Part<'_>) -> Result<(), Fail> {
    if part.before != 0 {
        out.push(char::from(part.before))?;
    }
    write!(out, "{}@{} ", str::from_utf8(part.text)?, part.at)?;
    Ok(())
}

fn push_head(out: &mut String, head: &Head<'_>) -> Result<(), Fail> {
    push_part(out, &head.flight)?;
    push_part(out, &head.day)?;
    push_part(out, &head.registration)?;
    push_part(out, &head.version)?;
    writeln!(out, "crew {:?}", head.crew)?;
    Ok(())
}

fn push_place(out: &mut String, place: &CpmPlace<'_>) -> Result<(), Fail> {
    push_part(out, &place.name)?;
    if let Some(id) = &place.id {
        push_part(out, id)?;
    }
    if let Some(destination) = &place.destination {
        push_part(out, destination)?;
    }
    writeln!(out, "{}", place.mass.0)?;
    Ok(())
}

fn push_load_message(out: &mut String, m: &Ldm<'_>) -> Result<(), Fail> {
    push_head(out, &m.head)?;
    push_part(out, &m.destination)?;
    let loads = m.loads.as_slice();
    writeln!(out, "{}/{}/{} {loads:?}", m.adults, m.children, m.infants)?;
    Ok(())
}

fn push_container_message(out: &mut String, m: &Cpm<'_>) -> Result<(), Fail> {
    push_head(out, &m.head)?;
    for place in m.places.as_slice() {
        push_place(out, place)?;
    }
    Ok(())
}

#[test]
fn a_load_message_is_read_with_its_parts(rt: HostRuntime) -> Result<(), Fail> {
    let mut out = String::new(rt.alloc());
    push_load_message(&mut out, &read_ldm(rt.alloc(), LDM.as_bytes())?)?;
    assert_eq!(rt; out.as_str(), LDM_PARTS);
    Ok(())
}

#[test]
fn a_container_message_is_read_with_its_parts(rt: HostRuntime) -> Result<(), Fail> {
    let mut out = String::new(rt.alloc());
    push_container_message(&mut out, &read_cpm(rt.alloc(), CPM.as_bytes())?)?;
    assert_eq!(rt; out.as_str(), CPM_PARTS);
    Ok(())
}

fn ldm_fault(alloc: Global, text: &[u8]) -> Option<MsgFault> {
    read_ldm(alloc, text).err()
}

fn cpm_fault(alloc: Global, text: &[u8]) -> Option<MsgFault> {
    read_cpm(alloc, text).err()
}

#[test]
fn wrong_load_messages_are_refused(rt: HostRuntime) {
    let rows: [(&[u8], MsgFault); 6] = [
        (
            b"LDM\nXX210/12.DAIAB.Y150.2/4\n-ARN.120/10/3.T2121.1/1000.4/800.5/320.PAX/130\n",
            MsgFault::Line(3),
        ),
        (b"LDM\nXX210/12.DAIAB.Y150.2/4\n", MsgFault::Line(3)),
        (b"LD\x07\n", MsgFault::Telex(TelexFault::BadByte(2))),
        (
            b"LDM\nXX210/12.DAIAB.Y150.2/4\n-ARN.120/10/3.T2120.4/800.1/1000.5/320.PAX/130\n",
            MsgFault::Line(3),
        ),
        (
            b"LDM\nXX210/12.DAIAB.Y150.2/4\n-ARN.120/10/3.T2120.1/1000.4/800.5/320.PAX/133\n",
            MsgFault::Line(3),
        ),
        (b"CPM\n", MsgFault::Line(1)),
    ];
    for (text, fault) in rows {
        assert_eq!(rt; ldm_fault(rt.alloc(), text), Some(fault));
    }
}

#[test]
fn wrong_container_messages_are_refused(rt: HostRuntime) {
    let rows: [(&[u8], MsgFault); 4] = [
        (
            b"CPM\nXX210/12.DAIAB.Y150\n-11/N\n-12/N\n-11/N\n",
            MsgFault::Line(5),
        ),
        (b"CPM\nXX210/12.DAIAB.Y150\n", MsgFault::Line(3)),
        (b"CPM\nXX210/12.DAIAB.Y150\n-51/ARN/0\n", MsgFault::Line(3)),
        (
            b"CPM\nXX210/12.DAIAB.Y150",
            MsgFault::Telex(TelexFault::NoEnd),
        ),
    ];
    for (text, fault) in rows {
        assert_eq!(rt; cpm_fault(rt.alloc(), text), Some(fault));
    }
}

/// A sheet with these odd places and random figures.
fn random_sheet(alloc: Global, seed: &mut u64) -> Result<Sheet, Fail> {
    let mut places = places(alloc, &ODD)?;
    for place in &mut places {
        if place.id.is_some() || place.bulk {
            place.mass = Kg(next(seed) & 0xFFFF);
        }
    }
    let mut sheet = worked(alloc).ok_or("a text is not spelled")?;
    sheet.places = PlaceList::from(places);
    sheet.adults = next(seed);
    sheet.children = next(seed);
    sheet.infants = next(seed);
    Ok(sheet)
}

fn mass_of(places: &[Place], compartment: u8) -> u32 {
    let mut mass: u32 = 0;
    for place in places {
        if place.compartment == compartment {
            mass = mass.saturating_add(place.mass.0);
        }
    }
    mass
}

fn are_loads(loads: &[(u8, Kg)], places: &[Place]) -> bool {
    for (compartment, mass) in loads {
        if mass.0 != mass_of(places, *compartment) {
            return false;
        }
    }
    true
}

fn is_load_message(m: &Ldm<'_>, sheet: &Sheet) -> bool {
    m.adults == sheet.adults
        && m.children == sheet.children
        && m.infants == sheet.infants
        && m.destination.text == b"ARN".as_slice()
        && are_loads(m.loads.as_slice(), sheet.places.as_slice())
}

fn is_read_back(alloc: Global, sheet: &Sheet) -> Result<bool, Fail> {
    let text = write_ldm(alloc, sheet)?;
    match &read_ldm(alloc, text.as_slice()) {
        Ok(m) => Ok(is_load_message(m, sheet)),
        Err(_) => Ok(false),
    }
}

fn is_same_place(read: &CpmPlace<'_>, place: &Place) -> bool {
    let id = match (&read.id, &place.id) {
        (Some(read), Some(id)) => read.text == id.bytes(),
        (None, None) => true,
        _ => false,
    };
    id && read.name.text == place.name.bytes() && read.mass == place.mass
}

fn are_same_places(read: &[CpmPlace<'_>], places: &[Place]) -> bool {
    for (read, place) in read.iter().zip(places) {
        if !is_same_place(read, place) {
            return false;
        }
    }
    read.len() == places.len()
}

fn places_are_read_back(alloc: Global, sheet: &Sheet) -> Result<bool, Fail> {
    let text = write_cpm(alloc, sheet)?;
    match &read_cpm(alloc, text.as_slice()) {
        Ok(m) => Ok(are_same_places(m.places.as_slice(), sheet.places.as_slice())),
        Err(_) => Ok(false),
    }
}

#[test]
fn messages_of_random_sheets_are_read_back(rt: HostRuntime) -> Result<(), Fail> {
    let mut seed = 20_261_127;
    for _ in 0..200 {
        let sheet = random_sheet(rt.alloc(), &mut seed)?;
        assert!(rt; is_read_back(rt.alloc(), &sheet)?);
        assert!(rt; places_are_read_back(rt.alloc(), &sheet)?);
    }
    Ok(())
}
