// Names and identities, lists, and what positions and limits cover.
use crate::pass;
use case_rows::Subject;
use hold_parts::{
    Cumulative, Fit, Fits, Item, Lateral, Limit, Name, Places, Position, Same, UldId, is_kind,
};
use mass_units::Kg;
use std::alloc::Global;
use std::str;
use std::test::Fail;

/// The bytes of the name that a text spells.
struct Names;

impl Subject for Names {
    fn said(&self, alloc: Global, case: &str) -> Result<String, Fail> {
        let name = Name::read(case.as_bytes());
        let name = name
            .as_ref()
            .map_or(b"none".as_slice(), |name| name.bytes());
        Ok(String::from_str(alloc, str::from_utf8(name)?)?)
    }
}

#[test]
fn names_have_one_to_three_capitals_and_digits(rt: HostRuntime) {
    let rows = "1|1\nA|A\n11L|11L\n42|42\nZZ9|ZZ9\nnone|\nnone|1234\nnone|a\nnone|1-\nnone| 1";
    pass(&rt, rt.alloc(), &Names, rows);
}

/// The identity that a text spells, its kind, and whether that is a kind.
struct Identities;

impl Subject for Identities {
    fn said(&self, alloc: Global, case: &str) -> Result<String, Fail> {
        match UldId::read(case.as_bytes()) {
            Some(id) => {
                let (text, kind) = (str::from_utf8(id.bytes())?, str::from_utf8(id.kind())?);
                Ok(format!(in alloc; "{text} {kind} {}", is_kind(id.kind()))?)
            }
            None => Ok(String::from_str(alloc, "none")?),
        }
    }
}

#[test]
fn identities_have_a_kind_a_serial_and_an_owner(rt: HostRuntime) {
    let rows = "AKE1234XX AKE true|AKE1234XX
PMC12345LH PMC true|PMC12345LH
AKE12345X9 AKE true|AKE12345X9
none|
none|AKE123XX
none|AKE123456XX
none|AK11234XX
none|ake1234XX
none|AKE12A4XX
none|AKE1234X-";
    pass(&rt, rt.alloc(), &Identities, rows);
}

fn kinds(alloc: Global) -> Result<Fits, Fail> {
    let fit = Fit {
        kind: *b"AKE",
        most: Kg(1500),
    };
    Ok(Fits::from(vec![in alloc; fit]?))
}

#[test]
fn lists_come_from_vectors_and_go_back(rt: HostRuntime) -> Result<(), Fail> {
    let places = Places::from(vec![in rt.alloc(); 1, 2, 4]?);
    assert_eq!(rt; places.as_slice(), [1, 2, 4].as_slice());
    assert_eq!(rt; Vec::from(places).as_slice(), [1, 2, 4].as_slice());
    let fits = kinds(rt.alloc())?;
    assert_eq!(rt; fits.as_slice().len(), 1);
    let list: Vec<Fit> = fits.into();
    assert_eq!(rt; list.len(), 1);
    Ok(())
}

/// The container of an identity and a mass.
fn item_of(case: &str) -> Result<Item, Fail> {
    let (id, mass) = case.split_once(' ').unwrap_or((case, ""));
    match UldId::read(id.as_bytes()) {
        Some(id) => Ok(Item {
            id,
            mass: Kg(mass.parse::<u32>()?),
        }),
        None => Err(Fail::new("an identity")),
    }
}

/// Whether a position for AKE up to 1,500 kg accepts a container, and containers of its kind.
struct Accepted;

impl Subject for Accepted {
    fn said(&self, alloc: Global, case: &str) -> Result<String, Fail> {
        let item = item_of(case)?;
        let position = Position {
            name: Name::read(b"11").ok_or("a name")?,
            compartment: 1,
            influence: -600,
            bulk: false,
            fits: kinds(alloc)?,
        };
        let accepted = position.accepts(&item);
        Ok(format!(in alloc; "{accepted} {}", position.accepts_kind(&item))?)
    }
}

#[test]
fn a_position_accepts_its_kinds_up_to_their_greatest_masses(rt: HostRuntime) {
    let rows = "true true|AKE10001XX 1500\nfalse true|AKE10001XX 1501\nfalse false|PMC10001XX 1500";
    pass(&rt, rt.alloc(), &Accepted, rows);
}

/// Whether a container is a twin of another.
struct Twins;

impl Subject for Twins {
    fn said(&self, alloc: Global, case: &str) -> Result<String, Fail> {
        let one = item_of("AKE10001XX 1000")?;
        Ok(format!(in alloc; "{}", one.is_twin_of(&item_of(case)?))?)
    }
}

#[test]
fn twins_are_of_one_kind_and_of_one_mass(rt: HostRuntime) {
    let rows = "true|AKE2002YY 1000\nfalse|AKE10002XX 999\nfalse|PMC10001XX 1000";
    pass(&rt, rt.alloc(), &Twins, rows);
}

/// A limit of a mass, with one position on the left and one on the right or on the left.
fn lateral(alloc: Global, most: u32, right: bool) -> Result<Lateral, Fail> {
    Ok(Lateral {
        most: Kg(most),
        sides: vec![in alloc; (0, true), (3, right)]?.into(),
    })
}

/// Whether a limit is the same as its copy, and as another one; and how many sides its copy has.
fn told_of_copy(alloc: Global, other: &Option<Lateral>) -> Result<String, Fail> {
    let one = Some(lateral(alloc, 500, false)?);
    let copy = one.clone()?;
    let (same, alike) = (one.is_same(&copy), one.is_same(other));
    let sides = copy.map(|limit| limit.sides.as_slice().len());
    Ok(format!(in alloc; "{same} {alike} {sides:?}")?)
}

/// What is told of a limit beside one of the mass and the side of a case, or beside none.
struct Copied;

impl Subject for Copied {
    fn said(&self, alloc: Global, case: &str) -> Result<String, Fail> {
        if case == "none" {
            return told_of_copy(alloc, &None);
        }
        let (most, side) = case.split_once(' ').unwrap_or((case, ""));
        let other = lateral(alloc, most.parse::<u32>()?, side == "right")?;
        told_of_copy(alloc, &Some(other))
    }
}

#[test]
fn a_lateral_limit_is_copied_and_compared_whole(rt: HostRuntime) {
    let rows = "true true Some(2)|500 left
true false Some(2)|501 left
true false Some(2)|500 right
true false Some(2)|none";
    pass(&rt, rt.alloc(), &Copied, rows);
}

/// The numbers up to 4 that a limit on position 2 covers, and how much it allows.
struct Covered;

impl Subject for Covered {
    fn said(&self, alloc: Global, case: &str) -> Result<String, Fail> {
        let limit = Cumulative {
            forward: case == "forward",
            place: 2,
            most: Kg(900),
        };
        let mut said = format!(in alloc; "{}", Limit::Counted(&limit).most())?;
        for number in 0..5 {
            said.push(if Limit::Counted(&limit).covers(number) {
                '+'
            } else {
                '-'
            })?;
        }
        Ok(said)
    }
}

#[test]
fn a_cumulative_limit_covers_its_own_position_and_one_side(rt: HostRuntime) {
    let rows = "900--+++|aft\n900+++--|forward";
    pass(&rt, rt.alloc(), &Covered, rows);
}
