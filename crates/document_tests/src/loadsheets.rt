// The worked loadsheet, its corners, and sheets of random figures beside a plain second writer.
use crate::sheets::{next, worked};
use aircraft_file::Version;
use hold_limits::Name;
use last_minute::{Lmc, Lmcs, PlaceList, Sheet};
use loadsheet_text::write_sheet;
use mass_limits::{Limiting, Masses, Underload};
use mass_units::{Kg, Ticks};
use std::alloc::Global;
use std::str;
use std::test::Fail;
use trim::{Balance, Dry, Fuel, Regulated};
use worked_day::{LOADSHEET, leg};

// The figures beside the greatest masses of the worked sheet, indices and hundredths at their corners.
const CORNERS: &str = "LOADSHEET
XX210/12.DAIAB.FRA.ARN
EDNO 7
PAX 130/3
CABIN 10460
CONTAINERS 1800
LOOSE 320
TRAFFIC LOAD 12580
DRY OPERATING WEIGHT 42000
ZERO FUEL WEIGHT 54580 MAX 62500
TAKE OFF FUEL 9000
TAKE OFF WEIGHT 63580 MAX 73500
TRIP FUEL 6000
LANDING WEIGHT 57580 MAX 66000 L
UNDERLOAD -1
DOI 0.00 LIZFW -0.01 LITOW 1.01 LILAW -10.00
MACZFW -0.05 MACTOW 0.00 MACLAW -12.30
LMC ZONE 2 5/0/-1
LMC BULK 51 -500/-2
END
";

#[test]
fn the_worked_loadsheet_is_written(rt: HostRuntime) -> Result<(), Fail> {
    let sheet = worked(rt.alloc()).ok_or("a text is not spelled")?;
    let text = String::from_utf8(write_sheet(rt.alloc(), &sheet)?)?;
    assert_eq!(rt; text.as_str(), LOADSHEET);
    Ok(())
}

fn corner_changes(alloc: Global) -> Result<Lmcs, Fail> {
    let mut changes = Lmcs::new(alloc);
    changes.push(Lmc::Cabin {
        zone: 2,
        adults: 5,
        children: 0,
        infants: -1,
    })?;
    changes.push(Lmc::Loose {
        position: Name::read(b"51").ok_or("a name is not spelled")?,
        mass: -500,
        pieces: -2,
    })?;
    Ok(changes)
}

fn corner_balance() -> Balance {
    Balance {
        masses: Masses {
            ramp: Kg(63_780),
            zero_fuel: Kg(54_580),
            take_off: Kg(63_580),
            landing: Kg(57_580),
        },
        underload: Underload {
            kg: -1,
            limiting: Limiting::Landing,
        },
        zero_fuel: Ticks(-500),
        take_off: Ticks(100_500),
        landing: Ticks(-1_000_499),
    }
}

#[test]
fn corners_are_written(rt: HostRuntime) -> Result<(), Fail> {
    let mut sheet = worked(rt.alloc()).ok_or("a text is not spelled")?;
    sheet.dry.index = Ticks(-499);
    sheet.balance = corner_balance();
    sheet.mac = [-5, 0, -1_230];
    sheet.lmcs = corner_changes(rt.alloc())?;
    let text = String::from_utf8(write_sheet(rt.alloc(), &sheet)?)?;
    assert_eq!(rt; text.as_str(), CORNERS);
    Ok(())
}

// A number from -8,388,608 to 8,388,607, or one of those nearest to zero.
fn signed(seed: &mut u64) -> i64 {
    if next(seed) & 1 == 0 {
        i64::from(next(seed)) - 0x80_0000
    } else {
        i64::from(next(seed) & 15) - 8
    }
}

// An index. Many are halves of a hundredth, and many have no hundredths.
fn index(seed: &mut u64) -> Ticks {
    let step = match next(seed) & 3 {
        0 => 1,
        1 => 100,
        2 => 499,
        _ => 500,
    };
    Ticks(signed(seed).wrapping_mul(step))
}

// How many persons or pieces more, from -64 to 63.
fn more(seed: &mut u64) -> i16 {
    (next(seed) & 127) as i16 - 64
}

fn change(seed: &mut u64) -> Option<Lmc> {
    if next(seed) & 1 == 0 {
        return Some(Lmc::Cabin {
            zone: (next(seed) & 15) as u8 + 1,
            adults: more(seed),
            children: more(seed),
            infants: more(seed),
        });
    }
    Some(Lmc::Loose {
        position: Name::read(if next(seed) & 1 == 0 { b"51" } else { b"0A1" })?,
        mass: i32::from(more(seed)) * 10,
        pieces: more(seed),
    })
}

// At most three late changes.
fn random_changes(alloc: Global, seed: &mut u64) -> Result<Lmcs, Fail> {
    let mut changes = Lmcs::new(alloc);
    for _ in 0..3 {
        if next(seed) & 1 == 0 && !changes.is_full() {
            changes.push(change(seed).ok_or("a name is not spelled")?)?;
        }
    }
    Ok(changes)
}

fn limiting(seed: &mut u64) -> Limiting {
    match next(seed) % 3 {
        0 => Limiting::ZeroFuel,
        1 => Limiting::TakeOff,
        _ => Limiting::Landing,
    }
}

fn balance(seed: &mut u64) -> Balance {
    Balance {
        masses: Masses {
            ramp: Kg(next(seed)),
            zero_fuel: Kg(next(seed)),
            take_off: Kg(next(seed)),
            landing: Kg(next(seed)),
        },
        underload: Underload {
            kg: signed(seed),
            limiting: limiting(seed),
        },
        zero_fuel: index(seed),
        take_off: index(seed),
        landing: index(seed),
    }
}

fn kg(seed: &mut u64) -> Kg {
    Kg(next(seed))
}

// The numbers of cockpit and attendants are not written.
fn dry(seed: &mut u64) -> Dry {
    Dry {
        mass: kg(seed),
        index: index(seed),
        cockpit: 2,
        attendants: 4,
    }
}

// The fuel for taxiing is not written.
fn fuel(seed: &mut u64) -> Fuel {
    Fuel {
        taxi: Kg(200),
        take_off: kg(seed),
        trip: kg(seed),
    }
}

fn regulated(seed: &mut u64) -> Regulated {
    Regulated {
        take_off: kg(seed),
        landing: kg(seed),
    }
}

fn mac(seed: &mut u64) -> [i128; 3] {
    [
        i128::from(signed(seed)),
        i128::from(signed(seed)),
        i128::from(signed(seed)),
    ]
}

fn random_sheet(alloc: Global, seed: &mut u64) -> Result<Sheet, Fail> {
    Ok(Sheet {
        leg: leg()?,
        version: Version::read(b"Y150").ok_or("a version is not spelled")?,
        edition: next(seed),
        dry: dry(seed),
        fuel: fuel(seed),
        regulated: regulated(seed),
        max_zero_fuel: kg(seed),
        adults: next(seed),
        children: next(seed),
        infants: next(seed),
        cabin_mass: kg(seed),
        container_mass: kg(seed),
        loose_mass: kg(seed),
        balance: balance(seed),
        mac: mac(seed),
        places: PlaceList::from(Vec::new(alloc)),
        lmcs: random_changes(alloc, seed)?,
    })
}

// A plain second writer: the lines as they are printed in the example, with the figures in their places.
fn plain_flight(out: &mut String, s: &Sheet) -> Result<(), Fail> {
    let persons = u64::from(s.adults) + u64::from(s.children);
    let traffic = u64::from(s.cabin_mass.0)
        .saturating_add(u64::from(s.container_mass.0))
        .saturating_add(u64::from(s.loose_mass.0));
    writeln!(
        out,
        "LOADSHEET\nXX210/12.DAIAB.FRA.ARN\nEDNO {}\nPAX {persons}/{}\nCABIN {}\nCONTAINERS {}\nLOOSE {}\nTRAFFIC LOAD {traffic}",
        s.edition, s.infants, s.cabin_mass.0, s.container_mass.0, s.loose_mass.0
    )?;
    Ok(())
}

fn plain_masses(out: &mut String, s: &Sheet) -> Result<(), Fail> {
    let m = &s.balance.masses;
    let [zero_fuel, take_off, landing] = match s.balance.underload.limiting {
        Limiting::ZeroFuel => [" L", "", ""],
        Limiting::TakeOff => ["", " L", ""],
        Limiting::Landing => ["", "", " L"],
    };
    writeln!(
        out,
        "DRY OPERATING WEIGHT {}\nZERO FUEL WEIGHT {} MAX {}{zero_fuel}",
        s.dry.mass.0, m.zero_fuel.0, s.max_zero_fuel.0
    )?;
    writeln!(
        out,
        "TAKE OFF FUEL {}\nTAKE OFF WEIGHT {} MAX {}{take_off}",
        s.fuel.take_off.0, m.take_off.0, s.regulated.take_off.0
    )?;
    writeln!(
        out,
        "TRIP FUEL {}\nLANDING WEIGHT {} MAX {}{landing}\nUNDERLOAD {}",
        s.fuel.trip.0, m.landing.0, s.regulated.landing.0, s.balance.underload.kg
    )?;
    Ok(())
}

// Hundredths with two decimals.
fn plain_decimals(out: &mut String, word: &str, hundredths: i128) -> Result<(), Fail> {
    let minus = if hundredths < 0 { "-" } else { "" };
    let size = hundredths.unsigned_abs();
    write!(out, "{word} {minus}{}.{:02}", size / 100, size % 100)?;
    Ok(())
}

// An index with two decimals: what is cut off counts as one hundredth more from a half on.
fn plain_index(out: &mut String, word: &str, index: Ticks) -> Result<(), Fail> {
    plain_decimals(
        out,
        word,
        i128::from(index.0 / 1000) + i128::from(index.0 % 1000 / 500),
    )
}

fn plain_balance(out: &mut String, s: &Sheet) -> Result<(), Fail> {
    plain_index(out, "DOI", s.dry.index)?;
    plain_index(out, " LIZFW", s.balance.zero_fuel)?;
    plain_index(out, " LITOW", s.balance.take_off)?;
    plain_index(out, " LILAW", s.balance.landing)?;
    plain_decimals(out, "\nMACZFW", s.mac[0])?;
    plain_decimals(out, " MACTOW", s.mac[1])?;
    plain_decimals(out, " MACLAW", s.mac[2])?;
    writeln!(out)?;
    Ok(())
}

fn plain_change(out: &mut String, change: &Lmc) -> Result<(), Fail> {
    match change {
        Lmc::Cabin {
            zone,
            adults,
            children,
            infants,
        } => writeln!(out, "LMC ZONE {zone} {adults}/{children}/{infants}")?,
        Lmc::Loose {
            position,
            mass,
            pieces,
        } => {
            let position = str::from_utf8(position.bytes())?;
            writeln!(out, "LMC BULK {position} {mass}/{pieces}")?;
        }
    }
    Ok(())
}

fn plain_sheet(alloc: Global, s: &Sheet) -> Result<String, Fail> {
    let mut out = String::new(alloc);
    plain_flight(&mut out, s)?;
    plain_masses(&mut out, s)?;
    plain_balance(&mut out, s)?;
    for change in s.lmcs.as_slice() {
        plain_change(&mut out, change)?;
    }
    writeln!(out, "END")?;
    Ok(out)
}

#[test]
fn random_sheets_agree_with_a_second_writer(rt: HostRuntime) -> Result<(), Fail> {
    let mut seed = 20_261_127;
    for i in 0..200 {
        let sheet = random_sheet(rt.alloc(), &mut seed)?;
        let text = String::from_utf8(write_sheet(rt.alloc(), &sheet)?)?;
        let plain = plain_sheet(rt.alloc(), &sheet)?;
        assert_eq!(rt; text.as_str(), plain.as_str(), "in sheet {i}");
    }
    Ok(())
}
