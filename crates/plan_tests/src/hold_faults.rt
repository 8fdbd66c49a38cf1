// Faults of limits that no text of a task can have, since a text names positions that are there.
ghost use Rattle.std.specs.Prelude.{◌≡◌, ◌≤◌, All, IfOk};
ghost use Rattle.hold_parts.specs.declared.lists.Fit.{Fit};
ghost use Rattle.hold_parts.specs.declared.parts.Combined.{Combined};
ghost use Rattle.hold_parts.specs.declared.parts.Cumulative.{Cumulative};
ghost use Rattle.hold_parts.specs.Spellings.{IsKind};

use hold_limits::{Combined, Cumulative, Hold, HoldFault, Name, Places, Position, TaskFault};
use mass_units::Kg;
use std::alloc::Global;
use std::test::Fail;

// A bulk position.
fn bulk(alloc: Global) -> Result<Position, Fail>
    ensures digit { IfOk result (λ position. position.compartment ≤ 9) }
    ensures kinds { IfOk result (λ position. All (λ (fit : Fit). IsKind fit.kind) position.fits) }
{
    Ok(Position {
        name: Name::read(b"51").ok_or("a name")?,
        compartment: 5,
        influence: 700,
        bulk: true,
        fits: Vec::new(alloc).into(),
    })
}

// The fault of a hold of one bulk position with these limits.
fn fault(
    alloc: Global,
    excludes: Vec<(u8, u8)>,
    combined: Vec<Combined>,
    cumulative: Vec<Cumulative>,
) -> Result<String, Fail>
    requires combined { All (λ (limit : Combined). limit.most.0 ≤ 999999999) combined.items }
    requires cumulative { All (λ (limit : Cumulative). limit.most.0 ≤ 999999999) cumulative.items }
{
    let positions = vec![in alloc; bulk(alloc)?]?;
    let fault = Hold::new(positions, excludes, combined, cumulative).err();
    Ok(format!(in alloc; "{fault:?}")?)
}

// The fault of a hold with a limit on two positions, of which there is one.
fn exclude_fault(alloc: Global) -> Result<String, Fail> {
    let unknown = vec![in alloc; (0, 1)]?;
    fault(alloc, unknown, Vec::new(alloc), Vec::new(alloc))
}

// The fault of a hold with a cumulative limit up to its position, and one from the next, which is not there.
fn cumulative_fault(alloc: Global) -> Result<String, Fail> {
    let limits = vec![in alloc;
        Cumulative {
            forward: true,
            place: 0,
            most: Kg(900)
        },
        Cumulative {
            forward: false,
            place: 1,
            most: Kg(900)
        },
    ]?;
    fault(alloc, Vec::new(alloc), Vec::new(alloc), limits)
}

#[test]
fn limits_on_unknown_positions_are_named(rt: HostRuntime) -> Result<(), Fail> {
    let alloc = rt.alloc();
    let none = fault(alloc, Vec::new(alloc), Vec::new(alloc), Vec::new(alloc))?;
    assert_eq!(rt; none.as_str(), "None");
    assert_eq!(rt; exclude_fault(alloc)?.as_str(), "Some(Exclude(0))");
    assert_eq!(rt; cumulative_fault(alloc)?.as_str(), "Some(Cumulative(1))");
    Ok(())
}

#[test]
fn a_combined_limit_names_known_positions(rt: HostRuntime) -> Result<(), Fail> {
    let alloc = rt.alloc();
    for places in [b"\x01".as_slice(), b""] {
        let limits = vec![in alloc;
            Combined {
                places: Places::from(places.to_vec(alloc)?),
                most: Kg(900)
            },
        ]?;
        let combined = fault(alloc, Vec::new(alloc), limits, Vec::new(alloc))?;
        assert_eq!(rt; combined.as_str(), "Some(Combined(0))");
    }
    Ok(())
}

#[test]
fn faults_are_printed_in_plain_words(rt: HostRuntime) -> Result<(), Fail> {
    let fault = HoldFault::SameName(3).to_string(rt.alloc())?;
    assert_eq!(rt; fault.as_str(), "position 3 has the name of an earlier one");
    let fault = TaskFault::TooManyItems.to_string(rt.alloc())?;
    assert_eq!(rt; fault.as_str(), "over 60 containers");
    Ok(())
}
