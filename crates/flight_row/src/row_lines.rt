//! Lines of a row, appended to a text.

ghost use Rattle.std.specs.Prelude.{◌≡◌, ◌≤◌, ℕ, [], ◌∷◌, ◌++◌, true, length, All, OnOk, IfSome};
ghost use Rattle.arrayvec.specs.ArrayVec.{ArrayVec};
ghost use Rattle.aircraft_file.specs.Spellings.{is_registration};
ghost use Rattle.flight_state.specs.Legs.{IsSpelledLeg};
ghost use Rattle.mass_units.specs.Spelling.{number_text, signed_text, index_text};
ghost use Rattle.hold_parts.specs.Spellings.{IsName, IsUldId};
ghost use Rattle.hold_parts.specs.declared.parts.Item.{Item};
ghost use Rattle.text_lines.specs.Lines.{text_of};
ghost use Rattle.trim.specs.declared.figures.LooseFigure.{LooseFigure};
ghost use Rattle.flight_row.specs.Loading.{plan_names};
ghost use Rattle.flight_row.specs.RowText.{version_line, leg_line, edition_line, stage_word, stage_line, releases_line, dry_line, fuel_line, limits_line, plan_lines, figure_lines};
ghost use Rattle.flight_row.specs.declared.row.Version.TheVariants.{Two};

use base_words::NoMemory;
use flight_state::{FlightState, Leg, Lmc, Stage};
use hold_limits::{Hold, Item};
use mass_units::{Kg, Ticks};
use payload::ZoneCount;
use telex::Builder;
use text_lines::{EntryWriter, NamesOf, write_lines, write_run};
use trim::{Dry, Figures, Fuel, LooseFigure, Regulated};

/// Appends a number after a space.
fn push_number(text: &mut Builder, number: u32) -> Result<(), NoMemory>
    ensures { OnOk result (text.new ≡ text.old ++ 32 ∷ number_text number) }
{
    text.text(b" ")?;
    text.count(u64::from(number))
}

/// Appends a signed number after a space.
fn push_signed(text: &mut Builder, number: i32) -> Result<(), NoMemory>
    ensures { OnOk result (text.new ≡ text.old ++ 32 ∷ signed_text number) }
{
    text.text(b" ")?;
    text.number(i64::from(number))
}

/// Appends a mass after a space.
fn push_mass(text: &mut Builder, mass: Kg) -> Result<(), NoMemory>
    ensures { OnOk result (text.new ≡ text.old ++ 32 ∷ number_text mass.0) }
{
    push_number(text, mass.0)
}

/// The word for a stage.
fn stage_word(stage: Stage) -> &'static [u8]
    ensures { result.now ≡ stage_word stage }
{
    match stage {
        Stage::Working => b"working",
        Stage::Planned => b"planned",
        Stage::Released => b"released",
        Stage::Departed => b"departed",
    }
}

fn push_leg(text: &mut Builder, leg: &Leg) -> Result<(), NoMemory>
    ensures line { OnOk result (text.new ≡ text.old ++ (leg_line leg.now ++ 10 ∷ [])) }
    ensures spelled { OnOk result (is_registration leg.now.registration ≡ true → IsSpelledLeg leg.now) }
{
    text.text(b"leg")?;
    text.word(leg.flight.bytes())?;
    text.word(leg.day.bytes())?;
    text.word(leg.registration.bytes())?;
    text.word(leg.origin.bytes())?;
    text.word(leg.destination.bytes())?;
    text.end_line()
}

/// Appends a line of a keyword and a number.
fn push_numbered(text: &mut Builder, keyword: &[u8], number: u32) -> Result<(), NoMemory>
    ensures { OnOk result (text.new ≡ text.old ++ (keyword.now ++ 32 ∷ (number_text number ++ 10 ∷ []))) }
{
    text.text(keyword)?;
    push_number(text, number)?;
    text.end_line()
}

fn push_stage(text: &mut Builder, stage: Stage) -> Result<(), NoMemory>
    ensures { OnOk result (text.new ≡ text.old ++ (stage_line stage ++ 10 ∷ [])) }
{
    text.text(b"stage")?;
    text.word(stage_word(stage))?;
    text.end_line()
}

/// Appends the lines before those of the figures.
pub fn push_head(text: &mut Builder, s: &FlightState) -> Result<(), NoMemory>
    ensures lines { OnOk result (text.new ≡ text.old ++ text_of (version_line Two ∷ leg_line s.now.leg
        ∷ edition_line s.now.edition ∷ stage_line s.now.stage ∷ releases_line s.now.releases ∷ [])) }
    ensures spelled { OnOk result (is_registration s.now.leg.registration ≡ true → IsSpelledLeg s.now.leg) }
{
    text.text(b"FLIGHT 2")?;
    text.end_line()?;
    push_leg(text, &s.leg)?;
    push_numbered(text, b"edition", s.edition)?;
    push_stage(text, s.stage)?;
    push_numbered(text, b"releases", s.releases)
}

fn push_dry(text: &mut Builder, dry: &Dry) -> Result<(), NoMemory>
    ensures { OnOk result (text.new ≡ text.old ++ (dry_line dry.now ++ 10 ∷ [])) }
{
    text.text(b"dry")?;
    push_mass(text, dry.mass)?;
    push_index(text, dry.index)?;
    push_number(text, u32::from(dry.cockpit))?;
    push_number(text, u32::from(dry.attendants))?;
    text.end_line()
}

/// Appends an index after a space.
fn push_index(text: &mut Builder, index: Ticks) -> Result<(), NoMemory>
    ensures { OnOk result (text.new ≡ text.old ++ 32 ∷ index_text index.0) }
{
    text.text(b" ")?;
    text.index(index)
}

fn push_fuel(text: &mut Builder, fuel: &Fuel) -> Result<(), NoMemory>
    ensures { OnOk result (text.new ≡ text.old ++ (fuel_line fuel.now ++ 10 ∷ [])) }
{
    text.text(b"fuel")?;
    push_mass(text, fuel.taxi)?;
    push_mass(text, fuel.take_off)?;
    push_mass(text, fuel.trip)?;
    text.end_line()
}

fn push_limits(text: &mut Builder, limits: &Regulated) -> Result<(), NoMemory>
    ensures { OnOk result (text.new ≡ text.old ++ (limits_line limits.now ++ 10 ∷ [])) }
{
    text.text(b"limits")?;
    push_mass(text, limits.take_off)?;
    push_mass(text, limits.landing)?;
    text.end_line()
}

/// Counts of the passengers of zones.
#[derive(Clone, Copy)]
struct Zones;

/// Containers.
#[derive(Clone, Copy)]
struct Containers;

/// Loose loads.
#[derive(Clone, Copy)]
struct Loads;

/// Late changes.
#[derive(Clone, Copy)]
pub struct Changes;

impl EntryWriter for Zones {
    ghost use Rattle.flight_row.specs.RowText.{zone_line};

    type Entry = ZoneCount;

    ghost text = { λ _. zone_line };

    ghost spelled = { λ _ _. Unit {0} };

    fn write(&self, count: &ZoneCount, text: &mut Builder) -> Result<(), NoMemory> {
        text.text(b"zone")?;
        push_number(text, u32::from(count.adults))?;
        push_number(text, u32::from(count.children))?;
        push_number(text, u32::from(count.infants))
    }
}

impl EntryWriter for Containers {
    ghost use Rattle.hold_parts.specs.Spellings.{IsUldId};
    ghost use Rattle.flight_row.specs.RowText.{container_line};

    type Entry = Item;

    ghost text = { λ _. container_line };

    ghost spelled = { λ _ item. IsUldId item.id };

    fn write(&self, item: &Item, text: &mut Builder) -> Result<(), NoMemory> {
        text.text(b"container")?;
        text.word(item.id.bytes())?;
        push_mass(text, item.mass)
    }
}

impl EntryWriter for Loads {
    ghost use Rattle.hold_parts.specs.Spellings.{IsName};
    ghost use Rattle.flight_row.specs.RowText.{loose_line};

    type Entry = LooseFigure;

    ghost text = { λ _. loose_line };

    ghost spelled = { λ _ load. IsName load.position };

    fn write(&self, load: &LooseFigure, text: &mut Builder) -> Result<(), NoMemory> {
        text.text(b"loose")?;
        text.word(load.position.bytes())?;
        push_mass(text, load.mass)?;
        push_number(text, u32::from(load.pieces))
    }
}

/// Appends the lines of the figures before the late changes.
pub fn push_base(text: &mut Builder, base: &Figures) -> Result<(), NoMemory>
    ensures lines { OnOk result (text.new ≡ text.old ++ text_of (figure_lines base.now)) }
    ensures identified { OnOk result (All (λ (item : Item). IsUldId item.id) base.now.containers) }
    ensures named { OnOk result (All (λ (load : LooseFigure). IsName load.position) base.now.loose) }
{
    push_dry(text, &base.dry)?;
    push_fuel(text, &base.fuel)?;
    push_limits(text, &base.regulated)?;
    write_lines(&Zones, base.cabin.as_slice(), text)?;
    write_lines(&Containers, base.containers.as_slice(), text)?;
    write_lines(&Loads, base.loose.as_slice(), text)?;
    Ok(())
}

/// Appends the line of the plan, where the flight has one.
pub fn push_plan(text: &mut Builder, hold: &Hold, s: &FlightState) -> Result<(), NoMemory>
    ensures lines { OnOk result (text.new ≡ text.old ++ text_of (plan_lines (plan_names hold.now.positions s.now))) }
    ensures few { OnOk result (IfSome s.now.plan (λ (plan : ArrayVec ℕ). length plan.items ≤ 60)) }
{
    let Some(path) = &s.plan else {
        return Ok(());
    };
    text.text(b"plan")?;
    write_run(&NamesOf(hold), path.as_slice(), text)?;
    text.end_line()
}

/// Appends a zone and by how many passengers of each kind it differs, each number after a space.
fn push_zone_change(
    text: &mut Builder,
    zone: u8,
    adults: i16,
    children: i16,
    infants: i16,
) -> Result<(), NoMemory>
    ensures { OnOk result (text.new ≡ text.old ++ 32 ∷ (number_text zone ++ 32 ∷ (signed_text adults
        ++ 32 ∷ (signed_text children ++ 32 ∷ signed_text infants)))) }
{
    push_number(text, u32::from(zone))?;
    push_signed(text, i32::from(adults))?;
    push_signed(text, i32::from(children))?;
    push_signed(text, i32::from(infants))
}

impl EntryWriter for Changes {
    ghost use Rattle.flight_row.specs.RowText.{change_line};
    ghost use Rattle.flight_row.specs.Spelled.{IsNamedChange};

    type Entry = Lmc;

    ghost text = { λ _. change_line };

    ghost spelled = { λ _. IsNamedChange };

    fn write(&self, change: &Lmc, text: &mut Builder) -> Result<(), NoMemory> {
        match change {
            Lmc::Cabin {
                zone,
                adults,
                children,
                infants,
            } => {
                text.text(b"lmc zone")?;
                push_zone_change(text, *zone, *adults, *children, *infants)
            }
            Lmc::Loose {
                position,
                mass,
                pieces,
            } => {
                text.text(b"lmc bulk")?;
                text.word(position.bytes())?;
                push_signed(text, *mass)?;
                push_signed(text, i32::from(*pieces))
            }
        }
    }
}
