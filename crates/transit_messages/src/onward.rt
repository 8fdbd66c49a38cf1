//! The writer of the onward container message.

ghost use Rattle.std.specs.Prelude.{◌≡◌, ◌≢◌, ◌<◌, ◌≤◌, ◌++◌, true, None, length, map, option_map, find, bytes_eq, All, AllPairs, IfOk, IfSome, OnOk};
ghost use Rattle.std.specs.List.{enumerate_from};
ghost use Rattle.mass_units.specs.Spelling.{IsNumber};
ghost use Rattle.hold_parts.specs.Spellings.{IsName};
ghost use Rattle.hold_parts.specs.declared.parts.Item.{Item};
ghost use Rattle.hold_parts.specs.declared.parts.Loose.{Loose};
ghost use Rattle.hold_parts.specs.declared.parts.Position.{Position};
ghost use Rattle.hold_limits.specs.Faults.{IsLawful};
ghost use Rattle.hold_limits.specs.Placement.{Placed, placed, IsSound};
ghost use Rattle.flight_state.specs.Spellings.{is_station};
ghost use Rattle.telex.specs.Elements.{line_text};
ghost use Rattle.text_lines.specs.Lines.{text_of};
ghost use Rattle.ldm_cpm.specs.Messages.{heading_elements, place_lines, cpm_text, IsSpelledHeading, IsSpelledPlacing, IsCpm};
ghost use Rattle.ldm_cpm.specs.Reading.{heading_of, placing_said};
ghost use Rattle.ldm_cpm.specs.declared.messages.CpmPlace.{CpmPlace};
ghost use Rattle.transit_tasks.specs.NewTask.{task_around};
ghost use Rattle.transit_tasks.specs.TransitFaults.{transit_fault};
ghost use Rattle.transit_messages.specs.Onward.{stands_on, weighs_on, loose_placing, loaded_placing, onward_placings, onward_message, Carries, Keeps};
ghost use Rattle.transit_messages.specs.Entries.{entry_said, placed_aboard, placing_aboard, IsSpelledAboard};

use crate::entries::{Entry, entry_of, push_entry};
use base_words::NoMemory;
use hold_limits::{Item, Loose, Path, Position, Task};
use ldm_cpm::{CpmPlace, Head};
use mass_units::Kg;
use std::alloc::Global;
use telex::Builder;

/// What the flight goes on with: what stays aboard, and what is placed here for the next station.
#[derive(Clone, Copy)]
struct Aboard<'a> {
    task: &'a Task,
    path: &'a [u8],
    stay: &'a [CpmPlace<'a>],
    next: &'a [u8],
}

impl<'a> Aboard<'a> {
    /// What stays on the position of this name.
    fn staying_on(&self, name: &[u8]) -> Option<CpmPlace<'a>>
        ensures { result ≡ find (λ (p : CpmPlace). bytes_eq p.name.text.now name.now) self.now.stay.now }
    {
        self.stay
            .iter()
            .copied()
            .find(|place| place.name.text == name)
    }

    /// The container that is placed on the position.
    fn container_on(&self, number: u8) -> Option<&'a Item>
        requires { IsSpelledAboard self.now }
        ensures found { option_map (λ i. i.now) result
            ≡ option_map (λ (p : Placed). p.0) (find (stands_on number) (placed_aboard self.now)) }
        ensures light { IfSome result (λ i. IsNumber i.now.mass.0) }
    {
        for rank in 0..self.path.len() {
            if self.path[rank] == number {
                return Some(self.task.at_rank(rank));
            }
        }
        None
    }

    /// The loose load of the task on the position, where that weighs anything.
    fn load_on(&self, number: u8) -> Option<Loose>
        ensures found { result ≡ find (weighs_on number) self.now.task.now.loose }
        ensures lawful { IsLawful self.now.task.now }
    {
        self.task
            .loose()
            .iter()
            .copied()
            .find(|load| load.position == number && load.mass.0 > 0)
    }

    /// What the message says of the position, where nothing stays on it and no container is placed there.
    fn loose_on(&self, number: u8, position: &'a Position) -> Entry<'a>
        requires right { IsSpelledAboard self.now }
        requires named { IsName position.now.name }
        ensures said { entry_said result
            ≡ loose_placing self.now.next.now self.now.task.now.loose number position.now }
        ensures spelled { IsSpelledPlacing (entry_said result) }
    {
        let name = position.name.bytes();
        match self.load_on(number) {
            Some(load) => Entry {
                name,
                id: None,
                destination: Some(self.next),
                mass: load.mass,
            },
            None => Entry {
                name,
                id: None,
                destination: None,
                mass: Kg(0),
            },
        }
    }

    /// What the message says of the position, where nothing stays on it.
    fn loaded_on(&self, number: u8, position: &'a Position) -> Entry<'a>
        requires right { IsSpelledAboard self.now }
        requires named { IsName position.now.name }
        ensures said { entry_said result
            ≡ loaded_placing self.now.next.now (placed_aboard self.now) self.now.task.now.loose number position.now }
        ensures spelled { IsSpelledPlacing (entry_said result) }
    {
        match self.container_on(number) {
            Some(item) => Entry {
                name: position.name.bytes(),
                id: Some(item.id.bytes()),
                destination: Some(self.next),
                mass: item.mass,
            },
            None => self.loose_on(number, position),
        }
    }

    /// What the message says of the position.
    fn entry_on(&self, number: u8, position: &'a Position) -> Entry<'a>
        requires right { IsSpelledAboard self.now }
        requires named { IsName position.now.name }
        ensures said { entry_said result ≡ placing_aboard self.now (number, position.now) }
        ensures spelled { IsSpelledPlacing (entry_said result) }
    {
        match self.staying_on(position.name.bytes()) {
            Some(place) => entry_of(&place),
            None => self.loaded_on(number, position),
        }
    }

    /// Appends the lines of the positions.
    fn push_entries(&self, out: &mut Builder, positions: &'a [Position]) -> Result<(), NoMemory>
        requires right { IsSpelledAboard self.now }
        requires few { length positions.now ≤ 64 }
        requires named { All (λ (q : Position). IsName q.name) positions.now }
        ensures written { OnOk result (out.new
            ≡ out.old ++ text_of (place_lines (map (placing_aboard self.now) (enumerate_from 0 positions.now)))) }
        ensures spelled { OnOk result (All IsSpelledPlacing (map (placing_aboard self.now) (enumerate_from 0 positions.now))) }
    {
        for (number, position) in positions.iter().enumerate() {
            push_entry(out, &self.entry_on(number as u8, position))?;
        }
        Ok(())
    }
}

/// Appends which flight a message is about.
fn push_heading(out: &mut Builder, head: &Head<'_>) -> Result<(), NoMemory>
    ensures { OnOk result (out.new ≡ out.old ++ line_text (heading_elements (heading_of head.now))) }
{
    out.text(head.flight.text)?;
    out.text(b"/")?;
    out.text(head.day.text)?;
    out.text(b".")?;
    out.text(head.registration.text)?;
    out.text(b".")?;
    out.text(head.version.text)
}

/// Writes the container message with which the flight goes on: a line for each position of the hold, with what stays as
/// the inbound message has it, and with what is loaded here for the next station.
pub fn write_onward(
    alloc: Global,
    head: &Head<'_>,
    task: &Task,
    stay: &[CpmPlace<'_>],
    path: &Path,
    next: &[u8],
) -> Result<Vec<u8>, NoMemory>
    requires heading { IsSpelledHeading (heading_of head.now) }
    requires stay { All IsSpelledPlacing (map placing_said stay.now) }
    requires right { transit_fault task.now (map placing_said stay.now) ≡ None }
    requires sound { IsSound (task_around task.now (map placing_said stay.now)) path.now.items }
    requires next { is_station next.now ≡ true }
    ensures written { IfOk result (λ text. text.items
        ≡ cpm_text (onward_message (heading_of head.now) next.now (map placing_said stay.now) task.now path.now.items)) }
    ensures read_back { IfOk result (λ text. IsCpm text.items
        (onward_message (heading_of head.now) next.now (map placing_said stay.now) task.now path.now.items)) }
    ensures carried { IfOk result (λ _. Carries next.now task.now path.now.items
        (onward_placings next.now (map placing_said stay.now) task.now path.now.items)) }
    ensures kept { IfOk result (λ _. Keeps (map placing_said stay.now)
        (onward_placings next.now (map placing_said stay.now) task.now path.now.items)) }
{
    let mut out = Builder::new(alloc);
    out.text(b"CPM\n")?;
    push_heading(&mut out, head)?;
    out.end_line()?;
    let aboard = Aboard {
        task,
        path: path.as_slice(),
        stay,
        next,
    };
    aboard.push_entries(&mut out, task.hold().named_positions())?;
    Ok(out.finish())
}
