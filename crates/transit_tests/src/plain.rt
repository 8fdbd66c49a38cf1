// What may be aboard together, by a plain program over lists.
use hold_limits::{Combined, Cumulative, Hold, Item, Loose, Task, UldId};
use ldm_cpm::CpmPlace;
use mass_units::Kg;
use std::alloc::Global;
use std::test::Fail;

/// The containers aboard with the numbers of their positions, and the mass of each and of each loose load on its
/// position.
#[derive(Drop)]
pub struct Aboard {
    containers: Vec<(Item, u8)>,
    masses: Vec<Loose>,
}

fn number_named(hold: &Hold, name: &[u8]) -> Option<u8> {
    let mut number = 0;
    for position in hold.positions() {
        if position.name.bytes() == name {
            return Some(number);
        }
        number = number.saturating_add(1);
    }
    None
}

fn moment(mass: Kg, arm: i32) -> i64 {
    i64::from(mass.0).saturating_mul(i64::from(arm))
}

impl Aboard {
    /// What is aboard where the path is placed beside what stays. It has a position for each container.
    pub fn new(
        alloc: Global,
        task: &Task,
        stay: &[CpmPlace<'_>],
        path: &[u8],
    ) -> Result<Aboard, Fail> {
        if path.len() != task.items().len() {
            return Err(Fail::new("the path is of another length"));
        }
        let mut aboard = Aboard {
            containers: Vec::new(alloc),
            masses: task.loose().to_vec(alloc)?,
        };
        for rank in 0..path.len() {
            aboard.push_container(*task.at_rank(rank), path[rank])?;
        }
        for place in stay {
            aboard.push_place(task.hold(), place)?;
        }
        Ok(aboard)
    }

    fn push_container(&mut self, item: Item, number: u8) -> Result<(), Fail> {
        let load = Loose {
            position: number,
            mass: item.mass,
        };
        self.containers.push((item, number))?;
        self.masses.push(load)?;
        Ok(())
    }

    fn push_place(&mut self, hold: &Hold, place: &CpmPlace<'_>) -> Result<(), Fail> {
        let number = number_named(hold, place.name.text).ok_or("a place is no position")?;
        match place.id {
            Some(id) => {
                let id = UldId::read(id.text).ok_or("an identity is not spelled")?;
                let mass = place.mass;
                self.push_container(Item { id, mass }, number)
            }
            None => {
                self.masses.push(Loose {
                    position: number,
                    mass: place.mass,
                })?;
                Ok(())
            }
        }
    }

    /// The hold index in ticks.
    pub fn index(&self, hold: &Hold) -> i64 {
        let mut index: i64 = 0;
        for load in &self.masses {
            let moment = moment(load.mass, hold.influence_at(load.position));
            index = index.saturating_add(moment);
        }
        index
    }

    /// The masses on the right, less those on the left.
    fn difference(&self, hold: &Hold) -> i64 {
        let mut difference: i64 = 0;
        for load in &self.masses {
            let moment = moment(load.mass, hold.side_at(load.position));
            difference = difference.saturating_add(moment);
        }
        difference
    }

    /// Whether each container stands on a position that accepts it, and no two clash.
    fn stands(&self, hold: &Hold) -> bool {
        let containers = self.containers.as_slice();
        for at in 0..containers.len() {
            let (item, number) = &containers[at];
            if !hold.accepts_at(item, *number) || clashes(hold, &containers[..at], *number) {
                return false;
            }
        }
        true
    }

    fn keeps_combined(&self, limit: &Combined) -> bool {
        let mut sum: u32 = 0;
        for load in &self.masses {
            if limit.places.as_slice().contains(&load.position) {
                sum = sum.saturating_add(load.mass.0);
            }
        }
        sum <= limit.most.0
    }

    fn keeps_cumulative(&self, limit: &Cumulative) -> bool {
        let mut sum: u32 = 0;
        for load in &self.masses {
            if load.position == limit.place || (load.position < limit.place) == limit.forward {
                sum = sum.saturating_add(load.mass.0);
            }
        }
        sum <= limit.most.0
    }

    fn keeps_limits(&self, hold: &Hold) -> bool {
        hold.combined()
            .iter()
            .all(|limit| self.keeps_combined(limit))
            && hold
                .cumulative()
                .iter()
                .all(|limit| self.keeps_cumulative(limit))
    }

    /// Whether all of it may be aboard together.
    pub fn is_admissible(&self, task: &Task) -> bool {
        let hold = task.hold();
        let index = self.index(hold);
        self.stands(hold)
            && self.keeps_limits(hold)
            && task.low().0 <= index
            && index <= task.high().0
            && hold.is_within_lateral(self.difference(hold))
    }
}

/// Whether a container is on the position with this number, or on one that excludes it.
fn clashes(hold: &Hold, containers: &[(Item, u8)], number: u8) -> bool {
    for (_, other) in containers {
        if *other == number || hold.exclude_each_other(*other, number) {
            return true;
        }
    }
    false
}
