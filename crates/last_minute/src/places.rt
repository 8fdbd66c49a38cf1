//! What stands on each position of a hold.

ghost use Rattle.std.specs.Prelude.{◌≡◌, ◌≤◌, ◌==◌, length, map, find, option_map, All, IfOk};
ghost use Rattle.std.specs.List.{enumerate_from};
ghost use Rattle.hold_limits.specs.Placement.{Placed, placed_load, loose_load};
ghost use Rattle.hold_parts.specs.declared.parts.Loose.{Loose};
ghost use Rattle.trim.specs.Limits.{KeepsLimits};
ghost use Rattle.trim.specs.Loads.{loose_loads, offer};
ghost use Rattle.last_minute.specs.Sheets.{IsStowage, stowed, place_on, places_of};

use crate::sheet::{Place, PlaceList};
use aircraft_file::Aircraft;
use base_words::NoMemory;
use hold_limits::{Item, Loose, Path, Position, UldId, branch_order, item_at};
use mass_units::Kg;
use std::alloc::Global;
use trim::Figures;

/// The containers of a flight in branch order, with a position for each, and its loose loads.
#[derive(Clone, Copy)]
struct Stowage<'a> {
    items: &'a [Item],
    order: &'a [u8],
    path: &'a [u8],
    loose: &'a [Loose],
}

/// Each position of the hold, with what stands on it.
pub fn places_of(
    alloc: Global,
    a: &Aircraft,
    f: &Figures,
    path: &Path,
    loose: &[Loose],
) -> Result<PlaceList, NoMemory>
    requires limits { KeepsLimits f.now }
    requires complete { length path.now.items ≡ length f.now.containers }
    requires loose { loose.now ≡ loose_loads a.now f.now }
    requires light { All (λ (load : Loose). load.mass.0 ≤ 1300000) loose.now }
    ensures { IfOk result (λ places. places ≡ places_of (offer a.now f.now) path.now.items) }
{
    let path = path.as_slice();
    let items = f.containers.as_slice();
    let order = branch_order(items);
    let stowage = Stowage {
        items,
        order: order.as_slice(),
        path,
        loose,
    };
    stowage.places(alloc, a.hold().positions())
}

impl Stowage<'_> {
    /// Each of the positions, with what stands on it.
    fn places(&self, alloc: Global, positions: &[Position]) -> Result<PlaceList, NoMemory>
        requires stowage { IsStowage self.now }
        requires few { length positions.now ≤ 64 }
        ensures { IfOk result (λ places.
            places ≡ map (place_on (stowed self.now) self.now.loose.now) (enumerate_from 0 positions.now)) }
    {
        let mut places = Vec::new(alloc);
        for (number, position) in positions.iter().enumerate() {
            let id = self.container_on(number as u8);
            places.push(self.place(number as u8, position, id))?;
        }
        Ok(PlaceList::from(places))
    }

    /// The position with what stands on it.
    fn place(&self, number: u8, position: &Position, id: Option<UldId>) -> Place
        requires stowage { IsStowage self.now }
        requires id { id ≡ option_map (λ (p : Placed). p.0.id) (find (λ (p : Placed). p.1 == number) (stowed self.now)) }
        ensures { result ≡ place_on (stowed self.now) self.now.loose.now (number, position.now) }
    {
        Place {
            name: position.name,
            compartment: position.compartment,
            bulk: position.bulk,
            id,
            mass: Kg(self.mass_of_containers_on(number) + self.mass_of_loose_on(number)),
        }
    }

    /// The first container on the position, in branch order.
    fn container_on(&self, number: u8) -> Option<UldId>
        requires { IsStowage self.now }
        ensures { result ≡ option_map (λ (p : Placed). p.0.id) (find (λ (p : Placed). p.1 == number) (stowed self.now)) }
    {
        for rank in 0..self.path.len() {
            if self.path[rank] == number {
                return Some(item_at(self.items, self.order, rank).id);
            }
        }
        None
    }

    fn mass_of_containers_on(&self, number: u8) -> u32
        requires { IsStowage self.now }
        ensures mass { result ≡ placed_load (λ other. other == number) (stowed self.now) }
        ensures bounded { result ≤ 60000000 }
    {
        let mut mass = 0;
        for rank in 0..self.path.len() {
            if self.path[rank] == number {
                mass += item_at(self.items, self.order, rank).mass.0;
            }
        }
        mass
    }

    fn mass_of_loose_on(&self, number: u8) -> u32
        requires { IsStowage self.now }
        ensures mass { result ≡ loose_load (λ other. other == number) self.now.loose.now }
        ensures bounded { result ≤ 83200000 }
    {
        let mut mass = 0;
        for load in self.loose {
            if load.position == number {
                mass += load.mass.0;
            }
        }
        mass
    }
}
