ghost use Rattle.std.specs.Prelude.{◌≡◌, ◌↔◌, ◌<◌, IfOk, IfErr, Some, length, slice_get, IsTrue};
ghost use Rattle.hold_limits.specs.BranchOrder.{order_of, ordered};
ghost use Rattle.hold_limits.specs.Problem.{indices_of, problem_of};
ghost use Rattle.hold_limits.specs.Faults.{IsLawful, task_fault};
ghost use Rattle.hold_limits.specs.Twins.{first_twin};

use crate::fault::TaskFault;
use crate::hold::Hold;
use crate::order::{branch_order, item_at};
use crate::task_faults::fault_of_task;
use arrayvec::ArrayVec;
use base_words::NoMemory;
use hold_parts::{Indices, Item, Loose, Same, are_same};
use mass_units::{Band, Ticks};
use std::alloc::Global;
use std::marker::Model;

/// Position numbers for the first containers of branch order, one for each.
pub type Path = ArrayVec<u8, 60>;

/// A lawful loading task: a hold, an offer of containers, loose loads, and the indices to meet.
#[derive(Debug, Drop)]
pub struct Task {
    hold: Hold,
    items: Vec<Item>,
    loose: Vec<Loose>,
    indices: Indices,
    order: ArrayVec<u8, 60>,
}

impl Model for Task {
    ghost use Rattle.std.specs.Prelude.{◌≡◌};
    ghost use Rattle.hold_limits.specs.Problem.{Problem};

    ghost Value = { Problem };

    ghost use Rattle.hold_limits.specs.BranchOrder.{order_of};
    ghost use Rattle.hold_limits.specs.Problem.{problem_of};
    ghost use Rattle.hold_limits.specs.Faults.{IsLawful};

    ghost view = { λ t. problem_of t.hold t.items.items t.loose.items t.indices };

    ghost invariant = { λ t. IsLawful (problem_of t.hold t.items.items t.loose.items t.indices) × (t.order.items ≡ order_of t.items.items) };
}

impl Task {
    /// The task with these parts. Where `low` is over `high`, nothing is admissible.
    pub fn new(
        hold: Hold,
        items: Vec<Item>,
        loose: Vec<Loose>,
        base: Ticks,
        low: Ticks,
        high: Ticks,
        ideal_low: Ticks,
        ideal_high: Ticks,
    ) -> Result<Task, TaskFault>
        ensures made { IfOk result (λ task. task ≡ problem_of hold items.items loose.items
            (indices_of base low high ideal_low ideal_high)) }
        ensures lawful { IfOk result (λ task. IsLawful task) }
        ensures refused { IfErr result (λ fault. task_fault (problem_of hold items.items loose.items
            (indices_of base low high ideal_low ideal_high)) ≡ Some fault) }
    {
        let indices = Indices {
            base,
            window: Band { low, high },
            ideal: Band {
                low: ideal_low,
                high: ideal_high,
            },
        };
        if let Some(fault) = fault_of_task(&hold, &items, &loose, indices) {
            return Err(fault);
        }
        let order = branch_order(&items);
        Ok(Task {
            hold,
            items,
            loose,
            indices,
            order,
        })
    }

    /// A task with the same parts.
    pub fn copy(&self, alloc: Global) -> Result<Task, NoMemory>
        ensures { IfOk result (λ copy. copy ≡ self.now) }
    {
        let items = self.items.as_slice().to_vec(alloc)?;
        let order = branch_order(&items);
        Ok(Task {
            hold: self.hold.clone()?,
            items,
            loose: self.loose.as_slice().to_vec(alloc)?,
            indices: self.indices,
            order,
        })
    }

    /// Whether all parts of the tasks are the same.
    pub fn same(&self, other: &Task) -> bool
        ensures { IsTrue result ↔ (self.now ≡ other.now) }
    {
        self.hold.same(&other.hold)
            && are_same(self.items.as_slice(), other.items.as_slice())
            && are_same(self.loose.as_slice(), other.loose.as_slice())
            && self.indices.is_same(&other.indices)
    }

    /// The hold.
    pub fn hold(&self) -> &Hold
        ensures value { result.now ≡ self.now.hold }
        ensures lawful { IsLawful self.now }
    {
        &self.hold
    }

    /// The containers, in the order of the offer.
    pub fn items(&self) -> &[Item]
        ensures value { result.now ≡ self.now.items }
        ensures lawful { IsLawful self.now }
    {
        self.items.as_slice()
    }

    /// The loose loads.
    pub fn loose(&self) -> &[Loose]
        ensures value { result.now ≡ self.now.loose }
        ensures lawful { IsLawful self.now }
    {
        self.loose.as_slice()
    }

    /// The places of the offer in branch order: heaviest first, equal masses in the order of the offer.
    pub fn order(&self) -> &[u8]
        ensures value { result.now ≡ order_of self.now.items }
        ensures lawful { IsLawful self.now }
    {
        self.order.as_slice()
    }

    /// The container at this rank of branch order, counted from 0.
    pub fn at_rank(&self, rank: usize) -> &Item
        requires { rank < length self.now.items }
        ensures value { slice_get (ordered self.now.items) rank ≡ Some result.now }
        ensures lawful { IsLawful self.now }
    {
        item_at(self.items.as_slice(), self.order.as_slice(), rank)
    }

    /// The rank in branch order of the first twin of a container, which may be itself. The number of containers where none is.
    pub fn first_twin(&self, item: &Item) -> u8
        ensures { result ≡ first_twin self.now item.now }
    {
        let count = self.items().len();
        for rank in 0..count {
            if self.at_rank(rank).is_twin_of(item) {
                return rank as u8;
            }
        }
        count as u8
    }

    /// The take-off index without the hold index, in ticks.
    pub fn base(&self) -> Ticks
        ensures value { result.0 ≡ self.now.base }
    {
        self.indices.base
    }

    /// The least hold index of the window, in ticks.
    pub fn low(&self) -> Ticks
        ensures value { result.0 ≡ self.now.low }
    {
        self.indices.window.low
    }

    /// The greatest hold index of the window, in ticks.
    pub fn high(&self) -> Ticks
        ensures value { result.0 ≡ self.now.high }
    {
        self.indices.window.high
    }

    /// The least take-off index of the ideal band, in ticks.
    pub fn ideal_low(&self) -> Ticks
        ensures value { result.0 ≡ self.now.ideal_low }
    {
        self.indices.ideal.low
    }

    /// The greatest take-off index of the ideal band, in ticks.
    pub fn ideal_high(&self) -> Ticks
        ensures value { result.0 ≡ self.now.ideal_high }
    {
        self.indices.ideal.high
    }
}
