//! Fuel tables. A fuel table gives the change of index that a mass of fuel makes, by rows with straight
//! lines between neighbouring ones.
#![tactic(auto)]

ghost use Rattle.std.specs.Prelude.{◌≡◌, ℤ, IfSome, IfNone, IfOk, IfErr, IsNone, ◌↔◌};

mod row;

use mass_units::{Kg, Ticks, first_fall};
pub use row::FuelRow;
use std::marker::Model;
use thiserror::Error;

/// Why a list of rows does not make a fuel table.
#[derive(Clone, Copy, Debug, PartialEq, Eq, Error)]
pub enum FuelFault {
    /// There is no row.
    #[error("there is no row")]
    Empty,
    /// The row at this place, counted from 0, has no more fuel than the one before it.
    #[error("row {0} has no more fuel than the one before it")]
    NotRising(usize),
    /// There are more than 256 rows.
    #[error("there are more than 256 rows")]
    TooMany,
}

/// What a mass of fuel in the tanks adds to an aircraft's index.
#[derive(Drop)]
pub struct FuelTable {
    rows: Vec<FuelRow>,
}

impl Model for FuelTable {
    ghost use Rattle.std.specs.Prelude.{List};
    ghost use Rattle.fuel_table.specs.declared.row.FuelRow.{FuelRow};
    ghost use Rattle.fuel_table.specs.Rows.{IsTable};

    ghost Value = { List FuelRow };

    ghost view = { λ t. t.rows.items };

    ghost invariant = { λ t. IsTable t.rows.items };
}

impl FuelTable {
    ghost use Rattle.fuel_table.specs.Rows.{IsTable, IsFuelIndex, IsOutside};
    ghost use Rattle.fuel_table.specs.Refusal.{IsRefusedFor};

    /// The table with these rows, from the least fuel on. Refused for the first fault in the order of
    /// `FuelFault`.
    pub fn new(rows: Vec<FuelRow>) -> Result<FuelTable, FuelFault>
        ensures ok { IfOk result (λ t. t ≡ rows.items) }
        ensures lawful { IfOk result IsTable }
        ensures refused { IfErr result (λ fault. IsRefusedFor fault rows.items) }
    {
        if rows.is_empty() {
            return Err(FuelFault::Empty);
        }
        if let Some(at) = first_fall(&rows) {
            return Err(FuelFault::NotRising(at));
        }
        if rows.len() > 256 {
            return Err(FuelFault::TooMany);
        }
        Ok(FuelTable { rows })
    }

    /// The rows, from the least fuel on.
    pub fn rows(&self) -> &[FuelRow]
        ensures value { result.now ≡ self.now }
        ensures lawful { IsTable self.now }
    {
        &self.rows
    }

    /// The index that this mass of fuel adds, rounded down towards minus infinity between rows. None below
    /// the first row and above the last.
    pub fn index(&self, fuel: Kg) -> Option<Ticks>
        ensures some { IfSome result (λ n. IsFuelIndex self.now fuel.0 n.0) }
        ensures none { IfNone result ((n : ℤ) → ¬ (IsFuelIndex self.now fuel.0 n)) }
        ensures outside { IsNone result ↔ IsOutside self.now fuel.0 }
    {
        row::index_of(&self.rows, fuel)
    }
}
