//! The rows of a fuel table, and the lines between them.

ghost use Rattle.std.specs.Prelude.{◌≡◌, ◌≢◌, ◌↔◌, ℤ, All, Any, IfSome, IfNone, IsNone};
ghost use Rattle.mass_units.specs.Line.{Spans, IsFloor};
ghost use Rattle.fuel_table.specs.Rows.{lines, IsRising, IsTable, IsFuelIndex, IsOutside};

use mass_units::{Kg, Lines, Point, Ticks, ToPoint};

/// A mass of fuel, and the index that it adds.
#[derive(Clone, Copy, Debug, PartialEq, Eq)]
pub struct FuelRow {
    pub fuel: Kg,
    pub index: Ticks,
}

impl ToPoint for FuelRow {
    ghost use Rattle.fuel_table.specs.Rows.{point_of};

    ghost point = { point_of };

    fn to_point(&self) -> Point {
        Point {
            mass: self.fuel,
            index: self.index,
        }
    }
}

/// The index of the fuel in the rows of a table.
pub fn index_of(rows: &[FuelRow], fuel: Kg) -> Option<Ticks>
    requires { IsTable rows.now }
    ensures some { IfSome result (λ n. IsFuelIndex rows.now fuel.0 n.0) }
    ensures none { IfNone result ((n : ℤ) → ¬ (IsFuelIndex rows.now fuel.0 n)) }
    ensures outside { IsNone result ↔ IsOutside rows.now fuel.0 }
{
    if rows.len() == 1 {
        return index_of_row(rows[0], fuel);
    }
    index_on_lines(rows, fuel)
}

/// The index of the row, where it has that fuel.
fn index_of_row(row: FuelRow, fuel: Kg) -> Option<Ticks>
    ensures some { IfSome result (λ n. (row.fuel.0 ≡ fuel.0) × (row.index.0 ≡ n.0)) }
    ensures none { IfNone result (row.fuel.0 ≢ fuel.0) }
{
    if row.fuel.0 == fuel.0 {
        Some(row.index)
    } else {
        None
    }
}

/// The index of the fuel on the first line that spans it.
fn index_on_lines(rows: &[FuelRow], fuel: Kg) -> Option<Ticks>
    requires { IsRising rows.now }
    ensures some { IfSome result (λ n. Any (λ line. Spans line fuel.0) (lines rows.now)
        × All (λ line. Spans line fuel.0 → IsFloor line fuel.0 n.0) (lines rows.now)) }
    ensures none { IfNone result (All (λ line. ¬ (Spans line fuel.0)) (lines rows.now)) }
{
    for line in Lines::between(rows) {
        if line.spans(fuel) {
            return Some(line.floor_at(fuel));
        }
    }
    None
}
