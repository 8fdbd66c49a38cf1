//! The tight reach of a placement, and prices whose span it is.

ghost use Rattle.std.specs.Prelude.{◌≡◌, ◌≤◌, ◌<ℤ◌, ℤ, IfSome, None, Some, option_map, unsigned_abs};
ghost use Rattle.assignment_prices.specs.Priced.{ArePricesOf, price_span};
ghost use Rattle.assignment_prices.specs.TightReach.{IsTightReach};

use crate::candidates::candidates_of;
use crate::ends::reach_of;
use assignment_prices::{End, Prices};
use hold_limits::hold_index_of;
use hold_partial::Partial;
use mass_units::Ticks;

/// The least and the greatest hold index, in ticks, over all ways to give the remaining containers open positions of
/// their own. None where there is no way. It takes no memory.
pub fn tight(p: &Partial<'_>) -> Option<(Ticks, Ticks)>
    ensures reach { IsTightReach p.now.task p.now.prefix (option_map (λ ends. (ends.0.0, ends.1.0)) result) }
    ensures bounded { IfSome result (λ ends. (unsigned_abs ends.0.0 ≤ 2000000000000000) × (unsigned_abs ends.1.0 ≤ 2000000000000000)) }
{
    let candidates = candidates_of(p);
    let low = reach_of(p, &candidates, End::Low);
    let high = reach_of(p, &candidates, End::High);
    if !low.has_way || !high.has_way {
        return None;
    }
    let so_far = hold_index_of(p.task(), p.prefix()).0;
    Some((Ticks(so_far + low.sum()), Ticks(so_far + high.sum())))
}

/// Prices of what the prefix leaves whose span is the tight reach. Where there is no way, the low end of their span is
/// above its high end. It takes no memory.
pub fn prices_of(p: &Partial<'_>) -> Prices
    ensures prices { ArePricesOf p.now.task p.now.prefix result }
    ensures tight { (tight : ℤ × ℤ) → IsTightReach p.now.task p.now.prefix (Some tight)
        → price_span p.now.task p.now.prefix result ≡ tight }
    ensures none { IsTightReach p.now.task p.now.prefix None
        → (price_span p.now.task p.now.prefix result).1 <ℤ (price_span p.now.task p.now.prefix result).0 }
{
    let candidates = candidates_of(p);
    let low = reach_of(p, &candidates, End::Low);
    let high = reach_of(p, &candidates, End::High);
    Prices {
        lower_items: low.items,
        lower_places: low.places,
        upper_items: high.items,
        upper_places: high.places,
    }
}
