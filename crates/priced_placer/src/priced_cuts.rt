//! Cuts with their prices.

ghost use Rattle.std.specs.Prelude.{◌≡◌, All, IfOk, map};
ghost use Rattle.hold_reach.specs.Reach.{IsViable};
ghost use Rattle.certificate.specs.Evidence.{paths_of};
ghost use Rattle.priced_checker.specs.Good.{prefixes_of, IsPriced};
ghost use Rattle.priced_placer.specs.PriceNear.{IsTightlyPriced};

use base_words::NoMemory;
use hold_limits::{Path, Task};
use hold_partial::{Partial, move_to};
use priced_certificate::PricedCut;
use std::alloc::Global;
use tight_reach::prices_of;

/// The cut with its prices, to which the placement moves.
fn with_own_prices(partial: &mut Partial<'_>, prefix: Path) -> PricedCut
    requires { IsViable partial.old.task prefix.items }
    ensures task { partial.new.task ≡ partial.old.task }
    ensures prefix { result.prefix ≡ prefix }
    ensures priced { IsTightlyPriced partial.old.task result }
{
    if !move_to(partial, prefix.as_slice()) {
        unreachable!();
    }
    let prices = prices_of(partial);
    PricedCut { prefix, prices }
}

/// The cuts with their prices, in their order.
pub fn with_prices(
    alloc: Global,
    task: &Task,
    prefixes: Vec<Path>,
) -> Result<Vec<PricedCut>, NoMemory>
    requires { All (IsViable task.now) (paths_of prefixes.items) }
    ensures prefixes { IfOk result (λ cuts. prefixes_of cuts.items ≡ paths_of prefixes.items) }
    ensures priced { IfOk result (λ cuts. All (IsTightlyPriced task.now) cuts.items) }
{
    let mut cuts = Vec::new(alloc);
    let Ok(mut partial) = Partial::new(task) else {
        return Ok(cuts);
    };
    for prefix in prefixes {
        cuts.push(with_own_prices(&mut partial, prefix))?;
    }
    Ok(cuts)
}
