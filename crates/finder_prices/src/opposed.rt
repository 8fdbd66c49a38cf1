//! Limits that are opposed: what loads one unloads the other, as the two of a lateral limit.

use finder_tables::Limit;

/// Whether what loads one limit unloads the other.
fn are_opposed(one: &Limit, other: &Limit) -> bool {
    one.counted == other.discounted && one.discounted == other.counted
}

/// Lowers two prices by the lesser of them.
fn lower_both(prices: &mut [i64], one: usize, other: usize) {
    if one < prices.len() && other < prices.len() {
        let common = prices[one].min(prices[other]);
        prices[one] = prices[one].saturating_sub(common);
        prices[other] = prices[other].saturating_sub(common);
    }
}

/// Takes from the prices of opposed limits that follow each other what they have in common. No cost changes by it, and
/// what the limits are worth gets less, so that the value grows.
pub fn cancel_opposed(limits: &[Limit], prices: &mut [i64]) {
    for later in 1..limits.len() {
        let earlier = later - 1;
        if are_opposed(&limits[earlier], &limits[later]) {
            lower_both(prices, earlier, later);
        }
    }
}
