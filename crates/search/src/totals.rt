ghost use Rattle.std.specs.Prelude.{◌≡◌, take, pos, negsuc, ◌≤ℤ◌, slice_index_or};
ghost use Rattle.planning.specs.Plans.{total};
ghost use Rattle.planning.specs.Working.{given};

use planning::{WorkingSheet, charge_at};
use tariff::Tariff;

// The total of a plan. It lies far inside its type, so that the ceiling can go below it.
pub fn plan_total<T: Tariff>(tariff: &T, sheet: &WorkingSheet, plan: &[usize; 16]) -> i64
    ensures sum { result ≡ total (given sheet.now (T.Tariff.charges tariff.now)) (take sheet.now.count plan.now) }
    ensures low { negsuc 16000000000000 ≤ℤ result }
{
    added_up(tariff, sheet, plan)
}

// The same, one case after the other.
fn added_up<T: Tariff>(tariff: &T, sheet: &WorkingSheet, plan: &[usize; 16]) -> i64
    ensures sum { result ≡ total (given sheet.now (T.Tariff.charges tariff.now)) (take sheet.now.count plan.now) }
    ensures low { negsuc 16000000000000 ≤ℤ result }
{
    let mut sum = 0;
    for (need, slot) in sheet.needs().iter().zip(plan) {
        sum += charge_at(tariff, &sheet.prices, *need, *slot);
    }
    sum
}

// The price of a slot, and 0 past the last slot.
pub fn price_of(prices: &[i64; 64], slot: usize) -> i64
    ensures { result ≡ slice_index_or prices.now slot (pos 0) }
{
    prices.get(slot).copied().unwrap_or(0)
}
