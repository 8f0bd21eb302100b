ghost use Rattle.std.specs.Prelude.{◌≡◌, ℕ, ◌≤◌, length, pos, slice_index_or};
ghost use Rattle.tariff.specs.Charges.{Within};
ghost use Rattle.planning.specs.Working.{given};
ghost use Rattle.bound.specs.Bound.{fixed_sum};
ghost use Rattle.bound.specs.Tables.{AllSmall, beside, rows_in, sum_below};

use planning::WorkingSheet;
use slot_set::SlotSet;
use tariff::Tariff;

// The running sums of the charges of needs at the prices beside them.
pub(crate) fn running_sums<T: Tariff>(tariff: &T, needs: &[u64], prices: &[i64]) -> [i64; 17]
    requires few { length needs.now ≤ 16 }
    requires priced { length needs.now ≤ length prices.now }
    ensures sums { (k : ℕ) → k ≤ length needs.now → slice_index_or result k (pos 0) ≡ sum_below (beside (T.Tariff.charges tariff.now) needs.now prices.now 0 0) k }
    ensures small { AllSmall result }
{
    let mut sums = [0; 17];
    for (j, (need, price)) in needs.iter().zip(prices).enumerate() {
        sums[j + 1] = sums[j] + charge_of(tariff, *need, *price);
    }
    sums
}

// The sum of the charges of the fixed cases.
pub(crate) fn sum_of_fixed<T: Tariff>(tariff: &T, work: &WorkingSheet) -> i64
    ensures sum { result ≡ fixed_sum (given work.now (T.Tariff.charges tariff.now)) (rows_in work.now) }
    ensures small { Within 16000000000000 result }
{
    let mut sum = 0;
    for (set, need) in work.sets().iter().zip(work.needs()) {
        if let Some(slot) = SlotSet::from(*set).only() {
            sum += charge_of(tariff, *need, work.prices[slot]);
        }
    }
    sum
}

// The charge of a need at a price.
pub(crate) fn charge_of<T: Tariff>(tariff: &T, need: u64, price: i64) -> i64
    ensures charge { result ≡ T.Tariff.charges tariff.now need price }
    ensures small { Within 1000000000000 result }
{
    tariff.charge(need, price)
}
