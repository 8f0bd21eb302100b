ghost use Rattle.std.specs.Prelude.{◌≡◌, pos, slice_index_or};
ghost use Rattle.tariff.specs.Charges.{Within};

use tariff::Tariff;

// The charge of a need at the price of a slot. The price of a slot above 63 is 0.
pub fn charge_at<T: Tariff>(tariff: &T, prices: &[i64; 64], need: u64, slot: usize) -> i64
    ensures charge { result ≡ T.Tariff.charges tariff.now need (slice_index_or prices.now slot (pos 0)) }
    ensures small { Within 1000000000000 result }
{
    tariff.charge(need, prices.get(slot).copied().unwrap_or(0))
}
