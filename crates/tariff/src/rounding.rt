// Why no tariff of ours rounds its charges.
ghost use Rattle.std.specs.Prelude.{◌≡◌, ℕ, ◌+◌, ◌*◌, ◌/◌, pos, ◌+ℤ◌};
ghost use Rattle.tariff.specs.Rounding.{rounded, RoundedIsUnlawful, Exchanged};

// Rounding each plain charge up to tens is not lawful. Needs 6 and 5 at prices 2 and 5 show it, with the two
// sums that the exchange law compares: 50 for the greater need at the lower price, and 40 the other way round.
pub fn rounding_is_unlawful() -> (u32, u32)
    ensures sums { Exchanged result.0 result.1 }
    ensures unlawful { RoundedIsUnlawful }
{
    exchanged_sums()
}

fn exchanged_sums() -> (u32, u32)
    ensures { Exchanged result.0 result.1 }
{
    let straight = up_to_tens(6 * 2) + up_to_tens(5 * 5);
    let crossed = up_to_tens(6 * 5) + up_to_tens(5 * 2);
    (straight, crossed)
}

// The least multiple of ten that is not below a small charge.
fn up_to_tens(charge: u8) -> u32
    ensures { result ≡ (charge + 9) / 10 * 10 }
{
    (charge as u32 + 9) / 10 * 10
}
