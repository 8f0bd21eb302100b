ghost use Rattle.std.specs.Prelude.{◌≡◌, ◌≤◌, pos, ◌*ℤ◌};
ghost use Rattle.tariff.specs.Charges.{Price, in_ranges};

// A need from 1 to 20,000 and a price from -50,000 to 50,000.
pub(crate) fn within_ranges(need: u64, price: i64) -> bool
    ensures { result ≡ in_ranges need price }
{
    (1 <= need && need <= 20000) && (-50000 <= price && price <= 50000)
}

// Units at a price, few enough that the product fits.
pub(crate) fn units_at(units: u64, price: i64) -> i64
    requires few { units ≤ 20000 }
    requires priced { Price price }
    ensures { result ≡ pos units *ℤ price }
{
    units as i64 * price
}
