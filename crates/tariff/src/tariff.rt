ghost use Rattle.std.specs.Prelude.{◌≡◌, ℕ, pos};
ghost use Rattle.tariff.specs.Charges.{Charge, LawfulTariff};

// A tariff, by its charges. Telling a charge changes nothing and is never refused.
pub trait Tariff {
    // the greatest charge that the tariff names
    const GREATEST: i64;

    // the same for clauses, which cannot name an associated constant
    ghost greatest: { ℕ };

    ghost charges: { Self → Charge };

    fn greatest_charge(&self) -> i64
        ensures { result ≡ pos greatest };

    // The charge of a need at a price, for any numbers.
    fn charge(&self, need: u64, price: i64) -> i64
        ensures { result ≡ charges self.now need price };

    // order, exchange, the limit of 10^12, and 0 outside the ranges
    ghost lawful: { (t : Self) → LawfulTariff (charges t) greatest };
}
