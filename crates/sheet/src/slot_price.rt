// The price of an open slot. Its range is a fact of the type.
ghost use Rattle.std.specs.Prelude.{pos, negsuc, ◌≤ℤ◌};

mod ops;

// What power costs in an open slot: a whole number from -50,000 to 50,000.
#[derive(Clone, Copy)]
pub struct SlotPrice {
    amount: i32,
    ghost at_least: { negsuc 49999 ≤ℤ amount },
    ghost at_most: { amount ≤ℤ pos 50000 },
}
