// Tariffs: what a case is charged for its need in a slot of a price.
#![tactic(auto)]

ghost use Rattle.tariff.specs.Sums.{SumsAreSmall};

mod block;
mod plain;
mod ranges;
mod rounding;
mod tariff;

pub use block::Block;
pub use plain::Plain;
pub use rounding::rounding_is_unlawful;
pub use tariff::Tariff;

// A theorem for all later sums: with every lawful tariff, a sum of charges is at most its greatest charge for each
// from 0, and a sum of up to 16 at most 16 * 10^12, which fits an `i64`.
#[tactic(auto, using(crate::proofs::Sums::sums_are_small))]
pub fn sums_are_small()
    ensures { SumsAreSmall }
{}
