// The tariffs and the pruners of the house as enums, so that one value can be any of them, or a pile of up to three.
#![tactic(auto)]

mod named_pruners;
mod named_tariffs;

pub use named_pruners::{HousePile, HousePruner};
pub use named_tariffs::HouseTariff;
