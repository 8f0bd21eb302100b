// The search for the cheapest plan: part-plans one case deeper at a time, cut short by a pruner and by a ceiling that
// goes just below each new best plan. It uses no memory but the places that it is lent.
#![tactic(auto)]

mod choosing;
mod deciding;
mod entries;
mod exploration;
mod exploring;
mod outcome;
mod saving;
mod tally;
mod totals;
mod trail;

pub use deciding::Decision;
pub use exploring::explore;
pub use outcome::Outcome;
pub use saving::Saved;
pub use totals::{plan_total, price_of};
