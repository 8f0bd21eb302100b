// Plans, working sheets and pruners.
#![tactic(auto)]

ghost use Rattle.planning.specs.Plans.{PartPlansAreListed, PlansAreOrdered, PlansListed};
ghost use Rattle.planning.specs.Pruners.{PilesLawful};

mod charging;
mod pile;
mod pruner;
mod working_sheet;

pub use charging::charge_at;
pub use pile::Pile;
pub use pruner::{Pruner, ask};
pub use working_sheet::WorkingSheet;

// The list of all plans has exactly the plans drawn from the sets, in plan order, each once.
pub fn plans_are_listed()
    ensures { PlansListed }
{}

// The list of all part-plans has exactly those drawn from the first sets, each once, and is as long as their number.
pub fn part_plans_are_listed()
    ensures { PartPlansAreListed }
{}

// Plan order is strict, and of any two different plans drawn from the sets it puts one first; two plans that agree in
// every row are the same.
pub fn plans_are_ordered()
    ensures { PlansAreOrdered }
{}

// A pile of two lawful pruners is a lawful pruner.
pub fn piles_are_lawful()
    ensures { PilesLawful }
{}
