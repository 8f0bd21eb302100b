// The pruner Bound.
#![tactic(auto)]

ghost use Rattle.bound.specs.Bound.{PlaceIsCount, BoundBySums};
ghost use Rattle.bound.specs.House.{HouseLawful};
ghost use Rattle.bound.specs.Worked.{WorkedFigures};

mod build;
mod choice;
mod figures;
mod free;
mod placed;
mod pruner;
mod ranks;
mod running;
mod strike;
#[cfg(test)]
mod tests;

pub use pruner::Bound;

// Each house pruner, Distinct, Sum and Bound, and every pile of them, is lawful: on every sheet, with every lawful tariff,
// at any ceiling and any working sets, each new set is a part of the old one; each plan drawn from the old sets, within the
// ceiling, can be drawn from the new ones; and it is dead only if there is no such plan.
pub fn house_pruners_are_lawful()
    ensures { HouseLawful }
{}

// The bounds that were worked out by hand come out of the rules.
pub fn worked_figures_hold()
    ensures { WorkedFigures }
{}

// The place of a free case among them all, in order, is 1 plus the count of those before it, and so is the place of a slot.
pub fn places_are_counts()
    ensures { PlaceIsCount }
{}

// The bound, and the bound under each choice, follow from three running sums and two places.
pub fn bound_by_sums()
    ensures { BoundBySums }
{}
