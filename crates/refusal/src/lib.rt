// Every refusal of the slot board in one enum: its number, the values that come with it, and words for a person.
#![tactic(auto)]

ghost use Rattle.std.specs.Prelude.{◌≡◌};
ghost use Rattle.refusal.specs.Numbers.{number as number_of, steps as steps_of};

use std::fmt;

// Why a call was refused, in the order in which the checks run.
// `specs/Numbers.antt` has the number of each case and the values that it carries.
#[derive(Clone, Copy, PartialEq, Eq, Debug)]
pub enum Refusal {
    // a row above 15
    RowRange,
    // enter: the row holds a case
    RowTaken,
    // withdraw or allow: the row holds no case
    RowEmpty,
    // a need outside 1 to 20,000
    NeedRange,
    // an allowed set without a slot
    NoSlots,
    // a slot above 63
    SlotRange,
    // a price outside -50,000 to 50,000
    PriceRange,
    // close: the slot is closed
    SlotClosed,
    // an edit in a trial that remembers 64
    TrialFull,
    // take back: the trial remembers no edit
    NothingToTakeBack,
    // solve: the plan list is shorter than the number of standing cases
    PlanListShort,
    // solve: the saved list has fewer than 1,024 places
    SavedListShort,
    // solve: the decision list has fewer than 16 places
    DecisionListShort,
    // solve: a step limit of 0 or above 10^9
    LimitRange,
    // solve: a ceiling outside -10^15 to 10^15
    CeilingRange,
    // a block length outside 1 to 1,000
    BlockRange,
    // solve: it ran to its end, and no plan is within the ceiling; with the steps that it took
    NoPlan(u64),
}

impl Refusal {
    // The number by which callers know the refusal.
    pub fn number(&self) -> u8
        ensures { result ≡ number_of self.now }
    {
        match self {
            Refusal::RowRange => 1,
            Refusal::RowTaken => 2,
            Refusal::RowEmpty => 3,
            Refusal::NeedRange => 4,
            Refusal::NoSlots => 5,
            Refusal::SlotRange => 6,
            Refusal::PriceRange => 7,
            Refusal::SlotClosed => 8,
            Refusal::TrialFull => 9,
            Refusal::NothingToTakeBack => 10,
            Refusal::PlanListShort => 11,
            Refusal::SavedListShort => 12,
            Refusal::DecisionListShort => 13,
            Refusal::LimitRange => 14,
            Refusal::CeilingRange => 15,
            Refusal::BlockRange => 16,
            Refusal::NoPlan(_) => 17,
        }
    }
    // The steps that a refused solve took, for the one refusal that carries them.
    pub fn steps(&self) -> Option<u64>
        ensures { result ≡ steps_of self.now }
    {
        match self {
            Refusal::NoPlan(steps) => Some(*steps),
            _ => None,
        }
    }
}

// The words for a person. They are tested and not proved.
impl fmt::Display for Refusal {
    fn fmt<W: fmt::Write>(&self, f: &mut fmt::Formatter<W>) -> fmt::Result {
        match self {
            Refusal::RowRange => f.write_str("the row is above 15"),
            Refusal::RowTaken => f.write_str("the row holds a case already"),
            Refusal::RowEmpty => f.write_str("the row holds no case"),
            Refusal::NeedRange => f.write_str("the need is not from 1 to 20000"),
            Refusal::NoSlots => f.write_str("the allowed set has no slot"),
            Refusal::SlotRange => f.write_str("the slot is above 63"),
            Refusal::PriceRange => f.write_str("the price is not from -50000 to 50000"),
            Refusal::SlotClosed => f.write_str("the slot is closed already"),
            Refusal::TrialFull => f.write_str("the trial remembers 64 edits, and can take no more"),
            Refusal::NothingToTakeBack => f.write_str("the trial remembers no edit"),
            Refusal::PlanListShort => f.write_str(
                "the plan list is shorter than the standing cases",
            ),
            Refusal::SavedListShort => f.write_str("the saved list has fewer than 1024 places"),
            Refusal::DecisionListShort => f.write_str("the decision list has fewer than 16 places"),
            Refusal::LimitRange => f.write_str("the step limit is not from 1 to 1000000000"),
            Refusal::CeilingRange => f.write_str("the ceiling is not from -10^15 to 10^15"),
            Refusal::BlockRange => f.write_str("the block length is not from 1 to 1000"),
            Refusal::NoPlan(steps) => write!(
                f,
                "no plan lies within the ceiling, after {steps} steps"
            ),
        }
    }
}
