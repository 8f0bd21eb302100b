ghost use Rattle.std.specs.Prelude.{◌≡◌, ℕ, not, length};
ghost use Rattle.bound.specs.Bound.{free_of, in_some};
ghost use Rattle.bound.specs.Tables.{rows_in};
ghost use Rattle.slot_set.specs.Sets.{has, single};

use planning::WorkingSheet;
use slot_set::SlotSet;

// Whether a case with this set is free. It is fixed where it has one slot.
pub(crate) fn is_free(set: u64) -> bool
    ensures { result ≡ not (single set) }
{
    SlotSet::from(set).len() != 1
}

// The slots of the free cases.
#[tactic(auto, using(crate::proofs::Counting::all_rows, crate::proofs::Counting::set_read, crate::proofs::Counting::sets_long, crate::proofs::Counting::union_more))]
pub(crate) fn free_slots(work: &WorkingSheet) -> SlotSet
    ensures { (s : ℕ) → has result.word s ≡ in_some (free_of (rows_in work.now)) s }
{
    let mut slots = SlotSet::default();
    for set in work.sets() {
        if is_free(*set) {
            slots = slots.union(SlotSet::from(*set));
        }
    }
    slots
}

// How many cases are free.
#[tactic(auto, using(crate::proofs::Counting::free_count))]
pub(crate) fn free_cases(work: &WorkingSheet) -> usize
    ensures { result ≡ length (free_of (rows_in work.now)) }
{
    work.sets().iter().filter(|set| is_free(**set)).count()
}
