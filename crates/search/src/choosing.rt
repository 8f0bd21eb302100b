ghost use Rattle.std.specs.Prelude.{◌≡◌, ◌^◌, ◌<◌};
ghost use Rattle.search.specs.Frames.{NextUntried};

use slot_set::SlotSet;

// The lowest slot from `start` on that is in the set and that the part-plan does not use.
pub(crate) fn next_slot(plan: &[usize], word: u64, start: usize) -> Option<usize>
    ensures { NextUntried plan.now word start result }
{
    let set = SlotSet::from(word);
    (start..64).find(|slot| set.contains(*slot) && !plan.contains(slot))
}

// The set of one slot.
pub(crate) fn only(slot: usize) -> u64
    requires { slot < 64 }
    ensures { result ≡ 2 ^ slot }
{
    1 << slot
}
