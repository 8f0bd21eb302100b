ghost use Rattle.std.specs.Prelude.{◌≡◌, ℕ, ◌<◌, [], length, slice_index};
ghost use Rattle.slot_set.specs.Sets.{has};
ghost use Rattle.pruners.specs.Distinct.{claimed, unclaimed, distinct};
ghost use Rattle.pruners.specs.DistinctLaw.{distinct_lawful};

use planning::{Pruner, WorkingSheet};
use slot_set::{SlotSet, any_empty};
use tariff::Tariff;

// Distinct: a slot that is the only one of a case is struck from every other set, all judged by the sets as given.
#[derive(Clone, Copy)]
pub struct Distinct;

impl Pruner for Distinct {
    ghost prunes = { λ _. distinct };

    ghost lawful = { λ p. distinct_lawful };

    fn prune<T: Tariff>(&self, tariff: &T, ceiling: i64, work: &WorkingSheet) -> Option<[u64; 16]> {
        let mut next = work.sets;
        strike_claimed(&mut next[..work.count], work.sets());
        if any_empty(&next[..work.count]) {
            return None;
        }
        Some(next)
    }
}

// Strikes from each set the slots that are the only one of another. They are read from `sets`, so that no strike
// makes a set of one slot that then strikes again.
#[tactic(auto, using(crate::proofs::Striking::length_unclaimed, std::proofs::lemmas::List::take_all, std::proofs::lemmas::List::take_more, std::proofs::lemmas::List::take_more_set))]
fn strike_claimed(next: &mut [u64], sets: &[u64])
    requires { length next.old ≡ length sets.now }
    ensures { next.new ≡ unclaimed [] sets.now }
{
    for (case, set) in next.iter_mut().enumerate() {
        *set = struck(sets, case);
    }
}

// What is left of one set.
fn struck(sets: &[u64], case: usize) -> u64
    requires { case < length sets.now }
    ensures { result ≡ slice_index (unclaimed [] sets.now) case }
{
    let others = claims(&sets[..case]).union(claims(&sets[case + 1..]));
    SlotSet::from(sets[case]).difference(others).into()
}

// The slots that are the only one of a case.
#[tactic(auto, using(crate::proofs::Striking::claimed_by, crate::proofs::Striking::claimed_not, slot_set::proofs::Words::has_none))]
fn claims(sets: &[u64]) -> SlotSet
    ensures { (s : ℕ) → has result.word s ≡ claimed s sets.now }
{
    let mut claimed = SlotSet::default();
    for set in sets {
        if let Some(slot) = SlotSet::from(*set).only() {
            claimed = claimed.with(slot);
        }
    }
    claimed
}
