ghost use Rattle.std.specs.Prelude.{◌≡◌, length, nat_lt};
ghost use Rattle.slot_set.specs.Sets.{members};
ghost use Rattle.planning.specs.Working.{given, sets_in, first_sets, RestKept};
ghost use Rattle.bound.specs.Bound.{bound_prune};
ghost use Rattle.bound.specs.BoundLaw.{bound_lawful};

use crate::build::figures_of;
use crate::free::{free_cases, free_slots};
use crate::strike::Strike;
use planning::{Pruner, WorkingSheet};
use slot_set::{SlotSet, any_empty};
use tariff::Tariff;

// Bound: the free cases by falling need, matched to their slots by rising price, cost no more than any plan. A slot is
// struck from a free case if the same, with that choice made, exceeds the ceiling. Nothing is sorted.
#[derive(Clone, Copy)]
pub struct Bound;

impl Pruner for Bound {
    ghost prunes = { λ _. bound_prune };

    ghost lawful = { λ p. bound_lawful };

    fn prune<T: Tariff>(&self, tariff: &T, ceiling: i64, work: &WorkingSheet) -> Option<[u64; 16]> {
        bound_sets(tariff, ceiling, work)
    }
}

// What Bound answers.
#[tactic(auto, using(crate::proofs::Strikes::dead_after, crate::proofs::Strikes::dead_empty))]
fn bound_sets<T: Tariff>(tariff: &T, ceiling: i64, work: &WorkingSheet) -> Option<[u64; 16]>
    ensures rest { RestKept work.now.count work.now.sets result }
    ensures meaning { first_sets work.now.count result ≡ bound_prune (given work.now (T.Tariff.charges tariff.now)) ceiling (sets_in work.now) }
{
    if any_empty(work.sets()) {
        return None;
    }
    let n = free_cases(work);
    let slots = free_slots(work);
    if too_few(slots, n) {
        return None;
    }
    let figures = figures_of(tariff, work, n, slots);
    if ceiling < figures.whole_bound() {
        return None;
    }
    let strike = Strike {
        tariff,
        ceiling,
        work,
        figures: &figures,
    };
    let next = strike.struck_sets();
    if any_empty(&next[..work.count]) {
        return None;
    }
    Some(next)
}

// Whether a set has fewer slots than there are free cases.
fn too_few(slots: SlotSet, n: usize) -> bool
    ensures { result ≡ nat_lt (length (members slots.word)) n }
{
    slots.len() < n
}
