ghost use Rattle.std.specs.Prelude.{◌≡◌, ℕ, ◌<◌, ◌≤◌, length, take, drop, pos, ◌+ℤ◌, if◌then◌else◌, int_le, slice_index, slice_index_or};
ghost use Rattle.slot_set.specs.Sets.{keep};
ghost use Rattle.tariff.specs.Charges.{Within};
ghost use Rattle.tariff.specs.Sums.{sum_all};
ghost use Rattle.planning.specs.Working.{given, sets_in, first_sets, RestKept};
ghost use Rattle.pruners.specs.Sum.{least_in, sum_strike, sum, LeastEach};
ghost use Rattle.pruners.specs.SumLaw.{sum_lawful};

use planning::{Pruner, WorkingSheet, charge_at};
use slot_set::{SlotSet, any_empty};
use tariff::Tariff;

// Sum: each case at its least charge. A slot is struck if the case in it, with all others at their least, exceeds
// the ceiling.
#[derive(Clone, Copy)]
pub struct Sum;

impl Pruner for Sum {
    ghost prunes = { λ _. sum };

    ghost lawful = { λ p. sum_lawful };

    fn prune<T: Tariff>(&self, tariff: &T, ceiling: i64, work: &WorkingSheet) -> Option<[u64; 16]> {
        Charged::new(tariff, work).sum_sets(ceiling)
    }
}

// What a case may be charged: with the charges of all others, no more than the ceiling.
#[derive(Clone, Copy)]
struct Limit {
    others: i64,
    ceiling: i64,
    ghost small: { Within 17000000000000 others },
}

impl Limit {
    fn admits(self, charge: i64) -> bool
        requires { Within 1000000000000 charge }
        ensures { result ≡ int_le (self.others +ℤ charge) self.ceiling }
    {
        self.others + charge <= self.ceiling
    }
}

// The cases of a working sheet, as a tariff charges them.
#[derive(Drop)]
struct Charged<'a, T: Tariff> {
    tariff: &'a T,
    work: &'a WorkingSheet,
}

impl<'a, T: Tariff> Charged<'a, T> {
    fn new(tariff: &'a T, work: &'a WorkingSheet) -> Charged<'a, T>
        ensures tariff { result.tariff.now ≡ tariff.now }
        ensures work { result.work.now ≡ work.now }
    {
        Charged { tariff, work }
    }

    // What Sum answers.
    #[tactic(auto, using(crate::proofs::Totals::total_least))]
    fn sum_sets(&self, ceiling: i64) -> Option<[u64; 16]>
        ensures rest { RestKept self.now.work.now.count self.now.work.now.sets result }
        ensures meaning { first_sets self.now.work.now.count result ≡ sum (given self.now.work.now (T.Tariff.charges self.now.tariff.now)) ceiling (sets_in self.now.work.now) }
    {
        if any_empty(self.work.sets()) {
            return None;
        }
        let leasts = self.leasts();
        let total = total_of(&leasts[..self.work.count]);
        if ceiling < total {
            return None;
        }
        Some(self.struck_sets(ceiling, &leasts, total))
    }

    // Each set without the slots that a case cannot afford with all others at their least.
    fn struck_sets(&self, ceiling: i64, leasts: &[i64; 16], total: i64) -> [u64; 16]
        requires least { LeastEach self.now.work.now (T.Tariff.charges self.now.tariff.now) leasts.now }
        requires small { Within 16000000000000 total }
        ensures struck { let w = self.now.work.now in take w.count result ≡ sum_strike (given w (T.Tariff.charges self.now.tariff.now)) ceiling total (take w.count w.needs) (sets_in w) }
        ensures rest { drop self.now.work.now.count result ≡ drop self.now.work.now.count self.now.work.now.sets }
    {
        let mut next = self.work.sets;
        for (case, set) in next[..self.work.count].iter_mut().enumerate() {
            let limit = Limit {
                others: total - leasts[case],
                ceiling,
            };
            *set = self.affordable(case, limit).into();
        }
        next
    }

    // The least charge of each case, so that each is worked out once, and 0 in the places past the cases.
    fn leasts(&self) -> [i64; 16]
        ensures rest { (i : ℕ) → self.now.work.now.count ≤ i → slice_index_or result i (pos 0) ≡ pos 0 }
        ensures least { LeastEach self.now.work.now (T.Tariff.charges self.now.tariff.now) result }
    {
        let mut leasts = [0; 16];
        for (case, least) in leasts[..self.work.count].iter_mut().enumerate() {
            *least = self.least(case);
        }
        leasts
    }

    // The least charge of a case over its set, and 0 over an empty one.
    fn least(&self, case: usize) -> i64
        requires { case < 16 }
        ensures { let w = self.now.work.now in result ≡ least_in (given w (T.Tariff.charges self.now.tariff.now)) (slice_index w.needs case) (slice_index w.sets case) }
    {
        let set = SlotSet::from(self.work.sets[case]);
        (0..64)
            .filter(|slot| set.contains(*slot))
            .map(|slot| self.charge(case, slot))
            .reduce(lesser)
            .unwrap_or(0)
    }

    // The slots of a case's set in which its charge is within a limit.
    fn affordable(&self, case: usize, limit: Limit) -> SlotSet
        requires { case < 16 }
        ensures { let w = self.now.work.now in result.word ≡ keep (λ s. int_le (limit.others +ℤ T.Tariff.charges self.now.tariff.now (slice_index w.needs case) (slice_index_or w.prices s (pos 0))) limit.ceiling) (slice_index w.sets case) }
    {
        SlotSet::from(self.work.sets[case]).filter(|slot| limit.admits(self.charge(case, slot)))
    }

    // What a case is charged in a slot.
    fn charge(&self, case: usize, slot: usize) -> i64
        requires { case < 16 }
        ensures small { Within 1000000000000 result }
        ensures charge { let w = self.now.work.now in result ≡ T.Tariff.charges self.now.tariff.now (slice_index w.needs case) (slice_index_or w.prices slot (pos 0)) }
    {
        charge_at(self.tariff, &self.work.prices, self.work.needs[case], slot)
    }
}

// The lesser of two charges.
fn lesser(a: i64, b: i64) -> i64
    ensures { result ≡ (if int_le a b then a else b) }
{
    a.min(b)
}

// The sum of some charges.
fn total_of(charges: &[i64]) -> i64
    requires few { length charges.now ≤ 16 }
    requires small { (i : ℕ) → i < length charges.now → Within 1000000000000 (slice_index_or charges.now i (pos 0)) }
    ensures sum { result ≡ sum_all charges.now }
    ensures small { Within 16000000000000 result }
{
    let mut sum = 0;
    for charge in charges {
        sum += *charge;
    }
    sum
}
