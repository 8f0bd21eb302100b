ghost use Rattle.std.specs.Prelude.{◌≡◌, ◌<◌, ◌≤◌, length, take, drop, slice_index};
ghost use Rattle.slot_set.specs.Sets.{keep};
ghost use Rattle.planning.specs.Working.{given};
ghost use Rattle.bound.specs.Bound.{bound_new, free_of, union};
ghost use Rattle.bound.specs.Figures.{RightFigures, affords};
ghost use Rattle.bound.specs.Tables.{rows_in};

use crate::choice::Choice;
use crate::figures::Figures;
use crate::free::is_free;
use crate::running::charge_of;
use planning::WorkingSheet;
use slot_set::SlotSet;
use tariff::Tariff;

// What the slots of free cases are judged by, where there are slots enough.
#[derive(Drop)]
pub(crate) struct Strike<'a, T: Tariff> {
    pub(crate) tariff: &'a T,
    pub(crate) ceiling: i64,
    pub(crate) work: &'a WorkingSheet,
    pub(crate) figures: &'a Figures,
    ghost right: { RightFigures work.now (T.Tariff.charges tariff.now) figures.now },
    ghost enough: { length (free_of (rows_in work.now)) ≤ length (union (rows_in work.now)) },
}

impl<'a, T: Tariff> Strike<'a, T> {
    // Each set of a free case without the slots under whose choice the bound exceeds the ceiling.
    #[tactic(auto, using(crate::proofs::Strikes::free_ranked, crate::proofs::Strikes::length_new, std::proofs::lemmas::List::take_all, crate::proofs::Counting::set_read, crate::proofs::Counting::sets_long))]
    pub(crate) fn struck_sets(&self) -> [u64; 16]
        ensures struck { take self.now.work.now.count result ≡ bound_new (given self.now.work.now (T.Tariff.charges self.now.tariff.now)) self.now.ceiling (rows_in self.now.work.now) }
        ensures rest { drop self.now.work.now.count result ≡ drop self.now.work.now.count self.now.work.now.sets }
    {
        let mut next = self.work.sets;
        for (case, set) in self.work.sets().iter().enumerate() {
            if is_free(*set) {
                next[case] = self.affordable_slots(case);
            }
        }
        next
    }

    // The slots of the set of a free case that are affordable for it.
    fn affordable_slots(&self, case: usize) -> u64
        requires place { case < self.now.work.now.count }
        requires rank { slice_index self.now.figures.now.ranks case < self.now.figures.now.cases }
        ensures { result ≡ keep (affords self.now.work.now (T.Tariff.charges self.now.tariff.now) self.now.figures.now self.now.ceiling case) (slice_index self.now.work.now.sets case) }
    {
        SlotSet::from(self.work.sets[case])
            .filter(|slot| self.affords(case, slot))
            .into()
    }

    fn affords(&self, case: usize, slot: usize) -> bool
        requires place { case < self.now.work.now.count }
        requires slot { slot < 64 }
        requires rank { slice_index self.now.figures.now.ranks case < self.now.figures.now.cases }
        ensures { result ≡ affords self.now.work.now (T.Tariff.charges self.now.tariff.now) self.now.figures.now self.now.ceiling case slot }
    {
        let choice = Choice {
            figures: self.figures,
            case: self.figures.ranks[case],
            slot: self.figures.slots[slot],
            charge: charge_of(self.tariff, self.work.needs[case], self.work.prices[slot]),
        };
        choice.bound() <= self.ceiling
    }
}
