ghost use Rattle.std.specs.Prelude.{◌≡◌, ℕ, ◌<◌, ◌≤◌, false, List, length, take, ℤ, Some};
ghost use Rattle.tariff.specs.Charges.{Charge};
ghost use Rattle.planning.specs.Pruners.{Parts, Prune};
ghost use Rattle.search_rules.specs.Search.{searched};
ghost use Rattle.planning.specs.Working.{given, sets_in, first_sets};
ghost use Rattle.std.specs.Result.{is_err};
ghost use Rattle.search.specs.Counts.{SameGuard, ceiling_of};
ghost use Rattle.search.specs.Runs.{Kept, outcome_from, remaining, state_at, visited_from};

use crate::choosing::{next_slot, only};
use crate::deciding::Decision;
use crate::entries::{put, take_latest};
use crate::exploration::Exploration;
use crate::saving::Saved;
use crate::tally::{LimitReached, Tally};
use crate::totals::plan_total;
use crate::trail::Trail;
use ceiling::CeilingGuard;
use planning::{Pruner, WorkingSheet, ask};
use stack::Stack;
use tariff::Tariff;

impl<'a> Exploration<'a> {
    // A search that has visited nothing.
    pub(crate) fn over(
        work: &WorkingSheet,
        limit: u64,
        saved: &'a mut [Saved],
        decisions: &'a mut [Decision],
    ) -> Exploration<'a>
        requires saved { 1024 ≤ length saved.old }
        requires decisions { 16 ≤ length decisions.old }
        ensures begun { (w : Charge) (f : Prune) (c : ℤ) → visited_from w f 0 c result ≡ searched (given work.now w) f limit c (sets_in work.now) }
        ensures count { result.trail.sheet.count ≡ work.now.count }
    {
        Exploration {
            limit,
            trail: Trail::over(work, saved),
            decisions: Stack::over(decisions),
            plan: [0; 16],
            tally: Tally::EMPTY,
        }
    }

    // Goes on until nothing is left to visit, or the limit is reached.
    #[tactic(auto, using(crate::proofs::Entering::stopped_from))]
    pub(crate) fn finish<P: Pruner, T: Tariff>(
        &mut self,
        pruner: &P,
        tariff: &T,
        guard: &mut CeilingGuard,
    ) -> Result<(), LimitReached>
        ensures reached { state_at (is_err result) (ceiling_of guard.new) self.new ≡ visited_from (T.Tariff.charges tariff.now) (P.Pruner.prunes pruner.now) 0 (ceiling_of guard.old) self.old }
        ensures kept { Kept self.old self.new }
        ensures guard { SameGuard guard.old guard.new }
    {
        self.enter(pruner, tariff, guard, 0)?;
        while self.decisions.height() > 0 {
            self.turn(pruner, tariff, guard)?;
        }
        Ok(())
    }

    // Visits the part-plan of the first cases, as many as there are open decisions: one step, and then a complete plan is
    // compared with the ceiling, and any other is asked about. Where that is dead, the sets go back down to `mark`; else
    // the new sets are adopted, under a new open decision. What the search comes to from here on is the visit as it is
    // written down, and then the rest of the search, with the saved sets put back down to `mark`.
    fn enter<P: Pruner, T: Tariff>(
        &mut self,
        pruner: &P,
        tariff: &T,
        guard: &mut CeilingGuard,
        mark: usize,
    ) -> Result<(), LimitReached>
        requires { mark ≤ self.old.trail.saved.height }
        ensures visited { outcome_from (T.Tariff.charges tariff.now) (P.Pruner.prunes pruner.now) (is_err result) (ceiling_of guard.new) self.new ≡ visited_from (T.Tariff.charges tariff.now) (P.Pruner.prunes pruner.now) mark (ceiling_of guard.old) self.old }
        ensures kept { Kept self.old self.new }
        ensures guard { SameGuard guard.old guard.new }
        ensures less { is_err result ≡ false → remaining self.new < remaining self.old }
    {
        self.tally.count_step(self.limit)?;
        if self.decisions.height() == self.trail.sheet.count {
            let trail = &self.trail;
            let sum = plan_total(tariff, &trail.sheet, &self.plan);
            self.tally.compare(guard, &self.plan, sum);
            self.trail.put_back(mark);
            return Ok(());
        }
        let Some(new) = new_sets(pruner, tariff, guard.value(), &self.trail.sheet) else {
            self.trail.put_back(mark);
            return Ok(());
        };
        self.trail.adopt(&new);
        put(&mut self.decisions, Decision { mark, next: 0 });
        Ok(())
    }

    // One turn: the latest open decision tries its next slot, or is left where no slot remains. What the search comes to
    // stays the same.
    #[tactic(auto, using(crate::proofs::Words::part_one))]
    fn turn<P: Pruner, T: Tariff>(
        &mut self,
        pruner: &P,
        tariff: &T,
        guard: &mut CeilingGuard,
    ) -> Result<(), LimitReached>
        requires { 0 < self.old.decisions.height }
        ensures turned { outcome_from (T.Tariff.charges tariff.now) (P.Pruner.prunes pruner.now) (is_err result) (ceiling_of guard.new) self.new ≡ outcome_from (T.Tariff.charges tariff.now) (P.Pruner.prunes pruner.now) false (ceiling_of guard.old) self.old }
        ensures kept { Kept self.old self.new }
        ensures guard { SameGuard guard.old guard.new }
        ensures less { is_err result ≡ false → remaining self.new < remaining self.old }
    {
        let latest = take_latest(&mut self.decisions);
        let depth = self.decisions.height();
        let word = self.trail.sheet.sets[depth];
        let Some(slot) = next_slot(&self.plan[..depth], word, latest.next) else {
            self.trail.put_back(latest.mark);
            return Ok(());
        };
        put(&mut self.decisions, latest.tried(slot));
        self.plan[depth] = slot;
        let mark = self.trail.mark();
        self.trail.change(depth, only(slot));
        self.enter(pruner, tariff, guard, mark)
    }
}

// The pruner's answer, of which the search needs only that each new set is a part of the old one.
fn new_sets<P: Pruner, T: Tariff>(
    pruner: &P,
    tariff: &T,
    ceiling: i64,
    sheet: &WorkingSheet,
) -> Option<[u64; 16]>
    ensures meaning { first_sets sheet.now.count result ≡ P.Pruner.prunes pruner.now (given sheet.now (T.Tariff.charges tariff.now)) ceiling (sets_in sheet.now) }
    ensures part { (es : List ℕ) → result ≡ Some es → Parts (take sheet.now.count es) (sets_in sheet.now) }
{
    ask(pruner, tariff, ceiling, sheet)
}
