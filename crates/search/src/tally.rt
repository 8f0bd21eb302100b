ghost use Rattle.std.specs.Prelude.{◌≡◌, ◌<◌, ◌≤◌, pos, negsuc, ◌-ℤ◌, ◌≤ℤ◌, if◌then◌else◌, int_le};
ghost use Rattle.search.specs.Counts.{CountedStep, SameGuard, bettered, ceiling_of};

use ceiling::CeilingGuard;

// What a search has counted and kept so far.
#[derive(Clone, Copy)]
pub(crate) struct Tally {
    // the visited part-plans
    pub(crate) steps: u64,
    // the times that a plan became the best
    pub(crate) betterings: u64,
    // the slots of the best plan so far, case by case
    pub(crate) best: Option<[usize; 16]>,
}

// The step limit ends the search before it is through.
#[derive(Clone, Copy)]
pub(crate) struct LimitReached;

impl Tally {
    // Nothing visited yet.
    pub(crate) const EMPTY: Tally = Tally {
        steps: 0,
        betterings: 0,
        best: None,
    };

    // Counts one step, unless the count already equals the limit.
    pub(crate) fn count_step(&mut self, limit: u64) -> Result<(), LimitReached>
        requires { self.old.steps ≤ limit }
        ensures { CountedStep result limit self.old self.new }
    {
        if self.steps == limit {
            return Err(LimitReached);
        }
        self.steps += 1;
        Ok(())
    }

    // A plan within the ceiling becomes the best, and the ceiling goes just below its total.
    pub(crate) fn compare(&mut self, guard: &mut CeilingGuard, plan: &[usize; 16], sum: i64)
        requires few { self.old.betterings < self.old.steps }
        requires low { negsuc 16000000000000 ≤ℤ sum }
        ensures tally { self.new ≡ (if int_le sum (ceiling_of guard.old) then bettered plan.now self.old else self.old) }
        ensures value { ceiling_of guard.new ≡ (if int_le sum (ceiling_of guard.old) then sum -ℤ pos 1 else ceiling_of guard.old) }
        ensures guard { SameGuard guard.old guard.new }
    {
        if sum <= guard.value() {
            guard.tighten(sum - 1);
            self.betterings += 1;
            self.best = Some(*plan);
        }
    }
}
