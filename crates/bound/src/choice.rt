ghost use Rattle.std.specs.Prelude.{◌≡◌, ◌<◌, ◌≤◌, pos, ◌+ℤ◌, ◌-ℤ◌, slice_index_or};
ghost use Rattle.tariff.specs.Charges.{Within};
ghost use Rattle.bound.specs.Figures.{Matching, chosen, last_rank, shifted, whole};
ghost use Rattle.bound.specs.Tables.{AllSmall};

use crate::figures::Figures;

impl Figures {
    // The bound.
    pub(crate) fn whole_bound(&self) -> i64
        ensures { result ≡ whole self.now }
    {
        self.fixed + self.level[self.cases]
    }

    // The sums with the cases from rank `a` to rank `b` moved.
    fn moved(&self, side: &[i64; 17], charge: i64, a: usize, b: usize) -> i64
        requires start { a ≤ 16 }
        requires end { b < 16 }
        requires side { AllSmall side.now }
        requires charge { Within 1000000000000 charge }
        ensures { result ≡ shifted self.now.fixed self.now.level side.now self.now.cases charge a b }
    {
        let before = total(self.fixed, self.level[a], charge);
        let between = difference(side, b, a);
        let after = difference(&self.level, self.cases, b + 1);
        total(before, between, after)
    }
}

// The choice of the slot of one rank for the case of another, at what the case is charged there.
#[derive(Drop)]
pub(crate) struct Choice<'a> {
    pub(crate) figures: &'a Figures,
    pub(crate) case: usize,
    pub(crate) slot: usize,
    pub(crate) charge: i64,
    ghost here: { case < figures.now.cases },
    ghost small: { Within 1000000000000 charge },
}

impl<'a> Choice<'a> {
    // The bound under the choice: what the other free cases cost when they are matched in order to the other slots.
    pub(crate) fn bound(&self) -> i64
        ensures formula { result ≡ chosen self.now.figures.now self.now.case self.now.slot self.now.charge }
        ensures matching { Matching self.now.figures.now self.now.case self.now.slot self.now.charge result }
    {
        self.bound_by_sums()
    }

    // The same from the running sums. The cases between the two ranks move by one slot, and the others stay.
    fn bound_by_sums(&self) -> i64
        ensures { result ≡ chosen self.now.figures.now self.now.case self.now.slot self.now.charge }
    {
        if self.slot == self.case {
            return self.figures.whole_bound();
        }
        if self.case < self.slot {
            return self.bound_at_later();
        }
        self.bound_at_earlier()
    }

    // A slot of a later rank than the case: the cases after it, up to the slot's rank, each take the slot before their own.
    fn bound_at_later(&self) -> i64
        ensures { result ≡ shifted self.now.figures.now.fixed self.now.figures.now.level self.now.figures.now.lower self.now.figures.now.cases self.now.charge self.now.case (last_rank self.now.slot self.now.figures.now.cases) }
    {
        let last = last_rank(self.slot, self.figures.cases);
        self.figures
            .moved(&self.figures.lower, self.charge, self.case, last)
    }

    // A slot of an earlier rank: the cases from the slot's rank up to the case each take the slot after their own.
    fn bound_at_earlier(&self) -> i64
        requires { self.now.slot < self.now.case }
        ensures { result ≡ shifted self.now.figures.now.fixed self.now.figures.now.level self.now.figures.now.upper self.now.figures.now.cases self.now.charge self.now.slot self.now.case }
    {
        self.figures
            .moved(&self.figures.upper, self.charge, self.slot, self.case)
    }
}

// The rank of the last case that moves: that of the slot, or of the last case.
fn last_rank(j: usize, n: usize) -> usize
    requires { 0 < n }
    ensures { result ≡ last_rank j n }
{
    if j < n { j } else { n - 1 }
}

fn difference(sums: &[i64; 17], high: usize, low: usize) -> i64
    requires high { high ≤ 16 }
    requires low { low ≤ 16 }
    requires small { AllSmall sums.now }
    ensures { result ≡ (slice_index_or sums.now high (pos 0) -ℤ slice_index_or sums.now low (pos 0)) }
{
    sums[high] - sums[low]
}

fn total(first: i64, second: i64, third: i64) -> i64
    requires first { Within 1000000000000000 first }
    requires second { Within 1000000000000000 second }
    requires third { Within 1000000000000000 third }
    ensures { result ≡ ((first +ℤ second) +ℤ third) }
{
    first + second + third
}
