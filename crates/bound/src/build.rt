ghost use Rattle.std.specs.Prelude.{◌≡◌, ℕ, ◌≤◌, length};
ghost use Rattle.slot_set.specs.Sets.{has};
ghost use Rattle.bound.specs.Bound.{free_of, in_some, union};
ghost use Rattle.bound.specs.Figures.{RightFigures};
ghost use Rattle.bound.specs.Tables.{rows_in};

use crate::figures::Figures;
use crate::placed::{needs_by_place, prices_by_place};
use crate::ranks::{case_ranks, slot_ranks};
use crate::running::{running_sums, sum_of_fixed};
use planning::WorkingSheet;
use slot_set::SlotSet;
use tariff::Tariff;

// The figures of a working sheet of `n` free cases, whose slots are `slots`.
#[tactic(auto, using(crate::proofs::Filling::free_few))]
pub(crate) fn figures_of<T: Tariff>(
    tariff: &T,
    work: &WorkingSheet,
    n: usize,
    slots: SlotSet,
) -> Figures
    requires cases { n ≡ length (free_of (rows_in work.now)) }
    requires slots { (s : ℕ) → has slots.word s ≡ in_some (free_of (rows_in work.now)) s }
    requires enough { n ≤ length (union (rows_in work.now)) }
    ensures { RightFigures work.now (T.Tariff.charges tariff.now) result }
{
    let case_ranks = case_ranks(work);
    let slot_ranks = slot_ranks(&work.prices, slots);
    let needs = needs_by_place(work, &case_ranks);
    let prices = prices_by_place(&work.prices, slots, &slot_ranks);
    let level = running_sums(tariff, &needs[..n], &prices);
    let lower = running_sums(tariff, &needs[1..=n], &prices);
    let upper = running_sums(tariff, &needs[..n], &prices[1..]);
    let fixed = sum_of_fixed(tariff, work);
    Figures {
        cases: n,
        fixed,
        level,
        lower,
        upper,
        ranks: case_ranks,
        slots: slot_ranks,
    }
}
