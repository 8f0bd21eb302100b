ghost use Rattle.std.specs.Prelude.{◌≡◌, ◌≤◌, length, take};
ghost use Rattle.std.specs.Option.{option_map};
ghost use Rattle.planning.specs.Working.{given};
ghost use Rattle.solve.specs.Lines.{written};
ghost use Rattle.solve.specs.Solved.{answered, listed};

use crate::answer::{Answer, Best};
use crate::line::Line;
use planning::{WorkingSheet, charge_at};
use refusal::Refusal;
use search::{Outcome, plan_total};
use tariff::Tariff;

// The answer to a search that came to this, with the lines of its best plan, if it has one.
pub(crate) fn finish<T: Tariff>(
    tariff: &T,
    work: &WorkingSheet,
    outcome: &Outcome,
    plan: &mut [Line],
) -> Result<Answer, Refusal>
    requires { work.now.count ≤ length plan.old }
    ensures answer { result ≡ answered (given work.now (T.Tariff.charges tariff.now)) (option_map (take work.now.count) outcome.now.best) outcome.now.stopped outcome.now.steps outcome.now.betterings }
    ensures lines { plan.new ≡ listed (given work.now (T.Tariff.charges tariff.now)) (take work.now.count work.now.rows) work.now.count (option_map (take work.now.count) outcome.now.best) plan.old }
{
    let steps = outcome.steps;
    match &outcome.best {
        Some(slots) => {
            write_lines(tariff, work, &slots[..work.count], plan);
            let best = Best {
                total: plan_total(tariff, work, slots),
                steps,
                betterings: outcome.betterings,
            };
            if outcome.stopped {
                Ok(Answer::Stopped(best))
            } else {
                Ok(Answer::Cheapest(best))
            }
        }
        None if outcome.stopped => Ok(Answer::StoppedEmpty(steps)),
        None => Err(Refusal::NoPlan(steps)),
    }
}

// Writes a line for each standing case into the first places, and leaves the later ones.
fn write_lines<T: Tariff>(tariff: &T, work: &WorkingSheet, slots: &[usize], plan: &mut [Line])
    requires cases { length slots.now ≡ work.now.count }
    requires places { work.now.count ≤ length plan.old }
    ensures { plan.new ≡ written (given work.now (T.Tariff.charges tariff.now)) (take work.now.count work.now.rows) slots.now work.now.count plan.old }
{
    for (case, slot) in slots.iter().enumerate() {
        plan[case] = Line {
            row: work.rows[case],
            slot: *slot,
            charge: charge_at(tariff, &work.prices, work.needs[case], *slot),
        };
    }
}
