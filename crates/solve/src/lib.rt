// One solve of a sheet.
#![tactic(auto)]

ghost use Rattle.std.specs.Prelude.{◌≡◌, length};
ghost use Rattle.sheet.specs.Contents.{contents};
ghost use Rattle.solve.specs.Solved.{request, opening};
ghost use Rattle.solve.specs.Right.{ListsKept, SameLists, Solves};

mod answer;
mod line;
mod lists;
mod opening;
mod writing;

pub use answer::{Answer, Best};
use ceiling::Ceiling;
pub use line::Line;
pub use lists::Lists;
use opening::check_opening;
use planning::{Pruner, WorkingSheet};
use refusal::Refusal;
use search::explore;
use sheet::Sheet;
use tariff::Tariff;
use writing::finish;

// Searches for the cheapest plan of a sheet within the ceiling, after the opening checks. With a best plan, its lines stand
// in the first places of the plan list. However it ends, the ceiling record reads as before.
pub fn solve<T: Tariff, P: Pruner>(
    sheet: &Sheet,
    tariff: &T,
    pruner: &P,
    ceiling: &mut Ceiling,
    limit: u64,
    lists: &mut Lists,
) -> Result<Answer, Refusal>
    ensures solves { Solves (contents sheet.now) (request (T.Tariff.charges tariff.now) (P.Pruner.prunes pruner.now) ceiling.old.value limit (length lists.old.plan.now) (length lists.old.saved.now) (length lists.old.decisions.now)) lists.old.plan.now lists.new.plan.now result }
    ensures ceiling { ceiling.new ≡ ceiling.old }
    ensures lists { ListsKept (opening (contents sheet.now) (request (T.Tariff.charges tariff.now) (P.Pruner.prunes pruner.now) ceiling.old.value limit (length lists.old.plan.now) (length lists.old.saved.now) (length lists.old.decisions.now))) lists.old.saved.now lists.new.saved.now lists.old.decisions.now lists.new.decisions.now }
    ensures lent { SameLists lists.old lists.new }
{
    let work = WorkingSheet::new(sheet);
    check_opening(work.count, lists, limit, ceiling)?;
    let Some(outcome) = explore(
        pruner,
        tariff,
        ceiling,
        limit,
        &work,
        lists.saved,
        lists.decisions,
    ) else {
        unreachable()
    };
    finish(tariff, &work, &outcome, lists.plan)
}
