ghost use Rattle.std.specs.Prelude.{◌≡◌};
ghost use Rattle.planning.specs.Working.{given, sets_in};
ghost use Rattle.search_rules.specs.Search.{searched};
ghost use Rattle.search.specs.Outcomes.{Answers, Unused, enough};

use crate::deciding::Decision;
use crate::exploration::Exploration;
use crate::outcome::Outcome;
use crate::saving::Saved;
use crate::tally::Tally;
use ceiling::{Ceiling, CeilingGuard};
use planning::{Pruner, WorkingSheet};
use tariff::Tariff;

// Searches the plans of a working sheet within the ceiling. It answers nothing where it is lent fewer than 1,024 places
// for saved entries or fewer than 16 for open decisions, and then leaves them alone; with so many it never wants more.
// Whatever the ceiling and the limit are, it answers what the search as it is written down comes to, and the ceiling
// record reads at exit as it did at entry.
pub fn explore<P: Pruner, T: Tariff>(
    pruner: &P,
    tariff: &T,
    ceiling: &mut Ceiling,
    limit: u64,
    work: &WorkingSheet,
    saved: &mut [Saved],
    decisions: &mut [Decision],
) -> Option<Outcome>
    ensures answer { Answers (enough saved.old decisions.old) work.now.count (searched (given work.now (T.Tariff.charges tariff.now)) (P.Pruner.prunes pruner.now) limit ceiling.old.value (sets_in work.now)) result }
    ensures saved { Unused result saved.old saved.new }
    ensures decisions { Unused result decisions.old decisions.new }
    ensures ceiling { ceiling.new ≡ ceiling.old }
{
    if saved.len() < 1024 || decisions.len() < 16 {
        return None;
    }
    let mut guard = CeilingGuard::over(ceiling);
    let mut search = Exploration::over(work, limit, saved, decisions);
    let stopped = search.finish(pruner, tariff, &mut guard).is_err();
    let Tally {
        steps,
        betterings,
        best,
    } = search.tally;
    Some(Outcome {
        steps,
        betterings,
        best,
        stopped,
    })
}
