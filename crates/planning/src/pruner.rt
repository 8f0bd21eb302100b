ghost use Rattle.std.specs.Prelude.{◌≡◌};
ghost use Rattle.planning.specs.Pruners.{Prune, Lawful};
ghost use Rattle.planning.specs.Working.{sets_in, given, first_sets, RestKept, KeptPoints};

use crate::working_sheet::WorkingSheet;
use tariff::Tariff;

// A pruner looks at the working sets of a part-plan and strikes slots that no plan within the ceiling can use,
// or says that there is no such plan ("dead"). It changes nothing, and is never refused.
pub trait Pruner {
    // what it answers, as a function of what it holds and is given; the tariff by its charges
    ghost prunes: { Self → Prune };

    // The new sets of the standing cases, or nothing for "dead".
    fn prune<T: Tariff>(&self, tariff: &T, ceiling: i64, work: &WorkingSheet) -> Option<[u64; 16]>
        ensures rest { RestKept work.now.count work.now.sets result }
        ensures meaning { first_sets work.now.count result ≡ prunes self.now (given work.now (T.Tariff.charges tariff.now)) ceiling (sets_in work.now) };

    // each new set is a part of the old one; each plan drawn from the old sets, within the ceiling, can be
    // drawn from the new ones; it is dead only if there is no such plan
    ghost lawful: { (p : Self) → Lawful (prunes p) };
}

// Asks any pruner. Whatever it is, and with whatever tariff: its new sets are parts of the old ones, no plan within the
// ceiling is lost, and it is dead only where there is none.
pub fn ask<P: Pruner, T: Tariff>(
    pruner: &P,
    tariff: &T,
    ceiling: i64,
    work: &WorkingSheet,
) -> Option<[u64; 16]>
    ensures meaning { first_sets work.now.count result ≡ P.Pruner.prunes pruner.now (given work.now (T.Tariff.charges tariff.now)) ceiling (sets_in work.now) }
    ensures points { KeptPoints work.now (given work.now (T.Tariff.charges tariff.now)) ceiling result }
{
    pruner.prune(tariff, ceiling, work)
}
