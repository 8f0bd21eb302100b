ghost use Rattle.std.specs.Prelude.{◌≡◌, length};
ghost use Rattle.planning.specs.Pruners.{Prune};
ghost use Rattle.tariff.specs.Charges.{Charge};
ghost use Rattle.solve.specs.Solved.{request, checked, passed_or};

use crate::lists::Lists;
use ceiling::Ceiling;
use refusal::Refusal;

// The opening checks of a solve of so many standing cases: the first that hits refuses it. The tariff and the pruner
// have no part in it.
pub(crate) fn check_opening(
    cases: usize,
    lists: &Lists,
    limit: u64,
    ceiling: &Ceiling,
) -> Result<(), Refusal>
    ensures { (w : Charge) (f : Prune) → result ≡ passed_or (checked cases (request w f ceiling.now.value limit (length lists.now.plan.now) (length lists.now.saved.now) (length lists.now.decisions.now))) }
{
    if lists.plan.len() < cases {
        return Err(Refusal::PlanListShort);
    }
    if lists.saved.len() < 1024 {
        return Err(Refusal::SavedListShort);
    }
    if lists.decisions.len() < 16 {
        return Err(Refusal::DecisionListShort);
    }
    if limit == 0 || limit > 1_000_000_000 {
        return Err(Refusal::LimitRange);
    }
    if ceiling.value < -1_000_000_000_000_000 || ceiling.value > 1_000_000_000_000_000 {
        return Err(Refusal::CeilingRange);
    }
    Ok(())
}
