ghost use Rattle.planning.specs.Pruners.{pile};
ghost use Rattle.planning.specs.Piles.{piles_lawful};

use crate::pruner::Pruner;
use crate::working_sheet::WorkingSheet;
use tariff::Tariff;

// A pile: a first and a second pruner, and a pruner again. The second is given the first's new sets; the pile is
// dead when either is, and otherwise its new sets are the second's. Piles nest to any depth.
#[derive(Clone, Copy)]
pub struct Pile<P, Q> {
    pub first: P,
    pub second: Q,
}

impl<P: Pruner, Q: Pruner> Pruner for Pile<P, Q> {
    ghost prunes = { λ p. pile (P.Pruner.prunes p.first) (Q.Pruner.prunes p.second) };

    ghost lawful = { λ p. piles_lawful (P.Pruner.prunes p.first) (Q.Pruner.prunes p.second) (P.Pruner.lawful p.first) (Q.Pruner.lawful p.second) };

    fn prune<T: Tariff>(&self, tariff: &T, ceiling: i64, work: &WorkingSheet) -> Option<[u64; 16]> {
        let next = self.first.prune(tariff, ceiling, work)?;
        let inner = work.with_sets(next);
        self.second.prune(tariff, ceiling, &inner)
    }
}
