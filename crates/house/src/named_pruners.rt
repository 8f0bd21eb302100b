ghost use Rattle.house.specs.Chosen.{pruner_of, pile_of, named, piled};
ghost use Rattle.bound.proofs.House.{house_lawful};

use bound::Bound;
use planning::{Pile, Pruner, WorkingSheet};
use pruners::{Distinct, Sum};
use tariff::Tariff;

#[derive(Clone, Copy, PartialEq, Eq, Debug)]
pub enum HousePruner {
    Distinct,
    Sum,
    Bound,
}

impl Pruner for HousePruner {
    ghost prunes = { pruner_of };

    ghost lawful = { λ p. house_lawful (named p) };

    fn prune<T: Tariff>(&self, tariff: &T, ceiling: i64, work: &WorkingSheet) -> Option<[u64; 16]> {
        match self {
            HousePruner::Distinct => Distinct.prune(tariff, ceiling, work),
            HousePruner::Sum => Sum.prune(tariff, ceiling, work),
            HousePruner::Bound => Bound.prune(tariff, ceiling, work),
        }
    }
}

// One to three pruners of the house, piled first to last.
#[derive(Clone, Copy, PartialEq, Eq, Debug)]
pub enum HousePile {
    One(HousePruner),
    Two(HousePruner, HousePruner),
    Three(HousePruner, HousePruner, HousePruner),
}

impl Pruner for HousePile {
    ghost prunes = { pile_of };

    ghost lawful = { λ p. house_lawful (piled p) };

    fn prune<T: Tariff>(&self, tariff: &T, ceiling: i64, work: &WorkingSheet) -> Option<[u64; 16]> {
        match *self {
            HousePile::One(only) => only.prune(tariff, ceiling, work),
            HousePile::Two(first, second) => Pile { first, second }.prune(tariff, ceiling, work),
            HousePile::Three(first, second, third) => {
                let rest = Pile {
                    first: second,
                    second: third,
                };
                Pile {
                    first,
                    second: rest,
                }
                .prune(tariff, ceiling, work)
            }
        }
    }
}
