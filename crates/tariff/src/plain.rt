ghost use Rattle.tariff.specs.Charges.{plain};
ghost use Rattle.tariff.specs.Tariffs.{plain_lawful};

use crate::ranges::{units_at, within_ranges};
use crate::tariff::Tariff;

// The plain tariff: need times price.
#[derive(Clone, Copy)]
pub struct Plain;

impl Tariff for Plain {
    const GREATEST: i64 = 1_000_000_000;

    ghost greatest = { 1000000000 };

    ghost charges = { λ _. plain };

    ghost lawful = { λ t. plain_lawful };

    fn greatest_charge(&self) -> i64 {
        Self::GREATEST
    }

    fn charge(&self, need: u64, price: i64) -> i64 {
        if !within_ranges(need, price) {
            return 0;
        }
        units_at(need, price)
    }
}

#[cfg(test)]
mod tests {
    use super::*;
    use crate::block::Block;

    #[test]
    fn plain_at_the_edges(rt: HostRuntime) {
        let t = Plain;
        assert!(rt; t.charge(1, 50000) == 50000 && t.charge(1, -50000) == -50000);
        assert!(rt;
            t.charge(20000, 50000) == 1_000_000_000 && t.charge(20000, -50000) == -1_000_000_000
        );
        assert!(rt; t.charge(0, 50000) == 0 && t.charge(20001, 50000) == 0);
        assert!(rt; t.charge(1, 50001) == 0 && t.charge(1, -50001) == 0);
        assert!(rt;
            t.charge(u64::MAX, 1) == 0 && t.charge(1, i64::MAX) == 0 && t.charge(1, i64::MIN) == 0
        );
        assert!(rt; t.charge(7, 0) == 0 && t.greatest_charge() == 1_000_000_000);
    }

    fn blocks_of(length: u64, need: u64, price: i64) -> Option<i64> {
        let tariff = Block::try_from(length).ok()?;
        Some(tariff.charge(need, price))
    }

    #[test]
    fn blocks_at_the_edges(rt: HostRuntime) {
        assert!(rt; blocks_of(1, 20000, -50000) == Some(-1_000_000_000));
        assert!(rt;
            blocks_of(1000, 1, 50000) == Some(50000) && blocks_of(1000, 1000, 3) == Some(3)
        );
        assert!(rt; blocks_of(1000, 1001, 3) == Some(6) && blocks_of(1000, 20000, -3) == Some(-60));
        assert!(rt; blocks_of(10, 0, 5) == Some(0) && blocks_of(10, 20001, 5) == Some(0));
        assert!(rt; blocks_of(10, u64::MAX, 5) == Some(0) && blocks_of(10, 5, i64::MIN) == Some(0));
    }

    #[test]
    fn block_lengths(rt: HostRuntime) {
        assert!(rt; blocks_of(0, 5, 5) == None && blocks_of(1001, 5, 5) == None);
        assert!(rt; blocks_of(u64::MAX, 5, 5) == None && blocks_of(7, 15, 2) == Some(6));
    }
}
