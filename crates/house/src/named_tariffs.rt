ghost use Rattle.house.specs.Chosen.{charges_of};
ghost use Rattle.tariff.specs.Tariffs.{plain_lawful, block_lawful};
ghost use Rattle.house.specs.declared.named_tariffs.HouseTariff.TheVariants.{Plain, Block};

use tariff::{Block, Plain, Tariff};

#[derive(Clone, Copy, PartialEq, Eq, Debug)]
pub enum HouseTariff {
    Plain,
    Block(Block),
}

impl Tariff for HouseTariff {
    const GREATEST: i64 = 1_000_000_000;

    ghost greatest = { 1000000000 };

    ghost charges = { charges_of };

    ghost lawful = { elim [ Plain ↦ plain_lawful | Block b ↦ block_lawful b.length b.some ] };

    fn greatest_charge(&self) -> i64 {
        Self::GREATEST
    }

    fn charge(&self, need: u64, price: i64) -> i64 {
        match self {
            HouseTariff::Plain => Plain.charge(need, price),
            HouseTariff::Block(block) => block.charge(need, price),
        }
    }
}
