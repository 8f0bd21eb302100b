ghost use Rattle.std.specs.Prelude.{◌≡◌, ◌<◌, ◌≤◌, MatchResult};
ghost use Rattle.refusal.specs.declared.Refusal.TheVariants.{BlockRange};
ghost use Rattle.tariff.specs.Charges.{Need, blocks, block};
ghost use Rattle.tariff.specs.Tariffs.{block_lawful};

use crate::block::Block;
use crate::ranges::{units_at, within_ranges};
use crate::tariff::Tariff;
use refusal::Refusal;

// The tariff of this block length, unless it is outside 1 to 1,000.
impl TryFrom<u64> for Block {
    type Error = Refusal;

    ghost try_from_gives = { λ length r. MatchResult r (λ b. (b.length ≡ length) × (1 ≤ length) × (length ≤ 1000)) (λ e. (e ≡ BlockRange) × (1 ≤ length → length ≤ 1000 → ⊥)) };

    fn try_from(length: u64) -> Result<Block, Refusal> {
        if length < 1 || length > 1000 {
            return Err(Refusal::BlockRange);
        }
        Ok(Block { length })
    }
}

impl Block {
    pub fn length(&self) -> u64
        ensures { result ≡ self.now.length }
    {
        self.length
    }
}

impl Tariff for Block {
    const GREATEST: i64 = 1_000_000_000;

    ghost greatest = { 1000000000 };

    ghost charges = { λ t. block t.length };

    ghost lawful = { λ t. block_lawful t.length t.some };

    fn greatest_charge(&self) -> i64 {
        Self::GREATEST
    }

    fn charge(&self, need: u64, price: i64) -> i64 {
        if !within_ranges(need, price) {
            return 0;
        }
        units_at(begun(self.length, need), price)
    }
}

// How many blocks a need begins.
#[tactic(auto, using(crate::specs::Tariffs::blocks_few))]
fn begun(length: u64, need: u64) -> u64
    requires some { 1 ≤ length }
    requires short { length ≤ 1000 }
    requires need { 1 ≤ need }
    requires little { need ≤ 20000 }
    ensures value { result ≡ blocks length need }
    ensures few { result ≤ need }
{
    (need + (length - 1)) / length
}
