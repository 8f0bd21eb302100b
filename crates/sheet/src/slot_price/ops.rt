ghost use Rattle.std.specs.Prelude.{◌≡◌, Some, None, MatchResult};
ghost use Rattle.sheet.specs.Edits.{price_refusal};

use crate::slot_price::SlotPrice;
use refusal::Refusal;

// This price, unless it is out of range.
impl TryFrom<i64> for SlotPrice {
    type Error = Refusal;

    ghost try_from_gives = { λ price r. MatchResult r (λ p. (price_refusal price ≡ None) × (p.amount ≡ price)) (λ e. price_refusal price ≡ Some e) };

    fn try_from(price: i64) -> Result<SlotPrice, Refusal> {
        if price < -50000 || price > 50000 {
            return Err(Refusal::PriceRange);
        }
        Ok(SlotPrice {
            amount: price as i32,
        })
    }
}

impl SlotPrice {
    pub fn amount(&self) -> i64
        ensures { result ≡ self.now.amount }
    {
        i64::from(self.amount)
    }
}
