ghost use Rattle.std.specs.Prelude.{◌≡◌, Some, None, MatchResult};
ghost use Rattle.refusal.specs.declared.Refusal.{Refusal as Refused};
ghost use Rattle.sheet.specs.Contents.{entry, entry_of};
ghost use Rattle.sheet.specs.Edits.{case_refusal, slots_refusal, answer};

use crate::case::Case;
use refusal::Refusal;
use slot_set::SlotSet;

impl Case {
    // A case of this need and allowed set, unless one of them is refused.
    pub fn new(need: u64, allowed: u64) -> Result<Case, Refusal>
        ensures { MatchResult result (λ c. (case_refusal need allowed ≡ None) × (entry c ≡ entry_of need allowed)) (λ e. case_refusal need allowed ≡ Some e) }
    {
        if need < 1 || need > 20000 {
            return Err(Refusal::NeedRange);
        }
        if allowed == 0 {
            return Err(Refusal::NoSlots);
        }
        Ok(Case {
            need: need as u32,
            allowed: SlotSet::from(allowed),
        })
    }

    pub fn need(&self) -> u64
        ensures { result ≡ (entry self.now).need }
    {
        u64::from(self.need)
    }

    pub fn allowed(&self) -> SlotSet
        ensures { result.word ≡ (entry self.now).allowed }
    {
        self.allowed
    }

    // Replaces the allowed set, and leaves the need.
    pub fn allow(&mut self, allowed: u64) -> Result<(), Refusal>
        ensures said { result ≡ answer (slots_refusal allowed) }
        ensures left { MatchResult result (λ _. entry self.new ≡ entry_of (entry self.old).need allowed) (λ _. self.new ≡ self.old) }
    {
        if allowed == 0 {
            return Err(Refusal::NoSlots);
        }
        *self = Case {
            need: self.need,
            allowed: SlotSet::from(allowed),
        };
        Ok(())
    }
}
