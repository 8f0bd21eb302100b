// Sets of slots. A slot is one place of the day that takes one case, by its number from 0 to 63;
// a set is a 64-bit word in which slot s weighs 2^s.
#![tactic(auto)]

ghost use Rattle.std.specs.Prelude.{◌≡◌, ℕ, ◌<◌, Bool, true, false, not, ◌&&◌, ◌||◌, ◌==◌, length, bit_and, nat_lt, Some, None};
ghost use Rattle.slot_set.specs.Sets.{has, keep, members, some_empty, NoSlot, SomeSlot, OnlySlot};

#[derive(Clone, Copy, PartialEq, Eq, Debug, Default)]
pub struct SlotSet {
    word: u64,
}

// The set of a word.
impl From<u64> for SlotSet {
    ghost from_gives = { λ word set. set.word ≡ word };

    fn from(word: u64) -> SlotSet {
        SlotSet { word }
    }
}

// The word of a set.
impl From<SlotSet> for u64 {
    ghost from_gives = { λ set word. word ≡ set.word };

    fn from(set: SlotSet) -> u64 {
        set.word
    }
}

impl SlotSet {
    // No set has a slot above 63.
    #[tactic(auto, using(crate::proofs::Words::has_past))]
    pub fn contains(&self, slot: usize) -> bool
        ensures { result ≡ has self.now.word slot }
    {
        let word = self.word;
        slot < 64 && (word >> slot) & 1 == 1
    }

    #[tactic(auto, using(crate::proofs::Words::has_none, crate::proofs::Words::has_some))]
    pub fn is_empty(&self) -> bool
        ensures word { result ≡ (self.now.word == 0) }
        ensures slots { (result ≡ true → NoSlot self.now.word) × (result ≡ false → SomeSlot self.now.word) }
    {
        self.word == 0
    }

    // How many slots it has.
    #[tactic(auto, using(crate::proofs::Counts::count_members))]
    pub fn len(&self) -> usize
        ensures { result ≡ length (members self.now.word) }
    {
        self.word.count_ones() as usize
    }

    // Its slot, where it has exactly one.
    #[tactic(auto, using(crate::proofs::Lowest::one_single, crate::proofs::Lowest::one_below, crate::proofs::Lowest::one_held, crate::proofs::Lowest::not_single))]
    pub fn only(&self) -> Option<usize>
        ensures { OnlySlot self.now.word result }
    {
        if self.word.count_ones() != 1 {
            return None;
        }
        Some(self.word.trailing_zeros() as usize)
    }

    // The set with one slot more. A slot above 63 is in no set, and adds nothing.
    #[tactic(auto, using(crate::proofs::Words::has_with))]
    pub fn with(self, slot: usize) -> SlotSet
        ensures { (s : ℕ) → has result.word s ≡ (has self.word s || (nat_lt slot 64 && s == slot)) }
    {
        if slot >= 64 {
            return self;
        }
        SlotSet {
            word: self.word | (1 << slot),
        }
    }

    // The slots that both sets have.
    #[tactic(auto, using(crate::proofs::Words::has_and))]
    pub fn intersection(self, other: SlotSet) -> SlotSet
        ensures word { result.word ≡ bit_and self.word other.word }
        ensures slots { (s : ℕ) → has result.word s ≡ (has self.word s && has other.word s) }
    {
        SlotSet {
            word: self.word & other.word,
        }
    }

    // The slots that one of the sets has.
    #[tactic(auto, using(crate::proofs::Words::has_or))]
    pub fn union(self, other: SlotSet) -> SlotSet
        ensures { (s : ℕ) → has result.word s ≡ (has self.word s || has other.word s) }
    {
        SlotSet {
            word: self.word | other.word,
        }
    }

    // The slots that the other set lacks.
    #[tactic(auto, using(crate::proofs::Words::has_without))]
    pub fn difference(self, other: SlotSet) -> SlotSet
        ensures { (s : ℕ) → has result.word s ≡ (has self.word s && not (has other.word s)) }
    {
        SlotSet {
            word: self.word & !other.word,
        }
    }

    // The slots that pass a test. Whatever test the closure computes, it is that one.
    pub fn filter<F: Fn(usize) -> bool>(self, keeps: F) -> SlotSet
        requires { (s : ℕ) → s < 64 → F.pre keeps s }
        ensures { (p : ℕ → Bool) → ((s : ℕ) (b : Bool) → s < 64 → F.post keeps s b → b ≡ p s) → result.word ≡ keep p self.word }
    {
        let mut kept = SlotSet::default();
        for slot in 0..64 {
            if self.contains(slot) && keeps(slot) {
                kept = kept.with(slot);
            }
        }
        kept
    }
}

// Whether one of the sets is empty.
pub fn any_empty(sets: &[u64]) -> bool
    ensures { result ≡ some_empty sets.now }
{
    sets.contains(&0)
}
