ghost use Rattle.std.specs.Prelude.{◌≡◌, ℕ, ◌+◌, ◌^◌, ◌<◌, ◌≤◌, length, take, slice_index, slice_set};
ghost use Rattle.stack.specs.Entries.{held};
ghost use Rattle.planning.specs.Pruners.{Part, Parts};
ghost use Rattle.planning.specs.Working.{sets_in};
ghost use Rattle.search.specs.Trails.{Alike, Since, saved_at, sets_at, Restored};

use crate::entries::{put, take_latest};
use crate::saving::Saved;
use crate::trail::Trail;
use planning::WorkingSheet;
use stack::Stack;

impl<'a> Trail<'a> {
    // A sheet that is not changed yet.
    #[tactic(auto, using(crate::proofs::Start::through_start))]
    pub(crate) fn over(sheet: &WorkingSheet, places: &'a mut [Saved]) -> Trail<'a>
        requires { 1024 ≤ length places.old }
        ensures sheet { result.sheet ≡ sheet.now }
        ensures height { result.saved.height ≡ 0 }
    {
        sets_fit(&sheet.sets);
        Trail {
            sheet: *sheet,
            saved: Stack::over(places),
        }
    }

    // The mark of where it is now, to which the changes from here on can be put back.
    pub(crate) fn mark(&self) -> usize
        ensures { result ≡ self.now.saved.height }
    {
        self.saved.height()
    }

    // Gives a row a part of its set, and saves the set where the part is another. A part that is another has fewer
    // slots, so that 1,024 places always suffice.
    #[tactic(auto, using(crate::proofs::Undone::change_through))]
    pub(crate) fn change(&mut self, row: usize, word: u64)
        requires row { row < 16 }
        requires part { Part word (slice_index self.old.sheet.sets row) }
        ensures sets { self.new.sheet.sets ≡ slice_set self.old.sheet.sets row word }
        ensures sheet { Alike self.old.sheet self.new.sheet }
        ensures since { Since self.old self.new }
    {
        let Trail { sheet, saved } = self;
        let slots = sheet.sets[row];
        if slots != word {
            put(saved, Saved { row, slots });
            sheet.sets[row] = word;
        }
    }

    // Gives the standing cases new sets, each a part of its old one.
    pub(crate) fn adopt(&mut self, new: &[u64; 16])
        requires { Parts (take self.old.sheet.count new.now) (sets_in self.old.sheet) }
        ensures sets { sets_in self.new.sheet ≡ take self.old.sheet.count new.now }
        ensures sheet { Alike self.old.sheet self.new.sheet }
        ensures since { Since self.old self.new }
    {
        for (row, word) in new[..self.sheet.count].iter().enumerate() {
            self.change(row, *word);
        }
    }

    // Puts the saved sets back, the latest first, down to a mark.
    #[tactic(auto, using(crate::proofs::Undone::sets_low, crate::proofs::Undone::saved_low, crate::proofs::Undone::sets_restored, crate::proofs::Undone::saved_restored, crate::proofs::Undone::alike_then))]
    pub(crate) fn put_back(&mut self, mark: usize)
        ensures sets { self.new.sheet.sets ≡ sets_at mark self.old }
        ensures saved { held self.new.saved ≡ saved_at mark self.old }
        ensures sheet { Alike self.old.sheet self.new.sheet }
    {
        while self.mark() > mark {
            self.restore();
        }
    }

    // Puts the latest saved set back.
    fn restore(&mut self)
        requires { 0 < self.old.saved.height }
        ensures lower { self.old.saved.height ≡ self.new.saved.height + 1 }
        ensures restored { Restored self.old self.new }
        ensures sheet { Alike self.old.sheet self.new.sheet }
    {
        let Trail { sheet, saved } = self;
        let entry = take_latest(saved);
        if entry.row < 16 {
            sheet.sets[entry.row] = entry.slots;
        }
    }
}

// Does nothing. A set in a table has at most 64 slots, which a proof sees only where the table is passed.
fn sets_fit(sets: &[u64; 16])
    ensures { (i : ℕ) → slice_index sets.now i < 2 ^ 64 }
{
    passed(sets);
}

fn passed(_sets: &[u64; 16]) {}
