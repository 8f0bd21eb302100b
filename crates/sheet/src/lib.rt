// The sheet: 16 rows for cases, 64 slots with prices, the five edits and the two questions.
#![tactic(auto)]

ghost use Rattle.std.specs.Prelude.{◌≡◌, ℕ, ◌<◌, ◌≤◌, not, map, ℤ, is_some, None, Option as Maybe, MatchResult, OnOk};
ghost use Rattle.std.specs.Option.{option_map};
ghost use Rattle.refusal.specs.declared.Refusal.TheVariants.{RowEmpty};
ghost use Rattle.slot_set.specs.Sets.{has};
ghost use Rattle.sheet.specs.Contents.{Entry, contents, entry, is_open, amount, new_sheet, case_in, price_in, with_row, with_slot};
ghost use Rattle.sheet.specs.Edits.{refusal as refusal_of, change, after, answer, check, slots_refusal, allowing};
ghost use Rattle.sheet.specs.Laws.{Done, OthersKept, UsableSet};
ghost use Rattle.sheet.specs.Undoing.{undone};
ghost use Rattle.sheet.specs.declared.edit.Edit.TheVariants.{Enter, Withdraw, Allow, Price, Close};

use refusal::Refusal;
use slot_set::SlotSet;

mod case;
mod edit;
mod slot_price;
mod undo;

pub use case::Case;
pub use edit::Edit;
pub use slot_price::SlotPrice;
pub use undo::Undo;

// A row is one of 16 places for a case, 0 to 15; a slot is closed where it has no price.
#[derive(Clone, Copy)]
pub struct Sheet {
    rows: [Option<Case>; 16],
    slots: [Option<SlotPrice>; 64],
}

impl Sheet {
    // Empty rows and closed slots.
    pub fn new() -> Sheet
        ensures { contents result ≡ new_sheet }
    {
        Sheet {
            rows: [None; 16],
            slots: [None; 64],
        }
    }

    // The case in a row, or nothing where the row is empty or above 15.
    pub fn case(&self, row: usize) -> Option<Case>
        ensures { option_map entry result ≡ case_in (contents self.now) row }
    {
        *self.rows.get(row)?
    }

    // The price of a slot, or nothing where it is closed or above 63.
    pub fn price_of(&self, slot: usize) -> Option<SlotPrice>
        ensures { option_map amount result ≡ price_in (contents self.now) slot }
    {
        *self.slots.get(slot)?
    }

    // The rows of the table, for whoever goes through all of them.
    pub fn rows(&self) -> &[Option<Case>; 16]
        ensures { map (option_map entry) result.now ≡ (contents self.now).rows }
    {
        &self.rows
    }

    // The slots of the table: the price of each, if it is open.
    pub fn slots(&self) -> &[Option<SlotPrice>; 64]
        ensures { map (option_map amount) result.now ≡ (contents self.now).prices }
    {
        &self.slots
    }

    pub fn open_slots(&self) -> SlotSet
        ensures { (slot : ℕ) → has result.word slot ≡ is_open (contents self.now) slot }
    {
        SlotSet::from(u64::MAX).filter(|slot| self.is_open(slot))
    }

    fn is_open(&self, slot: usize) -> bool
        ensures { result ≡ is_open (contents self.now) slot }
    {
        self.price_of(slot).is_some()
    }

    // The usable set of the case in a row: its allowed set without the closed slots. It may be empty.
    pub fn usable(&self, row: usize) -> Option<SlotSet>
        ensures { UsableSet (contents self.now) (case_in (contents self.now) row) result }
    {
        let case = self.case(row)?;
        Some(case.allowed().intersection(self.open_slots()))
    }

    // Puts a case into an empty row.
    #[tactic(auto, using(crate::proofs::Tables::row_written))]
    pub fn enter(&mut self, row: usize, need: u64, allowed: u64) -> Result<(), Refusal>
        ensures said { result ≡ answer (refusal_of (Enter row need allowed) (contents self.old)) }
        ensures left { contents self.new ≡ after (refusal_of (Enter row need allowed) (contents self.old)) (Enter row need allowed) (contents self.old) }
        ensures done { OnOk result (Done (Enter row need allowed) (contents self.old) (contents self.new)) }
    {
        if row > 15 {
            return Err(Refusal::RowRange);
        }
        if self.case(row).is_some() {
            return Err(Refusal::RowTaken);
        }
        let case = Case::new(need, allowed)?;
        self.rows[row] = Some(case);
        Ok(())
    }

    // Empties a row.
    #[tactic(auto, using(crate::proofs::Tables::row_written))]
    pub fn withdraw(&mut self, row: usize) -> Result<(), Refusal>
        ensures said { result ≡ answer (refusal_of (Withdraw row) (contents self.old)) }
        ensures left { contents self.new ≡ after (refusal_of (Withdraw row) (contents self.old)) (Withdraw row) (contents self.old) }
        ensures done { OnOk result (Done (Withdraw row) (contents self.old) (contents self.new)) }
    {
        if row > 15 {
            return Err(Refusal::RowRange);
        }
        if self.case(row).is_none() {
            return Err(Refusal::RowEmpty);
        }
        self.rows[row] = None;
        Ok(())
    }

    // Replaces the allowed set of one case, in its place in the table.
    pub fn allow(&mut self, row: usize, allowed: u64) -> Result<(), Refusal>
        ensures said { result ≡ answer (refusal_of (Allow row allowed) (contents self.old)) }
        ensures left { contents self.new ≡ after (refusal_of (Allow row allowed) (contents self.old)) (Allow row allowed) (contents self.old) }
        ensures done { OnOk result (Done (Allow row allowed) (contents self.old) (contents self.new)) }
    {
        if row > 15 {
            return Err(Refusal::RowRange);
        }
        allow_in(&mut self.rows[row], allowed)
    }

    // Opens a slot, or changes its price.
    #[tactic(auto, using(crate::proofs::Tables::slot_written))]
    pub fn price(&mut self, slot: usize, price: i64) -> Result<(), Refusal>
        ensures said { result ≡ answer (refusal_of (Price slot price) (contents self.old)) }
        ensures left { contents self.new ≡ after (refusal_of (Price slot price) (contents self.old)) (Price slot price) (contents self.old) }
        ensures done { OnOk result (Done (Price slot price) (contents self.old) (contents self.new)) }
    {
        if slot > 63 {
            return Err(Refusal::SlotRange);
        }
        let price = SlotPrice::try_from(price)?;
        self.slots[slot] = Some(price);
        Ok(())
    }

    // Closes an open slot.
    #[tactic(auto, using(crate::proofs::Tables::slot_written))]
    pub fn close(&mut self, slot: usize) -> Result<(), Refusal>
        ensures said { result ≡ answer (refusal_of (Close slot) (contents self.old)) }
        ensures left { contents self.new ≡ after (refusal_of (Close slot) (contents self.old)) (Close slot) (contents self.old) }
        ensures done { OnOk result (Done (Close slot) (contents self.old) (contents self.new)) }
    {
        if slot > 63 {
            return Err(Refusal::SlotRange);
        }
        if self.price_of(slot).is_none() {
            return Err(Refusal::SlotClosed);
        }
        self.slots[slot] = None;
        Ok(())
    }

    // Any of the five edits.
    pub fn apply(&mut self, edit: Edit) -> Result<(), Refusal>
        ensures said { result ≡ answer (refusal_of edit (contents self.old)) }
        ensures left { contents self.new ≡ after (refusal_of edit (contents self.old)) edit (contents self.old) }
        ensures done { OnOk result (Done edit (contents self.old) (contents self.new)) }
        ensures others { OnOk result (OthersKept edit (contents self.old) (contents self.new)) }
    {
        match edit {
            Edit::Enter(row, need, allowed) => self.enter(row, need, allowed),
            Edit::Withdraw(row) => self.withdraw(row),
            Edit::Allow(row, allowed) => self.allow(row, allowed),
            Edit::Price(slot, price) => self.price(slot, price),
            Edit::Close(slot) => self.close(slot),
        }
    }

    // What will undo an edit, asked before it is made.
    #[tactic(auto, using(crate::proofs::Tables::put_back))]
    pub fn undo_of(&self, edit: Edit) -> Undo
        ensures { refusal_of edit (contents self.now) ≡ None → undone result (change edit (contents self.now)) ≡ contents self.now }
    {
        match edit {
            Edit::Enter(row, _, _) | Edit::Withdraw(row) | Edit::Allow(row, _) => {
                Undo::Row(row, self.case(row))
            }
            Edit::Price(slot, _) | Edit::Close(slot) => Undo::Slot(slot, self.price_of(slot)),
        }
    }

    // Puts back what an undo entry holds.
    #[tactic(auto, using(crate::proofs::Tables::table_written))]
    pub fn undo(&mut self, back: Undo)
        ensures { contents self.new ≡ undone back (contents self.old) }
    {
        match back {
            Undo::Row(row, case) => {
                if row <= 15 {
                    self.rows[row] = case;
                }
            }
            Undo::Slot(slot, price) => {
                if slot <= 63 {
                    self.slots[slot] = price;
                }
            }
        }
    }
}

// Replaces the allowed set of the case in one row, where it stands.
fn allow_in(row: &mut Option<Case>, allowed: u64) -> Result<(), Refusal>
    ensures said { result ≡ answer (check (not (is_some row.old)) RowEmpty (slots_refusal allowed)) }
    ensures left { MatchResult result (λ _. option_map entry row.new ≡ allowing allowed (option_map entry row.old)) (λ _. row.new ≡ row.old) }
{
    let Some(case) = row else {
        return Err(Refusal::RowEmpty);
    };
    case.allow(allowed)
}
