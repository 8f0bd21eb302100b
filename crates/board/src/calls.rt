// The calls that a board takes whether a trial stands or not: the five edits and the two questions.
ghost use Rattle.std.specs.Prelude.{◌≡◌};
ghost use Rattle.std.specs.Option.{option_map};
ghost use Rattle.sheet.specs.Contents.{contents, entry, amount, case_in, price_in};
ghost use Rattle.sheet.specs.Edits.{answer};
ghost use Rattle.sheet.specs.declared.edit.Edit.TheVariants.{Enter, Withdraw, Allow, Price, Close};
ghost use Rattle.board.specs.Past.{Phase, Left, Taken.Edits, Taken.AsksCase, Taken.AsksPrice, called, edit_refusal, CarriesOn};

use refusal::Refusal;
use sheet::{Case, Edit, Sheet, SlotPrice};

// A board that takes them. Each call promises what its phase and what was left to it make of the call, and none of them
// moves the board to the other phase.
pub trait Calls {
    // whether a trial stands
    ghost phase: { Self → Phase };

    // its sheet, and the older ones that a trial can go back to
    ghost view: { Self → Left };

    // Any of the five edits.
    fn edit(&mut self, edit: Edit) -> Result<(), Refusal>
        ensures said { result ≡ answer (edit_refusal (phase self.old) (view self.old) edit) }
        ensures stays { phase self.new ≡ phase self.old }
        ensures left { view self.new ≡ called (Edits {f = phase self.old} edit) (view self.old) }
        ensures past { CarriesOn (Edits {f = phase self.old} edit) (view self.old) (view self.new) };

    // The sheet as it stands, to read.
    fn sheet(&self) -> &Sheet
        ensures { contents result.now ≡ (view self.now).sheet };

    // Puts a case with this need and allowed set into an empty row.
    fn enter(&mut self, row: usize, need: u64, allowed: u64) -> Result<(), Refusal>
        ensures said { result ≡ answer (edit_refusal (phase self.old) (view self.old) (Enter row need allowed)) }
        ensures stays { phase self.new ≡ phase self.old }
        ensures left { view self.new ≡ called (Edits {f = phase self.old} (Enter row need allowed)) (view self.old) }
        ensures past { CarriesOn (Edits {f = phase self.old} (Enter row need allowed)) (view self.old) (view self.new) }
    {
        self.edit(Edit::Enter(row, need, allowed))
    }

    // Empties a row.
    fn withdraw(&mut self, row: usize) -> Result<(), Refusal>
        ensures said { result ≡ answer (edit_refusal (phase self.old) (view self.old) (Withdraw row)) }
        ensures stays { phase self.new ≡ phase self.old }
        ensures left { view self.new ≡ called (Edits {f = phase self.old} (Withdraw row)) (view self.old) }
        ensures past { CarriesOn (Edits {f = phase self.old} (Withdraw row)) (view self.old) (view self.new) }
    {
        self.edit(Edit::Withdraw(row))
    }

    // Replaces the allowed set of the case in a row.
    fn allow(&mut self, row: usize, allowed: u64) -> Result<(), Refusal>
        ensures said { result ≡ answer (edit_refusal (phase self.old) (view self.old) (Allow row allowed)) }
        ensures stays { phase self.new ≡ phase self.old }
        ensures left { view self.new ≡ called (Edits {f = phase self.old} (Allow row allowed)) (view self.old) }
        ensures past { CarriesOn (Edits {f = phase self.old} (Allow row allowed)) (view self.old) (view self.new) }
    {
        self.edit(Edit::Allow(row, allowed))
    }

    // Opens a slot at this price, or changes its price.
    fn price(&mut self, slot: usize, price: i64) -> Result<(), Refusal>
        ensures said { result ≡ answer (edit_refusal (phase self.old) (view self.old) (Price slot price)) }
        ensures stays { phase self.new ≡ phase self.old }
        ensures left { view self.new ≡ called (Edits {f = phase self.old} (Price slot price)) (view self.old) }
        ensures past { CarriesOn (Edits {f = phase self.old} (Price slot price)) (view self.old) (view self.new) }
    {
        self.edit(Edit::Price(slot, price))
    }

    // Closes an open slot.
    fn close(&mut self, slot: usize) -> Result<(), Refusal>
        ensures said { result ≡ answer (edit_refusal (phase self.old) (view self.old) (Close slot)) }
        ensures stays { phase self.new ≡ phase self.old }
        ensures left { view self.new ≡ called (Edits {f = phase self.old} (Close slot)) (view self.old) }
        ensures past { CarriesOn (Edits {f = phase self.old} (Close slot)) (view self.old) (view self.new) }
    {
        self.edit(Edit::Close(slot))
    }

    // The case in a row, or nothing where the row is empty or above 15.
    fn case(&self, row: usize) -> Option<Case>
        ensures said { option_map entry result ≡ case_in (view self.now).sheet row }
        ensures past { CarriesOn (AsksCase {f = phase self.now} row) (view self.now) (view self.now) }
    {
        self.sheet().case(row)
    }

    // The price of a slot, or nothing where it is closed or above 63.
    fn price_of(&self, slot: usize) -> Option<SlotPrice>
        ensures said { option_map amount result ≡ price_in (view self.now).sheet slot }
        ensures past { CarriesOn (AsksPrice {f = phase self.now} slot) (view self.now) (view self.now) }
    {
        self.sheet().price_of(slot)
    }
}
